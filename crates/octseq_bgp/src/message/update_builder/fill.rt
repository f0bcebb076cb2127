//! Filling a message with prefixes.
//!
//! A call pushes as many prefixes of a slice as the message takes, from the front, and says how many. The others go
//! into the next message:
//!
//! ```
//! let mut left = prefixes;
//! while !left.is_empty() {
//!     let mut update = begin()?;
//!     let count = update.fill_announced(left)?;
//!     left = &left[count..];
//!     send(update.finish());
//! }
//! ```
//!
//! Prefixes of other families than IPv4 unicast are listed by an attribute. In each message, `push_mp_reach` comes
//! first, and then `fill_reached`; or `push_mp_unreach`, and then `fill_unreached`.
//!
//! Where each message begins alike, no other way to divide the prefixes, in their order, makes fewer messages.
ghost use Rattle.std.specs.Prelude.{◌≡◌};
ghost use Rattle.octseq_bgp.specs.Filling.{FillsMessage, with_announced, with_in_last, with_withdrawn};
ghost use Rattle.octseq_bgp.specs.Writing.{IsReached, IsUnreached};
ghost use Rattle.octseq_bgp.specs.Written.{IsPrefixOf};
ghost use Rattle.octseq_bgp.specs.declared.attribute.attribute_type.AttributeType.TheVariants as kind;
ghost use Rattle.octseq_bgp.specs.declared.family.AfiSafiType.TheVariants as family;

use crate::message::update_builder::UpdateBuilder;
use crate::message::update_builder::part::{Announced, Attributes, Withdrawn};
use crate::prefix::{PathId, Prefix};
use octseq::builder::AsOctetsMut;
use octseq::{OctetsBuilder, Truncate, WriteError};

impl<B: OctetsBuilder + Truncate + AsOctetsMut> UpdateBuilder<B, Withdrawn> {
    /// Pushes withdrawn prefixes, from the first on, until the message is full, and returns how many. They are fewer
    /// than were given exactly if the message with the next one would exceed the limit of the builder's type or the
    /// greatest length of the session.
    ///
    /// # Errors
    ///
    /// `Malformed` exactly if [`push_withdrawn`](Self::push_withdrawn) would refuse the next prefix as malformed before
    /// the message is full. `Memory` if a request for memory was refused. The prefixes before it stay pushed.
    pub fn fill_withdrawn(
        &mut self,
        prefixes: &[(Prefix, Option<PathId>)],
    ) -> Result<usize, WriteError>
        ensures filled { FillsMessage B.limit B.asks
            (λ p. IsPrefixOf self.old.session family.Ipv4Unicast p.0 p.1)
            (with_withdrawn self.old.update) prefixes.now result self.old self.new }
        ensures borrows { B.borrows self.new.octets ≡ B.borrows self.old.octets }
    {
        let mut withdrawn = 0;
        for (prefix, path_id) in prefixes {
            match self.push_withdrawn(prefix, *path_id) {
                Ok(()) => withdrawn += 1,
                Err(WriteError::Short) => return Ok(withdrawn),
                Err(WriteError::Malformed) => return Err(WriteError::Malformed),
                Err(WriteError::Memory) => return Err(WriteError::Memory),
            }
        }
        Ok(withdrawn)
    }
}

impl<B: OctetsBuilder + Truncate + AsOctetsMut> UpdateBuilder<B, Attributes> {
    /// Appends prefixes to the MP_REACH_NLRI that was pushed last, from the first on, until the message is full, and
    /// returns how many. They are fewer than were given exactly if the message with the next one would exceed the limit
    /// of the builder's type or the greatest length of the session. More prefixes can be appended after them.
    ///
    /// # Errors
    ///
    /// `Malformed` exactly if [`push_reached`](Self::push_reached) would refuse the next prefix as malformed before the
    /// message is full: also if the last attribute isn't an MP_REACH_NLRI that can be continued. `Memory` if a request
    /// for memory was refused. The prefixes before it stay pushed.
    pub fn fill_reached(
        &mut self,
        prefixes: &[(Prefix, Option<PathId>)],
    ) -> Result<usize, WriteError>
        ensures filled { FillsMessage B.limit B.asks
            (λ p. IsReached self.old.session self.old.open_list p.0 p.1)
            (with_in_last kind.MpReachNlri self.old.update) prefixes.now result self.old self.new }
        ensures borrows { B.borrows self.new.octets ≡ B.borrows self.old.octets }
    {
        let mut reached = 0;
        for (prefix, path_id) in prefixes {
            match self.push_reached(prefix, *path_id) {
                Ok(()) => reached += 1,
                Err(WriteError::Short) => return Ok(reached),
                Err(WriteError::Malformed) => return Err(WriteError::Malformed),
                Err(WriteError::Memory) => return Err(WriteError::Memory),
            }
        }
        Ok(reached)
    }

    /// Appends prefixes to the MP_UNREACH_NLRI that was pushed last, from the first on, until the message is full, and
    /// returns how many, as [`fill_reached`](Self::fill_reached) does to an MP_REACH_NLRI.
    ///
    /// # Errors
    ///
    /// `Malformed` exactly if [`push_unreached`](Self::push_unreached) would refuse the next prefix as malformed before
    /// the message is full: also if the last attribute isn't an MP_UNREACH_NLRI that can be continued. `Memory` if a
    /// request for memory was refused. The prefixes before it stay pushed.
    pub fn fill_unreached(
        &mut self,
        prefixes: &[(Prefix, Option<PathId>)],
    ) -> Result<usize, WriteError>
        ensures filled { FillsMessage B.limit B.asks
            (λ p. IsUnreached self.old.session self.old.open_list p.0 p.1)
            (with_in_last kind.MpUnreachNlri self.old.update) prefixes.now result self.old self.new }
        ensures borrows { B.borrows self.new.octets ≡ B.borrows self.old.octets }
    {
        let mut unreached = 0;
        for (prefix, path_id) in prefixes {
            match self.push_unreached(prefix, *path_id) {
                Ok(()) => unreached += 1,
                Err(WriteError::Short) => return Ok(unreached),
                Err(WriteError::Malformed) => return Err(WriteError::Malformed),
                Err(WriteError::Memory) => return Err(WriteError::Memory),
            }
        }
        Ok(unreached)
    }
}

impl<B: OctetsBuilder + Truncate + AsOctetsMut> UpdateBuilder<B, Announced> {
    /// Pushes announced prefixes, from the first on, until the message is full, and returns how many. They are fewer
    /// than were given exactly if the message with the next one would exceed the limit of the builder's type or the
    /// greatest length of the session.
    ///
    /// # Errors
    ///
    /// `Malformed` exactly if [`push_announced`](Self::push_announced) would refuse the next prefix as malformed before
    /// the message is full. `Memory` if a request for memory was refused. The prefixes before it stay pushed.
    pub fn fill_announced(
        &mut self,
        prefixes: &[(Prefix, Option<PathId>)],
    ) -> Result<usize, WriteError>
        ensures filled { FillsMessage B.limit B.asks
            (λ p. IsPrefixOf self.old.session family.Ipv4Unicast p.0 p.1)
            (with_announced self.old.update) prefixes.now result self.old self.new }
        ensures borrows { B.borrows self.new.octets ≡ B.borrows self.old.octets }
    {
        let mut announced = 0;
        for (prefix, path_id) in prefixes {
            match self.push_announced(prefix, *path_id) {
                Ok(()) => announced += 1,
                Err(WriteError::Short) => return Ok(announced),
                Err(WriteError::Malformed) => return Err(WriteError::Malformed),
                Err(WriteError::Memory) => return Err(WriteError::Memory),
            }
        }
        Ok(announced)
    }
}
