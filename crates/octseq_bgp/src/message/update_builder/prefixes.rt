//! Withdrawn routes and announced prefixes: IPv4 unicast.
ghost use Rattle.std.specs.Prelude.{◌≡◌};
ghost use Rattle.octseq_bgp.specs.Written.{IsPrefixOf, written_prefix};
ghost use Rattle.octseq_bgp.specs.Writing.{Pushes, more_announced, more_withdrawn};
ghost use Rattle.octseq_bgp.specs.declared.family.AfiSafiType.TheVariants as family;

use crate::family::AfiSafiType;
use crate::message::update_builder::part::{Announced, Withdrawn};
use crate::message::update_builder::prefix_octets::{PrefixOctets, is_prefix_of};
use crate::message::update_builder::{UpdateBuilder, longest};
use crate::prefix::{PathId, Prefix};
use octseq::builder::AsOctetsMut;
use octseq::{OctetsBuilder, Truncate, WriteError};

impl<B: OctetsBuilder + Truncate + AsOctetsMut> UpdateBuilder<B, Withdrawn> {
    /// Pushes a withdrawn prefix, whole or not at all. Bits after its length are written as 0.
    ///
    /// # Errors
    ///
    /// `Malformed` exactly if it isn't an IPv4 prefix of at most 32 bits, or if it has a path id where the session has
    /// none for IPv4 unicast, or none where the session has them. Otherwise `Short` exactly if the message would exceed
    /// the limit of the builder's type or the greatest length of the session: 4,096 octets, or 65,535 if messages are
    /// extended. `Memory` if a request for memory was refused. The message is then unchanged.
    pub fn push_withdrawn(
        &mut self,
        prefix: &Prefix,
        path_id: Option<PathId>,
    ) -> Result<(), WriteError>
        ensures pushed { Pushes B.limit B.asks (IsPrefixOf self.old.session family.Ipv4Unicast prefix.now path_id)
            result (more_withdrawn self.old.update (written_prefix prefix.now path_id)) self.old.open_list
            self.old self.new }
        ensures borrows { B.borrows self.new.octets ≡ B.borrows self.old.octets }
    {
        if !is_prefix_of(&self.session, AfiSafiType::Ipv4Unicast, prefix, path_id) {
            return Err(WriteError::Malformed);
        }
        let octets = PrefixOctets::new(prefix, path_id);
        let most = longest(&self.session);
        self.octets.append_withdrawn(most, octets.as_slice())
    }
}

impl<B: OctetsBuilder + Truncate + AsOctetsMut> UpdateBuilder<B, Announced> {
    /// Pushes an announced prefix, whole or not at all. Bits after its length are written as 0.
    ///
    /// # Errors
    ///
    /// `Malformed` exactly if it isn't an IPv4 prefix of at most 32 bits, or if it has a path id where the session has
    /// none for IPv4 unicast, or none where the session has them. Otherwise `Short` exactly if the message would exceed
    /// the limit of the builder's type or the greatest length of the session: 4,096 octets, or 65,535 if messages are
    /// extended. `Memory` if a request for memory was refused. The message is then unchanged.
    pub fn push_announced(
        &mut self,
        prefix: &Prefix,
        path_id: Option<PathId>,
    ) -> Result<(), WriteError>
        ensures pushed { Pushes B.limit B.asks (IsPrefixOf self.old.session family.Ipv4Unicast prefix.now path_id)
            result (more_announced self.old.update (written_prefix prefix.now path_id)) self.old.open_list
            self.old self.new }
        ensures borrows { B.borrows self.new.octets ≡ B.borrows self.old.octets }
    {
        if !is_prefix_of(&self.session, AfiSafiType::Ipv4Unicast, prefix, path_id) {
            return Err(WriteError::Malformed);
        }
        let octets = PrefixOctets::new(prefix, path_id);
        let most = longest(&self.session);
        self.octets.append_announced(most, &octets)
    }
}
