//! Path attributes: RFC 4271, 4.3.
ghost use Rattle.std.specs.Prelude.{◌≡◌, ◌<◌, ◌^◌, ◌++◌, None, Some, List, ℕ, length, take, OnOk};
ghost use Rattle.octseq_bgp.specs.Written.{AttributeFits, WrittenAttribute, length_width, typed_attribute};
ghost use Rattle.octseq_bgp.specs.Written.{attribute_octets};
ghost use Rattle.octseq_bgp.specs.Writing.{Pushes, more_attributes};

use crate::attribute::{AttributeType, Flags};
use crate::compose::{Slice, Tail};
use crate::message::update_builder::head::{Head, flags_for};
use crate::message::update_builder::part::Attributes;
use crate::message::update_builder::{UpdateBuilder, longest};
use octseq::builder::AsOctetsMut;
use octseq::{OctetsBuilder, Truncate, WriteError};

impl<B: OctetsBuilder + Truncate + AsOctetsMut> UpdateBuilder<B, Attributes> {
    /// Pushes an attribute as it is given, whole or not at all. Its length has two octets exactly if the flag 0x10 is
    /// set.
    ///
    /// # Errors
    ///
    /// `Malformed` exactly if it has more than 65,535 octets, or more than 255 without the flag. Otherwise `Short`
    /// exactly if the message would exceed the limit of the builder's type or the greatest length of the session.
    /// `Memory` if a request for memory was refused. The message is then unchanged.
    pub fn push_attribute_octets(
        &mut self,
        flags: Flags,
        type_code: u8,
        octets: &[u8],
    ) -> Result<(), WriteError>
        ensures pushed { Pushes B.limit B.asks (length octets.now < 256 ^ length_width flags.0) result
            (more_attributes self.old.update (record { flags = flags.0; kind = type_code; octets = octets.now }))
            None self.old self.new }
        ensures borrows { B.borrows self.new.octets ≡ B.borrows self.old.octets }
    {
        self.push_tail(flags.0, type_code, &Slice(octets))
    }

    /// Pushes an attribute with these octets.
    pub(super) fn push_tail<T: Tail>(
        &mut self,
        flags: u8,
        type_code: u8,
        tail: &T,
    ) -> Result<(), WriteError>
        requires { T.fits tail.now }
        ensures pushed { Pushes B.limit B.asks (length (T.octets tail.now) < 256 ^ length_width flags) result
            (more_attributes self.old.update
            (record { flags = flags; kind = type_code; octets = T.octets tail.now })) None self.old self.new }
        ensures borrows { B.borrows self.new.octets ≡ B.borrows self.old.octets }
    {
        let Some(head) = Head::new(flags, type_code, tail.len()) else {
            return Err(WriteError::Malformed);
        };
        let most = longest(&self.session);
        match self.octets.append_attribute(most, head.as_slice(), tail) {
            Ok(()) => {
                self.open_list = None;
                Ok(())
            }
            Err(error) => Err(error),
        }
    }

    /// Pushes an attribute of a type, whole or not at all, with the flags of the type (RFC 4271, 5). Its length has two
    /// octets, and the flag 0x10 is set, exactly if it has more than 255. The octets are those of a value, as
    /// [`ComposeAttribute::put`](crate::attribute::ComposeAttribute::put) writes them.
    ///
    /// # Errors
    ///
    /// `Malformed` exactly if it has more than 65,535 octets. Otherwise as
    /// [`push_attribute_octets`](Self::push_attribute_octets).
    pub fn push_attribute(&mut self, kind: AttributeType, octets: &[u8]) -> Result<(), WriteError>
        ensures pushed { Pushes B.limit B.asks (length octets.now < 65536) result
            (more_attributes self.old.update (typed_attribute kind octets.now)) None self.old self.new }
        ensures borrows { B.borrows self.new.octets ≡ B.borrows self.old.octets }
    {
        let flags = flags_for(kind, octets.len());
        self.push_attribute_octets(Flags(flags), kind.number(), octets)
    }
}
