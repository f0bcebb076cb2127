//! Path attributes as values.
ghost use Rattle.std.specs.Prelude.{◌≡◌, None, length};
ghost use Rattle.octseq_bgp.specs.Written.{typed_attribute};
ghost use Rattle.octseq_bgp.specs.WrittenValue.{FitsValue, value_octets, value_type};
ghost use Rattle.octseq_bgp.specs.Writing.{Pushes, more_attributes};

use crate::attribute::ComposeAttribute;
use crate::compose::Valued;
use crate::message::update_builder::UpdateBuilder;
use crate::message::update_builder::head::flags_for;
use crate::message::update_builder::part::Attributes;
use octseq::builder::AsOctetsMut;
use octseq::{OctetsBuilder, Truncate, WriteError};

impl<B: OctetsBuilder + Truncate + AsOctetsMut> UpdateBuilder<B, Attributes> {
    /// Pushes the value of an attribute, whole or not at all, with the flags of its type (RFC 4271, 5). Its length has
    /// two octets, and the flag 0x10 is set, exactly if it has more than 255.
    ///
    /// # Errors
    ///
    /// `Malformed` exactly if the value doesn't fit: a number, a count or its octets don't, or a list that has one item
    /// or more has none. Otherwise as [`push_attribute_octets`](Self::push_attribute_octets).
    pub fn push_value<A: ComposeAttribute>(&mut self, value: &A) -> Result<(), WriteError>
        ensures pushed { Pushes B.limit B.asks (FitsValue self.old.session (A.says value.now)) result
            (more_attributes self.old.update (typed_attribute (value_type (A.says value.now))
            (value_octets self.old.session (A.says value.now)))) None self.old self.new }
        ensures borrows { B.borrows self.new.octets ≡ B.borrows self.old.octets }
    {
        match value.compose_len(&self.session) {
            Some(len) => self.push_fit(value, len),
            None => Err(WriteError::Malformed),
        }
    }

    /// Pushes the value of an attribute, which is known to fit, and has `len` octets.
    fn push_fit<A: ComposeAttribute>(&mut self, value: &A, len: usize) -> Result<(), WriteError>
        requires fit { FitsValue self.old.session (A.says value.now) }
        requires len { len ≡ length (value_octets self.old.session (A.says value.now)) }
        ensures pushed { Pushes B.limit B.asks (Unit {0}) result
            (more_attributes self.old.update (typed_attribute (value_type (A.says value.now))
            (value_octets self.old.session (A.says value.now)))) None self.old self.new }
        ensures borrows { B.borrows self.new.octets ≡ B.borrows self.old.octets }
    {
        let session = self.session;
        let kind = value.attribute_type();
        let tail = Valued {
            len,
            session: &session,
            value,
        };
        self.push_tail(flags_for(kind, len), kind.number(), &tail)
    }
}
