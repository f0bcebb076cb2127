//! Certification authority authorization: RFC 8659, 4.1.
ghost use Rattle.std.specs.Prelude.{◌≡◌, ⊤, Some};
ghost use Rattle.octseq_dns_data.specs.Typed.{caa_form, caa_of};

use crate::data::formed::Formed;
use crate::data::some_octets::CaaTag;
use crate::layout::{Field, Layout, Tail};
use crate::tag::write_tag;
use octseq::octets_text::write_string;
use octseq::{AsOctets, Parser};
use octseq_format::{Counted, Fields, Format, Nested, U8};
use std::alloc::AllocError;
use std::fmt;

/// Certification authority authorization: who may issue certificates for a name.
#[derive(Debug)]
pub struct Caa<R: AsOctets> {
    /// The flags: whether an issuer must understand the property.
    pub flags: u8,
    /// The property tag.
    pub tag: CaaTag<R>,
    /// The property value, as a parser of the message limited to it.
    pub value: Parser<R>,
}

impl<R: AsOctets + Copy> Copy for Caa<R> {}

impl<R: AsOctets + Copy> Clone for Caa<R> {
    ghost is_clone = { λ caa copy. copy ≡ caa };

    ghost is_infallible = { λ _. ⊤ };

    fn clone(&self) -> Result<Self, AllocError> {
        Ok(*self)
    }
}

impl<R: AsOctets + Copy> Fields<R> for Caa<R> {
    type Format = (U8, Counted<U8, Formed<CaaTag<R>>, 0>, Nested);

    ghost fields = { λ caa. (caa.flags, caa.tag, caa.value) };

    fn from_fields(parts: <Self::Format as Format<R>>::Value) -> Self {
        let (flags, tag, value) = parts;
        Caa { flags, tag, value }
    }

    fn to_fields(&self) -> <Self::Format as Format<R>>::Value {
        (self.flags, self.tag, self.value)
    }
}

/// How its text is read: RFC 8659, 4.1.1.
pub(crate) const LAYOUT: Layout = Layout {
    fields: &[Field::U8, Field::Tag],
    tail: Tail::Value,
};

/// Prints the flags, the tag as it is, and the value as a string in `"`.
impl<R: AsOctets + Copy> fmt::Display for Caa<R> {
    ghost output = { λ caa. Some (caa_form.text (caa_of caa)) };

    fn fmt<W: fmt::Write>(&self, f: &mut fmt::Formatter<W>) -> fmt::Result {
        let flags = self.flags;
        write!(f, "{flags} ")?;
        write_tag(f, self.tag.as_slice())?;
        f.write_char(' ')?;
        write_string(f, self.value.peek_all())
    }
}
