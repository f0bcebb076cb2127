//! Host information: RFC 1035, 3.3.2.
ghost use Rattle.std.specs.Prelude.{◌≡◌, ⊤, Some};
ghost use Rattle.octseq_dns_data.specs.Typed.{hinfo_form, hinfo_of};

use crate::data::formed::Formed;
use crate::data::txt::CharStr;
use crate::layout::{Field, Layout, Tail};
use octseq::AsOctets;
use octseq_format::{Counted, Fields, Format, U8};
use std::alloc::AllocError;
use std::fmt;

/// Host information: RFC 1035, 3.3.2.
#[derive(Debug)]
pub struct Hinfo<R: AsOctets> {
    /// The processor.
    pub cpu: CharStr<R>,
    /// The operating system.
    pub os: CharStr<R>,
}

impl<R: AsOctets + Copy> Copy for Hinfo<R> {}

impl<R: AsOctets + Copy> Clone for Hinfo<R> {
    ghost is_clone = { λ hinfo copy. copy ≡ hinfo };

    ghost is_infallible = { λ _. ⊤ };

    fn clone(&self) -> Result<Self, AllocError> {
        Ok(*self)
    }
}

impl<R: AsOctets + Copy> Fields<R> for Hinfo<R> {
    type Format = (
        Counted<U8, Formed<CharStr<R>>, 0>,
        Counted<U8, Formed<CharStr<R>>, 0>,
    );

    ghost fields = { λ hinfo. (hinfo.cpu, hinfo.os) };

    fn from_fields(parts: <Self::Format as Format<R>>::Value) -> Self {
        let (cpu, os) = parts;
        Hinfo { cpu, os }
    }

    fn to_fields(&self) -> <Self::Format as Format<R>>::Value {
        (self.cpu, self.os)
    }
}

/// How its text is read: RFC 1035, 3.3.2.
pub(crate) const LAYOUT: Layout = Layout {
    fields: &[Field::String, Field::String],
    tail: Tail::Nothing,
};

/// Prints both strings.
impl<R: AsOctets + Copy> fmt::Display for Hinfo<R> {
    ghost output = { λ hinfo. Some (hinfo_form.text (hinfo_of hinfo)) };

    fn fmt<W: fmt::Write>(&self, f: &mut fmt::Formatter<W>) -> fmt::Result {
        let Hinfo { cpu, os } = self;
        write!(f, "{cpu} {os}")
    }
}
