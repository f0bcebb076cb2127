//! URI records: RFC 7553.
ghost use Rattle.std.specs.Prelude.{◌≡◌, ⊤, Some};
ghost use Rattle.octseq_dns_data.specs.Typed.{uri_form, uri_of};

use crate::data::formed::Formed;
use crate::data::some_octets::SomeOctets;
use crate::layout::{Field, Layout, Tail};
use octseq::AsOctets;
use octseq::octets_text::write_string;
use octseq_format::{Fields, Format, U16Be};
use std::alloc::AllocError;
use std::fmt;

/// The location of a service, as a URI.
#[derive(Debug)]
pub struct Uri<R: AsOctets> {
    /// The priority. The lowest is tried first.
    pub priority: u16,
    /// The weight: how often it is chosen among records of equal priority.
    pub weight: u16,
    /// The URI.
    pub target: SomeOctets<R>,
}

impl<R: AsOctets + Copy> Copy for Uri<R> {}

impl<R: AsOctets + Copy> Clone for Uri<R> {
    ghost is_clone = { λ uri copy. copy ≡ uri };

    ghost is_infallible = { λ _. ⊤ };

    fn clone(&self) -> Result<Self, AllocError> {
        Ok(*self)
    }
}

impl<R: AsOctets + Copy> Fields<R> for Uri<R> {
    type Format = (U16Be, U16Be, Formed<SomeOctets<R>>);

    ghost fields = { λ uri. (uri.priority, uri.weight, uri.target) };

    fn from_fields(parts: <Self::Format as Format<R>>::Value) -> Self {
        let (priority, weight, target) = parts;
        Uri {
            priority,
            weight,
            target,
        }
    }

    fn to_fields(&self) -> <Self::Format as Format<R>>::Value {
        (self.priority, self.weight, self.target)
    }
}

/// How its text is read: RFC 7553, 4.5.
pub(crate) const LAYOUT: Layout = Layout {
    fields: &[Field::U16, Field::U16],
    tail: Tail::Target,
};

/// Prints both numbers, and the URI as a string in `"`.
impl<R: AsOctets + Copy> fmt::Display for Uri<R> {
    ghost output = { λ uri. Some (uri_form.text (uri_of uri)) };

    fn fmt<W: fmt::Write>(&self, f: &mut fmt::Formatter<W>) -> fmt::Result {
        let Uri {
            priority,
            weight,
            target,
        } = self;
        write!(f, "{priority} {weight} ")?;
        write_string(f, target.as_slice())
    }
}
