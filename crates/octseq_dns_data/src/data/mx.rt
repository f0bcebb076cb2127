//! Mail exchanges: RFC 1035, 3.3.9.
ghost use Rattle.std.specs.Prelude.{◌≡◌, ⊤, Some};
ghost use Rattle.octseq_dns_data.specs.Typed.{mx_form, mx_of, mx_parts};

use crate::layout::{Field, Layout, Tail};
use octseq::AsOctets;
use octseq_dns_name::{DomainName, ParsedName};
use octseq_format::{Fields, Format, U16Be};
use std::alloc::AllocError;
use std::fmt;

/// A mail exchange.
#[derive(Debug)]
pub struct Mx<R: AsOctets> {
    /// The preference. Lower values are preferred.
    pub preference: u16,
    /// The name of the host.
    pub exchange: ParsedName<R>,
}

impl<R: AsOctets + Copy> Copy for Mx<R> {}

impl<R: AsOctets + Copy> Clone for Mx<R> {
    ghost is_clone = { λ mx copy. copy ≡ mx };

    ghost is_infallible = { λ _. ⊤ };

    fn clone(&self) -> Result<Self, AllocError> {
        Ok(*self)
    }
}

impl<R: AsOctets + Copy> Fields<R> for Mx<R> {
    type Format = (U16Be, DomainName);

    ghost fields = { λ mx. (mx.preference, mx.exchange) };

    fn from_fields(parts: <Self::Format as Format<R>>::Value) -> Self {
        let (preference, exchange) = parts;
        Mx {
            preference,
            exchange,
        }
    }

    fn to_fields(&self) -> <Self::Format as Format<R>>::Value {
        (self.preference, self.exchange)
    }
}

/// How its text is read: RFC 1035, 3.3.9.
pub(crate) const LAYOUT: Layout = Layout {
    fields: &[Field::U16, Field::Name],
    tail: Tail::Nothing,
};

/// Prints the preference and the exchange.
impl<R: AsOctets + Copy> fmt::Display for Mx<R> {
    ghost output = { λ mx. Some (mx_form.text (mx_parts (mx_of mx))) };

    fn fmt<W: fmt::Write>(&self, f: &mut fmt::Formatter<W>) -> fmt::Result {
        let Mx {
            preference,
            exchange,
        } = self;
        write!(f, "{preference} {exchange}")
    }
}
