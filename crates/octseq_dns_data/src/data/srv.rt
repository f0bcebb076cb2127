//! Service records: RFC 2782.
ghost use Rattle.std.specs.Prelude.{◌≡◌, ⊤, Some};
ghost use Rattle.octseq_dns_data.specs.Typed.{srv_form, srv_of, srv_parts};

use crate::layout::{Field, Layout, Tail};
use octseq::AsOctets;
use octseq_dns_name::{DomainName, ParsedName};
use octseq_format::{Fields, Format, U16Be};
use std::alloc::AllocError;
use std::fmt;

/// The location of a service.
#[derive(Debug)]
pub struct Srv<R: AsOctets> {
    /// The priority. The lowest is tried first.
    pub priority: u16,
    /// The weight: how often it is chosen among records of equal priority.
    pub weight: u16,
    /// The port of the service.
    pub port: u16,
    /// The name of the host.
    pub target: ParsedName<R>,
}

impl<R: AsOctets + Copy> Copy for Srv<R> {}

impl<R: AsOctets + Copy> Clone for Srv<R> {
    ghost is_clone = { λ srv copy. copy ≡ srv };

    ghost is_infallible = { λ _. ⊤ };

    fn clone(&self) -> Result<Self, AllocError> {
        Ok(*self)
    }
}

impl<R: AsOctets + Copy> Fields<R> for Srv<R> {
    type Format = (U16Be, U16Be, U16Be, DomainName);

    ghost fields = { λ srv. (srv.priority, srv.weight, srv.port, srv.target) };

    fn from_fields(parts: <Self::Format as Format<R>>::Value) -> Self {
        let (priority, weight, port, target) = parts;
        Srv {
            priority,
            weight,
            port,
            target,
        }
    }

    fn to_fields(&self) -> <Self::Format as Format<R>>::Value {
        (self.priority, self.weight, self.port, self.target)
    }
}

/// How its text is read: RFC 2782.
pub(crate) const LAYOUT: Layout = Layout {
    fields: &[Field::U16, Field::U16, Field::U16, Field::Name],
    tail: Tail::Nothing,
};

/// Prints the priority, the weight, the port and the target.
impl<R: AsOctets + Copy> fmt::Display for Srv<R> {
    ghost output = { λ srv. Some (srv_form.text (srv_parts (srv_of srv))) };

    fn fmt<W: fmt::Write>(&self, f: &mut fmt::Formatter<W>) -> fmt::Result {
        let Srv {
            priority,
            weight,
            port,
            target,
        } = self;
        write!(f, "{priority} {weight} {port} {target}")
    }
}
