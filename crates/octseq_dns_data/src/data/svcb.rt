//! Service bindings: RFC 9460, 2.2.
ghost use Rattle.std.specs.Prelude.{◌≡◌, ⊤, Some};
ghost use Rattle.octseq_dns_data.specs.Typed.{service_form, svcb_of};

use crate::data::formed::Formed;
use crate::data::uncompressed_name::UncompressedName;
use crate::layout::{Field, Layout, Tail};
use crate::svc_params::SvcParams;
use octseq::AsOctets;
use octseq_dns_name::ParsedName;
use octseq_format::{Fields, Format, U16Be};
use std::alloc::AllocError;
use std::fmt;

/// A service binding: how a service is reached, in SVCB and HTTPS.
#[derive(Debug)]
pub struct Svcb<R: AsOctets> {
    /// The priority. The lowest is tried first, and 0 makes the owner an alias.
    pub priority: u16,
    /// The name of the host.
    pub target: ParsedName<R>,
    /// The parameters.
    pub params: SvcParams<R>,
}

impl<R: AsOctets + Copy> Copy for Svcb<R> {}

impl<R: AsOctets + Copy> Clone for Svcb<R> {
    ghost is_clone = { λ svcb copy. copy ≡ svcb };

    ghost is_infallible = { λ _. ⊤ };

    fn clone(&self) -> Result<Self, AllocError> {
        Ok(*self)
    }
}

impl<R: AsOctets + Copy> Fields<R> for Svcb<R> {
    type Format = (U16Be, UncompressedName, Formed<SvcParams<R>>);

    ghost fields = { λ svcb. (svcb.priority, svcb.target, svcb.params) };

    fn from_fields(parts: <Self::Format as Format<R>>::Value) -> Self {
        let (priority, target, params) = parts;
        Svcb {
            priority,
            target,
            params,
        }
    }

    fn to_fields(&self) -> <Self::Format as Format<R>>::Value {
        (self.priority, self.target, self.params)
    }
}

/// How its text is read: RFC 9460, 2.1.
pub(crate) const LAYOUT: Layout = Layout {
    fields: &[Field::U16, Field::Name],
    tail: Tail::Params,
};

/// Prints the priority, the target, and each parameter after a space.
impl<R: AsOctets + Copy> fmt::Display for Svcb<R> {
    ghost output = { λ svcb. Some (service_form.text (svcb_of svcb)) };

    fn fmt<W: fmt::Write>(&self, f: &mut fmt::Formatter<W>) -> fmt::Result {
        let Svcb {
            priority,
            target,
            params,
        } = self;
        write!(f, "{priority} {target}{params}")
    }
}
