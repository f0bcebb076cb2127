//! Identifiers of DHCP clients: RFC 4701.
ghost use Rattle.std.specs.Prelude.{◌≡◌, ⊤, Some};
ghost use Rattle.octseq_dns_data.specs.Typed.{dhcid_form, dhcid_of};

use crate::base_text::write_base64;
use crate::data::formed::Formed;
use crate::data::some_octets::SomeOctets;
use crate::layout::{Layout, Tail};
use octseq::AsOctets;
use octseq_format::{Fields, Format};
use std::alloc::AllocError;
use std::fmt;

/// Which DHCP client a name belongs to: RFC 4701, 3.1.
#[derive(Debug)]
pub struct Dhcid<R: AsOctets> {
    /// The identifier type, the digest type and the digest.
    pub identity: SomeOctets<R>,
}

impl<R: AsOctets + Copy> Copy for Dhcid<R> {}

impl<R: AsOctets + Copy> Clone for Dhcid<R> {
    ghost is_clone = { λ dhcid copy. copy ≡ dhcid };

    ghost is_infallible = { λ _. ⊤ };

    fn clone(&self) -> Result<Self, AllocError> {
        Ok(*self)
    }
}

impl<R: AsOctets + Copy> Fields<R> for Dhcid<R> {
    type Format = Formed<SomeOctets<R>>;

    ghost fields = { λ dhcid. dhcid.identity };

    fn from_fields(identity: <Self::Format as Format<R>>::Value) -> Self {
        Dhcid { identity }
    }

    fn to_fields(&self) -> <Self::Format as Format<R>>::Value {
        self.identity
    }
}

/// How its text is read: RFC 4701, 3.2.
pub(crate) const LAYOUT: Layout = Layout {
    fields: &[],
    tail: Tail::Base64,
};

/// Prints the octets in base 64.
impl<R: AsOctets + Copy> fmt::Display for Dhcid<R> {
    ghost output = { λ dhcid. Some (dhcid_form.text (dhcid_of dhcid)) };

    fn fmt<W: fmt::Write>(&self, f: &mut fmt::Formatter<W>) -> fmt::Result {
        write_base64(f, self.identity.as_slice())
    }
}
