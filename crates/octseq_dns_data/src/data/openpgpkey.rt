//! OpenPGP keys: RFC 7929.
ghost use Rattle.std.specs.Prelude.{◌≡◌, ⊤, Some};
ghost use Rattle.octseq_dns_data.specs.Typed.{openpgpkey_form, openpgpkey_of};

use crate::base_text::write_base64;
use crate::data::formed::Formed;
use crate::data::some_octets::SomeOctets;
use crate::layout::{Layout, Tail};
use octseq::AsOctets;
use octseq_format::{Fields, Format};
use std::alloc::AllocError;
use std::fmt;

/// The OpenPGP key of a mailbox: RFC 7929, 2.1.
#[derive(Debug)]
pub struct Openpgpkey<R: AsOctets> {
    /// The transferable public key.
    pub key: SomeOctets<R>,
}

impl<R: AsOctets + Copy> Copy for Openpgpkey<R> {}

impl<R: AsOctets + Copy> Clone for Openpgpkey<R> {
    ghost is_clone = { λ key copy. copy ≡ key };

    ghost is_infallible = { λ _. ⊤ };

    fn clone(&self) -> Result<Self, AllocError> {
        Ok(*self)
    }
}

impl<R: AsOctets + Copy> Fields<R> for Openpgpkey<R> {
    type Format = Formed<SomeOctets<R>>;

    ghost fields = { λ openpgpkey. openpgpkey.key };

    fn from_fields(key: <Self::Format as Format<R>>::Value) -> Self {
        Openpgpkey { key }
    }

    fn to_fields(&self) -> <Self::Format as Format<R>>::Value {
        self.key
    }
}

/// How its text is read: RFC 7929, 2.3.
pub(crate) const LAYOUT: Layout = Layout {
    fields: &[],
    tail: Tail::Base64,
};

/// Prints the key in base 64.
impl<R: AsOctets + Copy> fmt::Display for Openpgpkey<R> {
    ghost output = { λ openpgpkey. Some (openpgpkey_form.text (openpgpkey_of openpgpkey)) };

    fn fmt<W: fmt::Write>(&self, f: &mut fmt::Formatter<W>) -> fmt::Result {
        write_base64(f, self.key.as_slice())
    }
}
