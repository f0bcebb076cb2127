//! Certificates and keys of other protocols: RFC 6698 (TLSA), RFC 8162 (SMIMEA), RFC 4255 (SSHFP).
ghost use Rattle.std.specs.Prelude.{◌≡◌, ⊤, Some};
ghost use Rattle.octseq_dns_data.specs.Typed.{certificate_form, sshfp_form, sshfp_of, tlsa_of};

use crate::data::formed::Formed;
use crate::data::some_octets::SomeOctets;
use crate::layout::{Field, Layout, Tail};
use octseq::AsOctets;
use octseq::octets_text::write_hex;
use octseq_format::{Fields, Format, U8};
use std::alloc::AllocError;
use std::fmt;

/// A certificate association, in TLSA (RFC 6698, 2.1) and SMIMEA (RFC 8162, 2).
#[derive(Debug)]
pub struct Tlsa<R: AsOctets> {
    /// How the certificate is used.
    pub cert_usage: u8,
    /// Which part of the certificate is matched.
    pub selector: u8,
    /// The hash by which it is matched, if any.
    pub matching_type: u8,
    /// The certificate association data: that part, or its hash.
    pub cert_assoc_data: SomeOctets<R>,
}

impl<R: AsOctets + Copy> Copy for Tlsa<R> {}

impl<R: AsOctets + Copy> Clone for Tlsa<R> {
    ghost is_clone = { λ tlsa copy. copy ≡ tlsa };

    ghost is_infallible = { λ _. ⊤ };

    fn clone(&self) -> Result<Self, AllocError> {
        Ok(*self)
    }
}

impl<R: AsOctets + Copy> Fields<R> for Tlsa<R> {
    type Format = (U8, U8, U8, Formed<SomeOctets<R>>);

    ghost fields = { λ tlsa. (tlsa.cert_usage, tlsa.selector, tlsa.matching_type, tlsa.cert_assoc_data) };

    fn from_fields(parts: <Self::Format as Format<R>>::Value) -> Self {
        let (cert_usage, selector, matching_type, cert_assoc_data) = parts;
        Tlsa {
            cert_usage,
            selector,
            matching_type,
            cert_assoc_data,
        }
    }

    fn to_fields(&self) -> <Self::Format as Format<R>>::Value {
        (
            self.cert_usage,
            self.selector,
            self.matching_type,
            self.cert_assoc_data,
        )
    }
}

/// How the text of a certificate association is read: RFC 6698, 2.2.
pub(crate) const TLSA_LAYOUT: Layout = Layout {
    fields: &[Field::U8, Field::U8, Field::U8],
    tail: Tail::Hex,
};

/// Prints the three numbers, and the octets in hexadecimal.
impl<R: AsOctets + Copy> fmt::Display for Tlsa<R> {
    ghost output = { λ tlsa. Some (certificate_form.text (tlsa_of tlsa)) };

    fn fmt<W: fmt::Write>(&self, f: &mut fmt::Formatter<W>) -> fmt::Result {
        let Tlsa {
            cert_usage,
            selector,
            matching_type,
            cert_assoc_data,
        } = self;
        write!(f, "{cert_usage} {selector} {matching_type} ")?;
        write_hex(f, cert_assoc_data.as_slice())
    }
}

/// The fingerprint of a host's SSH key: RFC 4255, 3.1.
#[derive(Debug)]
pub struct Sshfp<R: AsOctets> {
    /// The algorithm of the key.
    pub algorithm: u8,
    /// The algorithm of the fingerprint.
    pub fingerprint_type: u8,
    /// The fingerprint.
    pub fingerprint: SomeOctets<R>,
}

impl<R: AsOctets + Copy> Copy for Sshfp<R> {}

impl<R: AsOctets + Copy> Clone for Sshfp<R> {
    ghost is_clone = { λ sshfp copy. copy ≡ sshfp };

    ghost is_infallible = { λ _. ⊤ };

    fn clone(&self) -> Result<Self, AllocError> {
        Ok(*self)
    }
}

impl<R: AsOctets + Copy> Fields<R> for Sshfp<R> {
    type Format = (U8, U8, Formed<SomeOctets<R>>);

    ghost fields = { λ sshfp. (sshfp.algorithm, sshfp.fingerprint_type, sshfp.fingerprint) };

    fn from_fields(parts: <Self::Format as Format<R>>::Value) -> Self {
        let (algorithm, fingerprint_type, fingerprint) = parts;
        Sshfp {
            algorithm,
            fingerprint_type,
            fingerprint,
        }
    }

    fn to_fields(&self) -> <Self::Format as Format<R>>::Value {
        (self.algorithm, self.fingerprint_type, self.fingerprint)
    }
}

/// How the text of a fingerprint is read: RFC 4255, 3.2.
pub(crate) const SSHFP_LAYOUT: Layout = Layout {
    fields: &[Field::U8, Field::U8],
    tail: Tail::Hex,
};

/// Prints both numbers, and the fingerprint in hexadecimal.
impl<R: AsOctets + Copy> fmt::Display for Sshfp<R> {
    ghost output = { λ sshfp. Some (sshfp_form.text (sshfp_of sshfp)) };

    fn fmt<W: fmt::Write>(&self, f: &mut fmt::Formatter<W>) -> fmt::Result {
        let Sshfp {
            algorithm,
            fingerprint_type,
            fingerprint,
        } = self;
        write!(f, "{algorithm} {fingerprint_type} ")?;
        write_hex(f, fingerprint.as_slice())
    }
}
