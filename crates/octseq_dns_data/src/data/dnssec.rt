//! DNSSEC keys, digests and signatures: RFC 4034.
ghost use Rattle.std.specs.Prelude.{◌≡◌, ⊤, Some, [], ◌∷◌, ◌++◌};
ghost use Rattle.std.specs.Fmt.{WritesOnOk, decimal};
ghost use Rattle.octseq_dns_data.specs.Mnemonic.{rtype_text};
ghost use Rattle.octseq_dns_name.specs.Read.{name_of};
ghost use Rattle.octseq_dns_name.specs.Text.{name_text};
ghost use Rattle.octseq_dns_data.specs.Typed.{digest_form, dnskey_of, ds_of, key_form, rrsig_form, rrsig_of};

use crate::base_text::write_base64;
use crate::data::formed::Formed;
use crate::data::some_octets::SomeOctets;
use crate::data::uncompressed_name::UncompressedName;
use crate::iana::Rtype;
use crate::layout::{Field, Layout, Tail};
use octseq::AsOctets;
use octseq::octets_text::write_hex;
use octseq_dns_name::ParsedName;
use octseq_format::{Fields, Format, U8, U16Be, U32Be};
use std::alloc::AllocError;
use std::fmt;

/// The digest of a key of a child zone, in DS (RFC 4034, 5.1) and CDS (RFC 7344, 3.1).
#[derive(Debug)]
pub struct Ds<R: AsOctets> {
    /// The key tag.
    pub key_tag: u16,
    /// The algorithm of the key.
    pub algorithm: u8,
    /// The digest algorithm.
    pub digest_type: u8,
    /// The digest.
    pub digest: SomeOctets<R>,
}

impl<R: AsOctets + Copy> Copy for Ds<R> {}

impl<R: AsOctets + Copy> Clone for Ds<R> {
    ghost is_clone = { λ ds copy. copy ≡ ds };

    ghost is_infallible = { λ _. ⊤ };

    fn clone(&self) -> Result<Self, AllocError> {
        Ok(*self)
    }
}

impl<R: AsOctets + Copy> Fields<R> for Ds<R> {
    type Format = (U16Be, U8, U8, Formed<SomeOctets<R>>);

    ghost fields = { λ ds. (ds.key_tag, ds.algorithm, ds.digest_type, ds.digest) };

    fn from_fields(parts: <Self::Format as Format<R>>::Value) -> Self {
        let (key_tag, algorithm, digest_type, digest) = parts;
        Ds {
            key_tag,
            algorithm,
            digest_type,
            digest,
        }
    }

    fn to_fields(&self) -> <Self::Format as Format<R>>::Value {
        (self.key_tag, self.algorithm, self.digest_type, self.digest)
    }
}

/// How the text of a digest is read: RFC 4034, 5.3.
pub(crate) const DS_LAYOUT: Layout = Layout {
    fields: &[Field::U16, Field::U8, Field::U8],
    tail: Tail::Hex,
};

/// Prints the three numbers, and the digest in hexadecimal.
impl<R: AsOctets + Copy> fmt::Display for Ds<R> {
    ghost output = { λ ds. Some (digest_form.text (ds_of ds)) };

    fn fmt<W: fmt::Write>(&self, f: &mut fmt::Formatter<W>) -> fmt::Result {
        let Ds {
            key_tag,
            algorithm,
            digest_type,
            digest,
        } = self;
        write!(f, "{key_tag} {algorithm} {digest_type} ")?;
        write_hex(f, digest.as_slice())
    }
}

/// A public key of a zone, in DNSKEY (RFC 4034, 2.1) and CDNSKEY (RFC 7344, 3.2).
#[derive(Debug)]
pub struct Dnskey<R: AsOctets> {
    /// The flags: whether it is a zone key, and whether a secure entry point.
    pub flags: u16,
    /// The protocol, which is 3.
    pub protocol: u8,
    /// The algorithm of the key.
    pub algorithm: u8,
    /// The public key.
    pub public_key: SomeOctets<R>,
}

impl<R: AsOctets + Copy> Copy for Dnskey<R> {}

impl<R: AsOctets + Copy> Clone for Dnskey<R> {
    ghost is_clone = { λ key copy. copy ≡ key };

    ghost is_infallible = { λ _. ⊤ };

    fn clone(&self) -> Result<Self, AllocError> {
        Ok(*self)
    }
}

impl<R: AsOctets + Copy> Fields<R> for Dnskey<R> {
    type Format = (U16Be, U8, U8, Formed<SomeOctets<R>>);

    ghost fields = { λ key. (key.flags, key.protocol, key.algorithm, key.public_key) };

    fn from_fields(parts: <Self::Format as Format<R>>::Value) -> Self {
        let (flags, protocol, algorithm, public_key) = parts;
        Dnskey {
            flags,
            protocol,
            algorithm,
            public_key,
        }
    }

    fn to_fields(&self) -> <Self::Format as Format<R>>::Value {
        (self.flags, self.protocol, self.algorithm, self.public_key)
    }
}

/// How the text of a key is read: RFC 4034, 2.2.
pub(crate) const DNSKEY_LAYOUT: Layout = Layout {
    fields: &[Field::U16, Field::U8, Field::U8],
    tail: Tail::Base64,
};

/// Prints the three numbers, and the key in base 64.
impl<R: AsOctets + Copy> fmt::Display for Dnskey<R> {
    ghost output = { λ key. Some (key_form.text (dnskey_of key)) };

    fn fmt<W: fmt::Write>(&self, f: &mut fmt::Formatter<W>) -> fmt::Result {
        let Dnskey {
            flags,
            protocol,
            algorithm,
            public_key,
        } = self;
        write!(f, "{flags} {protocol} {algorithm} ")?;
        write_base64(f, public_key.as_slice())
    }
}

/// A signature of a record set: RFC 4034, 3.1. Its times are in seconds.
#[derive(Debug)]
pub struct Rrsig<R: AsOctets> {
    /// The type of the signed records.
    pub type_covered: u16,
    /// The algorithm of the signature.
    pub algorithm: u8,
    /// The number of labels of the original owner name.
    pub labels: u8,
    /// The TTL of the records in the zone.
    pub original_ttl: u32,
    /// When the signature expires.
    pub expiration: u32,
    /// When the signature becomes valid.
    pub inception: u32,
    /// The key tag.
    pub key_tag: u16,
    /// The name of the signer, which is the zone.
    pub signer_name: ParsedName<R>,
    /// The signature.
    pub signature: SomeOctets<R>,
}

impl<R: AsOctets + Copy> Copy for Rrsig<R> {}

impl<R: AsOctets + Copy> Clone for Rrsig<R> {
    ghost is_clone = { λ sig copy. copy ≡ sig };

    ghost is_infallible = { λ _. ⊤ };

    fn clone(&self) -> Result<Self, AllocError> {
        Ok(*self)
    }
}

impl<R: AsOctets + Copy> Fields<R> for Rrsig<R> {
    type Format = (
        U16Be,
        U8,
        U8,
        U32Be,
        U32Be,
        U32Be,
        U16Be,
        (UncompressedName, Formed<SomeOctets<R>>),
    );

    ghost fields = { λ sig. (
      sig.type_covered,
      sig.algorithm,
      sig.labels,
      sig.original_ttl,
      sig.expiration,
      sig.inception,
      sig.key_tag,
      (sig.signer_name, sig.signature),
    ) };

    fn from_fields(parts: <Self::Format as Format<R>>::Value) -> Self {
        let (
            type_covered,
            algorithm,
            labels,
            original_ttl,
            expiration,
            inception,
            key_tag,
            (signer_name, signature),
        ) = parts;
        Rrsig {
            type_covered,
            algorithm,
            labels,
            original_ttl,
            expiration,
            inception,
            key_tag,
            signer_name,
            signature,
        }
    }

    fn to_fields(&self) -> <Self::Format as Format<R>>::Value {
        (
            self.type_covered,
            self.algorithm,
            self.labels,
            self.original_ttl,
            self.expiration,
            self.inception,
            self.key_tag,
            (self.signer_name, self.signature),
        )
    }
}

/// How the text of a signature is read: RFC 4034, 3.2.
pub(crate) const RRSIG_LAYOUT: Layout = Layout {
    fields: &[
        Field::Rtype,
        Field::U8,
        Field::U8,
        Field::U32,
        Field::Time,
        Field::Time,
        Field::U16,
        Field::Name,
    ],
    tail: Tail::Base64,
};

/// Prints the type covered, the numbers, the signer's name, and the signature in base 64.
impl<R: AsOctets + Copy> fmt::Display for Rrsig<R> {
    ghost output = { λ sig. Some (rrsig_form.text (rrsig_of sig)) };

    fn fmt<W: fmt::Write>(&self, f: &mut fmt::Formatter<W>) -> fmt::Result {
        write_covered(f, self)?;
        write_times(f, self)?;
        write_signer(f, self)?;
        write_base64(f, self.signature.as_slice())
    }
}

/// Writes the type covered, the algorithm and the number of labels of a signature.
fn write_covered<W: fmt::Write, R: AsOctets + Copy>(
    f: &mut fmt::Formatter<W>,
    sig: &Rrsig<R>,
) -> fmt::Result
    ensures { WritesOnOk W.write_str_gives f.old result (rtype_text sig.now.type_covered
        ++ 32 ∷ decimal sig.now.algorithm ++ 32 ∷ decimal sig.now.labels ++ 32 ∷ []) f.new }
{
    let (algorithm, labels) = (sig.algorithm, sig.labels);
    let rtype = Rtype::from_int(sig.type_covered);
    write!(f, "{rtype} {algorithm} {labels} ")
}

/// Writes the TTL, the expiration and the inception of a signature.
fn write_times<W: fmt::Write, R: AsOctets + Copy>(
    f: &mut fmt::Formatter<W>,
    sig: &Rrsig<R>,
) -> fmt::Result
    ensures { WritesOnOk W.write_str_gives f.old result (decimal sig.now.original_ttl
        ++ 32 ∷ decimal sig.now.expiration ++ 32 ∷ decimal sig.now.inception ++ 32 ∷ []) f.new }
{
    let (ttl, expiration, inception) = (sig.original_ttl, sig.expiration, sig.inception);
    write!(f, "{ttl} {expiration} {inception} ")
}

/// Writes the key tag and the signer's name of a signature.
fn write_signer<W: fmt::Write, R: AsOctets + Copy>(
    f: &mut fmt::Formatter<W>,
    sig: &Rrsig<R>,
) -> fmt::Result
    ensures { WritesOnOk W.write_str_gives f.old result (decimal sig.now.key_tag
        ++ 32 ∷ name_text (name_of sig.now.signer_name).labels ++ 32 ∷ []) f.new }
{
    let (key_tag, name) = (sig.key_tag, sig.signer_name);
    write!(f, "{key_tag} {name} ")
}
