//! Authenticated denial of existence: RFC 4034, 4 (NSEC) and RFC 5155 (NSEC3).
ghost use Rattle.std.specs.Prelude.{◌≡◌, ⊤, Some, ◌∷◌, ◌++◌};
ghost use Rattle.std.specs.Fmt.{WritesOnOk, decimal};
ghost use Rattle.octseq.specs.Window.{rest};
ghost use Rattle.octseq_dns_data.specs.Txt.{string_place};
ghost use Rattle.octseq_dns_data.specs.Typed.{nsec3_form, nsec3_of, nsec3param_form};
ghost use Rattle.octseq_dns_data.specs.Typed.{nsec3param_of, nsec_form, nsec_of, salt_text};

use crate::base_text::write_base32hex;
use crate::data::formed::Formed;
use crate::data::some_octets::OwnerHash;
use crate::data::txt::CharStr;
use crate::data::uncompressed_name::UncompressedName;
use crate::layout::{Field, Layout, Tail};
use crate::rtype_bitmap::RtypeBitmap;
use octseq::AsOctets;
use octseq::octets_text::write_hex;
use octseq_dns_name::ParsedName;
use octseq_format::{Counted, Fields, Format, U8, U16Be};
use std::alloc::AllocError;
use std::fmt;

/// The next name of a zone, and the types that the owner name has: RFC 4034, 4.1.
#[derive(Debug)]
pub struct Nsec<R: AsOctets> {
    /// The next domain name.
    pub next_name: ParsedName<R>,
    /// The types of the owner name.
    pub types: RtypeBitmap<R>,
}

impl<R: AsOctets + Copy> Copy for Nsec<R> {}

impl<R: AsOctets + Copy> Clone for Nsec<R> {
    ghost is_clone = { λ nsec copy. copy ≡ nsec };

    ghost is_infallible = { λ _. ⊤ };

    fn clone(&self) -> Result<Self, AllocError> {
        Ok(*self)
    }
}

impl<R: AsOctets + Copy> Fields<R> for Nsec<R> {
    type Format = (UncompressedName, Formed<RtypeBitmap<R>>);

    ghost fields = { λ nsec. (nsec.next_name, nsec.types) };

    fn from_fields(parts: <Self::Format as Format<R>>::Value) -> Self {
        let (next_name, types) = parts;
        Nsec { next_name, types }
    }

    fn to_fields(&self) -> <Self::Format as Format<R>>::Value {
        (self.next_name, self.types)
    }
}

/// How the text of a next name is read: RFC 4034, 4.2.
pub(crate) const NSEC_LAYOUT: Layout = Layout {
    fields: &[Field::Name],
    tail: Tail::Types,
};

/// Prints the next name, and each type after a space.
impl<R: AsOctets + Copy> fmt::Display for Nsec<R> {
    ghost output = { λ nsec. Some (nsec_form.text (nsec_of nsec)) };

    fn fmt<W: fmt::Write>(&self, f: &mut fmt::Formatter<W>) -> fmt::Result {
        let Nsec { next_name, types } = self;
        write!(f, "{next_name}{types}")
    }
}

/// The next hashed owner name of a zone, and the types that the name has: RFC 5155, 3.2.
#[derive(Debug)]
pub struct Nsec3<R: AsOctets> {
    /// The hash algorithm.
    pub hash_algorithm: u8,
    /// The flags: whether the span may leave out unsigned delegations (opt-out).
    pub flags: u8,
    /// How many more times the hash is applied.
    pub iterations: u16,
    /// The salt, which is hashed with the name.
    pub salt: CharStr<R>,
    /// The next hashed owner name.
    pub next_owner: OwnerHash<R>,
    /// The types of the name.
    pub types: RtypeBitmap<R>,
}

impl<R: AsOctets + Copy> Copy for Nsec3<R> {}

impl<R: AsOctets + Copy> Clone for Nsec3<R> {
    ghost is_clone = { λ nsec copy. copy ≡ nsec };

    ghost is_infallible = { λ _. ⊤ };

    fn clone(&self) -> Result<Self, AllocError> {
        Ok(*self)
    }
}

impl<R: AsOctets + Copy> Fields<R> for Nsec3<R> {
    type Format = (
        U8,
        U8,
        U16Be,
        Counted<U8, Formed<CharStr<R>>, 0>,
        Counted<U8, Formed<OwnerHash<R>>, 0>,
        Formed<RtypeBitmap<R>>,
    );

    ghost fields = { λ nsec. (
      nsec.hash_algorithm,
      nsec.flags,
      nsec.iterations,
      nsec.salt,
      nsec.next_owner,
      nsec.types,
    ) };

    fn from_fields(parts: <Self::Format as Format<R>>::Value) -> Self {
        let (hash_algorithm, flags, iterations, salt, next_owner, types) = parts;
        Nsec3 {
            hash_algorithm,
            flags,
            iterations,
            salt,
            next_owner,
            types,
        }
    }

    fn to_fields(&self) -> <Self::Format as Format<R>>::Value {
        (
            self.hash_algorithm,
            self.flags,
            self.iterations,
            self.salt,
            self.next_owner,
            self.types,
        )
    }
}

/// How the text of a next hashed name is read: RFC 5155, 3.3.
pub(crate) const NSEC3_LAYOUT: Layout = Layout {
    fields: &[
        Field::U8,
        Field::U8,
        Field::U16,
        Field::Salt,
        Field::OwnerHash,
    ],
    tail: Tail::Types,
};

/// Prints the three numbers, the salt in hexadecimal, the next hash in base 32, and each type after a space.
impl<R: AsOctets + Copy> fmt::Display for Nsec3<R> {
    ghost output = { λ nsec. Some (nsec3_form.text (nsec3_of nsec)) };

    fn fmt<W: fmt::Write>(&self, f: &mut fmt::Formatter<W>) -> fmt::Result {
        let types = &self.types;
        write_hashed(f, self)?;
        f.write_char(' ')?;
        write_base32hex(f, self.next_owner.as_slice())?;
        write!(f, "{types}")
    }
}

/// The parameters by which a zone hashes its names: RFC 5155, 4.2.
#[derive(Debug)]
pub struct Nsec3param<R: AsOctets> {
    /// The hash algorithm.
    pub hash_algorithm: u8,
    /// The flags, which are 0.
    pub flags: u8,
    /// How many more times the hash is applied.
    pub iterations: u16,
    /// The salt, which is hashed with the name.
    pub salt: CharStr<R>,
}

impl<R: AsOctets + Copy> Copy for Nsec3param<R> {}

impl<R: AsOctets + Copy> Clone for Nsec3param<R> {
    ghost is_clone = { λ param copy. copy ≡ param };

    ghost is_infallible = { λ _. ⊤ };

    fn clone(&self) -> Result<Self, AllocError> {
        Ok(*self)
    }
}

impl<R: AsOctets + Copy> Fields<R> for Nsec3param<R> {
    type Format = (U8, U8, U16Be, Counted<U8, Formed<CharStr<R>>, 0>);

    ghost fields = { λ param. (param.hash_algorithm, param.flags, param.iterations, param.salt) };

    fn from_fields(parts: <Self::Format as Format<R>>::Value) -> Self {
        let (hash_algorithm, flags, iterations, salt) = parts;
        Nsec3param {
            hash_algorithm,
            flags,
            iterations,
            salt,
        }
    }

    fn to_fields(&self) -> <Self::Format as Format<R>>::Value {
        (self.hash_algorithm, self.flags, self.iterations, self.salt)
    }
}

/// How the text of parameters is read: RFC 5155, 4.3.
pub(crate) const NSEC3PARAM_LAYOUT: Layout = Layout {
    fields: &[Field::U8, Field::U8, Field::U16, Field::Salt],
    tail: Tail::Nothing,
};

/// Prints the three numbers, and the salt in hexadecimal, or `-` if it is empty.
impl<R: AsOctets + Copy> fmt::Display for Nsec3param<R> {
    ghost output = { λ param. Some (nsec3param_form.text (nsec3param_of param)) };

    fn fmt<W: fmt::Write>(&self, f: &mut fmt::Formatter<W>) -> fmt::Result {
        let Nsec3param {
            hash_algorithm,
            flags,
            iterations,
            salt,
        } = self;
        write!(f, "{hash_algorithm} {flags} {iterations} ")?;
        write_salt(f, salt.as_slice())
    }
}

/// Writes the numbers and the salt of a hash.
fn write_hashed<W: fmt::Write, R: AsOctets + Copy>(
    f: &mut fmt::Formatter<W>,
    nsec: &Nsec3<R>,
) -> fmt::Result
    ensures { WritesOnOk W.write_str_gives f.old result (decimal nsec.now.hash_algorithm
        ++ 32 ∷ decimal nsec.now.flags ++ 32 ∷ decimal nsec.now.iterations
        ++ 32 ∷ salt_text (rest (string_place nsec.now.salt))) f.new }
{
    let (algorithm, flags, iterations) = (nsec.hash_algorithm, nsec.flags, nsec.iterations);
    write!(f, "{algorithm} {flags} {iterations} ")?;
    write_salt(f, nsec.salt.as_slice())
}

/// Writes octets in hexadecimal, or `-` if there are none.
fn write_salt<W: fmt::Write>(f: &mut fmt::Formatter<W>, octets: &[u8]) -> fmt::Result
    ensures { WritesOnOk W.write_str_gives f.old result (salt_text octets.now) f.new }
{
    if octets.is_empty() {
        return f.write_char('-');
    }
    write_hex(f, octets)
}
