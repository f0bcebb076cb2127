//! Naming authority pointers: RFC 3403, 4.1.
ghost use Rattle.std.specs.Prelude.{◌≡◌, ⊤, Some};
ghost use Rattle.octseq_dns_data.specs.Typed.{naptr_form, naptr_of, naptr_parts};

use crate::data::formed::Formed;
use crate::data::txt::CharStr;
use crate::layout::{Field, Layout, Tail};
use octseq::AsOctets;
use octseq_dns_name::{DomainName, ParsedName};
use octseq_format::{Counted, Fields, Format, U8, U16Be};
use std::alloc::AllocError;
use std::fmt;

/// A naming authority pointer.
#[derive(Debug)]
pub struct Naptr<R: AsOctets> {
    /// The order in which records are processed, lowest first.
    pub order: u16,
    /// The preference among records of equal order, lowest first.
    pub preference: u16,
    /// The flags, which control the next step of the rewriting.
    pub flags: CharStr<R>,
    /// The services found along this path.
    pub services: CharStr<R>,
    /// The expression that makes the next name.
    pub regexp: CharStr<R>,
    /// The next name, if no expression makes it.
    pub replacement: ParsedName<R>,
}

impl<R: AsOctets + Copy> Copy for Naptr<R> {}

impl<R: AsOctets + Copy> Clone for Naptr<R> {
    ghost is_clone = { λ naptr copy. copy ≡ naptr };

    ghost is_infallible = { λ _. ⊤ };

    fn clone(&self) -> Result<Self, AllocError> {
        Ok(*self)
    }
}

impl<R: AsOctets + Copy> Fields<R> for Naptr<R> {
    type Format = (
        U16Be,
        U16Be,
        Counted<U8, Formed<CharStr<R>>, 0>,
        Counted<U8, Formed<CharStr<R>>, 0>,
        Counted<U8, Formed<CharStr<R>>, 0>,
        DomainName,
    );

    ghost fields = { λ naptr. (
      naptr.order,
      naptr.preference,
      naptr.flags,
      naptr.services,
      naptr.regexp,
      naptr.replacement,
    ) };

    fn from_fields(parts: <Self::Format as Format<R>>::Value) -> Self {
        let (order, preference, flags, services, regexp, replacement) = parts;
        Naptr {
            order,
            preference,
            flags,
            services,
            regexp,
            replacement,
        }
    }

    fn to_fields(&self) -> <Self::Format as Format<R>>::Value {
        (
            self.order,
            self.preference,
            self.flags,
            self.services,
            self.regexp,
            self.replacement,
        )
    }
}

/// How its text is read: RFC 3403, 4.1.
pub(crate) const LAYOUT: Layout = Layout {
    fields: &[
        Field::U16,
        Field::U16,
        Field::String,
        Field::String,
        Field::String,
        Field::Name,
    ],
    tail: Tail::Nothing,
};

/// Prints the order, the preference, the three strings and the replacement.
impl<R: AsOctets + Copy> fmt::Display for Naptr<R> {
    ghost output = { λ naptr. Some (naptr_form.text (naptr_parts (naptr_of naptr))) };

    fn fmt<W: fmt::Write>(&self, f: &mut fmt::Formatter<W>) -> fmt::Result {
        let Naptr {
            order,
            preference,
            flags,
            services,
            regexp,
            replacement,
        } = self;
        write!(
            f,
            "{order} {preference} {flags} {services} {regexp} {replacement}"
        )
    }
}
