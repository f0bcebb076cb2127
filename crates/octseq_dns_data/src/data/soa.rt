//! The start of authority: RFC 1035, 3.3.13.
ghost use Rattle.std.specs.Prelude.{◌≡◌, ⊤, Some};
ghost use Rattle.octseq_dns_data.specs.Typed.{soa_form, soa_of, soa_parts};

use crate::layout::{Field, Layout, Tail};
use octseq::AsOctets;
use octseq_dns_name::{DomainName, ParsedName};
use octseq_format::{Fields, Format, U32Be};
use std::alloc::AllocError;
use std::fmt;

/// The start of authority of a zone. Its times are in seconds.
#[derive(Debug)]
pub struct Soa<R: AsOctets> {
    /// The name of the primary name server.
    pub mname: ParsedName<R>,
    /// The mailbox of the person responsible, as a name.
    pub rname: ParsedName<R>,
    /// The serial number of this version of the zone.
    pub serial: u32,
    /// When a secondary server refreshes the zone.
    pub refresh: u32,
    /// When it retries a failed refresh.
    pub retry: u32,
    /// When it stops answering for the zone.
    pub expire: u32,
    /// How long a negative answer may be cached: RFC 2308, 4.
    pub minimum: u32,
}

impl<R: AsOctets + Copy> Copy for Soa<R> {}

impl<R: AsOctets + Copy> Clone for Soa<R> {
    ghost is_clone = { λ soa copy. copy ≡ soa };

    ghost is_infallible = { λ _. ⊤ };

    fn clone(&self) -> Result<Self, AllocError> {
        Ok(*self)
    }
}

impl<R: AsOctets + Copy> Fields<R> for Soa<R> {
    type Format = (DomainName, DomainName, U32Be, U32Be, U32Be, U32Be, U32Be);

    ghost fields = { λ soa. (
      soa.mname,
      soa.rname,
      soa.serial,
      soa.refresh,
      soa.retry,
      soa.expire,
      soa.minimum,
    ) };

    fn from_fields(parts: <Self::Format as Format<R>>::Value) -> Self {
        let (mname, rname, serial, refresh, retry, expire, minimum) = parts;
        Soa {
            mname,
            rname,
            serial,
            refresh,
            retry,
            expire,
            minimum,
        }
    }

    fn to_fields(&self) -> <Self::Format as Format<R>>::Value {
        (
            self.mname,
            self.rname,
            self.serial,
            self.refresh,
            self.retry,
            self.expire,
            self.minimum,
        )
    }
}

/// How its text is read: RFC 1035, 3.3.13.
pub(crate) const LAYOUT: Layout = Layout {
    fields: &[
        Field::Name,
        Field::Name,
        Field::U32,
        Field::U32,
        Field::U32,
        Field::U32,
        Field::U32,
    ],
    tail: Tail::Nothing,
};

/// Prints both names and the five numbers in order.
impl<R: AsOctets + Copy> fmt::Display for Soa<R> {
    ghost output = { λ soa. Some (soa_form.text (soa_parts (soa_of soa))) };

    fn fmt<W: fmt::Write>(&self, f: &mut fmt::Formatter<W>) -> fmt::Result {
        let Soa {
            mname,
            rname,
            serial,
            refresh,
            retry,
            expire,
            minimum,
        } = self;
        write!(
            f,
            "{mname} {rname} {serial} {refresh} {retry} {expire} {minimum}"
        )
    }
}
