//! Addresses as record data: RFC 1035, 3.4.1, and RFC 3596, 2.2.
ghost use Rattle.std.specs.Prelude.{◌≡◌, ℕ, List, IfSome, IsNone};
ghost use Rattle.std.specs.Net.Addr.{ipv4_octets, ipv6_octets, ipv6_segments, segments_of};
ghost use Rattle.octseq_dns_data.specs.Data.{ParsedRdata};
ghost use Rattle.octseq_dns_data.specs.Typed.{rdata_of};

use crate::data::Data;
use crate::layout::{Field, Layout, Tail};
use octseq::AsOctets;
use std::net::{Ipv4Addr, Ipv6Addr};

impl<R: AsOctets> From<Ipv4Addr> for Data<R> {
    ghost from_gives = { λ address found. rdata_of found ≡ ParsedRdata.a (ipv4_octets address) };

    fn from(address: Ipv4Addr) -> Data<R> {
        Data::A(address.octets())
    }
}

impl<R: AsOctets> From<Ipv6Addr> for Data<R> {
    ghost from_gives = { λ address found. rdata_of found ≡ ParsedRdata.aaaa (ipv6_octets address) };

    fn from(address: Ipv6Addr) -> Data<R> {
        Data::Aaaa(address.octets())
    }
}

impl<R: AsOctets> Data<R> {
    /// Returns the IPv4 address, or `None` if the data isn't of type A.
    pub fn ipv4_addr(&self) -> Option<Ipv4Addr>
        ensures some { IfSome result (λ address. rdata_of self.now ≡ ParsedRdata.a (ipv4_octets address)) }
        ensures none { IsNone result → (octets : List ℕ) → ¬ (rdata_of self.now ≡ ParsedRdata.a octets) }
    {
        match self {
            Data::A(octets) => Some(Ipv4Addr::from_octets(*octets)),
            _ => None,
        }
    }

    /// Returns the IPv6 address, or `None` if the data isn't of type AAAA.
    pub fn ipv6_addr(&self) -> Option<Ipv6Addr>
        ensures some { IfSome result (λ address. (octets : List ℕ) × (rdata_of self.now ≡ ParsedRdata.aaaa octets)
            × (ipv6_segments address ≡ segments_of octets)) }
        ensures none { IsNone result → (octets : List ℕ) → ¬ (rdata_of self.now ≡ ParsedRdata.aaaa octets) }
    {
        match self {
            Data::Aaaa(octets) => Some(Ipv6Addr::from_octets(*octets)),
            _ => None,
        }
    }
}

/// How the text of an IPv4 address is read: RFC 1035, 3.4.1.
pub(crate) const A_LAYOUT: Layout = Layout {
    fields: &[Field::Ipv4],
    tail: Tail::Nothing,
};

/// How the text of an IPv6 address is read: RFC 3596, 2.4.
pub(crate) const AAAA_LAYOUT: Layout = Layout {
    fields: &[Field::Ipv6],
    tail: Tail::Nothing,
};
