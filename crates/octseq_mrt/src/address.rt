//! Addresses, AS numbers, and optional numbers.
ghost use Rattle.std.specs.Prelude.{◌≡◌, ◌<◌, ◌≤◌, ◌^◌, ◌↔◌, take, IsErr, IsTrue, IfOk};
ghost use Rattle.octseq.specs.Parser.{window};
ghost use Rattle.octseq_format.specs.Laws.{NoneAt};
ghost use Rattle.octseq_bgp.specs.Parts.{IsNumber};
ghost use Rattle.octseq_bgp.specs.Path.{asn_size};
ghost use Rattle.octseq_mrt.specs.Written.{FitsFamily, address_octets};
ghost use Rattle.octseq_mrt.specs.Address.{address_of, IsAddress, IsFamily, IsNumberIf};

use octseq::{AsOctets, Malformed, Parser};
use octseq_bgp::attribute::Asn;
use octseq_bgp::family::Afi;
use octseq_format::{Format, OctetArray, U16Be, U32Be};
use std::net::{IpAddr, Ipv4Addr, Ipv6Addr};

/// Reads the next address of a family.
pub(crate) fn parse_address<R: AsOctets + Copy>(
    parser: &mut Parser<R>,
    afi: Afi,
) -> Result<IpAddr, Malformed>
    ensures address { IfOk result (λ it. IsAddress afi (window parser.old) (address_of it) (window parser.new)) }
    ensures malformed { IsErr result → NoneAt (IsAddress afi) (window parser.old) }
{
    match afi {
        Afi::Ipv4 => {
            let octets = <OctetArray<4> as Format<R>>::parse(parser)?;
            Ok(IpAddr::V4(Ipv4Addr::from_octets(octets)))
        }
        Afi::Ipv6 => {
            let octets = <OctetArray<16> as Format<R>>::parse(parser)?;
            Ok(IpAddr::V6(Ipv6Addr::from_octets(octets)))
        }
    }
}

/// Whether an address is of a family.
pub(crate) fn is_of_family(addr: IpAddr, afi: Afi) -> bool
    ensures { IsTrue result ↔ FitsFamily afi (address_of addr) }
{
    match (addr, afi) {
        (IpAddr::V4(_), Afi::Ipv4) | (IpAddr::V6(_), Afi::Ipv6) => true,
        _ => false,
    }
}

/// Returns the octets of an address, and how many of the sixteen these are.
pub(crate) fn address_octets(addr: IpAddr) -> ([u8; 16], usize)
    ensures octets { take result.1 result.0 ≡ address_octets (address_of addr) }
    ensures most { result.1 ≤ 16 }
{
    match addr {
        IpAddr::V4(addr) => {
            let mut octets = [0; 16];
            octets[..4].copy_from_slice(&addr.octets());
            (octets, 4)
        }
        IpAddr::V6(addr) => (addr.octets(), 16),
    }
}

/// Whether an AS number fits four octets, or two.
pub(crate) fn fits_asn(asn: Asn, wide: bool) -> bool
    ensures { IsTrue result ↔ (asn.0 < 256 ^ asn_size wide) }
{
    wide || asn.0 < 0x1_0000
}

/// Reads the next address family number.
pub(crate) fn parse_family<R: AsOctets + Copy>(parser: &mut Parser<R>) -> Result<Afi, Malformed>
    ensures family { IfOk result (λ afi. IsFamily (window parser.old) afi (window parser.new)) }
    ensures malformed { IsErr result → NoneAt IsFamily (window parser.old) }
{
    let number = U16Be::parse(parser)?;
    match number {
        1 => Ok(Afi::Ipv4),
        2 => Ok(Afi::Ipv6),
        _ => Err(Malformed),
    }
}

/// Reads the next AS number, of four octets or two.
pub(crate) fn parse_asn<R: AsOctets + Copy>(
    parser: &mut Parser<R>,
    wide: bool,
) -> Result<Asn, Malformed>
    ensures asn { IfOk result (λ asn. IsNumber (asn_size wide) (window parser.old) asn.0 (window parser.new)) }
    ensures malformed { IsErr result → NoneAt (IsNumber (asn_size wide)) (window parser.old) }
{
    if wide {
        Ok(Asn(U32Be::parse(parser)?))
    } else {
        Ok(Asn(u32::from(U16Be::parse(parser)?)))
    }
}

/// Reads the next four octets as a number, if there is one; otherwise nothing.
pub(crate) fn parse_optional<R: AsOctets + Copy>(
    parser: &mut Parser<R>,
    has: bool,
) -> Result<Option<u32>, Malformed>
    ensures number { IfOk result (λ number. IsNumberIf has (window parser.old) number (window parser.new)) }
    ensures malformed { IsErr result → NoneAt (IsNumberIf has) (window parser.old) }
{
    if !has {
        return Ok(None);
    }
    Ok(Some(U32Be::parse(parser)?))
}
