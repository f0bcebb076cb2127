//! Next hops: RFC 4760, 3, RFC 2545, 3, and RFC 8950, 3.
ghost use Rattle.std.specs.Prelude.{IsErr, IfOk};
ghost use Rattle.octseq.specs.Parser.{window};
ghost use Rattle.octseq_bgp.specs.NextHop.{IsNextHop};
ghost use Rattle.octseq_bgp.specs.declared.attribute.next_hop.NextHop.{NextHop as Hop};

use crate::family::AfiSafiType;
use crate::whole::parse_all;
use octseq::{AsOctets, Malformed, Parser};
use octseq_format::OctetArray;

/// The next hops of reachable prefixes.
#[derive(Clone, Copy, Debug, PartialEq, Eq)]
pub enum NextHop {
    /// An IPv4 address.
    Ipv4([u8; 4]),
    /// An IPv6 address.
    Ipv6([u8; 16]),
    /// An IPv6 address, followed by a link-local one: RFC 2545, 3.
    Ipv6LinkLocal([u8; 16], [u8; 16]),
}

/// Two IPv6 addresses.
type TwoAddresses = (OctetArray<16>, OctetArray<16>);

impl NextHop {
    /// Reads all that a parser has left as next hops of a family: 4 octets (IPv4 only), 16, or 32.
    ///
    /// # Errors
    ///
    /// `Malformed` if they aren't one.
    #[inline(always)]
    pub fn parse<R: AsOctets + Copy>(
        parser: Parser<R>,
        family: AfiSafiType,
    ) -> Result<NextHop, Malformed>
        ensures is { IfOk result (IsNextHop family (window parser)) }
        ensures malformed { IsErr result → (it : Hop) → ¬ IsNextHop family (window parser) it }
    {
        if parser.remaining() == 16 {
            return Ok(NextHop::Ipv6(parse_all::<R, OctetArray<16>>(parser)?));
        }
        if parser.remaining() == 32 {
            let (global, link_local) = parse_all::<R, TwoAddresses>(parser)?;
            return Ok(NextHop::Ipv6LinkLocal(global, link_local));
        }
        if family.afi_number() != 1 {
            return Err(Malformed);
        }
        Ok(NextHop::Ipv4(parse_all::<R, OctetArray<4>>(parser)?))
    }
}
