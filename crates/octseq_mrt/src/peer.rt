//! The peer index table: RFC 6396, 4.3.1.
ghost use Rattle.std.specs.Prelude.{◌≡◌, ◌+◌, ◌≤◌, ℕ, List, IsErr, IfOk, OnOk, ⊤};
ghost use Rattle.octseq.specs.Parser.{window};
ghost use Rattle.octseq.specs.Window.{left};
ghost use Rattle.octseq_format.specs.Laws.{NoneAt};
ghost use Rattle.octseq_format.specs.Row.{Many};
ghost use Rattle.octseq_mrt.specs.Listed.{PeersAhead, peers_once};
ghost use Rattle.octseq_mrt.specs.Peer as said;
ghost use Rattle.octseq_mrt.specs.Peer.{IsPeer, IsPeerIndexTable, peer_family};

use crate::address::{fits_asn, is_of_family, parse_address, parse_asn};
use octseq::{AsOctets, Malformed, Parser, Turns};
use octseq_bgp::attribute::Asn;
use octseq_bgp::family::Afi;
use octseq_format::{Counted, Format, Nested, U8, U16Be, U32Be};
use std::alloc::AllocError;
use std::net::IpAddr;

/// A peer of a collector.
#[derive(Clone, Copy, Debug, PartialEq, Eq)]
pub struct PeerEntry {
    /// The peer type: 1 if the address is IPv6, plus 2 if the AS number has four octets. Other bits have no meaning.
    pub peer_type: u8,
    /// The BGP identifier.
    pub bgp_id: u32,
    /// The address.
    pub addr: IpAddr,
    /// The AS number.
    pub asn: Asn,
}

/// Returns the family of a peer's address.
fn peer_family(peer_type: u8) -> Afi
    ensures { result ≡ peer_family peer_type }
{
    if peer_type % 2 == 1 {
        Afi::Ipv6
    } else {
        Afi::Ipv4
    }
}

impl PeerEntry {
    ghost use Rattle.std.specs.Prelude.{◌↔◌, IsTrue};
    ghost use Rattle.octseq_mrt.specs.Parsed.{peer_of};
    ghost use Rattle.octseq_mrt.specs.Peer.{has_wide_asn};
    ghost use Rattle.octseq_mrt.specs.Written.{FitsPeer};

    /// Whether the AS number has four octets.
    pub(crate) fn has_wide_asn(&self) -> bool
        ensures { result ≡ has_wide_asn self.now.peer_type }
    {
        self.peer_type / 2 % 2 == 1
    }

    /// Whether the type says the family of the address, and the AS number fits its octets.
    pub(crate) fn fits(self) -> bool
        ensures { IsTrue result ↔ FitsPeer (peer_of self) }
    {
        let has_family = is_of_family(self.addr, peer_family(self.peer_type));
        has_family && fits_asn(self.asn, self.has_wide_asn())
    }

    /// Reads the next peer.
    fn parse<R: AsOctets + Copy>(parser: &mut Parser<R>) -> Result<PeerEntry, Malformed>
        ensures peer { IfOk result (λ peer. IsPeer (window parser.old) (peer_of peer) (window parser.new)) }
        ensures malformed { IsErr result → NoneAt IsPeer (window parser.old) }
    {
        let peer_type = U8::parse(parser)?;
        let bgp_id = U32Be::parse(parser)?;
        let addr = parse_address(parser, peer_family(peer_type))?;
        let asn = parse_asn(parser, peer_type / 2 % 2 == 1)?;
        Ok(PeerEntry {
            peer_type,
            bgp_id,
            addr,
            asn,
        })
    }
}

/// An iterator over the peers of a table.
#[derive(Debug)]
pub struct Peers<R: AsOctets> {
    parser: Parser<R>,
    ghost ahead: { PeersAhead (window parser) } by { peers_once (window parser) },
}

impl<R: AsOctets + Copy> Copy for Peers<R> {}

impl<R: AsOctets + Copy> Clone for Peers<R> {
    ghost is_clone = { λ peers copy. copy ≡ peers };

    ghost is_infallible = { λ _. ⊤ };

    fn clone(&self) -> Result<Self, AllocError> {
        Ok(*self)
    }
}

impl<R: AsOctets + Copy> Peers<R> {
    ghost use Rattle.std.specs.Prelude.{length};
    ghost use Rattle.octseq_mrt.specs.Parsed.{peers_left};

    /// Returns the number of octets that are left. A peer has at least one.
    pub(crate) fn octets_left(&self) -> usize
        ensures { length (peers_left self.now) ≤ result }
    {
        self.parser.remaining()
    }
}

impl<R: AsOctets + Copy> Iterator for Peers<R> {
    ghost use Rattle.std.specs.Iterator.{YieldsFirstBy, item_count};
    ghost use Rattle.octseq_mrt.specs.Parsed.{peer_of, peers_left};

    type Item = PeerEntry;

    ghost next_gives = { YieldsFirstBy peer_of peers_left };

    ghost remaining = { item_count peers_left };

    fn next(&mut self) -> Option<PeerEntry> {
        if self.parser.remaining() == 0 {
            return None;
        }
        let mut parser = self.parser;
        match PeerEntry::parse(&mut parser) {
            Ok(peer) => {
                *self = Peers { parser };
                Some(peer)
            }
            Err(_) => unreachable!(),
        }
    }
}

/// Reads `count` peers, and counts a turn for each.
fn skip_peers<R: AsOctets + Copy>(
    parser: &mut Parser<R>,
    count: u16,
    turns: &mut Turns,
) -> Result<(), Malformed>
    ensures peers { OnOk result ((row : List said.Peer)
        × Many count IsPeer (window parser.old) row (window parser.new)) }
    ensures malformed { IsErr result → NoneAt (Many count IsPeer) (window parser.old) }
    ensures some { turns.old ≤ turns.new }
    ensures least { OnOk result (turns.old + count ≤ turns.new) }
    ensures turns { turns.new ≤ turns.old + left (window parser.old) }
{
    for taken in 0..count {
        let _peer = PeerEntry::parse(parser)?;
        turns.tick();
    }
    Ok(())
}

/// The peer index table.
#[derive(Debug)]
pub struct PeerIndexTable<R: AsOctets> {
    /// The BGP identifier of the collector.
    pub collector_bgp_id: u32,
    /// The view name, as a parser.
    pub view_name: Parser<R>,
    /// The peers. RIB entries refer to them by number, from 0.
    pub peers: Peers<R>,
}

impl<R: AsOctets + Copy> Copy for PeerIndexTable<R> {}

impl<R: AsOctets + Copy> Clone for PeerIndexTable<R> {
    ghost is_clone = { λ table copy. copy ≡ table };

    ghost is_infallible = { λ _. ⊤ };

    fn clone(&self) -> Result<Self, AllocError> {
        Ok(*self)
    }
}

impl<R: AsOctets + Copy> PeerIndexTable<R> {
    ghost use Rattle.std.specs.Prelude.{length};
    ghost use Rattle.octseq_mrt.specs.Parsed.{table_of, peers_left};

    /// Reads all that a parser has left as a peer index table, and counts a turn for each peer.
    pub(crate) fn parse_counted(
        parser: Parser<R>,
        turns: &mut Turns,
    ) -> Result<PeerIndexTable<R>, Malformed>
        ensures table { IfOk result (λ table. IsPeerIndexTable (window parser) (table_of table)) }
        ensures malformed { IsErr result → (table : said.PeerIndexTable) → ¬ IsPeerIndexTable (window parser) table }
        ensures some { turns.old ≤ turns.new }
        ensures least { IfOk result (λ table. turns.old + length (peers_left table.peers) ≤ turns.new) }
        ensures turns { turns.new ≤ turns.old + left (window parser) }
    {
        let mut ahead = parser;
        let (collector_bgp_id, view_name, count) = <(
            U32Be,
            Counted<U16Be, Nested, 0>,
            U16Be,
        ) as Format<R>>::parse(&mut ahead)?;
        let first = ahead;
        skip_peers(&mut ahead, count, turns)?;
        if ahead.remaining() > 0 {
            return Err(Malformed);
        }
        Ok(PeerIndexTable {
            collector_bgp_id,
            view_name,
            peers: Peers { parser: first },
        })
    }
}
