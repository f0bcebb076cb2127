//! RIBs: RFC 6396, 4.3.2 and 4.3.4, and RFC 8050, 4.
ghost use Rattle.std.specs.Prelude.{◌≡◌, ◌+◌, ◌<◌, ◌≤◌, ℕ, Option, None, List, length, IsErr, IfOk, OnOk, ⊤};
ghost use Rattle.octseq.specs.Parser.{window};
ghost use Rattle.octseq.specs.Window.{Window, left};
ghost use Rattle.octseq_format.specs.Laws.{NoneAt};
ghost use Rattle.octseq_format.specs.Row.{Many};
ghost use Rattle.octseq_bgp.specs.Family.{afi_of};
ghost use Rattle.octseq_mrt.specs.Listed.{EntriesAhead, entries_once};
ghost use Rattle.octseq_mrt.specs.ReadTurns.{entries_turns};
ghost use Rattle.octseq_mrt.specs.Rib as said;
ghost use Rattle.octseq_mrt.specs.Rib.{path_id_of, HasEntryParts, IsRibEntry, IsRibHead, IsRib};

use crate::address::parse_optional;
use crate::rib_attribute::RibAttributes;
use octseq::{AsOctets, Malformed, Parser, Turns};
use octseq_bgp::attribute::AttributeFormat;
use octseq_bgp::family::{Afi, AfiSafiType};
use octseq_bgp::prefix::{Nlri, PathId, PrefixFormat};
use octseq_format::{Counted, Format, Nested, Repeated, U16Be, U32Be};
use std::alloc::AllocError;

/// An entry of a RIB.
#[derive(Debug)]
pub struct RibEntry<R: AsOctets> {
    /// The number of the peer, from 0, in the peer index table. The table may not have it.
    pub peer_index: u16,
    /// When the route was received, in seconds since 1970.
    pub originated_time: u32,
    /// The path id, if the RIB has them.
    pub path_id: Option<PathId>,
    /// The path attributes.
    pub attributes: RibAttributes<R>,
}

impl<R: AsOctets + Copy> Copy for RibEntry<R> {}

impl<R: AsOctets + Copy> Clone for RibEntry<R> {
    ghost is_clone = { λ entry copy. copy ≡ entry };

    ghost is_infallible = { λ _. ⊤ };

    fn clone(&self) -> Result<Self, AllocError> {
        Ok(*self)
    }
}

/// An entry whose attributes haven't been read.
#[derive(Debug, Drop)]
struct EntryParts<R: AsOctets> {
    peer_index: u16,
    originated_time: u32,
    path_id: Option<u32>,
    octets: Parser<R>,
}

impl<R: AsOctets + Copy> EntryParts<R> {
    /// Reads the next entry, with or without a path id.
    fn parse(parser: &mut Parser<R>, paths: bool) -> Result<EntryParts<R>, Malformed>
        ensures parts { IfOk result (λ it. HasEntryParts paths (window parser.old)
            (it.peer_index, (it.originated_time, (it.path_id, window it.octets))) (window parser.new)) }
        ensures room { IfOk result (λ it.
            left (window it.octets) + left (window parser.new) + 6 ≤ left (window parser.old)) }
        ensures malformed { IsErr result → NoneAt (HasEntryParts paths) (window parser.old) }
    {
        let peer_index = U16Be::parse(parser)?;
        let originated_time = U32Be::parse(parser)?;
        let path_id = parse_optional(parser, paths)?;
        let octets = <Counted<U16Be, Nested, 0> as Format<R>>::parse(parser)?;
        Ok(EntryParts {
            peer_index,
            originated_time,
            path_id,
            octets,
        })
    }
}

/// Reads an entry, and counts a turn for each of its attributes.
fn skip_entry<R: AsOctets + Copy>(
    parser: &mut Parser<R>,
    paths: bool,
    turns: &mut Turns,
) -> Result<(), Malformed>
    ensures entry { OnOk result ((entry : said.RibEntry)
        × IsRibEntry paths (window parser.old) entry (window parser.new)) }
    ensures malformed { IsErr result → NoneAt (IsRibEntry paths) (window parser.old) }
    ensures some { turns.old ≤ turns.new }
    ensures least { OnOk result ((entry : said.RibEntry) (end : Window)
        → IsRibEntry paths (window parser.old) entry end → turns.old + length entry.attributes ≤ turns.new) }
    ensures turns { turns.new ≤ turns.old + left (window parser.old) }
    ensures took { OnOk result (turns.new + left (window parser.new) < turns.old + left (window parser.old)) }
{
    let parts = EntryParts::parse(parser, paths)?;
    let mut octets = parts.octets;
    let _attributes = <Repeated<AttributeFormat> as Format<R>>::parse_counted(&mut octets, turns)?;
    Ok(())
}

/// An iterator over the entries of a RIB.
#[derive(Debug)]
pub struct RibEntries<R: AsOctets> {
    parser: Parser<R>,
    paths: bool,
    ghost ahead: { EntriesAhead paths (window parser) } by { entries_once paths (window parser) },
}

impl<R: AsOctets + Copy> Copy for RibEntries<R> {}

impl<R: AsOctets + Copy> Clone for RibEntries<R> {
    ghost is_clone = { λ entries copy. copy ≡ entries };

    ghost is_infallible = { λ _. ⊤ };

    fn clone(&self) -> Result<Self, AllocError> {
        Ok(*self)
    }
}

/// Makes a path id of a number.
fn path_id(number: Option<u32>) -> Option<PathId>
    ensures { path_id_of result ≡ number }
{
    match number {
        Some(number) => Some(PathId(number)),
        None => None,
    }
}

impl<R: AsOctets + Copy> Iterator for RibEntries<R> {
    ghost use Rattle.std.specs.Iterator.{YieldsFirstBy, item_count};
    ghost use Rattle.octseq_mrt.specs.Parsed.{entry_of, entries_left};

    type Item = RibEntry<R>;

    ghost next_gives = { YieldsFirstBy entry_of entries_left };

    ghost remaining = { item_count entries_left };

    fn next(&mut self) -> Option<RibEntry<R>> {
        if self.parser.remaining() == 0 {
            return None;
        }
        let paths = self.paths;
        let mut parser = self.parser;
        match EntryParts::parse(&mut parser, paths) {
            Ok(parts) => {
                let attributes = RibAttributes::at(parts.octets);
                *self = RibEntries { parser, paths };
                Some(RibEntry {
                    peer_index: parts.peer_index,
                    originated_time: parts.originated_time,
                    path_id: path_id(parts.path_id),
                    attributes,
                })
            }
            Err(_) => unreachable!(),
        }
    }
}

/// Reads `count` entries, and counts a turn for each and for each of its attributes.
fn skip_entries<R: AsOctets + Copy>(
    parser: &mut Parser<R>,
    paths: bool,
    count: u16,
    turns: &mut Turns,
) -> Result<(), Malformed>
    ensures entries { OnOk result ((row : List said.RibEntry)
        × Many count (IsRibEntry paths) (window parser.old) row (window parser.new)) }
    ensures malformed { IsErr result → NoneAt (Many count (IsRibEntry paths)) (window parser.old) }
    ensures some { turns.old ≤ turns.new }
    ensures least { OnOk result ((row : List said.RibEntry) (end : Window)
        → Many count (IsRibEntry paths) (window parser.old) row end → turns.old + entries_turns row ≤ turns.new) }
    ensures turns { turns.new ≤ turns.old + left (window parser.old) }
{
    for taken in 0..count {
        skip_entry(parser, paths, turns)?;
        turns.tick();
    }
    Ok(())
}

/// The routes to a prefix.
#[derive(Debug)]
pub struct Rib<R: AsOctets> {
    /// The address family of the prefix.
    pub family: AfiSafiType,
    /// The sequence number.
    pub sequence: u32,
    /// The length of the prefix in bits.
    pub len: u8,
    /// The octets of the prefix, as a parser. Bits after the last one of the prefix have no meaning.
    pub octets: Parser<R>,
    /// The entries.
    pub entries: RibEntries<R>,
}

impl<R: AsOctets + Copy> Copy for Rib<R> {}

impl<R: AsOctets + Copy> Clone for Rib<R> {
    ghost is_clone = { λ rib copy. copy ≡ rib };

    ghost is_infallible = { λ _. ⊤ };

    fn clone(&self) -> Result<Self, AllocError> {
        Ok(*self)
    }
}

/// Reads what comes before the entries of a RIB: its sequence number, its prefix as a length and a parser of octets,
/// and the number of entries.
fn parse_head<R: AsOctets + Copy>(
    parser: &mut Parser<R>,
    afi: Afi,
) -> Result<(u32, (u8, Parser<R>), u16), Malformed>
    ensures head { IfOk result (λ it. IsRibHead afi (window parser.old)
        (it.0, ((it.1.0, window it.1.1), it.2)) (window parser.new)) }
    ensures malformed { IsErr result → NoneAt (IsRibHead afi) (window parser.old) }
{
    match afi {
        Afi::Ipv4 => <(U32Be, PrefixFormat<32>, U16Be) as Format<R>>::parse(parser),
        Afi::Ipv6 => <(U32Be, PrefixFormat<128>, U16Be) as Format<R>>::parse(parser),
    }
}

impl<R: AsOctets + Copy> Rib<R> {
    ghost use Rattle.octseq_mrt.specs.Parsed.{rib_of};

    /// Reads all that a parser has left as a RIB of an address family, and counts a turn for each entry and for each of
    /// its attributes.
    pub(crate) fn parse_counted(
        parser: Parser<R>,
        family: AfiSafiType,
        paths: bool,
        turns: &mut Turns,
    ) -> Result<Rib<R>, Malformed>
        ensures rib { IfOk result (λ rib. IsRib family paths (window parser) (rib_of rib)) }
        ensures malformed { IsErr result → (rib : said.Rib) → ¬ IsRib family paths (window parser) rib }
        ensures some { turns.old ≤ turns.new }
        ensures least { IfOk result (λ rib. turns.old + entries_turns (rib_of rib).entries ≤ turns.new) }
        ensures turns { turns.new ≤ turns.old + left (window parser) }
    {
        let mut ahead = parser;
        let (sequence, (len, octets), count) = parse_head(&mut ahead, family.afi())?;
        let first = ahead;
        skip_entries(&mut ahead, paths, count, turns)?;
        if ahead.remaining() > 0 {
            return Err(Malformed);
        }
        Ok(Rib {
            family,
            sequence,
            len,
            octets,
            entries: RibEntries {
                parser: first,
                paths,
            },
        })
    }

    /// Returns the prefix, where it was read.
    pub fn prefix(&self) -> Nlri<R>
        ensures { result ≡ record {
          path_id = None;
          afi = afi_of self.now.family;
          len = self.now.len;
          octets = self.now.octets;
        } }
    {
        Nlri {
            path_id: None,
            afi: self.family.afi(),
            len: self.len,
            octets: self.octets,
        }
    }
}
