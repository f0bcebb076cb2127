//! AS paths: RFC 4271, 4.3, and RFC 5065, 3.
ghost use Rattle.std.specs.Prelude.{◌≡◌, ◌+◌, ◌*◌, ◌≤◌, ℕ, Bool, List, length, IsErr, IfOk, IfSome, ⊤};
ghost use Rattle.octseq.specs.Parser.{window};
ghost use Rattle.octseq.specs.Window.{left};
ghost use Rattle.octseq_format.specs.Laws.{NoneAt};
ghost use Rattle.octseq_format.specs.Row.{Holds, held_once};
ghost use Rattle.octseq_bgp.specs.Fills.{Counts, Fills, TakesFirst};
ghost use Rattle.octseq_bgp.specs.OneParts.{one_segment, part_code};
ghost use Rattle.octseq_bgp.specs.Parts.{IsNumber, IsSegment, IsSegmentType};
ghost use Rattle.octseq_bgp.specs.Parts as said;
ghost use Rattle.octseq_bgp.specs.Path.{asn_size, AsnsAhead, asns_once, segment_number};

use crate::key_octet::KeyOctet;
use crate::list::{count_all, take_first};
use octseq::{AsOctets, Malformed, Parser, Turns};
use octseq_format::{Keyed, Nested, Scaled, Sized, Test, U8, When, Where};
use std::alloc::AllocError;

/// An autonomous system number.
#[derive(Clone, Copy, Debug, PartialEq, Eq)]
pub struct Asn(pub u32);

/// The type of a segment.
#[derive(Clone, Copy, Debug, PartialEq, Eq)]
pub enum SegmentType {
    /// An AS_SET.
    Set,
    /// An AS_SEQUENCE.
    Sequence,
    /// An AS_CONFED_SEQUENCE.
    ConfedSequence,
    /// An AS_CONFED_SET.
    ConfedSet,
}

impl SegmentType {
    /// Returns the type of a number.
    fn of_number(number: usize) -> SegmentType
        requires { IsSegmentType number }
        ensures { segment_number result ≡ number }
    {
        match number {
            1 => SegmentType::Set,
            2 => SegmentType::Sequence,
            3 => SegmentType::ConfedSequence,
            _ => SegmentType::ConfedSet,
        }
    }
}

/// The types of segments.
#[derive(Debug)]
pub struct SegmentTypes;

impl Test for SegmentTypes {
    ghost holds = { IsSegmentType };

    #[inline(always)]
    fn test(number: usize) -> bool {
        1 <= number && number <= 4
    }
}

/// At least one.
#[derive(Debug)]
pub struct AtLeastOne;

impl Test for AtLeastOne {
    ghost holds = { λ count. 1 ≤ count };

    #[inline(always)]
    fn test(count: usize) -> bool {
        1 <= count
    }
}

/// A type, a count of at least one, and that many AS numbers of `LEN` octets.
type SegmentFormat<const LEN: usize> = (
    Where<U8, SegmentTypes>,
    Keyed<KeyOctet, When<AtLeastOne, Scaled<LEN, Sized<Nested, 0>>>>,
);

/// A segment of an AS path, where it was read.
#[derive(Debug)]
pub struct Segment<R: AsOctets> {
    /// The type.
    pub kind: SegmentType,
    /// The number of AS numbers.
    pub count: u8,
    /// The octets of the AS numbers, as a parser.
    pub octets: Parser<R>,
    /// Whether AS numbers have four octets rather than two.
    pub wide: bool,
    ghost whole: { left (window octets) ≡ asn_size wide * count },
}

impl<R: AsOctets + Copy> Copy for Segment<R> {}

impl<R: AsOctets + Copy> Clone for Segment<R> {
    ghost is_clone = { λ segment copy. copy ≡ segment };

    ghost is_infallible = { λ _. ⊤ };

    fn clone(&self) -> Result<Self, AllocError> {
        Ok(*self)
    }
}

impl<R: AsOctets + Copy> Segment<R> {
    ghost use Rattle.octseq_bgp.specs.PathOf.{asns_left};

    /// Returns an iterator over the AS numbers.
    pub fn asns(&self) -> Asns<R>
        ensures { Fills (IsNumber (asn_size self.now.wide)) (window self.now.octets) (asns_left result) }
    {
        Asns {
            parser: self.octets,
            left: usize::from(self.count),
            wide: self.wide,
        }
    }
}

/// An iterator over the AS numbers of a segment.
#[derive(Debug)]
pub struct Asns<R: AsOctets> {
    parser: Parser<R>,
    left: usize,
    wide: bool,
    ghost ahead: { AsnsAhead wide (window parser) left } by { asns_once wide (window parser) left },
}

impl<R: AsOctets + Copy> Copy for Asns<R> {}

impl<R: AsOctets + Copy> Clone for Asns<R> {
    ghost is_clone = { λ asns copy. copy ≡ asns };

    ghost is_infallible = { λ _. ⊤ };

    fn clone(&self) -> Result<Self, AllocError> {
        Ok(*self)
    }
}

/// Reads the next AS number.
fn parse_asn<R: AsOctets + Copy>(parser: &mut Parser<R>, wide: bool) -> Result<Asn, Malformed>
    ensures number { IfOk result (λ asn. IsNumber (asn_size wide) (window parser.old) asn.0 (window parser.new)) }
    ensures malformed { IsErr result → NoneAt (IsNumber (asn_size wide)) (window parser.old) }
{
    if wide {
        Ok(Asn(parser.parse_u32_be()?))
    } else {
        Ok(Asn(u32::from(parser.parse_u16_be()?)))
    }
}

impl<R: AsOctets + Copy> Iterator for Asns<R> {
    ghost use Rattle.std.specs.Iterator.{YieldsFirstBy, item_count};
    ghost use Rattle.octseq_bgp.specs.PathOf.{asns_left};

    type Item = Asn;

    ghost next_gives = { YieldsFirstBy (λ asn. asn.0) asns_left };

    ghost remaining = { item_count asns_left };

    fn next(&mut self) -> Option<Asn> {
        if self.left == 0 {
            return None;
        }
        let mut parser = self.parser;
        let wide = self.wide;
        match parse_asn(&mut parser, wide) {
            Ok(asn) => {
                let left = self.left - 1;
                *self = Asns { parser, left, wide };
                Some(asn)
            }
            Err(_) => unreachable!(),
        }
    }
}

/// An iterator over the segments of an AS path.
#[derive(Debug)]
pub struct AsPath<R: AsOctets> {
    parser: Parser<R>,
    left: usize,
    wide: bool,
    ghost ahead: { Holds (IsSegment (asn_size wide)) (window parser) left } by { held_once part_code
        (IsSegment (asn_size wide)) (one_segment (asn_size wide)) (window parser) left },
}

impl<R: AsOctets + Copy> Copy for AsPath<R> {}

impl<R: AsOctets + Copy> Clone for AsPath<R> {
    ghost is_clone = { λ path copy. copy ≡ path };

    ghost is_infallible = { λ _. ⊤ };

    fn clone(&self) -> Result<Self, AllocError> {
        Ok(*self)
    }
}

impl<R: AsOctets + Copy> AsPath<R> {
    ghost use Rattle.octseq_bgp.specs.PathOf.{path_of, segments_left};
    ghost use Rattle.octseq_bgp.specs.Value.{IsPath};

    /// Reads all that a parser has left as segments with AS numbers of four octets or two, and counts a turn for each.
    ///
    /// # Errors
    ///
    /// `Malformed` if segments don't fill it exactly.
    pub(crate) fn parse_counted(
        parser: Parser<R>,
        wide: bool,
        turns: &mut Turns,
    ) -> Result<AsPath<R>, Malformed>
        ensures path { IfOk result (λ path. IsPath wide (window parser) (path_of path)) }
        ensures malformed { IsErr result → (path : Bool × List said.Segment) → ¬ IsPath wide (window parser) path }
        ensures some { turns.old ≤ turns.new }
        ensures least { IfOk result (λ path. turns.old + length (segments_left path) ≤ turns.new) }
        ensures turns { turns.new ≤ turns.old + left (window parser) }
    {
        let left = count_segments(parser, wide, turns)?;
        Ok(AsPath { parser, left, wide })
    }
}

/// A type, a count, and the octets of AS numbers.
type SegmentParts<R> = (usize, (u8, Parser<R>));

/// Returns how many segments fill what a parser has left, and counts a turn for each.
fn count_segments<R: AsOctets + Copy>(
    parser: Parser<R>,
    wide: bool,
    turns: &mut Turns,
) -> Result<usize, Malformed>
    ensures counts { Counts (IsSegment (asn_size wide)) (window parser) result }
    ensures some { turns.old ≤ turns.new }
    ensures least { IfOk result (λ count. turns.old + count ≤ turns.new) }
    ensures turns { turns.new ≤ turns.old + left (window parser) }
{
    if wide {
        count_all::<R, SegmentFormat<4>>(parser, turns)
    } else {
        count_all::<R, SegmentFormat<2>>(parser, turns)
    }
}

/// Reads the first of the segments that are known to be there. Returns it, and a parser past it.
fn take_segment<R: AsOctets + Copy>(
    parser: Parser<R>,
    left: usize,
    wide: bool,
) -> Option<(SegmentParts<R>, Parser<R>)>
    requires { Holds (IsSegment (asn_size wide)) (window parser) left }
    ensures { TakesFirst (IsSegment (asn_size wide)) (λ it. (it.0, (it.1.0, window it.1.1))) (λ after. window after)
        (window parser) left result }
{
    if wide {
        take_first::<R, SegmentFormat<4>>(parser, left)
    } else {
        take_first::<R, SegmentFormat<2>>(parser, left)
    }
}

impl<R: AsOctets + Copy> Segment<R> {
    ghost use Rattle.octseq_bgp.specs.PathOf.{segment_of};

    /// Returns a segment with these parts.
    #[inline(always)]
    fn from_parts(parts: SegmentParts<R>, wide: bool) -> Segment<R>
        requires kind { IsSegmentType parts.0 }
        requires whole { left (window parts.1.1) ≡ asn_size wide * parts.1.0 }
        ensures parts { segment_of result ≡ (parts.0, (parts.1.0, window parts.1.1)) }
        ensures wide { result.wide ≡ wide }
    {
        let (number, (count, octets)) = parts;
        Segment {
            kind: SegmentType::of_number(number),
            count,
            octets,
            wide,
        }
    }
}

impl<R: AsOctets + Copy> Iterator for AsPath<R> {
    ghost use Rattle.std.specs.Iterator.{YieldsFirstBy, item_count};
    ghost use Rattle.octseq_bgp.specs.PathOf.{segment_of, segments_left, path_wide};

    type Item = Segment<R>;

    ghost next_gives = { λ old result new. YieldsFirstBy segment_of segments_left old result new
        × (path_wide new ≡ path_wide old) × IfSome result (λ segment. segment.wide ≡ path_wide old) };

    ghost remaining = { item_count segments_left };

    fn next(&mut self) -> Option<Segment<R>> {
        let wide = self.wide;
        let Some((parts, parser)) = take_segment(self.parser, self.left, wide) else {
            return None;
        };
        let left = self.left - 1;
        *self = AsPath { parser, left, wide };
        Some(Segment::from_parts(parts, wide))
    }
}
