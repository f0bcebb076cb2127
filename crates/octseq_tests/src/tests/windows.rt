//! Parsers and their windows: moves, nested parsers, ranges and buffers.
use crate::tests::unwrap;
use bytes::Bytes;
use octseq::builder::AsOctets;
use octseq::octets::{Bound, Octets, range_exists, span};
use octseq::parse::{ParseOctetsError, Parser, ShortInput};
use octseq_asserts::{Case, assert_equal, assert_true, over_each};
use std::alloc::AllocGlobal;
use std::process::Abort;

#[derive(Drop)]
struct Nests;

impl<H: Abort + AllocGlobal> Case<H> for Nests {
    fn holds<R: Octets + Copy>(&self, rt: &H, octets: R) {
        let mut outer = Parser::from_ref(octets);
        unwrap(rt, outer.advance(2));
        let mut nested = unwrap(rt, outer.parse_parser(4));
        assert_equal!(rt, (nested.pos(), nested.len()), (2, 6));
        assert_equal!(rt, nested.peek_all(), b"2345".as_slice());
        unwrap(rt, nested.seek(0));
        assert_equal!(rt, nested.peek_all(), b"012345".as_slice());
        assert_equal!(rt, nested.seek(7), Err(ShortInput));
        assert_equal!(rt, nested.pos(), 0);
        assert_equal!(rt, outer.peek_all(), b"6789".as_slice());
    }
}

#[derive(Drop)]
struct MovesByItself;

impl<H: Abort + AllocGlobal> Case<H> for MovesByItself {
    fn holds<R: Octets + Copy>(&self, rt: &H, octets: R) {
        let mut parser = Parser::from_ref(octets);
        let copy = parser;
        unwrap(rt, parser.check_len(10));
        parser.advance_to_end();
        assert_equal!(rt, (parser.pos(), copy.pos()), (10, 0));
        assert_equal!(rt, unwrap(rt, copy.peek(2)), b"01".as_slice());
        assert_equal!(rt, unwrap(rt, parser.clone()).pos(), 10);
        assert_equal!(rt, parser.octets_ref().as_ref(), b"0123456789".as_slice());
    }
}

#[test]
fn a_nested_parser_has_a_window_of_its_own(rt: HostRuntime) {
    unwrap(&rt, over_each(&rt, &Nests, b"0123456789"));
    unwrap(&rt, over_each(&rt, &MovesByItself, b"0123456789"));
}

#[test]
fn chunks_are_of_what_is_left(rt: HostRuntime) {
    let mut parser = Parser::from_static(b"0123456789");
    unwrap(&rt, parser.advance(1));
    assert_equal!(
        &rt,
        parser.peek_chunks::<4>(),
        [*b"1234", *b"5678"].as_slice()
    );
    assert_equal!(&rt, parser.pos(), 1);
    parser.advance_to_end();
    assert_true!(&rt, parser.peek_chunks::<4>().is_empty());
}

/// Checks that a parser of "0123456789" is at a position, and shows what is left and no more.
fn is_at(rt: &impl Abort, parser: &Parser<&[u8]>, pos: usize) {
    let left = b"0123456789".get(pos..).unwrap_or(b"");
    assert_equal!(rt, (parser.pos(), parser.remaining()), (pos, left.len()));
    assert_equal!(rt, parser.peek_all(), left);
    for n in 0..12 {
        assert_equal!(rt, parser.peek(n).ok(), left.get(..n));
        assert_equal!(rt, parser.check_len(n).is_ok(), n <= left.len());
    }
}

#[test]
fn a_parser_moves_within_its_window(rt: HostRuntime) {
    let mut parser = Parser::from_static(b"0123456789");
    for (place, pos) in [(0, 0), (2, 2), (10, 10), (11, 10)] {
        assert_equal!(&rt, parser.seek(place).is_ok(), place == pos);
        is_at(&rt, &parser, pos);
    }
    let mut parser = Parser::from_static(b"0123456789");
    for (len, is_moved, pos) in [(0, true, 0), (2, true, 2), (9, false, 2), (8, true, 10)] {
        assert_equal!(&rt, parser.advance(len).is_ok(), is_moved);
        is_at(&rt, &parser, pos);
    }
    let mut outer = Parser::from_static(b"0123456789");
    unwrap(&rt, outer.advance(2));
    let mut nested = unwrap(&rt, outer.parse_parser(4));
    assert_equal!(&rt, nested.peek_all(), b"2345".as_slice());
    unwrap(&rt, nested.advance(2));
    assert_equal!(&rt, nested.peek_all(), b"45".as_slice());
    is_at(&rt, &outer, 6);
}

#[derive(Drop)]
struct TakesRanges;

impl<H: Abort + AllocGlobal> Case<H> for TakesRanges {
    fn holds<R: Octets + Copy>(&self, rt: &H, octets: R) {
        let mut parser = Parser::from_ref(octets);
        assert_equal!(
            rt,
            unwrap(rt, parser.parse_octets(2)).as_ref(),
            b"01".as_slice()
        );
        assert_equal!(
            rt,
            unwrap(rt, parser.parse_octets(2)).as_ref(),
            b"23".as_slice()
        );
        let short = Err(ParseOctetsError::Short(ShortInput));
        assert_equal!(rt, parser.parse_octets(7).map(|_| ()), short);
        assert_equal!(
            rt,
            unwrap(rt, parser.parse_octets(6)).as_ref(),
            b"456789".as_slice()
        );
    }
}

#[derive(Drop)]
struct FillsBuffers;

impl<H: Abort + AllocGlobal> Case<H> for FillsBuffers {
    fn holds<R: Octets + Copy>(&self, rt: &H, octets: R) {
        let mut parser = Parser::from_ref(octets);
        let mut two = [0; 2];
        for wanted in [b"01", b"23"] {
            unwrap(rt, parser.parse_buf(&mut two));
            assert_equal!(rt, &two, wanted);
        }
        let mut seven = [7; 7];
        assert_equal!(rt, parser.parse_buf(&mut seven), Err(ShortInput));
        assert_equal!(rt, (seven, parser.pos()), ([7; 7], 4));
        let mut six = [0; 6];
        unwrap(rt, parser.parse_buf(&mut six));
        assert_equal!(rt, &six, b"456789");
        assert_equal!(rt, parser.parse_buf(&mut []), Ok(()));
    }
}

#[test]
fn octets_are_taken_as_ranges_and_into_buffers(rt: HostRuntime) {
    unwrap(&rt, over_each(&rt, &TakesRanges, b"0123456789"));
    unwrap(&rt, over_each(&rt, &FillsBuffers, b"0123456789"));
}

#[test]
fn a_range_of_shared_octets_is_shared(rt: HostRuntime) {
    let octets = unwrap(&rt, Bytes::copy_from_slice(rt.alloc(), b"0123456789"));
    let mut parser = Parser::from_ref(&octets);
    unwrap(&rt, parser.advance(4));
    let range: Bytes = unwrap(&rt, parser.parse_octets(3));
    assert_equal!(&rt, range.as_slice(), b"456".as_slice());
}

#[derive(Drop)]
struct RefusesTheGreatest;

impl<H: Abort + AllocGlobal> Case<H> for RefusesTheGreatest {
    fn holds<R: Octets + Copy>(&self, rt: &H, octets: R) {
        let most = usize::MAX;
        let mut parser = Parser::from_ref(octets);
        unwrap(rt, parser.advance(1));
        assert_equal!(rt, parser.peek(most), Err(ShortInput));
        assert_equal!(rt, parser.check_len(most), Err(ShortInput));
        assert_equal!(rt, parser.seek(most), Err(ShortInput));
        assert_equal!(rt, parser.advance(most), Err(ShortInput));
        let short = Err(ParseOctetsError::Short(ShortInput));
        assert_equal!(rt, parser.parse_octets(most).map(|_| ()), short);
        assert_true!(rt, parser.parse_parser(most).is_err());
        assert_equal!(rt, (parser.pos(), parser.len()), (1, 10));
    }
}

#[test]
fn the_greatest_numbers_are_refused(rt: HostRuntime) {
    unwrap(&rt, over_each(&rt, &RefusesTheGreatest, b"0123456789"));
}

/// Checks the range that a parser begins with, or that there is none.
fn begins<R: Octets + Copy>(
    rt: &impl Abort,
    octets: R,
    bounds: (Bound, Bound),
    wanted: Option<&[u8]>,
) {
    let parser = Parser::try_with_range(octets, bounds);
    assert_equal!(rt, parser.is_some(), wanted.is_some());
    if let (Some(parser), Some(wanted)) = (parser, wanted) {
        assert_equal!(rt, parser.peek_all(), wanted);
    }
}

#[derive(Drop)]
struct BeginsWithRanges;

impl<H: Abort + AllocGlobal> Case<H> for BeginsWithRanges {
    fn holds<R: Octets + Copy>(&self, rt: &H, octets: R) {
        let most = usize::MAX;
        let cases = [
            (
                (Bound::Unbounded, Bound::Unbounded),
                Some([1, 2, 3].as_slice()),
            ),
            ((Bound::Included(1), Bound::Included(2)), Some(&[2, 3])),
            ((Bound::Excluded(0), Bound::Excluded(3)), Some(&[2, 3])),
            ((Bound::Excluded(2), Bound::Unbounded), Some(&[])),
            ((Bound::Excluded(3), Bound::Unbounded), None),
            ((Bound::Unbounded, Bound::Included(3)), None),
            ((Bound::Included(2), Bound::Excluded(1)), None),
            ((Bound::Excluded(most), Bound::Unbounded), None),
            ((Bound::Unbounded, Bound::Included(most)), None),
        ];
        for (bounds, left) in cases {
            begins(rt, octets, bounds, left);
        }
    }
}

#[derive(Drop)]
struct BeginsWithNoOctets;

impl<H: Abort + AllocGlobal> Case<H> for BeginsWithNoOctets {
    fn holds<R: Octets + Copy>(&self, rt: &H, octets: R) {
        let empty = Parser::try_with_range(octets, (Bound::Included(2), Bound::Excluded(2)));
        let parser = unwrap(rt, empty.ok_or("no range"));
        assert_true!(rt, !parser.is_empty());
        assert_equal!(rt, (parser.len(), parser.remaining()), (2, 0));
        assert_equal!(rt, parser.as_slice(), [1, 2].as_slice());
    }
}

#[derive(Drop)]
struct StaysWhole;

impl<H: Abort + AllocGlobal> Case<H> for StaysWhole {
    fn holds<R: Octets + Copy>(&self, rt: &H, octets: R) {
        let mut whole = Parser::from_ref(octets);
        unwrap(rt, whole.advance(1));
        assert_true!(
            rt,
            matches!(
                whole.parse_octets(usize::MAX),
                Err(ParseOctetsError::Short(_))
            )
        );
        assert_equal!(rt, whole.pos(), 1);
    }
}

#[test]
fn a_parser_begins_with_a_range(rt: HostRuntime) {
    unwrap(&rt, over_each(&rt, &BeginsWithRanges, &[1, 2, 3]));
    unwrap(&rt, over_each(&rt, &BeginsWithNoOctets, &[1, 2, 3]));
    unwrap(&rt, over_each(&rt, &StaysWhole, &[1, 2, 3]));
}

/// Each bound with an index up to 5, with the start and the end that it means in three octets.
const BOUNDS: [(Bound, usize, usize); 13] = [
    (Bound::Unbounded, 0, 3),
    (Bound::Included(0), 0, 1),
    (Bound::Included(1), 1, 2),
    (Bound::Included(2), 2, 3),
    (Bound::Included(3), 3, 4),
    (Bound::Included(4), 4, 5),
    (Bound::Included(5), 5, 6),
    (Bound::Excluded(0), 1, 0),
    (Bound::Excluded(1), 2, 1),
    (Bound::Excluded(2), 3, 2),
    (Bound::Excluded(3), 4, 3),
    (Bound::Excluded(4), 5, 4),
    (Bound::Excluded(5), 6, 5),
];

#[derive(Drop)]
struct HasEachRange;

impl<H: Abort + AllocGlobal> Case<H> for HasEachRange {
    fn holds<R: Octets + Copy>(&self, rt: &H, octets: R) {
        for (first, start, _) in BOUNDS {
            for (last, _, end) in BOUNDS {
                let wanted = [1, 2, 3].as_slice().get(start..end);
                assert_equal!(rt, range_exists(3, (first, last)), wanted.is_some());
                begins(rt, octets, (first, last), wanted);
            }
        }
    }
}

#[test]
fn a_parser_begins_with_each_range(rt: HostRuntime) {
    unwrap(&rt, over_each(&rt, &HasEachRange, &[1, 2, 3]));
}

#[derive(Drop)]
struct HasNoOctets;

impl<H: Abort + AllocGlobal> Case<H> for HasNoOctets {
    fn holds<R: Octets + Copy>(&self, rt: &H, octets: R) {
        let most = usize::MAX;
        let cases = [
            ((Bound::Unbounded, Bound::Unbounded), true),
            ((Bound::Included(0), Bound::Excluded(0)), true),
            ((Bound::Excluded(0), Bound::Unbounded), false),
            ((Bound::Included(most), Bound::Unbounded), false),
            ((Bound::Unbounded, Bound::Excluded(most)), false),
            ((Bound::Excluded(most), Bound::Included(most)), false),
        ];
        for (bounds, exists) in cases {
            assert_equal!(rt, Parser::try_with_range(octets, bounds).is_some(), exists);
        }
        let parser = Parser::from_ref(octets);
        assert_true!(rt, parser.is_empty());
        assert_true!(rt, parser.as_slice().is_empty());
    }
}

#[test]
fn no_octets_have_one_range(rt: HostRuntime) {
    unwrap(&rt, over_each(&rt, &HasNoOctets, &[]));
}

#[test]
fn a_range_that_is_known_needs_no_test(rt: HostRuntime) {
    let parser = Parser::with_range(b"0123".as_slice(), span(1, 3));
    assert_equal!(&rt, parser.peek_all(), b"12".as_slice());
    let parser = Parser::from_static(b"ab");
    assert_equal!(
        &rt,
        unwrap(&rt, format!(in rt.alloc(); "{parser:?}")).as_str(),
        "Parser { octets: [97, 98], pos: 0, len: 2 }",
    );
}
