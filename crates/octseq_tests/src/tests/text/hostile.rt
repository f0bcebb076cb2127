//! Hostile octets: the edges of the table, each octet out of its range, and texts at a limit.
use super::table::{ROWS, edges};
use super::{lossy, lossy_over};
use crate::tests::unwrap;
use arrayvec::ArrayVec;
use octseq::array::Array;
use octseq::builder::{AppendError, EmptyBuilder};
use octseq::str::Str;
use octseq::utf8::{Turns, first_fault};
use octseq_asserts::assert_equal;
use std::alloc::Global;
use std::process::Abort;

/// Returns the position and the length of the first fault.
fn fault(octets: &[u8]) -> Option<(usize, Option<usize>)> {
    first_fault(octets, &mut Turns::new()).map(|fault| (fault.valid_up_to(), fault.error_len()))
}

/// Checks that octets begin with one ill-formed part of this length, and have this lossy text.
fn is_one_part(rt: &impl Abort, alloc: Global, octets: &[u8], length: Option<usize>, text: &str) {
    assert_equal!(rt, fault(octets), Some((0, length)));
    assert_equal!(rt, lossy(rt, alloc, octets).as_str(), text);
}

/// Checks that a whole encoding is well-formed, and that a truncated one is one ill-formed part, which extends to the
/// end or to what follows.
fn is_whole_or_cut(rt: &impl Abort, alloc: Global, encoding: &[u8]) {
    assert_equal!(rt, fault(encoding), None);
    assert_equal!(rt, lossy(rt, alloc, encoding).as_slice(), encoding);
    for count in 1..encoding.len() {
        let mut cut = unwrap(rt, encoding[..count].to_vec(alloc));
        is_one_part(rt, alloc, cut.as_slice(), None, "\u{FFFD}");
        unwrap(rt, cut.push(b'A'));
        is_one_part(rt, alloc, cut.as_slice(), Some(count), "\u{FFFD}A");
    }
}

#[test]
fn the_edges_of_each_row_are_whole_or_cut(rt: HostRuntime) {
    for row in ROWS {
        let (least, greatest) = unwrap(&rt, edges(rt.alloc(), row));
        is_whole_or_cut(&rt, rt.alloc(), least.as_slice());
        is_whole_or_cut(&rt, rt.alloc(), greatest.as_slice());
    }
}

#[test]
fn the_edges_of_the_rows_have_their_numbers(rt: HostRuntime) {
    let cases = [
        (b"\xC2\x80".as_slice(), 0x80),
        (b"\xDF\xBF", 0x7FF),
        (b"\xE0\xA0\x80", 0x800),
        (b"\xED\x9F\xBF", 0xD7FF),
        (b"\xEE\x80\x80", 0xE000),
        (b"\xEF\xBF\xBF", 0xFFFF),
        (b"\xF0\x90\x80\x80", 0x1_0000),
        (b"\xF4\x8F\xBF\xBF", 0x10_FFFF),
    ];
    for (octets, number) in cases {
        let text = unwrap(&rt, Str::from_utf8(octets).ok().ok_or("refused"));
        let mut chars = text.as_str().chars();
        assert_equal!(&rt, chars.next().map(u32::from), Some(number));
        assert_equal!(&rt, chars.next(), None);
    }
}

#[test]
fn each_octet_out_of_its_range_ends_its_part(rt: HostRuntime) {
    let cases = [
        (b"\xC1\x80".as_slice(), 1, "\u{FFFD}\u{FFFD}"),
        (b"\xC2\x7F", 1, "\u{FFFD}\u{7F}"),
        (b"\xC2\xC0", 1, "\u{FFFD}\u{FFFD}"),
        (b"\xE0\x9F\x80", 1, "\u{FFFD}\u{FFFD}\u{FFFD}"),
        (b"\xED\xA0\x80", 1, "\u{FFFD}\u{FFFD}\u{FFFD}"),
        (b"\xE1\x7F\x80", 1, "\u{FFFD}\u{7F}\u{FFFD}"),
        (b"\xE1\x80\x7F", 2, "\u{FFFD}\u{7F}"),
        (b"\xE1\x80\xC0", 2, "\u{FFFD}\u{FFFD}"),
        (b"\xF0\x8F\x80\x80", 1, "\u{FFFD}\u{FFFD}\u{FFFD}\u{FFFD}"),
        (b"\xF4\x90\x80\x80", 1, "\u{FFFD}\u{FFFD}\u{FFFD}\u{FFFD}"),
        (b"\xF5\x80\x80\x80", 1, "\u{FFFD}\u{FFFD}\u{FFFD}\u{FFFD}"),
        (b"\xF1\x80\xC0\x80", 2, "\u{FFFD}\u{FFFD}\u{FFFD}"),
        (b"\xF1\x80\x80\x7F", 3, "\u{FFFD}\u{7F}"),
        (b"\xF1\x80\x80\xC0", 3, "\u{FFFD}\u{FFFD}"),
    ];
    for (octets, length, text) in cases {
        assert_equal!(&rt, fault(octets), Some((0, Some(length))));
        assert_equal!(&rt, lossy(&rt, rt.alloc(), octets).as_str(), text);
    }
}

/// Checks a lossy reading with two builders of the same limit.
fn is_read_within<A: EmptyBuilder, B: EmptyBuilder>(
    rt: &impl Abort,
    alloc: Global,
    octets: &[u8],
    text: Option<&str>,
) {
    lossy_over::<A>(rt, alloc, octets, text);
    lossy_over::<B>(rt, alloc, octets, text);
}

#[test]
fn texts_reach_the_limit_and_no_further(rt: HostRuntime) {
    let alloc = rt.alloc();
    is_read_within::<Array<0>, ArrayVec<u8, 0>>(&rt, alloc, b"", Some(""));
    is_read_within::<Array<1>, ArrayVec<u8, 1>>(&rt, alloc, b"a", Some("a"));
    is_read_within::<Array<1>, ArrayVec<u8, 1>>(&rt, alloc, b"\xFF", None);
    is_read_within::<Array<2>, ArrayVec<u8, 2>>(&rt, alloc, b"\xC3\xA9", Some("é"));
    is_read_within::<Array<2>, ArrayVec<u8, 2>>(&rt, alloc, b"\xFF", None);
    is_read_within::<Array<3>, ArrayVec<u8, 3>>(&rt, alloc, b"\xFF", Some("\u{FFFD}"));
    is_read_within::<Array<5>, ArrayVec<u8, 5>>(&rt, alloc, b"\xFF\xFF", None);
    let whole = Some("\u{FFFD}\u{FFFD}");
    is_read_within::<Array<6>, ArrayVec<u8, 6>>(&rt, alloc, b"\xFF\xFF", whole);
}
