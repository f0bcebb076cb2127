//! Lossy reading in pieces.
use super::lossy_texts;
use crate::tests::{is_text_or_short, unwrap};
use octseq::array::Array;
use octseq::builder::{AppendError, EmptyBuilder, ShortBuf};
use octseq::str::LossyPieces;
use octseq_asserts::assert_equal;
use octseq_callers::rationed::Rationed;
use std::alloc::Global;
use std::process::Abort;

/// Reads each piece, and checks that the text is as expected at the end, or exceeds the limit.
fn is_read<B: EmptyBuilder>(
    rt: &impl Abort,
    alloc: Global,
    pieces: &[&[u8]],
    wanted: Option<&str>,
) {
    let mut reading = unwrap(rt, LossyPieces::<B>::new(alloc));
    for piece in pieces {
        assert_equal!(rt, reading.feed(piece), Ok(()));
    }
    is_text_or_short(rt, reading.finish(), wanted);
}

#[test]
fn a_character_goes_on_in_the_next_piece(rt: HostRuntime) {
    let alloc = rt.alloc();
    let bad = Some("\u{FFFD}b");
    is_read::<Vec<u8>>(&rt, alloc, &[b"\xF1\x80", b"\x80b"], bad);
    is_read::<Vec<u8>>(&rt, alloc, &[b"\xF1", b"\x80", b"\x80", b"b"], bad);
    is_read::<Vec<u8>>(&rt, alloc, &[b"\xF1", b"", b"A"], Some("\u{FFFD}A"));
    is_read::<Vec<u8>>(&rt, alloc, &[], Some(""));
}

#[test]
fn the_limit_holds_for_what_is_settled(rt: HostRuntime) {
    let alloc = rt.alloc();
    is_read::<Array<3>>(&rt, alloc, &[b"\xE2\x82", b"\xAC"], Some("€"));
    is_read::<Array<3>>(&rt, alloc, &[b"a", b"\xF1"], None);
    is_read::<Array<4>>(&rt, alloc, &[b"\xF0\x9F\x98", b"A"], Some("\u{FFFD}A"));
}

/// Checks that every later call returns the error.
fn stays_refused<B: EmptyBuilder>(
    rt: &impl Abort,
    mut reading: LossyPieces<B>,
    refusal: &AppendError,
) {
    for piece in [b"".as_slice(), b"a"] {
        assert_equal!(rt, reading.feed(piece).err().as_ref(), Some(refusal));
    }
    assert_equal!(rt, reading.finish().err().as_ref(), Some(refusal));
}

#[test]
fn a_refusal_is_answered_from_then_on(rt: HostRuntime) {
    let alloc = rt.alloc();
    let mut short = unwrap(&rt, LossyPieces::<Array<2>>::new(alloc));
    assert_equal!(&rt, short.feed(b"\xFF"), Err(AppendError::Short(ShortBuf)));
    stays_refused(&rt, short, &AppendError::Short(ShortBuf));
    let mut memory = unwrap(&rt, LossyPieces::<Rationed>::new(alloc));
    assert_equal!(&rt, memory.feed(b"ab"), Ok(()));
    assert_equal!(&rt, memory.feed(b"c"), Err(AppendError::Memory));
    stays_refused(&rt, memory, &AppendError::Memory);
    let mut at_the_end = unwrap(&rt, LossyPieces::<Rationed>::new(alloc));
    assert_equal!(&rt, at_the_end.feed(b"ab\xF1"), Ok(()));
    assert_equal!(&rt, at_the_end.finish().err(), Some(AppendError::Memory));
}

#[test]
fn each_cut_gives_the_same_text(rt: HostRuntime) {
    let alloc = rt.alloc();
    for (octets, text) in lossy_texts() {
        for place in 0..=octets.len() {
            let (front, rest) = octets.split_at(place);
            is_read::<Vec<u8>>(&rt, alloc, &[front, rest], Some(text));
        }
        let mut singly = unwrap(&rt, LossyPieces::<Vec<u8>>::new(alloc));
        for octet in octets {
            assert_equal!(&rt, singly.feed(&[*octet]), Ok(()));
        }
        assert_equal!(&rt, unwrap(&rt, singly.finish()).as_str(), text);
    }
}
