//! Callers of one pattern each.
use crate::tests::unwrap;
use octseq::builder::OctetsBuilder;
use octseq::str::{DisplayError, Str, StrBuilder};
use octseq::{Array, Parser, WriteError};
use octseq_asserts::{assert_equal, assert_true};
use octseq_callers::frame::append_frame;
use octseq_callers::note::{append_note, kept, read_note};
use octseq_callers::ranges::{after_two, key, onward};
use octseq_callers::shown::{push_number, write_number};
use octseq_callers::views::{fourth, is_comment};
use std::process::Abort;

#[test]
fn a_frame_has_its_length_in_front(rt: HostRuntime) {
    let mut octets = Array::<9>::new();
    assert_equal!(&rt, append_frame(&mut octets, b"ab", b"c"), Ok(()));
    let full = append_frame(&mut octets, b"abc", b"");
    assert_equal!(&rt, full, Err(WriteError::Short));
    assert_equal!(&rt, octets.as_slice(), b"\x00\x03abc".as_slice());
}

/// Checks that no note is at the front of octets.
fn has_no_note(rt: &impl Abort, octets: &[u8]) {
    assert_true!(rt, read_note(&mut Parser::from_ref(octets)).is_err());
}

/// Checks that octets are a note and nothing else.
fn is_note(rt: &impl Abort, octets: &[u8]) {
    let mut parser = Parser::from_ref(octets);
    let note = unwrap(rt, read_note(&mut parser));
    assert_equal!(rt, (note.number, note.words.as_str()), (258, "hé"));
    assert_equal!(rt, parser.remaining(), 0);
}

#[test]
fn a_note_is_written_and_read(rt: HostRuntime) {
    let mut octets = Array::<8>::new();
    assert_true!(&rt, append_note(&mut octets, 258, "hé").is_ok());
    assert_true!(&rt, append_note(&mut octets, 1, "h").is_err());
    let wanted = b"N\x01\x02\x03h\xC3\xA9";
    assert_equal!(&rt, octets.as_slice(), wanted.as_slice());
    has_no_note(&rt, b"N\x01");
    has_no_note(&rt, b"n\x01\x02\x00");
    assert_true!(&rt, kept(&[0; 64]).is_ok());
    assert_true!(&rt, kept(&[0; 65]).is_err());
    is_note(&rt, wanted);
}

#[test]
fn ranges_of_any_octets_are_cut(rt: HostRuntime) {
    let octets = b"abcd".as_slice();
    assert_equal!(&rt, unwrap(&rt, key(&octets)), Some(b"bc".as_slice()));
    assert_equal!(&rt, unwrap(&rt, key(&b"ab".as_slice())), None);
    assert_equal!(&rt, unwrap(&rt, onward(&octets, 4)), Some(b"".as_slice()));
    assert_equal!(&rt, unwrap(&rt, onward(&octets, 5)), None);
    if octets.len() >= 2 {
        assert_equal!(&rt, after_two(octets).peek_all(), b"cd".as_slice());
    }
}

#[test]
fn numbers_are_shown_and_views_are_asked(rt: HostRuntime) {
    let mut text = unwrap(&rt, StrBuilder::<Array<4>>::new(rt.alloc()));
    assert_true!(&rt, write_number(&mut text, 123).is_ok());
    assert_equal!(&rt, push_number(&mut text, 45), Err(DisplayError::Short));
    assert_equal!(&rt, text.as_str(), "123");
    let line = unwrap(&rt, Str::from_utf8(b"# x".as_slice()));
    assert_true!(&rt, is_comment(&line));
    let mut array = Array::<8>::new();
    unwrap(&rt, array.append_slice(b"abcd"));
    assert_equal!(&rt, fourth(&array), Some(b'd'));
}
