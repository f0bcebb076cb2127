//! Octets in chunks of text. The first rows are from the documentation of Rust's `utf8_chunks`.
use crate::tests::unwrap;
use octseq::array::Array;
use octseq::builder::{AppendError, ShortBuf};
use octseq::str::StrBuilder;
use octseq::utf8::{Turns, Utf8Chunk, chunks};
use octseq_asserts::{assert_equal, assert_true};
use std::process::Abort;

/// Returns what a chunk has: its text, its invalid part, and whether the octets end within a character.
fn lent<'a>(chunk: &Utf8Chunk<'a>) -> (&'a str, &'a [u8], bool) {
    (chunk.valid(), chunk.invalid(), chunk.is_incomplete())
}

/// Checks the chunks of octets.
fn has_chunks(rt: &impl Abort, octets: &[u8], wanted: &[(&str, &[u8], bool)]) {
    let mut found = chunks(octets);
    for each in wanted {
        assert_equal!(rt, found.next().as_ref().map(lent), Some(*each));
    }
    assert_true!(rt, found.next().is_none());
    let mut counted = chunks(octets);
    let mut turns = Turns::new();
    for each in wanted {
        let chunk = counted.next_counted(&mut turns);
        assert_equal!(rt, chunk.as_ref().map(lent), Some(*each));
    }
    assert_true!(rt, counted.next_counted(&mut turns).is_none());
}

#[test]
fn octets_are_lent_in_chunks(rt: HostRuntime) {
    has_chunks(
        &rt,
        b"foo\xF1\x80bar\xF1\x80\x80baz",
        &[
            ("foo", b"\xF1\x80", false),
            ("bar", b"\xF1\x80\x80", false),
            ("baz", b"", false),
        ],
    );
    has_chunks(&rt, b"", &[]);
    has_chunks(&rt, b"hello", &[("hello", b"", false)]);
    has_chunks(&rt, b"\xFF", &[("", b"\xFF", false)]);
    has_chunks(&rt, b"a\xE2\x82", &[("a", b"\xE2\x82", true)]);
    has_chunks(
        &rt,
        b"\xED\xA0\x80",
        &[
            ("", b"\xED", false),
            ("", b"\xA0", false),
            ("", b"\x80", false),
        ],
    );
}

/// Counts the octets that aren't part of a text.
fn bad_octets(octets: &[u8]) -> usize {
    let mut count = 0_usize;
    for chunk in chunks(octets) {
        count = count.saturating_add(chunk.invalid().len());
    }
    count
}

#[test]
fn chunks_are_read_by_a_loop(rt: HostRuntime) {
    assert_equal!(&rt, bad_octets(b"foo\xF1\x80bar\xF1\x80\x80baz"), 5);
    assert_equal!(&rt, bad_octets("äöü".as_bytes()), 0);
}

/// Checks the result of pushing octets to a text, and the text afterwards.
fn is_left(
    rt: &impl Abort,
    pushed: Result<(), AppendError>,
    fits: bool,
    text: &StrBuilder<Array<8>>,
    wanted: &str,
) {
    let answer = if fits {
        Ok(())
    } else {
        Err(AppendError::Short(ShortBuf))
    };
    assert_equal!(rt, pushed, answer);
    assert_equal!(rt, text.as_str(), wanted);
}

#[test]
fn a_push_of_octets_keeps_the_limit(rt: HostRuntime) {
    let mut text = unwrap(
        &rt,
        StrBuilder::<Array<8>>::try_copy_lossy(rt.alloc(), b"ab"),
    );
    let pushed = text.try_push_lossy(b"\xFF\xFF");
    is_left(&rt, pushed, true, &text, "ab\u{FFFD}\u{FFFD}");
    let pushed = text.try_push_lossy_with(b"\xFF", '?');
    is_left(&rt, pushed, false, &text, "ab\u{FFFD}\u{FFFD}");
    let mut text = unwrap(
        &rt,
        StrBuilder::<Array<8>>::try_copy_lossy(rt.alloc(), b"ab"),
    );
    let pushed = text.try_push_lossy(b"c\xFF\xFF");
    is_left(&rt, pushed, false, &text, "ab");
    let pushed = text.try_push_lossy_with(b"c\xFF\xFF\xFFde", '?');
    is_left(&rt, pushed, true, &text, "abc???de");
}
