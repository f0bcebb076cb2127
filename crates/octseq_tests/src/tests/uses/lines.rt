//! Lines.
use crate::tests::unwrap;
use octseq::builder::{AppendError, EmptyBuilder, ShortBuf};
use octseq::{Array, AsOctets, Parser, StrBuilder};
use octseq_asserts::{assert_equal, assert_true};
use octseq_callers::lines::next_line;
use std::alloc::Global;
use std::process::Abort;

/// Checks that this is the next line, with the parser's position after it.
fn is_read<R: AsOctets, B: EmptyBuilder>(
    rt: &impl Abort,
    alloc: Global,
    parser: &mut Parser<R>,
    line: &str,
    after: usize,
) {
    let read: Option<StrBuilder<B>> = unwrap(rt, next_line(alloc, parser));
    let text = unwrap(rt, read.ok_or("no line"));
    assert_equal!(rt, text.as_str(), line);
    assert_equal!(rt, parser.pos(), after);
}

/// Checks that these are all the lines, each with the parser's position after it.
fn are_read<R: AsOctets, B: EmptyBuilder>(
    rt: &impl Abort,
    alloc: Global,
    octets: R,
    wanted: &[(&str, usize)],
) {
    let mut parser = Parser::from_ref(octets);
    for (line, after) in wanted {
        is_read::<R, B>(rt, alloc, &mut parser, line, *after);
    }
    let none: Option<StrBuilder<B>> = unwrap(rt, next_line(alloc, &mut parser));
    assert_true!(rt, none.is_none());
}

#[test]
fn a_line_feed_or_the_end_ends_a_line(rt: HostRuntime) {
    let alloc = rt.alloc();
    let lines = [("ab", 3), ("", 4), ("c", 6)];
    are_read::<_, Vec<u8>>(&rt, alloc, b"ab\n\nc\n".as_slice(), &lines);
    are_read::<_, Array<2>>(&rt, alloc, unwrap(&rt, b"ab\n\nc\n".to_vec(alloc)), &lines);
    let lines = [("ab", 3), ("c", 4)];
    are_read::<_, Vec<u8>>(&rt, alloc, b"ab\nc".as_slice(), &lines);
    are_read::<_, Vec<u8>>(&rt, alloc, b"\n".as_slice(), &[("", 1)]);
    are_read::<_, Vec<u8>>(&rt, alloc, b"".as_slice(), &[]);
}

#[test]
fn stray_octets_are_replaced(rt: HostRuntime) {
    let octets = b"a\xFFb\n\xE2\x82\n\xAC\xE2\x82\xAC".as_slice();
    let lines = [("a\u{FFFD}b", 4), ("\u{FFFD}", 7), ("\u{FFFD}€", 11)];
    are_read::<_, Vec<u8>>(&rt, rt.alloc(), octets, &lines);
}

#[test]
fn a_line_that_is_too_long_is_left(rt: HostRuntime) {
    let mut parser = Parser::from_static(b"abc\n\xFF\xFF\n");
    let read: Result<Option<StrBuilder<Array<2>>>, AppendError> = next_line(
        rt.alloc(),
        &mut parser,
    );
    assert_equal!(&rt, read.err(), Some(AppendError::Short(ShortBuf)));
    assert_equal!(&rt, parser.pos(), 0);
    let read: Option<StrBuilder<Array<5>>> = unwrap(&rt, next_line(rt.alloc(), &mut parser));
    assert_equal!(&rt, read.as_deref(), Some("abc"));
    let read: Result<Option<StrBuilder<Array<5>>>, AppendError> = next_line(
        rt.alloc(),
        &mut parser,
    );
    assert_equal!(&rt, read.err(), Some(AppendError::Short(ShortBuf)));
    assert_equal!(&rt, parser.pos(), 4);
}
