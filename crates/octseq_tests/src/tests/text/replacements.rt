//! Lossy reading with any character as the replacement.
use super::filled;
use crate::tests::{is_text_or_short, unwrap};
use octseq::Turns;
use octseq::array::Array;
use octseq::builder::{AppendError, EmptyBuilder};
use octseq::str::StrBuilder;
use std::alloc::Global;
use std::process::Abort;

/// Checks that both calls return the expected text for these octets, or refuse it as too long.
fn replaces<B: EmptyBuilder>(
    rt: &impl Abort,
    alloc: Global,
    octets: &[u8],
    replacement: char,
    wanted: Option<&str>,
) {
    let builder = unwrap(rt, filled::<B>(alloc, octets));
    let text = StrBuilder::try_from_utf8_lossy_with(alloc, builder, replacement);
    is_text_or_short(rt, text, wanted);
    let (builder, turns) = (unwrap(rt, filled::<B>(alloc, octets)), &mut Turns::new());
    let text = StrBuilder::try_from_utf8_lossy_with_counted(alloc, builder, replacement, turns);
    is_text_or_short(rt, text, wanted);
    let text = StrBuilder::<B>::try_copy_lossy_with(alloc, octets, replacement);
    is_text_or_short(rt, text, wanted);
}

#[test]
fn each_bad_part_becomes_one_of_any_character(rt: HostRuntime) {
    let alloc = rt.alloc();
    replaces::<Vec<u8>>(&rt, alloc, b"a\xF1\x80b", '?', Some("a?b"));
    replaces::<Vec<u8>>(&rt, alloc, b"\xFF", '\u{0}', Some("\0"));
    replaces::<Vec<u8>>(&rt, alloc, b"\xFF\xF1\x80", 'é', Some("éé"));
    let wanted = Some("a\u{FFFD}b");
    replaces::<Vec<u8>>(&rt, alloc, b"a\xF1\x80b", '\u{FFFD}', wanted);
}

#[test]
fn the_limit_holds_for_each_replacement(rt: HostRuntime) {
    let alloc = rt.alloc();
    replaces::<Array<2>>(&rt, alloc, b"\xF1\x80", '?', Some("?"));
    replaces::<Array<2>>(&rt, alloc, b"\xF1\x80", '\u{FFFD}', None);
    replaces::<Array<7>>(&rt, alloc, b"\xFF\xFF", '\u{10000}', None);
    let wanted = Some("\u{10000}\u{10000}");
    replaces::<Array<8>>(&rt, alloc, b"\xFF\xFF", '\u{10000}', wanted);
    replaces::<Array<2>>(&rt, alloc, b"\xC3\xA9", '\u{10000}', Some("é"));
}
