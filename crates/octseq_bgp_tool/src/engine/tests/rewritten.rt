//! Messages that are written anew.
use super::{KEEPALIVE, MARKER, PATH, UPDATE, joined, messages, reported};
use crate::engine::tests::unwrap;
use octseq_cli::Status;
use std::alloc::Global;
use std::process::Abort;

/// An UPDATE, after the marker: a withdrawn prefix of 20 bits with spare bits set, an ORIGIN with a length of two
/// octets, and a prefix.
const LONG: [u8; 20] = [
    0, 0x24, 2, 0, 4, 20, 9, 9, 0x9F, 0, 5, 0x50, 1, 0, 1, 0, 0x18, 9, 9, 9,
];

/// The same anew: the spare bits are 0, and the length has one octet.
const SHORT: [u8; 19] = [
    0, 0x23, 2, 0, 4, 20, 9, 9, 0x90, 0, 4, 0x40, 1, 1, 0, 0x18, 9, 9, 9,
];

/// Checks what a word writes for octets that come one at a time.
fn writes(
    rt: &impl Abort,
    alloc: Global,
    word: &str,
    octets: &[u8],
    status: Status,
    written: &[u8],
    lines: &str,
) {
    let it = reported(alloc, word, octets, 1, usize::MAX);
    assert_equal!(rt, it.answer, Ok(status));
    assert_equal!(rt, it.written.as_slice(), written);
    assert_equal!(rt, it.errors.as_slice(), lines.as_bytes());
}

#[test]
fn messages_are_written_anew(rt: HostRuntime) {
    let octets = unwrap(&rt, messages(rt.alloc(), &[&KEEPALIVE, &LONG, &UPDATE]));
    let anew = unwrap(&rt, messages(rt.alloc(), &[&KEEPALIVE, &SHORT, &UPDATE]));
    let fine = Status::Fine;
    writes(&rt, rt.alloc(), "rewrite", &octets, fine, &anew, "");
    writes(&rt, rt.alloc(), "rewrite", b"", fine, b"", "");
}

#[test]
fn the_words_of_a_session_are_taken(rt: HostRuntime) {
    let path = unwrap(&rt, messages(rt.alloc(), &[&PATH]));
    let all = "rewrite,two-octet,add-path,extended";
    writes(&rt, rt.alloc(), all, &path, Status::Fine, &path, "");
}

#[test]
fn what_is_malformed_is_left_out(rt: HostRuntime) {
    let octets = unwrap(&rt, messages(rt.alloc(), &[&LONG, &[0, 19, 6], &KEEPALIVE]));
    let anew = unwrap(&rt, messages(rt.alloc(), &[&SHORT, &KEEPALIVE]));
    let lines = "message 2: malformed at octet 0\n";
    let refused = Status::Refused;
    writes(&rt, rt.alloc(), "rewrite", &octets, refused, &anew, lines);
}

#[test]
fn a_rest_is_left_out(rt: HostRuntime) {
    let first = unwrap(&rt, messages(rt.alloc(), &[&KEEPALIVE]));
    let cut = unwrap(&rt, joined(rt.alloc(), &[&first, &MARKER, &[0, 20]]));
    let refused = Status::Refused;
    writes(&rt, rt.alloc(), "rewrite", &cut, refused, &first, "");
    let misframed = unwrap(&rt, messages(rt.alloc(), &[&KEEPALIVE, &[0, 18, 4]]));
    let lines = "message 2: malformed at octet 0\n";
    writes(
        &rt,
        rt.alloc(),
        "rewrite",
        &misframed,
        refused,
        &first,
        lines,
    );
}
