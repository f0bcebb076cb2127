//! Streams of messages.
use super::{
    KEEPALIVE, MARKER, SHORT_TEXT, UPDATE, UPDATE_TEXT, joined, messages, reported, shows,
};
use crate::engine::tests::unwrap;
use octseq::StrBuilder;
use octseq_cli::{ProgramFault, Status};
use std::alloc::{AllocError, Global};
use std::process::Abort;

/// Texts one after another.
fn texts(alloc: Global, parts: &[&str]) -> Result<StrBuilder<Vec<u8>>, AllocError> {
    let mut text = StrBuilder::<Vec<u8>>::new(alloc)?;
    for part in parts {
        text.push_str(part)?;
    }
    Ok(text)
}

#[test]
fn stream_goes_on_after_a_malformed_message(rt: HostRuntime) {
    let bodies: [&[u8]; 4] = [&KEEPALIVE, &[0, 20, 4, 0], &[0, 19, 6], &UPDATE];
    let octets = unwrap(&rt, messages(rt.alloc(), &bodies));
    let lines = "message 2: malformed at octet 19\nmessage 3: malformed at octet 0\n";
    let front = "keepalive\n\nmalformed\n\nmalformed\n\n";
    let text = unwrap(&rt, texts(rt.alloc(), &[front, UPDATE_TEXT, "\n"]));
    shows(
        &rt,
        rt.alloc(),
        "stream",
        &octets,
        Status::Fine,
        text.as_str(),
        lines,
    );
    let short = unwrap(&rt, texts(rt.alloc(), &[front, SHORT_TEXT, "\n"]));
    shows(
        &rt,
        rt.alloc(),
        "stream,two-octet",
        &octets,
        Status::Fine,
        short.as_str(),
        lines,
    );
}

#[test]
fn stream_of_no_messages_shows_nothing(rt: HostRuntime) {
    shows(&rt, rt.alloc(), "stream", b"", Status::Fine, "", "");
}

/// Checks how a stream of a KEEPALIVE and this rest ends.
fn ends(rt: &impl Abort, alloc: Global, rest: &[u8], ending: &str, line: &str) {
    let octets = unwrap(rt, joined(alloc, &[&MARKER, &KEEPALIVE, rest]));
    let text = unwrap(rt, texts(alloc, &["keepalive\n\n", ending]));
    shows(
        rt,
        alloc,
        "stream",
        &octets,
        Status::Refused,
        text.as_str(),
        line,
    );
}

#[test]
fn stream_tells_that_it_is_cut_off(rt: HostRuntime) {
    let whole = unwrap(&rt, messages(rt.alloc(), &[&UPDATE]));
    for len in 1..whole.len() {
        ends(
            &rt,
            rt.alloc(),
            &whole[..len],
            "unexpected end of input\n",
            "",
        );
    }
}

#[test]
fn stream_ends_where_no_message_is_framed(rt: HostRuntime) {
    // (another octet in the marker, the first or the last one, and lengths of 18 and of 4,097)
    let rests = [
        unwrap(&rt, joined(rt.alloc(), &[&[0xFE]])),
        unwrap(&rt, joined(rt.alloc(), &[&MARKER[..15], &[0xFE, 0, 19, 4]])),
        unwrap(&rt, messages(rt.alloc(), &[&[0, 18, 4]])),
        unwrap(
            &rt,
            messages(rt.alloc(), &[&[0x10, 1, 2, 0, 0, 0, 0], &KEEPALIVE]),
        ),
    ];
    for rest in rests {
        ends(
            &rt,
            rt.alloc(),
            &rest,
            "malformed\n\n",
            "message 2: malformed at octet 0\n",
        );
    }
}

#[test]
fn a_long_message_is_shown_where_it_may_be_long(rt: HostRuntime) {
    // (65,512 prefixes of no bits)
    let mut octets = unwrap(&rt, messages(rt.alloc(), &[&[0xFF, 0xFF, 2, 0, 0, 0, 0]]));
    unwrap(&rt, octets.resize(65_535, 0));
    let it = reported(
        rt.alloc(),
        "stream,extended",
        &octets,
        usize::MAX,
        usize::MAX,
    );
    assert_equal!(&rt, it.answer, Ok(Status::Fine));
    let line = "announced 0.0.0.0/0\n";
    assert_equal!(&rt, it.written.len(), 7 + 65_512 * line.len() + 1);
    assert_true!(
        &rt,
        it.written
            .as_slice()
            .ends_with(b"/0\nannounced 0.0.0.0/0\n\n")
    );
    let short = reported(rt.alloc(), "stream", &octets, usize::MAX, usize::MAX);
    assert_equal!(&rt, short.answer, Ok(Status::Refused));
    assert_equal!(&rt, short.written.as_slice(), b"malformed\n\n".as_slice());
}

#[test]
fn a_live_source_shows_at_once(rt: HostRuntime) {
    let octets = unwrap(&rt, messages(rt.alloc(), &[&KEEPALIVE, &UPDATE]));
    // (two reads yield the first message, and the third one fails)
    let it = reported(rt.alloc(), "stream", &octets, usize::MAX, 2);
    assert_equal!(&rt, it.answer, Err(ProgramFault::Read));
    assert_equal!(&rt, it.written.as_slice(), b"keepalive\n\n".as_slice());
    assert_true!(&rt, it.errors.is_empty());
}
