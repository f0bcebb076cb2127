//! Composing messages of texts.
use super::{BLANK_TEXT, REPLY, REPLY_TEXT, joined, reported};
use crate::engine::tests::rewritten::stream_of;
use crate::engine::tests::unwrap;
use octseq_cli::Status;
use std::alloc::{AllocError, Global};
use std::process::Abort;

/// A message of zeros.
const BLANK: [u8; 12] = [0; 12];

/// Checks that the texts of an input are composed as messages, that these lines are on standard error, and the status.
fn is_composed(
    rt: &impl Abort,
    alloc: Global,
    parts: &[&str],
    status: Status,
    messages: &[&[u8]],
    lines: &str,
) {
    let mut input = Vec::new(alloc);
    for part in parts {
        unwrap(rt, input.extend_from_slice(part.as_bytes()));
    }
    let (answer, written, errors) = reported(alloc, "compose", input.as_slice(), usize::MAX);
    assert_equal!(rt, answer, Ok(status));
    assert_equal!(rt, errors.as_slice(), lines.as_bytes());
    let wanted = unwrap(rt, stream_of(alloc, messages));
    assert_equal!(rt, written.as_slice(), wanted.as_slice());
}

#[test]
fn texts_are_composed_as_a_stream(rt: HostRuntime) {
    let alloc = rt.alloc();
    let messages = [REPLY.as_slice(), &BLANK, &REPLY];
    for parts in [
        // (an empty line after each, as stream writes them, and none after the last)
        [REPLY_TEXT, "\n", BLANK_TEXT, "\n", REPLY_TEXT, "\n"],
        [REPLY_TEXT, "\n", BLANK_TEXT, "\n", REPLY_TEXT, ""],
        // (more of them before, between and after)
        [REPLY_TEXT, "\n\n\n", BLANK_TEXT, "\n\n", REPLY_TEXT, "\n\n"],
    ] {
        is_composed(&rt, alloc, &parts, Status::Fine, &messages, "");
    }
    let parts = ["\n\n", BLANK_TEXT];
    is_composed(&rt, alloc, &parts, Status::Fine, &[&BLANK], "");
}

#[test]
fn an_input_without_texts_is_a_stream_of_no_messages(rt: HostRuntime) {
    for input in ["", "\n", "\n\n\n"] {
        is_composed(&rt, rt.alloc(), &[input], Status::Fine, &[], "");
    }
}

#[test]
fn a_text_that_is_refused_is_left_out(rt: HostRuntime) {
    let alloc = rt.alloc();
    for (text, line) in [
        // (what stream writes of what is no message, and a name that isn't whole)
        ("malformed\n", "message 2: malformed at line 1, octet 0\n"),
        (
            "id 0 opcode 0 rcode 0 flags\nquestion example.com IN A\n",
            "message 2: malformed at line 2, octet 9\n",
        ),
        // (a line that isn't empty)
        (
            "id 0 opcode 0 rcode 0 flags\n \n",
            "message 2: malformed at line 2, octet 0\n",
        ),
    ] {
        let parts = [REPLY_TEXT, "\n", text, "\n", BLANK_TEXT, "\n"];
        let messages = [REPLY.as_slice(), &BLANK];
        is_composed(&rt, alloc, &parts, Status::Refused, &messages, line);
    }
}

#[test]
fn a_last_line_without_a_line_feed_is_refused_at_its_end(rt: HostRuntime) {
    let alloc = rt.alloc();
    for (text, line) in [
        (
            "id 0 opcode 0 rcode 0 flags",
            "message 2: malformed at line 1, octet 27\n",
        ),
        ("id 0", "message 2: malformed at line 1, octet 4\n"),
        (
            "id 0 opcode 0 rcode 0 flags\nquestion . IN A",
            "message 2: malformed at line 2, octet 15\n",
        ),
    ] {
        let parts = [REPLY_TEXT, "\n", text];
        is_composed(&rt, alloc, &parts, Status::Refused, &[&REPLY], line);
    }
}

#[test]
fn a_carriage_return_is_no_part_of_a_text(rt: HostRuntime) {
    // (lines that end with both are never empty, so these are one text)
    let input = "id 0 opcode 0 rcode 0 flags\r\n\r\nid 0 opcode 0 rcode 0 flags\r\n\r\n";
    let line = "message 1: malformed at line 1, octet 22\n";
    is_composed(&rt, rt.alloc(), &[input], Status::Refused, &[], line);
}

/// Makes the text of a message with an answer of the root, of type 10 and class 1, with this many octets of data, all
/// of them zeros.
fn text_of(alloc: Global, size: u16) -> Result<String, AllocError> {
    let mut digits = Vec::new(alloc);
    digits.resize(2 * usize::from(size), b'0')?;
    let digits = String::from_utf8_lossy(alloc, &digits)?;
    format!(in alloc; "id 0 opcode 0 rcode 0 flags\nanswer . 0 IN TYPE10 \\# {size} {digits}\n")
}

#[test]
fn what_would_pass_65535_octets_is_left_out(rt: HostRuntime) {
    let alloc = rt.alloc();
    // (12 octets of a header, and 11 before the data)
    let text = unwrap(&rt, text_of(alloc, 65_512));
    let mut message = unwrap(
        &rt,
        joined(
            alloc,
            &[
                &[0, 0, 0, 0, 0, 0, 0, 1, 0, 0, 0, 0],
                &[0, 0, 10, 0, 1, 0, 0, 0, 0, 0xFF, 0xE8],
            ],
        ),
    );
    unwrap(&rt, message.resize(65_535, 0));
    let messages = [message.as_slice(), &BLANK];
    let parts = [text.as_str(), "\n", BLANK_TEXT];
    is_composed(&rt, alloc, &parts, Status::Fine, &messages, "");
    let line = "message 1: left out: it takes more than 65535 octets\n";
    for size in [65_513, 65_535] {
        let text = unwrap(&rt, text_of(alloc, size));
        let parts = [text.as_str(), "\n", BLANK_TEXT];
        is_composed(&rt, alloc, &parts, Status::Refused, &[&BLANK], line);
    }
}

#[test]
fn a_live_source_is_composed_at_once(rt: HostRuntime) {
    let alloc = rt.alloc();
    let text = unwrap(&rt, joined(alloc, &[BLANK_TEXT.as_bytes(), b"\n", b"id"]));
    // (the text and its empty line are read, and no octet after them)
    let (_, written, _) = reported(alloc, "compose", text.as_slice(), BLANK_TEXT.len() + 1);
    assert_equal!(&rt, written.len(), 14);
    let (_, written, _) = reported(alloc, "compose", text.as_slice(), BLANK_TEXT.len());
    assert_true!(&rt, written.is_empty());
}
