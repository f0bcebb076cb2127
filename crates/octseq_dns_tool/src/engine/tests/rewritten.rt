//! Rewriting streams of messages.
use super::{REPLY, joined, ran, reported};
use crate::engine::tests::unwrap;
use octseq_cli::Status;
use std::alloc::{AllocError, Global};
use std::process::Abort;

/// Returns a header that counts this many answers.
fn header_of(answers: u8) -> [u8; 12] {
    [0, 0, 0, 0, 0, 0, 0, answers, 0, 0, 0, 0]
}

/// Makes a message with one answer, of the root, with this type, class and data.
fn message_of(alloc: Global, rtype: u8, class: u8, rdata: &[u8]) -> Result<Vec<u8>, AllocError> {
    let len = u8::try_from(rdata.len()).unwrap_or(0);
    let fields = [0, 0, rtype, 0, class, 0, 0, 0, 0, 0, len];
    joined(alloc, &[&header_of(1), &fields, rdata])
}

/// Makes a stream of messages, each preceded by its length.
pub(super) fn stream_of(alloc: Global, messages: &[&[u8]]) -> Result<Vec<u8>, AllocError> {
    let mut stream = Vec::new(alloc);
    for message in messages {
        let len = u16::try_from(message.len()).unwrap_or(0);
        stream.extend_from_slice(&len.to_be_bytes())?;
        stream.extend_from_slice(message)?;
    }
    Ok(stream)
}

/// Checks that messages are rewritten as others, and the status.
fn is_rewritten(
    rt: &impl Abort,
    alloc: Global,
    messages: &[&[u8]],
    status: Status,
    wanted: &[&[u8]],
) {
    let stream = unwrap(rt, stream_of(alloc, messages));
    let (answer, written) = ran(alloc, "rewrite", stream.as_slice());
    assert_equal!(rt, answer, Ok(status));
    let wanted = unwrap(rt, stream_of(alloc, wanted));
    assert_equal!(rt, written.as_slice(), wanted.as_slice());
}

#[test]
fn names_are_compressed(rt: HostRuntime) {
    let alloc = rt.alloc();
    // (the reply, with the name of its answer uncompressed)
    let plain = unwrap(
        &rt,
        joined(alloc, &[&REPLY[..29], &REPLY[12..25], &REPLY[31..]]),
    );
    let messages = [plain.as_slice(), &REPLY, &[0; 12]];
    is_rewritten(
        &rt,
        alloc,
        &messages,
        Status::Fine,
        &[&REPLY, &REPLY, &[0; 12]],
    );
}

#[test]
fn what_is_malformed_is_left_out(rt: HostRuntime) {
    let messages = [&[0; 11], REPLY.as_slice(), &[]];
    is_rewritten(&rt, rt.alloc(), &messages, Status::Refused, &[&REPLY]);
}

#[test]
fn data_that_may_have_pointers_is_left_out(rt: HostRuntime) {
    let alloc = rt.alloc();
    // (types whose data has names, with data that doesn't have their form)
    for (rtype, class) in [
        (2, 1),
        (5, 3),
        (6, 1),
        (12, 1),
        (15, 1),
        (17, 1),
        (33, 1),
        (35, 4),
    ] {
        let message = unwrap(&rt, message_of(alloc, rtype, class, &[1, 0x61]));
        let messages = [message.as_slice(), &REPLY];
        is_rewritten(&rt, alloc, &messages, Status::Refused, &[&REPLY]);
    }
}

#[test]
fn other_data_is_kept(rt: HostRuntime) {
    let alloc = rt.alloc();
    // (types without names, SRV data of another class, and empty data)
    for (rtype, class, rdata) in [
        (1, 1, [1, 0x61].as_slice()),
        (10, 1, &[1, 0x61]),
        (16, 1, &[2, 0x61]),
        (33, 3, &[1, 0x61]),
        (36, 1, &[0xC0, 0]),
        (2, 1, &[]),
        (35, 1, &[]),
    ] {
        let message = unwrap(&rt, message_of(alloc, rtype, class, rdata));
        is_rewritten(&rt, alloc, &[&message], Status::Fine, &[&message]);
    }
}

/// Makes a message of 65,535 octets with two answers: the first is of the root, and its data begins with a name; the
/// owner name of the second is a pointer to this name.
fn longest(alloc: Global, name: &[u8]) -> Result<Vec<u8>, AllocError> {
    let first = [0, 0, 10, 0, 1, 0, 0, 0, 0, 0xFF, 0xDC];
    let second = [0xC0, 23, 0, 10, 0, 1, 0, 0, 0, 0, 0, 0];
    let mut message = joined(alloc, &[&header_of(2), &first, name])?;
    message.resize(65_523, 0)?;
    message.extend_from_slice(&second)?;
    Ok(message)
}

#[test]
fn what_would_pass_65535_octets_is_left_out(rt: HostRuntime) {
    let alloc = rt.alloc();
    let message = unwrap(&rt, longest(alloc, b"\x01a\0"));
    assert_equal!(&rt, message.len(), 65_535);
    is_rewritten(&rt, alloc, &[&message, &REPLY], Status::Refused, &[&REPLY]);
    let message = unwrap(&rt, longest(alloc, b"\0"));
    let stream = unwrap(&rt, stream_of(alloc, &[&message]));
    let (answer, written) = ran(alloc, "rewrite", stream.as_slice());
    assert_equal!(&rt, answer, Ok(Status::Fine));
    assert_equal!(&rt, written.len(), 65_536);
}

#[test]
fn what_is_left_out_is_reported_with_the_reason(rt: HostRuntime) {
    let alloc = rt.alloc();
    // (a message of data that may have a pointer, the reply, one that would be too long, and no message)
    let stays = unwrap(&rt, message_of(alloc, 2, 1, &[1, 0x61]));
    let long = unwrap(&rt, longest(alloc, b"\x01a\0"));
    let messages = [stays.as_slice(), &REPLY, &long, &[0; 11]];
    let stream = unwrap(&rt, stream_of(alloc, &messages));
    let (answer, written, errors) = reported(alloc, "rewrite", stream.as_slice(), usize::MAX);
    assert_equal!(&rt, answer, Ok(Status::Refused));
    let wanted = unwrap(&rt, stream_of(alloc, &[&REPLY]));
    assert_equal!(&rt, written.as_slice(), wanted.as_slice());
    let lines = "message 1: left out: its data may have pointers\n\
        message 3: left out: it takes more than 65535 octets\n\
        message 4: malformed at octet 0\n";
    assert_equal!(&rt, errors.as_slice(), lines.as_bytes());
}

/// Checks that only the reply is written of a stream of the reply and this rest, which is cut off.
fn is_cut(rt: &impl Abort, alloc: Global, rest: &[u8]) {
    let whole = unwrap(rt, stream_of(alloc, &[&REPLY]));
    let stream = unwrap(rt, joined(alloc, &[whole.as_slice(), rest]));
    let (answer, written) = ran(alloc, "rewrite", stream.as_slice());
    assert_equal!(rt, answer, Ok(Status::Refused));
    assert_equal!(rt, written.as_slice(), whole.as_slice());
}

#[test]
fn a_stream_that_is_cut_off_is_written_as_far_as_it_goes(rt: HostRuntime) {
    let alloc = rt.alloc();
    for rest in [[0].as_slice(), &[0, 1], &[0, 13, 0, 0]] {
        is_cut(&rt, alloc, rest);
    }
    let (answer, written) = ran(alloc, "rewrite", b"");
    assert_equal!(&rt, answer, Ok(Status::Fine));
    assert_true!(&rt, written.is_empty());
}
