//! Streams of messages, read one at a time.
use crate::tests::limits::{extended, zeros};
use crate::tests::octets::message;
use crate::tests::unwrap;
use octseq_asserts::{assert_equal, assert_true};
use octseq_bgp::message::{Message, MessageReader, ReadMessageError, read_message};
use octseq_bgp::session::SessionConfig;
use std::alloc::{AllocGlobal, Global};
use std::io::{self, Error, ErrorKind, Read};
use std::process::Abort;

/// A source that gives a few octets at a time, stalls before each read, and may fail at its end.
#[derive(Drop)]
struct ShortReads<'a> {
    rest: &'a [u8],
    at_once: usize,
    is_ready: bool,
    fails: bool,
}

impl Read for ShortReads<'_> {
    fn read(&mut self, buf: &mut [u8]) -> io::Result<usize> {
        self.is_ready = !self.is_ready;
        if self.is_ready {
            return Err(Error::from(ErrorKind::Interrupted));
        }
        if self.fails && self.rest.is_empty() {
            return Err(Error::from(ErrorKind::ConnectionReset));
        }
        let count = buf.len().min(self.at_once);
        self.rest.read(&mut buf[..count])
    }
}

/// Returns a KEEPALIVE of 19 octets, and an UPDATE of 27.
fn two(rt: &(impl AllocGlobal + Abort)) -> Vec<u8> {
    let mut all = message(rt, "0013 04");
    let update = message(rt, "001b 02 0000 0000 18090909");
    unwrap(rt, all.extend_from_slice(&update));
    all
}

/// Whether the last message read is a KEEPALIVE.
fn is_keepalive<R: Read>(messages: &MessageReader<R>) -> bool {
    matches!(messages.message(), Ok(Message::Keepalive))
}

/// Whether the last message read is an UPDATE.
fn is_update<R: Read>(messages: &MessageReader<R>) -> bool {
    matches!(messages.message(), Ok(Message::Update(_)))
}

/// Whether the last octets read are a message.
fn is_message<R: Read>(messages: &MessageReader<R>) -> bool {
    messages.message().is_ok()
}

#[test]
fn messages_are_read_one_at_a_time(rt: HostRuntime) {
    let all = two(&rt);
    let modern = SessionConfig::modern();
    let mut messages = MessageReader::new(rt.alloc(), all.as_slice(), modern);
    assert_true!(&rt, !is_message(&messages));
    assert_true!(&rt, unwrap(&rt, messages.read_next()));
    assert_true!(&rt, is_keepalive(&messages));
    assert_equal!(&rt, messages.get_ref().len(), 27);
    assert_equal!(&rt, messages.session(), modern);
    assert_true!(&rt, unwrap(&rt, messages.read_next()));
    assert_true!(&rt, is_update(&messages));
    assert_equal!(&rt, Some(messages.octets()), all.as_slice().get(19..));
    assert_true!(&rt, !unwrap(&rt, messages.read_next()));
    assert_true!(&rt, !unwrap(&rt, messages.read_next()));
}

/// Checks that two messages are read from a source that gives at most `at_once` octets at a time, and then fails.
fn comes(rt: &(impl Abort + AllocGlobal), all: &[u8], at_once: usize) {
    let source = ShortReads {
        rest: all,
        at_once,
        is_ready: false,
        fails: true,
    };
    let mut messages = MessageReader::new(rt.alloc(), source, SessionConfig::modern());
    assert_true!(rt, unwrap(rt, messages.read_next()));
    assert_true!(rt, unwrap(rt, messages.read_next()));
    assert_equal!(rt, messages.octets().len(), 27);
    let end = messages.read_next();
    assert_true!(rt, matches!(end, Err(ReadMessageError::Read(_))));
    assert_true!(rt, !unwrap(rt, messages.read_next()));
}

#[test]
fn messages_come_in_any_pieces(rt: HostRuntime) {
    let all = two(&rt);
    for at_once in 1..50 {
        comes(&rt, &all, at_once);
    }
}

/// Returns how many whole messages are in the first `len` octets of the two, and whether other octets are left.
fn in_front(len: usize) -> (usize, bool) {
    match len {
        0 => (0, false),
        1..=18 => (0, true),
        19 => (1, false),
        20..=45 => (1, true),
        _ => (2, false),
    }
}

/// Checks how reading a truncated stream ends.
fn ends(rt: &(impl Abort + AllocGlobal), all: &[u8], len: usize) {
    let front = unwrap(rt, all.get(..len).ok_or("too long"));
    let (whole, is_cut) = in_front(len);
    let mut messages = MessageReader::new(rt.alloc(), front, SessionConfig::modern());
    for _ in 0..whole {
        assert_true!(rt, unwrap(rt, messages.read_next()));
    }
    if is_cut {
        let end = messages.read_next();
        assert_true!(rt, matches!(end, Err(ReadMessageError::Short)));
        assert_true!(rt, !is_message(&messages));
    }
    assert_true!(rt, !unwrap(rt, messages.read_next()));
    assert_true!(rt, messages.octets().is_empty());
}

#[test]
fn a_stream_that_is_cut_off_is_reported(rt: HostRuntime) {
    let all = two(&rt);
    assert_equal!(&rt, all.len(), 46);
    for len in 0..47 {
        ends(&rt, &all, len);
    }
}

/// Checks a source that fails after some octets.
fn fails(rt: &(impl Abort + AllocGlobal), all: &[u8], len: usize) {
    let front = unwrap(rt, all.get(..len).ok_or("too long"));
    let source = ShortReads {
        rest: front,
        at_once: 5,
        is_ready: false,
        fails: true,
    };
    let mut messages = MessageReader::new(rt.alloc(), source, SessionConfig::modern());
    for _ in 0..in_front(len).0 {
        assert_true!(rt, unwrap(rt, messages.read_next()));
    }
    let end = messages.read_next();
    assert_true!(rt, matches!(end, Err(ReadMessageError::Read(_))));
    assert_true!(rt, !is_message(&messages) && messages.octets().is_empty());
    assert_true!(rt, !unwrap(rt, messages.read_next()));
}

#[test]
fn a_read_that_fails_is_reported(rt: HostRuntime) {
    let all = two(&rt);
    for len in 0..47 {
        fails(&rt, &all, len);
    }
}

/// Returns how reading a source ends whose first message isn't whole, if the vector is then empty.
fn end_of(alloc: Global, octets: &[u8], session: SessionConfig) -> Option<ReadMessageError> {
    let mut source = octets;
    let mut found = Vec::new(alloc);
    let end = read_message(&mut source, &session, &mut found).err();
    if end.is_some() && !found.is_empty() {
        return None;
    }
    end
}

/// Whether a message, given without its marker, isn't framed as one of the session.
fn is_misframed(rt: &(impl AllocGlobal + Abort), session: SessionConfig, text: &str) -> bool {
    let octets = message(rt, text);
    let end = end_of(rt.alloc(), &octets, session);
    matches!(end, Some(ReadMessageError::Malformed))
}

#[test]
fn lengths_are_held_to_the_session(rt: HostRuntime) {
    let modern = SessionConfig::modern();
    assert_true!(&rt, is_misframed(&rt, modern, "0012 04"));
    assert_true!(&rt, is_misframed(&rt, modern, "0000"));
    assert_true!(&rt, is_misframed(&rt, modern, "1001 02"));
    assert_true!(&rt, !is_misframed(&rt, modern, "1000 02"));
    assert_true!(&rt, !is_misframed(&rt, extended(), "ffff 02"));
    assert_true!(&rt, is_misframed(&rt, extended(), "0012 02"));
}

/// Checks a source that ends at a wrong octet of its marker, and one that goes on.
fn other_octet(rt: &(impl Abort + AllocGlobal), index: usize) {
    let modern = SessionConfig::modern();
    let mut octets = two(rt);
    if index >= octets.len() {
        panic!(rt; "too far");
    }
    octets.as_mut_slice()[index] = 254;
    let all = end_of(rt.alloc(), &octets, modern);
    assert_true!(rt, matches!(all, Some(ReadMessageError::Malformed)));
    let last = end_of(rt.alloc(), &octets[..index + 1], modern);
    assert_true!(rt, matches!(last, Some(ReadMessageError::Malformed)));
    let before = end_of(rt.alloc(), &octets[..index], modern);
    let is_short = matches!(before, Some(ReadMessageError::Short));
    assert_equal!(rt, is_short, index > 0);
}

#[test]
fn a_marker_is_sixteen_octets_of_255(rt: HostRuntime) {
    for index in 0..16 {
        other_octet(&rt, index);
    }
}

#[test]
fn nothing_follows_what_is_misframed(rt: HostRuntime) {
    let mut octets = message(&rt, "0012 04");
    let more = two(&rt);
    unwrap(&rt, octets.extend_from_slice(&more));
    let mut messages = MessageReader::new(rt.alloc(), octets.as_slice(), SessionConfig::modern());
    let end = messages.read_next();
    assert_true!(&rt, matches!(end, Err(ReadMessageError::Malformed)));
    assert_true!(&rt, messages.octets().is_empty());
    assert_true!(&rt, !unwrap(&rt, messages.read_next()));
}

#[test]
fn octets_that_are_framed_may_be_no_message(rt: HostRuntime) {
    let mut octets = message(&rt, "0014 04 00");
    let more = two(&rt);
    unwrap(&rt, octets.extend_from_slice(&more));
    let mut messages = MessageReader::new(rt.alloc(), octets.as_slice(), SessionConfig::modern());
    assert_true!(&rt, unwrap(&rt, messages.read_next()));
    assert_true!(&rt, !is_message(&messages));
    assert_true!(&rt, unwrap(&rt, messages.read_next()));
    assert_true!(&rt, is_message(&messages));
}

/// Whether a message of this many octets is read completely in a session.
fn is_read(rt: &(impl AllocGlobal + Abort), session: SessionConfig, count: u16) -> bool {
    let octets = zeros(rt, count);
    let mut messages = MessageReader::new(rt.alloc(), octets.as_slice(), session);
    matches!(messages.read_next(), Ok(true)) && messages.octets() == octets.as_slice()
}

#[test]
fn long_messages_are_read(rt: HostRuntime) {
    let modern = SessionConfig::modern();
    assert_true!(&rt, is_read(&rt, modern, 4096));
    assert_true!(&rt, !is_read(&rt, modern, 4097));
    assert_true!(&rt, is_read(&rt, extended(), 4097));
    assert_true!(&rt, is_read(&rt, extended(), 65535));
}
