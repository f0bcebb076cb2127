//! Streams of messages, each after its length in two octets: RFC 1035, 4.2.2.
use crate::tests::unwrap;
use octseq::Parser;
use octseq_asserts::{assert_equal, assert_true};
use octseq_dns::{FrameError, FrameReader, WriteFrameError, next_frame, read_frame, write_frame};
use std::alloc::AllocGlobal;
use std::io::{self, Error, ErrorKind, Read, Write};
use std::process::Abort;

/// Three messages: of two octets, of none, of one.
const STREAM: &[u8] = b"\0\x02ab\0\0\0\x01c";

/// A source that gives one octet at a time, stalls before each, and may fail at its end.
#[derive(Drop)]
struct Slow<'a> {
    rest: &'a [u8],
    is_ready: bool,
    fails: bool,
}

impl Read for Slow<'_> {
    fn read(&mut self, buf: &mut [u8]) -> io::Result<usize> {
        self.is_ready = !self.is_ready;
        if self.is_ready {
            return Err(Error::from(ErrorKind::Interrupted));
        }
        if self.fails && self.rest.is_empty() {
            return Err(Error::from(ErrorKind::ConnectionReset));
        }
        let count = buf.len().min(1);
        self.rest.read(&mut buf[..count])
    }
}

/// A sink that takes one octet at a time, and refuses those beyond its room.
#[derive(Drop)]
struct ShortWrites {
    taken: Vec<u8>,
    room: usize,
}

impl Write for ShortWrites {
    fn write(&mut self, buf: &[u8]) -> io::Result<usize> {
        if self.taken.len() >= self.room {
            return Err(Error::from(ErrorKind::BrokenPipe));
        }
        self.taken.write(&buf[..buf.len().min(1)])
    }

    fn flush(&mut self) -> io::Result<()> {
        Ok(())
    }
}

#[test]
fn a_failed_write_leaves_a_prefix(rt: HostRuntime) {
    for room in 0..4 {
        let taken = Vec::new(rt.alloc());
        let mut sink = ShortWrites { taken, room };
        let failed = write_frame(&mut sink, b"ab");
        assert_true!(&rt, matches!(failed, Err(WriteFrameError::Write(_))));
        assert_equal!(&rt, sink.taken.as_slice(), &STREAM[..room]);
    }
    let taken = Vec::new(rt.alloc());
    let mut sink = ShortWrites { taken, room: 4 };
    unwrap(&rt, write_frame(&mut sink, b"ab"));
    assert_equal!(&rt, sink.taken.as_slice(), &STREAM[..4]);
}

#[test]
fn frames_that_were_written_are_read_back(rt: HostRuntime) {
    let mut stream = Vec::new(rt.alloc());
    unwrap(&rt, write_frame(&mut stream, b"ab"));
    unwrap(&rt, write_frame(&mut stream, b""));
    unwrap(&rt, write_frame(&mut stream, b"c"));
    assert_equal!(&rt, stream.as_slice(), STREAM);
    let mut reader = FrameReader::new(rt.alloc(), stream.as_slice());
    assert_true!(&rt, unwrap(&rt, reader.read_next()));
    assert_equal!(&rt, reader.frame(), b"ab");
    assert_true!(&rt, unwrap(&rt, reader.read_next()));
    assert_equal!(&rt, reader.frame(), b"");
    assert_true!(&rt, unwrap(&rt, reader.read_next()));
    assert_equal!(&rt, reader.frame(), b"c");
    assert_true!(&rt, !unwrap(&rt, reader.read_next()));
}

#[test]
fn a_source_that_stalls_is_read(rt: HostRuntime) {
    let source = Slow {
        rest: &STREAM[..5],
        is_ready: false,
        fails: true,
    };
    let mut reader = FrameReader::new(rt.alloc(), source);
    assert_true!(&rt, unwrap(&rt, reader.read_next()));
    assert_equal!(&rt, reader.frame(), b"ab");
    assert_true!(&rt, matches!(reader.read_next(), Err(FrameError::Read(_))));
    assert_true!(&rt, !unwrap(&rt, reader.read_next()));
}

/// Returns how many messages are whole in the first `len` octets of the stream.
fn in_front(len: usize) -> usize {
    match len {
        0..=3 => 0,
        4..=5 => 1,
        6..=8 => 2,
        _ => 3,
    }
}

/// Checks that a reader whose source fails after `len` octets holds nothing then.
fn fails_after(rt: &(impl Abort + AllocGlobal), len: usize) {
    let source = Slow {
        rest: unwrap(rt, STREAM.get(..len).ok_or("too long")),
        is_ready: false,
        fails: true,
    };
    let mut reader = FrameReader::new(rt.alloc(), source);
    for _ in 0..in_front(len) {
        assert_true!(rt, unwrap(rt, reader.read_next()));
    }
    assert_true!(rt, matches!(reader.read_next(), Err(FrameError::Read(_))));
    assert_true!(rt, reader.frame().is_empty());
}

#[test]
fn nothing_is_held_after_a_read_that_fails(rt: HostRuntime) {
    for len in 0..10 {
        fails_after(&rt, len);
    }
}

#[test]
fn a_vector_is_emptied_by_a_stream_that_is_cut_off(rt: HostRuntime) {
    for end in 0..4 {
        let mut frame = unwrap(&rt, b"before".to_vec(rt.alloc()));
        let found = read_frame(&mut &STREAM[..end], &mut frame);
        assert_true!(&rt, end == 0 || matches!(found, Err(FrameError::Short)));
        assert_true!(&rt, frame.is_empty());
    }
}

/// Checks that reading a stream that is cut off fails after `messages` messages.
fn ends_short(rt: &(impl Abort + AllocGlobal), stream: &[u8], messages: usize) {
    let mut reader = FrameReader::new(rt.alloc(), stream);
    for _ in 0..messages {
        assert_true!(rt, unwrap(rt, reader.read_next()));
    }
    assert_true!(rt, matches!(reader.read_next(), Err(FrameError::Short)));
    assert_true!(rt, reader.frame().is_empty());
    assert_true!(rt, !unwrap(rt, reader.read_next()));
}

#[test]
fn a_stream_that_is_cut_off_is_reported(rt: HostRuntime) {
    ends_short(&rt, &STREAM[..1], 0);
    ends_short(&rt, &STREAM[..2], 0);
    ends_short(&rt, &STREAM[..3], 0);
    ends_short(&rt, &STREAM[..5], 1);
    ends_short(&rt, &STREAM[..7], 2);
    ends_short(&rt, &STREAM[..8], 2);
}

#[test]
fn frames_of_octets_are_their_places(rt: HostRuntime) {
    let mut parser = Parser::from_ref(STREAM);
    let mut places = Vec::new(rt.alloc());
    for _ in 0..3 {
        let found = unwrap(&rt, next_frame(&mut parser));
        let frame = unwrap(&rt, found.ok_or("too few messages"));
        unwrap(&rt, places.push((frame.pos(), frame.len())));
    }
    assert_true!(&rt, unwrap(&rt, next_frame(&mut parser)).is_none());
    assert_equal!(&rt, places.as_slice(), &[(2, 4), (6, 6), (8, 9)]);
}

#[test]
fn a_message_of_65535_octets_is_a_frame(rt: HostRuntime) {
    let mut message = Vec::new(rt.alloc());
    unwrap(&rt, message.resize(65535, 0_u8));
    let mut stream = Vec::new(rt.alloc());
    unwrap(&rt, write_frame(&mut stream, message.as_slice()));
    assert_equal!(&rt, stream.len(), 65537);
    assert_true!(&rt, stream.starts_with(b"\xFF\xFF"));
}

#[test]
fn a_message_of_65536_octets_is_none(rt: HostRuntime) {
    let mut message = Vec::new(rt.alloc());
    unwrap(&rt, message.resize(65536, 0_u8));
    let mut stream = Vec::new(rt.alloc());
    let refused = write_frame(&mut stream, message.as_slice());
    assert_true!(&rt, matches!(refused, Err(WriteFrameError::TooLong)));
    assert_true!(&rt, stream.is_empty());
}
