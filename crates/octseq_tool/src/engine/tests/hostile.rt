//! Hostile input, and streams that fail.
use super::streams::{Failure, NONE, ShortReads, ShortWrites};
use super::{USAGE, ran, repeated};
use crate::engine::tests::unwrap;
use crate::engine::{Status, ToolFault, engine};
use std::alloc::{AllocError, Global};
use std::io::ErrorKind;

/// Each octet once, in order.
fn each_octet(alloc: Global) -> Result<Vec<u8>, AllocError> {
    let mut octets = Vec::new(alloc);
    for octet in 0..=255 {
        octets.push(octet)?;
    }
    Ok(octets)
}

/// The octets that aren't replaced, and a replacement for each other.
fn each_octet_lossy(alloc: Global) -> Result<Vec<u8>, AllocError> {
    let mut text = Vec::new(alloc);
    for octet in 0..128 {
        text.push(octet)?;
    }
    for _ in 128..256 {
        text.extend_from_slice("\u{FFFD}".as_bytes())?;
    }
    Ok(text)
}

#[test]
fn each_octet_once_is_reported_of(rt: HostRuntime) {
    let alloc = rt.alloc();
    let octets = unwrap(&rt, each_octet(alloc));
    let text = unwrap(&rt, each_octet_lossy(alloc));
    assert_equal!(&rt, text.len(), 512);
    for (command, status, output) in [
        (
            "check",
            Status::Refused,
            b"invalid utf-8 sequence of 1 bytes from index 128\n".as_slice(),
        ),
        ("lossy", Status::Fine, text.as_slice()),
        ("lossy64", Status::Refused, b"buffer size exceeded\n"),
    ] {
        let (answer, written) = ran(alloc, command, octets.as_slice());
        assert_equal!(&rt, answer, Ok(status));
        assert_equal!(&rt, written.as_slice(), output);
    }
}

#[test]
fn a_cut_end_counts_three_octets(rt: HostRuntime) {
    let alloc = rt.alloc();
    let mut fits = unwrap(&rt, repeated(alloc, &[(b'a', 61), (0xC3, 1)]));
    let (answer, written) = ran(alloc, "lossy64", fits.as_slice());
    assert_equal!(&rt, answer, Ok(Status::Fine));
    fits.truncate(61);
    unwrap(&rt, fits.extend_from_slice("\u{FFFD}".as_bytes()));
    assert_equal!(&rt, written.as_slice(), fits.as_slice());
    assert_equal!(&rt, written.len(), 64);
    for parts in [[(b'a', 62), (0xC3, 1)], [(b'a', 65), (b'a', 0)]] {
        let long = unwrap(&rt, repeated(alloc, &parts));
        let (answer, written) = ran(alloc, "lossy64", long.as_slice());
        assert_equal!(&rt, answer, Ok(Status::Refused));
        let line = "buffer size exceeded\n";
        assert_equal!(&rt, written.as_slice(), line.as_bytes());
    }
}

#[test]
fn lossy_writes_the_same_however_octets_are_read(rt: HostRuntime) {
    let alloc = rt.alloc();
    let octets =
        b"a\xF0\x9F\x98\x80\xE2\x82\xE2\x82\xAC\xF1\x80b\xC3\xA9\xFF\xF0\x90\x80".as_slice();
    let text = "a\u{1F600}\u{FFFD}€\u{FFFD}bé\u{FFFD}\u{FFFD}";
    for at_once in [1, 2, 3, 4, 5, usize::MAX] {
        let mut reader = ShortReads {
            rest: octets,
            at_once,
            failure: NONE,
        };
        let mut written = Vec::new(alloc);
        let answer = engine(alloc, "lossy", &mut reader, &mut written);
        assert_equal!(&rt, answer, Ok(Status::Fine));
        assert_eq!(rt; written.as_slice(), text.as_bytes(), "{at_once} at once");
    }
}

#[test]
fn lossy_reads_more_than_a_piece(rt: HostRuntime) {
    let alloc = rt.alloc();
    // (characters of three octets, so that one is split wherever a read of 65,536 octets can end)
    let mut octets = unwrap(&rt, "€".as_bytes().repeat(alloc, 50_000));
    unwrap(&rt, octets.push(0xE2));
    let mut written = Vec::new(alloc);
    let answer = engine(alloc, "lossy", &mut octets.as_slice(), &mut written);
    assert_equal!(&rt, answer, Ok(Status::Fine));
    octets.truncate(150_000);
    unwrap(&rt, octets.extend_from_slice("\u{FFFD}".as_bytes()));
    assert_equal!(&rt, written.as_slice(), octets.as_slice());
}

#[test]
fn records_reads_more_than_a_piece(rt: HostRuntime) {
    let alloc = rt.alloc();
    let record = unwrap(&rt, repeated(alloc, &[(99, 1), (b'a', 99)]));
    let line = unwrap(&rt, repeated(alloc, &[(b'a', 99), (b'\n', 1)]));
    let octets = unwrap(&rt, record.repeat(alloc, 1000));
    let lines = unwrap(&rt, line.repeat(alloc, 1000));
    let mut written = Vec::new(alloc);
    let answer = engine(alloc, "records", &mut octets.as_slice(), &mut written);
    assert_equal!(&rt, answer, Ok(Status::Fine));
    assert_equal!(&rt, written.as_slice(), lines.as_slice());
}

#[test]
fn check_searches_more_than_a_piece(rt: HostRuntime) {
    let alloc = rt.alloc();
    // (characters of three octets, so that one is split wherever a read of 65,536 octets can end)
    let mut octets = unwrap(&rt, "€".as_bytes().repeat(alloc, 50_000));
    for (line, status) in [
        ("well formed: 150000 octets\n", Status::Fine),
        (
            "incomplete utf-8 byte sequence from index 150000\n",
            Status::Refused,
        ),
        (
            "invalid utf-8 sequence of 1 bytes from index 150000\n",
            Status::Refused,
        ),
    ] {
        let mut written = Vec::new(alloc);
        let answer = engine(alloc, "check", &mut octets.as_slice(), &mut written);
        assert_equal!(&rt, answer, Ok(status));
        assert_equal!(&rt, written.as_slice(), line.as_bytes());
        unwrap(&rt, octets.push(0xE2));
    }
}

/// The output of each command for `\x03a\xFFb`.
const OUTPUTS: [(&str, Status, &str); 4] = [
    (
        "check",
        Status::Refused,
        "invalid utf-8 sequence of 1 bytes from index 2\n",
    ),
    ("lossy", Status::Fine, "\x03a\u{FFFD}b"),
    ("lossy64", Status::Fine, "\x03a\u{FFFD}b"),
    ("records", Status::Fine, "a\u{FFFD}b\n"),
];

/// Runs a command for `\x03a\xFFb`, a few octets per read, with a reader that fails.
fn ran_failing(
    alloc: Global,
    command: &str,
    at_once: usize,
    failure: Failure,
) -> (Result<Status, ToolFault>, Vec<u8>) {
    let mut reader = ShortReads {
        rest: b"\x03a\xFFb",
        at_once,
        failure,
    };
    let mut written = Vec::new(alloc);
    let answer = engine(alloc, command, &mut reader, &mut written);
    (answer, written)
}

#[test]
fn a_failed_read_writes_nothing(rt: HostRuntime) {
    // (the read that finds the end counts, too)
    let reads = [(1, 5), (2, 3), (3, 3), (4, 2), (5, 2)];
    let faults = [
        (ErrorKind::ConnectionReset, ToolFault::Read),
        (ErrorKind::OutOfMemory, ToolFault::Memory),
    ];
    for (command, _, _) in OUTPUTS {
        for (at_once, last) in reads {
            for at in 1..=last {
                for (kind, fault) in faults {
                    let failure = Failure { at, kind };
                    let (answer, written) = ran_failing(rt.alloc(), command, at_once, failure);
                    assert_eq!(rt; answer, Err(fault), "{command} by {at_once}, read {at}");
                    assert_true!(&rt, written.is_empty());
                }
            }
        }
    }
}

#[test]
fn an_interrupted_read_is_tried_again(rt: HostRuntime) {
    for (command, status, output) in OUTPUTS {
        for at in 0..=5 {
            let failure = Failure {
                at,
                kind: ErrorKind::Interrupted,
            };
            let (answer, written) = ran_failing(rt.alloc(), command, 1, failure);
            assert_equal!(&rt, answer, Ok(status));
            assert_equal!(&rt, written.as_slice(), output.as_bytes());
        }
    }
}

/// Runs a command for `\x03a\xFFb`, with a writer that takes a few octets at a time and fails.
fn written_failing(
    alloc: Global,
    command: &str,
    at_once: usize,
    failure: Failure,
) -> (Result<Status, ToolFault>, Vec<u8>) {
    let mut writer = ShortWrites {
        taken: Vec::new(alloc),
        at_once,
        failure,
    };
    let mut octets = b"\x03a\xFFb".as_slice();
    let answer = engine(alloc, command, &mut octets, &mut writer);
    (answer, writer.taken)
}

#[test]
fn a_failed_write_is_reported(rt: HostRuntime) {
    let kind = ErrorKind::BrokenPipe;
    for (command, status, output) in OUTPUTS {
        for at_once in [1, 7, usize::MAX] {
            // (each write that is needed, and a call to flush)
            let calls = output.len().div_ceil(at_once) + 1;
            for at in 1..=calls + 1 {
                let (answer, taken) = written_failing(
                    rt.alloc(),
                    command,
                    at_once,
                    Failure { at, kind },
                );
                let wanted = if at <= calls {
                    Err(ToolFault::Write)
                } else {
                    Ok(status)
                };
                assert_eq!(rt; answer, wanted, "{command} by {at_once}, call {at}");
                // (a writer that goes on shows that nothing more is written)
                let len = at_once.saturating_mul(at - 1).min(output.len());
                assert_equal!(&rt, Some(taken.as_slice()), output.as_bytes().get(..len));
            }
        }
    }
}

#[test]
fn an_interrupted_write_is_tried_again(rt: HostRuntime) {
    for (command, status, output) in OUTPUTS {
        for at in 1..=output.len() {
            let failure = Failure {
                at,
                kind: ErrorKind::Interrupted,
            };
            let (answer, taken) = written_failing(rt.alloc(), command, 1, failure);
            assert_equal!(&rt, answer, Ok(status));
            assert_equal!(&rt, taken.as_slice(), output.as_bytes());
        }
    }
}

#[test]
fn a_failed_write_of_the_usage_line_reads_nothing(rt: HostRuntime) {
    let kind = ErrorKind::BrokenPipe;
    for at in 1..=2 {
        let mut octets = b"a".as_slice();
        let mut writer = ShortWrites {
            taken: Vec::new(rt.alloc()),
            at_once: usize::MAX,
            failure: Failure { at, kind },
        };
        let answer = engine(rt.alloc(), "chek", &mut octets, &mut writer);
        assert_equal!(&rt, answer, Err(ToolFault::Write));
        assert_equal!(&rt, octets, b"a".as_slice());
        let line = if at == 1 { "" } else { USAGE };
        assert_equal!(&rt, writer.taken.as_slice(), line.as_bytes());
    }
}

#[test]
fn a_writer_that_takes_nothing_has_failed(rt: HostRuntime) {
    let (answer, taken) = written_failing(rt.alloc(), "check", 0, NONE);
    assert_equal!(&rt, answer, Err(ToolFault::Write));
    assert_true!(&rt, taken.is_empty());
}

#[test]
fn a_second_run_writes_after_the_first(rt: HostRuntime) {
    let mut written = Vec::new(rt.alloc());
    for (command, octets) in [("lossy", b"a\xFF".as_slice()), ("check", b"ab")] {
        let mut reader = octets;
        let answer = engine(rt.alloc(), command, &mut reader, &mut written);
        assert_equal!(&rt, answer, Ok(Status::Fine));
    }
    let both = "a\u{FFFD}well formed: 2 octets\n";
    assert_equal!(&rt, written.as_slice(), both.as_bytes());
}
