//! Hostile input, and streams that fail.
use super::{REPLY, REPLY_TEXT, engine, joined, ran};
use crate::engine::Command;
use crate::engine::tests::unwrap;
use octseq_cli::fault_injection::{FailingWriter, ShortReads, ShortWrites};
use octseq_cli::{ProgramFault, Status};
use std::alloc::{AllocError, Global};
use std::io::ErrorKind;
use std::process::Abort;

/// A message of zeros, preceded by its length.
const BLANK: [u8; 14] = [0, 12, 0, 0, 0, 0, 0, 0, 0, 0, 0, 0, 0, 0];

/// The same as characters.
const BLANK_STREAM: &str = "\0\x0C\0\0\0\0\0\0\0\0\0\0\0\0";

/// The text of that message, and an empty line.
const BLANK_LINES: &str = "id 0 opcode 0 rcode 0 flags\n\n";

/// What each command writes for an input.
const OUTPUTS: [(&str, &str, Status, &str); 4] = [
    ("message", BLANK_STREAM, Status::Refused, "malformed\n"),
    ("stream", BLANK_STREAM, Status::Fine, BLANK_LINES),
    ("rewrite", BLANK_STREAM, Status::Fine, BLANK_STREAM),
    ("compose", BLANK_LINES, Status::Fine, BLANK_STREAM),
];

/// Runs a command over readers that fail after no read, after one, and so on. Returns after how many reads it succeeds.
fn failed_reads(
    rt: &impl Abort,
    alloc: Global,
    at_once: usize,
    (command, input, status, output): (&str, &str, Status, &str),
) -> usize {
    for reads in 0..32 {
        let mut reader = ShortReads {
            rest: input.as_bytes(),
            at_once,
            reads,
        };
        let mut written = Vec::new(alloc);
        let answer = engine(alloc, command, &mut reader, &mut written);
        if answer.is_ok() {
            assert_equal!(rt, answer, Ok(status));
            assert_equal!(rt, written.as_slice(), output.as_bytes());
            return reads;
        }
        assert_equal!(rt, answer, Err(ProgramFault::Read));
        // (the whole message is written after it was read, and nothing before that)
        assert_true!(
            rt,
            written.is_empty() || written.as_slice() == output.as_bytes()
        );
    }
    32
}

#[test]
fn a_failed_read_writes_what_was_read(rt: HostRuntime) {
    for (command, input, status, output) in OUTPUTS {
        // (the read that finds the end counts too, a length and its message are read one after the other, and a text
        // octet by octet)
        for (at_once, whole, apart) in [(1, 15, 15), (2, 8, 8), (7, 3, 4), (14, 2, 3), (15, 2, 3)] {
            let wanted = match command {
                "message" => whole,
                "compose" => input.len() + 1,
                _ => apart,
            };
            let failed = failed_reads(&rt, rt.alloc(), at_once, (command, input, status, output));
            assert_eq!(rt; failed, wanted, "{command} by {at_once}");
        }
    }
}

#[test]
fn a_failed_write_is_reported(rt: HostRuntime) {
    for (command, input, status, output) in OUTPUTS {
        for at_once in [1, 7, usize::MAX] {
            // (each write that is needed, and a call to flush)
            let needed = output.len().div_ceil(at_once) + 1;
            for calls in 0..=needed {
                let mut writer = ShortWrites {
                    taken: Vec::new(rt.alloc()),
                    at_once,
                    calls,
                };
                let octets = input.as_bytes();
                let answer = engine(rt.alloc(), command, &mut { octets }, &mut writer);
                let wanted = if calls < needed {
                    Err(ProgramFault::Write)
                } else {
                    Ok(status)
                };
                assert_eq!(rt; answer, wanted, "{command} of {calls}");
                let taken = writer.taken.as_slice();
                assert_equal!(&rt, output.as_bytes().get(..taken.len()), Some(taken));
                assert_true!(&rt, answer.is_err() || taken.len() == output.len());
            }
        }
    }
}

#[test]
fn nothing_is_written_after_a_failure(rt: HostRuntime) {
    let output = REPLY_TEXT.as_bytes();
    for failed in 1..=output.len() {
        for (kind, answer, taken) in [
            (
                ErrorKind::BrokenPipe,
                Err(ProgramFault::Write),
                &output[..failed - 1],
            ),
            (ErrorKind::Interrupted, Ok(Status::Fine), output),
        ] {
            let mut writer = FailingWriter {
                taken: Vec::new(rt.alloc()),
                until_failure: failed,
                kind,
            };
            let reported = engine(rt.alloc(), "message", &mut REPLY.as_slice(), &mut writer);
            assert_equal!(&rt, reported, answer);
            assert_equal!(&rt, writer.taken.as_slice(), taken);
        }
    }
}

/// Two messages that are none, and one that is between them, each after its length.
const BROKEN: [u8; 18] = [0, 0, 0, 12, 0, 0, 0, 0, 0, 0, 0, 0, 0, 0, 0, 0, 0, 0];

/// The notes about `BROKEN`.
const NOTES: &str = "message 1: malformed at octet 0\nmessage 3: malformed at octet 0\n";

/// Their texts, as they are shown.
const BROKEN_LINES: &[u8] = b"malformed\n\nid 0 opcode 0 rcode 0 flags\n\nmalformed\n\n";

/// The notes about those.
const LINE_NOTES: &str =
    "message 1: malformed at line 1, octet 0\nmessage 3: malformed at line 1, octet 0\n";

/// What each command writes for an input, `BROKEN` or its texts, and the notes.
const AROUND: [(&str, &[u8], Status, &[u8], &str); 3] = [
    ("stream", &BROKEN, Status::Fine, BROKEN_LINES, NOTES),
    ("rewrite", &BROKEN, Status::Refused, &BLANK, NOTES),
    ("compose", BROKEN_LINES, Status::Refused, &BLANK, LINE_NOTES),
];

#[test]
fn a_note_that_cant_be_written_doesnt_end_the_output(rt: HostRuntime) {
    let alloc = rt.alloc();
    for (command, input, status, output, notes) in AROUND {
        // (a note takes a write and a flush)
        for calls in 0..=4 {
            let mut errors = ShortWrites {
                taken: Vec::new(alloc),
                at_once: usize::MAX,
                calls,
            };
            let mut written = Vec::new(alloc);
            let answer = octseq_cli::engine::engine::<Command, _, _, _>(
                alloc,
                command,
                &mut { input },
                &mut written,
                &mut errors,
            );
            let wanted = if calls < 4 {
                Err(ProgramFault::Note)
            } else {
                Ok(status)
            };
            assert_eq!(rt; answer, wanted, "{command} of {calls}");
            assert_equal!(&rt, written.as_slice(), output);
            let taken = errors.taken.as_slice();
            assert_equal!(&rt, notes.as_bytes().get(..taken.len()), Some(taken));
        }
    }
}

#[test]
fn output_is_the_same_however_octets_are_read(rt: HostRuntime) {
    let alloc = rt.alloc();
    let stream = unwrap(
        &rt,
        joined(alloc, &[&[0, 45], &REPLY, &BLANK, &[0, 11], &[0; 11], &[9]]),
    );
    let (answer, wanted) = ran(alloc, "stream", stream.as_slice());
    assert_equal!(&rt, answer, Ok(Status::Refused));
    for at_once in [2, 3, 45, 46, 47, usize::MAX] {
        let mut reader = ShortReads {
            rest: stream.as_slice(),
            at_once,
            reads: usize::MAX,
        };
        let mut written = Vec::new(alloc);
        let answer = engine(alloc, "stream", &mut reader, &mut written);
        assert_equal!(&rt, answer, Ok(Status::Refused));
        assert_equal!(&rt, written.as_slice(), wanted.as_slice());
    }
}

/// Makes a message of `size` octets: a header of zeros that counts one answer, which is of the root, of type 10 and
/// class 1, and whose data is the rest of the octets, zeros too.
fn message_of(alloc: Global, size: usize) -> Result<Vec<u8>, AllocError> {
    let head = [
        0, 0, 0, 0, 0, 0, 0, 1, 0, 0, 0, 0, 0, 0, 10, 0, 1, 0, 0, 0, 0,
    ];
    let len = u16::try_from(size.saturating_sub(23)).unwrap_or(u16::MAX);
    let mut message = joined(alloc, &[&head, &len.to_be_bytes()])?;
    message.resize(size, 0)?;
    Ok(message)
}

#[test]
fn a_message_has_65535_octets_at_most(rt: HostRuntime) {
    let alloc = rt.alloc();
    let longest = unwrap(&rt, message_of(alloc, 65535));
    let (answer, written) = ran(alloc, "message", longest.as_slice());
    assert_equal!(&rt, answer, Ok(Status::Fine));
    assert_true!(
        &rt,
        written.as_slice().starts_with(
            b"id 0 opcode 0 rcode 0 flags\nanswer . 0 IN TYPE10 \\# 65512 0000"
        )
    );
    let stream = unwrap(&rt, joined(alloc, &[&[0xFF, 0xFF], longest.as_slice()]));
    let (answer, shown) = ran(alloc, "stream", stream.as_slice());
    assert_equal!(&rt, answer, Ok(Status::Fine));
    assert_equal!(&rt, shown.len(), written.len() + 1);
    let longer = unwrap(&rt, message_of(alloc, 65536));
    let (answer, written) = ran(alloc, "message", longer.as_slice());
    assert_equal!(&rt, answer, Ok(Status::Refused));
    assert_equal!(&rt, written.as_slice(), b"malformed\n".as_slice());
}
