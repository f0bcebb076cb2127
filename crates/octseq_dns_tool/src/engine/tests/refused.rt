//! Refused requests for memory.
//!
//! `.ci/refused` runs these tests with their n-th request refused, for each n up to the last of them. A refusal ends a
//! test with its error, once the test has checked that a prefix of the output was written.
use super::{REPLY, REPLY_TEXT, engine};
use crate::engine::Command;
use crate::engine::tests::unwrap;
use octseq::array::Array;
use octseq_cli::fault_injection::Fixed;
use octseq_cli::report::{Failure, report};
use octseq_cli::{ProgramFault, Status};
use std::alloc::{AllocError, Global};
use std::io::{self, Error};
use std::process::Abort;

/// Runs a command, which writes its whole output, or a prefix of it if memory is refused.
fn is_reported(
    rt: &impl Abort,
    alloc: Global,
    command: &str,
    octets: &[u8],
    output: &[u8],
) -> Status {
    let mut writer = Fixed::<128> {
        taken: Array::new(),
    };
    let answer = engine(alloc, command, &mut { octets }, &mut writer);
    match answer {
        Ok(status) => {
            assert_equal!(rt, writer.taken.as_slice(), output);
            status
        }
        Err(fault) => {
            assert_equal!(rt, fault, ProgramFault::Memory);
            let taken = writer.taken.as_slice();
            assert_equal!(rt, output.get(..taken.len()), Some(taken));
            unwrap(rt, Err(AllocError))
        }
    }
}

#[test]
fn message_tells_all_or_nothing(rt: HostRuntime) {
    let alloc = rt.alloc();
    is_reported(&rt, alloc, "message", &REPLY, REPLY_TEXT.as_bytes());
    is_reported(&rt, alloc, "message", b"a", b"malformed\n");
}

#[test]
fn stream_writes_a_prefix(rt: HostRuntime) {
    let octets = b"\0\x0C\0\0\0\0\0\0\0\0\0\0\0\0\0\x01\0\0\0\x02a";
    let text =
        b"id 0 opcode 0 rcode 0 flags\n\nmalformed\n\nmalformed\n\nunexpected end of input\n";
    is_reported(&rt, rt.alloc(), "stream", octets, text);
}

#[test]
fn rewrite_writes_a_prefix(rt: HostRuntime) {
    let alloc = rt.alloc();
    let mut stream = Vec::new(alloc);
    unwrap(&rt, stream.extend_from_slice(&[0, 45]));
    unwrap(&rt, stream.extend_from_slice(&REPLY));
    let octets = stream.as_slice();
    is_reported(&rt, alloc, "rewrite", octets, octets);
    is_reported(&rt, alloc, "rewrite", b"\0\x01a", b"");
}

#[test]
fn compose_writes_a_prefix(rt: HostRuntime) {
    let alloc = rt.alloc();
    let mut stream = Vec::new(alloc);
    unwrap(&rt, stream.extend_from_slice(&[0, 45]));
    unwrap(&rt, stream.extend_from_slice(&REPLY));
    is_reported(
        &rt,
        alloc,
        "compose",
        REPLY_TEXT.as_bytes(),
        stream.as_slice(),
    );
    is_reported(&rt, alloc, "compose", b"id\n\nid", b"");
}

/// Checks that the line of a failure is written, or that of refused memory. Returns the fault.
fn is_told(
    rt: &impl Abort,
    alloc: Global,
    failure: Failure,
    path: Option<&str>,
    line: &str,
) -> ProgramFault {
    let mut errors = Fixed::<128> {
        taken: Array::new(),
    };
    let fault = report(alloc, &mut errors, failure, path);
    let taken = errors.taken.as_slice();
    if fault == ProgramFault::Memory {
        assert_equal!(rt, taken, b"out of memory\n".as_slice());
        if failure.fault() != ProgramFault::Memory {
            unwrap(rt, Err(AllocError))
        }
    } else {
        assert_equal!(rt, taken, line.as_bytes());
        assert_equal!(rt, fault, failure.fault());
    }
    fault
}

#[test]
fn a_failure_is_told_or_refused_memory_is(rt: HostRuntime) {
    let alloc = rt.alloc();
    // (EISDIR and ENOENT of Linux)
    let (is_directory, none) = (Error::from_raw_os_error(21), Error::from_raw_os_error(2));
    for (failure, path, line) in [
        (Failure::Memory, None, "out of memory\n"),
        (Failure::Write, None, "cannot write the output\n"),
        (Failure::Note, None, "cannot write to standard error\n"),
        (Failure::Read(None), None, "cannot read standard input\n"),
        (
            Failure::Read(Some(is_directory)),
            None,
            "cannot read standard input: Is a directory (os error 21)\n",
        ),
        (
            Failure::Read(Some(is_directory)),
            Some("a\"\n"),
            "cannot read \"a\\\"\\n\": Is a directory (os error 21)\n",
        ),
        (
            Failure::Open(none),
            Some("b"),
            "cannot open \"b\": No such file or directory (os error 2)\n",
        ),
    ] {
        is_told(&rt, alloc, failure, path, line);
    }
}

#[test]
fn another_word_requests_nothing(rt: HostRuntime) {
    let mut errors = Fixed::<2048> {
        taken: Array::new(),
    };
    let answer = octseq_cli::engine::engine::<Command, _, _, _>(
        rt.alloc(),
        "chek",
        &mut b"a".as_slice(),
        &mut io::sink(),
        &mut errors,
    );
    assert_equal!(&rt, answer, Ok(Status::Usage));
    assert_true!(&rt, errors.taken.as_slice().len() > 0);
}
