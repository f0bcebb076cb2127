//! Refused requests for memory.
//!
//! `.ci/refused` runs these tests with their n-th request refused, for each n up to the last of them. A refusal ends a
//! test with its error, once the test has checked that a prefix of the output was written.
use super::records::{file, file_text};
use super::{Command, KEEPALIVE, UPDATE, UPDATE_TEXT, messages};
use crate::engine::tests::unwrap;
use octseq::array::Array;
use octseq_cli::engine::engine;
use octseq_cli::fault_injection::Fixed;
use octseq_cli::{ProgramFault, Status};
use std::alloc::{AllocError, Global};
use std::io;
use std::process::Abort;

/// Runs a command, which writes its whole output, or a prefix of it if memory is refused.
fn is_reported(rt: &impl Abort, alloc: Global, word: &str, octets: &[u8], output: &[u8]) {
    let mut writer = Fixed::<512> {
        taken: Array::new(),
    };
    let (mut rest, errors) = (octets, &mut io::sink());
    let answer = engine::<Command, _, _, _>(alloc, word, &mut rest, &mut writer, errors);
    let taken = writer.taken.as_slice();
    assert_equal!(rt, output.get(..taken.len()), Some(taken));
    match answer {
        Ok(status) => {
            assert_equal!(rt, status, Status::Fine);
            assert_equal!(rt, taken.len(), output.len());
        }
        Err(fault) => {
            assert_equal!(rt, fault, ProgramFault::Memory);
            unwrap(rt, Err(AllocError))
        }
    }
}

#[test]
fn message_tells_all_or_nothing(rt: HostRuntime) {
    let octets = unwrap(&rt, messages(rt.alloc(), &[&UPDATE]));
    is_reported(&rt, rt.alloc(), "message", &octets, UPDATE_TEXT.as_bytes());
}

#[test]
fn stream_writes_a_prefix(rt: HostRuntime) {
    let octets = unwrap(&rt, messages(rt.alloc(), &[&KEEPALIVE, &[0, 19, 6]]));
    is_reported(
        &rt,
        rt.alloc(),
        "stream",
        &octets,
        b"keepalive\n\nmalformed\n\n",
    );
}

#[test]
fn rewrite_writes_a_prefix(rt: HostRuntime) {
    let octets = unwrap(&rt, messages(rt.alloc(), &[&KEEPALIVE, &UPDATE]));
    is_reported(&rt, rt.alloc(), "rewrite", &octets, &octets);
}

#[test]
fn records_write_a_prefix(rt: HostRuntime) {
    let octets = unwrap(&rt, file(rt.alloc()));
    let text = unwrap(&rt, file_text(rt.alloc()));
    is_reported(&rt, rt.alloc(), "mrt", &octets, text.as_bytes());
}

#[test]
fn another_word_requests_nothing(rt: HostRuntime) {
    let mut notes = Fixed::<4096> {
        taken: Array::new(),
    };
    let (mut rest, output, errors) = (b"a".as_slice(), &mut io::sink(), &mut notes);
    let answer = engine::<Command, _, _, _>(rt.alloc(), "mesage", &mut rest, output, errors);
    assert_equal!(&rt, answer, Ok(Status::Usage));
    assert_true!(&rt, notes.taken.as_slice().len() > 0);
}
