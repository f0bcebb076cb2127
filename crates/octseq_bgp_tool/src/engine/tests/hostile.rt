//! Writers that fail.
use super::records::{NOTE, file, file_text};
use super::{Command, UPDATE, UPDATE_TEXT, messages};
use crate::engine::tests::unwrap;
use octseq_cli::engine::engine;
use octseq_cli::fault_injection::ShortWrites;
use octseq_cli::{ProgramFault, Status};
use std::alloc::Global;
use std::io;
use std::process::Abort;

/// Makes a writer that takes seven octets at a time, and fails after some calls.
fn narrow(alloc: Global, calls: usize) -> ShortWrites {
    ShortWrites {
        taken: Vec::new(alloc),
        at_once: 7,
        calls,
    }
}

/// Runs a command over writers that fail after no call, after one, and so on, and checks that a prefix of the output is
/// written. Returns after how many calls it succeeds.
fn calls_needed(rt: &impl Abort, alloc: Global, word: &str, octets: &[u8], output: &[u8]) -> usize {
    for calls in 0..256 {
        let mut writer = narrow(alloc, calls);
        let (mut rest, errors) = (octets, &mut io::sink());
        let answer = engine::<Command, _, _, _>(alloc, word, &mut rest, &mut writer, errors);
        let taken = writer.taken.as_slice();
        assert_equal!(rt, output.get(..taken.len()), Some(taken));
        if answer.is_ok() {
            assert_equal!(rt, answer, Ok(Status::Fine));
            assert_equal!(rt, taken.len(), output.len());
            return calls;
        }
        assert_equal!(rt, answer, Err(ProgramFault::Write));
    }
    256
}

#[test]
fn a_failed_write_leaves_a_prefix(rt: HostRuntime) {
    let update = unwrap(&rt, messages(rt.alloc(), &[&UPDATE]));
    let shown = UPDATE_TEXT.as_bytes();
    let needed = calls_needed(&rt, rt.alloc(), "message", &update, shown);
    assert_equal!(&rt, needed, shown.len().div_ceil(7) + 1);
    let records = unwrap(&rt, file(rt.alloc()));
    let text = unwrap(&rt, file_text(rt.alloc()));
    assert_true!(
        &rt,
        calls_needed(&rt, rt.alloc(), "mrt", &records, text.as_bytes()) < 256
    );
}

#[test]
fn a_failed_note_is_reported_after_all_output(rt: HostRuntime) {
    let octets = unwrap(&rt, file(rt.alloc()));
    let (mut errors, mut output) = (narrow(rt.alloc(), 4), Vec::new(rt.alloc()));
    let (mut rest, notes) = (octets.as_slice(), &mut errors);
    let answer = engine::<Command, _, _, _>(rt.alloc(), "mrt", &mut rest, &mut output, notes);
    assert_equal!(&rt, answer, Err(ProgramFault::Note));
    let taken = errors.taken.as_slice();
    assert_equal!(&rt, NOTE.as_bytes().get(..taken.len()), Some(taken));
    let text = unwrap(&rt, file_text(rt.alloc()));
    assert_equal!(&rt, output.as_slice(), text.as_bytes());
}
