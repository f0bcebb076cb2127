//! Refused requests for memory.
//!
//! `.ci/refused` runs these tests with their n-th request refused, for each n up to the last of them. A refusal ends a
//! test with its error, once the test has checked that nothing was written.
use super::USAGE;
use super::streams::Fixed;
use crate::engine::tests::unwrap;
use crate::engine::{Status, ToolFault, engine};
use octseq::array::Array;
use std::alloc::{AllocError, Global};
use std::process::Abort;

/// Runs a command, which writes its whole output, or nothing if memory is refused.
fn is_reported(
    rt: &impl Abort,
    alloc: Global,
    command: &str,
    octets: &[u8],
    output: &[u8],
) -> Status {
    let mut writer = Fixed {
        taken: Array::new(),
    };
    let answer = engine(alloc, command, &mut { octets }, &mut writer);
    match answer {
        Ok(status) => {
            assert_equal!(rt, writer.taken.as_slice(), output);
            status
        }
        Err(fault) => {
            assert_equal!(rt, fault, ToolFault::Memory);
            assert_true!(rt, writer.taken.as_slice().is_empty());
            unwrap(rt, Err(AllocError))
        }
    }
}

#[test]
fn check_tells_all_or_nothing(rt: HostRuntime) {
    let line = "well formed: 3 octets\n".as_bytes();
    is_reported(&rt, rt.alloc(), "check", b"h\xC3\xA9", line);
    let line = "invalid utf-8 sequence of 1 bytes from index 1\n".as_bytes();
    is_reported(&rt, rt.alloc(), "check", b"a\xC0", line);
}

#[test]
fn lossy_tells_all_or_nothing(rt: HostRuntime) {
    is_reported(&rt, rt.alloc(), "lossy", b"a\xFFb", b"a\xEF\xBF\xBDb");
    is_reported(&rt, rt.alloc(), "lossy64", b"a\xFFb", b"a\xEF\xBF\xBDb");
}

#[test]
fn records_tells_all_or_nothing(rt: HostRuntime) {
    let lines = b"a\xEF\xBF\xBDb\n\nunexpected end of input\n";
    is_reported(&rt, rt.alloc(), "records", b"\x03a\xFFb\0\x02a", lines);
}

#[test]
fn another_word_requests_nothing(rt: HostRuntime) {
    let status = is_reported(&rt, rt.alloc(), "chek", b"a", USAGE.as_bytes());
    assert_equal!(&rt, status, Status::Usage);
}
