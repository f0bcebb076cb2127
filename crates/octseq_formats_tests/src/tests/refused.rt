//! Refused requests for memory.
//!
//! `.ci/refused` runs these tests with their n-th request refused, for each n up to the last of them. A refusal ends a
//! test with its error, once the test has checked what is there.
use crate::tests::unwrap;
use octseq::{AsOctets, WriteError};
use octseq_asserts::assert_equal;
use octseq_format::{Format, Of, Window};
use octseq_formats::tftp::Packet;
use std::alloc::AllocGlobal;
use std::process::Abort;

/// Appends a value of 40 octets to a vector.
fn append_forty<F: Format<R>, R: AsOctets + Copy>(
    rt: &(impl AllocGlobal + Abort),
    value: &F::Value,
) {
    let mut content = Vec::new(rt.alloc());
    let appended = F::append(&mut content, value);
    match appended {
        Ok(()) => assert_equal!(rt, content.len(), 40),
        Err(refusal) => {
            assert_equal!(rt, refusal, WriteError::Memory);
            assert_equal!(rt, content.len(), 0);
        }
    }
    unwrap(rt, appended);
}

/// Appends a write request to a vector.
fn append_request<H: AllocGlobal + Abort, R: AsOctets + Copy>(rt: &H, name: R, mode: R) {
    let packet = Packet::Write(Window::from_ref(name), Window::from_ref(mode));
    append_forty::<Of<Packet<R>>, R>(rt, &packet);
}

#[test]
fn a_packet_is_appended_or_not_at_all(rt: HostRuntime) {
    let name = b"a name of a file that is longer".as_slice();
    append_request(&rt, name, b"octet".as_slice());
}
