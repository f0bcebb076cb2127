//! Messages that are rewritten: a refused request for memory is returned, and leaves the message that was read
//! unchanged.
use super::super::dns_round_trips::{COMPRESSED, PLAIN};
use crate::tests::unwrap;
use octseq::octets::Octets;
use octseq_asserts::assert_equal;
use octseq_dns::{Message, Target, rewrite};
use std::alloc::AllocGlobal;
use std::process::Abort;

/// Checks the number of answers of the message.
fn has_answers<R: Octets + Copy>(rt: &impl Abort, message: &Message<R>) {
    assert_equal!(rt, message.header_counts().ancount, 10);
    assert_equal!(rt, message.answers().count(), 10);
}

/// Rewrites a message, or returns what was refused.
fn is_written_anew<R: Octets + Copy>(rt: &(impl Abort + AllocGlobal), octets: R) {
    let alloc = rt.alloc();
    let message = unwrap(rt, Message::parse(octets));
    let written = rewrite(&message, Vec::new(alloc), Vec::<Target>::new(alloc));
    has_answers(rt, &message);
    let (written, _) = unwrap(rt, written).finish();
    assert_equal!(rt, written.as_slice(), COMPRESSED);
}

#[test]
fn a_message_is_written_anew_or_not_at_all(rt: HostRuntime) {
    is_written_anew(&rt, PLAIN);
}
