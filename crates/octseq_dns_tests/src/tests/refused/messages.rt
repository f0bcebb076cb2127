//! Messages: lists of their entries.
use crate::tests::unwrap;
use octseq::octets::Octets;
use octseq_asserts::assert_equal;
use octseq_dns::message::Sections;
use octseq_dns::{Message, Rtype};
use std::alloc::{AllocError, AllocGlobal};
use std::process::Abort;

/// Two questions for the root, and an answer and an additional record of it.
const ENTRIES: &[u8] =
    b"\x00\x01\x80\x00\x00\x02\x00\x01\x00\x00\x00\x01\x00\x00\x01\x00\x01\x00\x00\x1C\x00\x01\
\x00\x00\x01\x00\x01\x00\x00\x00\x3C\x00\x04\x01\x02\x03\x04\x00\x00\x29\x02\x00\x00\x00\x00\x00\x00\x00";

/// Checks the counts of the message.
fn has_entries<R: Octets + Copy>(rt: &impl Abort, message: &Message<R>) {
    let counts = message.header_counts();
    assert_equal!(rt, (counts.qdcount, counts.arcount), (2, 1));
    assert_equal!(rt, message.questions().count(), 2);
    assert_equal!(rt, message.additionals().count(), 1);
}

/// Lists the entries. A refused list leaves the message unchanged.
fn lists<R: Octets + Copy>(rt: &(impl Abort + AllocGlobal), octets: R) {
    let message = unwrap(rt, Message::parse(octets));
    let sections: Result<Sections<R>, AllocError> = message.collect(rt.alloc());
    has_entries(rt, &message);
    let sections = unwrap(rt, sections);
    for (question, rtype) in sections.questions.iter().zip([Rtype::A, Rtype::AAAA]) {
        assert_equal!(rt, question.qtype(), rtype);
    }
    assert_equal!(rt, sections.questions.len(), 2);
    assert_equal!(rt, sections.additionals.len(), 1);
}

#[test]
fn a_refused_list_leaves_the_message(rt: HostRuntime) {
    lists(&rt, &unwrap(&rt, ENTRIES.to_vec(rt.alloc())));
}
