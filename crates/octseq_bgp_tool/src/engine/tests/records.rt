//! Files of records.
use super::{KEEPALIVE, MARKER, joined, reported, shows};
use crate::engine::tests::unwrap;
use octseq_cli::{ProgramFault, Status};
use std::alloc::{AllocError, Global};
use std::process::Abort;

/// Returns the header of a BGP4MP record of a subtype with this many octets after it.
fn header(subtype: u8, len: u8) -> [u8; 12] {
    [0x65, 0x53, 0xF1, 0, 0, 16, 0, subtype, 0, 0, 0, len]
}

/// The speakers of a session: 10.0.0.1 of AS 65001, and 10.0.0.2 of AS 65002.
const SPEAKERS: [u8; 20] = [
    0, 0, 0xFD, 0xE9, 0, 0, 0xFD, 0xEA, 0, 0, 0, 1, 10, 0, 0, 1, 10, 0, 0, 2,
];

/// The text of the speakers in the line of a record, after its subtype.
const SPEAKERS_TEXT: &str = "peer 10.0.0.1 as 65001 local 10.0.0.2 as 65002 interface 0";

/// A record whose octets don't have the form of its type.
const OPAQUE: [u8; 12] = [0, 0, 0, 0, 0, 0, 0, 0, 0, 1, 0, 8];

/// Makes a file of a KEEPALIVE, a state change, a message of unknown type, and `OPAQUE`, each in a record.
pub(super) fn file(alloc: Global) -> Result<Vec<u8>, AllocError> {
    joined(
        alloc,
        &[
            &header(4, 39),
            &SPEAKERS,
            &MARKER,
            &KEEPALIVE,
            &header(5, 24),
            &SPEAKERS,
            &[0, 3, 0, 4],
            &header(4, 39),
            &SPEAKERS,
            &MARKER,
            &[0, 19, 6],
            &header(5, 12),
            &OPAQUE,
        ],
    )
}

/// Returns the text of that file.
pub(super) fn file_text(alloc: Global) -> Result<String, AllocError> {
    format!(in alloc;
        "bgp4mp 1700000000 4 {SPEAKERS_TEXT}\nkeepalive\n\n\
        bgp4mp 1700000000 5 {SPEAKERS_TEXT} state 3 4\n\n\
        bgp4mp 1700000000 4 {SPEAKERS_TEXT}\nmalformed\n\n\
        record 1700000000 16 5 \\# 12 000000000000000000010008\n\n"
    )
}

/// The note about that file.
pub(super) const NOTE: &str = "message of record 3: malformed at octet 0\n";

#[test]
fn records_are_shown(rt: HostRuntime) {
    let octets = unwrap(&rt, file(rt.alloc()));
    let text = unwrap(&rt, file_text(rt.alloc()));
    shows(&rt, rt.alloc(), "mrt", &octets, Status::Fine, &text, NOTE);
    shows(&rt, rt.alloc(), "mrt", b"", Status::Fine, "", "");
}

#[test]
fn messages_are_taken_as_they_are(rt: HostRuntime) {
    let octets = unwrap(&rt, file(rt.alloc()));
    let it = reported(rt.alloc(), "messages", &octets, 7, usize::MAX);
    assert_equal!(&rt, it.answer, Ok(Status::Fine));
    let stream = unwrap(&rt, joined(rt.alloc(), &[&MARKER, &KEEPALIVE]));
    assert_equal!(&rt, it.written.as_slice(), stream.as_slice());
    assert_equal!(&rt, it.errors.as_slice(), NOTE.as_bytes());
}

#[test]
fn a_record_that_is_cut_off_is_reported(rt: HostRuntime) {
    let octets = unwrap(&rt, joined(rt.alloc(), &[&header(5, 12), &OPAQUE]));
    for len in 1..octets.len() {
        let front = &octets[..len];
        let refused = Status::Refused;
        shows(
            &rt,
            rt.alloc(),
            "mrt",
            front,
            refused,
            "unexpected end of input\n",
            "",
        );
        shows(&rt, rt.alloc(), "messages", front, refused, "", "");
    }
}

#[test]
fn records_before_a_failed_read_are_shown(rt: HostRuntime) {
    let octets = unwrap(&rt, file(rt.alloc()));
    // (a header and what follows it are read one after the other, and the third read fails)
    let it = reported(rt.alloc(), "mrt", &octets, usize::MAX, 2);
    assert_equal!(&rt, it.answer, Err(ProgramFault::Read));
    let text = unwrap(&rt, file_text(rt.alloc()));
    let first = text.as_bytes().get(..it.written.len());
    assert_equal!(&rt, Some(it.written.as_slice()), first);
    assert_true!(&rt, it.written.as_slice().ends_with(b"keepalive\n\n"));
}
