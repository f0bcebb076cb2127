//! What the data of records shows.
use crate::tests::unwrap;
use octseq::octets::Octets;
use octseq_asserts::assert_equal;
use octseq_dns::Message;
use std::alloc::AllocGlobal;
use std::fmt::Write;
use std::process::Abort;

/// A question for `example.com.` at offset 12, and the owner of an answer, which points to it.
const FRONT: &[u8] =
    b"\x12\x34\x85\x80\x00\x01\x00\x01\x00\x00\x00\x00\x07example\x03com\x00\x00\x01\x00\x01\xC0\x0C";

/// Makes a message with one answer of class IN, of a type and data.
fn answered(rt: &(impl Abort + AllocGlobal), rtype: u8, rdata: &[u8]) -> Vec<u8> {
    let mut octets = Vec::new(rt.alloc());
    unwrap(rt, octets.extend_from_slice(FRONT));
    unwrap(
        rt,
        octets.extend_from_slice(&[0, rtype, 0, 1, 0, 0, 1, 0x2C]),
    );
    unwrap(
        rt,
        octets.extend_from_slice(&unwrap(rt, u16::try_from(rdata.len())).to_be_bytes()),
    );
    unwrap(rt, octets.extend_from_slice(rdata));
    octets
}

/// Returns what the data of the answers of a message shows.
fn shown<R: Octets + Copy>(rt: &(impl Abort + AllocGlobal), octets: R) -> String {
    let message = unwrap(rt, Message::parse(octets));
    let mut text = String::new(rt.alloc());
    for answer in message.answers() {
        let found = answer.data();
        unwrap(rt, write!(text, "{found}"));
    }
    text
}

#[test]
fn ipv6_addresses_show_as_rfc_5952_has_them(rt: HostRuntime) {
    for (rdata, wanted) in [
        (b"\0\0\0\0\0\0\0\0\0\0\0\0\0\0\0\0", "::"),
        (b"\0\0\0\0\0\0\0\0\0\0\0\0\0\0\0\x01", "::1"),
        (
            b"\0\0\0\0\0\0\0\0\0\0\xFF\xFF\x01\x02\x03\x04",
            "::ffff:1.2.3.4",
        ),
        (b"\0\0\0\0\0\0\0\0\0\0\0\0\x01\x02\x03\x04", "::1.2.3.4"),
        (
            b"\x20\x01\x0D\xB8\0\0\0\0\0\x01\0\0\0\0\0\x01",
            "2001:db8::1:0:0:1",
        ),
        (
            b"\x20\x01\x0D\xB8\0\0\0\x01\0\x01\0\x01\0\x01\0\x01",
            "2001:db8:0:1:1:1:1:1",
        ),
    ] {
        let octets = answered(&rt, 28, rdata.as_slice());
        let text = shown(&rt, octets.as_slice());
        assert_equal!(&rt, text.as_str(), wanted);
    }
}

#[test]
fn data_shows_by_its_type(rt: HostRuntime) {
    for (rtype, rdata, wanted) in [
        (1, b"\x01\x02\x03\x04".as_slice(), "1.2.3.4"),
        (2, b"\xC0\x0C", "example.com."),
        (5, b"\x03www\xC0\x0C", "www.example.com."),
        (12, b"\x00", "."),
        (15, b"\x00\x0A\x04mail\xC0\x0C", "10 mail.example.com."),
        (
            6,
            b"\x02ns\xC0\x0C\xC0\x0C\0\0\0\x01\0\0\0\x02\0\0\0\x03\0\0\0\x04\xFF\xFF\xFF\xFF",
            "ns.example.com. example.com. 1 2 3 4 4294967295",
        ),
        (
            16,
            b"\x03a\"\\\x03\x00\xFF ",
            "\"a\\\"\\\\\" \"\\000\\255 \"",
        ),
        (16, b"\x00", "\"\""),
        (
            33,
            b"\x00\x01\x00\x02\x01\xBB\xC0\x0C",
            "1 2 443 example.com.",
        ),
        (99, b"", "\\# 0"),
        (99, b"\x01\xFF", "\\# 2 01ff"),
        (1, b"\x01\x02\x03\x04\x05", "\\# 5 0102030405"),
    ] {
        let octets = answered(&rt, rtype, rdata);
        let text = shown(&rt, octets.as_slice());
        assert_equal!(&rt, text.as_str(), wanted);
    }
}
