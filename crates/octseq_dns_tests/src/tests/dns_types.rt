//! Data of the types that are later than RFC 1035, of class IN: what it says, and that it is written as it was read.
use crate::tests::unwrap;
use octseq::str::StrBuilder;
use octseq_asserts::assert_equal;
use octseq_dns::{Data, Message, Target, rewrite};
use std::alloc::AllocGlobal;
use std::process::Abort;

/// A question for `example.com.` at offset 12, and the owner of an answer, which points to it.
const FRONT: &[u8] =
    b"\x12\x34\x85\x80\x00\x01\x00\x01\x00\x00\x00\x00\x07example\x03com\x00\x00\x01\x00\x01\xC0\x0C";

/// Data of a type as it is read, as it is written, and its text.
struct Row {
    rtype: u16,
    read: &'static [u8],
    written: &'static [u8],
    text: &'static str,
}

/// One of each type. Only the name of NAPTR may have a pointer when it is read, and no name has one when it is written.
static ROWS: [Row; 21] = [
    Row {
        rtype: 13,
        read: b"\x01A\0",
        written: b"\x01A\0",
        text: "\"A\" \"\"",
    },
    Row {
        rtype: 35,
        read: b"\0d\0\x0A\x01s\0\x03!\\\"\xC0\x0C",
        written: b"\0d\0\x0A\x01s\0\x03!\\\"\x07example\x03com\0",
        text: "100 10 \"s\" \"\" \"!\\\\\\\"\" example.com.",
    },
    Row {
        rtype: 39,
        read: b"\x01a\0",
        written: b"\x01a\0",
        text: "a.",
    },
    Row {
        rtype: 43,
        read: b"\0\x01\x05\x01\xFF",
        written: b"\0\x01\x05\x01\xFF",
        text: "1 5 1 ff",
    },
    Row {
        rtype: 44,
        read: b"\x04\x02\x7F",
        written: b"\x04\x02\x7F",
        text: "4 2 7f",
    },
    Row {
        rtype: 46,
        read: b"\0\x01\x05\x02\0\0\x01,\xFF\xFF\xFF\xFF\0\0\0\0\0\x07\x03foo\0\x01",
        written: b"\0\x01\x05\x02\0\0\x01,\xFF\xFF\xFF\xFF\0\0\0\0\0\x07\x03foo\0\x01",
        text: "A 5 2 300 4294967295 0 7 foo. AQ==",
    },
    Row {
        rtype: 47,
        read: b"\0\0\x06@\x01\0\0\0\x03\x01\x01@",
        written: b"\0\0\x06@\x01\0\0\0\x03\x01\x01@",
        text: ". A MX RRSIG NSEC CAA",
    },
    Row {
        rtype: 48,
        read: b"\x01\x01\x03\x0D\xFB\xFF",
        written: b"\x01\x01\x03\x0D\xFB\xFF",
        text: "257 3 13 +/8=",
    },
    Row {
        rtype: 49,
        read: b"\0\0\x01\x39\x20",
        written: b"\0\0\x01\x39\x20",
        text: "AAABOSA=",
    },
    Row {
        rtype: 50,
        read: b"\x01\0\0\x0A\0\x02\0B\0\x01@",
        written: b"\x01\0\0\x0A\0\x02\0B\0\x01@",
        text: "1 0 10 - 0110 A",
    },
    Row {
        rtype: 51,
        read: b"\x01\0\0\x0A\x02\xAB\xCD",
        written: b"\x01\0\0\x0A\x02\xAB\xCD",
        text: "1 0 10 abcd",
    },
    Row {
        rtype: 52,
        read: b"\x03\x01\x01\x0A\xFF",
        written: b"\x03\x01\x01\x0A\xFF",
        text: "3 1 1 0aff",
    },
    Row {
        rtype: 53,
        read: b"\0\0\0\0",
        written: b"\0\0\0\0",
        text: "0 0 0 00",
    },
    Row {
        rtype: 59,
        read: b"\0\0\0\0\0",
        written: b"\0\0\0\0\0",
        text: "0 0 0 00",
    },
    Row {
        rtype: 60,
        read: b"\0\0\x03\0\0",
        written: b"\0\0\x03\0\0",
        text: "0 3 0 AA==",
    },
    Row {
        rtype: 64,
        read: b"\0\x01\0\0\x01\0\x08\x07a\\b,c\"\0",
        written: b"\0\x01\0\0\x01\0\x08\x07a\\b,c\"\0",
        text: "1 . alpn=\"a\\\\\\\\b\\\\,c\\\"\\000\"",
    },
    Row {
        rtype: 65,
        read: b"\0\x01\x03foo\0\0\0\0\x04\0\x01\0\x03\0\x01\0\x06\x02h2\x02h3\0\x03\0\x02\x01\xBB\0\x04\0\x08\x01\
            \x02\x03\x04\x05\x06\x07\x08\0\x05\0\x01\0\0\x06\0\x10 \x01\x0D\xB8\0\0\0\0\0\0\0\0\0\0\0\x01\0\x07\0\0\
            \x02\x9B\0\x02\"\0",
        written: b"\0\x01\x03foo\0\0\0\0\x04\0\x01\0\x03\0\x01\0\x06\x02h2\x02h3\0\x03\0\x02\x01\xBB\0\x04\0\x08\
            \x01\x02\x03\x04\x05\x06\x07\x08\0\x05\0\x01\0\0\x06\0\x10 \x01\x0D\xB8\0\0\0\0\0\0\0\0\0\0\0\x01\0\x07\
            \0\0\x02\x9B\0\x02\"\0",
        text: "1 foo. mandatory=\"alpn,port\" alpn=\"h2,h3\" port=\"443\" ipv4hint=\"1.2.3.4,5.6.7.8\" ech=\"AA==\
            \" ipv6hint=\"2001:db8::1\" key7 key667=\"\\\"\\000\"",
    },
    Row {
        rtype: 256,
        read: b"\0\x0A\0\x01a\"\\\xFF",
        written: b"\0\x0A\0\x01a\"\\\xFF",
        text: "10 1 \"a\\\"\\\\\\255\"",
    },
    Row {
        rtype: 61,
        read: b"\x99\x01\x0D\x04S",
        written: b"\x99\x01\x0D\x04S",
        text: "mQENBFM=",
    },
    Row {
        rtype: 62,
        read: b"\0\0\0B\0\x03\0\x04`\0\0\x08",
        written: b"\0\0\0B\0\x03\0\x04`\0\0\x08",
        text: "66 3 A NS AAAA",
    },
    Row {
        rtype: 257,
        read: b"\0\x05issue\0\xFF\"",
        written: b"\0\x05issue\0\xFF\"",
        text: "0 issue \"\\000\\255\\\"\"",
    },
];

/// Makes a message with one answer of a type and data.
fn answer(rt: &(impl Abort + AllocGlobal), rtype: u16, rdata: &[u8]) -> Vec<u8> {
    let mut octets = Vec::new(rt.alloc());
    unwrap(rt, octets.extend_from_slice(FRONT));
    unwrap(rt, octets.extend_from_slice(&rtype.to_be_bytes()));
    unwrap(rt, octets.extend_from_slice(&[0, 1, 0, 0, 1, 0x2C]));
    unwrap(
        rt,
        octets.extend_from_slice(&unwrap(rt, u16::try_from(rdata.len())).to_be_bytes()),
    );
    unwrap(rt, octets.extend_from_slice(rdata));
    octets
}

/// Checks what data shows.
fn data_shows(rt: &(impl Abort + AllocGlobal), found: &Data<&[u8]>, wanted: &str) {
    let mut text = unwrap(rt, StrBuilder::<Vec<u8>>::new(rt.alloc()));
    unwrap(rt, text.try_push_display(found));
    assert_equal!(rt, text.as_str(), wanted);
}

/// Checks what the answer of a message shows, and its type.
fn shows(rt: &(impl Abort + AllocGlobal), octets: &[u8], row: &Row) {
    let message = unwrap(rt, Message::parse(octets));
    for answer in message.answers() {
        let found = answer.data();
        data_shows(rt, &found, row.text);
        assert_equal!(rt, found.rtype().to_int(), row.rtype);
    }
}

#[test]
fn data_of_each_type_shows(rt: HostRuntime) {
    for row in &ROWS {
        let octets = answer(&rt, row.rtype, row.read);
        shows(&rt, octets.as_slice(), row);
    }
}

/// Checks that a message is rewritten as these octets.
fn is_rewritten(rt: &(impl Abort + AllocGlobal), octets: &[u8], wanted: &[u8]) {
    let alloc = rt.alloc();
    let message = unwrap(rt, Message::parse(octets));
    let table: Vec<Target> = Vec::new(alloc);
    let (written, _) = unwrap(rt, rewrite(&message, Vec::new(alloc), table)).finish();
    assert_equal!(rt, written.as_slice(), wanted);
}

#[test]
fn data_of_each_type_is_written(rt: HostRuntime) {
    for row in &ROWS {
        let octets = answer(&rt, row.rtype, row.read);
        let wanted = answer(&rt, row.rtype, row.written);
        is_rewritten(&rt, octets.as_slice(), wanted.as_slice());
    }
}
