//! Messages composed of their text.
use crate::tests::unwrap;
use octseq::builder::AsOctetsMut;
use octseq::{Array, OctetsBuilder, Truncate};
use octseq_asserts::assert_equal;
use octseq_dns::StaticCompressor;
use octseq_dns_compose::{ComposeError, Place, compose_text};
use std::alloc::Global;

/// Composes the message of a text.
fn composed(alloc: Global, text: &[u8]) -> Result<Array<512>, ComposeError> {
    let table = StaticCompressor::<16>::new();
    let message = compose_text(alloc, text, Array::<512>::new(), table)?;
    Ok(message.finish().0)
}

/// The octets of RFC 1035, 4.1.
#[test]
fn a_message_is_composed(rt: HostRuntime) {
    let text =
        b"id 4660 opcode 0 rcode 0 flags QR AA RD RA\nquestion example.com. IN A\nanswer example.com. 300 IN A \\# \
            4 01020304\n";
    let octets = unwrap(&rt, composed(rt.alloc(), text));
    let wanted =
        b"\x12\x34\x85\x80\0\x01\0\x01\0\0\0\0\x07example\x03com\0\0\x01\0\x01\xc0\x0c\0\x01\0\x01\0\0\x01\x2c\0\
            \x04\x01\x02\x03\x04";
    assert_equal!(&rt, octets.as_slice(), wanted.as_slice());
}

/// Opaque data has no message around it: a name in it that has a pointer isn't read, even if the pointer leads into the
/// data (RFC 3597, 4). The octets of the data stay as they are.
#[test]
fn a_pointer_in_opaque_data_leads_nowhere(rt: HostRuntime) {
    for (line, data) in [
        // a header has 12 octets, and a record of the root 11 before its data; the exchange points at the preference,
        // whose first octet would be the root
        (
            b"answer . 0 IN MX \\# 4 000ac000\n".as_slice(),
            b"\0\x0a\xc0\0".as_slice(),
        ),
        // the mailbox points at the root that is the name server
        (
            b"answer . 0 IN SOA \\# 23 00c000 00000001 00000002 00000003 00000004 00000005\n",
            b"\0\xc0\0\0\0\0\x01\0\0\0\x02\0\0\0\x03\0\0\0\x04\0\0\0\x05",
        ),
        (
            b"answer . 0 IN SRV \\# 8 000000000000c000\n",
            b"\0\0\0\0\0\0\xc0\0",
        ),
    ] {
        let mut text = Vec::new(rt.alloc());
        unwrap(
            &rt,
            text.extend_from_slice(b"id 1 opcode 0 rcode 0 flags\n"),
        );
        unwrap(&rt, text.extend_from_slice(line));
        let octets = unwrap(&rt, composed(rt.alloc(), &text));
        assert_equal!(&rt, octets.as_slice().get(23..), Some(data));
    }
}

/// Opaque data whose names have no pointers is of its type: its name is compressed.
#[test]
fn a_plain_name_in_opaque_data_is_compressed(rt: HostRuntime) {
    let text = b"id 1 opcode 0 rcode 0 flags\nanswer a. 0 IN NS \\# 3 016100\n";
    let octets = unwrap(&rt, composed(rt.alloc(), text));
    let wanted = b"\0\x01\0\0\0\0\0\x01\0\0\0\0\x01a\0\0\x02\0\x01\0\0\0\0\0\x02\xc0\x0c";
    assert_equal!(&rt, octets.as_slice(), wanted.as_slice());
}

/// Composes the message of a text in a builder, and returns its number of octets.
fn composed_in<B: OctetsBuilder + Truncate + AsOctetsMut>(
    alloc: Global,
    text: &[u8],
    octets: B,
) -> Result<usize, ComposeError> {
    let table = StaticCompressor::<16>::new();
    let message = compose_text(alloc, text, octets, table)?;
    Ok(message.as_slice().len())
}

/// The first line with which the message would exceed the limit of the builder decides, and later ones aren't read. A
/// header has 12 octets, a question for the root 5, and a record of the root 11 and those of its data.
#[test]
fn the_first_line_beyond_the_limit_decides(rt: HostRuntime) {
    let alloc = rt.alloc();
    let short = Err(ComposeError::Short);
    let header = b"id 1 opcode 0 rcode 0 flags\n";
    assert_equal!(&rt, composed_in(alloc, header, Array::<11>::new()), short);
    assert_equal!(&rt, composed_in(alloc, header, Array::<12>::new()), Ok(12));
    let question = b"id 1 opcode 0 rcode 0 flags\nquestion . IN A\nanswer\n";
    let third = Err(ComposeError::Malformed(Place { line: 3, offset: 6 }));
    assert_equal!(&rt, composed_in(alloc, question, Array::<11>::new()), short);
    assert_equal!(&rt, composed_in(alloc, question, Array::<16>::new()), short);
    assert_equal!(&rt, composed_in(alloc, question, Array::<17>::new()), third);
    let records =
        b"id 1 opcode 0 rcode 0 flags\nauthority . 0 IN A 1.2.3.4\nadditional . 0 IN TXT a\nx\n";
    let fourth = Err(ComposeError::Malformed(Place { line: 4, offset: 0 }));
    assert_equal!(&rt, composed_in(alloc, records, Array::<26>::new()), short);
    assert_equal!(&rt, composed_in(alloc, records, Array::<39>::new()), short);
    assert_equal!(&rt, composed_in(alloc, records, Array::<40>::new()), fourth);
}

/// Data has at most 65,535 octets: 256 strings of 255 octets, each after its length, are too many.
#[test]
fn data_beyond_65535_octets_is_refused(rt: HostRuntime) {
    let mut text = Vec::new(rt.alloc());
    let start = b"id 1 opcode 0 rcode 0 flags\nanswer . 0 IN TXT";
    unwrap(&rt, text.extend_from_slice(start));
    let string = [b'a'; 255];
    for _ in 0..256 {
        unwrap(&rt, text.push(b' '));
        unwrap(&rt, text.extend_from_slice(&string));
    }
    let table = StaticCompressor::<16>::new();
    match compose_text(rt.alloc(), &text, Vec::new(rt.alloc()), table) {
        Ok(_) => panic!(&rt; "composed"),
        Err(error) => assert_equal!(&rt, error, ComposeError::Short),
    }
}

/// The number of the line, and the offset in it.
#[test]
fn a_fault_has_its_line(rt: HostRuntime) {
    for (text, line, offset) in [
        (b"".as_slice(), 1, 0),
        (b"\n".as_slice(), 1, 0),
        (b"id 1 opcode 0 rcode 0 flags".as_slice(), 1, 27),
        (b"id 65536 opcode 0 rcode 0 flags\n".as_slice(), 1, 3),
        (b"id 1 opcode 16 rcode 0 flags\n".as_slice(), 1, 12),
        (b"id 1 opcode 0 rcode 0 flags AA QR\n".as_slice(), 1, 31),
        (b"id 1 opcode 0 rcode 0 flags QR QR\n".as_slice(), 1, 31),
        (b"id 1 opcode 0 rcode 0 flags\n\n".as_slice(), 2, 0),
        (
            b"id 1 opcode 0 rcode 0 flags\nquestion . IN A .\n".as_slice(),
            2,
            16,
        ),
        (
            b"id 1 opcode 0 rcode 0 flags\nquestion . A\n".as_slice(),
            2,
            11,
        ),
        (
            b"id 1 opcode 0 rcode 0 flags\nanswer . 0 IN A \\# 0\nquestion . IN A\n".as_slice(),
            3,
            0,
        ),
        (
            b"id 1 opcode 0 rcode 0 flags\nanswer . 0 IN A \\# 0".as_slice(),
            2,
            20,
        ),
        (
            b"id 1 opcode 0 rcode 0 flags\nadditional . 0 IN A \\# 1 xx\n".as_slice(),
            2,
            25,
        ),
    ] {
        let wanted = Err(ComposeError::Malformed(Place { line, offset }));
        match composed(rt.alloc(), text) {
            Ok(_) => panic!(&rt; "composed"),
            Err(error) => assert_equal!(&rt, Err::<(), _>(error), wanted),
        }
    }
}
