//! DNS names and messages.
use crate::tests::unwrap;
use octseq::{AsOctets, Octets, Parser, ReadError};
use octseq_asserts::{Case, assert_equal, assert_true, over_each};
use octseq_dns::header::Flags;
use octseq_dns::name::Label;
use octseq_dns::{
    Class, Header, Malformed, Message, Opcode, ParsedName, Question, Rcode, Record, Rtype,
};
use std::alloc::AllocGlobal;
use std::process::Abort;

/// Returns the offset after the name at an offset of octets, and the wire length of the name.
fn name_at(octets: &[u8], place: usize) -> Option<(usize, usize)> {
    let mut parser = Parser::from_ref(octets);
    parser.seek(place).ok()?;
    match ParsedName::parse(&mut parser) {
        Ok(name) => Some((parser.pos(), name.len())),
        Err(Malformed) => None,
    }
}

/// Returns the name at an offset of octets.
fn parsed_at<'a>(rt: &impl Abort, octets: &'a [u8], place: usize) -> ParsedName<&'a [u8]> {
    let mut parser = Parser::from_ref(octets);
    unwrap(rt, parser.seek(place));
    unwrap(rt, ParsedName::parse(&mut parser))
}

/// Checks the octets of a label.
fn is_label(rt: &impl Abort, label: &Label<&[u8]>, wanted: &[u8]) {
    assert_equal!(rt, label.as_slice(), wanted);
    assert_equal!(rt, label.len(), wanted.len());
}

/// Checks the labels of the name at an offset.
fn has_labels(rt: &impl Abort, octets: &[u8], place: usize, wanted: &[&[u8]]) {
    let name = parsed_at(rt, octets, place);
    assert_equal!(rt, name.label_count(), wanted.len());
    assert_equal!(rt, name.is_root(), wanted.is_empty());
    for (label, other) in name.labels().zip(wanted) {
        is_label(rt, &label, other);
    }
}

#[test]
fn the_first_octet_tells_what_is_there(rt: HostRuntime) {
    for (octets, place, wanted) in [
        (b"\x00".as_slice(), 0, Some((1, 1))),
        (b"", 0, None),
        (b"\x03www\x00\xAA", 0, Some((5, 5))),
        (b"\x03www", 0, None),
        (b"\x03ww", 0, None),
        (b"\x00\xC0\x00", 1, Some((3, 1))),
        (b"\x00\xC0", 1, None),
        (b"\xC0\x00", 0, None),
        (b"\xC0\x01\x00", 0, None),
        (b"\x01a\xC0\x00", 0, None),
        (b"\x01a\x00\x01b\xC0\x00\x09", 3, Some((7, 5))),
        (b"\x00\x01b\xC0\x01", 1, None),
        (b"\x00\x40", 1, None),
        (b"\x00\xBF\x00", 1, None),
    ] {
        assert_equal!(&rt, name_at(octets, place), wanted);
    }
}

#[test]
fn labels_are_followed_through_pointers(rt: HostRuntime) {
    let octets = b"\x00\x03com\x00\x07example\xC0\x01\x03www\xC0\x06".as_slice();
    has_labels(&rt, octets, 0, &[]);
    has_labels(&rt, octets, 1, &[b"com"]);
    has_labels(&rt, octets, 6, &[b"example", b"com"]);
    has_labels(&rt, octets, 16, &[b"www", b"example", b"com"]);
    assert_equal!(&rt, name_at(octets, 16), Some((22, 17)));
}

#[test]
fn a_label_has_63_octets_at_most(rt: HostRuntime) {
    let longest = b"\x3F012345678901234567890123456789012345678901234567890123456789abc\0a";
    assert_equal!(&rt, name_at(longest, 0), Some((65, 65)));
    let longer = b"\x40012345678901234567890123456789012345678901234567890123456789abcd\0";
    assert_equal!(&rt, name_at(longer, 0), None);
}

#[test]
fn a_name_has_255_octets_at_most(rt: HostRuntime) {
    let mut octets = [b'a'; 256];
    for start in [0, 64, 128] {
        octets[start] = 63;
    }
    octets[192] = 61;
    octets[254] = 0;
    assert_equal!(&rt, name_at(&octets, 0), Some((255, 255)));
    octets[192] = 62;
    octets[254] = b'a';
    octets[255] = 0;
    assert_equal!(&rt, name_at(&octets, 0), None);
}

/// Makes a root followed by this many pointers: the first one points to the root, and each other to the one before it.
fn chain(rt: &(impl Abort + AllocGlobal), pointers: u8) -> Vec<u8> {
    let mut octets = Vec::new(rt.alloc());
    unwrap(rt, octets.push(0));
    for count in 0..pointers {
        let place = (2 * u16::from(count)).saturating_sub(1);
        unwrap(
            rt,
            octets.extend_from_slice(&(0xC000 | place).to_be_bytes()),
        );
    }
    octets
}

#[test]
fn a_name_has_127_pointers_at_most(rt: HostRuntime) {
    let most = chain(&rt, 127);
    assert_equal!(&rt, name_at(&most, 253), Some((255, 1)));
    let more = chain(&rt, 128);
    assert_equal!(&rt, name_at(&more, 255), None);
}

/// A question for `example.com.`, and an answer whose owner is a pointer to it.
const ANSWERED: &[u8] =
    b"\x12\x34\x85\x80\x00\x01\x00\x01\x00\x00\x00\x00\x07example\x03com\x00\x00\x01\x00\x01\
\xC0\x0C\x00\x01\x00\x01\x00\x00\x01\x2C\x00\x04\x01\x02\x03\x04";

/// Returns the number of entries in each section of a message.
fn counts_of<R: Octets + Copy>(message: &Message<R>) -> (usize, usize, usize, usize) {
    // (the header's counts bound those of the iterators)
    let _counts = message.header_counts();
    (
        message.questions().count(),
        message.answers().count(),
        message.authorities().count(),
        message.additionals().count(),
    )
}

/// Checks the owner and the data of the answer of a message.
fn has_address<R: Octets + Copy>(rt: &impl Abort, message: &Message<R>) {
    for answer in message.answers() {
        assert_equal!(rt, answer.owner().label_count(), 2);
        let wanted = b"\x01\x02\x03\x04".as_slice();
        assert_equal!(rt, answer.rdata().peek_all(), wanted);
    }
}

#[derive(Drop)]
struct IsRead;

impl<H: Abort + AllocGlobal> Case<H> for IsRead {
    fn holds<R: Octets + Copy>(&self, rt: &H, octets: R) {
        let message = unwrap(rt, Message::parse(octets));
        let header = message.header();
        assert_equal!(rt, (header.id, header.flags.qr), (4660, true));
        let copy = unwrap(rt, message.clone());
        assert_equal!(rt, counts_of(&copy), (1, 1, 0, 0));
        has_address(rt, &message);
    }
}

#[test]
fn a_message_is_read_from_each_kind_of_octets(rt: HostRuntime) {
    unwrap(&rt, over_each(&rt, &IsRead, ANSWERED));
}

/// Checks each field of the question.
fn is_asked<R: Octets + Copy>(rt: &impl Abort, question: &Question<R>) {
    let typed = (question.qtype(), question.qclass());
    assert_equal!(rt, typed, (Rtype::A, Class::IN));
    assert_equal!(rt, question.qname().parser().pos(), 12);
}

/// Checks each field of the answer.
fn is_answer<R: Octets + Copy>(rt: &impl Abort, answer: &Record<R>) {
    assert_equal!(rt, (answer.rtype(), answer.class()), (Rtype::A, Class::IN));
    assert_equal!(rt, answer.ttl().as_secs(), 300);
    assert_equal!(rt, answer.owner().parser().pos(), 29);
    assert_equal!(rt, (answer.rdata().pos(), answer.rdata().len()), (41, 45));
}

#[derive(Drop)]
struct EveryField;

impl<H: Abort + AllocGlobal> Case<H> for EveryField {
    fn holds<R: Octets + Copy>(&self, rt: &H, octets: R) {
        let message = unwrap(rt, Message::parse(octets));
        let header = message.header();
        let flags = Flags {
            qr: true,
            aa: true,
            rd: true,
            ra: true,
            ..Flags::default()
        };
        assert_equal!(rt, header.flags, flags);
        assert_equal!(
            rt,
            (header.opcode, header.rcode),
            (Opcode::QUERY, Rcode::NOERROR)
        );
        for question in message.questions() {
            is_asked(rt, &question);
        }
        for answer in message.answers() {
            is_answer(rt, &answer);
        }
    }
}

/// Runs the test on a slice.
fn has_every_field<H: Abort + AllocGlobal>(rt: &H, octets: &[u8]) {
    EveryField.holds(rt, octets);
}

#[test]
fn every_field_of_a_message_is_read(rt: HostRuntime) {
    has_every_field(&rt, ANSWERED);
    has_labels(&rt, ANSWERED, 29, &[b"example", b"com"]);
}

/// Returns the header of a message.
fn header_of<R: Octets + Copy>(octets: R) -> Result<Header, Malformed> {
    Ok(Message::parse(octets)?.header())
}

/// Checks the flags and the codes of a header with these bits.
fn has_bits(rt: &impl Abort, bits: [u8; 2], flags: Flags, codes: (u8, u8)) {
    let octets = [0, 0, bits[0], bits[1], 0, 0, 0, 0, 0, 0, 0, 0];
    let header = unwrap(rt, header_of(octets.as_slice()));
    assert_equal!(rt, header.flags, flags);
    assert_equal!(rt, (header.opcode.to_int(), header.rcode.to_int()), codes);
}

#[test]
fn each_bit_of_a_header_has_its_place(rt: HostRuntime) {
    let none = Flags::default();
    for (high, low, flags, opcode, rcode) in [
        (0x80, 0, Flags { qr: true, ..none }, 0, 0),
        (0x78, 0, none, 15, 0),
        (0x08, 0, none, 1, 0),
        (0x04, 0, Flags { aa: true, ..none }, 0, 0),
        (0x02, 0, Flags { tc: true, ..none }, 0, 0),
        (0x01, 0, Flags { rd: true, ..none }, 0, 0),
        (0, 0x80, Flags { ra: true, ..none }, 0, 0),
        (0, 0x40, Flags { z: true, ..none }, 0, 0),
        (0, 0x20, Flags { ad: true, ..none }, 0, 0),
        (0, 0x10, Flags { cd: true, ..none }, 0, 0),
        (0, 0x0F, none, 0, 15),
        (0, 0x01, none, 0, 1),
    ] {
        has_bits(&rt, [high, low], flags, (opcode, rcode));
    }
}

/// Whether octets are a message.
fn is_message(octets: &[u8]) -> bool {
    Message::parse(octets).is_ok()
}

#[test]
fn what_is_no_message_is_malformed(rt: HostRuntime) {
    let one = b"\x00\x00\x00\x00\x00\x01\x00\x00\x00\x00\x00\x00";
    let update = b"\x00\x00\x28\x00\x00\x00\x00\x00\x00\x01\x00\x00";
    for (header, body, wanted) in [
        (
            b"\x00\x00\x00\x00\x00\x00\x00\x00\x00\x00\x00\x00",
            b"".as_slice(),
            true,
        ),
        (
            b"\x00\x00\x00\x00\x00\x00\x00\x00\x00\x00\x00\x00",
            b"\x00",
            false,
        ),
        (one, b"\x00\x00\x01\x00\x01", true),
        (one, b"\x00\x00\x01\x00\x01\x00", false),
        (one, b"\x00\x00\x01\x00", false),
        (one, b"", false),
        (one, b"\xC0\x0C\x00\x01\x00\x01", false),
        (one, b"\xC0\x0E\x00\x01\x00\x01", false),
        (one, b"\xC0\x00\x00\x01\x00\x01", true),
        (
            b"\x00\x00\x00\x00\x00\x02\x00\x00\x00\x00\x00\x00",
            b"\x00\x00\x01\x00\x01",
            false,
        ),
        (
            update,
            b"\x03www\x00\x00\x01\x00\xFF\x00\x00\x00\x00\x00\x00",
            true,
        ),
        (
            update,
            b"\x03www\x00\x00\x01\x00\xFF\x00\x00\x00\x00\x00\x01",
            false,
        ),
        (
            update,
            b"\x03www\x00\x00\x01\x00\xFF\x00\x00\x00\x00\x00\x01\x00",
            true,
        ),
    ] {
        let mut octets = Vec::new(rt.alloc());
        unwrap(&rt, octets.extend_from_slice(header));
        unwrap(&rt, octets.extend_from_slice(body));
        assert_equal!(&rt, is_message(octets.as_slice()), wanted);
    }
    assert_true!(&rt, !is_message(&[0; 11]));
}

/// Makes a message of two records of the root. The first one has so much data that the second ends at 65537.
fn too_long(rt: &(impl Abort + AllocGlobal)) -> Vec<u8> {
    let mut octets = Vec::new(rt.alloc());
    unwrap(
        rt,
        octets.extend_from_slice(b"\x00\x00\x00\x00\x00\x00\x00\x00\x00\x00\x00\x02"),
    );
    unwrap(
        rt,
        octets.extend_from_slice(b"\x00\x00\x00\x00\x01\x00\x00\x00\x00\xFF\xDD"),
    );
    unwrap(rt, octets.resize(65524, 0));
    unwrap(
        rt,
        octets.extend_from_slice(b"\x00\x00\x00\x00\x01\x00\x00\x00\x00\x00\x02\x00\x00"),
    );
    octets
}

#[test]
fn a_message_has_65535_octets_at_most(rt: HostRuntime) {
    let mut octets = too_long(&rt);
    assert_equal!(&rt, octets.len(), 65537);
    assert_true!(&rt, !is_message(octets.as_slice()));
    octets.truncate(65535);
    if let Some(len) = octets.as_mut_slice().get_mut(65534) {
        *len = 0;
    }
    assert_true!(&rt, is_message(octets.as_slice()));
}

/// Returns what a refusal shows.
fn shown(rt: &(impl Abort + AllocGlobal), refused: Malformed) -> String {
    unwrap(rt, format!(in rt.alloc(); "{refused}"))
}

#[test]
fn a_refusal_tells_what_it_is(rt: HostRuntime) {
    let Err(refused) = header_of(b"".as_slice()) else {
        panic!(&rt; "it was read");
    };
    assert_equal!(&rt, shown(&rt, refused).as_str(), "malformed");
    assert_equal!(&rt, refused, Malformed);
    assert_equal!(&rt, ReadError::from(refused), ReadError::Malformed);
}
