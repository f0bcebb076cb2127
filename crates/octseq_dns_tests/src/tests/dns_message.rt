//! The text of whole messages, lists of their entries, and a reader of messages as a caller writes it.
use crate::tests::unwrap;
use octseq::octets::Octets;
use octseq::str::DisplayError;
use octseq::{Array, AsOctets, Parser, StrBuilder};
use octseq_asserts::{assert_equal, assert_true};
use octseq_dns::message::{Section, Sections, fault_offset};
use octseq_dns::{Data, Malformed, Message, Record, Rtype, Ttl};
use std::alloc::AllocGlobal;
use std::process::Abort;

/// Returns how many of the answers have an address of the name that is asked for.
fn count_addresses<R: AsOctets + Copy>(octets: R) -> Result<usize, Malformed> {
    let message = Message::parse(octets)?;
    let mut count: usize = 0;
    for question in message.questions() {
        for answer in message.answers() {
            if answer.owner().name_eq(&question.qname()) {
                match answer.data() {
                    Data::A(_) | Data::Aaaa(_) => count = count.saturating_add(1),
                    _ => {}
                }
            }
        }
    }
    Ok(count)
}

/// Returns the type that the first question of a message in a slice asks for.
fn first_qtype(octets: &[u8]) -> Result<Option<Rtype>, Malformed> {
    let message = Message::parse(octets)?;
    Ok(message.questions().next().map(|asked| asked.qtype()))
}

/// Returns the TTL of the record at an offset of a message in a slice.
fn ttl_at(octets: &[u8], place: usize) -> Result<Ttl, Malformed> {
    let mut parser = Parser::from_ref(octets);
    parser.seek(place)?;
    let entry = Record::parse(&mut parser)?;
    Ok(entry.ttl())
}

/// Returns the text of a message.
fn shown<R: Octets + Copy>(rt: &(impl Abort + AllocGlobal), octets: R) -> StrBuilder<Vec<u8>> {
    let mut text = unwrap(rt, StrBuilder::<Vec<u8>>::new(rt.alloc()));
    match Message::parse(octets) {
        Ok(message) => unwrap(rt, message.append_text(&mut text)),
        Err(Malformed) => unwrap(rt, text.try_push_str("malformed\n")),
    }
    text
}

/// Appends a message to a text in an array.
fn appended(
    rt: &impl Abort,
    octets: &[u8],
    text: &mut StrBuilder<Array<64>>,
) -> Result<(), DisplayError> {
    unwrap(rt, Message::parse(octets)).append_text(text)
}

/// A question for `example.com.`, and an answer whose owner is a pointer to it.
const ANSWERED: &[u8] =
    b"\x12\x34\x85\x80\x00\x01\x00\x01\x00\x00\x00\x00\x07example\x03com\x00\x00\x01\x00\x01\
\xC0\x0C\x00\x01\x00\x01\x00\x00\x01\x2C\x00\x04\x01\x02\x03\x04";

/// An update that removes all addresses of a name.
const UPDATE: &[u8] =
    b"\x00\x01\x28\x00\x00\x00\x00\x00\x00\x01\x00\x00\x07example\x03com\x00\x00\x01\x00\xFF\
\x00\x00\x00\x00\x00\x00";

#[test]
fn messages_show_line_by_line(rt: HostRuntime) {
    for (octets, wanted) in [
        (
            b"\0\0\0\0\0\0\0\0\0\0\0\0".as_slice(),
            "id 0 opcode 0 rcode 0 flags\n",
        ),
        (b"\0\0\0\0\0\0\0\0\0\0\0", "malformed\n"),
        (
            ANSWERED,
            "id 4660 opcode 0 rcode 0 flags QR AA RD RA\nquestion example.com. IN A\n\
             answer example.com. 300 IN A 1.2.3.4\n",
        ),
        (
            UPDATE,
            "id 1 opcode 5 rcode 0 flags\nauthority example.com. 0 ANY A \\# 0\n",
        ),
        (
            b"\xFF\xFF\x7F\xFF\0\x01\0\0\0\0\0\0\0\x12\x34\x43\x21",
            "id 65535 opcode 15 rcode 15 flags AA TC RD RA AD CD\nquestion . CLASS17185 TYPE4660\n",
        ),
    ] {
        let text = shown(&rt, octets);
        assert_equal!(&rt, text.as_str(), wanted);
    }
}

#[test]
fn a_text_that_would_pass_the_limit_stays(rt: HostRuntime) {
    let mut text = StrBuilder::<Array<64>>::default();
    unwrap(&rt, text.try_push_str("before "));
    let refused = appended(&rt, ANSWERED, &mut text);
    assert_equal!(&rt, refused, Err(DisplayError::Short));
    assert_equal!(&rt, text.as_str(), "before ");
    let nothing = b"\0\0\0\0\0\0\0\0\0\0\0\0";
    assert_equal!(&rt, appended(&rt, nothing, &mut text), Ok(()));
    assert_equal!(&rt, text.as_str(), "before id 0 opcode 0 rcode 0 flags\n");
}

#[test]
fn slices_are_read(rt: HostRuntime) {
    assert_equal!(&rt, first_qtype(ANSWERED), Ok(Some(Rtype::A)));
    assert_equal!(&rt, first_qtype(b"\0".as_slice()), Err(Malformed));
    assert_equal!(&rt, ttl_at(ANSWERED, 29), Ok(Ttl::from_secs(300)));
    assert_equal!(&rt, ttl_at(ANSWERED, 30), Err(Malformed));
}

#[test]
fn a_caller_counts_addresses(rt: HostRuntime) {
    assert_equal!(&rt, count_addresses(ANSWERED), Ok(1));
    assert_equal!(&rt, count_addresses(UPDATE), Ok(0));
    assert_equal!(&rt, count_addresses(b"\0".as_slice()), Err(Malformed));
}

/// A question for `example.com.`, an answer whose owner is a pointer to it, and one for `www.example.com.`.
const ANSWERED_TWICE: &[u8] =
    b"\x12\x34\x85\x80\x00\x01\x00\x02\x00\x00\x00\x00\x07example\x03com\x00\x00\x01\x00\x01\
\xC0\x0C\x00\x01\x00\x01\x00\x00\x01\x2C\x00\x04\x01\x02\x03\x04\
\x03www\xC0\x0C\x00\x01\x00\x01\x00\x00\x00\x3C\x00\x04\x05\x06\x07\x08";

/// Checks that the record has an owner with these labels, and this address.
fn has_address<R: Octets + Copy>(
    rt: &impl Abort,
    entry: &Record<R>,
    labels: &[&[u8]],
    address: [u8; 4],
) {
    let mut count: usize = 0;
    for label in entry.owner().labels() {
        assert_equal!(rt, Some(label.as_slice()), labels.get(count).copied());
        count = count.saturating_add(1);
    }
    assert_equal!(rt, count, labels.len());
    match entry.data() {
        Data::A(octets) => assert_equal!(rt, octets, address),
        _ => assert_true!(rt, false),
    }
}

/// Checks that the lists have one question, two addresses as answers, and nothing else.
fn are_listed<R: Octets + Copy>(rt: &impl Abort, sections: &Sections<R>) {
    match sections.answers.as_slice() {
        [first, second] => {
            has_address(rt, first, &[b"example", b"com"], [1, 2, 3, 4]);
            has_address(rt, second, &[b"www", b"example", b"com"], [5, 6, 7, 8]);
        }
        _ => panic!(rt; "not two"),
    }
    assert_equal!(rt, sections.questions.len(), 1);
    assert_equal!(rt, sections.authorities.len(), 0);
    assert_equal!(rt, sections.additionals.len(), 0);
}

/// Lists the entries of a message, and checks them.
fn lists_entries<R: Octets + Copy>(rt: &(impl Abort + AllocGlobal), octets: R) {
    let message = unwrap(rt, Message::parse(octets));
    are_listed(rt, &unwrap(rt, message.collect(rt.alloc())));
}

#[test]
fn entries_are_listed(rt: HostRuntime) {
    lists_entries(&rt, ANSWERED_TWICE);
}

/// A message without questions, with two answers, an authority record and an additional record of the root, whose types
/// are 1 to 4.
const ONE_BY_ONE: &[u8] =
    b"\0\0\0\0\0\0\0\x02\0\x01\0\x01\0\0\x01\0\x01\0\0\0\0\0\0\0\0\x02\0\x01\0\0\0\0\0\0\
\0\0\x03\0\x01\0\0\0\0\0\0\0\0\x04\0\x01\0\0\0\0\0\0";

#[test]
fn records_are_listed_with_their_sections(rt: HostRuntime) {
    let message = unwrap(&rt, Message::parse(ONE_BY_ONE));
    let mut listed = message.records();
    for (rtype, section) in [
        (1, Section::Answer),
        (2, Section::Answer),
        (3, Section::Authority),
        (4, Section::Additional),
    ] {
        let (record, found) = unwrap(&rt, listed.next().ok_or("no record"));
        assert_equal!(&rt, record.rtype(), Rtype::from_int(rtype));
        assert_equal!(&rt, found, section);
    }
    assert_true!(&rt, listed.next().is_none());
}

/// Returns what a message prints, followed by what each of its authority records prints.
fn displayed<R: Octets + Copy>(rt: &(impl Abort + AllocGlobal), octets: R) -> String {
    let message = unwrap(rt, Message::parse(octets));
    let mut text = unwrap(rt, format!(in rt.alloc(); "{message}"));
    for entry in message.authorities() {
        unwrap(
            rt,
            text.push_str(unwrap(rt, format!(in rt.alloc(); "{entry}")).as_str()),
        );
    }
    text
}

#[test]
fn a_message_shows_as_it_is_appended(rt: HostRuntime) {
    assert_equal!(
        &rt,
        displayed(&rt, ANSWERED_TWICE).as_str(),
        "id 4660 opcode 0 rcode 0 flags QR AA RD RA\nquestion example.com. IN A\n\
         answer example.com. 300 IN A 1.2.3.4\nanswer www.example.com. 60 IN A 5.6.7.8\n"
    );
    assert_equal!(
        &rt,
        displayed(&rt, UPDATE).as_str(),
        "id 1 opcode 5 rcode 0 flags\nauthority example.com. 0 ANY A \\# 0\nexample.com. 0 ANY A \\# 0"
    );
}

#[test]
fn a_fault_is_at_the_first_part_that_isnt_there(rt: HostRuntime) {
    assert_equal!(&rt, fault_offset(b""), 0);
    assert_equal!(&rt, fault_offset(&ANSWERED[..11]), 0);
    assert_equal!(&rt, fault_offset(&ANSWERED[..28]), 12);
    assert_equal!(&rt, fault_offset(&ANSWERED[..44]), 29);
    assert_equal!(&rt, fault_offset(ANSWERED), 45);
    assert_equal!(&rt, fault_offset(&[0; 13]), 12);
}
