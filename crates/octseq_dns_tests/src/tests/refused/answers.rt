//! Answers to messages, OPT records and TXT data. What is refused leaves what was there unchanged, so the same call
//! afterwards writes what it would have written.
use super::super::dns_answers::push_opt;
use crate::tests::unwrap;
use octseq::AppendError;
use octseq::error::WriteError;
use octseq_asserts::{assert_equal, assert_true};
use octseq_dns::edns::{PushOptError, UnknownOptData};
use octseq_dns::txt::{append_strings, append_text};
use octseq_dns::{Message, MessageBuilder, Rcode, Target};

#[test]
fn an_answer_begins_or_not_at_all(rt: HostRuntime) {
    let octets = b"\x12\x34\x01\0\0\x01\0\0\0\0\0\0\x07example\x03com\0\0\x01\0\x01";
    let wanted = b"\x12\x34\x81\0\0\x01\0\0\0\0\0\0\x07example\x03com\0\0\x01\0\x01";
    let request = unwrap(&rt, Message::parse(octets.as_slice()));
    let (octets, table) = (Vec::new(rt.alloc()), Vec::<Target>::new(rt.alloc()));
    let message = unwrap(&rt, MessageBuilder::from_builder(octets, table));
    let answers = unwrap(&rt, message.start_answer(&request, Rcode::NOERROR));
    assert_equal!(&rt, answers.as_slice(), wanted.as_slice());
}

/// A message with only an OPT record, which has padding of 40 octets.
const PADDED: &[u8] = b"\0\0\0\0\0\0\0\0\0\0\0\x01\0\0\x29\x04\xD0\x01\0\x80\0\0\x2C\0\x0C\0\x28\
\0\0\0\0\0\0\0\0\0\0\0\0\0\0\0\0\0\0\0\0\0\0\0\0\0\0\0\0\0\0\0\0\0\0\0\0\0\0\0\0";

#[test]
fn a_record_of_edns_is_pushed_or_not_at_all(rt: HostRuntime) {
    let (octets, table) = (Vec::new(rt.alloc()), Vec::<Target>::new(rt.alloc()));
    let message = unwrap(&rt, MessageBuilder::from_builder(octets, table));
    let mut additionals = message.question().answer().authority().additional();
    let padding = UnknownOptData {
        code: 12,
        octets: &[0; 40],
    };
    let pushed = push_opt(&mut additionals, &[padding]);
    if pushed.is_err() {
        assert_equal!(&rt, pushed, Err(PushOptError::Memory));
        assert_equal!(&rt, additionals.as_slice(), [0; 12].as_slice());
        assert_true!(&rt, !additionals.has_opt());
        unwrap(&rt, push_opt(&mut additionals, &[padding]));
    }
    assert_equal!(&rt, additionals.as_slice(), PADDED);
    unwrap(&rt, pushed);
}

#[test]
fn strings_are_appended_or_not_at_all(rt: HostRuntime) {
    let mut octets = unwrap(&rt, b"ab".to_vec(rt.alloc()));
    let strings = [b"0123456789".as_slice(), b"abcdefghijklmnopqrstuvwxyz", b""];
    let appended = append_strings(&mut octets, &strings);
    if appended.is_err() {
        assert_equal!(&rt, appended, Err(WriteError::Memory));
        assert_equal!(&rt, octets.as_slice(), b"ab".as_slice());
        unwrap(&rt, append_strings(&mut octets, &strings));
    }
    let wanted = b"ab\x0A0123456789\x1Aabcdefghijklmnopqrstuvwxyz\0";
    assert_equal!(&rt, octets.as_slice(), wanted.as_slice());
    unwrap(&rt, appended);
}

#[test]
fn a_text_is_appended_or_not_at_all(rt: HostRuntime) {
    let mut octets = Vec::new(rt.alloc());
    let appended = append_text(&mut octets, &[b'x'; 256]);
    if appended.is_err() {
        assert_equal!(&rt, appended, Err(AppendError::Memory));
        assert_equal!(&rt, octets.as_slice(), b"".as_slice());
        unwrap(&rt, append_text(&mut octets, &[b'x'; 256]));
    }
    assert_equal!(&rt, octets.as_slice().get(..2), Some(b"\xFFx".as_slice()));
    assert_equal!(&rt, octets.as_slice().get(256..), Some(b"\x01x".as_slice()));
    unwrap(&rt, appended);
}
