//! Making a query, and reading an answer.
use crate::tests::unwrap;
use octseq::{Array, AsOctets};
use octseq_asserts::assert_equal;
use octseq_dns::header::Flags;
use octseq_dns::{
    Class, Data, Header, Message, MessageBuilder, Name, Opcode, OptData, Rcode, Rtype,
    StaticCompressor,
};
use std::alloc::AllocGlobal;
use std::process::Abort;

/// Makes a query for the IPv4 addresses of a name. The sender takes 1,232 octets, and DNSSEC records.
fn query(rt: &impl Abort, id: u16, name: &str) -> Array<512> {
    let name = unwrap(rt, Name::from_text(name));
    let table = StaticCompressor::<8>::new();
    let mut message = unwrap(rt, MessageBuilder::from_builder(Array::<512>::new(), table));
    message.set_header(Header {
        id,
        flags: Flags {
            rd: true,
            ..Flags::default()
        },
        opcode: Opcode::QUERY,
        rcode: Rcode::NOERROR,
    });
    let mut questions = message.question();
    unwrap(
        rt,
        questions.push_question(&name.parsed(), Rtype::A, Class::IN),
    );
    let mut additionals = questions.answer().authority().additional();
    unwrap(
        rt,
        additionals.push_opt(&OptData {
            udp_payload_size: 1232,
            extended_rcode: 0,
            version: 0,
            dnssec_ok: true,
            options: &[],
        }),
    );
    additionals.finish().0
}

/// Returns the IPv4 addresses in an answer of the name that was asked for, through its aliases.
fn addresses<R: AsOctets + Copy>(rt: &(impl Abort + AllocGlobal), octets: R) -> Vec<[u8; 4]> {
    let mut found = Vec::new(rt.alloc());
    let answer = unwrap(rt, Message::parse(octets));
    let Some(name) = answer.canonical_name() else {
        return found;
    };
    for record in answer.answers().limit_to(Rtype::A) {
        if record.owner().name_eq(&name) {
            if let Data::A(address) = record.data() {
                unwrap(rt, found.push(address));
            }
        }
    }
    found
}

#[test]
fn a_query_is_made(rt: HostRuntime) {
    let wanted = b"\x12\x34\x01\0\0\x01\0\0\0\0\0\x01\x07example\x03com\0\0\x01\0\x01\
\0\0\x29\x04\xD0\0\0\x80\0\0\0";
    let octets = query(&rt, 0x1234, "example.com.");
    assert_equal!(&rt, octets.as_slice(), wanted.as_slice());
}

/// A question for `www.example.com.`, which is an alias of `example.com.`, and the addresses of another name and of
/// that one.
const ANSWER: &[u8] = b"\x12\x34\x81\x80\0\x01\0\x03\0\0\0\0\x03www\x07example\x03com\0\0\x01\0\x01\
\xC0\x0C\0\x05\0\x01\0\0\x01\x2C\0\x02\xC0\x10\
\0\0\x01\0\x01\0\0\x01\x2C\0\x04\x05\x06\x07\x08\
\xC0\x10\0\x01\0\x01\0\0\x01\x2C\0\x04\x01\x02\x03\x04";

#[test]
fn an_answer_is_read(rt: HostRuntime) {
    let found = addresses(&rt, ANSWER);
    assert_equal!(&rt, found.as_slice(), [[1, 2, 3, 4]].as_slice());
}
