//! What the data of records says.
use crate::tests::unwrap;
use octseq::Turns;
use octseq::octets::Octets;
use octseq_asserts::{Case, assert_equal, over_each};
use octseq_dns::data::{Soa, Srv, Txt};
use octseq_dns::opt::Opt;
use octseq_dns::{Data, Malformed, Message, ParsedName};
use std::alloc::AllocGlobal;
use std::process::Abort;

/// A question for `example.com.` at offset 12, and the owner of an answer, which points to it.
const FRONT: &[u8] =
    b"\x12\x34\x85\x80\x00\x01\x00\x01\x00\x00\x00\x00\x07example\x03com\x00\x00\x01\x00\x01\xC0\x0C";

/// Makes a message with one answer of a type, a class and data.
fn answer(rt: &(impl Abort + AllocGlobal), rtype: u8, class: u8, rdata: &[u8]) -> Vec<u8> {
    let mut octets = Vec::new(rt.alloc());
    unwrap(rt, octets.extend_from_slice(FRONT));
    unwrap(
        rt,
        octets.extend_from_slice(&[0, rtype, 0, class, 0, 0, 1, 0x2C]),
    );
    unwrap(
        rt,
        octets.extend_from_slice(&unwrap(rt, u16::try_from(rdata.len())).to_be_bytes()),
    );
    unwrap(rt, octets.extend_from_slice(rdata));
    octets
}

/// Appends each label, followed by a full stop.
fn push_name<R: Octets + Copy>(rt: &impl Abort, text: &mut Vec<u8>, name: &ParsedName<R>) {
    for label in name.labels() {
        unwrap(rt, text.extend_from_slice(label.as_slice()));
        unwrap(rt, text.push(b'.'));
    }
}

/// Appends a word for the form, and octets.
fn push_octets(rt: &impl Abort, text: &mut Vec<u8>, word: &[u8], octets: &[u8]) {
    unwrap(rt, text.extend_from_slice(word));
    unwrap(rt, text.extend_from_slice(octets));
}

/// Appends a word for the form, and a name.
fn push_named<R: Octets + Copy>(
    rt: &impl Abort,
    text: &mut Vec<u8>,
    word: &[u8],
    name: &ParsedName<R>,
) {
    unwrap(rt, text.extend_from_slice(word));
    push_name(rt, text, name);
}

/// Appends a start of authority: two names and five numbers.
fn push_soa<R: Octets + Copy>(rt: &impl Abort, text: &mut Vec<u8>, soa: &Soa<R>) {
    push_named(rt, text, b"soa ", &soa.mname);
    push_name(rt, text, &soa.rname);
    for number in [soa.serial, soa.refresh, soa.retry, soa.expire, soa.minimum] {
        unwrap(rt, text.extend_from_slice(&number.to_be_bytes()));
    }
}

/// Appends strings, each followed by a bar.
fn push_txt<R: Octets + Copy>(rt: &impl Abort, text: &mut Vec<u8>, txt: &Txt<R>) {
    unwrap(rt, text.extend_from_slice(b"txt "));
    for string in txt.strings() {
        unwrap(rt, text.extend_from_slice(string.as_slice()));
        unwrap(rt, text.push(b'|'));
    }
}

/// Appends a service record: three numbers and a name.
fn push_srv<R: Octets + Copy>(rt: &impl Abort, text: &mut Vec<u8>, srv: &Srv<R>) {
    unwrap(rt, text.extend_from_slice(b"srv "));
    for number in [srv.priority, srv.weight, srv.port] {
        unwrap(rt, text.extend_from_slice(&number.to_be_bytes()));
    }
    push_name(rt, text, &srv.target);
}

/// Appends a word for the form, and its parts: addresses and numbers as octets, and strings each followed by a bar.
fn push_data<R: Octets + Copy>(rt: &impl Abort, text: &mut Vec<u8>, found: &Data<R>) {
    match found {
        Data::A(octets) => push_octets(rt, text, b"a ", octets),
        Data::Aaaa(octets) => push_octets(rt, text, b"aaaa ", octets),
        Data::Ns(name) => push_named(rt, text, b"ns ", name),
        Data::Cname(name) => push_named(rt, text, b"cname ", name),
        Data::Ptr(name) => push_named(rt, text, b"ptr ", name),
        Data::Mx(mx) => {
            push_octets(rt, text, b"mx ", &mx.preference.to_be_bytes());
            push_name(rt, text, &mx.exchange)
        }
        Data::Soa(soa) => push_soa(rt, text, soa),
        Data::Txt(txt) => push_txt(rt, text, txt),
        Data::Srv(srv) => push_srv(rt, text, srv),
        Data::Unknown(_, octets) => push_octets(rt, text, b"unknown ", octets.peek_all()),
        _ => push_octets(rt, text, b"another ", &[]),
    }
}

/// Returns what the data of the answers of a message says.
fn said<R: Octets + Copy>(rt: &(impl Abort + AllocGlobal), octets: R) -> Vec<u8> {
    let message = unwrap(rt, Message::parse(octets));
    let mut text = Vec::new(rt.alloc());
    for answer in message.answers() {
        let found = answer.data();
        assert_equal!(rt, found.rtype(), answer.rtype());
        push_data(rt, &mut text, &found);
    }
    text
}

#[test]
fn data_has_the_form_of_its_type_and_class(rt: HostRuntime) {
    for (rtype, class, rdata, wanted) in [
        (
            1,
            1,
            b"\x01\x02\x03\x04".as_slice(),
            b"a \x01\x02\x03\x04".as_slice(),
        ),
        (
            1,
            1,
            b"\x01\x02\x03\x04\x05",
            b"unknown \x01\x02\x03\x04\x05",
        ),
        (1, 1, b"\x01\x02\x03", b"unknown \x01\x02\x03"),
        (1, 3, b"\x01\x02\x03\x04", b"unknown \x01\x02\x03\x04"),
        (28, 1, b"0123456789abcdef", b"aaaa 0123456789abcdef"),
        (28, 4, b"0123456789abcdef", b"unknown 0123456789abcdef"),
        (2, 1, b"\x01a\x00", b"ns a."),
        (2, 1, b"\x01a", b"unknown \x01a"),
        (2, 1, b"\x01a\x00\x00", b"unknown \x01a\x00\x00"),
        (5, 3, b"\x03www\xC0\x0C", b"cname www.example.com."),
        (12, 1, b"\xC0\x14", b"ptr com."),
        (
            15,
            1,
            b"\x00\x0A\x04mail\xC0\x0C",
            b"mx \x00\x0Amail.example.com.",
        ),
        (16, 1, b"", b"unknown "),
        (16, 1, b"\x00", b"txt |"),
        (16, 1, b"\x02a", b"unknown \x02a"),
        (16, 1, b"\x03a\"\\\x03\x00\xFF ", b"txt a\"\\|\x00\xFF |"),
        (
            33,
            1,
            b"\x00\x01\x00\x02\x01\xBB\xC0\x0C",
            b"srv \x00\x01\x00\x02\x01\xBBexample.com.",
        ),
        (
            33,
            3,
            b"\x00\x01\x00\x02\x01\xBB\x00",
            b"unknown \x00\x01\x00\x02\x01\xBB\x00",
        ),
        (99, 1, b"\x00", b"unknown \x00"),
    ] {
        let octets = answer(&rt, rtype, class, rdata);
        let text = said(&rt, octets.as_slice());
        assert_equal!(&rt, text.as_slice(), wanted);
    }
}

#[test]
fn a_zone_begins_with_two_names_and_five_numbers(rt: HostRuntime) {
    let octets = answer(
        &rt,
        6,
        1,
        b"\x02ns\xC0\x0C\x04root\xC0\x0C\x00\x00\x00\x01\x00\x00\x00\x02\
\x00\x00\x00\x03\x00\x00\x00\x04\xFF\x00\x00\x05",
    );
    let text = said(&rt, octets.as_slice());
    assert_equal!(
        &rt,
        text.as_slice(),
        b"soa ns.example.com.root.example.com.\x00\x00\x00\x01\x00\x00\x00\x02\
\x00\x00\x00\x03\x00\x00\x00\x04\xFF\x00\x00\x05"
    );
    let octets = answer(&rt, 6, 1, b"\x00\x00\x00\x00\x00\x01\x00\x00\x00\x02");
    let text = said(&rt, octets.as_slice());
    assert_equal!(
        &rt,
        text.as_slice(),
        b"unknown \x00\x00\x00\x00\x00\x01\x00\x00\x00\x02"
    );
}

/// The data `\x01a` of a name server is followed by the octet 0, with which a record of the root begins.
#[test]
fn a_name_ends_where_its_data_does(rt: HostRuntime) {
    let octets = b"\x00\x00\x80\x00\x00\x00\x00\x02\x00\x00\x00\x00\
\x00\x00\x02\x00\x01\x00\x00\x00\x00\x00\x02\x01a\
\x00\x00\x10\x00\x01\x00\x00\x00\x00\x00\x02\x01b"
        .as_slice();
    let text = said(&rt, octets);
    assert_equal!(&rt, text.as_slice(), b"unknown \x01atxt b|".as_slice());
}

#[derive(Drop)]
struct IsService;

impl<H: Abort + AllocGlobal> Case<H> for IsService {
    fn holds<R: Octets + Copy>(&self, rt: &H, octets: R) {
        let text = said(rt, octets);
        assert_equal!(
            rt,
            text.as_slice(),
            b"srv \x00\x01\x00\x02\x01\xBBexample.com.".as_slice()
        );
    }
}

#[test]
fn data_is_read_from_each_kind_of_octets(rt: HostRuntime) {
    let octets = answer(&rt, 33, 1, b"\x00\x01\x00\x02\x01\xBB\xC0\x0C");
    unwrap(&rt, over_each(&rt, &IsService, octets.as_slice()));
}

/// Checks the offsets and the lengths of the strings of a text.
fn stand_in_the_message<R: Octets + Copy>(rt: &impl Abort, txt: &Txt<R>) {
    let places = [(42, 1), (44, 0), (45, 2)];
    let mut count = 0usize;
    for string in unwrap(rt, unwrap(rt, txt.clone()).strings().clone()) {
        assert_equal!(rt, string.is_empty(), unwrap(rt, string.clone()).len() == 0);
        let found = (string.pos(), string.len());
        assert_equal!(rt, Some(&found), places.get(count));
        count = count.saturating_add(1);
    }
    assert_equal!(rt, count, 3);
}

#[derive(Drop)]
struct StringsStandInTheMessage;

impl<H: Abort + AllocGlobal> Case<H> for StringsStandInTheMessage {
    fn holds<R: Octets + Copy>(&self, rt: &H, octets: R) {
        for answer in unwrap(rt, Message::parse(octets)).answers() {
            let mut turns = Turns::new();
            match unwrap(rt, answer.data_counted(&mut turns).clone()) {
                Data::Txt(txt) => stand_in_the_message(rt, &txt),
                _ => panic!(rt; "no text"),
            }
        }
    }
}

#[test]
fn strings_stand_in_the_message(rt: HostRuntime) {
    let octets = answer(&rt, 16, 1, b"\x01a\x00\x02bc");
    unwrap(
        &rt,
        over_each(&rt, &StringsStandInTheMessage, octets.as_slice()),
    );
}

/// What an OPT record says: the payload size, the response code, the version and the DO bit.
type Edns = Option<(u16, u8, u8, bool)>;

/// Appends each option of an OPT record: its code, and its octets.
fn push_options<R: Octets + Copy>(rt: &impl Abort, text: &mut Vec<u8>, opt: &Opt<R>) {
    for option in opt.options() {
        push_octets(
            rt,
            text,
            &option.code.to_be_bytes(),
            option.octets.peek_all(),
        );
        unwrap(rt, text.push(b'|'));
    }
}

/// Returns what the additional record of a message says as an OPT record. Appends its options.
fn edns<R: Octets + Copy>(rt: &impl Abort, options: &mut Vec<u8>, octets: R) -> Edns {
    let message = unwrap(rt, Message::parse(octets));
    let entry = unwrap(
        rt,
        message.additionals().next().ok_or("no additional record"),
    );
    match Opt::from_record(&entry) {
        Ok(opt) => {
            push_options(rt, options, &opt);
            Some((
                opt.udp_payload_size(),
                opt.extended_rcode(),
                opt.version(),
                opt.dnssec_ok(),
            ))
        }
        Err(Malformed) => None,
    }
}

#[test]
fn a_record_of_edns_has_options(rt: HostRuntime) {
    let some = Some((4096, 1, 2, true));
    for (body, wanted, listed) in [
        (
            b"\x00\x00\x29\x10\x00\x01\x02\x80\x00\x00\x00".as_slice(),
            some,
            b"".as_slice(),
        ),
        (
            b"\x00\x00\x29\x10\x00\x01\x02\x80\x00\x00\x0A\x00\x0A\x00\x02xy\x00\x0C\x00\x00",
            some,
            b"\x00\x0Axy|\x00\x0C|",
        ),
        (
            b"\x00\x00\x29\x04\xD0\x00\x00\x7F\xFF\x00\x00",
            Some((1232, 0, 0, false)),
            b"",
        ),
        (
            b"\x00\x00\x29\x10\x00\x01\x02\x80\x00\x00\x03\x00\x0A\x00",
            None,
            b"",
        ),
        (
            b"\x00\x00\x29\x10\x00\x01\x02\x80\x00\x00\x05\x00\x0A\x00\x02x",
            None,
            b"",
        ),
        (b"\x00\x00\x01\x10\x00\x01\x02\x80\x00\x00\x00", None, b""),
    ] {
        let mut octets = Vec::new(rt.alloc());
        unwrap(
            &rt,
            octets.extend_from_slice(b"\x00\x00\x80\x00\x00\x00\x00\x00\x00\x00\x00\x01"),
        );
        unwrap(&rt, octets.extend_from_slice(body));
        let mut options = Vec::new(rt.alloc());
        let found = edns(&rt, &mut options, octets.as_slice());
        assert_equal!(&rt, found, wanted);
        assert_equal!(&rt, options.as_slice(), listed);
    }
}
