//! What users of a DNS library expect of a message that was read: its question, the records of one type, its canonical
//! name, its OPT record, and the data of its options.
use crate::tests::unwrap;
use octseq::Turns;
use octseq::octets::Octets;
use octseq_asserts::{Case, assert_equal, assert_true, over_each};
use octseq_dns::message::NotOneQuestion;
use octseq_dns::opt::{EdnsOption, OptionData};
use octseq_dns::{Malformed, Message, ParsedName, Rtype};
use std::alloc::AllocGlobal;
use std::process::Abort;

/// A question for `example.com.` of class IN, at offset 12.
const QUESTION: &[u8] = b"\x07example\x03com\x00\x00\x01\x00\x01";

/// Appends a header with counts.
fn header(rt: &impl Abort, octets: &mut Vec<u8>, counts: [u8; 4]) {
    unwrap(rt, octets.extend_from_slice(b"\x12\x34\x81\x87"));
    for count in counts {
        unwrap(rt, octets.extend_from_slice(&[0, count]));
    }
}

/// Appends each label of a name, followed by a full stop.
fn push_name<R: Octets + Copy>(rt: &impl Abort, text: &mut Vec<u8>, name: &ParsedName<R>) {
    for label in name.labels() {
        unwrap(rt, text.extend_from_slice(label.as_slice()));
        unwrap(rt, text.push(b'.'));
    }
}

/// Makes a message of `count` questions for `example.com.`.
fn asked(rt: &(impl Abort + AllocGlobal), count: u8) -> Vec<u8> {
    let mut octets = Vec::new(rt.alloc());
    header(rt, &mut octets, [count, 0, 0, 0]);
    for _question in 0..count {
        unwrap(rt, octets.extend_from_slice(QUESTION));
    }
    octets
}

/// Returns the offsets of the first question of a message, and of its sole question.
fn places<R: Octets + Copy>(rt: &impl Abort, octets: R) -> (Option<usize>, Option<usize>) {
    let message = unwrap(rt, Message::parse(octets));
    let first = message
        .first_question()
        .map(|found| found.qname().parser().pos());
    let sole = match message.sole_question() {
        Ok(found) => Some(found.qname().parser().pos()),
        Err(NotOneQuestion) => None,
    };
    (first, sole)
}

struct AMessageHasAQuestion(Option<usize>, Option<usize>);

impl<H: Abort> Case<H> for AMessageHasAQuestion {
    fn holds<R: Octets + Copy>(&self, rt: &H, octets: R) {
        assert_equal!(rt, places(rt, octets), (self.0, self.1));
    }
}

#[test]
fn a_message_has_a_first_question_and_a_sole_one(rt: HostRuntime) {
    for (count, first, sole) in [
        (0u8, None, None),
        (1, Some(12), Some(12)),
        (2, Some(12), None),
    ] {
        let octets = asked(&rt, count);
        assert_equal!(&rt, places(&rt, octets.as_slice()), (first, sole));
    }
    let octets = asked(&rt, 1);
    unwrap(
        &rt,
        over_each(
            &rt,
            &AMessageHasAQuestion(Some(12), Some(12)),
            octets.as_slice(),
        ),
    );
}

/// Returns the TTLs of the answers of a type.
fn times(rt: &(impl Abort + AllocGlobal), octets: &[u8], rtype: Rtype) -> Vec<u32> {
    let mut found = Vec::new(rt.alloc());
    for entry in unwrap(rt, Message::parse(octets)).answers().limit_to(rtype) {
        unwrap(rt, found.push(entry.ttl().as_secs()));
    }
    found
}

#[test]
fn a_section_is_limited_to_a_type(rt: HostRuntime) {
    let mut octets = Vec::new(rt.alloc());
    header(&rt, &mut octets, [0, 5, 0, 0]);
    for (rtype, time) in [(1u8, 10u8), (5, 11), (1, 12), (16, 13), (5, 14)] {
        unwrap(
            &rt,
            octets.extend_from_slice(&[0, 0, rtype, 0, 1, 0, 0, 0, time, 0, 0]),
        );
    }
    for (rtype, wanted) in [
        (Rtype::A, [10u32, 12].as_slice()),
        (Rtype::CNAME, &[11, 14]),
        (Rtype::TXT, &[13]),
        (Rtype::NS, &[]),
    ] {
        let found = times(&rt, octets.as_slice(), rtype);
        assert_equal!(&rt, found.as_slice(), wanted);
    }
}

/// Appends an alias of class IN: its owner, its type and its target.
fn push_alias(rt: &impl Abort, octets: &mut Vec<u8>, owner: &[u8], target: &[u8]) {
    unwrap(rt, octets.extend_from_slice(owner));
    unwrap(
        rt,
        octets.extend_from_slice(b"\x00\x05\x00\x01\x00\x00\x00\x00\x00"),
    );
    unwrap(rt, octets.push(unwrap(rt, u8::try_from(target.len()))));
    unwrap(rt, octets.extend_from_slice(target));
}

/// Makes a message that asks for `a.`, with a chain of `length` aliases: from `a.` to `b.`, and so on. The last alias
/// is the first answer.
fn chain(rt: &(impl Abort + AllocGlobal), length: u8) -> Vec<u8> {
    let mut octets = Vec::new(rt.alloc());
    header(rt, &mut octets, [1, length, 0, 0]);
    unwrap(rt, octets.extend_from_slice(b"\x01a\x00\x00\x01\x00\x01"));
    for back in 0..length {
        let last = b'a'.saturating_add(length.saturating_sub(back));
        let owner = [1, last.saturating_sub(1), 0];
        push_alias(rt, &mut octets, &owner, &[1, last, 0]);
    }
    octets
}

/// Returns the canonical name of a message, if it has one.
fn canonical<R: Octets + Copy>(rt: &(impl Abort + AllocGlobal), octets: R) -> Option<Vec<u8>> {
    let message = unwrap(rt, Message::parse(octets));
    let mut text = Vec::new(rt.alloc());
    match message.canonical_name() {
        Some(name) => {
            push_name(rt, &mut text, &name);
            Some(text)
        }
        None => None,
    }
}

/// Checks the canonical name of a message.
fn is_canonical(rt: &(impl Abort + AllocGlobal), octets: &[u8], wanted: Option<&[u8]>) {
    let found = canonical(rt, octets);
    assert_equal!(rt, found.as_ref().map(|name| name.as_slice()), wanted);
}

#[test]
fn fifteen_aliases_are_followed_and_no_more(rt: HostRuntime) {
    for (length, wanted) in [
        (0u8, Some(b"a.".as_slice())),
        (1, Some(b"b.")),
        (15, Some(b"p.")),
        (16, None),
        (17, None),
    ] {
        is_canonical(&rt, chain(&rt, length).as_slice(), wanted);
    }
}

/// Makes a message that asks for `a.`, with answers.
fn answered(rt: &(impl Abort + AllocGlobal), count: u8, answers: &[u8]) -> Vec<u8> {
    let mut octets = Vec::new(rt.alloc());
    header(rt, &mut octets, [1, count, 0, 0]);
    unwrap(rt, octets.extend_from_slice(b"\x01a\x00\x00\x01\x00\x01"));
    unwrap(rt, octets.extend_from_slice(answers));
    octets
}

#[test]
fn the_first_alias_of_a_name_is_followed(rt: HostRuntime) {
    for (count, answers, wanted) in [
        // the first of two, without regard to ASCII case
        (
            2u8,
            b"\x01A\x00\x00\x05\x00\x01\x00\x00\x00\x00\x00\x03\x01b\x00\
\x01a\x00\x00\x05\x00\x01\x00\x00\x00\x00\x00\x03\x01c\x00"
                .as_slice(),
            Some(b"b.".as_slice()),
        ),
        // another class, and then data that isn't a name
        (
            1,
            b"\x01a\x00\x00\x05\x00\x03\x00\x00\x00\x00\x00\x03\x01b\x00",
            Some(b"a."),
        ),
        (
            2,
            b"\x01a\x00\x00\x05\x00\x01\x00\x00\x00\x00\x00\x02\x01b\
\x01a\x00\x00\x05\x00\x01\x00\x00\x00\x00\x00\x03\x01c\x00",
            Some(b"c."),
        ),
        // another type, and another name
        (
            2,
            b"\x01a\x00\x00\x02\x00\x01\x00\x00\x00\x00\x00\x03\x01b\x00\
\x01d\x00\x00\x05\x00\x01\x00\x00\x00\x00\x00\x03\x01c\x00",
            Some(b"a."),
        ),
        // a loop of one, and of two by a pointer to the question
        (
            1,
            b"\xC0\x0C\x00\x05\x00\x01\x00\x00\x00\x00\x00\x02\xC0\x0C",
            None,
        ),
        (
            2,
            b"\xC0\x0C\x00\x05\x00\x01\x00\x00\x00\x00\x00\x03\x01b\x00\
\x01b\x00\x00\x05\x00\x01\x00\x00\x00\x00\x00\x02\xC0\x0C",
            None,
        ),
    ] {
        is_canonical(&rt, answered(&rt, count, answers).as_slice(), wanted);
    }
    is_canonical(&rt, b"\0\0\0\0\0\0\0\0\0\0\0\0", None);
}

#[test]
fn a_chain_that_is_too_long_is_counted_too(rt: HostRuntime) {
    let octets = chain(&rt, 16);
    let message = unwrap(&rt, Message::parse(octets.as_slice()));
    let mut turns = Turns::new();
    assert_true!(&rt, message.canonical_name_counted(&mut turns).is_none());
}

/// What the OPT record of a message says: the payload size, the response code, the version, the DO bit and the number
/// of options; or `None` without one; or a refusal.
type Edns = Result<Option<(u16, u16, u8, bool, usize)>, Malformed>;

fn edns<R: Octets + Copy>(rt: &impl Abort, octets: R) -> Edns {
    let message = unwrap(rt, Message::parse(octets));
    match message.opt() {
        Ok(Some(opt)) => {
            let rcode = opt.rcode(message.header());
            let mut count = 0usize;
            for _option in opt.options() {
                count = count.saturating_add(1);
            }
            Ok(Some((
                opt.udp_payload_size(),
                rcode,
                opt.version(),
                opt.dnssec_ok(),
                count,
            )))
        }
        Ok(None) => Ok(None),
        Err(Malformed) => Err(Malformed),
    }
}

/// An additional record of type OPT and one of type A, both of the root.
const OPT: &[u8] = b"\x00\x00\x29\x10\x00\x01\x00\x80\x00\x00\x04\x00\x0C\x00\x00";

const ADDRESS: &[u8] = b"\x00\x00\x01\x00\x01\x00\x00\x00\x00\x00\x00";

/// Makes a message of additional records, of which those without octets are left out.
fn added(rt: &(impl Abort + AllocGlobal), parts: &[&[u8]]) -> Vec<u8> {
    let mut count = 0u8;
    for part in parts {
        if !part.is_empty() {
            count = count.saturating_add(1);
        }
    }
    let mut octets = Vec::new(rt.alloc());
    header(rt, &mut octets, [0, 0, 0, count]);
    for part in parts {
        unwrap(rt, octets.extend_from_slice(part));
    }
    octets
}

#[test]
fn a_message_has_one_record_of_edns(rt: HostRuntime) {
    let some = Ok(Some((4096, 23, 0, true, 1)));
    for (parts, wanted) in [
        ([b"".as_slice(), b"", b""].as_slice(), Ok(None)),
        (&[ADDRESS], Ok(None)),
        (&[OPT], some),
        (&[ADDRESS, OPT, ADDRESS], some),
        (&[OPT, OPT], Err(Malformed)),
        (&[OPT, ADDRESS, OPT], Err(Malformed)),
        // an owner other than the root
        (
            &[b"\x01a\x00\x00\x29\x10\x00\x00\x00\x00\x00\x00\x00"],
            Err(Malformed),
        ),
        // data that isn't options
        (
            &[b"\x00\x00\x29\x10\x00\x00\x00\x00\x00\x00\x01\x00"],
            Err(Malformed),
        ),
    ] {
        let octets = added(&rt, parts);
        assert_equal!(&rt, edns(&rt, octets.as_slice()), wanted);
    }
}

/// A real message that reports a bad cookie.
const BAD_COOKIE: &[u8] = b"\xF6\xAB\x81\x87\x00\x01\x00\x00\x00\x00\x00\x01\x00\x00\x06\x00\x01\
\x00\x00\x29\x10\x00\x01\x00\x00\x00\x00\x1C\x00\x0A\x00\x18\
\x36\xBF\x11\x1F\xEF\x2E\x01\x09\x7D\x8F\xFE\x06\x5C\x63\x6F\xFB\x14\x2D\x76\x74\x94\x40\x7A\x73";

/// Checks that an option is the cookie of that message.
fn is_bad_cookie<R: Octets + Copy>(rt: &impl Abort, option: &EdnsOption<R>) {
    let OptionData::Cookie(cookie) = option.data() else {
        panic!(rt; "no cookie");
    };
    assert_equal!(rt, cookie.client, *b"\x36\xBF\x11\x1F\xEF\x2E\x01\x09");
    let server = b"\x7D\x8F\xFE\x06\x5C\x63\x6F\xFB\x14\x2D\x76\x74\x94\x40\x7A\x73";
    assert_equal!(rt, cookie.server.peek_all(), server.as_slice());
}

struct ACookieIsBad;

impl<H: Abort> Case<H> for ACookieIsBad {
    fn holds<R: Octets + Copy>(&self, rt: &H, octets: R) {
        let found = edns(rt, octets);
        assert_equal!(rt, found, Ok(Some((4096, 23, 0, false, 1))));
        let message = unwrap(rt, Message::parse(octets));
        let opt = unwrap(rt, unwrap(rt, message.opt()).ok_or("no record of EDNS"));
        for option in opt.options() {
            is_bad_cookie(rt, &option);
        }
    }
}

#[test]
fn a_real_message_tells_of_a_bad_cookie(rt: HostRuntime) {
    unwrap(&rt, over_each(&rt, &ACookieIsBad, BAD_COOKIE));
}

/// Appends what an option says: a word for its form, and its parts.
fn push_option<R: Octets + Copy>(rt: &impl Abort, text: &mut Vec<u8>, option: &EdnsOption<R>) {
    match option.data() {
        OptionData::Nsid(octets) => {
            unwrap(rt, text.extend_from_slice(b"nsid "));
            unwrap(rt, text.extend_from_slice(octets.peek_all()));
        }
        OptionData::ClientSubnet(subnet) => {
            unwrap(rt, text.extend_from_slice(b"subnet "));
            unwrap(rt, text.extend_from_slice(&subnet.family.to_be_bytes()));
            unwrap(
                rt,
                text.extend_from_slice(&[subnet.source_prefix_len, subnet.scope_prefix_len]),
            );
            unwrap(rt, text.extend_from_slice(subnet.address.peek_all()));
        }
        OptionData::Cookie(cookie) => {
            unwrap(rt, text.extend_from_slice(b"cookie "));
            unwrap(rt, text.extend_from_slice(&cookie.client));
            unwrap(rt, text.push(b'|'));
            unwrap(rt, text.extend_from_slice(cookie.server.peek_all()));
        }
        OptionData::Padding(octets) => {
            unwrap(rt, text.extend_from_slice(b"padding "));
            unwrap(rt, text.extend_from_slice(octets.peek_all()));
        }
        OptionData::ExtendedError(found) => {
            unwrap(rt, text.extend_from_slice(b"error "));
            unwrap(rt, text.extend_from_slice(&found.code().to_be_bytes()));
            unwrap(rt, text.extend_from_slice(found.text().as_bytes()));
        }
        OptionData::Unknown(code, octets) => {
            unwrap(rt, text.extend_from_slice(b"unknown "));
            unwrap(rt, text.extend_from_slice(&code.to_be_bytes()));
            unwrap(rt, text.extend_from_slice(octets.peek_all()));
        }
    }
}

/// Returns what the only option of a message, with a code and octets, says.
fn said(rt: &(impl Abort + AllocGlobal), code: u8, octets: &[u8]) -> Vec<u8> {
    let mut message = Vec::new(rt.alloc());
    header(rt, &mut message, [0, 0, 0, 1]);
    let length = unwrap(rt, u8::try_from(octets.len()));
    unwrap(
        rt,
        message.extend_from_slice(b"\x00\x00\x29\x10\x00\x00\x00\x00\x00\x00"),
    );
    unwrap(
        rt,
        message.extend_from_slice(&[length.saturating_add(4), 0, code, 0, length]),
    );
    unwrap(rt, message.extend_from_slice(octets));
    let mut text = Vec::new(rt.alloc());
    let message = unwrap(rt, Message::parse(message.as_slice()));
    let opt = unwrap(rt, unwrap(rt, message.opt()).ok_or("no record of EDNS"));
    for option in opt.options() {
        push_option(rt, &mut text, &option);
    }
    text
}

#[test]
fn cookies_have_eight_octets_and_none_or_eight_to_thirty_two(rt: HostRuntime) {
    let octets = b"01234567890123456789012345678901234567890";
    for (length, is_cookie) in [
        (7usize, false),
        (8, true),
        (9, false),
        (15, false),
        (16, true),
        (40, true),
        (41, false),
    ] {
        let octets = unwrap(&rt, octets.get(..length).ok_or("too few octets"));
        let text = said(&rt, 10, octets);
        assert_equal!(&rt, text.starts_with(b"cookie 01234567|"), is_cookie);
        assert_equal!(&rt, text.starts_with(b"unknown \x00\x0A"), !is_cookie);
    }
}

#[test]
fn options_are_typed_where_they_have_the_form(rt: HostRuntime) {
    for (code, octets, wanted) in [
        (3u8, b"any\x00".as_slice(), b"nsid any\x00".as_slice()),
        (3, b"", b"nsid "),
        (12, b"\x00\x01", b"padding \x00\x01"),
        (12, b"", b"padding "),
        (4, b"any", b"unknown \x00\x04any"),
        // client subnets of each family, and one of no bits
        (
            8,
            b"\x00\x01\x18\x00\xC0\x00\x02",
            b"subnet \x00\x01\x18\x00\xC0\x00\x02",
        ),
        (
            8,
            b"\x00\x02\x21\x20\x20\x01\x0D\xB8\x80",
            b"subnet \x00\x02\x21\x20\x20\x01\x0D\xB8\x80",
        ),
        (8, b"\x00\x01\x00\x00", b"subnet \x00\x01\x00\x00"),
        (
            8,
            b"\x00\x01\x20\x20\x01\x02\x03\x04",
            b"subnet \x00\x01\x20\x20\x01\x02\x03\x04",
        ),
        // a set bit after those that are given, an octet too many, one too few
        (
            8,
            b"\x00\x01\x17\x00\xC0\x00\x01",
            b"unknown \x00\x08\x00\x01\x17\x00\xC0\x00\x01",
        ),
        (
            8,
            b"\x00\x01\x18\x00\xC0\x00\x02\x00",
            b"unknown \x00\x08\x00\x01\x18\x00\xC0\x00\x02\x00",
        ),
        (
            8,
            b"\x00\x01\x19\x00\xC0\x00\x02",
            b"unknown \x00\x08\x00\x01\x19\x00\xC0\x00\x02",
        ),
        // more bits than the address has, another family, and octets that are too short
        (
            8,
            b"\x00\x01\x21\x00\x01\x02\x03\x04\x00",
            b"unknown \x00\x08\x00\x01\x21\x00\x01\x02\x03\x04\x00",
        ),
        (8, b"\x00\x01\x00\x21", b"unknown \x00\x08\x00\x01\x00\x21"),
        (8, b"\x00\x03\x00\x00", b"unknown \x00\x08\x00\x03\x00\x00"),
        (8, b"\x00\x01\x00", b"unknown \x00\x08\x00\x01\x00"),
        // extended errors without a text, with one, with one 0 and with two, and a text that isn't well formed
        (15, b"\x00\x12", b"error \x00\x12"),
        (15, b"\x00\x12no", b"error \x00\x12no"),
        (15, b"\x00\x12no\x00", b"error \x00\x12no"),
        (15, b"\x00\x12no\x00\x00", b"error \x00\x12no\x00"),
        (15, b"\x00\x12\x00", b"error \x00\x12"),
        (15, b"\x00\x12\xC3\xA9", b"error \x00\x12\xC3\xA9"),
        (15, b"\x00\x12\xC3", b"unknown \x00\x0F\x00\x12\xC3"),
        (15, b"\x00\x12\xC3\x00", b"unknown \x00\x0F\x00\x12\xC3\x00"),
        (15, b"\x00", b"unknown \x00\x0F\x00"),
    ] {
        let text = said(&rt, code, octets);
        assert_equal!(&rt, text.as_slice(), wanted);
    }
}
