//! DNS messages that are written.
use crate::tests::unwrap;
use arrayvec::ArrayVec;
use bytes::BytesMut;
use octseq::builder::AsOctetsMut;
use octseq::compose::append_part_u8;
use octseq::octets::Octets;
use octseq::{AppendError, Array, EmptyBuilder, OctetsBuilder, ShortBuf, Truncate};
use octseq_asserts::{assert_equal, assert_true};
use octseq_dns::builder::SectionBuilder;
use octseq_dns::builder::section::{RecordSection, Section};
use octseq_dns::data::Txt;
use octseq_dns::header::Flags;
use octseq_dns::{
    AnswerBuilder, Class, Compressor, Data, Header, Malformed, Message, MessageBuilder, Name,
    Opcode, ParsedName, Rcode, Record, Rtype, Target, Ttl, UnknownRecordData,
};
use smallvec::SmallVec;
use std::alloc::AllocGlobal;
use std::process::Abort;

/// The refusal of what exceeds a limit.
const SHORT: Result<(), AppendError> = Err(AppendError::Short(ShortBuf));

/// A table without room, so that names are written plain.
type Uncompressed = ArrayVec<Target, 0>;

/// The header of an answer.
fn header() -> Header {
    Header {
        id: 0x1234,
        flags: Flags {
            qr: true,
            aa: true,
            rd: true,
            ra: true,
            ..Flags::default()
        },
        opcode: Opcode::QUERY,
        rcode: Rcode::NOERROR,
    }
}

/// That header alone.
const NOTHING: &[u8] = b"\x12\x34\x85\x80\0\0\0\0\0\0\0\0";

/// A question for `example.com.`.
const ASKED: &[u8] = b"\x12\x34\x85\x80\0\x01\0\0\0\0\0\0\x07example\x03com\0\0\x01\0\x01";

/// That question, and an answer whose owner is a pointer to the qname.
const ANSWERED: &[u8] = b"\x12\x34\x85\x80\0\x01\0\x01\0\0\0\0\x07example\x03com\0\0\x01\0\x01\
\xC0\x0C\0\x01\0\x01\0\0\x01\x2C\0\x04\x01\x02\x03\x04";

/// The same without a pointer.
const PLAIN: &[u8] = b"\x12\x34\x85\x80\0\x01\0\x01\0\0\0\0\x07example\x03com\0\0\x01\0\x01\
\x07example\x03com\0\0\x01\0\x01\0\0\x01\x2C\0\x04\x01\x02\x03\x04";

/// Writes the header, the question and the answer.
fn answered<B: OctetsBuilder + Truncate + AsOctetsMut, T: Compressor>(
    rt: &impl Abort,
    octets: B,
    table: T,
) -> (B, T) {
    let name = unwrap(rt, Name::from_text("example.com."));
    let mut message = unwrap(rt, MessageBuilder::from_builder(octets, table));
    message.set_header(header());
    let mut questions = message.question();
    unwrap(
        rt,
        questions.push_question(&name.parsed(), Rtype::A, Class::IN),
    );
    let mut answers = questions.answer();
    let (ttl, address) = (Ttl::from_secs(300), [1, 2, 3, 4]);
    let rdata = UnknownRecordData::new(Rtype::A, &address);
    unwrap(
        rt,
        answers.push_record(&name.parsed(), Class::IN, ttl, &rdata),
    );
    answers.authority().additional().finish()
}

/// Checks that a table has targets at these offsets, from which the given numbers of pointers are followed, and no
/// others.
pub(super) fn has_targets<T: Compressor>(rt: &impl Abort, table: &T, wanted: &[(u16, u8)]) {
    let targets = table.as_slice();
    assert_equal!(rt, targets.len(), wanted.len());
    for (at, pointers) in wanted {
        let is_wanted = |target: &Target| target.at == *at && target.pointers == *pointers;
        assert_true!(rt, targets.iter().any(is_wanted));
    }
}

/// Checks that they are written with a pointer, and that the offsets of the question's labels are known.
fn is_answered<B: OctetsBuilder + Truncate + AsOctetsMut, T: Compressor>(
    rt: &impl Abort,
    octets: B,
    table: T,
) {
    let (octets, table) = answered(rt, octets, table);
    assert_equal!(rt, octets.as_ref(), ANSWERED);
    has_targets(rt, &table, &[(12, 0), (20, 0)]);
}

#[test]
fn an_answer_points_to_its_question(rt: HostRuntime) {
    let alloc = rt.alloc();
    is_answered(&rt, Array::<512>::new(), ArrayVec::<Target, 8>::new());
    is_answered(&rt, Array::<512>::new(), Vec::new(alloc));
    is_answered(&rt, Vec::new(alloc), ArrayVec::<Target, 8>::new());
    is_answered(&rt, Vec::new(alloc), Vec::new(alloc));
}

#[test]
fn other_builders_are_written(rt: HostRuntime) {
    let alloc = rt.alloc();
    is_answered(
        &rt,
        unwrap(&rt, BytesMut::empty(alloc)),
        ArrayVec::<Target, 2>::new(),
    );
    is_answered(
        &rt,
        unwrap(&rt, SmallVec::<u8, 8>::empty(alloc)),
        ArrayVec::<Target, 2>::new(),
    );
    is_answered(&rt, ArrayVec::<u8, 45>::new(), ArrayVec::<Target, 2>::new());
    let mut octets = Array::<45>::new();
    is_answered(&rt, &mut octets, ArrayVec::<Target, 2>::new());
    assert_equal!(&rt, octets.as_slice(), ANSWERED);
}

#[test]
fn without_compression_names_are_plain(rt: HostRuntime) {
    let (octets, _) = answered(&rt, Array::<512>::new(), Uncompressed::new());
    assert_equal!(&rt, octets.as_slice(), PLAIN);
    let (octets, _) = answered(&rt, Vec::new(rt.alloc()), Uncompressed::new());
    assert_equal!(&rt, octets.as_slice(), PLAIN);
}

#[test]
fn what_was_there_before_is_gone(rt: HostRuntime) {
    let alloc = rt.alloc();
    let mut table = Vec::new(alloc);
    unwrap(&rt, table.push(Target::default()));
    is_answered(&rt, unwrap(&rt, ASKED.to_vec(alloc)), table);
}

#[test]
fn a_table_serves_for_another_message(rt: HostRuntime) {
    let names = ["FOO.F.ISI.ARPA.", "example.com."];
    let (octets, table) = asked(&rt, Vec::new(rt.alloc()), Vec::new(rt.alloc()), &names);
    is_answered(&rt, octets, table);
}

/// Writes questions for these names.
fn asked<B: OctetsBuilder + Truncate + AsOctetsMut, T: Compressor>(
    rt: &impl Abort,
    octets: B,
    table: T,
    names: &[&str],
) -> (B, T) {
    let mut questions = unwrap(rt, MessageBuilder::from_builder(octets, table)).question();
    for text in names {
        let name = unwrap(rt, Name::from_text(text));
        unwrap(
            rt,
            questions.push_question(&name.parsed(), Rtype::A, Class::IN),
        );
    }
    questions.answer().authority().additional().finish()
}

#[test]
fn the_names_of_the_standard_are_compressed(rt: HostRuntime) {
    let names = ["F.ISI.ARPA.", "FOO.F.ISI.ARPA.", "ARPA.", "."];
    let (octets, table) = asked(
        &rt,
        Array::<512>::new(),
        ArrayVec::<Target, 8>::new(),
        &names,
    );
    assert_equal!(
        &rt,
        octets.as_slice(),
        b"\0\0\0\0\0\x04\0\0\0\0\0\0\x01F\x03ISI\x04ARPA\0\0\x01\0\x01\
\x03FOO\xC0\x0C\0\x01\0\x01\xC0\x12\0\x01\0\x01\0\0\x01\0\x01"
            .as_slice()
    );
    has_targets(&rt, &table, &[(12, 0), (14, 0), (18, 0), (28, 1)]);
}

#[test]
fn names_are_compressed_octet_for_octet(rt: HostRuntime) {
    let names = [
        "example.com.",
        "EXAMPLE.com.",
        "example.COM.",
        "EXAMPLE.com.",
    ];
    let (octets, table) = asked(&rt, Array::<512>::new(), Vec::new(rt.alloc()), &names);
    assert_equal!(
        &rt,
        octets.as_slice(),
        b"\0\0\0\0\0\x04\0\0\0\0\0\0\x07example\x03com\0\0\x01\0\x01\
\x07EXAMPLE\xC0\x14\0\x01\0\x01\x07example\x03COM\0\0\x01\0\x01\xC0\x1D\0\x01\0\x01"
            .as_slice()
    );
    has_targets(&rt, &table, &[(12, 0), (20, 0), (29, 1), (43, 0), (51, 0)]);
}

#[test]
fn a_full_table_compresses_less(rt: HostRuntime) {
    let names = [
        "example.com.",
        "www.example.com.",
        "com.",
        "www.example.com.",
    ];
    let (octets, table) = asked(
        &rt,
        Array::<512>::new(),
        ArrayVec::<Target, 1>::new(),
        &names,
    );
    assert_equal!(
        &rt,
        octets.as_slice(),
        b"\0\0\0\0\0\x04\0\0\0\0\0\0\x07example\x03com\0\0\x01\0\x01\
\x03www\x07example\xC0\x14\0\x01\0\x01\xC0\x14\0\x01\0\x01\x03www\x07example\xC0\x14\0\x01\0\x01"
            .as_slice()
    );
    has_targets(&rt, &table, &[(20, 0)]);
}

/// Returns the number of entries in each section of a message.
fn counts_of<R: Octets + Copy>(octets: R) -> Result<(usize, usize, usize, usize), Malformed> {
    let message = Message::parse(octets)?;
    // (the header's counts bound those of the iterators)
    let _counts = message.header_counts();
    Ok((
        message.questions().count(),
        message.answers().count(),
        message.authorities().count(),
        message.additionals().count(),
    ))
}

/// Returns the expected result of a push.
fn pushed(fits: bool) -> Result<(), AppendError> {
    if fits { Ok(()) } else { SHORT }
}

/// Pushes a question and its answer to a message with room for `entries` of the two. A refused one leaves the message
/// unchanged.
fn has_room<B: OctetsBuilder + Truncate + AsOctetsMut>(rt: &impl Abort, octets: B, entries: usize) {
    let name = unwrap(rt, Name::from_text("example.com."));
    let mut message = unwrap(
        rt,
        MessageBuilder::from_builder(octets, ArrayVec::<Target, 8>::new()),
    );
    message.set_header(header());
    assert_equal!(rt, message.as_slice(), NOTHING);
    let mut questions = message.question();
    let question = questions.push_question(&name.parsed(), Rtype::A, Class::IN);
    assert_equal!(rt, question, pushed(entries >= 1));
    let wanted = if entries == 0 { NOTHING } else { ASKED };
    assert_equal!(rt, questions.as_slice(), wanted);
    has_room_for_an_answer(rt, questions.answer(), &name.parsed(), entries);
}

/// Checks that the answer is pushed if the message has room for both.
fn has_room_for_an_answer<B: OctetsBuilder + Truncate + AsOctetsMut>(
    rt: &impl Abort,
    mut answers: AnswerBuilder<B, ArrayVec<Target, 8>>,
    name: &ParsedName<&[u8]>,
    entries: usize,
) {
    let ttl = Ttl::from_secs(300);
    let answer = answers.push_record(
        name,
        Class::IN,
        ttl,
        &UnknownRecordData::new(Rtype::A, &[1, 2, 3, 4]),
    );
    assert_equal!(rt, answer, pushed(entries >= 2));
    let wanted = match entries {
        0 => NOTHING,
        1 => ASKED,
        _ => ANSWERED,
    };
    assert_equal!(rt, answers.as_slice(), wanted);
    let found = answers.header_counts();
    let written = (usize::from(found.qdcount), usize::from(found.ancount));
    let counts = (entries.min(1), entries.saturating_sub(1), 0, 0);
    assert_equal!(rt, written, (counts.0, counts.1));
    assert_equal!(rt, counts_of(answers.as_slice()), Ok(counts));
}

#[test]
fn what_passes_the_limit_is_refused(rt: HostRuntime) {
    let refused = MessageBuilder::from_builder(Array::<11>::new(), Uncompressed::new()).err();
    assert_equal!(&rt, refused, SHORT.err());
    has_room(&rt, Array::<12>::new(), 0);
    has_room(&rt, Array::<28>::new(), 0);
    has_room(&rt, Array::<29>::new(), 1);
    has_room(&rt, Array::<44>::new(), 1);
    has_room(&rt, Array::<45>::new(), 2);
}

/// Pushes an answer with this owner, of type A and with a TTL of zero.
fn push_answer<B: OctetsBuilder + Truncate + AsOctetsMut, T: Compressor>(
    rt: &impl Abort,
    answers: &mut AnswerBuilder<B, T>,
    owner: &str,
    rdata: &[u8],
) -> Result<(), AppendError> {
    let name = unwrap(rt, Name::from_text(owner));
    let ttl = Ttl::from_secs(0);
    let rdata = UnknownRecordData::new(Rtype::A, rdata);
    answers.push_record(&name.parsed(), Class::IN, ttl, &rdata)
}

#[test]
fn a_refused_record_leaves_no_target(rt: HostRuntime) {
    let message = unwrap(
        &rt,
        MessageBuilder::from_builder(Array::<64>::new(), ArrayVec::<Target, 8>::new()),
    );
    let mut answers = message.question().answer();
    unwrap(&rt, push_answer(&rt, &mut answers, "a.b.", &[1, 2, 3, 4]));
    assert_equal!(&rt, push_answer(&rt, &mut answers, "c.d.", &[0; 30]), SHORT);
    unwrap(&rt, push_answer(&rt, &mut answers, "c.d.", &[5, 6, 7, 8]));
    let (octets, table) = answers.authority().additional().finish();
    assert_equal!(
        &rt,
        octets.as_slice(),
        b"\0\0\0\0\0\0\0\x02\0\0\0\0\x01a\x01b\0\0\x01\0\x01\0\0\0\0\0\x04\x01\x02\x03\x04\
\x01c\x01d\0\0\x01\0\x01\0\0\0\0\0\x04\x05\x06\x07\x08"
            .as_slice()
    );
    has_targets(&rt, &table, &[(12, 0), (14, 0), (31, 0), (33, 0)]);
}

/// Makes a question and an answer of one name.
fn in_two_sections(rt: &(impl Abort + AllocGlobal)) -> AnswerBuilder<Vec<u8>, ArrayVec<Target, 8>> {
    let name = unwrap(rt, Name::from_text("example.com."));
    let message = unwrap(
        rt,
        MessageBuilder::from_builder(Vec::new(rt.alloc()), ArrayVec::<Target, 8>::new()),
    );
    let mut questions = message.question();
    unwrap(
        rt,
        questions.push_question(&name.parsed(), Rtype::ANY, Class::IN),
    );
    let mut answers = questions.answer();
    let (ttl, address) = (Ttl::from_secs(300), [1, 2, 3, 4]);
    let rdata = UnknownRecordData::new(Rtype::A, &address);
    unwrap(
        rt,
        answers.push_record(&name.parsed(), Class::IN, ttl, &rdata),
    );
    answers
}

/// Makes a question, an answer, an authority and an additional record, with names that end like those before them.
fn in_each_section(rt: &(impl Abort + AllocGlobal)) -> Vec<u8> {
    let (root, end) = (
        unwrap(rt, Name::from_text(".")),
        unwrap(rt, Name::from_text("com.")),
    );
    let mut authorities = in_two_sections(rt).authority();
    let ttl = Ttl::from_secs(4_294_967_295);
    unwrap(
        rt,
        authorities.push_record(
            &end.parsed(),
            Class::CH,
            ttl,
            &UnknownRecordData::new(Rtype::TXT, b"\x02hi"),
        ),
    );
    let mut additionals = authorities.additional();
    let (class, ttl) = (Class::from_int(4096), Ttl::from_secs(0));
    unwrap(
        rt,
        additionals.push_record(
            &root.parsed(),
            class,
            ttl,
            &UnknownRecordData::new(Rtype::OPT, b""),
        ),
    );
    additionals.finish().0
}

/// Checks that the record has an owner with these labels, and this type, class, TTL and data.
fn is_record<R: Octets + Copy>(
    rt: &impl Abort,
    entry: &Record<R>,
    labels: &[&[u8]],
    fields: (Rtype, Class, u32),
    rdata: &[u8],
) {
    assert_equal!(rt, entry.owner().label_count(), labels.len());
    for (label, other) in entry.owner().labels().zip(labels) {
        assert_equal!(rt, label.as_slice(), *other);
    }
    let found = (entry.rtype(), entry.class(), entry.ttl().as_secs());
    assert_equal!(rt, found, fields);
    assert_equal!(rt, entry.rdata().peek_all(), rdata);
}

/// Checks the entries of the last two sections of the message.
fn last_are_read<R: Octets + Copy>(rt: &impl Abort, message: &Message<R>) {
    for entry in message.authorities() {
        let fields = (Rtype::TXT, Class::CH, 4_294_967_295);
        is_record(rt, &entry, &[b"com"], fields, b"\x02hi");
    }
    for entry in message.additionals() {
        let fields = (Rtype::OPT, Class::from_int(4096), 0);
        is_record(rt, &entry, &[], fields, b"");
    }
}

/// Checks the entries of the message.
fn are_read<R: Octets + Copy>(rt: &impl Abort, octets: R) {
    let message = unwrap(rt, Message::parse(octets));
    for entry in message.questions() {
        assert_equal!(rt, entry.qname().label_count(), 2);
        assert_equal!(rt, (entry.qtype(), entry.qclass()), (Rtype::ANY, Class::IN));
    }
    for entry in message.answers() {
        let (name, fields) = ([b"example".as_slice(), b"com"], (Rtype::A, Class::IN, 300));
        is_record(rt, &entry, &name, fields, &[1, 2, 3, 4]);
    }
    last_are_read(rt, &message);
}

#[test]
fn entries_of_each_section_are_read(rt: HostRuntime) {
    let octets = in_each_section(&rt);
    assert_equal!(
        &rt,
        octets.as_slice(),
        b"\0\0\0\0\0\x01\0\x01\0\x01\0\x01\x07example\x03com\0\0\xFF\0\x01\
\xC0\x0C\0\x01\0\x01\0\0\x01\x2C\0\x04\x01\x02\x03\x04\
\xC0\x14\0\x10\0\x03\xFF\xFF\xFF\xFF\0\x03\x02hi\0\0\x29\x10\0\0\0\0\0\0\0"
            .as_slice()
    );
    assert_equal!(&rt, counts_of(octets.as_slice()), Ok((1, 1, 1, 1)));
    are_read(&rt, octets.as_slice());
}

/// Pushes this many records of the root, of type NS.
fn push_roots<S: RecordSection>(
    rt: &impl Abort,
    builder: &mut SectionBuilder<Array<128>, Uncompressed, S>,
    root: &ParsedName<&[u8]>,
    count: usize,
) {
    let rdata = UnknownRecordData::new(Rtype::NS, b"\0");
    for _ in 0..count {
        unwrap(
            rt,
            builder.push_record(root, Class::IN, Ttl::from_secs(1), &rdata),
        );
    }
}

/// Makes one question and two answers of the root.
fn one_and_two(
    rt: &impl Abort,
    root: &ParsedName<&[u8]>,
) -> AnswerBuilder<Array<128>, Uncompressed> {
    let message = unwrap(
        rt,
        MessageBuilder::from_builder(Array::<128>::new(), Uncompressed::new()),
    );
    let mut questions = message.question();
    unwrap(rt, questions.push_question(root, Rtype::NS, Class::IN));
    let mut answers = questions.answer();
    push_roots(rt, &mut answers, root, 2);
    answers
}

#[test]
fn each_section_has_its_count(rt: HostRuntime) {
    let root = unwrap(&rt, Name::from_text("."));
    let mut authorities = one_and_two(&rt, &root.parsed()).authority();
    push_roots(&rt, &mut authorities, &root.parsed(), 3);
    let mut additionals = authorities.additional();
    push_roots(&rt, &mut additionals, &root.parsed(), 4);
    let octets = additionals.finish().0;
    let wanted = b"\0\0\0\0\0\x01\0\x02\0\x03\0\x04".as_slice();
    assert_equal!(&rt, octets.as_slice().get(..12), Some(wanted));
    assert_equal!(&rt, counts_of(octets.as_slice()), Ok((1, 2, 3, 4)));
}

/// Checks that the header of an answer was written with this id.
fn is_sent(rt: &impl Abort, octets: &[u8], found: Header, id: u8) {
    let wanted = [0, id, 0x85, 0x80, 0, 0, 0, 0, 0, 0, 0, 0];
    assert_equal!(rt, octets, wanted.as_slice());
    assert_equal!(rt, (found.id, found.flags), (u16::from(id), header().flags));
}

/// Makes the header of an answer with this id.
fn sent(id: u16) -> Header {
    Header { id, ..header() }
}

/// Sets the header of a message without entries to that of an answer with this id, and checks it.
fn sets_header<S: Section>(
    rt: &impl Abort,
    builder: &mut SectionBuilder<Array<12>, Uncompressed, S>,
    id: u8,
) {
    builder.set_header(sent(u16::from(id)));
    is_sent(rt, builder.as_slice(), builder.header(), id);
}

#[test]
fn each_builder_sets_the_header(rt: HostRuntime) {
    let mut message = unwrap(
        &rt,
        MessageBuilder::from_builder(Array::<12>::new(), Uncompressed::new()),
    );
    assert_equal!(&rt, message.as_slice(), [0u8; 12].as_slice());
    sets_header(&rt, &mut message, 1);
    let mut questions = message.question();
    sets_header(&rt, &mut questions, 2);
    let mut answers = questions.answer();
    sets_header(&rt, &mut answers, 3);
    let mut authorities = answers.authority();
    sets_header(&rt, &mut authorities, 4);
    sets_header(&rt, &mut authorities.additional(), 5);
}

#[test]
fn each_flag_is_written(rt: HostRuntime) {
    let none = Flags::default();
    let mut message = unwrap(
        &rt,
        MessageBuilder::from_builder(Array::<12>::new(), Uncompressed::new()),
    );
    for (flags, wanted) in [
        (none, [0, 0]),
        (Flags { qr: true, ..none }, [0x80, 0]),
        (Flags { aa: true, ..none }, [0x04, 0]),
        (Flags { tc: true, ..none }, [0x02, 0]),
        (Flags { rd: true, ..none }, [0x01, 0]),
        (Flags { ra: true, ..none }, [0, 0x80]),
        (Flags { z: true, ..none }, [0, 0x40]),
        (Flags { ad: true, ..none }, [0, 0x20]),
        (Flags { cd: true, ..none }, [0, 0x10]),
    ] {
        message.set_header(Header { flags, ..header() });
        assert_equal!(&rt, message.as_slice().get(2..4), Some(wanted.as_slice()));
    }
}

#[test]
fn codes_of_a_header_are_written(rt: HostRuntime) {
    let mut message = unwrap(
        &rt,
        MessageBuilder::from_builder(Array::<12>::new(), Uncompressed::new()),
    );
    for (opcode, rcode, wanted) in [
        (Opcode::UPDATE, Rcode::NOERROR, [0x28, 0]),
        (Opcode::STATUS, Rcode::NXDOMAIN, [0x10, 0x03]),
        (Opcode::from_int(15), Rcode::from_int(15), [0x78, 0x0F]),
    ] {
        message.set_header(Header {
            flags: Flags::default(),
            opcode,
            rcode,
            ..header()
        });
        assert_equal!(&rt, message.as_slice().get(2..4), Some(wanted.as_slice()));
    }
}

/// Pushes an answer of the root with this data, which fits or is refused. The message then has `len` octets.
fn is_pushed<B: OctetsBuilder + Truncate + AsOctetsMut, T: Compressor>(
    rt: &impl Abort,
    answers: &mut AnswerBuilder<B, T>,
    rdata: &[u8],
    fits: bool,
    len: usize,
) {
    assert_equal!(rt, push_answer(rt, answers, ".", rdata), pushed(fits));
    assert_equal!(rt, answers.as_slice().len(), len);
}

#[test]
fn a_written_message_has_65535_octets_at_most(rt: HostRuntime) {
    let mut rdata = Vec::new(rt.alloc());
    unwrap(&rt, rdata.resize(65536, 0xAA));
    let message = unwrap(
        &rt,
        MessageBuilder::from_builder(Vec::new(rt.alloc()), Uncompressed::new()),
    );
    let mut answers = message.question().answer();
    is_pushed(&rt, &mut answers, &rdata, false, 12);
    rdata.truncate(65513);
    is_pushed(&rt, &mut answers, &rdata, false, 12);
    assert_equal!(&rt, answers.as_slice(), [0u8; 12].as_slice());
    rdata.truncate(65512);
    is_pushed(&rt, &mut answers, &rdata, true, 65535);
    is_pushed(&rt, &mut answers, b"", false, 65535);
    assert_equal!(&rt, counts_of(answers.as_slice()), Ok((0, 1, 0, 0)));
}

/// Pushes a record of the root with this data, and two records of one name.
fn push_three<B: OctetsBuilder + Truncate + AsOctetsMut, T: Compressor>(
    rt: &impl Abort,
    answers: &mut AnswerBuilder<B, T>,
    rdata: &[u8],
) {
    unwrap(rt, push_answer(rt, answers, ".", rdata));
    unwrap(rt, push_answer(rt, answers, "com.", b""));
    unwrap(rt, push_answer(rt, answers, "com.", b""));
}

/// Returns what is written after a record of the root with `len` octets of data: two records of one name.
fn written_after(rt: &(impl Abort + AllocGlobal), len: usize) -> Vec<u8> {
    let alloc = rt.alloc();
    let rdata = unwrap(rt, Vec::from_elem(alloc, 0, len));
    let message = unwrap(
        rt,
        MessageBuilder::from_builder(Vec::new(alloc), Vec::new(alloc)),
    );
    let mut answers = message.question().answer();
    push_three(rt, &mut answers, &rdata);
    let after = answers.as_slice().get(len.saturating_add(23)..);
    unwrap(rt, unwrap(rt, after.ok_or("too short")).to_vec(alloc))
}

#[test]
fn a_pointer_says_a_place_up_to_16383(rt: HostRuntime) {
    let plain = b"\x03com\0\0\x01\0\x01\0\0\0\0\0\0\x03com\0\0\x01\0\x01\0\0\0\0\0\0".as_slice();
    let pointed = b"\x03com\0\0\x01\0\x01\0\0\0\0\0\0\xFF\xFF\0\x01\0\x01\0\0\0\0\0\0".as_slice();
    for (len, wanted) in [(16360, pointed), (16361, plain), (16400, plain)] {
        let octets = written_after(&rt, len);
        assert_equal!(&rt, octets.as_slice(), wanted);
    }
}

/// Checks that an empty table takes targets until it is full, and then keeps those before an offset.
fn keeps<T: Compressor>(rt: &impl Abort, mut table: T, most: usize) {
    for at in [12, 14, 16] {
        if !table.is_full() {
            unwrap(
                rt,
                table.insert(
                    0,
                    Target {
                        at,
                        ..Target::default()
                    },
                ),
            );
        }
    }
    assert_equal!(rt, table.as_slice().len(), most);
    table.keep_before(14);
    assert_equal!(rt, table.as_slice().len(), most.min(1));
}

#[test]
fn tables_keep_targets(rt: HostRuntime) {
    keeps(&rt, Uncompressed::new(), 0);
    keeps(&rt, ArrayVec::<Target, 1>::new(), 1);
    keeps(&rt, ArrayVec::<Target, 2>::new(), 2);
    keeps(&rt, ArrayVec::<Target, 4>::new(), 3);
    keeps(&rt, Vec::new(rt.alloc()), 3);
}

/// Makes a message with one answer, which is of the root and of this text.
fn with_text<R: Octets + Copy>(rt: &impl Abort, txt: Txt<R>) -> Array<64> {
    let root = unwrap(rt, Name::from_text("."));
    let message = unwrap(
        rt,
        MessageBuilder::from_builder(Array::<64>::new(), Uncompressed::new()),
    );
    let mut answers = message.question().answer();
    let found = Data::Txt(txt);
    let ttl = Ttl::from_secs(300);
    unwrap(
        rt,
        answers.push_record(&root.parsed(), Class::IN, ttl, &found),
    );
    answers.authority().additional().finish().0
}

#[test]
fn text_that_was_never_read_is_pushed(rt: HostRuntime) {
    let mut strings = Array::<16>::new();
    unwrap(&rt, append_part_u8(&mut strings, b"ab"));
    unwrap(&rt, append_part_u8(&mut strings, b""));
    let octets = with_text(&rt, unwrap(&rt, Txt::from_octets(strings.as_slice())));
    let wanted = b"\0\0\0\0\0\0\0\x01\0\0\0\0\0\0\x10\0\x01\0\0\x01\x2C\0\x04\x02ab\0".as_slice();
    assert_equal!(&rt, octets.as_slice(), wanted);
    for other in [b"".as_slice(), b"\x02a", b"\x01ab"] {
        assert_equal!(&rt, Txt::from_octets(other).err(), Some(Malformed));
    }
}
