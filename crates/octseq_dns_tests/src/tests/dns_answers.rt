//! Answers that are written: to a message that was read, within a push limit, and with an OPT record. TXT data made
//! from strings.
use crate::tests::unwrap;
use arrayvec::ArrayVec;
use octseq::builder::AsOctetsMut;
use octseq::error::WriteError;
use octseq::{AppendError, Array, AsOctets, OctetsBuilder, ShortBuf, Truncate};
use octseq_asserts::{assert_equal, assert_true};
use octseq_dns::data::Txt;
use octseq_dns::edns::{OptData, PushOptError, UnknownOptData};
use octseq_dns::opt::{EdnsOption, Opt};
use octseq_dns::txt::{append_strings, append_text};
use octseq_dns::{
    AdditionalBuilder, AnswerBuilder, Class, Compressor, Message, MessageBuilder, Name,
    QuestionBuilder, Rcode, Rtype, Target, Ttl, UnknownRecordData,
};
use std::alloc::AllocGlobal;
use std::process::Abort;

/// A table of a few targets.
type Table = ArrayVec<Target, 8>;

/// The refusal of what exceeds a limit.
const SHORT: Result<(), AppendError> = Err(AppendError::Short(ShortBuf));

/// Makes the answer to a request, without records, in an array of 64 octets.
fn answer_to(rt: &impl Abort, request: &[u8], rcode: Rcode) -> Array<64> {
    let request = unwrap(rt, Message::parse(request));
    let message = unwrap(
        rt,
        MessageBuilder::from_builder(Array::<64>::new(), Table::new()),
    );
    let answers = unwrap(rt, message.start_answer(&request, rcode));
    answers.authority().additional().finish().0
}

#[test]
fn an_answer_has_what_was_asked(rt: HostRuntime) {
    let request = b"\x12\x34\x01\x30\0\x01\0\0\0\0\0\0\x07eXample\x03com\0\0\x01\0\x01";
    let wanted = b"\x12\x34\x81\x03\0\x01\0\0\0\0\0\0\x07eXample\x03com\0\0\x01\0\x01";
    let answer = answer_to(&rt, request, Rcode::NXDOMAIN);
    assert_equal!(&rt, answer.as_slice(), wanted.as_slice());
}

#[test]
fn an_answer_has_no_other_flag_and_no_record(rt: HostRuntime) {
    let request = b"\xAB\xCD\xA6\xF5\0\x02\0\x01\0\0\0\0\x01a\0\0\x06\0\x01\x01A\0\0\x10\0\x03\
\0\0\x01\0\x01\0\0\0\0\0\x04\x01\x02\x03\x04";
    let wanted = b"\xAB\xCD\xA0\0\0\x02\0\0\0\0\0\0\x01a\0\0\x06\0\x01\x01A\0\0\x10\0\x03";
    let answer = answer_to(&rt, request, Rcode::NOERROR);
    assert_equal!(&rt, answer.as_slice(), wanted.as_slice());
    let request = b"\xAB\xCD\0\0\0\0\0\0\0\0\0\0";
    let wanted = b"\xAB\xCD\x80\x05\0\0\0\0\0\0\0\0";
    let answer = answer_to(&rt, request, Rcode::REFUSED);
    assert_equal!(&rt, answer.as_slice(), wanted.as_slice());
}

/// Checks that an answer to a request is refused in a message.
fn has_no_room<B: OctetsBuilder + Truncate + AsOctetsMut>(
    rt: &impl Abort,
    request: &Message<&[u8]>,
    message: MessageBuilder<B, Table>,
) {
    let refused = message.start_answer(request, Rcode::NOERROR).err();
    assert_equal!(rt, refused, SHORT.err());
}

#[test]
fn an_answer_is_refused_where_its_questions_pass_a_limit(rt: HostRuntime) {
    let octets = b"\x12\x34\x01\0\0\x01\0\0\0\0\0\0\x07example\x03com\0\0\x01\0\x01";
    let request = unwrap(&rt, Message::parse(octets.as_slice()));
    let message = unwrap(
        &rt,
        MessageBuilder::from_builder(Array::<28>::new(), Table::new()),
    );
    has_no_room(&rt, &request, message);
    let mut message = unwrap(
        &rt,
        MessageBuilder::from_builder(Array::<64>::new(), Table::new()),
    );
    message.set_push_limit(28);
    has_no_room(&rt, &request, message);
    let mut message = unwrap(
        &rt,
        MessageBuilder::from_builder(Array::<64>::new(), Table::new()),
    );
    message.set_push_limit(29);
    let answers = unwrap(&rt, message.start_answer(&request, Rcode::NOERROR));
    assert_equal!(&rt, answers.push_limit(), Some(29));
    assert_equal!(&rt, answers.as_slice().len(), 29);
}

/// A question and two answers, whose owners are pointers to the qname.
const MESSAGE: &[u8] = b"\0\0\0\0\0\x01\0\x02\0\0\0\0\x07example\x03com\0\0\x01\0\x01\
\xC0\x0C\0\x01\0\x01\0\0\x01\x2C\0\x04\x01\x02\x03\x04\
\xC0\x0C\0\x01\0\x01\0\0\x01\x2C\0\x04\x05\x06\x07\x08";

/// Pushes the question.
fn push_question<B: OctetsBuilder + Truncate + AsOctetsMut>(
    rt: &impl Abort,
    questions: &mut QuestionBuilder<B, Table>,
) -> Result<(), AppendError> {
    let name = unwrap(rt, Name::from_text("example.com."));
    questions.push_question(&name.parsed(), Rtype::A, Class::IN)
}

/// Pushes an answer with an address.
fn push_answer<B: OctetsBuilder + Truncate + AsOctetsMut>(
    rt: &impl Abort,
    answers: &mut AnswerBuilder<B, Table>,
    address: &[u8],
) -> Result<(), AppendError> {
    let name = unwrap(rt, Name::from_text("example.com."));
    let rdata = UnknownRecordData::new(Rtype::A, address);
    answers.push_record(&name.parsed(), Class::IN, Ttl::from_secs(300), &rdata)
}

/// Checks the octets of the message after its header. Returns their number, with those of the header.
fn has_front(rt: &impl Abort, octets: &[u8]) -> usize {
    let len = octets.len();
    assert_equal!(rt, octets.get(12..), MESSAGE.get(12..len));
    len
}

/// Pushes the question and the answers within a limit, until one is refused. Returns the number of octets.
fn pushed_within(rt: &impl Abort, limit: usize) -> usize {
    let mut message = unwrap(
        rt,
        MessageBuilder::from_builder(Array::<61>::new(), Table::new()),
    );
    message.set_push_limit(limit);
    assert_equal!(rt, message.push_limit(), Some(limit));
    let mut questions = message.question();
    let mut went = push_question(rt, &mut questions);
    let mut answers = questions.answer();
    for address in [[1, 2, 3, 4], [5, 6, 7, 8]] {
        if went.is_ok() {
            went = push_answer(rt, &mut answers, &address);
        }
    }
    let fits = limit >= MESSAGE.len();
    assert_equal!(rt, went, if fits { Ok(()) } else { SHORT });
    has_front(rt, answers.as_slice())
}

#[test]
fn pushes_stay_within_a_limit(rt: HostRuntime) {
    assert_equal!(&rt, MESSAGE.len(), 61);
    for limit in 12..70 {
        let whole = [12, 29, 45, 61];
        let wanted = whole.iter().filter(|len| **len <= limit).max();
        assert_equal!(&rt, Some(&pushed_within(&rt, limit)), wanted);
    }
    assert_equal!(&rt, pushed_within(&rt, 0), 12);
    assert_equal!(&rt, pushed_within(&rt, usize::MAX), 61);
}

/// Checks that another answer is refused.
fn takes_no_answer<B: OctetsBuilder + Truncate + AsOctetsMut>(
    rt: &impl Abort,
    answers: &mut AnswerBuilder<B, Table>,
) {
    assert_equal!(rt, push_answer(rt, answers, &[5, 6, 7, 8]), SHORT);
}

/// Pushes another answer without a limit.
fn takes_another_answer(rt: &impl Abort, answers: &mut AnswerBuilder<Array<512>, Table>) {
    assert_equal!(rt, answers.push_limit(), None);
    unwrap(rt, push_answer(rt, answers, &[5, 6, 7, 8]));
    assert_equal!(rt, answers.as_slice(), MESSAGE);
}

#[test]
fn what_is_there_stays_past_a_limit(rt: HostRuntime) {
    let message = unwrap(
        &rt,
        MessageBuilder::from_builder(Array::<512>::new(), Table::new()),
    );
    assert_equal!(&rt, message.push_limit(), None);
    let mut questions = message.question();
    unwrap(&rt, push_question(&rt, &mut questions));
    let mut answers = questions.answer();
    unwrap(&rt, push_answer(&rt, &mut answers, &[1, 2, 3, 4]));
    answers.set_push_limit(20);
    takes_no_answer(&rt, &mut answers);
    assert_equal!(&rt, answers.as_slice().get(12..), MESSAGE.get(12..45));
    answers.set_push_limit(60);
    takes_no_answer(&rt, &mut answers);
    answers.clear_push_limit();
    takes_another_answer(&rt, &mut answers);
}

#[test]
fn a_builder_has_its_own_limit_too(rt: HostRuntime) {
    let mut message = unwrap(
        &rt,
        MessageBuilder::from_builder(Array::<28>::new(), Table::new()),
    );
    message.set_push_limit(512);
    let mut questions = message.question();
    assert_equal!(&rt, push_question(&rt, &mut questions), SHORT);
}

/// A message with only an OPT record, which has a cookie: RFC 7873, 4.
const WITH_OPT: &[u8] = b"\0\0\0\0\0\0\0\0\0\0\0\x01\0\0\x29\x04\xD0\x01\0\x80\0\0\x0C\
\0\x0A\0\x08\x01\x02\x03\x04\x05\x06\x07\x08";

/// The cookie.
const COOKIE: UnknownOptData<'static> = UnknownOptData {
    code: 10,
    octets: b"\x01\x02\x03\x04\x05\x06\x07\x08",
};

/// Makes a message to which additional records are pushed.
fn additionals<B: OctetsBuilder + Truncate + AsOctetsMut>(
    rt: &impl Abort,
    octets: B,
) -> AdditionalBuilder<B, Table> {
    let message = unwrap(rt, MessageBuilder::from_builder(octets, Table::new()));
    message.question().answer().authority().additional()
}

/// Pushes an OPT record with options.
pub(super) fn push_opt<B: OctetsBuilder + Truncate + AsOctetsMut, T: Compressor>(
    additionals: &mut AdditionalBuilder<B, T>,
    options: &[UnknownOptData<'_>],
) -> Result<(), PushOptError> {
    additionals.push_opt(&OptData {
        udp_payload_size: 1232,
        extended_rcode: 1,
        version: 0,
        dnssec_ok: true,
        options,
    })
}

#[test]
fn a_record_of_edns_is_pushed_once(rt: HostRuntime) {
    let mut additionals = additionals(&rt, Array::<64>::new());
    assert_true!(&rt, !additionals.has_opt());
    unwrap(&rt, push_opt(&mut additionals, &[COOKIE]));
    assert_equal!(&rt, additionals.as_slice(), WITH_OPT);
    assert_true!(&rt, additionals.has_opt());
    let again = push_opt(&mut additionals, &[]);
    assert_equal!(&rt, again, Err(PushOptError::AlreadyPushed));
    assert_equal!(&rt, additionals.as_slice(), WITH_OPT);
}

#[test]
fn a_record_of_its_type_is_one_of_edns(rt: HostRuntime) {
    let name = unwrap(&rt, Name::from_text("."));
    let mut additionals = additionals(&rt, Array::<64>::new());
    let rdata = UnknownRecordData::new(Rtype::OPT, &[]);
    unwrap(
        &rt,
        additionals.push_record(&name.parsed(), Class::IN, Ttl::from_secs(0), &rdata),
    );
    let again = push_opt(&mut additionals, &[]);
    assert_equal!(&rt, again, Err(PushOptError::AlreadyPushed));
}

/// Checks what an OPT record says beside its options.
fn has_fields(rt: &impl Abort, opt: &Opt<&[u8]>) {
    let found = (opt.udp_payload_size(), opt.extended_rcode());
    assert_equal!(rt, found, (1232, 1));
    assert_equal!(rt, (opt.version(), opt.dnssec_ok()), (0, true));
}

/// Checks an option.
fn is_option(rt: &impl Abort, found: Option<EdnsOption<&[u8]>>, wanted: &UnknownOptData<'_>) {
    let option = unwrap(rt, found.ok_or("no option"));
    assert_equal!(rt, option.code, wanted.code);
    assert_equal!(rt, option.octets.peek_all(), wanted.octets);
}

#[test]
fn a_record_of_edns_is_read_back(rt: HostRuntime) {
    let mut additionals = additionals(&rt, Array::<64>::new());
    let padding = UnknownOptData {
        code: 12,
        octets: b"",
    };
    unwrap(&rt, push_opt(&mut additionals, &[COOKIE, padding]));
    let (octets, _) = additionals.finish();
    let message = unwrap(&rt, Message::parse(octets.as_slice()));
    let record = unwrap(&rt, message.additionals().next().ok_or("no record"));
    assert_true!(&rt, record.owner().is_root());
    let opt = unwrap(&rt, Opt::from_record(&record));
    has_fields(&rt, &opt);
    let mut options = opt.options();
    is_option(&rt, options.next(), &COOKIE);
    is_option(&rt, options.next(), &padding);
    assert_true!(&rt, options.next().is_none());
}

/// Checks that an OPT record with a cookie is refused within a limit.
fn is_no_opt_within(rt: &impl Abort, limit: usize) {
    let mut additionals = additionals(rt, Array::<35>::new());
    additionals.set_push_limit(limit);
    let refused = push_opt(&mut additionals, &[COOKIE]);
    assert_equal!(rt, refused, Err(PushOptError::Short(ShortBuf)));
    assert_equal!(rt, additionals.as_slice(), [0; 12].as_slice());
    assert_true!(rt, !additionals.has_opt());
}

/// Checks that an OPT record without options is refused in an array that is an octet too short.
fn has_no_room_for_opt(rt: &impl Abort) {
    let refused = push_opt(&mut additionals(rt, Array::<22>::new()), &[]);
    assert_equal!(rt, refused, Err(PushOptError::Short(ShortBuf)));
}

#[test]
fn a_record_of_edns_is_pushed_whole_or_not_at_all(rt: HostRuntime) {
    for limit in 12..35 {
        is_no_opt_within(&rt, limit);
    }
    let mut fits = additionals(&rt, Array::<35>::new());
    unwrap(&rt, push_opt(&mut fits, &[COOKIE]));
    has_no_room_for_opt(&rt);
    let mut alone = additionals(&rt, Array::<23>::new());
    unwrap(&rt, push_opt(&mut alone, &[]));
    assert_equal!(&rt, alone.as_slice().get(21..), Some(b"\0\0".as_slice()));
}

/// Checks that an option of these octets is refused.
fn is_no_option(rt: &(impl Abort + AllocGlobal), octets: &[u8]) {
    let mut additionals = additionals(rt, Vec::new(rt.alloc()));
    let refused = push_opt(&mut additionals, &[UnknownOptData { code: 12, octets }]);
    assert_equal!(rt, refused, Err(PushOptError::Short(ShortBuf)));
    assert_equal!(rt, additionals.as_slice(), [0; 12].as_slice());
}

#[test]
fn an_option_that_no_record_holds_is_refused(rt: HostRuntime) {
    let long = unwrap(&rt, vec![in rt.alloc(); 0u8; 65536]);
    is_no_option(&rt, &long);
}

/// Checks the strings of TXT data.
fn has_strings(rt: &impl Abort, octets: &[u8], wanted: &[&[u8]]) {
    let txt = unwrap(rt, Txt::from_octets(octets));
    let mut strings = txt.strings();
    for other in wanted {
        let string = unwrap(rt, strings.next().ok_or("no string"));
        assert_equal!(rt, string.as_slice(), *other);
    }
    assert_true!(rt, strings.next().is_none());
}

#[test]
fn strings_are_data(rt: HostRuntime) {
    let mut octets = Array::<6>::new();
    unwrap(
        &rt,
        append_strings(&mut octets, &[b"a".as_slice(), b"", b"bc"]),
    );
    assert_equal!(&rt, octets.as_slice(), b"\x01a\0\x02bc".as_slice());
    has_strings(&rt, octets.as_slice(), &[b"a", b"", b"bc"]);
}

#[test]
fn what_is_no_string_is_refused(rt: HostRuntime) {
    let mut octets = Array::<600>::new();
    let malformed = Err(WriteError::Malformed);
    assert_equal!(&rt, append_strings(&mut octets, &[]), malformed);
    let long = [b'a'; 256];
    let strings = [b"b".as_slice(), long.as_slice()];
    assert_equal!(&rt, append_strings(&mut octets, &strings), malformed);
    assert_equal!(&rt, octets.as_slice(), b"".as_slice());
    unwrap(&rt, append_strings(&mut octets, &[&long[1..], &long[1..]]));
    assert_equal!(&rt, octets.len(), 512);
    let mut few = Array::<4>::new();
    let short = append_strings(&mut few, &[b"a".as_slice(), b"bc"]);
    assert_equal!(&rt, short, Err(WriteError::Short));
    assert_equal!(&rt, few.as_slice(), b"".as_slice());
}

/// Checks the lengths of strings.
fn has_lengths(rt: &impl Abort, octets: &[u8], wanted: &[usize]) {
    let txt = unwrap(rt, Txt::from_octets(octets));
    let mut strings = txt.strings();
    for len in wanted {
        let string = unwrap(rt, strings.next().ok_or("no string"));
        assert_equal!(rt, string.len(), *len);
    }
    assert_true!(rt, strings.next().is_none());
}

/// Checks the lengths of the strings of a text of this many octets.
fn lengths_of_strings(rt: &impl Abort, len: usize, wanted: &[usize]) {
    let text = [b'x'; 600];
    let text = unwrap(rt, text.get(..len).ok_or("a long text"));
    let mut octets = Array::<700>::new();
    unwrap(rt, append_text(&mut octets, text));
    assert_equal!(rt, octets.len(), len.saturating_add(wanted.len()));
    has_lengths(rt, octets.as_slice(), wanted);
}

#[test]
fn a_text_is_cut_into_strings(rt: HostRuntime) {
    lengths_of_strings(&rt, 0, &[0]);
    lengths_of_strings(&rt, 1, &[1]);
    lengths_of_strings(&rt, 255, &[255]);
    lengths_of_strings(&rt, 256, &[255, 1]);
    lengths_of_strings(&rt, 510, &[255, 255]);
    lengths_of_strings(&rt, 511, &[255, 255, 1]);
    let mut few = Array::<256>::new();
    assert_equal!(&rt, append_text(&mut few, &[b'x'; 256]), SHORT);
    assert_equal!(&rt, few.as_slice(), b"".as_slice());
}
