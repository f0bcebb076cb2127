//! Lists of calls on parsers, and the reply to each.
use crate::tests::unwrap;
use octseq::builder::AsOctets;
use octseq::octets::Octets;
use octseq::parse::{Kind, ParserCall, ParserCommand, ParserReply, run};
use octseq_asserts::{Case, assert_equal, over_each};
use octseq_callers::scarce::Scarce;
use std::alloc::{AllocError, AllocGlobal, Global};
use std::fmt::Write;
use std::process::Abort;

/// Returns octets as a text, which they are in these tests.
fn text(octets: &[u8]) -> &str {
    str::from_utf8(octets).unwrap_or("?")
}

/// Writes a reply as a text.
fn show<R: Octets>(shown: &mut String, reply: &ParserReply<R>) -> Result<(), AllocError> {
    match reply {
        ParserReply::Done => write!(shown, "Done"),
        ParserReply::Short => write!(shown, "Short"),
        ParserReply::Memory => write!(shown, "Memory"),
        ParserReply::NoParser => write!(shown, "NoParser"),
        ParserReply::Number(n) => write!(shown, "Number({n})"),
        ParserReply::Flag(b) => write!(shown, "Flag({b})"),
        ParserReply::Slice(v) => write!(shown, "Slice({})", text(v.as_slice())),
        ParserReply::Range(r) => write!(shown, "Range({})", text(r.as_ref())),
        ParserReply::Parser(n) => write!(shown, "Parser({n})"),
        ParserReply::Signed(n) => write!(shown, "Signed({n})"),
        ParserReply::Unsigned(n) => write!(shown, "Unsigned({n})"),
    }
}

/// Checks the text of a reply.
fn shows<R: Octets>(rt: &impl Abort, alloc: Global, reply: &ParserReply<R>, wanted: &str) {
    let mut shown = String::new(alloc);
    unwrap(rt, show(&mut shown, reply));
    assert_equal!(rt, shown.as_str(), wanted);
}

/// Commands, each with its expected reply.
#[derive(Drop)]
struct Answers<'a>(&'a [(usize, ParserCall, &'a str)]);

impl<H: Abort + AllocGlobal> Case<H> for Answers<'_> {
    fn holds<R: Octets + Copy>(&self, rt: &H, octets: R) {
        let mut commands = Vec::new(rt.alloc());
        for (parser, call, _) in self.0 {
            unwrap(
                rt,
                commands.push(ParserCommand {
                    parser: *parser,
                    call: *call,
                }),
            );
        }
        let replies = unwrap(rt, run(rt.alloc(), octets, &commands));
        assert_equal!(rt, replies.len(), self.0.len());
        for ((_, _, wanted), reply) in self.0.iter().zip(&replies) {
            shows(rt, rt.alloc(), reply, wanted);
        }
    }
}

#[test]
fn a_run_has_one_reply_a_command(rt: HostRuntime) {
    let cases = [
        (0, ParserCall::Advance(2), "Done"),
        (0, ParserCall::Nested(4), "Parser(1)"),
        (1, ParserCall::PeekAll, "Slice(2345)"),
        (1, ParserCall::Seek(0), "Done"),
        (1, ParserCall::PeekAll, "Slice(012345)"),
        (1, ParserCall::Seek(7), "Short"),
        (1, ParserCall::Pos, "Number(0)"),
        (0, ParserCall::PeekAll, "Slice(6789)"),
        (2, ParserCall::Pos, "NoParser"),
        (0, ParserCall::Duplicate, "Parser(2)"),
        (2, ParserCall::AdvanceToEnd, "Done"),
        (0, ParserCall::Remaining, "Number(4)"),
        (0, ParserCall::Buf(5), "Short"),
        (0, ParserCall::Int(Kind::U8), "Unsigned(54)"),
        (0, ParserCall::Octets(3), "Range(789)"),
        (0, ParserCall::Remaining, "Number(0)"),
    ];
    unwrap(&rt, over_each(&rt, &Answers(&cases), b"0123456789"));
}

#[test]
fn a_run_seeks(rt: HostRuntime) {
    let cases = [
        (0, ParserCall::Peek(1), "Slice(0)"),
        (0, ParserCall::Pos, "Number(0)"),
        (0, ParserCall::Remaining, "Number(10)"),
        (0, ParserCall::Seek(2), "Done"),
        (0, ParserCall::Pos, "Number(2)"),
        (0, ParserCall::Remaining, "Number(8)"),
        (0, ParserCall::Peek(1), "Slice(2)"),
        (0, ParserCall::Seek(10), "Done"),
        (0, ParserCall::Pos, "Number(10)"),
        (0, ParserCall::Remaining, "Number(0)"),
        (0, ParserCall::PeekAll, "Slice()"),
        (0, ParserCall::Seek(11), "Short"),
        (0, ParserCall::Pos, "Number(10)"),
        (0, ParserCall::Remaining, "Number(0)"),
    ];
    unwrap(&rt, over_each(&rt, &Answers(&cases), b"0123456789"));
}

#[test]
fn a_run_advances(rt: HostRuntime) {
    let cases = [
        (0, ParserCall::Pos, "Number(0)"),
        (0, ParserCall::Peek(1), "Slice(0)"),
        (0, ParserCall::Advance(2), "Done"),
        (0, ParserCall::Pos, "Number(2)"),
        (0, ParserCall::Peek(1), "Slice(2)"),
        (0, ParserCall::Advance(9), "Short"),
        (0, ParserCall::Advance(8), "Done"),
        (0, ParserCall::Pos, "Number(10)"),
        (0, ParserCall::PeekAll, "Slice()"),
    ];
    unwrap(&rt, over_each(&rt, &Answers(&cases), b"0123456789"));
}

#[test]
fn a_run_peeks_and_checks(rt: HostRuntime) {
    let cases = [
        (0, ParserCall::Peek(2), "Slice(01)"),
        (0, ParserCall::Peek(10), "Slice(0123456789)"),
        (0, ParserCall::Peek(11), "Short"),
        (0, ParserCall::CheckLen(2), "Done"),
        (0, ParserCall::CheckLen(10), "Done"),
        (0, ParserCall::CheckLen(11), "Short"),
        (0, ParserCall::Advance(2), "Done"),
        (0, ParserCall::Peek(2), "Slice(23)"),
        (0, ParserCall::Peek(8), "Slice(23456789)"),
        (0, ParserCall::Peek(9), "Short"),
        (0, ParserCall::CheckLen(2), "Done"),
        (0, ParserCall::CheckLen(8), "Done"),
        (0, ParserCall::CheckLen(9), "Short"),
    ];
    unwrap(&rt, over_each(&rt, &Answers(&cases), b"0123456789"));
}

#[test]
fn a_run_nests(rt: HostRuntime) {
    let cases = [
        (0, ParserCall::PeekAll, "Slice(0123456789)"),
        (0, ParserCall::Advance(2), "Done"),
        (0, ParserCall::PeekAll, "Slice(23456789)"),
        (0, ParserCall::Nested(4), "Parser(1)"),
        (1, ParserCall::PeekAll, "Slice(2345)"),
        (1, ParserCall::Advance(2), "Done"),
        (1, ParserCall::PeekAll, "Slice(45)"),
        (0, ParserCall::PeekAll, "Slice(6789)"),
    ];
    unwrap(&rt, over_each(&rt, &Answers(&cases), b"0123456789"));
}

#[test]
fn a_run_copies_what_it_is_asked(rt: HostRuntime) {
    let cases = [
        (0, ParserCall::IsEmpty, "Flag(false)"),
        (0, ParserCall::CheckLen(10), "Done"),
        (0, ParserCall::CheckLen(11), "Short"),
        (0, ParserCall::Advance(1), "Done"),
        (0, ParserCall::Peek(usize::MAX), "Short"),
        (0, ParserCall::Buf(usize::MAX), "Short"),
        (0, ParserCall::Pos, "Number(1)"),
        (0, ParserCall::Seek(0), "Done"),
        (0, ParserCall::Peek(2), "Slice(01)"),
        (0, ParserCall::Buf(3), "Slice(012)"),
        (0, ParserCall::Nested(8), "Short"),
        (0, ParserCall::Octets(8), "Short"),
        (0, ParserCall::Nested(0), "Parser(1)"),
        (1, ParserCall::AsSlice, "Slice(012)"),
        (1, ParserCall::Len, "Number(3)"),
        (1, ParserCall::Int(Kind::I8), "Short"),
        (0, ParserCall::Len, "Number(10)"),
        (0, ParserCall::Pos, "Number(3)"),
        (usize::MAX, ParserCall::Pos, "NoParser"),
    ];
    unwrap(&rt, over_each(&rt, &Answers(&cases), b"0123456789"));
}

/// Each integer at the front of FD 78 A8 4E CE 7A BA 26 DD 0F 29 99 F8 C6 0E 5D.
const INTEGERS: [(Kind, &str); 22] = [
    (Kind::I8, "Signed(-3)"),
    (Kind::U8, "Unsigned(253)"),
    (Kind::I16Be, "Signed(-648)"),
    (Kind::I16Le, "Signed(30973)"),
    (Kind::U16Be, "Unsigned(64888)"),
    (Kind::U16Le, "Unsigned(30973)"),
    (Kind::U24Be, "Unsigned(16611496)"),
    (Kind::U24Le, "Unsigned(11041021)"),
    (Kind::I32Be, "Signed(-42424242)"),
    (Kind::I32Le, "Signed(1319663869)"),
    (Kind::U32Be, "Unsigned(4252543054)"),
    (Kind::U32Le, "Unsigned(1319663869)"),
    (Kind::U48Be, "Unsigned(278694661639802)"),
    (Kind::U48Le, "Unsigned(135026501515517)"),
    (Kind::I64Be, "Signed(-182210728483440090)"),
    (Kind::I64Le, "Signed(2790677945610959101)"),
    (Kind::U64Be, "Unsigned(18264533345226111526)"),
    (Kind::U64Le, "Unsigned(2790677945610959101)"),
    (
        Kind::I128Be,
        "Signed(-3361194675818198659777052566785487267)",
    ),
    (
        Kind::I128Le,
        "Signed(123694931377103337711441504900489967869)",
    ),
    (
        Kind::U128Be,
        "Unsigned(336921172245120264803597554864982724189)",
    ),
    (
        Kind::U128Le,
        "Unsigned(123694931377103337711441504900489967869)",
    ),
];

#[test]
fn each_kind_of_integer_is_read(rt: HostRuntime) {
    let octets = b"\xFD\x78\xA8\x4E\xCE\x7A\xBA\x26\xDD\x0F\x29\x99\xF8\xC6\x0E\x5D";
    for (kind, reply) in INTEGERS {
        let cases = [(0, ParserCall::Int(kind), reply)];
        unwrap(&rt, over_each(&rt, &Answers(&cases), octets));
    }
}

/// Runs the test on octets whose ranges are refused for lack of memory.
fn over_scarce<H: Abort + AllocGlobal>(rt: &H, answers: &Answers) {
    answers.holds(rt, Scarce(*b"abc"));
}

#[test]
fn a_range_that_is_refused_for_memory_moves_nothing(rt: HostRuntime) {
    let cases = [
        (0, ParserCall::Advance(1), "Done"),
        (0, ParserCall::Octets(2), "Memory"),
        (0, ParserCall::Pos, "Number(1)"),
        (0, ParserCall::Octets(3), "Short"),
        (0, ParserCall::Buf(2), "Slice(bc)"),
        (0, ParserCall::Octets(1), "Short"),
    ];
    over_scarce(&rt, &Answers(&cases));
}
