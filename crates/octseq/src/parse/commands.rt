//! Lists of commands on parsers of the same octets.
ghost use Rattle.std.specs.Prelude.{◌≡◌, ℕ, ◌+◌, ◌≤◌, ◌<◌, ◌↔◌, [], ◌∷◌, ◌++◌, Some, IfOk, OnOk};
ghost use Rattle.std.specs.Prelude.{OnErr, MatchResult, map, option_to_list, vec_len, vec_capacity};
ghost use Rattle.octseq.specs.Parser.{window, Takes};
ghost use Rattle.octseq.specs.Refusal.{IsShort, IsMemory, parse_octets_error};
ghost use Rattle.octseq.specs.WindowReply.{WindowReply, shown};
ghost use Rattle.octseq.specs.WindowRun.{reading, Outcome, outcome, says, MayLackMemory, WindowStep, WindowRun};
ghost use Rattle.octseq.specs.Window.{left, next, past, whole};

use super::{ParseOctetsError, Parser, ShortInput};
use octseq_core::builder::AsOctets;
use octseq_text::octets::Octets;
use std::alloc::{AllocError, Global};

/// The integers that a parser reads, by their type and the order of their octets.
#[derive(Clone, Copy, Debug, PartialEq, Eq)]
pub enum Kind {
    I8,
    U8,
    I16Be,
    I16Le,
    U16Be,
    U16Le,
    U24Be,
    U24Le,
    I32Be,
    I32Le,
    U32Be,
    U32Le,
    U48Be,
    U48Le,
    I64Be,
    I64Le,
    U64Be,
    U64Le,
    I128Be,
    I128Le,
    U128Be,
    U128Le,
}

/// A call on one of the parsers of a run. They are numbered from 0, in the order in which they are made.
#[derive(Clone, Copy)]
pub struct ParserCommand {
    /// The number of the parser.
    pub parser: usize,
    /// The call on that parser.
    pub call: ParserCall,
}

/// A call on a parser.
#[derive(Clone, Copy)]
pub enum ParserCall {
    /// Return the position.
    Pos,
    /// Return the window's end.
    Len,
    /// Return whether the window's end is 0.
    IsEmpty,
    /// Return the number of octets that are left.
    Remaining,
    /// Copy the octets from the first one to the window's end.
    AsSlice,
    /// Copy the octets that are left.
    PeekAll,
    /// Move to the window's end.
    AdvanceToEnd,
    /// Make a parser with the same window.
    Duplicate,
    /// Copy this many octets, without moving past them.
    Peek(usize),
    /// Move to this position.
    Seek(usize),
    /// Move past this many octets.
    Advance(usize),
    /// Test whether this many octets are left.
    CheckLen(usize),
    /// Take this many octets as a range.
    Octets(usize),
    /// Take this many octets into a buffer of that length.
    Buf(usize),
    /// Take this many octets, and make a parser of only those.
    Nested(usize),
    /// Take an integer.
    Int(Kind),
}

/// The reply to a [`ParserCommand`].
#[derive(Drop)]
pub enum ParserReply<R: Octets> {
    /// It was done.
    Done,
    /// The window ends too early, and no parser moved.
    Short,
    /// A request for memory was refused, and no parser moved.
    Memory,
    /// There is no parser with that number.
    NoParser,
    /// A position, an end, or the number of octets that are left.
    Number(usize),
    /// Whether the window's end is 0.
    Flag(bool),
    /// A copy of octets.
    Slice(Vec<u8>),
    /// A range of the octets.
    Range(R::Range),
    /// The number of the new parser.
    Parser(usize),
    /// A signed integer.
    Signed(i128),
    /// An unsigned integer.
    Unsigned(u128),
}

/// The reply to a call, and the parser that it made.
struct Answer<R: Octets> {
    reply: ParserReply<R>,
    made: Option<Parser<R>>,
}

/// The reply to a call that returns nothing more.
fn done<R: Octets>(answer: Result<(), ShortInput>) -> Result<ParserReply<R>, ShortInput>
    ensures { MatchResult answer (λ _. result ≡ Ok ParserReply.Done) (λ e. result ≡ Err e) }
{
    answer?;
    Ok(ParserReply::Done)
}

/// The reply with a copy of octets.
fn copied<R: Octets>(alloc: Global, octets: &[u8]) -> Result<ParserReply<R>, AllocError>
    ensures { IfOk result (λ reply. shown R.Range.content reply ≡ WindowReply.slice octets.now) }
{
    Ok(ParserReply::Slice(Vec::from_slice(alloc, octets)?))
}

/// The next `len` octets, taken into a buffer that is allocated only after they are known to be there.
fn buffer<R: AsOctets>(
    alloc: Global,
    parser: &mut Parser<R>,
    len: usize,
) -> Result<Vec<u8>, ParseOctetsError>
    ensures short { IsShort parse_octets_error result ↔ (left (window parser.old) < len) }
    ensures value { IfOk result (λ buf. buf.items ≡ next len (window parser.old)) }
    ensures ok { OnOk result (window parser.new ≡ past len (window parser.old)) }
    ensures err { OnErr result (window parser.new ≡ window parser.old) }
{
    parser.check_len(len)?;
    let mut buf = Vec::from_elem(alloc, 0, len)?;
    parser.parse_buf(&mut buf)?;
    Ok(buf)
}

/// The reply with an integer.
fn integer<R: Octets>(parser: &mut Parser<R>, kind: Kind) -> Result<ParserReply<R>, ShortInput>
    ensures taken { Takes result (reading kind).width parser.old parser.new }
    ensures value { IfOk result (λ reply. shown R.Range.content reply
        ≡ (reading kind).reply (next (reading kind).width (window parser.old))) }
{
    Ok(match kind {
        Kind::I8 => ParserReply::Signed(i128::from(parser.parse_i8()?)),
        Kind::U8 => ParserReply::Unsigned(u128::from(parser.parse_u8()?)),
        Kind::I16Be => ParserReply::Signed(i128::from(parser.parse_i16_be()?)),
        Kind::I16Le => ParserReply::Signed(i128::from(parser.parse_i16_le()?)),
        Kind::U16Be => ParserReply::Unsigned(u128::from(parser.parse_u16_be()?)),
        Kind::U16Le => ParserReply::Unsigned(u128::from(parser.parse_u16_le()?)),
        Kind::U24Be => ParserReply::Unsigned(u128::from(parser.parse_u24_be()?)),
        Kind::U24Le => ParserReply::Unsigned(u128::from(parser.parse_u24_le()?)),
        Kind::I32Be => ParserReply::Signed(i128::from(parser.parse_i32_be()?)),
        Kind::I32Le => ParserReply::Signed(i128::from(parser.parse_i32_le()?)),
        Kind::U32Be => ParserReply::Unsigned(u128::from(parser.parse_u32_be()?)),
        Kind::U32Le => ParserReply::Unsigned(u128::from(parser.parse_u32_le()?)),
        Kind::U48Be => ParserReply::Unsigned(u128::from(parser.parse_u48_be()?)),
        Kind::U48Le => ParserReply::Unsigned(u128::from(parser.parse_u48_le()?)),
        Kind::I64Be => ParserReply::Signed(i128::from(parser.parse_i64_be()?)),
        Kind::I64Le => ParserReply::Signed(i128::from(parser.parse_i64_le()?)),
        Kind::U64Be => ParserReply::Unsigned(u128::from(parser.parse_u64_be()?)),
        Kind::U64Le => ParserReply::Unsigned(u128::from(parser.parse_u64_le()?)),
        Kind::I128Be => ParserReply::Signed(parser.parse_i128_be()?),
        Kind::I128Le => ParserReply::Signed(parser.parse_i128_le()?),
        Kind::U128Be => ParserReply::Unsigned(parser.parse_u128_be()?),
        Kind::U128Le => ParserReply::Unsigned(parser.parse_u128_le()?),
    })
}

/// Carries out one call on a parser, which is one of `count`.
fn carry_out<R: Octets + Copy>(
    alloc: Global,
    parser: &mut Parser<R>,
    count: usize,
    call: ParserCall,
) -> Result<Answer<R>, ParseOctetsError>
    ensures ok { IfOk result (λ answer. outcome count (window parser.old) call
        ≡ record {
          reply = shown R.Range.content answer.reply;
          window = window parser.new;
          added = map window (option_to_list answer.made);
        }) }
    ensures short { IsShort parse_octets_error result
        → outcome count (window parser.old) call ≡ says WindowReply.short (window parser.old) }
    ensures memory { IsMemory parse_octets_error result
        → MayLackMemory R.Range.asks (outcome count (window parser.old) call).reply }
    ensures err { OnErr result (window parser.new ≡ window parser.old) }
{
    let reply = match call {
        ParserCall::Pos => ParserReply::Number(parser.pos()),
        ParserCall::Len => ParserReply::Number(parser.len()),
        ParserCall::IsEmpty => ParserReply::Flag(parser.is_empty()),
        ParserCall::Remaining => ParserReply::Number(parser.remaining()),
        ParserCall::AsSlice => copied(alloc, parser.as_slice())?,
        ParserCall::PeekAll => copied(alloc, parser.peek_all())?,
        ParserCall::AdvanceToEnd => {
            parser.advance_to_end();
            ParserReply::Done
        }
        ParserCall::Peek(n) => copied(alloc, parser.peek(n)?)?,
        ParserCall::Seek(n) => done(parser.seek(n))?,
        ParserCall::Advance(n) => done(parser.advance(n))?,
        ParserCall::CheckLen(n) => done(parser.check_len(n))?,
        ParserCall::Octets(n) => ParserReply::Range(parser.parse_octets(n)?),
        ParserCall::Buf(n) => ParserReply::Slice(buffer(alloc, parser, n)?),
        ParserCall::Int(kind) => integer(parser, kind)?,
        ParserCall::Duplicate => return Ok(with_new(count, *parser)),
        ParserCall::Nested(n) => return Ok(with_new(count, parser.parse_parser(n)?)),
    };
    Ok(Answer { reply, made: None })
}

/// The answer of a call that makes a parser, after `count` others.
fn with_new<R: Octets>(count: usize, parser: Parser<R>) -> Answer<R>
    ensures { result ≡ record { reply = ParserReply.Parser count; made = Some parser } }
{
    Answer {
        reply: ParserReply::Parser(count),
        made: Some(parser),
    }
}

/// Carries out one command.
fn step<R: Octets + Copy>(
    alloc: Global,
    parsers: &mut Vec<Parser<R>>,
    command: ParserCommand,
) -> ParserReply<R>
    requires { vec_len parsers.old < vec_capacity parsers.old }
    ensures step { WindowStep R.Range.asks (map window parsers.old.items) command
        (shown R.Range.content result) (map window parsers.new.items) }
    ensures len { vec_len parsers.new ≤ vec_len parsers.old + 1 }
    ensures capacity { vec_capacity parsers.old ≤ vec_capacity parsers.new }
{
    let count = parsers.len();
    if command.parser >= count {
        return ParserReply::NoParser;
    }
    match carry_out(alloc, &mut parsers[command.parser], count, command.call) {
        Ok(Answer { reply, made }) => {
            if let Some(parser) = made {
                parsers.push(parser).unwrap();
            }
            reply
        }
        Err(ParseOctetsError::Short(_)) => ParserReply::Short,
        Err(ParseOctetsError::Memory) => ParserReply::Memory,
    }
}

/// Carries out the commands in order, on parsers of the same octets. Number 0 is [`Parser::from_ref`] of them, and each
/// parser that a command makes has the next number. There is one reply for each command. A refused command has its own
/// reply, and the commands after it are still carried out.
///
/// # Errors
///
/// `AllocError` if the memory for the replies and the parsers was refused. It is requested first.
pub fn run<R: Octets + Copy>(
    alloc: Global,
    octets: R,
    commands: &[ParserCommand],
) -> Result<Vec<ParserReply<R>>, AllocError>
    ensures { IfOk result (λ replies. WindowRun R.Range.asks (whole (R.content octets) ∷ []) commands.now
        (map (shown R.Range.content) replies.items)) }
{
    let mut replies = Vec::with_capacity(alloc, commands.len())?;
    let mut parsers = Vec::with_capacity(alloc, commands.len() + 1)?;
    parsers.push(Parser::from_ref(octets)).unwrap();
    for command in commands {
        replies.push(step(alloc, &mut parsers, *command)).unwrap();
    }
    Ok(replies)
}
