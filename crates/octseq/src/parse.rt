//! Reading octets from left to right: windows that move over a sequence.
ghost use Rattle.std.specs.Prelude.{◌≡◌, ◌+◌, ◌/◌, ◌<◌, ◌≤◌, ◌↔◌, ⊤, true, length};
ghost use Rattle.std.specs.Prelude.{IsTrue, IsOk, IfOk, IsSome, IfSome, OnOk, OnErr};
ghost use Rattle.std.specs.Simd.{first_chunks};
ghost use Rattle.octseq_text.specs.Range.{RangeExists};
ghost use Rattle.octseq.specs.Integer.{be, octets_be};
ghost use Rattle.octseq.specs.Refusal.{IsShort, IsMemory, parse_octets_error};
ghost use Rattle.octseq.specs.Window.{left, rest, next, front, at, past, nested, whole, window_of_range};

use octseq_core::builder::AsOctets;
use octseq_text::octets::{Octets, try_range};
use std::alloc::AllocError;
use std::ops::RangeBounds;
use std::slice;

mod commands;
mod error;
mod integers;
mod laws;
mod parts;

pub use crate::parse::commands::{Kind, ParserCall, ParserCommand, ParserReply, run};
pub use crate::parse::error::{ParseOctetsError, ShortInput};
pub use crate::parse::laws::{nothing_is_lost, one_run};

/// A window on a sequence of octets: a position, where reading continues, and an end. Both are counted from the first
/// octet of the sequence, even in a parser that was cut from another.
///
/// A parser is a value: a copy has the same window, and neither follows the other's moves. A refused call changes
/// nothing.
#[derive(Debug)]
pub struct Parser<R: AsOctets> {
    octets: R,
    pos: usize,
    len: usize,
    ghost ordered: { pos ≤ len },
    ghost within: { len ≤ length (R.content octets) },
}

impl<R: AsOctets + Copy> Copy for Parser<R> {}

impl<R: AsOctets + Copy> Clone for Parser<R> {
    ghost is_clone = { λ parser copy. copy ≡ parser };

    ghost is_infallible = { λ _. ⊤ };

    fn clone(&self) -> Result<Self, AllocError> {
        Ok(*self)
    }
}

impl<'a> Parser<&'a [u8]> {
    ghost use Rattle.octseq.specs.Parser.{sequence, window};

    /// A parser of a slice. The name is from the Rust crate: the slice can have any lifetime.
    pub fn from_static(slice: &'a [u8]) -> Self
        ensures sequence { sequence result ≡ slice.entry }
        ensures window { window result ≡ whole slice.now }
    {
        Parser::from_ref(slice)
    }
}

impl<R: AsOctets> Parser<R> {
    ghost use Rattle.octseq.specs.Parser.{sequence, window, Takes};

    /// A parser of all the octets.
    ///
    /// # Examples
    ///
    /// ```
    /// // crates/octseq_callers/src/levels.rt
    /// let mut parser = Parser::from_ref(octets);
    /// let mut levels = Vec::new(alloc);
    /// while parser.remaining() > 0 {
    ///     let level = parser.parse_i16_be()?;
    ///     if levels.push(level).is_err() {
    ///         return Err(ReadError::Memory);
    ///     }
    /// }
    /// ```
    pub fn from_ref(octets: R) -> Self
        ensures sequence { sequence result ≡ octets }
        ensures window { window result ≡ whole (R.content octets) }
    {
        let len = octets.as_ref().len();
        Parser {
            octets,
            pos: 0,
            len,
        }
    }

    /// A parser of a range that exists; `range_exists` tests that. It begins at the range's start and ends at its end.
    /// A range is written as in Rust: `1..3`, `at..`, `..=last`, or a pair of bounds.
    pub fn with_range<B: RangeBounds<usize>>(octets: R, range: B) -> Self
        requires known { B.has_bounds range }
        requires exists { RangeExists (length (R.content octets)) (B.start_bound range, B.end_bound range) }
        ensures sequence { sequence result ≡ octets }
        ensures window { window result
            ≡ window_of_range (R.content octets) (B.start_bound range, B.end_bound range) }
    {
        let within = slice::range(range, ..octets.as_ref().len());
        Parser {
            octets,
            pos: within.start,
            len: within.end,
        }
    }

    /// A parser of a range, or `None` if the range doesn't exist.
    pub fn try_with_range<B: RangeBounds<usize>>(octets: R, range: B) -> Option<Self>
        requires { B.has_bounds range }
        ensures variant { IsSome result
            ↔ RangeExists (length (R.content octets)) (B.start_bound range, B.end_bound range) }
        ensures sequence { IfSome result (λ parser. sequence parser ≡ octets) }
        ensures window { IfSome result (λ parser. window parser
            ≡ window_of_range (R.content octets) (B.start_bound range, B.end_bound range)) }
    {
        let range = try_range(octets.as_ref().len(), range)?;
        Some(Parser {
            octets,
            pos: range.start,
            len: range.end,
        })
    }

    /// The whole sequence.
    pub fn octets_ref(&self) -> R
    where
        R: Copy,
        ensures { result ≡ sequence self.now }
    {
        self.octets
    }

    /// The position, counted from the first octet of the sequence.
    pub fn pos(&self) -> usize
        ensures position { result ≡ (window self.now).position }
        ensures ordered { result ≤ (window self.now).end }
    {
        self.pos
    }

    /// The window's end, counted from the first octet of the sequence. For the number of octets that are left, see
    /// [`remaining`](Self::remaining).
    pub fn len(&self) -> usize
        ensures end { result ≡ (window self.now).end }
        ensures within { result ≤ length (window self.now).octets }
    {
        self.len
    }

    /// Whether the window's end is at the first octet of the sequence.
    pub fn is_empty(&self) -> bool
        ensures { IsTrue result ↔ ((window self.now).end ≡ 0) }
    {
        self.len == 0
    }

    /// The octets from the first one of the sequence to the window's end, wherever the position is.
    pub fn as_slice(&self) -> &[u8]
        ensures content { result.now ≡ front (window self.now) }
        ensures length { length result.now ≡ (window self.now).end }
    {
        &self.octets.as_ref()[..self.len]
    }

    /// The number of octets that are left.
    pub fn remaining(&self) -> usize
        ensures left { result ≡ left (window self.now) }
        ensures rest { result ≡ length (rest (window self.now)) }
    {
        self.len - self.pos
    }

    /// The next `len` octets. The position doesn't change.
    ///
    /// # Errors
    ///
    /// `ShortInput` if fewer octets are left.
    pub fn peek(&self, len: usize) -> Result<&[u8], ShortInput>
        ensures variant { IsOk result ↔ (len ≤ left (window self.now)) }
        ensures ok { IfOk result (λ octets. octets.now ≡ next len (window self.now)) }
        ensures length { IfOk result (λ octets. length octets.now ≡ len) }
    {
        Ok(&self.octets.as_ref()[self.pos..self.place_past(len)?])
    }

    /// The next octet, unsigned. The position doesn't change.
    ///
    /// # Errors
    ///
    /// `ShortInput` if no octet is left.
    #[tactic(auto, using(crate::proofs::WrittenBack::read_1))]
    pub fn peek_u8(&self) -> Result<u8, ShortInput>
        ensures variant { IsOk result ↔ (1 ≤ left (window self.now)) }
        ensures value { IfOk result (λ value. value ≡ be (next 1 (window self.now))) }
        ensures octets { IfOk result (λ value. octets_be 1 value ≡ next 1 (window self.now)) }
    {
        Ok(self.peek(1)?[0])
    }

    /// The octets that are left. The position doesn't change.
    pub fn peek_all(&self) -> &[u8]
        ensures content { result.now ≡ rest (window self.now) }
        ensures length { length result.now ≡ left (window self.now) }
    {
        &self.octets.as_ref()[self.pos..self.len]
    }

    /// The octets that are left, in chunks of `N`. Octets after the last whole chunk aren't in them. The position
    /// doesn't change.
    ///
    /// One test of the window serves all chunks, so a row of integers is read fastest by
    /// `u32::from_be_bytes(*chunk)` for each.
    ///
    /// # Examples
    ///
    /// ```
    /// // crates/octseq_examples/src/parsing.rt
    /// let parser = Parser::from_static(b"\x00\x01\x01\x00\x07");
    /// let mut total = 0;
    /// for chunk in parser.peek_chunks::<2>() {
    ///     total += u32::from(u16::from_be_bytes(*chunk)); // 1 and 256
    /// }
    /// ```
    pub fn peek_chunks<const N: usize>(&self) -> &[[u8; N]]
        requires { 0 < N }
        ensures chunks { result.now ≡ first_chunks N (left (window self.now) / N) (rest (window self.now)) }
        ensures count { length result.now ≡ left (window self.now) / N }
    {
        self.peek_all().as_chunks().0
    }

    /// Tests whether `len` octets are left.
    ///
    /// # Errors
    ///
    /// `ShortInput` if fewer octets are left.
    pub fn check_len(&self, len: usize) -> Result<(), ShortInput>
        ensures { IsOk result ↔ (len ≤ left (window self.now)) }
    {
        if len > self.remaining() {
            return Err(ShortInput);
        }
        Ok(())
    }

    /// The place after the next `len` octets, if that many are left.
    fn place_past(&self, len: usize) -> Result<usize, ShortInput>
        ensures variant { IsOk result ↔ (len ≤ left (window self.now)) }
        ensures ok { IfOk result (λ place. place ≡ (window self.now).position + len) }
    {
        self.check_len(len)?;
        Ok(self.pos + len)
    }

    /// Moves to a position, counted from the first octet of the sequence. It can be before the place where a nested
    /// parser began.
    ///
    /// # Errors
    ///
    /// `ShortInput` if the window ends before that position. The parser is then unchanged.
    ///
    /// # Examples
    ///
    /// ```
    /// // crates/octseq_examples/src/parsing.rt
    /// let mut parser = Parser::from_static(b"\x03ab\x01\x02");
    /// let value_pos = parser.parse_u8()?; // 3
    /// parser.seek(usize::from(value_pos))?;
    /// let value = parser.parse_u16_be()?; // 0x0102
    /// parser.seek(1)?;
    /// let key = parser.parse_octets(2)?; // "ab"
    /// ```
    pub fn seek(&mut self, pos: usize) -> Result<(), ShortInput>
        ensures variant { IsOk result ↔ (pos ≤ (window self.old).end) }
        ensures ok { OnOk result (window self.new ≡ at pos (window self.old)) }
        ensures err { OnErr result (window self.new ≡ window self.old) }
        ensures same { sequence self.new ≡ sequence self.old }
    {
        if pos > self.len {
            return Err(ShortInput);
        }
        self.pos = pos;
        Ok(())
    }

    /// Moves past the next `len` octets.
    ///
    /// # Errors
    ///
    /// `ShortInput` if fewer octets are left. The parser is then unchanged.
    ///
    /// # Examples
    ///
    /// ```
    /// // crates/octseq_callers/src/lines.rt
    /// let octets = parser.peek_all();
    /// if octets.is_empty() {
    ///     return Ok(None);
    /// }
    /// let (line, len) = first_line(octets);
    /// let text = StrBuilder::try_copy_lossy(alloc, line)?;
    /// infallible(parser.advance(len));
    /// Ok(Some(text))
    /// ```
    pub fn advance(&mut self, len: usize) -> Result<(), ShortInput>
        ensures { Takes result len self.old self.new }
    {
        self.pos = self.place_past(len)?;
        Ok(())
    }

    /// Moves to the window's end.
    pub fn advance_to_end(&mut self)
        ensures window { window self.new ≡ at (window self.old).end (window self.old) }
        ensures same { sequence self.new ≡ sequence self.old }
    {
        self.pos = self.len;
    }

    /// Takes the next `len` octets, as a range of the sequence.
    ///
    /// # Errors
    ///
    /// `Short` if fewer octets are left, otherwise `Memory` if a request for memory was refused. A range that is a
    /// slice requests none. The parser is then unchanged.
    ///
    /// # Examples
    ///
    /// ```
    /// // crates/octseq_callers/src/records.rt
    /// let key = parser.parse_u16_be()?;
    /// let len = parser.parse_u8()?;
    /// let value = parser.parse_octets(usize::from(len))?;
    /// Ok(Record { key, value })
    /// ```
    pub fn parse_octets(&mut self, len: usize) -> Result<R::Range, ParseOctetsError>
    where
        R: Octets,
        ensures short { IsShort parse_octets_error result ↔ (left (window self.old) < len) }
        ensures memory { IsMemory parse_octets_error result → R.Range.asks ≡ true }
        ensures value { IfOk result (λ range. R.Range.content range ≡ next len (window self.old)) }
        ensures length { IfOk result (λ range. length (R.Range.content range) ≡ len) }
        ensures ok { OnOk result (window self.new ≡ past len (window self.old)) }
        ensures err { OnErr result (window self.new ≡ window self.old) }
        ensures same { sequence self.new ≡ sequence self.old }
    {
        let end = self.place_past(len)?;
        let range = self.octets.range(self.pos..end)?;
        self.pos = end;
        Ok(range)
    }

    /// Fills the buffer with the next octets, and moves past them.
    ///
    /// # Errors
    ///
    /// `ShortInput` if fewer octets are left than the buffer has. The parser and the buffer are then unchanged.
    pub fn parse_buf(&mut self, buf: &mut [u8]) -> Result<(), ShortInput>
        ensures taken { Takes result (length buf.old) self.old self.new }
        ensures filled { OnOk result (buf.new ≡ next (length buf.old) (window self.old)) }
        ensures unfilled { OnErr result (buf.new ≡ buf.old) }
    {
        buf.copy_from_slice(self.peek(buf.len())?);
        self.pos += buf.len();
        Ok(())
    }

    /// Takes the next `len` octets, as a parser of only those. It reads the same sequence, so its position and its end
    /// are counted from the start of that sequence.
    ///
    /// # Errors
    ///
    /// `ShortInput` if fewer octets are left. The parser is then unchanged.
    ///
    /// # Examples
    ///
    /// ```
    /// // crates/octseq_examples/src/parsing.rt
    /// let mut parser = Parser::from_static(b"\x06\x00\x01\x00\x02zz\x09");
    /// let len = parser.parse_u8()?; // 6
    /// let mut record = parser.parse_parser(usize::from(len))?;
    /// let x = record.parse_u16_be()?; // 1
    /// let y = record.parse_u16_be()?; // 2, and "zz" is left
    /// let next = parser.parse_u8()?; // 9, the octet after the record
    /// ```
    pub fn parse_parser(&mut self, len: usize) -> Result<Self, ShortInput>
    where
        R: Copy,
        ensures taken { Takes result len self.old self.new }
        ensures window { IfOk result (λ parser. window parser ≡ nested len (window self.old)) }
        ensures sequence { IfOk result (λ parser. sequence parser ≡ sequence self.old) }
    {
        let mut nested = *self;
        self.advance(len)?;
        nested.len = self.pos;
        Ok(nested)
    }
}
