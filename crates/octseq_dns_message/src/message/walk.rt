//! Iterators over the sections of a message. They can't fail: the message was checked before.
ghost use Rattle.std.specs.Prelude.{◌≡◌, ⊤};
ghost use Rattle.octseq.specs.Parser.{window};
ghost use Rattle.octseq_dns_message.specs.Entry.{IsQuestion, IsRecord};
ghost use Rattle.octseq_dns_message.specs.OneEntry.{questions_once, records_once};
ghost use Rattle.octseq_format.specs.Row.{Holds};

use crate::message::question::Question;
use crate::message::record::Record;
use octseq::{AsOctets, Parser};
use std::alloc::AllocError;

/// An iterator over the questions of a message, from the first one on.
#[derive(Debug)]
pub struct Questions<R: AsOctets> {
    parser: Parser<R>,
    left: u16,
    ghost ahead: { Holds IsQuestion (window parser) left } by { questions_once (window parser) left },
}

impl<R: AsOctets + Copy> Copy for Questions<R> {}

impl<R: AsOctets + Copy> Clone for Questions<R> {
    ghost is_clone = { λ walk copy. copy ≡ walk };

    ghost is_infallible = { λ _. ⊤ };

    fn clone(&self) -> Result<Self, AllocError> {
        Ok(*self)
    }
}

impl<R: AsOctets + Copy> Questions<R> {
    ghost use Rattle.octseq_dns_message.specs.Walk.{questions_left};

    /// Returns an iterator over the `left` entries at a parser's position.
    pub(crate) fn at(parser: Parser<R>, left: u16) -> Questions<R>
        requires { Holds IsQuestion (window parser) left }
        ensures { (held : Holds IsQuestion (window parser) left) → questions_left result ≡ held.0 }
    {
        Questions { parser, left }
    }
}

impl<R: AsOctets + Copy> Iterator for Questions<R> {
    ghost use Rattle.std.specs.Iterator.{YieldsFirstBy, item_count};
    ghost use Rattle.octseq_dns_message.specs.Said.{question_of};
    ghost use Rattle.octseq_dns_message.specs.Walk.{questions_left};

    type Item = Question<R>;

    ghost next_gives = { YieldsFirstBy question_of questions_left };

    ghost remaining = { item_count questions_left };

    #[inline(always)]
    fn next(&mut self) -> Option<Question<R>> {
        if self.left == 0 {
            return None;
        }
        let mut parser = self.parser;
        let entry = Question::parse_known(&mut parser);
        let left = self.left - 1;
        *self = Questions { parser, left };
        Some(entry)
    }
}

/// An iterator over the records of a section, from the first one on.
#[derive(Debug)]
pub struct Records<R: AsOctets> {
    parser: Parser<R>,
    left: u16,
    ghost ahead: { Holds IsRecord (window parser) left } by { records_once (window parser) left },
}

impl<R: AsOctets + Copy> Copy for Records<R> {}

impl<R: AsOctets + Copy> Clone for Records<R> {
    ghost is_clone = { λ walk copy. copy ≡ walk };

    ghost is_infallible = { λ _. ⊤ };

    fn clone(&self) -> Result<Self, AllocError> {
        Ok(*self)
    }
}

impl<R: AsOctets + Copy> Records<R> {
    ghost use Rattle.octseq_dns_message.specs.Walk.{records_left};

    /// Returns an iterator over the `left` entries at a parser's position.
    pub(crate) fn at(parser: Parser<R>, left: u16) -> Records<R>
        requires { Holds IsRecord (window parser) left }
        ensures { (held : Holds IsRecord (window parser) left) → records_left result ≡ held.0 }
    {
        Records { parser, left }
    }
}

impl<R: AsOctets + Copy> Iterator for Records<R> {
    ghost use Rattle.std.specs.Iterator.{YieldsFirstBy, item_count};
    ghost use Rattle.octseq_dns_message.specs.Said.{record_of};
    ghost use Rattle.octseq_dns_message.specs.Walk.{records_left};

    type Item = Record<R>;

    ghost next_gives = { YieldsFirstBy record_of records_left };

    ghost remaining = { item_count records_left };

    #[inline(always)]
    fn next(&mut self) -> Option<Record<R>> {
        if self.left == 0 {
            return None;
        }
        let mut parser = self.parser;
        let entry = Record::parse_known(&mut parser);
        let left = self.left - 1;
        *self = Records { parser, left };
        Some(entry)
    }
}
