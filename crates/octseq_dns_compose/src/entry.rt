//! The line of an entry: a question, or a record after the word for its section.
ghost use Rattle.std.specs.Prelude.{◌≡◌, ◌+◌, ◌<◌, ◌≤◌, ◌∷◌, ℕ, List, None, length, codes, IfOk, IfSome, IfNone};
ghost use Rattle.std.specs.Prelude.{◌⊎◌, true, IsErrOf};
ghost use Rattle.octseq.specs.Limit.{ExceedsLimit};
ghost use Rattle.octseq_dns_name.specs.Owned.{owned_labels};
ghost use Rattle.octseq_dns_compose.specs.HeaderLine.{IsHeaderLine};
ghost use Rattle.octseq_dns_compose.specs.QuestionText.{IsAnyQuestion, IsQuestionText};
ghost use Rattle.octseq_dns_compose.specs.Read.{head_of};
ghost use Rattle.octseq_dns_compose.specs.RecordText.{IsAnyRecord, IsRecordText};
ghost use Rattle.octseq_dns_compose.specs.TextLines.{IsFaultyHeader, IsFaultyLine, IsLongLine, IsNoneOf};
ghost use Rattle.octseq_dns_compose.specs.TextLines.{TakesLine};
ghost use Rattle.octseq_dns_compose.specs.TooLong.{IsListLine};

use crate::error::{ComposeError, Place};
use crate::header::scan_header;
use crate::lines::{after_feed, split_line, words_after};
use crate::question::{QuestionText, scan_question};
use crate::record::{RecordHead, scan_record};
use octseq::{OctetsBuilder, Truncate};
use octseq_dns_message::Header;
use octseq_dns_scan::Words;
use octseq_dns_text::ScanError;
use std::alloc::Global;

/// The lines of a text that are left.
#[derive(Clone, Copy)]
pub(crate) struct Lines<'a> {
    /// What is left of the text.
    pub(crate) ahead: &'a [u8],
    /// The number of the next line.
    pub(crate) number: usize,
    ghost bound: { number + length ahead.now ≤ 9223372036854775808 },
}

impl<'a> Lines<'a> {
    /// The lines of a text.
    pub(crate) fn new(text: &'a [u8]) -> Lines<'a>
        ensures ahead { result.ahead.now ≡ text.now }
        ensures number { result.number ≡ 1 }
    {
        Lines {
            ahead: text,
            number: 1,
        }
    }

    /// Passes a line, after which `rest` is left.
    pub(crate) fn pass(&mut self, rest: &'a [u8])
        requires { length rest.now < length self.old.ahead.now }
        ensures ahead { self.new.ahead.now ≡ rest.now }
        ensures number { self.new.number ≡ self.old.number + 1 }
    {
        self.number += 1;
        self.ahead = rest;
    }

    /// Returns the error for an offset in the next line.
    pub(crate) fn malformed(&self, offset: usize) -> ComposeError
        ensures { result ≡ ComposeError.Malformed (record { line = self.now.number; offset = offset }) }
    {
        ComposeError::Malformed(Place {
            line: self.number,
            offset,
        })
    }
}

/// Reads the next line as a record, if it begins with the word `first`. The octets of its data take the place of a
/// content.
pub(crate) fn next_record<D: OctetsBuilder + Truncate>(
    alloc: Global,
    lines: &mut Lines,
    first: &[u8],
    target: &mut D,
) -> Result<Option<RecordHead>, ComposeError>
    ensures some { IfOk result (λ next. IfSome next (λ head. (others : List (List ℕ))
        × TakesLine (first.now ∷ others) lines.old.ahead.now lines.new.ahead.now
        × IsRecordText None (head_of head) others (D.content target.new)
        × (lines.new.number ≡ lines.old.number + 1))) }
    ensures none { IfOk result (λ next. IfNone next (IsNoneOf first.now lines.old.ahead.now
        × (lines.new.ahead.now ≡ lines.old.ahead.now) × (lines.new.number ≡ lines.old.number))) }
    ensures malformed { (place : Place) → IsErrOf result (ComposeError.Malformed place)
        → (place.line ≡ lines.old.number)
        × IsFaultyLine first.now (IsAnyRecord None) lines.old.ahead.now place.offset }
    ensures short { IsErrOf result ComposeError.Short
        → IsLongLine first.now (IsAnyRecord None) D.limit lines.old.ahead.now }
    ensures first { (place : Place) → IsErrOf result (ComposeError.Malformed place)
        → ¬ IsLongLine first.now (IsAnyRecord None) D.limit lines.old.ahead.now }
    ensures memory { IsErrOf result ComposeError.Memory
        → (D.asks ≡ true) ⊎ IsListLine first.now lines.old.ahead.now }
{
    let line = split_line(lines.ahead);
    let Some(words) = words_after(line.0, first) else {
        return Ok(None);
    };
    target.truncate(0);
    let head = match scan_record::<&[u8], D>(alloc, words, None, target) {
        Ok(head) => head,
        Err(ScanError::Malformed(offset)) => return Err(lines.malformed(offset)),
        Err(ScanError::Short) => return Err(ComposeError::Short),
        Err(ScanError::Memory) => return Err(ComposeError::Memory),
    };
    // What is composed is octets.
    let _within = target.as_ref();
    let Some(rest) = after_feed(line.1) else {
        return Err(lines.malformed(line.0.len()));
    };
    lines.pass(rest);
    Ok(Some(head))
}

/// Reads the next line as a question, if it begins with the word for one.
pub(crate) fn next_question(lines: &mut Lines) -> Result<Option<QuestionText>, ComposeError>
    ensures some { IfOk result (λ next. IfSome next (λ question. (others : List (List ℕ))
        × TakesLine (codes "question" ∷ others) lines.old.ahead.now lines.new.ahead.now
        × IsQuestionText (owned_labels question.qname) question.qclass question.qtype others
        × (lines.new.number ≡ lines.old.number + 1))) }
    ensures none { IfOk result (λ next. IfNone next (IsNoneOf (codes "question") lines.old.ahead.now
        × (lines.new.ahead.now ≡ lines.old.ahead.now) × (lines.new.number ≡ lines.old.number))) }
    ensures malformed { (place : Place) → IsErrOf result (ComposeError.Malformed place)
        → (place.line ≡ lines.old.number)
        × IsFaultyLine (codes "question") IsAnyQuestion lines.old.ahead.now place.offset }
    ensures other { ¬ IsErrOf result ComposeError.Short × ¬ IsErrOf result ComposeError.Memory }
{
    let line = split_line(lines.ahead);
    let Some(mut words) = words_after(line.0, b"question") else {
        return Ok(None);
    };
    let Some(question) = scan_question(&mut words) else {
        return Err(lines.malformed(words.offset()));
    };
    let Some(rest) = after_feed(line.1) else {
        return Err(lines.malformed(line.0.len()));
    };
    lines.pass(rest);
    Ok(Some(question))
}

/// Reads the next line as that of a header.
pub(crate) fn next_header(lines: &mut Lines) -> Result<Header, ComposeError>
    ensures ok { IfOk result (λ header. (first : List (List ℕ))
        × TakesLine first lines.old.ahead.now lines.new.ahead.now × IsHeaderLine header first
        × (lines.new.number ≡ lines.old.number + 1)) }
    ensures malformed { (place : Place) → IsErrOf result (ComposeError.Malformed place)
        → (place.line ≡ lines.old.number) × IsFaultyHeader lines.old.ahead.now place.offset }
    ensures other { ¬ IsErrOf result ComposeError.Short × ¬ IsErrOf result ComposeError.Memory }
{
    let line = split_line(lines.ahead);
    let mut words = Words::new(line.0);
    let Some(header) = scan_header(&mut words) else {
        return Err(lines.malformed(words.offset()));
    };
    let Some(rest) = after_feed(line.1) else {
        return Err(lines.malformed(line.0.len()));
    };
    lines.pass(rest);
    Ok(header)
}
