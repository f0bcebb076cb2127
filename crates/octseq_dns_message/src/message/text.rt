//! The text of records and of whole messages.
ghost use Rattle.std.specs.Prelude.{◌≡◌, ◌≢◌, ◌+◌, ◌++◌, ℕ, List, Some, None, true, length, codes, IsErr, OnOk, OnErr};
ghost use Rattle.std.specs.Fmt.{WritesOnOk, HasWritten, IsPlainFormatter};
ghost use Rattle.octseq.specs.Limit.{ExceedsLimit};
ghost use Rattle.octseq.specs.Refusal.{IsShort, IsMemory};
ghost use Rattle.octseq.specs.Display.{display_error};
ghost use Rattle.octseq_dns_data.specs.Data.{ParsedRdata};
ghost use Rattle.octseq_dns_message.specs.RecordData.{IsDataOf};
ghost use Rattle.octseq_dns_message.specs.Entry as said;
ghost use Rattle.octseq_dns_message.specs.HeaderText.{header_text, question_text};
ghost use Rattle.octseq_dns_message.specs.MessageText.{record_text, line, header_line, questions_text};
ghost use Rattle.octseq_dns_message.specs.MessageText.{IsRecordsText, IsMessageText};
ghost use Rattle.octseq_dns_message.specs.Parsed.{header_of, questions_of, answers_of, authorities_of, additionals_of};
ghost use Rattle.octseq_dns_message.specs.Said.{question_of, record_of};
ghost use Rattle.octseq_dns_data.specs.Typed.{rdata_of};
ghost use Rattle.octseq_dns_message.specs.Walk.{questions_left, records_left};

use crate::header::Header;
use crate::message::{Message, Question, Questions, Record, Records};
use octseq::str::{DisplayError, WriteLines, append_lines};
use octseq::{AsOctets, OctetsBuilder, StrBuilder, Truncate};
use octseq_dns_data::Data;
use std::fmt;

/// A message has at most one text.
///
/// It does nothing. Calling it brings the law into the caller's proof.
pub fn one_text_of_a_message()
    ensures { (header : Header) (questions : List said.Question) (answers authorities additionals : List said.Record)
        (text other : List ℕ) → IsMessageText header questions answers authorities additionals text
        → IsMessageText header questions answers authorities additionals other → text ≡ other }
{}

/// The line of a header.
#[derive(Drop)]
struct HeaderLine {
    header: Header,
}

impl fmt::Display for HeaderLine {
    ghost output = { λ shown. Some (header_line shown.header) };

    fn fmt<W: fmt::Write>(&self, f: &mut fmt::Formatter<W>) -> fmt::Result {
        let header = self.header;
        write!(f, "{header}\n")
    }
}

/// The line of a question.
#[derive(Drop)]
struct QuestionLine<R: AsOctets> {
    question: Question<R>,
}

impl<R: AsOctets + Copy> fmt::Display for QuestionLine<R> {
    ghost output = { λ shown. Some (line (codes "question") (question_text (question_of shown.question))) };

    fn fmt<W: fmt::Write>(&self, f: &mut fmt::Formatter<W>) -> fmt::Result {
        let question = self.question;
        write!(f, "question {question}\n")
    }
}

/// The line of a record, after the word for its section.
#[derive(Drop)]
struct RecordLine<'a, R: AsOctets> {
    word: &'a str,
    entry: Record<R>,
    rdata: Data<R>,
}

impl<'a, R: AsOctets + Copy> fmt::Display for RecordLine<'a, R> {
    ghost output = { λ shown. Some (line shown.word.now (record_text (record_of shown.entry) (rdata_of shown.rdata))) };

    fn fmt<W: fmt::Write>(&self, f: &mut fmt::Formatter<W>) -> fmt::Result {
        let word = self.word;
        write!(f, "{word} ")?;
        write_record(f, &self.entry, &self.rdata)?;
        f.write_char('\n')
    }
}

/// Prints the owner, the TTL, the class, the type and the data, as `example.com. 300 IN A 1.2.3.4`.
impl<R: AsOctets + Copy> fmt::Display for Record<R> {
    ghost output = { λ _. None };

    fn fmt<W: fmt::Write>(&self, f: &mut fmt::Formatter<W>) -> fmt::Result
        ensures shown { (rdata : ParsedRdata) → IsDataOf (record_of self.now) rdata
            → WritesOnOk W.write_str_gives f.old result (record_text (record_of self.now) rdata) f.new }
    {
        let rdata = self.data();
        write_record(f, self, &rdata)
    }
}

/// Writes a record with its data.
fn write_record<W: fmt::Write, R: AsOctets + Copy>(
    f: &mut fmt::Formatter<W>,
    entry: &Record<R>,
    rdata: &Data<R>,
) -> fmt::Result
    ensures { WritesOnOk W.write_str_gives f.old result
        (record_text (record_of entry.now) (rdata_of rdata.now)) f.new }
{
    let (owner, ttl) = (entry.owner(), entry.ttl());
    let (class, rtype) = (entry.class(), entry.rtype());
    write!(f, "{owner} {ttl} {class} {rtype} {rdata}")
}

/// Prints the text of the message as [`append_text`](Message::append_text) appends it: a line for the header, and one
/// for each question and each record.
impl<R: AsOctets + Copy> fmt::Display for Message<R> {
    ghost output = { λ _. None };

    fn fmt<W: fmt::Write>(&self, f: &mut fmt::Formatter<W>) -> fmt::Result
        ensures shown { OnOk result ((lines : List ℕ) × IsMessageText (header_of self.now) (questions_of self.now)
            (answers_of self.now) (authorities_of self.now) (additionals_of self.now) lines
            × (IsPlainFormatter f.old → HasWritten W.write_str_gives f.old lines f.new)) }
    {
        let header = self.header();
        let shown = HeaderLine { header };
        write!(f, "{shown}")?;
        write_questions(f, self.questions())?;
        write_records(f, "answer", self.answers())?;
        write_records(f, "authority", self.authorities())?;
        write_records(f, "additional", self.additionals())
    }
}

/// Writes a line for each question.
fn write_questions<W: fmt::Write, R: AsOctets + Copy>(
    f: &mut fmt::Formatter<W>,
    questions: Questions<R>,
) -> fmt::Result
    ensures { WritesOnOk W.write_str_gives f.old result (questions_text (questions_left questions)) f.new }
{
    for question in questions {
        let shown = QuestionLine { question };
        write!(f, "{shown}")?;
    }
    Ok(())
}

/// Writes a line for each record, after the word for its section.
fn write_records<W: fmt::Write, R: AsOctets + Copy>(
    f: &mut fmt::Formatter<W>,
    word: &str,
    records: Records<R>,
) -> fmt::Result
    ensures { OnOk result ((lines : List ℕ) × IsRecordsText word.now (records_left records) lines
        × (IsPlainFormatter f.old → HasWritten W.write_str_gives f.old lines f.new)) }
{
    for entry in records {
        let rdata = entry.data();
        let shown = RecordLine { word, entry, rdata };
        write!(f, "{shown}")?;
    }
    Ok(())
}

impl<R: AsOctets + Copy> WriteLines for Message<R> {
    ghost is_text = { λ it. IsMessageText (header_of it) (questions_of it) (answers_of it) (authorities_of it)
        (additionals_of it) };

    fn write_lines<W: fmt::Write>(&self, f: &mut fmt::Formatter<W>) -> fmt::Result {
        fmt::Display::fmt(self, f)
    }
}

impl<R: AsOctets + Copy> Message<R> {
    ghost use Rattle.octseq_dns_message.specs.Parsed.{header_of, questions_of, answers_of, authorities_of};
    ghost use Rattle.octseq_dns_message.specs.Parsed.{additionals_of};

    /// Appends the text of the message, or nothing: a line for the header, as
    /// `id 4660 opcode 0 rcode 0 flags QR AA RD`; one for each question, as `question example.com. IN A`; and one for
    /// each record after the word for its section, as `answer example.com. 300 IN A 1.2.3.4`. Each ends with a line
    /// feed.
    ///
    /// # Errors
    ///
    /// `Short` if the text would pass the limit of its type, `Memory` if a request for memory was refused. The text is
    /// then unchanged. (`Display` is never returned, though no contract says so: by std's contract, a `fmt` may always
    /// fail.)
    pub fn append_text<B: OctetsBuilder + Truncate>(
        &self,
        text: &mut StrBuilder<B>,
    ) -> Result<(), DisplayError>
        ensures text { OnOk result ((lines : List ℕ) × IsMessageText (header_of self.now) (questions_of self.now)
            (answers_of self.now) (authorities_of self.now) (additionals_of self.now) lines
            × (B.content text.new ≡ B.content text.old ++ lines)) }
        ensures err { OnErr result (B.content text.new ≡ B.content text.old) }
        ensures past { (lines : List ℕ) → IsMessageText (header_of self.now) (questions_of self.now)
            (answers_of self.now) (authorities_of self.now) (additionals_of self.now) lines
            → ExceedsLimit B.limit (length (B.content text.old) + length lines) → IsErr result }
        ensures short { IsShort display_error result → (lines : List ℕ) → IsMessageText (header_of self.now)
            (questions_of self.now) (answers_of self.now) (authorities_of self.now) (additionals_of self.now) lines
            → ExceedsLimit B.limit (length (B.content text.old) + length lines) }
        ensures limited { IsShort display_error result → B.limit ≢ None }
        ensures memory { IsMemory display_error result → B.asks ≡ true }
        ensures borrows { B.borrows text.new ≡ B.borrows text.old }
    {
        append_lines(self, text)
    }
}
