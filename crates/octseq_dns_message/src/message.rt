//! DNS messages: RFC 1035, 4.1.
ghost use Rattle.std.specs.Prelude.{◌≡◌, ◌<◌, ◌≤◌, ℕ, List, length, ⊤};
ghost use Rattle.octseq.specs.Parser.{window};
ghost use Rattle.octseq.specs.Window.{at, whole};
ghost use Rattle.octseq_dns_message.specs.Entry as said;
ghost use Rattle.octseq_dns_message.specs.Entry.{IsQuestion, IsRecord};
ghost use Rattle.octseq_dns_message.specs.Message.{IsMessage};
ghost use Rattle.octseq_dns_message.specs.OneEntry.{questions_once, records_once};
ghost use Rattle.octseq_dns_message.specs.declared.header.Header.{Header as Fields};
ghost use Rattle.octseq_dns_message.specs.declared.header.HeaderCounts.{HeaderCounts as Counts};
ghost use Rattle.octseq_format.specs.Row.{Holds, Many};

use crate::header::{Header, HeaderCounts, Numbers};
use crate::message::sections::{read_questions, read_records};
use octseq::builder::infallible;
use octseq::{AsOctets, Parser, Turns};
use octseq_dns_name::Malformed;
use std::alloc::AllocError;

mod asked;
mod canonical;
mod collect;
mod edns;
mod limited;
mod offset;
mod question;
mod record;
mod records;
mod sections;
mod text;
mod walk;

pub use crate::message::asked::NotOneQuestion;
pub use crate::message::canonical::{ALIAS_MAX, one_canonical_name};
pub use crate::message::collect::Sections;
pub use crate::message::limited::RecordsOfType;
pub use crate::message::offset::{fault_offset, one_offset_of_a_fault};
pub use crate::message::question::Question;
pub use crate::message::record::Record;
pub use crate::message::records::{AllRecords, Section};
pub use crate::message::text::one_text_of_a_message;
pub use crate::message::walk::{Questions, Records};

/// The maximum number of octets of a message: RFC 1035, 4.2.2.
pub const MESSAGE_MAX: usize = 65535;

/// Octets are a message in at most one way.
///
/// It does nothing. Calling it brings the law into the caller's proof.
pub fn one_message()
    ensures { (octets : List ℕ) (h k : Fields) (q others : List said.Question)
        (a b d x y z : List said.Record) → IsMessage octets h q a b d → IsMessage octets k others x y z
        → (h ≡ k) × (q ≡ others) × (a ≡ x) × (b ≡ y) × (d ≡ z) }
{}

/// A message: its octets, its header, and the offsets at which its sections begin. No octet is copied.
#[derive(Debug)]
pub struct Message<R: AsOctets> {
    octets: R,
    header: Numbers,
    questions: u16,
    answers: u16,
    authorities: u16,
    additionals: u16,
    ghost asked: { Holds IsQuestion (at questions (whole (R.content octets)))
        header.counts.qdcount } by { questions_once _ _ },
    ghost answered: { Holds IsRecord (at answers (whole (R.content octets)))
        header.counts.ancount } by { records_once _ _ },
    ghost authorized: { Holds IsRecord (at authorities (whole (R.content octets)))
        header.counts.nscount } by { records_once _ _ },
    ghost added: { Holds IsRecord (at additionals (whole (R.content octets)))
        header.counts.arcount } by { records_once _ _ },
    ghost past_answers: { ∥ Many header.counts.ancount IsRecord (at answers (whole (R.content octets))) answered.0
        (at authorities (whole (R.content octets))) ∥₁ },
    ghost past_authorities: { ∥ Many header.counts.nscount IsRecord (at authorities (whole (R.content octets)))
        authorized.0 (at additionals (whole (R.content octets))) ∥₁ },
    ghost begun: { questions ≤ length (R.content octets) },
    ghost passed_questions: { answers ≤ length (R.content octets) },
    ghost passed_answers: { authorities ≤ length (R.content octets) },
    ghost passed_authorities: { additionals ≤ length (R.content octets) },
}

/// Returns a parser of octets, at an offset.
#[inline(always)]
pub(crate) fn parser_at<R: AsOctets + Copy>(octets: R, offset: u16) -> Parser<R>
    requires { offset ≤ length (R.content octets) }
    ensures { window result ≡ at offset (whole (R.content octets)) }
{
    let mut parser = Parser::from_ref(octets);
    infallible(parser.seek(usize::from(offset)));
    parser
}

impl<R: AsOctets + Copy> Copy for Message<R> {}

impl<R: AsOctets + Copy> Clone for Message<R> {
    ghost is_clone = { λ message copy. copy ≡ message };

    ghost is_infallible = { λ _. ⊤ };

    fn clone(&self) -> Result<Self, AllocError> {
        Ok(*self)
    }
}

impl<R: AsOctets + Copy> Message<R> {
    ghost use Rattle.std.specs.Prelude.{◌+◌, ◌*◌, IsErr, IfOk};
    ghost use Rattle.octseq_dns_message.specs.Parsed.{header_of, counts_of, questions_of, answers_of};
    ghost use Rattle.octseq_dns_message.specs.Parsed.{authorities_of, additionals_of, message_turns};
    ghost use Rattle.octseq_dns_message.specs.Walk.{questions_left, records_left};

    /// Reads all the octets as a message. It requests no memory.
    ///
    /// # Errors
    ///
    /// `Malformed` if they aren't a message.
    ///
    /// # Examples
    ///
    /// ```
    /// // crates/octseq_examples/src/dns.rt
    /// let message = Message::parse(octets)?;
    /// let header = message.header();
    /// if !header.flags.qr || header.rcode != Rcode::NOERROR {
    ///     return Ok(None);
    /// }
    /// Ok(Some(message.header_counts().ancount))
    /// ```
    pub fn parse(octets: R) -> Result<Message<R>, Malformed>
        ensures message { IfOk result (λ message. IsMessage (R.content octets) (header_of message)
            (questions_of message) (answers_of message) (authorities_of message) (additionals_of message)) }
        ensures malformed { IsErr result → (header : Fields) (questions : List said.Question)
            (answers authorities additionals : List said.Record)
            → ¬ IsMessage (R.content octets) header questions answers authorities additionals }
    {
        Message::parse_counted(octets, &mut Turns::new())
    }

    /// Reads all the octets as [`parse`](Self::parse) does, and counts the turns that all the names take.
    ///
    /// # Errors
    ///
    /// As `parse`.
    pub fn parse_counted(octets: R, turns: &mut Turns) -> Result<Message<R>, Malformed>
        ensures message { IfOk result (λ message. IsMessage (R.content octets) (header_of message)
            (questions_of message) (answers_of message) (authorities_of message) (additionals_of message)) }
        ensures malformed { IsErr result → (header : Fields) (questions : List said.Question)
            (answers authorities additionals : List said.Record)
            → ¬ IsMessage (R.content octets) header questions answers authorities additionals }
        ensures turns { turns.new ≤ turns.old + 51 * length (R.content octets) + 255 }
        ensures some { turns.old ≤ turns.new }
        ensures entries { IfOk result (λ message. turns.new ≤ turns.old + 255 * ((counts_of message).qdcount
            + (counts_of message).ancount + (counts_of message).nscount + (counts_of message).arcount)) }
        ensures least { IfOk result (λ message. turns.old + message_turns message ≤ turns.new) }
    {
        let mut parser = Parser::from_ref(octets);
        if parser.remaining() > MESSAGE_MAX {
            return Err(Malformed);
        }
        let header = Numbers::parse(&mut parser)?;
        let questions = parser.pos() as u16;
        read_questions(&mut parser, header.counts.qdcount, turns)?;
        let answers = parser.pos() as u16;
        read_records(&mut parser, header.counts.ancount, turns)?;
        let authorities = parser.pos() as u16;
        read_records(&mut parser, header.counts.nscount, turns)?;
        let additionals = parser.pos() as u16;
        read_records(&mut parser, header.counts.arcount, turns)?;
        if parser.remaining() > 0 {
            return Err(Malformed);
        }
        Ok(Message {
            octets,
            header,
            questions,
            answers,
            authorities,
            additionals,
        })
    }

    /// Returns the header.
    pub fn header(&self) -> Header
        ensures { result ≡ header_of self.now }
    {
        self.header.header()
    }

    /// Returns the number of entries in each section, as the header counts them.
    pub fn header_counts(&self) -> HeaderCounts
        ensures counts { result ≡ counts_of self.now }
        ensures qdcount { result.qdcount ≡ length (questions_of self.now) }
        ensures ancount { result.ancount ≡ length (answers_of self.now) }
        ensures nscount { result.nscount ≡ length (authorities_of self.now) }
        ensures arcount { result.arcount ≡ length (additionals_of self.now) }
    {
        self.header.counts
    }

    /// Returns an iterator over the questions, from the first one on.
    ///
    /// # Examples
    ///
    /// ```
    /// // crates/octseq_examples/src/dns.rt
    /// let message = Message::parse(octets)?;
    /// let mut lines = String::new(alloc);
    /// for question in message.questions() {
    ///     writeln!(lines, "{} {}", question.qname(), question.qtype())?;
    /// }
    /// ```
    pub fn questions(&self) -> Questions<R>
        ensures { questions_left result ≡ questions_of self.now }
    {
        Questions::at(
            parser_at(self.octets, self.questions),
            self.header.counts.qdcount,
        )
    }

    /// Returns an iterator over the answers, from the first one on.
    ///
    /// # Examples
    ///
    /// ```
    /// // crates/octseq_examples/src/dns.rt
    /// let message = Message::parse(octets)?;
    /// let mut addresses = Vec::new(alloc);
    /// for answer in message.answers() {
    ///     if let Data::A(address) = answer.data() {
    ///         addresses.push(address)?;
    ///     }
    /// }
    /// ```
    pub fn answers(&self) -> Records<R>
        ensures { records_left result ≡ answers_of self.now }
    {
        Records::at(
            parser_at(self.octets, self.answers),
            self.header.counts.ancount,
        )
    }

    /// Returns an iterator over the authority records, from the first one on.
    pub fn authorities(&self) -> Records<R>
        ensures { records_left result ≡ authorities_of self.now }
    {
        Records::at(
            parser_at(self.octets, self.authorities),
            self.header.counts.nscount,
        )
    }

    /// Returns an iterator over the additional records, from the first one on.
    pub fn additionals(&self) -> Records<R>
        ensures { records_left result ≡ additionals_of self.now }
    {
        Records::at(
            parser_at(self.octets, self.additionals),
            self.header.counts.arcount,
        )
    }
}
