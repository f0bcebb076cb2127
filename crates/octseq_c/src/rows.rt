//! The questions and records of a DNS message as rows of numbers.
ghost use Rattle.std.specs.Prelude.{◌≡◌, ◌≢◌, ◌↔◌, ◌⊎◌, ◌+◌, ◌≤◌, ◌++◌, ℕ, List, map, take, drop, length};
ghost use Rattle.octseq_dns.specs.Message.{IsMessage};
ghost use Rattle.octseq_dns.specs.Parsed.{header_of, questions_of, answers_of, authorities_of, additionals_of};
ghost use Rattle.octseq_dns.specs.Said.{question_of, record_of};
ghost use Rattle.octseq_dns.specs.Walk.{questions_left, records_left};
ghost use Rattle.octseq_c.specs.Puts.{Puts};
ghost use Rattle.octseq_c.specs.Rows.{AreRowsOf, IsSomeMessage, row_of_question, row_of_record, rows_of};
ghost use Rattle.octseq_c.specs.Status.{status_ok, status_no_room, status_malformed};

use crate::message::message_of;
use crate::status::{MALFORMED, NO_ROOM, OK};
use octseq_dns::message::{Questions, Records};
use octseq_dns::{Malformed, Message, Question, Record};

/// A question or a record of a message.
#[repr(C)]
#[derive(Clone, Copy)]
pub struct Row {
    /// Where the name begins, from the first octet of the message.
    pub name_at: usize,
    /// Where the data begins, or 0 for a question.
    pub data_at: usize,
    /// The number of octets of data.
    pub data_len: usize,
    /// The TTL in seconds.
    pub ttl: u32,
    /// The type.
    pub rtype: u16,
    /// The class.
    pub class: u16,
    /// The section: 0 for a question, 1 for an answer, 2 for an authority record, 3 for an additional one.
    pub section: u32,
}

/// Writes the rows of the message that the octets are to the front of `out`.
#[unsafe(no_mangle)]
pub extern "C" fn octseq_dns_rows(octets: &[u8], out: &mut [Row], count: &mut usize) -> u32
    ensures puts { Puts (AreRowsOf octets.now) result out.old out.new count.new }
    ensures malformed { (result ≡ status_malformed) ↔ ¬ IsSomeMessage octets.now }
    ensures only { (result ≡ status_ok) ⊎ (result ≡ status_no_room) ⊎ (result ≡ status_malformed) }
    ensures kept { result ≢ status_ok → out.new ≡ out.old }
{
    match message_of(octets) {
        Ok(message) => {
            *count = row_count(&message);
            if *count > out.len() {
                return NO_ROOM;
            }
            fill_rows(out, &message);
            OK
        }
        Err(Malformed) => {
            *count = 0;
            MALFORMED
        }
    }
}

/// Returns the number of rows of a message.
fn row_count(message: &Message<&[u8]>) -> usize
    ensures { result ≡ length (rows_of (questions_of message.now) (answers_of message.now)
        (authorities_of message.now) (additionals_of message.now)) }
{
    let counts = message.header_counts();
    usize::from(counts.qdcount)
        + usize::from(counts.ancount)
        + usize::from(counts.nscount)
        + usize::from(counts.arcount)
}

/// Writes the rows of a message to the front of a buffer that has room for them.
fn fill_rows(out: &mut [Row], message: &Message<&[u8]>)
    requires { length (rows_of (questions_of message.now) (answers_of message.now)
        (authorities_of message.now) (additionals_of message.now)) ≤ length out.old }
    ensures { let rows = rows_of (questions_of message.now) (answers_of message.now)
        (authorities_of message.now) (additionals_of message.now) in out.new ≡ rows ++ drop (length rows) out.old }
{
    let at = fill_questions(out, message.questions());
    let at = fill_records(out, at, 1, message.answers());
    let at = fill_records(out, at, 2, message.authorities());
    fill_records(out, at, 3, message.additionals());
}

/// Writes the rows of questions to the front. Returns the index after them.
fn fill_questions(out: &mut [Row], questions: Questions<&[u8]>) -> usize
    requires { length (questions_left questions) ≤ length out.old }
    ensures end { result ≡ length (questions_left questions.entry) }
    ensures out { out.new ≡ map row_of_question (questions_left questions.entry) ++ drop result out.old }
{
    let mut at = 0;
    for question in questions {
        out[at] = question_row(&question);
        at += 1;
    }
    at
}

/// Writes the rows of records from an index on. Returns the index after them.
fn fill_records(out: &mut [Row], from: usize, section: u32, records: Records<&[u8]>) -> usize
    requires { from + length (records_left records) ≤ length out.old }
    ensures end { result ≡ from + length (records_left records.entry) }
    ensures out { out.new ≡ take from out.old ++ (map (row_of_record section) (records_left records.entry)
        ++ drop result out.old) }
{
    let mut at = from;
    for entry in records {
        out[at] = record_row(section, &entry);
        at += 1;
    }
    at
}

/// Returns the row of a question.
fn question_row(question: &Question<&[u8]>) -> Row
    ensures { result ≡ row_of_question (question_of question.now) }
{
    Row {
        name_at: question.qname().parser().pos(),
        data_at: 0,
        data_len: 0,
        ttl: 0,
        rtype: question.qtype().to_int(),
        class: question.qclass().to_int(),
        section: 0,
    }
}

/// Returns the row of a record.
fn record_row(section: u32, entry: &Record<&[u8]>) -> Row
    ensures { result ≡ row_of_record section (record_of entry.now) }
{
    Row {
        name_at: entry.owner().parser().pos(),
        data_at: entry.rdata().pos(),
        data_len: entry.rdata().remaining(),
        ttl: entry.ttl().as_secs(),
        rtype: entry.rtype().to_int(),
        class: entry.class().to_int(),
        section,
    }
}
