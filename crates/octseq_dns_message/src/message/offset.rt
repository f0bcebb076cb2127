//! Where reading stops in octets that aren't a message.
ghost use Rattle.std.specs.Prelude.{◌≡◌, ℕ, List, IsTrue, IsFalse};
ghost use Rattle.octseq.specs.Parser.{window};
ghost use Rattle.octseq_dns_message.specs.Stop.{IsStop, QuestionsStop, RecordsStop};

use crate::header::Header;
use crate::message::{MESSAGE_MAX, Question, Record};
use octseq::Parser;

/// Octets have one offset where reading stops.
///
/// It does nothing. Calling it brings the law into the caller's proof.
pub fn one_offset_of_a_fault()
    ensures { (octets : List ℕ) (x y : ℕ) → IsStop octets x → IsStop octets y → x ≡ y }
{}

/// Returns the position of the first part that isn't there, in octets that aren't a message: the header, or a question
/// or a record that it counts. If all are there, it is the position after the last of them. Of more octets than the
/// 65,535 that a message may have (RFC 1035, 4.2.2), it is the position after those.
///
/// For a message it is the number of its octets.
pub fn fault_offset(octets: &[u8]) -> usize
    ensures { IsStop octets.now result }
{
    if octets.len() > MESSAGE_MAX {
        return MESSAGE_MAX;
    }
    let mut parser = Parser::from_static(octets);
    let Ok((_, counts)) = Header::parse(&mut parser) else {
        return 0;
    };
    let records = u32::from(counts.ancount) + u32::from(counts.nscount) + u32::from(counts.arcount);
    if skip_questions(&mut parser, counts.qdcount) {
        skip_records(&mut parser, records);
    }
    parser.pos()
}

/// Skips `count` questions, up to the first that isn't one. Returns whether all were skipped.
fn skip_questions(parser: &mut Parser<&[u8]>, count: u16) -> bool
    ensures passed { IsTrue result → (records offset : ℕ) → RecordsStop records (window parser.new) offset
        → QuestionsStop count records (window parser.old) offset }
    ensures stopped { IsFalse result → (records : ℕ)
        → QuestionsStop count records (window parser.old) (window parser.new).position }
{
    let mut left = count;
    while left > 0 {
        match Question::parse(parser) {
            Ok(_) => left -= 1,
            Err(_) => return false,
        }
    }
    true
}

/// Skips `count` records, up to the first that isn't one.
fn skip_records(parser: &mut Parser<&[u8]>, count: u32)
    ensures { RecordsStop count (window parser.old) (window parser.new).position }
{
    let mut left = count;
    while left > 0 {
        match Record::parse(parser) {
            Ok(_) => left -= 1,
            Err(_) => return,
        }
    }
}
