//! The records of a message, section after section.
ghost use Rattle.std.specs.Prelude.{◌≡◌, [], ◌∷◌, length, IfSome, IsNone, ⊤};
ghost use Rattle.octseq.specs.Parser.{window};
ghost use Rattle.octseq_dns_message.specs.Entry.{IsRecord};
ghost use Rattle.octseq_dns_message.specs.OneEntry.{records_once};
ghost use Rattle.octseq_dns_message.specs.Section.{sections_in};
ghost use Rattle.octseq_format.specs.Row.{Holds};

use crate::header::HeaderCounts;
use crate::message::{Message, Record, parser_at};
use octseq::{AsOctets, Parser};
use std::alloc::AllocError;

/// A section of records: RFC 1035, 4.1.
#[derive(Clone, Copy, Debug, PartialEq, Eq, Hash)]
pub enum Section {
    /// The records that answer the question.
    Answer,
    /// The records that name an authority.
    Authority,
    /// The records that may be of use beside the answers.
    Additional,
}

/// An iterator over the records of a message, from the first answer to the last additional record, each with its
/// section.
#[derive(Debug)]
pub struct AllRecords<R: AsOctets> {
    parser: Parser<R>,
    left: HeaderCounts,
    ghost ahead: { Holds IsRecord (window parser) (length (sections_in left)) } by { records_once _ _ },
}

impl<R: AsOctets + Copy> Copy for AllRecords<R> {}

impl<R: AsOctets + Copy> Clone for AllRecords<R> {
    ghost is_clone = { λ walk copy. copy ≡ walk };

    ghost is_infallible = { λ _. ⊤ };

    fn clone(&self) -> Result<Self, AllocError> {
        Ok(*self)
    }
}

impl<R: AsOctets + Copy> Message<R> {
    ghost use Rattle.octseq_dns_message.specs.Listed.{listed_left, records_ahead};
    ghost use Rattle.octseq_dns_message.specs.Parsed.{answers_of, authorities_of, additionals_of, records_of};
    ghost use Rattle.octseq_dns_message.specs.Section.{in_sections};

    /// Returns an iterator over the records of all three sections, each with its section: the answers from the first
    /// one on, then the authority records, then the additional ones.
    pub fn records(&self) -> AllRecords<R>
        ensures sections { listed_left result
            ≡ in_sections (answers_of self.now) (authorities_of self.now) (additionals_of self.now) }
        ensures records { records_ahead result ≡ records_of self.now }
    {
        let parser = parser_at(self.octets, self.answers);
        let left = self.header.counts;
        AllRecords { parser, left }
    }
}

/// Returns the section of the first record that is left, and how many are left after it.
fn first_section(left: HeaderCounts) -> Option<(Section, HeaderCounts)>
    ensures some { IfSome result (λ first. sections_in left ≡ first.0 ∷ sections_in first.1) }
    ensures none { IsNone result → sections_in left ≡ [] }
{
    if left.ancount > 0 {
        let ancount = left.ancount - 1;
        return Some((Section::Answer, HeaderCounts { ancount, ..left }));
    }
    if left.nscount > 0 {
        let nscount = left.nscount - 1;
        return Some((Section::Authority, HeaderCounts { nscount, ..left }));
    }
    if left.arcount > 0 {
        let arcount = left.arcount - 1;
        return Some((Section::Additional, HeaderCounts { arcount, ..left }));
    }
    None
}

impl<R: AsOctets + Copy> Iterator for AllRecords<R> {
    ghost use Rattle.std.specs.Iterator.{YieldsFirstBy, item_count};
    ghost use Rattle.octseq_dns_message.specs.Listed.{listed_left, listed_of};

    type Item = (Record<R>, Section);

    ghost next_gives = { YieldsFirstBy listed_of listed_left };

    ghost remaining = { item_count listed_left };

    #[inline(always)]
    fn next(&mut self) -> Option<(Record<R>, Section)> {
        let Some(first) = first_section(self.left) else {
            return None;
        };
        let (section, left) = first;
        let mut parser = self.parser;
        let entry = Record::parse_known(&mut parser);
        *self = AllRecords { parser, left };
        Some((entry, section))
    }
}
