//! Records: RFC 6396.
ghost use Rattle.std.specs.Prelude.{◌≡◌, ◌+◌, ◌≤◌, ◌<◌, ℕ, List, IsErr, IfOk, IfSome, IfNone, OnErr, ⊤};
ghost use Rattle.octseq.specs.Parser.{window, sequence};
ghost use Rattle.octseq.specs.Window.{Window, left};
ghost use Rattle.octseq_format.specs.Laws.{NoneAt};
ghost use Rattle.octseq_mrt.specs.Header.{IsRecord};
ghost use Rattle.octseq_mrt.specs.ReadTurns.{record_turns};
ghost use Rattle.octseq_mrt.specs.Record as said;
ghost use Rattle.octseq_mrt.specs.Record.{AreRecord, HasForm, IsTyped, IsValue};
ghost use Rattle.octseq_mrt.specs.declared.header.CommonHeader.{CommonHeader as Header};

use crate::bgp4mp::Bgp4Mp;
use crate::header::CommonHeader;
use crate::kind::RecordKind;
use crate::peer::PeerIndexTable;
use crate::rib::Rib;
use octseq::{AsOctets, Malformed, Parser, ShortInput, Turns};
use std::alloc::AllocError;

/// Octets are a record in at most one way.
///
/// It does nothing. Calling it brings the law into the caller's proof.
#[tactic(auto, using(crate::proofs::OneRecord::one_record))]
pub fn one_record()
    ensures { (octets : List ℕ) (a b : Header × Window) → AreRecord octets a → AreRecord octets b → a ≡ b }
{}

/// A record has at most one value.
///
/// It does nothing. Calling it brings the law into the caller's proof.
pub fn one_record_value()
    ensures { (header : Header) (w : Window) (a b : said.Value) → IsValue header w a → IsValue header w b → a ≡ b }
{}

/// A record, where it was read.
#[derive(Debug)]
pub struct Record<R: AsOctets> {
    /// The header.
    pub header: CommonHeader,
    /// The octets after the header, as a parser.
    pub octets: Parser<R>,
}

impl<R: AsOctets + Copy> Copy for Record<R> {}

impl<R: AsOctets + Copy> Clone for Record<R> {
    ghost is_clone = { λ it copy. copy ≡ it };

    ghost is_infallible = { λ _. ⊤ };

    fn clone(&self) -> Result<Self, AllocError> {
        Ok(*self)
    }
}

/// The value of a record.
#[derive(Debug)]
pub enum RecordValue<R: AsOctets> {
    /// PEER_INDEX_TABLE.
    PeerIndexTable(PeerIndexTable<R>),
    /// A RIB.
    Rib(Rib<R>),
    /// BGP4MP or BGP4MP_ET.
    Bgp4Mp(Bgp4Mp<R>),
    /// Octets without the form of their type and subtype, as a parser.
    Opaque(Parser<R>),
}

impl<R: AsOctets + Copy> Copy for RecordValue<R> {}

impl<R: AsOctets + Copy> Clone for RecordValue<R> {
    ghost is_clone = { λ value copy. copy ≡ value };

    ghost is_infallible = { λ _. ⊤ };

    fn clone(&self) -> Result<Self, AllocError> {
        Ok(*self)
    }
}

impl<R: AsOctets + Copy> RecordValue<R> {
    ghost use Rattle.octseq_mrt.specs.Parsed.{value_of};

    /// Reads all that a parser has left as the value of a kind.
    fn parse_counted(
        parser: Parser<R>,
        kind: RecordKind,
        turns: &mut Turns,
    ) -> Result<RecordValue<R>, Malformed>
        ensures value { IfOk result (λ value. HasForm kind (window parser) (value_of value)) }
        ensures malformed { IsErr result → (value : said.Value) → ¬ HasForm kind (window parser) value }
        ensures some { turns.old ≤ turns.new }
        ensures least { IfOk result (λ value. turns.old + record_turns (value_of value) ≤ turns.new) }
        ensures turns { turns.new ≤ turns.old + left (window parser) }
    {
        Ok(match kind {
            RecordKind::PeerIndexTable => {
                RecordValue::PeerIndexTable(PeerIndexTable::parse_counted(parser, turns)?)
            }
            RecordKind::Rib(family, paths) => {
                RecordValue::Rib(Rib::parse_counted(parser, family, paths, turns)?)
            }
            RecordKind::Bgp4Mp(subtype) => {
                RecordValue::Bgp4Mp(Bgp4Mp::parse(parser, false, subtype)?)
            }
            RecordKind::Bgp4MpEt(subtype) => {
                RecordValue::Bgp4Mp(Bgp4Mp::parse(parser, true, subtype)?)
            }
        })
    }
}

impl<R: AsOctets + Copy> Record<R> {
    ghost use Rattle.octseq_mrt.specs.Parsed.{record_of, value_of};

    /// Reads the next record.
    fn take(parser: &mut Parser<R>) -> Result<Record<R>, Malformed>
        ensures record { IfOk result (λ it. IsRecord (window parser.old) (record_of it) (window parser.new)) }
        ensures malformed { IsErr result → NoneAt IsRecord (window parser.old) }
    {
        let header = CommonHeader::parse(parser)?;
        let octets = parser.parse_parser(header.length as usize)?;
        Ok(Record { header, octets })
    }

    /// Reads all the octets as a record. It requests no memory.
    ///
    /// # Errors
    ///
    /// `Malformed` if they aren't one: a header, and exactly as many octets as its length says.
    pub fn parse(octets: R) -> Result<Record<R>, Malformed>
        ensures record { IfOk result (λ it. AreRecord (R.content octets) (record_of it)) }
        ensures malformed { IsErr result → (it : Header × Window) → ¬ AreRecord (R.content octets) it }
    {
        let mut parser = Parser::from_ref(octets);
        let record = Record::take(&mut parser)?;
        if parser.remaining() > 0 {
            return Err(Malformed);
        }
        Ok(record)
    }

    /// Reads the octets as a value of the record's type and subtype.
    fn typed(&self, turns: &mut Turns) -> Result<RecordValue<R>, Malformed>
        ensures value { IfOk result (λ value.
            IsTyped self.now.header (window self.now.octets) (value_of value)) }
        ensures malformed { IsErr result → (value : said.Value)
            → ¬ IsTyped self.now.header (window self.now.octets) value }
        ensures some { turns.old ≤ turns.new }
        ensures least { IfOk result (λ value. turns.old + record_turns (value_of value) ≤ turns.new) }
        ensures turns { turns.new ≤ turns.old + left (window self.now.octets) }
    {
        let Some(kind) = RecordKind::from_numbers(self.header.type_code, self.header.subtype) else {
            return Err(Malformed);
        };
        RecordValue::parse_counted(self.octets, kind, turns)
    }

    /// Returns the value by its type and subtype, or else opaque octets. It requests no memory.
    pub fn value(&self) -> RecordValue<R>
        ensures { IsValue self.now.header (window self.now.octets) (value_of result) }
    {
        self.value_counted(&mut Turns::new())
    }

    /// Does the same, and counts the loop turns: one for each peer, entry and attribute, at most one for each octet
    /// after the header.
    pub fn value_counted(&self, turns: &mut Turns) -> RecordValue<R>
        ensures value { IsValue self.now.header (window self.now.octets) (value_of result) }
        ensures some { turns.old ≤ turns.new }
        ensures least { turns.old + record_turns (value_of result) ≤ turns.new }
        ensures turns { turns.new ≤ turns.old + left (window self.now.octets) }
    {
        match self.typed(turns) {
            Ok(value) => value,
            Err(_) => RecordValue::Opaque(self.octets),
        }
    }
}

ghost use Rattle.octseq_mrt.specs.Parsed.{record_of};

/// Reads the next record of a file. Returns `None` at the end.
///
/// # Errors
///
/// `ShortInput` if the octets end inside a record. The parser is then unchanged.
pub fn next_record<R: AsOctets + Copy>(
    parser: &mut Parser<R>,
) -> Result<Option<Record<R>>, ShortInput>
    ensures record { IfOk result (λ it. IfSome it (λ found.
        IsRecord (window parser.old) (record_of found) (window parser.new))) }
    ensures end { IfOk result (λ it. IfNone it ((left (window parser.old) ≡ 0)
        × (window parser.new ≡ window parser.old))) }
    ensures cut { OnErr result ((0 < left (window parser.old)) × NoneAt IsRecord (window parser.old)) }
    ensures kept { OnErr result (window parser.new ≡ window parser.old) }
{
    if parser.remaining() == 0 {
        return Ok(None);
    }
    let mut ahead = *parser;
    match Record::take(&mut ahead) {
        Ok(record) => {
            *parser = ahead;
            Ok(Some(record))
        }
        Err(_) => Err(ShortInput),
    }
}
