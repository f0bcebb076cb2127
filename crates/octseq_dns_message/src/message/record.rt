//! Records: RFC 1035, 4.1.3.
ghost use Rattle.std.specs.Prelude.{◌≡◌, ◌+◌, ◌≤◌, IsErr, IfOk, OnOk, OnErr, ⊤};
ghost use Rattle.octseq.specs.Parser.{sequence, window};
ghost use Rattle.octseq.specs.Window.{Window};
ghost use Rattle.octseq_dns_message.specs.Entry.{IsAfterOwner};
ghost use Rattle.octseq_dns_name.specs.Read.{place_of};
ghost use Rattle.octseq_format.specs.Laws.{NoneAt};

use crate::ttl::Ttl;
use octseq::builder::infallible;
use octseq::{AsOctets, Parser, Turns};
use octseq_dns_data::{Class, Data, Rtype};
use octseq_dns_name::{Malformed, ParsedName};
use std::alloc::AllocError;

/// A record of a message: its owner, type, class and TTL, and where its data is. [`data`](Self::data) reads the data.
#[derive(Debug)]
pub struct Record<R: AsOctets> {
    owner: ParsedName<R>,
    rtype: u16,
    class: u16,
    ttl: u32,
    rdata: Parser<R>,
    ghost octets: { (window rdata).octets ≡ (place_of owner).octets },
    ghost within: { (window rdata).end ≤ (place_of owner).end },
}

impl<R: AsOctets + Copy> Copy for Record<R> {}

impl<R: AsOctets + Copy> Clone for Record<R> {
    ghost is_clone = { λ entry copy. copy ≡ entry };

    ghost is_infallible = { λ _. ⊤ };

    fn clone(&self) -> Result<Self, AllocError> {
        Ok(*self)
    }
}

impl<R: AsOctets + Copy> Record<R> {
    ghost use Rattle.std.specs.Prelude.{◌≢◌, true};
    ghost use Rattle.octseq.specs.Window.{at, left};
    ghost use Rattle.octseq_dns_data.specs.Data.{is_in_message};
    ghost use Rattle.octseq_dns_data.specs.DataTurns.{rdata_turns};
    ghost use Rattle.octseq_dns_message.specs.Entry as said;
    ghost use Rattle.octseq_dns_message.specs.Entry.{IsRecord};
    ghost use Rattle.octseq_dns_message.specs.RecordData.{IsDataOf};
    ghost use Rattle.octseq_dns_name.specs.NameTurns.{CountsName};
    ghost use Rattle.octseq_dns_name.specs.Read.{name_of};
    ghost use Rattle.octseq_dns_message.specs.Said.{record_of};
    ghost use Rattle.octseq_dns_data.specs.Typed.{rdata_of, AreStringsAt};

    /// Reads the next record of a message.
    ///
    /// # Errors
    ///
    /// `Malformed` if no record comes next. The parser is then unchanged.
    #[inline(always)]
    pub fn parse(parser: &mut Parser<R>) -> Result<Record<R>, Malformed>
        ensures entry { IfOk result (λ entry.
            IsRecord (window parser.old) (record_of entry) (window parser.new)) }
        ensures malformed { IsErr result → (entry : said.Record) (v : Window)
            → ¬ IsRecord (window parser.old) entry v }
        ensures kept { OnErr result (window parser.new ≡ window parser.old) }
        ensures same { sequence parser.new ≡ sequence parser.old }
    {
        Record::parse_counted(parser, &mut Turns::new())
    }

    /// Reads the next record as [`parse`](Self::parse) does, and counts the turns that its owner takes.
    ///
    /// # Errors
    ///
    /// As `parse`.
    #[inline(always)]
    pub fn parse_counted(parser: &mut Parser<R>, turns: &mut Turns) -> Result<Record<R>, Malformed>
        ensures entry { IfOk result (λ entry.
            IsRecord (window parser.old) (record_of entry) (window parser.new)) }
        ensures malformed { IsErr result → (entry : said.Record) (v : Window)
            → ¬ IsRecord (window parser.old) entry v }
        ensures kept { OnErr result (window parser.new ≡ window parser.old) }
        ensures same { sequence parser.new ≡ sequence parser.old }
        ensures counted { OnOk result (CountsName (window parser.old) turns.old turns.new) }
        ensures turns { turns.new ≤ turns.old + 255 }
        ensures some { turns.old + 1 ≤ turns.new }
    {
        let mut ahead = *parser;
        let owner = ParsedName::parse_counted(&mut ahead, turns)?;
        let (rtype, class, ttl, rdata) = parse_after_owner(&mut ahead)?;
        *parser = ahead;
        Ok(Record {
            owner,
            rtype,
            class,
            ttl,
            rdata,
        })
    }

    /// Reads the next record of a checked message, which is known to be there. No pointer is followed.
    #[inline(always)]
    pub(crate) fn parse_known(parser: &mut Parser<R>) -> Record<R>
        requires { ∥ ((entry : said.Record) × (v : Window) × IsRecord (window parser.old) entry v) ∥₁ }
        ensures entry { ∥ IsRecord (window parser.old) (record_of result) (window parser.new) ∥₁ }
    {
        let owner = ParsedName::parse_known(parser);
        let (rtype, class, ttl, rdata) = infallible(parse_after_owner(parser));
        Record {
            owner,
            rtype,
            class,
            ttl,
            rdata,
        }
    }

    /// Returns the owner.
    pub fn owner(&self) -> ParsedName<R>
        ensures { name_of result ≡ (record_of self.now).owner }
    {
        self.owner
    }

    /// Returns the type.
    pub fn rtype(&self) -> Rtype
        ensures { result ≡ (record_of self.now).rtype }
    {
        Rtype::from_int(self.rtype)
    }

    /// Returns the class.
    pub fn class(&self) -> Class
        ensures { result ≡ (record_of self.now).class }
    {
        Class::from_int(self.class)
    }

    /// Returns the TTL.
    pub fn ttl(&self) -> Ttl
        ensures { result ≡ (record_of self.now).ttl }
    {
        Ttl::from_secs(self.ttl)
    }

    /// Returns a parser of the message limited to the data.
    pub fn rdata(&self) -> Parser<R>
        ensures place { window result ≡ (record_of self.now).rdata }
        ensures octets { (window result).octets ≡ (record_of self.now).owner.place.octets }
        ensures within { (window result).end ≤ (record_of self.now).owner.place.end }
    {
        self.rdata
    }

    /// Reads the data, by the record's type and class. Names in it are read in the message, with their pointers, and
    /// its form has to end exactly where the data does. Data that doesn't have the form of its type is unknown, and so
    /// is data of a type without a form here.
    pub fn data(&self) -> Data<R>
        ensures rdata { IsDataOf (record_of self.now) (rdata_of result) }
        ensures place { AreStringsAt (at (record_of self.now).rdata.position (record_of self.now).owner.place) result }
    {
        self.data_counted(&mut Turns::new())
    }

    /// Reads the data as [`data`](Self::data) does, and counts the turns that this takes: for each of at most two
    /// names, one for the root, each label and each pointer; and for strings, a set of types or parameters, at most one
    /// for each octet.
    pub fn data_counted(&self, turns: &mut Turns) -> Data<R>
        ensures rdata { IsDataOf (record_of self.now) (rdata_of result) }
        ensures place { AreStringsAt (at (record_of self.now).rdata.position (record_of self.now).owner.place) result }
        ensures some { turns.old ≤ turns.new }
        ensures least { turns.old + rdata_turns (rdata_of result) ≤ turns.new }
        ensures turns { turns.new ≤ turns.old + 510 + left (record_of self.now).rdata }
        ensures names { is_in_message (record_of self.now).rtype ≡ true → (record_of self.now).rtype ≢ 16
            → turns.new ≤ turns.old + 510 }
    {
        let mut message = self.owner.parser();
        infallible(message.seek(self.rdata.pos()));
        let (rtype, class) = (self.rtype(), self.class());
        match Data::parse(message, self.rdata, rtype, class, turns) {
            Ok(found) => found,
            Err(_) => Data::Unknown(rtype, self.rdata),
        }
    }
}

/// Reads what follows the owner of a record: a type, a class, a TTL, and data after its length. The three numbers are
/// read at once.
#[inline(always)]
fn parse_after_owner<R: AsOctets + Copy>(
    parser: &mut Parser<R>,
) -> Result<(u16, u16, u32, Parser<R>), Malformed>
    ensures value { IfOk result (λ found. IsAfterOwner (window parser.old)
        (found.0, (found.1, (found.2, window found.3))) (window parser.new)) }
    ensures malformed { IsErr result → NoneAt IsAfterOwner (window parser.old) }
    ensures same { sequence parser.new ≡ sequence parser.old }
{
    let numbers = parser.parse_u64_be()?;
    let rdata = parser.parse_part_u16_be()?;
    let rtype = (numbers >> 48) as u16;
    let class = ((numbers >> 32) % 65_536) as u16;
    let ttl = (numbers % 4_294_967_296) as u32;
    Ok((rtype, class, ttl, rdata))
}
