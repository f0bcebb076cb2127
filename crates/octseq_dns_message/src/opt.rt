//! OPT records and their options: RFC 6891, 6.1.
ghost use Rattle.std.specs.Prelude.{◌≡◌, ◌+◌, ◌*◌, ◌/◌, ◌%◌, ◌<◌, IsErr, ⊤};
ghost use Rattle.octseq.specs.Parser.{window};
ghost use Rattle.octseq_dns_message.specs.Entry.{Record as Entry};
ghost use Rattle.octseq_dns_message.specs.Flag.{flag};
ghost use Rattle.octseq_dns_message.specs.OneOption.{OptionsAhead, options_once};
ghost use Rattle.octseq_dns_message.specs.Opt as said;
ghost use Rattle.octseq_dns_message.specs.Opt.{IsOpt};

use crate::header::Header;
use crate::message::Record;
use octseq::{AsOctets, Parser};
use octseq_dns_data::Rtype;
use octseq_dns_name::Malformed;
use octseq_format::{Counted, Fields, Format, Nested, Of, Repeated, U16Be};
use std::alloc::AllocError;

mod typed;

pub use crate::opt::typed::{
    ClientSubnet, Cookie, ExtendedError, OptionData, one_reading_of_an_option,
};

/// An OPT record says at most one thing.
///
/// It does nothing. Calling it brings the law into the caller's proof.
pub fn one_opt()
    ensures { (entry : Entry) (opt other : said.Opt) → IsOpt entry opt → IsOpt entry other → opt ≡ other }
{}

/// An EDNS option: RFC 6891, 6.1.2.
#[derive(Debug)]
pub struct EdnsOption<R: AsOctets> {
    /// The code.
    pub code: u16,
    /// The octets, as a parser of the message limited to them.
    pub octets: Parser<R>,
}

impl<R: AsOctets + Copy> Copy for EdnsOption<R> {}

impl<R: AsOctets + Copy> Clone for EdnsOption<R> {
    ghost is_clone = { λ option copy. copy ≡ option };

    ghost is_infallible = { λ _. ⊤ };

    fn clone(&self) -> Result<Self, AllocError> {
        Ok(*self)
    }
}

impl<R: AsOctets + Copy> Fields<R> for EdnsOption<R> {
    type Format = (U16Be, Counted<U16Be, Nested, 0>);

    ghost fields = { λ option. (option.code, option.octets) };

    fn from_fields(parts: <Self::Format as Format<R>>::Value) -> Self {
        let (code, octets) = parts;
        EdnsOption { code, octets }
    }

    fn to_fields(&self) -> <Self::Format as Format<R>>::Value {
        (self.code, self.octets)
    }
}

/// What an OPT record says of the sender of a message: RFC 6891, 6.1.2 and 6.1.3.
#[derive(Debug)]
pub struct Opt<R: AsOctets> {
    udp_payload_size: u16,
    extended_rcode: u8,
    version: u8,
    dnssec_ok: bool,
    parser: Parser<R>,
    ghost row: { OptionsAhead (window parser) } by { options_once (window parser) },
}

impl<R: AsOctets + Copy> Copy for Opt<R> {}

impl<R: AsOctets + Copy> Clone for Opt<R> {
    ghost is_clone = { λ opt copy. copy ≡ opt };

    ghost is_infallible = { λ _. ⊤ };

    fn clone(&self) -> Result<Self, AllocError> {
        Ok(*self)
    }
}

impl<R: AsOctets + Copy> Opt<R> {
    ghost use Rattle.std.specs.Prelude.{IfOk};
    ghost use Rattle.octseq_dns_message.specs.Edns.{opt_of, options_left};
    ghost use Rattle.octseq_dns_message.specs.Said.{record_of};

    /// Reads a record of type OPT.
    ///
    /// # Errors
    ///
    /// `Malformed` if the record is of another type, or if its data isn't options one after another up to its end.
    pub fn from_record(entry: &Record<R>) -> Result<Opt<R>, Malformed>
        ensures opt { IfOk result (λ opt. IsOpt (record_of entry.now) (opt_of opt)) }
        ensures malformed { IsErr result → (opt : said.Opt) → ¬ IsOpt (record_of entry.now) opt }
    {
        if entry.rtype() != Rtype::OPT {
            return Err(Malformed);
        }
        let parser = entry.rdata();
        let mut options = parser;
        let _walk = Repeated::<Of<EdnsOption<R>>>::parse(&mut options)?;
        let bits = entry.ttl().as_secs();
        Ok(Opt {
            udp_payload_size: entry.class().to_int(),
            extended_rcode: (bits / 16777216) as u8,
            version: (bits / 65536 % 256) as u8,
            dnssec_ok: is_dnssec_ok(bits),
            parser,
        })
    }

    /// Returns the number of octets of a UDP payload that the sender takes.
    pub fn udp_payload_size(&self) -> u16
        ensures { result ≡ (opt_of self.now).udp_payload_size }
    {
        self.udp_payload_size
    }

    /// Returns the upper eight bits of a twelve-bit response code. The lower four are in the header.
    pub fn extended_rcode(&self) -> u8
        ensures { result ≡ (opt_of self.now).extended_rcode }
    {
        self.extended_rcode
    }

    /// Returns the twelve-bit response code of the message: the eight bits of this record above the four of the header.
    pub fn rcode(&self, header: Header) -> u16
        ensures rcode { result ≡ (opt_of self.now).extended_rcode * 16 + header.rcode }
        ensures most { result < 4096 }
    {
        u16::from(self.extended_rcode) * 16 + u16::from(header.rcode.to_int())
    }

    /// Returns the version of EDNS.
    pub fn version(&self) -> u8
        ensures { result ≡ (opt_of self.now).version }
    {
        self.version
    }

    /// Whether the sender takes DNSSEC records: the DO bit of RFC 3225, 3.
    pub fn dnssec_ok(&self) -> bool
        ensures { result ≡ (opt_of self.now).dnssec_ok }
    {
        self.dnssec_ok
    }

    /// Returns an iterator over the options, from the first one on.
    pub fn options(&self) -> Options<R>
        ensures { options_left result ≡ (opt_of self.now).options }
    {
        Options {
            parser: self.parser,
        }
    }
}

/// An iterator over the options of an OPT record, from the first one on.
#[derive(Debug)]
pub struct Options<R: AsOctets> {
    parser: Parser<R>,
    ghost ahead: { OptionsAhead (window parser) } by { options_once (window parser) },
}

impl<R: AsOctets + Copy> Copy for Options<R> {}

impl<R: AsOctets + Copy> Clone for Options<R> {
    ghost is_clone = { λ options copy. copy ≡ options };

    ghost is_infallible = { λ _. ⊤ };

    fn clone(&self) -> Result<Self, AllocError> {
        Ok(*self)
    }
}

impl<R: AsOctets + Copy> Iterator for Options<R> {
    ghost use Rattle.std.specs.Iterator.{YieldsFirstBy, item_count};
    ghost use Rattle.octseq_dns_message.specs.Edns.{option_of, options_left};

    type Item = EdnsOption<R>;

    ghost next_gives = { YieldsFirstBy option_of options_left };

    ghost remaining = { item_count options_left };

    fn next(&mut self) -> Option<EdnsOption<R>> {
        let mut parser = self.parser;
        if parser.remaining() == 0 {
            return None;
        }
        match Of::<EdnsOption<R>>::parse(&mut parser) {
            Ok(option) => {
                *self = Options { parser };
                Some(option)
            }
            Err(_) => unreachable!(),
        }
    }
}

/// Whether the DO bit is set.
fn is_dnssec_ok(bits: u32) -> bool
    ensures { flag result 32768 ≡ bits / 32768 % 2 * 32768 }
{
    bits / 32768 % 2 == 1
}
