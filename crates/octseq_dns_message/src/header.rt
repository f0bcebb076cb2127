//! The header of a message: RFC 1035, 4.1.1.
ghost use Rattle.std.specs.Prelude.{◌≡◌, ◌*◌, ◌/◌, ◌%◌, ◌<◌, IsErr, IfOk, OnErr};
ghost use Rattle.octseq.specs.Parser.{sequence, window};
ghost use Rattle.octseq.specs.Window.{Window};
ghost use Rattle.octseq_dns_message.specs.Flag.{is_set, flags_in};

use octseq::{AsOctets, Parser};
use octseq_dns_data::{Opcode, Rcode};
use octseq_dns_name::Malformed;

/// The bits of a header that have names of their own.
#[derive(Clone, Copy, Debug, Default, PartialEq, Eq, Hash)]
pub struct Flags {
    /// The message is a response.
    pub qr: bool,
    /// The answer is authoritative.
    pub aa: bool,
    /// The message is truncated.
    pub tc: bool,
    /// Recursion is desired.
    pub rd: bool,
    /// Recursion is available.
    pub ra: bool,
    /// The reserved bit, which is kept.
    pub z: bool,
    /// The data is authentic: RFC 4035, 3.1.6.
    pub ad: bool,
    /// Checking is disabled: RFC 4035, 3.2.2.
    pub cd: bool,
}

/// The header of a message, without its counts, which [`HeaderCounts`] has.
#[derive(Clone, Copy, Debug, PartialEq, Eq, Hash)]
pub struct Header {
    /// The identifier of the message.
    pub id: u16,
    /// The flags.
    pub flags: Flags,
    /// The kind of query.
    pub opcode: Opcode,
    /// The response code.
    pub rcode: Rcode,
}

/// The number of entries in each section of a message, as its header counts them.
#[derive(Clone, Copy, Debug, PartialEq, Eq, Hash)]
pub struct HeaderCounts {
    /// The number of questions.
    pub qdcount: u16,
    /// The number of answers.
    pub ancount: u16,
    /// The number of authority records.
    pub nscount: u16,
    /// The number of additional records.
    pub arcount: u16,
}

/// Whether the bit of this weight is set.
fn is_set(bits: u16, weight: u16) -> bool
    requires { 0 < weight }
    ensures { result ≡ is_set bits weight }
{
    bits / weight % 2 == 1
}

impl Flags {
    /// Returns the flags in the second number of a header.
    fn from_bits(bits: u16) -> Self
        ensures { result ≡ flags_in bits }
    {
        Flags {
            qr: is_set(bits, 32768),
            aa: is_set(bits, 1024),
            tc: is_set(bits, 512),
            rd: is_set(bits, 256),
            ra: is_set(bits, 128),
            z: is_set(bits, 64),
            ad: is_set(bits, 32),
            cd: is_set(bits, 16),
        }
    }
}

/// Returns the opcode in the second number of a header.
fn opcode_in(bits: u16) -> Opcode
    ensures { result ≡ bits / 2048 % 16 }
{
    Opcode::from_int((bits / 2048 % 16) as u8)
}

/// Returns the response code in the second number of a header.
fn rcode_in(bits: u16) -> Rcode
    ensures { result ≡ bits % 16 }
{
    Rcode::from_int((bits % 16) as u8)
}

/// The numbers of a header as they are in a message. What they say is decoded when it is needed.
#[derive(Clone, Copy, Debug)]
pub(crate) struct Numbers {
    id: u16,
    bits: u16,
    pub(crate) counts: HeaderCounts,
}

impl Numbers {
    ghost use Rattle.octseq_dns_message.specs.Header.{IsHeader};
    ghost use Rattle.octseq_dns_message.specs.Parsed.{fields_of};

    /// Reads the numbers of a header: 12 octets.
    pub(crate) fn parse<R: AsOctets + Copy>(parser: &mut Parser<R>) -> Result<Numbers, Malformed>
        ensures header { IfOk result (λ numbers.
            IsHeader (window parser.old) (fields_of numbers) numbers.counts (window parser.new)) }
        ensures malformed { IsErr result → (header : Header) (counts : HeaderCounts) (v : Window)
            → ¬ IsHeader (window parser.old) header counts v }
        ensures kept { OnErr result (window parser.new ≡ window parser.old) }
        ensures same { sequence parser.new ≡ sequence parser.old }
    {
        let mut ahead = *parser;
        let id = ahead.parse_u16_be()?;
        let bits = ahead.parse_u16_be()?;
        let qdcount = ahead.parse_u16_be()?;
        let ancount = ahead.parse_u16_be()?;
        let nscount = ahead.parse_u16_be()?;
        let arcount = ahead.parse_u16_be()?;
        *parser = ahead;
        let counts = HeaderCounts {
            qdcount,
            ancount,
            nscount,
            arcount,
        };
        Ok(Numbers { id, bits, counts })
    }

    /// Returns the header with these numbers.
    pub(crate) fn header(self) -> Header
        ensures { result ≡ fields_of self }
    {
        Header {
            id: self.id,
            flags: Flags::from_bits(self.bits),
            opcode: opcode_in(self.bits),
            rcode: rcode_in(self.bits),
        }
    }
}

impl Header {
    ghost use Rattle.octseq_dns_message.specs.Header.{IsHeader};

    /// Reads the header of a message, with its counts: 12 octets.
    ///
    /// # Errors
    ///
    /// `Malformed` if fewer octets are left. The parser is then unchanged.
    pub fn parse<R: AsOctets + Copy>(
        parser: &mut Parser<R>,
    ) -> Result<(Header, HeaderCounts), Malformed>
        ensures header { IfOk result (λ found. IsHeader (window parser.old) found.0 found.1 (window parser.new)) }
        ensures malformed { IsErr result → (header : Header) (counts : HeaderCounts) (v : Window)
            → ¬ IsHeader (window parser.old) header counts v }
        ensures kept { OnErr result (window parser.new ≡ window parser.old) }
        ensures same { sequence parser.new ≡ sequence parser.old }
    {
        let numbers = Numbers::parse(parser)?;
        Ok((numbers.header(), numbers.counts))
    }
}
