//! The header of a DNS message as numbers: RFC 1035, 4.1.1.
ghost use Rattle.std.specs.Prelude.{◌≡◌, ◌≢◌, ◌↔◌, ◌⊎◌, ◌*◌, ◌%◌, ◌/◌, ◌<◌, ◌≤◌, ℕ, Bool, length};
ghost use Rattle.octseq_dns.specs.Flag.{flag};
ghost use Rattle.octseq_dns.specs.Header.{flag_bits};
ghost use Rattle.octseq_dns.specs.Parsed.{header_of, questions_of, answers_of, authorities_of, additionals_of};
ghost use Rattle.octseq_c.specs.Rows.{HasMessageHeader, IsSomeMessage};
ghost use Rattle.octseq_c.specs.Status.{status_ok, status_malformed};

use crate::message::message_of;
use crate::status::{MALFORMED, OK};
use octseq_dns::{Flags, Header, Malformed, Message, Opcode, Rcode};

/// The header of a message.
#[repr(C)]
#[derive(Clone, Copy)]
pub struct DnsHeader {
    /// The message id.
    pub id: u16,
    /// The flags, the opcode and the response code, as they are in the octets.
    pub flags: u16,
    /// The number of questions.
    pub qdcount: u16,
    /// The number of answers.
    pub ancount: u16,
    /// The number of authority records.
    pub nscount: u16,
    /// The number of additional records.
    pub arcount: u16,
}

/// Reads the header of the message that the octets are.
#[unsafe(no_mangle)]
pub extern "C" fn octseq_dns_message_header(octets: &[u8], header: &mut DnsHeader) -> u32
    ensures ok { result ≡ status_ok → HasMessageHeader octets.now header.new }
    ensures malformed { (result ≡ status_malformed) ↔ ¬ IsSomeMessage octets.now }
    ensures only { (result ≡ status_ok) ⊎ (result ≡ status_malformed) }
    ensures kept { result ≢ status_ok → header.new ≡ header.old }
{
    match message_of(octets) {
        Ok(message) => {
            *header = header_reported(&message);
            OK
        }
        Err(Malformed) => MALFORMED,
    }
}

/// Returns the header of a message as numbers.
fn header_reported(message: &Message<&[u8]>) -> DnsHeader
    ensures id { result.id ≡ (header_of message.now).id }
    ensures flags { result.flags ≡ flag_bits (header_of message.now) }
    ensures qdcount { result.qdcount ≡ length (questions_of message.now) }
    ensures ancount { result.ancount ≡ length (answers_of message.now) }
    ensures nscount { result.nscount ≡ length (authorities_of message.now) }
    ensures arcount { result.arcount ≡ length (additionals_of message.now) }
{
    let counts = message.header_counts();
    DnsHeader {
        id: message.header().id,
        flags: bits_of(&message.header()),
        qdcount: counts.qdcount,
        ancount: counts.ancount,
        nscount: counts.nscount,
        arcount: counts.arcount,
    }
}

/// Returns `weight` if a flag is set, otherwise 0.
fn weight_of(set: bool, weight: u16) -> u16
    ensures value { result ≡ flag set weight }
    ensures most { result ≤ weight }
{
    if set { weight } else { 0 }
}

/// Returns the flags, the opcode and the response code of a header as one number.
fn bits_of(header: &Header) -> u16
    ensures { result ≡ flag_bits header.now }
{
    let flags = header.flags;
    let first = weight_of(flags.qr, 32768) + u16::from(header.opcode.to_int()) * 2048;
    let answer = weight_of(flags.aa, 1024) + weight_of(flags.tc, 512);
    let recursion = weight_of(flags.rd, 256) + weight_of(flags.ra, 128);
    let last = weight_of(flags.z, 64) + weight_of(flags.ad, 32) + weight_of(flags.cd, 16);
    first + answer + recursion + last + u16::from(header.rcode.to_int())
}

/// Whether a number is odd.
fn is_odd(bits: u16) -> bool
    ensures { (weight : ℕ) → flag result weight ≡ bits % 2 * weight }
{
    bits % 2 == 1
}

/// Makes a header of a message id, and of the number with the flags, the opcode and the response code.
pub fn header_from(id: u16, bits: u16) -> Header
    ensures id { result.id ≡ id }
    ensures bits { flag_bits result ≡ bits }
    ensures opcode { result.opcode < 16 }
    ensures rcode { result.rcode < 16 }
{
    let rcode = bits % 16;
    let cd = bits / 16;
    let ad = cd / 2;
    let z = ad / 2;
    let ra = z / 2;
    let rd = ra / 2;
    let tc = rd / 2;
    let aa = tc / 2;
    let opcode = aa / 2;
    let qr = opcode / 16;
    Header {
        id,
        flags: Flags {
            qr: is_odd(qr),
            aa: is_odd(aa),
            tc: is_odd(tc),
            rd: is_odd(rd),
            ra: is_odd(ra),
            z: is_odd(z),
            ad: is_odd(ad),
            cd: is_odd(cd),
        },
        opcode: Opcode::from_int((opcode % 16) as u8),
        rcode: Rcode::from_int(rcode as u8),
    }
}
