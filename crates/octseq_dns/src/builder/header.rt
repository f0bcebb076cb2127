//! The octets of a header: RFC 1035, 4.1.1.
ghost use Rattle.std.specs.Prelude.{◌≡◌, ◌<◌, ◌≤◌};
ghost use Rattle.octseq_dns_message.specs.Flag.{flag};
ghost use Rattle.octseq_dns_message.specs.Header.{flag_bits};
ghost use Rattle.octseq_dns.specs.Contents.{FitsHeader, header_octets};

use octseq_dns_message::{Header, HeaderCounts};

/// Returns the weight of a flag if it is set, otherwise 0.
fn weight_of(set: bool, weight: u16) -> u16
    ensures value { result ≡ flag set weight }
    ensures most { result ≤ weight }
{
    if set { weight } else { 0 }
}

/// Returns the second number of a header: its flags, its opcode and its response code.
fn bits_of(header: &Header) -> u16
    ensures bits { result ≡ flag_bits header.now }
    ensures opcode { header.now.opcode < 16 }
    ensures rcode { header.now.rcode < 16 }
{
    let flags = header.flags;
    let first = weight_of(flags.qr, 32768) + u16::from(header.opcode.to_int()) * 2048;
    let answer = weight_of(flags.aa, 1024) + weight_of(flags.tc, 512);
    let recursion = weight_of(flags.rd, 256) + weight_of(flags.ra, 128);
    let last = weight_of(flags.z, 64) + weight_of(flags.ad, 32) + weight_of(flags.cd, 16);
    first + answer + recursion + last + u16::from(header.rcode.to_int())
}

/// Returns the octets of a header.
#[tactic(auto, using(octseq::proofs::Written::written_2))]
pub(super) fn octets_of(header: &Header, counts: &HeaderCounts) -> [u8; 12]
    ensures octets { result ≡ header_octets header.now counts.now }
    ensures fits { FitsHeader header.now }
{
    let id = header.id.to_be_bytes();
    let bits = bits_of(header).to_be_bytes();
    let qdcount = counts.qdcount.to_be_bytes();
    let ancount = counts.ancount.to_be_bytes();
    let nscount = counts.nscount.to_be_bytes();
    let arcount = counts.arcount.to_be_bytes();
    [
        id[0], id[1], bits[0], bits[1], qdcount[0], qdcount[1], ancount[0], ancount[1], nscount[0],
        nscount[1], arcount[0], arcount[1],
    ]
}
