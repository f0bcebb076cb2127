//! Reading and writing a format.
use octseq::Array;
use octseq_format::{Counted, Format, Text, U8, U16Be};
use std::alloc::Global;

/// A number in two octets, followed by a text that is preceded by its length in one octet.
type Packet = (U16Be, Counted<U8, Text, 0>);

/// Reads a packet, and writes one with the next number and the same text.
pub fn next_packet(alloc: Global, octets: &[u8]) -> anyhow::Result<Array<64>> {
    let (number, text) = Packet::parse_whole(octets)?;
    Ok(Packet::compose_whole(alloc, &(number.wrapping_add(1), text))?)
}
