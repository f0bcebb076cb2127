//! Building a message in a fixed buffer.
use octseq::Array;
use octseq::compose::{append_part_u8, append_u16_be};

/// Returns a packet of at most 16 octets. A longer one is refused.
pub fn reply(number: u16, text: &str) -> anyhow::Result<Array<16>> {
    let mut packet = Array::new();
    append_u16_be(&mut packet, number)?;
    append_part_u8(&mut packet, text.as_bytes())?;
    Ok(packet)
}
