//! Parsing octets.
use octseq::Parser;

/// Reads the number of an account, a parser of its name, and its balance.
pub fn account() -> anyhow::Result<(u16, Parser<&'static [u8]>, i32)> {
    let mut parser = Parser::from_static(b"\x12\x34\x03abc\xFE\xFF\xFF\xFF");
    let number = parser.parse_u16_be()?; // 0x1234
    let name = parser.parse_part_u8()?; // a parser of "abc"
    let balance = parser.parse_i32_le()?; // -2
    Ok((number, name, balance))
}

/// Reads a key, and the value whose position comes before the key.
pub fn entry() -> anyhow::Result<(&'static [u8], u16)> {
    let mut parser = Parser::from_static(b"\x03ab\x01\x02");
    let value_pos = parser.parse_u8()?; // 3
    parser.seek(usize::from(value_pos))?;
    let value = parser.parse_u16_be()?; // 0x0102
    parser.seek(1)?;
    let key = parser.parse_octets(2)?; // "ab"
    Ok((key, value))
}

/// Adds the numbers of two octets. The last octet is half of one.
pub fn total() -> u32 {
    let parser = Parser::from_static(b"\x00\x01\x01\x00\x07");
    let mut total = 0;
    for chunk in parser.peek_chunks::<2>() {
        total += u32::from(u16::from_be_bytes(*chunk)); // 1 and 256
    }
    total
}

/// Reads the first two numbers of a record, and the octet after the record.
pub fn record() -> anyhow::Result<(u16, u16, u8)> {
    let mut parser = Parser::from_static(b"\x06\x00\x01\x00\x02zz\x09");
    let len = parser.parse_u8()?; // 6
    let mut record = parser.parse_parser(usize::from(len))?;
    let x = record.parse_u16_be()?; // 1
    let y = record.parse_u16_be()?; // 2, and "zz" is left
    let next = parser.parse_u8()?; // 9, the octet after the record
    Ok((x, y, next))
}
