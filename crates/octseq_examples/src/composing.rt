//! Composing integers and parts.
use octseq::Array;
use octseq::compose::{append_i32_le, append_part_u8, append_u16_be};

/// Returns an account: its number, its name, preceded by its length, and its balance.
pub fn account() -> anyhow::Result<Array<16>> {
    let mut account = Array::<16>::new();
    append_u16_be(&mut account, 0x1234)?;
    append_part_u8(&mut account, b"abc")?; // the octet 3, and "abc"
    append_i32_le(&mut account, -2)?;
    Ok(account)
}
