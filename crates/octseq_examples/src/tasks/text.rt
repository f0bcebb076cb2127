//! Text from octets.
use octseq::{Str, StrBuilder};
use std::alloc::Global;

/// Returns the octets as text, in quotes. U+FFFD replaces what isn't UTF-8.
pub fn shown(alloc: Global, octets: &[u8]) -> anyhow::Result<StrBuilder<Vec<u8>>> {
    let mut shown = StrBuilder::new(alloc)?;
    shown.push('"')?;
    match Str::from_utf8(octets) {
        Ok(text) => shown.push_str(text.as_str())?,
        Err(_) => shown.try_push_lossy(octets)?,
    }
    shown.push('"')?;
    Ok(shown)
}
