//! Text from octets, whole or in pieces.
use octseq::str::{Counter, LossyPieces};
use octseq::utf8::{FaultPieces, Utf8Fault, chunks};
use octseq::{Array, StrBuilder};
use std::alloc::Global;
use std::fmt::Write;

/// Returns the text of octets, with a question mark for each part that isn't UTF-8.
pub fn marked(alloc: Global, octets: &[u8]) -> anyhow::Result<String> {
    let mut text = String::new(alloc);
    for chunk in chunks(octets) {
        text.push_str(chunk.valid())?;
        if !chunk.invalid().is_empty() {
            text.push('?')?;
        }
    }
    Ok(text)
}

/// Returns the first fault of octets that come in two pieces.
pub fn first_fault() -> Option<Utf8Fault> {
    let mut search = FaultPieces::new();
    search.feed(b"caf\xC3"); // ends with the first octet of "é"
    search.feed(b"\xA9 \xFF"); // begins with the second one
    search.finish() // a fault at index 6
}

/// Returns the number of octets of an address when it is printed.
pub fn printed_len(host: &str, port: u16) -> anyhow::Result<usize> {
    let mut counter = Counter { count: 0 };
    write!(counter, "{host}:{port}")?;
    Ok(counter.count)
}

/// Returns a text that grows.
pub fn coffee(alloc: Global) -> anyhow::Result<StrBuilder<Vec<u8>>> {
    let mut text = StrBuilder::<Vec<u8>>::new(alloc)?;
    text.push_str("caf")?;
    text.push('é')?; // "café"
    Ok(text)
}

/// Returns a text that begins with octets, which are UTF-8.
pub fn priced(alloc: Global) -> anyhow::Result<StrBuilder<Vec<u8>>> {
    let octets = b"caf\xC3\xA9".to_vec(alloc)?;
    let mut text = StrBuilder::from_utf8(octets)?;
    text.push_str(" 5€")?; // "café 5€"
    Ok(text)
}

/// Returns a text of at most four octets.
pub fn short(alloc: Global) -> anyhow::Result<StrBuilder<Array<4>>> {
    let mut text = StrBuilder::<Array<4>>::new(alloc)?;
    text.try_push_str("abc")?;
    if text.try_push('€').is_err() {
        text.try_push('?')?; // one octet was left, and "€" has three
    }
    Ok(text)
}

/// Returns a text of octets that are UTF-8 only in part.
pub fn repaired(alloc: Global) -> anyhow::Result<StrBuilder<Vec<u8>>> {
    let octets = b"caf\xE9".to_vec(alloc)?; // "café" in Latin-1
    let mut text = StrBuilder::try_from_utf8_lossy(alloc, octets)?;
    text.try_push_str(" au lait")?; // "caf\u{FFFD} au lait"
    Ok(text)
}

/// Returns a text of octets that come in two pieces.
pub fn price_in_pieces(alloc: Global) -> anyhow::Result<StrBuilder<Vec<u8>>> {
    let mut pieces = LossyPieces::<Vec<u8>>::new(alloc)?;
    pieces.feed(b"5 \xE2\x82")?; // ends with two of the three octets of "€"
    pieces.feed(b"\xAC \xFF")?; // begins with the third one
    let text = pieces.finish()?; // "5 € \u{FFFD}"
    Ok(text)
}

/// Returns the text of octets that come in pieces, in at most 16 octets.
pub fn received_text(alloc: Global, received: &[&[u8]]) -> anyhow::Result<StrBuilder<Array<16>>> {
    let mut pieces = LossyPieces::new(alloc)?;
    for piece in received {
        pieces.feed(piece)?;
    }
    Ok(pieces.finish()?)
}
