//! Messages that are truncated, and messages with an octet changed.
use crate::append_message;
use octseq::StrBuilder;
use octseq::str::DisplayError;
use std::fmt;

/// What an octet is changed to: the length of the root, that of the longest label, the first and the last octet that
/// begin neither a label nor a pointer, the first octet of a pointer, and the highest octet.
const CHANGES: [u8; 6] = [0x00, 0x3F, 0x40, 0xBF, 0xC0, 0xFF];

/// What octets were read as: how many readings there were, how many of them were malformed, and the 64-bit FNV-1a
/// digest of all that they showed, one after another.
#[derive(Drop)]
pub(crate) struct Shown {
    count: u64,
    malformed: u64,
    digest: u64,
}

/// Prints both counts and the digest.
impl fmt::Display for Shown {
    fn fmt<W: fmt::Write>(&self, f: &mut fmt::Formatter<W>) -> fmt::Result {
        let Shown {
            count,
            malformed,
            digest,
        } = self;
        write!(f, "{count}, {malformed} malformed, {digest:016x}")
    }
}

/// Continues a digest with octets.
fn digest_on(digest: u64, octets: &[u8]) -> u64 {
    let mut digest = digest;
    for octet in octets {
        digest = (digest ^ u64::from(*octet)).wrapping_mul(0x100_0000_01b3);
    }
    digest
}

impl Shown {
    /// Returns the value before any reading.
    fn new() -> Shown {
        Shown {
            count: 0,
            malformed: 0,
            digest: 0xcbf2_9ce4_8422_2325,
        }
    }

    /// Reads octets and shows them in `text`, whose content is overwritten.
    fn read(&mut self, text: &mut StrBuilder<Vec<u8>>, octets: &[u8]) -> Result<(), DisplayError> {
        text.clear();
        let is_message = append_message(text, octets)?;
        self.count = self.count.saturating_add(1);
        if !is_message {
            self.malformed = self.malformed.saturating_add(1);
        }
        self.digest = digest_on(self.digest, text.as_slice());
        Ok(())
    }
}

/// Reads each prefix of a message except the whole.
pub(crate) fn read_cuts(
    text: &mut StrBuilder<Vec<u8>>,
    message: &[u8],
) -> Result<Shown, DisplayError> {
    let mut shown = Shown::new();
    for len in 0..message.len() {
        shown.read(text, &message[..len])?;
    }
    Ok(shown)
}

/// Reads a message with each octet changed in turn to each of `CHANGES`.
pub(crate) fn read_changes(
    text: &mut StrBuilder<Vec<u8>>,
    message: &mut [u8],
) -> Result<Shown, DisplayError> {
    let mut shown = Shown::new();
    for offset in 0..message.len() {
        for octet in CHANGES {
            let before = exchange(message, offset, octet);
            shown.read(text, message)?;
            exchange(message, offset, before);
        }
    }
    Ok(shown)
}

/// Sets the octet at an offset, and returns the one that was there.
fn exchange(octets: &mut [u8], offset: usize, octet: u8) -> u8 {
    match octets.get_mut(offset) {
        Some(found) => std::mem::replace(found, octet),
        None => octet,
    }
}
