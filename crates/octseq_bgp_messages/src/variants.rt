//! Messages that are truncated, and messages with an octet changed.
use crate::append_message;
use octseq::StrBuilder;
use octseq::str::DisplayError;
use octseq_bgp::session::SessionConfig;
use std::fmt;

/// What an octet is changed to: the least and the greatest numbers, and those on both sides of the highest bit.
const CHANGES: [u8; 5] = [0x00, 0x01, 0x7F, 0x80, 0xFF];

/// What octets were read as: how many readings there were, how many of them were malformed, and the 64-bit FNV-1a
/// digest of all that they showed, one after another.
#[derive(Drop)]
pub(crate) struct Shown {
    count: u64,
    malformed: u64,
    digest: u64,
}

/// Prints both counts and the digest.
impl fmt::Display for Shown {
    fn fmt<W: fmt::Write>(&self, f: &mut fmt::Formatter<W>) -> fmt::Result {
        let Shown {
            count,
            malformed,
            digest,
        } = self;
        write!(f, "{count}, {malformed} malformed, {digest:016x}")
    }
}

/// Continues a digest with octets.
fn digest_on(digest: u64, octets: &[u8]) -> u64 {
    let mut digest = digest;
    for octet in octets {
        digest = (digest ^ u64::from(*octet)).wrapping_mul(0x100_0000_01b3);
    }
    digest
}

impl Shown {
    /// Returns the value before any reading.
    fn new() -> Shown {
        Shown {
            count: 0,
            malformed: 0,
            digest: 0xcbf2_9ce4_8422_2325,
        }
    }

    /// Reads octets and shows them in `text`, whose content is overwritten.
    fn read(
        &mut self,
        text: &mut StrBuilder<Vec<u8>>,
        session: SessionConfig,
        octets: &[u8],
    ) -> Result<(), DisplayError> {
        text.clear();
        let is_message = append_message(text, session, octets)?;
        self.count = self.count.saturating_add(1);
        if !is_message {
            self.malformed = self.malformed.saturating_add(1);
        }
        self.digest = digest_on(self.digest, text.as_slice());
        Ok(())
    }
}

/// Reads each prefix of a message except the whole, once the length of the prefix is in its header.
pub(crate) fn read_cuts(
    text: &mut StrBuilder<Vec<u8>>,
    session: SessionConfig,
    message: &mut [u8],
) -> Result<Shown, DisplayError> {
    let mut shown = Shown::new();
    for len in 0..message.len() {
        let [.., upper, lower] = len.to_be_bytes();
        exchange(message, 16, upper);
        exchange(message, 17, lower);
        shown.read(text, session, &message[..len])?;
    }
    Ok(shown)
}

/// Reads a message with each octet changed in turn to each of `CHANGES`.
pub(crate) fn read_changes(
    text: &mut StrBuilder<Vec<u8>>,
    session: SessionConfig,
    message: &mut [u8],
) -> Result<Shown, DisplayError> {
    let mut shown = Shown::new();
    for offset in 0..message.len() {
        for octet in CHANGES {
            let before = exchange(message, offset, octet);
            shown.read(text, session, message)?;
            exchange(message, offset, before);
        }
    }
    Ok(shown)
}

/// Sets the octet at an offset, and returns the one that was there.
fn exchange(octets: &mut [u8], offset: usize, octet: u8) -> u8 {
    match octets.get_mut(offset) {
        Some(found) => std::mem::replace(found, octet),
        None => octet,
    }
}
