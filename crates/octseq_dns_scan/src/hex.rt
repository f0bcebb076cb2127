//! Hexadecimal text, in letters of either case: RFC 4648, 8.
ghost use Rattle.std.specs.Prelude.{◌≡◌, ◌≢◌, ℕ, ◌<◌, List, [], ◌++◌, MatchOption, OnOk, OnErr, unwrap_or};
ghost use Rattle.std.specs.Char.{digit_char, to_ascii_lowercase};
ghost use Rattle.std.specs.List.{flat_map};
ghost use Rattle.octseq.proofs.WrittenBack.{AreOctets};
ghost use Rattle.octseq.specs.OctetsText.{hex_text};
ghost use Rattle.octseq_dns_scan.specs.Hex.{IsHexText};
ghost use Rattle.octseq_dns_scan.specs.TextReader.{Feeds};

use crate::digits::{self, DigitReader};
use octseq::{Malformed, OctetsBuilder, WriteError};

/// A reader of hexadecimal text that comes in runs. A pair of digits may begin in one run and end in the next.
///
/// Contracts see what it has read so far: a text, and the octets of its whole pairs (`HasReadHex`).
#[derive(Clone, Copy)]
pub struct HexReader {
    high: Option<u8>,
    ghost small: { unwrap_or high 0 < 16 },
}

impl HexReader {
    ghost use Rattle.octseq_dns_scan.specs.HexRead.{HasReadHex};

    /// A reader that has read no text.
    pub fn new() -> HexReader
        ensures { HasReadHex result [] [] }
    {
        HexReader { high: None }
    }

    /// Reads the next run, and appends the octets of its pairs.
    ///
    /// # Errors
    ///
    /// `Malformed` if no hexadecimal text goes on so, `Short` if the content would exceed the limit of its type,
    /// `Memory` if a request for memory was refused. The content then may have octets of the front of the run.
    pub fn feed<B: OctetsBuilder>(self, run: &[u8], target: &mut B) -> Result<HexReader, WriteError>
        ensures { Feeds IsHexText HasReadHex B.limit B.asks result self run.now
            (B.content target.old) (B.content target.new) }
    {
        digits::feed(self, run, target)
    }

    /// Some text goes on from what was read, so each run is refused as soon as none does.
    ///
    /// It does nothing. Calling it brings the law into the caller's proof.
    pub fn has_text(self)
        ensures { (text octets : List ℕ) → HasReadHex self text octets → (more all : List ℕ) × AreOctets all
            × IsHexText (text ++ more) all }
    {}

    /// Says whether the text ends here: no pair of digits is open.
    ///
    /// # Errors
    ///
    /// `Malformed` if what was read is no hexadecimal text of whole octets.
    pub fn finish(self) -> Result<(), Malformed>
        ensures ok { OnOk result ((text octets : List ℕ) → HasReadHex self text octets → IsHexText text octets) }
        ensures malformed { OnErr result ((text octets other : List ℕ) → HasReadHex self text octets
            → AreOctets other → ¬ (IsHexText text other)) }
    {
        match self.high {
            None => Ok(()),
            Some(_) => Err(Malformed),
        }
    }
}

impl DigitReader for HexReader {
    ghost use Rattle.octseq_dns_scan.specs.HexRead.{HasReadHex};

    ghost is_text = { IsHexText };

    ghost has_read = { HasReadHex };

    fn take(self, octet: u8) -> Option<(HexReader, Option<u8>)> {
        let digit = digit_value(octet)?;
        Some(match self.high {
            None => (HexReader { high: Some(digit) }, None),
            Some(high) => (HexReader { high: None }, Some(high * 16 + digit)),
        })
    }
}

/// Returns the number that a hexadecimal digit of either case stands for.
fn digit_value(octet: u8) -> Option<u8>
    ensures { MatchOption result ((digit : ℕ) → digit < 16 → to_ascii_lowercase octet ≢ digit_char digit)
        (λ digit. (digit < 16) × (to_ascii_lowercase octet ≡ digit_char digit)) }
{
    match octet {
        b'0'..=b'9' => Some(octet - b'0'),
        b'A'..=b'F' => Some(octet - b'A' + 10),
        b'a'..=b'f' => Some(octet - b'a' + 10),
        _ => None,
    }
}

/// Octets with the same hexadecimal text are the same octets.
///
/// It does nothing. Calling it brings the law into the caller's proof.
pub fn hex_determines_octets()
    ensures { (octets other text : List ℕ) → AreOctets octets → AreOctets other
        → IsHexText text octets → IsHexText text other → octets ≡ other }
{}

/// The text that is written of octets is read back as these octets.
///
/// It does nothing. Calling it brings the law into the caller's proof.
pub fn hex_text_is_read()
    ensures { (octets : List ℕ) → AreOctets octets → IsHexText (flat_map hex_text octets) octets }
{}
