//! Octets in hexadecimal or base 64, in runs.
ghost use Rattle.std.specs.Prelude.{◌≡◌, ℕ, ◌*◌, ◌<◌, Bool, true, List, [], ◌∷◌, ◌++◌, IsNone, IfSome, IfOk};
ghost use Rattle.std.specs.Prelude.{IsTrue, IsFalse, IsErrOf};
ghost use Rattle.octseq.proofs.WrittenBack.{AreOctets};
ghost use Rattle.octseq_dns_scan.specs.Base64.{IsBase64Text};
ghost use Rattle.octseq_dns_scan.specs.Hex.{IsHexText};
ghost use Rattle.octseq_dns_scan.specs.TextReader.{NoText, ReadsSoFar};
ghost use Rattle.octseq_dns_scan.specs.Words.{ahead_of, offset_of};
ghost use Rattle.octseq_dns_text.specs.Output.{Adds, Grows};
ghost use Rattle.octseq_dns_text.specs.Reached.{ReadsText};
ghost use Rattle.octseq_dns_text.specs.Runs.{AreRuns};
ghost use Rattle.octseq_dns_text.specs.Scans.{AreSome};

use crate::error::ScanError;
use crate::output::append;
use octseq::{Array, AsOctets, OctetsBuilder, ReadError};
use octseq_dns_scan::{Base64Reader, HexReader, Words};

/// A reader of a text that comes in runs.
pub(crate) trait RunReader: Copy {
    // The text that a reader begins is one of these octets.
    ghost is_text: { Self → List ℕ → List ℕ → Type 0 };

    // From the first reader to the second, this text was read, and these octets were made of it.
    ghost has_read: { Self → Self → List ℕ → List ℕ → Type 0 };

    /// Reads an octet of the text: the reader after it, and the octets that it makes whole.
    fn take(self, octet: u8) -> Option<(Self, Array<4>)>
        ensures some { IfSome result (λ next. (start : Self)
            → ReadsSoFar (has_read start) self next.0 (octet ∷ []) next.1.content) }
        ensures none { IsNone result → (start : Self) (text octets : List ℕ) → has_read start self text octets
            → NoText (is_text start) (text ++ octet ∷ []) };

    /// Whether the text may end here.
    fn is_whole(self) -> bool
        ensures whole { IsTrue result → (start : Self) (text octets : List ℕ) → has_read start self text octets
            → is_text start text octets }
        ensures open { IsFalse result → (start : Self) (text octets other : List ℕ)
            → has_read start self text octets → AreOctets other → ¬ (is_text start text other) };

    /// Some text goes on from what was read.
    ///
    /// It does nothing. Calling it brings the law into the caller's proof.
    fn has_text(self)
        ensures { (start : Self) (text octets : List ℕ) → has_read start self text octets
            → (more all : List ℕ) × AreOctets all × is_text start (text ++ more) all };

    // What was read is octets.
    ghost made: { (start reader : Self) (text octets : List ℕ) → has_read start reader text octets
        → AreOctets octets };
}

impl RunReader for HexReader {
    ghost use Rattle.octseq_dns_scan.specs.HexRead.{HasReadHex};

    ghost is_text = { λ _. IsHexText };

    ghost has_read = { λ _. HasReadHex };

    ghost made = { λ start reader text octets read. read.each };

    fn take(self, octet: u8) -> Option<(HexReader, Array<4>)> {
        let mut made = Array::<4>::new();
        match self.feed(&[octet], &mut made) {
            Ok(after) => Some((after, made)),
            Err(_) => None,
        }
    }

    fn is_whole(self) -> bool {
        self.finish().is_ok()
    }

    fn has_text(self) {
        HexReader::has_text(self);
    }
}

impl RunReader for Base64Reader {
    ghost use Rattle.octseq_dns_scan.specs.Base64Read.{HasReadBase64};

    ghost is_text = { λ _. IsBase64Text };

    ghost has_read = { λ _. HasReadBase64 };

    ghost made = { λ start reader text octets read. read.0 };

    fn take(self, octet: u8) -> Option<(Base64Reader, Array<4>)> {
        let mut made = Array::<4>::new();
        match self.feed(&[octet], &mut made) {
            Ok(after) => Some((after, made)),
            Err(_) => None,
        }
    }

    fn is_whole(self) -> bool {
        self.finish().is_ok()
    }

    fn has_text(self) {
        Base64Reader::has_text(self);
    }
}

/// A reader of hexadecimal of a known number of digits.
#[derive(Clone, Copy)]
pub(crate) struct SizedHexReader {
    reader: HexReader,
    digits: usize,
}

impl SizedHexReader {
    ghost use Rattle.octseq_dns_text.specs.SizedHex.{HasReadSizedHex};

    /// A reader of so many octets.
    pub(crate) fn new(octets: u16) -> SizedHexReader
        ensures digits { result.digits ≡ 2 * octets }
        ensures read { HasReadSizedHex result result [] [] }
    {
        SizedHexReader {
            reader: HexReader::new(),
            digits: 2 * usize::from(octets),
        }
    }
}

impl RunReader for SizedHexReader {
    ghost use Rattle.octseq_dns_text.specs.SizedHex.{IsSizedHexText, HasReadSizedHex};

    ghost is_text = { λ start. IsSizedHexText start.digits };

    ghost has_read = { HasReadSizedHex };

    ghost made = { λ start reader text octets read. read.read.each };

    fn take(self, octet: u8) -> Option<(SizedHexReader, Array<4>)> {
        if self.digits == 0 {
            return None;
        }
        let (reader, made) = self.reader.take(octet)?;
        let digits = self.digits - 1;
        Some((SizedHexReader { reader, digits }, made))
    }

    fn is_whole(self) -> bool {
        self.digits == 0
    }

    fn has_text(self) {}
}

/// Appends the octets of all words, which are one or more runs. If they aren't, the octets of some may be appended.
pub(crate) fn scan_some_runs<R: RunReader, B: OctetsBuilder>(
    words: Words,
    reader: R,
    target: &mut B,
) -> Result<(), ScanError>
    requires { R.has_read reader reader [] [] }
    ensures reads { ReadsText (AreSome (AreRuns (R.is_text reader))) B.limit B.asks result (ahead_of words.entry)
        (offset_of words.entry) (B.content target.old) (B.content target.new) }
    ensures grows { Grows (B.content target.old) (B.content target.new) }
    ensures borrows { B.borrows target.new ≡ B.borrows target.old }
{
    reader.has_text();
    if words.is_at_end() {
        return Err(ScanError::Malformed(words.offset()));
    }
    scan_runs(words, reader, target)
}

/// Appends the octets of all words, which are runs. If they aren't, the octets of some may be appended.
pub(crate) fn scan_runs<R: RunReader, B: OctetsBuilder>(
    words: Words,
    reader: R,
    target: &mut B,
) -> Result<(), ScanError>
    requires { R.has_read reader reader [] [] }
    ensures reads { ReadsText (AreRuns (R.is_text reader)) B.limit B.asks result (ahead_of words.entry)
        (offset_of words.entry) (B.content target.old) (B.content target.new) }
    ensures grows { Grows (B.content target.old) (B.content target.new) }
    ensures borrows { B.borrows target.new ≡ B.borrows target.old }
{
    let mut ahead = words;
    let mut after = reader;
    let mut full = false;
    'words: while let Some(word) = ahead.next_word() {
        after.has_text();
        match append_run(word.octets, after, target, full) {
            Ok(read) => {
                after = read.0;
                full = read.1;
            }
            Err(ReadError::Malformed) => return Err(ScanError::Malformed(word.offset)),
            Err(ReadError::Memory) => return Err(ScanError::Memory),
        }
    }
    after.has_text();
    if !ahead.is_at_end() {
        return Err(ScanError::Malformed(ahead.offset()));
    }
    if !after.is_whole() {
        return Err(ScanError::Malformed(ahead.offset()));
    }
    if full {
        return Err(ScanError::Short);
    }
    Ok(())
}

/// Appends the octets that a run makes whole. Returns the reader after it, and whether the content is then full.
fn append_run<R: RunReader, B: OctetsBuilder>(
    run: &[u8],
    reader: R,
    target: &mut B,
    full: bool,
) -> Result<(R, bool), ReadError>
    ensures ok { IfOk result (λ next. (more : List ℕ)
        × ((start : R) → ReadsSoFar (R.has_read start) reader next.0 run.now more)
        × Adds B.limit full (B.content target.old) next.1 (B.content target.new) more) }
    ensures malformed { IsErrOf result ReadError.Malformed → (start : R) (text octets : List ℕ)
        → R.has_read start reader text octets → NoText (R.is_text start) (text ++ run.now) }
    ensures memory { IsErrOf result ReadError.Memory → B.asks ≡ true }
    ensures grows { Grows (B.content target.old) (B.content target.new) }
    ensures borrows { B.borrows target.new ≡ B.borrows target.old }
{
    let mut after = reader;
    let mut past = full;
    for octet in run {
        let Some(taken) = after.take(*octet) else {
            return Err(ReadError::Malformed);
        };
        match append(target, taken.1.as_slice(), past) {
            Ok(now) => past = now,
            Err(_) => return Err(ReadError::Memory),
        }
        after = taken.0;
    }
    Ok((after, past))
}
