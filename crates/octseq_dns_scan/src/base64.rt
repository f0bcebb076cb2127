//! Base 64 text: RFC 4648, 4.
ghost use Rattle.std.specs.Prelude.{◌≡◌, ◌≢◌, ℕ, ◌<◌, List, [], ◌++◌, length, map, MatchOption, OnOk, OnErr};
ghost use Rattle.std.specs.Fmt.{WritesOnOk};
ghost use Rattle.octseq.proofs.WrittenBack.{AreOctets};
ghost use Rattle.octseq_dns_scan.specs.Base64.{sextets, base64_digit, base64_text, IsBase64Text};
ghost use Rattle.octseq_dns_scan.specs.Base64Place.{bits_end};
ghost use Rattle.octseq_dns_scan.specs.TextReader.{TakesOctet, Feeds};

use crate::digits::{self, DigitReader};
use octseq::{Malformed, OctetsBuilder, WriteError};
use std::fmt;

/// A reader of base 64 text that comes in runs. A group of four digits may begin in one run and end in another.
///
/// Contracts see what it has read so far: a text, and the octets that its digits make whole (`HasReadBase64`).
#[derive(Clone, Copy)]
pub struct Base64Reader {
    place: Place,
    bits: u8,
    ghost few: { bits < bits_end place },
}

/// What a group of four digits has so far.
#[derive(Clone, Copy)]
enum Place {
    /// No digit.
    Whole,
    /// One digit, whose six bits begin an octet.
    One,
    /// Two digits: an octet, and four bits of the next one.
    Two,
    /// Three digits: two octets, and two bits of the next one.
    Three,
    /// Two digits and `=`.
    Mark,
    /// All of it, with an `=` at its end, so no group follows.
    End,
}

impl Base64Reader {
    ghost use Rattle.octseq_dns_scan.specs.Base64Read.{HasReadBase64};

    /// A reader that has read no text.
    pub fn new() -> Base64Reader
        ensures { HasReadBase64 result [] [] }
    {
        Base64Reader::at(Place::Whole, 0)
    }

    /// Reads the next run, and appends the octets that it makes whole.
    ///
    /// # Errors
    ///
    /// `Malformed` if no base 64 text goes on so, `Short` if the content would exceed the limit of its type, `Memory`
    /// if a request for memory was refused. The content then may have octets of the front of the run.
    pub fn feed<B: OctetsBuilder>(
        self,
        run: &[u8],
        target: &mut B,
    ) -> Result<Base64Reader, WriteError>
        ensures { Feeds IsBase64Text HasReadBase64 B.limit B.asks result self run.now
            (B.content target.old) (B.content target.new) }
    {
        digits::feed(self, run, target)
    }

    /// Some text goes on from what was read, so each run is refused as soon as none does.
    ///
    /// It does nothing. Calling it brings the law into the caller's proof.
    pub fn has_text(self)
        ensures { (text octets : List ℕ) → HasReadBase64 self text octets → (more all : List ℕ) × AreOctets all
            × IsBase64Text (text ++ more) all }
    {}

    /// Says whether the text ends here: no group is open.
    ///
    /// # Errors
    ///
    /// `Malformed` if what was read is no base 64 text.
    pub fn finish(self) -> Result<(), Malformed>
        ensures ok { OnOk result ((text octets : List ℕ) → HasReadBase64 self text octets
            → IsBase64Text text octets) }
        ensures malformed { OnErr result ((text octets other : List ℕ) → HasReadBase64 self text octets
            → ¬ (IsBase64Text text other)) }
    {
        match self.place {
            Place::Whole | Place::End => Ok(()),
            Place::One | Place::Two | Place::Three | Place::Mark => Err(Malformed),
        }
    }

    /// A reader at a place, with the bits that are left there.
    fn at(place: Place, bits: u8) -> Base64Reader
        requires { bits < bits_end place }
        ensures place { result.place ≡ place }
        ensures bits { result.bits ≡ bits }
    {
        Base64Reader { place, bits }
    }

    /// Reads a digit, which stands for this number of six bits.
    fn take_digit(self, value: u8) -> Option<(Base64Reader, Option<u8>)>
        requires { value < 64 }
        ensures { TakesOctet IsBase64Text HasReadBase64 self (base64_digit value) result }
    {
        match self.place {
            Place::Whole => Some((Base64Reader::at(Place::One, value), None)),
            Place::One => Some((
                Base64Reader::at(Place::Two, value % 16),
                Some(self.bits * 4 + value / 16),
            )),
            Place::Two => Some((
                Base64Reader::at(Place::Three, value % 4),
                Some(self.bits * 16 + value / 4),
            )),
            Place::Three => Some((
                Base64Reader::at(Place::Whole, 0),
                Some(self.bits * 64 + value),
            )),
            Place::Mark | Place::End => None,
        }
    }

    /// Reads an `=`, which may follow two or three digits whose last bits are zero.
    fn take_mark(self) -> Option<(Base64Reader, Option<u8>)>
        ensures { TakesOctet IsBase64Text HasReadBase64 self 61 result }
    {
        if self.bits != 0 {
            return None;
        }
        match self.place {
            Place::Two => Some((Base64Reader::at(Place::Mark, 0), None)),
            Place::Three | Place::Mark => Some((Base64Reader::at(Place::End, 0), None)),
            Place::Whole | Place::One | Place::End => None,
        }
    }
}

impl DigitReader for Base64Reader {
    ghost use Rattle.octseq_dns_scan.specs.Base64Read.{HasReadBase64};

    ghost is_text = { IsBase64Text };

    ghost has_read = { HasReadBase64 };

    fn take(self, octet: u8) -> Option<(Base64Reader, Option<u8>)> {
        if octet == b'=' {
            return self.take_mark();
        }
        let value = base64_value(octet)?;
        self.take_digit(value)
    }
}

/// Returns the number of six bits that a base 64 digit stands for.
fn base64_value(octet: u8) -> Option<u8>
    ensures { MatchOption result ((value : ℕ) → value < 64 → octet ≢ base64_digit value)
        (λ value. (value < 64) × (octet ≡ base64_digit value)) }
{
    match octet {
        b'A'..=b'Z' => Some(octet - b'A'),
        b'a'..=b'z' => Some(octet - b'a' + 26),
        b'0'..=b'9' => Some(octet - b'0' + 52),
        b'+' => Some(62),
        b'/' => Some(63),
        _ => None,
    }
}

/// Writes octets in base 64, with `=` after a short last group: RFC 4648, 4.
pub fn write_base64<W: fmt::Write>(f: &mut fmt::Formatter<W>, octets: &[u8]) -> fmt::Result
    ensures { WritesOnOk W.write_str_gives f.old result (base64_text octets.now) f.new }
{
    let mut rest = octets;
    while let Some((group, more)) = rest.split_first_chunk::<3>() {
        write_base64_digits(f, &sextets(*group))?;
        rest = more;
    }
    write_base64_end(f, rest)
}

/// Writes a last group of fewer than three octets: the digits it needs, and `=` up to four.
fn write_base64_end<W: fmt::Write>(f: &mut fmt::Formatter<W>, octets: &[u8]) -> fmt::Result
    requires { length octets.now < 3 }
    ensures { WritesOnOk W.write_str_gives f.old result (base64_text octets.now) f.new }
{
    match octets {
        [a, b] => {
            write_base64_digits(f, &sextets([*a, *b, 0])[..3])?;
            f.write_str("=")
        }
        [a] => {
            write_base64_digits(f, &sextets([*a, 0, 0])[..2])?;
            f.write_str("==")
        }
        _ => Ok(()),
    }
}

/// Splits three octets into four numbers of six bits.
fn sextets(octets: [u8; 3]) -> [u8; 4]
    ensures { result ≡ sextets octets }
{
    let [a, b, c] = octets;
    [a / 4, a % 4 * 16 + b / 16, b % 16 * 4 + c / 64, c % 64]
}

/// Writes numbers of six bits as base 64 digits.
fn write_base64_digits<W: fmt::Write>(f: &mut fmt::Formatter<W>, values: &[u8]) -> fmt::Result
    ensures { WritesOnOk W.write_str_gives f.old result (map base64_digit values.now) f.new }
{
    for value in values {
        f.write_char(char::from(base64_digit(*value)))?;
    }
    Ok(())
}

/// Returns the base 64 digit of a number of six bits.
fn base64_digit(value: u8) -> u8
    ensures { result ≡ base64_digit value }
{
    match value {
        0..=25 => b'A' + value,
        26..=51 => b'a' + (value - 26),
        52..=61 => b'0' + (value - 52),
        62 => b'+',
        _ => b'/',
    }
}

/// Octets with the same base 64 text are the same octets.
///
/// It does nothing. Calling it brings the law into the caller's proof.
pub fn base64_determines_octets()
    ensures { (octets other : List ℕ) → AreOctets octets → AreOctets other
        → base64_text octets ≡ base64_text other → octets ≡ other }
{}
