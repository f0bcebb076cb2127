//! Base 32 text with the digits `0` to `9` and `a` to `v`: RFC 4648, 7.
ghost use Rattle.std.specs.Prelude.{◌≡◌, ◌≢◌, ℕ, ◌<◌, List, [], ◌++◌, length, map, All, MatchOption, OnOk, OnErr};
ghost use Rattle.std.specs.Fmt.{WritesOnOk};
ghost use Rattle.std.specs.Char.{digit_char, to_ascii_lowercase};
ghost use Rattle.octseq.proofs.WrittenBack.{AreOctets};
ghost use Rattle.octseq_dns_scan.specs.Base32hex.{quintets, base32hex_text, IsBase32hexText};
ghost use Rattle.octseq_dns_scan.specs.Base32hexPlace.{bits_end};
ghost use Rattle.octseq_dns_scan.specs.TextReader.{Feeds};

use crate::digits::{self, DigitReader};
use octseq::{Malformed, OctetsBuilder, WriteError};
use std::fmt;

/// A reader of base 32 text without padding, in letters of either case, that comes in runs.
///
/// Contracts see what it has read so far: a text, and the octets that its digits make whole (`HasReadBase32hex`).
#[derive(Clone, Copy)]
pub struct Base32hexReader {
    place: Place,
    bits: u8,
    ghost few: { bits < bits_end place },
}

/// How many digits a group of eight has so far. Those bits of them that make no whole octet are left.
#[derive(Clone, Copy)]
enum Place {
    /// None.
    Whole,
    /// One, and five bits are left.
    One,
    /// Two, and two bits are left.
    Two,
    /// Three, and seven bits are left.
    Three,
    /// Four, and four bits are left.
    Four,
    /// Five, and one bit is left.
    Five,
    /// Six, and six bits are left.
    Six,
    /// Seven, and three bits are left.
    Seven,
}

impl Base32hexReader {
    ghost use Rattle.octseq_dns_scan.specs.Base32hexRead.{HasReadBase32hex};

    /// A reader that has read no text.
    pub fn new() -> Base32hexReader
        ensures { HasReadBase32hex result [] [] }
    {
        Base32hexReader::at(Place::Whole, 0)
    }

    /// Reads the next run, and appends the octets that it makes whole.
    ///
    /// # Errors
    ///
    /// `Malformed` if no base 32 text goes on so, `Short` if the content would exceed the limit of its type, `Memory`
    /// if a request for memory was refused. The content then may have octets of the front of the run.
    pub fn feed<B: OctetsBuilder>(
        self,
        run: &[u8],
        target: &mut B,
    ) -> Result<Base32hexReader, WriteError>
        ensures { Feeds IsBase32hexText HasReadBase32hex B.limit B.asks result self run.now
            (B.content target.old) (B.content target.new) }
    {
        digits::feed(self, run, target)
    }

    /// Some text goes on from what was read, so each run is refused as soon as none does.
    ///
    /// It does nothing. Calling it brings the law into the caller's proof.
    pub fn has_text(self)
        ensures { (text octets : List ℕ) → HasReadBase32hex self text octets → (more all : List ℕ) × AreOctets all
            × IsBase32hexText (text ++ more) all }
    {}

    /// Says whether the text ends here: the bits that are left are zero, and fewer than a digit has.
    ///
    /// # Errors
    ///
    /// `Malformed` if what was read is no base 32 text.
    pub fn finish(self) -> Result<(), Malformed>
        ensures ok { OnOk result ((text octets : List ℕ) → HasReadBase32hex self text octets
            → IsBase32hexText text octets) }
        ensures malformed { OnErr result ((text octets other : List ℕ) → HasReadBase32hex self text octets
            → ¬ (IsBase32hexText text other)) }
    {
        if self.bits != 0 {
            return Err(Malformed);
        }
        match self.place {
            Place::Whole | Place::Two | Place::Four | Place::Five | Place::Seven => Ok(()),
            Place::One | Place::Three | Place::Six => Err(Malformed),
        }
    }

    /// A reader at a place, with the bits that are left there.
    fn at(place: Place, bits: u8) -> Base32hexReader
        requires { bits < bits_end place }
        ensures place { result.place ≡ place }
        ensures bits { result.bits ≡ bits }
    {
        Base32hexReader { place, bits }
    }
}

impl DigitReader for Base32hexReader {
    ghost use Rattle.octseq_dns_scan.specs.Base32hexRead.{HasReadBase32hex};

    ghost is_text = { IsBase32hexText };

    ghost has_read = { HasReadBase32hex };

    fn take(self, octet: u8) -> Option<(Base32hexReader, Option<u8>)> {
        let digit = base32hex_value(octet)?;
        let bits = self.bits;
        Some(match self.place {
            Place::Whole => (Base32hexReader::at(Place::One, digit), None),
            Place::One => (
                Base32hexReader::at(Place::Two, digit % 4),
                Some(bits * 8 + digit / 4),
            ),
            Place::Two => (Base32hexReader::at(Place::Three, bits * 32 + digit), None),
            Place::Three => (
                Base32hexReader::at(Place::Four, digit % 16),
                Some(bits * 2 + digit / 16),
            ),
            Place::Four => (
                Base32hexReader::at(Place::Five, digit % 2),
                Some(bits * 16 + digit / 2),
            ),
            Place::Five => (Base32hexReader::at(Place::Six, bits * 32 + digit), None),
            Place::Six => (
                Base32hexReader::at(Place::Seven, digit % 8),
                Some(bits * 4 + digit / 8),
            ),
            Place::Seven => (
                Base32hexReader::at(Place::Whole, 0),
                Some(bits * 32 + digit),
            ),
        })
    }
}

/// Returns the number of five bits that a base 32 digit of either case stands for.
fn base32hex_value(octet: u8) -> Option<u8>
    ensures { MatchOption result ((value : ℕ) → value < 32 → to_ascii_lowercase octet ≢ digit_char value)
        (λ value. (value < 32) × (to_ascii_lowercase octet ≡ digit_char value)) }
{
    match octet {
        b'0'..=b'9' => Some(octet - b'0'),
        b'A'..=b'V' => Some(octet - b'A' + 10),
        b'a'..=b'v' => Some(octet - b'a' + 10),
        _ => None,
    }
}

/// Writes octets in base 32 with the digits `0` to `9` and `a` to `v`, without padding: RFC 4648, 7, as NSEC3 shows its
/// next hashed owner name (RFC 5155, 3.3).
pub fn write_base32hex<W: fmt::Write>(f: &mut fmt::Formatter<W>, octets: &[u8]) -> fmt::Result
    ensures { WritesOnOk W.write_str_gives f.old result (base32hex_text octets.now) f.new }
{
    let mut rest = octets;
    while let Some((group, more)) = rest.split_first_chunk::<5>() {
        write_base32hex_digits(f, &quintets(*group))?;
        rest = more;
    }
    write_base32hex_end(f, rest)
}

/// Writes a last group of fewer than five octets: the digits it needs.
fn write_base32hex_end<W: fmt::Write>(f: &mut fmt::Formatter<W>, octets: &[u8]) -> fmt::Result
    requires { length octets.now < 5 }
    ensures { WritesOnOk W.write_str_gives f.old result (base32hex_text octets.now) f.new }
{
    match octets {
        [a, b, c, d] => write_base32hex_digits(f, &quintets([*a, *b, *c, *d, 0])[..7]),
        [a, b, c] => write_base32hex_digits(f, &quintets([*a, *b, *c, 0, 0])[..5]),
        [a, b] => write_base32hex_digits(f, &quintets([*a, *b, 0, 0, 0])[..4]),
        [a] => write_base32hex_digits(f, &quintets([*a, 0, 0, 0, 0])[..2]),
        _ => Ok(()),
    }
}

/// Splits five octets into eight numbers of five bits.
fn quintets(octets: [u8; 5]) -> [u8; 8]
    ensures values { result ≡ quintets octets }
    ensures small { All (λ value. value < 32) result }
{
    let [a, b, c, d, e] = octets;
    [
        a / 8,
        a % 8 * 4 + b / 64,
        b / 2 % 32,
        b % 2 * 16 + c / 16,
        c % 16 * 2 + d / 128,
        d / 4 % 32,
        d % 4 * 8 + e / 32,
        e % 32,
    ]
}

/// Writes numbers of five bits as base 32 digits.
fn write_base32hex_digits<W: fmt::Write>(f: &mut fmt::Formatter<W>, values: &[u8]) -> fmt::Result
    requires { All (λ value. value < 32) values.now }
    ensures { WritesOnOk W.write_str_gives f.old result (map digit_char values.now) f.new }
{
    for value in values {
        f.write_char(char::from(base32hex_digit(*value)))?;
    }
    Ok(())
}

/// Returns the base 32 digit of a number of five bits, in lower case.
fn base32hex_digit(value: u8) -> u8
    requires { value < 32 }
    ensures { result ≡ digit_char value }
{
    if value < 10 {
        return b'0' + value;
    }
    b'a' + (value - 10)
}

/// Octets with the same base 32 text are the same octets.
///
/// It does nothing. Calling it brings the law into the caller's proof.
pub fn base32hex_determines_octets()
    ensures { (octets other : List ℕ) → AreOctets octets → AreOctets other
        → base32hex_text octets ≡ base32hex_text other → octets ≡ other }
{}
