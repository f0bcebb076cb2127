//! Strings: RFC 1035, 5.1.
ghost use Rattle.std.specs.Prelude.{◌≡◌, ℕ, ◌+◌, ◌<◌, List, [], ◌∷◌, ◌++◌, length, Some, Bool};
ghost use Rattle.std.specs.Prelude.{◌↔◌, true, IsTrue, IsNone, IfSome, IfErr, OnOk, OnErr};
ghost use Rattle.std.specs.List.{All};
ghost use Rattle.octseq.specs.Limit.{IsWithin};
ghost use Rattle.octseq.specs.OctetsText.{string_text, three_digits};
ghost use Rattle.octseq_dns_scan.specs.Spelled.{is_special_in_string, SpellsOctetBut, SpellsOctets, SpellsString};
ghost use Rattle.octseq_dns_scan.specs.Word.{IsWord};
ghost use Rattle.octseq_dns_scan.specs.Spelled.{SpellsWithin, IsUnscanned, string_error_text};

use octseq::{AsOctets, OctetsBuilder, Truncate};
use std::error::Error;
use std::fmt;

/// The maximum number of octets of a character string: RFC 1035, 3.3.
pub const STRING_MAX: usize = 255;

/// Why a string was not read.
#[derive(Clone, Copy, Debug, PartialEq, Eq)]
pub enum StringError {
    /// The word doesn't spell a string.
    Malformed,
    /// The string has too many octets.
    TooLong,
    /// The content would exceed the limit of its type.
    Short,
    /// A request for memory was refused.
    Memory,
}

impl Error for StringError {}

impl fmt::Display for StringError {
    ghost output = { λ e. Some (string_error_text e) };

    fn fmt<W: fmt::Write>(&self, f: &mut fmt::Formatter<W>) -> fmt::Result {
        f.write_str(match self {
            StringError::Malformed => "malformed string",
            StringError::TooLong => "long string",
            StringError::Short => "buffer size exceeded",
            StringError::Memory => "out of memory",
        })
    }
}

/// A word spells one string at most.
///
/// It does nothing. Calling it brings the law into the caller's proof.
pub fn one_string_of_a_word()
    ensures { (octets others word : List ℕ) → SpellsString octets word → SpellsString others word → octets ≡ others }
{}

/// A string is spelled by its text, as it is shown, and what spells a string is a word.
///
/// It does nothing. Calling it brings the law into the caller's proof.
pub fn a_string_is_spelled_by_its_text()
    ensures shown { (octets : List ℕ) → All (λ octet. octet < 256) octets → SpellsString octets (string_text octets) }
    ensures word { (octets word : List ℕ) → SpellsString octets word → IsWord word }
{}

/// Returns the number of octets of the string that a word spells, or `None` if it spells none.
pub fn string_len(word: &[u8]) -> Option<usize>
    ensures some { IfSome result (λ len. (octets : List ℕ) × SpellsString octets word.now × (length octets ≡ len)) }
    ensures none { IsNone result → (octets : List ℕ) → ¬ SpellsString octets word.now }
{
    let (spelled, quoted) = spelled_part(word)?;
    octets_len(spelled, quoted)
}

/// Appends the string that a word spells, of at most `max` octets, or of any number of them if that is `None`.
///
/// # Errors
///
/// `Malformed` if the word spells no string, `TooLong` if the string is longer than `max`, `Short` if the content would
/// exceed the type's limit, otherwise `Memory` if a request for memory was refused. The content is then unchanged.
pub fn scan_string<B: OctetsBuilder + Truncate>(
    word: &[u8],
    max: Option<usize>,
    target: &mut B,
) -> Result<(), StringError>
    ensures ok { OnOk result ((octets : List ℕ) × SpellsWithin max octets word.now
        × (B.content target.new ≡ B.content target.old ++ octets)) }
    ensures err { OnErr result (B.content target.new ≡ B.content target.old) }
    ensures refused { IfErr result (λ error. IsUnscanned error max B.limit B.asks word.now (B.content target.old)) }
    ensures borrows { B.borrows target.new ≡ B.borrows target.old }
{
    let Some((spelled, quoted)) = spelled_part(word) else {
        return Err(StringError::Malformed);
    };
    let Some(len) = octets_len(spelled, quoted) else {
        return Err(StringError::Malformed);
    };
    if !is_within(max, len) {
        return Err(StringError::TooLong);
    }
    if !has_room(target, len) {
        return Err(StringError::Short);
    }
    append_octets(spelled, quoted, target)
}

/// Whether a length is at most `max`, if there is one.
fn is_within(max: Option<usize>, len: usize) -> bool
    ensures { IsTrue result ↔ IsWithin max len }
{
    match max {
        Some(max) => len <= max,
        None => true,
    }
}

/// Whether so many octets can be added to octets without exceeding the limit of their type.
fn has_room<B: OctetsBuilder>(octets: &B, more: usize) -> bool
    ensures { IsTrue result ↔ IsWithin B.limit (length (B.content octets.now) + more) }
{
    match octets.max_len() {
        Some(limit) => more <= limit - octets.len(),
        None => true,
    }
}

/// Appends the octets that a text spells, or nothing.
fn append_octets<B: OctetsBuilder + Truncate>(
    text: &[u8],
    quoted: bool,
    target: &mut B,
) -> Result<(), StringError>
    requires { (octets : List ℕ) × SpellsOctets (is_special_in_string quoted) octets text.now
        × IsWithin B.limit (length (B.content target.old) + length octets) }
    ensures ok { OnOk result ((octets : List ℕ) × SpellsOctets (is_special_in_string quoted) octets text.now
        × (B.content target.new ≡ B.content target.old ++ octets)) }
    ensures err { OnErr result (B.content target.new ≡ B.content target.old) }
    ensures refused { IfErr result (λ error. (error ≡ StringError.Memory) × (B.asks ≡ true)) }
    ensures borrows { B.borrows target.new ≡ B.borrows target.old }
{
    let before = target.len();
    let mut ahead = text;
    'octets: while !ahead.is_empty() {
        let Some((octet, rest)) = next_octet(ahead, quoted) else {
            unreachable!();
        };
        if target.append_slice(&[octet]).is_err() {
            target.truncate(before);
            return Err(StringError::Memory);
        }
        ahead = rest;
    }
    Ok(())
}

/// Returns the part of a word that spells octets, and whether it is between quotation marks.
fn spelled_part(word: &[u8]) -> Option<(&[u8], bool)>
    ensures to { IfSome result (λ part. (octets : List ℕ)
        → SpellsOctets (is_special_in_string part.1) octets part.0.now → SpellsString octets word.now) }
    ensures from { IfSome result (λ part. (octets : List ℕ)
        → SpellsString octets word.now → SpellsOctets (is_special_in_string part.1) octets part.0.now) }
    ensures none { IsNone result → (octets : List ℕ) → ¬ SpellsString octets word.now }
{
    if word.is_empty() {
        return None;
    }
    match inside_quotes(word) {
        Some(inside) => Some((inside, true)),
        None => Some((word, false)),
    }
}

/// Returns what is between the quotation marks at both ends of a word.
fn inside_quotes(word: &[u8]) -> Option<&[u8]>
    ensures some { IfSome result (λ inside. word.now ≡ 34 ∷ inside.now ++ 34 ∷ []) }
    ensures none { IsNone result → (inside : List ℕ) → ¬ (word.now ≡ 34 ∷ inside ++ 34 ∷ []) }
{
    let (first, rest) = word.split_first()?;
    let (last, inside) = rest.split_last()?;
    if *first != b'"' || *last != b'"' {
        return None;
    }
    Some(inside)
}

/// Returns the number of octets that a text spells, or `None` if it spells none.
fn octets_len(text: &[u8], quoted: bool) -> Option<usize>
    ensures some { IfSome result (λ len. (octets : List ℕ)
        × SpellsOctets (is_special_in_string quoted) octets text.now × (length octets ≡ len)) }
    ensures none { IsNone result → (octets : List ℕ) → ¬ SpellsOctets (is_special_in_string quoted) octets text.now }
{
    let mut ahead = text;
    let mut len = 0;
    'octets: while !ahead.is_empty() {
        let (_, rest) = next_octet(ahead, quoted)?;
        ahead = rest;
        len += 1;
    }
    Some(len)
}

/// Takes an octet of a string from the front of a text.
fn next_octet(text: &[u8], quoted: bool) -> Option<(u8, &[u8])>
    ensures some { IfSome result (λ taken. (first : List ℕ) × (text.now ≡ first ++ taken.1.now)
        × SpellsOctetBut (is_special_in_string quoted) taken.0 first) }
    ensures none { IsNone result → (octet : ℕ) (first rest : List ℕ) → text.now ≡ first ++ rest
        → ¬ SpellsOctetBut (is_special_in_string quoted) octet first }
{
    let (first, rest) = text.split_first()?;
    if *first == b'\\' {
        return next_escaped(rest);
    }
    if is_special(*first, quoted) {
        return None;
    }
    Some((*first, rest))
}

/// Whether an octet doesn't spell itself.
fn is_special(octet: u8, quoted: bool) -> bool
    ensures { result ≡ is_special_in_string quoted octet }
{
    match octet {
        b'"' | b'\\' => true,
        b'\t' | b'\n' | b'\r' | b' ' | b';' => !quoted,
        _ => false,
    }
}

/// Takes what follows the backslash of an octet from the front of a text.
fn next_escaped(text: &[u8]) -> Option<(u8, &[u8])>
    ensures some { IfSome result (λ taken. (quoted : Bool) → (first : List ℕ) × (text.now ≡ first ++ taken.1.now)
        × SpellsOctetBut (is_special_in_string quoted) taken.0 (92 ∷ first)) }
    ensures none { IsNone result → (quoted : Bool) (octet : ℕ) (first rest : List ℕ) → 92 ∷ text.now ≡ first ++ rest
        → ¬ SpellsOctetBut (is_special_in_string quoted) octet first }
{
    let (first, rest) = text.split_first()?;
    if !first.is_ascii_digit() {
        return Some((*first, rest));
    }
    next_number(text)
}

/// Takes a number up to 255, in three decimal digits, from the front of a text.
fn next_number(text: &[u8]) -> Option<(u8, &[u8])>
    ensures some { IfSome result (λ taken. (taken.0 < 256) × (text.now ≡ three_digits taken.0 ++ taken.1.now)) }
    ensures none { IsNone result → (number : ℕ) (rest : List ℕ) → number < 256
        → ¬ (text.now ≡ three_digits number ++ rest) }
{
    let (hundreds, text) = next_digit(text)?;
    let (tens, text) = next_digit(text)?;
    let (ones, text) = next_digit(text)?;
    let number = u16::from(hundreds) * 100 + u16::from(tens) * 10 + u16::from(ones);
    Some((u8::try_from(number).ok()?, text))
}

/// Takes a decimal digit from the front of a text.
fn next_digit(text: &[u8]) -> Option<(u8, &[u8])>
    ensures some { IfSome result (λ taken. (taken.0 < 10) × (text.now ≡ (48 + taken.0) ∷ taken.1.now)) }
    ensures none { IsNone result → (digit : ℕ) (rest : List ℕ) → digit < 10 → ¬ (text.now ≡ (48 + digit) ∷ rest) }
{
    let (first, rest) = text.split_first()?;
    if *first < b'0' || *first > b'9' {
        return None;
    }
    Some((*first - b'0', rest))
}
