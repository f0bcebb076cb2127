//! The spelling of names in text: RFC 1035, 5.1.
ghost use Rattle.std.specs.Prelude.{◌≡◌, ℕ, ◌+◌, ◌<◌, ◌≤◌, List, [], ◌∷◌, ◌++◌, length};
ghost use Rattle.std.specs.Prelude.{IsNone, IfSome, IfOk, IfErr, OnErr, MatchOption};
ghost use Rattle.octseq_dns_name.specs.NameFormat.{bodies};
ghost use Rattle.octseq_dns_name.specs.Origin.{SpellsWithOrigin, IsRefusedWithOrigin};
ghost use Rattle.octseq_dns_name.specs.Read.{labels_of};
ghost use Rattle.octseq_dns_name.specs.Refused.{
  ReadsLabelPart,
  ReadsLabels,
  ReadsAll,
  SpellsNone,
  IsIllegal,
  IsLabelFault,
};
ghost use Rattle.octseq_dns_name.specs.Refused.{IsNameRefused};
ghost use Rattle.octseq_dns_name.specs.Spelling.{SpellsOctet, SpellsName};
ghost use Rattle.octseq_dns_name.specs.Wire.{IsWireOf};
ghost use Rattle.octseq.specs.OctetsText.{three_digits};

use crate::error::FromTextError;
use crate::name::ParsedName;
use crate::name::text::needs_backslash;
use crate::name::wire::{
    LABEL_MAX, append_label, has_room, with_label_and_name, with_name, with_root,
};
use octseq::builder::infallible;
use octseq::{Array, AsOctets, OctetsBuilder};

/// Returns the plain wire form of the name that a text spells.
pub(crate) fn wire_of(text: &[u8]) -> Result<Array<255>, FromTextError>
    ensures ok { IfOk result (λ octets. (labels : List (List ℕ)) × IsWireOf labels octets.content
        × SpellsName labels text.now) }
    ensures refused { IfErr result (λ fault. IsNameRefused fault text.now) }
{
    if text == b".".as_slice() {
        return Ok(with_root(Array::new()));
    }
    let (octets, last) = read_labels(text)?;
    if !last.is_empty() {
        return Err(FromTextError::UnexpectedEnd);
    }
    if octets.is_empty() {
        return Err(FromTextError::UnexpectedEnd);
    }
    Ok(with_root(octets))
}

/// Returns the plain wire form of the name that a text spells with an origin.
pub(crate) fn wire_with_origin<R: AsOctets + Copy>(
    text: &[u8],
    origin: &ParsedName<R>,
) -> Result<Array<255>, FromTextError>
    ensures ok { IfOk result (λ octets. (labels : List (List ℕ)) × IsWireOf labels octets.content
        × SpellsWithOrigin (labels_of origin.now) labels text.now) }
    ensures refused { IfErr result (λ fault. IsRefusedWithOrigin (labels_of origin.now) fault text.now) }
{
    if text == b".".as_slice() {
        return Ok(with_root(Array::new()));
    }
    if text == b"@".as_slice() {
        return Ok(with_name(Array::new(), origin));
    }
    let (octets, last) = read_labels(text)?;
    if !last.is_empty() {
        return with_label_and_name(octets, last.as_slice(), origin);
    }
    if octets.is_empty() {
        return Err(FromTextError::UnexpectedEnd);
    }
    Ok(with_root(octets))
}

/// Reads labels from a text, each followed by a full stop. Returns their wire form without the root, and the
/// label that the text ends with if no full stop follows it, or no octets.
fn read_labels(text: &[u8]) -> Result<(Array<255>, Array<63>), FromTextError>
    ensures ok { IfOk result (λ read. (labels : List (List ℕ)) × (read.0.content ≡ bodies labels)
        × ReadsAll text.now labels read.1.content) }
    ensures room { IfOk result (λ read. length read.0.content + 1 ≤ 255) }
    ensures refused { IfErr result (λ fault. (labels : List (List ℕ)) × (rest : List ℕ)
        × ReadsLabels text.now labels rest × IsLabelFault fault labels rest) }
    ensures within { IfErr result (λ fault. ¬ (fault ≡ FromTextError.UnexpectedEnd)) }
{
    let mut octets = Array::<255>::new();
    let mut ahead = text;
    'labels: loop {
        let (label, rest) = next_part(ahead)?;
        let Some(rest) = rest else {
            return Ok((octets, label));
        };
        let slice = label.as_slice();
        if !has_room(&octets, slice) {
            return Err(FromTextError::LongName);
        }
        append_label(&mut octets, slice);
        ahead = rest;
    }
}

/// Takes a label from the front of a text, and the full stop after it. Returns the label with what follows the full
/// stop, or with `None` if the text ends with the label.
fn next_part(text: &[u8]) -> Result<(Array<63>, Option<&[u8]>), FromTextError>
    ensures ok { IfOk result (λ taken. MatchOption taken.1 (ReadsLabelPart text.now taken.0.content [])
        (λ rest. ReadsLabelPart text.now taken.0.content (46 ∷ rest.now))) }
    ensures some { IfOk result (λ taken. IfSome taken.1 (λ _. 1 ≤ length taken.0.content)) }
    ensures short { IfOk result (λ taken. length taken.0.content ≤ 63) }
    ensures refused { IfErr result (λ fault. (labels : List (List ℕ)) → IsLabelFault fault labels text.now) }
    ensures within { IfErr result (λ fault. ¬ (fault ≡ FromTextError.UnexpectedEnd)) }
{
    let mut label = Array::<63>::new();
    let mut ahead = text;
    'octets: loop {
        let Some((first, rest)) = ahead.split_first() else {
            return Ok((label, None));
        };
        if *first == b'.' {
            if label.is_empty() {
                return Err(FromTextError::EmptyLabel);
            }
            return Ok((label, Some(rest)));
        }
        let (octet, rest) = next_octet(*first, rest)?;
        if label.len() >= LABEL_MAX {
            return Err(FromTextError::LongLabel);
        }
        infallible(label.append_slice(&[octet]));
        ahead = rest;
    }
}

/// Takes an octet of a label from the front of a text: the octet `first`, followed by `rest`.
fn next_octet(first: u8, rest: &[u8]) -> Result<(u8, &[u8]), FromTextError>
    ensures ok { IfOk result (λ taken. (run : List ℕ) × (first ∷ rest.now ≡ run ++ taken.1.now)
        × SpellsOctet taken.0 run) }
    ensures none { OnErr result (SpellsNone (first ∷ rest.now)) }
    ensures illegal { IfErr result (λ fault. IsIllegal fault first) }
{
    if first == b'\\' {
        return next_escaped(rest).ok_or(FromTextError::IllegalEscape);
    }
    if needs_backslash(first) || !first.is_ascii_graphic() {
        return Err(FromTextError::IllegalOctet);
    }
    Ok((first, rest))
}

/// Takes what follows the backslash of an octet from the front of a text.
fn next_escaped(text: &[u8]) -> Option<(u8, &[u8])>
    ensures some { IfSome result (λ taken. (first : List ℕ) × (text.now ≡ first ++ taken.1.now)
        × SpellsOctet taken.0 (92 ∷ first)) }
    ensures none { IsNone result → SpellsNone (92 ∷ text.now) }
{
    let (first, rest) = text.split_first()?;
    if !first.is_ascii_digit() {
        return Some((*first, rest));
    }
    next_number(text)
}

/// Takes a number up to 255, in three decimal digits, from the front of a text.
fn next_number(text: &[u8]) -> Option<(u8, &[u8])>
    ensures some { IfSome result (λ taken. (taken.0 < 256) × (text.now ≡ three_digits taken.0 ++ taken.1.now)) }
    ensures none { IsNone result → (number : ℕ) (rest : List ℕ) → number < 256
        → ¬ (text.now ≡ three_digits number ++ rest) }
{
    let (hundreds, text) = next_digit(text)?;
    let (tens, text) = next_digit(text)?;
    let (ones, text) = next_digit(text)?;
    let number = u16::from(hundreds) * 100 + u16::from(tens) * 10 + u16::from(ones);
    Some((u8::try_from(number).ok()?, text))
}

/// Takes a decimal digit from the front of a text.
fn next_digit(text: &[u8]) -> Option<(u8, &[u8])>
    ensures some { IfSome result (λ taken. (taken.0 < 10) × (text.now ≡ (48 + taken.0) ∷ taken.1.now)) }
    ensures none { IsNone result → (digit : ℕ) (rest : List ℕ) → digit < 10 → ¬ (text.now ≡ (48 + digit) ∷ rest) }
{
    let (first, rest) = text.split_first()?;
    if *first < b'0' || *first > b'9' {
        return None;
    }
    Some((*first - b'0', rest))
}
