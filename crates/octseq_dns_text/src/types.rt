//! Sets of types: RFC 4034, 4.2, RFC 5155, 3.3, and RFC 7477, 2.2.
ghost use Rattle.std.specs.Prelude.{◌≡◌, ℕ, ◌+◌, ◌<◌, List, true, length, map, nat_eq};
ghost use Rattle.std.specs.Prelude.{IsErrOf, IsNone, IfNone, IfOk, IfSome};
ghost use Rattle.std.specs.List.{All, AllZip, IsDistinct, list_any};
ghost use Rattle.std.specs.Option.{OnSome};
ghost use Rattle.octseq_dns_data.specs.Mnemonic.{ReadsRtype, rtype_text};
ghost use Rattle.octseq_dns_data.specs.RtypeBitmapMade.{bitmap_of};
ghost use Rattle.octseq_dns_scan.specs.Word.{AreWords, IsWord, TakesWord};
ghost use Rattle.octseq_dns_scan.specs.Words.{ahead_of, offset_of};
ghost use Rattle.octseq_dns_text.specs.Scans.{IsWordFault, Scans};
ghost use Rattle.octseq_dns_text.specs.TypesText.{IsTypesText};
ghost use Rattle.octseq_dns_text.specs.declared.error.ScanError.{ScanError};

use crate::error::ScanError;
use octseq::{AppendError, OctetsBuilder, Truncate};
use octseq_dns_data::Rtype;
use octseq_dns_data::rtype_bitmap::append_rtypes;
use octseq_dns_scan::Words;
use std::alloc::Global;
use std::str;

/// Words are at most one set of types.
///
/// It does nothing. Calling it brings the law into the caller's proof.
pub fn words_are_one_set_of_types()
    ensures { (words : List (List ℕ)) (octets other : List ℕ) → IsTypesText words octets → IsTypesText words other
        → octets ≡ other }
{}

/// The text of different types is read as these types, and of each it is a word.
///
/// It does nothing. Calling it brings the law into the caller's proof.
pub fn types_are_read_from_their_text()
    ensures read { (rtypes : List ℕ) → All (λ rtype. rtype < 65536) rtypes → IsDistinct nat_eq rtypes
        → IsTypesText (map rtype_text rtypes) (bitmap_of rtypes) }
    ensures words { (rtype : ℕ) → rtype < 65536 → IsWord (rtype_text rtype) }
{}

/// Appends the octets of the bitmap of the types that the words are, in any order.
///
/// # Errors
///
/// `Malformed` if a word is no type, or is a type for the second time. `Short` if the content would exceed the limit of
/// its type, `Memory` if a request for memory was refused. The content is then unchanged.
pub fn scan_types<B: OctetsBuilder + Truncate>(
    alloc: Global,
    words: Words,
    target: &mut B,
) -> Result<(), ScanError>
    ensures scanned { Scans IsTypesText B.limit true result (ahead_of words.entry) (offset_of words.entry)
        (B.content target.old) (B.content target.new) }
    ensures borrows { B.borrows target.new ≡ B.borrows target.old }
{
    let rtypes = match read_types(alloc, words) {
        Ok(rtypes) => rtypes,
        Err(error) => return Err(error),
    };
    match append_rtypes(target, rtypes.as_slice()) {
        Ok(()) => Ok(()),
        Err(AppendError::Short(_)) => Err(ScanError::Short),
        Err(AppendError::Memory) => Err(ScanError::Memory),
    }
}

/// Reads words as types, each once.
fn read_types(alloc: Global, words: Words) -> Result<Vec<Rtype>, ScanError>
    ensures ok { IfOk result (λ rtypes. (front : List (List ℕ)) × AreWords front (ahead_of words.entry)
        × AllZip ReadsRtype front rtypes.items × IsDistinct nat_eq rtypes.items) }
    ensures fault { (offset : ℕ) → IsErrOf result (ScanError.Malformed offset)
        → IsWordFault IsTypesText (ahead_of words.entry) (offset_of words.entry) offset }
    ensures within { ¬ IsErrOf result ScanError.Short }
{
    let mut rtypes = Vec::new(alloc);
    let mut ahead = words;
    'types: while !ahead.is_at_end() {
        let offset = ahead.offset();
        let Some(rtype) = next_type(&mut ahead) else {
            return Err(ScanError::Malformed(offset));
        };
        if is_among(rtypes.as_slice(), rtype) {
            return Err(ScanError::Malformed(offset));
        }
        if rtypes.push(rtype).is_err() {
            return Err(ScanError::Memory);
        }
    }
    Ok(rtypes)
}

/// Whether a type is one of the types.
fn is_among(rtypes: &[Rtype], rtype: Rtype) -> bool
    ensures { result ≡ list_any (nat_eq rtype) rtypes.now }
{
    rtypes.iter().any(|other| rtype.to_int() == other.to_int())
}

/// Takes the next word, as a type.
fn next_type(words: &mut Words) -> Option<Rtype>
    ensures some { IfSome result (λ rtype. (word : List ℕ)
        × TakesWord word (ahead_of words.old) (ahead_of words.new) × ReadsRtype word rtype) }
    ensures end { OnSome result (offset_of words.new + length (ahead_of words.new)
        ≡ offset_of words.old + length (ahead_of words.old)) }
    ensures none { IsNone result → (word rest : List ℕ) (rtype : ℕ) → TakesWord word (ahead_of words.old) rest
        → ¬ ReadsRtype word rtype }
{
    let Some(word) = words.next_word() else {
        return None;
    };
    scan_type(word.octets)
}

/// Reads a word as a type: a mnemonic, or `TYPE` and a number (RFC 3597, 5).
pub(crate) fn scan_type(word: &[u8]) -> Option<Rtype>
    ensures some { IfSome result (ReadsRtype word.now) }
    ensures none { IfNone result ((rtype : ℕ) → ¬ ReadsRtype word.now rtype) }
{
    match str::from_utf8(word) {
        Ok(text) => text.parse().ok(),
        Err(_) => None,
    }
}
