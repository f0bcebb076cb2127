//! The data of a record.
ghost use Rattle.std.specs.Prelude.{◌≡◌, ◌+◌, ◌||◌, true, ℕ, Option, List, length, option_map, IsNone, IfSome, IfOk};
ghost use Rattle.std.specs.Prelude.{IfErr, OnErr, IsErrOf};
ghost use Rattle.octseq_dns_data.specs.Typed.{layout_of};
ghost use Rattle.octseq_dns_data.specs.declared.layout.Tail.{Tail};
ghost use Rattle.octseq_dns_name.specs.Read.{labels_of};
ghost use Rattle.octseq_dns_scan.specs.Word.{TakesWord};
ghost use Rattle.octseq_dns_scan.specs.Words.{ahead_of, offset_of};
ghost use Rattle.octseq_dns_text.specs.DataText.{IsSizedText, opaque_word, ends_in_list, IsDataText};
ghost use Rattle.octseq_dns_text.specs.Fields.{IsFieldText};
ghost use Rattle.octseq_dns_text.specs.Layouts.{IsLayoutText};
ghost use Rattle.octseq_dns_text.specs.Output.{Adds, Grows, unless_full};
ghost use Rattle.octseq_dns_text.specs.Reached.{Reached, ReadsText};
ghost use Rattle.octseq_dns_text.specs.Scans.{Scans, IsWordFault};
ghost use Rattle.octseq_dns_text.specs.Tails.{has_list};

use crate::error::ScanError;
use crate::field::field_octets;
use crate::output::{append, kept, unless_full};
use crate::runs::{SizedHexReader, scan_runs};
use crate::tail::scan_tail;
use octseq::{AsOctets, OctetsBuilder, ReadError, Truncate};
use octseq_dns_data::layout::{Field, Layout};
use octseq_dns_data::{Class, Rtype, layout_of};
use octseq_dns_name::ParsedName;
use octseq_dns_scan::{Words, scan_u16};
use std::alloc::Global;

/// Words are one data of a type and a class at most.
///
/// It does nothing. Calling it brings the law into the caller's proof.
pub fn one_reading_of_data_text()
    ensures { (origin : Option (List (List ℕ))) (rtype class : ℕ) (words : List (List ℕ)) (octets other : List ℕ)
        → IsDataText origin rtype class words octets → IsDataText origin rtype class words other → octets ≡ other }
{}

/// Reads the data of a record from the words that are left of its line, and appends its octets in wire form, with names
/// in plain form: RFC 1035, 5.1. Data of any type may be opaque: `\#`, the number of its octets, and the octets in
/// hexadecimal (RFC 3597, 5). Without an origin names are whole; with one they may be relative to it.
///
/// # Errors
///
/// `Malformed` if the words aren't data of the type and the class, with the offset of the first word that isn't what
/// has to come there; the end of the text counts as a word. `Short` if the content would exceed the limit of its type.
/// Otherwise `Memory` if a request for memory was refused, which a set of types and service parameters make for a list.
/// The content is then unchanged.
pub fn scan_data<R: AsOctets + Copy, B: OctetsBuilder + Truncate>(
    alloc: Global,
    words: Words,
    rtype: Rtype,
    class: Class,
    origin: Option<&ParsedName<R>>,
    target: &mut B,
) -> Result<(), ScanError>
    ensures scanned { Scans (IsDataText (option_map (λ name. labels_of name.now) origin.entry) rtype class) B.limit
        (B.asks || ends_in_list (layout_of rtype class)) result (ahead_of words.entry) (offset_of words.entry)
        (B.content target.old) (B.content target.new) }
    ensures borrows { B.borrows target.new ≡ B.borrows target.old }
{
    let before = target.len();
    let scanned = append_data(alloc, words, rtype, class, origin, target);
    kept(target, before, scanned)
}

/// Appends the data that the words are. If they aren't, some of it may be appended.
fn append_data<R: AsOctets + Copy, B: OctetsBuilder + Truncate>(
    alloc: Global,
    words: Words,
    rtype: Rtype,
    class: Class,
    origin: Option<&ParsedName<R>>,
    target: &mut B,
) -> Result<(), ScanError>
    ensures reads { ReadsText (IsDataText (option_map (λ name. labels_of name.now) origin.entry) rtype class) B.limit
        (B.asks || ends_in_list (layout_of rtype class)) result (ahead_of words.entry) (offset_of words.entry)
        (B.content target.old) (B.content target.new) }
    ensures grows { Grows (B.content target.old) (B.content target.new) }
    ensures borrows { B.borrows target.new ≡ B.borrows target.old }
{
    match after_opaque_word(words) {
        Some(after) => append_opaque(after, target),
        None => match layout_of(rtype, class) {
            Some(layout) => append_layout(alloc, words, layout, origin, target),
            None => Err(ScanError::Malformed(words.offset())),
        },
    }
}

/// Returns the words after `\#`, if it is the first word.
fn after_opaque_word(words: Words) -> Option<Words>
    ensures some { IfSome result (λ after. TakesWord opaque_word (ahead_of words.entry) (ahead_of after)) }
    ensures place { IfSome result (λ after. offset_of after + length (ahead_of after)
        ≡ offset_of words.entry + length (ahead_of words.entry)) }
    ensures none { IsNone result → (rest : List ℕ) → ¬ TakesWord opaque_word (ahead_of words.entry) rest }
{
    let mut after = words;
    match after.next_word() {
        Some(word) => {
            if word.octets == b"\\#".as_slice() {
                return Some(after);
            }
            None
        }
        None => None,
    }
}

/// Appends the octets that the words after `\#` are. If they aren't, some may be appended.
fn append_opaque<B: OctetsBuilder>(words: Words, target: &mut B) -> Result<(), ScanError>
    ensures reads { ReadsText IsSizedText B.limit B.asks result (ahead_of words.entry) (offset_of words.entry)
        (B.content target.old) (B.content target.new) }
    ensures grows { Grows (B.content target.old) (B.content target.new) }
    ensures borrows { B.borrows target.new ≡ B.borrows target.old }
{
    let mut after = words;
    match after.next_word() {
        Some(word) => match scan_u16(word.octets) {
            Some(len) => scan_runs(after, SizedHexReader::new(len), target),
            None => Err(ScanError::Malformed(word.offset)),
        },
        None => Err(ScanError::Malformed(words.offset())),
    }
}

/// Appends the data with a layout that the words are. If they aren't, some of it may be appended.
fn append_layout<R: AsOctets + Copy, B: OctetsBuilder + Truncate>(
    alloc: Global,
    words: Words,
    layout: Layout,
    origin: Option<&ParsedName<R>>,
    target: &mut B,
) -> Result<(), ScanError>
    ensures reads { ReadsText (IsLayoutText (option_map (λ name. labels_of name.now) origin.entry)
        layout.fields.now layout.tail) B.limit (B.asks || has_list layout.tail) result (ahead_of words.entry)
        (offset_of words.entry) (B.content target.old) (B.content target.new) }
    ensures grows { Grows (B.content target.old) (B.content target.new) }
    ensures borrows { B.borrows target.new ≡ B.borrows target.old }
{
    let mut ahead = words;
    match append_fields(&mut ahead, layout.fields, origin, target) {
        Ok(full) => unless_full(full, scan_tail(alloc, ahead, layout.tail, target)),
        Err(error) => Err(error),
    }
}

/// Appends fields, each of which is the next word. Returns whether the content is then full.
fn append_fields<R: AsOctets + Copy, B: OctetsBuilder>(
    words: &mut Words,
    fields: &[Field],
    origin: Option<&ParsedName<R>>,
    target: &mut B,
) -> Result<bool, ScanError>
    ensures ok { IfOk result (λ full. Reached (IsLayoutText (option_map (λ name. labels_of name.now) origin.entry)
        fields.now Tail.Nothing) (ahead_of words.old) (offset_of words.old) B.limit (B.content target.old)
        (ahead_of words.new) (offset_of words.new) full (B.content target.new)) }
    ensures fault { (offset : ℕ) → IsErrOf result (ScanError.Malformed offset) → (tail : Tail)
        → IsWordFault (IsLayoutText (option_map (λ name. labels_of name.now) origin.entry) fields.now tail)
        (ahead_of words.old) (offset_of words.old) offset }
    ensures short { ¬ IsErrOf result ScanError.Short }
    ensures memory { IsErrOf result ScanError.Memory → B.asks ≡ true }
    ensures grows { Grows (B.content target.old) (B.content target.new) }
    ensures borrows { B.borrows target.new ≡ B.borrows target.old }
{
    let mut ahead = fields;
    let mut full = false;
    'fields: while let Some((field, more)) = ahead.split_first() {
        match words.next_word() {
            Some(word) => match append_field(*field, word.octets, origin, target, full) {
                Ok(past) => full = past,
                Err(ReadError::Malformed) => return Err(ScanError::Malformed(word.offset)),
                Err(ReadError::Memory) => return Err(ScanError::Memory),
            },
            None => return Err(ScanError::Malformed(words.offset())),
        }
        ahead = more;
    }
    Ok(full)
}

/// Appends the octets of a field that a word is. Returns whether the content is then full.
fn append_field<R: AsOctets + Copy, B: OctetsBuilder>(
    field: Field,
    word: &[u8],
    origin: Option<&ParsedName<R>>,
    target: &mut B,
    full: bool,
) -> Result<bool, ReadError>
    ensures ok { IfOk result (λ past. (octets : List ℕ)
        × IsFieldText (option_map (λ name. labels_of name.now) origin.entry) field word.now octets
        × Adds B.limit full (B.content target.old) past (B.content target.new) octets) }
    ensures malformed { IsErrOf result ReadError.Malformed → (octets : List ℕ)
        → ¬ (IsFieldText (option_map (λ name. labels_of name.now) origin.entry) field word.now octets) }
    ensures memory { IsErrOf result ReadError.Memory → B.asks ≡ true }
    ensures grows { Grows (B.content target.old) (B.content target.new) }
    ensures borrows { B.borrows target.new ≡ B.borrows target.old }
{
    match field_octets(field, word, origin) {
        Some(octets) => match append(target, octets.as_slice(), full) {
            Ok(past) => Ok(past),
            Err(_) => Err(ReadError::Memory),
        },
        None => Err(ReadError::Malformed),
    }
}
