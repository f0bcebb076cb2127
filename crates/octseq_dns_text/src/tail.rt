//! Tails: what comes after the fields of data.
ghost use Rattle.std.specs.Prelude.{◌≡◌, ◌≤◌, ◌||◌, ℕ};
ghost use Rattle.octseq_dns_scan.specs.Words.{ahead_of, offset_of};
ghost use Rattle.octseq_dns_text.specs.Output.{Grows};
ghost use Rattle.octseq_dns_text.specs.Reached.{ReadsText};
ghost use Rattle.octseq_dns_text.specs.Scans.{AreSome};
ghost use Rattle.octseq_dns_text.specs.Tails.{IsNoWord, IsLongString, AreStrings, IsTailText, has_list};

use crate::error::ScanError;
use crate::output::append;
use crate::params::scan_params;
use crate::runs::scan_some_runs;
use crate::types::scan_types;
use crate::word::string_octets;
use octseq::{OctetsBuilder, Truncate};
use octseq_dns_data::layout::Tail;
use octseq_dns_scan::{Base64Reader, HexReader, StringError, Words, scan_string, string_len};
use std::alloc::Global;

/// Appends the octets of all words, which are a tail. If they aren't, some may be appended.
pub(crate) fn scan_tail<B: OctetsBuilder + Truncate>(
    alloc: Global,
    words: Words,
    tail: Tail,
    target: &mut B,
) -> Result<(), ScanError>
    ensures reads { ReadsText (IsTailText tail) B.limit (B.asks || has_list tail) result (ahead_of words.entry)
        (offset_of words.entry) (B.content target.old) (B.content target.new) }
    ensures grows { Grows (B.content target.old) (B.content target.new) }
    ensures borrows { B.borrows target.new ≡ B.borrows target.old }
{
    match tail {
        Tail::Nothing => scan_nothing(words, target),
        Tail::Value => scan_value(words, 0, target),
        Tail::Target => scan_value(words, 1, target),
        Tail::Strings => scan_some_strings(words, target),
        Tail::Hex => scan_some_runs(words, HexReader::new(), target),
        Tail::Base64 => scan_some_runs(words, Base64Reader::new(), target),
        Tail::Types => scan_types(alloc, words, target),
        Tail::Params => scan_params(alloc, words, target),
    }
}

/// Reads the end of the text.
fn scan_nothing<B: OctetsBuilder>(words: Words, target: &mut B) -> Result<(), ScanError>
    ensures reads { ReadsText IsNoWord B.limit B.asks result (ahead_of words.entry) (offset_of words.entry)
        (B.content target.old) (B.content target.new) }
    ensures grows { Grows (B.content target.old) (B.content target.new) }
    ensures borrows { B.borrows target.new ≡ B.borrows target.old }
{
    if !words.is_at_end() {
        return Err(ScanError::Malformed(words.offset()));
    }
    Ok(())
}

/// Appends the only word, which is a string of so many octets or more.
fn scan_value<B: OctetsBuilder + Truncate>(
    words: Words,
    least: usize,
    target: &mut B,
) -> Result<(), ScanError>
    requires { least ≤ 1 }
    ensures reads { ReadsText (IsLongString least) B.limit B.asks result (ahead_of words.entry) (offset_of words.entry)
        (B.content target.old) (B.content target.new) }
    ensures grows { Grows (B.content target.old) (B.content target.new) }
    ensures borrows { B.borrows target.new ≡ B.borrows target.old }
{
    let mut after = words;
    let Some(word) = after.next_word() else {
        return Err(ScanError::Malformed(words.offset()));
    };
    let Some(len) = string_len(word.octets) else {
        return Err(ScanError::Malformed(word.offset));
    };
    if len < least {
        return Err(ScanError::Malformed(word.offset));
    }
    if !after.is_at_end() {
        return Err(ScanError::Malformed(after.offset()));
    }
    match scan_string(word.octets, None, target) {
        Ok(()) => Ok(()),
        Err(StringError::Short) => Err(ScanError::Short),
        Err(StringError::Memory) => Err(ScanError::Memory),
        Err(StringError::Malformed) => unreachable!(),
        Err(StringError::TooLong) => unreachable!(),
    }
}

/// Appends all words, which are one or more character strings. If they aren't, some may be appended.
fn scan_some_strings<B: OctetsBuilder>(words: Words, target: &mut B) -> Result<(), ScanError>
    ensures reads { ReadsText (AreSome AreStrings) B.limit B.asks result (ahead_of words.entry)
        (offset_of words.entry) (B.content target.old) (B.content target.new) }
    ensures grows { Grows (B.content target.old) (B.content target.new) }
    ensures borrows { B.borrows target.new ≡ B.borrows target.old }
{
    if words.is_at_end() {
        return Err(ScanError::Malformed(words.offset()));
    }
    scan_strings(words, target)
}

/// Appends all words, which are character strings. If they aren't, some may be appended.
fn scan_strings<B: OctetsBuilder>(words: Words, target: &mut B) -> Result<(), ScanError>
    ensures reads { ReadsText AreStrings B.limit B.asks result (ahead_of words.entry) (offset_of words.entry)
        (B.content target.old) (B.content target.new) }
    ensures grows { Grows (B.content target.old) (B.content target.new) }
    ensures borrows { B.borrows target.new ≡ B.borrows target.old }
{
    let mut ahead = words;
    let mut full = false;
    'words: while let Some(word) = ahead.next_word() {
        match string_octets(word.octets) {
            Some(octets) => match append(target, octets.as_slice(), full) {
                Ok(past) => full = past,
                Err(error) => return Err(error),
            },
            None => return Err(ScanError::Malformed(word.offset)),
        }
    }
    if !ahead.is_at_end() {
        return Err(ScanError::Malformed(ahead.offset()));
    }
    if full {
        return Err(ScanError::Short);
    }
    Ok(())
}
