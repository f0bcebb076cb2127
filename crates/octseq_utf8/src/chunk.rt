//! Octets in chunks of text, like Rust's `utf8_chunks`. Everything that reads octets as text iterates over these.
ghost use Rattle.std.specs.Prelude.{◌≡◌, ◌≤◌, ◌<◌, ◌+◌, ◌*◌, ◌↔◌, false, List, [], length, take, drop};
ghost use Rattle.std.specs.Prelude.{slice_range, IsNone, IfNone, IfSome};
ghost use Rattle.octseq_utf8.specs.Chunk.{GivesChunk, IsFirstChunk};
ghost use Rattle.octseq_utf8.specs.Fault.{IsFault, fault_end};
ghost use Rattle.octseq_utf8.specs.Parts.{Part, Splits};
ghost use Rattle.octseq_utf8.specs.Text.{IsWellFormed, chars};

use crate::fault::{Utf8Fault, after, before, onward};
use crate::finder::{first_fault, is_continuation};
use crate::turns::Turns;
use std::marker::Model;

/// A text, and the maximal ill-formed part after it.
#[derive(Drop)]
pub struct Utf8Chunk<'a> {
    valid: &'a str,
    invalid: &'a [u8],
    incomplete: bool,
}

impl<'a> Model for Utf8Chunk<'a> {
    ghost use Rattle.octseq_utf8.specs.Chunk.{Chunk};

    ghost Value = { Chunk };

    ghost view = { λ chunk.
        record { valid = chunk.valid.now; invalid = chunk.invalid.now; incomplete = chunk.incomplete } };
}

impl<'a> Utf8Chunk<'a> {
    /// The text.
    pub fn valid(&self) -> &'a str
        ensures { result.now ≡ self.now.valid }
    {
        self.valid
    }

    /// The maximal ill-formed part after the text, of 1 to 3 octets. It is empty only at the end of the octets.
    pub fn invalid(&self) -> &'a [u8]
        ensures { result.now ≡ self.now.invalid }
    {
        self.invalid
    }

    /// Whether the octets end within a character: the ill-formed part begins one, and nothing follows it.
    pub fn is_incomplete(&self) -> bool
        ensures { result ≡ self.now.incomplete }
    {
        self.incomplete
    }
}

/// The chunks of octets, from the left. Nothing is copied, and no memory is requested.
///
/// Contracts see the octets that are left.
#[derive(Drop)]
pub struct Utf8Chunks<'a> {
    rest: &'a [u8],
}

impl<'a> Model for Utf8Chunks<'a> {
    ghost use Rattle.std.specs.Prelude.{ℕ, List};

    ghost Value = { List ℕ };

    ghost view = { λ chunks. chunks.rest.now };
}

/// The chunks of these octets, by the Unicode Standard's practice for maximal subparts (chapter 3).
///
/// # Examples
///
/// ```
/// // crates/octseq_examples/src/text.rt
/// let mut text = String::new(alloc);
/// for chunk in chunks(octets) {
///     text.push_str(chunk.valid())?;
///     if !chunk.invalid().is_empty() {
///         text.push('?')?;
///     }
/// }
/// ```
pub fn chunks(octets: &[u8]) -> Utf8Chunks<'_>
    ensures { result ≡ octets.now }
{
    Utf8Chunks { rest: octets }
}

impl<'a> Utf8Chunks<'a> {
    /// The octets that are left.
    pub fn as_octets(&self) -> &'a [u8]
        ensures { result.now ≡ self.now }
    {
        self.rest
    }

    /// The next chunk, or `None` if nothing is left. Counts the turns of the search: at most one for each part of the
    /// chunk, and at least one for every sixteen octets of it.
    #[inline(always)]
    pub fn next_counted(&mut self, turns: &mut Turns) -> Option<Utf8Chunk<'a>>
        ensures gives { GivesChunk self.old result self.new }
        ensures turns { (parts rest : List Part) → Splits self.old parts → Splits self.new rest
            → turns.new + length rest ≤ turns.old + length parts }
        ensures passed { length self.old + 16 * turns.old ≤ 16 * turns.new + length self.new }
        ensures kept { turns.old ≤ turns.new }
    {
        let octets = self.rest;
        if octets.is_empty() {
            return None;
        }
        match fault_of_rest(octets, turns) {
            None => {
                self.rest = &octets[octets.len()..];
                Some(last_chunk(octets))
            }
            Some(fault) => {
                self.rest = after(octets, &fault);
                Some(chunk_to(octets, &fault))
            }
        }
    }
}

/// Like [`first_fault`], for octets that aren't empty. If the first octet is a bad part by itself, no search is needed.
#[inline(always)]
fn fault_of_rest(octets: &[u8], turns: &mut Turns) -> Option<Utf8Fault>
    requires { 0 < length octets.now }
    ensures none { IsNone result ↔ IsWellFormed octets.now }
    ensures fault { IfSome result (IsFault octets.now) }
    ensures turns { IfNone result (turns.new ≤ turns.old + length (chars octets.now)) }
    ensures turns_to_fault { IfSome result (λ fault.
        turns.new ≤ turns.old + length (chars (take fault.place octets.now)) + 1) }
    ensures passed { IfNone result (length octets.now + 16 * turns.old ≤ 16 * turns.new) }
    ensures passed_to_fault { IfSome result (λ fault.
        fault_end octets.now fault + 16 * turns.old ≤ 16 * turns.new) }
{
    if is_continuation(octets[0]) {
        turns.tick();
        return Some(Utf8Fault::new(0, Some(1)));
    }
    first_fault(octets, turns)
}

/// The chunk of octets that are well-formed text.
#[inline(always)]
fn last_chunk(octets: &[u8]) -> Utf8Chunk<'_>
    requires { IsWellFormed octets.now }
    ensures { result ≡ record { valid = octets.now; invalid = []; incomplete = false } }
{
    Utf8Chunk {
        valid: unsafe { std::str::from_utf8_unchecked(octets) },
        invalid: &octets[octets.len()..],
        incomplete: false,
    }
}

/// The chunk that ends with the fault.
#[inline(always)]
fn chunk_to<'a>(octets: &'a [u8], fault: &Utf8Fault) -> Utf8Chunk<'a>
    requires { IsFault octets.now fault.now }
    ensures { IsFirstChunk octets.now result (drop (fault_end octets.now fault.now) octets.now) }
{
    let valid = before(octets, fault);
    Utf8Chunk {
        valid: unsafe { std::str::from_utf8_unchecked(valid) },
        invalid: bad_part(octets, fault),
        incomplete: fault.error_len().is_none(),
    }
}

/// The ill-formed part at the fault.
#[inline(always)]
fn bad_part<'a>(octets: &'a [u8], fault: &Utf8Fault) -> &'a [u8]
    requires { IsFault octets.now fault.now }
    ensures { result.now ≡ slice_range octets.now fault.now.place (fault_end octets.now fault.now) }
{
    let onward = onward(octets, fault);
    match fault.error_len() {
        Some(len) => &onward[..len],
        None => onward,
    }
}

impl<'a> Iterator for Utf8Chunks<'a> {
    ghost use Rattle.std.specs.Iterator.{at_most};

    type Item = Utf8Chunk<'a>;

    ghost next_gives = { GivesChunk };

    ghost remaining = { λ octets. at_most (length octets) };

    fn next(&mut self) -> Option<Utf8Chunk<'a>> {
        self.next_counted(&mut Turns::new())
    }
}
