//! The search for the first fault of octets that come in pieces.
ghost use Rattle.std.specs.Prelude.{◌≡◌, ℕ, ◌+◌, ◌*◌, ◌-◌, ◌^◌, ◌<◌, ◌≤◌, ◌↔◌, List, [], ◌++◌, length, take};
ghost use Rattle.std.specs.Prelude.{IfOk, IfErr, OnOk, IsSome, IsNone, IfSome, IfNone};
ghost use Rattle.octseq_utf8.specs.Fault.{IsFault};
ghost use Rattle.octseq_utf8.specs.Parts.{IsBeginning};
ghost use Rattle.octseq_utf8.specs.Text.{IsWellFormed};
ghost use Rattle.octseq_text.specs.FaultSearch.{ReportsFault, HasSearched, PassesAfter, SettlesAfter};
ghost use Rattle.octseq_text.specs.Progress.{IsOpenEnd};

use crate::completion::{Completed, complete};
use octseq_core::array::Array;
use octseq_core::builder::infallible;
use octseq_utf8::{Turns, Utf8Fault, fault_at_front, find_fault, first_fault};
use std::marker::Model;

/// A search for the first fault of octets that come in pieces. However they are cut, it is that of
/// [`find_fault`](crate::utf8::find_fault).
///
/// It holds at most three octets, of a character that isn't complete yet. Once it has found a fault that no further
/// octets can change, it looks at no more of them.
///
/// More octets may come than a `usize` counts. A place past the greatest `usize` saturates.
///
/// Contracts see the number of octets passed, the open end after them, and the fault.
#[derive(Drop)]
pub struct FaultPieces {
    passed: usize,
    end: Array<4>,
    fault: Option<Utf8Fault>,
}

impl Model for FaultPieces {
    ghost use Rattle.octseq_text.specs.FaultSearch.{Searched, IsSearch};

    ghost Value = { Searched };

    ghost view = { λ pieces. record { passed = pieces.passed; end = pieces.end.content; fault = pieces.fault } };

    ghost invariant = { λ pieces. IsSearch
        (record { passed = pieces.passed; end = pieces.end.content; fault = pieces.fault }) };
}

impl FaultPieces {
    /// A search of no octets yet.
    pub fn new() -> Self
        ensures { HasSearched result [] }
    {
        FaultPieces {
            passed: 0,
            end: Array::new(),
            fault: None,
        }
    }

    /// Searches the next piece.
    ///
    /// # Examples
    ///
    /// ```
    /// // crates/octseq_examples/src/text.rt
    /// let mut search = FaultPieces::new();
    /// search.feed(b"caf\xC3"); // ends with the first octet of "é"
    /// search.feed(b"\xA9 \xFF"); // begins with the second one
    /// search.finish() // a fault at index 6
    /// ```
    pub fn feed(&mut self, piece: &[u8])
        ensures { (octets : List ℕ) → HasSearched self.old octets → HasSearched self.new (octets ++ piece.now) }
    {
        self.feed_counted(piece, &mut Turns::new());
    }

    /// As [`FaultPieces::feed`], and counts the turns of the search: at most one for each octet of the piece, and one
    /// more if a character that isn't complete yet is looked at again.
    pub fn feed_counted(&mut self, piece: &[u8], turns: &mut Turns)
        ensures searched { (octets : List ℕ)
            → HasSearched self.old octets → HasSearched self.new (octets ++ piece.now) }

        // No more turns than octets and one, and a turn for every sixteen octets that were passed; none after a
        // fault.
        ensures turns { turns.new ≤ turns.old + length piece.now + 1 }
        ensures passed { IfNone self.new.fault (length piece.now + 16 * turns.old ≤ 16 * turns.new) }
        ensures turns_kept { turns.old ≤ turns.new }
        ensures nothing { IsSome self.old.fault → turns.new ≡ turns.old }
    {
        if self.fault.is_some() {
            return;
        }
        match read(self.passed, &self.end, piece, turns) {
            Ok(reached) => {
                self.passed = reached.passed;
                self.end = reached.end;
            }
            Err(fault) => self.fault = Some(fault),
        }
    }

    /// The fault that no further octets can change, if one was found.
    pub fn fault(&self) -> Option<Utf8Fault>
        ensures fault { result ≡ self.now.fault }

        // It is the fault of the octets, whatever follows.
        ensures settled { (octets more : List ℕ) → HasSearched self.now octets
            → IfSome result (ReportsFault (octets ++ more)) }
        ensures same { (octets more : List ℕ) → HasSearched self.now octets
            → IfSome result (λ fault. length (octets ++ more) < 2 ^ 64 → IsFault (octets ++ more) fault) }

        // If there is none, some octets that follow make all of them well formed.
        ensures none { (octets : List ℕ) → HasSearched self.now octets
            → IfNone result ((more : List ℕ) × IsWellFormed (octets ++ more)) }
    {
        self.fault
    }

    /// The first fault of all octets, or `None` if they are well-formed UTF-8.
    pub fn finish(self) -> Option<Utf8Fault>
        ensures none { (octets : List ℕ) → HasSearched self octets → IsNone result ↔ IsWellFormed octets }
        ensures fault { (octets : List ℕ) → HasSearched self octets
            → IfSome result (λ fault. length octets < 2 ^ 64 → IsFault octets fault) }

        // A place past the greatest saturates.
        ensures reported { (octets : List ℕ) → HasSearched self octets → IfSome result (ReportsFault octets) }
    {
        if let Some(fault) = self.fault {
            return Some(fault);
        }
        match find_fault(self.end.as_slice()) {
            None => None,
            Some(fault) => Some(fault.offset(self.passed)),
        }
    }
}

/// How far a search has come: the number of octets passed, and the open end after them.
#[derive(Drop)]
struct Reached {
    passed: usize,
    end: Array<4>,
}

/// Searches the open end and the piece after it. `passed` octets came before them.
fn read(
    passed: usize,
    end: &Array<4>,
    piece: &[u8],
    turns: &mut Turns,
) -> Result<Reached, Utf8Fault>
    requires { IsOpenEnd end.now.content }
    ensures passed { IfOk result (λ reached.
        PassesAfter passed (end.now.content ++ piece.now) reached.passed reached.end.content) }
    ensures fault { IfErr result (SettlesAfter passed (end.now.content ++ piece.now)) }
    ensures turns { turns.new ≤ turns.old + length piece.now + 1 }
    ensures turns_passed { OnOk result (length piece.now + 16 * turns.old ≤ 16 * turns.new) }
    ensures kept { turns.old ≤ turns.new }
{
    if end.as_slice().is_empty() {
        return search(passed, piece, turns);
    }
    match complete(end.as_slice(), piece, turns) {
        Completed::Incomplete(end) => Ok(Reached { passed, end }),
        Completed::Character(encoding, taken) => {
            let passed = passed.saturating_add(encoding.as_slice().len());
            search(passed, &piece[taken..], turns)
        }
        Completed::Invalid(taken) => {
            let len = end.as_slice().len() + taken;
            Err(fault_at_front(Some(len)).offset(passed))
        }
    }
}

/// Searches octets. `passed` octets came before them.
fn search(passed: usize, octets: &[u8], turns: &mut Turns) -> Result<Reached, Utf8Fault>
    ensures passed { IfOk result (λ reached.
        PassesAfter passed octets.now reached.passed reached.end.content) }
    ensures fault { IfErr result (SettlesAfter passed octets.now) }
    ensures turns { turns.new ≤ turns.old + length octets.now }
    ensures turns_passed { OnOk result (length octets.now + 16 * turns.old ≤ 16 * turns.new) }
    ensures kept { turns.old ≤ turns.new }
{
    match first_fault(octets, turns) {
        None => Ok(Reached {
            passed: passed.saturating_add(octets.len()),
            end: Array::new(),
        }),
        Some(fault) => {
            if fault.error_len().is_some() {
                return Err(fault.offset(passed));
            }
            Ok(Reached {
                passed: passed.saturating_add(fault.valid_up_to()),
                end: open_end(&octets[fault.valid_up_to()..]),
            })
        }
    }
}

/// The octets as an open end.
fn open_end(octets: &[u8]) -> Array<4>
    requires { length octets.now ≤ 4 }
    ensures { result.content ≡ octets.now }
{
    infallible(Array::try_from(octets))
}
