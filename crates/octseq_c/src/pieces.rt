//! Lossy text of octets that come in pieces, with a state that the caller keeps.
ghost use Rattle.std.specs.Prelude.{◌≡◌, ◌≢◌, ◌↔◌, ◌<◌, ◌≤◌, ◌^◌, ◌-◌, ◌⊎◌, ◌++◌, ℕ, List, [], length, replicate, take};
ghost use Rattle.std.specs.Prelude.{IsTrue, IsSome, IfSome, IfNone};
ghost use Rattle.std.specs.List.{concat};
ghost use Rattle.octseq.specs.Parts.{IsBeginning, Part, Splits, text};
ghost use Rattle.octseq.specs.Pieces.{Settles};
ghost use Rattle.octseq_text.specs.Progress.{HasReadParts};
ghost use Rattle.octseq_c.specs.LossyText.{IsSettledText, IsState, IsTextOfPieces, end_text, held};
ghost use Rattle.octseq_c.specs.Puts.{Puts};
ghost use Rattle.octseq_c.specs.Settled.{IsCompleted};
ghost use Rattle.octseq_c.specs.Status.{status_ok, status_no_room, status_too_long, status_bad_state};

use crate::room::put;
use crate::settled::{REPLACEMENT, fill, measure, put_at, replacement};
use crate::status::{BAD_STATE, NO_ROOM, OK, TOO_LONG};
use octseq::utf8::Turns;
use octseq_text::completion::{Completed, complete};

/// The state between two pieces: the octets of an incomplete character.
#[repr(C)]
#[derive(Clone, Copy)]
pub struct LossyState {
    /// The octets. The first `len` count.
    pub octets: [u8; 3],
    /// The number of octets.
    pub len: u8,
}

/// Writes the text of the next piece to the front of `out`.
#[unsafe(no_mangle)]
pub extern "C" fn octseq_lossy_piece(
    state: &mut LossyState,
    piece: &[u8],
    out: &mut [u8],
    written: &mut usize,
) -> u32
    ensures puts { IsState state.old
        → Puts (IsSettledText (held state.old ++ piece.now)) result out.old out.new written.new }
    ensures state { result ≡ status_ok → IsState state.new × ((settled : List Part) (end : List ℕ)
        → Settles (held state.old ++ piece.now) settled end → held state.new ≡ end) }
    ensures too_long { (result ≡ status_too_long) ↔ (IsState state.old × ((made : List ℕ)
        × IsSettledText (held state.old ++ piece.now) made × (2 ^ 64 - 1 < length made))) }
    ensures bad_state { (result ≡ status_bad_state) ↔ ¬ IsState state.old }
    ensures only { (result ≡ status_ok) ⊎ (result ≡ status_no_room) ⊎ (result ≡ status_too_long)
        ⊎ (result ≡ status_bad_state) }
    ensures kept { result ≢ status_ok → (out.new ≡ out.old) × (state.new ≡ state.old) }
    ensures nothing { result ≢ status_ok → result ≢ status_no_room → written.new ≡ 0 }
{
    *written = 0;
    let Some(held) = octets_held(state) else {
        return BAD_STATE;
    };
    let completed = completed(held, piece);
    let (text, left) = split(&completed, piece);
    let Some(extent) = measure(left, text.len()) else {
        return TOO_LONG;
    };
    *written = extent.text_len;
    if extent.text_len > out.len() {
        return NO_ROOM;
    }
    let at = put_at(out, 0, text);
    fill(out, at, left);
    *state = holding(extent.end);
    OK
}

/// Writes the text of what is left after the last piece to the front of `out`.
#[unsafe(no_mangle)]
pub extern "C" fn octseq_lossy_end(
    state: &mut LossyState,
    out: &mut [u8],
    written: &mut usize,
) -> u32
    ensures puts { IsState state.old
        → Puts (λ made. made ≡ end_text (held state.old)) result out.old out.new written.new }
    ensures state { result ≡ status_ok → (state.new.octets ≡ replicate 3 0) × (state.new.len ≡ 0) }
    ensures bad_state { (result ≡ status_bad_state) ↔ ¬ IsState state.old }
    ensures only { (result ≡ status_ok) ⊎ (result ≡ status_no_room) ⊎ (result ≡ status_bad_state) }
    ensures kept { result ≢ status_ok → (out.new ≡ out.old) × (state.new ≡ state.old) }
    ensures nothing { result ≢ status_ok → result ≢ status_no_room → written.new ≡ 0 }
{
    *written = 0;
    let Some(held) = octets_held(state) else {
        return BAD_STATE;
    };
    let status = put(replacement(held), out, written);
    if status == OK {
        *state = LossyState {
            octets: [0; 3],
            len: 0,
        };
    }
    status
}

/// The texts of all pieces, and of what is left after the last, are together the lossy text of the whole, however it
/// was split.
///
/// It does nothing. Calling it brings the law into the caller's proof.
pub fn pieces_are_the_whole()
    ensures { (pieces : List (List ℕ)) (made : List ℕ) (parts : List Part) → IsTextOfPieces [] pieces made
        → Splits (concat pieces) parts → made ≡ text parts }
{}

/// Returns the octets that a state holds, or `None` if it isn't a valid state.
fn octets_held(state: &LossyState) -> Option<&[u8]>
    ensures variant { IsSome result ↔ IsState state.now }
    ensures some { IfSome result (λ octets. octets.now ≡ held state.now) }
{
    let len = usize::from(state.len);
    if len > state.octets.len() {
        return None;
    }
    let octets = &state.octets[..len];
    if is_open_end(octets) {
        Some(octets)
    } else {
        None
    }
}

/// Whether octets are empty, or the beginning of a character.
fn is_open_end(octets: &[u8]) -> bool
    ensures { IsTrue result ↔ ((octets.now ≡ []) ⊎ IsBeginning octets.now) }
{
    match measure(octets, 0) {
        Some(extent) => extent.end == octets,
        None => false,
    }
}

/// Returns the state that holds an open end.
fn holding(end: &[u8]) -> LossyState
    requires { length end.now ≤ 3 }
    ensures held { held result ≡ end.now }
    ensures len { result.len ≤ 3 }
{
    let mut octets = [0; 3];
    octets[..end.len()].copy_from_slice(end);
    LossyState {
        octets,
        len: end.len() as u8,
    }
}

/// Returns what the octets that are held are with those of the piece after them, if any are held.
fn completed(held: &[u8], piece: &[u8]) -> Option<Completed>
    requires { (held.now ≡ []) ⊎ IsBeginning held.now }
    ensures { IsCompleted held.now piece.now result }
{
    if held.is_empty() {
        None
    } else {
        Some(complete(held, piece, &mut Turns::new()))
    }
}

/// Returns the text of the first part if it is settled, and the octets that are left.
fn split<'a>(completed: &'a Option<Completed>, piece: &'a [u8]) -> (&'a [u8], &'a [u8])
    requires { (held : List ℕ) × IsCompleted held piece.now completed.now }
    ensures { (held : List ℕ) → IsCompleted held piece.now completed.now
        → HasReadParts (held ++ piece.now) result.1.now [] result.0.now }
{
    match completed {
        None => (b"", piece),
        Some(Completed::Incomplete(end)) => (b"", end.as_slice()),
        Some(Completed::Character(text, taken)) => (text.as_slice(), &piece[*taken..]),
        Some(Completed::Invalid(taken)) => (REPLACEMENT, &piece[*taken..]),
    }
}
