//! The finder of the first fault.
//!
//! Text is mostly ASCII, or mostly of one script; a fault is rare. So the search goes run by run:
//!
//! - **Encodings.** While the current octet is 80 or more, four octets are loaded as one number, and one mask for each
//!   length tests whether an encoding begins there. Two encodings of two octets fit one number, and are passed at once.
//!   After an encoding of three or four octets, a loop tests for that length only. The masks cover the whole table:
//!   they leave no encoding to the next step, though no proof needs that. A single octet below 80 between two
//!   encodings, such as a space between words, takes a step of its own.
//! - **The table.** What no mask accepts is read octet by octet, by the table of the Unicode Standard. Only this step
//!   decides that there is a fault, and its size. It looks at the second octet first, since most bad parts end before
//!   it.
//! - **Lanes.** Octets below 80 are passed thirty-two at once, then sixteen: one load and one mask test whether all are
//!   below 80. If not, the mask gives the first octet of 80 or more, and the search jumps there.
//! - **The tail.** Fewer than sixteen octets are left. Two overlapping loads test whether all are below 80; if not,
//!   there is one part a step, by a word while four octets are left. The last three are read from the last word too,
//!   shifted.
//!
//! If there are sixteen to thirty-two octets, all below 80, two overlapping lanes show it.
//!
//! A turn passes one lane of sixteen octets below 80, or one part. If octets below 80 are jumped over, each counts as a
//! turn.
ghost use Rattle.std.specs.Prelude.{◌≡◌, ℕ, ◌+◌, ◌-◌, ◌*◌, ◌/◌, ◌%◌, ◌<◌, ◌≤◌, ◌↔◌, length, take};
ghost use Rattle.std.specs.Prelude.{drop, slice_index, count_by, nat_le, IsNone, IfNone, IfSome, IfOk, IfErr};
ghost use Rattle.std.specs.Int.{is_in_range};
ghost use Rattle.std.specs.List.{All};
ghost use Rattle.octseq_utf8.specs.Fault.{IsFault, fault_end, fault_from};
ghost use Rattle.octseq_utf8.specs.FirstPart.{IsAtFront};
ghost use Rattle.octseq_utf8.specs.Reading.{width_of, least_second, greatest_second, fitting};
ghost use Rattle.octseq_utf8.specs.Search.{IsSearching, IsFound, IsAfter, IsFaultAt};
ghost use Rattle.octseq_utf8.specs.Text.{IsWellFormed, chars};

use crate::fault::Utf8Fault;
use crate::lanes::{ascii_len, is_ascii_of_two_lanes, is_high_in_thirty_two, is_short_ascii};
use crate::turns::Turns;
use crate::words::{begins, begins_three, begins_two, is_four, is_pair_of_two, last_word, word_at};

/// The number of octets of an encoding that begins with this one, or 0 if none does.
#[tactic(auto, unfolding(crate::specs::Reading::width_of))]
fn width(first: u8) -> usize
    ensures { result ≡ width_of first }
{
    match first {
        0x00..=0x7F => 1,
        0xC2..=0xDF => 2,
        0xE0..=0xEF => 3,
        0xF0..=0xF4 => 4,
        _ => 0,
    }
}

/// Whether an octet can be the second one of an encoding that begins with `first`.
#[tactic(auto, unfolding(crate::specs::Reading::least_second, crate::specs::Reading::greatest_second))]
fn can_be_second(first: u8, second: u8) -> bool
    ensures { result ≡ is_in_range (least_second first) (greatest_second first) second }
{
    match first {
        0xE0 => 0xA0 <= second && second <= 0xBF,
        0xED => 0x80 <= second && second <= 0x9F,
        0xF0 => 0x90 <= second && second <= 0xBF,
        0xF4 => 0x80 <= second && second <= 0x8F,
        _ => 0x80 <= second && second <= 0xBF,
    }
}

/// Whether an octet is a continuation: one of 80..BF, which can be third or fourth in an encoding, but never first.
pub fn is_continuation(octet: u8) -> bool
    ensures { result ≡ is_in_range 0x80 0xBF octet }
{
    0x80 <= octet && octet <= 0xBF
}

/// The number of octets at the front that fit an encoding that begins with the first.
#[tactic(auto, unfolding(crate::specs::Reading::fitting_by))]
fn fitting_len(octets: &[u8], width: usize) -> usize
    requires some { 0 < length octets.now }
    requires width { width ≡ width_of (slice_index octets.now 0) }
    ensures { result ≡ fitting octets.now }
{
    if width < 2 {
        return width;
    }
    if octets.len() < 2 || !can_be_second(octets[0], octets[1]) {
        return 1;
    }
    if width < 3 || octets.len() < 3 || !is_continuation(octets[2]) {
        return 2;
    }
    if width < 4 || octets.len() < 4 || !is_continuation(octets[3]) {
        return 3;
    }
    4
}

/// What octets begin with.
#[derive(Clone, Copy, Debug, PartialEq, Eq)]
pub enum FirstPart {
    /// The encoding of a character, of this many octets.
    Encoding(usize),
    /// A maximal ill-formed subpart of this many octets, or `None` if the octets end within a character.
    Bad(Option<usize>),
}

/// Returns what octets begin with, by Table 3-7 of the Unicode Standard, and counts a turn. There is at least one
/// octet.
pub fn first_part(octets: &[u8], turns: &mut Turns) -> FirstPart
    requires { 0 < length octets.now }
    ensures part { IsAtFront octets.now result }
    ensures turns { turns.new ≡ turns.old + 1 }
{
    turns.tick();
    part_at_front(octets)
}

/// Returns the fault of octets that begin with a bad part of this size, as [`FirstPart::Bad`] has it.
pub fn fault_at_front(size: Option<usize>) -> Utf8Fault
    ensures { result ≡ record { place = 0; size = size } }
{
    Utf8Fault::new(0, size)
}

/// What is at the front of octets, by the table.
///
/// Most bad parts have one octet, and the second octet shows it.
#[inline(always)]
fn part_at_front(octets: &[u8]) -> FirstPart
    requires { 0 < length octets.now }
    ensures { IsAtFront octets.now result }
{
    if octets[0] >= 0x80 && octets.len() > 1 && !is_continuation(octets[1]) {
        return FirstPart::Bad(Some(1));
    }
    let width = width(octets[0]);
    let fitting = fitting_len(octets, width);
    if width == 0 {
        FirstPart::Bad(Some(1))
    } else if fitting == width {
        FirstPart::Encoding(width)
    } else if fitting == octets.len() {
        FirstPart::Bad(None)
    } else {
        FirstPart::Bad(Some(fitting))
    }
}

/// Passes octets below 80 from a place on, in lanes of thirty-two that have no other octet. Returns the place after
/// them.
#[inline(always)]
fn skip_lanes(octets: &[u8], from: usize, turns: &mut Turns) -> usize
    requires { from ≤ length octets.now }
    ensures past { from ≤ result }
    ensures passed { (start : ℕ) → IsSearching octets.now from start turns.old
        → IsSearching octets.now result start turns.new }
{
    let lanes = octets.len().saturating_sub(31);
    let mut at = from;
    while at < lanes && !is_high_in_thirty_two(octets, at) {
        turns.pass(2);
        at += 32;
    }
    at
}

/// Passes octets below 80 from a place on, while sixteen octets are left: first lanes that have no other octet, then
/// the octets before the first of 80 or more. Returns the place after them.
#[inline(always)]
fn skip_ascii(octets: &[u8], from: usize, turns: &mut Turns) -> usize
    requires { from ≤ length octets.now }
    ensures past { from ≤ result }
    ensures further { from + 15 < length octets.now → slice_index octets.now from < 0x80 → from < result }
    ensures passed { (start : ℕ) → IsSearching octets.now from start turns.old
        → IsSearching octets.now result start turns.new }
{
    let lanes = octets.len().saturating_sub(15);
    let mut at = skip_lanes(octets, from, turns);
    while at < lanes {
        let low = ascii_len(octets, at);
        if low < 16 {
            turns.pass(low);
            return at + low;
        }
        turns.tick();
        at += 16;
    }
    at
}

/// Passes encodings of `LEN` octets from a place on, one a turn, while four octets are left. Returns the place after
/// them.
///
/// Text of one script is mostly encodings of one length, and a loop that tests for only that length is fastest.
#[inline(always)]
fn skip_run<const LEN: usize>(octets: &[u8], from: usize, turns: &mut Turns) -> usize
    requires from { from ≤ length octets.now }
    requires len { (2 ≤ LEN) × (LEN ≤ 4) }
    ensures past { from ≤ result }
    ensures passed { (start : ℕ) → IsSearching octets.now from start turns.old
        → IsSearching octets.now result start turns.new }
{
    let words = octets.len().saturating_sub(3);
    let mut at = from;
    while at < words && begins::<LEN>(word_at(octets, at)) {
        turns.tick();
        at += LEN;
    }
    at
}

/// Passes encodings of two octets or more from a place on, and single octets below 80 between them, one a turn, while
/// sixteen octets are left. Returns the place after them, or the fault there.
#[inline(always)]
fn skip_encodings(octets: &[u8], from: usize, turns: &mut Turns) -> Result<usize, Utf8Fault>
    requires { from ≤ length octets.now }
    ensures past { IfOk result (λ place. from ≤ place) }
    ensures further { from + 15 < length octets.now → 0x80 ≤ slice_index octets.now from
        → IfOk result (λ place. from < place) }
    ensures passed { (start : ℕ) → IsSearching octets.now from start turns.old
        → IfOk result (λ place. IsSearching octets.now place start turns.new) }
    ensures fault { (start : ℕ) → IsSearching octets.now from start turns.old
        → IfErr result (IsFound octets.now start turns.new) }
{
    let words = octets.len().saturating_sub(15);
    let mut at = from;
    while at < words {
        if octets[at] < 0x80 && octets[at + 1] < 0x80 {
            break;
        }
        turns.tick();
        let word = word_at(octets, at);
        if octets[at] < 0x80 {
            at += 1;
        } else if is_pair_of_two(word) {
            turns.tick();
            at += 4;
        } else if begins_two(word) {
            at += 2;
        } else if begins_three(word) {
            at = skip_run::<3>(octets, at + 3, turns);
        } else if is_four(word) {
            at = skip_run::<4>(octets, at + 4, turns);
        } else {
            match part_at_front(&octets[at..]) {
                FirstPart::Encoding(len) => at += len,
                FirstPart::Bad(size) => return Err(Utf8Fault::new(at, size)),
            }
        }
    }
    Ok(at)
}

/// Passes one part a turn from a place on, while four octets are left. Returns the place after them, or the fault
/// there.
#[inline(always)]
fn skip_words(octets: &[u8], from: usize, turns: &mut Turns) -> Result<usize, Utf8Fault>
    requires { from ≤ length octets.now }
    ensures passed { IfOk result (λ place. IsAfter octets.now from place turns.old turns.new) }
    ensures few { IfOk result (λ place. length octets.now < place + 4) }
    ensures place { IfErr result (λ fault. from ≤ fault.place) }
    ensures fault { IfErr result (λ fault.
        IsFaultAt (drop from octets.now) turns.old turns.new (fault_from from fault)) }
    ensures octets { IfErr result (λ fault. turns.new ≤ turns.old + (length octets.now - from)) }
{
    let words = octets.len().saturating_sub(3);
    let mut at = from;
    while at < words {
        turns.tick();
        let word = word_at(octets, at);
        // (each length has its own branch, which the processor predicts if the text is of one script)
        if octets[at] < 0x80 {
            at += 1;
        } else if begins_two(word) {
            at += 2;
        } else if begins_three(word) {
            at += 3;
        } else if is_four(word) {
            at += 4;
        } else {
            match part_at_front(&octets[at..]) {
                FirstPart::Encoding(len) => at += len,
                FirstPart::Bad(size) => return Err(Utf8Fault::new(at, size)),
            }
        }
    }
    Ok(at)
}

/// What is at a place among the last three octets: by the last word if there is one, otherwise by the table.
#[inline(always)]
fn last_part(octets: &[u8], at: usize) -> FirstPart
    requires { (at < length octets.now) × (length octets.now < at + 4) }
    ensures { IsAtFront (drop at octets.now) result }
{
    if octets[at] < 0x80 {
        return FirstPart::Encoding(1);
    }
    if octets.len() >= 4 {
        let word = last_word(octets, at);
        if begins_two(word) {
            return FirstPart::Encoding(2);
        }
        if begins_three(word) {
            return FirstPart::Encoding(3);
        }
    }
    part_at_front(&octets[at..])
}

/// The first fault from a place on, one part a turn: the octets from there on are read as if alone.
fn fault_by_parts(octets: &[u8], from: usize, turns: &mut Turns) -> Option<Utf8Fault>
    requires { from ≤ length octets.now }
    ensures none { IsNone result ↔ IsWellFormed (drop from octets.now) }
    ensures place { IfSome result (λ fault. from ≤ fault.place) }
    ensures fault { IfSome result (λ fault. IsFault (drop from octets.now) (fault_from from fault)) }
    ensures turns { IfNone result (turns.new ≤ turns.old + length (chars (drop from octets.now))) }
    ensures turns_to_fault { IfSome result (λ fault.
        turns.new ≤ turns.old + length (chars (take (fault.place - from) (drop from octets.now))) + 1) }
    ensures passed { IfNone result (length octets.now - from + 16 * turns.old ≤ 16 * turns.new) }
    ensures passed_to_fault { IfSome result (λ fault.
        fault_end (drop from octets.now) (fault_from from fault) + 16 * turns.old ≤ 16 * turns.new) }
    ensures octets { turns.new ≤ turns.old + (length octets.now - from) }
{
    if is_short_ascii(octets, from) {
        turns.pass(octets.len() - from);
        return None;
    }
    let mut at = match skip_words(octets, from, turns) {
        Ok(at) => at,
        Err(fault) => return Some(fault),
    };
    while at < octets.len() {
        turns.tick();
        match last_part(octets, at) {
            FirstPart::Encoding(len) => at += len,
            FirstPart::Bad(size) => return Some(Utf8Fault::new(at, size)),
        }
    }
    None
}

/// The first fault of the octets, or `None` if they are well-formed UTF-8.
///
/// While sixteen octets are left, sixteen that are all below 80 take one turn. Otherwise each character takes one, and
/// so does the fault. Requests no memory.
pub fn first_fault(octets: &[u8], turns: &mut Turns) -> Option<Utf8Fault>
    ensures none { IsNone result ↔ IsWellFormed octets.now }
    ensures fault { IfSome result (IsFault octets.now) }

    // At most as many turns as parts, and a turn for every sixteen octets that were passed.
    ensures turns { IfNone result (turns.new ≤ turns.old + length (chars octets.now)) }
    ensures turns_to_fault { IfSome result (λ fault.
        turns.new ≤ turns.old + length (chars (take fault.place octets.now)) + 1) }
    ensures passed { IfNone result (length octets.now + 16 * turns.old ≤ 16 * turns.new) }
    ensures passed_to_fault { IfSome result (λ fault.
        fault_end octets.now fault + 16 * turns.old ≤ 16 * turns.new) }

    // ASCII is passed at sixteen octets a turn.
    ensures ascii { All (λ octet. octet < 0x80) octets.now
        → turns.new ≤ turns.old + length octets.now / 16 + length octets.now % 16 }

    // When mixed with ASCII, an octet of 80 or more costs at most eight turns; the end costs fifteen.
    ensures mixed { turns.new ≤ turns.old + length octets.now / 16
        + 8 * count_by (λ octet. nat_le 0x80 octet) octets.now + 15 }
{
    if is_ascii_of_two_lanes(octets) {
        turns.pass(octets.len().div_ceil(16));
        return None;
    }
    let mut at = 0;
    while at + 15 < octets.len() {
        match skip_encodings(octets, at, turns) {
            Ok(end) => at = skip_ascii(octets, end, turns),
            Err(fault) => return Some(fault),
        }
    }
    fault_by_parts(octets, at, turns)
}

/// Like [`first_fault`], for callers that don't read the count.
///
/// # Examples
///
/// ```
/// // crates/octseq_callers/src/single_calls.rt
/// match find_fault(octets) {
///     None => octets,
///     Some(fault) => &octets[..fault.valid_up_to()],
/// }
/// ```
pub fn find_fault(octets: &[u8]) -> Option<Utf8Fault>
    ensures none { IsNone result ↔ IsWellFormed octets.now }
    ensures fault { IfSome result (IsFault octets.now) }
{
    first_fault(octets, &mut Turns::new())
}
