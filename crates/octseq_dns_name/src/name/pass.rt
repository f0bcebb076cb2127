//! The end of the name at an offset: its labels are passed, and then what its first pointer leads to.
ghost use Rattle.std.specs.Prelude.{◌≡◌, ◌+◌, ◌<◌, ◌≤◌, ℕ, length, slice_index};
ghost use Rattle.std.specs.Prelude.{IsTrue, IsFalse, IsNone, IfSome};
ghost use Rattle.octseq.specs.Window.{Window};
ghost use Rattle.octseq_dns_name.specs.Name.{HasPointer};
ghost use Rattle.octseq_dns_name.specs.Pass.{window_at, place_in, NoName, NoRest, PassesLabels, Rests, NameEnds};

use crate::name::wire::LABEL_MAX;
use crate::name::{NAME_MAX, POINTER_MAX};
use octseq::Turns;

/// Returns where the name at an offset ends, and its number of octets in wire form. It counts a turn for the root, for
/// each label and for each pointer.
#[inline(always)]
pub(crate) fn name_end(
    octets: &[u8],
    place: usize,
    end: usize,
    turns: &mut Turns,
) -> Option<(usize, usize)>
    requires ordered { place ≤ end }
    requires within { end ≤ length octets.now }
    ensures some { IfSome result (λ found.
        NameEnds (window_at octets.now place end) found.0 found.1 turns.old turns.new) }
    ensures none { IsNone result → NoName (window_at octets.now place end) }
    ensures turns { turns.new ≤ turns.old + 255 }
    ensures least { turns.old + 1 ≤ turns.new }
{
    turns.tick();
    let at = skip_labels(octets, place, end, turns)?;
    let before = at - place + 1;
    if octets[at] == 0 {
        return Some((at + 1, before));
    }
    if !points_before(octets, at, end, place) {
        return None;
    }
    let to = pointer_target(octets, at);
    turns.tick();
    let len = skip_rest(octets, to, end, before, turns)?;
    Some((at + 2, len))
}

/// Passes the labels at an offset. Returns the offset of the first octet that isn't a label's length, or `None` if
/// there is no name: the labels reach the end, or are too long.
#[inline(always)]
fn skip_labels(octets: &[u8], place: usize, end: usize, turns: &mut Turns) -> Option<usize>
    requires ordered { place ≤ end }
    requires within { end ≤ length octets.now }
    ensures some { IfSome result (λ at. PassesLabels (window_at octets.now place end) at turns.old turns.new) }
    ensures none { IsNone result → NoName (window_at octets.now place end) }
    ensures turns { turns.new ≤ turns.old + 128 }
    ensures least { turns.old ≤ turns.new }
{
    let limit = place + NAME_MAX.min(end - place);
    let mut at = place;
    'labels: while at < limit {
        let size = usize::from(octets[at]);
        if size == 0 || size > LABEL_MAX {
            return Some(at);
        }
        turns.tick();
        at += 1 + size;
    }
    None
}

/// Whether a pointer is at an offset that leads before `start`.
#[inline(always)]
fn points_before(octets: &[u8], at: usize, end: usize, start: usize) -> bool
    requires ordered { at < end }
    requires within { end ≤ length octets.now }
    ensures whole { IsTrue result → at + 1 < length octets.now }
    ensures mark { IsTrue result → 192 ≤ slice_index octets.now at }
    ensures some { IsTrue result → HasPointer start (window_at octets.now at end) (place_in octets.now at)
        (window_at octets.now (at + 2) end) }
    ensures none { IsFalse result → (to : ℕ) (v : Window) → ¬ HasPointer start (window_at octets.now at end) to v }
{
    if octets[at] < 192 {
        return false;
    }
    if end - at < 2 {
        return false;
    }
    pointer_target(octets, at) < start
}

/// Where the pointer at an offset leads.
#[inline(always)]
fn pointer_target(octets: &[u8], at: usize) -> usize
    requires whole { at + 1 < length octets.now }
    requires mark { 192 ≤ slice_index octets.now at }
    ensures { result ≡ place_in octets.now at }
{
    usize::from(octets[at] - 192) * 256 + usize::from(octets[at + 1])
}

/// Passes the rest of a name, from where its first pointer leads. Returns the number of octets of the name in wire
/// form, given the number before the rest, the root's one included.
#[inline(always)]
fn skip_rest(
    octets: &[u8],
    to: usize,
    end: usize,
    before: usize,
    turns: &mut Turns,
) -> Option<usize>
    requires ordered { to ≤ end }
    requires within { end ≤ length octets.now }
    requires short { before ≤ 255 }
    ensures some { IfSome result (λ len. Rests (window_at octets.now to end) before len turns.old turns.new) }
    ensures none { IsNone result → NoRest (window_at octets.now to end) before }
    ensures turns { turns.new + turns.new + before ≤ turns.old + turns.old + 507 }
    ensures least { turns.old ≤ turns.new }
{
    let mut start = to;
    let mut at = to;
    let mut len = before;
    let mut pointers = 1usize;
    'pieces: while at < end {
        let size = usize::from(octets[at]);
        if size == 0 {
            return Some(len);
        }
        if size <= LABEL_MAX {
            at += 1 + size;
            len += 1 + size;
            if len > NAME_MAX {
                return None;
            }
            turns.tick();
            continue;
        }
        if !points_before(octets, at, end, start) {
            return None;
        }
        start = pointer_target(octets, at);
        at = start;
        pointers += 1;
        if pointers > POINTER_MAX {
            return None;
        }
        turns.tick();
    }
    None
}
