//! Searching for a label among targets, which are in the order of their keys.
ghost use Rattle.std.specs.Prelude.{◌≡◌, ◌≤◌, ◌+◌, ◌↔◌, length, take, IsTrue, IsErr, IfOk, IfErr};
ghost use Rattle.std.specs.Prelude.{◌*◌, ◌-◌, ◌^◌};
ghost use Rattle.octseq_dns_compress.specs.TableMatches.{TableMatches};
ghost use Rattle.octseq_dns_compress.specs.SuffixMatch.{IsSuffixMatch};
ghost use Rattle.octseq_dns_compress.specs.Names.{Names, labels_wire};
ghost use Rattle.octseq_dns_compress.specs.PlainNames.{plain_labels};
ghost use Rattle.octseq_dns_compress.specs.Key.{
  label_at,
  digest_of,
  key,
  IsWholeLabel,
  key_cmp,
  AreTargets,
  IsPosition,
};
ghost use Rattle.octseq_dns_compress.specs.Key.{HasKeyAt, HasNoKey};

use crate::plain::LabelOffsets;
use crate::table::Target;
use octseq::Turns;
use std::cmp::Ordering;

/// How a name is written: its first labels, and a pointer to where the others are, or the root.
#[derive(Clone, Copy)]
pub(crate) struct SuffixMatch {
    /// The number of labels that are written.
    pub written: usize,
    /// The number of their octets, with their length octets.
    pub len: usize,
    /// The offset of the labels after them, or 0 if the root comes next.
    pub next: u16,
    /// The number of pointers that are followed from each label that is written.
    pub pointers: u8,
    /// The index in the table at which the target of the last written label belongs.
    pub position: usize,
}

/// Searches for the labels of a name, the last one first, up to the first one that isn't there.
pub(crate) fn search(
    octets: &[u8],
    targets: &[Target],
    name: &LabelOffsets<'_>,
    turns: &mut Turns,
) -> SuffixMatch
    requires targets { AreTargets octets.now targets.now }
    requires few { length targets.now ≤ 16384 }
    ensures ending { (names : Names) → TableMatches octets.now targets.now names
        → IsSuffixMatch octets.now targets.now names (plain_labels name.now) result }
    ensures written { result.written ≤ length (plain_labels name.now) }
    ensures len { result.len ≡ length (labels_wire (take result.written (plain_labels name.now))) }
    ensures short { result.len ≤ 254 }
    ensures next { result.next ≤ 16383 }
    ensures pointers { result.pointers ≤ 127 }
    ensures position { result.position ≤ length targets.now }
    ensures turns { turns.new ≤ turns.old + 16 * length (plain_labels name.now) }
    ensures least { turns.old + length (plain_labels name.now) ≤ turns.new + result.written }
{
    let mut ending = SuffixMatch {
        written: name.label_count(),
        len: name.len(),
        next: 0,
        pointers: 0,
        position: 0,
    };
    let mut near = 0;
    'labels: while ending.written > 0 {
        let label = name.label(ending.written - 1);
        match find(
            octets,
            targets,
            near,
            ending.next,
            digest(label),
            label,
            turns,
        ) {
            Ok(index) => {
                let target = targets[index];
                ending.written -= 1;
                ending.len -= label.len();
                ending.next = target.at;
                ending.pointers = target.pointers + 1;
                near = index;
            }
            Err(position) => {
                ending.position = position;
                return ending;
            }
        }
    }
    ending
}

/// Returns the label at an offset, with its length octet.
fn label_at(octets: &[u8], at: u16) -> &[u8]
    requires { IsWholeLabel octets.now at }
    ensures { result.now ≡ label_at octets.now at }
{
    let at = usize::from(at);
    let len = usize::from(octets[at]);
    &octets[at..at + 1 + len]
}

/// Returns the digest of a label, given with its length octet: a number of its last three octets.
#[inline(always)]
pub(crate) fn digest(label: &[u8]) -> u16
    ensures { result ≡ digest_of label.now }
{
    let len = label.len();
    if len < 3 {
        return 0;
    }
    let (third, second) = (u16::from(label[len - 3]), u16::from(label[len - 2]));
    240 * third + 16 * second + u16::from(label[len - 1])
}

/// Compares a target with a label, given with its length octet and its digest, that is followed by what is at `next`.
#[inline(always)]
fn compare(octets: &[u8], target: &Target, next: u16, digest: u16, label: &[u8]) -> Ordering
    requires whole { IsWholeLabel octets.now target.now.at }
    requires target { target.now.digest ≡ digest_of (label_at octets.now target.now.at) }
    requires digest { digest ≡ digest_of label.now }
    ensures { result ≡ key_cmp octets.now target.now (key next label.now) }
{
    match target.next.cmp(&next) {
        Ordering::Equal => match target.digest.cmp(&digest) {
            Ordering::Equal => label_at(octets, target.at).cmp(label),
            other => other,
        },
        other => other,
    }
}

/// Returns the index of the target of a label, given with its length octet, that is followed by what is at `next`. If
/// there is none, the error is the number of targets that come before it.
fn find_by_halves(
    octets: &[u8],
    targets: &[Target],
    next: u16,
    digest: u16,
    label: &[u8],
    turns: &mut Turns,
) -> Result<usize, usize>
    requires targets { AreTargets octets.now targets.now }
    requires digest { digest ≡ digest_of label.now }
    requires few { length targets.now ≤ 16384 }
    ensures found { IfOk result (HasKeyAt octets.now targets.now (key next label.now)) }
    ensures position { IfErr result (IsPosition octets.now targets.now (key next label.now)) }
    ensures none { IsErr result → HasNoKey octets.now targets.now (key next label.now) }
    ensures turns { turns.new ≤ turns.old + 15 }
    ensures least { IsErr result → length targets.now + 2 ≤ 2 * 2 ^ (turns.new - turns.old) }
    ensures on { turns.old ≤ turns.new }
{
    let mut from = 0;
    let mut left = targets.len();
    'halves: while left > 0 {
        turns.tick();
        let half = left / 2;
        let order = compare(octets, &targets[from + half], next, digest, label);
        if order.is_eq() {
            return Ok(from + half);
        }
        if order.is_lt() {
            from += half + 1;
            left -= half + 1;
        } else {
            left = half;
        }
    }
    Err(from)
}

/// Does the same, but first tries the targets beside the one at `near`, that of the labels that follow. The target
/// before it is often the one if they were written together, and the one after it if each was, before a pointer. Both
/// tries are one turn.
fn find(
    octets: &[u8],
    targets: &[Target],
    near: usize,
    next: u16,
    digest: u16,
    label: &[u8],
    turns: &mut Turns,
) -> Result<usize, usize>
    requires targets { AreTargets octets.now targets.now }
    requires digest { digest ≡ digest_of label.now }
    requires few { length targets.now ≤ 16384 }
    ensures found { IfOk result (HasKeyAt octets.now targets.now (key next label.now)) }
    ensures position { IfErr result (IsPosition octets.now targets.now (key next label.now)) }
    ensures none { IsErr result → HasNoKey octets.now targets.now (key next label.now) }
    ensures turns { turns.new ≤ turns.old + 16 }
    ensures least { turns.old + 1 ≤ turns.new }
{
    turns.tick();
    let (before, after) = (near.saturating_sub(1), near.saturating_add(1));
    if is_at(octets, targets, before, next, digest, label) {
        return Ok(before);
    }
    if is_at(octets, targets, after, next, digest, label) {
        return Ok(after);
    }
    find_by_halves(octets, targets, next, digest, label, turns)
}

/// Whether the target at an index is that of a label that is followed by what is at `next`.
fn is_at(
    octets: &[u8],
    targets: &[Target],
    index: usize,
    next: u16,
    digest: u16,
    label: &[u8],
) -> bool
    requires targets { AreTargets octets.now targets.now }
    requires digest { digest ≡ digest_of label.now }
    ensures { IsTrue result ↔ HasKeyAt octets.now targets.now (key next label.now) index }
{
    index < targets.len() && compare(octets, &targets[index], next, digest, label).is_eq()
}
