//! The plain wire form of labels.
ghost use Rattle.std.specs.Prelude.{◌≡◌, ◌↔◌, ◌+◌, ◌<◌, ◌≤◌, true, ℕ, List, [], ◌∷◌, ◌++◌, length, map};
ghost use Rattle.std.specs.Prelude.{IsTrue, IfOk, IfErr, OnOk, OnErr};
ghost use Rattle.octseq.specs.Limit.{ExceedsLimit};
ghost use Rattle.octseq_dns_name.specs.Name.{wire_length};
ghost use Rattle.octseq_dns_name.specs.Read.{labels_left, labels_of};
ghost use Rattle.octseq_dns_name.specs.Unfit.{IsWrong, HasWrong};
ghost use Rattle.octseq_dns_name.specs.Wire.{wire, AreLabels, IsWireOf};

use crate::error::{FromLabelsError, FromTextError};
use crate::name::{Labels, NAME_MAX, ParsedName};
use octseq::builder::infallible;
use octseq::{AppendError, Array, AsOctets, OctetsBuilder};
use std::alloc::AllocError;

/// The maximum number of octets of a label: RFC 1035, 2.3.4.
pub(crate) const LABEL_MAX: usize = 63;

/// Returns the number of octets of labels in wire form: each after its length, and one octet for the root.
pub(crate) fn wire_len<R: AsOctets + Copy>(labels: Labels<R>) -> usize
    ensures { result ≡ wire_length (labels_left labels) }
{
    let mut len = 1usize;
    for label in labels {
        len += 1 + label.len();
    }
    len
}

/// Appends labels in plain wire form to a builder that has room for them.
pub(crate) fn append_labels<B: OctetsBuilder, R: AsOctets + Copy>(
    octets: &mut B,
    labels: Labels<R>,
) -> Result<(), AllocError>
    requires { ¬ ExceedsLimit B.limit (length (B.content octets.old) + wire_length (labels_left labels)) }
    ensures ok { OnOk result (B.content octets.new ≡ B.content octets.old ++ wire (labels_left labels)) }
    ensures labels { OnOk result (AreLabels (labels_left labels)) }
    ensures memory { OnErr result (B.asks ≡ true) }
{
    for label in labels {
        let slice = label.as_slice();
        append(octets, &[slice.len() as u8])?;
        append(octets, slice)?;
    }
    append(octets, &[0])
}

/// Appends a slice to a builder that has room for it.
pub(crate) fn append<B: OctetsBuilder>(octets: &mut B, slice: &[u8]) -> Result<(), AllocError>
    requires { ¬ ExceedsLimit B.limit (length (B.content octets.old) + length slice.now) }
    ensures ok { OnOk result (B.content octets.new ≡ B.content octets.old ++ slice.now) }
    ensures memory { OnErr result (B.asks ≡ true) }
{
    match octets.append_slice(slice) {
        Ok(()) => Ok(()),
        Err(AppendError::Memory) => Err(AllocError),
        Err(AppendError::Short(_)) => unreachable!(),
    }
}

/// Returns the plain wire form of the name with these labels.
pub(crate) fn wire_of_labels(labels: &[&[u8]]) -> Result<Array<255>, FromLabelsError>
    ensures ok { IfOk result (λ octets. IsWireOf (map (λ label. label.now) labels.now) octets.content) }
    ensures wrong { IfErr result (λ fault. HasWrong fault (map (λ label. label.now) labels.now)) }
{
    let mut octets = Array::<255>::new();
    for label in labels {
        try_append_label(&mut octets, label)?;
    }
    Ok(with_root(octets))
}

/// Appends a label after its length, if it isn't wrong after the labels so far.
#[tactic(auto, using(crate::proofs::Names::wire_append))]
fn try_append_label(octets: &mut Array<255>, label: &[u8]) -> Result<(), FromLabelsError>
    ensures ok { OnOk result (octets.new.content ≡ octets.old.content ++ length label.now ∷ label.now) }
    ensures right { OnOk result ((1 ≤ length label.now) × (length label.now ≤ 63)) }
    ensures room { OnOk result (length octets.new.content + 1 ≤ 255) }
    ensures wrong { (before : List (List ℕ)) → length octets.old.content + 1 ≡ wire_length before
        → IfErr result (λ fault. IsWrong fault before label.now) }
{
    if label.is_empty() {
        return Err(FromLabelsError::EmptyLabel);
    }
    if label.len() > LABEL_MAX {
        return Err(FromLabelsError::LongLabel);
    }
    if !has_room(octets, label) {
        return Err(FromLabelsError::LongName);
    }
    append_label(octets, label);
    Ok(())
}

/// Whether there is room for one more label, and the root.
pub(crate) fn has_room(octets: &Array<255>, label: &[u8]) -> bool
    requires { length label.now ≤ 63 }
    ensures { IsTrue result ↔ (length octets.now.content + 1 + length label.now + 1 ≤ 255) }
{
    octets.len() + 1 + label.len() + 1 <= NAME_MAX
}

/// Appends a label after its length.
pub(crate) fn append_label(octets: &mut Array<255>, label: &[u8])
    requires short { length label.now ≤ 63 }
    requires room { length octets.old.content + 1 + length label.now + 1 ≤ 255 }
    ensures { octets.new.content ≡ octets.old.content ++ length label.now ∷ label.now }
{
    infallible(octets.append_slice(&[label.len() as u8]));
    infallible(octets.append_slice(label));
}

/// Returns the octets followed by the root.
pub(crate) fn with_root(octets: Array<255>) -> Array<255>
    requires { length octets.content + 1 ≤ 255 }
    ensures { result.content ≡ octets.content ++ 0 ∷ [] }
{
    let mut all = octets;
    infallible(all.append_slice(&[0]));
    all
}

/// Returns the octets followed by a name.
pub(crate) fn with_name<R: AsOctets + Copy>(octets: Array<255>, name: &ParsedName<R>) -> Array<255>
    requires { length octets.content + wire_length (labels_of name.now) ≤ 255 }
    ensures content { result.content ≡ octets.content ++ wire (labels_of name.now) }
    ensures labels { AreLabels (labels_of name.now) }
{
    let mut all = octets;
    infallible(append_labels(&mut all, name.labels()));
    all
}

/// Returns the octets followed by a label and a name, or `LongName` if there is no room.
pub(crate) fn with_label_and_name<R: AsOctets + Copy>(
    octets: Array<255>,
    label: &[u8],
    name: &ParsedName<R>,
) -> Result<Array<255>, FromTextError>
    requires { length label.now ≤ 63 }
    ensures ok { IfOk result (λ all. (all.content ≡ octets.content ++ length label.now ∷ label.now
        ++ wire (labels_of name.now)) × AreLabels (labels_of name.now)
        × (length octets.content + 1 + length label.now + wire_length (labels_of name.now) ≤ 255)) }
    ensures long { IfErr result (λ fault. (fault ≡ FromTextError.LongName)
        × (255 < length octets.content + 1 + length label.now + wire_length (labels_of name.now))) }
{
    if octets.len() + 1 + label.len() + name.len() > NAME_MAX {
        return Err(FromTextError::LongName);
    }
    let mut all = octets;
    append_label(&mut all, label);
    Ok(with_name(all, name))
}
