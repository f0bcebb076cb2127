//! Comparisons of names and labels, which ignore ASCII case: RFC 4343.
ghost use Rattle.std.specs.Prelude.{◌≡◌, ◌↔◌, ◌≤◌, length, drop, IsTrue};
ghost use Rattle.std.specs.Cmp.{on_equiv, on_total, partial_equiv_from_equiv};
ghost use Rattle.std.specs.Cmp.{partial_order_from_own_ties, partial_order_from_total};
ghost use Rattle.std.specs.Cmp.Rules.{comparing, hashing};
ghost use Rattle.std.specs.Ordering.{on, as_partial_cmp};
ghost use Rattle.std.proofs.Common.{rules};
ghost use Rattle.octseq_dns_name.specs.Order.{lower_label, label_eq, label_cmp, label_writes};
ghost use Rattle.octseq_dns_name.specs.Order.{lower_labels, name_eq, name_cmp, name_writes};
ghost use Rattle.octseq_dns_name.specs.OrderLaws.{name_ties, name_eq_equiv, name_cmp_total, names_alike};
ghost use Rattle.octseq_dns_name.specs.Read.{labels_of, labels_left, label_octets};

use crate::name::{Label, Labels, ParsedName};
use octseq::AsOctets;
use std::cmp::Ordering;
use std::hash::{Hash, Hasher};

impl<R: AsOctets> Label<R> {
    /// Whether it equals another label, ignoring ASCII case.
    pub fn label_eq<S: AsOctets>(&self, other: &Label<S>) -> bool
        ensures { IsTrue result ↔ (lower_label (label_octets self.now) ≡ lower_label (label_octets other.now)) }
    {
        self.as_slice().eq_ignore_ascii_case(other.as_slice())
    }

    /// Compares it with another label by the octets in lower case.
    pub fn label_cmp<S: AsOctets>(&self, other: &Label<S>) -> Ordering
        ensures { result ≡ label_cmp (label_octets self.now) (label_octets other.now) }
    {
        lowercase_cmp(self.as_slice(), other.as_slice())
    }
}

/// Compares octets in lower case.
fn lowercase_cmp(one: &[u8], other: &[u8]) -> Ordering
    ensures { result ≡ label_cmp one.now other.now }
{
    'octets: for at in 0..one.len().min(other.len()) {
        let found = one[at]
            .to_ascii_lowercase()
            .cmp(&other[at].to_ascii_lowercase());
        if found.is_ne() {
            return found;
        }
    }
    one.len().cmp(&other.len())
}

impl<R: AsOctets> PartialEq for Label<R> {
    ghost eq = { on label_octets label_eq };

    ghost laws = { Prim.search (comparing, rules) };

    fn eq(&self, other: &Self) -> bool {
        self.label_eq(other)
    }
}

impl<R: AsOctets> Eq for Label<R> {
    ghost laws = { Prim.search (comparing, rules) };
}

impl<R: AsOctets> Ord for Label<R> {
    ghost cmp = { on label_octets label_cmp };

    ghost total = { Prim.search (comparing, rules) };

    ghost matches_partial_cmp = { Prim.search (comparing, rules) };

    ghost matches_eq = { Prim.search (comparing, rules) };

    fn cmp(&self, other: &Self) -> Ordering {
        self.label_cmp(other)
    }
}

impl<R: AsOctets> PartialOrd for Label<R> {
    ghost partial_cmp = { as_partial_cmp (on label_octets label_cmp) };

    ghost laws = { partial_order_from_own_ties (Prim.search (comparing, rules)) (Prim.search (comparing, rules)) };

    fn partial_cmp(&self, other: &Self) -> Option<Ordering> {
        Some(self.cmp(other))
    }
}

impl<R: AsOctets> Hash for Label<R> {
    ghost hash_input = { λ label. label_writes (label_octets label) };

    ghost respects_eq = { Prim.search (hashing, rules) };

    fn hash<H: Hasher>(&self, state: &mut H) {
        state.write_usize(self.len());
        for octet in self.as_slice() {
            state.write_u8(octet.to_ascii_lowercase());
        }
    }
}

impl<R: AsOctets + Copy> ParsedName<R> {
    /// Whether it equals another name, label by label, ignoring ASCII case.
    pub fn name_eq<S: AsOctets + Copy>(&self, other: &ParsedName<S>) -> bool
        ensures { IsTrue result ↔ (lower_labels (labels_of self.now) ≡ lower_labels (labels_of other.now)) }
    {
        labels_eq(self.labels(), other.labels())
    }

    /// Compares it with another name in the canonical order: RFC 4034, 6.1. The last labels that differ decide, and a
    /// name comes before the names below it.
    pub fn name_cmp<S: AsOctets + Copy>(&self, other: &ParsedName<S>) -> Ordering
        ensures { result ≡ name_cmp (labels_of self.now) (labels_of other.now) }
    {
        let (count, others) = (self.label_count(), other.label_count());
        let last = passed(self.labels(), count.saturating_sub(others));
        let other_last = passed(other.labels(), others.saturating_sub(count));
        labels_cmp(last, other_last).then(count.cmp(&others))
    }
}

/// Whether labels equal others, ignoring ASCII case.
pub(crate) fn labels_eq<R: AsOctets + Copy, S: AsOctets + Copy>(
    labels: Labels<R>,
    others: Labels<S>,
) -> bool
    ensures { IsTrue result ↔ (lower_labels (labels_left labels) ≡ lower_labels (labels_left others)) }
{
    let mut ahead = others;
    for label in labels {
        match ahead.next() {
            Some(other) => {
                if !label.label_eq(&other) {
                    return false;
                }
            }
            None => return false,
        }
    }
    ahead.next().is_none()
}

/// Returns the labels without the first `count` ones.
pub(crate) fn passed<R: AsOctets + Copy>(labels: Labels<R>, count: usize) -> Labels<R>
    ensures { labels_left result ≡ drop count (labels_left labels) }
{
    let mut ahead = labels;
    'passed: for _at in 0..count {
        ahead.next();
    }
    ahead
}

/// Compares labels with as many others, from the last one on.
fn labels_cmp<R: AsOctets + Copy, S: AsOctets + Copy>(
    labels: Labels<R>,
    others: Labels<S>,
) -> Ordering
    requires { length (labels_left labels) ≡ length (labels_left others) }
    ensures { result ≡ name_cmp (labels_left labels) (labels_left others) }
{
    let mut found = Ordering::Equal;
    let mut ahead = others;
    for label in labels {
        match ahead.next() {
            Some(other) => found = label.label_cmp(&other).then(found),
            None => return found,
        }
    }
    found
}

impl<R: AsOctets + Copy> PartialEq for ParsedName<R> {
    ghost eq = { on labels_of name_eq };

    ghost laws = { partial_equiv_from_equiv (on_equiv labels_of name_eq_equiv) };

    fn eq(&self, other: &Self) -> bool {
        self.name_eq(other)
    }
}

impl<R: AsOctets + Copy> Eq for ParsedName<R> {
    ghost laws = { on_equiv labels_of name_eq_equiv };
}

impl<R: AsOctets + Copy> Ord for ParsedName<R> {
    ghost cmp = { on labels_of name_cmp };

    ghost total = { on_total labels_of name_cmp_total };

    ghost matches_partial_cmp = { Prim.search (comparing, rules) };

    ghost matches_eq = { λ one other. name_ties (labels_of one) (labels_of other) };

    fn cmp(&self, other: &Self) -> Ordering {
        self.name_cmp(other)
    }
}

impl<R: AsOctets + Copy> PartialOrd for ParsedName<R> {
    ghost partial_cmp = { as_partial_cmp (on labels_of name_cmp) };

    ghost laws = { partial_order_from_own_ties (partial_order_from_total (on_total labels_of name_cmp_total))
        (λ one other. name_ties (labels_of one) (labels_of other)) };

    fn partial_cmp(&self, other: &Self) -> Option<Ordering> {
        Some(self.cmp(other))
    }
}

impl<R: AsOctets + Copy> Hash for ParsedName<R> {
    ghost hash_input = { λ name. name_writes (labels_of name) };

    ghost respects_eq = { λ one other same. names_alike (labels_of one) (labels_of other) same };

    fn hash<H: Hasher>(&self, state: &mut H) {
        for label in self.labels() {
            label.hash(state);
        }
        state.write_usize(0);
    }
}
