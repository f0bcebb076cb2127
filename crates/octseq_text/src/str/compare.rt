//! Texts compared by their characters, and formatted.
ghost use Rattle.std.specs.Prelude.{◌≡◌, Some, nat_eq};
ghost use Rattle.std.specs.Cmp.{partial_order_from_own_ties};
ghost use Rattle.std.specs.Cmp.Lexicographic.{pointwise, slice_cmp};
ghost use Rattle.std.specs.Fmt.{debug_str, styled_text};
ghost use Rattle.std.specs.Cmp.Rules.{comparing, hashing};
ghost use Rattle.std.specs.Hash as fed;
ghost use Rattle.std.specs.Ordering.{nat_cmp, on, as_partial_cmp};
ghost use Rattle.std.proofs.Common.{rules};
ghost use Rattle.octseq_utf8.specs.Text.{chars, octets_of};

use super::builder::StrBuilder;
use super::text::Str;
use octseq_core::builder::AsOctets;
use std::cmp::Ordering;
use std::fmt;
use std::hash::{Hash, Hasher};

impl<Octets: AsOctets> PartialEq for Str<Octets> {
    ghost eq = { on (λ text. chars (Octets.content text)) (pointwise nat_eq) };

    ghost laws = { Prim.search (comparing, rules) };

    fn eq(&self, other: &Self) -> bool {
        self.as_slice() == other.as_slice()
    }
}

impl<Octets: AsOctets> Eq for Str<Octets> {
    ghost laws = { Prim.search (comparing, rules) };
}

/// Compares the lists of the characters' numbers: the first two that differ decide, and a text is less than any longer
/// text that begins with it.
impl<Octets: AsOctets> Ord for Str<Octets> {
    ghost cmp = { on (λ text. chars (Octets.content text)) (slice_cmp nat_cmp) };

    ghost total = { Prim.search (comparing, rules) };

    ghost matches_partial_cmp = { Prim.search (comparing, rules) };

    ghost matches_eq = { Prim.search (comparing, rules) };

    fn cmp(&self, other: &Self) -> Ordering {
        self.as_slice().cmp(other.as_slice())
    }
}

impl<Octets: AsOctets> PartialOrd for Str<Octets> {
    ghost partial_cmp = { as_partial_cmp (on (λ text. chars (Octets.content text)) (slice_cmp nat_cmp)) };

    ghost laws = { partial_order_from_own_ties (Prim.search (comparing, rules)) (Prim.search (comparing, rules)) };

    fn partial_cmp(&self, other: &Self) -> Option<Ordering> {
        Some(self.cmp(other))
    }
}

impl<Octets: AsOctets> Hash for Str<Octets> {
    ghost hash_input = { λ text. fed.str (octets_of (chars (Octets.content text))) };

    ghost respects_eq = { Prim.search (hashing, rules) };

    fn hash<H: Hasher>(&self, state: &mut H) {
        self.as_str().hash(state);
    }
}

/// Prints the text. Width, fill and precision count characters, as for a `str`.
impl<Octets: AsOctets> fmt::Display for Str<Octets> {
    ghost output = { λ text. Some (Octets.content text) };

    ghost styled_output = { λ text options. Some (styled_text options (Octets.content text)) };

    fn fmt<W: fmt::Write>(&self, f: &mut fmt::Formatter<W>) -> fmt::Result {
        f.pad(self.as_str())
    }
}

/// Prints the text in quotes, with escapes, as for a `str`.
impl<Octets: AsOctets> fmt::Debug for Str<Octets> {
    ghost debug_output = { λ text. debug_str (Octets.content text) };

    fn fmt<W: fmt::Write>(&self, f: &mut fmt::Formatter<W>) -> fmt::Result {
        fmt::Debug::fmt(self.as_str(), f)
    }
}

impl<Octets: AsOctets> PartialEq for StrBuilder<Octets> {
    ghost eq = { on (λ text. chars (Octets.content text)) (pointwise nat_eq) };

    ghost laws = { Prim.search (comparing, rules) };

    fn eq(&self, other: &Self) -> bool {
        self.as_text() == other.as_text()
    }
}

impl<Octets: AsOctets> Eq for StrBuilder<Octets> {
    ghost laws = { Prim.search (comparing, rules) };
}

/// Compares the lists of the characters' numbers: the first two that differ decide, and a text is less than any longer
/// text that begins with it.
impl<Octets: AsOctets> Ord for StrBuilder<Octets> {
    ghost cmp = { on (λ text. chars (Octets.content text)) (slice_cmp nat_cmp) };

    ghost total = { Prim.search (comparing, rules) };

    ghost matches_partial_cmp = { Prim.search (comparing, rules) };

    ghost matches_eq = { Prim.search (comparing, rules) };

    fn cmp(&self, other: &Self) -> Ordering {
        self.as_text().cmp(&other.as_text())
    }
}

impl<Octets: AsOctets> PartialOrd for StrBuilder<Octets> {
    ghost partial_cmp = { as_partial_cmp (on (λ text. chars (Octets.content text)) (slice_cmp nat_cmp)) };

    ghost laws = { partial_order_from_own_ties (Prim.search (comparing, rules)) (Prim.search (comparing, rules)) };

    fn partial_cmp(&self, other: &Self) -> Option<Ordering> {
        Some(self.cmp(other))
    }
}

impl<Octets: AsOctets> Hash for StrBuilder<Octets> {
    ghost hash_input = { λ text. fed.str (octets_of (chars (Octets.content text))) };

    ghost respects_eq = { Prim.search (hashing, rules) };

    fn hash<H: Hasher>(&self, state: &mut H) {
        self.as_text().hash(state);
    }
}

/// Prints the text. Width, fill and precision count characters, as for a `str`.
impl<Octets: AsOctets> fmt::Display for StrBuilder<Octets> {
    ghost output = { λ text. Some (Octets.content text) };

    ghost styled_output = { λ text options. Some (styled_text options (Octets.content text)) };

    fn fmt<W: fmt::Write>(&self, f: &mut fmt::Formatter<W>) -> fmt::Result {
        fmt::Display::fmt(&self.as_text(), f)
    }
}

/// Prints the text in quotes, with escapes, as for a `str`.
impl<Octets: AsOctets> fmt::Debug for StrBuilder<Octets> {
    ghost debug_output = { λ text. debug_str (Octets.content text) };

    fn fmt<W: fmt::Write>(&self, f: &mut fmt::Formatter<W>) -> fmt::Result {
        fmt::Debug::fmt(&self.as_text(), f)
    }
}
