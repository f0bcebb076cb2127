//! Names that own their octets: their comparisons and text.
ghost use Rattle.std.specs.Prelude.{Some};
ghost use Rattle.std.proofs.Common.{refl};
ghost use Rattle.std.specs.Cmp.{on_equiv, on_total, partial_equiv_from_equiv};
ghost use Rattle.std.specs.Cmp.{partial_order_from_own_ties, partial_order_from_total};
ghost use Rattle.std.specs.Ordering.{on, as_partial_cmp};
ghost use Rattle.octseq_dns_name.specs.Order.{name_eq, name_cmp, name_writes};
ghost use Rattle.octseq_dns_name.specs.OrderLaws.{name_ties, name_eq_equiv, name_cmp_total, names_alike};
ghost use Rattle.octseq_dns_name.specs.Owned.{owned_labels};
ghost use Rattle.octseq_dns_name.specs.Text.{name_text};

use crate::name::owned::Name;
use octseq::AsOctets;
use std::cmp::Ordering;
use std::fmt;
use std::hash::{Hash, Hasher};

/// Prints each label followed by a full stop, and the root as `.`.
impl<B: AsOctets> fmt::Display for Name<B> {
    ghost output = { λ name. Some (name_text (owned_labels name)) };

    fn fmt<W: fmt::Write>(&self, f: &mut fmt::Formatter<W>) -> fmt::Result {
        fmt::Display::fmt(&self.parsed(), f)
    }
}

impl<B: AsOctets> PartialEq for Name<B> {
    ghost eq = { on owned_labels name_eq };

    ghost laws = { partial_equiv_from_equiv (on_equiv owned_labels name_eq_equiv) };

    fn eq(&self, other: &Self) -> bool {
        self.parsed() == other.parsed()
    }
}

impl<B: AsOctets> Eq for Name<B> {
    ghost laws = { on_equiv owned_labels name_eq_equiv };
}

impl<B: AsOctets> Ord for Name<B> {
    ghost cmp = { on owned_labels name_cmp };

    ghost total = { on_total owned_labels name_cmp_total };

    ghost matches_partial_cmp = { λ _ _. refl };

    ghost matches_eq = { λ one other. name_ties (owned_labels one) (owned_labels other) };

    fn cmp(&self, other: &Self) -> Ordering {
        self.parsed().cmp(&other.parsed())
    }
}

impl<B: AsOctets> PartialOrd for Name<B> {
    ghost partial_cmp = { as_partial_cmp (on owned_labels name_cmp) };

    ghost laws = { partial_order_from_own_ties (partial_order_from_total (on_total owned_labels name_cmp_total))
        (λ one other. name_ties (owned_labels one) (owned_labels other)) };

    fn partial_cmp(&self, other: &Self) -> Option<Ordering> {
        Some(self.cmp(other))
    }
}

impl<B: AsOctets> Hash for Name<B> {
    ghost hash_input = { λ name. name_writes (owned_labels name) };

    ghost respects_eq = { λ one other same. names_alike (owned_labels one) (owned_labels other) same };

    fn hash<H: Hasher>(&self, state: &mut H) {
        self.parsed().hash(state);
    }
}
