//! Relations between names: the parent of a name, the names that it ends with, and those that it begins with.
ghost use Rattle.std.specs.Prelude.{◌≡◌, ◌≤◌, ◌↔◌, ⊤, [], length, drop, IsTrue, IsNone, IfSome};
ghost use Rattle.octseq_dns_name.specs.Read.{labels_of, labels_left, place_of};
ghost use Rattle.octseq_dns_name.specs.Relatives.{NameEndsWith, NameStartsWith, FirstEndsAt, suffixes};

use crate::name::compare::{labels_eq, passed};
use crate::name::step::next_label;
use crate::name::{Labels, ParsedName, a_name_has_labels};
use octseq::AsOctets;
use std::alloc::AllocError;

impl<R: AsOctets + Copy> ParsedName<R> {
    ghost use Rattle.octseq_dns_name.specs.Suffixes.{suffixes_left};

    /// Returns the name without its first label, or `None` for the root. It is in the same octets, where the first
    /// label ends.
    pub fn parent(&self) -> Option<ParsedName<R>>
        ensures root { IsNone result ↔ (labels_of self.now ≡ []) }
        ensures labels { IfSome result (λ parent. labels_of parent ≡ drop 1 (labels_of self.now)) }
        ensures place { IfSome result (λ parent. FirstEndsAt (place_of self.now) (place_of parent)) }
    {
        let mut parser = self.parser;
        let mut start = parser.pos();
        next_label(&mut parser, &mut start)?;
        Some(ParsedName { parser, len: None })
    }

    /// Returns an iterator over the name, its parent, and so on to the root: at most 128 names.
    pub fn iter_suffixes(&self) -> Suffixes<R>
        ensures suffixes { suffixes_left result ≡ suffixes (labels_of self.now) }
        ensures most { length (suffixes_left result) ≤ 128 }
    {
        a_name_has_labels(self);
        Suffixes { name: Some(*self) }
    }

    /// Whether its last labels are those of `base`, ignoring ASCII case. Every name ends with the root.
    pub fn ends_with<S: AsOctets + Copy>(&self, base: &ParsedName<S>) -> bool
        ensures { IsTrue result ↔ NameEndsWith (labels_of self.now) (labels_of base.now) }
    {
        let (count, others) = (self.label_count(), base.label_count());
        if count < others {
            return false;
        }
        labels_eq(passed(self.labels(), count - others), base.labels())
    }

    /// Whether its first labels are those of `base`, ignoring ASCII case. The root of `base`, which isn't a label,
    /// doesn't count.
    pub fn starts_with<S: AsOctets + Copy>(&self, base: &ParsedName<S>) -> bool
        ensures { IsTrue result ↔ NameStartsWith (labels_of self.now) (labels_of base.now) }
    {
        labels_start_with(self.labels(), base.labels())
    }
}

/// Whether labels begin with others, ignoring ASCII case.
fn labels_start_with<R: AsOctets + Copy, S: AsOctets + Copy>(
    labels: Labels<R>,
    others: Labels<S>,
) -> bool
    ensures { IsTrue result ↔ NameStartsWith (labels_left labels) (labels_left others) }
{
    let mut ahead = labels;
    for other in others {
        match ahead.next() {
            Some(label) => {
                if !label.label_eq(&other) {
                    return false;
                }
            }
            None => return false,
        }
    }
    true
}

/// An iterator over a name, its parent, and so on to the root.
#[derive(Debug)]
pub struct Suffixes<R: AsOctets> {
    name: Option<ParsedName<R>>,
}

impl<R: AsOctets + Copy> Copy for Suffixes<R> {}

impl<R: AsOctets + Copy> Clone for Suffixes<R> {
    ghost is_clone = { λ suffixes copy. copy ≡ suffixes };

    ghost is_infallible = { λ _. ⊤ };

    fn clone(&self) -> Result<Self, AllocError> {
        Ok(*self)
    }
}

impl<R: AsOctets + Copy> Iterator for Suffixes<R> {
    ghost use Rattle.std.specs.Iterator.{YieldsFirstBy, item_count};
    ghost use Rattle.octseq_dns_name.specs.Suffixes.{suffixes_left};

    type Item = ParsedName<R>;

    ghost next_gives = { YieldsFirstBy labels_of suffixes_left };

    ghost remaining = { item_count suffixes_left };

    fn next(&mut self) -> Option<ParsedName<R>> {
        let name = self.name?;
        self.name = name.parent();
        Some(name)
    }
}
