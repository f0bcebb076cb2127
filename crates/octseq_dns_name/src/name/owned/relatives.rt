//! Names that own their octets: their relations to other names.
ghost use Rattle.std.specs.Prelude.{◌≡◌, ◌≤◌, ◌↔◌, [], length, drop, IsTrue, IsNone, IfSome};
ghost use Rattle.octseq_dns_name.specs.Owned.{owned_labels};
ghost use Rattle.octseq_dns_name.specs.Read.{labels_of};
ghost use Rattle.octseq_dns_name.specs.Relatives.{NameEndsWith, NameStartsWith, suffixes};
ghost use Rattle.octseq_dns_name.specs.Suffixes.{suffixes_left};

use crate::name::owned::Name;
use crate::name::{ParsedName, Suffixes};
use octseq::AsOctets;

impl<B: AsOctets> Name<B> {
    /// Returns the name without its first label, in the same octets, or `None` for the root.
    pub fn parent(&self) -> Option<ParsedName<&[u8]>>
        ensures root { IsNone result ↔ (owned_labels self.now ≡ []) }
        ensures labels { IfSome result (λ parent. labels_of parent ≡ drop 1 (owned_labels self.now)) }
    {
        self.parsed().parent()
    }

    /// Returns an iterator over the name, its parent, and so on to the root, in the same octets: at most 128 names.
    pub fn iter_suffixes(&self) -> Suffixes<&[u8]>
        ensures suffixes { suffixes_left result ≡ suffixes (owned_labels self.now) }
        ensures most { length (suffixes_left result) ≤ 128 }
    {
        self.parsed().iter_suffixes()
    }

    /// Whether its last labels are those of `base`, ignoring ASCII case. Every name ends with the root.
    pub fn ends_with<R: AsOctets + Copy>(&self, base: &ParsedName<R>) -> bool
        ensures { IsTrue result ↔ NameEndsWith (owned_labels self.now) (labels_of base.now) }
    {
        self.parsed().ends_with(base)
    }

    /// Whether its first labels are those of `base`, ignoring ASCII case. The root of `base`, which isn't a label,
    /// doesn't count.
    pub fn starts_with<R: AsOctets + Copy>(&self, base: &ParsedName<R>) -> bool
        ensures { IsTrue result ↔ NameStartsWith (owned_labels self.now) (labels_of base.now) }
    {
        self.parsed().starts_with(base)
    }
}
