//! The faults of an UPDATE: RFC 7606, and RFC 4271, 6.3.
ghost use Rattle.std.specs.Prelude.{◌≡◌, ◌∷◌, [], Bool, List, length, Some, IfSome, IsNone};
ghost use Rattle.octseq_bgp.specs.Fault as said;
ghost use Rattle.octseq_bgp.specs.Fault.{AreFaultsOf, worst_of};
ghost use Rattle.octseq_bgp.specs.Handling.{rank, IsHandling};
ghost use Rattle.octseq_bgp.specs.Lists.{attribute_of, attributes_left};
ghost use Rattle.octseq_bgp.specs.Update.{Update};

use crate::attribute::{PathAttribute, PathAttributes};
use crate::message::handling::{Handling, attribute_handling, missing_handling};
use crate::message::update::UpdateMessage;
use octseq::AsOctets;

/// A fault of an UPDATE.
#[derive(Debug, Drop)]
pub struct Fault<R: AsOctets> {
    /// The faulty attribute, or `None` if one is missing.
    pub attribute: Option<PathAttribute<R>>,
    /// How the fault must be handled. It is never `Accept`.
    pub handling: Handling,
}

/// An iterator over the faults of an UPDATE.
#[derive(Debug, Drop)]
pub struct Faults<R: AsOctets> {
    attributes: PathAttributes<R>,
    seen: [bool; 256],
    external: bool,
    missing: Handling,
    ghost long: { length seen ≡ 256 },
}

impl<R: AsOctets + Copy> UpdateMessage<R> {
    ghost use Rattle.octseq_bgp.specs.FaultsOf.{AreLeft};
    ghost use Rattle.octseq_bgp.specs.Parsed.{update_of};

    /// Returns an iterator over the faults of the UPDATE, given whether it comes from an external peer. Each attribute
    /// that isn't accepted comes in order, with the worst handling of its faults, followed by a fault for a missing
    /// attribute, if one is missing. For the whole UPDATE, see [`handling`](Self::handling).
    pub fn faults(&self, external: bool) -> Faults<R>
        ensures { (row : List said.AttributeFault) → AreLeft result row
            → AreFaultsOf external (update_of self.now) row }
    {
        let session = self.path_attributes.session();
        Faults {
            attributes: self.path_attributes,
            seen: [false; 256],
            external,
            missing: missing_handling(self.lacks_mandatory(&session)),
        }
    }
}

impl<R: AsOctets + Copy> Faults<R> {
    ghost use Rattle.octseq_bgp.specs.FaultsOf.{AreLeft};

    /// Takes the next attribute. Returns it with its handling.
    fn take_attribute(&mut self) -> Option<(PathAttribute<R>, Handling)>
        ensures none { IsNone result → (attributes_left self.old.attributes ≡ [])
            × (attributes_left self.new.attributes ≡ []) × (self.new.seen ≡ self.old.seen) }
        ensures some { IfSome result (λ it. attributes_left self.old.attributes
            ≡ attribute_of it.0 ∷ attributes_left self.new.attributes) }
        ensures accepted { IfSome result (λ it. rank it.1 ≡ 0 → (row : List said.AttributeFault)
            → AreLeft self.new row → AreLeft self.old row) }
        ensures fault { IfSome result (λ it. ¬ (rank it.1 ≡ 0) → (row : List said.AttributeFault) → AreLeft self.new row
            → AreLeft self.old (record { attribute = Some (attribute_of it.0); rank = rank it.1 } ∷ row)) }
        ensures missing { self.new.missing ≡ self.old.missing }
    {
        let session = self.attributes.session();
        let mut ahead = self.attributes;
        let Some(attribute) = ahead.next() else {
            return None;
        };
        let code = usize::from(attribute.type_code);
        let again = self.seen[code];
        let handling = attribute_handling(&session, self.external, again, &attribute);
        self.attributes = ahead;
        self.seen[code] = true;
        Some((attribute, handling))
    }
}

impl<R: AsOctets + Copy> Iterator for Faults<R> {
    ghost use Rattle.std.specs.Iterator.{at_most};
    ghost use Rattle.octseq_bgp.specs.FaultsOf.{AreLeft, fault_of, faults_most};

    type Item = Fault<R>;

    ghost next_gives = { λ old result new.
        (IsNone result → AreLeft old [])
        × IfSome result (λ fault. (row : List said.AttributeFault) → AreLeft new row
        → AreLeft old (fault_of fault ∷ row)) };

    ghost remaining = { λ faults. at_most (faults_most faults) };

    fn next(&mut self) -> Option<Fault<R>> {
        'attributes: while let Some((attribute, handling)) = self.take_attribute() {
            if handling.rank() > 0 {
                return Some(Fault {
                    attribute: Some(attribute),
                    handling,
                });
            }
        }
        let handling = self.missing;
        if handling.rank() == 0 {
            return None;
        }
        self.missing = Handling::Accept;
        Some(Fault {
            attribute: None,
            handling,
        })
    }
}
