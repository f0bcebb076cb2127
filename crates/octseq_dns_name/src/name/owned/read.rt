//! Names made from text, and from labels.
ghost use Rattle.std.specs.Prelude.{◌≡◌, ◌≢◌, ◌≤◌, ◌↔◌, true, ℕ, List, map, length};
ghost use Rattle.std.specs.Prelude.{IsErr, IsErrOf, IfOk, OnErr};
ghost use Rattle.octseq.specs.Limit.{ExceedsLimit};
ghost use Rattle.octseq_dns_name.specs.Name.{wire_length};
ghost use Rattle.octseq_dns_name.specs.Origin.{SpellsWithOrigin, IsRefusedWithOrigin};
ghost use Rattle.octseq_dns_name.specs.Owned.{owned_labels};
ghost use Rattle.octseq_dns_name.specs.Read.{labels_of};
ghost use Rattle.octseq_dns_name.specs.Refused.{IsNameRefused};
ghost use Rattle.octseq_dns_name.specs.Spelling.{SpellsName};
ghost use Rattle.octseq_dns_name.specs.Unfit.{AreUnfit};
ghost use Rattle.octseq_dns_name.specs.Wire.{AreLabels, IsWireOf};

use crate::error::{FromLabelsError, FromTextError};
use crate::name::ParsedName;
use crate::name::owned::Name;
use crate::name::spelling::{wire_of, wire_with_origin};
use crate::name::wire::{append, wire_of_labels};
use octseq::{Array, AsOctets, EmptyBuilder};
use std::alloc::{AllocError, Global};

impl Name<Array<255>> {
    /// Reads the text of a name, with a full stop after each label: RFC 1035, 5.1. An octet of a label is written as
    /// itself if it is visible ASCII and none of `"().;\@$`, after a backslash if it isn't a digit, or as a backslash
    /// and its number in three decimal digits. It requests no memory.
    ///
    /// # Errors
    ///
    /// The text is read from the left, and the first fault decides: `UnexpectedEnd` if it ends without a full stop or
    /// is empty, `EmptyLabel`, `LongLabel` at the 64th octet of a label, `LongName` at the full stop of the label with
    /// which the name has more than 255 octets, `IllegalEscape` at a backslash that spells no octet, `IllegalOctet` at
    /// another octet that spells none.
    ///
    /// # Examples
    ///
    /// ```
    /// // crates/octseq_examples/src/dns.rt
    /// let host = Name::from_text("www.example.com.")?;
    /// let domain = Name::from_text("example.com.")?;
    /// let is_within = host.ends_with(&domain.parsed()); // true
    /// ```
    pub fn from_text(text: &str) -> Result<Self, FromTextError>
        ensures ok { IfOk result (λ name. SpellsName (owned_labels name) text.now) }
        ensures malformed { IsErr result → (labels : List (List ℕ)) → AreLabels labels → wire_length labels ≤ 255
            → ¬ SpellsName labels text.now }
        ensures refused { (fault : FromTextError) → IsErrOf result fault ↔ IsNameRefused fault text.now }
    {
        Self::from_text_octets(text.as_bytes())
    }

    /// Reads the text of a name from its octets, as [`from_text`](Self::from_text) does from a string. It requests no
    /// memory.
    ///
    /// # Errors
    ///
    /// As `from_text`.
    pub fn from_text_octets(text: &[u8]) -> Result<Self, FromTextError>
        ensures ok { IfOk result (λ name. SpellsName (owned_labels name) text.now) }
        ensures malformed { IsErr result → (labels : List (List ℕ)) → AreLabels labels → wire_length labels ≤ 255
            → ¬ SpellsName labels text.now }
        ensures refused { (fault : FromTextError) → IsErrOf result fault ↔ IsNameRefused fault text.now }
    {
        let octets = wire_of(text)?;
        Ok(Name::from_wire(octets))
    }

    /// Reads the text of a name that may be relative to an origin: RFC 1035, 5.1. It is read as by
    /// [`from_text`](Self::from_text), except that the labels of a text without a full stop at its end are followed by
    /// the origin's, and `@` alone is the origin. It requests no memory.
    ///
    /// # Errors
    ///
    /// As `from_text`, but `UnexpectedEnd` only if the text is empty, and `LongName` also at the end of a relative name
    /// that has more than 255 octets with the origin.
    pub fn from_text_with_origin<R: AsOctets + Copy>(
        text: &str,
        origin: &ParsedName<R>,
    ) -> Result<Self, FromTextError>
        ensures ok { IfOk result (λ name. SpellsWithOrigin (labels_of origin.now) (owned_labels name) text.now) }
        ensures malformed { IsErr result → (labels : List (List ℕ)) → AreLabels labels → wire_length labels ≤ 255
            → ¬ SpellsWithOrigin (labels_of origin.now) labels text.now }
        ensures refused { (fault : FromTextError) → IsErrOf result fault
            ↔ IsRefusedWithOrigin (labels_of origin.now) fault text.now }
    {
        Self::from_text_octets_with_origin(text.as_bytes(), origin)
    }

    /// Reads the text of a name that may be relative to an origin from its octets, as
    /// [`from_text_with_origin`](Self::from_text_with_origin) does from a string. It requests no memory.
    ///
    /// # Errors
    ///
    /// As `from_text_with_origin`.
    pub fn from_text_octets_with_origin<R: AsOctets + Copy>(
        text: &[u8],
        origin: &ParsedName<R>,
    ) -> Result<Self, FromTextError>
        ensures ok { IfOk result (λ name. SpellsWithOrigin (labels_of origin.now) (owned_labels name) text.now) }
        ensures malformed { IsErr result → (labels : List (List ℕ)) → AreLabels labels → wire_length labels ≤ 255
            → ¬ SpellsWithOrigin (labels_of origin.now) labels text.now }
        ensures refused { (fault : FromTextError) → IsErrOf result fault
            ↔ IsRefusedWithOrigin (labels_of origin.now) fault text.now }
    {
        let octets = wire_with_origin(text, origin)?;
        Ok(Name::from_wire(octets))
    }
}

impl<B: EmptyBuilder> Name<B> {
    /// Makes a name from its labels: the octets of each, from the first one on, without the root.
    ///
    /// # Errors
    ///
    /// The labels are checked in order, and the first wrong one decides: `EmptyLabel`, `LongLabel` if it has more than
    /// 63 octets, `LongName` if the name has more than 255 with it. If none is wrong, `Short` if the wire form passes
    /// the limit of the builder's type, otherwise `Memory` if a request for memory was refused.
    pub fn from_labels(alloc: Global, labels: &[&[u8]]) -> Result<Self, FromLabelsError>
        ensures ok { IfOk result (λ name. owned_labels name ≡ map (λ label. label.now) labels.now) }
        ensures refused { (fault : FromLabelsError) → fault ≢ FromLabelsError.Memory
            → IsErrOf result fault ↔ AreUnfit B.limit fault (map (λ label. label.now) labels.now) }
        ensures memory { IsErrOf result FromLabelsError.Memory → B.asks ≡ true }
    {
        let wire = wire_of_labels(labels)?;
        match B::limit() {
            Some(limit) if limit < wire.len() => Err(FromLabelsError::Short),
            _ => Ok(Name::held(alloc, wire.as_slice())?),
        }
    }

    /// Makes the name with this plain wire form, which is within the limit.
    fn held(alloc: Global, octets: &[u8]) -> Result<Self, AllocError>
        requires room { ¬ ExceedsLimit B.limit (length octets.now) }
        requires plain { (labels : List (List ℕ)) × IsWireOf labels octets.now }
        ensures ok { (labels : List (List ℕ)) → IsWireOf labels octets.now
            → IfOk result (λ name. owned_labels name ≡ labels) }
        ensures memory { OnErr result (B.asks ≡ true) }
    {
        let mut held = B::with_capacity(alloc, octets.len())?;
        append(&mut held, octets)?;
        Ok(Name::from_wire(held))
    }
}
