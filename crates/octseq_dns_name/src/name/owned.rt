//! Names that own their octets.
ghost use Rattle.std.specs.Prelude.{◌≡◌, ◌+◌, ◌≤◌, ◌↔◌, true, ℕ, List, [], ◌++◌, length, IsTrue, IfOk, OnOk, OnErr};
ghost use Rattle.octseq.specs.Window.{whole};
ghost use Rattle.octseq.specs.Limit.{ExceedsLimit};
ghost use Rattle.octseq.specs.Refusal.{IsShort, IsMemory, append_error};
ghost use Rattle.octseq_dns_name.specs.Name.{wire_length};
ghost use Rattle.octseq_dns_name.specs.OneName.{Named, named_once};
ghost use Rattle.octseq_dns_name.specs.Wire.{wire, IsWireOf};

use crate::name::wire::append_labels;
use crate::name::{Labels, ParsedName};
use octseq::{AppendError, AsOctets, EmptyBuilder, OctetsBuilder, Parser, ShortBuf};
use std::alloc::{AllocError, Global};

mod compare;
mod read;
mod relatives;

/// A name that owns its octets: its plain wire form, without pointers, in a builder.
#[derive(Debug, Drop)]
pub struct Name<B: AsOctets> {
    octets: B,
    ghost named: { Named (whole (B.content octets)) } by { named_once (whole (B.content octets)) },
    ghost plain: { B.content octets ≡ wire named.0 },
}

impl<B: AsOctets> Name<B> {
    ghost use Rattle.octseq_dns_name.specs.Owned.{owned_labels};
    ghost use Rattle.octseq_dns_name.specs.Read.{labels_of, labels_left};

    /// Returns the name as one that was read from its own octets.
    pub fn parsed(&self) -> ParsedName<&[u8]>
        ensures { labels_of result ≡ owned_labels self.now }
    {
        let octets = self.octets.as_ref();
        ParsedName {
            parser: Parser::from_ref(octets),
            len: Some(octets.len()),
        }
    }

    /// Returns an iterator over the labels, from the first one on.
    pub fn labels(&self) -> Labels<&[u8]>
        ensures { labels_left result ≡ owned_labels self.now }
    {
        self.parsed().labels()
    }

    /// Returns the plain wire form: each label after its length, and the root.
    pub fn as_slice(&self) -> &[u8]
        ensures { result.now ≡ wire (owned_labels self.now) }
    {
        self.octets.as_ref()
    }

    /// Returns the number of octets in wire form.
    pub fn len(&self) -> usize
        ensures len { result ≡ wire_length (owned_labels self.now) }
        ensures most { result ≤ 255 }
    {
        self.parsed().len()
    }

    /// Returns the number of labels, without the root.
    pub fn label_count(&self) -> usize
        ensures { result ≡ length (owned_labels self.now) }
    {
        self.parsed().label_count()
    }

    /// Whether it is the root, which has no labels.
    pub fn is_root(&self) -> bool
        ensures { IsTrue result ↔ (owned_labels self.now ≡ []) }
    {
        self.parsed().is_root()
    }

    /// Makes the name with this plain wire form.
    fn from_wire(octets: B) -> Self
        requires { (labels : List (List ℕ)) × IsWireOf labels (B.content octets) }
        ensures { (labels : List (List ℕ)) → IsWireOf labels (B.content octets) → owned_labels result ≡ labels }
    {
        Name { octets }
    }

    /// Returns the builder, which holds the plain wire form.
    pub fn into_octets(self) -> B
        ensures { B.content result ≡ wire (owned_labels self) }
    {
        self.octets
    }

    /// Copies a name whose wire form is within the limit.
    fn copied<R: AsOctets + Copy>(
        alloc: Global,
        name: &ParsedName<R>,
    ) -> Result<Name<B>, AllocError>
    where
        B: EmptyBuilder,
        requires { ¬ ExceedsLimit B.limit (wire_length (labels_of name.now)) }
        ensures ok { IfOk result (λ copy. owned_labels copy ≡ labels_of name.now) }
        ensures memory { OnErr result (B.asks ≡ true) }
    {
        let mut octets = B::with_capacity(alloc, name.len())?;
        append_labels(&mut octets, name.labels())?;
        Ok(Name::from_wire(octets))
    }
}

impl<R: AsOctets + Copy> ParsedName<R> {
    ghost use Rattle.octseq_dns_name.specs.Owned.{owned_labels};
    ghost use Rattle.octseq_dns_name.specs.Read.{labels_of};

    /// Returns a copy of the name that owns its octets.
    ///
    /// # Errors
    ///
    /// `Short` if the wire form passes the limit of the builder's type, otherwise `Memory` if a request for memory was
    /// refused.
    pub fn try_to_name<B: EmptyBuilder>(&self, alloc: Global) -> Result<Name<B>, AppendError>
        ensures ok { IfOk result (λ name. owned_labels name ≡ labels_of self.now) }
        ensures short { IsShort append_error result ↔ ExceedsLimit B.limit (wire_length (labels_of self.now)) }
        ensures memory { IsMemory append_error result → B.asks ≡ true }
    {
        match B::limit() {
            Some(limit) if limit < self.len() => Err(AppendError::Short(ShortBuf)),
            _ => Ok(Name::copied(alloc, self)?),
        }
    }
}
