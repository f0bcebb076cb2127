//! A text that doesn't grow.
ghost use Rattle.std.specs.Prelude.{◌≡◌, ◌↔◌, ◌⊎◌, true, None, [], length};
ghost use Rattle.std.specs.Prelude.{string_bytes, IsTrue, IsOk, IfOk, IfErr, OnErr};
ghost use Rattle.octseq_core.specs.ArrayOctets.{blank};
ghost use Rattle.octseq_core.specs.Limit.{IsWithin, ExceedsLimit};
ghost use Rattle.octseq_core.specs.Refusal.{IsShort, IsMemory, append_error};
ghost use Rattle.octseq_utf8.specs.Fault.{IsFault};
ghost use Rattle.octseq_utf8.specs.Text.{IsWellFormed, chars, octets_of};

use super::error::FromUtf8Error;
use crate::octets::OctetsFrom;
use crate::utf8::{Utf8Fault, find_fault};
use octseq_core::array::Array;
use octseq_core::builder::{
    AppendError, AsOctets, CloneOctets, EmptyBuilder, FromBuilder, OctetsBuilder, OctetsLimit,
    ShortBuf,
};
use std::alloc::{AllocError, Global};
use std::marker::Model;

/// A text in a sequence of octets. The content is well-formed UTF-8.
///
/// Contracts see the octets.
#[derive(Drop)]
pub struct Str<Octets: AsOctets> {
    octets: Octets,
}

impl<Octets: AsOctets> Model for Str<Octets> {
    ghost Value = { Octets };

    ghost view = { λ text. text.octets };

    ghost invariant = { λ text. IsWellFormed (Octets.content text.octets) };

    ghost inverse = { λ octets. record { octets = octets } };
}

impl<Octets: AsOctets> Str<Octets> {
    /// The octets as a text, if they are well-formed UTF-8.
    ///
    /// # Errors
    ///
    /// Octets that aren't well formed are returned in the error, with their first fault.
    ///
    /// # Examples
    ///
    /// ```
    /// // crates/octseq_callers/src/note.rt
    /// let len = parser.parse_u8()?;
    /// let octets = parser.parse_octets(usize::from(len))?;
    /// let words = Str::from_utf8(octets)?;
    /// ```
    pub fn from_utf8(octets: Octets) -> Result<Self, FromUtf8Error<Octets>>
        ensures variant { IsOk result ↔ IsWellFormed (Octets.content octets) }
        ensures ok { IfOk result (λ text. text ≡ octets) }
        ensures err { IfErr result (λ error. error.octets ≡ octets) }
        ensures fault { IfErr result (λ error. IsFault (Octets.content octets) error.fault) }
    {
        match find_fault(octets.as_ref()) {
            None => Ok(Str { octets }),
            Some(fault) => Err(FromUtf8Error::new(octets, fault)),
        }
    }

    /// Octets that the caller knows to be well-formed UTF-8, as a text.
    pub fn from_utf8_unchecked(octets: Octets) -> Self
        requires { IsWellFormed (Octets.content octets) }
        ensures { result ≡ octets }
    {
        Str { octets }
    }

    /// A copy of `s`.
    ///
    /// # Errors
    ///
    /// `Short` if `s` exceeds the limit of the builder's type, otherwise `Memory` if a request for memory was refused.
    pub fn try_copy_from_str(alloc: Global, s: &str) -> Result<Self, AppendError>
    where
        Octets: FromBuilder,
        Octets::Builder: EmptyBuilder,
        ensures ok { IfOk result (λ text. Octets.content text ≡ s.now) }
        ensures short { IsShort append_error result ↔ ExceedsLimit Octets.Builder.limit (length s.now) }
        ensures memory { IsMemory append_error result → (Octets.Builder.asks ≡ true) ⊎ (Octets.asks ≡ true) }
    {
        match Octets::Builder::limit() {
            Some(limit) if limit < s.len() => Err(AppendError::Short(ShortBuf)),
            _ => Ok(Self::copied(alloc, s)?),
        }
    }

    /// A copy of `s`, if the builder's type has no limit.
    ///
    /// # Errors
    ///
    /// `AllocError` if a request for memory was refused.
    pub fn copy_from_str(alloc: Global, s: &str) -> Result<Self, AllocError>
    where
        Octets: FromBuilder,
        Octets::Builder: EmptyBuilder,
        requires { Octets.Builder.limit ≡ None }
        ensures ok { IfOk result (λ text. Octets.content text ≡ s.now) }
        ensures memory { OnErr result ((Octets.Builder.asks ≡ true) ⊎ (Octets.asks ≡ true)) }
    {
        Self::copied(alloc, s)
    }

    /// A copy of a text that is within the limit.
    fn copied(alloc: Global, s: &str) -> Result<Self, AllocError>
    where
        Octets: FromBuilder,
        Octets::Builder: EmptyBuilder,
        requires { ¬ ExceedsLimit Octets.Builder.limit (length s.now) }
        ensures ok { IfOk result (λ text. Octets.content text ≡ s.now) }
        ensures memory { OnErr result ((Octets.Builder.asks ≡ true) ⊎ (Octets.asks ≡ true)) }
    {
        let mut builder = Octets::Builder::with_capacity(alloc, s.len())?;
        match builder.append_slice(s.as_bytes()) {
            Ok(()) => {
                let octets = Octets::from_builder(builder)?;
                Ok(Str { octets })
            }
            Err(AppendError::Memory) => Err(AllocError),
            Err(AppendError::Short(_)) => unreachable!(),
        }
    }

    /// Returns the octets.
    pub fn into_octets(self) -> Octets
        ensures same { result ≡ self }
        ensures well_formed { IsWellFormed (Octets.content result) }
    {
        self.octets
    }

    /// The underlying sequence of octets.
    pub fn as_octets(&self) -> &Octets
        ensures same { result.now ≡ self.now }
        ensures well_formed { IsWellFormed (Octets.content result.now) }
    {
        &self.octets
    }

    /// The text.
    #[tactic(auto, using(octseq_utf8::proofs::Bridge::utf8_from_well_formed))]
    pub fn as_str(&self) -> &str
        ensures { result.now ≡ Octets.content self.now }
    {
        let octets = self.as_slice();
        unsafe { std::str::from_utf8_unchecked(octets) }
    }

    /// The octets of the text.
    pub fn as_slice(&self) -> &[u8]
        ensures content { result.now ≡ Octets.content self.now }
        ensures well_formed { IsWellFormed result.now }
        ensures within { IsWithin Octets.limit (length result.now) }
    {
        self.octets.as_ref()
    }

    /// The length in octets.
    pub fn len(&self) -> usize
        ensures content { result ≡ length (Octets.content self.now) }
        ensures characters { result ≡ length (octets_of (chars (Octets.content self.now))) }
    {
        self.as_slice().len()
    }

    /// Whether the text is empty.
    pub fn is_empty(&self) -> bool
        ensures { IsTrue result ↔ (Octets.content self.now ≡ []) }
    {
        self.as_slice().is_empty()
    }

    /// The same text in a copy of the octets.
    ///
    /// # Errors
    ///
    /// `AllocError` if a request for memory was refused.
    pub fn clone(&self, alloc: Global) -> Result<Self, AllocError>
    where
        Octets: CloneOctets,
        ensures ok { IfOk result (λ text. Octets.content text ≡ Octets.content self.now) }
        ensures memory { OnErr result (Octets.asks ≡ true) }
    {
        let octets = self.octets.clone_octets(alloc)?;
        Ok(Str { octets })
    }
}

impl<'a> Str<&'a [u8]> {
    /// The slice as a text, if it is well-formed UTF-8. The octets are borrowed.
    ///
    /// # Errors
    ///
    /// The first fault, if the octets aren't well formed.
    pub fn from_utf8_slice(slice: &'a [u8]) -> Result<Self, Utf8Fault>
        ensures variant { IsOk result ↔ IsWellFormed slice.now }
        ensures ok { IfOk result (λ text. text.now ≡ slice.now) }
        ensures fault { IfErr result (IsFault slice.now) }
    {
        match find_fault(slice) {
            None => Ok(Str { octets: slice }),
            Some(fault) => Err(fault),
        }
    }

    /// The octets of `s`, borrowed, as a text.
    #[tactic(auto, using(octseq_utf8::proofs::Bridge::well_formed_from_utf8))]
    pub fn from_str(s: &'a str) -> Self
        ensures { result.now ≡ s.now }
    {
        Str {
            octets: s.as_bytes(),
        }
    }
}

impl Str<Vec<u8>> {
    /// The octets of a string as a text, without a copy.
    pub fn from_string(s: String) -> Self
        ensures { result.items ≡ string_bytes s }
    {
        Str {
            octets: s.into_bytes(),
        }
    }
}

impl<Octets: AsOctets> AsOctets for Str<Octets> {
    ghost content = { λ text. Octets.content text };

    ghost limit = { Octets.limit };

    ghost asks = { Octets.asks };

    ghost borrows = { λ text. Octets.borrows text };

    fn as_ref(&self) -> &[u8] {
        self.as_slice()
    }
}

impl<Octets: OctetsLimit> OctetsLimit for Str<Octets> {
    fn limit() -> Option<usize> {
        Octets::limit()
    }

    fn asks_memory() -> bool {
        Octets::asks_memory()
    }
}

impl<Source: AsOctets, Octets: OctetsFrom<Source>> OctetsFrom<Str<Source>> for Str<Octets> {
    fn try_octets_from(alloc: Global, source: Str<Source>) -> Result<Self, AppendError> {
        let octets = Octets::try_octets_from(alloc, source.into_octets())?;
        Ok(Str { octets })
    }
}

impl<const N: usize> Default for Str<Array<N>> {
    ghost is_default = { λ text. text ≡ blank N };

    fn default() -> Self {
        Str {
            octets: Array::new(),
        }
    }
}

impl Default for Str<&[u8]> {
    ghost is_default = { λ text. text.now ≡ [] };

    fn default() -> Self {
        Str { octets: &[] }
    }
}
