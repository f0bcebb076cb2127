//! A text that grows.
ghost use Rattle.std.specs.Prelude.{◌≡◌, ℕ, ◌+◌, ◌-◌, ◌<◌, ◌≤◌, ◌↔◌, true, None, List, [], ◌∷◌, ◌++◌, length};
ghost use Rattle.std.specs.Prelude.{take, IsTrue, IsOk, IsSome, IfOk, IfErr, IfSome, IfNone, OnOk, OnErr};
ghost use Rattle.octseq_core.specs.Appends.{Appends};
ghost use Rattle.octseq_core.specs.ArrayOctets.{blank};
ghost use Rattle.octseq_core.specs.Limit.{IsWithin};
ghost use Rattle.octseq_utf8.specs.Encoding.{IsEncoding, number_of, encoding_of};
ghost use Rattle.octseq_utf8.specs.Fault.{IsFault};
ghost use Rattle.octseq_text.specs.TextRun.{AppendsCharacters, append_reply, CutsTo, Pops};
ghost use Rattle.octseq_utf8.specs.Text.{IsWellFormed, IsBoundary, chars, octets_of};

use super::ends::{boundary, last_encoding};
use super::error::FromUtf8Error;
use super::staged::append_short;
use super::text::Str;
use crate::utf8::{Turns, find_fault};
use octseq_core::array::Array;
use octseq_core::builder::{
    AppendError, AsOctets, EmptyBuilder, FreezeBuilder, OctetsBuilder, OctetsLimit, Truncate,
};
use std::alloc::{AllocError, Global};
use std::marker::Model;

/// A text in a builder of octets. The content is well-formed UTF-8 after every call.
///
/// Contracts see the builder.
#[derive(Drop)]
pub struct StrBuilder<Octets: AsOctets> {
    pub(super) octets: Octets,
}

impl<Octets: AsOctets> Model for StrBuilder<Octets> {
    ghost Value = { Octets };

    ghost view = { λ text. text.octets };

    ghost invariant = { λ text. IsWellFormed (Octets.content text.octets) };
}

impl<Octets: AsOctets> StrBuilder<Octets> {
    /// An empty text.
    ///
    /// # Errors
    ///
    /// `AllocError` if a request for memory was refused.
    ///
    /// # Examples
    ///
    /// ```
    /// // crates/octseq_examples/src/text.rt
    /// let mut text = StrBuilder::<Vec<u8>>::new(alloc)?;
    /// text.push_str("caf")?;
    /// text.push('é')?; // "café"
    /// ```
    pub fn new(alloc: Global) -> Result<Self, AllocError>
    where
        Octets: EmptyBuilder,
        ensures ok { IfOk result (λ text. Octets.content text ≡ []) }
        ensures characters { IfOk result (λ text. chars (Octets.content text) ≡ []) }
        ensures memory { OnErr result (Octets.asks ≡ true) }
    {
        let octets = Octets::empty(alloc)?;
        Ok(StrBuilder { octets })
    }

    /// An empty text with room for about `capacity` octets.
    ///
    /// # Errors
    ///
    /// `AllocError` if a request for memory was refused.
    pub fn with_capacity(alloc: Global, capacity: usize) -> Result<Self, AllocError>
    where
        Octets: EmptyBuilder,
        ensures ok { IfOk result (λ text. Octets.content text ≡ []) }
        ensures characters { IfOk result (λ text. chars (Octets.content text) ≡ []) }
        ensures memory { OnErr result (Octets.asks ≡ true) }
    {
        let octets = Octets::with_capacity(alloc, capacity)?;
        Ok(StrBuilder { octets })
    }

    /// The octets as a text, if they are well-formed UTF-8.
    ///
    /// # Errors
    ///
    /// Octets that aren't well formed are returned in the error, with their first fault.
    ///
    /// # Examples
    ///
    /// ```
    /// // crates/octseq_examples/src/text.rt
    /// let octets = b"caf\xC3\xA9".to_vec(alloc)?;
    /// let mut text = StrBuilder::from_utf8(octets)?;
    /// text.push_str(" 5€")?; // "café 5€"
    /// ```
    pub fn from_utf8(octets: Octets) -> Result<Self, FromUtf8Error<Octets>>
        ensures variant { IsOk result ↔ IsWellFormed (Octets.content octets) }
        ensures ok { IfOk result (λ text. text ≡ octets) }
        ensures err { IfErr result (λ error. error.octets ≡ octets) }
        ensures fault { IfErr result (λ error. IsFault (Octets.content octets) error.fault) }
    {
        match find_fault(octets.as_ref()) {
            None => Ok(StrBuilder { octets }),
            Some(fault) => Err(FromUtf8Error::new(octets, fault)),
        }
    }

    /// Octets that the caller knows to be well-formed UTF-8, as a text.
    pub fn from_utf8_unchecked(octets: Octets) -> Self
        requires { IsWellFormed (Octets.content octets) }
        ensures { result ≡ octets }
    {
        StrBuilder { octets }
    }

    /// Returns the builder of octets.
    pub fn into_octets_builder(self) -> Octets
        ensures same { result ≡ self }
        ensures well_formed { IsWellFormed (Octets.content result) }
    {
        self.octets
    }

    /// The text in a sequence that no longer grows.
    ///
    /// # Errors
    ///
    /// `AllocError` if a request for memory was refused. The text is then dropped.
    pub fn freeze(self) -> Result<Str<Octets::Octets>, AllocError>
    where
        Octets: FreezeBuilder,
        ensures ok { IfOk result (λ text. Octets.Octets.content text ≡ Octets.content self) }
        ensures memory { OnErr result (Octets.Octets.asks ≡ true) }
    {
        let octets = self.into_octets_builder().freeze()?;
        Ok(Str::from_utf8_unchecked(octets))
    }

    /// The text, borrowed.
    pub(super) fn as_text(&self) -> Str<&[u8]>
        ensures { result.now ≡ Octets.content self.now }
    {
        Str::from_utf8_unchecked(self.as_slice())
    }

    /// The text.
    #[tactic(auto, using(octseq_utf8::proofs::Bridge::utf8_from_well_formed))]
    pub fn as_str(&self) -> &str
        ensures { result.now ≡ Octets.content self.now }
    {
        let octets = self.as_slice();
        unsafe { std::str::from_utf8_unchecked(octets) }
    }

    /// The octets of the text.
    pub fn as_slice(&self) -> &[u8]
        ensures content { result.now ≡ Octets.content self.now }
        ensures well_formed { IsWellFormed result.now }
        ensures within { IsWithin Octets.limit (length result.now) }
    {
        self.octets.as_ref()
    }

    /// The length in octets.
    pub fn len(&self) -> usize
        ensures content { result ≡ length (Octets.content self.now) }
        ensures characters { result ≡ length (octets_of (chars (Octets.content self.now))) }
    {
        self.as_slice().len()
    }

    /// The greatest length in octets that the text can have, or `None` if every length is possible.
    pub fn max_len(&self) -> Option<usize>
    where
        Octets: OctetsBuilder,
        ensures { result ≡ Octets.limit }
    {
        self.octets.max_len()
    }

    /// Whether the text is empty.
    pub fn is_empty(&self) -> bool
        ensures { IsTrue result ↔ (Octets.content self.now ≡ []) }
    {
        self.as_slice().is_empty()
    }

    /// Whether a character ends at this place, or the text begins there. Never past the length.
    pub fn is_char_boundary(&self, place: usize) -> bool
        ensures { IsTrue result ↔ IsBoundary (Octets.content self.now) place }
    {
        boundary(self.as_slice(), place, &mut Turns::new())
    }

    /// Appends all of `s`, or nothing.
    ///
    /// # Errors
    ///
    /// `Short` if the text would exceed the limit of its type, otherwise `Memory` if a request for memory was refused.
    /// The text is then unchanged.
    ///
    /// # Examples
    ///
    /// ```
    /// // crates/octseq_callers/src/join.rt
    /// let Some((first, others)) = words.split_first() else {
    ///     return Ok(());
    /// };
    /// text.try_push_str(first)?;
    /// for word in others {
    ///     text.try_push_str(separator)?;
    ///     text.try_push_str(word)?;
    /// }
    /// ```
    #[inline(always)]
    pub fn try_push_str(&mut self, s: &str) -> Result<(), AppendError>
    where
        Octets: OctetsBuilder,
        ensures appended { Appends Octets.limit Octets.asks result s.now
            (Octets.content self.old) (Octets.content self.new) }
        ensures borrows { Octets.borrows self.new ≡ Octets.borrows self.old }

        // The same for the characters.
        ensures step { AppendsCharacters Octets.limit Octets.asks (chars (Octets.content self.old)) (chars s.now)
            (append_reply result) (chars (Octets.content self.new)) }
    {
        self.octets.append_few(s.as_bytes())
    }

    /// Appends `ch`, or nothing.
    ///
    /// # Errors
    ///
    /// `Short` if the text would exceed the limit of its type, otherwise `Memory` if a request for memory was refused.
    /// The text is then unchanged.
    ///
    /// # Examples
    ///
    /// ```
    /// // crates/octseq_examples/src/text.rt
    /// let mut text = StrBuilder::<Array<4>>::new(alloc)?;
    /// text.try_push_str("abc")?;
    /// if text.try_push('€').is_err() {
    ///     text.try_push('?')?; // one octet was left, and "€" has three
    /// }
    /// ```
    #[inline(always)]
    pub fn try_push(&mut self, ch: char) -> Result<(), AppendError>
    where
        Octets: OctetsBuilder,
        ensures appended { Appends Octets.limit Octets.asks result (encoding_of ch)
            (Octets.content self.old) (Octets.content self.new) }
        ensures borrows { Octets.borrows self.new ≡ Octets.borrows self.old }

        // The character has one encoding, and no other.
        ensures encoding { IsEncoding (encoding_of ch) × (number_of (encoding_of ch) ≡ ch) }
        ensures only { (e : List ℕ) → IsEncoding e → number_of e ≡ ch → e ≡ encoding_of ch }

        // The same for the characters.
        ensures step { AppendsCharacters Octets.limit Octets.asks (chars (Octets.content self.old)) (ch ∷ [])
            (append_reply result) (chars (Octets.content self.new)) }
    {
        let mut octets = [0; 4];
        let encoding = ch.encode_utf8(&mut octets[..]);
        append_short(&mut self.octets, encoding.as_bytes())
    }

    /// Appends all of `s`, or nothing, in a builder without a limit.
    ///
    /// # Errors
    ///
    /// `AllocError` if a request for memory was refused. The text is then unchanged.
    pub fn push_str(&mut self, s: &str) -> Result<(), AllocError>
    where
        Octets: OctetsBuilder,
        requires { Octets.limit ≡ None }
        ensures ok { OnOk result (Octets.content self.new ≡ Octets.content self.old ++ s.now) }
        ensures err { OnErr result (Octets.content self.new ≡ Octets.content self.old) }
        ensures memory { OnErr result (Octets.asks ≡ true) }
        ensures borrows { Octets.borrows self.new ≡ Octets.borrows self.old }
        ensures characters { OnOk result
            (chars (Octets.content self.new) ≡ chars (Octets.content self.old) ++ chars s.now) }
    {
        match self.try_push_str(s) {
            Ok(()) => Ok(()),
            Err(AppendError::Memory) => Err(AllocError),
            Err(AppendError::Short(_)) => unreachable!(),
        }
    }

    /// Appends `ch`, or nothing, in a builder without a limit.
    ///
    /// # Errors
    ///
    /// `AllocError` if a request for memory was refused. The text is then unchanged.
    #[inline(always)]
    pub fn push(&mut self, ch: char) -> Result<(), AllocError>
    where
        Octets: OctetsBuilder,
        requires { Octets.limit ≡ None }
        ensures ok { OnOk result (Octets.content self.new ≡ Octets.content self.old ++ encoding_of ch) }
        ensures err { OnErr result (Octets.content self.new ≡ Octets.content self.old) }
        ensures memory { OnErr result (Octets.asks ≡ true) }
        ensures borrows { Octets.borrows self.new ≡ Octets.borrows self.old }
        ensures characters { OnOk result
            (chars (Octets.content self.new) ≡ chars (Octets.content self.old) ++ ch ∷ []) }
    {
        match self.try_push(ch) {
            Ok(()) => Ok(()),
            Err(AppendError::Memory) => Err(AllocError),
            Err(AppendError::Short(_)) => unreachable!(),
        }
    }

    /// Keeps the first `new_len` octets, or all of them if there are fewer. If there are more, `new_len` must be a
    /// character boundary; `is_char_boundary` tests that.
    pub fn truncate(&mut self, new_len: usize)
    where
        Octets: Truncate,
        requires { new_len < length (Octets.content self.old) → IsBoundary (Octets.content self.old) new_len }
        ensures content { Octets.content self.new ≡ take new_len (Octets.content self.old) }
        ensures borrows { Octets.borrows self.new ≡ Octets.borrows self.old }

        // The same for the characters.
        ensures step { CutsTo new_len (chars (Octets.content self.old)) (chars (Octets.content self.new)) }
    {
        self.octets.truncate(new_len);
    }

    /// Removes all characters.
    pub fn clear(&mut self)
    where
        Octets: Truncate,
        ensures content { Octets.content self.new ≡ [] }
        ensures borrows { Octets.borrows self.new ≡ Octets.borrows self.old }
        ensures characters { chars (Octets.content self.new) ≡ [] }
    {
        self.truncate(0);
    }

    /// Removes the last character, if there is one, and returns it.
    pub fn pop(&mut self) -> Option<char>
    where
        Octets: Truncate,
        ensures variant { IsSome result ↔ (0 < length (Octets.content self.old)) }
        ensures some { IfSome result (λ ch. Octets.content self.old ≡ Octets.content self.new ++ encoding_of ch) }
        ensures none { IfNone result (Octets.content self.new ≡ Octets.content self.old) }
        ensures borrows { Octets.borrows self.new ≡ Octets.borrows self.old }

        // The same for the characters.
        ensures step { Pops (chars (Octets.content self.old)) result (chars (Octets.content self.new)) }
    {
        let (last, width) = last_encoding(self.as_slice(), &mut Turns::new())?;
        shorten(&mut self.octets, width);
        Some(last)
    }
}

/// Removes `width` octets from the end. A width of one has a branch of its own, in which the compiler knows the smaller
/// length.
#[inline(always)]
fn shorten<Builder: AsOctets + Truncate>(builder: &mut Builder, width: usize)
    requires { width ≤ length (Builder.content builder.old) }
    ensures content { Builder.content builder.new
        ≡ take (length (Builder.content builder.old) - width) (Builder.content builder.old) }
    ensures borrows { Builder.borrows builder.new ≡ Builder.borrows builder.old }
{
    let len = builder.as_ref().len();
    if width == 1 {
        builder.truncate(len - 1);
    } else {
        builder.truncate(len - width);
    }
}

impl<Octets: AsOctets> AsOctets for StrBuilder<Octets> {
    ghost content = { λ text. Octets.content text };

    ghost limit = { Octets.limit };

    ghost asks = { Octets.asks };

    ghost borrows = { λ text. Octets.borrows text };

    fn as_ref(&self) -> &[u8] {
        self.as_slice()
    }
}

impl<Octets: OctetsLimit> OctetsLimit for StrBuilder<Octets> {
    fn limit() -> Option<usize> {
        Octets::limit()
    }

    fn asks_memory() -> bool {
        Octets::asks_memory()
    }
}

impl<const N: usize> Default for StrBuilder<Array<N>> {
    ghost is_default = { λ text. text ≡ blank N };

    fn default() -> Self {
        StrBuilder {
            octets: Array::new(),
        }
    }
}
