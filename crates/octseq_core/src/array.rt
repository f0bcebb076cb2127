//! A builder of a fixed size that requests no memory.
ghost use Rattle.std.specs.Prelude.{◌≡◌, ◌-◌, ◌+◌, ◌<◌, ◌≤◌, ◌++◌, ◌↔◌, Bool, true, false, Option, Some, List};
ghost use Rattle.std.specs.Prelude.{[], take, drop, length, IsOk, IfOk, OnOk, OnErr, MatchResult, nat_eq, refl};
ghost use Rattle.std.specs.Borrow.{sem};
ghost use Rattle.std.specs.Cmp.{partial_equiv_from_equiv, on_per, on_equiv, on_po, on_total};
ghost use Rattle.std.specs.Cmp.Lexicographic.{pointwise, slice_cmp, nat_list_eq_equiv};
ghost use Rattle.std.specs.Cmp.Lexicographic.{nat_list_cmp_total, texts_ties, texts_po};
ghost use Rattle.std.specs.Cmp.Rules.{hashing};
ghost use Rattle.std.specs.Hash as fed;
ghost use Rattle.std.specs.Ordering.{nat_cmp};
ghost use Rattle.std.proofs.Common.{rules};
ghost use Rattle.octseq_core.specs.ArrayOctets.{all_octets, cut_at, blank, padded};
ghost use Rattle.octseq_core.specs.Appends.{Appends};

use crate::builder::{
    AppendError, AsOctets, CloneOctets, EmptyBuilder, FreezeBuilder, FromBuilder, IntoBuilder,
    OctetsBuilder, OctetsLimit, ShortBuf, Truncate,
};
use std::alloc::{AllocError, Global};
use std::cmp::Ordering;
use std::convert::AsSlice;
use std::fmt;
use std::hash::{Hash, Hasher};
use std::marker::Model;
use std::ops::{DerefSlice, DerefSliceMut};

/// Octets in a buffer of the fixed size `N`. The front of the buffer is the content; the octets after it are hidden.
///
/// # Examples
///
/// ```
/// // crates/octseq_callers/src/single_calls.rt
/// pub fn kept<const N: usize>(octets: &[u8]) -> Option<Array<N>>
///     ensures variant { IsSome result ↔ (length octets.now ≤ N) }
///     ensures some { IfSome result (λ array. array.content ≡ octets.now) }
/// {
///     Array::try_from(octets).ok()
/// }
/// ```
#[derive(Drop)]
pub struct Array<const N: usize> {
    octets: [u8; N],
    len: usize,
}

impl<const N: usize> Model for Array<N> {
    ghost use Rattle.std.specs.Prelude.{◌≤◌};
    ghost use Rattle.octseq_core.specs.ArrayOctets.{ArrayOctets, cut_at};

    ghost Value = { ArrayOctets };

    ghost view = { λ a. cut_at a.octets a.len };

    ghost invariant = { λ a. a.len ≤ N };
}

impl<const N: usize> Array<N> {
    ghost use Rattle.octseq_core.specs.Lends.{lends_content};

    /// An empty array, all its octets zero.
    ///
    /// # Examples
    ///
    /// ```
    /// // crates/octseq_examples/src/builders.rt
    /// let mut array = Array::<4>::new();
    /// array.append_slice(b"abcd")?;
    /// array.truncate(1); // the content is "a"
    /// array.resize_raw(3)?; // the content is "abc"
    /// ```
    pub fn new() -> Self
        ensures { result ≡ blank N }
    {
        Array {
            octets: [0; N],
            len: 0,
        }
    }

    /// The content.
    pub fn as_slice(&self) -> &[u8]
        ensures content { result.now ≡ self.now.content }
        ensures size { length self.now.content + length self.now.hidden ≡ N }
    {
        &self.octets[..self.len]
    }

    /// The content, for writing. The hidden octets don't change.
    pub fn as_slice_mut(&mut self) -> &mut [u8]
        ensures* writes_back { sem 𝓛 (lends_content N.row self.entry result) }
        ensures content { result.now ≡ self.old.content }
    {
        &mut self.octets[..self.len]
    }

    /// Changes only the length. A greater length shows hidden octets again, as they were left.
    ///
    /// # Errors
    ///
    /// `ShortBuf` if the new length is greater than `N`. The array is then unchanged.
    pub fn resize_raw(&mut self, new_len: usize) -> Result<(), ShortBuf>
        ensures variant { IsOk result ↔ (new_len ≤ N) }
        ensures ok { OnOk result (self.new ≡ cut_at (all_octets self.old) new_len) }
        ensures err { OnErr result (self.new ≡ self.old) }
    {
        if new_len > N {
            return Err(ShortBuf);
        }
        self.len = new_len;
        Ok(())
    }

    /// A copy of the content and of the hidden octets. Requests no memory.
    pub fn clone(&self) -> Self
        ensures { result ≡ self.now }
    {
        Array {
            octets: self.octets,
            len: self.len,
        }
    }
}

impl<const N: usize> DerefSlice for Array<N> {
    type Elem = u8;

    ghost deref_gives = { λ a octets. (octets ≡ a.content) × (length octets + length a.hidden ≡ N) };

    fn deref(&self) -> &[u8] {
        self.as_slice()
    }
}

impl<const N: usize> DerefSliceMut for Array<N> {
    ghost use Rattle.octseq_core.specs.Lends.{lends_content};

    /// The hidden octets don't change.
    fn deref_mut(&mut self) -> &mut [u8]
        ensures* writes_back { sem 𝓛 (lends_content N.row self.entry result) }
        ensures content { result.now ≡ self.old.content }
    {
        self.as_slice_mut()
    }
}

impl<const N: usize> AsSlice<u8> for Array<N> {
    ghost items = { λ a. a.content };

    fn as_slice(&self) -> &[u8] {
        self.as_slice()
    }
}

impl<const N: usize> AsOctets for Array<N> {
    ghost content = { λ a. a.content };

    ghost limit = { Some N };

    ghost asks = { false };

    fn as_ref(&self) -> &[u8] {
        self.as_slice()
    }
}

impl<const N: usize> OctetsLimit for Array<N> {
    fn limit() -> Option<usize> {
        Some(N)
    }

    fn asks_memory() -> bool {
        false
    }
}

impl<const N: usize> OctetsBuilder for Array<N> {
    fn max_len(&self) -> Option<usize> {
        Some(N)
    }

    /// The slice overwrites the first hidden octets; the others stay hidden and don't change.
    #[inline(always)]
    fn append_slice(&mut self, slice: &[u8]) -> Result<(), AppendError>
        ensures appended { Appends (Some N) false result slice.now self.old.content self.new.content }
        ensures hidden { OnOk result (self.new.hidden ≡ drop (length slice.now) self.old.hidden) }
        ensures unchanged { OnErr result (self.new ≡ self.old) }
    {
        if slice.len() > N - self.len {
            return Err(AppendError::Short(ShortBuf));
        }
        let start = self.len;
        let end = start + slice.len();
        let octets = &mut self.octets[..];
        octets[start..end].copy_from_slice(slice);
        self.len = end;
        Ok(())
    }
}

impl<const N: usize> Truncate for Array<N> {
    /// Changes only the length: the octets after it become hidden and don't change.
    fn truncate(&mut self, len: usize)
        ensures content { self.new.content ≡ take len self.old.content }
        ensures hidden { self.new.hidden ≡ drop len self.old.content ++ self.old.hidden }
    {
        if len < self.len {
            self.len = len;
        }
    }
}

impl<const N: usize> EmptyBuilder for Array<N> {
    fn empty(_alloc: Global) -> Result<Self, AllocError>
        ensures ok { IfOk result (λ builder. builder.content ≡ []) }
        ensures memory { OnErr result (false ≡ true) }
        ensures blank { IfOk result (λ builder. builder ≡ blank N) }
    {
        Ok(Array::new())
    }

    fn with_capacity(_alloc: Global, _capacity: usize) -> Result<Self, AllocError>
        ensures ok { IfOk result (λ builder. builder.content ≡ []) }
        ensures memory { OnErr result (false ≡ true) }
        ensures blank { IfOk result (λ builder. builder ≡ blank N) }
    {
        Ok(Array::new())
    }
}

impl<const N: usize> FreezeBuilder for Array<N> {
    type Octets = Array<N>;

    fn freeze(self) -> Result<Self, AllocError>
        ensures ok { IfOk result (λ octets. octets.content ≡ self.entry.content) }
        ensures memory { OnErr result (false ≡ true) }
        ensures same { IfOk result (λ octets. octets ≡ self.entry) }
    {
        Ok(self)
    }
}

impl<const N: usize> IntoBuilder for Array<N> {
    type Builder = Array<N>;

    fn into_builder(self, _alloc: Global) -> Result<Self, AllocError>
        ensures ok { IfOk result (λ builder. builder.content ≡ self.entry.content) }
        ensures memory { OnErr result (false ≡ true) }
        ensures same { IfOk result (λ builder. builder ≡ self.entry) }
    {
        Ok(self)
    }
}

impl<const N: usize> FromBuilder for Array<N> {
    type Builder = Array<N>;

    fn from_builder(builder: Self) -> Result<Self, AllocError>
        ensures ok { IfOk result (λ octets. octets.content ≡ builder.entry.content) }
        ensures memory { OnErr result (false ≡ true) }
        ensures same { IfOk result (λ octets. octets ≡ builder.entry) }
    {
        Ok(builder)
    }
}

impl<const N: usize> CloneOctets for Array<N> {
    /// Copies the hidden octets too.
    fn clone_octets(&self, _alloc: Global) -> Result<Self, AllocError>
        ensures ok { IfOk result (λ octets. octets.content ≡ self.now.content) }
        ensures memory { OnErr result (false ≡ true) }
        ensures same { IfOk result (λ octets. octets ≡ self.now) }
    {
        Ok(self.clone())
    }
}

impl<const N: usize> Default for Array<N> {
    ghost is_default = { λ a. a ≡ blank N };

    fn default() -> Self {
        Array::new()
    }
}

impl<const N: usize> TryFrom<&[u8]> for Array<N> {
    type Error = ShortBuf;

    ghost try_from_gives = { λ slice made. MatchResult made
        (λ a. (length slice.now ≤ N) × (a ≡ padded N slice.now)) (λ _. N < length slice.now) };

    fn try_from(slice: &[u8]) -> Result<Self, ShortBuf> {
        let mut array = Array::new();
        match array.append_slice(slice) {
            Ok(()) => Ok(array),
            Err(_) => Err(ShortBuf),
        }
    }
}

// Arrays are compared, ordered and hashed by content only.

impl<const N: usize> PartialEq for Array<N> {
    ghost eq = { λ a b. pointwise nat_eq a.content b.content };

    ghost laws = { on_per (λ a. a.content) (partial_equiv_from_equiv nat_list_eq_equiv) };

    fn eq(&self, other: &Self) -> bool {
        self.as_slice() == other.as_slice()
    }
}

impl<const N: usize> Eq for Array<N> {
    ghost laws = { on_equiv (λ a. a.content) nat_list_eq_equiv };
}

impl<const N: usize> PartialOrd for Array<N> {
    ghost partial_cmp = { λ a b. Some (slice_cmp nat_cmp a.content b.content) };

    ghost laws = { on_po (λ a. a.content) texts_po };

    fn partial_cmp(&self, other: &Self) -> Option<Ordering> {
        Some(self.cmp(other))
    }
}

impl<const N: usize> Ord for Array<N> {
    ghost cmp = { λ a b. slice_cmp nat_cmp a.content b.content };

    ghost total = { on_total (λ a. a.content) nat_list_cmp_total };

    ghost matches_partial_cmp = { λ a b. refl };

    ghost matches_eq = { λ a b. texts_ties a.content b.content };

    fn cmp(&self, other: &Self) -> Ordering {
        self.as_slice().cmp(&other.as_slice())
    }
}

impl<const N: usize> Hash for Array<N> {
    ghost hash_input = { λ a. fed.slice fed.u8 a.content };

    ghost respects_eq = { Prim.search (hashing, rules) };

    fn hash<H: Hasher>(&self, state: &mut H) {
        self.as_slice().hash(state);
    }
}

impl<const N: usize> fmt::Debug for Array<N> {
    fn fmt<W: fmt::Write>(&self, f: &mut fmt::Formatter<W>) -> fmt::Result {
        f.debug_tuple("octets::Array")
            .field(&self.as_slice())
            .finish()
    }
}
