//! Octets that are borrowed until more are appended.
ghost use Rattle.std.specs.Prelude.{◌≡◌, ◌+◌, Bool, true, false, Option, None, List, ◌++◌};
ghost use Rattle.std.specs.Prelude.{◌↔◌, take, length, IsTrue, IsOk, IfOk, OnOk, OnErr};
ghost use Rattle.octseq_core.specs.Appends.{Appends};
ghost use Rattle.octseq_core.specs.Cow.{cow_content, is_borrowed};

use crate::builder::{
    AppendError, AsOctets, CloneOctets, FreezeBuilder, FromBuilder, IntoBuilder, OctetsBuilder,
    OctetsLimit, Truncate,
};
use std::alloc::{AllocError, Global};

/// Borrowed octets with the allocator for a copy of them, or owned octets.
///
/// # Examples
///
/// ```
/// // crates/octseq_examples/src/builders.rt
/// let mut greeting = CowOctets::borrowed(alloc, b"hello world");
/// greeting.truncate(5); // "hello", still borrowed
/// greeting.append_slice(b"!")?; // "hello!", copied and owned
/// ```
#[derive(Drop)]
pub enum CowOctets<'a> {
    /// Borrowed octets, and the allocator for a copy of them.
    Borrowed(&'a [u8], Global),
    /// Owned octets.
    Owned(Vec<u8>),
}

impl<'a> CowOctets<'a> {
    /// Borrows the slice. Requests no memory until octets are appended; that memory comes from `alloc`.
    pub fn borrowed(alloc: Global, slice: &'a [u8]) -> Self
        ensures content { cow_content result ≡ slice.now }
        ensures borrowed { is_borrowed result ≡ true }
    {
        CowOctets::Borrowed(slice, alloc)
    }

    /// Takes over the vector.
    pub fn owned(vec: Vec<u8>) -> Self
        ensures content { cow_content result ≡ vec.items }
        ensures owned { is_borrowed result ≡ false }
    {
        CowOctets::Owned(vec)
    }

    /// Whether the octets are borrowed.
    pub fn is_borrowed(&self) -> bool
        ensures { result ≡ is_borrowed self.now }
    {
        match self {
            CowOctets::Borrowed(_, _) => true,
            CowOctets::Owned(_) => false,
        }
    }
}

impl AsOctets for CowOctets<'_> {
    ghost content = { λ cow. cow_content cow };

    ghost limit = { None };

    ghost asks = { true };

    fn as_ref(&self) -> &[u8] {
        match self {
            CowOctets::Borrowed(slice, _) => slice,
            CowOctets::Owned(vec) => vec.as_slice(),
        }
    }
}

impl OctetsLimit for CowOctets<'_> {
    fn limit() -> Option<usize>
        ensures { result ≡ None }
    {
        None
    }

    fn asks_memory() -> bool
        ensures { result ≡ true }
    {
        true
    }
}

/// The octets followed by more, in one allocation.
fn joined(alloc: Global, octets: &[u8], more: &[u8]) -> Result<Vec<u8>, AllocError>
    ensures { IfOk result (λ vec. vec.items ≡ octets.now ++ more.now) }
{
    let mut vec = Vec::with_capacity(alloc, octets.len().saturating_add(more.len()))?;
    vec.extend_from_slice(octets)?;
    vec.extend_from_slice(more)?;
    Ok(vec)
}

impl OctetsBuilder for CowOctets<'_> {
    fn max_len(&self) -> Option<usize> {
        None
    }

    /// Makes borrowed octets owned, even if the slice is empty. They are copied first, so they stay borrowed if memory
    /// is refused.
    ///
    /// # Examples
    ///
    /// ```
    /// // crates/octseq_callers/src/single_calls.rt
    /// if more.is_empty() {
    ///     return Ok(());
    /// }
    /// octets.append_slice(more)
    /// ```
    fn append_slice(&mut self, slice: &[u8]) -> Result<(), AppendError>
        ensures appended { Appends None true result slice.now (cow_content self.old) (cow_content self.new) }
        ensures owned { OnOk result (is_borrowed self.new ≡ false) }
        ensures unchanged { OnErr result (is_borrowed self.new ≡ is_borrowed self.old) }
    {
        match self {
            CowOctets::Borrowed(octets, alloc) => {
                let vec = joined(*alloc, *octets, slice)?;
                *self = CowOctets::Owned(vec);
            }
            CowOctets::Owned(vec) => vec.extend_from_slice(slice)?,
        }
        Ok(())
    }
}

impl Truncate for CowOctets<'_> {
    /// Shortens borrowed octets in place, so they stay borrowed.
    fn truncate(&mut self, len: usize)
        ensures content { cow_content self.new ≡ take len (cow_content self.old) }
        ensures unchanged { is_borrowed self.new ≡ is_borrowed self.old }
    {
        match self {
            CowOctets::Borrowed(octets, _) => {
                if len < octets.len() {
                    *octets = &octets[..len];
                }
            }
            CowOctets::Owned(vec) => vec.truncate(len),
        }
    }
}

impl<'a> FreezeBuilder for CowOctets<'a> {
    type Octets = CowOctets<'a>;

    fn freeze(self) -> Result<CowOctets<'a>, AllocError>
        ensures ok { IfOk result (λ octets. cow_content octets ≡ cow_content self.entry) }
        ensures memory { OnErr result (true ≡ true) }
        ensures never { IsOk result }
        ensures unchanged { IfOk result (λ octets. is_borrowed octets ≡ is_borrowed self.entry) }
    {
        CowOctets::from_builder(self)
    }
}

impl<'a> IntoBuilder for CowOctets<'a> {
    type Builder = CowOctets<'a>;

    fn into_builder(self, _alloc: Global) -> Result<CowOctets<'a>, AllocError>
        ensures ok { IfOk result (λ builder. cow_content builder ≡ cow_content self.entry) }
        ensures memory { OnErr result (true ≡ true) }
        ensures never { IsOk result }
        ensures unchanged { IfOk result (λ builder. is_borrowed builder ≡ is_borrowed self.entry) }
    {
        Ok(self)
    }
}

impl<'a> FromBuilder for CowOctets<'a> {
    type Builder = CowOctets<'a>;

    fn from_builder(builder: CowOctets<'a>) -> Result<CowOctets<'a>, AllocError>
        ensures ok { IfOk result (λ octets. cow_content octets ≡ cow_content builder.entry) }
        ensures memory { OnErr result (true ≡ true) }
        ensures never { IsOk result }
        ensures unchanged { IfOk result (λ octets. is_borrowed octets ≡ is_borrowed builder.entry) }
    {
        Ok(builder)
    }
}

impl<'a> CloneOctets for CowOctets<'a> {
    /// Borrows if the octets are borrowed, and copies if they are owned.
    fn clone_octets(&self, alloc: Global) -> Result<CowOctets<'a>, AllocError>
        ensures ok { IfOk result (λ octets. cow_content octets ≡ cow_content self.now) }
        ensures memory { OnErr result (true ≡ true) }
        ensures unchanged { IfOk result (λ octets. is_borrowed octets ≡ is_borrowed self.now) }
        ensures never { is_borrowed self.now ≡ true → IsOk result }
    {
        match self {
            CowOctets::Borrowed(slice, kept) => Ok(CowOctets::Borrowed(slice, *kept)),
            CowOctets::Owned(vec) => Ok(CowOctets::Owned(Vec::from_slice(alloc, vec.as_slice())?)),
        }
    }
}
