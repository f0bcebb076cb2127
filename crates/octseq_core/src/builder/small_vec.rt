//! A vector that begins inline. It requests memory once it outgrows its inline capacity.
ghost use Rattle.std.specs.Prelude.{◌≡◌, ◌+◌, ◌≤◌, ◌++◌, ◌↔◌, true, None, [], length, IsOk, IfOk, OnOk, OnErr};
ghost use Rattle.octseq_core.specs.Appends.{Appends};

use super::{
    AppendError, AsOctets, CloneOctets, EmptyBuilder, FreezeBuilder, FromBuilder, IntoBuilder,
    OctetsBuilder, OctetsLimit, Truncate,
};
use smallvec::SmallVec;
use std::alloc::{AllocError, Global};

impl<const N: usize> AsOctets for SmallVec<u8, N> {
    ghost content = { λ v. v.items };

    ghost limit = { None };

    ghost asks = { true };

    fn as_ref(&self) -> &[u8] {
        self.as_slice()
    }
}

impl<const N: usize> OctetsLimit for SmallVec<u8, N> {
    fn limit() -> Option<usize> {
        None
    }

    fn asks_memory() -> bool {
        true
    }
}

impl<const N: usize> OctetsBuilder for SmallVec<u8, N> {
    fn max_len(&self) -> Option<usize> {
        None
    }

    /// A content that stays inline requests no memory.
    fn append_slice(&mut self, slice: &[u8]) -> Result<(), AppendError>
        ensures appended { Appends None true result slice.now self.old.items self.new.items }
        ensures never { length self.old.items + length slice.now ≤ N → IsOk result }
    {
        prove!(self.capacity() >= N);
        self.extend_from_slice(slice)?;
        Ok(())
    }
}

impl<const N: usize> Truncate for SmallVec<u8, N> {
    fn truncate(&mut self, len: usize) {
        self.truncate(len);
    }
}

impl<const N: usize> EmptyBuilder for SmallVec<u8, N> {
    fn empty(alloc: Global) -> Result<Self, AllocError>
        ensures ok { IfOk result (λ builder. builder.items ≡ []) }
        ensures memory { OnErr result (true ≡ true) }
        ensures never { IsOk result }
    {
        Ok(SmallVec::new(alloc))
    }

    fn with_capacity(alloc: Global, capacity: usize) -> Result<Self, AllocError>
        ensures ok { IfOk result (λ builder. builder.items ≡ []) }
        ensures memory { OnErr result (true ≡ true) }
        ensures never { capacity ≤ N → IsOk result }
    {
        SmallVec::with_capacity(alloc, capacity)
    }
}

impl<const N: usize> FreezeBuilder for SmallVec<u8, N> {
    type Octets = SmallVec<u8, N>;

    fn freeze(self) -> Result<Self, AllocError>
        ensures ok { IfOk result (λ octets. octets.items ≡ self.entry.items) }
        ensures memory { OnErr result (true ≡ true) }
        ensures never { IsOk result }
    {
        Ok(self)
    }
}

impl<const N: usize> IntoBuilder for SmallVec<u8, N> {
    type Builder = SmallVec<u8, N>;

    fn into_builder(self, _alloc: Global) -> Result<Self, AllocError>
        ensures ok { IfOk result (λ builder. builder.items ≡ self.entry.items) }
        ensures memory { OnErr result (true ≡ true) }
        ensures never { IsOk result }
    {
        Ok(self)
    }
}

impl<const N: usize> FromBuilder for SmallVec<u8, N> {
    type Builder = SmallVec<u8, N>;

    fn from_builder(builder: Self) -> Result<Self, AllocError>
        ensures ok { IfOk result (λ octets. octets.items ≡ builder.entry.items) }
        ensures memory { OnErr result (true ≡ true) }
        ensures never { IsOk result }
    {
        Ok(builder)
    }
}

impl<const N: usize> CloneOctets for SmallVec<u8, N> {
    fn clone_octets(&self, alloc: Global) -> Result<Self, AllocError>
        ensures ok { IfOk result (λ octets. octets.items ≡ self.now.items) }
        ensures memory { OnErr result (true ≡ true) }
        ensures never { length self.now.items ≤ N → IsOk result }
    {
        SmallVec::from_slice(alloc, self.as_slice())
    }
}
