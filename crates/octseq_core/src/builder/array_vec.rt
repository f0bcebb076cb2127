//! A vector of a fixed capacity. It requests no memory, and every call within the limit succeeds.
ghost use Rattle.std.specs.Prelude.{false, Some};

use super::{
    AppendError, AsOctets, CloneOctets, EmptyBuilder, FreezeBuilder, FromBuilder, IntoBuilder,
    OctetsBuilder, OctetsLimit, ShortBuf, Truncate,
};
use arrayvec::ArrayVec;
use std::alloc::{AllocError, Global};

impl<const N: usize> AsOctets for ArrayVec<u8, N> {
    ghost content = { λ v. v.items };

    ghost limit = { Some N };

    ghost asks = { false };

    fn as_ref(&self) -> &[u8] {
        self.as_slice()
    }
}

impl<const N: usize> OctetsLimit for ArrayVec<u8, N> {
    fn limit() -> Option<usize> {
        Some(N)
    }

    fn asks_memory() -> bool {
        false
    }
}

impl<const N: usize> OctetsBuilder for ArrayVec<u8, N> {
    fn max_len(&self) -> Option<usize> {
        Some(N)
    }

    fn append_slice(&mut self, slice: &[u8]) -> Result<(), AppendError> {
        match self.try_extend_from_slice(slice) {
            Ok(()) => Ok(()),
            Err(_) => Err(AppendError::Short(ShortBuf)),
        }
    }
}

impl<const N: usize> Truncate for ArrayVec<u8, N> {
    fn truncate(&mut self, len: usize) {
        self.truncate(len);
    }
}

impl<const N: usize> EmptyBuilder for ArrayVec<u8, N> {
    fn empty(_alloc: Global) -> Result<Self, AllocError> {
        Ok(ArrayVec::new())
    }

    fn with_capacity(_alloc: Global, _capacity: usize) -> Result<Self, AllocError> {
        Ok(ArrayVec::new())
    }
}

impl<const N: usize> FreezeBuilder for ArrayVec<u8, N> {
    type Octets = ArrayVec<u8, N>;

    fn freeze(self) -> Result<Self, AllocError> {
        Ok(self)
    }
}

impl<const N: usize> IntoBuilder for ArrayVec<u8, N> {
    type Builder = ArrayVec<u8, N>;

    fn into_builder(self, _alloc: Global) -> Result<Self, AllocError> {
        Ok(self)
    }
}

impl<const N: usize> FromBuilder for ArrayVec<u8, N> {
    type Builder = ArrayVec<u8, N>;

    fn from_builder(builder: Self) -> Result<Self, AllocError> {
        Ok(builder)
    }
}

impl<const N: usize> CloneOctets for ArrayVec<u8, N> {
    fn clone_octets(&self, _alloc: Global) -> Result<Self, AllocError> {
        let mut copy = ArrayVec::new();
        copy.try_extend_from_slice(self.as_slice()).unwrap();
        Ok(copy)
    }
}
