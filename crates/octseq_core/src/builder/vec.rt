//! A vector as a builder: it has no limit, and requests memory as it grows.
ghost use Rattle.std.specs.Prelude.{◌≡◌, true, None, [], IsOk, IfOk};

use super::{
    AppendError, AsOctets, CloneOctets, EmptyBuilder, FreezeBuilder, FromBuilder, IntoBuilder,
    OctetsBuilder, OctetsLimit, Truncate,
};
use crate::lanes::{LANE, append_lane, append_two_lanes};
use std::alloc::{AllocError, Global};

impl AsOctets for Vec<u8> {
    ghost content = { λ v. v.items };

    ghost limit = { None };

    ghost asks = { true };

    fn as_ref(&self) -> &[u8] {
        self.as_slice()
    }
}

impl OctetsLimit for Vec<u8> {
    fn limit() -> Option<usize> {
        None
    }

    fn asks_memory() -> bool {
        true
    }
}

impl OctetsBuilder for Vec<u8> {
    fn max_len(&self) -> Option<usize> {
        None
    }

    fn append_slice(&mut self, slice: &[u8]) -> Result<(), AppendError> {
        self.extend_from_slice(slice)?;
        Ok(())
    }

    #[inline(always)]
    fn append_few(&mut self, slice: &[u8]) -> Result<(), AppendError> {
        let room = self.capacity() - self.len();
        if slice.len() <= LANE && room >= LANE {
            append_lane(self, slice);
            return Ok(());
        }
        if slice.len() > LANE && slice.len() <= 2 * LANE && room >= 2 * LANE {
            append_two_lanes(self, slice);
            return Ok(());
        }
        self.append_slice(slice)
    }
}

impl Truncate for Vec<u8> {
    fn truncate(&mut self, len: usize) {
        self.truncate(len);
    }
}

impl EmptyBuilder for Vec<u8> {
    fn empty(alloc: Global) -> Result<Self, AllocError>
        ensures ok { IfOk result (λ builder. builder.items ≡ []) }
        ensures never { IsOk result }
    {
        Ok(Vec::new(alloc))
    }

    fn with_capacity(alloc: Global, capacity: usize) -> Result<Self, AllocError> {
        Vec::with_capacity(alloc, capacity)
    }
}

impl CloneOctets for Vec<u8> {
    fn clone_octets(&self, alloc: Global) -> Result<Self, AllocError> {
        Vec::from_slice(alloc, self.as_slice())
    }
}

impl FreezeBuilder for Vec<u8> {
    type Octets = Vec<u8>;

    fn freeze(self) -> Result<Self, AllocError>
        ensures ok { IfOk result (λ octets. octets.items ≡ self.items) }
        ensures never { IsOk result }
    {
        Ok(self)
    }
}

impl IntoBuilder for Vec<u8> {
    type Builder = Vec<u8>;

    fn into_builder(self, _alloc: Global) -> Result<Self, AllocError>
        ensures ok { IfOk result (λ builder. builder.items ≡ self.items) }
        ensures never { IsOk result }
    {
        Ok(self)
    }
}

impl FromBuilder for Vec<u8> {
    type Builder = Vec<u8>;

    fn from_builder(builder: Self) -> Result<Self, AllocError>
        ensures ok { IfOk result (λ octets. octets.items ≡ builder.items) }
        ensures never { IsOk result }
    {
        Ok(builder)
    }
}
