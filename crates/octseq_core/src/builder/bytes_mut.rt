//! `Bytes`, which shares its octets, and `BytesMut`, its builder.
ghost use Rattle.std.specs.Prelude.{◌≡◌, true, None, [], IsOk, IfOk, OnErr};

use super::{
    AppendError, AsOctets, CloneOctets, EmptyBuilder, FreezeBuilder, FromBuilder, IntoBuilder,
    OctetsBuilder, OctetsLimit, Truncate,
};
use bytes::{Bytes, BytesMut};
use std::alloc::{AllocError, Global};

impl AsOctets for Bytes {
    ghost content = { λ b. b };

    ghost limit = { None };

    ghost asks = { true };

    fn as_ref(&self) -> &[u8] {
        self.as_slice()
    }
}

impl OctetsLimit for Bytes {
    fn limit() -> Option<usize> {
        None
    }

    fn asks_memory() -> bool {
        true
    }
}

impl Truncate for Bytes {
    fn truncate(&mut self, len: usize) {
        self.truncate(len);
    }
}

impl IntoBuilder for Bytes {
    type Builder = BytesMut;

    /// Takes over the octets if no other `Bytes` shares them, otherwise copies them.
    fn into_builder(self, alloc: Global) -> Result<BytesMut, AllocError> {
        match self.try_into_mut() {
            Ok(builder) => Ok(builder),
            Err(octets) => BytesMut::copy_from_slice(alloc, octets.as_slice()),
        }
    }
}

impl FromBuilder for Bytes {
    type Builder = BytesMut;

    /// An empty builder requests no memory.
    fn from_builder(builder: BytesMut) -> Result<Self, AllocError>
        ensures ok { IfOk result (λ octets. octets ≡ builder.items) }
        ensures memory { OnErr result (true ≡ true) }
        ensures never { builder.items ≡ [] → IsOk result }
    {
        Ok(builder.freeze()?)
    }
}

impl CloneOctets for Bytes {
    /// Shares the octets without copying them.
    fn clone_octets(&self, _alloc: Global) -> Result<Self, AllocError> {
        self.clone()
    }
}

impl AsOctets for BytesMut {
    ghost content = { λ b. b.items };

    ghost limit = { None };

    ghost asks = { true };

    fn as_ref(&self) -> &[u8] {
        self.as_slice()
    }
}

impl OctetsLimit for BytesMut {
    fn limit() -> Option<usize> {
        None
    }

    fn asks_memory() -> bool {
        true
    }
}

impl OctetsBuilder for BytesMut {
    fn max_len(&self) -> Option<usize> {
        None
    }

    fn append_slice(&mut self, slice: &[u8]) -> Result<(), AppendError> {
        self.extend_from_slice(slice)?;
        Ok(())
    }
}

impl Truncate for BytesMut {
    fn truncate(&mut self, len: usize) {
        self.truncate(len);
    }
}

impl EmptyBuilder for BytesMut {
    fn empty(alloc: Global) -> Result<Self, AllocError>
        ensures ok { IfOk result (λ builder. builder.items ≡ []) }
        ensures memory { OnErr result (true ≡ true) }
        ensures never { IsOk result }
    {
        Ok(BytesMut::new(alloc))
    }

    fn with_capacity(alloc: Global, capacity: usize) -> Result<Self, AllocError> {
        BytesMut::with_capacity(alloc, capacity)
    }
}

impl FreezeBuilder for BytesMut {
    type Octets = Bytes;

    /// An empty builder requests no memory.
    fn freeze(self) -> Result<Bytes, AllocError>
        ensures ok { IfOk result (λ octets. octets ≡ self.items) }
        ensures memory { OnErr result (true ≡ true) }
        ensures never { self.items ≡ [] → IsOk result }
    {
        Ok(self.freeze()?)
    }
}

impl CloneOctets for BytesMut {
    fn clone_octets(&self, alloc: Global) -> Result<Self, AllocError> {
        BytesMut::copy_from_slice(alloc, self.as_slice())
    }
}
