//! A slice as a borrowed sequence of octets. It requests no memory.
ghost use Rattle.std.specs.Prelude.{◌≡◌, false, None, IsOk, IfOk};

use super::{AsOctets, CloneOctets, IntoBuilder, OctetsLimit, Truncate};
use std::alloc::{AllocError, Global};

impl AsOctets for &[u8] {
    ghost content = { λ s. s.now };

    ghost limit = { None };

    ghost asks = { false };

    fn as_ref(&self) -> &[u8] {
        self
    }
}

impl OctetsLimit for &[u8] {
    fn limit() -> Option<usize>
        ensures { result ≡ None }
    {
        None
    }

    fn asks_memory() -> bool
        ensures { result ≡ false }
    {
        false
    }
}

impl CloneOctets for &[u8] {
    fn clone_octets(&self, _alloc: Global) -> Result<Self, AllocError> {
        Ok(*self)
    }
}

impl Truncate for &[u8] {
    fn truncate(&mut self, len: usize) {
        if len < self.len() {
            *self = &self[..len];
        }
    }
}

impl IntoBuilder for &[u8] {
    type Builder = Vec<u8>;

    fn into_builder(self, alloc: Global) -> Result<Vec<u8>, AllocError> {
        Vec::from_slice(alloc, self)
    }
}
