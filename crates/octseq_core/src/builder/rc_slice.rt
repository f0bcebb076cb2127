//! A reference-counted slice with several owners.
ghost use Rattle.std.specs.Prelude.{true, None};
ghost use Rattle.std.specs.Rc.{rc_slice_items};

use super::{AsOctets, CloneOctets, OctetsLimit};
use std::alloc::{AllocError, Global};
use std::rc::RcSlice;

impl AsOctets for RcSlice<u8> {
    ghost content = { λ v. rc_slice_items v };

    ghost limit = { None };

    ghost asks = { true };

    fn as_ref(&self) -> &[u8] {
        self.as_slice()
    }
}

impl OctetsLimit for RcSlice<u8> {
    fn limit() -> Option<usize> {
        None
    }

    fn asks_memory() -> bool {
        true
    }
}

impl CloneOctets for RcSlice<u8> {
    /// Shares the octets without copying them.
    fn clone_octets(&self, _alloc: Global) -> Result<Self, AllocError> {
        self.clone()
    }
}
