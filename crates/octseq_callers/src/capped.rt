//! A custom builder with a limit. It needs no proof.
ghost use Rattle.std.specs.Prelude.{◌≤◌, true, Some, vec_len};

use octseq::builder::{
    AppendError, AsOctets, EmptyBuilder, OctetsBuilder, OctetsLimit, ShortBuf, Truncate,
};
use std::alloc::{AllocError, Global};

/// A vector of at most five octets.
#[derive(Drop)]
pub struct Capped {
    octets: Vec<u8>,
    ghost within: { vec_len octets ≤ 5 },
}

impl AsOctets for Capped {
    ghost content = { λ capped. capped.octets.items };

    ghost limit = { Some 5 };

    ghost asks = { true };

    fn as_ref(&self) -> &[u8] {
        self.octets.as_slice()
    }
}

impl OctetsLimit for Capped {
    fn limit() -> Option<usize> {
        Some(5)
    }

    fn asks_memory() -> bool {
        true
    }
}

impl OctetsBuilder for Capped {
    fn max_len(&self) -> Option<usize> {
        Some(5)
    }

    fn append_slice(&mut self, slice: &[u8]) -> Result<(), AppendError> {
        if slice.len() > 5 - self.octets.len() {
            return Err(AppendError::Short(ShortBuf));
        }
        self.octets.extend_from_slice(slice)?;
        Ok(())
    }
}

impl Truncate for Capped {
    fn truncate(&mut self, len: usize) {
        self.octets.truncate(len);
    }
}

impl EmptyBuilder for Capped {
    fn empty(alloc: Global) -> Result<Self, AllocError> {
        Ok(Capped {
            octets: Vec::new(alloc),
        })
    }

    fn with_capacity(alloc: Global, capacity: usize) -> Result<Self, AllocError> {
        Ok(Capped {
            octets: Vec::with_capacity(alloc, capacity.min(5))?,
        })
    }
}
