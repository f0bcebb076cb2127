//! A custom builder that returns `Memory` by a rule of its own. It needs no proof.
ghost use Rattle.std.specs.Prelude.{◌≡◌, true, None};

use octseq::builder::{AppendError, AsOctets, EmptyBuilder, OctetsBuilder, OctetsLimit, Truncate};
use std::alloc::{AllocError, Global};

/// A vector whose n-th append is refused for memory.
#[derive(Drop)]
pub struct Rationed {
    octets: Vec<u8>,
    until_refused: usize,
}

impl Rationed {
    /// Makes a builder that refuses the n-th append, counted from 1, or none for 0.
    pub fn new(octets: Vec<u8>, refused: usize) -> Self
        ensures { result.octets ≡ octets }
    {
        Rationed {
            octets,
            until_refused: refused,
        }
    }
}

impl AsOctets for Rationed {
    ghost content = { λ rationed. rationed.octets.items };

    ghost limit = { None };

    ghost asks = { true };

    fn as_ref(&self) -> &[u8] {
        self.octets.as_slice()
    }
}

impl OctetsLimit for Rationed {
    fn limit() -> Option<usize> {
        None
    }

    fn asks_memory() -> bool {
        true
    }
}

impl OctetsBuilder for Rationed {
    fn max_len(&self) -> Option<usize> {
        None
    }

    fn append_slice(&mut self, slice: &[u8]) -> Result<(), AppendError> {
        let is_refused = self.until_refused == 1;
        self.until_refused = self.until_refused.saturating_sub(1);
        if is_refused {
            return Err(AppendError::Memory);
        }
        self.octets.extend_from_slice(slice)?;
        Ok(())
    }
}

impl Truncate for Rationed {
    fn truncate(&mut self, len: usize) {
        self.octets.truncate(len);
    }
}

/// An empty builder refuses its second append.
impl EmptyBuilder for Rationed {
    fn empty(alloc: Global) -> Result<Self, AllocError> {
        Ok(Rationed::new(Vec::new(alloc), 2))
    }

    fn with_capacity(alloc: Global, capacity: usize) -> Result<Self, AllocError> {
        Ok(Rationed::new(Vec::with_capacity(alloc, capacity)?, 2))
    }
}
