//! A custom sequence, whose ranges may be refused.
ghost use Rattle.std.specs.Prelude.{true, None};

use octseq::builder::{AsOctets, OctetsLimit};
use octseq::octets::Octets;
use std::alloc::AllocError;
use std::ops::RangeBounds;

/// Three octets, each range of which is refused for lack of memory.
#[derive(Clone, Copy)]
pub struct Scarce(pub [u8; 3]);

impl AsOctets for Scarce {
    ghost content = { λ scarce. scarce.0 };

    ghost limit = { None };

    ghost asks = { true };

    fn as_ref(&self) -> &[u8] {
        self.0.as_slice()
    }
}

impl OctetsLimit for Scarce {
    fn limit() -> Option<usize> {
        None
    }

    fn asks_memory() -> bool {
        true
    }
}

impl Octets for Scarce {
    type Range = Self;

    fn range<R: RangeBounds<usize>>(&self, _range: R) -> Result<Self, AllocError> {
        Err(AllocError)
    }
}
