//! An array as a table of targets. It requests no memory.
ghost use Rattle.std.specs.Prelude.{false, min};
ghost use Rattle.octseq_dns_compress.specs.Few.{array_few};

use crate::table::{Compressor, TARGETS_MAX, Target};
use arrayvec::ArrayVec;
use std::alloc::AllocError;

/// A table of at most `N` targets, in an array.
pub type StaticCompressor<const N: usize> = ArrayVec<Target, N>;

/// A table that holds no targets: names are written without compression.
pub type Uncompressed = ArrayVec<Target, 0>;

impl<const N: usize> Compressor for ArrayVec<Target, N> {
    ghost held = { λ v. v.items };

    ghost most = { min N 16384 };

    ghost few = { array_few N };

    ghost asks = { false };

    fn as_slice(&self) -> &[Target] {
        self.as_slice()
    }

    fn is_full(&self) -> bool {
        self.len() >= N.min(TARGETS_MAX)
    }

    fn insert(&mut self, index: usize, target: Target) -> Result<(), AllocError> {
        self.insert(index, target);
        Ok(())
    }

    fn keep_before(&mut self, place: usize) {
        self.retain(|target| usize::from(target.at) < place);
    }
}
