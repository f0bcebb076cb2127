//! A vector as a table of targets. It requests memory as it grows.
ghost use Rattle.std.specs.Prelude.{true};
ghost use Rattle.octseq_dns_compress.specs.Few.{vector_few};

use crate::table::{Compressor, TARGETS_MAX, Target};
use std::alloc::AllocError;

impl Compressor for Vec<Target> {
    ghost held = { λ v. v.items };

    ghost most = { 16384 };

    ghost few = { vector_few };

    ghost asks = { true };

    fn as_slice(&self) -> &[Target] {
        self.as_slice()
    }

    fn is_full(&self) -> bool {
        self.len() >= TARGETS_MAX
    }

    fn insert(&mut self, index: usize, target: Target) -> Result<(), AllocError> {
        self.insert(index, target)?;
        Ok(())
    }

    fn keep_before(&mut self, place: usize) {
        self.retain(|target| usize::from(target.at) < place);
    }
}
