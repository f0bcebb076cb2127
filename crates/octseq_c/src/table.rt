//! A table of the labels that compression pointers can lead to.
ghost use Rattle.std.specs.Prelude.{false};
ghost use Rattle.octseq_dns_compress.specs.Few.{array_few};
ghost use Rattle.octseq_c.specs.Made.{offsets_kept};

use octseq_dns_compress::{Compressor, StaticCompressor, Target};
use std::alloc::AllocError;

/// A table of as many targets as a message that is composed here keeps.
pub type Table = StaticCompressor<512>;

/// A table that is lent. A builder that has it moves a pointer, where it moves from stage to stage, and not the table.
#[derive(Drop)]
pub struct LentTable<'a> {
    /// The table.
    pub table: &'a mut Table,
}

impl<'a> Compressor for LentTable<'a> {
    ghost held = { λ lent. lent.table.now.items };

    ghost most = { offsets_kept };

    ghost few = { array_few 512 };

    ghost asks = { false };

    fn as_slice(&self) -> &[Target] {
        self.table.as_slice()
    }

    fn is_full(&self) -> bool {
        self.table.is_full()
    }

    fn insert(&mut self, index: usize, target: Target) -> Result<(), AllocError> {
        self.table.insert(index, target);
        Ok(())
    }

    fn keep_before(&mut self, offset: usize) {
        self.table.keep_before(offset);
    }
}
