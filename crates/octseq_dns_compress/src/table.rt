//! Tables of the labels that pointers may lead to.
ghost use Rattle.std.specs.Prelude.{◌≡◌, ◌<◌, ◌≤◌, ℕ, Bool, true, List, length, nat_lt, OnOk, OnErr, IsTrue, ◌↔◌};
ghost use Rattle.std.specs.List.{insert, filter};

use std::alloc::AllocError;

mod fixed;
mod vector;

pub use crate::table::fixed::{StaticCompressor, Uncompressed};

/// The greatest number of targets in a table: one for each offset that a pointer can express.
pub(crate) const TARGETS_MAX: usize = 16384;

/// Where labels of a name are in a message: the first one's offset, and that of the others or the root.
#[derive(Clone, Copy, Debug, Default, PartialEq, Eq)]
pub struct Target {
    /// The offset of the label's length octet, from the first octet of the message.
    pub at: u16,
    /// The offset of the labels after it, or 0 if the root comes next.
    pub next: u16,
    /// The number of pointers that are followed from there.
    pub pointers: u8,
    /// A number by which most labels differ, so that few are compared octet by octet.
    pub digest: u16,
}

/// A table of targets, in an order that its user maintains.
pub trait Compressor: Drop {
    ghost use Rattle.octseq_dns_compress.specs.declared.table.Target.{Target};

    // The targets, in their order.
    ghost held: { Self → List Target };

    // The greatest number of targets.
    ghost most: { ℕ };

    // At most one target for each offset that a pointer can express.
    ghost few: { most ≤ 16384 };

    // Whether it requests memory.
    ghost asks: { Bool };

    /// Returns the targets.
    fn as_slice(&self) -> &[Target]
        ensures { result.now ≡ held self.now };

    /// Whether it can hold no more targets.
    fn is_full(&self) -> bool
        ensures { IsTrue result ↔ (most ≤ length (held self.now)) };

    /// Inserts a target at an index.
    ///
    /// # Errors
    ///
    /// `AllocError` if a request for memory was refused. The table is then unchanged.
    fn insert(&mut self, index: usize, target: Target) -> Result<(), AllocError>
        requires index { index ≤ length (held self.old) }
        requires room { length (held self.old) < most }
        ensures ok { OnOk result (held self.new ≡ insert (held self.old) index target) }
        ensures err { OnErr result (held self.new ≡ held self.old) }
        ensures memory { OnErr result (asks ≡ true) };

    /// Keeps only the targets at offsets before `place`.
    fn keep_before(&mut self, place: usize)
        ensures { held self.new ≡ filter (λ target. nat_lt target.at place) (held self.old) };
}
