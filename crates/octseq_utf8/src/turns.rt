//! A count that is read only by contracts.
ghost use Rattle.std.specs.Prelude.{◌≡◌, ◌+◌};

use std::marker::Model;
use std::mem::replace;
use std::snapshot::Snapshot;

/// The count: nothing, or one more than a previous count. A snapshot holds nothing at run time.
#[derive(Drop)]
enum Count {
    Zero,
    After(Snapshot<Count>),
}

/// The number of turns that a search took. Contracts see a number; at run time it holds nothing.
#[derive(Drop)]
pub struct Turns {
    count: Snapshot<Count>,
}

impl Model for Turns {
    ghost use Rattle.std.specs.Prelude.{ℕ};

    ghost Value = { ℕ };

    ghost use Rattle.octseq_utf8.specs.Turns.{counts_before};

    ghost view = { λ turns. counts_before turns.count.value };
}

impl Turns {
    /// No turn yet.
    pub fn new() -> Self
        ensures { result ≡ 0 }
    {
        Turns {
            count: Snapshot::of(&Count::Zero),
        }
    }

    /// Counts one turn.
    pub fn tick(&mut self)
        ensures { self.new ≡ self.old + 1 }
    {
        let before = replace(&mut self.count, Snapshot::of(&Count::Zero));
        self.count = Snapshot::of(&Count::After(before));
    }

    /// Counts this many turns, without any cost at run time.
    #[inline(always)]
    pub(crate) fn pass(&mut self, count: usize)
        ensures { self.new ≡ self.old + count }
    {
        for _ in 0..count {
            self.tick();
        }
    }
}
