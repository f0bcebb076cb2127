//! Lists of items of one size, such as communities.
ghost use Rattle.std.specs.Prelude.{◌≡◌, ◌+◌, ◌*◌, ◌<◌, ◌≤◌, ℕ, List, length, IsErr, IfOk, ⊤};
ghost use Rattle.std.specs.Coded.{Coded};
ghost use Rattle.octseq.specs.Parser.{window, Takes};
ghost use Rattle.octseq.specs.Window.{left, next};
ghost use Rattle.octseq_format.specs.Fixed.{IsFixed, one_fixed};
ghost use Rattle.octseq_format.specs.Row.{Holds, held_once};
ghost use Rattle.octseq_bgp.specs.Fills.{Fills};

use octseq::{AsOctets, Malformed, Parser, ShortInput};
use std::alloc::AllocError;
use std::marker::PhantomData;

/// An item with a fixed number of octets.
pub trait Item: Copy + Drop {
    // What contracts see of an item.
    ghost Found: { Type 0 };

    ghost found: { Self → Found };

    // Two of them are equal in at most one way.
    ghost found_code: { Coded Found };

    // The number of octets, and what they say.
    ghost width: { ℕ };

    ghost reads: { List ℕ → Found };

    /// Returns the number of octets of an item.
    fn width() -> usize
        ensures { result ≡ width };

    /// Reads the next item.
    ///
    /// # Errors
    ///
    /// `ShortInput` if fewer octets are left.
    fn take<R: AsOctets>(parser: &mut Parser<R>) -> Result<Self, ShortInput>
        ensures taken { Takes result width parser.old parser.new }
        ensures value { IfOk result (λ item. found item ≡ reads (next width (window parser.old))) };

    ghost wide: { 0 < width };
}

/// An iterator over the items of a list.
#[derive(Debug)]
pub struct Items<R: AsOctets, T: Item> {
    parser: Parser<R>,
    left: usize,
    item: PhantomData<T>,
    ghost ahead: { Holds (IsFixed T.width T.reads) (window parser) left } by { held_once T.found_code
        (IsFixed T.width T.reads) (one_fixed T.width T.reads) (window parser) left },
}

impl<R: AsOctets + Copy, T: Item> Copy for Items<R, T> {}

impl<R: AsOctets + Copy, T: Item> Clone for Items<R, T> {
    ghost is_clone = { λ items copy. copy ≡ items };

    ghost is_infallible = { λ _. ⊤ };

    fn clone(&self) -> Result<Self, AllocError> {
        Ok(*self)
    }
}

impl<R: AsOctets + Copy, T: Item> Items<R, T> {
    ghost use Rattle.octseq_bgp.specs.Items.{items_left};

    /// Takes all that a parser has left as items, without a loop over them.
    ///
    /// # Errors
    ///
    /// `Malformed` if items don't fill it exactly.
    pub(crate) fn parse(parser: Parser<R>) -> Result<Items<R, T>, Malformed>
        ensures items { IfOk result (λ items. Fills (IsFixed T.width T.reads) (window parser) (items_left items)) }
        ensures malformed { IsErr result → (row : List T.Found)
            → ¬ Fills (IsFixed T.width T.reads) (window parser) row }
    {
        let width = T::width();
        let octets = parser.remaining();
        if octets % width != 0 {
            return Err(Malformed);
        }
        Ok(Items {
            parser,
            left: octets / width,
            item: PhantomData,
        })
    }

    /// Returns the number of items that are left.
    pub fn len(&self) -> usize
        ensures { result ≡ length (items_left self.now) }
    {
        self.left
    }
}

impl<R: AsOctets + Copy, T: Item> Iterator for Items<R, T> {
    ghost use Rattle.std.specs.Iterator.{YieldsFirstBy, item_count};
    ghost use Rattle.octseq_bgp.specs.Items.{items_left};

    type Item = T;

    ghost next_gives = { YieldsFirstBy T.found items_left };

    ghost remaining = { item_count items_left };

    #[inline(always)]
    fn next(&mut self) -> Option<T> {
        if self.left == 0 {
            return None;
        }
        let mut parser = self.parser;
        match T::take(&mut parser) {
            Ok(item) => {
                let left = self.left - 1;
                *self = Items {
                    parser,
                    left,
                    item: PhantomData,
                };
                Some(item)
            }
            Err(_) => unreachable!(),
        }
    }
}
