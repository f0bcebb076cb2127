//! An iterator over the items of a row. It never fails, as they were read before.
ghost use Rattle.std.specs.Prelude.{◌≡◌, ◌≤◌, ◌+◌, ◌↔◌, ⊤, [], length, map, IsTrue};
ghost use Rattle.octseq.specs.Parser.{window};
ghost use Rattle.octseq.specs.Window.{left};
ghost use Rattle.std.specs.List.{AllByRecursion};
ghost use Rattle.octseq_format.specs.Canonical.{IsCanonical};
ghost use Rattle.octseq_format.specs.Row.{HoldsTo, held_to_once, row_octets};

use crate::answer::{No, Yes};
use crate::format::Format;
use crate::laws::are_octets;
use octseq::{AsOctets, Parser};
use std::alloc::AllocError;
use std::marker::PhantomData;

/// The items of a row that are left.
#[derive(Debug)]
pub struct Walk<R: AsOctets + Copy, F: Format<R>> {
    parser: Parser<R>,
    left: usize,
    end: usize,
    item: PhantomData<F>,
    answers: PhantomData<(Yes, No)>,
    ghost ahead: { HoldsTo F.is_at (window parser) left end } by { held_to_once F.found_code F.is_at F.one _ _ _ },
}

impl<R: AsOctets + Copy, F: Format<R>> Copy for Walk<R, F> {}

impl<R: AsOctets + Copy, F: Format<R>> Clone for Walk<R, F> {
    ghost is_clone = { λ walk copy. copy ≡ walk };

    ghost is_infallible = { λ _. ⊤ };

    fn clone(&self) -> Result<Self, AllocError> {
        Ok(Walk {
            parser: self.parser,
            left: self.left,
            end: self.end,
            item: PhantomData,
            answers: PhantomData,
        })
    }
}

impl<R: AsOctets + Copy, F: Format<R>> Walk<R, F> {
    ghost use Rattle.octseq_format.specs.Walk.{items_left};

    /// Returns the number of items that are left.
    pub fn len(&self) -> usize
        ensures { result ≡ length (items_left self.now) }
    {
        self.left
    }

    /// Whether no items are left.
    pub fn is_empty(&self) -> bool
        ensures { IsTrue result ↔ (items_left self.now ≡ []) }
    {
        self.len() == 0
    }

    /// Returns another walk over the same items.
    pub fn iter(&self) -> Walk<R, F>
        ensures { items_left result ≡ items_left self.now }
    {
        Walk {
            parser: self.parser,
            left: self.left,
            end: self.end,
            item: PhantomData,
            answers: PhantomData,
        }
    }

    /// Returns the octets that the items were read from. If their encoding is unique, these are the octets that say
    /// them.
    pub(crate) fn as_slice(&self) -> &[u8]
        ensures { IsCanonical F.is_at F.says F.octets F.fits → AllByRecursion F.fits (map F.says (items_left self.now))
            × (result.now ≡ row_octets F.octets (map F.says (items_left self.now))) }
    {
        let sequence = self.parser.octets_ref();
        are_octets(sequence.as_ref());
        &self.parser.peek_all()[..self.octets_len()]
    }

    /// Returns the number of octets that the items were read from.
    fn octets_len(&self) -> usize
        ensures end { (window self.now.parser).position + result ≡ self.now.end }
        ensures within { result ≤ left (window self.now.parser) }
    {
        self.end - self.parser.pos()
    }

    /// Returns a walk over the `left` items at the parser's position, which end at `end`.
    pub(crate) fn at(parser: Parser<R>, left: usize, end: usize) -> Walk<R, F>
        requires { HoldsTo F.is_at (window parser) left end }
        ensures { (held : HoldsTo F.is_at (window parser) left end) → items_left result ≡ held.0 }
    {
        Walk {
            parser,
            left,
            end,
            item: PhantomData,
            answers: PhantomData,
        }
    }
}

impl<R: AsOctets + Copy, F: Format<R>> Iterator for Walk<R, F> {
    ghost use Rattle.std.specs.Iterator.{YieldsFirstBy, item_count};
    ghost use Rattle.octseq_format.specs.Walk.{items_left};

    type Item = F::Value;

    ghost next_gives = { YieldsFirstBy F.found items_left };

    ghost remaining = { item_count items_left };

    #[inline(always)]
    fn next(&mut self) -> Option<F::Value> {
        if self.left == 0 {
            return None;
        }
        let mut parser = self.parser;
        match F::parse(&mut parser) {
            Ok(item) => {
                let left = self.left - 1;
                let end = self.end;
                *self = Walk {
                    parser,
                    left,
                    end,
                    item: PhantomData,
                    answers: PhantomData,
                };
                Some(item)
            }
            Err(_) => unreachable!(),
        }
    }
}
