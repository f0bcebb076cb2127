//! Numbers that meet a test.
ghost use Rattle.std.specs.Prelude.{◌≡◌, ℕ, IsTrue, IsFalse, false};
ghost use Rattle.std.specs.Coded.{coded_ℕ};
ghost use Rattle.octseq_format.specs.Where.{IsWhere, WhereFits, one_where, onward_where};
ghost use Rattle.octseq_format.specs.Canonical.{not_one_way};
ghost use Rattle.octseq_format.specs.Laws.{back_of};
ghost use Rattle.octseq_format.specs.Where.{where_read_back, delimited_where};
ghost use Rattle.octseq_format.specs.Stop.{stops_here};

use crate::answer::Yes;
use crate::format::Format;
use crate::number::Number;
use octseq::{AsOctets, Malformed, OctetsBuilder, Parser, Truncate, Turns};
use std::alloc::AllocError;
use std::marker::PhantomData;

/// A test of a number.
pub trait Test {
    ghost holds: { ℕ → Type 0 };

    /// Whether a number meets it.
    fn test(number: usize) -> bool
        ensures yes { IsTrue result → holds number }
        ensures no { IsFalse result → ¬ holds number };
}

/// A number, as `L` encodes it, that meets the test `T`.
#[derive(Debug)]
pub struct Where<L, T> {
    number: PhantomData<L>,
    test: PhantomData<T>,
}

impl<R: AsOctets + Copy, L: Number, T: Test> Format<R> for Where<L, T> {
    type Value = usize;

    type SelfDelimiting = Yes;

    type NonEmpty = Yes;

    ghost Found = { ℕ };

    ghost found = { λ n. n };

    ghost is_at = { IsWhere L.is_at (λ n. n) T.holds };

    ghost Said = { ℕ };

    ghost says = { λ n. n };

    ghost octets = { L.octets };

    ghost fits = { WhereFits L.fits T.holds };

    ghost one = { one_where L.is_at (λ n. n) T.holds L.one };

    ghost found_code = { coded_ℕ };

    ghost least = { L.least };

    ghost turns_of = { λ _. 0 };

    ghost base = { 0 };

    ghost rate = { 0 };

    ghost key = { λ _. 0 };

    ghost stops = { stops_here };

    #[inline(always)]
    #[tactic(auto, using(crate::specs::Where::other_where))]
    fn parse_counted(parser: &mut Parser<R>, _turns: &mut Turns) -> Result<usize, Malformed> {
        let mut ahead = *parser;
        let number = L::parse_number(&mut ahead)?;
        if !T::test(number) {
            return Err(Malformed);
        }
        *parser = ahead;
        Ok(number)
    }

    fn fault(parser: &Parser<R>) -> usize {
        parser.pos()
    }

    #[inline(always)]
    fn least_len() -> usize {
        L::least_octets()
    }

    #[inline(always)]
    fn key_of(_value: &Self::Value) -> usize {
        0
    }

    #[inline(always)]
    fn is_canonical() -> bool {
        false
    }

    #[inline(always)]
    fn fixed_len() -> Option<usize> {
        L::fixed_octets()
    }

    #[inline(always)]
    fn compose_len(value: &usize) -> Option<usize> {
        if !T::test(*value) {
            return None;
        }
        L::number_len(*value)
    }

    #[inline(always)]
    fn put<B: OctetsBuilder + Truncate>(builder: &mut B, value: &usize) -> Result<(), AllocError> {
        L::put_number(builder, *value)
    }

    ghost one_way = { false };

    ghost canonical = { not_one_way };

    ghost onward = { onward_where L.is_at (λ n. n) T.holds L.onward };

    ghost read_back = { where_read_back L.is_at (λ n. n) T.holds L.octets L.fits (back_of L.delimited) };

    ghost delimited = { λ _. delimited_where L.is_at (λ n. n) T.holds L.octets L.fits L.delimited };

    ghost moving = { λ _. L.moving };
}
