//! One format, or where nothing of it is there, another.
ghost use Rattle.std.specs.Prelude.{◌⊎◌, ◌+◌, false};
ghost use Rattle.std.specs.Coded.{coded⊎};
ghost use Rattle.octseq_format.specs.Answer.{not_so};
ghost use Rattle.octseq_format.specs.Canonical.{not_one_way};
ghost use Rattle.octseq_format.specs.Either.{FirstOr, one_octets, OneFits, AreApart, one_first_or, onward_first_or};
ghost use Rattle.octseq_format.specs.Either.{first_or_read_back, lists_apart};
ghost use Rattle.octseq_format.specs.Family.{either_says, either_number};
ghost use Rattle.octseq_format.specs.Rest.{IsRest};
ghost use Rattle.octseq_format.specs.Stop.{StopsThen, stops_here};

use crate::answer::{No, Yes};
use crate::choice::OneOf2;
use crate::family::{Family, TellsKey};
use crate::format::{Format, end_or_fault};
use crate::number::Number;
use crate::rest::Rest;
use crate::rows::Repeated;
use crate::tagged::Tagged;
use crate::until::{Unless, Until};
use octseq::{AsOctets, Malformed, OctetsBuilder, Parser, Truncate, Turns};
use std::alloc::AllocError;
use std::marker::PhantomData;

/// A format that is never at the same offset as `B`.
pub trait Apart<R: AsOctets + Copy, B: Format<R>>: Format<R> {
    ghost apart: { AreApart Self.is_at B.is_at };
}

/// `A`, or where nothing of `A` is there, `B`, which takes all that is left.
#[derive(Debug)]
pub struct Either<A, B> {
    first: PhantomData<A>,
    second: PhantomData<B>,
}

/// Items up to the end of the window, or up to the tag `END`: then all that follows it, as padding, is kept.
pub type UntilOrEnd<N, const END: usize, F> = Either<
    Repeated<Tagged<N, Unless<END, F>>>,
    (Until<N, END, F>, Rest),
>;

impl<
    R: AsOctets + Copy,
    N: Number,
    const END: usize,
    F: Family<R, SelfDelimiting = Yes> + TellsKey,
> Apart<R, (Until<N, END, F>, Rest)> for Repeated<Tagged<N, Unless<END, F>>> {
    ghost apart = { lists_apart END N.one N.onward N.moving F.one F.onward IsRest };
}

impl<R: AsOctets + Copy, A: Apart<R, B>, B: Format<R>> Format<R> for Either<A, B> {
    ghost use Rattle.octseq_format.specs.OneOf.{one_of_2};

    type Value = OneOf2<A::Value, B::Value>;

    type SelfDelimiting = No;

    type NonEmpty = No;

    ghost Found = { A.Found ⊎ B.Found };

    ghost found = { one_of_2 A.found B.found };

    ghost is_at = { FirstOr A.is_at B.is_at };

    ghost Said = { A.Said ⊎ B.Said };

    ghost says = { either_says A.says B.says };

    ghost octets = { one_octets A.octets B.octets };

    ghost fits = { OneFits A.fits B.fits };

    ghost one = { one_first_or A.is_at B.is_at A.one B.one };

    ghost found_code = { coded⊎ A.found_code B.found_code };

    ghost least = { 0 };

    ghost turns_of = { either_number A.turns_of B.turns_of };

    ghost base = { A.base + B.base };

    ghost rate = { A.rate + B.rate };

    ghost key = { λ _. 0 };

    ghost stops = { StopsThen B.is_at B.stops (λ _. stops_here) };

    ghost one_way = { false };

    #[inline(always)]
    #[tactic(auto, using(crate::specs::Either::none_second, crate::specs::Either::octets_left))]
    fn parse_counted(parser: &mut Parser<R>, turns: &mut Turns) -> Result<Self::Value, Malformed> {
        if let Ok(first) = A::parse_counted(parser, turns) {
            return Ok(OneOf2::First(first));
        }
        let mut ahead = *parser;
        let second = B::parse_counted(&mut ahead, turns)?;
        if ahead.remaining() > 0 {
            return Err(Malformed);
        }
        *parser = ahead;
        Ok(OneOf2::Second(second))
    }

    fn fault(parser: &Parser<R>) -> usize {
        end_or_fault::<R, B>(parser)
    }

    #[inline(always)]
    fn least_len() -> usize {
        0
    }

    #[inline(always)]
    fn key_of(_value: &Self::Value) -> usize {
        0
    }

    #[inline(always)]
    fn is_canonical() -> bool {
        false
    }

    #[inline(always)]
    fn compose_len(value: &Self::Value) -> Option<usize> {
        match value {
            OneOf2::First(first) => A::compose_len(first),
            OneOf2::Second(second) => B::compose_len(second),
        }
    }

    #[inline(always)]
    fn put<Into: OctetsBuilder + Truncate>(
        builder: &mut Into,
        value: &Self::Value,
    ) -> Result<(), AllocError> {
        match value {
            OneOf2::First(first) => A::put(builder, first),
            OneOf2::Second(second) => B::put(builder, second),
        }
    }

    ghost canonical = { not_one_way };

    ghost onward = { onward_first_or A.is_at B.is_at A.onward B.onward };

    ghost read_back = { first_or_read_back A.apart A.read_back B.read_back };

    ghost delimited = { not_so };

    ghost moving = { not_so };
}
