//! A fixed number.
ghost use Rattle.std.specs.Prelude.{◌≡◌};
ghost use Rattle.octseq_format.specs.Constant.{IsConstant, coded_unit, one_constant, onward_constant};
ghost use Rattle.octseq_format.specs.Constant.{delimited_constant, constant_read_back, canonical_constant};
ghost use Rattle.octseq_format.specs.Stop.{stops_here};

use crate::answer::Yes;
use crate::format::Format;
use crate::number::Number;
use octseq::{AsOctets, Malformed, OctetsBuilder, Parser, Truncate, Turns};
use std::alloc::AllocError;
use std::marker::PhantomData;

/// The number `N`, as `L` encodes it.
#[derive(Debug)]
pub struct Const<L, const N: usize> {
    number: PhantomData<L>,
}

impl<R: AsOctets + Copy, L: Number, const N: usize> Format<R> for Const<L, N> {
    type Value = ();

    type SelfDelimiting = Yes;

    type NonEmpty = Yes;

    ghost Found = { Unit {0} };

    ghost found = { λ a. a };

    ghost is_at = { IsConstant L.is_at N };

    ghost Said = { Unit {0} };

    ghost says = { λ a. a };

    ghost octets = { λ _. L.octets N };

    ghost fits = { λ _. L.fits N };

    ghost one = { one_constant N L.one };

    ghost found_code = { coded_unit };

    ghost least = { L.least };

    ghost turns_of = { λ _. 0 };

    ghost base = { 0 };

    ghost rate = { 0 };

    ghost key = { λ _. 0 };

    ghost stops = { stops_here };

    #[inline(always)]
    #[tactic(auto, using(crate::specs::Constant::other_constant))]
    fn parse_counted(parser: &mut Parser<R>, _turns: &mut Turns) -> Result<(), Malformed> {
        let mut ahead = *parser;
        if L::parse_number(&mut ahead)? != N {
            return Err(Malformed);
        }
        *parser = ahead;
        Ok(())
    }

    fn fault(parser: &Parser<R>) -> usize {
        parser.pos()
    }

    #[inline(always)]
    fn least_len() -> usize {
        L::least_octets()
    }

    #[inline(always)]
    fn key_of(_value: &Self::Value) -> usize {
        0
    }

    #[inline(always)]
    fn is_canonical() -> bool {
        L::is_unique()
    }

    #[inline(always)]
    fn fixed_len() -> Option<usize> {
        L::fixed_octets()
    }

    #[inline(always)]
    fn compose_len(_value: &()) -> Option<usize> {
        L::number_len(N)
    }

    #[inline(always)]
    fn put<B: OctetsBuilder + Truncate>(builder: &mut B, _value: &()) -> Result<(), AllocError> {
        L::put_number(builder, N)
    }

    ghost one_way = { L.one_way };

    ghost canonical = { λ yes. canonical_constant N (L.canonical yes) };

    ghost onward = { onward_constant N L.onward };

    ghost read_back = { constant_read_back N L.delimited };

    ghost delimited = { λ _. delimited_constant N L.delimited };

    ghost moving = { λ _. L.moving };
}
