//! No octets.
ghost use Rattle.std.specs.Prelude.{[], true};
ghost use Rattle.octseq_format.specs.Answer.{not_so};
ghost use Rattle.octseq_format.specs.Constant.{coded_unit};
ghost use Rattle.octseq_format.specs.Nothing.{IsNothing, one_nothing, onward_nothing};
ghost use Rattle.octseq_format.specs.Nothing.{delimited_nothing, nothing_read_back};
ghost use Rattle.octseq_format.specs.Nothing.{canonical_nothing};
ghost use Rattle.octseq_format.specs.Stop.{stops_here};

use crate::answer::{No, Yes};
use crate::format::Format;
use octseq::{AsOctets, Malformed, OctetsBuilder, Parser, Truncate, Turns};
use std::alloc::AllocError;

/// No octets: it is always there, and takes nothing.
#[derive(Debug)]
pub struct Nothing;

impl<R: AsOctets + Copy> Format<R> for Nothing {
    type Value = ();

    type SelfDelimiting = Yes;

    type NonEmpty = No;

    ghost Found = { Unit {0} };

    ghost found = { λ a. a };

    ghost is_at = { IsNothing };

    ghost Said = { Unit {0} };

    ghost says = { λ a. a };

    ghost octets = { λ _. [] };

    ghost fits = { λ _. Unit {0} };

    ghost one = { one_nothing };

    ghost found_code = { coded_unit };

    ghost least = { 0 };

    ghost turns_of = { λ _. 0 };

    ghost base = { 0 };

    ghost rate = { 0 };

    ghost key = { λ _. 0 };

    ghost stops = { stops_here };

    ghost one_way = { true };

    #[inline(always)]
    fn parse_counted(_parser: &mut Parser<R>, _turns: &mut Turns) -> Result<(), Malformed> {
        Ok(())
    }

    fn fault(parser: &Parser<R>) -> usize {
        parser.pos()
    }

    #[inline(always)]
    fn least_len() -> usize {
        0
    }

    #[inline(always)]
    fn key_of(_value: &Self::Value) -> usize {
        0
    }

    #[inline(always)]
    fn is_canonical() -> bool {
        true
    }

    #[inline(always)]
    fn fixed_len() -> Option<usize> {
        Some(0)
    }

    #[inline(always)]
    fn compose_len(_value: &()) -> Option<usize> {
        Some(0)
    }

    #[inline(always)]
    fn put<B: OctetsBuilder + Truncate>(_builder: &mut B, _value: &()) -> Result<(), AllocError> {
        Ok(())
    }

    ghost canonical = { λ _. canonical_nothing };

    ghost onward = { onward_nothing };

    ghost read_back = { nothing_read_back };

    ghost delimited = { λ _. delimited_nothing };

    ghost moving = { not_so };
}
