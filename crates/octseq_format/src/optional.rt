//! An optional value at the end.
ghost use Rattle.std.specs.Prelude.{Option, false};
ghost use Rattle.std.specs.Coded.{coded_option};
ghost use Rattle.octseq_format.specs.Optional.{IsOptional, optional_says, optional_octets, OptionalFits};
ghost use Rattle.octseq_format.specs.Canonical.{not_one_way};
ghost use Rattle.octseq_format.specs.Optional.{optional_turns, one_optional, onward_optional, optional_read_back};
ghost use Rattle.octseq_format.specs.Answer.{not_so};

use crate::answer::No;
use crate::format::Format;
use octseq::{AsOctets, Malformed, OctetsBuilder, Parser, Truncate, Turns};
use std::alloc::AllocError;
use std::marker::PhantomData;

/// `A`, or nothing if no octets are left.
#[derive(Debug)]
pub struct Optional<A> {
    inside: PhantomData<A>,
}

impl<R: AsOctets + Copy, A: Format<R>> Format<R> for Optional<A> {
    type Value = Option<A::Value>;

    type SelfDelimiting = No;

    type NonEmpty = No;

    ghost Found = { Option A.Found };

    ghost found = { optional_says A.found };

    ghost is_at = { IsOptional A.is_at };

    ghost Said = { Option A.Said };

    ghost says = { optional_says A.says };

    ghost octets = { optional_octets A.octets };

    ghost fits = { OptionalFits A.octets A.fits };

    ghost one = { one_optional A.is_at A.one };

    ghost found_code = { coded_option A.found_code };

    ghost least = { 0 };

    ghost turns_of = { optional_turns A.turns_of };

    ghost base = { A.base };

    ghost rate = { A.rate };

    ghost key = { λ _. 0 };

    ghost stops = { A.stops };

    #[inline(always)]
    fn parse_counted(parser: &mut Parser<R>, turns: &mut Turns) -> Result<Self::Value, Malformed> {
        if parser.remaining() == 0 {
            return Ok(None);
        }
        match A::parse_counted(parser, turns) {
            Ok(value) => Ok(Some(value)),
            Err(e) => Err(e),
        }
    }

    fn fault(parser: &Parser<R>) -> usize {
        A::fault(parser)
    }

    #[inline(always)]
    fn least_len() -> usize {
        0
    }

    #[inline(always)]
    fn key_of(_value: &Self::Value) -> usize {
        0
    }

    #[inline(always)]
    fn is_canonical() -> bool {
        false
    }

    #[inline(always)]
    fn compose_len(value: &Self::Value) -> Option<usize> {
        match value {
            None => Some(0),
            Some(inside) => match A::compose_len(inside) {
                Some(len) if len > 0 => Some(len),
                _ => None,
            },
        }
    }

    #[inline(always)]
    fn put<B: OctetsBuilder + Truncate>(
        builder: &mut B,
        value: &Self::Value,
    ) -> Result<(), AllocError> {
        match value {
            None => Ok(()),
            Some(inside) => A::put(builder, inside),
        }
    }

    ghost one_way = { false };

    ghost canonical = { not_one_way };

    ghost onward = { onward_optional A.is_at A.onward };

    ghost read_back = { optional_read_back A.read_back };

    ghost delimited = { not_so };

    ghost moving = { not_so };
}
