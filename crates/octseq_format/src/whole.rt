//! Values that say how many octets they take.
ghost use Rattle.octseq_format.specs.Whole.{IsWhole, WholeFits, one_whole, onward_whole};
ghost use Rattle.octseq_format.specs.Whole.{whole_read_back, delimited_whole, canonical_whole};
ghost use Rattle.octseq_format.specs.Stop.{StopsThen, stops_here};

use crate::format::{Format, end_or_fault};
use octseq::{AsOctets, Malformed, OctetsBuilder, Parser, Truncate, Turns};
use std::alloc::AllocError;
use std::marker::PhantomData;

/// `A`, whose key is the number of octets that it takes in all, as that of a message whose head has
/// its total length. A value with another key has no octets.
#[derive(Debug)]
pub struct Whole<A> {
    inside: PhantomData<A>,
}

impl<R: AsOctets + Copy, A: Format<R>> Format<R> for Whole<A> {
    type Value = A::Value;

    type SelfDelimiting = A::SelfDelimiting;

    type NonEmpty = A::NonEmpty;

    ghost Found = { A.Found };

    ghost found = { A.found };

    ghost is_at = { IsWhole A.key A.says A.is_at };

    ghost Said = { A.Said };

    ghost says = { A.says };

    ghost octets = { A.octets };

    ghost fits = { WholeFits A.key A.octets A.fits };

    ghost one = { one_whole A.key A.says A.one };

    ghost found_code = { A.found_code };

    ghost least = { A.least };

    ghost turns_of = { A.turns_of };

    ghost base = { A.base };

    ghost rate = { A.rate };

    ghost key = { λ _. 0 };

    ghost stops = { StopsThen A.is_at A.stops (λ _. stops_here) };

    ghost one_way = { A.one_way };

    #[inline(always)]
    #[tactic(auto, using(crate::specs::Whole::other_whole))]
    fn parse_counted(parser: &mut Parser<R>, turns: &mut Turns) -> Result<Self::Value, Malformed> {
        let mut ahead = *parser;
        let value = A::parse_counted(&mut ahead, turns)?;
        if parser.remaining() - ahead.remaining() != A::key_of(&value) {
            return Err(Malformed);
        }
        *parser = ahead;
        Ok(value)
    }

    fn fault(parser: &Parser<R>) -> usize {
        end_or_fault::<R, A>(parser)
    }

    #[inline(always)]
    fn least_len() -> usize {
        A::least_len()
    }

    #[inline(always)]
    fn key_of(_value: &Self::Value) -> usize {
        0
    }

    #[inline(always)]
    fn is_canonical() -> bool {
        A::is_canonical()
    }

    #[inline(always)]
    fn compose_len(value: &Self::Value) -> Option<usize> {
        let len = A::compose_len(value)?;
        if A::key_of(value) != len {
            return None;
        }
        Some(len)
    }

    #[inline(always)]
    fn put<B: OctetsBuilder + Truncate>(
        builder: &mut B,
        value: &Self::Value,
    ) -> Result<(), AllocError> {
        A::put(builder, value)
    }

    ghost canonical = { λ yes. canonical_whole A.key A.says A.onward (A.canonical yes) };

    ghost onward = { onward_whole A.key A.says A.onward };

    ghost read_back = { whole_read_back A.key A.says A.read_back };

    ghost delimited = { λ yes. delimited_whole A.key A.says (A.delimited yes) };

    ghost moving = { A.moving };
}
