//! A family at one number.
ghost use Rattle.octseq_format.specs.Answer.{not_so};

use crate::answer::No;
use crate::family::Family;
use crate::format::Format;
use octseq::{AsOctets, Malformed, OctetsBuilder, Parser, Truncate, Turns};
use std::alloc::AllocError;
use std::marker::PhantomData;

/// What the family `F` has for the number `KEY`: `At<32, Sized<Rest, 0>>` are 32 octets, as a window on them, and
/// `At<3, ManyBy<A>>` three `A`.
#[derive(Debug)]
pub struct At<const KEY: usize, F> {
    family: PhantomData<F>,
}

impl<R: AsOctets + Copy, const KEY: usize, F: Family<R>> Format<R> for At<KEY, F> {
    type Value = F::Value;

    type SelfDelimiting = F::SelfDelimiting;

    type NonEmpty = No;

    ghost Found = { F.Found };

    ghost found = { F.found };

    ghost is_at = { F.is_at KEY };

    ghost Said = { F.Said };

    ghost says = { F.says };

    ghost octets = { F.octets KEY };

    ghost fits = { F.fits KEY };

    ghost one = { F.one KEY };

    ghost found_code = { F.found_code };

    ghost least = { 0 };

    ghost turns_of = { F.turns_of };

    ghost base = { F.base };

    ghost rate = { F.rate };

    ghost key = { λ _. 0 };

    ghost stops = { F.stops KEY };

    ghost one_way = { F.one_way };

    #[inline(always)]
    fn parse_counted(parser: &mut Parser<R>, turns: &mut Turns) -> Result<Self::Value, Malformed> {
        F::parse_by(KEY, parser, turns)
    }

    fn fault(parser: &Parser<R>) -> usize {
        F::fault_by(KEY, parser)
    }

    #[inline(always)]
    fn least_len() -> usize {
        0
    }

    #[inline(always)]
    fn key_of(_value: &Self::Value) -> usize {
        0
    }

    #[inline(always)]
    fn is_canonical() -> bool {
        F::is_unique()
    }

    #[inline(always)]
    fn compose_len(value: &Self::Value) -> Option<usize> {
        F::len_by(KEY, value)
    }

    #[inline(always)]
    fn put<B: OctetsBuilder + Truncate>(
        builder: &mut B,
        value: &Self::Value,
    ) -> Result<(), AllocError> {
        F::put_by(KEY, builder, value)
    }

    ghost canonical = { λ yes. F.canonical yes KEY };

    ghost onward = { F.onward KEY };

    ghost read_back = { F.read_back KEY };

    ghost delimited = { λ yes. F.delimited yes KEY };

    ghost moving = { not_so };
}
