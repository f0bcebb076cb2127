//! An octet that decides what follows it.
ghost use Rattle.std.specs.Prelude.{◌<◌, ◌^◌, ℕ, true};
ghost use Rattle.std.specs.Coded.{coded_ℕ};
ghost use Rattle.std.proofs.Common.{rules};
ghost use Rattle.octseq.specs.Integer.{be, octets_be};
ghost use Rattle.octseq_format.specs.Fixed.{IsFixed, one_fixed, onward_fixed, fixed_read_back, canonical_fixed};
ghost use Rattle.octseq_format.specs.Fixed.{delimited_fixed};
ghost use Rattle.octseq_format.specs.Integers.{are_be};
ghost use Rattle.octseq_format.specs.Stop.{stops_here};

use octseq::{AsOctets, Malformed, OctetsBuilder, Parser, Truncate, Turns};
use octseq_format::{Format, U8, Yes};
use std::alloc::AllocError;

/// An octet that decides what follows, as a `u8`.
#[derive(Debug)]
pub struct KeyOctet;

impl<R: AsOctets + Copy> Format<R> for KeyOctet {
    type Value = u8;

    type SelfDelimiting = Yes;

    type NonEmpty = Yes;

    ghost Found = { ℕ };

    ghost found = { λ n. n };

    ghost is_at = { IsFixed 1 be };

    ghost Said = { ℕ };

    ghost says = { λ n. n };

    ghost octets = { octets_be 1 };

    ghost fits = { λ n. n < 256 ^ 1 };

    ghost one = { one_fixed 1 be };

    ghost found_code = { coded_ℕ };

    ghost least = { 1 };

    ghost turns_of = { λ _. 0 };

    ghost base = { 0 };

    ghost rate = { 0 };

    ghost key = { λ n. n };

    ghost stops = { stops_here };

    #[inline(always)]
    fn parse_counted(parser: &mut Parser<R>, turns: &mut Turns) -> Result<u8, Malformed> {
        U8::parse_counted(parser, turns)
    }

    fn fault(parser: &Parser<R>) -> usize {
        parser.pos()
    }

    #[inline(always)]
    fn least_len() -> usize {
        1
    }

    #[inline(always)]
    fn key_of(value: &u8) -> usize {
        usize::from(*value)
    }

    #[inline(always)]
    fn is_canonical() -> bool {
        true
    }

    #[inline(always)]
    fn fixed_len() -> Option<usize> {
        <U8 as Format<R>>::fixed_len()
    }

    #[inline(always)]
    fn compose_len(value: &u8) -> Option<usize> {
        <U8 as Format<R>>::compose_len(value)
    }

    #[inline(always)]
    fn put<B: OctetsBuilder + Truncate>(builder: &mut B, value: &u8) -> Result<(), AllocError> {
        <U8 as Format<R>>::put(builder, value)
    }

    ghost one_way = { true };

    ghost canonical = { λ _. canonical_fixed (are_be 1) };

    ghost onward = { onward_fixed 1 be };

    ghost read_back = { fixed_read_back (are_be 1) };

    ghost delimited = { λ _. delimited_fixed (are_be 1) };

    ghost moving = { λ _. Prim.search rules };
}
