//! Octets as they are.
ghost use Rattle.std.specs.Prelude.{◌≡◌, ℕ, List, length, true};
ghost use Rattle.std.specs.Coded.{coded_list, coded_ℕ};
ghost use Rattle.octseq_format.specs.Answer.{not_so};
ghost use Rattle.octseq_format.specs.Stop.{stops_here};

use crate::answer::{No, Yes};
use crate::format::Format;
use octseq::{AsOctets, Malformed, OctetsBuilder, Parser, Truncate, Turns};
use std::alloc::AllocError;

/// The next `N` octets, as an array.
#[derive(Debug)]
pub struct OctetArray<const N: usize>;

impl<R: AsOctets + Copy, const N: usize> Format<R> for OctetArray<N> {
    ghost use Rattle.octseq_format.specs.Fixed.{delimited_fixed};
    ghost use Rattle.octseq_format.specs.Fixed.{IsFixed, one_fixed, onward_fixed, fixed_read_back, canonical_fixed};
    ghost use Rattle.octseq_format.specs.Octets.{are_octets};

    type Value = [u8; N];

    type SelfDelimiting = Yes;

    type NonEmpty = No;

    ghost Found = { List ℕ };

    ghost found = { λ octets. octets };

    ghost is_at = { IsFixed N (λ octets. octets) };

    ghost Said = { List ℕ };

    ghost says = { λ octets. octets };

    ghost octets = { λ octets. octets };

    ghost fits = { λ octets. length octets ≡ N };

    ghost one = { one_fixed N (λ octets. octets) };

    ghost found_code = { coded_list coded_ℕ };

    ghost least = { N };

    ghost turns_of = { λ _. 0 };

    ghost base = { 0 };

    ghost rate = { 0 };

    ghost key = { λ _. 0 };

    ghost stops = { stops_here };

    #[inline(always)]
    fn parse_counted(parser: &mut Parser<R>, _turns: &mut Turns) -> Result<[u8; N], Malformed> {
        let mut octets = [0; N];
        parser.parse_buf(&mut octets)?;
        Ok(octets)
    }

    fn fault(parser: &Parser<R>) -> usize {
        parser.pos()
    }

    #[inline(always)]
    fn least_len() -> usize {
        N
    }

    #[inline(always)]
    fn key_of(_value: &Self::Value) -> usize {
        0
    }

    #[inline(always)]
    fn is_canonical() -> bool {
        true
    }

    #[inline(always)]
    fn fixed_len() -> Option<usize> {
        Some(N)
    }

    #[inline(always)]
    fn compose_len(value: &[u8; N]) -> Option<usize> {
        Some(N)
    }

    #[inline(always)]
    fn put<B: OctetsBuilder + Truncate>(
        builder: &mut B,
        value: &[u8; N],
    ) -> Result<(), AllocError> {
        builder.append_slice(value).map_err(|_| AllocError)
    }

    ghost one_way = { true };

    ghost canonical = { λ _. canonical_fixed (are_octets N) };

    ghost onward = { onward_fixed N (λ octets. octets) };

    ghost read_back = { fixed_read_back (are_octets N) };

    ghost delimited = { λ _. delimited_fixed (are_octets N) };

    ghost moving = { not_so };
}
