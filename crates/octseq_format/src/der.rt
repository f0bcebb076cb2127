//! Lengths in the definite form of DER (X.690, 10.1).
ghost use Rattle.std.specs.Prelude.{◌≡◌, ◌≤◌, ◌<◌, ◌^◌, ℕ, length, true, IsNone, IfSome};
ghost use Rattle.std.proofs.Common.{rules};
ghost use Rattle.octseq_format.specs.Der.{IsDer, der_length, der_octets, DerFits};
ghost use Rattle.octseq_format.specs.Der.{apart_der, read_der, written_der};
ghost use Rattle.octseq_format.specs.Varying.{Leads, NoneLeads, IsVarying, one_varying, onward_varying};
ghost use Rattle.octseq_format.specs.Varying.{delimited_varying, canonical_varying};

use crate::number::{Number, put_octets};
use crate::widths::value_be;
use octseq::{AsOctets, Malformed, OctetsBuilder, Parser};
use std::alloc::AllocError;

/// Returns the length whose encoding leads the octets, and how many octets it takes.
#[inline(always)]
#[tactic(auto, using(crate::specs::Der::some_of_value))]
fn leading(octets: &[u8]) -> Option<(usize, usize)>
    ensures some { IfSome result (λ both. Leads IsDer der_length octets.now both.0 both.1) }
    ensures none { IsNone result → NoneLeads IsDer octets.now }
{
    let first = usize::from(*octets.first()?);
    if first < 0x80 {
        return Some((first, 1));
    }
    if first > 0x88 {
        return None;
    }
    let len = first - 0x7F;
    let after = octets.get(1..len)?;
    let number = value_be(after);
    if number < 0x80 {
        return None;
    }
    if after[0] == 0 {
        return None;
    }
    Some((number, len))
}

/// A length below 128 in one octet, or 128 plus how many octets follow, and the length in these, big-endian. They are
/// at most 8, and as few as possible: the definite form of DER (X.690, 10.1).
#[derive(Debug)]
pub struct DerLength;

impl Number for DerLength {
    ghost is_at = { IsVarying IsDer der_length };

    ghost octets = { der_octets };

    ghost fits = { DerFits };

    ghost one = { one_varying der_length apart_der };

    ghost least = { 1 };

    ghost one_way = { true };

    #[inline(always)]
    #[tactic(auto, using(crate::specs::Varying::none_varying))]
    fn parse_number<R: AsOctets>(parser: &mut Parser<R>) -> Result<usize, Malformed> {
        let Some((number, len)) = leading(parser.peek_all()) else {
            return Err(Malformed);
        };
        parser.advance(len)?;
        Ok(number)
    }

    #[inline(always)]
    fn least_octets() -> usize {
        1
    }

    #[inline(always)]
    fn is_unique() -> bool {
        true
    }

    #[inline(always)]
    #[tactic(auto, using(crate::proofs::Ders::der_made))]
    fn number_len(number: usize) -> Option<usize> {
        Some(match number {
            0..=0x7F => 1,
            0x80..=0xFF => 2,
            0x100..=0xFFFF => 3,
            0x1_0000..=0xFF_FFFF => 4,
            0x100_0000..=0xFFFF_FFFF => 5,
            0x1_0000_0000..=0xFF_FFFF_FFFF => 6,
            0x100_0000_0000..=0xFFFF_FFFF_FFFF => 7,
            0x1_0000_0000_0000..=0xFF_FFFF_FFFF_FFFF => 8,
            _ => 9,
        })
    }

    #[tactic(auto, using(crate::proofs::Ders::der_made))]
    fn put_number<B: OctetsBuilder>(builder: &mut B, number: usize) -> Result<(), AllocError> {
        let [a, b, c, d, e, f, g, h] = number.to_be_bytes();
        match number {
            0..=0x7F => put_octets(builder, &[h]),
            0x80..=0xFF => put_octets(builder, &[0x81, h]),
            0x100..=0xFFFF => put_octets(builder, &[0x82, g, h]),
            0x1_0000..=0xFF_FFFF => put_octets(builder, &[0x83, f, g, h]),
            0x100_0000..=0xFFFF_FFFF => put_octets(builder, &[0x84, e, f, g, h]),
            0x1_0000_0000..=0xFF_FFFF_FFFF => put_octets(builder, &[0x85, d, e, f, g, h]),
            0x100_0000_0000..=0xFFFF_FFFF_FFFF => put_octets(builder, &[0x86, c, d, e, f, g, h]),
            0x1_0000_0000_0000..=0xFF_FFFF_FFFF_FFFF => put_octets(
                builder,
                &[0x87, b, c, d, e, f, g, h],
            ),
            _ => put_octets(builder, &[0x88, a, b, c, d, e, f, g, h]),
        }
    }

    ghost onward = { onward_varying der_length apart_der };

    ghost moving = { Prim.search rules };

    ghost small = { λ _ fits. fits };

    ghost delimited = { delimited_varying read_der };

    ghost canonical = { λ _. canonical_varying apart_der written_der };
}
