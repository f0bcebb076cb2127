//! Numbers in groups of 7 bits, the lowest first (LEB128).
ghost use Rattle.std.specs.Prelude.{◌≡◌, ◌≤◌, ◌<◌, ◌^◌, ℕ, length, false, IsNone, IfSome, take};
ghost use Rattle.std.proofs.Common.{rules};
ghost use Rattle.octseq_format.specs.Leb128.{IsChained, IsLeb128, LebFits, leb128, leb128_octets};
ghost use Rattle.octseq_format.specs.Canonical.{not_one_way};
ghost use Rattle.octseq_format.specs.Leb128.{apart_leb128, read_leb128, most_leb128};
ghost use Rattle.octseq_format.specs.Varying.{Leads, NoneLeads, IsVarying, one_varying, onward_varying};
ghost use Rattle.octseq_format.specs.Varying.{delimited_varying};

use crate::bits::fitting;
use crate::number::{Number, put_octets};
use octseq::{AsOctets, Malformed, OctetsBuilder, Parser};
use std::alloc::AllocError;

/// The maximum number of octets of a `usize`.
const MAX_GROUPS: usize = 10;

/// Returns the number of the lowest 7 bits of each octet, or `None` if it doesn't fit a `usize`.
#[tactic(auto, using(crate::proofs::Lebs::leb128_at, crate::proofs::Lebs::leb128_end, crate::proofs::Lebs::leb128_most))]
fn groups_value(octets: &[u8]) -> Option<usize>
    ensures some { IfSome result (λ number. number ≡ leb128 octets.now) }
    ensures none { IsNone result → 2 ^ 64 ≤ leb128 octets.now }
{
    let mut number: usize = 0;
    let mut offset = octets.len();
    while offset > 0 {
        offset -= 1;
        let group = usize::from(octets[offset] % 128);
        number = number.checked_mul(128)?.checked_add(group)?;
    }
    Some(number)
}

/// Returns how many octets are chained at the front: the last one is below 128, and those before it aren't. There are
/// at most `MAX`.
#[tactic(auto, using(crate::proofs::Lebs::chained_to, crate::proofs::Lebs::not_chained))]
fn chain_len<const MAX: usize>(octets: &[u8]) -> Option<usize>
    ensures some { IfSome result (λ len. (len ≤ length octets.now) × (len ≤ MAX) × IsChained (take len octets.now)) }
    ensures none { IsNone result → (k : ℕ) → k ≤ length octets.now → k ≤ MAX → IsChained (take k octets.now) → ⊥ }
{
    for offset in 0..octets.len().min(MAX) {
        if octets[offset] < 128 {
            return Some(offset + 1);
        }
    }
    None
}

/// Returns the number whose encoding leads the octets, and how many octets it takes.
#[inline(always)]
fn leading<const MAX: usize, const BITS: u32>(octets: &[u8]) -> Option<(usize, usize)>
    ensures some { IfSome result (λ both. Leads (IsLeb128 MAX BITS) leb128 octets.now both.0 both.1) }
    ensures none { IsNone result → NoneLeads (IsLeb128 MAX BITS) octets.now }
{
    let len = chain_len::<MAX>(octets)?;
    let number = groups_value(&octets[..len])?;
    Some((fitting::<BITS>(number)?, len))
}

/// Returns the octets of a number, at the front of an array, and how many there are.
fn encoded(number: usize) -> ([u8; MAX_GROUPS], usize)
    ensures few { result.1 ≤ 10 }
    ensures many { length (take result.1 result.0) ≡ result.1 }
    ensures octets { take result.1 result.0 ≡ leb128_octets number }
{
    let mut octets = [0; MAX_GROUPS];
    let mut left = number;
    let mut len = 0;
    while left >= 128 {
        octets[len] = 128 + (left % 128) as u8;
        left /= 128;
        len += 1;
    }
    octets[len] = left as u8;
    (octets, len + 1)
}

/// A number below 2 to the powers of `BITS` and 64, in groups of 7 bits, the lowest first (unsigned LEB128). An octet
/// has one group, and its highest bit says that another follows. There are at most `MAX` octets. It is written in the
/// fewest, and read also in more.
///
/// Protocol Buffers has `Leb128<10, 64>`, and WebAssembly `Leb128<5, 32>` and `Leb128<10, 64>`.
#[derive(Debug)]
pub struct Leb128<const MAX: usize, const BITS: u32>;

impl<const MAX: usize, const BITS: u32> Number for Leb128<MAX, BITS> {
    ghost is_at = { IsVarying (IsLeb128 MAX BITS) leb128 };

    ghost octets = { leb128_octets };

    ghost fits = { LebFits MAX BITS };

    ghost one = { one_varying leb128 (apart_leb128 MAX BITS) };

    ghost least = { 1 };

    ghost one_way = { false };

    #[inline(always)]
    #[tactic(auto, using(crate::specs::Varying::none_varying))]
    fn parse_number<R: AsOctets>(parser: &mut Parser<R>) -> Result<usize, Malformed> {
        let Some((number, len)) = leading::<MAX, BITS>(parser.peek_all()) else {
            return Err(Malformed);
        };
        parser.advance(len)?;
        Ok(number)
    }

    #[inline(always)]
    fn least_octets() -> usize {
        1
    }

    #[inline(always)]
    fn is_unique() -> bool {
        false
    }

    fn number_len(number: usize) -> Option<usize> {
        let (_, len) = encoded(fitting::<BITS>(number)?);
        if len > MAX {
            return None;
        }
        Some(len)
    }

    #[inline(always)]
    fn put_number<B: OctetsBuilder>(builder: &mut B, number: usize) -> Result<(), AllocError> {
        let (octets, len) = encoded(number);
        put_octets(builder, &octets[..len])
    }

    ghost onward = { onward_varying leb128 (apart_leb128 MAX BITS) };

    ghost moving = { Prim.search rules };

    ghost small = { most_leb128 MAX BITS };

    ghost delimited = { delimited_varying (read_leb128 MAX BITS) };

    ghost canonical = { not_one_way };
}
