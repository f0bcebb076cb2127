//! Numbers of a fixed number of octets, big-endian and little-endian.
ghost use Rattle.std.specs.Prelude.{◌≡◌, ◌≤◌, ◌<◌, ◌^◌, ℕ, length, true, IsNone, IfSome};
ghost use Rattle.std.proofs.Common.{rules};
ghost use Rattle.octseq.specs.Integer.{be, le, octets_be, octets_le};
ghost use Rattle.octseq_format.specs.Fixed.{IsFixed, one_fixed, onward_fixed, most_fixed, below_power};
ghost use Rattle.octseq_format.specs.Fixed.{delimited_fixed, canonical_fixed};
ghost use Rattle.octseq_format.specs.Integers.{are_be, are_le};

use crate::integers::{Be, Le, U24, U48};
use crate::number::{FixedWidth, Number};
use octseq::{AsOctets, Malformed, OctetsBuilder, Parser};
use std::alloc::AllocError;

/// The octets of a `usize`.
const MAX_WIDTH: usize = 8;

/// A width of 1 to 8 octets.
pub trait Width {
    ghost width: { ℕ };

    /// Returns the width in octets.
    fn octets() -> usize
        ensures { result ≡ width };

    ghost wide: { 0 < width };

    // Its numbers fit a `usize`.
    ghost few: { width ≤ 8 };
}

impl Width for u8 {
    ghost width = { 1 };

    fn octets() -> usize {
        1
    }

    ghost wide = { Prim.search rules };

    ghost few = { Prim.search rules };
}

impl Width for u16 {
    ghost width = { 2 };

    fn octets() -> usize {
        2
    }

    ghost wide = { Prim.search rules };

    ghost few = { Prim.search rules };
}

impl Width for U24 {
    ghost width = { 3 };

    fn octets() -> usize {
        3
    }

    ghost wide = { Prim.search rules };

    ghost few = { Prim.search rules };
}

impl Width for u32 {
    ghost width = { 4 };

    fn octets() -> usize {
        4
    }

    ghost wide = { Prim.search rules };

    ghost few = { Prim.search rules };
}

impl Width for U48 {
    ghost width = { 6 };

    fn octets() -> usize {
        6
    }

    ghost wide = { Prim.search rules };

    ghost few = { Prim.search rules };
}

impl Width for u64 {
    ghost width = { 8 };

    fn octets() -> usize {
        8
    }

    ghost wide = { Prim.search rules };

    ghost few = { Prim.search rules };
}

/// Returns the value of at most 8 octets, big-endian.
#[inline(always)]
#[tactic(auto, using(crate::proofs::EightOctets::wide_be))]
pub(crate) fn value_be(octets: &[u8]) -> usize
    requires { length octets.now ≤ 8 }
    ensures { result ≡ be octets.now }
{
    let mut wide = [0; MAX_WIDTH];
    wide[MAX_WIDTH - octets.len()..].copy_from_slice(octets);
    usize::from_be_bytes(wide)
}

/// Returns the value of at most 8 octets, little-endian.
#[inline(always)]
#[tactic(auto, using(crate::proofs::EightOctets::wide_le))]
pub(crate) fn value_le(octets: &[u8]) -> usize
    requires { length octets.now ≤ 8 }
    ensures { result ≡ le octets.now }
{
    let mut wide = [0; MAX_WIDTH];
    wide[..octets.len()].copy_from_slice(octets);
    usize::from_le_bytes(wide)
}

/// Returns the width if the number fits it.
#[inline(always)]
#[tactic(auto, using(crate::proofs::EightOctets::none_above, crate::proofs::EightOctets::some_above))]
fn fitting<T: Width>(number: usize) -> Option<usize>
    ensures some { IfSome result (λ len. (len ≡ T.width) × (number < 256 ^ T.width)) }
    ensures none { IsNone result → 256 ^ T.width ≤ number }
{
    let width = T::octets();
    if width == MAX_WIDTH {
        return Some(width);
    }
    if number >> (8 * width) > 0 {
        return None;
    }
    Some(width)
}

impl<T: Width> Number for Be<T> {
    ghost is_at = { IsFixed T.width be };

    ghost octets = { octets_be T.width };

    ghost fits = { λ n. n < 256 ^ T.width };

    ghost one = { one_fixed T.width be };

    ghost least = { T.width };

    ghost one_way = { true };

    #[inline(always)]
    fn parse_number<R: AsOctets>(parser: &mut Parser<R>) -> Result<usize, Malformed> {
        let number = value_be(parser.peek(T::octets())?);
        parser.advance(T::octets())?;
        Ok(number)
    }

    #[inline(always)]
    fn least_octets() -> usize {
        T::octets()
    }

    #[inline(always)]
    fn is_unique() -> bool {
        true
    }

    #[inline(always)]
    fn fixed_octets() -> Option<usize> {
        Some(T::octets())
    }

    #[inline(always)]
    #[tactic(auto, using(octseq::proofs::Written::length_be))]
    fn number_len(number: usize) -> Option<usize> {
        fitting::<T>(number)
    }

    #[inline(always)]
    #[tactic(auto, using(crate::proofs::EightOctets::last_be))]
    fn put_number<B: OctetsBuilder>(builder: &mut B, number: usize) -> Result<(), AllocError> {
        let octets = number.to_be_bytes();
        builder
            .append_slice(&octets[MAX_WIDTH - T::octets()..])
            .map_err(|_| AllocError)
    }

    ghost onward = { onward_fixed T.width be };

    ghost moving = { T.wide };

    ghost delimited = { delimited_fixed (are_be T.width) };

    ghost canonical = { λ _. canonical_fixed (are_be T.width) };

    ghost small = { most_fixed T.width T.few };
}

impl<T: Width> FixedWidth for Be<T> {
    ghost width = { T.width };

    #[inline(always)]
    fn width() -> usize {
        T::octets()
    }

    ghost each = { below_power T.width };

    ghost as_long = { (are_be T.width).many };
}

impl<T: Width> Number for Le<T> {
    ghost is_at = { IsFixed T.width le };

    ghost octets = { octets_le T.width };

    ghost fits = { λ n. n < 256 ^ T.width };

    ghost one = { one_fixed T.width le };

    ghost least = { T.width };

    ghost one_way = { true };

    #[inline(always)]
    fn parse_number<R: AsOctets>(parser: &mut Parser<R>) -> Result<usize, Malformed> {
        let number = value_le(parser.peek(T::octets())?);
        parser.advance(T::octets())?;
        Ok(number)
    }

    #[inline(always)]
    fn least_octets() -> usize {
        T::octets()
    }

    #[inline(always)]
    fn is_unique() -> bool {
        true
    }

    #[inline(always)]
    fn fixed_octets() -> Option<usize> {
        Some(T::octets())
    }

    #[inline(always)]
    #[tactic(auto, using(octseq::proofs::Written::length_le))]
    fn number_len(number: usize) -> Option<usize> {
        fitting::<T>(number)
    }

    #[inline(always)]
    #[tactic(auto, using(crate::proofs::EightOctets::first_le))]
    fn put_number<B: OctetsBuilder>(builder: &mut B, number: usize) -> Result<(), AllocError> {
        let octets = number.to_le_bytes();
        builder
            .append_slice(&octets[..T::octets()])
            .map_err(|_| AllocError)
    }

    ghost onward = { onward_fixed T.width le };

    ghost moving = { T.wide };

    ghost delimited = { delimited_fixed (are_le T.width) };

    ghost canonical = { λ _. canonical_fixed (are_le T.width) };

    ghost small = { most_fixed T.width T.few };
}

impl<T: Width> FixedWidth for Le<T> {
    ghost width = { T.width };

    #[inline(always)]
    fn width() -> usize {
        T::octets()
    }

    ghost each = { below_power T.width };

    ghost as_long = { (are_le T.width).many };
}
