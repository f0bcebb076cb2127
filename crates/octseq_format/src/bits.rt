//! Bit fields: the bits of a number as numbers and flags.
ghost use Rattle.std.specs.Prelude.{◌≡◌, ◌≢◌, ◌≤◌, ◌<◌, ◌+◌, ◌*◌, ◌/◌, ◌%◌, ◌^◌, ℕ, Bool, IsNone, IfSome, false};
ghost use Rattle.std.specs.Coded.{Coded, coded_ℕ, coded_bool, coded×};
ghost use Rattle.octseq_format.specs.Bits.{IsOneNumber, HasBits, IsBits, BitsFit, both_bits, bit_number, one_number};
ghost use Rattle.octseq_format.specs.Bits.{has_number, one_bit, has_bit, one_both, has_both, one_bits, onward_bits};
ghost use Rattle.octseq_format.specs.Bits.{delimited_bits, bits_read_back, capped};
ghost use Rattle.octseq_format.specs.Canonical.{not_one_way};
ghost use Rattle.octseq_format.specs.Pair.{◌also◌};
ghost use Rattle.octseq_format.specs.Stop.{stops_here};

use crate::answer::Yes;
use crate::format::Format;
use crate::keyed::Reckoning;
use crate::number::Number;
use octseq::{AsOctets, Malformed, OctetsBuilder, Parser, Truncate, Turns};
use std::alloc::AllocError;
use std::marker::PhantomData;

/// The fields that the bits of a number hold.
pub trait BitFields {
    /// The type that is read and written.
    type Value: Copy + Drop;

    ghost Said: { Type 0 };

    ghost said: { Self.Value → Said };

    // The number of bits.
    ghost bits: { ℕ };

    // The number that the bits make up.
    ghost number: { Said → ℕ };

    ghost fits: { Said → Type 0 };

    ghost one: { IsOneNumber number fits };

    ghost few: { HasBits bits number fits };

    ghost said_code: { Coded Said };

    /// Returns 2 to the power of the number of bits, or `None` if a `usize` can't hold it.
    fn size() -> Option<usize>
        ensures some { IfSome result (λ size. size ≡ 2 ^ bits) }
        ensures none { IsNone result → 2 ^ 64 ≤ 2 ^ bits };

    /// Splits a number into its fields. Returns `None` if it has more bits.
    fn split(from: usize) -> Option<Self::Value>
        ensures some { IfSome result (λ value. number (said value) ≡ from) }
        ensures fit { IfSome result (λ value. fits (said value)) }
        ensures none { IsNone result → (other : Said) → fits other → number other ≢ from };

    /// Joins fields to a number. Returns `None` if a field doesn't fit its bits, or the number doesn't fit a `usize`.
    fn join(value: Self::Value) -> Option<usize>
        ensures some { IfSome result (λ joined. joined ≡ number (said value)) }
        ensures fit { IfSome result (λ joined. fits (said value)) }
        ensures none { IsNone result → fits (said value) → 2 ^ 64 ≤ number (said value) };

    /// Returns the number that the fields make up, whether or not they fit their bits, or the greatest `usize` if it is
    /// greater.
    fn number_of(value: &Self::Value) -> usize
        ensures { result ≡ capped (number (said value.now)) };
}

/// Splits off the lowest bits, those of `B`. Returns the upper bits and the lowest ones.
pub(crate) fn parted<B: BitFields>(number: usize) -> (usize, usize)
    ensures high { result.0 ≡ number / 2 ^ B.bits }
    ensures low { result.1 ≡ number % 2 ^ B.bits }
{
    match B::size() {
        Some(size) => (number / size, number % size),
        None => (0, number),
    }
}

/// Joins upper bits and the lowest ones, those of `B`.
pub(crate) fn joined<B: BitFields>(high: usize, low: usize) -> Option<usize>
    ensures some { IfSome result (λ number. number ≡ high * 2 ^ B.bits + low) }
    ensures none { IsNone result → 2 ^ 64 ≤ high * 2 ^ B.bits + low }
{
    if high == 0 {
        return Some(low);
    }
    high.checked_mul(B::size()?)?.checked_add(low)
}

/// Joins upper bits and the lowest ones, those of `B`, up to the greatest `usize`.
#[tactic(auto, using(crate::specs::Bits::capped_high))]
fn capped_sum<B: BitFields>(high: usize, low: usize) -> usize
    ensures { result ≡ capped (high * 2 ^ B.bits + low) }
{
    match B::size() {
        Some(size) => high.saturating_mul(size).saturating_add(low),
        None if high == 0 => low,
        None => usize::MAX,
    }
}

/// Returns the number if it fits `N` bits.
#[tactic(auto, using(crate::proofs::BitSteps::long_power, crate::proofs::BitSteps::none_above))]
pub(crate) fn fitting<const N: u32>(number: usize) -> Option<usize>
    ensures some { IfSome result (λ value. (value ≡ number) × (number < 2 ^ N)) }
    ensures none { IsNone result → 2 ^ N ≤ number }
{
    if N >= usize::BITS {
        return Some(number);
    }
    if number >> N > 0 {
        return None;
    }
    Some(number)
}

/// An unsigned number of `N` bits.
#[derive(Debug)]
pub struct UInt<const N: u32>;

impl<const N: u32> BitFields for UInt<N> {
    type Value = usize;

    ghost Said = { ℕ };

    ghost said = { λ n. n };

    ghost bits = { N };

    ghost number = { λ n. n };

    ghost fits = { λ n. n < 2 ^ N };

    ghost one = { one_number N };

    ghost few = { has_number N };

    ghost said_code = { coded_ℕ };

    #[tactic(auto, using(crate::proofs::BitSteps::long_power))]
    fn size() -> Option<usize> {
        if N >= usize::BITS {
            return None;
        }
        Some(1 << N)
    }

    fn split(from: usize) -> Option<usize> {
        fitting::<N>(from)
    }

    fn join(value: usize) -> Option<usize> {
        fitting::<N>(value)
    }

    fn number_of(value: &usize) -> usize {
        *value
    }
}

/// One bit, as a `bool`.
#[derive(Debug)]
pub struct Flag;

impl BitFields for Flag {
    type Value = bool;

    ghost Said = { Bool };

    ghost said = { λ bit. bit };

    ghost bits = { 1 };

    ghost number = { bit_number };

    ghost fits = { λ _. Unit {0} };

    ghost one = { one_bit };

    ghost few = { has_bit };

    ghost said_code = { coded_bool };

    fn size() -> Option<usize> {
        Some(2)
    }

    fn split(from: usize) -> Option<bool> {
        match from {
            0 => Some(false),
            1 => Some(true),
            _ => None,
        }
    }

    fn join(value: bool) -> Option<usize> {
        Some(if value { 1 } else { 0 })
    }

    fn number_of(value: &bool) -> usize {
        if *value { 1 } else { 0 }
    }
}

impl<A: BitFields, B: BitFields> BitFields for (A, B) {
    type Value = (A::Value, B::Value);

    ghost Said = { A.Said × B.Said };

    ghost said = { λ both. (A.said both.0, B.said both.1) };

    ghost bits = { A.bits + B.bits };

    ghost number = { both_bits A.number B.bits B.number };

    ghost fits = { A.fits also B.fits };

    ghost one = { one_both B.bits B.few A.one B.one };

    ghost few = { has_both A.bits B.bits A.few B.few };

    ghost said_code = { coded× A.said_code B.said_code };

    #[tactic(auto, using(crate::proofs::BitSteps::both_size))]
    fn size() -> Option<usize> {
        A::size()?.checked_mul(B::size()?)
    }

    fn split(from: usize) -> Option<Self::Value> {
        let (high, low) = parted::<B>(from);
        Some((A::split(high)?, B::split(low)?))
    }

    fn join(value: Self::Value) -> Option<usize> {
        let high = A::join(value.0)?;
        let low = B::join(value.1)?;
        joined::<B>(high, low)
    }

    #[tactic(auto, using(crate::specs::Bits::capped_both, crate::proofs::BitSteps::some_power))]
    fn number_of(value: &Self::Value) -> usize {
        capped_sum::<B>(A::number_of(&value.0), B::number_of(&value.1))
    }
}

impl<A: BitFields, B: BitFields, C: BitFields> BitFields for (A, B, C) {
    type Value = (A::Value, B::Value, C::Value);

    ghost Said = { A.Said × (B.Said × C.Said) };

    ghost said = { λ all. (A.said all.0, (B.said all.1, C.said all.2)) };

    ghost bits = { A.bits + (B.bits + C.bits) };

    ghost number = { both_bits A.number (B.bits + C.bits) (both_bits B.number C.bits C.number) };

    ghost fits = { A.fits also B.fits also C.fits };

    ghost one = { one_both (B.bits + C.bits) (has_both B.bits C.bits B.few C.few) A.one
        (one_both C.bits C.few B.one C.one) };

    ghost few = { has_both A.bits (B.bits + C.bits) A.few (has_both B.bits C.bits B.few C.few) };

    ghost said_code = { coded× A.said_code (coded× B.said_code C.said_code) };

    fn size() -> Option<usize> {
        <(A, (B, C))>::size()
    }

    fn split(from: usize) -> Option<Self::Value> {
        let (a, (b, c)) = <(A, (B, C))>::split(from)?;
        Some((a, b, c))
    }

    fn join(value: Self::Value) -> Option<usize> {
        <(A, (B, C))>::join((value.0, (value.1, value.2)))
    }

    fn number_of(value: &Self::Value) -> usize {
        <(A, (B, C))>::number_of(&(value.0, (value.1, value.2)))
    }
}

impl<A: BitFields, B: BitFields, C: BitFields, D: BitFields> BitFields for (A, B, C, D) {
    type Value = (A::Value, B::Value, C::Value, D::Value);

    ghost Said = { A.Said × (B.Said × (C.Said × D.Said)) };

    ghost said = { λ all. (A.said all.0, (B.said all.1, (C.said all.2, D.said all.3))) };

    ghost bits = { A.bits + (B.bits + (C.bits + D.bits)) };

    ghost number = { both_bits A.number (B.bits + (C.bits + D.bits))
        (both_bits B.number (C.bits + D.bits) (both_bits C.number D.bits D.number)) };

    ghost fits = { A.fits also B.fits also C.fits also D.fits };

    ghost one = { one_both (B.bits + (C.bits + D.bits))
        (has_both B.bits (C.bits + D.bits) B.few (has_both C.bits D.bits C.few D.few)) A.one
        (one_both (C.bits + D.bits) (has_both C.bits D.bits C.few D.few) B.one (one_both D.bits D.few C.one D.one)) };

    ghost few = { has_both A.bits (B.bits + (C.bits + D.bits)) A.few
        (has_both B.bits (C.bits + D.bits) B.few (has_both C.bits D.bits C.few D.few)) };

    ghost said_code = { coded× A.said_code (coded× B.said_code (coded× C.said_code D.said_code)) };

    fn size() -> Option<usize> {
        <(A, (B, C, D))>::size()
    }

    fn split(from: usize) -> Option<Self::Value> {
        let (a, (b, c, d)) = <(A, (B, C, D))>::split(from)?;
        Some((a, b, c, d))
    }

    fn join(value: Self::Value) -> Option<usize> {
        <(A, (B, C, D))>::join((value.0, (value.1, value.2, value.3)))
    }

    fn number_of(value: &Self::Value) -> usize {
        <(A, (B, C, D))>::number_of(&(value.0, (value.1, value.2, value.3)))
    }
}

/// A number, as `L` encodes it, split into the bit fields `B`. Bits above those of `B` are zero.
#[derive(Debug)]
pub struct Bits<L, B> {
    number: PhantomData<L>,
    bits: PhantomData<B>,
}

impl<R: AsOctets + Copy, L: Number, B: BitFields> Format<R> for Bits<L, B> {
    type Value = B::Value;

    type SelfDelimiting = Yes;

    type NonEmpty = Yes;

    ghost Found = { B.Said };

    ghost found = { B.said };

    ghost is_at = { IsBits L.is_at B.number B.fits };

    ghost Said = { B.Said };

    ghost says = { λ said. said };

    ghost octets = { λ said. L.octets (B.number said) };

    ghost fits = { BitsFit L.fits B.number B.fits };

    ghost one = { one_bits B.number B.fits L.one B.one };

    ghost found_code = { B.said_code };

    ghost least = { L.least };

    ghost turns_of = { λ _. 0 };

    ghost base = { 0 };

    ghost rate = { 0 };

    ghost key = { λ _. 0 };

    ghost stops = { stops_here };

    #[inline(always)]
    #[tactic(auto, using(crate::specs::Bits::other_bits))]
    fn parse_counted(parser: &mut Parser<R>, _turns: &mut Turns) -> Result<B::Value, Malformed> {
        let mut ahead = *parser;
        let number = L::parse_number(&mut ahead)?;
        let Some(value) = B::split(number) else {
            return Err(Malformed);
        };
        *parser = ahead;
        Ok(value)
    }

    fn fault(parser: &Parser<R>) -> usize {
        parser.pos()
    }

    #[inline(always)]
    fn least_len() -> usize {
        L::least_octets()
    }

    #[inline(always)]
    fn key_of(_value: &Self::Value) -> usize {
        0
    }

    #[inline(always)]
    fn is_canonical() -> bool {
        false
    }

    #[inline(always)]
    fn fixed_len() -> Option<usize> {
        L::fixed_octets()
    }

    #[inline(always)]
    fn compose_len(value: &B::Value) -> Option<usize> {
        L::number_len(B::join(*value)?)
    }

    #[inline(always)]
    fn put<Into: OctetsBuilder + Truncate>(
        builder: &mut Into,
        value: &B::Value,
    ) -> Result<(), AllocError> {
        let Some(number) = B::join(*value) else {
            return Err(AllocError);
        };
        L::put_number(builder, number)
    }

    ghost one_way = { false };

    ghost canonical = { not_one_way };

    ghost onward = { onward_bits B.number B.fits L.onward };

    ghost read_back = { bits_read_back B.number B.fits L.delimited };

    ghost delimited = { λ _. delimited_bits B.number B.fits L.delimited };

    ghost moving = { λ _. L.moving };
}

/// The same, and the number decides what follows, as `K` reckons.
#[derive(Debug)]
pub struct KeyBits<L, B, K> {
    number: PhantomData<L>,
    bits: PhantomData<B>,
    reckoning: PhantomData<K>,
}

impl<R: AsOctets + Copy, L: Number, B: BitFields, K: Reckoning> Format<R> for KeyBits<L, B, K> {
    type Value = B::Value;

    type SelfDelimiting = Yes;

    type NonEmpty = Yes;

    ghost Found = { B.Said };

    ghost found = { B.said };

    ghost is_at = { IsBits L.is_at B.number B.fits };

    ghost Said = { B.Said };

    ghost says = { λ said. said };

    ghost octets = { λ said. L.octets (B.number said) };

    ghost fits = { BitsFit L.fits B.number B.fits };

    ghost one = { one_bits B.number B.fits L.one B.one };

    ghost found_code = { B.said_code };

    ghost least = { L.least };

    ghost turns_of = { λ _. 0 };

    ghost base = { 0 };

    ghost rate = { 0 };

    ghost key = { λ said. K.of (capped (B.number said)) };

    ghost stops = { stops_here };

    #[inline(always)]
    fn parse_counted(parser: &mut Parser<R>, turns: &mut Turns) -> Result<B::Value, Malformed> {
        <Bits<L, B> as Format<R>>::parse_counted(parser, turns)
    }

    fn fault(parser: &Parser<R>) -> usize {
        parser.pos()
    }

    #[inline(always)]
    fn least_len() -> usize {
        L::least_octets()
    }

    #[inline(always)]
    fn key_of(value: &Self::Value) -> usize {
        K::of(B::number_of(value))
    }

    #[inline(always)]
    fn is_canonical() -> bool {
        false
    }

    #[inline(always)]
    fn fixed_len() -> Option<usize> {
        L::fixed_octets()
    }

    #[inline(always)]
    fn compose_len(value: &B::Value) -> Option<usize> {
        <Bits<L, B> as Format<R>>::compose_len(value)
    }

    #[inline(always)]
    fn put<Into: OctetsBuilder + Truncate>(
        builder: &mut Into,
        value: &B::Value,
    ) -> Result<(), AllocError> {
        <Bits<L, B> as Format<R>>::put(builder, value)
    }

    ghost one_way = { false };

    ghost canonical = { not_one_way };

    ghost onward = { onward_bits B.number B.fits L.onward };

    ghost read_back = { bits_read_back B.number B.fits L.delimited };

    ghost delimited = { λ _. delimited_bits B.number B.fits L.delimited };

    ghost moving = { λ _. L.moving };
}
