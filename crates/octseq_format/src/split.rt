//! Families for the parts of a number, which tell it together.
ghost use Rattle.std.specs.Prelude.{◌≡◌, ◌≤◌, ◌+◌, ◌*◌, ◌/◌, ◌%◌, ◌^◌, ℕ, IsNone, IfSome, false, refl};
ghost use Rattle.octseq_format.specs.Answer.{not_so};
ghost use Rattle.octseq_format.specs.Canonical.{not_one_way};
ghost use Rattle.octseq_format.specs.Pair.{◌then◌, ◌and◌, ◌before◌, ◌code_then◌, ◌plus◌};
ghost use Rattle.octseq_format.specs.Pair.{◌one_then◌, ◌onward_then◌, ◌back_then◌, ◌delimited_then◌};
ghost use Rattle.octseq_format.specs.Split.{SplitFit, fewer_read_back, fewer_delimited, high_below, lowest_below};
ghost use Rattle.octseq_format.specs.Stop.{StopsThen};

use crate::answer::Yes;
use crate::bits::{UInt, fitting, joined, parted};
use crate::family::{Family, TellsKey};
use octseq::{AsOctets, Malformed, OctetsBuilder, Parser, Truncate, Turns};
use std::alloc::AllocError;
use std::marker::PhantomData;

/// How a number is cut in two parts.
pub trait Cut {
    ghost first: { ℕ → ℕ };

    ghost second: { ℕ → ℕ };

    // The number that two parts make up.
    ghost whole: { ℕ → ℕ → ℕ };

    ghost first_below: { (number : ℕ) → first number ≤ number };

    ghost second_below: { (number : ℕ) → second number ≤ number };

    /// Returns the parts of a number.
    fn cut(number: usize) -> (usize, usize)
        ensures first { result.0 ≡ first number }
        ensures second { result.1 ≡ second number };

    /// Joins parts. Returns `None` if no number has them, or none that fits a `usize`.
    fn join(one: usize, two: usize) -> Option<usize>
        ensures some { IfSome result (λ number. number ≡ whole one two) }
        ensures first { IfSome result (λ number. first number ≡ one) }
        ensures second { IfSome result (λ number. second number ≡ two) }
        ensures none { IsNone result → first (whole one two) ≡ one → second (whole one two) ≡ two
            → 2 ^ 64 ≤ whole one two };
}

/// The bits above the lowest `N`, and then the lowest `N`.
#[derive(Debug)]
pub struct HighFirst<const N: u32>;

impl<const N: u32> Cut for HighFirst<N> {
    ghost first = { λ number. number / 2 ^ N };

    ghost second = { λ number. number % 2 ^ N };

    ghost whole = { λ high low. high * 2 ^ N + low };

    ghost first_below = { high_below N };

    ghost second_below = { lowest_below N };

    #[inline(always)]
    fn cut(number: usize) -> (usize, usize) {
        parted::<UInt<N>>(number)
    }

    #[inline(always)]
    #[tactic(auto, using(crate::proofs::BitSteps::some_power, crate::proofs::BitSteps::cut_bits))]
    fn join(one: usize, two: usize) -> Option<usize> {
        joined::<UInt<N>>(one, fitting::<N>(two)?)
    }
}

/// The lowest `N` bits, and then those above them.
#[derive(Debug)]
pub struct LowFirst<const N: u32>;

impl<const N: u32> Cut for LowFirst<N> {
    ghost first = { λ number. number % 2 ^ N };

    ghost second = { λ number. number / 2 ^ N };

    ghost whole = { λ low high. high * 2 ^ N + low };

    ghost first_below = { lowest_below N };

    ghost second_below = { high_below N };

    #[inline(always)]
    fn cut(number: usize) -> (usize, usize) {
        let (high, low) = parted::<UInt<N>>(number);
        (low, high)
    }

    #[inline(always)]
    #[tactic(auto, using(crate::proofs::BitSteps::some_power, crate::proofs::BitSteps::cut_bits))]
    fn join(one: usize, two: usize) -> Option<usize> {
        joined::<UInt<N>>(two, fitting::<N>(one)?)
    }
}

/// `F` for the first part of the number, as `C` cuts it, and then `G` for the second. The two values tell the number:
/// so a length, a count or a flag in some of its bits is no field of its own.
#[derive(Debug)]
pub struct Split<C, F, G> {
    cut: PhantomData<C>,
    first: PhantomData<F>,
    second: PhantomData<G>,
}

impl<C, F: TellsKey, G: TellsKey> TellsKey for Split<C, F, G> {}

impl<R: AsOctets + Copy, C: Cut, F: Family<R, SelfDelimiting = Yes>, G: Family<R>> Family<R>
    for Split<C, F, G> {
    type Value = (F::Value, G::Value);

    type SelfDelimiting = G::SelfDelimiting;

    ghost Found = { F.Found × G.Found };

    ghost found = { λ both. (F.found both.0, G.found both.1) };

    ghost covers = { λ key. F.covers (C.first key) × G.covers (C.second key) };

    ghost is_at = { λ key. F.is_at (C.first key) then G.is_at (C.second key) };

    ghost Said = { F.Said × G.Said };

    ghost says = { F.says and G.says };

    ghost tag = { λ both. C.whole (F.tag both.0) (G.tag both.1) };

    ghost octets = { λ key. F.octets (C.first key) before G.octets (C.second key) };

    ghost fits = { λ key. SplitFit (F.fits (C.first key)) (G.fits (C.second key)) F.tag G.tag (C.first key)
        (C.second key) };

    ghost one = { λ key. F.one (C.first key) one_then G.one (C.second key) };

    ghost found_code = { F.found_code code_then G.found_code };

    ghost turns_of = { F.turns_of plus G.turns_of };

    ghost base = { F.base + G.base };

    ghost rate = { F.rate + G.rate };

    ghost stops = { λ key. StopsThen (F.is_at (C.first key)) (F.stops (C.first key)) (λ _. G.stops (C.second key)) };

    ghost one_way = { false };

    #[inline(always)]
    fn has_format(key: usize) -> bool {
        let (first, second) = C::cut(key);
        F::has_format(first) && G::has_format(second)
    }

    #[inline(always)]
    fn parse_by(
        key: usize,
        parser: &mut Parser<R>,
        turns: &mut Turns,
    ) -> Result<Self::Value, Malformed> {
        let (first, second) = C::cut(key);
        let mut ahead = *parser;
        let one = F::parse_by(first, &mut ahead, turns)?;
        let two = G::parse_by(second, &mut ahead, turns)?;
        *parser = ahead;
        Ok((one, two))
    }

    #[tactic(auto, using(crate::specs::Stop::at_first, crate::specs::Stop::at_second))]
    fn fault_by(key: usize, parser: &Parser<R>) -> usize {
        let (first, second) = C::cut(key);
        let mut ahead = *parser;
        match F::parse_by(first, &mut ahead, &mut Turns::new()) {
            Err(_) => F::fault_by(first, parser),
            Ok(_one) => G::fault_by(second, &ahead),
        }
    }

    #[inline(always)]
    fn is_unique() -> bool {
        false
    }

    #[inline(always)]
    #[tactic(auto, unfolding(crate::specs::Pair::both_octets, crate::specs::Pair::both_say))]
    fn tag_of(value: &Self::Value) -> Option<usize> {
        C::join(F::tag_of(&value.0)?, G::tag_of(&value.1)?)
    }

    #[inline(always)]
    #[tactic(auto, unfolding(crate::specs::Pair::both_octets, crate::specs::Pair::both_say))]
    fn told_len(value: &Self::Value) -> Option<(usize, usize)> {
        let (first, one) = F::told_len(&value.0)?;
        let (second, two) = G::told_len(&value.1)?;
        Some((C::join(first, second)?, one.checked_add(two)?))
    }

    #[inline(always)]
    #[tactic(auto, unfolding(crate::specs::Pair::both_octets, crate::specs::Pair::both_say))]
    fn len_by(key: usize, value: &Self::Value) -> Option<usize> {
        let (first, second) = C::cut(key);
        if F::tag_of(&value.0)? != first || G::tag_of(&value.1)? != second {
            return None;
        }
        F::len_by(first, &value.0)?.checked_add(G::len_by(second, &value.1)?)
    }

    #[inline(always)]
    #[tactic(auto, unfolding(crate::specs::Pair::both_octets, crate::specs::Pair::both_say))]
    fn put_by<B: OctetsBuilder + Truncate>(
        key: usize,
        builder: &mut B,
        value: &Self::Value,
    ) -> Result<(), AllocError> {
        let (first, second) = C::cut(key);
        let before = builder.len();
        F::put_by(first, builder, &value.0)?;
        let appended = G::put_by(second, builder, &value.1);
        if appended.is_err() {
            builder.truncate(before);
        }
        appended
    }

    ghost onward = { λ key. F.onward (C.first key) onward_then G.onward (C.second key) };

    ghost read_back = { λ key. fewer_read_back (F.delimited refl (C.first key) back_then G.read_back (C.second key))
        (λ said fits. fits.both) };

    ghost delimited = { λ yes key. fewer_delimited (F.delimited refl (C.first key) delimited_then G.delimited yes
        (C.second key)) (λ said fits. fits.both) };

    ghost canonical = { λ yes key. not_one_way yes };

    ghost told = { λ yes key said fits. not_so yes };
}
