//! Values with a checksum of their octets.
ghost use Rattle.std.specs.Prelude.{◌≡◌, ◌+◌, ℕ, List, false, refl, ◌&&◌};
ghost use Rattle.octseq_format.specs.Answer.{not_so};
ghost use Rattle.octseq_format.specs.Canonical.{not_one_way};
ghost use Rattle.octseq_format.specs.Checked.{IsChecked, checked_octets, cut_sum, sums_cut, one_checked};
ghost use Rattle.octseq_format.specs.Checked.{onward_checked, checked_read_back};
ghost use Rattle.octseq_format.specs.Checked.{delimited_checked, canonical_checked};
ghost use Rattle.octseq_format.specs.Family.{any_onward};
ghost use Rattle.octseq_format.specs.Pair.{some_more};
ghost use Rattle.octseq_format.specs.Stop.{StopsThen, stops_here};

use crate::answer::Yes;
use crate::families::end_or_fault_by;
use crate::family::{Family, TellsKey};
use crate::format::{Format, end_or_fault};
use crate::number::{FixedWidth, Number, lowest};
use octseq::{AsOctets, Malformed, OctetsBuilder, Parser, Truncate, Turns};
use std::alloc::AllocError;
use std::marker::PhantomData;

/// A checksum: a number that is a function of octets. Where it is too great for its encoding, its lowest octets count.
pub trait Checksum {
    /// How the number is encoded.
    type Sum: FixedWidth;

    ghost of: { List ℕ → ℕ };

    /// Returns the checksum of octets.
    fn of(octets: &[u8]) -> usize
        ensures { result ≡ of octets.now };
}

/// Returns what a checksum is encoded as.
#[inline(always)]
fn sum_of<S: Checksum>(octets: &[u8]) -> usize
    ensures { result ≡ cut_sum S.of S.Sum.width octets.now }
{
    lowest::<S::Sum>(S::of(octets))
}

/// `A`, a format or a family, followed by the checksum `S` of the octets that `A` takes.
#[derive(Debug)]
pub struct Checked<A, S> {
    inside: PhantomData<A>,
    checksum: PhantomData<S>,
}

impl<R: AsOctets + Copy, A: Format<R, SelfDelimiting = Yes>, S: Checksum> Format<R>
    for Checked<A, S> {
    type Value = A::Value;

    type SelfDelimiting = Yes;

    type NonEmpty = Yes;

    ghost Found = { A.Found };

    ghost found = { A.found };

    ghost is_at = { IsChecked (cut_sum S.of S.Sum.width) A.is_at S.Sum.is_at };

    ghost Said = { A.Said };

    ghost says = { A.says };

    ghost octets = { checked_octets (cut_sum S.of S.Sum.width) A.octets S.Sum.octets };

    ghost fits = { A.fits };

    ghost one = { one_checked (cut_sum S.of S.Sum.width) A.one S.Sum.one };

    ghost found_code = { A.found_code };

    ghost least = { S.Sum.least + A.least };

    ghost turns_of = { A.turns_of };

    ghost base = { A.base };

    ghost rate = { A.rate };

    ghost key = { A.key };

    ghost stops = { StopsThen A.is_at A.stops (λ _. stops_here) };

    ghost one_way = { A.one_way && S.Sum.one_way };

    #[inline(always)]
    #[tactic(auto, using(crate::specs::Checked::other_checksum))]
    fn parse_counted(parser: &mut Parser<R>, turns: &mut Turns) -> Result<Self::Value, Malformed> {
        let mut ahead = *parser;
        let value = A::parse_counted(&mut ahead, turns)?;
        let sum = sum_of::<S>(parser.peek(ahead.pos() - parser.pos())?);
        if S::Sum::parse_number(&mut ahead)? != sum {
            return Err(Malformed);
        }
        *parser = ahead;
        Ok(value)
    }

    fn fault(parser: &Parser<R>) -> usize {
        end_or_fault::<R, A>(parser)
    }

    #[inline(always)]
    fn least_len() -> usize {
        S::Sum::least_octets().saturating_add(A::least_len())
    }

    #[inline(always)]
    fn key_of(value: &Self::Value) -> usize {
        A::key_of(value)
    }

    #[inline(always)]
    fn is_canonical() -> bool {
        A::is_canonical() && S::Sum::is_unique()
    }

    #[inline(always)]
    #[tactic(auto, using(crate::specs::Checked::checked_long))]
    fn compose_len(value: &Self::Value) -> Option<usize> {
        A::compose_len(value)?.checked_add(S::Sum::width())
    }

    #[inline(always)]
    #[tactic(auto, using(crate::specs::Checked::checked_long))]
    fn put<B: OctetsBuilder + Truncate>(
        builder: &mut B,
        value: &Self::Value,
    ) -> Result<(), AllocError> {
        let before = builder.len();
        A::put(builder, value)?;
        let sum = sum_of::<S>(&builder.as_ref()[before..]);
        let appended = S::Sum::put_number(builder, sum);
        if appended.is_err() {
            builder.truncate(before);
        }
        appended
    }

    ghost canonical = { canonical_checked (cut_sum S.of S.Sum.width) A.onward A.canonical S.Sum.canonical };

    ghost onward = { onward_checked (cut_sum S.of S.Sum.width) A.onward S.Sum.onward };

    ghost read_back = { checked_read_back (cut_sum S.of S.Sum.width) (sums_cut S.of S.Sum.each S.Sum.as_long)
        (A.delimited refl) S.Sum.delimited };

    ghost delimited = { λ _. delimited_checked (cut_sum S.of S.Sum.width) (sums_cut S.of S.Sum.each S.Sum.as_long)
        (A.delimited refl) S.Sum.delimited };

    ghost moving = { λ _. some_more A.least S.Sum.moving };
}

impl<F: TellsKey, S> TellsKey for Checked<F, S> {}

impl<R: AsOctets + Copy, F: Family<R, SelfDelimiting = Yes>, S: Checksum> Family<R>
    for Checked<F, S> {
    type Value = F::Value;

    type SelfDelimiting = Yes;

    ghost Found = { F.Found };

    ghost found = { F.found };

    ghost covers = { F.covers };

    ghost is_at = { λ key. IsChecked (cut_sum S.of S.Sum.width) (F.is_at key) S.Sum.is_at };

    ghost Said = { F.Said };

    ghost says = { F.says };

    ghost tag = { F.tag };

    ghost octets = { λ key. checked_octets (cut_sum S.of S.Sum.width) (F.octets key) S.Sum.octets };

    ghost fits = { F.fits };

    ghost one = { λ key. one_checked (cut_sum S.of S.Sum.width) (F.one key) S.Sum.one };

    ghost found_code = { F.found_code };

    ghost turns_of = { F.turns_of };

    ghost base = { F.base };

    ghost rate = { F.rate };

    ghost stops = { λ key. StopsThen (F.is_at key) (F.stops key) (λ _. stops_here) };

    ghost one_way = { false };

    #[inline(always)]
    fn has_format(key: usize) -> bool {
        F::has_format(key)
    }

    #[inline(always)]
    #[tactic(auto, using(crate::specs::Checked::other_checksum))]
    fn parse_by(
        key: usize,
        parser: &mut Parser<R>,
        turns: &mut Turns,
    ) -> Result<Self::Value, Malformed> {
        let mut ahead = *parser;
        let value = F::parse_by(key, &mut ahead, turns)?;
        let checksum = sum_of::<S>(parser.peek(ahead.pos() - parser.pos())?);
        if S::Sum::parse_number(&mut ahead)? != checksum {
            return Err(Malformed);
        }
        *parser = ahead;
        Ok(value)
    }

    fn fault_by(key: usize, parser: &Parser<R>) -> usize {
        end_or_fault_by::<R, F>(key, parser)
    }

    #[inline(always)]
    fn is_unique() -> bool {
        false
    }

    #[inline(always)]
    #[tactic(auto, using(crate::specs::Checked::checked_long))]
    fn tag_of(value: &Self::Value) -> Option<usize> {
        F::tag_of(value)
    }

    #[inline(always)]
    #[tactic(auto, using(crate::specs::Checked::checked_long))]
    fn told_len(value: &Self::Value) -> Option<(usize, usize)> {
        let (number, len) = F::told_len(value)?;
        Some((number, len.checked_add(S::Sum::width())?))
    }

    #[inline(always)]
    #[tactic(auto, using(crate::specs::Checked::checked_long))]
    fn len_by(key: usize, value: &Self::Value) -> Option<usize> {
        F::len_by(key, value)?.checked_add(S::Sum::width())
    }

    #[inline(always)]
    #[tactic(auto, using(crate::specs::Checked::checked_long))]
    fn put_by<B: OctetsBuilder + Truncate>(
        key: usize,
        builder: &mut B,
        value: &Self::Value,
    ) -> Result<(), AllocError> {
        let before = builder.len();
        F::put_by(key, builder, value)?;
        let checksum = sum_of::<S>(&builder.as_ref()[before..]);
        let appended = S::Sum::put_number(builder, checksum);
        if appended.is_err() {
            builder.truncate(before);
        }
        appended
    }

    ghost onward = { λ key. any_onward (onward_checked (cut_sum S.of S.Sum.width) (F.onward key) S.Sum.onward) };

    ghost read_back = { λ key. checked_read_back (cut_sum S.of S.Sum.width)
        (sums_cut S.of S.Sum.each S.Sum.as_long) (F.delimited refl key) S.Sum.delimited };

    ghost delimited = { λ _ key. delimited_checked (cut_sum S.of S.Sum.width)
        (sums_cut S.of S.Sum.each S.Sum.as_long) (F.delimited refl key) S.Sum.delimited };

    ghost canonical = { λ yes key. not_one_way yes };

    ghost told = { λ yes key said fits. not_so yes };
}
