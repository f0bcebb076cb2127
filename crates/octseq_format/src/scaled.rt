//! Numbers that count units, as words of four octets.
ghost use Rattle.std.specs.Prelude.{◌≡◌, ◌*◌, ◌/◌, IsNone, IfSome, false};
ghost use Rattle.octseq_format.specs.Answer.{not_so};
ghost use Rattle.octseq_format.specs.Canonical.{not_one_way};
ghost use Rattle.octseq_format.specs.Family.{IsWhen, one_when, onward_when};
ghost use Rattle.octseq_format.specs.Scaled.{Scales, ScaledFit, scaled_read_back, delimited_scaled};
ghost use Rattle.octseq_format.specs.Stop.{StopsBy, stops_here};

use crate::family::{Family, TellsKey};
use octseq::{AsOctets, Malformed, OctetsBuilder, Parser, Truncate, Turns};
use std::alloc::AllocError;
use std::marker::PhantomData;

/// Returns how many a number of units comes to.
#[inline(always)]
fn times<const UNIT: usize>(key: usize) -> Option<usize>
    ensures some { IfSome result (λ number. number ≡ key * UNIT) }
    ensures scales { IfSome result (λ number. Scales UNIT key) }
    ensures none { IsNone result → ¬ Scales UNIT key }
{
    if UNIT == 0 {
        return None;
    }
    key.checked_mul(UNIT)
}

/// Returns how many units make up a number.
#[inline(always)]
fn units<const UNIT: usize>(number: usize) -> Option<usize>
    ensures some { IfSome result (λ units. units ≡ number / UNIT) }
    ensures whole { IfSome result (λ units. units * UNIT ≡ number) }
    ensures scales { IfSome result (λ units. Scales UNIT units) }
    ensures none { IsNone result → Scales UNIT (number / UNIT) → ¬ (number ≡ number / UNIT * UNIT) }
{
    if UNIT == 0 || number % UNIT != 0 {
        return None;
    }
    Some(number / UNIT)
}

/// `F` for `UNIT` times the number: `Scaled<4, Sized<A, 0>>` takes a length in words of four octets. The value tells
/// the number. If `UNIT` is 0, no number has a format.
#[derive(Debug)]
pub struct Scaled<const UNIT: usize, F> {
    family: PhantomData<F>,
}

impl<const UNIT: usize, F: TellsKey> TellsKey for Scaled<UNIT, F> {}

impl<R: AsOctets + Copy, const UNIT: usize, F: Family<R>> Family<R> for Scaled<UNIT, F> {
    type Value = F::Value;

    type SelfDelimiting = F::SelfDelimiting;

    ghost Found = { F.Found };

    ghost found = { F.found };

    ghost covers = { λ key. Scales UNIT key × F.covers (key * UNIT) };

    ghost is_at = { IsWhen (Scales UNIT) (λ key. F.is_at (key * UNIT)) };

    ghost Said = { F.Said };

    ghost says = { F.says };

    ghost tag = { λ said. F.tag said / UNIT };

    ghost octets = { λ key. F.octets (key * UNIT) };

    ghost fits = { ScaledFit UNIT F.tag F.fits };

    ghost one = { one_when (Scales UNIT) (λ key. F.one (key * UNIT)) };

    ghost found_code = { F.found_code };

    ghost turns_of = { F.turns_of };

    ghost base = { F.base };

    ghost rate = { F.rate };

    ghost stops = { λ key. StopsBy (Scales UNIT key) (F.stops (key * UNIT)) stops_here };

    ghost one_way = { false };

    #[inline(always)]
    fn has_format(key: usize) -> bool {
        match times::<UNIT>(key) {
            Some(number) => F::has_format(number),
            None => false,
        }
    }

    #[inline(always)]
    fn parse_by(
        key: usize,
        parser: &mut Parser<R>,
        turns: &mut Turns,
    ) -> Result<Self::Value, Malformed> {
        let Some(number) = times::<UNIT>(key) else {
            return Err(Malformed);
        };
        F::parse_by(number, parser, turns)
    }

    #[tactic(auto, using(crate::specs::Stop::stops_yes, crate::specs::Stop::stops_no, crate::specs::Stop::none_when))]
    fn fault_by(key: usize, parser: &Parser<R>) -> usize {
        match times::<UNIT>(key) {
            None => parser.pos(),
            Some(number) => F::fault_by(number, parser),
        }
    }

    #[inline(always)]
    fn is_unique() -> bool {
        false
    }

    #[inline(always)]
    fn tag_of(value: &Self::Value) -> Option<usize> {
        units::<UNIT>(F::tag_of(value)?)
    }

    #[inline(always)]
    fn told_len(value: &Self::Value) -> Option<(usize, usize)> {
        let (number, len) = F::told_len(value)?;
        Some((units::<UNIT>(number)?, len))
    }

    #[inline(always)]
    fn len_by(key: usize, value: &Self::Value) -> Option<usize> {
        let number = times::<UNIT>(key)?;
        if F::tag_of(value)? != number {
            return None;
        }
        F::len_by(number, value)
    }

    #[inline(always)]
    fn put_by<B: OctetsBuilder + Truncate>(
        key: usize,
        builder: &mut B,
        value: &Self::Value,
    ) -> Result<(), AllocError> {
        let Some(number) = times::<UNIT>(key) else {
            return Err(AllocError);
        };
        F::put_by(number, builder, value)
    }

    ghost onward = { onward_when (Scales UNIT) (λ key. F.onward (key * UNIT)) };

    ghost read_back = { scaled_read_back UNIT F.tag F.read_back };

    ghost delimited = { λ yes. delimited_scaled UNIT F.tag (F.delimited yes) };

    ghost canonical = { λ yes key. not_one_way yes };

    ghost told = { λ yes key said fits. not_so yes };
}
