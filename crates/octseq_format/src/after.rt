//! What a number decides after a part between them.
ghost use Rattle.std.specs.Prelude.{◌+◌, false, refl};
ghost use Rattle.octseq_format.specs.Answer.{not_so};
ghost use Rattle.octseq_format.specs.Canonical.{not_one_way};
ghost use Rattle.octseq_format.specs.Family.{any_onward};
ghost use Rattle.octseq_format.specs.Pair.{◌then◌, ◌and◌, ◌before◌, ◌also◌, ◌code_then◌, ◌plus◌};
ghost use Rattle.octseq_format.specs.Pair.{◌one_then◌, ◌onward_then◌, ◌back_then◌, ◌delimited_then◌};
ghost use Rattle.octseq_format.specs.Stop.{StopsThen};

use crate::answer::Yes;
use crate::family::{Family, TellsKey};
use crate::format::Format;
use octseq::{AsOctets, Malformed, OctetsBuilder, Parser, Truncate, Turns};
use std::alloc::AllocError;
use std::marker::PhantomData;

/// `A`, whatever the number is, and then `F` for the number, whose value tells it. So a length or a tag that comes
/// before other fields is no field of its own: `Tagged<U16Be, After<U16Be, Sized<Rest, 4>>>` is a length, a number, and
/// the octets that are left of the length.
#[derive(Debug)]
pub struct After<A, F> {
    part: PhantomData<A>,
    family: PhantomData<F>,
}

impl<A, F: TellsKey> TellsKey for After<A, F> {}

impl<R: AsOctets + Copy, A: Format<R, SelfDelimiting = Yes>, F: Family<R>> Family<R>
    for After<A, F> {
    type Value = (A::Value, F::Value);

    type SelfDelimiting = F::SelfDelimiting;

    ghost Found = { A.Found × F.Found };

    ghost found = { λ both. (A.found both.0, F.found both.1) };

    ghost covers = { F.covers };

    ghost is_at = { λ key. A.is_at then F.is_at key };

    ghost Said = { A.Said × F.Said };

    ghost says = { A.says and F.says };

    ghost tag = { λ both. F.tag both.1 };

    ghost octets = { λ key. A.octets before F.octets key };

    ghost fits = { λ key. A.fits also F.fits key };

    ghost one = { λ key. A.one one_then F.one key };

    ghost found_code = { A.found_code code_then F.found_code };

    ghost turns_of = { A.turns_of plus F.turns_of };

    ghost base = { A.base + F.base };

    ghost rate = { A.rate + F.rate };

    ghost stops = { λ key. StopsThen A.is_at A.stops (λ _. F.stops key) };

    ghost one_way = { false };

    #[inline(always)]
    fn has_format(key: usize) -> bool {
        F::has_format(key)
    }

    #[inline(always)]
    fn parse_by(
        key: usize,
        parser: &mut Parser<R>,
        turns: &mut Turns,
    ) -> Result<Self::Value, Malformed> {
        let mut ahead = *parser;
        let first = A::parse_counted(&mut ahead, turns)?;
        let second = F::parse_by(key, &mut ahead, turns)?;
        *parser = ahead;
        Ok((first, second))
    }

    #[tactic(auto, using(crate::specs::Stop::at_first, crate::specs::Stop::at_second))]
    fn fault_by(key: usize, parser: &Parser<R>) -> usize {
        let mut ahead = *parser;
        match A::parse(&mut ahead) {
            Err(_) => A::fault(parser),
            Ok(_first) => F::fault_by(key, &ahead),
        }
    }

    #[inline(always)]
    fn is_unique() -> bool {
        false
    }

    #[inline(always)]
    #[tactic(auto, unfolding(crate::specs::Pair::both_say))]
    fn tag_of(value: &Self::Value) -> Option<usize> {
        F::tag_of(&value.1)
    }

    #[inline(always)]
    #[tactic(auto, unfolding(crate::specs::Pair::both_octets, crate::specs::Pair::both_say))]
    fn len_by(key: usize, value: &Self::Value) -> Option<usize> {
        A::compose_len(&value.0)?.checked_add(F::len_by(key, &value.1)?)
    }

    #[inline(always)]
    #[tactic(auto, unfolding(crate::specs::Pair::both_octets, crate::specs::Pair::both_say))]
    fn put_by<B: OctetsBuilder + Truncate>(
        key: usize,
        builder: &mut B,
        value: &Self::Value,
    ) -> Result<(), AllocError> {
        let before = builder.len();
        A::put(builder, &value.0)?;
        let appended = F::put_by(key, builder, &value.1);
        if appended.is_err() {
            builder.truncate(before);
        }
        appended
    }

    ghost onward = { λ key. any_onward (A.onward onward_then F.onward key) };

    ghost read_back = { λ key. A.delimited refl back_then F.read_back key };

    ghost delimited = { λ yes key. A.delimited refl delimited_then F.delimited yes key };

    ghost canonical = { λ yes key. not_one_way yes };

    ghost told = { λ yes key said fits. not_so yes };
}
