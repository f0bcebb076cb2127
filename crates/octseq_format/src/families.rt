//! Families made of others.
ghost use Rattle.std.specs.Prelude.{◌≡◌, ◌+◌, ℕ, Bool, cond, false, refl};
ghost use Rattle.std.specs.Coded.{coded×};
ghost use Rattle.octseq_format.specs.Answer.{not_so};
ghost use Rattle.octseq_format.specs.Canonical.{not_one_way};
ghost use Rattle.octseq_format.specs.Family.{IsSized, sized_number, SizedFit, one_sized, onward_sized, delimited_sized};
ghost use Rattle.octseq_format.specs.Family.{any_onward, IsWhen, WhenFits, one_when, onward_when, when_read_back};
ghost use Rattle.octseq_format.specs.Family.{delimited_when};
ghost use Rattle.octseq.specs.Parser.{window};
ghost use Rattle.octseq_format.specs.Laws.{back_of};
ghost use Rattle.octseq_format.specs.Pair.{◌then◌, ◌and◌, ◌before◌, ◌also◌, ◌code_then◌, ◌plus◌};
ghost use Rattle.octseq_format.specs.Pair.{◌one_then◌, ◌onward_then◌, ◌back_then◌, ◌delimited_then◌};
ghost use Rattle.octseq_format.specs.Stop.{StopsThen, StopsBy, stops_here, stops_sized};
ghost use Rattle.octseq_format.specs.Tagged.{Tagged, tagged_octets, TaggedFits, one_tagged, onward_tagged};
ghost use Rattle.octseq_format.specs.Tagged.{delimited_tagged, one_by_switch, onward_by_switch, delimited_by_switch};

use crate::answer::Yes;
use crate::family::{Family, TellsKey};
use crate::filter::Test;
use crate::keyed::Reckoning;
use crate::number::Number;
use octseq::{AsOctets, Malformed, OctetsBuilder, Parser, Truncate, Turns};
use std::alloc::AllocError;
use std::marker::PhantomData;

/// `F` at another key: what `K` makes of the key.
#[derive(Debug)]
pub struct Through<K, F> {
    reckoning: PhantomData<K>,
    family: PhantomData<F>,
}

impl<R: AsOctets + Copy, K: Reckoning, F: Family<R>> Family<R> for Through<K, F> {
    type Value = F::Value;

    type SelfDelimiting = F::SelfDelimiting;

    ghost Found = { F.Found };

    ghost found = { F.found };

    ghost covers = { λ key. F.covers (K.of key) };

    ghost is_at = { λ key. F.is_at (K.of key) };

    ghost Said = { F.Said };

    ghost says = { F.says };

    ghost tag = { λ _. 0 };

    ghost octets = { λ key. F.octets (K.of key) };

    ghost fits = { λ key. F.fits (K.of key) };

    ghost one = { λ key. F.one (K.of key) };

    ghost found_code = { F.found_code };

    ghost turns_of = { F.turns_of };

    ghost base = { F.base };

    ghost rate = { F.rate };

    ghost stops = { λ key. F.stops (K.of key) };

    ghost one_way = { false };

    #[inline(always)]
    fn has_format(key: usize) -> bool {
        F::has_format(K::of(key))
    }

    #[inline(always)]
    fn parse_by(
        key: usize,
        parser: &mut Parser<R>,
        turns: &mut Turns,
    ) -> Result<Self::Value, Malformed> {
        F::parse_by(K::of(key), parser, turns)
    }

    fn fault_by(key: usize, parser: &Parser<R>) -> usize {
        F::fault_by(K::of(key), parser)
    }

    #[inline(always)]
    fn is_unique() -> bool {
        false
    }

    #[inline(always)]
    fn tag_of(_value: &Self::Value) -> Option<usize> {
        Some(0)
    }

    #[inline(always)]
    fn len_by(key: usize, value: &Self::Value) -> Option<usize> {
        F::len_by(K::of(key), value)
    }

    #[inline(always)]
    fn put_by<B: OctetsBuilder + Truncate>(
        key: usize,
        builder: &mut B,
        value: &Self::Value,
    ) -> Result<(), AllocError> {
        F::put_by(K::of(key), builder, value)
    }

    ghost onward = { λ key. F.onward (K.of key) };

    ghost read_back = { λ key. F.read_back (K.of key) };

    ghost delimited = { λ yes key. F.delimited yes (K.of key) };

    ghost canonical = { λ yes key. not_one_way yes };

    ghost told = { λ yes key said fits. not_so yes };
}

/// Returns the position past a value of a family, or where reading it stops.
#[tactic(auto, using(crate::specs::Stop::at_first, crate::specs::Stop::at_second))]
pub(crate) fn end_or_fault_by<R: AsOctets + Copy, F: Family<R>>(
    key: usize,
    parser: &Parser<R>,
) -> usize
    ensures { StopsThen (F.is_at key) (F.stops key) (λ _. stops_here) (window parser.now) result }
{
    let mut ahead = *parser;
    match F::parse_by(key, &mut ahead, &mut Turns::new()) {
        Err(_) => F::fault_by(key, parser),
        Ok(_value) => ahead.pos(),
    }
}

/// Returns the position where reading a value in the next `len` octets stops, or its end.
#[tactic(auto, using(crate::specs::Stop::stops_yes, crate::specs::Stop::stops_no))]
fn fault_in_sized<R: AsOctets + Copy, F: Family<R>>(
    key: usize,
    len: usize,
    parser: &Parser<R>,
) -> usize
    ensures { stops_sized 0 (F.is_at key) (F.stops key) len (window parser.now) result }
{
    let mut ahead = *parser;
    match ahead.parse_parser(len) {
        Err(_) => parser.pos(),
        Ok(inside) => end_or_fault_by::<R, F>(key, &inside),
    }
}

/// A length `N`, followed by `F` for the same key, which takes all the octets that the length counts.
#[derive(Debug)]
pub struct Within<N, F> {
    number: PhantomData<N>,
    family: PhantomData<F>,
}

impl<R: AsOctets + Copy, N: Number, F: Family<R>> Family<R> for Within<N, F> {
    type Value = F::Value;

    type SelfDelimiting = Yes;

    ghost Found = { F.Found };

    ghost found = { F.found };

    ghost covers = { F.covers };

    ghost is_at = { λ key. Tagged N.is_at (IsSized 0 (F.is_at key)) };

    ghost Said = { F.Said };

    ghost says = { F.says };

    ghost tag = { λ _. 0 };

    ghost octets = { λ key. tagged_octets N.octets (sized_number 0 (F.octets key)) (λ _. F.octets key) };

    ghost fits = { λ key. TaggedFits N.fits (sized_number 0 (F.octets key)) (SizedFit 0 (F.octets key) (F.fits key)) };

    ghost one = { λ key. one_tagged N.one (one_sized (F.one key)) };

    ghost found_code = { F.found_code };

    ghost turns_of = { F.turns_of };

    ghost base = { F.base };

    ghost rate = { F.rate };

    ghost stops = { λ key. StopsThen N.is_at stops_here (stops_sized 0 (F.is_at key) (F.stops key)) };

    ghost one_way = { false };

    #[inline(always)]
    fn has_format(key: usize) -> bool {
        F::has_format(key)
    }

    #[inline(always)]
    fn parse_by(
        key: usize,
        parser: &mut Parser<R>,
        turns: &mut Turns,
    ) -> Result<Self::Value, Malformed> {
        let mut ahead = *parser;
        let len = N::parse_number(&mut ahead)?;
        let mut inside = ahead.parse_parser(len)?;
        let value = F::parse_by(key, &mut inside, turns)?;
        if inside.remaining() > 0 {
            return Err(Malformed);
        }
        *parser = ahead;
        Ok(value)
    }

    #[tactic(auto, using(crate::specs::Stop::at_first))]
    fn fault_by(key: usize, parser: &Parser<R>) -> usize {
        let mut ahead = *parser;
        match N::parse_number(&mut ahead) {
            Err(_) => parser.pos(),
            Ok(len) => fault_in_sized::<R, F>(key, len, &ahead),
        }
    }

    #[inline(always)]
    fn is_unique() -> bool {
        false
    }

    #[inline(always)]
    fn tag_of(_value: &Self::Value) -> Option<usize> {
        Some(0)
    }

    #[inline(always)]
    #[tactic(auto, using(crate::specs::Tagged::tagged_long))]
    fn len_by(key: usize, value: &Self::Value) -> Option<usize> {
        let len = F::len_by(key, value)?;
        N::number_len(len)?.checked_add(len)
    }

    #[inline(always)]
    #[tactic(auto, using(crate::specs::Tagged::tagged_long))]
    fn put_by<B: OctetsBuilder + Truncate>(
        key: usize,
        builder: &mut B,
        value: &Self::Value,
    ) -> Result<(), AllocError> {
        let Some(len) = F::len_by(key, value) else {
            return Err(AllocError);
        };
        let before = builder.len();
        N::put_number(builder, len)?;
        let appended = F::put_by(key, builder, value);
        if appended.is_err() {
            builder.truncate(before);
        }
        appended
    }

    ghost onward = { λ key. any_onward (onward_tagged N.onward (onward_sized 0 (F.is_at key))) };

    ghost read_back = { λ key. back_of (delimited_tagged N.delimited (delimited_sized (F.read_back key))) };

    ghost delimited = { λ _ key. delimited_tagged N.delimited (delimited_sized (F.read_back key)) };

    ghost canonical = { λ yes key. not_one_way yes };

    ghost told = { λ yes key said fits. not_so yes };
}

/// `F` and then `G`, for the same key.
#[derive(Debug)]
pub struct Then<F, G> {
    first: PhantomData<F>,
    second: PhantomData<G>,
}

impl<R: AsOctets + Copy, F: Family<R, SelfDelimiting = Yes>, G: Family<R>> Family<R>
    for Then<F, G> {
    type Value = (F::Value, G::Value);

    type SelfDelimiting = G::SelfDelimiting;

    ghost Found = { F.Found × G.Found };

    ghost found = { λ both. (F.found both.0, G.found both.1) };

    ghost covers = { λ key. F.covers key × G.covers key };

    ghost is_at = { λ key. F.is_at key then G.is_at key };

    ghost Said = { F.Said × G.Said };

    ghost says = { F.says and G.says };

    ghost tag = { λ _. 0 };

    ghost octets = { λ key. F.octets key before G.octets key };

    ghost fits = { λ key. F.fits key also G.fits key };

    ghost one = { λ key. F.one key one_then G.one key };

    ghost found_code = { F.found_code code_then G.found_code };

    ghost turns_of = { F.turns_of plus G.turns_of };

    ghost base = { F.base + G.base };

    ghost rate = { F.rate + G.rate };

    ghost stops = { λ key. StopsThen (F.is_at key) (F.stops key) (λ _. G.stops key) };

    ghost one_way = { false };

    #[inline(always)]
    fn has_format(key: usize) -> bool {
        F::has_format(key) && G::has_format(key)
    }

    #[inline(always)]
    fn parse_by(
        key: usize,
        parser: &mut Parser<R>,
        turns: &mut Turns,
    ) -> Result<Self::Value, Malformed> {
        let mut ahead = *parser;
        let first = F::parse_by(key, &mut ahead, turns)?;
        let second = G::parse_by(key, &mut ahead, turns)?;
        *parser = ahead;
        Ok((first, second))
    }

    #[tactic(auto, using(crate::specs::Stop::at_first, crate::specs::Stop::at_second))]
    fn fault_by(key: usize, parser: &Parser<R>) -> usize {
        let mut ahead = *parser;
        match F::parse_by(key, &mut ahead, &mut Turns::new()) {
            Err(_) => F::fault_by(key, parser),
            Ok(_first) => G::fault_by(key, &ahead),
        }
    }

    #[inline(always)]
    fn is_unique() -> bool {
        false
    }

    #[inline(always)]
    fn tag_of(_value: &Self::Value) -> Option<usize> {
        Some(0)
    }

    #[inline(always)]
    #[tactic(auto, unfolding(crate::specs::Pair::both_octets, crate::specs::Pair::both_say))]
    fn len_by(key: usize, value: &Self::Value) -> Option<usize> {
        F::len_by(key, &value.0)?.checked_add(G::len_by(key, &value.1)?)
    }

    #[inline(always)]
    #[tactic(auto, unfolding(crate::specs::Pair::both_octets, crate::specs::Pair::both_say))]
    fn put_by<B: OctetsBuilder + Truncate>(
        key: usize,
        builder: &mut B,
        value: &Self::Value,
    ) -> Result<(), AllocError> {
        let before = builder.len();
        F::put_by(key, builder, &value.0)?;
        let appended = G::put_by(key, builder, &value.1);
        if appended.is_err() {
            builder.truncate(before);
        }
        appended
    }

    ghost onward = { λ key. F.onward key onward_then G.onward key };

    ghost read_back = { λ key. F.delimited refl key back_then G.read_back key };

    ghost delimited = { λ yes key. F.delimited refl key delimited_then G.delimited yes key };

    ghost canonical = { λ yes key. not_one_way yes };

    ghost told = { λ yes key said fits. not_so yes };
}

/// `F` if the key meets the test `T`. No other key has a format.
#[derive(Debug)]
pub struct When<T, F> {
    test: PhantomData<T>,
    family: PhantomData<F>,
}

impl<T, F: TellsKey> TellsKey for When<T, F> {}

impl<R: AsOctets + Copy, T: Test, F: Family<R>> Family<R> for When<T, F> {
    type Value = F::Value;

    type SelfDelimiting = F::SelfDelimiting;

    ghost Found = { F.Found };

    ghost found = { F.found };

    ghost covers = { λ key. T.holds key × F.covers key };

    ghost is_at = { IsWhen T.holds F.is_at };

    ghost Said = { F.Said };

    ghost says = { F.says };

    ghost tag = { F.tag };

    ghost octets = { F.octets };

    ghost fits = { WhenFits T.holds F.fits };

    ghost one = { one_when T.holds F.one };

    ghost found_code = { F.found_code };

    ghost turns_of = { F.turns_of };

    ghost base = { F.base };

    ghost rate = { F.rate };

    ghost stops = { λ key. StopsBy (T.holds key) (F.stops key) stops_here };

    ghost one_way = { false };

    #[inline(always)]
    fn has_format(key: usize) -> bool {
        T::test(key) && F::has_format(key)
    }

    #[inline(always)]
    fn parse_by(
        key: usize,
        parser: &mut Parser<R>,
        turns: &mut Turns,
    ) -> Result<Self::Value, Malformed> {
        if !T::test(key) {
            return Err(Malformed);
        }
        F::parse_by(key, parser, turns)
    }

    #[tactic(auto, using(crate::specs::Stop::stops_yes, crate::specs::Stop::stops_no, crate::specs::Stop::none_when))]
    fn fault_by(key: usize, parser: &Parser<R>) -> usize {
        if !T::test(key) {
            return parser.pos();
        }
        F::fault_by(key, parser)
    }

    #[inline(always)]
    fn is_unique() -> bool {
        false
    }

    #[inline(always)]
    fn tag_of(value: &Self::Value) -> Option<usize> {
        F::tag_of(value)
    }

    #[inline(always)]
    fn told_len(value: &Self::Value) -> Option<(usize, usize)> {
        let told = F::told_len(value)?;
        if !T::test(told.0) {
            return None;
        }
        Some(told)
    }

    #[inline(always)]
    fn len_by(key: usize, value: &Self::Value) -> Option<usize> {
        if !T::test(key) {
            return None;
        }
        F::len_by(key, value)
    }

    #[inline(always)]
    fn put_by<B: OctetsBuilder + Truncate>(
        key: usize,
        builder: &mut B,
        value: &Self::Value,
    ) -> Result<(), AllocError> {
        F::put_by(key, builder, value)
    }

    ghost onward = { onward_when T.holds F.onward };

    ghost read_back = { when_read_back T.holds F.read_back };

    ghost delimited = { λ yes. delimited_when T.holds (F.delimited yes) };

    ghost canonical = { λ yes key. not_one_way yes };

    ghost told = { λ yes key said fits. not_so yes };
}

/// A question of a number, as whether a flag is set in it.
pub trait Switch {
    ghost on: { ℕ → Bool };

    /// Answers it.
    fn is_on(number: usize) -> bool
        ensures { result ≡ on number };
}

/// A length, `N` if the key answers `S` with yes, otherwise `M`. Then `F` for the same key, which takes all the octets
/// that the length counts.
#[derive(Debug)]
pub struct WithinBy<S, N, M, F> {
    switch: PhantomData<S>,
    yes: PhantomData<N>,
    no: PhantomData<M>,
    family: PhantomData<F>,
}

impl<R: AsOctets + Copy, S: Switch, N: Number, M: Number, F: Family<R>> Family<R>
    for WithinBy<S, N, M, F> {
    type Value = F::Value;

    type SelfDelimiting = Yes;

    ghost Found = { F.Found };

    ghost found = { F.found };

    ghost covers = { F.covers };

    ghost is_at = { λ key. cond (S.on key) (Tagged N.is_at (IsSized 0 (F.is_at key))) (Tagged M.is_at (IsSized 0
        (F.is_at key))) };

    ghost Said = { F.Said };

    ghost says = { F.says };

    ghost tag = { λ _. 0 };

    ghost octets = { λ key. cond (S.on key) (tagged_octets N.octets (sized_number 0 (F.octets key)) (λ _. F.octets key))
        (tagged_octets M.octets (sized_number 0 (F.octets key)) (λ _. F.octets key)) };

    ghost fits = { λ key. cond (S.on key) (TaggedFits N.fits (sized_number 0 (F.octets key)) (SizedFit 0 (F.octets key)
        (F.fits key))) (TaggedFits M.fits (sized_number 0 (F.octets key)) (SizedFit 0 (F.octets key) (F.fits key))) };

    ghost one = { λ key. one_by_switch (S.on key) (one_tagged N.one (one_sized (F.one key))) (one_tagged M.one
        (one_sized (F.one key))) };

    ghost found_code = { F.found_code };

    ghost turns_of = { F.turns_of };

    ghost base = { F.base };

    ghost rate = { F.rate };

    ghost stops = { λ key. cond (S.on key) (StopsThen N.is_at stops_here (stops_sized 0 (F.is_at key) (F.stops key)))
        (StopsThen M.is_at stops_here (stops_sized 0 (F.is_at key) (F.stops key))) };

    ghost one_way = { false };

    #[inline(always)]
    fn has_format(key: usize) -> bool {
        F::has_format(key)
    }

    #[inline(always)]
    fn parse_by(
        key: usize,
        parser: &mut Parser<R>,
        turns: &mut Turns,
    ) -> Result<Self::Value, Malformed> {
        if S::is_on(key) {
            <Within<N, F> as Family<R>>::parse_by(key, parser, turns)
        } else {
            <Within<M, F> as Family<R>>::parse_by(key, parser, turns)
        }
    }

    fn fault_by(key: usize, parser: &Parser<R>) -> usize {
        if S::is_on(key) {
            <Within<N, F> as Family<R>>::fault_by(key, parser)
        } else {
            <Within<M, F> as Family<R>>::fault_by(key, parser)
        }
    }

    #[inline(always)]
    fn is_unique() -> bool {
        false
    }

    #[inline(always)]
    fn tag_of(_value: &Self::Value) -> Option<usize> {
        Some(0)
    }

    #[inline(always)]
    fn len_by(key: usize, value: &Self::Value) -> Option<usize> {
        if S::is_on(key) {
            <Within<N, F> as Family<R>>::len_by(key, value)
        } else {
            <Within<M, F> as Family<R>>::len_by(key, value)
        }
    }

    #[inline(always)]
    fn put_by<B: OctetsBuilder + Truncate>(
        key: usize,
        builder: &mut B,
        value: &Self::Value,
    ) -> Result<(), AllocError> {
        if S::is_on(key) {
            <Within<N, F> as Family<R>>::put_by(key, builder, value)
        } else {
            <Within<M, F> as Family<R>>::put_by(key, builder, value)
        }
    }

    ghost onward = { λ key. onward_by_switch (S.on key) (onward_tagged N.onward (onward_sized 0 (F.is_at key)))
        (onward_tagged M.onward (onward_sized 0 (F.is_at key))) };

    ghost read_back = { λ key. back_of (delimited_by_switch (S.on key) (delimited_tagged N.delimited (delimited_sized
        (F.read_back key))) (delimited_tagged M.delimited (delimited_sized (F.read_back key)))) };

    ghost delimited = { λ _ key. delimited_by_switch (S.on key) (delimited_tagged N.delimited (delimited_sized
        (F.read_back key))) (delimited_tagged M.delimited (delimited_sized (F.read_back key))) };

    ghost canonical = { λ yes key. not_one_way yes };

    ghost told = { λ yes key said fits. not_so yes };
}
