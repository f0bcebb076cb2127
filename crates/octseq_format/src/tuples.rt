//! Tuples: one value after another.
ghost use Rattle.std.specs.Prelude.{◌≡◌, ◌≤◌, ◌+◌, ◌++◌, ◌&&◌, length, take, true, refl, IsErr, OnOk, OnErr};
ghost use Rattle.octseq.specs.Limit.{IsWithin};
ghost use Rattle.octseq_format.specs.Laws.{HasOctets};
ghost use Rattle.octseq_format.specs.Pair.{◌then◌, ◌and◌, ◌before◌, ◌also◌, ◌code_then◌, ◌plus◌, ◌key_and◌};
ghost use Rattle.octseq_format.specs.Pair.{◌one_then◌, ◌onward_then◌, ◌back_then◌, ◌delimited_then◌, ◌canonical_then◌};
ghost use Rattle.octseq_format.specs.Pair.{AreBoth, some_either};
ghost use Rattle.octseq_format.specs.Stop.{StopsThen};

use crate::answer::{Or, Yes};
use crate::format::Format;
use octseq::{AsOctets, Malformed, OctetsBuilder, Parser, Truncate, Turns};
use std::alloc::AllocError;

/// Returns the number of octets of two values, by those of each. Returns `None` if one has none, or a `usize` can't
/// hold the sum.
#[inline(always)]
pub(crate) fn both_len(first: Option<usize>, second: Option<usize>) -> Option<usize>
    ensures { AreBoth first second result }
{
    match (first, second) {
        (Some(first), Some(second)) => first.checked_add(second),
        _ => None,
    }
}

/// Appends the octets of a value. If it is refused, the content is cut to `start` octets.
#[inline(always)]
pub(crate) fn put_or_cut<B: OctetsBuilder + Truncate, R: AsOctets + Copy, F: Format<R>>(
    builder: &mut B,
    value: &F::Value,
    start: usize,
) -> Result<(), AllocError>
    requires fit { HasOctets F.octets F.fits (F.says (F.found value.now)) }
    requires within { IsWithin B.limit (length (B.content builder.now)
        + length (F.octets (F.says (F.found value.now)))) }
    requires start { start ≤ length (B.content builder.now) }
    ensures ok { OnOk result (B.content builder.new ≡ B.content builder.old ++ F.octets (F.says (F.found value.now))) }
    ensures err { OnErr result (B.content builder.new ≡ take start (B.content builder.old)) }
    ensures memory { IsErr result → B.asks ≡ true }
    ensures borrows { B.borrows builder.new ≡ B.borrows builder.old }
{
    let appended = F::put(builder, value);
    if appended.is_err() {
        builder.truncate(start);
    }
    appended
}

impl<R: AsOctets + Copy, A: Format<R, SelfDelimiting = Yes>, B: Format<R>> Format<R> for (A, B)
where
    A::NonEmpty: Or<B::NonEmpty>,
{
    type Value = (A::Value, B::Value);

    type SelfDelimiting = B::SelfDelimiting;

    type NonEmpty = <A::NonEmpty as Or<B::NonEmpty>>::Joined;

    ghost Found = { A.Found × B.Found };

    ghost found = { λ both. (A.found both.0, B.found both.1) };

    ghost is_at = { A.is_at then B.is_at };

    ghost Said = { A.Said × B.Said };

    ghost says = { A.says and B.says };

    ghost octets = { A.octets before B.octets };

    ghost fits = { A.fits also B.fits };

    ghost one = { A.one one_then B.one };

    ghost found_code = { A.found_code code_then B.found_code };

    ghost least = { A.least + B.least };

    ghost turns_of = { A.turns_of plus B.turns_of };

    ghost base = { A.base + B.base };

    ghost rate = { A.rate + B.rate };

    ghost key = { A.key key_and B.key };

    ghost stops = { StopsThen A.is_at A.stops (λ _. B.stops) };

    #[inline(always)]
    fn parse_counted(parser: &mut Parser<R>, turns: &mut Turns) -> Result<Self::Value, Malformed> {
        if parser.remaining() < Self::least_len() {
            return Err(Malformed);
        }
        let mut ahead = *parser;
        let first = A::parse_counted(&mut ahead, turns)?;
        let second = B::parse_counted(&mut ahead, turns)?;
        *parser = ahead;
        Ok((first, second))
    }

    #[tactic(auto, using(crate::specs::Stop::at_first, crate::specs::Stop::at_second))]
    fn fault(parser: &Parser<R>) -> usize {
        let mut ahead = *parser;
        match A::parse(&mut ahead) {
            Err(_) => A::fault(parser),
            Ok(_first) => B::fault(&ahead),
        }
    }

    #[inline(always)]
    fn least_len() -> usize {
        A::least_len().saturating_add(B::least_len())
    }

    #[inline(always)]
    #[tactic(auto, unfolding(crate::specs::Pair::both_say))]
    fn key_of(value: &Self::Value) -> usize {
        A::key_of(&value.0).saturating_add(B::key_of(&value.1))
    }

    #[inline(always)]
    fn is_canonical() -> bool {
        A::is_canonical() && B::is_canonical()
    }

    #[inline(always)]
    fn fixed_len() -> Option<usize> {
        both_len(A::fixed_len(), B::fixed_len())
    }

    #[inline(always)]
    #[tactic(auto, unfolding(crate::specs::Pair::both_octets, crate::specs::Pair::both_say))]
    fn compose_len(value: &Self::Value) -> Option<usize> {
        A::compose_len(&value.0)?.checked_add(B::compose_len(&value.1)?)
    }

    #[inline(always)]
    #[tactic(auto, unfolding(crate::specs::Pair::both_octets, crate::specs::Pair::both_say))]
    fn put<Into: OctetsBuilder + Truncate>(
        builder: &mut Into,
        value: &Self::Value,
    ) -> Result<(), AllocError> {
        let before = builder.len();
        A::put(builder, &value.0)?;
        let appended = B::put(builder, &value.1);
        if appended.is_err() {
            builder.truncate(before);
        }
        appended
    }

    ghost one_way = { A.one_way && B.one_way };

    ghost canonical = { A.canonical canonical_then B.canonical };

    ghost onward = { A.onward onward_then B.onward };

    ghost read_back = { A.delimited refl back_then B.read_back };

    ghost delimited = { λ yes. A.delimited refl delimited_then B.delimited yes };

    ghost moving = { λ yes. some_either A.moving B.moving (A.NonEmpty.either yes) };
}

impl<
    R: AsOctets + Copy,
    A: Format<R, SelfDelimiting = Yes>,
    B: Format<R, SelfDelimiting = Yes>,
    C: Format<R>,
> Format<R> for (A, B, C)
where
    B::NonEmpty: Or<C::NonEmpty>,
    A::NonEmpty: Or<<B::NonEmpty as Or<C::NonEmpty>>::Joined>,
{
    type Value = (A::Value, B::Value, C::Value);

    type SelfDelimiting = C::SelfDelimiting;

    type NonEmpty = <A::NonEmpty as Or<<B::NonEmpty as Or<C::NonEmpty>>::Joined>>::Joined;

    ghost Found = { A.Found × (B.Found × C.Found) };

    ghost found = { λ all. (A.found all.0, (B.found all.1, C.found all.2)) };

    ghost is_at = { A.is_at then B.is_at then C.is_at };

    ghost Said = { A.Said × (B.Said × C.Said) };

    ghost says = { A.says and B.says and C.says };

    ghost octets = { A.octets before B.octets before C.octets };

    ghost fits = { A.fits also B.fits also C.fits };

    ghost one = { A.one one_then B.one one_then C.one };

    ghost found_code = { A.found_code code_then B.found_code code_then C.found_code };

    ghost least = { A.least + (B.least + C.least) };

    ghost turns_of = { A.turns_of plus B.turns_of plus C.turns_of };

    ghost base = { A.base + (B.base + C.base) };

    ghost rate = { A.rate + (B.rate + C.rate) };

    ghost key = { A.key key_and B.key key_and C.key };

    ghost stops = { StopsThen A.is_at A.stops (λ _. StopsThen B.is_at B.stops (λ _. C.stops)) };

    #[inline(always)]
    fn parse_counted(parser: &mut Parser<R>, turns: &mut Turns) -> Result<Self::Value, Malformed> {
        match <(A, (B, C)) as Format<R>>::parse_counted(parser, turns) {
            Ok((a, (b, c))) => Ok((a, b, c)),
            Err(e) => Err(e),
        }
    }

    fn fault(parser: &Parser<R>) -> usize {
        <(A, (B, C)) as Format<R>>::fault(parser)
    }

    #[inline(always)]
    fn least_len() -> usize {
        <(A, (B, C)) as Format<R>>::least_len()
    }

    #[inline(always)]
    #[tactic(auto, unfolding(crate::specs::Pair::both_say))]
    fn key_of(value: &Self::Value) -> usize {
        A::key_of(&value.0).saturating_add(B::key_of(&value.1).saturating_add(C::key_of(&value.2)))
    }

    #[inline(always)]
    fn is_canonical() -> bool {
        <(A, (B, C)) as Format<R>>::is_canonical()
    }

    #[inline(always)]
    fn fixed_len() -> Option<usize> {
        <(A, (B, C)) as Format<R>>::fixed_len()
    }

    #[inline(always)]
    fn compose_len(value: &Self::Value) -> Option<usize> {
        let from_c = C::compose_len(&value.2);
        let from_b = both_len(B::compose_len(&value.1), from_c);
        both_len(A::compose_len(&value.0), from_b)
    }

    #[inline(always)]
    #[tactic(auto, unfolding(crate::specs::Pair::both_octets, crate::specs::Pair::both_say))]
    fn put<Into: OctetsBuilder + Truncate>(
        builder: &mut Into,
        value: &Self::Value,
    ) -> Result<(), AllocError> {
        let before = builder.len();
        A::put(builder, &value.0)?;
        put_or_cut::<Into, R, B>(builder, &value.1, before)?;
        put_or_cut::<Into, R, C>(builder, &value.2, before)
    }

    ghost one_way = { A.one_way && (B.one_way && C.one_way) };

    ghost canonical = { A.canonical canonical_then B.canonical canonical_then C.canonical };

    ghost onward = { A.onward onward_then B.onward onward_then C.onward };

    ghost read_back = { A.delimited refl back_then B.delimited refl back_then C.read_back };

    ghost delimited = { λ yes. A.delimited refl delimited_then B.delimited refl delimited_then C.delimited yes };

    ghost moving = { λ yes. some_either A.moving (λ yes. some_either B.moving C.moving (B.NonEmpty.either yes))
        (A.NonEmpty.either yes) };
}

impl<
    R: AsOctets + Copy,
    A: Format<R, SelfDelimiting = Yes>,
    B: Format<R, SelfDelimiting = Yes>,
    C: Format<R, SelfDelimiting = Yes>,
    D: Format<R>,
> Format<R> for (A, B, C, D)
where
    C::NonEmpty: Or<D::NonEmpty>,
    B::NonEmpty: Or<<C::NonEmpty as Or<D::NonEmpty>>::Joined>,
    A::NonEmpty: Or<<B::NonEmpty as Or<<C::NonEmpty as Or<D::NonEmpty>>::Joined>>::Joined>,
{
    type Value = (A::Value, B::Value, C::Value, D::Value);

    type SelfDelimiting = D::SelfDelimiting;

    type NonEmpty = <A::NonEmpty as Or<
        <B::NonEmpty as Or<<C::NonEmpty as Or<D::NonEmpty>>::Joined>>::Joined,
    >>::Joined;

    ghost Found = { A.Found × (B.Found × (C.Found × D.Found)) };

    ghost found = { λ all. (A.found all.0, (B.found all.1, (C.found all.2, D.found all.3))) };

    ghost is_at = { A.is_at then B.is_at then C.is_at then D.is_at };

    ghost Said = { A.Said × (B.Said × (C.Said × D.Said)) };

    ghost says = { A.says and B.says and C.says and D.says };

    ghost octets = { A.octets before B.octets before C.octets before D.octets };

    ghost fits = { A.fits also B.fits also C.fits also D.fits };

    ghost one = { A.one one_then B.one one_then C.one one_then D.one };

    ghost found_code = { A.found_code code_then B.found_code code_then C.found_code code_then D.found_code };

    ghost least = { A.least + (B.least + (C.least + D.least)) };

    ghost turns_of = { A.turns_of plus B.turns_of plus C.turns_of plus D.turns_of };

    ghost base = { A.base + (B.base + (C.base + D.base)) };

    ghost rate = { A.rate + (B.rate + (C.rate + D.rate)) };

    ghost key = { A.key key_and B.key key_and C.key key_and D.key };

    ghost stops = { StopsThen A.is_at A.stops (λ _. StopsThen B.is_at B.stops (λ _. StopsThen C.is_at C.stops (λ _.
        D.stops))) };

    #[inline(always)]
    fn parse_counted(parser: &mut Parser<R>, turns: &mut Turns) -> Result<Self::Value, Malformed> {
        match <(A, (B, C, D)) as Format<R>>::parse_counted(parser, turns) {
            Ok((a, (b, c, d))) => Ok((a, b, c, d)),
            Err(e) => Err(e),
        }
    }

    fn fault(parser: &Parser<R>) -> usize {
        <(A, (B, C, D)) as Format<R>>::fault(parser)
    }

    #[inline(always)]
    fn least_len() -> usize {
        <(A, (B, C, D)) as Format<R>>::least_len()
    }

    #[inline(always)]
    #[tactic(auto, unfolding(crate::specs::Pair::both_say))]
    fn key_of(value: &Self::Value) -> usize {
        A::key_of(&value.0).saturating_add(B::key_of(&value.1).saturating_add(C::key_of(
            &value.2,
        ).saturating_add(D::key_of(&value.3))))
    }

    #[inline(always)]
    fn is_canonical() -> bool {
        <(A, (B, C, D)) as Format<R>>::is_canonical()
    }

    #[inline(always)]
    fn fixed_len() -> Option<usize> {
        <(A, (B, C, D)) as Format<R>>::fixed_len()
    }

    #[inline(always)]
    fn compose_len(value: &Self::Value) -> Option<usize> {
        let from_d = D::compose_len(&value.3);
        let from_c = both_len(C::compose_len(&value.2), from_d);
        let from_b = both_len(B::compose_len(&value.1), from_c);
        both_len(A::compose_len(&value.0), from_b)
    }

    #[inline(always)]
    #[tactic(auto, unfolding(crate::specs::Pair::both_octets, crate::specs::Pair::both_say))]
    fn put<Into: OctetsBuilder + Truncate>(
        builder: &mut Into,
        value: &Self::Value,
    ) -> Result<(), AllocError> {
        let before = builder.len();
        A::put(builder, &value.0)?;
        put_or_cut::<Into, R, B>(builder, &value.1, before)?;
        put_or_cut::<Into, R, C>(builder, &value.2, before)?;
        put_or_cut::<Into, R, D>(builder, &value.3, before)
    }

    ghost one_way = { A.one_way && (B.one_way && (C.one_way && D.one_way)) };

    ghost canonical = { A.canonical canonical_then B.canonical canonical_then C.canonical canonical_then D.canonical };

    ghost onward = { A.onward onward_then B.onward onward_then C.onward onward_then D.onward };

    ghost read_back = { A.delimited refl back_then B.delimited refl back_then C.delimited refl back_then D.read_back };

    ghost delimited = { λ yes. A.delimited refl delimited_then B.delimited refl delimited_then C.delimited refl
        delimited_then D.delimited yes };

    ghost moving = { λ yes. some_either A.moving (λ yes. some_either B.moving (λ yes. some_either C.moving D.moving
        (C.NonEmpty.either yes)) (B.NonEmpty.either yes)) (A.NonEmpty.either yes) };
}

impl<
    R: AsOctets + Copy,
    A: Format<R, SelfDelimiting = Yes>,
    B: Format<R, SelfDelimiting = Yes>,
    C: Format<R, SelfDelimiting = Yes>,
    D: Format<R, SelfDelimiting = Yes>,
    E: Format<R>,
> Format<R> for (A, B, C, D, E)
where
    D::NonEmpty: Or<E::NonEmpty>,
    C::NonEmpty: Or<<D::NonEmpty as Or<E::NonEmpty>>::Joined>,
    B::NonEmpty: Or<<C::NonEmpty as Or<<D::NonEmpty as Or<E::NonEmpty>>::Joined>>::Joined>,
    A::NonEmpty: Or<
        <B::NonEmpty as Or<
            <C::NonEmpty as Or<<D::NonEmpty as Or<E::NonEmpty>>::Joined>>::Joined,
        >>::Joined,
    >,
{
    type Value = (A::Value, B::Value, C::Value, D::Value, E::Value);

    type SelfDelimiting = E::SelfDelimiting;

    type NonEmpty = <A::NonEmpty as Or<
        <B::NonEmpty as Or<
            <C::NonEmpty as Or<<D::NonEmpty as Or<E::NonEmpty>>::Joined>>::Joined,
        >>::Joined,
    >>::Joined;

    ghost Found = { A.Found × (B.Found × (C.Found × (D.Found × E.Found))) };

    ghost found = { λ all. (A.found all.0, (B.found all.1, (C.found all.2, (D.found all.3, E.found all.4)))) };

    ghost is_at = { A.is_at then B.is_at then C.is_at then D.is_at then E.is_at };

    ghost Said = { A.Said × (B.Said × (C.Said × (D.Said × E.Said))) };

    ghost says = { A.says and B.says and C.says and D.says and E.says };

    ghost octets = { A.octets before B.octets before C.octets before D.octets before E.octets };

    ghost fits = { A.fits also B.fits also C.fits also D.fits also E.fits };

    ghost one = { A.one one_then B.one one_then C.one one_then D.one one_then E.one };

    ghost found_code = { A.found_code code_then B.found_code code_then C.found_code code_then D.found_code
        code_then E.found_code };

    ghost least = { A.least + (B.least + (C.least + (D.least + E.least))) };

    ghost turns_of = { A.turns_of plus B.turns_of plus C.turns_of plus D.turns_of plus E.turns_of };

    ghost base = { A.base + (B.base + (C.base + (D.base + E.base))) };

    ghost rate = { A.rate + (B.rate + (C.rate + (D.rate + E.rate))) };

    ghost key = { A.key key_and B.key key_and C.key key_and D.key key_and E.key };

    ghost stops = { StopsThen A.is_at A.stops (λ _. StopsThen B.is_at B.stops (λ _. StopsThen C.is_at C.stops (λ _.
        StopsThen D.is_at D.stops (λ _. E.stops)))) };

    #[inline(always)]
    fn parse_counted(parser: &mut Parser<R>, turns: &mut Turns) -> Result<Self::Value, Malformed> {
        match <(A, (B, C, D, E)) as Format<R>>::parse_counted(parser, turns) {
            Ok((a, (b, c, d, e))) => Ok((a, b, c, d, e)),
            Err(e) => Err(e),
        }
    }

    fn fault(parser: &Parser<R>) -> usize {
        <(A, (B, C, D, E)) as Format<R>>::fault(parser)
    }

    #[inline(always)]
    fn least_len() -> usize {
        <(A, (B, C, D, E)) as Format<R>>::least_len()
    }

    #[inline(always)]
    #[tactic(auto, unfolding(crate::specs::Pair::both_say))]
    fn key_of(value: &Self::Value) -> usize {
        A::key_of(&value.0).saturating_add(B::key_of(&value.1).saturating_add(C::key_of(
            &value.2,
        ).saturating_add(D::key_of(&value.3).saturating_add(E::key_of(&value.4)))))
    }

    #[inline(always)]
    fn is_canonical() -> bool {
        <(A, (B, C, D, E)) as Format<R>>::is_canonical()
    }

    #[inline(always)]
    fn fixed_len() -> Option<usize> {
        <(A, (B, C, D, E)) as Format<R>>::fixed_len()
    }

    #[inline(always)]
    fn compose_len(value: &Self::Value) -> Option<usize> {
        let from_e = E::compose_len(&value.4);
        let from_d = both_len(D::compose_len(&value.3), from_e);
        let from_c = both_len(C::compose_len(&value.2), from_d);
        let from_b = both_len(B::compose_len(&value.1), from_c);
        both_len(A::compose_len(&value.0), from_b)
    }

    #[inline(always)]
    #[tactic(auto, unfolding(crate::specs::Pair::both_octets, crate::specs::Pair::both_say))]
    fn put<Into: OctetsBuilder + Truncate>(
        builder: &mut Into,
        value: &Self::Value,
    ) -> Result<(), AllocError> {
        let before = builder.len();
        A::put(builder, &value.0)?;
        put_or_cut::<Into, R, B>(builder, &value.1, before)?;
        put_or_cut::<Into, R, C>(builder, &value.2, before)?;
        put_or_cut::<Into, R, D>(builder, &value.3, before)?;
        put_or_cut::<Into, R, E>(builder, &value.4, before)
    }

    ghost one_way = { A.one_way && (B.one_way && (C.one_way && (D.one_way && E.one_way))) };

    ghost canonical = { A.canonical canonical_then B.canonical canonical_then C.canonical canonical_then D.canonical
        canonical_then E.canonical };

    ghost onward = { A.onward onward_then B.onward onward_then C.onward onward_then D.onward onward_then E.onward };

    ghost read_back = { A.delimited refl back_then B.delimited refl back_then C.delimited refl back_then D.delimited
        refl back_then E.read_back };

    ghost delimited = { λ yes. A.delimited refl delimited_then B.delimited refl delimited_then C.delimited refl
        delimited_then D.delimited refl delimited_then E.delimited yes };

    ghost moving = { λ yes. some_either A.moving (λ yes. some_either B.moving (λ yes. some_either C.moving (λ yes.
        some_either D.moving E.moving (D.NonEmpty.either yes)) (C.NonEmpty.either yes)) (B.NonEmpty.either yes))
        (A.NonEmpty.either yes) };
}

impl<
    R: AsOctets + Copy,
    A: Format<R, SelfDelimiting = Yes>,
    B: Format<R, SelfDelimiting = Yes>,
    C: Format<R, SelfDelimiting = Yes>,
    D: Format<R, SelfDelimiting = Yes>,
    E: Format<R, SelfDelimiting = Yes>,
    F: Format<R>,
> Format<R> for (A, B, C, D, E, F)
where
    E::NonEmpty: Or<F::NonEmpty>,
    D::NonEmpty: Or<<E::NonEmpty as Or<F::NonEmpty>>::Joined>,
    C::NonEmpty: Or<<D::NonEmpty as Or<<E::NonEmpty as Or<F::NonEmpty>>::Joined>>::Joined>,
    B::NonEmpty: Or<
        <C::NonEmpty as Or<
            <D::NonEmpty as Or<<E::NonEmpty as Or<F::NonEmpty>>::Joined>>::Joined,
        >>::Joined,
    >,
    A::NonEmpty: Or<
        <B::NonEmpty as Or<
            <C::NonEmpty as Or<
                <D::NonEmpty as Or<<E::NonEmpty as Or<F::NonEmpty>>::Joined>>::Joined,
            >>::Joined,
        >>::Joined,
    >,
{
    type Value = (A::Value, B::Value, C::Value, D::Value, E::Value, F::Value);

    type SelfDelimiting = F::SelfDelimiting;

    type NonEmpty = <A::NonEmpty as Or<
        <B::NonEmpty as Or<
            <C::NonEmpty as Or<
                <D::NonEmpty as Or<<E::NonEmpty as Or<F::NonEmpty>>::Joined>>::Joined,
            >>::Joined,
        >>::Joined,
    >>::Joined;

    ghost Found = { A.Found × (B.Found × (C.Found × (D.Found × (E.Found × F.Found)))) };

    ghost found = { λ all. (
      A.found all.0,
      (
        B.found all.1,
        (
          C.found all.2,
          (
            D.found all.3,
            (E.found all.4, F.found all.5),
          ),
        ),
      ),
    ) };

    ghost is_at = { A.is_at then B.is_at then C.is_at then D.is_at then E.is_at then F.is_at };

    ghost Said = { A.Said × (B.Said × (C.Said × (D.Said × (E.Said × F.Said)))) };

    ghost says = { A.says and B.says and C.says and D.says and E.says and F.says };

    ghost octets = { A.octets before B.octets before C.octets before D.octets before E.octets before F.octets };

    ghost fits = { A.fits also B.fits also C.fits also D.fits also E.fits also F.fits };

    ghost one = { A.one one_then B.one one_then C.one one_then D.one one_then E.one one_then F.one };

    ghost found_code = { A.found_code code_then B.found_code code_then C.found_code code_then D.found_code
        code_then E.found_code code_then F.found_code };

    ghost least = { A.least + (B.least + (C.least + (D.least + (E.least + F.least)))) };

    ghost turns_of = { A.turns_of plus B.turns_of plus C.turns_of plus D.turns_of plus E.turns_of plus F.turns_of };

    ghost base = { A.base + (B.base + (C.base + (D.base + (E.base + F.base)))) };

    ghost rate = { A.rate + (B.rate + (C.rate + (D.rate + (E.rate + F.rate)))) };

    ghost key = { A.key key_and B.key key_and C.key key_and D.key key_and E.key key_and F.key };

    ghost stops = { StopsThen A.is_at A.stops (λ _. StopsThen B.is_at B.stops (λ _. StopsThen C.is_at C.stops (λ _.
        StopsThen D.is_at D.stops (λ _. StopsThen E.is_at E.stops (λ _. F.stops))))) };

    #[inline(always)]
    fn parse_counted(parser: &mut Parser<R>, turns: &mut Turns) -> Result<Self::Value, Malformed> {
        match <(A, (B, C, D, E, F)) as Format<R>>::parse_counted(parser, turns) {
            Ok((a, (b, c, d, e, f))) => Ok((a, b, c, d, e, f)),
            Err(e) => Err(e),
        }
    }

    fn fault(parser: &Parser<R>) -> usize {
        <(A, (B, C, D, E, F)) as Format<R>>::fault(parser)
    }

    #[inline(always)]
    fn least_len() -> usize {
        <(A, (B, C, D, E, F)) as Format<R>>::least_len()
    }

    #[inline(always)]
    #[tactic(auto, unfolding(crate::specs::Pair::both_say))]
    fn key_of(value: &Self::Value) -> usize {
        A::key_of(&value.0).saturating_add(B::key_of(&value.1).saturating_add(C::key_of(
            &value.2,
        ).saturating_add(D::key_of(&value.3).saturating_add(E::key_of(&value.4).saturating_add(
            F::key_of(&value.5),
        )))))
    }

    #[inline(always)]
    fn is_canonical() -> bool {
        <(A, (B, C, D, E, F)) as Format<R>>::is_canonical()
    }

    #[inline(always)]
    fn fixed_len() -> Option<usize> {
        <(A, (B, C, D, E, F)) as Format<R>>::fixed_len()
    }

    #[inline(always)]
    fn compose_len(value: &Self::Value) -> Option<usize> {
        let from_f = F::compose_len(&value.5);
        let from_e = both_len(E::compose_len(&value.4), from_f);
        let from_d = both_len(D::compose_len(&value.3), from_e);
        let from_c = both_len(C::compose_len(&value.2), from_d);
        let from_b = both_len(B::compose_len(&value.1), from_c);
        both_len(A::compose_len(&value.0), from_b)
    }

    #[inline(always)]
    #[tactic(auto, unfolding(crate::specs::Pair::both_octets, crate::specs::Pair::both_say))]
    fn put<Into: OctetsBuilder + Truncate>(
        builder: &mut Into,
        value: &Self::Value,
    ) -> Result<(), AllocError> {
        let before = builder.len();
        A::put(builder, &value.0)?;
        put_or_cut::<Into, R, B>(builder, &value.1, before)?;
        put_or_cut::<Into, R, C>(builder, &value.2, before)?;
        put_or_cut::<Into, R, D>(builder, &value.3, before)?;
        put_or_cut::<Into, R, E>(builder, &value.4, before)?;
        put_or_cut::<Into, R, F>(builder, &value.5, before)
    }

    ghost one_way = { A.one_way && (B.one_way && (C.one_way && (D.one_way && (E.one_way && F.one_way)))) };

    ghost canonical = { A.canonical canonical_then B.canonical canonical_then C.canonical canonical_then D.canonical
        canonical_then E.canonical canonical_then F.canonical };

    ghost onward = { A.onward onward_then B.onward onward_then C.onward onward_then D.onward onward_then E.onward
        onward_then F.onward };

    ghost read_back = { A.delimited refl back_then B.delimited refl back_then C.delimited refl back_then D.delimited
        refl back_then E.delimited refl back_then F.read_back };

    ghost delimited = { λ yes. A.delimited refl delimited_then B.delimited refl delimited_then C.delimited refl
        delimited_then D.delimited refl delimited_then E.delimited refl delimited_then F.delimited yes };

    ghost moving = { λ yes. some_either A.moving (λ yes. some_either B.moving (λ yes. some_either C.moving (λ yes.
        some_either D.moving (λ yes. some_either E.moving F.moving (E.NonEmpty.either yes)) (D.NonEmpty.either yes))
        (C.NonEmpty.either yes)) (B.NonEmpty.either yes)) (A.NonEmpty.either yes) };
}
