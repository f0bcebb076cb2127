//! Tuples of seven and eight values.
ghost use Rattle.std.specs.Prelude.{◌+◌, ◌&&◌, refl};
ghost use Rattle.octseq_format.specs.Pair.{◌then◌, ◌and◌, ◌before◌, ◌also◌, ◌code_then◌, ◌plus◌, ◌key_and◌};
ghost use Rattle.octseq_format.specs.Pair.{◌one_then◌, ◌onward_then◌, ◌back_then◌, ◌delimited_then◌, ◌canonical_then◌};
ghost use Rattle.octseq_format.specs.Pair.{some_either};
ghost use Rattle.octseq_format.specs.Stop.{StopsThen};

use crate::answer::{Or, Yes};
use crate::format::Format;
use crate::tuples::{both_len, put_or_cut};
use octseq::{AsOctets, Malformed, OctetsBuilder, Parser, Truncate, Turns};
use std::alloc::AllocError;

impl<
    R: AsOctets + Copy,
    A: Format<R, SelfDelimiting = Yes>,
    B: Format<R, SelfDelimiting = Yes>,
    C: Format<R, SelfDelimiting = Yes>,
    D: Format<R, SelfDelimiting = Yes>,
    E: Format<R, SelfDelimiting = Yes>,
    F: Format<R, SelfDelimiting = Yes>,
    G: Format<R>,
> Format<R> for (A, B, C, D, E, F, G)
where
    F::NonEmpty: Or<G::NonEmpty>,
    E::NonEmpty: Or<<F::NonEmpty as Or<G::NonEmpty>>::Joined>,
    D::NonEmpty: Or<<E::NonEmpty as Or<<F::NonEmpty as Or<G::NonEmpty>>::Joined>>::Joined>,
    C::NonEmpty: Or<
        <D::NonEmpty as Or<
            <E::NonEmpty as Or<<F::NonEmpty as Or<G::NonEmpty>>::Joined>>::Joined,
        >>::Joined,
    >,
    B::NonEmpty: Or<
        <C::NonEmpty as Or<
            <D::NonEmpty as Or<
                <E::NonEmpty as Or<<F::NonEmpty as Or<G::NonEmpty>>::Joined>>::Joined,
            >>::Joined,
        >>::Joined,
    >,
    A::NonEmpty: Or<
        <B::NonEmpty as Or<
            <C::NonEmpty as Or<
                <D::NonEmpty as Or<
                    <E::NonEmpty as Or<<F::NonEmpty as Or<G::NonEmpty>>::Joined>>::Joined,
                >>::Joined,
            >>::Joined,
        >>::Joined,
    >,
{
    type Value = (
        A::Value,
        B::Value,
        C::Value,
        D::Value,
        E::Value,
        F::Value,
        G::Value,
    );

    type SelfDelimiting = G::SelfDelimiting;

    type NonEmpty = <A::NonEmpty as Or<
        <B::NonEmpty as Or<
            <C::NonEmpty as Or<
                <D::NonEmpty as Or<
                    <E::NonEmpty as Or<<F::NonEmpty as Or<G::NonEmpty>>::Joined>>::Joined,
                >>::Joined,
            >>::Joined,
        >>::Joined,
    >>::Joined;

    ghost Found = { A.Found × (B.Found × (C.Found × (D.Found × (E.Found × (F.Found × G.Found))))) };

    ghost found = { λ all. (
      A.found all.0,
      (
        B.found all.1,
        (
          C.found all.2,
          (
            D.found all.3,
            (
              E.found all.4,
              (F.found all.5, G.found all.6),
            ),
          ),
        ),
      ),
    ) };

    ghost is_at = { A.is_at then B.is_at then C.is_at then D.is_at then E.is_at then F.is_at then G.is_at };

    ghost Said = { A.Said × (B.Said × (C.Said × (D.Said × (E.Said × (F.Said × G.Said))))) };

    ghost says = { A.says and B.says and C.says and D.says and E.says and F.says and G.says };

    ghost octets = { A.octets before B.octets before C.octets before D.octets before E.octets before F.octets
        before G.octets };

    ghost fits = { A.fits also B.fits also C.fits also D.fits also E.fits also F.fits also G.fits };

    ghost one = { A.one one_then B.one one_then C.one one_then D.one one_then E.one one_then F.one one_then G.one };

    ghost found_code = { A.found_code code_then B.found_code code_then C.found_code code_then D.found_code
        code_then E.found_code code_then F.found_code code_then G.found_code };

    ghost least = { A.least + (B.least + (C.least + (D.least + (E.least + (F.least + G.least))))) };

    ghost turns_of = { A.turns_of plus B.turns_of plus C.turns_of plus D.turns_of plus E.turns_of plus F.turns_of
        plus G.turns_of };

    ghost base = { A.base + (B.base + (C.base + (D.base + (E.base + (F.base + G.base))))) };

    ghost rate = { A.rate + (B.rate + (C.rate + (D.rate + (E.rate + (F.rate + G.rate))))) };

    ghost key = { A.key key_and B.key key_and C.key key_and D.key key_and E.key key_and F.key key_and G.key };

    ghost stops = { StopsThen A.is_at A.stops (λ _. StopsThen B.is_at B.stops (λ _. StopsThen C.is_at C.stops (λ _.
        StopsThen D.is_at D.stops (λ _. StopsThen E.is_at E.stops (λ _. StopsThen F.is_at F.stops (λ _. G.stops)))))) };

    #[inline(always)]
    fn parse_counted(parser: &mut Parser<R>, turns: &mut Turns) -> Result<Self::Value, Malformed> {
        match <(A, (B, C, D, E, F, G)) as Format<R>>::parse_counted(parser, turns) {
            Ok((a, (b, c, d, e, f, g))) => Ok((a, b, c, d, e, f, g)),
            Err(e) => Err(e),
        }
    }

    fn fault(parser: &Parser<R>) -> usize {
        <(A, (B, C, D, E, F, G)) as Format<R>>::fault(parser)
    }

    #[inline(always)]
    fn least_len() -> usize {
        <(A, (B, C, D, E, F, G)) as Format<R>>::least_len()
    }

    #[inline(always)]
    #[tactic(auto, unfolding(crate::specs::Pair::both_say))]
    fn key_of(value: &Self::Value) -> usize {
        A::key_of(&value.0).saturating_add(B::key_of(&value.1).saturating_add(C::key_of(
            &value.2,
        ).saturating_add(D::key_of(&value.3).saturating_add(E::key_of(&value.4).saturating_add(
            F::key_of(&value.5).saturating_add(G::key_of(&value.6)),
        )))))
    }

    #[inline(always)]
    fn is_canonical() -> bool {
        <(A, (B, C, D, E, F, G)) as Format<R>>::is_canonical()
    }

    #[inline(always)]
    fn fixed_len() -> Option<usize> {
        <(A, (B, C, D, E, F, G)) as Format<R>>::fixed_len()
    }

    #[inline(always)]
    fn compose_len(value: &Self::Value) -> Option<usize> {
        let from_g = G::compose_len(&value.6);
        let from_f = both_len(F::compose_len(&value.5), from_g);
        let from_e = both_len(E::compose_len(&value.4), from_f);
        let from_d = both_len(D::compose_len(&value.3), from_e);
        let from_c = both_len(C::compose_len(&value.2), from_d);
        let from_b = both_len(B::compose_len(&value.1), from_c);
        both_len(A::compose_len(&value.0), from_b)
    }

    #[inline(always)]
    #[tactic(auto, unfolding(crate::specs::Pair::both_octets, crate::specs::Pair::both_say))]
    fn put<Into: OctetsBuilder + Truncate>(
        builder: &mut Into,
        value: &Self::Value,
    ) -> Result<(), AllocError> {
        let before = builder.len();
        A::put(builder, &value.0)?;
        put_or_cut::<Into, R, B>(builder, &value.1, before)?;
        put_or_cut::<Into, R, C>(builder, &value.2, before)?;
        put_or_cut::<Into, R, D>(builder, &value.3, before)?;
        put_or_cut::<Into, R, E>(builder, &value.4, before)?;
        put_or_cut::<Into, R, F>(builder, &value.5, before)?;
        put_or_cut::<Into, R, G>(builder, &value.6, before)
    }

    ghost one_way = { A.one_way && (B.one_way && (C.one_way && (D.one_way && (E.one_way && (F.one_way
        && G.one_way))))) };

    ghost canonical = { A.canonical canonical_then B.canonical canonical_then C.canonical canonical_then D.canonical
        canonical_then E.canonical canonical_then F.canonical canonical_then G.canonical };

    ghost onward = { A.onward onward_then B.onward onward_then C.onward onward_then D.onward onward_then E.onward
        onward_then F.onward onward_then G.onward };

    ghost read_back = { A.delimited refl back_then B.delimited refl back_then C.delimited refl back_then D.delimited
        refl back_then E.delimited refl back_then F.delimited refl back_then G.read_back };

    ghost delimited = { λ yes. A.delimited refl delimited_then B.delimited refl delimited_then C.delimited refl
        delimited_then D.delimited refl delimited_then E.delimited refl delimited_then F.delimited refl delimited_then
        G.delimited yes };

    ghost moving = { λ yes. some_either A.moving (λ yes. some_either B.moving (λ yes. some_either C.moving (λ yes.
        some_either D.moving (λ yes. some_either E.moving (λ yes. some_either F.moving G.moving (F.NonEmpty.either yes))
        (E.NonEmpty.either yes)) (D.NonEmpty.either yes)) (C.NonEmpty.either yes)) (B.NonEmpty.either yes))
        (A.NonEmpty.either
        yes) };
}

impl<
    R: AsOctets + Copy,
    A: Format<R, SelfDelimiting = Yes>,
    B: Format<R, SelfDelimiting = Yes>,
    C: Format<R, SelfDelimiting = Yes>,
    D: Format<R, SelfDelimiting = Yes>,
    E: Format<R, SelfDelimiting = Yes>,
    F: Format<R, SelfDelimiting = Yes>,
    G: Format<R, SelfDelimiting = Yes>,
    H: Format<R>,
> Format<R> for (A, B, C, D, E, F, G, H)
where
    G::NonEmpty: Or<H::NonEmpty>,
    F::NonEmpty: Or<<G::NonEmpty as Or<H::NonEmpty>>::Joined>,
    E::NonEmpty: Or<<F::NonEmpty as Or<<G::NonEmpty as Or<H::NonEmpty>>::Joined>>::Joined>,
    D::NonEmpty: Or<
        <E::NonEmpty as Or<
            <F::NonEmpty as Or<<G::NonEmpty as Or<H::NonEmpty>>::Joined>>::Joined,
        >>::Joined,
    >,
    C::NonEmpty: Or<
        <D::NonEmpty as Or<
            <E::NonEmpty as Or<
                <F::NonEmpty as Or<<G::NonEmpty as Or<H::NonEmpty>>::Joined>>::Joined,
            >>::Joined,
        >>::Joined,
    >,
    B::NonEmpty: Or<
        <C::NonEmpty as Or<
            <D::NonEmpty as Or<
                <E::NonEmpty as Or<
                    <F::NonEmpty as Or<<G::NonEmpty as Or<H::NonEmpty>>::Joined>>::Joined,
                >>::Joined,
            >>::Joined,
        >>::Joined,
    >,
    A::NonEmpty: Or<
        <B::NonEmpty as Or<
            <C::NonEmpty as Or<
                <D::NonEmpty as Or<
                    <E::NonEmpty as Or<
                        <F::NonEmpty as Or<<G::NonEmpty as Or<H::NonEmpty>>::Joined>>::Joined,
                    >>::Joined,
                >>::Joined,
            >>::Joined,
        >>::Joined,
    >,
{
    type Value = (
        A::Value,
        B::Value,
        C::Value,
        D::Value,
        E::Value,
        F::Value,
        G::Value,
        H::Value,
    );

    type SelfDelimiting = H::SelfDelimiting;

    type NonEmpty = <A::NonEmpty as Or<
        <B::NonEmpty as Or<
            <C::NonEmpty as Or<
                <D::NonEmpty as Or<
                    <E::NonEmpty as Or<
                        <F::NonEmpty as Or<<G::NonEmpty as Or<H::NonEmpty>>::Joined>>::Joined,
                    >>::Joined,
                >>::Joined,
            >>::Joined,
        >>::Joined,
    >>::Joined;

    ghost Found = { A.Found × (B.Found × (C.Found × (D.Found × (E.Found × (F.Found × (G.Found × H.Found)))))) };

    ghost found = { λ all. (
      A.found all.0,
      (
        B.found all.1,
        (
          C.found all.2,
          (
            D.found all.3,
            (
              E.found all.4,
              (F.found all.5, (G.found all.6, H.found all.7)),
            ),
          ),
        ),
      ),
    ) };

    ghost is_at = { A.is_at then B.is_at then C.is_at then D.is_at then E.is_at then F.is_at then G.is_at
        then H.is_at };

    ghost Said = { A.Said × (B.Said × (C.Said × (D.Said × (E.Said × (F.Said × (G.Said × H.Said)))))) };

    ghost says = { A.says and B.says and C.says and D.says and E.says and F.says and G.says and H.says };

    ghost octets = { A.octets before B.octets before C.octets before D.octets before E.octets before F.octets
        before G.octets before H.octets };

    ghost fits = { A.fits also B.fits also C.fits also D.fits also E.fits also F.fits also G.fits also H.fits };

    ghost one = { A.one one_then B.one one_then C.one one_then D.one one_then E.one one_then F.one one_then G.one
        one_then H.one };

    ghost found_code = { A.found_code code_then B.found_code code_then C.found_code code_then D.found_code
        code_then E.found_code code_then F.found_code code_then G.found_code code_then H.found_code };

    ghost least = { A.least + (B.least + (C.least + (D.least + (E.least + (F.least + (G.least + H.least)))))) };

    ghost turns_of = { A.turns_of plus B.turns_of plus C.turns_of plus D.turns_of plus E.turns_of plus F.turns_of
        plus G.turns_of plus H.turns_of };

    ghost base = { A.base + (B.base + (C.base + (D.base + (E.base + (F.base + (G.base + H.base)))))) };

    ghost rate = { A.rate + (B.rate + (C.rate + (D.rate + (E.rate + (F.rate + (G.rate + H.rate)))))) };

    ghost key = { A.key key_and B.key key_and C.key key_and D.key key_and E.key key_and F.key key_and G.key key_and
        H.key };

    ghost stops = { StopsThen A.is_at A.stops (λ _. StopsThen B.is_at B.stops (λ _. StopsThen C.is_at C.stops (λ _.
        StopsThen D.is_at D.stops (λ _. StopsThen E.is_at E.stops (λ _. StopsThen F.is_at F.stops (λ _. StopsThen
        G.is_at G.stops (λ _. H.stops))))))) };

    #[inline(always)]
    fn parse_counted(parser: &mut Parser<R>, turns: &mut Turns) -> Result<Self::Value, Malformed> {
        match <(A, (B, C, D, E, F, G, H)) as Format<R>>::parse_counted(parser, turns) {
            Ok((a, (b, c, d, e, f, g, h))) => Ok((a, b, c, d, e, f, g, h)),
            Err(e) => Err(e),
        }
    }

    fn fault(parser: &Parser<R>) -> usize {
        <(A, (B, C, D, E, F, G, H)) as Format<R>>::fault(parser)
    }

    #[inline(always)]
    fn least_len() -> usize {
        <(A, (B, C, D, E, F, G, H)) as Format<R>>::least_len()
    }

    #[inline(always)]
    #[tactic(auto, unfolding(crate::specs::Pair::both_say))]
    fn key_of(value: &Self::Value) -> usize {
        A::key_of(&value.0).saturating_add(B::key_of(&value.1).saturating_add(C::key_of(
            &value.2,
        ).saturating_add(D::key_of(&value.3).saturating_add(E::key_of(&value.4).saturating_add(
            F::key_of(&value.5).saturating_add(G::key_of(&value.6).saturating_add(H::key_of(
                &value.7,
            ))),
        )))))
    }

    #[inline(always)]
    fn is_canonical() -> bool {
        <(A, (B, C, D, E, F, G, H)) as Format<R>>::is_canonical()
    }

    #[inline(always)]
    fn fixed_len() -> Option<usize> {
        <(A, (B, C, D, E, F, G, H)) as Format<R>>::fixed_len()
    }

    #[inline(always)]
    fn compose_len(value: &Self::Value) -> Option<usize> {
        let from_h = H::compose_len(&value.7);
        let from_g = both_len(G::compose_len(&value.6), from_h);
        let from_f = both_len(F::compose_len(&value.5), from_g);
        let from_e = both_len(E::compose_len(&value.4), from_f);
        let from_d = both_len(D::compose_len(&value.3), from_e);
        let from_c = both_len(C::compose_len(&value.2), from_d);
        let from_b = both_len(B::compose_len(&value.1), from_c);
        both_len(A::compose_len(&value.0), from_b)
    }

    #[inline(always)]
    #[tactic(auto, unfolding(crate::specs::Pair::both_octets, crate::specs::Pair::both_say))]
    fn put<Into: OctetsBuilder + Truncate>(
        builder: &mut Into,
        value: &Self::Value,
    ) -> Result<(), AllocError> {
        let before = builder.len();
        A::put(builder, &value.0)?;
        put_or_cut::<Into, R, B>(builder, &value.1, before)?;
        put_or_cut::<Into, R, C>(builder, &value.2, before)?;
        put_or_cut::<Into, R, D>(builder, &value.3, before)?;
        put_or_cut::<Into, R, E>(builder, &value.4, before)?;
        put_or_cut::<Into, R, F>(builder, &value.5, before)?;
        put_or_cut::<Into, R, G>(builder, &value.6, before)?;
        put_or_cut::<Into, R, H>(builder, &value.7, before)
    }

    ghost one_way = { A.one_way && (B.one_way && (C.one_way && (D.one_way && (E.one_way && (F.one_way
        && (G.one_way && H.one_way)))))) };

    ghost canonical = { A.canonical canonical_then B.canonical canonical_then C.canonical canonical_then D.canonical
        canonical_then E.canonical canonical_then F.canonical canonical_then G.canonical
        canonical_then H.canonical };

    ghost onward = { A.onward onward_then B.onward onward_then C.onward onward_then D.onward onward_then E.onward
        onward_then F.onward onward_then G.onward onward_then H.onward };

    ghost read_back = { A.delimited refl back_then B.delimited refl back_then C.delimited refl back_then D.delimited
        refl back_then E.delimited refl back_then F.delimited refl back_then G.delimited refl back_then H.read_back };

    ghost delimited = { λ yes. A.delimited refl delimited_then B.delimited refl delimited_then C.delimited refl
        delimited_then D.delimited refl delimited_then E.delimited refl delimited_then F.delimited refl delimited_then
        G.delimited refl delimited_then H.delimited yes };

    ghost moving = { λ yes. some_either A.moving (λ yes. some_either B.moving (λ yes. some_either C.moving (λ yes.
        some_either D.moving (λ yes. some_either E.moving (λ yes. some_either F.moving (λ yes. some_either G.moving
        H.moving (G.NonEmpty.either yes)) (F.NonEmpty.either yes)) (E.NonEmpty.either yes)) (D.NonEmpty.either yes))
        (C.NonEmpty.either yes)) (B.NonEmpty.either yes)) (A.NonEmpty.either yes) };
}
