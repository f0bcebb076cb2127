//! The same for six and seven families.
ghost use Rattle.std.specs.Prelude.{◌⊎◌, ◌+◌, false};
ghost use Rattle.std.specs.Coded.{coded⊎};
ghost use Rattle.octseq_format.specs.Answer.{not_so};
ghost use Rattle.octseq_format.specs.Canonical.{not_one_way};
ghost use Rattle.octseq_format.specs.Family.{IsEither, either_says, either_number, either_octets, EitherFits};
ghost use Rattle.octseq_format.specs.Family.{one_either, onward_either, either_read_back, delimited_either};
ghost use Rattle.octseq_format.specs.Stop.{StopsBy};

use crate::answer::And;
use crate::choice::{OneOf2, OneOf5};
use crate::family::{Family, TellsKey};
use octseq::{AsOctets, Malformed, OctetsBuilder, Parser, Truncate, Turns};
use std::alloc::AllocError;

/// One of six values.
#[derive(Clone, Copy, Debug, PartialEq, Eq, Drop)]
pub enum OneOf6<A, B, C, D, E, F> {
    /// The value of the first family.
    First(A),
    /// The value of the second family.
    Second(B),
    /// The value of the third family.
    Third(C),
    /// The value of the fourth family.
    Fourth(D),
    /// The value of the fifth family.
    Fifth(E),
    /// The value of the sixth family.
    Sixth(F),
}

impl<A: TellsKey, B: TellsKey, C: TellsKey, D: TellsKey, E: TellsKey, F: TellsKey> TellsKey
    for (A, B, C, D, E, F) {}

impl<
    R: AsOctets + Copy,
    A: Family<R>,
    B: Family<R>,
    C: Family<R>,
    D: Family<R>,
    E: Family<R>,
    F: Family<R>,
> Family<R> for (A, B, C, D, E, F)
where
    E::SelfDelimiting: And<F::SelfDelimiting>,
    D::SelfDelimiting: And<<E::SelfDelimiting as And<F::SelfDelimiting>>::Joined>,
    C::SelfDelimiting: And<
        <D::SelfDelimiting as And<<E::SelfDelimiting as And<F::SelfDelimiting>>::Joined>>::Joined,
    >,
    B::SelfDelimiting: And<
        <C::SelfDelimiting as And<
            <D::SelfDelimiting as And<
                <E::SelfDelimiting as And<F::SelfDelimiting>>::Joined,
            >>::Joined,
        >>::Joined,
    >,
    A::SelfDelimiting: And<
        <B::SelfDelimiting as And<
            <C::SelfDelimiting as And<
                <D::SelfDelimiting as And<
                    <E::SelfDelimiting as And<F::SelfDelimiting>>::Joined,
                >>::Joined,
            >>::Joined,
        >>::Joined,
    >,
{
    ghost use Rattle.octseq_format.specs.OneOf.{one_of_6};

    type Value = OneOf6<A::Value, B::Value, C::Value, D::Value, E::Value, F::Value>;

    type SelfDelimiting = <A::SelfDelimiting as And<
        <B::SelfDelimiting as And<
            <C::SelfDelimiting as And<
                <D::SelfDelimiting as And<
                    <E::SelfDelimiting as And<F::SelfDelimiting>>::Joined,
                >>::Joined,
            >>::Joined,
        >>::Joined,
    >>::Joined;

    ghost Found = { A.Found ⊎ (B.Found ⊎ (C.Found ⊎ (D.Found ⊎ (E.Found ⊎ F.Found)))) };

    ghost found = { one_of_6 A.found B.found C.found D.found E.found F.found };

    ghost covers = { λ key. A.covers key ⊎ (B.covers key ⊎ (C.covers key ⊎ (D.covers key ⊎ (E.covers key ⊎ F.covers
        key)))) };

    ghost is_at = { IsEither A.covers A.is_at (IsEither B.covers B.is_at (IsEither C.covers C.is_at (IsEither D.covers
        D.is_at (IsEither E.covers E.is_at F.is_at)))) };

    ghost Said = { A.Said ⊎ (B.Said ⊎ (C.Said ⊎ (D.Said ⊎ (E.Said ⊎ F.Said)))) };

    ghost says = { either_says A.says (either_says B.says (either_says C.says (either_says D.says (either_says E.says
        F.says)))) };

    ghost tag = { either_number A.tag (either_number B.tag (either_number C.tag (either_number D.tag (either_number
        E.tag F.tag)))) };

    ghost octets = { either_octets A.octets (either_octets B.octets (either_octets C.octets (either_octets D.octets
        (either_octets E.octets F.octets)))) };

    ghost fits = { EitherFits A.covers A.fits (EitherFits B.covers B.fits (EitherFits C.covers C.fits (EitherFits
        D.covers D.fits (EitherFits E.covers E.fits F.fits)))) };

    ghost one = { one_either A.covers A.is_at (IsEither B.covers B.is_at (IsEither C.covers C.is_at (IsEither D.covers
        D.is_at (IsEither E.covers E.is_at F.is_at)))) A.one (one_either B.covers B.is_at (IsEither C.covers C.is_at
        (IsEither D.covers D.is_at (IsEither E.covers E.is_at F.is_at))) B.one (one_either C.covers C.is_at (IsEither
        D.covers D.is_at (IsEither E.covers E.is_at F.is_at)) C.one (one_either D.covers D.is_at (IsEither E.covers
        E.is_at F.is_at) D.one (one_either E.covers E.is_at F.is_at E.one F.one)))) };

    ghost found_code = { coded⊎ A.found_code (coded⊎ B.found_code (coded⊎ C.found_code (coded⊎ D.found_code (coded⊎
        E.found_code F.found_code)))) };

    ghost turns_of = { either_number A.turns_of (either_number B.turns_of (either_number C.turns_of (either_number
        D.turns_of (either_number E.turns_of F.turns_of)))) };

    ghost base = { A.base + (B.base + (C.base + (D.base + (E.base + F.base)))) };

    ghost rate = { A.rate + (B.rate + (C.rate + (D.rate + (E.rate + F.rate)))) };

    ghost stops = { λ key. StopsBy (A.covers key) (A.stops key) (StopsBy (B.covers key) (B.stops key) (StopsBy (C.covers
        key) (C.stops key) (StopsBy (D.covers key) (D.stops key) (StopsBy (E.covers key) (E.stops key) (F.stops
        key))))) };

    ghost one_way = { false };

    #[inline(always)]
    fn has_format(key: usize) -> bool {
        <(A, (B, C, D, E, F)) as Family<R>>::has_format(key)
    }

    #[inline(always)]
    fn parse_by(
        key: usize,
        parser: &mut Parser<R>,
        turns: &mut Turns,
    ) -> Result<Self::Value, Malformed> {
        match <(A, (B, C, D, E, F)) as Family<R>>::parse_by(key, parser, turns) {
            Ok(OneOf2::First(value)) => Ok(OneOf6::First(value)),
            Ok(OneOf2::Second(OneOf5::First(value))) => Ok(OneOf6::Second(value)),
            Ok(OneOf2::Second(OneOf5::Second(value))) => Ok(OneOf6::Third(value)),
            Ok(OneOf2::Second(OneOf5::Third(value))) => Ok(OneOf6::Fourth(value)),
            Ok(OneOf2::Second(OneOf5::Fourth(value))) => Ok(OneOf6::Fifth(value)),
            Ok(OneOf2::Second(OneOf5::Fifth(value))) => Ok(OneOf6::Sixth(value)),
            Err(e) => Err(e),
        }
    }

    fn fault_by(key: usize, parser: &Parser<R>) -> usize {
        <(A, (B, C, D, E, F)) as Family<R>>::fault_by(key, parser)
    }

    #[inline(always)]
    fn is_unique() -> bool {
        false
    }

    #[inline(always)]
    fn tag_of(value: &Self::Value) -> Option<usize> {
        match value {
            OneOf6::First(value) => A::tag_of(value),
            OneOf6::Second(value) => B::tag_of(value),
            OneOf6::Third(value) => C::tag_of(value),
            OneOf6::Fourth(value) => D::tag_of(value),
            OneOf6::Fifth(value) => E::tag_of(value),
            OneOf6::Sixth(value) => F::tag_of(value),
        }
    }

    #[inline(always)]
    fn len_by(key: usize, value: &Self::Value) -> Option<usize> {
        match value {
            OneOf6::First(value) => {
                if !A::has_format(key) {
                    return None;
                }
                A::len_by(key, value)
            }
            OneOf6::Second(value) => {
                if A::has_format(key) || !B::has_format(key) {
                    return None;
                }
                B::len_by(key, value)
            }
            OneOf6::Third(value) => {
                if A::has_format(key) || B::has_format(key) || !C::has_format(key) {
                    return None;
                }
                C::len_by(key, value)
            }
            OneOf6::Fourth(value) => {
                if A::has_format(key)
                    || B::has_format(key)
                    || C::has_format(key)
                    || !D::has_format(key)
                {
                    return None;
                }
                D::len_by(key, value)
            }
            OneOf6::Fifth(value) => {
                if A::has_format(key)
                    || B::has_format(key)
                    || C::has_format(key)
                    || D::has_format(key)
                    || !E::has_format(key)
                {
                    return None;
                }
                E::len_by(key, value)
            }
            OneOf6::Sixth(value) => {
                if A::has_format(key)
                    || B::has_format(key)
                    || C::has_format(key)
                    || D::has_format(key)
                    || E::has_format(key)
                {
                    return None;
                }
                F::len_by(key, value)
            }
        }
    }

    #[inline(always)]
    fn put_by<Into: OctetsBuilder + Truncate>(
        key: usize,
        builder: &mut Into,
        value: &Self::Value,
    ) -> Result<(), AllocError> {
        match value {
            OneOf6::First(value) => A::put_by(key, builder, value),
            OneOf6::Second(value) => B::put_by(key, builder, value),
            OneOf6::Third(value) => C::put_by(key, builder, value),
            OneOf6::Fourth(value) => D::put_by(key, builder, value),
            OneOf6::Fifth(value) => E::put_by(key, builder, value),
            OneOf6::Sixth(value) => F::put_by(key, builder, value),
        }
    }

    ghost onward = { onward_either A.covers A.is_at (IsEither B.covers B.is_at (IsEither C.covers C.is_at (IsEither
        D.covers D.is_at (IsEither E.covers E.is_at F.is_at)))) A.onward (onward_either B.covers B.is_at (IsEither
        C.covers C.is_at (IsEither D.covers D.is_at (IsEither E.covers E.is_at F.is_at))) B.onward (onward_either
        C.covers C.is_at (IsEither D.covers D.is_at (IsEither E.covers E.is_at F.is_at)) C.onward (onward_either
        D.covers D.is_at (IsEither E.covers E.is_at F.is_at) D.onward (onward_either E.covers E.is_at F.is_at E.onward
        F.onward)))) };

    ghost read_back = { either_read_back A.covers A.read_back (either_read_back B.covers B.read_back (either_read_back
        C.covers C.read_back (either_read_back D.covers D.read_back (either_read_back E.covers E.read_back
        F.read_back)))) };

    ghost delimited = { λ yes. delimited_either A.covers (A.delimited (A.SelfDelimiting.both yes).0) (delimited_either
        B.covers (B.delimited (B.SelfDelimiting.both ((A.SelfDelimiting.both yes).1)).0)
        (delimited_either C.covers (C.delimited
        (C.SelfDelimiting.both ((B.SelfDelimiting.both ((A.SelfDelimiting.both yes).1)).1)).0)
        (delimited_either D.covers (D.delimited
        (D.SelfDelimiting.both
        ((C.SelfDelimiting.both ((B.SelfDelimiting.both ((A.SelfDelimiting.both yes).1)).1)).1)).0)
        (delimited_either
        E.covers (E.delimited
        (E.SelfDelimiting.both ((D.SelfDelimiting.both ((C.SelfDelimiting.both ((B.SelfDelimiting.both
        ((A.SelfDelimiting.both yes).1)).1)).1)).1)).0)
        (F.delimited ((E.SelfDelimiting.both ((D.SelfDelimiting.both ((C.SelfDelimiting.both
        ((B.SelfDelimiting.both ((A.SelfDelimiting.both yes).1)).1)).1)).1)).1)))))) };

    ghost canonical = { λ yes key. not_one_way yes };

    ghost told = { λ yes key said fits. not_so yes };
}

/// One of seven values.
#[derive(Clone, Copy, Debug, PartialEq, Eq, Drop)]
pub enum OneOf7<A, B, C, D, E, F, G> {
    /// The value of the first family.
    First(A),
    /// The value of the second family.
    Second(B),
    /// The value of the third family.
    Third(C),
    /// The value of the fourth family.
    Fourth(D),
    /// The value of the fifth family.
    Fifth(E),
    /// The value of the sixth family.
    Sixth(F),
    /// The value of the seventh family.
    Seventh(G),
}

impl<
    A: TellsKey,
    B: TellsKey,
    C: TellsKey,
    D: TellsKey,
    E: TellsKey,
    F: TellsKey,
    G: TellsKey,
> TellsKey for (A, B, C, D, E, F, G) {}

impl<
    R: AsOctets + Copy,
    A: Family<R>,
    B: Family<R>,
    C: Family<R>,
    D: Family<R>,
    E: Family<R>,
    F: Family<R>,
    G: Family<R>,
> Family<R> for (A, B, C, D, E, F, G)
where
    F::SelfDelimiting: And<G::SelfDelimiting>,
    E::SelfDelimiting: And<<F::SelfDelimiting as And<G::SelfDelimiting>>::Joined>,
    D::SelfDelimiting: And<
        <E::SelfDelimiting as And<<F::SelfDelimiting as And<G::SelfDelimiting>>::Joined>>::Joined,
    >,
    C::SelfDelimiting: And<
        <D::SelfDelimiting as And<
            <E::SelfDelimiting as And<
                <F::SelfDelimiting as And<G::SelfDelimiting>>::Joined,
            >>::Joined,
        >>::Joined,
    >,
    B::SelfDelimiting: And<
        <C::SelfDelimiting as And<
            <D::SelfDelimiting as And<
                <E::SelfDelimiting as And<
                    <F::SelfDelimiting as And<G::SelfDelimiting>>::Joined,
                >>::Joined,
            >>::Joined,
        >>::Joined,
    >,
    A::SelfDelimiting: And<
        <B::SelfDelimiting as And<
            <C::SelfDelimiting as And<
                <D::SelfDelimiting as And<
                    <E::SelfDelimiting as And<
                        <F::SelfDelimiting as And<G::SelfDelimiting>>::Joined,
                    >>::Joined,
                >>::Joined,
            >>::Joined,
        >>::Joined,
    >,
{
    ghost use Rattle.octseq_format.specs.OneOf.{one_of_7};

    type Value = OneOf7<A::Value, B::Value, C::Value, D::Value, E::Value, F::Value, G::Value>;

    type SelfDelimiting = <A::SelfDelimiting as And<
        <B::SelfDelimiting as And<
            <C::SelfDelimiting as And<
                <D::SelfDelimiting as And<
                    <E::SelfDelimiting as And<
                        <F::SelfDelimiting as And<G::SelfDelimiting>>::Joined,
                    >>::Joined,
                >>::Joined,
            >>::Joined,
        >>::Joined,
    >>::Joined;

    ghost Found = { A.Found ⊎ (B.Found ⊎ (C.Found ⊎ (D.Found ⊎ (E.Found ⊎ (F.Found ⊎ G.Found))))) };

    ghost found = { one_of_7 A.found B.found C.found D.found E.found F.found G.found };

    ghost covers = { λ key. A.covers key ⊎ (B.covers key ⊎ (C.covers key ⊎ (D.covers key ⊎ (E.covers key ⊎ (F.covers key
        ⊎ G.covers key))))) };

    ghost is_at = { IsEither A.covers A.is_at (IsEither B.covers B.is_at (IsEither C.covers C.is_at (IsEither D.covers
        D.is_at (IsEither E.covers E.is_at (IsEither F.covers F.is_at G.is_at))))) };

    ghost Said = { A.Said ⊎ (B.Said ⊎ (C.Said ⊎ (D.Said ⊎ (E.Said ⊎ (F.Said ⊎ G.Said))))) };

    ghost says = { either_says A.says (either_says B.says (either_says C.says (either_says D.says (either_says E.says
        (either_says F.says G.says))))) };

    ghost tag = { either_number A.tag (either_number B.tag (either_number C.tag (either_number D.tag (either_number
        E.tag (either_number F.tag G.tag))))) };

    ghost octets = { either_octets A.octets (either_octets B.octets (either_octets C.octets (either_octets D.octets
        (either_octets E.octets (either_octets F.octets G.octets))))) };

    ghost fits = { EitherFits A.covers A.fits (EitherFits B.covers B.fits (EitherFits C.covers C.fits (EitherFits
        D.covers D.fits (EitherFits E.covers E.fits (EitherFits F.covers F.fits G.fits))))) };

    ghost one = { one_either A.covers A.is_at (IsEither B.covers B.is_at (IsEither C.covers C.is_at (IsEither D.covers
        D.is_at (IsEither E.covers E.is_at (IsEither F.covers F.is_at G.is_at))))) A.one (one_either B.covers B.is_at
        (IsEither C.covers C.is_at (IsEither D.covers D.is_at (IsEither E.covers E.is_at (IsEither F.covers F.is_at
        G.is_at)))) B.one (one_either C.covers C.is_at (IsEither D.covers D.is_at (IsEither E.covers E.is_at (IsEither
        F.covers F.is_at G.is_at))) C.one (one_either D.covers D.is_at (IsEither E.covers E.is_at (IsEither F.covers
        F.is_at G.is_at)) D.one (one_either E.covers E.is_at (IsEither F.covers F.is_at G.is_at) E.one (one_either
        F.covers F.is_at G.is_at F.one G.one))))) };

    ghost found_code = { coded⊎ A.found_code (coded⊎ B.found_code (coded⊎ C.found_code (coded⊎ D.found_code (coded⊎
        E.found_code (coded⊎ F.found_code G.found_code))))) };

    ghost turns_of = { either_number A.turns_of (either_number B.turns_of (either_number C.turns_of (either_number
        D.turns_of (either_number E.turns_of (either_number F.turns_of G.turns_of))))) };

    ghost base = { A.base + (B.base + (C.base + (D.base + (E.base + (F.base + G.base))))) };

    ghost rate = { A.rate + (B.rate + (C.rate + (D.rate + (E.rate + (F.rate + G.rate))))) };

    ghost stops = { λ key. StopsBy (A.covers key) (A.stops key) (StopsBy (B.covers key) (B.stops key) (StopsBy (C.covers
        key) (C.stops key) (StopsBy (D.covers key) (D.stops key) (StopsBy (E.covers key) (E.stops key) (StopsBy
        (F.covers key) (F.stops key) (G.stops key)))))) };

    ghost one_way = { false };

    #[inline(always)]
    fn has_format(key: usize) -> bool {
        <(A, (B, C, D, E, F, G)) as Family<R>>::has_format(key)
    }

    #[inline(always)]
    fn parse_by(
        key: usize,
        parser: &mut Parser<R>,
        turns: &mut Turns,
    ) -> Result<Self::Value, Malformed> {
        match <(A, (B, C, D, E, F, G)) as Family<R>>::parse_by(key, parser, turns) {
            Ok(OneOf2::First(value)) => Ok(OneOf7::First(value)),
            Ok(OneOf2::Second(OneOf6::First(value))) => Ok(OneOf7::Second(value)),
            Ok(OneOf2::Second(OneOf6::Second(value))) => Ok(OneOf7::Third(value)),
            Ok(OneOf2::Second(OneOf6::Third(value))) => Ok(OneOf7::Fourth(value)),
            Ok(OneOf2::Second(OneOf6::Fourth(value))) => Ok(OneOf7::Fifth(value)),
            Ok(OneOf2::Second(OneOf6::Fifth(value))) => Ok(OneOf7::Sixth(value)),
            Ok(OneOf2::Second(OneOf6::Sixth(value))) => Ok(OneOf7::Seventh(value)),
            Err(e) => Err(e),
        }
    }

    fn fault_by(key: usize, parser: &Parser<R>) -> usize {
        <(A, (B, C, D, E, F, G)) as Family<R>>::fault_by(key, parser)
    }

    #[inline(always)]
    fn is_unique() -> bool {
        false
    }

    #[inline(always)]
    fn tag_of(value: &Self::Value) -> Option<usize> {
        match value {
            OneOf7::First(value) => A::tag_of(value),
            OneOf7::Second(value) => B::tag_of(value),
            OneOf7::Third(value) => C::tag_of(value),
            OneOf7::Fourth(value) => D::tag_of(value),
            OneOf7::Fifth(value) => E::tag_of(value),
            OneOf7::Sixth(value) => F::tag_of(value),
            OneOf7::Seventh(value) => G::tag_of(value),
        }
    }

    #[inline(always)]
    fn len_by(key: usize, value: &Self::Value) -> Option<usize> {
        match value {
            OneOf7::First(value) => {
                if !A::has_format(key) {
                    return None;
                }
                A::len_by(key, value)
            }
            OneOf7::Second(value) => {
                if A::has_format(key) || !B::has_format(key) {
                    return None;
                }
                B::len_by(key, value)
            }
            OneOf7::Third(value) => {
                if A::has_format(key) || B::has_format(key) || !C::has_format(key) {
                    return None;
                }
                C::len_by(key, value)
            }
            OneOf7::Fourth(value) => {
                if A::has_format(key)
                    || B::has_format(key)
                    || C::has_format(key)
                    || !D::has_format(key)
                {
                    return None;
                }
                D::len_by(key, value)
            }
            OneOf7::Fifth(value) => {
                if A::has_format(key)
                    || B::has_format(key)
                    || C::has_format(key)
                    || D::has_format(key)
                    || !E::has_format(key)
                {
                    return None;
                }
                E::len_by(key, value)
            }
            OneOf7::Sixth(value) => {
                if A::has_format(key)
                    || B::has_format(key)
                    || C::has_format(key)
                    || D::has_format(key)
                    || E::has_format(key)
                    || !F::has_format(key)
                {
                    return None;
                }
                F::len_by(key, value)
            }
            OneOf7::Seventh(value) => {
                if A::has_format(key)
                    || B::has_format(key)
                    || C::has_format(key)
                    || D::has_format(key)
                    || E::has_format(key)
                    || F::has_format(key)
                {
                    return None;
                }
                G::len_by(key, value)
            }
        }
    }

    #[inline(always)]
    fn put_by<Into: OctetsBuilder + Truncate>(
        key: usize,
        builder: &mut Into,
        value: &Self::Value,
    ) -> Result<(), AllocError> {
        match value {
            OneOf7::First(value) => A::put_by(key, builder, value),
            OneOf7::Second(value) => B::put_by(key, builder, value),
            OneOf7::Third(value) => C::put_by(key, builder, value),
            OneOf7::Fourth(value) => D::put_by(key, builder, value),
            OneOf7::Fifth(value) => E::put_by(key, builder, value),
            OneOf7::Sixth(value) => F::put_by(key, builder, value),
            OneOf7::Seventh(value) => G::put_by(key, builder, value),
        }
    }

    ghost onward = { onward_either A.covers A.is_at (IsEither B.covers B.is_at (IsEither C.covers C.is_at (IsEither
        D.covers D.is_at (IsEither E.covers E.is_at (IsEither F.covers F.is_at G.is_at))))) A.onward (onward_either
        B.covers B.is_at (IsEither C.covers C.is_at (IsEither D.covers D.is_at (IsEither E.covers E.is_at (IsEither
        F.covers F.is_at G.is_at)))) B.onward (onward_either C.covers C.is_at (IsEither D.covers D.is_at (IsEither
        E.covers E.is_at (IsEither F.covers F.is_at G.is_at))) C.onward (onward_either D.covers D.is_at (IsEither
        E.covers E.is_at (IsEither F.covers F.is_at G.is_at)) D.onward (onward_either E.covers E.is_at (IsEither
        F.covers F.is_at G.is_at) E.onward (onward_either F.covers F.is_at G.is_at F.onward G.onward))))) };

    ghost read_back = { either_read_back A.covers A.read_back (either_read_back B.covers B.read_back (either_read_back
        C.covers C.read_back (either_read_back D.covers D.read_back (either_read_back E.covers E.read_back
        (either_read_back F.covers F.read_back G.read_back))))) };

    ghost delimited = { λ yes. delimited_either A.covers (A.delimited (A.SelfDelimiting.both yes).0) (delimited_either
        B.covers (B.delimited (B.SelfDelimiting.both ((A.SelfDelimiting.both yes).1)).0)
        (delimited_either C.covers (C.delimited
        (C.SelfDelimiting.both ((B.SelfDelimiting.both ((A.SelfDelimiting.both yes).1)).1)).0)
        (delimited_either D.covers (D.delimited
        (D.SelfDelimiting.both
        ((C.SelfDelimiting.both ((B.SelfDelimiting.both ((A.SelfDelimiting.both yes).1)).1)).1)).0)
        (delimited_either
        E.covers (E.delimited
        (E.SelfDelimiting.both ((D.SelfDelimiting.both ((C.SelfDelimiting.both ((B.SelfDelimiting.both
        ((A.SelfDelimiting.both yes).1)).1)).1)).1)).0) (delimited_either F.covers (F.delimited (F.SelfDelimiting.both
        ((E.SelfDelimiting.both
        ((D.SelfDelimiting.both ((C.SelfDelimiting.both ((B.SelfDelimiting.both ((A.SelfDelimiting.both
        yes).1)).1)).1)).1)).1)).0) (G.delimited ((F.SelfDelimiting.both ((E.SelfDelimiting.both ((D.SelfDelimiting.both
        ((C.SelfDelimiting.both ((B.SelfDelimiting.both ((A.SelfDelimiting.both yes).1)).1)).1)).1)).1)).1))))))) };

    ghost canonical = { λ yes key. not_one_way yes };

    ghost told = { λ yes key said fits. not_so yes };
}
