//! The same for eight families.
ghost use Rattle.std.specs.Prelude.{◌⊎◌, ◌+◌, false};
ghost use Rattle.std.specs.Coded.{coded⊎};
ghost use Rattle.octseq_format.specs.Answer.{not_so};
ghost use Rattle.octseq_format.specs.Canonical.{not_one_way};
ghost use Rattle.octseq_format.specs.Family.{IsEither, either_says, either_number, either_octets, EitherFits};
ghost use Rattle.octseq_format.specs.Family.{one_either, onward_either, either_read_back, delimited_either};
ghost use Rattle.octseq_format.specs.Stop.{StopsBy};

use crate::answer::And;
use crate::choice::OneOf2;
use crate::family::{Family, TellsKey};
use crate::wide_choice::OneOf7;
use octseq::{AsOctets, Malformed, OctetsBuilder, Parser, Truncate, Turns};
use std::alloc::AllocError;

/// One of eight values.
#[derive(Clone, Copy, Debug, PartialEq, Eq, Drop)]
pub enum OneOf8<A, B, C, D, E, F, G, H> {
    /// The value of the first family.
    First(A),
    /// The value of the second family.
    Second(B),
    /// The value of the third family.
    Third(C),
    /// The value of the fourth family.
    Fourth(D),
    /// The value of the fifth family.
    Fifth(E),
    /// The value of the sixth family.
    Sixth(F),
    /// The value of the seventh family.
    Seventh(G),
    /// The value of the eighth family.
    Eighth(H),
}

impl<
    A: TellsKey,
    B: TellsKey,
    C: TellsKey,
    D: TellsKey,
    E: TellsKey,
    F: TellsKey,
    G: TellsKey,
    H: TellsKey,
> TellsKey for (A, B, C, D, E, F, G, H) {}

impl<
    R: AsOctets + Copy,
    A: Family<R>,
    B: Family<R>,
    C: Family<R>,
    D: Family<R>,
    E: Family<R>,
    F: Family<R>,
    G: Family<R>,
    H: Family<R>,
> Family<R> for (A, B, C, D, E, F, G, H)
where
    G::SelfDelimiting: And<H::SelfDelimiting>,
    F::SelfDelimiting: And<<G::SelfDelimiting as And<H::SelfDelimiting>>::Joined>,
    E::SelfDelimiting: And<
        <F::SelfDelimiting as And<<G::SelfDelimiting as And<H::SelfDelimiting>>::Joined>>::Joined,
    >,
    D::SelfDelimiting: And<
        <E::SelfDelimiting as And<
            <F::SelfDelimiting as And<
                <G::SelfDelimiting as And<H::SelfDelimiting>>::Joined,
            >>::Joined,
        >>::Joined,
    >,
    C::SelfDelimiting: And<
        <D::SelfDelimiting as And<
            <E::SelfDelimiting as And<
                <F::SelfDelimiting as And<
                    <G::SelfDelimiting as And<H::SelfDelimiting>>::Joined,
                >>::Joined,
            >>::Joined,
        >>::Joined,
    >,
    B::SelfDelimiting: And<
        <C::SelfDelimiting as And<
            <D::SelfDelimiting as And<
                <E::SelfDelimiting as And<
                    <F::SelfDelimiting as And<
                        <G::SelfDelimiting as And<H::SelfDelimiting>>::Joined,
                    >>::Joined,
                >>::Joined,
            >>::Joined,
        >>::Joined,
    >,
    A::SelfDelimiting: And<
        <B::SelfDelimiting as And<
            <C::SelfDelimiting as And<
                <D::SelfDelimiting as And<
                    <E::SelfDelimiting as And<
                        <F::SelfDelimiting as And<
                            <G::SelfDelimiting as And<H::SelfDelimiting>>::Joined,
                        >>::Joined,
                    >>::Joined,
                >>::Joined,
            >>::Joined,
        >>::Joined,
    >,
{
    ghost use Rattle.octseq_format.specs.OneOf.{one_of_8};

    type Value = OneOf8<
        A::Value,
        B::Value,
        C::Value,
        D::Value,
        E::Value,
        F::Value,
        G::Value,
        H::Value,
    >;

    type SelfDelimiting = <A::SelfDelimiting as And<
        <B::SelfDelimiting as And<
            <C::SelfDelimiting as And<
                <D::SelfDelimiting as And<
                    <E::SelfDelimiting as And<
                        <F::SelfDelimiting as And<
                            <G::SelfDelimiting as And<H::SelfDelimiting>>::Joined,
                        >>::Joined,
                    >>::Joined,
                >>::Joined,
            >>::Joined,
        >>::Joined,
    >>::Joined;

    ghost Found = { A.Found ⊎ (B.Found ⊎ (C.Found ⊎ (D.Found ⊎ (E.Found ⊎ (F.Found ⊎ (G.Found ⊎ H.Found)))))) };

    ghost found = { one_of_8 A.found B.found C.found D.found E.found F.found G.found H.found };

    ghost covers = { λ key. A.covers key ⊎ (B.covers key ⊎ (C.covers key ⊎ (D.covers key ⊎ (E.covers key ⊎ (F.covers key
        ⊎ (G.covers key ⊎ H.covers key)))))) };

    ghost is_at = { IsEither A.covers A.is_at (IsEither B.covers B.is_at (IsEither C.covers C.is_at (IsEither D.covers
        D.is_at (IsEither E.covers E.is_at (IsEither F.covers F.is_at (IsEither G.covers G.is_at H.is_at)))))) };

    ghost Said = { A.Said ⊎ (B.Said ⊎ (C.Said ⊎ (D.Said ⊎ (E.Said ⊎ (F.Said ⊎ (G.Said ⊎ H.Said)))))) };

    ghost says = { either_says A.says (either_says B.says (either_says C.says (either_says D.says (either_says E.says
        (either_says F.says (either_says G.says H.says)))))) };

    ghost tag = { either_number A.tag (either_number B.tag (either_number C.tag (either_number D.tag (either_number
        E.tag (either_number F.tag (either_number G.tag H.tag)))))) };

    ghost octets = { either_octets A.octets (either_octets B.octets (either_octets C.octets (either_octets D.octets
        (either_octets E.octets (either_octets F.octets (either_octets G.octets H.octets)))))) };

    ghost fits = { EitherFits A.covers A.fits (EitherFits B.covers B.fits (EitherFits C.covers C.fits (EitherFits
        D.covers D.fits (EitherFits E.covers E.fits (EitherFits F.covers F.fits (EitherFits G.covers G.fits
        H.fits)))))) };

    ghost one = { one_either A.covers A.is_at (IsEither B.covers B.is_at (IsEither C.covers C.is_at (IsEither D.covers
        D.is_at (IsEither E.covers E.is_at (IsEither F.covers F.is_at (IsEither G.covers G.is_at H.is_at)))))) A.one
        (one_either B.covers B.is_at (IsEither C.covers C.is_at (IsEither D.covers D.is_at (IsEither E.covers E.is_at
        (IsEither F.covers F.is_at (IsEither G.covers G.is_at H.is_at))))) B.one (one_either C.covers C.is_at (IsEither
        D.covers D.is_at (IsEither E.covers E.is_at (IsEither F.covers F.is_at (IsEither G.covers G.is_at H.is_at))))
        C.one (one_either D.covers D.is_at (IsEither E.covers E.is_at (IsEither F.covers F.is_at (IsEither G.covers
        G.is_at H.is_at))) D.one (one_either E.covers E.is_at (IsEither F.covers F.is_at (IsEither G.covers G.is_at
        H.is_at)) E.one (one_either F.covers F.is_at (IsEither G.covers G.is_at H.is_at) F.one (one_either G.covers
        G.is_at H.is_at G.one H.one)))))) };

    ghost found_code = { coded⊎ A.found_code (coded⊎ B.found_code (coded⊎ C.found_code (coded⊎ D.found_code (coded⊎
        E.found_code (coded⊎ F.found_code (coded⊎ G.found_code H.found_code)))))) };

    ghost turns_of = { either_number A.turns_of (either_number B.turns_of (either_number C.turns_of (either_number
        D.turns_of (either_number E.turns_of (either_number F.turns_of (either_number G.turns_of H.turns_of)))))) };

    ghost base = { A.base + (B.base + (C.base + (D.base + (E.base + (F.base + (G.base + H.base)))))) };

    ghost rate = { A.rate + (B.rate + (C.rate + (D.rate + (E.rate + (F.rate + (G.rate + H.rate)))))) };

    ghost stops = { λ key. StopsBy (A.covers key) (A.stops key) (StopsBy (B.covers key) (B.stops key) (StopsBy (C.covers
        key) (C.stops key) (StopsBy (D.covers key) (D.stops key) (StopsBy (E.covers key) (E.stops key) (StopsBy
        (F.covers key) (F.stops key) (StopsBy (G.covers key) (G.stops key) (H.stops key))))))) };

    ghost one_way = { false };

    #[inline(always)]
    fn has_format(key: usize) -> bool {
        <(A, (B, C, D, E, F, G, H)) as Family<R>>::has_format(key)
    }

    #[inline(always)]
    fn parse_by(
        key: usize,
        parser: &mut Parser<R>,
        turns: &mut Turns,
    ) -> Result<Self::Value, Malformed> {
        match <(A, (B, C, D, E, F, G, H)) as Family<R>>::parse_by(key, parser, turns) {
            Ok(OneOf2::First(value)) => Ok(OneOf8::First(value)),
            Ok(OneOf2::Second(OneOf7::First(value))) => Ok(OneOf8::Second(value)),
            Ok(OneOf2::Second(OneOf7::Second(value))) => Ok(OneOf8::Third(value)),
            Ok(OneOf2::Second(OneOf7::Third(value))) => Ok(OneOf8::Fourth(value)),
            Ok(OneOf2::Second(OneOf7::Fourth(value))) => Ok(OneOf8::Fifth(value)),
            Ok(OneOf2::Second(OneOf7::Fifth(value))) => Ok(OneOf8::Sixth(value)),
            Ok(OneOf2::Second(OneOf7::Sixth(value))) => Ok(OneOf8::Seventh(value)),
            Ok(OneOf2::Second(OneOf7::Seventh(value))) => Ok(OneOf8::Eighth(value)),
            Err(e) => Err(e),
        }
    }

    fn fault_by(key: usize, parser: &Parser<R>) -> usize {
        <(A, (B, C, D, E, F, G, H)) as Family<R>>::fault_by(key, parser)
    }

    #[inline(always)]
    fn is_unique() -> bool {
        false
    }

    #[inline(always)]
    fn tag_of(value: &Self::Value) -> Option<usize> {
        match value {
            OneOf8::First(value) => A::tag_of(value),
            OneOf8::Second(value) => B::tag_of(value),
            OneOf8::Third(value) => C::tag_of(value),
            OneOf8::Fourth(value) => D::tag_of(value),
            OneOf8::Fifth(value) => E::tag_of(value),
            OneOf8::Sixth(value) => F::tag_of(value),
            OneOf8::Seventh(value) => G::tag_of(value),
            OneOf8::Eighth(value) => H::tag_of(value),
        }
    }

    #[inline(always)]
    fn len_by(key: usize, value: &Self::Value) -> Option<usize> {
        match value {
            OneOf8::First(value) => {
                if !A::has_format(key) {
                    return None;
                }
                A::len_by(key, value)
            }
            OneOf8::Second(value) => {
                if A::has_format(key) || !B::has_format(key) {
                    return None;
                }
                B::len_by(key, value)
            }
            OneOf8::Third(value) => {
                if A::has_format(key) || B::has_format(key) || !C::has_format(key) {
                    return None;
                }
                C::len_by(key, value)
            }
            OneOf8::Fourth(value) => {
                if A::has_format(key)
                    || B::has_format(key)
                    || C::has_format(key)
                    || !D::has_format(key)
                {
                    return None;
                }
                D::len_by(key, value)
            }
            OneOf8::Fifth(value) => {
                if A::has_format(key)
                    || B::has_format(key)
                    || C::has_format(key)
                    || D::has_format(key)
                    || !E::has_format(key)
                {
                    return None;
                }
                E::len_by(key, value)
            }
            OneOf8::Sixth(value) => {
                if A::has_format(key)
                    || B::has_format(key)
                    || C::has_format(key)
                    || D::has_format(key)
                    || E::has_format(key)
                    || !F::has_format(key)
                {
                    return None;
                }
                F::len_by(key, value)
            }
            OneOf8::Seventh(value) => {
                if A::has_format(key)
                    || B::has_format(key)
                    || C::has_format(key)
                    || D::has_format(key)
                    || E::has_format(key)
                    || F::has_format(key)
                    || !G::has_format(key)
                {
                    return None;
                }
                G::len_by(key, value)
            }
            OneOf8::Eighth(value) => {
                if A::has_format(key)
                    || B::has_format(key)
                    || C::has_format(key)
                    || D::has_format(key)
                    || E::has_format(key)
                    || F::has_format(key)
                    || G::has_format(key)
                {
                    return None;
                }
                H::len_by(key, value)
            }
        }
    }

    #[inline(always)]
    fn put_by<Into: OctetsBuilder + Truncate>(
        key: usize,
        builder: &mut Into,
        value: &Self::Value,
    ) -> Result<(), AllocError> {
        match value {
            OneOf8::First(value) => A::put_by(key, builder, value),
            OneOf8::Second(value) => B::put_by(key, builder, value),
            OneOf8::Third(value) => C::put_by(key, builder, value),
            OneOf8::Fourth(value) => D::put_by(key, builder, value),
            OneOf8::Fifth(value) => E::put_by(key, builder, value),
            OneOf8::Sixth(value) => F::put_by(key, builder, value),
            OneOf8::Seventh(value) => G::put_by(key, builder, value),
            OneOf8::Eighth(value) => H::put_by(key, builder, value),
        }
    }

    ghost onward = { onward_either A.covers A.is_at (IsEither B.covers B.is_at (IsEither C.covers C.is_at (IsEither
        D.covers D.is_at (IsEither E.covers E.is_at (IsEither F.covers F.is_at (IsEither G.covers G.is_at H.is_at))))))
        A.onward (onward_either B.covers B.is_at (IsEither C.covers C.is_at (IsEither D.covers D.is_at (IsEither
        E.covers E.is_at (IsEither F.covers F.is_at (IsEither G.covers G.is_at H.is_at))))) B.onward (onward_either
        C.covers C.is_at (IsEither D.covers D.is_at (IsEither E.covers E.is_at (IsEither F.covers F.is_at (IsEither
        G.covers G.is_at H.is_at)))) C.onward (onward_either D.covers D.is_at (IsEither E.covers E.is_at (IsEither
        F.covers F.is_at (IsEither G.covers G.is_at H.is_at))) D.onward (onward_either E.covers E.is_at (IsEither
        F.covers F.is_at (IsEither G.covers G.is_at H.is_at)) E.onward (onward_either F.covers F.is_at (IsEither
        G.covers G.is_at H.is_at) F.onward (onward_either G.covers G.is_at H.is_at G.onward H.onward)))))) };

    ghost read_back = { either_read_back A.covers A.read_back (either_read_back B.covers B.read_back (either_read_back
        C.covers C.read_back (either_read_back D.covers D.read_back (either_read_back E.covers E.read_back
        (either_read_back F.covers F.read_back (either_read_back G.covers G.read_back H.read_back)))))) };

    ghost delimited = { λ yes. delimited_either A.covers (A.delimited (A.SelfDelimiting.both yes).0) (delimited_either
        B.covers (B.delimited (B.SelfDelimiting.both ((A.SelfDelimiting.both yes).1)).0)
        (delimited_either C.covers (C.delimited
        (C.SelfDelimiting.both ((B.SelfDelimiting.both ((A.SelfDelimiting.both yes).1)).1)).0)
        (delimited_either D.covers (D.delimited
        (D.SelfDelimiting.both
        ((C.SelfDelimiting.both ((B.SelfDelimiting.both ((A.SelfDelimiting.both yes).1)).1)).1)).0)
        (delimited_either
        E.covers (E.delimited
        (E.SelfDelimiting.both ((D.SelfDelimiting.both ((C.SelfDelimiting.both ((B.SelfDelimiting.both
        ((A.SelfDelimiting.both yes).1)).1)).1)).1)).0) (delimited_either F.covers (F.delimited (F.SelfDelimiting.both
        ((E.SelfDelimiting.both
        ((D.SelfDelimiting.both ((C.SelfDelimiting.both ((B.SelfDelimiting.both ((A.SelfDelimiting.both
        yes).1)).1)).1)).1)).1)).0)
        (delimited_either G.covers (G.delimited (G.SelfDelimiting.both ((F.SelfDelimiting.both
        ((E.SelfDelimiting.both
        ((D.SelfDelimiting.both ((C.SelfDelimiting.both ((B.SelfDelimiting.both ((A.SelfDelimiting.both
        yes).1)).1)).1)).1)).1)).1)).0)
        (H.delimited ((G.SelfDelimiting.both ((F.SelfDelimiting.both ((E.SelfDelimiting.both
        ((D.SelfDelimiting.both ((C.SelfDelimiting.both ((B.SelfDelimiting.both ((A.SelfDelimiting.both
        yes).1)).1)).1)).1)).1)).1)).1)))))))) };

    ghost canonical = { λ yes key. not_one_way yes };

    ghost told = { λ yes key said fits. not_so yes };
}
