//! Families side by side: the first of them that has a format for the number.
ghost use Rattle.std.specs.Prelude.{◌⊎◌, ◌+◌, false};
ghost use Rattle.std.specs.Coded.{coded⊎};
ghost use Rattle.octseq_format.specs.Answer.{not_so};
ghost use Rattle.octseq_format.specs.Canonical.{not_one_way};
ghost use Rattle.octseq_format.specs.Family.{IsEither, either_says, either_number, either_octets, EitherFits};
ghost use Rattle.octseq_format.specs.Family.{one_either, onward_either, either_read_back, delimited_either};
ghost use Rattle.octseq_format.specs.Stop.{StopsBy};

use crate::answer::And;
use crate::family::{Family, TellsKey};
use octseq::{AsOctets, Malformed, OctetsBuilder, Parser, Truncate, Turns};
use std::alloc::AllocError;

/// One of two values.
#[derive(Clone, Copy, Debug, PartialEq, Eq, Drop)]
pub enum OneOf2<A, B> {
    /// The value of the first family.
    First(A),
    /// The value of the second family.
    Second(B),
}

impl<A: TellsKey, B: TellsKey> TellsKey for (A, B) {}

impl<R: AsOctets + Copy, A: Family<R>, B: Family<R>> Family<R> for (A, B)
where
    A::SelfDelimiting: And<B::SelfDelimiting>,
{
    ghost use Rattle.octseq_format.specs.OneOf.{one_of_2};

    type Value = OneOf2<A::Value, B::Value>;

    type SelfDelimiting = <A::SelfDelimiting as And<B::SelfDelimiting>>::Joined;

    ghost Found = { A.Found ⊎ B.Found };

    ghost found = { one_of_2 A.found B.found };

    ghost covers = { λ key. A.covers key ⊎ B.covers key };

    ghost is_at = { IsEither A.covers A.is_at B.is_at };

    ghost Said = { A.Said ⊎ B.Said };

    ghost says = { either_says A.says B.says };

    ghost tag = { either_number A.tag B.tag };

    ghost octets = { either_octets A.octets B.octets };

    ghost fits = { EitherFits A.covers A.fits B.fits };

    ghost one = { one_either A.covers A.is_at B.is_at A.one B.one };

    ghost found_code = { coded⊎ A.found_code B.found_code };

    ghost turns_of = { either_number A.turns_of B.turns_of };

    ghost base = { A.base + B.base };

    ghost rate = { A.rate + B.rate };

    ghost stops = { λ key. StopsBy (A.covers key) (A.stops key) (B.stops key) };

    ghost one_way = { false };

    #[inline(always)]
    fn has_format(key: usize) -> bool {
        A::has_format(key) || B::has_format(key)
    }

    #[inline(always)]
    fn parse_by(
        key: usize,
        parser: &mut Parser<R>,
        turns: &mut Turns,
    ) -> Result<Self::Value, Malformed> {
        if A::has_format(key) {
            match A::parse_by(key, parser, turns) {
                Ok(value) => Ok(OneOf2::First(value)),
                Err(e) => Err(e),
            }
        } else {
            match B::parse_by(key, parser, turns) {
                Ok(value) => Ok(OneOf2::Second(value)),
                Err(e) => Err(e),
            }
        }
    }

    #[tactic(auto, using(crate::specs::Stop::stops_yes, crate::specs::Stop::stops_no))]
    fn fault_by(key: usize, parser: &Parser<R>) -> usize {
        if A::has_format(key) {
            A::fault_by(key, parser)
        } else {
            B::fault_by(key, parser)
        }
    }

    #[inline(always)]
    fn is_unique() -> bool {
        false
    }

    #[inline(always)]
    fn tag_of(value: &Self::Value) -> Option<usize> {
        match value {
            OneOf2::First(value) => A::tag_of(value),
            OneOf2::Second(value) => B::tag_of(value),
        }
    }

    #[inline(always)]
    fn len_by(key: usize, value: &Self::Value) -> Option<usize> {
        match value {
            OneOf2::First(value) => {
                if !A::has_format(key) {
                    return None;
                }
                A::len_by(key, value)
            }
            OneOf2::Second(value) => {
                if A::has_format(key) {
                    return None;
                }
                B::len_by(key, value)
            }
        }
    }

    #[inline(always)]
    fn put_by<Into: OctetsBuilder + Truncate>(
        key: usize,
        builder: &mut Into,
        value: &Self::Value,
    ) -> Result<(), AllocError> {
        match value {
            OneOf2::First(value) => A::put_by(key, builder, value),
            OneOf2::Second(value) => B::put_by(key, builder, value),
        }
    }

    ghost onward = { onward_either A.covers A.is_at B.is_at A.onward B.onward };

    ghost read_back = { either_read_back A.covers A.read_back B.read_back };

    ghost delimited = { λ yes. delimited_either A.covers (A.delimited (A.SelfDelimiting.both yes).0) (B.delimited
        ((A.SelfDelimiting.both yes).1)) };

    ghost canonical = { λ yes key. not_one_way yes };

    ghost told = { λ yes key said fits. not_so yes };
}

/// One of three values.
#[derive(Clone, Copy, Debug, PartialEq, Eq, Drop)]
pub enum OneOf3<A, B, C> {
    /// The value of the first family.
    First(A),
    /// The value of the second family.
    Second(B),
    /// The value of the third family.
    Third(C),
}

impl<A: TellsKey, B: TellsKey, C: TellsKey> TellsKey for (A, B, C) {}

impl<R: AsOctets + Copy, A: Family<R>, B: Family<R>, C: Family<R>> Family<R> for (A, B, C)
where
    B::SelfDelimiting: And<C::SelfDelimiting>,
    A::SelfDelimiting: And<<B::SelfDelimiting as And<C::SelfDelimiting>>::Joined>,
{
    ghost use Rattle.octseq_format.specs.OneOf.{one_of_3};

    type Value = OneOf3<A::Value, B::Value, C::Value>;

    type SelfDelimiting = <A::SelfDelimiting as And<
        <B::SelfDelimiting as And<C::SelfDelimiting>>::Joined,
    >>::Joined;

    ghost Found = { A.Found ⊎ (B.Found ⊎ C.Found) };

    ghost found = { one_of_3 A.found B.found C.found };

    ghost covers = { λ key. A.covers key ⊎ (B.covers key ⊎ C.covers key) };

    ghost is_at = { IsEither A.covers A.is_at (IsEither B.covers B.is_at C.is_at) };

    ghost Said = { A.Said ⊎ (B.Said ⊎ C.Said) };

    ghost says = { either_says A.says (either_says B.says C.says) };

    ghost tag = { either_number A.tag (either_number B.tag C.tag) };

    ghost octets = { either_octets A.octets (either_octets B.octets C.octets) };

    ghost fits = { EitherFits A.covers A.fits (EitherFits B.covers B.fits C.fits) };

    ghost one = { one_either A.covers A.is_at (IsEither B.covers B.is_at C.is_at) A.one (one_either B.covers B.is_at
        C.is_at B.one C.one) };

    ghost found_code = { coded⊎ A.found_code (coded⊎ B.found_code C.found_code) };

    ghost turns_of = { either_number A.turns_of (either_number B.turns_of C.turns_of) };

    ghost base = { A.base + (B.base + C.base) };

    ghost rate = { A.rate + (B.rate + C.rate) };

    ghost stops = { λ key. StopsBy (A.covers key) (A.stops key) (StopsBy (B.covers key) (B.stops key) (C.stops key)) };

    ghost one_way = { false };

    #[inline(always)]
    fn has_format(key: usize) -> bool {
        <(A, (B, C)) as Family<R>>::has_format(key)
    }

    #[inline(always)]
    fn parse_by(
        key: usize,
        parser: &mut Parser<R>,
        turns: &mut Turns,
    ) -> Result<Self::Value, Malformed> {
        match <(A, (B, C)) as Family<R>>::parse_by(key, parser, turns) {
            Ok(OneOf2::First(value)) => Ok(OneOf3::First(value)),
            Ok(OneOf2::Second(OneOf2::First(value))) => Ok(OneOf3::Second(value)),
            Ok(OneOf2::Second(OneOf2::Second(value))) => Ok(OneOf3::Third(value)),
            Err(e) => Err(e),
        }
    }

    fn fault_by(key: usize, parser: &Parser<R>) -> usize {
        <(A, (B, C)) as Family<R>>::fault_by(key, parser)
    }

    #[inline(always)]
    fn is_unique() -> bool {
        false
    }

    #[inline(always)]
    fn tag_of(value: &Self::Value) -> Option<usize> {
        match value {
            OneOf3::First(value) => A::tag_of(value),
            OneOf3::Second(value) => B::tag_of(value),
            OneOf3::Third(value) => C::tag_of(value),
        }
    }

    #[inline(always)]
    fn len_by(key: usize, value: &Self::Value) -> Option<usize> {
        match value {
            OneOf3::First(value) => {
                if !A::has_format(key) {
                    return None;
                }
                A::len_by(key, value)
            }
            OneOf3::Second(value) => {
                if A::has_format(key) || !B::has_format(key) {
                    return None;
                }
                B::len_by(key, value)
            }
            OneOf3::Third(value) => {
                if A::has_format(key) || B::has_format(key) {
                    return None;
                }
                C::len_by(key, value)
            }
        }
    }

    #[inline(always)]
    fn put_by<Into: OctetsBuilder + Truncate>(
        key: usize,
        builder: &mut Into,
        value: &Self::Value,
    ) -> Result<(), AllocError> {
        match value {
            OneOf3::First(value) => A::put_by(key, builder, value),
            OneOf3::Second(value) => B::put_by(key, builder, value),
            OneOf3::Third(value) => C::put_by(key, builder, value),
        }
    }

    ghost onward = { onward_either A.covers A.is_at (IsEither B.covers B.is_at C.is_at) A.onward (onward_either B.covers
        B.is_at C.is_at B.onward C.onward) };

    ghost read_back = { either_read_back A.covers A.read_back (either_read_back B.covers B.read_back C.read_back) };

    ghost delimited = { λ yes. delimited_either A.covers (A.delimited (A.SelfDelimiting.both yes).0) (delimited_either
        B.covers (B.delimited (B.SelfDelimiting.both ((A.SelfDelimiting.both yes).1)).0)
        (C.delimited ((B.SelfDelimiting.both
        ((A.SelfDelimiting.both yes).1)).1))) };

    ghost canonical = { λ yes key. not_one_way yes };

    ghost told = { λ yes key said fits. not_so yes };
}

/// One of four values.
#[derive(Clone, Copy, Debug, PartialEq, Eq, Drop)]
pub enum OneOf4<A, B, C, D> {
    /// The value of the first family.
    First(A),
    /// The value of the second family.
    Second(B),
    /// The value of the third family.
    Third(C),
    /// The value of the fourth family.
    Fourth(D),
}

impl<A: TellsKey, B: TellsKey, C: TellsKey, D: TellsKey> TellsKey for (A, B, C, D) {}

impl<R: AsOctets + Copy, A: Family<R>, B: Family<R>, C: Family<R>, D: Family<R>> Family<R>
    for (A, B, C, D)
where
    C::SelfDelimiting: And<D::SelfDelimiting>,
    B::SelfDelimiting: And<<C::SelfDelimiting as And<D::SelfDelimiting>>::Joined>,
    A::SelfDelimiting: And<
        <B::SelfDelimiting as And<<C::SelfDelimiting as And<D::SelfDelimiting>>::Joined>>::Joined,
    >,
{
    ghost use Rattle.octseq_format.specs.OneOf.{one_of_4};

    type Value = OneOf4<A::Value, B::Value, C::Value, D::Value>;

    type SelfDelimiting = <A::SelfDelimiting as And<
        <B::SelfDelimiting as And<<C::SelfDelimiting as And<D::SelfDelimiting>>::Joined>>::Joined,
    >>::Joined;

    ghost Found = { A.Found ⊎ (B.Found ⊎ (C.Found ⊎ D.Found)) };

    ghost found = { one_of_4 A.found B.found C.found D.found };

    ghost covers = { λ key. A.covers key ⊎ (B.covers key ⊎ (C.covers key ⊎ D.covers key)) };

    ghost is_at = { IsEither A.covers A.is_at (IsEither B.covers B.is_at (IsEither C.covers C.is_at D.is_at)) };

    ghost Said = { A.Said ⊎ (B.Said ⊎ (C.Said ⊎ D.Said)) };

    ghost says = { either_says A.says (either_says B.says (either_says C.says D.says)) };

    ghost tag = { either_number A.tag (either_number B.tag (either_number C.tag D.tag)) };

    ghost octets = { either_octets A.octets (either_octets B.octets (either_octets C.octets D.octets)) };

    ghost fits = { EitherFits A.covers A.fits (EitherFits B.covers B.fits (EitherFits C.covers C.fits D.fits)) };

    ghost one = { one_either A.covers A.is_at (IsEither B.covers B.is_at (IsEither C.covers C.is_at D.is_at)) A.one
        (one_either B.covers B.is_at (IsEither C.covers C.is_at D.is_at) B.one (one_either C.covers C.is_at D.is_at
        C.one D.one)) };

    ghost found_code = { coded⊎ A.found_code (coded⊎ B.found_code (coded⊎ C.found_code D.found_code)) };

    ghost turns_of = { either_number A.turns_of (either_number B.turns_of (either_number C.turns_of D.turns_of)) };

    ghost base = { A.base + (B.base + (C.base + D.base)) };

    ghost rate = { A.rate + (B.rate + (C.rate + D.rate)) };

    ghost stops = { λ key. StopsBy (A.covers key) (A.stops key) (StopsBy (B.covers key) (B.stops key) (StopsBy (C.covers
        key) (C.stops key) (D.stops key))) };

    ghost one_way = { false };

    #[inline(always)]
    fn has_format(key: usize) -> bool {
        <(A, (B, C, D)) as Family<R>>::has_format(key)
    }

    #[inline(always)]
    fn parse_by(
        key: usize,
        parser: &mut Parser<R>,
        turns: &mut Turns,
    ) -> Result<Self::Value, Malformed> {
        match <(A, (B, C, D)) as Family<R>>::parse_by(key, parser, turns) {
            Ok(OneOf2::First(value)) => Ok(OneOf4::First(value)),
            Ok(OneOf2::Second(OneOf3::First(value))) => Ok(OneOf4::Second(value)),
            Ok(OneOf2::Second(OneOf3::Second(value))) => Ok(OneOf4::Third(value)),
            Ok(OneOf2::Second(OneOf3::Third(value))) => Ok(OneOf4::Fourth(value)),
            Err(e) => Err(e),
        }
    }

    fn fault_by(key: usize, parser: &Parser<R>) -> usize {
        <(A, (B, C, D)) as Family<R>>::fault_by(key, parser)
    }

    #[inline(always)]
    fn is_unique() -> bool {
        false
    }

    #[inline(always)]
    fn tag_of(value: &Self::Value) -> Option<usize> {
        match value {
            OneOf4::First(value) => A::tag_of(value),
            OneOf4::Second(value) => B::tag_of(value),
            OneOf4::Third(value) => C::tag_of(value),
            OneOf4::Fourth(value) => D::tag_of(value),
        }
    }

    #[inline(always)]
    fn len_by(key: usize, value: &Self::Value) -> Option<usize> {
        match value {
            OneOf4::First(value) => {
                if !A::has_format(key) {
                    return None;
                }
                A::len_by(key, value)
            }
            OneOf4::Second(value) => {
                if A::has_format(key) || !B::has_format(key) {
                    return None;
                }
                B::len_by(key, value)
            }
            OneOf4::Third(value) => {
                if A::has_format(key) || B::has_format(key) || !C::has_format(key) {
                    return None;
                }
                C::len_by(key, value)
            }
            OneOf4::Fourth(value) => {
                if A::has_format(key) || B::has_format(key) || C::has_format(key) {
                    return None;
                }
                D::len_by(key, value)
            }
        }
    }

    #[inline(always)]
    fn put_by<Into: OctetsBuilder + Truncate>(
        key: usize,
        builder: &mut Into,
        value: &Self::Value,
    ) -> Result<(), AllocError> {
        match value {
            OneOf4::First(value) => A::put_by(key, builder, value),
            OneOf4::Second(value) => B::put_by(key, builder, value),
            OneOf4::Third(value) => C::put_by(key, builder, value),
            OneOf4::Fourth(value) => D::put_by(key, builder, value),
        }
    }

    ghost onward = { onward_either A.covers A.is_at (IsEither B.covers B.is_at (IsEither C.covers C.is_at D.is_at))
        A.onward (onward_either B.covers B.is_at (IsEither C.covers C.is_at D.is_at) B.onward (onward_either C.covers
        C.is_at D.is_at C.onward D.onward)) };

    ghost read_back = { either_read_back A.covers A.read_back (either_read_back B.covers B.read_back (either_read_back
        C.covers C.read_back D.read_back)) };

    ghost delimited = { λ yes. delimited_either A.covers (A.delimited (A.SelfDelimiting.both yes).0) (delimited_either
        B.covers (B.delimited (B.SelfDelimiting.both ((A.SelfDelimiting.both yes).1)).0)
        (delimited_either C.covers (C.delimited
        (C.SelfDelimiting.both ((B.SelfDelimiting.both ((A.SelfDelimiting.both yes).1)).1)).0)
        (D.delimited ((C.SelfDelimiting.both
        ((B.SelfDelimiting.both ((A.SelfDelimiting.both yes).1)).1)).1)))) };

    ghost canonical = { λ yes key. not_one_way yes };

    ghost told = { λ yes key said fits. not_so yes };
}

/// One of five values.
#[derive(Clone, Copy, Debug, PartialEq, Eq, Drop)]
pub enum OneOf5<A, B, C, D, E> {
    /// The value of the first family.
    First(A),
    /// The value of the second family.
    Second(B),
    /// The value of the third family.
    Third(C),
    /// The value of the fourth family.
    Fourth(D),
    /// The value of the fifth family.
    Fifth(E),
}

impl<A: TellsKey, B: TellsKey, C: TellsKey, D: TellsKey, E: TellsKey> TellsKey
    for (A, B, C, D, E) {}

impl<
    R: AsOctets + Copy,
    A: Family<R>,
    B: Family<R>,
    C: Family<R>,
    D: Family<R>,
    E: Family<R>,
> Family<R> for (A, B, C, D, E)
where
    D::SelfDelimiting: And<E::SelfDelimiting>,
    C::SelfDelimiting: And<<D::SelfDelimiting as And<E::SelfDelimiting>>::Joined>,
    B::SelfDelimiting: And<
        <C::SelfDelimiting as And<<D::SelfDelimiting as And<E::SelfDelimiting>>::Joined>>::Joined,
    >,
    A::SelfDelimiting: And<
        <B::SelfDelimiting as And<
            <C::SelfDelimiting as And<
                <D::SelfDelimiting as And<E::SelfDelimiting>>::Joined,
            >>::Joined,
        >>::Joined,
    >,
{
    ghost use Rattle.octseq_format.specs.OneOf.{one_of_5};

    type Value = OneOf5<A::Value, B::Value, C::Value, D::Value, E::Value>;

    type SelfDelimiting = <A::SelfDelimiting as And<
        <B::SelfDelimiting as And<
            <C::SelfDelimiting as And<
                <D::SelfDelimiting as And<E::SelfDelimiting>>::Joined,
            >>::Joined,
        >>::Joined,
    >>::Joined;

    ghost Found = { A.Found ⊎ (B.Found ⊎ (C.Found ⊎ (D.Found ⊎ E.Found))) };

    ghost found = { one_of_5 A.found B.found C.found D.found E.found };

    ghost covers = { λ key. A.covers key ⊎ (B.covers key ⊎ (C.covers key ⊎ (D.covers key ⊎ E.covers key))) };

    ghost is_at = { IsEither A.covers A.is_at (IsEither B.covers B.is_at (IsEither C.covers C.is_at (IsEither D.covers
        D.is_at E.is_at))) };

    ghost Said = { A.Said ⊎ (B.Said ⊎ (C.Said ⊎ (D.Said ⊎ E.Said))) };

    ghost says = { either_says A.says (either_says B.says (either_says C.says (either_says D.says E.says))) };

    ghost tag = { either_number A.tag (either_number B.tag (either_number C.tag (either_number D.tag E.tag))) };

    ghost octets = { either_octets A.octets (either_octets B.octets (either_octets C.octets (either_octets D.octets
        E.octets))) };

    ghost fits = { EitherFits A.covers A.fits (EitherFits B.covers B.fits (EitherFits C.covers C.fits (EitherFits
        D.covers D.fits E.fits))) };

    ghost one = { one_either A.covers A.is_at (IsEither B.covers B.is_at (IsEither C.covers C.is_at (IsEither D.covers
        D.is_at E.is_at))) A.one (one_either B.covers B.is_at (IsEither C.covers C.is_at (IsEither D.covers D.is_at
        E.is_at)) B.one (one_either C.covers C.is_at (IsEither D.covers D.is_at E.is_at) C.one (one_either D.covers
        D.is_at E.is_at D.one E.one))) };

    ghost found_code = { coded⊎ A.found_code (coded⊎ B.found_code (coded⊎ C.found_code (coded⊎ D.found_code
        E.found_code))) };

    ghost turns_of = { either_number A.turns_of (either_number B.turns_of (either_number C.turns_of (either_number
        D.turns_of E.turns_of))) };

    ghost base = { A.base + (B.base + (C.base + (D.base + E.base))) };

    ghost rate = { A.rate + (B.rate + (C.rate + (D.rate + E.rate))) };

    ghost stops = { λ key. StopsBy (A.covers key) (A.stops key) (StopsBy (B.covers key) (B.stops key) (StopsBy (C.covers
        key) (C.stops key) (StopsBy (D.covers key) (D.stops key) (E.stops key)))) };

    ghost one_way = { false };

    #[inline(always)]
    fn has_format(key: usize) -> bool {
        <(A, (B, C, D, E)) as Family<R>>::has_format(key)
    }

    #[inline(always)]
    fn parse_by(
        key: usize,
        parser: &mut Parser<R>,
        turns: &mut Turns,
    ) -> Result<Self::Value, Malformed> {
        match <(A, (B, C, D, E)) as Family<R>>::parse_by(key, parser, turns) {
            Ok(OneOf2::First(value)) => Ok(OneOf5::First(value)),
            Ok(OneOf2::Second(OneOf4::First(value))) => Ok(OneOf5::Second(value)),
            Ok(OneOf2::Second(OneOf4::Second(value))) => Ok(OneOf5::Third(value)),
            Ok(OneOf2::Second(OneOf4::Third(value))) => Ok(OneOf5::Fourth(value)),
            Ok(OneOf2::Second(OneOf4::Fourth(value))) => Ok(OneOf5::Fifth(value)),
            Err(e) => Err(e),
        }
    }

    fn fault_by(key: usize, parser: &Parser<R>) -> usize {
        <(A, (B, C, D, E)) as Family<R>>::fault_by(key, parser)
    }

    #[inline(always)]
    fn is_unique() -> bool {
        false
    }

    #[inline(always)]
    fn tag_of(value: &Self::Value) -> Option<usize> {
        match value {
            OneOf5::First(value) => A::tag_of(value),
            OneOf5::Second(value) => B::tag_of(value),
            OneOf5::Third(value) => C::tag_of(value),
            OneOf5::Fourth(value) => D::tag_of(value),
            OneOf5::Fifth(value) => E::tag_of(value),
        }
    }

    #[inline(always)]
    fn len_by(key: usize, value: &Self::Value) -> Option<usize> {
        match value {
            OneOf5::First(value) => {
                if !A::has_format(key) {
                    return None;
                }
                A::len_by(key, value)
            }
            OneOf5::Second(value) => {
                if A::has_format(key) || !B::has_format(key) {
                    return None;
                }
                B::len_by(key, value)
            }
            OneOf5::Third(value) => {
                if A::has_format(key) || B::has_format(key) || !C::has_format(key) {
                    return None;
                }
                C::len_by(key, value)
            }
            OneOf5::Fourth(value) => {
                if A::has_format(key)
                    || B::has_format(key)
                    || C::has_format(key)
                    || !D::has_format(key)
                {
                    return None;
                }
                D::len_by(key, value)
            }
            OneOf5::Fifth(value) => {
                if A::has_format(key)
                    || B::has_format(key)
                    || C::has_format(key)
                    || D::has_format(key)
                {
                    return None;
                }
                E::len_by(key, value)
            }
        }
    }

    #[inline(always)]
    fn put_by<Into: OctetsBuilder + Truncate>(
        key: usize,
        builder: &mut Into,
        value: &Self::Value,
    ) -> Result<(), AllocError> {
        match value {
            OneOf5::First(value) => A::put_by(key, builder, value),
            OneOf5::Second(value) => B::put_by(key, builder, value),
            OneOf5::Third(value) => C::put_by(key, builder, value),
            OneOf5::Fourth(value) => D::put_by(key, builder, value),
            OneOf5::Fifth(value) => E::put_by(key, builder, value),
        }
    }

    ghost onward = { onward_either A.covers A.is_at (IsEither B.covers B.is_at (IsEither C.covers C.is_at (IsEither
        D.covers D.is_at E.is_at))) A.onward (onward_either B.covers B.is_at (IsEither C.covers C.is_at (IsEither
        D.covers D.is_at E.is_at)) B.onward (onward_either C.covers C.is_at (IsEither D.covers D.is_at E.is_at) C.onward
        (onward_either D.covers D.is_at E.is_at D.onward E.onward))) };

    ghost read_back = { either_read_back A.covers A.read_back (either_read_back B.covers B.read_back (either_read_back
        C.covers C.read_back (either_read_back D.covers D.read_back E.read_back))) };

    ghost delimited = { λ yes. delimited_either A.covers (A.delimited (A.SelfDelimiting.both yes).0) (delimited_either
        B.covers (B.delimited (B.SelfDelimiting.both ((A.SelfDelimiting.both yes).1)).0)
        (delimited_either C.covers (C.delimited
        (C.SelfDelimiting.both ((B.SelfDelimiting.both ((A.SelfDelimiting.both yes).1)).1)).0)
        (delimited_either D.covers (D.delimited
        (D.SelfDelimiting.both
        ((C.SelfDelimiting.both ((B.SelfDelimiting.both ((A.SelfDelimiting.both yes).1)).1)).1)).0) (E.delimited
        ((D.SelfDelimiting.both
        ((C.SelfDelimiting.both ((B.SelfDelimiting.both ((A.SelfDelimiting.both yes).1)).1)).1)).1))))) };

    ghost canonical = { λ yes key. not_one_way yes };

    ghost told = { λ yes key said fits. not_so yes };
}
