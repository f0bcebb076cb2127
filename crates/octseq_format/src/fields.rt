//! Your own structs and enums.
ghost use Rattle.std.specs.Prelude.{◌≡◌};

use crate::format::Format;
use octseq::{AsOctets, Malformed, OctetsBuilder, Parser, Truncate, Turns};
use std::alloc::AllocError;
use std::marker::PhantomData;

/// A struct or an enum of your own, by the format of its fields.
pub trait Fields<R: AsOctets + Copy>: Drop {
    /// The format of the fields, such as a tuple.
    type Format: Format<R>;

    // The fields.
    ghost fields: { Self → Self.Format.Value };

    /// Makes a value of its fields.
    fn from_fields(parts: <Self::Format as Format<R>>::Value) -> Self
        ensures { fields result ≡ parts };

    /// Returns the fields.
    fn to_fields(&self) -> <Self::Format as Format<R>>::Value
        ensures { result ≡ fields self.now };
}

/// The format of a struct or an enum of your own, by its fields.
#[derive(Debug)]
pub struct Of<S> {
    whole: PhantomData<S>,
}

impl<R: AsOctets + Copy, S: Fields<R>> Format<R> for Of<S> {
    type Value = S;

    type SelfDelimiting = <S::Format as Format<R>>::SelfDelimiting;

    type NonEmpty = <S::Format as Format<R>>::NonEmpty;

    ghost Found = { S.Format.Found };

    ghost found = { λ s. S.Format.found (S.fields s) };

    ghost is_at = { S.Format.is_at };

    ghost Said = { S.Format.Said };

    ghost says = { S.Format.says };

    ghost octets = { S.Format.octets };

    ghost fits = { S.Format.fits };

    ghost one = { S.Format.one };

    ghost found_code = { S.Format.found_code };

    ghost least = { S.Format.least };

    ghost turns_of = { S.Format.turns_of };

    ghost base = { S.Format.base };

    ghost rate = { S.Format.rate };

    ghost key = { S.Format.key };

    ghost stops = { S.Format.stops };

    #[inline(always)]
    fn parse_counted(parser: &mut Parser<R>, turns: &mut Turns) -> Result<S, Malformed> {
        match S::Format::parse_counted(parser, turns) {
            Ok(parts) => Ok(S::from_fields(parts)),
            Err(e) => Err(e),
        }
    }

    fn fault(parser: &Parser<R>) -> usize {
        S::Format::fault(parser)
    }

    #[inline(always)]
    fn least_len() -> usize {
        S::Format::least_len()
    }

    #[inline(always)]
    fn key_of(value: &Self::Value) -> usize {
        S::Format::key_of(&value.to_fields())
    }

    #[inline(always)]
    fn is_canonical() -> bool {
        S::Format::is_canonical()
    }

    #[inline(always)]
    fn fixed_len() -> Option<usize> {
        S::Format::fixed_len()
    }

    #[inline(always)]
    fn compose_len(value: &S) -> Option<usize> {
        S::Format::compose_len(&value.to_fields())
    }

    #[inline(always)]
    fn put<B: OctetsBuilder + Truncate>(builder: &mut B, value: &S) -> Result<(), AllocError> {
        S::Format::put(builder, &value.to_fields())
    }

    ghost one_way = { S.Format.one_way };

    ghost canonical = { S.Format.canonical };

    ghost onward = { S.Format.onward };

    ghost read_back = { S.Format.read_back };

    ghost delimited = { S.Format.delimited };

    ghost moving = { S.Format.moving };
}
