//! A number, followed by what it decides.
ghost use Rattle.std.specs.Prelude.{◌&&◌};
ghost use Rattle.octseq_format.specs.Tagged.{Tagged, tagged_octets, TaggedFits, one_tagged, onward_tagged};
ghost use Rattle.octseq_format.specs.Tagged.{tagged_read_back, delimited_tagged, canonical_told};
ghost use Rattle.octseq_format.specs.Stop.{StopsThen, stops_here};

use crate::answer::Yes;
use crate::family::{Family, TellsKey};
use crate::format::Format;
use crate::number::Number;
use octseq::{AsOctets, Malformed, OctetsBuilder, Parser, Truncate, Turns};
use std::alloc::AllocError;
use std::marker::PhantomData;

/// A number, a tag, a length or a count, followed by the value that `F` has for it. The value tells the number.
#[derive(Debug)]
pub struct Tagged<N, F> {
    number: PhantomData<N>,
    family: PhantomData<F>,
}

impl<R: AsOctets + Copy, N: Number, F: Family<R> + TellsKey> Format<R> for Tagged<N, F> {
    type Value = F::Value;

    type SelfDelimiting = F::SelfDelimiting;

    type NonEmpty = Yes;

    ghost Found = { F.Found };

    ghost found = { F.found };

    ghost is_at = { Tagged N.is_at F.is_at };

    ghost Said = { F.Said };

    ghost says = { F.says };

    ghost octets = { tagged_octets N.octets F.tag F.octets };

    ghost fits = { TaggedFits N.fits F.tag F.fits };

    ghost one = { one_tagged N.one F.one };

    ghost found_code = { F.found_code };

    ghost least = { N.least };

    ghost turns_of = { F.turns_of };

    ghost base = { F.base };

    ghost rate = { F.rate };

    ghost key = { λ _. 0 };

    ghost stops = { StopsThen N.is_at stops_here F.stops };

    ghost one_way = { N.one_way && F.one_way };

    #[inline(always)]
    fn parse_counted(parser: &mut Parser<R>, turns: &mut Turns) -> Result<F::Value, Malformed> {
        let mut ahead = *parser;
        let number = N::parse_number(&mut ahead)?;
        let value = F::parse_by(number, &mut ahead, turns)?;
        *parser = ahead;
        Ok(value)
    }

    #[tactic(auto, using(crate::specs::Stop::at_first, crate::specs::Stop::at_second))]
    fn fault(parser: &Parser<R>) -> usize {
        let mut ahead = *parser;
        match N::parse_number(&mut ahead) {
            Err(_) => parser.pos(),
            Ok(number) => F::fault_by(number, &ahead),
        }
    }

    #[inline(always)]
    fn least_len() -> usize {
        N::least_octets()
    }

    #[inline(always)]
    fn key_of(_value: &F::Value) -> usize {
        0
    }

    #[inline(always)]
    fn is_canonical() -> bool {
        N::is_unique() && F::is_unique()
    }

    #[inline(always)]
    #[tactic(auto, using(crate::specs::Tagged::tagged_long))]
    fn compose_len(value: &F::Value) -> Option<usize> {
        let (number, len) = F::told_len(value)?;
        N::number_len(number)?.checked_add(len)
    }

    #[inline(always)]
    #[tactic(auto, using(crate::specs::Tagged::tagged_long))]
    fn put<B: OctetsBuilder + Truncate>(
        builder: &mut B,
        value: &F::Value,
    ) -> Result<(), AllocError> {
        let Some(number) = F::tag_of(value) else {
            return Err(AllocError);
        };
        let before = builder.len();
        N::put_number(builder, number)?;
        let appended = F::put_by(number, builder, value);
        if appended.is_err() {
            builder.truncate(before);
        }
        appended
    }

    ghost onward = { onward_tagged N.onward F.onward };

    ghost read_back = { tagged_read_back N.delimited F.read_back };

    ghost delimited = { λ yes. delimited_tagged N.delimited (F.delimited yes) };

    ghost moving = { λ _. N.moving };

    ghost canonical = { canonical_told N.canonical F.canonical F.told };
}
