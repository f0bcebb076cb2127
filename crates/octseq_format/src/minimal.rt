//! Numbers in the fewest octets.
ghost use Rattle.octseq_format.specs.Minimal.{IsMinimal, one_minimal, onward_minimal};
ghost use Rattle.octseq_format.specs.Minimal.{delimited_minimal, canonical_minimal};

use crate::number::Number;
use octseq::{AsOctets, Malformed, OctetsBuilder, Parser};
use std::alloc::AllocError;
use std::marker::PhantomData;

/// A number as `N` encodes it, in as many octets as `N` writes it in. An encoding of another length is refused:
/// `Minimal<CompactSize>`, or `Minimal<Leb128<4, 28>>` for a length of MQTT (5.0, 1.5.5).
#[derive(Debug)]
pub struct Minimal<N> {
    number: PhantomData<N>,
}

impl<N: Number> Number for Minimal<N> {
    ghost is_at = { IsMinimal N.is_at N.octets N.fits };

    ghost octets = { N.octets };

    ghost fits = { N.fits };

    ghost one = { one_minimal N.one };

    ghost least = { N.least };

    ghost one_way = { N.one_way };

    #[inline(always)]
    #[tactic(auto, using(crate::specs::Minimal::unfit_minimal, crate::specs::Minimal::longer_minimal))]
    fn parse_number<R: AsOctets>(parser: &mut Parser<R>) -> Result<usize, Malformed> {
        let before = parser.remaining();
        let position = parser.pos();
        let number = N::parse_number(parser)?;
        let taken = before - parser.remaining();
        let Some(len) = N::number_len(number) else {
            parser.seek(position)?;
            return Err(Malformed);
        };
        if len != taken {
            parser.seek(position)?;
            return Err(Malformed);
        }
        Ok(number)
    }

    #[inline(always)]
    fn least_octets() -> usize {
        N::least_octets()
    }

    #[inline(always)]
    fn is_unique() -> bool {
        N::is_unique()
    }

    #[inline(always)]
    fn number_len(number: usize) -> Option<usize> {
        N::number_len(number)
    }

    #[inline(always)]
    fn put_number<B: OctetsBuilder>(builder: &mut B, number: usize) -> Result<(), AllocError> {
        N::put_number(builder, number)
    }

    ghost onward = { onward_minimal N.onward };

    ghost moving = { N.moving };

    ghost small = { N.small };

    ghost delimited = { delimited_minimal N.delimited };

    ghost canonical = { λ yes. canonical_minimal (N.canonical yes) };
}
