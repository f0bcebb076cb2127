//! The octets that are left, to be read further.
ghost use Rattle.std.specs.Prelude.{ℕ, List, true};
ghost use Rattle.octseq.specs.Parser.{window};
ghost use Rattle.octseq.specs.Window.{Window, rest};
ghost use Rattle.octseq_format.specs.Answer.{not_so};
ghost use Rattle.octseq_format.specs.Rest.{IsRest, window_code, one_rest, onward_rest, rest_read_back};
ghost use Rattle.octseq_format.specs.Rest.{canonical_rest};
ghost use Rattle.octseq_format.specs.Stop.{stops_here};

use crate::answer::No;
use crate::format::Format;
use octseq::{AsOctets, Malformed, OctetsBuilder, Parser, Truncate, Turns};
use std::alloc::AllocError;

/// All octets up to the end of the window, as a parser of them alone, which reads them further.
#[derive(Debug)]
pub struct Nested;

impl<R: AsOctets + Copy> Format<R> for Nested {
    type Value = Parser<R>;

    type SelfDelimiting = No;

    type NonEmpty = No;

    ghost Found = { Window };

    ghost found = { λ parser. window parser };

    ghost is_at = { IsRest };

    ghost Said = { List ℕ };

    ghost says = { rest };

    ghost octets = { λ octets. octets };

    ghost fits = { λ _. Unit {0} };

    ghost one = { one_rest };

    ghost found_code = { window_code };

    ghost least = { 0 };

    ghost turns_of = { λ _. 0 };

    ghost base = { 0 };

    ghost rate = { 0 };

    ghost key = { λ _. 0 };

    ghost stops = { stops_here };

    #[inline(always)]
    fn parse_counted(parser: &mut Parser<R>, _turns: &mut Turns) -> Result<Parser<R>, Malformed> {
        let len = parser.remaining();
        Ok(parser.parse_parser(len)?)
    }

    // (it is always there)
    fn fault(parser: &Parser<R>) -> usize
        ensures { stops_here (window parser.now) result }
    {
        parser.pos()
    }

    #[inline(always)]
    fn least_len() -> usize {
        0
    }

    #[inline(always)]
    fn key_of(_value: &Self::Value) -> usize {
        0
    }

    #[inline(always)]
    fn is_canonical() -> bool {
        true
    }

    #[inline(always)]
    fn compose_len(value: &Parser<R>) -> Option<usize> {
        Some(value.remaining())
    }

    #[inline(always)]
    fn put<B: OctetsBuilder + Truncate>(
        builder: &mut B,
        value: &Parser<R>,
    ) -> Result<(), AllocError> {
        builder
            .append_slice(value.peek_all())
            .map_err(|_| AllocError)
    }

    ghost one_way = { true };

    ghost canonical = { λ _. canonical_rest };

    ghost onward = { onward_rest };

    ghost read_back = { rest_read_back };

    ghost delimited = { not_so };

    ghost moving = { not_so };
}
