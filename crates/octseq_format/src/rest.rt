//! The octets that are left.
ghost use Rattle.std.specs.Prelude.{ℕ, List, true};
ghost use Rattle.octseq.specs.Parser.{window};
ghost use Rattle.octseq.specs.Window.{Window as ParserWindow, rest};
ghost use Rattle.octseq_format.specs.Answer.{not_so};
ghost use Rattle.octseq_format.specs.WindowOf.{window_of};
ghost use Rattle.octseq_format.specs.Rest.{IsRest, window_code, one_rest, onward_rest, rest_read_back};
ghost use Rattle.octseq_format.specs.Rest.{canonical_rest};
ghost use Rattle.octseq_format.specs.Stop.{stops_here};

use crate::answer::No;
use crate::format::Format;
use crate::window::Window;
use octseq::{AsOctets, Malformed, OctetsBuilder, Parser, Truncate, Turns};
use std::alloc::AllocError;

/// All octets up to the end of the window, as a window of them alone.
#[derive(Debug)]
pub struct Rest;

impl<R: AsOctets + Copy> Format<R> for Rest {
    type Value = Window<R>;

    type SelfDelimiting = No;

    type NonEmpty = No;

    ghost Found = { ParserWindow };

    ghost found = { λ window. window_of window };

    ghost is_at = { IsRest };

    ghost Said = { List ℕ };

    ghost says = { rest };

    ghost octets = { λ octets. octets };

    ghost fits = { λ _. Unit {0} };

    ghost one = { one_rest };

    ghost found_code = { window_code };

    ghost least = { 0 };

    ghost turns_of = { λ _. 0 };

    ghost base = { 0 };

    ghost rate = { 0 };

    ghost key = { λ _. 0 };

    ghost stops = { stops_here };

    #[inline(always)]
    fn parse_counted(parser: &mut Parser<R>, _turns: &mut Turns) -> Result<Window<R>, Malformed> {
        let len = parser.remaining();
        Ok(Window::from_parser(parser.parse_parser(len)?))
    }

    // (it is always there)
    fn fault(parser: &Parser<R>) -> usize
        ensures { stops_here (window parser.now) result }
    {
        parser.pos()
    }

    #[inline(always)]
    fn least_len() -> usize {
        0
    }

    #[inline(always)]
    fn key_of(_value: &Self::Value) -> usize {
        0
    }

    #[inline(always)]
    fn is_canonical() -> bool {
        true
    }

    #[inline(always)]
    fn compose_len(value: &Window<R>) -> Option<usize> {
        Some(value.len())
    }

    #[inline(always)]
    fn put<B: OctetsBuilder + Truncate>(
        builder: &mut B,
        value: &Window<R>,
    ) -> Result<(), AllocError> {
        builder
            .append_slice(value.as_slice())
            .map_err(|_| AllocError)
    }

    ghost one_way = { true };

    ghost canonical = { λ _. canonical_rest };

    ghost onward = { onward_rest };

    ghost read_back = { rest_read_back };

    ghost delimited = { not_so };

    ghost moving = { not_so };
}
