//! Octets that are UTF-8.
ghost use Rattle.std.specs.Prelude.{ℕ, List, false};
ghost use Rattle.octseq.specs.Window.{Window as ParserWindow, rest};
ghost use Rattle.octseq_format.specs.WindowOf.{window_of};
ghost use Rattle.octseq_format.specs.Rest.{window_code};
ghost use Rattle.octseq_format.specs.Canonical.{not_one_way};
ghost use Rattle.octseq_format.specs.Text.{IsText, TextFits, one_text, onward_text, text_read_back};
ghost use Rattle.octseq_format.specs.Answer.{not_so};
ghost use Rattle.octseq_format.specs.Stop.{stops_here};

use crate::answer::No;
use crate::format::Format;
use crate::window::Window;
use octseq::utf8::{Turns, find_fault};
use octseq::{AsOctets, Malformed, OctetsBuilder, Parser, Truncate};
use std::alloc::AllocError;

/// All octets up to the end of the window, if they are well-formed UTF-8, as a window of them alone. They are known to
/// be UTF-8, so `Str::from_utf8_unchecked` makes a text of them without a second check.
#[derive(Debug)]
pub struct Text;

impl<R: AsOctets + Copy> Format<R> for Text {
    type Value = Window<R>;

    type SelfDelimiting = No;

    type NonEmpty = No;

    ghost Found = { ParserWindow };

    ghost found = { λ window. window_of window };

    ghost is_at = { IsText };

    ghost Said = { List ℕ };

    ghost says = { rest };

    ghost octets = { λ octets. octets };

    ghost fits = { TextFits };

    ghost one = { one_text };

    ghost found_code = { window_code };

    ghost least = { 0 };

    ghost turns_of = { λ _. 1 };

    ghost base = { 1 };

    ghost rate = { 0 };

    ghost key = { λ _. 0 };

    ghost stops = { stops_here };

    #[inline(always)]
    fn parse_counted(parser: &mut Parser<R>, turns: &mut Turns) -> Result<Window<R>, Malformed> {
        turns.tick();
        if find_fault(parser.peek_all()).is_some() {
            return Err(Malformed);
        }
        let len = parser.remaining();
        Ok(Window::from_parser(parser.parse_parser(len)?))
    }

    fn fault(parser: &Parser<R>) -> usize {
        parser.pos()
    }

    #[inline(always)]
    fn least_len() -> usize {
        0
    }

    #[inline(always)]
    fn key_of(_value: &Self::Value) -> usize {
        0
    }

    #[inline(always)]
    fn is_canonical() -> bool {
        false
    }

    #[inline(always)]
    fn compose_len(value: &Window<R>) -> Option<usize> {
        if find_fault(value.as_slice()).is_some() {
            return None;
        }
        Some(value.len())
    }

    #[inline(always)]
    fn put<B: OctetsBuilder + Truncate>(
        builder: &mut B,
        value: &Window<R>,
    ) -> Result<(), AllocError> {
        builder
            .append_slice(value.as_slice())
            .map_err(|_| AllocError)
    }

    ghost one_way = { false };

    ghost canonical = { not_one_way };

    ghost onward = { onward_text };

    ghost read_back = { text_read_back };

    ghost delimited = { not_so };

    ghost moving = { not_so };
}
