//! Octets up to the first zero.
ghost use Rattle.std.specs.Prelude.{◌≡◌, ◌≤◌, ℕ, List, length, IfSome, IsNone, false};
ghost use Rattle.std.proofs.Common.{rules};
ghost use Rattle.octseq.specs.Window.{Window as ParserWindow, rest};
ghost use Rattle.octseq_format.specs.Ended.{EndsAtZero, HasNoZero, IsEnded, ended_octets, one_ended, onward_ended};
ghost use Rattle.octseq_format.specs.Ended.{delimited_ended, ended_read_back};
ghost use Rattle.octseq_format.specs.Canonical.{not_one_way};
ghost use Rattle.octseq_format.specs.WindowOf.{window_of};
ghost use Rattle.octseq_format.specs.Rest.{window_code};
ghost use Rattle.octseq_format.specs.Stop.{stops_here};

use crate::answer::Yes;
use crate::format::Format;
use crate::window::Window;
use memchr::memchr;
use octseq::{AsOctets, Malformed, OctetsBuilder, Parser, Truncate, Turns};
use std::alloc::AllocError;

/// Returns the index of the first zero.
fn first_zero(octets: &[u8]) -> Option<usize>
    ensures some { IfSome result (λ n. EndsAtZero octets.now n) }
    ensures none { IsNone result → HasNoZero octets.now }
{
    memchr(0, octets)
}

/// The octets before the first zero, as a window of them alone. What comes next is after the zero.
#[derive(Debug)]
pub struct ZeroEnded;

impl<R: AsOctets + Copy> Format<R> for ZeroEnded {
    type Value = Window<R>;

    type SelfDelimiting = Yes;

    type NonEmpty = Yes;

    ghost Found = { ParserWindow };

    ghost found = { λ window. window_of window };

    ghost is_at = { IsEnded };

    ghost Said = { List ℕ };

    ghost says = { rest };

    ghost octets = { ended_octets };

    ghost fits = { HasNoZero };

    ghost one = { one_ended };

    ghost found_code = { window_code };

    ghost least = { 1 };

    ghost turns_of = { λ _. 1 };

    ghost base = { 1 };

    ghost rate = { 0 };

    ghost key = { λ _. 0 };

    ghost stops = { stops_here };

    #[inline(always)]
    fn parse_counted(parser: &mut Parser<R>, turns: &mut Turns) -> Result<Window<R>, Malformed> {
        turns.tick();
        let mut ahead = *parser;
        let Some(len) = first_zero(ahead.peek_all()) else {
            return Err(Malformed);
        };
        let before = ahead.parse_parser(len)?;
        ahead.advance(1)?;
        *parser = ahead;
        Ok(Window::from_parser(before))
    }

    fn fault(parser: &Parser<R>) -> usize {
        parser.pos()
    }

    #[inline(always)]
    fn least_len() -> usize {
        1
    }

    #[inline(always)]
    fn key_of(_value: &Self::Value) -> usize {
        0
    }

    #[inline(always)]
    fn is_canonical() -> bool {
        false
    }

    #[inline(always)]
    fn compose_len(value: &Window<R>) -> Option<usize> {
        let octets = value.as_slice();
        if first_zero(octets).is_some() {
            return None;
        }
        octets.len().checked_add(1)
    }

    #[inline(always)]
    fn put<B: OctetsBuilder + Truncate>(
        builder: &mut B,
        value: &Window<R>,
    ) -> Result<(), AllocError> {
        let before = builder.len();
        builder
            .append_slice(value.as_slice())
            .map_err(|_| AllocError)?;
        let appended = builder.append_slice(&[0]);
        if appended.is_err() {
            builder.truncate(before);
        }
        appended.map_err(|_| AllocError)
    }

    ghost one_way = { false };

    ghost canonical = { not_one_way };

    ghost onward = { onward_ended };

    ghost read_back = { ended_read_back };

    ghost delimited = { λ _. delimited_ended };

    ghost moving = { λ _. Prim.search rules };
}
