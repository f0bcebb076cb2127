//! Optional parameters: RFC 4271, 4.2, and RFC 9072, 2.
ghost use Rattle.std.specs.Prelude.{◌≡◌, ◌+◌, ◌≤◌, ℕ, List, IsErr, IfOk, ⊤};
ghost use Rattle.octseq.specs.Parser.{window};
ghost use Rattle.octseq.specs.Window.{Window as ParserWindow, left};
ghost use Rattle.octseq_format.specs.Row.{Holds, held_once};
ghost use Rattle.octseq_bgp.specs.Fills.{Counts, Fills, TakesFirst};
ghost use Rattle.octseq_bgp.specs.OneParts.{one_tlv, prefix_code};
ghost use Rattle.octseq_bgp.specs.Open.{length_octets};
ghost use Rattle.octseq_bgp.specs.Parts.{IsTlv};

use crate::list::{count_all, take_first};
use octseq::{AsOctets, Malformed, Parser, Turns};
use octseq_format::{Counted, Nested, U8, U16Be};
use std::alloc::AllocError;

/// An optional parameter, where it was read.
#[derive(Debug)]
pub struct Parameter<R: AsOctets> {
    /// The type.
    pub kind: u8,
    /// The octets, as a parser.
    pub value: Parser<R>,
}

impl<R: AsOctets + Copy> Copy for Parameter<R> {}

impl<R: AsOctets + Copy> Clone for Parameter<R> {
    ghost is_clone = { λ parameter copy. copy ≡ parameter };

    ghost is_infallible = { λ _. ⊤ };

    fn clone(&self) -> Result<Self, AllocError> {
        Ok(*self)
    }
}

/// A type, and octets after their length.
pub(crate) type ShortParameter = (U8, Counted<U8, Nested, 0>);

/// The same, with a length of two octets.
pub(crate) type LongParameter = (U8, Counted<U16Be, Nested, 0>);

/// An iterator over optional parameters.
#[derive(Debug)]
pub struct Parameters<R: AsOctets> {
    parser: Parser<R>,
    left: usize,
    long: bool,
    ghost ahead: { Holds (IsTlv (length_octets long)) (window parser) left } by { held_once prefix_code
        (IsTlv (length_octets long)) (one_tlv (length_octets long)) (window parser) left },
}

impl<R: AsOctets + Copy> Copy for Parameters<R> {}

impl<R: AsOctets + Copy> Clone for Parameters<R> {
    ghost is_clone = { λ parameters copy. copy ≡ parameters };

    ghost is_infallible = { λ _. ⊤ };

    fn clone(&self) -> Result<Self, AllocError> {
        Ok(*self)
    }
}

/// Returns how many parameters fill what a parser has left, and counts a turn for each.
fn count_parameters<R: AsOctets + Copy>(
    parser: Parser<R>,
    long: bool,
    turns: &mut Turns,
) -> Result<usize, Malformed>
    ensures counts { Counts (IsTlv (length_octets long)) (window parser) result }
    ensures some { turns.old ≤ turns.new }
    ensures least { IfOk result (λ count. turns.old + count ≤ turns.new) }
    ensures turns { turns.new ≤ turns.old + left (window parser) }
{
    if long {
        count_all::<R, LongParameter>(parser, turns)
    } else {
        count_all::<R, ShortParameter>(parser, turns)
    }
}

/// Reads the first of the parameters that are known to be there. Returns it, and a parser past it.
fn take_parameter<R: AsOctets + Copy>(
    parser: Parser<R>,
    left: usize,
    long: bool,
) -> Option<((u8, Parser<R>), Parser<R>)>
    requires { Holds (IsTlv (length_octets long)) (window parser) left }
    ensures { TakesFirst (IsTlv (length_octets long)) (λ it. (it.0, window it.1)) (λ after. window after)
        (window parser) left result }
{
    if long {
        take_first::<R, LongParameter>(parser, left)
    } else {
        take_first::<R, ShortParameter>(parser, left)
    }
}

impl<R: AsOctets + Copy> Parameters<R> {
    ghost use Rattle.std.specs.Prelude.{length};
    ghost use Rattle.octseq_bgp.specs.Lists.{parameters_left};

    /// Reads all that a parser has left as parameters, with lengths of two octets or of one, and counts a turn for
    /// each.
    ///
    /// # Errors
    ///
    /// `Malformed` if parameters don't fill it exactly.
    pub(crate) fn parse_counted(
        parser: Parser<R>,
        long: bool,
        turns: &mut Turns,
    ) -> Result<Parameters<R>, Malformed>
        ensures parameters { IfOk result (λ parameters.
            Fills (IsTlv (length_octets long)) (window parser) (parameters_left parameters)) }
        ensures malformed { IsErr result → (row : List (ℕ × ParserWindow))
            → ¬ Fills (IsTlv (length_octets long)) (window parser) row }
        ensures some { turns.old ≤ turns.new }
        ensures least { IfOk result (λ parameters. turns.old + length (parameters_left parameters) ≤ turns.new) }
        ensures turns { turns.new ≤ turns.old + left (window parser) }
    {
        let left = count_parameters(parser, long, turns)?;
        Ok(Parameters { parser, left, long })
    }

    /// Returns the number of parameters that are left.
    pub fn len(&self) -> usize
        ensures { result ≡ length (parameters_left self.now) }
    {
        self.left
    }
}

impl<R: AsOctets + Copy> Iterator for Parameters<R> {
    ghost use Rattle.std.specs.Iterator.{YieldsFirstBy, item_count};
    ghost use Rattle.octseq_bgp.specs.Lists.{parameter_of, parameters_left};

    type Item = Parameter<R>;

    ghost next_gives = { YieldsFirstBy parameter_of parameters_left };

    ghost remaining = { item_count parameters_left };

    fn next(&mut self) -> Option<Parameter<R>> {
        let long = self.long;
        let Some(first) = take_parameter(self.parser, self.left, long) else {
            return None;
        };
        let ((kind, value), parser) = first;
        *self = Parameters {
            parser,
            left: self.left - 1,
            long,
        };
        Some(Parameter { kind, value: value })
    }
}
