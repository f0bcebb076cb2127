//! Octets of a given form, as a part of data.
ghost use Rattle.std.specs.Prelude.{◌≡◌, ℕ, ◌+◌, ◌≤◌, List, IsErr, IfOk, false};
ghost use Rattle.octseq.specs.Parser.{window};
ghost use Rattle.octseq.specs.Window.{Window, left, rest};
ghost use Rattle.octseq_dns_data.specs.Formed.{IsFormed, FormedFits, one_formed, onward_formed, formed_read_back};
ghost use Rattle.octseq_format.specs.Answer.{not_so};
ghost use Rattle.octseq_format.specs.Canonical.{not_one_way};
ghost use Rattle.octseq_format.specs.Rest.{window_code};
ghost use Rattle.octseq_format.specs.Turns.{TakesTurns};
ghost use Rattle.octseq_format.specs.Stop.{stops_here};

use octseq::{AsOctets, Malformed, OctetsBuilder, Parser, Truncate, Turns};
use octseq_format::{Format, No};
use std::alloc::AllocError;
use std::marker::PhantomData;

/// Octets of a given form, and where they are.
pub trait FormedOctets<R: AsOctets + Copy>: Copy + Drop {
    // The form.
    ghost has_form: { List ℕ → Type 0 };

    // Where they are.
    ghost place: { Self → Window };

    // The minimum number of loop turns of the check.
    ghost turns_of: { List ℕ → ℕ };

    // The maximum number of loop turns of the check for each octet, and the maximum besides.
    ghost rate: { ℕ };

    /// Reads all octets that a parser has left, and counts the loop turns of the check.
    ///
    /// # Errors
    ///
    /// `Malformed` if they don't have the form.
    fn from_parser(parser: &Parser<R>, turns: &mut Turns) -> Result<Self, Malformed>
        ensures value { IfOk result (λ formed. place formed ≡ window parser.now) }
        ensures malformed { IsErr result → ¬ has_form (rest (window parser.now)) }
        ensures counted { IfOk result (λ _. turns.old + turns_of (rest (window parser.now)) ≤ turns.new) }
        ensures turns { TakesTurns rate rate (left (window parser.now)) turns.old turns.new };

    /// Returns a parser of the octets alone.
    fn parser(&self) -> Parser<R>
        ensures parser { window result ≡ place self.now }
        ensures form { has_form (rest (place self.now)) };
}

/// All octets up to the end of the window, if they have the form of `V`.
#[derive(Debug)]
pub struct Formed<V> {
    form: PhantomData<V>,
}

impl<R: AsOctets + Copy, V: FormedOctets<R>> Format<R> for Formed<V> {
    type Value = V;

    type SelfDelimiting = No;

    type NonEmpty = No;

    ghost Found = { Window };

    ghost found = { V.place };

    ghost is_at = { IsFormed V.has_form };

    ghost Said = { List ℕ };

    ghost says = { rest };

    ghost octets = { λ octets. octets };

    ghost fits = { FormedFits V.has_form };

    ghost one = { one_formed V.has_form };

    ghost found_code = { window_code };

    ghost least = { 0 };

    ghost turns_of = { λ place. V.turns_of (rest place) };

    ghost base = { V.rate };

    ghost rate = { V.rate };

    ghost key = { λ _. 0 };

    ghost stops = { stops_here };

    #[inline(always)]
    fn parse_counted(parser: &mut Parser<R>, turns: &mut Turns) -> Result<V, Malformed> {
        let formed = V::from_parser(parser, turns)?;
        // Its window is within the octets.
        let _inside = formed.parser();
        parser.advance_to_end();
        Ok(formed)
    }

    fn fault(parser: &Parser<R>) -> usize {
        parser.pos()
    }

    #[inline(always)]
    fn least_len() -> usize {
        0
    }

    #[inline(always)]
    fn key_of(_value: &Self::Value) -> usize {
        0
    }

    #[inline(always)]
    fn is_canonical() -> bool {
        false
    }

    #[inline(always)]
    fn compose_len(value: &V) -> Option<usize> {
        Some(value.parser().remaining())
    }

    #[inline(always)]
    fn put<B: OctetsBuilder + Truncate>(builder: &mut B, value: &V) -> Result<(), AllocError> {
        builder
            .append_slice(value.parser().peek_all())
            .map_err(|_| AllocError)
    }

    ghost one_way = { false };

    ghost canonical = { not_one_way };

    ghost onward = { onward_formed V.has_form };

    ghost read_back = { formed_read_back V.has_form };

    ghost delimited = { not_so };

    ghost moving = { not_so };
}
