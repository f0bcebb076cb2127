//! Capabilities: RFC 5492.
ghost use Rattle.std.specs.Prelude.{◌≡◌, ◌+◌, ◌≤◌, ℕ, List, length, IsErr, IfOk, ⊤};
ghost use Rattle.octseq.specs.Parser.{window};
ghost use Rattle.octseq.specs.Window.{left};
ghost use Rattle.octseq.specs.Window.{Window};
ghost use Rattle.octseq_format.specs.Row.{Holds, held_once};
ghost use Rattle.octseq_bgp.specs.Fills.{Fills};
ghost use Rattle.octseq_bgp.specs.OneParts.{one_tlv, prefix_code};
ghost use Rattle.octseq_bgp.specs.Parts.{IsTlv};

mod capability_type;
mod compose;
mod family_tuple;
mod value;

use crate::list::{count_all, take_first};
use crate::message::Parameter;
pub use capability_type::CapabilityType;
pub use compose::{ComposeCapability, NewCapability};
pub use family_tuple::FamilyTuple;
use octseq::{AsOctets, Malformed, Parser, Turns};
use octseq_format::{Counted, Nested, U8};
use std::alloc::AllocError;
pub use value::{CapabilityValue, GracefulRestart};

/// A capability, where it was read.
#[derive(Debug)]
pub struct Capability<R: AsOctets> {
    /// The code.
    pub code: u8,
    /// The octets, as a parser.
    pub octets: Parser<R>,
}

impl<R: AsOctets + Copy> Copy for Capability<R> {}

impl<R: AsOctets + Copy> Clone for Capability<R> {
    ghost is_clone = { λ capability copy. copy ≡ capability };

    ghost is_infallible = { λ _. ⊤ };

    fn clone(&self) -> Result<Self, AllocError> {
        Ok(*self)
    }
}

/// A code, and octets after their length.
type CapabilityFormat = (U8, Counted<U8, Nested, 0>);

/// An iterator over the capabilities of a parameter.
#[derive(Debug)]
pub struct Capabilities<R: AsOctets> {
    parser: Parser<R>,
    left: usize,
    ghost ahead: { Holds (IsTlv 1) (window parser) left } by { held_once prefix_code (IsTlv 1)
        (one_tlv 1) (window parser) left },
}

impl<R: AsOctets + Copy> Copy for Capabilities<R> {}

impl<R: AsOctets + Copy> Clone for Capabilities<R> {
    ghost is_clone = { λ capabilities copy. copy ≡ capabilities };

    ghost is_infallible = { λ _. ⊤ };

    fn clone(&self) -> Result<Self, AllocError> {
        Ok(*self)
    }
}

impl<R: AsOctets + Copy> Capabilities<R> {
    ghost use Rattle.octseq_bgp.specs.CapabilityOf.{capabilities_left};

    /// Reads all that a parser has left as capabilities, and counts a turn for each.
    ///
    /// # Errors
    ///
    /// `Malformed` if capabilities don't fill it exactly.
    pub(crate) fn parse_counted(
        parser: Parser<R>,
        turns: &mut Turns,
    ) -> Result<Capabilities<R>, Malformed>
        ensures capabilities { IfOk result (λ it. Fills (IsTlv 1) (window parser) (capabilities_left it)) }
        ensures malformed { IsErr result → (row : List (ℕ × Window)) → ¬ Fills (IsTlv 1) (window parser) row }
        ensures some { turns.old ≤ turns.new }
        ensures least { IfOk result (λ it. turns.old + length (capabilities_left it) ≤ turns.new) }
        ensures turns { turns.new ≤ turns.old + left (window parser) }
    {
        let left = count_all::<R, CapabilityFormat>(parser, turns)?;
        Ok(Capabilities { parser, left })
    }
}

impl<R: AsOctets + Copy> Iterator for Capabilities<R> {
    ghost use Rattle.std.specs.Iterator.{YieldsFirstBy, item_count};
    ghost use Rattle.octseq_bgp.specs.CapabilityOf.{capability_of, capabilities_left};

    type Item = Capability<R>;

    ghost next_gives = { YieldsFirstBy capability_of capabilities_left };

    ghost remaining = { item_count capabilities_left };

    fn next(&mut self) -> Option<Capability<R>> {
        let Some(first) = take_first::<R, CapabilityFormat>(self.parser, self.left) else {
            return None;
        };
        let ((code, octets), parser) = first;
        *self = Capabilities {
            parser,
            left: self.left - 1,
        };
        Some(Capability { code, octets })
    }
}

/// The value of an optional parameter.
#[derive(Debug)]
pub enum ParameterValue<R: AsOctets> {
    /// Capabilities: a parameter of type 2.
    Capabilities(Capabilities<R>),
    /// Octets of another type, or that capabilities don't fill exactly, as a parser.
    Opaque(Parser<R>),
}

impl<R: AsOctets + Copy> Copy for ParameterValue<R> {}

impl<R: AsOctets + Copy> Clone for ParameterValue<R> {
    ghost is_clone = { λ value copy. copy ≡ value };

    ghost is_infallible = { λ _. ⊤ };

    fn clone(&self) -> Result<Self, AllocError> {
        Ok(*self)
    }
}

impl<R: AsOctets + Copy> Parameter<R> {
    ghost use Rattle.octseq_bgp.specs.CapabilityOf.{parameter_value_of};
    ghost use Rattle.octseq_bgp.specs.Capability.{IsParameterValue};
    ghost use Rattle.octseq_bgp.specs.ReadTurns.{parameter_turns};

    /// Returns the value: capabilities, or else opaque octets.
    pub fn value(&self) -> ParameterValue<R>
        ensures { IsParameterValue self.now.kind (window self.now.value) (parameter_value_of result) }
    {
        self.value_counted(&mut Turns::new())
    }

    /// Does the same, and counts a turn for each capability, at most one for each octet.
    pub fn value_counted(&self, turns: &mut Turns) -> ParameterValue<R>
        ensures value { IsParameterValue self.now.kind (window self.now.value) (parameter_value_of result) }
        ensures some { turns.old ≤ turns.new }
        ensures least { turns.old + parameter_turns (parameter_value_of result) ≤ turns.new }
        ensures turns { turns.new ≤ turns.old + left (window self.now.value) }
    {
        if self.kind != 2 {
            return ParameterValue::Opaque(self.value);
        }
        match Capabilities::parse_counted(self.value, turns) {
            Ok(capabilities) => ParameterValue::Capabilities(capabilities),
            Err(_) => ParameterValue::Opaque(self.value),
        }
    }
}
