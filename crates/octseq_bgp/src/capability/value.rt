//! The values of capabilities, by their code.
ghost use Rattle.std.specs.Prelude.{◌≡◌, ◌+◌, ◌≤◌, ◌↔◌, ℕ, List, length, IsTrue, IsErr, IfOk, OnOk, ⊤};
ghost use Rattle.octseq.specs.Parser.{window};
ghost use Rattle.octseq.specs.Window.{Window, left};
ghost use Rattle.octseq_bgp.specs.Capability as said;
ghost use Rattle.octseq_bgp.specs.Capability.{IsRestart, ArePaths, IsAddPath, HasCode, IsCoded, IsCapabilityValue};
ghost use Rattle.octseq_bgp.specs.Capability.{has_restarted, takes_notifications, restart_time};
ghost use Rattle.octseq_bgp.specs.CapabilityOf.{restart_of, capability_value_of};
ghost use Rattle.octseq_bgp.specs.Items.{items_left};
ghost use Rattle.octseq_bgp.specs.ReadTurns.{capability_turns};

use crate::attribute::{Asn, parse_nothing, parse_some};
use crate::capability::Capability;
use crate::capability::capability_type::CapabilityType;
use crate::capability::family_tuple::FamilyTuple;
use crate::item::Items;
use crate::whole::parse_all;
use octseq::{AsOctets, Malformed, Parser, Turns};
use octseq_format::{Nested, U8, U16Be, U32Be};
use std::alloc::AllocError;

/// Graceful restart: RFC 4724, 3.
#[derive(Debug)]
pub struct GracefulRestart<R: AsOctets> {
    /// Sixteen bits: `restarted`, `takes_notifications`, two reserved ones, and twelve of seconds.
    pub bits: u16,
    /// Address families with flags.
    pub families: Items<R, FamilyTuple>,
}

impl<R: AsOctets + Copy> Copy for GracefulRestart<R> {}

impl<R: AsOctets + Copy> Clone for GracefulRestart<R> {
    ghost is_clone = { λ restart copy. copy ≡ restart };

    ghost is_infallible = { λ _. ⊤ };

    fn clone(&self) -> Result<Self, AllocError> {
        Ok(*self)
    }
}

impl<R: AsOctets + Copy> GracefulRestart<R> {
    /// Reads all that a parser has left.
    fn parse(parser: Parser<R>) -> Result<GracefulRestart<R>, Malformed>
        ensures restart { IfOk result (λ it. IsRestart (window parser) (restart_of it)) }
        ensures malformed { IsErr result → (it : said.Restart) → ¬ IsRestart (window parser) it }
    {
        let (bits, rest) = parse_all::<R, (U16Be, Nested)>(parser)?;
        let families = Items::parse(rest)?;
        Ok(GracefulRestart { bits, families })
    }

    /// Whether the speaker has restarted: the first bit.
    pub fn restarted(&self) -> bool
        ensures { result ≡ has_restarted self.now.bits }
    {
        self.bits / 32768 == 1
    }

    /// Whether its routes survive a NOTIFICATION: the second bit (RFC 8538, 2).
    pub fn takes_notifications(&self) -> bool
        ensures { result ≡ takes_notifications self.now.bits }
    {
        self.bits / 16384 % 2 == 1
    }

    /// Returns how many seconds a restart may take: the last twelve bits.
    pub fn restart_time(&self) -> u16
        ensures { result ≡ restart_time self.now.bits }
    {
        self.bits % 4096
    }
}

/// The value of a capability.
#[derive(Debug)]
pub enum CapabilityValue<R: AsOctets> {
    /// An address family: its AFI, a reserved octet, and its SAFI.
    MultiProtocol(u16, u8, u8),
    /// Route refresh.
    RouteRefresh,
    /// Extended messages.
    ExtendedMessage,
    /// Graceful restart.
    GracefulRestart(GracefulRestart<R>),
    /// Four-octet AS numbers, with the sender's.
    FourOctetAsn(Asn),
    /// Address families with path ids.
    AddPath(Items<R, FamilyTuple>),
    /// Enhanced route refresh.
    EnhancedRouteRefresh,
    /// Octets without the form of their code, as a parser.
    Opaque(Parser<R>),
}

impl<R: AsOctets + Copy> Copy for CapabilityValue<R> {}

impl<R: AsOctets + Copy> Clone for CapabilityValue<R> {
    ghost is_clone = { λ value copy. copy ≡ value };

    ghost is_infallible = { λ _. ⊤ };

    fn clone(&self) -> Result<Self, AllocError> {
        Ok(*self)
    }
}

/// Whether each family has its path ids received, sent, or both. It counts a turn for each.
fn are_paths<R: AsOctets + Copy>(items: Items<R, FamilyTuple>, turns: &mut Turns) -> bool
    ensures are { IsTrue result ↔ ArePaths (items_left items) }
    ensures some { turns.old ≤ turns.new }
    ensures least { IsTrue result → turns.old + length (items_left items) ≤ turns.new }
    ensures turns { turns.new ≤ turns.old + length (items_left items) }
{
    let mut ahead = items;
    'items: while let Some(tuple) = ahead.next() {
        turns.tick();
        if tuple.flags < 1 || tuple.flags > 3 {
            return false;
        }
    }
    true
}

/// Reads one or more families with path ids.
fn parse_add_path<R: AsOctets + Copy>(
    parser: Parser<R>,
    turns: &mut Turns,
) -> Result<Items<R, FamilyTuple>, Malformed>
    ensures paths { IfOk result (λ items. IsAddPath (window parser) (items_left items)) }
    ensures malformed { IsErr result → (row : List (ℕ × (ℕ × ℕ))) → ¬ IsAddPath (window parser) row }
    ensures some { turns.old ≤ turns.new }
    ensures least { IfOk result (λ items. turns.old + length (items_left items) ≤ turns.new) }
    ensures turns { turns.new ≤ turns.old + left (window parser) }
{
    let items = parse_some::<R, FamilyTuple>(parser)?;
    if !are_paths(items, turns) {
        return Err(Malformed);
    }
    Ok(items)
}

impl<R: AsOctets + Copy> CapabilityValue<R> {
    /// Reads all that a parser has left as the value of a code, and counts a turn for each family with path ids.
    fn parse_counted(
        code: CapabilityType,
        parser: Parser<R>,
        turns: &mut Turns,
    ) -> Result<CapabilityValue<R>, Malformed>
        ensures value { IfOk result (λ value. HasCode code (window parser) (capability_value_of value)) }
        ensures malformed { IsErr result → (value : said.CapabilityValue) → ¬ HasCode code (window parser) value }
        ensures some { turns.old ≤ turns.new }
        ensures least { IfOk result (λ value. turns.old + capability_turns (capability_value_of value) ≤ turns.new) }
        ensures turns { turns.new ≤ turns.old + left (window parser) }
    {
        match code {
            CapabilityType::MultiProtocol => {
                let (afi, reserved, safi) = parse_all::<R, (U16Be, U8, U8)>(parser)?;
                Ok(CapabilityValue::MultiProtocol(afi, reserved, safi))
            }
            CapabilityType::RouteRefresh => {
                parse_nothing(parser)?;
                Ok(CapabilityValue::RouteRefresh)
            }
            CapabilityType::ExtendedMessage => {
                parse_nothing(parser)?;
                Ok(CapabilityValue::ExtendedMessage)
            }
            CapabilityType::GracefulRestart => {
                Ok(CapabilityValue::GracefulRestart(GracefulRestart::parse(parser)?))
            }
            CapabilityType::FourOctetAsn => {
                Ok(CapabilityValue::FourOctetAsn(Asn(parse_all::<R, U32Be>(parser)?)))
            }
            CapabilityType::AddPath => Ok(CapabilityValue::AddPath(parse_add_path(parser, turns)?)),
            CapabilityType::EnhancedRouteRefresh => {
                parse_nothing(parser)?;
                Ok(CapabilityValue::EnhancedRouteRefresh)
            }
        }
    }
}

impl<R: AsOctets + Copy> Capability<R> {
    /// Reads the octets as a value of the capability's code.
    fn coded(&self, turns: &mut Turns) -> Result<CapabilityValue<R>, Malformed>
        ensures value { IfOk result (λ value.
            IsCoded self.now.code (window self.now.octets) (capability_value_of value)) }
        ensures malformed { IsErr result → (value : said.CapabilityValue)
            → ¬ IsCoded self.now.code (window self.now.octets) value }
        ensures some { turns.old ≤ turns.new }
        ensures least { IfOk result (λ value. turns.old + capability_turns (capability_value_of value) ≤ turns.new) }
        ensures turns { turns.new ≤ turns.old + left (window self.now.octets) }
    {
        let Some(code) = CapabilityType::from_number(self.code) else {
            return Err(Malformed);
        };
        CapabilityValue::parse_counted(code, self.octets, turns)
    }

    /// Returns the value by its code, or else opaque octets.
    pub fn value(&self) -> CapabilityValue<R>
        ensures { IsCapabilityValue self.now.code (window self.now.octets) (capability_value_of result) }
    {
        self.value_counted(&mut Turns::new())
    }

    /// Does the same, and counts a turn for each family with path ids, at most one for each octet.
    pub fn value_counted(&self, turns: &mut Turns) -> CapabilityValue<R>
        ensures value { IsCapabilityValue self.now.code (window self.now.octets) (capability_value_of result) }
        ensures some { turns.old ≤ turns.new }
        ensures least { turns.old + capability_turns (capability_value_of result) ≤ turns.new }
        ensures turns { turns.new ≤ turns.old + left (window self.now.octets) }
    {
        match self.coded(turns) {
            Ok(value) => value,
            Err(_) => CapabilityValue::Opaque(self.octets),
        }
    }
}
