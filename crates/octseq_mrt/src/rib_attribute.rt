//! The path attributes of a RIB entry: RFC 6396, 4.3.4.
ghost use Rattle.std.specs.Prelude.{◌≡◌, ◌+◌, ◌≤◌, ◌↔◌, IsTrue, IsErr, IfOk, IfSome, IsNone, ⊤};
ghost use Rattle.octseq.specs.Parser.{window};
ghost use Rattle.octseq.specs.Window.{Window, left};
ghost use Rattle.octseq_format.specs.Laws.{NoneAt};
ghost use Rattle.octseq_bgp.specs.Parts.{IsAttribute};
ghost use Rattle.octseq_bgp.specs.Fills.{Fills};
ghost use Rattle.octseq_mrt.specs.Listed.{AttributesAhead, attributes_once};
ghost use Rattle.octseq_mrt.specs.ReadTurns.{rib_value_turns};
ghost use Rattle.octseq_mrt.specs.Rib.{rib_session, is_next_hop_size, IsNextHopAlone, IsRibValue};

use octseq::{AsOctets, Malformed, Parser, Turns};
use octseq_bgp::attribute::{AttributeFormat, AttributeValue, Flags, PathAttribute};
use octseq_bgp::session::SessionConfig;
use octseq_bgp::whole::parse_all;
use octseq_format::{Counted, Format, Nested, U8};
use std::alloc::AllocError;

/// A path attribute of a RIB entry, where it was read.
#[derive(Debug)]
pub struct RibAttribute<R: AsOctets> {
    /// The flags.
    pub flags: Flags,
    /// The type.
    pub type_code: u8,
    /// The octets, as a parser.
    pub value: Parser<R>,
}

impl<R: AsOctets + Copy> Copy for RibAttribute<R> {}

impl<R: AsOctets + Copy> Clone for RibAttribute<R> {
    ghost is_clone = { λ attribute copy. copy ≡ attribute };

    ghost is_infallible = { λ _. ⊤ };

    fn clone(&self) -> Result<Self, AllocError> {
        Ok(*self)
    }
}

impl<R: AsOctets + Copy> RibAttribute<R> {
    ghost use Rattle.octseq_mrt.specs.Parsed.{attribute_of};

    /// Reads the next attribute.
    fn parse(parser: &mut Parser<R>) -> Result<RibAttribute<R>, Malformed>
        ensures attribute { IfOk result (λ it.
            IsAttribute (window parser.old) (attribute_of it) (window parser.new)) }
        ensures malformed { IsErr result → NoneAt IsAttribute (window parser.old) }
    {
        let (flags, (type_code, value)) = AttributeFormat::parse(parser)?;
        Ok(RibAttribute {
            flags: Flags(flags),
            type_code,
            value,
        })
    }
}

/// An iterator over the path attributes of an entry.
#[derive(Debug)]
pub struct RibAttributes<R: AsOctets> {
    parser: Parser<R>,
    ghost ahead: { AttributesAhead (window parser) } by { attributes_once (window parser) },
}

impl<R: AsOctets + Copy> Copy for RibAttributes<R> {}

impl<R: AsOctets + Copy> Clone for RibAttributes<R> {
    ghost is_clone = { λ attributes copy. copy ≡ attributes };

    ghost is_infallible = { λ _. ⊤ };

    fn clone(&self) -> Result<Self, AllocError> {
        Ok(*self)
    }
}

impl<R: AsOctets + Copy> RibAttributes<R> {
    ghost use Rattle.octseq.specs.Window.{rest};
    ghost use Rattle.octseq_mrt.specs.Parsed.{attributes_left};

    /// Returns an iterator over the attributes that fill what a parser has left.
    pub(crate) fn at(parser: Parser<R>) -> RibAttributes<R>
        requires { AttributesAhead (window parser) }
        ensures { window result.parser ≡ window parser }
    {
        RibAttributes { parser }
    }

    /// Returns the octets of the attributes that are left.
    pub fn as_slice(&self) -> &[u8]
        ensures { (w : Window) × ∥ Fills IsAttribute w (attributes_left self.now) ∥₁
            × (result.now ≡ rest w) }
    {
        self.parser.peek_all()
    }
}

impl<R: AsOctets + Copy> Iterator for RibAttributes<R> {
    ghost use Rattle.std.specs.Iterator.{YieldsFirstBy, item_count};
    ghost use Rattle.octseq_mrt.specs.Parsed.{attribute_of, attributes_left};

    type Item = RibAttribute<R>;

    ghost next_gives = { YieldsFirstBy attribute_of attributes_left };

    ghost remaining = { item_count attributes_left };

    fn next(&mut self) -> Option<RibAttribute<R>> {
        if self.parser.remaining() == 0 {
            return None;
        }
        let mut parser = self.parser;
        match RibAttribute::parse(&mut parser) {
            Ok(attribute) => {
                *self = RibAttributes { parser };
                Some(attribute)
            }
            Err(_) => unreachable!(),
        }
    }
}

/// Octets that are next hops only aren't an MP_REACH_NLRI of a message, so it doesn't matter which is tried first.
///
/// It does nothing. Calling it brings the law into the caller's proof.
pub fn next_hops_are_apart()
    ensures { (session : Session) (w : Window) (reach : Reach) → IsReach session w reach → (inside : Window)
        → ¬ IsNextHopAlone 14 w inside }
{}

ghost use Rattle.octseq_bgp.specs.Value.{Reach, IsReach};
ghost use Rattle.octseq_bgp.specs.declared.session.SessionConfig.{SessionConfig as Session};

/// The value of an attribute of an entry.
#[derive(Debug)]
pub enum RibValue<R: AsOctets> {
    /// An MP_REACH_NLRI with next hops only, as a parser. They are of the RIB's family.
    NextHop(Parser<R>),
    /// The value of an attribute, as in a message.
    Value(AttributeValue<R>),
}

impl<R: AsOctets + Copy> Copy for RibValue<R> {}

impl<R: AsOctets + Copy> Clone for RibValue<R> {
    ghost is_clone = { λ value copy. copy ≡ value };

    ghost is_infallible = { λ _. ⊤ };

    fn clone(&self) -> Result<Self, AllocError> {
        Ok(*self)
    }
}

/// Whether next hops may have this many octets.
fn is_next_hop_size(size: usize) -> bool
    ensures { IsTrue result ↔ is_next_hop_size size }
{
    size == 4 || size == 16 || size == 32
}

impl<R: AsOctets + Copy> RibAttribute<R> {
    ghost use Rattle.octseq_mrt.specs.Parsed.{rib_value_of};

    /// Returns the next hops, if the attribute has nothing else.
    fn next_hop_alone(&self) -> Option<Parser<R>>
        ensures some { IfSome result (λ it. IsNextHopAlone self.now.type_code (window self.now.value) (window it)) }
        ensures none { IsNone result → (inside : Window)
            → ¬ IsNextHopAlone self.now.type_code (window self.now.value) inside }
    {
        if self.type_code != 14 {
            return None;
        }
        match parse_all::<R, Counted<U8, Nested, 0>>(self.value) {
            Ok(inside) => {
                if is_next_hop_size(inside.remaining()) {
                    Some(inside)
                } else {
                    None
                }
            }
            Err(_) => None,
        }
    }

    /// Returns the attribute as one of a message with four-octet AS numbers.
    pub fn path_attribute(&self) -> PathAttribute<R>
        ensures { result ≡ record {
          flags = self.now.flags;
          type_code = self.now.type_code;
          value = self.now.value;
          session = rib_session;
        } }
    {
        PathAttribute {
            flags: self.flags,
            type_code: self.type_code,
            value: self.value,
            session: SessionConfig::modern(),
        }
    }

    /// Returns the value: next hops only, or the value as in a message.
    pub fn value(&self) -> RibValue<R>
        ensures { IsRibValue self.now.type_code (window self.now.value) (rib_value_of result) }
    {
        self.value_counted(&mut Turns::new())
    }

    /// Does the same, and counts the loop turns: one for each segment and prefix, at most one for each octet.
    pub fn value_counted(&self, turns: &mut Turns) -> RibValue<R>
        ensures value { IsRibValue self.now.type_code (window self.now.value) (rib_value_of result) }
        ensures some { turns.old ≤ turns.new }
        ensures least { turns.old + rib_value_turns (rib_value_of result) ≤ turns.new }
        ensures turns { turns.new ≤ turns.old + left (window self.now.value) }
    {
        match self.next_hop_alone() {
            Some(inside) => RibValue::NextHop(inside),
            None => RibValue::Value(self.path_attribute().value_counted(turns)),
        }
    }
}
