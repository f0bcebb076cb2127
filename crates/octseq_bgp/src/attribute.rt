//! Path attributes: RFC 4271, 4.3.
ghost use Rattle.std.specs.Prelude.{◌≡◌, ◌+◌, ◌≤◌, List, IsErr, IfOk, IfSome, ⊤};
ghost use Rattle.octseq.specs.Parser.{window};
ghost use Rattle.octseq.specs.Window.{left};
ghost use Rattle.octseq_format.specs.Row.{Holds, held_once};
ghost use Rattle.octseq_bgp.specs.Fills.{Fills};
ghost use Rattle.octseq_bgp.specs.OneParts.{one_attribute, part_code};
ghost use Rattle.octseq_bgp.specs.Parts.{Attribute, IsAttribute};

mod attribute_type;
mod compose;
mod next_hop;
mod path;
mod reach;
mod value;

use crate::key_octet::KeyOctet;
use crate::list::{count_all, take_first};
use crate::session::SessionConfig;
pub use attribute_type::AttributeType;
pub use compose::{
    As4Aggregator, As4Path, AtomicAggregate, ComposeAttribute, ConventionalNextHop, LocalPref,
    MultiExitDisc, Origin, OriginType, OriginatorId, PathSegment,
};
pub use next_hop::NextHop;
use octseq::{AsOctets, Malformed, Parser, Turns};
use octseq_format::{Any, Keyed, Nested, Switch, Then, U8, U16Be, WithinBy};
pub use path::{AsPath, Asn, Asns, Segment, SegmentType};
pub use reach::{MpReachNlri, MpUnreachNlri};
use std::alloc::AllocError;
pub use value::{Aggregator, AttributeValue};
pub(crate) use value::{parse_nothing, parse_some};

/// The flags of a path attribute: 0x80 optional, 0x40 transitive, 0x20 partial, 0x10 extended length.
#[derive(Clone, Copy, Debug, PartialEq, Eq)]
pub struct Flags(pub u8);

/// A path attribute, where it was read.
#[derive(Debug)]
pub struct PathAttribute<R: AsOctets> {
    /// The flags.
    pub flags: Flags,
    /// The type.
    pub type_code: u8,
    /// The octets, as a parser.
    pub value: Parser<R>,
    /// The session in which it was read.
    pub session: SessionConfig,
}

impl<R: AsOctets + Copy> Copy for PathAttribute<R> {}

impl<R: AsOctets + Copy> Clone for PathAttribute<R> {
    ghost is_clone = { λ attribute copy. copy ≡ attribute };

    ghost is_infallible = { λ _. ⊤ };

    fn clone(&self) -> Result<Self, AllocError> {
        Ok(*self)
    }
}

/// The flag that says that a length has two octets.
#[derive(Debug)]
pub struct ExtendedLength;

impl Switch for ExtendedLength {
    ghost use Rattle.octseq_bgp.specs.Parts.{is_extended};

    ghost on = { is_extended };

    fn is_on(flags: usize) -> bool {
        flags / 16 % 2 == 1
    }
}

/// Flags, a type, and octets after their length.
pub type AttributeFormat = Keyed<
    KeyOctet,
    Then<Any<U8>, WithinBy<ExtendedLength, U16Be, U8, Any<Nested>>>,
>;

/// An iterator over path attributes.
#[derive(Debug)]
pub struct PathAttributes<R: AsOctets> {
    parser: Parser<R>,
    left: usize,
    session: SessionConfig,
    ghost ahead: { Holds IsAttribute (window parser) left } by { held_once part_code IsAttribute
        one_attribute (window parser) left },
}

impl<R: AsOctets + Copy> Copy for PathAttributes<R> {}

impl<R: AsOctets + Copy> Clone for PathAttributes<R> {
    ghost is_clone = { λ attributes copy. copy ≡ attributes };

    ghost is_infallible = { λ _. ⊤ };

    fn clone(&self) -> Result<Self, AllocError> {
        Ok(*self)
    }
}

impl<R: AsOctets + Copy> PathAttributes<R> {
    ghost use Rattle.std.specs.Prelude.{length};
    ghost use Rattle.octseq_bgp.specs.Lists.{attributes_left, attributes_session};

    /// Reads all that a parser has left as path attributes, and counts a turn for each.
    ///
    /// # Errors
    ///
    /// `Malformed` if attributes don't fill it exactly.
    #[inline(always)]
    pub(crate) fn parse_counted(
        parser: Parser<R>,
        session: SessionConfig,
        turns: &mut Turns,
    ) -> Result<PathAttributes<R>, Malformed>
        ensures attributes { IfOk result
            (λ attributes. Fills IsAttribute (window parser) (attributes_left attributes)) }
        ensures session { IfOk result (λ attributes. attributes_session attributes ≡ session) }
        ensures malformed { IsErr result → (row : List Attribute) → ¬ Fills IsAttribute (window parser) row }
        ensures some { turns.old ≤ turns.new }
        ensures least { IfOk result (λ attributes. turns.old + length (attributes_left attributes) ≤ turns.new) }
        ensures turns { turns.new ≤ turns.old + left (window parser) }
    {
        let left = count_all::<R, AttributeFormat>(parser, turns)?;
        Ok(PathAttributes {
            parser,
            left,
            session,
        })
    }

    /// Returns the session in which they were read.
    pub(crate) fn session(&self) -> SessionConfig
        ensures { result ≡ attributes_session self.now }
    {
        self.session
    }

    /// Returns the number of attributes that are left.
    pub fn len(&self) -> usize
        ensures { result ≡ length (attributes_left self.now) }
    {
        self.left
    }
}

impl<R: AsOctets + Copy> Iterator for PathAttributes<R> {
    ghost use Rattle.std.specs.Iterator.{YieldsFirstBy, item_count};
    ghost use Rattle.octseq_bgp.specs.Lists.{attribute_of, attributes_left, attributes_session};

    type Item = PathAttribute<R>;

    ghost next_gives = { λ old result new. YieldsFirstBy attribute_of attributes_left old result new
        × (attributes_session new ≡ attributes_session old)
        × IfSome result (λ attribute. attribute.session ≡ attributes_session old) };

    ghost remaining = { item_count attributes_left };

    #[inline(always)]
    fn next(&mut self) -> Option<PathAttribute<R>> {
        let session = self.session;
        let Some(first) = take_first::<R, AttributeFormat>(self.parser, self.left) else {
            return None;
        };
        let ((flags, (type_code, value)), parser) = first;
        *self = PathAttributes {
            parser,
            left: self.left - 1,
            session,
        };
        Some(PathAttribute {
            flags: Flags(flags),
            type_code,
            value: value,
            session,
        })
    }
}
