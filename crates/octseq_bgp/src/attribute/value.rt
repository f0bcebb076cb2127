//! The values of path attributes, by their type.
ghost use Rattle.std.specs.Prelude.{◌≡◌, ◌+◌, ◌≤◌, ℕ, List, length, IsErr, IfOk, OnOk, ⊤};
ghost use Rattle.octseq.specs.Integer.{be};
ghost use Rattle.octseq.specs.Parser.{window};
ghost use Rattle.octseq.specs.Window.{Window, left};
ghost use Rattle.octseq_format.specs.Pair.{◌then◌};
ghost use Rattle.octseq_format.specs.Where.{IsWhere};
ghost use Rattle.octseq_bgp.specs.Fills.{Whole};
ghost use Rattle.octseq_bgp.specs.Items.{items_left};
ghost use Rattle.octseq_bgp.specs.Parts.{IsNumber};
ghost use Rattle.octseq_bgp.specs.Path.{asn_size};
ghost use Rattle.octseq_bgp.specs.ReadTurns.{value_turns};
ghost use Rattle.octseq_bgp.specs.Value.{Value, HasForm, IsTyped, IsValue, SomeItems};
ghost use Rattle.octseq_bgp.specs.declared.session.SessionConfig.{SessionConfig as Session};

use crate::attribute::PathAttribute;
use crate::attribute::attribute_type::AttributeType;
use crate::attribute::path::{AsPath, Asn};
use crate::attribute::reach::{MpReachNlri, MpUnreachNlri};
use crate::community::{ClusterIds, ExtendedCommunities, LargeCommunities, StandardCommunities};
use crate::item::{Item, Items};
use crate::session::SessionConfig;
use crate::whole::parse_all;
use octseq::{AsOctets, Malformed, Parser, Turns};
use octseq_format::{U8, U16Be, U32Be};
use std::alloc::AllocError;

/// The aggregator of a route.
#[derive(Clone, Copy, Debug, PartialEq, Eq)]
pub struct Aggregator {
    /// The AS number.
    pub asn: Asn,
    /// The IPv4 address.
    pub address: u32,
}

impl Aggregator {
    /// Reads all that a parser has left, with an AS number of four octets or two.
    fn parse<R: AsOctets + Copy>(parser: Parser<R>, wide: bool) -> Result<Aggregator, Malformed>
        ensures is { IfOk result (λ it.
            Whole (IsNumber (asn_size wide) then IsNumber 4) (window parser) (it.asn.0, it.address)) }
        ensures malformed { IsErr result → (it : ℕ × ℕ)
            → ¬ Whole (IsNumber (asn_size wide) then IsNumber 4) (window parser) it }
    {
        if wide {
            let (asn, address) = parse_all::<R, (U32Be, U32Be)>(parser)?;
            Ok(Aggregator {
                asn: Asn(asn),
                address,
            })
        } else {
            let (asn, address) = parse_all::<R, (U16Be, U32Be)>(parser)?;
            Ok(Aggregator {
                asn: Asn(u32::from(asn)),
                address,
            })
        }
    }
}

/// The value of a path attribute.
#[derive(Debug)]
pub enum AttributeValue<R: AsOctets> {
    /// ORIGIN: 0 IGP, 1 EGP, 2 INCOMPLETE.
    Origin(u8),
    /// AS_PATH.
    AsPath(AsPath<R>),
    /// NEXT_HOP, an IPv4 address.
    NextHop(u32),
    /// MULTI_EXIT_DISC.
    MultiExitDisc(u32),
    /// LOCAL_PREF.
    LocalPref(u32),
    /// ATOMIC_AGGREGATE.
    AtomicAggregate,
    /// AGGREGATOR.
    Aggregator(Aggregator),
    /// COMMUNITIES.
    Communities(StandardCommunities<R>),
    /// ORIGINATOR_ID.
    OriginatorId(u32),
    /// CLUSTER_LIST.
    ClusterList(ClusterIds<R>),
    /// MP_REACH_NLRI.
    MpReachNlri(MpReachNlri<R>),
    /// MP_UNREACH_NLRI.
    MpUnreachNlri(MpUnreachNlri<R>),
    /// EXTENDED_COMMUNITIES.
    ExtendedCommunities(ExtendedCommunities<R>),
    /// AS4_PATH.
    As4Path(AsPath<R>),
    /// AS4_AGGREGATOR.
    As4Aggregator(Aggregator),
    /// LARGE_COMMUNITIES.
    LargeCommunities(LargeCommunities<R>),
    /// Octets without the form of their type, as a parser.
    Opaque(Parser<R>),
}

impl<R: AsOctets + Copy> Copy for AttributeValue<R> {}

impl<R: AsOctets + Copy> Clone for AttributeValue<R> {
    ghost is_clone = { λ value copy. copy ≡ value };

    ghost is_infallible = { λ _. ⊤ };

    fn clone(&self) -> Result<Self, AllocError> {
        Ok(*self)
    }
}

/// Reads an octet of at most 2.
fn parse_origin<R: AsOctets + Copy>(parser: Parser<R>) -> Result<u8, Malformed>
    ensures origin { IfOk result (λ n. Whole (IsWhere (IsNumber 1) (λ n. n) (λ n. n ≤ 2)) (window parser) n) }
    ensures malformed { IsErr result → (n : ℕ)
        → ¬ Whole (IsWhere (IsNumber 1) (λ n. n) (λ n. n ≤ 2)) (window parser) n }
{
    let origin = parse_all::<R, U8>(parser)?;
    if origin > 2 {
        return Err(Malformed);
    }
    Ok(origin)
}

/// Reads a value of no octets.
pub(crate) fn parse_nothing<R: AsOctets + Copy>(parser: Parser<R>) -> Result<(), Malformed>
    ensures nothing { OnOk result (left (window parser) ≡ 0) }
    ensures malformed { IsErr result → ¬ (left (window parser) ≡ 0) }
{
    if parser.remaining() > 0 {
        return Err(Malformed);
    }
    Ok(())
}

/// Reads one or more items.
pub(crate) fn parse_some<R: AsOctets + Copy, T: Item>(
    parser: Parser<R>,
) -> Result<Items<R, T>, Malformed>
    ensures items { IfOk result (λ items. SomeItems T.width T.reads (window parser) (items_left items)) }
    ensures malformed { IsErr result → (row : List T.Found) → ¬ SomeItems T.width T.reads (window parser) row }
{
    let items = Items::parse(parser)?;
    if items.len() == 0 {
        return Err(Malformed);
    }
    Ok(items)
}

impl<R: AsOctets + Copy> AttributeValue<R> {
    ghost use Rattle.octseq_bgp.specs.ValueOf.{value_of};

    /// Reads all that a parser has left as the value of a type, and counts a turn for each segment and prefix.
    ///
    /// # Errors
    ///
    /// `Malformed` if it isn't one.
    #[inline(always)]
    pub(crate) fn parse_counted(
        kind: AttributeType,
        parser: Parser<R>,
        session: &SessionConfig,
        turns: &mut Turns,
    ) -> Result<AttributeValue<R>, Malformed>
        ensures value { IfOk result (λ value. HasForm session.now kind (window parser) (value_of value)) }
        ensures malformed { IsErr result → (value : Value) → ¬ HasForm session.now kind (window parser) value }
        ensures some { turns.old ≤ turns.new }
        ensures least { IfOk result (λ value. turns.old + value_turns (value_of value) ≤ turns.new) }
        ensures turns { turns.new ≤ turns.old + left (window parser) }
    {
        let wide = session.four_octet_asn;
        match kind {
            AttributeType::Origin => Ok(AttributeValue::Origin(parse_origin(parser)?)),
            AttributeType::AsPath => Ok(AttributeValue::AsPath(AsPath::parse_counted(
                parser, wide, turns,
            )?)),
            AttributeType::NextHop => Ok(AttributeValue::NextHop(parse_all::<R, U32Be>(parser)?)),
            AttributeType::MultiExitDisc => Ok(AttributeValue::MultiExitDisc(parse_all::<R, U32Be>(
                parser,
            )?)),
            AttributeType::LocalPref => {
                Ok(AttributeValue::LocalPref(parse_all::<R, U32Be>(parser)?))
            }
            AttributeType::AtomicAggregate => {
                parse_nothing(parser)?;
                Ok(AttributeValue::AtomicAggregate)
            }
            AttributeType::Aggregator => Ok(AttributeValue::Aggregator(Aggregator::parse(
                parser, wide,
            )?)),
            AttributeType::Communities => Ok(AttributeValue::Communities(parse_some(parser)?)),
            AttributeType::OriginatorId => Ok(AttributeValue::OriginatorId(parse_all::<R, U32Be>(
                parser,
            )?)),
            AttributeType::ClusterList => Ok(AttributeValue::ClusterList(parse_some(parser)?)),
            AttributeType::MpReachNlri => Ok(AttributeValue::MpReachNlri(MpReachNlri::parse_counted(
                parser, session, turns,
            )?)),
            AttributeType::MpUnreachNlri => Ok(AttributeValue::MpUnreachNlri(
                MpUnreachNlri::parse_counted(parser, session, turns)?,
            )),
            AttributeType::ExtendedCommunities => Ok(AttributeValue::ExtendedCommunities(parse_some(
                parser,
            )?)),
            AttributeType::As4Path => Ok(AttributeValue::As4Path(AsPath::parse_counted(
                parser, true, turns,
            )?)),
            AttributeType::As4Aggregator => Ok(AttributeValue::As4Aggregator(Aggregator::parse(
                parser, true,
            )?)),
            AttributeType::LargeCommunities => Ok(AttributeValue::LargeCommunities(parse_some(
                parser,
            )?)),
        }
    }
}

impl<R: AsOctets + Copy> PathAttribute<R> {
    ghost use Rattle.octseq_bgp.specs.ValueOf.{value_of};

    /// Reads the octets as a value of the attribute's type.
    #[inline(always)]
    fn typed(&self, turns: &mut Turns) -> Result<AttributeValue<R>, Malformed>
        ensures value { IfOk result (λ value.
            IsTyped self.now.session self.now.type_code (window self.now.value) (value_of value)) }
        ensures malformed { IsErr result → (value : Value)
            → ¬ IsTyped self.now.session self.now.type_code (window self.now.value) value }
        ensures some { turns.old ≤ turns.new }
        ensures least { IfOk result (λ value. turns.old + value_turns (value_of value) ≤ turns.new) }
        ensures turns { turns.new ≤ turns.old + left (window self.now.value) }
    {
        let Some(kind) = AttributeType::from_number(self.type_code) else {
            return Err(Malformed);
        };
        AttributeValue::parse_counted(kind, self.value, &self.session, turns)
    }

    /// Returns the value by its type, or else opaque octets.
    #[inline(always)]
    pub fn value(&self) -> AttributeValue<R>
        ensures { IsValue self.now.session self.now.type_code (window self.now.value) (value_of result) }
    {
        self.value_counted(&mut Turns::new())
    }

    /// Does the same, and counts the loop turns: one for each segment and prefix, at most one for each octet.
    #[inline(always)]
    pub fn value_counted(&self, turns: &mut Turns) -> AttributeValue<R>
        ensures value { IsValue self.now.session self.now.type_code (window self.now.value) (value_of result) }
        ensures some { turns.old ≤ turns.new }
        ensures least { turns.old + value_turns (value_of result) ≤ turns.new }
        ensures turns { turns.new ≤ turns.old + left (window self.now.value) }
    {
        match self.typed(turns) {
            Ok(value) => value,
            Err(_) => AttributeValue::Opaque(self.value),
        }
    }
}
