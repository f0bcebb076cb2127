//! How faulty UPDATEs must be handled: RFC 7606, and RFC 4271, 6.3.
ghost use Rattle.std.specs.Prelude.{◌≡◌, ◌↔◌, ◌≤◌, ◌⊎◌, max, [], length, IsTrue, if◌then◌else◌};
ghost use Rattle.octseq.specs.Parser.{window};
ghost use Rattle.octseq_bgp.specs.Handling.{rank, type_rank, opaque_rank, external_rank, flags_rank, again_rank};
ghost use Rattle.octseq_bgp.specs.Handling.{unknown_rank, NamesFamily, IsRank, HasType};
ghost use Rattle.octseq_bgp.specs.Handling.{IsWorst, IsReachWithPrefixes, ReachesSome, LacksMandatory, IsHandling};
ghost use Rattle.octseq_bgp.specs.Lists.{attribute_of, attributes_left};
ghost use Rattle.octseq_bgp.specs.Parsed.{update_of};
ghost use Rattle.octseq_bgp.specs.Value.{Value, HasForm};

use crate::attribute::{AttributeType, AttributeValue, MpReachNlri, PathAttribute, PathAttributes};
use crate::family::AfiSafiType;
use crate::message::update::UpdateMessage;
use crate::session::SessionConfig;
use octseq::{AsOctets, Parser, Turns};

/// The handlings, from the mildest on.
#[derive(Clone, Copy, Debug, PartialEq, Eq)]
pub enum Handling {
    /// Nothing is wrong.
    Accept,
    /// Discard the attribute.
    AttributeDiscard,
    /// Treat the routes as withdrawn.
    TreatAsWithdraw,
    /// Reset the session.
    SessionReset,
}

impl Handling {
    /// Returns how severe the handling is.
    pub(crate) fn rank(self) -> u8
        ensures { result ≡ rank self }
    {
        match self {
            Handling::Accept => 0,
            Handling::AttributeDiscard => 1,
            Handling::TreatAsWithdraw => 2,
            Handling::SessionReset => 3,
        }
    }

    /// Returns the more severe of two handlings.
    pub fn max(self, other: Handling) -> Handling
        ensures { rank result ≡ max (rank self) (rank other) }
    {
        if self.rank() < other.rank() {
            other
        } else {
            self
        }
    }
}

/// Returns the handling of an attribute by its two upper flags, which must be those of its type.
fn flags_handling(kind: AttributeType, flags: u8) -> Handling
    ensures { rank result ≡ flags_rank kind flags }
{
    if flags / 64 == kind.flags() {
        Handling::Accept
    } else {
        Handling::TreatAsWithdraw
    }
}

/// Returns the handling of an attribute from an external peer, whatever its value.
fn external_handling(external: bool, kind: AttributeType) -> Handling
    ensures { rank result ≡ external_rank external kind }
{
    match kind {
        AttributeType::LocalPref | AttributeType::OriginatorId | AttributeType::ClusterList => {
            if external {
                Handling::AttributeDiscard
            } else {
                Handling::Accept
            }
        }
        _ => Handling::Accept,
    }
}

/// Returns the handling of an attribute whose octets don't have the form of its type.
fn malformed_handling(external: bool, names: bool, kind: AttributeType) -> Handling
    ensures { rank result ≡ opaque_rank external names kind }
{
    match kind {
        AttributeType::LocalPref | AttributeType::OriginatorId | AttributeType::ClusterList => {
            if external {
                Handling::AttributeDiscard
            } else {
                Handling::TreatAsWithdraw
            }
        }
        AttributeType::AtomicAggregate
        | AttributeType::Aggregator
        | AttributeType::As4Path
        | AttributeType::As4Aggregator => Handling::AttributeDiscard,
        AttributeType::MpReachNlri | AttributeType::MpUnreachNlri => {
            if names {
                Handling::SessionReset
            } else {
                Handling::Accept
            }
        }
        _ => Handling::TreatAsWithdraw,
    }
}

/// Returns the worst of these.
fn type_handling(
    external: bool,
    typed: bool,
    names: bool,
    kind: AttributeType,
    flags: u8,
) -> Handling
    ensures { rank result ≡ type_rank external typed names kind flags }
{
    let opaque = if typed {
        Handling::Accept
    } else {
        malformed_handling(external, names, kind)
    };
    let always = external_handling(external, kind).max(opaque);
    flags_handling(kind, flags).max(always)
}

/// Returns the handling of an attribute whose type has occurred before.
fn duplicate_handling(type_code: u8) -> Handling
    ensures { rank result ≡ again_rank type_code }
{
    match type_code {
        14 => Handling::SessionReset,
        15 => Handling::SessionReset,
        _ => Handling::AttributeDiscard,
    }
}

/// Returns the handling of an attribute of unknown type.
fn unknown_handling(flags: u8) -> Handling
    ensures { rank result ≡ unknown_rank flags }
{
    if 128 <= flags {
        Handling::Accept
    } else {
        Handling::SessionReset
    }
}

/// Whether octets name a family whose prefixes are parsed, or are too few to name one.
fn names_family<R: AsOctets + Copy>(parser: Parser<R>) -> bool
    ensures { IsTrue result ↔ NamesFamily (window parser) }
{
    let mut ahead = parser;
    match (ahead.parse_u16_be(), ahead.parse_u8()) {
        (Ok(afi), Ok(safi)) => AfiSafiType::from_numbers(afi, safi).is_some(),
        _ => true,
    }
}

/// Whether octets have the form of a type.
fn is_typed<R: AsOctets + Copy>(
    session: &SessionConfig,
    kind: AttributeType,
    parser: Parser<R>,
) -> bool
    ensures { IsTrue result ↔ ((v : Value) × HasForm session.now kind (window parser) v) }
{
    match AttributeValue::parse_counted(kind, parser, session, &mut Turns::new()) {
        Ok(_) => true,
        Err(_) => false,
    }
}

/// Returns the handling of an attribute, given whether its type has occurred before.
pub(crate) fn attribute_handling<R: AsOctets + Copy>(
    session: &SessionConfig,
    external: bool,
    again: bool,
    attribute: &PathAttribute<R>,
) -> Handling
    ensures { IsRank session.now external again (attribute_of attribute.now) (rank result) }
{
    if again {
        return duplicate_handling(attribute.type_code);
    }
    match AttributeType::from_number(attribute.type_code) {
        None => unknown_handling(attribute.flags.0),
        Some(kind) => {
            let typed = is_typed(session, kind, attribute.value);
            let names = names_family(attribute.value);
            type_handling(external, typed, names, kind, attribute.flags.0)
        }
    }
}

/// Returns the worst handling of the attributes.
fn worst_handling<R: AsOctets + Copy>(
    session: &SessionConfig,
    external: bool,
    attributes: PathAttributes<R>,
) -> Handling
    ensures { IsWorst session.now external [] (attributes_left attributes) (rank result) }
{
    let mut seen = [false; 256];
    let mut worst = Handling::Accept;
    let mut ahead = attributes;
    'attributes: while let Some(attribute) = ahead.next() {
        let code = usize::from(attribute.type_code);
        let again = seen[code];
        seen[code] = true;
        worst = worst.max(attribute_handling(session, external, again, &attribute));
    }
    worst
}

/// Whether there is an attribute of a type.
fn has_type<R: AsOctets + Copy>(attributes: PathAttributes<R>, type_code: u8) -> bool
    ensures { IsTrue result ↔ HasType (attributes_left attributes) type_code }
{
    let mut ahead = attributes;
    'attributes: while let Some(attribute) = ahead.next() {
        if attribute.type_code == type_code {
            return true;
        }
    }
    false
}

/// Whether an attribute is an MP_REACH_NLRI that has prefixes.
fn is_reach_with_prefixes<R: AsOctets + Copy>(
    session: &SessionConfig,
    attribute: &PathAttribute<R>,
) -> bool
    ensures { IsTrue result ↔ IsReachWithPrefixes session.now (attribute_of attribute.now) }
{
    if attribute.type_code != 14 {
        return false;
    }
    match MpReachNlri::parse_counted(attribute.value, session, &mut Turns::new()) {
        Ok(reach) => {
            if reach.prefixes.len() == 0 {
                return false;
            }
            true
        }
        Err(_) => false,
    }
}

/// Whether one of the attributes is an MP_REACH_NLRI that has prefixes.
fn has_reach_with_prefixes<R: AsOctets + Copy>(
    session: &SessionConfig,
    attributes: PathAttributes<R>,
) -> bool
    ensures { IsTrue result ↔ ReachesSome session.now (attributes_left attributes) }
{
    let mut ahead = attributes;
    'attributes: while let Some(attribute) = ahead.next() {
        if is_reach_with_prefixes(session, &attribute) {
            return true;
        }
    }
    false
}

/// Returns the handling by whether a mandatory attribute is missing.
pub(crate) fn missing_handling(lacks_mandatory: bool) -> Handling
    ensures { rank result ≡ (if lacks_mandatory then 2 else 0) }
{
    if lacks_mandatory {
        Handling::TreatAsWithdraw
    } else {
        Handling::Accept
    }
}

impl<R: AsOctets + Copy> UpdateMessage<R> {
    /// Whether a mandatory attribute is missing.
    pub(crate) fn lacks_mandatory(&self, session: &SessionConfig) -> bool
        ensures { IsTrue result ↔ LacksMandatory session.now (update_of self.now) }
    {
        let attributes = self.path_attributes;
        let announces = self.announced.len() > 0;
        let reaches = has_reach_with_prefixes(session, attributes);
        let has_both = has_type(attributes, 1) && has_type(attributes, 2);
        (announces || reaches) && !has_both || announces && !has_type(attributes, 3)
    }

    /// Returns how the UPDATE must be handled, given whether it comes from an external peer: the worst handling of its
    /// attributes, and of a missing one.
    pub fn handling(&self, external: bool) -> Handling
        ensures { IsHandling external (update_of self.now) (rank result) }
    {
        let session = self.path_attributes.session();
        let worst = worst_handling(&session, external, self.path_attributes);
        worst.max(missing_handling(self.lacks_mandatory(&session)))
    }
}
