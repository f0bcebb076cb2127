//! Values of a fixed number of octets.
ghost use Rattle.std.specs.Prelude.{◌≡◌, ◌≤◌, ◌<◌, ◌+◌, ◌^◌, ◌↔◌, length, IsSome, IfSome};
ghost use Rattle.octseq.specs.Integer.{octets_be};
ghost use Rattle.octseq.specs.Limit.{IsWithin};
ghost use Rattle.octseq_bgp.specs.OriginType.{origin_number};
ghost use Rattle.octseq_bgp.specs.Path.{asn_size};
ghost use Rattle.octseq_bgp.specs.Puts.{AppendsSomeUnlimited};
ghost use Rattle.octseq_bgp.specs.WrittenValue.{WrittenValue as Written, FitsAggregator, aggregator_octets};

use crate::attribute::attribute_type::AttributeType;
use crate::attribute::compose::ComposeAttribute;
use crate::attribute::value::Aggregator;
use crate::part::Part;
use crate::put::{put_u8, put_u32};
use crate::session::SessionConfig;
use octseq::OctetsBuilder;
use std::alloc::AllocError;

/// Where a route comes from: RFC 4271, 5.1.1.
#[derive(Clone, Copy, Debug, PartialEq, Eq)]
pub enum OriginType {
    /// IGP.
    Igp,
    /// EGP.
    Egp,
    /// INCOMPLETE.
    Incomplete,
}

impl OriginType {
    /// Returns the number.
    pub fn number(self) -> u8
        ensures { result ≡ origin_number self }
    {
        match self {
            OriginType::Igp => 0,
            OriginType::Egp => 1,
            OriginType::Incomplete => 2,
        }
    }
}

/// Returns the number of octets of a number in four octets.
#[tactic(auto, using(octseq::proofs::Written::length_be))]
fn number_len(number: u32) -> usize
    ensures len { result ≡ length (octets_be 4 number) }
    ensures fit { number < 256 ^ 4 }
    ensures short { length (octets_be 4 number) ≤ 65535 }
{
    number.to_be_bytes().len()
}

/// ORIGIN.
#[derive(Clone, Copy, Debug, PartialEq, Eq)]
pub struct Origin(pub OriginType);

impl ComposeAttribute for Origin {
    ghost says = { λ it. Written.origin (origin_number it.0) };

    fn attribute_type(&self) -> AttributeType {
        AttributeType::Origin
    }

    fn compose_len(&self, _session: &SessionConfig) -> Option<usize> {
        Some(1)
    }

    fn put_some<B: OctetsBuilder>(
        &self,
        _session: &SessionConfig,
        builder: &mut B,
    ) -> Result<(), AllocError> {
        put_u8(builder, self.0.number())
    }
}

/// NEXT_HOP, an IPv4 address.
#[derive(Clone, Copy, Debug, PartialEq, Eq)]
pub struct ConventionalNextHop(pub u32);

impl ComposeAttribute for ConventionalNextHop {
    ghost says = { λ it. Written.next_hop it.0 };

    fn attribute_type(&self) -> AttributeType {
        AttributeType::NextHop
    }

    fn compose_len(&self, _session: &SessionConfig) -> Option<usize> {
        Some(number_len(self.0))
    }

    fn put_some<B: OctetsBuilder>(
        &self,
        _session: &SessionConfig,
        builder: &mut B,
    ) -> Result<(), AllocError> {
        put_u32(builder, self.0)
    }
}

/// MULTI_EXIT_DISC.
#[derive(Clone, Copy, Debug, PartialEq, Eq)]
pub struct MultiExitDisc(pub u32);

impl ComposeAttribute for MultiExitDisc {
    ghost says = { λ it. Written.multi_exit_disc it.0 };

    fn attribute_type(&self) -> AttributeType {
        AttributeType::MultiExitDisc
    }

    fn compose_len(&self, _session: &SessionConfig) -> Option<usize> {
        Some(number_len(self.0))
    }

    fn put_some<B: OctetsBuilder>(
        &self,
        _session: &SessionConfig,
        builder: &mut B,
    ) -> Result<(), AllocError> {
        put_u32(builder, self.0)
    }
}

/// LOCAL_PREF.
#[derive(Clone, Copy, Debug, PartialEq, Eq)]
pub struct LocalPref(pub u32);

impl ComposeAttribute for LocalPref {
    ghost says = { λ it. Written.local_pref it.0 };

    fn attribute_type(&self) -> AttributeType {
        AttributeType::LocalPref
    }

    fn compose_len(&self, _session: &SessionConfig) -> Option<usize> {
        Some(number_len(self.0))
    }

    fn put_some<B: OctetsBuilder>(
        &self,
        _session: &SessionConfig,
        builder: &mut B,
    ) -> Result<(), AllocError> {
        put_u32(builder, self.0)
    }
}

/// ATOMIC_AGGREGATE.
#[derive(Clone, Copy, Debug, PartialEq, Eq)]
pub struct AtomicAggregate;

impl ComposeAttribute for AtomicAggregate {
    ghost says = { λ _. Written.atomic_aggregate };

    fn attribute_type(&self) -> AttributeType {
        AttributeType::AtomicAggregate
    }

    fn compose_len(&self, _session: &SessionConfig) -> Option<usize> {
        Some(0)
    }

    fn put_some<B: OctetsBuilder>(
        &self,
        _session: &SessionConfig,
        _builder: &mut B,
    ) -> Result<(), AllocError> {
        Ok(())
    }
}

/// ORIGINATOR_ID.
#[derive(Clone, Copy, Debug, PartialEq, Eq)]
pub struct OriginatorId(pub u32);

impl ComposeAttribute for OriginatorId {
    ghost says = { λ it. Written.originator_id it.0 };

    fn attribute_type(&self) -> AttributeType {
        AttributeType::OriginatorId
    }

    fn compose_len(&self, _session: &SessionConfig) -> Option<usize> {
        Some(number_len(self.0))
    }

    fn put_some<B: OctetsBuilder>(
        &self,
        _session: &SessionConfig,
        builder: &mut B,
    ) -> Result<(), AllocError> {
        put_u32(builder, self.0)
    }
}

/// Returns the number of octets of an aggregator, with an AS number of four octets or of two.
#[tactic(auto, using(octseq::proofs::Written::length_be))]
fn aggregator_len(aggregator: &Aggregator, wide: bool) -> Option<usize>
    ensures some { IfSome result (λ len. len
        ≡ length (aggregator_octets (asn_size wide) (aggregator.now.asn.0, aggregator.now.address))) }
    ensures fit { IsSome result ↔ FitsAggregator (asn_size wide) (aggregator.now.asn.0, aggregator.now.address) }
    ensures short { IfSome result (λ len. len ≤ 65535) }
{
    let asn = aggregator.asn.part_len(wide)?;
    Some(asn + number_len(aggregator.address))
}

/// Appends an aggregator, which is known to fit.
fn put_aggregator<B: OctetsBuilder>(
    builder: &mut B,
    aggregator: &Aggregator,
    wide: bool,
) -> Result<(), AllocError>
    requires fit { FitsAggregator (asn_size wide) (aggregator.now.asn.0, aggregator.now.address) }
    requires within { IsWithin B.limit (length (B.content builder.old)
        + length (aggregator_octets (asn_size wide) (aggregator.now.asn.0, aggregator.now.address))) }
    ensures puts { AppendsSomeUnlimited B.asks result
        (aggregator_octets (asn_size wide) (aggregator.now.asn.0, aggregator.now.address))
        (B.content builder.old) (B.content builder.new) }
    ensures borrows { B.borrows builder.new ≡ B.borrows builder.old }
{
    aggregator.asn.put_part(wide, builder)?;
    put_u32(builder, aggregator.address)
}

/// AGGREGATOR.
impl ComposeAttribute for Aggregator {
    ghost says = { λ it. Written.aggregator (it.asn.0, it.address) };

    fn attribute_type(&self) -> AttributeType {
        AttributeType::Aggregator
    }

    fn compose_len(&self, session: &SessionConfig) -> Option<usize> {
        aggregator_len(self, session.four_octet_asn)
    }

    fn put_some<B: OctetsBuilder>(
        &self,
        session: &SessionConfig,
        builder: &mut B,
    ) -> Result<(), AllocError> {
        put_aggregator(builder, self, session.four_octet_asn)
    }
}

/// AS4_AGGREGATOR.
#[derive(Clone, Copy, Debug, PartialEq, Eq)]
pub struct As4Aggregator(pub Aggregator);

impl ComposeAttribute for As4Aggregator {
    ghost says = { λ it. Written.as4_aggregator (it.0.asn.0, it.0.address) };

    fn attribute_type(&self) -> AttributeType {
        AttributeType::As4Aggregator
    }

    fn compose_len(&self, _session: &SessionConfig) -> Option<usize> {
        aggregator_len(&self.0, true)
    }

    fn put_some<B: OctetsBuilder>(
        &self,
        _session: &SessionConfig,
        builder: &mut B,
    ) -> Result<(), AllocError> {
        put_aggregator(builder, &self.0, true)
    }
}
