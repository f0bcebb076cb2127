//! AS paths, written.
ghost use Rattle.std.specs.Prelude.{◌≡◌, ◌<◌, ◌^◌, ℕ, List, map};
ghost use Rattle.octseq.specs.Integer.{octets_be};
ghost use Rattle.octseq_bgp.specs.Path.{asn_size, segment_number};
ghost use Rattle.octseq_bgp.specs.WrittenPath.{WrittenSegment, segment_octets, FitsSegment};
ghost use Rattle.octseq_bgp.specs.WrittenValue.{WrittenValue as Written};

use crate::attribute::attribute_type::AttributeType;
use crate::attribute::compose::ComposeAttribute;
use crate::attribute::path::{Asn, SegmentType};
use crate::part::{Part, parts_len, put_parts};
use crate::put::{put_u8, put_u16, put_u32};
use crate::session::SessionConfig;
use octseq::OctetsBuilder;
use std::alloc::AllocError;

impl SegmentType {
    /// Returns the number.
    pub fn number(self) -> u8
        ensures { result ≡ segment_number self }
    {
        match self {
            SegmentType::Set => 1,
            SegmentType::Sequence => 2,
            SegmentType::ConfedSequence => 3,
            SegmentType::ConfedSet => 4,
        }
    }
}

impl Part for Asn {
    ghost Said = { ℕ };

    ghost says = { λ asn. asn.0 };

    ghost octets = { λ wide. octets_be (asn_size wide) };

    ghost fits = { λ wide n. n < 256 ^ asn_size wide };

    #[tactic(auto, using(octseq::proofs::Written::length_be))]
    fn part_len(&self, wide: bool) -> Option<usize> {
        let number = self.0;
        if wide {
            return Some(4);
        }
        if number > 65535 {
            return None;
        }
        Some(2)
    }

    fn put_part<B: OctetsBuilder>(&self, wide: bool, builder: &mut B) -> Result<(), AllocError> {
        if wide {
            return put_u32(builder, self.0);
        }
        put_u16(builder, self.0 as u16)
    }
}

/// A segment of an AS path, as a value.
#[derive(Clone, Copy, Debug)]
pub struct PathSegment<'a> {
    /// The type.
    pub kind: SegmentType,
    /// The AS numbers.
    pub asns: &'a [Asn],
}

impl<'a> Part for PathSegment<'a> {
    ghost Said = { WrittenSegment };

    ghost says = { λ segment. (segment_number segment.kind, map (λ asn. asn.0) segment.asns.now) };

    ghost octets = { segment_octets };

    ghost fits = { FitsSegment };

    fn part_len(&self, wide: bool) -> Option<usize> {
        if self.asns.is_empty() || self.asns.len() > 255 {
            return None;
        }
        let len = parts_len(self.asns, wide)?;
        Some(2 + len)
    }

    fn put_part<B: OctetsBuilder>(&self, wide: bool, builder: &mut B) -> Result<(), AllocError> {
        put_u8(builder, self.kind.number())?;
        put_u8(builder, self.asns.len() as u8)?;
        put_parts(builder, self.asns, wide)
    }
}

/// AS_PATH, of segments as values.
impl<'a, 'b> ComposeAttribute for &'a [PathSegment<'b>] {
    ghost says = { λ path. Written.as_path
        (map (λ segment. (segment_number segment.kind, map (λ asn. asn.0) segment.asns.now)) path.now) };

    fn attribute_type(&self) -> AttributeType {
        AttributeType::AsPath
    }

    fn compose_len(&self, session: &SessionConfig) -> Option<usize> {
        parts_len(self, session.four_octet_asn)
    }

    fn put_some<B: OctetsBuilder>(
        &self,
        session: &SessionConfig,
        builder: &mut B,
    ) -> Result<(), AllocError> {
        put_parts(builder, self, session.four_octet_asn)
    }
}

/// AS4_PATH, of segments as values, or as they were read.
#[derive(Clone, Copy, Debug)]
pub struct As4Path<P>(pub P);

impl<'a, 'b> ComposeAttribute for As4Path<&'a [PathSegment<'b>]> {
    ghost says = { λ path. Written.as4_path
        (map (λ segment. (segment_number segment.kind, map (λ asn. asn.0) segment.asns.now)) path.0.now) };

    fn attribute_type(&self) -> AttributeType {
        AttributeType::As4Path
    }

    fn compose_len(&self, _session: &SessionConfig) -> Option<usize> {
        parts_len(self.0, true)
    }

    fn put_some<B: OctetsBuilder>(
        &self,
        _session: &SessionConfig,
        builder: &mut B,
    ) -> Result<(), AllocError> {
        put_parts(builder, self.0, true)
    }
}
