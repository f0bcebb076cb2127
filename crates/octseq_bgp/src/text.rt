//! The text of numbers, communities, families and prefixes, and the writers of parts of a text.
ghost use Rattle.std.specs.Prelude.{Some};
ghost use Rattle.std.specs.Fmt.{decimal};
ghost use Rattle.octseq_bgp.specs.OctetsText.{number_dotted};
ghost use Rattle.octseq_bgp.specs.Text.{community_text, large_text, family_text, segment_text, type_text, prefix_text};

mod append;
mod capability;
mod lines;
mod octets;
mod value;

use crate::attribute::{Asn, AttributeType, SegmentType};
use crate::community::{ClusterId, LargeCommunity, StandardCommunity};
use crate::family::AfiSafiType;
use crate::prefix::{PathId, Prefix};
pub use lines::write_attribute_lines;
pub use octets::{write_address, write_dotted, write_opaque};
use std::fmt;
pub use value::write_next_hop;

/// Prints the number.
impl fmt::Display for Asn {
    ghost output = { λ asn. Some (decimal asn.0) };

    fn fmt<W: fmt::Write>(&self, f: &mut fmt::Formatter<W>) -> fmt::Result {
        let number = self.0;
        write!(f, "{number}")
    }
}

/// Prints the number.
impl fmt::Display for PathId {
    ghost output = { λ id. Some (decimal id.0) };

    fn fmt<W: fmt::Write>(&self, f: &mut fmt::Formatter<W>) -> fmt::Result {
        let number = self.0;
        write!(f, "{number}")
    }
}

/// Prints the upper and the lower 16 bits as numbers.
impl fmt::Display for StandardCommunity {
    ghost output = { λ community. Some (community_text community.0) };

    fn fmt<W: fmt::Write>(&self, f: &mut fmt::Formatter<W>) -> fmt::Result {
        let upper = self.0 / 65536;
        let lower = self.0 % 65536;
        write!(f, "{upper}:{lower}")
    }
}

/// Prints the number as an IPv4 address.
impl fmt::Display for ClusterId {
    ghost output = { λ id. Some (number_dotted id.0) };

    fn fmt<W: fmt::Write>(&self, f: &mut fmt::Formatter<W>) -> fmt::Result {
        write_dotted(f, self.0)
    }
}

/// Prints the three numbers.
impl fmt::Display for LargeCommunity {
    ghost output = { λ community. Some (large_text community.global community.data1 community.data2) };

    fn fmt<W: fmt::Write>(&self, f: &mut fmt::Formatter<W>) -> fmt::Result {
        let LargeCommunity {
            global,
            data1,
            data2,
        } = *self;
        write!(f, "{global}:{data1}:{data2}")
    }
}

/// Prints the AFI and the SAFI by name.
impl fmt::Display for AfiSafiType {
    ghost output = { λ family. Some (family_text family) };

    fn fmt<W: fmt::Write>(&self, f: &mut fmt::Formatter<W>) -> fmt::Result {
        match self {
            AfiSafiType::Ipv4Unicast => f.write_str("IPv4/unicast"),
            AfiSafiType::Ipv4Multicast => f.write_str("IPv4/multicast"),
            AfiSafiType::Ipv6Unicast => f.write_str("IPv6/unicast"),
            AfiSafiType::Ipv6Multicast => f.write_str("IPv6/multicast"),
        }
    }
}

/// Prints the name.
impl fmt::Display for SegmentType {
    ghost output = { λ kind. Some (segment_text kind) };

    fn fmt<W: fmt::Write>(&self, f: &mut fmt::Formatter<W>) -> fmt::Result {
        match self {
            SegmentType::Set => f.write_str("set"),
            SegmentType::Sequence => f.write_str("sequence"),
            SegmentType::ConfedSequence => f.write_str("confed-sequence"),
            SegmentType::ConfedSet => f.write_str("confed-set"),
        }
    }
}

/// Prints the name.
impl fmt::Display for AttributeType {
    ghost output = { λ kind. Some (type_text kind) };

    fn fmt<W: fmt::Write>(&self, f: &mut fmt::Formatter<W>) -> fmt::Result {
        match self {
            AttributeType::Origin => f.write_str("ORIGIN"),
            AttributeType::AsPath => f.write_str("AS_PATH"),
            AttributeType::NextHop => f.write_str("NEXT_HOP"),
            AttributeType::MultiExitDisc => f.write_str("MULTI_EXIT_DISC"),
            AttributeType::LocalPref => f.write_str("LOCAL_PREF"),
            AttributeType::AtomicAggregate => f.write_str("ATOMIC_AGGREGATE"),
            AttributeType::Aggregator => f.write_str("AGGREGATOR"),
            AttributeType::Communities => f.write_str("COMMUNITIES"),
            AttributeType::OriginatorId => f.write_str("ORIGINATOR_ID"),
            AttributeType::ClusterList => f.write_str("CLUSTER_LIST"),
            AttributeType::MpReachNlri => f.write_str("MP_REACH_NLRI"),
            AttributeType::MpUnreachNlri => f.write_str("MP_UNREACH_NLRI"),
            AttributeType::ExtendedCommunities => f.write_str("EXTENDED_COMMUNITIES"),
            AttributeType::As4Path => f.write_str("AS4_PATH"),
            AttributeType::As4Aggregator => f.write_str("AS4_AGGREGATOR"),
            AttributeType::LargeCommunities => f.write_str("LARGE_COMMUNITIES"),
        }
    }
}

/// Prints the address and the length.
impl fmt::Display for Prefix {
    ghost output = { λ prefix. Some (prefix_text prefix.afi prefix.len prefix.address) };

    fn fmt<W: fmt::Write>(&self, f: &mut fmt::Formatter<W>) -> fmt::Result {
        let len = self.len;
        write_address(f, self.afi, self.address)?;
        write!(f, "/{len}")
    }
}
