//! The types of path attributes whose values are parsed.
ghost use Rattle.std.specs.Prelude.{◌≡◌, ◌≤◌, IfSome, IsNone};
ghost use Rattle.octseq_bgp.specs.AttributeType.{type_number, type_flags};
ghost use Rattle.octseq_bgp.specs.declared.attribute.attribute_type.AttributeType.{AttributeType as Kind};

/// The type of a path attribute whose value is parsed.
#[derive(Clone, Copy, Debug, PartialEq, Eq)]
pub enum AttributeType {
    /// ORIGIN: RFC 4271, 5.1.1.
    Origin,
    /// AS_PATH: RFC 4271, 5.1.2.
    AsPath,
    /// NEXT_HOP: RFC 4271, 5.1.3.
    NextHop,
    /// MULTI_EXIT_DISC: RFC 4271, 5.1.4.
    MultiExitDisc,
    /// LOCAL_PREF: RFC 4271, 5.1.5.
    LocalPref,
    /// ATOMIC_AGGREGATE: RFC 4271, 5.1.6.
    AtomicAggregate,
    /// AGGREGATOR: RFC 4271, 5.1.7.
    Aggregator,
    /// COMMUNITIES: RFC 1997.
    Communities,
    /// ORIGINATOR_ID: RFC 4456, 8.
    OriginatorId,
    /// CLUSTER_LIST: RFC 4456, 8.
    ClusterList,
    /// MP_REACH_NLRI: RFC 4760, 3.
    MpReachNlri,
    /// MP_UNREACH_NLRI: RFC 4760, 4.
    MpUnreachNlri,
    /// EXTENDED_COMMUNITIES: RFC 4360.
    ExtendedCommunities,
    /// AS4_PATH: RFC 6793, 3.
    As4Path,
    /// AS4_AGGREGATOR: RFC 6793, 3.
    As4Aggregator,
    /// LARGE_COMMUNITIES: RFC 8092, 3.
    LargeCommunities,
}

impl AttributeType {
    /// Returns the type of a number, or `None` if its values aren't parsed.
    pub fn from_number(number: u8) -> Option<AttributeType>
        ensures some { IfSome result (λ it. type_number it ≡ number) }
        ensures none { IsNone result → (it : Kind) → ¬ (type_number it ≡ number) }
    {
        match number {
            1 => Some(AttributeType::Origin),
            2 => Some(AttributeType::AsPath),
            3 => Some(AttributeType::NextHop),
            4 => Some(AttributeType::MultiExitDisc),
            5 => Some(AttributeType::LocalPref),
            6 => Some(AttributeType::AtomicAggregate),
            7 => Some(AttributeType::Aggregator),
            8 => Some(AttributeType::Communities),
            9 => Some(AttributeType::OriginatorId),
            10 => Some(AttributeType::ClusterList),
            14 => Some(AttributeType::MpReachNlri),
            15 => Some(AttributeType::MpUnreachNlri),
            16 => Some(AttributeType::ExtendedCommunities),
            17 => Some(AttributeType::As4Path),
            18 => Some(AttributeType::As4Aggregator),
            32 => Some(AttributeType::LargeCommunities),
            _ => None,
        }
    }

    /// Returns the number.
    pub fn number(self) -> u8
        ensures { result ≡ type_number self }
    {
        match self {
            AttributeType::Origin => 1,
            AttributeType::AsPath => 2,
            AttributeType::NextHop => 3,
            AttributeType::MultiExitDisc => 4,
            AttributeType::LocalPref => 5,
            AttributeType::AtomicAggregate => 6,
            AttributeType::Aggregator => 7,
            AttributeType::Communities => 8,
            AttributeType::OriginatorId => 9,
            AttributeType::ClusterList => 10,
            AttributeType::MpReachNlri => 14,
            AttributeType::MpUnreachNlri => 15,
            AttributeType::ExtendedCommunities => 16,
            AttributeType::As4Path => 17,
            AttributeType::As4Aggregator => 18,
            AttributeType::LargeCommunities => 32,
        }
    }

    /// Returns the two upper flags, optional and transitive, as a number: RFC 4271, 4.3.
    pub(crate) fn flags(self) -> u8
        ensures flags { result ≡ type_flags self }
        ensures few { result ≤ 3 }
    {
        match self {
            AttributeType::Origin
            | AttributeType::AsPath
            | AttributeType::NextHop
            | AttributeType::LocalPref
            | AttributeType::AtomicAggregate => 1,
            AttributeType::MultiExitDisc
            | AttributeType::OriginatorId
            | AttributeType::ClusterList
            | AttributeType::MpReachNlri
            | AttributeType::MpUnreachNlri => 2,
            AttributeType::Aggregator
            | AttributeType::Communities
            | AttributeType::ExtendedCommunities
            | AttributeType::As4Path
            | AttributeType::As4Aggregator
            | AttributeType::LargeCommunities => 3,
        }
    }
}
