//! The parts of an UPDATE. The builder's type says which one is being written, and so what may be pushed next: RFC
//! 4271, 4.3.
use crate::attribute::AttributeType;
use crate::family::AfiSafiType;

/// A part up to which an UPDATE is written.
pub trait Part {
    ghost use Rattle.octseq_bgp.specs.Written.{WrittenUpdate};

    // The update has nothing after the part.
    ghost reaches: { WrittenUpdate → Type 0 };
}

/// The withdrawn routes.
#[derive(Clone, Copy, Debug)]
pub struct Withdrawn;

impl Part for Withdrawn {
    ghost use Rattle.octseq_bgp.specs.Writing.{UpToWithdrawn};

    ghost reaches = { UpToWithdrawn };
}

/// The path attributes.
#[derive(Clone, Copy, Debug)]
pub struct Attributes;

impl Part for Attributes {
    ghost use Rattle.octseq_bgp.specs.Writing.{UpToAttributes};

    ghost reaches = { UpToAttributes };
}

/// The announced prefixes.
#[derive(Clone, Copy, Debug)]
pub struct Announced;

impl Part for Announced {
    ghost use Rattle.octseq_bgp.specs.Writing.{UpToAnnounced};

    ghost reaches = { UpToAnnounced };
}

/// An attribute that lists prefixes of a family: RFC 4760.
#[derive(Clone, Copy, Debug, PartialEq, Eq)]
pub enum MpList {
    /// MP_REACH_NLRI: reachable prefixes.
    Reach(AfiSafiType),
    /// MP_UNREACH_NLRI: prefixes that are no longer reachable.
    Unreach(AfiSafiType),
}

impl MpList {
    ghost use Rattle.std.specs.Prelude.{◌≡◌};
    ghost use Rattle.octseq_bgp.specs.Writing.{list_family, list_type};

    /// Returns the type of the attribute.
    pub fn kind(self) -> AttributeType
        ensures { result ≡ list_type self }
    {
        match self {
            MpList::Reach(_) => AttributeType::MpReachNlri,
            MpList::Unreach(_) => AttributeType::MpUnreachNlri,
        }
    }

    /// Returns the family of the prefixes.
    pub fn family(self) -> AfiSafiType
        ensures { result ≡ list_family self }
    {
        match self {
            MpList::Reach(family) => family,
            MpList::Unreach(family) => family,
        }
    }
}
