//! The types and subtypes of records that are parsed: RFC 6396, 4, and RFC 8050.
ghost use Rattle.std.specs.Prelude.{◌≡◌, IfSome, IsNone};
ghost use Rattle.octseq_mrt.specs.Kind.{bgp4mp_number, is_state_change, has_wide_asns, has_path_ids};
ghost use Rattle.octseq_mrt.specs.Kind.{kind_type, kind_subtype, rib_number};
ghost use Rattle.octseq_mrt.specs.declared.kind.Bgp4MpSubtype.{Bgp4MpSubtype as Subtype};
ghost use Rattle.octseq_mrt.specs.declared.kind.RecordKind.{RecordKind as Kind};

use octseq_bgp::family::AfiSafiType;

/// A subtype of BGP4MP: RFC 6396, 4.4, and RFC 8050, 3.
#[derive(Clone, Copy, Debug, PartialEq, Eq)]
pub enum Bgp4MpSubtype {
    /// BGP4MP_STATE_CHANGE.
    StateChange,
    /// BGP4MP_MESSAGE.
    Message,
    /// BGP4MP_MESSAGE_AS4.
    MessageAs4,
    /// BGP4MP_STATE_CHANGE_AS4.
    StateChangeAs4,
    /// BGP4MP_MESSAGE_LOCAL.
    MessageLocal,
    /// BGP4MP_MESSAGE_AS4_LOCAL.
    MessageAs4Local,
    /// BGP4MP_MESSAGE_ADDPATH.
    MessageAddPath,
    /// BGP4MP_MESSAGE_AS4_ADDPATH.
    MessageAs4AddPath,
    /// BGP4MP_MESSAGE_LOCAL_ADDPATH.
    MessageLocalAddPath,
    /// BGP4MP_MESSAGE_AS4_LOCAL_ADDPATH.
    MessageAs4LocalAddPath,
}

impl Bgp4MpSubtype {
    /// Returns the subtype of a number, or `None` if its records aren't parsed.
    pub fn from_number(number: u16) -> Option<Bgp4MpSubtype>
        ensures some { IfSome result (λ it. bgp4mp_number it ≡ number) }
        ensures none { IsNone result → (it : Subtype) → ¬ (bgp4mp_number it ≡ number) }
    {
        match number {
            0 => Some(Bgp4MpSubtype::StateChange),
            1 => Some(Bgp4MpSubtype::Message),
            4 => Some(Bgp4MpSubtype::MessageAs4),
            5 => Some(Bgp4MpSubtype::StateChangeAs4),
            6 => Some(Bgp4MpSubtype::MessageLocal),
            7 => Some(Bgp4MpSubtype::MessageAs4Local),
            8 => Some(Bgp4MpSubtype::MessageAddPath),
            9 => Some(Bgp4MpSubtype::MessageAs4AddPath),
            10 => Some(Bgp4MpSubtype::MessageLocalAddPath),
            11 => Some(Bgp4MpSubtype::MessageAs4LocalAddPath),
            _ => None,
        }
    }

    /// Returns the number.
    pub fn number(self) -> u16
        ensures { result ≡ bgp4mp_number self }
    {
        match self {
            Bgp4MpSubtype::StateChange => 0,
            Bgp4MpSubtype::Message => 1,
            Bgp4MpSubtype::MessageAs4 => 4,
            Bgp4MpSubtype::StateChangeAs4 => 5,
            Bgp4MpSubtype::MessageLocal => 6,
            Bgp4MpSubtype::MessageAs4Local => 7,
            Bgp4MpSubtype::MessageAddPath => 8,
            Bgp4MpSubtype::MessageAs4AddPath => 9,
            Bgp4MpSubtype::MessageLocalAddPath => 10,
            Bgp4MpSubtype::MessageAs4LocalAddPath => 11,
        }
    }

    /// Whether it is a state change rather than a message.
    pub fn is_state_change(self) -> bool
        ensures { result ≡ is_state_change self }
    {
        match self {
            Bgp4MpSubtype::StateChange | Bgp4MpSubtype::StateChangeAs4 => true,
            _ => false,
        }
    }

    /// Whether AS numbers have four octets.
    pub fn has_wide_asns(self) -> bool
        ensures { result ≡ has_wide_asns self }
    {
        match self {
            Bgp4MpSubtype::MessageAs4
            | Bgp4MpSubtype::StateChangeAs4
            | Bgp4MpSubtype::MessageAs4Local
            | Bgp4MpSubtype::MessageAs4AddPath
            | Bgp4MpSubtype::MessageAs4LocalAddPath => true,
            _ => false,
        }
    }

    /// Whether prefixes have path ids.
    pub fn has_path_ids(self) -> bool
        ensures { result ≡ has_path_ids self }
    {
        match self {
            Bgp4MpSubtype::MessageAddPath
            | Bgp4MpSubtype::MessageAs4AddPath
            | Bgp4MpSubtype::MessageLocalAddPath
            | Bgp4MpSubtype::MessageAs4LocalAddPath => true,
            _ => false,
        }
    }
}

/// A kind of record, by type and subtype.
#[derive(Clone, Copy, Debug, PartialEq, Eq)]
pub enum RecordKind {
    /// PEER_INDEX_TABLE of TABLE_DUMP_V2: RFC 6396, 4.3.1.
    PeerIndexTable,
    /// A RIB of an address family in TABLE_DUMP_V2, and whether it has path ids: RFC 6396, 4.3.2, and RFC 8050, 4.
    Rib(AfiSafiType, bool),
    /// BGP4MP: RFC 6396, 4.4.
    Bgp4Mp(Bgp4MpSubtype),
    /// BGP4MP_ET, with microseconds: RFC 6396, 3.
    Bgp4MpEt(Bgp4MpSubtype),
}

/// Returns the address family of a RIB, and whether it has path ids.
fn rib_of_number(number: u16) -> Option<(AfiSafiType, bool)>
    ensures some { IfSome result (λ it. rib_number it.0 it.1 ≡ number) }
    ensures none { IsNone result → (family : Family) (paths : Bool) → ¬ (rib_number family paths ≡ number) }
{
    match number {
        2 => Some((AfiSafiType::Ipv4Unicast, false)),
        3 => Some((AfiSafiType::Ipv4Multicast, false)),
        4 => Some((AfiSafiType::Ipv6Unicast, false)),
        5 => Some((AfiSafiType::Ipv6Multicast, false)),
        8 => Some((AfiSafiType::Ipv4Unicast, true)),
        9 => Some((AfiSafiType::Ipv4Multicast, true)),
        10 => Some((AfiSafiType::Ipv6Unicast, true)),
        11 => Some((AfiSafiType::Ipv6Multicast, true)),
        _ => None,
    }
}

ghost use Rattle.std.specs.Prelude.{Bool};
ghost use Rattle.octseq_bgp.specs.declared.family.AfiSafiType.{AfiSafiType as Family};

impl RecordKind {
    /// Returns the kind of a type and a subtype, or `None` if its records aren't parsed.
    pub fn from_numbers(type_code: u16, subtype: u16) -> Option<RecordKind>
        ensures some { IfSome result (λ it. (kind_type it ≡ type_code) × (kind_subtype it ≡ subtype)) }
        ensures none { IsNone result → (it : Kind) → kind_type it ≡ type_code → ¬ (kind_subtype it ≡ subtype) }
    {
        match type_code {
            13 => {
                if subtype == 1 {
                    return Some(RecordKind::PeerIndexTable);
                }
                let (family, paths) = rib_of_number(subtype)?;
                Some(RecordKind::Rib(family, paths))
            }
            16 => Some(RecordKind::Bgp4Mp(Bgp4MpSubtype::from_number(subtype)?)),
            17 => Some(RecordKind::Bgp4MpEt(Bgp4MpSubtype::from_number(subtype)?)),
            _ => None,
        }
    }

    /// Returns the type number: 13, 16 or 17.
    pub fn type_code(self) -> u16
        ensures { result ≡ kind_type self }
    {
        match self {
            RecordKind::PeerIndexTable | RecordKind::Rib(_, _) => 13,
            RecordKind::Bgp4Mp(_) => 16,
            RecordKind::Bgp4MpEt(_) => 17,
        }
    }

    /// Returns the subtype number.
    pub fn subtype(self) -> u16
        ensures { result ≡ kind_subtype self }
    {
        match self {
            RecordKind::PeerIndexTable => 1,
            RecordKind::Rib(family, paths) => rib_number(family, paths),
            RecordKind::Bgp4Mp(subtype) | RecordKind::Bgp4MpEt(subtype) => subtype.number(),
        }
    }
}

/// Returns the subtype number of a RIB of an address family, with path ids or without.
fn rib_number(family: AfiSafiType, paths: bool) -> u16
    ensures { result ≡ rib_number family paths }
{
    let number = match family {
        AfiSafiType::Ipv4Unicast => 2,
        AfiSafiType::Ipv4Multicast => 3,
        AfiSafiType::Ipv6Unicast => 4,
        AfiSafiType::Ipv6Multicast => 5,
    };
    if paths { number + 6 } else { number }
}
