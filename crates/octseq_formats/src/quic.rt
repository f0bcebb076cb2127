//! Long headers of QUIC: RFC 9000, 17.2, and RFC 8999, 6.
ghost use Rattle.std.specs.Prelude.{◌≤◌, ◌/◌, ◌%◌, nat_le, if◌then◌else◌};

use octseq_format::{
    Any, Case, Counted, Key, Keyed, QuicInteger, Reckoning, Repeated, Rest, Sized, Tagged, Test,
    U8, U32Be, When,
};

/// The type of a packet, from its first octet: 0 to 3 for a long header, 4 for a short one.
#[derive(Debug)]
pub struct PacketType;

impl Reckoning for PacketType {
    ghost of = { λ first. if nat_le 128 first then first / 16 % 4 else 4 };

    fn of(first: usize) -> usize {
        if 128 <= first { first / 16 % 4 } else { 4 }
    }
}

/// The version, as a part of a key: 0 for version 1, 8 for version 0, 16 for others.
#[derive(Debug)]
pub struct VersionPart;

impl Reckoning for VersionPart {
    ghost of = { λ version. if nat_le version 0 then 8 else (if nat_le version 1 then 0 else 16) };

    fn of(version: usize) -> usize {
        if version <= 0 {
            8
        } else if version <= 1 {
            0
        } else {
            16
        }
    }
}

/// The length of a connection identifier of version 1.
#[derive(Debug)]
pub struct AtMostTwenty;

impl Test for AtMostTwenty {
    ghost holds = { λ len. len ≤ 20 };

    fn test(len: usize) -> bool {
        len <= 20
    }
}

/// A connection identifier of version 1: at most 20 octets.
pub type ConnectionId = Tagged<U8, When<AtMostTwenty, Sized<Rest, 0>>>;

/// Octets after their length.
pub type Field = Counted<QuicInteger, Rest, 0>;

/// A key of version 0, whatever the type.
#[derive(Debug)]
pub struct IsNegotiation;

impl Test for IsNegotiation {
    ghost holds = { λ key. (8 ≤ key) × (key ≤ 11) };

    fn test(key: usize) -> bool {
        8 <= key && key <= 11
    }
}

/// What follows a first octet and a version: two connection identifiers, then by the type of version 1: Initial (0) a
/// token, what its length counts, and what is left of the datagram; 0-RTT (1) and Handshake (2) the same without a
/// token; Retry (3) a token and a tag of 16 octets. A Version Negotiation (version 0) has a list of versions.
pub type Body = (
    Case<0, (ConnectionId, ConnectionId, Field, Field, Rest)>,
    Case<1, (ConnectionId, ConnectionId, Field, Rest)>,
    Case<2, (ConnectionId, ConnectionId, Field, Rest)>,
    Case<3, (ConnectionId, ConnectionId, Rest)>,
    When<IsNegotiation, Any<(Counted<U8, Rest, 0>, Counted<U8, Rest, 0>, Repeated<U32Be>)>>,
);

/// A datagram that begins with a long header: a first octet, a version, and what they decide. The lowest bits of the
/// first octet are protected.
pub type LongHeader = Keyed<(Key<U8, PacketType>, Key<U32Be, VersionPart>), Body>;
