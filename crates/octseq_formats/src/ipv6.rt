//! A packet of IPv6 and its extension headers: RFC 8200, 3 and 4; RFC 4302, 2.2.
ghost use Rattle.std.specs.Prelude.{◌≡◌, ◌+◌, ◌*◌, ◌/◌, ◌%◌, ◌⊎◌, min};

use octseq_format::{
    Any, Case, Counted, Itself, Key, Keyed, Nothing, OctetArray, Others, Reckoning, Rest, Sized,
    Tagged, Test, U8, U16Be, U32Be, When, Where,
};

/// The first four octets of a packet: version 6, with a traffic class and a flow label.
#[derive(Debug)]
pub struct IsVersion6;

impl Test for IsVersion6 {
    ghost holds = { λ bits. bits / 268435456 ≡ 6 };

    fn test(bits: usize) -> bool {
        bits / 0x1000_0000 == 6
    }
}

/// A packet: version, class and label; the length of what follows the header, the number of the next header and a hop
/// limit; the addresses of source and destination; and headers and a payload.
pub type Packet = (
    (Where<U32Be, IsVersion6>, U16Be, U8, U8),
    (OctetArray<16>, OctetArray<16>, Rest),
);

/// The number of an extension header in units of eight octets: hop-by-hop options, routing, and destination options.
#[derive(Debug)]
pub struct IsInEights;

impl Test for IsInEights {
    ghost holds = { λ number. (number ≡ 0) ⊎ ((number ≡ 43) ⊎ (number ≡ 60)) };

    fn test(number: usize) -> bool {
        number == 0 || number == 43 || number == 60
    }
}

/// How many octets follow the length of such a header: six, and eight for each that it counts.
#[derive(Debug)]
pub struct EightsLen;

impl Reckoning for EightsLen {
    ghost of = { λ len. min (min (len * 8) 18446744073709551615 + 6) 18446744073709551615 };

    fn of(len: usize) -> usize {
        len.saturating_mul(8).saturating_add(6)
    }
}

/// How many octets follow the length of an authentication header: six, and four for each that it counts.
#[derive(Debug)]
pub struct FoursLen;

impl Reckoning for FoursLen {
    ghost of = { λ len. min (min (len * 4) 18446744073709551615 + 6) 18446744073709551615 };

    fn of(len: usize) -> usize {
        len.saturating_mul(4).saturating_add(6)
    }
}

/// An extension header by its number: the number of the header after it, a length, and its octets; or a fragment
/// header. Any other number ends the chain of headers.
pub type Extension = (
    When<IsInEights, Any<Keyed<(U8, Key<U8, EightsLen>), Sized<Rest, 0>>>>,
    Case<44, (U8, U8, U16Be, U32Be)>,
    Case<51, Keyed<(U8, Key<U8, FoursLen>), Sized<Rest, 0>>>,
);

/// An option of a header of options: 0 is padding of one octet, and any other has a length, which doesn't count itself.
pub type HeaderOption = Tagged<U8, (Case<0, Nothing>, Others<Counted<U8, Rest, 0>>)>;

/// The number of a header, and the header.
pub type Numbered = Keyed<Key<U8, Itself>, Extension>;
