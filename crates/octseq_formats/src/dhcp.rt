//! DHCP: packets of RFC 2131, 2, with the options of RFC 2132.

use octseq::AsOctets;
use octseq_format::{
    Case, Const, Counted, Fields, Format, Nothing, OctetArray, Of, OneOf3, Optional, Others,
    Repeated, Rest, Tagged, U8, U16Be, U32Be, Until, Window,
};

/// An option.
#[derive(Clone, Copy, Debug, Drop)]
pub enum DhcpOption<R: AsOctets + Copy> {
    /// Padding.
    Pad,
    /// The end of the options.
    End,
    /// Any other: its code and its octets.
    Other(usize, Window<R>),
}

impl<R: AsOctets + Copy> Fields<R> for DhcpOption<R> {
    ghost use Rattle.octseq_formats.specs.Dhcp.{option_fields};

    type Format = Tagged<
        U8,
        (
            Case<0, OctetArray<0>>,
            Case<255, OctetArray<0>>,
            Others<Counted<U8, Rest, 0>>,
        ),
    >;

    ghost fields = { option_fields };

    fn from_fields(parts: <Self::Format as Format<R>>::Value) -> Self {
        match parts {
            OneOf3::First(_) => DhcpOption::Pad,
            OneOf3::Second(_) => DhcpOption::End,
            OneOf3::Third((code, octets)) => DhcpOption::Other(code, octets),
        }
    }

    fn to_fields(&self) -> <Self::Format as Format<R>>::Value {
        match *self {
            DhcpOption::Pad => OneOf3::First([]),
            DhcpOption::End => OneOf3::Second([]),
            DhcpOption::Other(code, octets) => OneOf3::Third((code, octets)),
        }
    }
}

/// Options after the magic cookie 63 82 53 63, or anything after another number.
pub type Vendor<R> = Tagged<U32Be, (Case<0x63825363, Repeated<Of<DhcpOption<R>>>>, Others<Rest>)>;

/// A packet: operation, hardware type, length of hardware addresses, hops; transaction, seconds, flags; the addresses
/// of client, yours, server and relay; the client's hardware address, the server's name, a file's name, and options.
///
/// Octets after the option `End` are read as options too: in most packets they are padding.
pub type Bootp<R> = (
    (U8, U8, U8, U8),
    (U32Be, U16Be, U16Be),
    (U32Be, U32Be, U32Be, U32Be),
    OctetArray<16>,
    OctetArray<64>,
    OctetArray<128>,
    Optional<Vendor<R>>,
);

/// Options: their codes, and octets after their length. 0 is padding without a length, 255 the end.
pub type Options = Until<U8, 255, (Case<0, Nothing>, Others<Counted<U8, Rest, 0>>)>;

/// A DHCP packet: the fields of [`Bootp`], the magic cookie, options up to their end, and what follows them.
pub type Packet = (
    (U8, U8, U8, U8),
    (U32Be, U16Be, U16Be),
    (U32Be, U32Be, U32Be, U32Be),
    OctetArray<16>,
    OctetArray<64>,
    OctetArray<128>,
    Const<U32Be, 0x6382_5363>,
    (Options, Rest),
);
