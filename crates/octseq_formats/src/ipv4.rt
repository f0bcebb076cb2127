//! A datagram of IPv4: RFC 791, 3.1.

use octseq_format::{
    After, Case, Counted, HighFirst, Nothing, OctetArray, Others, Rest, Scaled, Sized, Split,
    Tagged, U8, U16Be, UntilOrEnd,
};

/// The fields of a header after its version and length: type of service, the total length and an identification; flags
/// and an offset, a time to live, the protocol and a checksum; the addresses of source and destination.
pub type Fields = (
    (U8, U16Be, U16Be),
    (U16Be, U8, U8, U16Be),
    (OctetArray<4>, OctetArray<4>),
);

/// A header: in one octet, version 4 and the number of words of four octets, which is five and those of the options;
/// its fields; and the octets of its options. The value has no number of words: the options tell it.
pub type Header = Tagged<
    U8,
    After<Fields, Split<HighFirst<4>, Case<4, Nothing>, Scaled<4, Sized<Rest, 20>>>>,
>;

/// A datagram: its header, and its payload.
pub type Datagram = (Header, Rest);

/// An option of IPv4 or TCP: 0 ends the options, and what follows it is padding; 1 is padding between options; any
/// other has a length, which counts all of the option.
pub type HeaderOption = Tagged<
    U8,
    (
        Case<0, Nothing>,
        Case<1, Nothing>,
        Others<Counted<U8, Rest, 2>>,
    ),
>;

/// Options of IPv4 or TCP, up to their end or the option 0, after which the octets are kept as they are.
pub type Options = UntilOrEnd<U8, 0, (Case<1, Nothing>, Others<Counted<U8, Rest, 2>>)>;
