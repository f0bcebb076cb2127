//! A packet of RTP: RFC 3550, 5.1 and 5.3.1. Its first octet decides two parts that come later.

use octseq_format::{
    After, Bits, Case, Flag, If, IsSet, LowFirst, ManyBy, Nothing, Others, Rest, Split, Tagged,
    Times, U8, U16Be, U32Be, UInt,
};

/// The fields that each packet has: a marker and the payload's type; a sequence number, a timestamp, and the source.
pub type Fields = (Bits<U8, (Flag, UInt<7>)>, U16Be, U32Be, U32Be);

/// What a profile says, and words of 32 bits after their count.
pub type Extension = (U16Be, Times<U16Be, U32Be>);

/// The four highest bits of a first octet, from the lowest on: whether there is an extension, and it; whether the
/// payload ends with padding; and version 2.
pub type Upper = Split<
    LowFirst<1>,
    If<IsSet, Extension>,
    Split<LowFirst<1>, Others<Nothing>, Case<2, Nothing>>,
>;

/// A packet: in its first octet, a count of contributing sources in the four lowest bits, and the bits of `Upper`; its
/// fields; the sources, and an extension; and the payload with its padding. The value has no count and no flag of an
/// extension: the sources and the extension tell them.
pub type Packet = (
    Tagged<U8, After<Fields, Split<LowFirst<4>, ManyBy<U32Be>, Upper>>>,
    Rest,
);
