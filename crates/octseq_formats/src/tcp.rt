//! A segment of TCP: RFC 9293, 3.1. Its options are as those of IPv4 ([`Options`](crate::ipv4::Options)).

use octseq_format::{
    After, HighFirst, Nothing, Others, Rest, Scaled, Sized, Split, Tagged, U16Be, U32Be,
};

/// The fields of a header before its data offset: the ports of source and destination, a sequence number and one that
/// is acknowledged.
pub type First = (U16Be, U16Be, U32Be, U32Be);

/// The rest of a header: in two octets, the data offset, which is five words of four octets and those of the options,
/// and the flags; a window, a checksum and an urgent pointer; and the octets of its options, which tell the data
/// offset.
pub type Second = Tagged<
    U16Be,
    After<(U16Be, U16Be, U16Be), Split<HighFirst<12>, Scaled<4, Sized<Rest, 20>>, Others<Nothing>>>,
>;

/// A segment: its header, and its payload.
pub type Segment = (First, Second, Rest);
