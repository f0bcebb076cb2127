//! SOCKS version 5: RFC 1928, 3, 4 and 6.

use octseq_format::{Case, Const, Counted, OctetArray, Rest, Tagged, U8, U16Be};

/// The version.
pub type Version = Const<U8, 5>;

/// What a client offers: the version, and methods of authentication after their count.
pub type Methods = (Version, Counted<U8, Rest, 0>);

/// An address after its type: four octets (1), a name after its length (3), or sixteen octets (4).
pub type Address = Tagged<
    U8,
    (
        Case<1, OctetArray<4>>,
        Case<3, Counted<U8, Rest, 0>>,
        Case<4, OctetArray<16>>,
    ),
>;

/// A request: the version, a command, a reserved octet, an address and a port.
pub type Request = (Version, U8, Const<U8, 0>, Address, U16Be);

/// A reply: the version, what came of the request, a reserved octet, an address and a port.
pub type Reply = (Version, U8, Const<U8, 0>, Address, U16Be);
