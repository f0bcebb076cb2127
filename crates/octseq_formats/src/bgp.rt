//! Messages of BGP, and an UPDATE with its attributes: RFC 4271, 4.1 and 4.3. AS numbers have four octets (RFC 6793).
ghost use Rattle.std.specs.Prelude.{◌≡◌, ◌+◌, ◌*◌, ◌/◌, ◌%◌, nat_eq};

use octseq_format::{
    Any, Case, Const, Counted, Itself, Key, Keyed, Nothing, OctetArray, Others, Reckoning,
    Repeated, Rest, Sized, Switch, Tagged, Through, Times, U8, U16Be, U32Be, U64Be, WithinBy,
};

/// The type of an attribute: the low octet of its flags and type.
#[derive(Debug)]
pub struct AttributeType;

impl Reckoning for AttributeType {
    ghost of = { λ number. number % 256 };

    fn of(number: usize) -> usize {
        number % 256
    }
}

/// How many octets hold as many bits.
#[derive(Debug)]
pub struct OctetsOfBits;

impl Reckoning for OctetsOfBits {
    ghost of = { λ bits. bits / 8 + (bits % 8 + 7) / 8 };

    fn of(bits: usize) -> usize {
        bits / 8 + (bits % 8 + 7) / 8
    }
}

/// The flag that says that an attribute has a length of two octets.
#[derive(Debug)]
pub struct ExtendedLength;

impl Switch for ExtendedLength {
    ghost on = { λ number. nat_eq (number / 4096 % 2) 1 };

    fn is_on(number: usize) -> bool {
        number / 4096 % 2 == 1
    }
}

/// A prefix: how many bits it has, and as many octets as hold them.
pub type Prefix = Keyed<Key<U8, OctetsOfBits>, Sized<Rest, 0>>;

/// A segment of a path: its type, and the AS numbers after their count.
pub type Segment = (U8, Times<U8, U32Be>);

/// The value of an attribute, by its type: ORIGIN, AS_PATH, NEXT_HOP, MULTI_EXIT_DISC, LOCAL_PREF, ATOMIC_AGGREGATE,
/// AGGREGATOR, COMMUNITIES, and the octets of any other. They are in pairs, as a check of a message stops at its limit
/// where eight are side by side.
pub type AttributeValue = (
    (
        (Case<1, U8>, Case<2, Repeated<Segment>>),
        (Case<3, OctetArray<4>>, Case<4, U32Be>),
    ),
    (
        (Case<5, U32Be>, Case<6, Nothing>),
        (
            (Case<7, (U32Be, OctetArray<4>)>, Case<8, Repeated<U32Be>>),
            Any<Rest>,
        ),
    ),
);

/// A path attribute: its flags and its type, a length of one octet or two, and its value.
pub type Attribute = Keyed<
    Key<U16Be, Itself>,
    WithinBy<ExtendedLength, U16Be, U8, Through<AttributeType, AttributeValue>>,
>;

/// What an UPDATE says: routes that are withdrawn and path attributes, each after their length, and the prefixes that
/// have these attributes.
pub type Update = (
    Counted<U16Be, Repeated<Prefix>, 0>,
    Counted<U16Be, Repeated<Attribute>, 0>,
    Repeated<Prefix>,
);

/// A type, and what a message of it says: UPDATE, KEEPALIVE, or the octets of another.
pub type Body = Tagged<U8, (Case<2, Update>, Case<4, Nothing>, Others<Rest>)>;

/// 64 bits of a marker, which are ones.
pub type HalfMarker = Const<U64Be, 0xFFFF_FFFF_FFFF_FFFF>;

/// A message: its marker, the length of all of it, and its type with what it says.
pub type Message = (HalfMarker, HalfMarker, Counted<U16Be, Body, 18>);
