//! Values of DER: X.690, 8.1 and 10.1.
ghost use Rattle.std.specs.Prelude.{◌≡◌, ◌≤◌, ◌<◌, ◌/◌, ◌%◌};

use octseq_format::{
    Any, Counted, DerLength, Itself, Key, Keyed, Repeated, Rest, Test, U8, When, Where,
};

/// The first octet of a value whose tag number is in it, and which has values inside.
#[derive(Debug)]
pub struct IsConstructed;

impl Test for IsConstructed {
    ghost holds = { λ first. (first / 32 % 2 ≡ 1) × (first % 32 < 31) };

    fn test(first: usize) -> bool {
        first / 32 % 2 == 1 && first % 32 < 31
    }
}

/// The first octet of a value whose tag number is in it, and which has octets.
#[derive(Debug)]
pub struct IsPrimitive;

impl Test for IsPrimitive {
    ghost holds = { λ first. (first / 32 % 2 ≡ 0) × (first % 32 < 31) };

    fn test(first: usize) -> bool {
        first / 32 % 2 == 0 && first % 32 < 31
    }
}

/// The first octet of a value with its tag number after it, and with values inside.
#[derive(Debug)]
pub struct IsConstructedWide;

impl Test for IsConstructedWide {
    ghost holds = { λ first. (first / 32 % 2 ≡ 1) × (first % 32 ≡ 31) };

    fn test(first: usize) -> bool {
        first / 32 % 2 == 1 && first % 32 == 31
    }
}

/// The first octet of a value with its tag number after it, and with octets.
#[derive(Debug)]
pub struct IsPrimitiveWide;

impl Test for IsPrimitiveWide {
    ghost holds = { λ first. (first / 32 % 2 ≡ 0) × (first % 32 ≡ 31) };

    fn test(first: usize) -> bool {
        first / 32 % 2 == 0 && first % 32 == 31
    }
}

/// A tag number in an octet of its own.
#[derive(Debug)]
pub struct IsTagNumber;

impl Test for IsTagNumber {
    ghost holds = { λ number. (31 ≤ number) × (number < 128) };

    fn test(number: usize) -> bool {
        31 <= number && number < 128
    }
}

/// A tag number from 31 to 127. Greater ones aren't read.
pub type TagNumber = Where<U8, IsTagNumber>;

/// A length, in the fewest octets.
pub type Length = Key<DerLength, Itself>;

/// A head: the class and the tag of a value, and its length, followed by its octets where it has no values inside.
pub type Head = Keyed<
    Key<U8, Itself>,
    (
        (
            When<IsConstructed, Any<Length>>,
            When<IsPrimitive, Any<Counted<DerLength, Rest, 0>>>,
        ),
        (
            When<IsConstructedWide, Any<(TagNumber, Length)>>,
            When<IsPrimitiveWide, Any<(TagNumber, Counted<DerLength, Rest, 0>)>>,
        ),
    ),
>;

/// Heads, one after another. Whether the values inside of one fill its length is for the caller to check.
pub type Heads = Repeated<Head>;
