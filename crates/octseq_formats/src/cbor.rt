//! CBOR as its heads, in order: RFC 8949, 3.
ghost use Rattle.std.specs.Prelude.{◌≡◌, ◌≤◌, ◌/◌, ◌%◌, ◌⊎◌};

use octseq_format::{
    Any, Case, Counted, Itself, Key, Keyed, Nothing, Reckoning, Repeated, Rest, Sized, Test,
    Through, U8, U16Be, U32Be, U64Be, When, Where,
};

/// The additional information: the lowest five bits of a first octet.
#[derive(Debug)]
pub struct Information;

impl Reckoning for Information {
    ghost of = { λ first. first % 32 };

    fn of(first: usize) -> usize {
        first % 32
    }
}

/// Information that is the argument itself.
#[derive(Debug)]
pub struct IsArgument;

impl Test for IsArgument {
    ghost holds = { λ information. information ≤ 23 };

    fn test(information: usize) -> bool {
        information <= 23
    }
}

/// The first octet of a string: major types 2 and 3.
#[derive(Debug)]
pub struct IsString;

impl Test for IsString {
    ghost holds = { λ first. (2 ≤ first / 32) × (first / 32 ≤ 3) };

    fn test(first: usize) -> bool {
        2 <= first / 32 && first / 32 <= 3
    }
}

/// The first octet of an array or a map without a length, or of a break.
#[derive(Debug)]
pub struct IsOpen;

impl Test for IsOpen {
    ghost holds = { λ first. (first ≡ 159) ⊎ ((first ≡ 191) ⊎ (first ≡ 255)) };

    fn test(first: usize) -> bool {
        first == 0x9F || first == 0xBF || first == 0xFF
    }
}

/// A simple value that has an octet of its own.
#[derive(Debug)]
pub struct IsSimple;

impl Test for IsSimple {
    ghost holds = { λ value. 32 ≤ value };

    fn test(value: usize) -> bool {
        32 <= value
    }
}

/// A string by its information: in as many octets as it says, after a length of 1, 2, 4 or 8 octets, or none of its
/// own, if chunks follow up to a break.
pub type Str = (
    When<IsArgument, Sized<Rest, 0>>,
    Case<24, Counted<U8, Rest, 0>>,
    Case<25, Counted<U16Be, Rest, 0>>,
    Case<26, Counted<U32Be, Rest, 0>>,
    Case<27, Counted<U64Be, Rest, 0>>,
    Case<31, Nothing>,
);

/// An argument by its information: itself, or 1, 2, 4 or 8 octets.
pub type Argument = (
    When<IsArgument, Any<Nothing>>,
    Case<24, U8>,
    Case<25, U16Be>,
    Case<26, U32Be>,
    Case<27, U64Be>,
);

/// A head, with the octets of a string.
pub type Item = Keyed<
    Key<U8, Itself>,
    (
        Case<0xF8, Where<U8, IsSimple>>,
        When<IsString, Through<Information, Str>>,
        When<IsOpen, Any<Nothing>>,
        Through<Information, Argument>,
    ),
>;

/// Heads, one after another. Whether arrays, maps and tags have their items is for the caller to check.
pub type Items = Repeated<Item>;
