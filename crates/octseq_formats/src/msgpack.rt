//! MessagePack as its heads, in order, as its specification says.
ghost use Rattle.std.specs.Prelude.{◌≡◌, ◌≤◌, ◌%◌, ◌⊎◌};

use octseq_format::{
    Any, Case, Counted, I8, Itself, Key, Keyed, Nothing, OctetArray, Reckoning, Rest, Sized, Test,
    Through, U8, U16Be, U32Be, U64Be, When,
};

/// The length of a short string: the lowest five bits of its first octet.
#[derive(Debug)]
pub struct ShortLength;

impl Reckoning for ShortLength {
    ghost of = { λ first. first % 32 };

    fn of(first: usize) -> usize {
        first % 32
    }
}

/// A first octet that is all of an item: a small integer, map or array, nil, false or true.
#[derive(Debug)]
pub struct IsAlone;

impl Test for IsAlone {
    ghost holds = { λ first. (first ≤ 159) ⊎ ((first ≡ 192) ⊎ (((194 ≤ first) × (first ≤ 195)) ⊎ (224 ≤ first))) };

    fn test(first: usize) -> bool {
        first <= 0x9F || first == 0xC0 || 0xC2 <= first && first <= 0xC3 || 0xE0 <= first
    }
}

/// The first octet of a string of at most 31 octets.
#[derive(Debug)]
pub struct IsShort;

impl Test for IsShort {
    ghost holds = { λ first. (160 ≤ first) × (first ≤ 191) };

    fn test(first: usize) -> bool {
        0xA0 <= first && first <= 0xBF
    }
}

/// An extension: its type, and octets that a length before the type counts.
pub type Extension<L> = Keyed<(Key<L, Itself>, I8), Sized<Rest, 0>>;

/// Binary octets, extensions and strings: after a length of 1, 2 or 4 octets.
pub type Lengthy = (
    Case<0xC4, Counted<U8, Rest, 0>>,
    Case<0xC5, Counted<U16Be, Rest, 0>>,
    Case<0xC6, Counted<U32Be, Rest, 0>>,
    (
        Case<0xC7, Extension<U8>>,
        Case<0xC8, Extension<U16Be>>,
        Case<0xC9, Extension<U32Be>>,
    ),
    Case<0xD9, Counted<U8, Rest, 0>>,
    Case<0xDA, Counted<U16Be, Rest, 0>>,
    Case<0xDB, Counted<U32Be, Rest, 0>>,
);

/// Floats and integers, as the octets that they have, and counts of arrays and maps.
pub type Fixed = (
    (Case<0xCA, U32Be>, Case<0xCB, U64Be>),
    (
        Case<0xCC, U8>,
        Case<0xCD, U16Be>,
        Case<0xCE, U32Be>,
        Case<0xCF, U64Be>,
    ),
    (
        Case<0xD0, U8>,
        Case<0xD1, U16Be>,
        Case<0xD2, U32Be>,
        Case<0xD3, U64Be>,
    ),
    (
        Case<0xDC, U16Be>,
        Case<0xDD, U32Be>,
        Case<0xDE, U16Be>,
        Case<0xDF, U32Be>,
    ),
);

/// Extensions of 1, 2, 4, 8 and 16 octets after their type.
pub type Short = (
    Case<0xD4, (I8, OctetArray<1>)>,
    Case<0xD5, (I8, OctetArray<2>)>,
    Case<0xD6, (I8, OctetArray<4>)>,
    Case<0xD7, (I8, OctetArray<8>)>,
    Case<0xD8, (I8, OctetArray<16>)>,
);

/// A head, with the octets of a string, binary octets or an extension. C1 is none. Whether arrays and maps have their
/// items is for the caller to check.
pub type Item = Keyed<
    Key<U8, Itself>,
    (
        When<IsAlone, Any<Nothing>>,
        When<IsShort, Through<ShortLength, Sized<Rest, 0>>>,
        Lengthy,
        Fixed,
        Short,
    ),
>;
