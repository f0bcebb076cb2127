//! WebAssembly modules as their sections: WebAssembly core, 5.5.
ghost use Rattle.std.specs.Prelude.{◌≤◌};

use octseq_format::{
    Case, Const, Counted, Itself, Key, Leb128, Others, Repeated, Rest, Tagged, Test, U8, U32Be,
    U32Le, When,
};

/// A number of 32 bits in at most five octets. It is written in the fewest.
pub type Number = Leb128<5, 32>;

/// The number of a section that there is.
#[derive(Debug)]
pub struct IsSection;

impl Test for IsSection {
    ghost holds = { λ number. number ≤ 12 };

    fn test(number: usize) -> bool {
        number <= 12
    }
}

/// A section: its number, and its contents after their size. A custom section (0) has any octets, the start section (8)
/// the index of a function, all others a list: its count, and the octets of its items.
pub type Section = Tagged<
    U8,
    (
        Case<0, Counted<Number, Rest, 0>>,
        Case<8, Counted<Number, Key<Number, Itself>, 0>>,
        When<IsSection, Others<Counted<Number, (Key<Number, Itself>, Rest), 0>>>,
    ),
>;

/// What a module begins with: a magic number, and the version 1.
pub type Header = (Const<U32Be, 0x0061_736D>, Const<U32Le, 1>);

/// A module: its header, and sections. Their order is for the caller to check.
pub type Module = (Header, Repeated<Section>);
