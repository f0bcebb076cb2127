//! Protocol Buffers messages, as their documentation says on its page "Encoding".
ghost use Rattle.std.specs.Prelude.{◌≡◌, ◌%◌};

use octseq_format::{
    Case, Counted, Itself, Key, Keyed, Leb128, Reckoning, Repeated, Rest, U32Le, U64Le,
};

/// The wire type: the lowest three bits of a key.
#[derive(Debug)]
pub struct WireType;

impl Reckoning for WireType {
    ghost of = { λ number. number % 8 };

    fn of(number: usize) -> usize {
        number % 8
    }
}

/// A number of 64 bits in at most ten octets. It is written in the fewest.
pub type Varint = Leb128<10, 64>;

/// A field: its key, eight times its number plus its wire type, and a value. The types are a varint (0), eight octets
/// (1), octets after their length (2) and four octets (5).
pub type Field = Keyed<
    Key<Varint, WireType>,
    (
        Case<0, Key<Varint, Itself>>,
        Case<1, U64Le>,
        Case<2, Counted<Varint, Rest, 0>>,
        Case<5, U32Le>,
    ),
>;

/// A message.
pub type Message = Repeated<Field>;
