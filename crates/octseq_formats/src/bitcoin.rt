//! Transactions of Bitcoin, with and without witnesses (BIP 144), and messages.
ghost use Rattle.std.specs.Prelude.{◌≡◌, ◌*◌, ◌/◌, ◌%◌, ◌||◌, min, nat_eq, if◌then◌else◌};

use octseq_format::{
    Any, Case, CompactSize, Const, Counted, Itself, Key, Keyed, ManyBy, OctetArray, Reckoning,
    Rest, Sized, Test, Then, Through, Times, U8, U32Be, U32Le, U64Be, U64Le, When,
};

/// An input: the hash of a transaction and the index of an output of it, a script, and a sequence number.
pub type Input = (OctetArray<32>, U32Le, Counted<CompactSize, Rest, 0>, U32Le);

/// An output: a value, and a script.
pub type Output = (U64Le, Counted<CompactSize, Rest, 0>);

/// A witness: items after their count.
pub type Witness = Times<CompactSize, Counted<CompactSize, Rest, 0>>;

/// A count of inputs.
pub type Count = Key<CompactSize, Itself>;

/// The flag 1, and a count of inputs.
pub type WitnessedCount = (Const<U8, 1>, Count);

/// The flag 1, a count of inputs and as many of them, outputs after their count, a witness for each input, and the lock
/// time.
pub type WithWitnesses = (
    Const<U8, 1>,
    Keyed<
        Count,
        Then<
            ManyBy<Input>,
            Then<Any<Times<CompactSize, Output>>, Then<ManyBy<Witness>, Any<U32Le>>>,
        >,
    >,
);

/// A transaction: its version and a count of inputs. If it is 0, a flag follows, and there are witnesses; otherwise as
/// many inputs, outputs after their count, and the lock time.
pub type Transaction = Keyed<
    (U32Le, Count),
    (
        Case<0, WithWitnesses>,
        Then<ManyBy<Input>, Any<(Times<CompactSize, Output>, U32Le)>>,
    ),
>;

/// A command by its first eight octets, as a part of a key: 1 for `inv` and `getdata`, otherwise 0.
#[derive(Debug)]
pub struct Command;

impl Reckoning for Command {
    ghost of = { λ name. if (nat_eq name 7597139363792683008 || nat_eq name 7450489133034922240) then 1 else 0 };

    fn of(name: usize) -> usize {
        if name == 0x696E_7600_0000_0000 || name == 0x6765_7464_6174_6100 {
            1
        } else {
            0
        }
    }
}

/// The length of a payload, as a part of a key: four times as much.
#[derive(Debug)]
pub struct LengthPart;

impl Reckoning for LengthPart {
    ghost of = { λ len. min (len * 4) 18446744073709551615 };

    fn of(len: usize) -> usize {
        len.saturating_mul(4)
    }
}

/// The length of a payload, from a key.
#[derive(Debug)]
pub struct PayloadLength;

impl Reckoning for PayloadLength {
    ghost of = { λ key. key / 4 };

    fn of(key: usize) -> usize {
        key / 4
    }
}

/// The key of a payload that is an inventory.
#[derive(Debug)]
pub struct IsInventory;

impl Test for IsInventory {
    ghost holds = { λ key. key % 4 ≡ 1 };

    fn test(key: usize) -> bool {
        key % 4 == 1
    }
}

/// Items of an inventory after their count: a type, and a hash.
pub type Inventory = Times<CompactSize, (U32Le, OctetArray<32>)>;

/// A payload: an inventory, or any octets.
pub type Payload = (
    When<IsInventory, Through<PayloadLength, Sized<Inventory, 0>>>,
    Through<PayloadLength, Sized<Rest, 0>>,
);

/// A message: a magic number, a command of twelve octets, the length of the payload, its checksum, and the payload.
pub type Message = Keyed<
    (
        U32Be,
        Key<U64Be, Command>,
        U32Be,
        Key<U32Le, LengthPart>,
        U32Be,
    ),
    Payload,
>;
