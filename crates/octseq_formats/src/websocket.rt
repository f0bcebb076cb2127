//! Frames of WebSocket: RFC 6455, 5.2 and 5.5.
ghost use Rattle.std.specs.Prelude.{◌≡◌, ◌≤◌, ◌+◌, ◌*◌, ◌/◌, ◌%◌, nat_le, if◌then◌else◌};

use octseq_format::{
    Any, Case, Counted, Itself, Key, Keyed, OctetArray, Reckoning, Rest, Sized, Test, Then,
    Through, U8, U16Be, U64Be, When,
};

/// What a first octet is, as a part of a key: 0 for data (opcodes 0 to 2), 256 for a whole control frame (8 to 10), 512
/// for what is reserved and for a part of a control frame.
#[derive(Debug)]
pub struct Kind;

impl Reckoning for Kind {
    ghost of = { λ first. if nat_le (first % 16) 2 then 0
        else (if nat_le 136 (first % 16 + first / 128 * 128) then (if nat_le (first % 16) 10 then 256 else 512)
        else 512) };

    fn of(first: usize) -> usize {
        if first % 16 <= 2 {
            0
        } else if 136 <= first % 16 + first / 128 * 128 {
            if first % 16 <= 10 { 256 } else { 512 }
        } else {
            512
        }
    }
}

/// The length that a key has: its lowest seven bits.
#[derive(Debug)]
pub struct Length;

impl Reckoning for Length {
    ghost of = { λ key. key % 128 };

    fn of(key: usize) -> usize {
        key % 128
    }
}

/// The key of a short frame without a mask.
#[derive(Debug)]
pub struct IsPlain;

impl Test for IsPlain {
    ghost holds = { λ key. (key ≤ 511) × ((key / 128 % 2 ≡ 0) × (key % 128 ≤ 125)) };

    fn test(key: usize) -> bool {
        key <= 511 && key / 128 % 2 == 0 && key % 128 <= 125
    }
}

/// The key of a short frame with a mask.
#[derive(Debug)]
pub struct IsMasked;

impl Test for IsMasked {
    ghost holds = { λ key. (key ≤ 511) × ((key / 128 % 2 ≡ 1) × (key % 128 ≤ 125)) };

    fn test(key: usize) -> bool {
        key <= 511 && key / 128 % 2 == 1 && key % 128 <= 125
    }
}

/// A payload, as its length and its mask say: up to 125 octets; after a length of 16 bits (126) or 64 bits (127), which
/// a control frame doesn't have; with a key of four octets before it if it is masked.
pub type Payload = (
    When<IsPlain, Through<Length, Sized<Rest, 0>>>,
    When<IsMasked, Then<Any<OctetArray<4>>, Through<Length, Sized<Rest, 0>>>>,
    Case<126, Counted<U16Be, Rest, 0>>,
    Case<127, Counted<U64Be, Rest, 0>>,
    Case<254, Keyed<(Key<U16Be, Itself>, OctetArray<4>), Sized<Rest, 0>>>,
    Case<255, Keyed<(Key<U64Be, Itself>, OctetArray<4>), Sized<Rest, 0>>>,
);

/// A frame: an octet with its opcode, one with its mask and its length, and its payload, which stays masked.
pub type Frame = Keyed<(Key<U8, Kind>, Key<U8, Itself>), Payload>;
