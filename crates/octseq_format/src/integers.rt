//! Big-endian and little-endian integers.
ghost use Rattle.std.specs.Prelude.{◌≡◌, ℕ, ◌+◌, ◌<◌, ◌++◌, length, true, IsErr, IsTrue, IsFalse, OnOk, OnErr, IfOk};
ghost use Rattle.octseq.specs.Limit.{ExceedsLimit, IsWithin};
ghost use Rattle.octseq.specs.Parser.{window, sequence, Takes};
ghost use Rattle.octseq.specs.Window.{Window, next};
ghost use Rattle.std.proofs.Common.{rules};
ghost use Rattle.octseq_format.specs.Integers.{Kind, unsigned_kind, signed_kind, octet_kind};
ghost use Rattle.octseq_format.specs.Stop.{stops_here};

use crate::answer::Yes;
use crate::format::Format;
use octseq::compose::{
    append_i8, append_i16_be, append_i16_le, append_i32_be, append_i32_le, append_i64_be,
    append_i64_le, append_i128_be, append_i128_le, append_u8, append_u16_be, append_u16_le,
    append_u24_be, append_u24_le, append_u32_be, append_u32_le, append_u48_be, append_u48_le,
    append_u64_be, append_u64_le, append_u128_be, append_u128_le,
};
use octseq::{AsOctets, Malformed, OctetsBuilder, Parser, ShortInput, Truncate, Turns};
use std::alloc::AllocError;
use std::marker::PhantomData;

/// Integers of one width and sign, read and written in both orders.
pub trait Integer {
    /// The Rust type of the integers.
    type Value: Copy + Drop;

    ghost kind: { Kind };

    ghost number: { Self.Value → kind.Number };

    /// Returns the width in octets.
    fn width() -> usize
        ensures { result ≡ kind.width };

    /// Whether a value fits this many octets.
    fn fits(value: Self::Value) -> bool
        ensures yes { IsTrue result → kind.Fits (number value) }
        ensures no { IsFalse result → ¬ kind.Fits (number value) };

    /// Reads the next one, big-endian.
    fn parse_be<R: AsOctets>(parser: &mut Parser<R>) -> Result<Self::Value, ShortInput>
        ensures taken { Takes result kind.width parser.old parser.new }
        ensures value { IfOk result (λ value. number value ≡ kind.be (next kind.width (window parser.old))) };

    /// Reads the next one, little-endian.
    fn parse_le<R: AsOctets>(parser: &mut Parser<R>) -> Result<Self::Value, ShortInput>
        ensures taken { Takes result kind.width parser.old parser.new }
        ensures value { IfOk result (λ value. number value ≡ kind.le (next kind.width (window parser.old))) };

    /// Appends one, big-endian.
    fn put_be<B: OctetsBuilder>(builder: &mut B, value: Self::Value) -> Result<(), AllocError>
        requires fit { kind.Fits (number value) }
        requires within { IsWithin B.limit (length (B.content builder.now) + length (kind.octets_be (number value))) }
        ensures ok { OnOk result (B.content builder.new ≡ B.content builder.old ++ kind.octets_be (number value)) }
        ensures err { OnErr result (B.content builder.new ≡ B.content builder.old) }
        ensures memory { IsErr result → B.asks ≡ true }
        ensures borrows { B.borrows builder.new ≡ B.borrows builder.old };

    /// Appends one, little-endian.
    fn put_le<B: OctetsBuilder>(builder: &mut B, value: Self::Value) -> Result<(), AllocError>
        requires fit { kind.Fits (number value) }
        requires within { IsWithin B.limit (length (B.content builder.now) + length (kind.octets_le (number value))) }
        ensures ok { OnOk result (B.content builder.new ≡ B.content builder.old ++ kind.octets_le (number value)) }
        ensures err { OnErr result (B.content builder.new ≡ B.content builder.old) }
        ensures memory { IsErr result → B.asks ≡ true }
        ensures borrows { B.borrows builder.new ≡ B.borrows builder.old };

    ghost wide: { 0 < kind.width };
}

impl Integer for u8 {
    type Value = u8;

    ghost kind = { octet_kind (unsigned_kind 1) };

    ghost number = { λ n. n };

    fn width() -> usize {
        1
    }

    fn fits(_value: u8) -> bool {
        true
    }

    fn parse_be<R: AsOctets>(parser: &mut Parser<R>) -> Result<u8, ShortInput> {
        parser.parse_u8()
    }

    fn parse_le<R: AsOctets>(parser: &mut Parser<R>) -> Result<u8, ShortInput> {
        parser.parse_u8()
    }

    fn put_be<B: OctetsBuilder>(builder: &mut B, value: u8) -> Result<(), AllocError> {
        append_u8(builder, value).map_err(|_| AllocError)
    }

    fn put_le<B: OctetsBuilder>(builder: &mut B, value: u8) -> Result<(), AllocError> {
        append_u8(builder, value).map_err(|_| AllocError)
    }

    ghost wide = { Prim.search rules };
}

impl Integer for u16 {
    type Value = u16;

    ghost kind = { unsigned_kind 2 };

    ghost number = { λ n. n };

    fn width() -> usize {
        2
    }

    fn fits(_value: u16) -> bool {
        true
    }

    fn parse_be<R: AsOctets>(parser: &mut Parser<R>) -> Result<u16, ShortInput> {
        parser.parse_u16_be()
    }

    fn parse_le<R: AsOctets>(parser: &mut Parser<R>) -> Result<u16, ShortInput> {
        parser.parse_u16_le()
    }

    fn put_be<B: OctetsBuilder>(builder: &mut B, value: u16) -> Result<(), AllocError> {
        append_u16_be(builder, value).map_err(|_| AllocError)
    }

    fn put_le<B: OctetsBuilder>(builder: &mut B, value: u16) -> Result<(), AllocError> {
        append_u16_le(builder, value).map_err(|_| AllocError)
    }

    ghost wide = { Prim.search rules };
}

/// Unsigned integers of 3 octets, as `u32`s.
#[derive(Debug)]
pub struct U24;

impl Integer for U24 {
    type Value = u32;

    ghost kind = { unsigned_kind 3 };

    ghost number = { λ n. n };

    fn width() -> usize {
        3
    }

    fn fits(value: u32) -> bool {
        value < 0x100_0000
    }

    fn parse_be<R: AsOctets>(parser: &mut Parser<R>) -> Result<u32, ShortInput> {
        parser.parse_u24_be()
    }

    fn parse_le<R: AsOctets>(parser: &mut Parser<R>) -> Result<u32, ShortInput> {
        parser.parse_u24_le()
    }

    fn put_be<B: OctetsBuilder>(builder: &mut B, value: u32) -> Result<(), AllocError> {
        append_u24_be(builder, value).map_err(|_| AllocError)
    }

    fn put_le<B: OctetsBuilder>(builder: &mut B, value: u32) -> Result<(), AllocError> {
        append_u24_le(builder, value).map_err(|_| AllocError)
    }

    ghost wide = { Prim.search rules };
}

impl Integer for u32 {
    type Value = u32;

    ghost kind = { unsigned_kind 4 };

    ghost number = { λ n. n };

    fn width() -> usize {
        4
    }

    fn fits(_value: u32) -> bool {
        true
    }

    fn parse_be<R: AsOctets>(parser: &mut Parser<R>) -> Result<u32, ShortInput> {
        parser.parse_u32_be()
    }

    fn parse_le<R: AsOctets>(parser: &mut Parser<R>) -> Result<u32, ShortInput> {
        parser.parse_u32_le()
    }

    fn put_be<B: OctetsBuilder>(builder: &mut B, value: u32) -> Result<(), AllocError> {
        append_u32_be(builder, value).map_err(|_| AllocError)
    }

    fn put_le<B: OctetsBuilder>(builder: &mut B, value: u32) -> Result<(), AllocError> {
        append_u32_le(builder, value).map_err(|_| AllocError)
    }

    ghost wide = { Prim.search rules };
}

/// Unsigned integers of 6 octets, as `u64`s.
#[derive(Debug)]
pub struct U48;

impl Integer for U48 {
    type Value = u64;

    ghost kind = { unsigned_kind 6 };

    ghost number = { λ n. n };

    fn width() -> usize {
        6
    }

    fn fits(value: u64) -> bool {
        value < 0x1_0000_0000_0000
    }

    fn parse_be<R: AsOctets>(parser: &mut Parser<R>) -> Result<u64, ShortInput> {
        parser.parse_u48_be()
    }

    fn parse_le<R: AsOctets>(parser: &mut Parser<R>) -> Result<u64, ShortInput> {
        parser.parse_u48_le()
    }

    fn put_be<B: OctetsBuilder>(builder: &mut B, value: u64) -> Result<(), AllocError> {
        append_u48_be(builder, value).map_err(|_| AllocError)
    }

    fn put_le<B: OctetsBuilder>(builder: &mut B, value: u64) -> Result<(), AllocError> {
        append_u48_le(builder, value).map_err(|_| AllocError)
    }

    ghost wide = { Prim.search rules };
}

impl Integer for u64 {
    type Value = u64;

    ghost kind = { unsigned_kind 8 };

    ghost number = { λ n. n };

    fn width() -> usize {
        8
    }

    fn fits(_value: u64) -> bool {
        true
    }

    fn parse_be<R: AsOctets>(parser: &mut Parser<R>) -> Result<u64, ShortInput> {
        parser.parse_u64_be()
    }

    fn parse_le<R: AsOctets>(parser: &mut Parser<R>) -> Result<u64, ShortInput> {
        parser.parse_u64_le()
    }

    fn put_be<B: OctetsBuilder>(builder: &mut B, value: u64) -> Result<(), AllocError> {
        append_u64_be(builder, value).map_err(|_| AllocError)
    }

    fn put_le<B: OctetsBuilder>(builder: &mut B, value: u64) -> Result<(), AllocError> {
        append_u64_le(builder, value).map_err(|_| AllocError)
    }

    ghost wide = { Prim.search rules };
}

impl Integer for u128 {
    type Value = u128;

    ghost kind = { unsigned_kind 16 };

    ghost number = { λ n. n };

    fn width() -> usize {
        16
    }

    fn fits(_value: u128) -> bool {
        true
    }

    fn parse_be<R: AsOctets>(parser: &mut Parser<R>) -> Result<u128, ShortInput> {
        parser.parse_u128_be()
    }

    fn parse_le<R: AsOctets>(parser: &mut Parser<R>) -> Result<u128, ShortInput> {
        parser.parse_u128_le()
    }

    fn put_be<B: OctetsBuilder>(builder: &mut B, value: u128) -> Result<(), AllocError> {
        append_u128_be(builder, value).map_err(|_| AllocError)
    }

    fn put_le<B: OctetsBuilder>(builder: &mut B, value: u128) -> Result<(), AllocError> {
        append_u128_le(builder, value).map_err(|_| AllocError)
    }

    ghost wide = { Prim.search rules };
}

impl Integer for i8 {
    type Value = i8;

    ghost kind = { octet_kind (signed_kind 1) };

    ghost number = { λ n. n };

    fn width() -> usize {
        1
    }

    #[tactic(auto, using(octseq::proofs::Written::is_signed_1))]
    fn fits(_value: i8) -> bool {
        true
    }

    fn parse_be<R: AsOctets>(parser: &mut Parser<R>) -> Result<i8, ShortInput> {
        parser.parse_i8()
    }

    fn parse_le<R: AsOctets>(parser: &mut Parser<R>) -> Result<i8, ShortInput> {
        parser.parse_i8()
    }

    fn put_be<B: OctetsBuilder>(builder: &mut B, value: i8) -> Result<(), AllocError> {
        append_i8(builder, value).map_err(|_| AllocError)
    }

    fn put_le<B: OctetsBuilder>(builder: &mut B, value: i8) -> Result<(), AllocError> {
        append_i8(builder, value).map_err(|_| AllocError)
    }

    ghost wide = { Prim.search rules };
}

impl Integer for i16 {
    type Value = i16;

    ghost kind = { signed_kind 2 };

    ghost number = { λ n. n };

    fn width() -> usize {
        2
    }

    #[tactic(auto, using(octseq::proofs::Written::is_signed_2))]
    fn fits(_value: i16) -> bool {
        true
    }

    fn parse_be<R: AsOctets>(parser: &mut Parser<R>) -> Result<i16, ShortInput> {
        parser.parse_i16_be()
    }

    fn parse_le<R: AsOctets>(parser: &mut Parser<R>) -> Result<i16, ShortInput> {
        parser.parse_i16_le()
    }

    fn put_be<B: OctetsBuilder>(builder: &mut B, value: i16) -> Result<(), AllocError> {
        append_i16_be(builder, value).map_err(|_| AllocError)
    }

    fn put_le<B: OctetsBuilder>(builder: &mut B, value: i16) -> Result<(), AllocError> {
        append_i16_le(builder, value).map_err(|_| AllocError)
    }

    ghost wide = { Prim.search rules };
}

impl Integer for i32 {
    type Value = i32;

    ghost kind = { signed_kind 4 };

    ghost number = { λ n. n };

    fn width() -> usize {
        4
    }

    #[tactic(auto, using(octseq::proofs::Written::is_signed_4))]
    fn fits(_value: i32) -> bool {
        true
    }

    fn parse_be<R: AsOctets>(parser: &mut Parser<R>) -> Result<i32, ShortInput> {
        parser.parse_i32_be()
    }

    fn parse_le<R: AsOctets>(parser: &mut Parser<R>) -> Result<i32, ShortInput> {
        parser.parse_i32_le()
    }

    fn put_be<B: OctetsBuilder>(builder: &mut B, value: i32) -> Result<(), AllocError> {
        append_i32_be(builder, value).map_err(|_| AllocError)
    }

    fn put_le<B: OctetsBuilder>(builder: &mut B, value: i32) -> Result<(), AllocError> {
        append_i32_le(builder, value).map_err(|_| AllocError)
    }

    ghost wide = { Prim.search rules };
}

impl Integer for i64 {
    type Value = i64;

    ghost kind = { signed_kind 8 };

    ghost number = { λ n. n };

    fn width() -> usize {
        8
    }

    #[tactic(auto, using(octseq::proofs::Written::is_signed_8))]
    fn fits(_value: i64) -> bool {
        true
    }

    fn parse_be<R: AsOctets>(parser: &mut Parser<R>) -> Result<i64, ShortInput> {
        parser.parse_i64_be()
    }

    fn parse_le<R: AsOctets>(parser: &mut Parser<R>) -> Result<i64, ShortInput> {
        parser.parse_i64_le()
    }

    fn put_be<B: OctetsBuilder>(builder: &mut B, value: i64) -> Result<(), AllocError> {
        append_i64_be(builder, value).map_err(|_| AllocError)
    }

    fn put_le<B: OctetsBuilder>(builder: &mut B, value: i64) -> Result<(), AllocError> {
        append_i64_le(builder, value).map_err(|_| AllocError)
    }

    ghost wide = { Prim.search rules };
}

impl Integer for i128 {
    type Value = i128;

    ghost kind = { signed_kind 16 };

    ghost number = { λ n. n };

    fn width() -> usize {
        16
    }

    #[tactic(auto, using(octseq::proofs::Written::is_signed_16))]
    fn fits(_value: i128) -> bool {
        true
    }

    fn parse_be<R: AsOctets>(parser: &mut Parser<R>) -> Result<i128, ShortInput> {
        parser.parse_i128_be()
    }

    fn parse_le<R: AsOctets>(parser: &mut Parser<R>) -> Result<i128, ShortInput> {
        parser.parse_i128_le()
    }

    fn put_be<B: OctetsBuilder>(builder: &mut B, value: i128) -> Result<(), AllocError> {
        append_i128_be(builder, value).map_err(|_| AllocError)
    }

    fn put_le<B: OctetsBuilder>(builder: &mut B, value: i128) -> Result<(), AllocError> {
        append_i128_le(builder, value).map_err(|_| AllocError)
    }

    ghost wide = { Prim.search rules };
}

/// A big-endian integer.
#[derive(Debug)]
pub struct Be<T> {
    integer: PhantomData<T>,
}

impl<R: AsOctets + Copy, T: Integer> Format<R> for Be<T> {
    ghost use Rattle.octseq_format.specs.Fixed.{delimited_fixed};
    ghost use Rattle.octseq_format.specs.Fixed.{IsFixed, one_fixed, onward_fixed, fixed_read_back, canonical_fixed};

    type Value = T::Value;

    type SelfDelimiting = Yes;

    type NonEmpty = Yes;

    ghost Found = { T.kind.Number };

    ghost found = { T.number };

    ghost is_at = { IsFixed T.kind.width T.kind.be };

    ghost Said = { T.kind.Number };

    ghost says = { λ n. n };

    ghost octets = { T.kind.octets_be };

    ghost fits = { T.kind.Fits };

    ghost one = { one_fixed T.kind.width T.kind.be };

    ghost found_code = { T.kind.code };

    ghost least = { T.kind.width };

    ghost turns_of = { λ _. 0 };

    ghost base = { 0 };

    ghost rate = { 0 };

    ghost key = { λ _. 0 };

    ghost stops = { stops_here };

    #[inline(always)]
    fn parse_counted(parser: &mut Parser<R>, _turns: &mut Turns) -> Result<T::Value, Malformed> {
        Ok(T::parse_be(parser)?)
    }

    fn fault(parser: &Parser<R>) -> usize {
        parser.pos()
    }

    #[inline(always)]
    fn least_len() -> usize {
        T::width()
    }

    #[inline(always)]
    fn key_of(_value: &Self::Value) -> usize {
        0
    }

    #[inline(always)]
    fn is_canonical() -> bool {
        true
    }

    #[inline(always)]
    fn fixed_len() -> Option<usize> {
        Some(T::width())
    }

    #[inline(always)]
    fn compose_len(value: &T::Value) -> Option<usize> {
        if T::fits(*value) {
            Some(T::width())
        } else {
            None
        }
    }

    #[inline(always)]
    fn put<B: OctetsBuilder + Truncate>(
        builder: &mut B,
        value: &T::Value,
    ) -> Result<(), AllocError> {
        T::put_be(builder, *value)
    }

    ghost one_way = { true };

    ghost canonical = { λ _. canonical_fixed T.kind.are_be };

    ghost onward = { onward_fixed T.kind.width T.kind.be };

    ghost read_back = { fixed_read_back T.kind.are_be };

    ghost delimited = { λ _. delimited_fixed T.kind.are_be };

    ghost moving = { λ _. T.wide };
}

/// A little-endian integer.
#[derive(Debug)]
pub struct Le<T> {
    integer: PhantomData<T>,
}

impl<R: AsOctets + Copy, T: Integer> Format<R> for Le<T> {
    ghost use Rattle.octseq_format.specs.Fixed.{delimited_fixed};
    ghost use Rattle.octseq_format.specs.Fixed.{IsFixed, one_fixed, onward_fixed, fixed_read_back, canonical_fixed};

    type Value = T::Value;

    type SelfDelimiting = Yes;

    type NonEmpty = Yes;

    ghost Found = { T.kind.Number };

    ghost found = { T.number };

    ghost is_at = { IsFixed T.kind.width T.kind.le };

    ghost Said = { T.kind.Number };

    ghost says = { λ n. n };

    ghost octets = { T.kind.octets_le };

    ghost fits = { T.kind.Fits };

    ghost one = { one_fixed T.kind.width T.kind.le };

    ghost found_code = { T.kind.code };

    ghost least = { T.kind.width };

    ghost turns_of = { λ _. 0 };

    ghost base = { 0 };

    ghost rate = { 0 };

    ghost key = { λ _. 0 };

    ghost stops = { stops_here };

    #[inline(always)]
    fn parse_counted(parser: &mut Parser<R>, _turns: &mut Turns) -> Result<T::Value, Malformed> {
        Ok(T::parse_le(parser)?)
    }

    fn fault(parser: &Parser<R>) -> usize {
        parser.pos()
    }

    #[inline(always)]
    fn least_len() -> usize {
        T::width()
    }

    #[inline(always)]
    fn key_of(_value: &Self::Value) -> usize {
        0
    }

    #[inline(always)]
    fn is_canonical() -> bool {
        true
    }

    #[inline(always)]
    fn fixed_len() -> Option<usize> {
        Some(T::width())
    }

    #[inline(always)]
    fn compose_len(value: &T::Value) -> Option<usize> {
        if T::fits(*value) {
            Some(T::width())
        } else {
            None
        }
    }

    #[inline(always)]
    fn put<B: OctetsBuilder + Truncate>(
        builder: &mut B,
        value: &T::Value,
    ) -> Result<(), AllocError> {
        T::put_le(builder, *value)
    }

    ghost one_way = { true };

    ghost canonical = { λ _. canonical_fixed T.kind.are_le };

    ghost onward = { onward_fixed T.kind.width T.kind.le };

    ghost read_back = { fixed_read_back T.kind.are_le };

    ghost delimited = { λ _. delimited_fixed T.kind.are_le };

    ghost moving = { λ _. T.wide };
}

/// An unsigned octet.
pub type U8 = Be<u8>;

/// A signed octet.
pub type I8 = Be<i8>;

/// An unsigned integer of 2 octets, big-endian.
pub type U16Be = Be<u16>;

/// An unsigned integer of 2 octets, little-endian.
pub type U16Le = Le<u16>;

/// An unsigned integer of 3 octets, big-endian.
pub type U24Be = Be<U24>;

/// An unsigned integer of 3 octets, little-endian.
pub type U24Le = Le<U24>;

/// An unsigned integer of 4 octets, big-endian.
pub type U32Be = Be<u32>;

/// An unsigned integer of 4 octets, little-endian.
pub type U32Le = Le<u32>;

/// An unsigned integer of 6 octets, big-endian.
pub type U48Be = Be<U48>;

/// An unsigned integer of 6 octets, little-endian.
pub type U48Le = Le<U48>;

/// An unsigned integer of 8 octets, big-endian.
pub type U64Be = Be<u64>;

/// An unsigned integer of 8 octets, little-endian.
pub type U64Le = Le<u64>;

/// An unsigned integer of 16 octets, big-endian.
pub type U128Be = Be<u128>;

/// An unsigned integer of 16 octets, little-endian.
pub type U128Le = Le<u128>;

/// A signed integer of 2 octets, big-endian.
pub type I16Be = Be<i16>;

/// A signed integer of 2 octets, little-endian.
pub type I16Le = Le<i16>;

/// A signed integer of 4 octets, big-endian.
pub type I32Be = Be<i32>;

/// A signed integer of 4 octets, little-endian.
pub type I32Le = Le<i32>;

/// A signed integer of 8 octets, big-endian.
pub type I64Be = Be<i64>;

/// A signed integer of 8 octets, little-endian.
pub type I64Le = Le<i64>;

/// A signed integer of 16 octets, big-endian.
pub type I128Be = Be<i128>;

/// A signed integer of 16 octets, little-endian.
pub type I128Le = Le<i128>;
