//! Integers and parts: what is appended, what is refused, and that it is read back.
use crate::tests::unwrap;
use bytes::BytesMut;
use octseq::array::Array;
use octseq::builder::{AppendError, AsOctets, EmptyBuilder, OctetsBuilder, ShortBuf, Truncate};
use octseq::compose::*;
use octseq::parse::{Parser, ShortInput};
use octseq_asserts::{assert_equal, assert_true};
use std::alloc::Global;
use std::process::Abort;

/// Appends the minimum of each integer, 0 and the maximum.
macro_rules! append_each {
    ($builder:expr, $($integer:ty, $append:ident;)*) => {{
        $(for value in [<$integer>::MIN, 0, <$integer>::MAX] {
            $append($builder, value)?;
        })*
        Ok(())
    }};
}

/// Reads the same values, and checks that nothing is left.
macro_rules! read_each {
    ($rt:expr, $octets:expr, $($integer:ty, $parse:ident;)*) => {{
        let mut parser = Parser::from_ref($octets);
        $(for value in [<$integer>::MIN, 0, <$integer>::MAX] {
            assert_equal!($rt, parser.$parse(), Ok(value));
        })*
        assert_equal!($rt, parser.remaining(), 0);
    }};
}

fn append_short_integers<B: OctetsBuilder>(builder: &mut B) -> Result<(), AppendError> {
    append_each!(
        builder,
        i8, append_i8;
        u8, append_u8;
        i16, append_i16_be;
        i16, append_i16_le;
        u16, append_u16_be;
        u16, append_u16_le;
    )
}

fn are_short_integers(rt: &impl Abort, octets: &[u8]) {
    read_each!(
        rt,
        octets,
        i8, parse_i8;
        u8, parse_u8;
        i16, parse_i16_be;
        i16, parse_i16_le;
        u16, parse_u16_be;
        u16, parse_u16_le;
    );
}

fn append_integers_of_32_bits<B: OctetsBuilder>(builder: &mut B) -> Result<(), AppendError> {
    append_each!(
        builder,
        i32, append_i32_be;
        i32, append_i32_le;
        u32, append_u32_be;
        u32, append_u32_le;
    )
}

fn are_integers_of_32_bits(rt: &impl Abort, octets: &[u8]) {
    read_each!(
        rt,
        octets,
        i32, parse_i32_be;
        i32, parse_i32_le;
        u32, parse_u32_be;
        u32, parse_u32_le;
    );
}

fn append_integers_of_64_bits<B: OctetsBuilder>(builder: &mut B) -> Result<(), AppendError> {
    append_each!(
        builder,
        i64, append_i64_be;
        i64, append_i64_le;
        u64, append_u64_be;
        u64, append_u64_le;
    )
}

fn are_integers_of_64_bits(rt: &impl Abort, octets: &[u8]) {
    read_each!(
        rt,
        octets,
        i64, parse_i64_be;
        i64, parse_i64_le;
        u64, parse_u64_be;
        u64, parse_u64_le;
    );
}

fn append_integers_of_128_bits<B: OctetsBuilder>(builder: &mut B) -> Result<(), AppendError> {
    append_each!(
        builder,
        i128, append_i128_be;
        i128, append_i128_le;
        u128, append_u128_be;
        u128, append_u128_le;
    )
}

fn are_integers_of_128_bits(rt: &impl Abort, octets: &[u8]) {
    read_each!(
        rt,
        octets,
        i128, parse_i128_be;
        i128, parse_i128_le;
        u128, parse_u128_be;
        u128, parse_u128_le;
    );
}

/// Checks each integer with one builder.
fn goes_round<B: EmptyBuilder + Truncate>(rt: &impl Abort, alloc: Global) {
    let mut builder = unwrap(rt, B::empty(alloc));
    unwrap(rt, append_short_integers(&mut builder));
    are_short_integers(rt, builder.as_ref());
    builder.truncate(0);
    unwrap(rt, append_integers_of_32_bits(&mut builder));
    are_integers_of_32_bits(rt, builder.as_ref());
    builder.truncate(0);
    unwrap(rt, append_integers_of_64_bits(&mut builder));
    are_integers_of_64_bits(rt, builder.as_ref());
    builder.truncate(0);
    unwrap(rt, append_integers_of_128_bits(&mut builder));
    are_integers_of_128_bits(rt, builder.as_ref());
}

#[test]
fn integers_are_read_back(rt: HostRuntime) {
    goes_round::<Vec<u8>>(&rt, rt.alloc());
    goes_round::<Array<256>>(&rt, rt.alloc());
    goes_round::<BytesMut>(&rt, rt.alloc());
}

#[test]
fn integers_are_appended_in_both_orders(rt: HostRuntime) {
    let mut octets = Vec::new(rt.alloc());
    unwrap(&rt, append_i16_le(&mut octets, -4242));
    unwrap(&rt, append_u32_be(&mut octets, 0x1234_5678));
    assert_equal!(
        &rt,
        octets.as_slice(),
        b"\x6E\xEF\x12\x34\x56\x78".as_slice(),
    );
    octets.clear();
    unwrap(&rt, append_i128_be(&mut octets, -1));
    assert_equal!(&rt, octets.as_slice(), [0xFF; 16].as_slice());
    let mut full = unwrap(&rt, Array::<1>::try_from(b"a".as_slice()));
    assert_equal!(
        &rt,
        append_u8(&mut full, 0),
        Err(AppendError::Short(ShortBuf)),
    );
    assert_equal!(&rt, full.as_slice(), b"a".as_slice());
}

#[test]
fn a_message_is_read_back(rt: HostRuntime) {
    let mut message = Vec::new(rt.alloc());
    unwrap(&rt, append_u16_be(&mut message, 0x1234));
    assert_equal!(&rt, append_part_u8(&mut message, b"abc"), Ok(()));
    unwrap(&rt, append_i32_le(&mut message, -2));
    let octets = b"\x12\x34\x03abc\xFE\xFF\xFF\xFF".as_slice();
    assert_equal!(&rt, message.as_slice(), octets);
    let mut parser = Parser::from_ref(&message);
    assert_equal!(&rt, unwrap(&rt, parser.parse_u16_be()), 0x1234);
    assert_equal!(
        &rt,
        unwrap(&rt, parser.parse_part_u8()).peek_all(),
        b"abc".as_slice()
    );
    assert_equal!(&rt, unwrap(&rt, parser.parse_i32_le()), -2);
    assert_equal!(&rt, parser.remaining(), 0);
}

/// Checks that a part was appended, which is now all of a builder's content.
fn is_appended(
    rt: &impl Abort,
    appended: Result<(), ComposeError>,
    octets: &impl AsOctets,
    wanted: &[u8],
) {
    assert_equal!(rt, appended, Ok(()));
    assert_equal!(rt, octets.as_ref(), wanted);
}

#[test]
fn parts_come_after_their_lengths(rt: HostRuntime) {
    let mut octets = Vec::new(rt.alloc());
    let appended = append_part_u8(&mut octets, b"");
    is_appended(&rt, appended, &octets, b"\0");
    octets.clear();
    let appended = append_part_u8(&mut octets, b"z");
    is_appended(&rt, appended, &octets, b"\x01z");
    octets.clear();
    let appended = append_part_u16_be(&mut octets, b"ab");
    is_appended(&rt, appended, &octets, b"\0\x02ab");
    octets.clear();
    let appended = append_part_u32_be(&mut octets, b"ab");
    is_appended(&rt, appended, &octets, b"\0\0\0\x02ab");
    let mut fixed = Array::<4>::new();
    let appended = append_part_u16_be(&mut fixed, b"ab");
    is_appended(&rt, appended, &fixed, b"\0\x02ab");
}

/// Checks that a part was refused as too long, and the builder is unchanged.
fn is_too_long(
    rt: &impl Abort,
    refused: Result<(), ComposeError>,
    octets: &impl AsOctets,
    wanted: &[u8],
) {
    assert_equal!(rt, refused, Err(ComposeError::TooLong));
    assert_equal!(rt, octets.as_ref(), wanted);
}

#[test]
fn the_longest_parts_are_appended_and_no_longer_ones(rt: HostRuntime) {
    let (longest, longer) = ([7; 255], [7; 256]);
    let mut wanted = [7; 256];
    wanted[0] = 255;
    let mut octets = Vec::new(rt.alloc());
    let appended = append_part_u8(&mut octets, &longest);
    is_appended(&rt, appended, &octets, &wanted);
    let refused = append_part_u8(&mut octets, &longer);
    is_too_long(&rt, refused, &octets, &wanted);
    let mut fixed = Array::<3>::new();
    let refused = append_part_u8(&mut fixed, &longer);
    is_too_long(&rt, refused, &fixed, b"");
    octets.clear();
    let longer = unwrap(&rt, Vec::from_elem(rt.alloc(), 7, 65_536));
    let refused = append_part_u16_be(&mut octets, longer.as_slice());
    is_too_long(&rt, refused, &octets, b"");
}

/// Checks that a part was refused for lack of room, and the builder is unchanged.
fn is_short(
    rt: &impl Abort,
    refused: Result<(), ComposeError>,
    octets: &impl AsOctets,
    wanted: &[u8],
) {
    assert_equal!(rt, refused, Err(ComposeError::Short));
    assert_equal!(rt, octets.as_ref(), wanted);
}

#[test]
fn a_part_that_passes_the_limit_leaves_the_content(rt: HostRuntime) {
    let mut fixed = unwrap(&rt, Array::<4>::try_from(b"ab".as_slice()));
    let refused = append_part_u8(&mut fixed, b"cd");
    is_short(&rt, refused, &fixed, b"ab");
    let mut fixed = Array::<3>::new();
    let refused = append_part_u16_be(&mut fixed, b"ab");
    is_short(&rt, refused, &fixed, b"");
    let mut full = unwrap(&rt, Array::<1>::try_from(b"a".as_slice()));
    let refused = append_part_u8(&mut full, b"");
    is_short(&rt, refused, &full, b"a");
    let refused = append_part_u32_be(&mut full, b"");
    is_short(&rt, refused, &full, b"a");
}

/// Checks that there is no part with a length of two or four octets, and the parser is unchanged.
fn is_cut(rt: &impl Abort, octets: &[u8]) {
    let mut parser = Parser::from_ref(octets);
    assert_true!(rt, parser.parse_part_u16_be().is_err());
    assert_true!(rt, parser.parse_part_u32_be().is_err());
    assert_equal!(rt, parser.pos(), 0);
}

/// Checks that a part of four octets is a window, and the parser is after it.
fn is_read(rt: &impl Abort) {
    let mut parser = Parser::from_static(b"\0\x02abc");
    let part = unwrap(rt, parser.parse_part_u16_be());
    assert_equal!(rt, (part.pos(), part.len()), (2, 4));
    assert_equal!(rt, part.peek_all(), b"ab".as_slice());
    assert_equal!(rt, parser.pos(), 4);
}

#[test]
fn a_cut_part_is_refused(rt: HostRuntime) {
    is_read(&rt);
    is_cut(&rt, b"\0\x02a");
    is_cut(&rt, b"\0");
    let mut parser = Parser::from_static(b"\0\0\0\x01z\x02a");
    assert_equal!(
        &rt,
        unwrap(&rt, parser.parse_part_u32_be()).peek_all(),
        b"z".as_slice()
    );
    assert_true!(&rt, parser.parse_part_u8().is_err());
    assert_equal!(&rt, parser.pos(), 5);
}
