//! Each format once: octets, and what they say.
use crate::tests::{compose, is_said, read, refusal, unwrap};
use octseq::{Array, AsOctets, Malformed, Parser, Turns, WriteError};
use octseq_asserts::assert_equal;
use octseq_format::{
    At, Bits, Case, Const, Counted, Flag, Format, I8, I16Be, I16Le, I32Be, I32Le, I64Be, I64Le,
    I128Be, I128Le, ManyBy, Nested, OctetArray, OneOf2, Optional, Others, Repeated, Rest, Sized,
    Tagged, Test, Text, U8, U16Be, U16Le, U24Be, U24Le, U32Be, U32Le, U48Be, U48Le, U64Be, U64Le,
    U128Be, U128Le, UInt, Where, Window, ZeroEnded, append_all, parse_all_composed, parse_many,
};
use std::alloc::Global;

#[test]
fn integers_are_big_endian(rt: HostRuntime) {
    is_said::<U8>(&rt, b"\x81", 0x81);
    is_said::<U16Be>(&rt, b"\x81\x02", 0x8102);
    is_said::<U24Be>(&rt, b"\x81\x02\x03", 0x81_0203);
    is_said::<U32Be>(&rt, b"\x81\x02\x03\x04", 0x8102_0304);
    is_said::<U48Be>(&rt, b"\x81\x02\x03\x04\x05\x06", 0x8102_0304_0506);
    is_said::<U64Be>(
        &rt,
        b"\x81\x02\x03\x04\x05\x06\x07\x08",
        0x8102_0304_0506_0708,
    );
    is_said::<U128Be>(&rt, b"\0\0\0\0\0\0\0\0\0\0\0\0\0\0\x01\x02", 0x0102);
}

#[test]
fn integers_are_little_endian(rt: HostRuntime) {
    is_said::<U16Le>(&rt, b"\x02\x81", 0x8102);
    is_said::<U24Le>(&rt, b"\x03\x02\x81", 0x81_0203);
    is_said::<U32Le>(&rt, b"\x04\x03\x02\x81", 0x8102_0304);
    is_said::<U48Le>(&rt, b"\x06\x05\x04\x03\x02\x81", 0x8102_0304_0506);
    is_said::<U64Le>(
        &rt,
        b"\x08\x07\x06\x05\x04\x03\x02\x81",
        0x8102_0304_0506_0708,
    );
    is_said::<U128Le>(&rt, b"\x02\x01\0\0\0\0\0\0\0\0\0\0\0\0\0\0", 0x0102);
}

#[test]
fn integers_may_be_signed(rt: HostRuntime) {
    is_said::<I8>(&rt, b"\xFE", -2);
    is_said::<I16Be>(&rt, b"\xFF\xFE", -2);
    is_said::<I16Le>(&rt, b"\xFE\xFF", -2);
    is_said::<I32Be>(&rt, b"\xFF\xFF\xFF\xFE", -2);
    is_said::<I32Le>(&rt, b"\xFE\xFF\xFF\xFF", -2);
    is_said::<I64Be>(&rt, b"\xFF\xFF\xFF\xFF\xFF\xFF\xFF\xFE", -2);
    is_said::<I64Le>(&rt, b"\xFE\xFF\xFF\xFF\xFF\xFF\xFF\xFF", -2);
    is_said::<I128Be>(
        &rt,
        b"\xFF\xFF\xFF\xFF\xFF\xFF\xFF\xFF\xFF\xFF\xFF\xFF\xFF\xFF\xFF\xFE",
        -2,
    );
    is_said::<I128Le>(
        &rt,
        b"\xFE\xFF\xFF\xFF\xFF\xFF\xFF\xFF\xFF\xFF\xFF\xFF\xFF\xFF\xFF\xFF",
        -2,
    );
}

/// A known version.
struct Known;

impl Test for Known {
    ghost use Rattle.std.specs.Prelude.{◌<◌};

    ghost holds = { λ n. 3 < n };

    fn test(number: usize) -> bool {
        number > 3
    }
}

#[test]
fn a_number_may_be_fixed_or_tested(rt: HostRuntime) {
    is_said::<Const<U16Be, 258>>(&rt, b"\x01\x02", ());
    assert_equal!(
        &rt,
        refusal::<Const<U16Be, 258>, &[u8]>(b"\x01\x03"),
        Some(Malformed)
    );
    is_said::<Where<U8, Known>>(&rt, b"\x04", 4);
    assert_equal!(
        &rt,
        refusal::<Where<U8, Known>, &[u8]>(b"\x03"),
        Some(Malformed)
    );
    let written: Result<Vec<u8>, _> = compose::<Where<U8, Known>, &[u8], _>(rt.alloc(), &3);
    assert_equal!(&rt, written.is_err(), true);
}

/// The flags of a DNS message: a response, an opcode, three flags, another one, three zero bits, and an rcode.
type DnsFlags = (Flag, (UInt<4>, Flag, Flag), (Flag, Flag, UInt<3>, UInt<4>));

#[test]
fn a_number_may_be_bits(rt: HostRuntime) {
    is_said::<Bits<U8, (UInt<2>, UInt<3>, UInt<3>)>>(&rt, b"\x23", (0, 4, 3));
    is_said::<Bits<U16Be, DnsFlags>>(
        &rt,
        b"\x85\x83",
        (true, (0, true, false), (true, true, 0, 3)),
    );
    let value = <Bits<U8, (UInt<2>, UInt<3>)> as Format<&[u8]>>::parse_whole(b"\x1F".as_slice());
    assert_equal!(&rt, value, Ok((3, 7)));
    let refused = refusal::<Bits<U8, (UInt<2>, UInt<3>)>, &[u8]>(b"\x20");
    assert_equal!(&rt, refused, Some(Malformed));
    let written: Result<Vec<u8>, _> = compose::<Bits<U8, (UInt<2>, UInt<6>)>, &[u8], _>(
        rt.alloc(),
        &(4, 0),
    );
    assert_equal!(&rt, written, Err(WriteError::Malformed));
}

#[test]
fn a_window_has_the_octets_of_its_part_alone(rt: HostRuntime) {
    let octets = b"a\x02bcbc".as_slice();
    let parts = <(U8, Counted<U8, Rest, 0>, Rest) as Format<&[u8]>>::parse_whole(octets);
    let (_, first, second) = unwrap(&rt, parts);
    assert_equal!(&rt, (first.as_slice(), first.len()), (b"bc".as_slice(), 2));
    assert_equal!(&rt, (first.pos(), second.pos()), (2, 4));
    assert_equal!(&rt, (first == second, first.is_empty()), (true, false));
    let other = Window::from_ref(b"bd".as_slice());
    assert_equal!(&rt, (first == other, other.pos()), (false, 0));
    let mut parser = first.parser();
    assert_equal!(&rt, parser.parse_u8().ok(), Some(b'b'));
    assert_equal!(&rt, Window::from_parser(parser).as_slice(), b"c".as_slice());
    assert_equal!(&rt, Window::from_ref(b"".as_slice()).is_empty(), true);
}

#[test]
fn what_is_nested_is_read_further(rt: HostRuntime) {
    let parts = <(U8, Nested) as Format<&[u8]>>::parse_whole(b"abc".as_slice());
    let (_, mut inside) = unwrap(&rt, parts);
    assert_equal!(&rt, (inside.pos(), inside.remaining()), (1, 2));
    assert_equal!(&rt, inside.parse_u8().ok(), Some(b'b'));
    let refused = refusal::<Counted<U8, Nested, 0>, &[u8]>(b"\x03ab");
    assert_equal!(&rt, refused, Some(Malformed));
}

#[test]
fn a_number_of_octets_or_items_may_be_fixed(rt: HostRuntime) {
    let octets = read::<At<3, Sized<Rest, 0>>, &[u8]>(&rt, b"abc");
    assert_equal!(&rt, octets.as_slice(), b"abc".as_slice());
    for octets in [b"ab".as_slice(), b"abcd"] {
        let refused = refusal::<At<3, Sized<Rest, 0>>, &[u8]>(octets);
        assert_equal!(&rt, refused, Some(Malformed));
        let value = Window::from_ref(octets);
        let written: Result<Vec<u8>, _> = compose::<At<3, Sized<Rest, 0>>, &[u8], _>(
            rt.alloc(),
            &value,
        );
        assert_equal!(&rt, written, Err(WriteError::Malformed));
    }
    let octets = b"\0\x01\0\x02".as_slice();
    let many = <At<2, ManyBy<U16Be>> as Format<&[u8]>>::parse_whole(octets).map(|walk| walk.len());
    assert_equal!(&rt, many, Ok(2));
}

/// Returns the sum of the first `count` numbers, and how many octets are left.
fn sum_of<R: AsOctets + Copy>(octets: R, count: usize) -> Result<(u64, usize), Malformed> {
    let mut parser = Parser::from_ref(octets);
    let mut sum: u64 = 0;
    for number in parse_many::<R, U16Be>(&mut parser, count, &mut Turns::new())? {
        sum = sum.wrapping_add(u64::from(number));
    }
    Ok((sum, parser.remaining()))
}

#[test]
fn a_count_may_come_from_elsewhere(rt: HostRuntime) {
    assert_equal!(
        &rt,
        sum_of(b"\0\x01\0\x02\0\x04\x09".as_slice(), 2),
        Ok((3, 3))
    );
    assert_equal!(
        &rt,
        sum_of(b"\0\x01\0\x02\x09".as_slice(), 3),
        Err(Malformed)
    );
    assert_equal!(&rt, sum_of(b"\x09".as_slice(), 0), Ok((0, 1)));
}

#[test]
fn values_may_be_in_a_slice(rt: HostRuntime) {
    let mut octets = Array::<5>::new();
    unwrap(
        &rt,
        append_all::<&[u8], U16Be, _>(&mut octets, &[1, 0x0203]),
    );
    assert_equal!(&rt, octets.as_slice(), b"\0\x01\x02\x03");
    let short = append_all::<&[u8], U16Be, _>(&mut octets, &[4]);
    assert_equal!(&rt, short, Err(WriteError::Short));
    let long = append_all::<&[u8], U24Be, _>(&mut octets, &[0x100_0000]);
    assert_equal!(&rt, long, Err(WriteError::Malformed));
    assert_equal!(&rt, octets.as_slice(), b"\0\x01\x02\x03");
}

/// Writes a list of numbers that wasn't read, after its length.
fn listed(alloc: Global, numbers: &[u16]) -> Result<Vec<u8>, WriteError> {
    let mut octets = Vec::new(alloc);
    append_all::<&[u8], U16Be, _>(&mut octets, numbers)?;
    let list = parse_all_composed::<&[u8], U16Be>(octets.as_slice(), numbers);
    Counted::<U8, Repeated<U16Be>, 0>::compose_whole(alloc, &list)
}

#[test]
fn a_list_that_wasnt_read_is_written(rt: HostRuntime) {
    let written = unwrap(&rt, listed(rt.alloc(), &[1, 0x0203]));
    assert_equal!(&rt, written.as_slice(), b"\x04\0\x01\x02\x03");
    let written = unwrap(&rt, listed(rt.alloc(), &[]));
    assert_equal!(&rt, written.as_slice(), b"\0");
}

/// Returns the lengths of the first zero-terminated texts in all the octets, and how many texts are left.
fn lens_of<R: AsOctets + Copy>(
    octets: R,
) -> Result<(Option<usize>, Option<usize>, usize), Malformed> {
    let mut walk = Repeated::<ZeroEnded>::parse_whole(octets)?;
    let first = walk.next().map(|item| item.len());
    let second = walk.next().map(|item| item.len());
    Ok((first, second, walk.len()))
}

/// Returns the number of octets of a text.
fn len_of_text<R: AsOctets + Copy>(octets: R) -> Result<usize, Malformed> {
    Ok(Text::parse_whole(octets)?.len())
}

#[test]
fn octets_may_be_a_text_or_many(rt: HostRuntime) {
    is_said::<OctetArray<3>>(&rt, b"abc", *b"abc");
    assert_equal!(&rt, len_of_text("h\u{e9}".as_bytes()), Ok(3));
    assert_equal!(&rt, len_of_text(b"h\xC3".as_slice()), Err(Malformed));
    assert_equal!(
        &rt,
        lens_of(b"a\0\0bc\0".as_slice()),
        Ok((Some(1), Some(0), 1))
    );
    assert_equal!(&rt, lens_of(b"a\0b".as_slice()), Err(Malformed));
}

#[test]
fn a_thing_at_the_end_may_be_left_out(rt: HostRuntime) {
    is_said::<(U8, Optional<U16Be>)>(&rt, b"\x01", (1, None));
    is_said::<(U8, Optional<U16Be>)>(&rt, b"\x01\0\x02", (1, Some(2)));
    let refused = refusal::<(U8, Optional<U16Be>), &[u8]>(b"\x01\0");
    assert_equal!(&rt, refused, Some(Malformed));
}

/// Whether what was read is written as the octets it was read from.
fn is_copied<'a, F: Format<&'a [u8]>>(_octets: &'a [u8]) -> bool {
    F::is_canonical()
}

#[test]
fn what_is_said_in_one_way_is_copied(rt: HostRuntime) {
    let octets = b"\x01".as_slice();
    assert_equal!(&rt, is_copied::<Repeated<(U8, U16Be)>>(octets), true);
    assert_equal!(
        &rt,
        is_copied::<Counted<U16Be, OctetArray<4>, 2>>(octets),
        true
    );
    assert_equal!(&rt, is_copied::<Const<U8, 1>>(octets), true);
    assert_equal!(&rt, is_copied::<(U8, Optional<U8>)>(octets), false);
}

#[test]
fn a_tag_tells_what_comes(rt: HostRuntime) {
    is_said::<Tagged<U8, (Case<1, U8>, Others<U16Be>)>>(&rt, b"\x01\x07", OneOf2::First(7));
    is_said::<Tagged<U8, (Case<1, U8>, Others<U16Be>)>>(&rt, b"\x02\0\x07", OneOf2::Second((2, 7)));
    is_said::<Tagged<U8, (Case<1, U8>, Case<2, U16Be>)>>(&rt, b"\x02\0\x07", OneOf2::Second(7));
    let refused = refusal::<Tagged<U8, (Case<1, U8>, Case<2, U16Be>)>, &[u8]>(b"\x03\0\x07");
    assert_equal!(&rt, refused, Some(Malformed));
    let value = OneOf2::Second((1, 7));
    let written: Result<Vec<u8>, _> = compose::<Tagged<U8, (Case<1, U8>, Others<U16Be>)>, &[u8], _>(
        rt.alloc(),
        &value,
    );
    assert_equal!(&rt, written.is_err(), true);
}
