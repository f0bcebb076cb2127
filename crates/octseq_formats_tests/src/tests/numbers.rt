//! Numbers of varying width, and lengths, counts and tags in them and in little-endian integers: octets by hand, from
//! the standards.
use crate::tests::{compose, is_said, read, refusal, unwrap};
use octseq::{Malformed, WriteError};
use octseq_asserts::assert_equal;
use octseq_format::{
    Case, CompactSize, Counted, DerLength, Format, Itself, Key, Leb128, Minimal, Number,
    OctetArray, OneOf2, Others, QuicInteger, Rest, Tagged, U8, U16Le, U24Le, U32Le,
};
use std::alloc::AllocGlobal;
use std::process::Abort;

/// Checks a number, and that it is written back.
fn is_number<N: Number>(rt: &(impl AllocGlobal + Abort), octets: &[u8], wanted: usize) {
    is_said::<Key<N, Itself>>(rt, octets, wanted);
}

/// Checks a number in more octets than it is written in.
fn is_shortened<N: Number>(
    rt: &(impl AllocGlobal + Abort),
    octets: &[u8],
    wanted: usize,
    shortest: &[u8],
) {
    let value = <Key<N, Itself> as Format<&[u8]>>::parse_whole(octets);
    assert_equal!(rt, value, Ok(wanted));
    let written: Vec<u8> = unwrap(rt, compose::<Key<N, Itself>, &[u8], _>(rt.alloc(), &wanted));
    assert_equal!(rt, written.as_slice(), shortest);
}

/// Checks that octets aren't a number.
fn is_no_number<N: Number>(rt: &impl Abort, octets: &[u8]) {
    assert_equal!(
        rt,
        refusal::<Key<N, Itself>, &[u8]>(octets),
        Some(Malformed)
    );
}

/// Checks that a number isn't written.
fn is_too_great<N: Number>(rt: &(impl AllocGlobal + Abort), number: usize) {
    let written: Result<Vec<u8>, _> = compose::<Key<N, Itself>, &[u8], _>(rt.alloc(), &number);
    assert_equal!(rt, written, Err(WriteError::Malformed));
}

/// Checks the octets after a length, and that both are written back.
fn counts<N: Number>(rt: &(impl AllocGlobal + Abort), octets: &[u8], wanted: &[u8]) {
    let inside = read::<Counted<N, Rest, 0>, &[u8]>(rt, octets);
    assert_equal!(rt, inside.as_slice(), wanted);
}

/// Checks that octets aren't a length followed by as many octets.
fn counts_none<N: Number>(rt: &impl Abort, octets: &[u8]) {
    let refused = refusal::<Counted<N, Rest, 0>, &[u8]>(octets);
    assert_equal!(rt, refused, Some(Malformed));
}

#[test]
fn a_compact_size_has_1_3_5_or_9_octets(rt: HostRuntime) {
    is_number::<CompactSize>(&rt, b"\xFC", 252);
    is_number::<CompactSize>(&rt, b"\xFD\x03\x02", 515);
    is_number::<CompactSize>(&rt, b"\xFE\0\0\x01\0", 0x1_0000);
    is_number::<CompactSize>(&rt, b"\xFF\0\0\0\0\x01\0\0\0", 0x1_0000_0000);
    is_shortened::<CompactSize>(&rt, b"\xFD\xFC\0", 252, b"\xFC");
    is_no_number::<CompactSize>(&rt, b"\xFE\0\0\x01");
}

#[test]
fn a_compact_size_may_be_a_length(rt: HostRuntime) {
    counts::<CompactSize>(&rt, b"\x03abc", b"abc");
    counts_none::<CompactSize>(&rt, b"\x03ab");
    counts_none::<CompactSize>(&rt, b"\xFD\x03");
    is_said::<Counted<CompactSize, OctetArray<3>, 0>>(&rt, b"\x03abc", *b"abc");
}

/// The four numbers are those of RFC 9000, A.1.
#[test]
fn an_integer_of_quic_has_1_2_4_or_8_octets(rt: HostRuntime) {
    is_number::<QuicInteger>(
        &rt,
        b"\xC2\x19\x7C\x5E\xFF\x14\xE8\x8C",
        151_288_809_941_952_652,
    );
    is_number::<QuicInteger>(&rt, b"\x9D\x7F\x3E\x7D", 494_878_333);
    is_number::<QuicInteger>(&rt, b"\x7B\xBD", 15_293);
    is_number::<QuicInteger>(&rt, b"\x25", 37);
    is_shortened::<QuicInteger>(&rt, b"\x40\x25", 37, b"\x25");
    is_no_number::<QuicInteger>(&rt, b"\x9D\x7F\x3E");
    is_too_great::<QuicInteger>(&rt, 0x4000_0000_0000_0000);
}

#[test]
fn an_integer_of_quic_may_be_a_length(rt: HostRuntime) {
    counts::<QuicInteger>(&rt, b"\x03abc", b"abc");
    counts_none::<QuicInteger>(&rt, b"\x03abcd");
    counts_none::<QuicInteger>(&rt, b"\x40");
}

/// The numbers are those of the text of LEB128 in DWARF 4, 7.6, and of Protocol Buffers.
#[test]
fn groups_of_7_bits_make_up_a_number(rt: HostRuntime) {
    is_number::<Leb128<10, 64>>(&rt, b"\x7F", 127);
    is_number::<Leb128<10, 64>>(&rt, b"\x80\x01", 128);
    is_number::<Leb128<10, 64>>(&rt, b"\xB9\x64", 12_857);
    is_number::<Leb128<10, 64>>(&rt, b"\x96\x01", 150);
    is_number::<Leb128<10, 64>>(
        &rt,
        b"\xFF\xFF\xFF\xFF\xFF\xFF\xFF\xFF\xFF\x01",
        0xFFFF_FFFF_FFFF_FFFF,
    );
    is_shortened::<Leb128<10, 64>>(&rt, b"\x96\x81\0", 150, b"\x96\x01");
    is_no_number::<Leb128<10, 64>>(&rt, b"\x96");
    is_no_number::<Leb128<10, 64>>(&rt, b"\xFF\xFF\xFF\xFF\xFF\xFF\xFF\xFF\xFF\x02");
}

#[test]
fn groups_of_7_bits_have_a_maximum(rt: HostRuntime) {
    is_number::<Leb128<5, 32>>(&rt, b"\xFF\xFF\xFF\xFF\x0F", 0xFFFF_FFFF);
    is_no_number::<Leb128<5, 32>>(&rt, b"\xFF\xFF\xFF\xFF\x1F");
    is_no_number::<Leb128<5, 32>>(&rt, b"\x80\x80\x80\x80\x80\0");
    is_too_great::<Leb128<5, 32>>(&rt, 0x1_0000_0000);
}

#[test]
fn groups_of_7_bits_may_be_a_length(rt: HostRuntime) {
    counts::<Leb128<10, 64>>(&rt, b"\x03abc", b"abc");
    counts_none::<Leb128<10, 64>>(&rt, b"\x03ab");
    counts_none::<Leb128<10, 64>>(&rt, b"\x83");
}

/// The lengths 38 and 201 are those of X.690, 8.1.3.
#[test]
fn a_length_of_der_is_definite_and_minimal(rt: HostRuntime) {
    is_number::<DerLength>(&rt, b"\x26", 38);
    is_number::<DerLength>(&rt, b"\x81\xC9", 201);
    is_number::<DerLength>(&rt, b"\x82\x01\xB3", 435);
    is_no_number::<DerLength>(&rt, b"\x81\x26");
    is_no_number::<DerLength>(&rt, b"\x82\0\xC9");
    is_no_number::<DerLength>(&rt, b"\x80");
    is_no_number::<DerLength>(&rt, b"\x82\x01");
}

/// An INTEGER of DER, the number 258: X.690, 8.3.
#[test]
fn a_length_of_der_counts_octets(rt: HostRuntime) {
    is_said::<Tagged<U8, Case<2, Counted<DerLength, OctetArray<2>, 0>>>>(
        &rt,
        b"\x02\x02\x01\x02",
        *b"\x01\x02",
    );
    counts::<DerLength>(&rt, b"\x03abc", b"abc");
    counts_none::<DerLength>(&rt, b"\x03ab");
    counts_none::<DerLength>(&rt, b"\x81\x03abc");
}

/// The lengths 321 and 268,435,455 are those of MQTT 3.1.1, 2.2.3.
#[test]
fn a_number_may_have_to_be_minimal(rt: HostRuntime) {
    is_number::<Minimal<Leb128<4, 28>>>(&rt, b"\xC1\x02", 321);
    is_number::<Minimal<Leb128<4, 28>>>(&rt, b"\xFF\xFF\xFF\x7F", 268_435_455);
    is_no_number::<Minimal<Leb128<4, 28>>>(&rt, b"\xC1\x82\0");
    is_no_number::<Minimal<CompactSize>>(&rt, b"\xFD\xFC\0");
    counts::<Minimal<Leb128<4, 28>>>(&rt, b"\x03abc", b"abc");
    counts_none::<Minimal<Leb128<4, 28>>>(&rt, b"\x83\0abc");
}

#[test]
fn a_length_may_be_little_endian(rt: HostRuntime) {
    counts::<U16Le>(&rt, b"\x03\0abc", b"abc");
    counts::<U24Le>(&rt, b"\x03\0\0abc", b"abc");
    counts::<U32Le>(&rt, b"\x03\0\0\0abc", b"abc");
    counts_none::<U16Le>(&rt, b"\0\x03abc");
    counts_none::<U16Le>(&rt, b"\x03\0ab");
    is_said::<Counted<U16Le, OctetArray<3>, 2>>(&rt, b"\x05\0abc", *b"abc");
}

#[test]
fn a_tag_may_be_little_endian(rt: HostRuntime) {
    is_said::<Tagged<U16Le, (Case<258, U8>, Others<U16Le>)>>(
        &rt,
        b"\x02\x01\x07",
        OneOf2::First(7),
    );
    is_said::<Tagged<U16Le, (Case<258, U8>, Others<U16Le>)>>(
        &rt,
        b"\x01\x02\x07\0",
        OneOf2::Second((513, 7)),
    );
}
