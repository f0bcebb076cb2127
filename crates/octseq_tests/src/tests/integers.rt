//! Integers of each width, read in both byte orders.
use crate::tests::unwrap;
use octseq::octets::Octets;
use octseq::parse::{Parser, ShortInput};
use octseq_asserts::{Case, assert_equal, over_each};
use std::alloc::AllocGlobal;
use std::process::Abort;

/// Reads two integers, after which too few octets are left for a third.
macro_rules! reads {
    ($rt:expr, $octets:expr, $call:ident, $first:expr, $second:expr) => {{
        let mut parser = Parser::from_ref($octets);
        assert_equal!($rt, parser.$call(), Ok($first));
        assert_equal!($rt, parser.$call(), Ok($second));
        let pos = parser.pos();
        assert_equal!($rt, parser.$call(), Err(ShortInput));
        assert_equal!($rt, parser.pos(), pos);
    }};
}

#[derive(Drop)]
struct ReadsSingleOctets;

impl<H: Abort + AllocGlobal> Case<H> for ReadsSingleOctets {
    fn holds<R: Octets + Copy>(&self, rt: &H, octets: R) {
        reads!(rt, octets, parse_i8, 18, -42);
        reads!(rt, octets, parse_u8, 18, 214);
    }
}

#[derive(Drop)]
struct Reads16BitsBe;

impl<H: Abort + AllocGlobal> Case<H> for Reads16BitsBe {
    fn holds<R: Octets + Copy>(&self, rt: &H, octets: R) {
        reads!(rt, octets, parse_i16_be, 4660, -4242);
        reads!(rt, octets, parse_u16_be, 4660, 61294);
    }
}

#[derive(Drop)]
struct Reads16BitsLe;

impl<H: Abort + AllocGlobal> Case<H> for Reads16BitsLe {
    fn holds<R: Octets + Copy>(&self, rt: &H, octets: R) {
        reads!(rt, octets, parse_i16_le, 4660, -4242);
        reads!(rt, octets, parse_u16_le, 4660, 61294);
    }
}

#[derive(Drop)]
struct Reads32BitsBe;

impl<H: Abort + AllocGlobal> Case<H> for Reads32BitsBe {
    fn holds<R: Octets + Copy>(&self, rt: &H, octets: R) {
        reads!(rt, octets, parse_i32_be, 0x12345678, -42424242);
        reads!(rt, octets, parse_u32_be, 0x12345678, 0xfd78a84e);
    }
}

#[derive(Drop)]
struct Reads32BitsLe;

impl<H: Abort + AllocGlobal> Case<H> for Reads32BitsLe {
    fn holds<R: Octets + Copy>(&self, rt: &H, octets: R) {
        reads!(rt, octets, parse_i32_le, 0x12345678, -42424242);
        reads!(rt, octets, parse_u32_le, 0x12345678, 0xfd78a84e);
    }
}

#[derive(Drop)]
struct Reads64BitsBe;

impl<H: Abort + AllocGlobal> Case<H> for Reads64BitsBe {
    fn holds<R: Octets + Copy>(&self, rt: &H, octets: R) {
        reads!(
            rt,
            octets,
            parse_i64_be,
            0x12345678fd78a84e,
            -3568335078657414759
        );
        reads!(
            rt,
            octets,
            parse_u64_be,
            0x12345678fd78a84e,
            0xce7aba26dd0f2999
        );
    }
}

#[derive(Drop)]
struct Reads64BitsLe;

impl<H: Abort + AllocGlobal> Case<H> for Reads64BitsLe {
    fn holds<R: Octets + Copy>(&self, rt: &H, octets: R) {
        reads!(
            rt,
            octets,
            parse_i64_le,
            0x12345678fd78a84e,
            -3568335078657414759
        );
        reads!(
            rt,
            octets,
            parse_u64_le,
            0x12345678fd78a84e,
            0xce7aba26dd0f2999
        );
    }
}

#[derive(Drop)]
struct Reads128BitsBe;

impl<H: Abort + AllocGlobal> Case<H> for Reads128BitsBe {
    fn holds<R: Octets + Copy>(&self, rt: &H, octets: R) {
        reads!(
            rt,
            octets,
            parse_i128_be,
            0x12345678fd78a84ece7aba26dd0f2999,
            -9605457846724395475894107919101750112
        );
        reads!(
            rt,
            octets,
            parse_u128_be,
            0x12345678fd78a84ece7aba26dd0f2999,
            0xf8c60e5d3f5e3a7438388f3f57a794a0
        );
    }
}

#[derive(Drop)]
struct Reads128BitsLe;

impl<H: Abort + AllocGlobal> Case<H> for Reads128BitsLe {
    fn holds<R: Octets + Copy>(&self, rt: &H, octets: R) {
        reads!(
            rt,
            octets,
            parse_i128_le,
            0x12345678fd78a84ece7aba26dd0f2999,
            -9605457846724395475894107919101750112
        );
        reads!(
            rt,
            octets,
            parse_u128_le,
            0x12345678fd78a84ece7aba26dd0f2999,
            0xf8c60e5d3f5e3a7438388f3f57a794a0
        );
    }
}

#[test]
fn integers_are_read_in_both_orders(rt: HostRuntime) {
    unwrap(&rt, over_each(&rt, &ReadsSingleOctets, b"\x12\xD6"));
    unwrap(&rt, over_each(&rt, &Reads16BitsBe, b"\x12\x34\xEF\x6E\x00"));
    unwrap(&rt, over_each(&rt, &Reads16BitsLe, b"\x34\x12\x6E\xEF\x00"));
    unwrap(
        &rt,
        over_each(
            &rt,
            &Reads32BitsBe,
            b"\x12\x34\x56\x78\xFD\x78\xA8\x4E\x00\x00\x00",
        ),
    );
    unwrap(
        &rt,
        over_each(
            &rt,
            &Reads32BitsLe,
            b"\x78\x56\x34\x12\x4E\xA8\x78\xFD\x00\x00\x00",
        ),
    );
    unwrap(
        &rt,
        over_each(
            &rt,
            &Reads64BitsBe,
            b"\x12\x34\x56\x78\xFD\x78\xA8\x4E\xCE\x7A\xBA\x26\xDD\x0F\x29\x99\x00\x00\x00",
        ),
    );
    unwrap(
        &rt,
        over_each(
            &rt,
            &Reads64BitsLe,
            b"\x4E\xA8\x78\xFD\x78\x56\x34\x12\x99\x29\x0F\xDD\x26\xBA\x7A\xCE\x00\x00\x00",
        ),
    );
    unwrap(
        &rt,
        over_each(
            &rt,
            &Reads128BitsBe,
            b"\x12\x34\x56\x78\xFD\x78\xA8\x4E\xCE\x7A\xBA\x26\xDD\x0F\x29\x99\xF8\xC6\x0E\x5D\x3F\x5E\x3A\x74\x38\
                \x38\x8F\x3F\x57\xA7\x94\xA0\x00\x00\x00\x00\x00",
        ),
    );
    unwrap(
        &rt,
        over_each(
            &rt,
            &Reads128BitsLe,
            b"\x99\x29\x0F\xDD\x26\xBA\x7A\xCE\x4E\xA8\x78\xFD\x78\x56\x34\x12\xA0\x94\xA7\x57\x3F\x8F\x38\x38\x74\
                \x3A\x5E\x3F\x5D\x0E\xC6\xF8\x00\x00\x00\x00\x00",
        ),
    );
}

#[test]
fn the_order_of_the_octets_counts(rt: HostRuntime) {
    assert_equal!(
        &rt,
        Parser::from_static(b"\xEF\x6E").parse_i16_be(),
        Ok(-4242),
    );
    assert_equal!(
        &rt,
        Parser::from_static(b"\xEF\x6E").parse_u16_le(),
        Ok(28399),
    );
}
