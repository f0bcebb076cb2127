//! What the parts of a number decide, and what tells them: octets by hand, from the standards.
ghost use Rattle.std.specs.Prelude.{◌+◌, ◌%◌, fold};

use crate::tests::{is_refused, is_said, is_same, is_unwritten, isnt_said, rewritten};
use octseq::AsOctets;
use octseq_format::{
    After, Case, Checked, Checksum, HighFirst, If, IsSet, LowFirst, Nothing, OctetArray, Others,
    Scaled, Sized, Split, Tagged, U8, U16Be,
};
use octseq_formats::png;
use std::alloc::AllocGlobal;
use std::process::Abort;

/// As a header of IPv4 begins: version 4, a number of words of four octets with five of them before the last eight
/// octets, and a number.
type Header = Tagged<
    U8,
    After<U16Be, Split<HighFirst<4>, Case<4, Nothing>, Scaled<4, Sized<OctetArray<8>, 20>>>>,
>;

/// The same with six octets, which aren't words.
type Odd = Tagged<U8, Split<HighFirst<4>, Case<4, Nothing>, Scaled<4, Sized<OctetArray<6>, 20>>>>;

#[test]
fn a_length_in_words_is_computed(rt: HostRuntime) {
    is_said::<Header>(&rt, b"\x47\x01\x02abcdefgh", (0x0102, ((), *b"abcdefgh")));
    isnt_said::<Header>(&rt, b"\x57\x01\x02abcdefgh");
    isnt_said::<Header>(&rt, b"\x46\x01\x02abcdefgh");
    isnt_said::<Header>(&rt, b"\x46\x01\x02abcd");
    isnt_said::<Header>(&rt, b"\x44\x01\x02");
    isnt_said::<Header>(&rt, b"\x47\x01\x02abcdefg");
    is_unwritten::<Odd>(&rt, ((), *b"abcdef"));
}

/// The lowest bit says whether a number is there, the one above it is kept, and the others are 3.
type Flags = Tagged<
    U8,
    Split<LowFirst<1>, If<IsSet, U16Be>, Split<LowFirst<1>, Others<Nothing>, Case<3, Nothing>>>,
>;

#[test]
fn flags_are_computed(rt: HostRuntime) {
    is_said::<Flags>(&rt, b"\x0D\x01\x02", (Some(0x0102), ((0, ()), ())));
    is_said::<Flags>(&rt, b"\x0F\x01\x02", (Some(0x0102), ((1, ()), ())));
    is_said::<Flags>(&rt, b"\x0E", (None, ((1, ()), ())));
    isnt_said::<Flags>(&rt, b"\x0D\x01");
    isnt_said::<Flags>(&rt, b"\x0C\x01\x02");
    isnt_said::<Flags>(&rt, b"\x08");
    is_unwritten::<Flags>(&rt, (None, ((2, ()), ())));
}

/// The sum of octets, in 16 bits.
struct Sum;

impl Checksum for Sum {
    type Sum = U8;

    ghost of = { fold (λ sum octet. (sum + octet) % 65536) 0 };

    fn of(octets: &[u8]) -> usize {
        let sum = octets
            .iter()
            .fold(0_u16, |sum, octet| sum.wrapping_add(u16::from(*octet)));
        usize::from(sum)
    }
}

/// Two octets, and the lowest octet of their sum.
type Summed = Checked<OctetArray<2>, Sum>;

/// A length, as many octets, and the lowest octet of their sum.
type Counted = Tagged<U8, Checked<Sized<OctetArray<2>, 0>, Sum>>;

#[test]
fn the_lowest_octets_of_a_sum_count(rt: HostRuntime) {
    is_said::<Summed>(&rt, b"\x01\x02\x03", *b"\x01\x02");
    is_said::<Summed>(&rt, b"\xFF\x03\x02", *b"\xFF\x03");
    isnt_said::<Summed>(&rt, b"\xFF\x03\x03");
    isnt_said::<Summed>(&rt, b"\x01\x02");
    is_said::<Counted>(&rt, b"\x02\xFF\x03\x02", *b"\xFF\x03");
    isnt_said::<Counted>(&rt, b"\x02\xFF\x03\x04");
    isnt_said::<Counted>(&rt, b"\x03\xFF\x03\x02\x02");
}

/// Reads and writes a chunk again.
fn chunk_again<R: AsOctets + Copy>(rt: &(impl AllocGlobal + Abort), octets: R) -> Option<Vec<u8>> {
    rewritten::<png::Chunk, R>(rt, octets)
}

#[test]
fn the_crc_of_a_chunk_is_computed(rt: HostRuntime) {
    let end = b"\0\0\0\0IEND\xAEB`\x82".as_slice();
    is_same(&rt, chunk_again(&rt, end), end);
    is_refused(&rt, chunk_again(&rt, b"\0\0\0\0IEND\xAEB`\x83".as_slice()));
    is_refused(&rt, chunk_again(&rt, b"\0\0\0\0IENE\xAEB`\x82".as_slice()));
    is_refused(&rt, chunk_again(&rt, &end[..11]));
}
