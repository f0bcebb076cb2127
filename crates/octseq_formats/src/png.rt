//! Chunks of PNG: its third edition, 5. A file is a signature and chunks up to `IEND`.
ghost use Rattle.std.specs.Prelude.{◌≡◌, ◌<◌};
ghost use Rattle.octseq_formats.specs.Png.{shifted, stepped, crc};

use octseq_format::{
    After, Checked, Checksum, Const, OctetArray, Repeated, Rest, Sized, Tagged, Test, U8, U32Be,
    U64Be, When,
};

/// The eight octets with which a file begins.
pub type Signature = Const<U64Be, 0x8950_4E47_0D0A_1A0A>;

/// The length of a chunk, which is below 2 ^ 31.
#[derive(Debug)]
pub struct IsLength;

impl Test for IsLength {
    ghost holds = { λ len. len < 2147483648 };

    fn test(len: usize) -> bool {
        len < 0x8000_0000
    }
}

/// Divides a remainder by one bit more.
#[tactic(auto, unfolding(crate::specs::Png::shifted))]
fn shifted(remainder: u32) -> u32
    ensures { result ≡ shifted remainder }
{
    if remainder % 2 == 1 {
        remainder >> 1 ^ 0xEDB8_8320
    } else {
        remainder >> 1
    }
}

/// Divides a remainder by the eight bits of an octet more.
#[tactic(auto, unfolding(crate::specs::Png::stepped))]
fn stepped(remainder: u32, octet: u8) -> u32
    ensures { result ≡ stepped remainder octet }
{
    let four = shifted(shifted(shifted(shifted(remainder ^ u32::from(octet)))));
    shifted(shifted(shifted(shifted(four))))
}

/// The CRC of a chunk (5.5): that of ISO 3309, of 32 bits.
#[derive(Debug)]
pub struct Crc;

impl Checksum for Crc {
    type Sum = U32Be;

    ghost of = { crc };

    #[tactic(auto, unfolding(crate::specs::Png::crc))]
    fn of(octets: &[u8]) -> usize {
        let remainder = octets
            .iter()
            .fold(u32::MAX, |remainder, octet| stepped(remainder, *octet));
        (remainder ^ u32::MAX) as usize
    }
}

/// A chunk: the length of its data; its type and its data; and the CRC of these two. The value is type and data.
pub type Chunk = Tagged<U32Be, When<IsLength, Checked<After<OctetArray<4>, Sized<Rest, 0>>, Crc>>>;

/// The data of `IHDR`: width and height; bit depth, colour type, and the methods of compression, filtering and
/// interlacing.
pub type ImageHeader = ((U32Be, U32Be), (U8, U8, U8), (U8, U8));

/// A file: its signature, and chunks. Their order, and what their types demand, are for the caller to check.
pub type File = (Signature, Repeated<Chunk>);
