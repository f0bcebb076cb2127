//! Integers as octets at the end of a content.
//!
//! # Errors
//!
//! Each call returns `Short` if the content would exceed the limit of its type, otherwise `Memory` if a request for
//! memory was refused. The content is then unchanged.
ghost use Rattle.std.specs.Prelude.{◌≡◌, ◌<◌, ◌^◌};
ghost use Rattle.octseq_core.specs.Appends.{Appends};
ghost use Rattle.octseq.specs.Composer.{AreOctetsOf, AppendsInteger};
ghost use Rattle.octseq.specs.Integer.{be, le, signed, octets_be, octets_le, unsigned};

use super::ComposeError;
use octseq_core::builder::{AppendError, OctetsBuilder};

/// The greatest integer of 3 octets.
const MAX_U24: u32 = 0xFF_FFFF;

/// The greatest integer of 6 octets.
const MAX_U48: u64 = 0xFFFF_FFFF_FFFF;

/// Appends a signed integer in one octet.
#[tactic(auto, using(crate::proofs::Written::written_1))]
pub fn append_i8<B: OctetsBuilder>(builder: &mut B, value: i8) -> Result<(), AppendError>
    ensures octets { AreOctetsOf (λ octets. signed 1 (be octets)) 1 value (octets_be 1 (unsigned 1 value)) }
    ensures appended { Appends B.limit B.asks result (octets_be 1 (unsigned 1 value))
        (B.content builder.old) (B.content builder.new) }
    ensures borrows { B.borrows builder.new ≡ B.borrows builder.old }
{
    append_u8(builder, value.cast_unsigned())
}

/// Appends an unsigned integer in one octet.
#[tactic(auto, using(crate::proofs::Written::written_1))]
pub fn append_u8<B: OctetsBuilder>(builder: &mut B, value: u8) -> Result<(), AppendError>
    ensures octets { AreOctetsOf be 1 value (octets_be 1 value) }
    ensures appended { Appends B.limit B.asks result (octets_be 1 value)
        (B.content builder.old) (B.content builder.new) }
    ensures borrows { B.borrows builder.new ≡ B.borrows builder.old }
{
    builder.append_slice(&value.to_be_bytes())
}

/// Appends a signed integer in 2 octets, big-endian.
#[tactic(auto, using(crate::proofs::Written::written_2))]
pub fn append_i16_be<B: OctetsBuilder>(builder: &mut B, value: i16) -> Result<(), AppendError>
    ensures octets { AreOctetsOf (λ octets. signed 2 (be octets)) 2 value (octets_be 2 (unsigned 2 value)) }
    ensures appended { Appends B.limit B.asks result (octets_be 2 (unsigned 2 value))
        (B.content builder.old) (B.content builder.new) }
    ensures borrows { B.borrows builder.new ≡ B.borrows builder.old }
{
    append_u16_be(builder, value.cast_unsigned())
}

/// Appends a signed integer in 2 octets, little-endian.
#[tactic(auto, using(crate::proofs::Written::written_2))]
pub fn append_i16_le<B: OctetsBuilder>(builder: &mut B, value: i16) -> Result<(), AppendError>
    ensures octets { AreOctetsOf (λ octets. signed 2 (le octets)) 2 value (octets_le 2 (unsigned 2 value)) }
    ensures appended { Appends B.limit B.asks result (octets_le 2 (unsigned 2 value))
        (B.content builder.old) (B.content builder.new) }
    ensures borrows { B.borrows builder.new ≡ B.borrows builder.old }
{
    append_u16_le(builder, value.cast_unsigned())
}

/// Appends an unsigned integer in 2 octets, big-endian.
///
/// # Examples
///
/// ```
/// // crates/octseq_callers/src/note.rt
/// append_u8(builder, MARK)?;
/// append_u16_be(builder, number)?;
/// append_part_u8(builder, words.as_bytes())?;
/// Ok(())
/// ```
#[tactic(auto, using(crate::proofs::Written::written_2))]
pub fn append_u16_be<B: OctetsBuilder>(builder: &mut B, value: u16) -> Result<(), AppendError>
    ensures octets { AreOctetsOf be 2 value (octets_be 2 value) }
    ensures appended { Appends B.limit B.asks result (octets_be 2 value)
        (B.content builder.old) (B.content builder.new) }
    ensures borrows { B.borrows builder.new ≡ B.borrows builder.old }
{
    builder.append_slice(&value.to_be_bytes())
}

/// Appends an unsigned integer in 2 octets, little-endian.
#[tactic(auto, using(crate::proofs::Written::written_2))]
pub fn append_u16_le<B: OctetsBuilder>(builder: &mut B, value: u16) -> Result<(), AppendError>
    ensures octets { AreOctetsOf le 2 value (octets_le 2 value) }
    ensures appended { Appends B.limit B.asks result (octets_le 2 value)
        (B.content builder.old) (B.content builder.new) }
    ensures borrows { B.borrows builder.new ≡ B.borrows builder.old }
{
    builder.append_slice(&value.to_le_bytes())
}

/// Appends an unsigned integer in 3 octets, big-endian.
///
/// # Errors
///
/// `TooLong` if the integer is greater than 16,777,215. This is tested first.
#[tactic(auto, using(crate::proofs::Written::written_3))]
pub fn append_u24_be<B: OctetsBuilder>(builder: &mut B, value: u32) -> Result<(), ComposeError>
    ensures octets { value < 256 ^ 3 → AreOctetsOf be 3 value (octets_be 3 value) }
    ensures appended { AppendsInteger B.limit B.asks result 3 value (octets_be 3 value)
        (B.content builder.old) (B.content builder.new) }
    ensures borrows { B.borrows builder.new ≡ B.borrows builder.old }
{
    if value > MAX_U24 {
        return Err(ComposeError::TooLong);
    }
    Ok(builder.append_slice(&value.to_be_bytes()[1..])?)
}

/// Appends an unsigned integer in 3 octets, little-endian.
///
/// # Errors
///
/// `TooLong` if the integer is greater than 16,777,215. This is tested first.
#[tactic(auto, using(crate::proofs::Written::written_3))]
pub fn append_u24_le<B: OctetsBuilder>(builder: &mut B, value: u32) -> Result<(), ComposeError>
    ensures octets { value < 256 ^ 3 → AreOctetsOf le 3 value (octets_le 3 value) }
    ensures appended { AppendsInteger B.limit B.asks result 3 value (octets_le 3 value)
        (B.content builder.old) (B.content builder.new) }
    ensures borrows { B.borrows builder.new ≡ B.borrows builder.old }
{
    if value > MAX_U24 {
        return Err(ComposeError::TooLong);
    }
    Ok(builder.append_slice(&value.to_le_bytes()[..3])?)
}

/// Appends a signed integer in 4 octets, big-endian.
#[tactic(auto, using(crate::proofs::Written::written_4))]
pub fn append_i32_be<B: OctetsBuilder>(builder: &mut B, value: i32) -> Result<(), AppendError>
    ensures octets { AreOctetsOf (λ octets. signed 4 (be octets)) 4 value (octets_be 4 (unsigned 4 value)) }
    ensures appended { Appends B.limit B.asks result (octets_be 4 (unsigned 4 value))
        (B.content builder.old) (B.content builder.new) }
    ensures borrows { B.borrows builder.new ≡ B.borrows builder.old }
{
    append_u32_be(builder, value.cast_unsigned())
}

/// Appends a signed integer in 4 octets, little-endian.
#[tactic(auto, using(crate::proofs::Written::written_4))]
pub fn append_i32_le<B: OctetsBuilder>(builder: &mut B, value: i32) -> Result<(), AppendError>
    ensures octets { AreOctetsOf (λ octets. signed 4 (le octets)) 4 value (octets_le 4 (unsigned 4 value)) }
    ensures appended { Appends B.limit B.asks result (octets_le 4 (unsigned 4 value))
        (B.content builder.old) (B.content builder.new) }
    ensures borrows { B.borrows builder.new ≡ B.borrows builder.old }
{
    append_u32_le(builder, value.cast_unsigned())
}

/// Appends an unsigned integer in 4 octets, big-endian.
#[tactic(auto, using(crate::proofs::Written::written_4))]
pub fn append_u32_be<B: OctetsBuilder>(builder: &mut B, value: u32) -> Result<(), AppendError>
    ensures octets { AreOctetsOf be 4 value (octets_be 4 value) }
    ensures appended { Appends B.limit B.asks result (octets_be 4 value)
        (B.content builder.old) (B.content builder.new) }
    ensures borrows { B.borrows builder.new ≡ B.borrows builder.old }
{
    builder.append_slice(&value.to_be_bytes())
}

/// Appends an unsigned integer in 4 octets, little-endian.
#[tactic(auto, using(crate::proofs::Written::written_4))]
pub fn append_u32_le<B: OctetsBuilder>(builder: &mut B, value: u32) -> Result<(), AppendError>
    ensures octets { AreOctetsOf le 4 value (octets_le 4 value) }
    ensures appended { Appends B.limit B.asks result (octets_le 4 value)
        (B.content builder.old) (B.content builder.new) }
    ensures borrows { B.borrows builder.new ≡ B.borrows builder.old }
{
    builder.append_slice(&value.to_le_bytes())
}

/// Appends an unsigned integer in 6 octets, big-endian.
///
/// # Errors
///
/// `TooLong` if the integer is greater than 281,474,976,710,655. This is tested first.
#[tactic(auto, using(crate::proofs::Written::written_6))]
pub fn append_u48_be<B: OctetsBuilder>(builder: &mut B, value: u64) -> Result<(), ComposeError>
    ensures octets { value < 256 ^ 6 → AreOctetsOf be 6 value (octets_be 6 value) }
    ensures appended { AppendsInteger B.limit B.asks result 6 value (octets_be 6 value)
        (B.content builder.old) (B.content builder.new) }
    ensures borrows { B.borrows builder.new ≡ B.borrows builder.old }
{
    if value > MAX_U48 {
        return Err(ComposeError::TooLong);
    }
    Ok(builder.append_slice(&value.to_be_bytes()[2..])?)
}

/// Appends an unsigned integer in 6 octets, little-endian.
///
/// # Errors
///
/// `TooLong` if the integer is greater than 281,474,976,710,655. This is tested first.
#[tactic(auto, using(crate::proofs::Written::written_6))]
pub fn append_u48_le<B: OctetsBuilder>(builder: &mut B, value: u64) -> Result<(), ComposeError>
    ensures octets { value < 256 ^ 6 → AreOctetsOf le 6 value (octets_le 6 value) }
    ensures appended { AppendsInteger B.limit B.asks result 6 value (octets_le 6 value)
        (B.content builder.old) (B.content builder.new) }
    ensures borrows { B.borrows builder.new ≡ B.borrows builder.old }
{
    if value > MAX_U48 {
        return Err(ComposeError::TooLong);
    }
    Ok(builder.append_slice(&value.to_le_bytes()[..6])?)
}

/// Appends a signed integer in 8 octets, big-endian.
#[tactic(auto, using(crate::proofs::Written::written_8))]
pub fn append_i64_be<B: OctetsBuilder>(builder: &mut B, value: i64) -> Result<(), AppendError>
    ensures octets { AreOctetsOf (λ octets. signed 8 (be octets)) 8 value (octets_be 8 (unsigned 8 value)) }
    ensures appended { Appends B.limit B.asks result (octets_be 8 (unsigned 8 value))
        (B.content builder.old) (B.content builder.new) }
    ensures borrows { B.borrows builder.new ≡ B.borrows builder.old }
{
    append_u64_be(builder, value.cast_unsigned())
}

/// Appends a signed integer in 8 octets, little-endian.
#[tactic(auto, using(crate::proofs::Written::written_8))]
pub fn append_i64_le<B: OctetsBuilder>(builder: &mut B, value: i64) -> Result<(), AppendError>
    ensures octets { AreOctetsOf (λ octets. signed 8 (le octets)) 8 value (octets_le 8 (unsigned 8 value)) }
    ensures appended { Appends B.limit B.asks result (octets_le 8 (unsigned 8 value))
        (B.content builder.old) (B.content builder.new) }
    ensures borrows { B.borrows builder.new ≡ B.borrows builder.old }
{
    append_u64_le(builder, value.cast_unsigned())
}

/// Appends an unsigned integer in 8 octets, big-endian.
#[tactic(auto, using(crate::proofs::Written::written_8))]
pub fn append_u64_be<B: OctetsBuilder>(builder: &mut B, value: u64) -> Result<(), AppendError>
    ensures octets { AreOctetsOf be 8 value (octets_be 8 value) }
    ensures appended { Appends B.limit B.asks result (octets_be 8 value)
        (B.content builder.old) (B.content builder.new) }
    ensures borrows { B.borrows builder.new ≡ B.borrows builder.old }
{
    builder.append_slice(&value.to_be_bytes())
}

/// Appends an unsigned integer in 8 octets, little-endian.
#[tactic(auto, using(crate::proofs::Written::written_8))]
pub fn append_u64_le<B: OctetsBuilder>(builder: &mut B, value: u64) -> Result<(), AppendError>
    ensures octets { AreOctetsOf le 8 value (octets_le 8 value) }
    ensures appended { Appends B.limit B.asks result (octets_le 8 value)
        (B.content builder.old) (B.content builder.new) }
    ensures borrows { B.borrows builder.new ≡ B.borrows builder.old }
{
    builder.append_slice(&value.to_le_bytes())
}

/// Appends a signed integer in 16 octets, big-endian.
#[tactic(auto, using(crate::proofs::Written::written_16))]
pub fn append_i128_be<B: OctetsBuilder>(builder: &mut B, value: i128) -> Result<(), AppendError>
    ensures octets { AreOctetsOf (λ octets. signed 16 (be octets)) 16 value (octets_be 16 (unsigned 16 value)) }
    ensures appended { Appends B.limit B.asks result (octets_be 16 (unsigned 16 value))
        (B.content builder.old) (B.content builder.new) }
    ensures borrows { B.borrows builder.new ≡ B.borrows builder.old }
{
    append_u128_be(builder, value.cast_unsigned())
}

/// Appends a signed integer in 16 octets, little-endian.
#[tactic(auto, using(crate::proofs::Written::written_16))]
pub fn append_i128_le<B: OctetsBuilder>(builder: &mut B, value: i128) -> Result<(), AppendError>
    ensures octets { AreOctetsOf (λ octets. signed 16 (le octets)) 16 value (octets_le 16 (unsigned 16 value)) }
    ensures appended { Appends B.limit B.asks result (octets_le 16 (unsigned 16 value))
        (B.content builder.old) (B.content builder.new) }
    ensures borrows { B.borrows builder.new ≡ B.borrows builder.old }
{
    append_u128_le(builder, value.cast_unsigned())
}

/// Appends an unsigned integer in 16 octets, big-endian.
#[tactic(auto, using(crate::proofs::Written::written_16))]
pub fn append_u128_be<B: OctetsBuilder>(builder: &mut B, value: u128) -> Result<(), AppendError>
    ensures octets { AreOctetsOf be 16 value (octets_be 16 value) }
    ensures appended { Appends B.limit B.asks result (octets_be 16 value)
        (B.content builder.old) (B.content builder.new) }
    ensures borrows { B.borrows builder.new ≡ B.borrows builder.old }
{
    builder.append_slice(&value.to_be_bytes())
}

/// Appends an unsigned integer in 16 octets, little-endian.
#[tactic(auto, using(crate::proofs::Written::written_16))]
pub fn append_u128_le<B: OctetsBuilder>(builder: &mut B, value: u128) -> Result<(), AppendError>
    ensures octets { AreOctetsOf le 16 value (octets_le 16 value) }
    ensures appended { Appends B.limit B.asks result (octets_le 16 value)
        (B.content builder.old) (B.content builder.new) }
    ensures borrows { B.borrows builder.new ≡ B.borrows builder.old }
{
    builder.append_slice(&value.to_le_bytes())
}
