//! Parts at the end of a content: a length followed by its octets.
ghost use Rattle.std.specs.Prelude.{◌≡◌, ◌+◌, ◌++◌, ◌↔◌, true, length, IsFalse, OnOk, OnErr};
ghost use Rattle.octseq_core.specs.Limit.{ExceedsLimit};
ghost use Rattle.octseq.specs.Composer.{AppendsPart};
ghost use Rattle.octseq.specs.Refusal.{IsShort, IsMemory, IsTooLong, compose_error};

use super::ComposeError;
use octseq_core::builder::{OctetsBuilder, Truncate};

/// Appends a part with its length in one octet.
///
/// # Errors
///
/// `TooLong` if the part has more than 255 octets. Otherwise `Short` if the content, with the length and the part,
/// would exceed the limit of its type, and otherwise `Memory` if a request for memory was refused. The content is then
/// unchanged.
///
/// # Examples
///
/// ```
/// // crates/octseq_examples/src/composing.rt
/// let mut account = Array::<16>::new();
/// append_u16_be(&mut account, 0x1234)?;
/// append_part_u8(&mut account, b"abc")?; // the octet 3, and "abc"
/// append_i32_le(&mut account, -2)?;
/// ```
#[tactic(auto, using(crate::proofs::Written::written_1))]
pub fn append_part_u8<B: OctetsBuilder + Truncate>(
    builder: &mut B,
    part: &[u8],
) -> Result<(), ComposeError>
    ensures appended { AppendsPart B.limit B.asks result 1 part.now
        (B.content builder.old) (B.content builder.new) }
    ensures borrows { B.borrows builder.new ≡ B.borrows builder.old }
{
    let Ok(len) = u8::try_from(part.len()) else {
        return Err(ComposeError::TooLong);
    };
    append_both(builder, &len.to_be_bytes(), part)
}

/// Appends a part with its length in 2 octets, big-endian.
///
/// # Errors
///
/// `TooLong` if the part has more than 65,535 octets. Otherwise `Short` if the content, with the length and the part,
/// would exceed the limit of its type, and otherwise `Memory` if a request for memory was refused. The content is then
/// unchanged.
#[tactic(auto, using(crate::proofs::Written::written_2))]
pub fn append_part_u16_be<B: OctetsBuilder + Truncate>(
    builder: &mut B,
    part: &[u8],
) -> Result<(), ComposeError>
    ensures appended { AppendsPart B.limit B.asks result 2 part.now
        (B.content builder.old) (B.content builder.new) }
    ensures borrows { B.borrows builder.new ≡ B.borrows builder.old }
{
    let Ok(len) = u16::try_from(part.len()) else {
        return Err(ComposeError::TooLong);
    };
    append_both(builder, &len.to_be_bytes(), part)
}

/// Appends a part with its length in 4 octets, big-endian.
///
/// # Errors
///
/// `TooLong` if the part has more than 4,294,967,295 octets. Otherwise `Short` if the content, with the length and the
/// part, would exceed the limit of its type, and otherwise `Memory` if a request for memory was refused. The content is
/// then unchanged.
#[tactic(auto, using(crate::proofs::Written::written_4))]
pub fn append_part_u32_be<B: OctetsBuilder + Truncate>(
    builder: &mut B,
    part: &[u8],
) -> Result<(), ComposeError>
    ensures appended { AppendsPart B.limit B.asks result 4 part.now
        (B.content builder.old) (B.content builder.new) }
    ensures borrows { B.borrows builder.new ≡ B.borrows builder.old }
{
    let Ok(len) = u32::try_from(part.len()) else {
        return Err(ComposeError::TooLong);
    };
    append_both(builder, &len.to_be_bytes(), part)
}

/// Whether a builder has room for `first + more` further octets. Always true without a limit.
fn has_room<B: OctetsBuilder>(builder: &B, first: usize, more: usize) -> bool
    ensures { IsFalse result ↔ ExceedsLimit B.limit (length (B.content builder.now) + (first + more)) }
{
    match builder.max_len() {
        None => true,
        Some(limit) => {
            let room = limit - builder.len();
            first <= room && more <= room - first
        }
    }
}

/// Appends both slices or none. The limit is tested first, so a content that would exceed it requests no memory.
fn append_both<B: OctetsBuilder + Truncate>(
    builder: &mut B,
    first: &[u8],
    more: &[u8],
) -> Result<(), ComposeError>
    ensures ok { OnOk result (B.content builder.new ≡ B.content builder.old ++ (first.now ++ more.now)) }
    ensures err { OnErr result (B.content builder.new ≡ B.content builder.old) }
    ensures fits { ¬ IsTooLong compose_error result }
    ensures short { IsShort compose_error result
        ↔ ExceedsLimit B.limit (length (B.content builder.old) + (length first.now + length more.now)) }
    ensures memory { IsMemory compose_error result → B.asks ≡ true }
    ensures borrows { B.borrows builder.new ≡ B.borrows builder.old }
{
    if !has_room(builder, first.len(), more.len()) {
        return Err(ComposeError::Short);
    }
    let before = builder.len();
    builder.append_slice(first)?;
    let appended = builder.append_slice(more);
    if appended.is_err() {
        builder.truncate(before);
    }
    Ok(appended?)
}
