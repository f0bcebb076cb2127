//! Frames: octets with a length prefix that is known only when all of them are written.
ghost use Rattle.std.specs.Prelude.{◌≡◌, ◌+◌, ◌<◌, ◌≤◌, ◌++◌, ◌∷◌, [], true, length, take, drop, IsErr, OnOk, OnErr};
ghost use Rattle.octseq.specs.Integer.{octets_be};
ghost use Rattle.octseq.specs.Limit.{ExceedsLimit};
ghost use Rattle.octseq.specs.Part.{part_of};
ghost use Rattle.octseq.specs.Refusal.{IsShort, IsMemory, IsMalformed, append_error, write_error};

use octseq::builder::AsOctetsMut;
use octseq::compose::append_u16_be;
use octseq::{AppendError, OctetsBuilder, Truncate, WriteError};

/// Overwrites the two octets at an index, which exist, with an integer, big-endian.
pub fn put_u16_be<B: AsOctetsMut>(octets: &mut B, at: usize, value: u16)
    requires { at + 2 ≤ length (B.content octets.old) }
    ensures content { B.content octets.new
        ≡ take at (B.content octets.old) ++ (octets_be 2 value ++ drop (at + 2) (B.content octets.old)) }
    ensures borrows { B.borrows octets.new ≡ B.borrows octets.old }
{
    octets.as_mut()[at..at + 2].copy_from_slice(&value.to_be_bytes());
}

/// Appends a frame piece by piece. On an error the content may end with a prefix of it.
fn append_pieces<B: OctetsBuilder + AsOctetsMut>(
    builder: &mut B,
    name: &[u8],
    value: &[u8],
) -> Result<(), WriteError>
    ensures ok { OnOk result (B.content builder.new
        ≡ B.content builder.old ++ part_of 2 (name.now ++ value.now)) }
    ensures front { take (length (B.content builder.old)) (B.content builder.new) ≡ B.content builder.old }
    ensures malformed { IsMalformed write_error result → 65535 < length name.now + length value.now }
    ensures long { 65535 < length name.now + length value.now → IsErr result }
    ensures short { IsShort write_error result
        → ExceedsLimit B.limit (length (B.content builder.old) + length (part_of 2 (name.now ++ value.now))) }
    ensures past { ExceedsLimit B.limit (length (B.content builder.old) + length (part_of 2 (name.now ++ value.now)))
        → IsErr result }
    ensures memory { IsMemory write_error result → B.asks ≡ true }
    ensures borrows { B.borrows builder.new ≡ B.borrows builder.old }
{
    let at = builder.len();
    append_u16_be(builder, 0)?;
    builder.append_slice(name)?;
    builder.append_slice(value)?;
    let Ok(len) = u16::try_from(builder.len() - at - 2) else {
        return Err(WriteError::Malformed);
    };
    put_u16_be(builder, at, len);
    Ok(())
}

/// Appends a frame: the length of a name and a value, in 2 octets, big-endian, followed by both.
///
/// # Errors
///
/// `Malformed` only if both have more than 65,535 octets. `Short` only if the content with the whole frame would exceed
/// the limit of its type, and `Memory` only if a request for memory was refused. The content is then unchanged.
pub fn append_frame<B: OctetsBuilder + AsOctetsMut + Truncate>(
    builder: &mut B,
    name: &[u8],
    value: &[u8],
) -> Result<(), WriteError>
    ensures ok { OnOk result (B.content builder.new
        ≡ B.content builder.old ++ part_of 2 (name.now ++ value.now)) }
    ensures err { OnErr result (B.content builder.new ≡ B.content builder.old) }
    ensures malformed { IsMalformed write_error result → 65535 < length name.now + length value.now }
    ensures long { 65535 < length name.now + length value.now → IsErr result }
    ensures short { IsShort write_error result
        → ExceedsLimit B.limit (length (B.content builder.old) + length (part_of 2 (name.now ++ value.now))) }
    ensures past { ExceedsLimit B.limit (length (B.content builder.old) + length (part_of 2 (name.now ++ value.now)))
        → IsErr result }
    ensures memory { IsMemory write_error result → B.asks ≡ true }
    ensures borrows { B.borrows builder.new ≡ B.borrows builder.old }
{
    let before = builder.len();
    let appended = append_pieces(builder, name, value);
    if appended.is_err() {
        builder.truncate(before);
    }
    appended
}

/// Appends a line: octets and a line feed.
///
/// # Errors
///
/// `Short` only if the content with the line would exceed the limit of its type, and `Memory` only if a request for
/// memory was refused. The content is then unchanged.
#[tactic(auto, using(octseq::proofs::Limits::past_more))]
pub fn append_line<B: OctetsBuilder + Truncate>(
    builder: &mut B,
    line: &[u8],
) -> Result<(), AppendError>
    ensures ok { OnOk result (B.content builder.new ≡ B.content builder.old ++ (line.now ++ 10 ∷ [])) }
    ensures err { OnErr result (B.content builder.new ≡ B.content builder.old) }
    ensures short { IsShort append_error result
        → ExceedsLimit B.limit (length (B.content builder.old) + (length line.now + 1)) }
    ensures past { ExceedsLimit B.limit (length (B.content builder.old) + (length line.now + 1)) → IsErr result }
    ensures memory { IsMemory append_error result → B.asks ≡ true }
    ensures borrows { B.borrows builder.new ≡ B.borrows builder.old }
{
    let before = builder.len();
    builder.append_slice(line)?;
    let ended = builder.append_slice(b"\n");
    if ended.is_err() {
        builder.truncate(before);
    }
    ended
}
