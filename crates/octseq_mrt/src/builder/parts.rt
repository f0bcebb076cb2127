//! Parts, appended one after another or not at all.
ghost use Rattle.std.specs.Prelude.{◌≡◌, ◌<◌, ◌≤◌, ◌+◌, ◌++◌, ◌↔◌, ◌⊎◌, ℕ, length, take, drop, true, IsTrue, IsErr};
ghost use Rattle.std.specs.Prelude.{IfOk, OnOk, OnErr, is_some};
ghost use Rattle.octseq.specs.Integer.{octets_be};
ghost use Rattle.octseq.specs.Limit.{ExceedsLimit, IsWithin};
ghost use Rattle.octseq.specs.Parts.{StartsWith};
ghost use Rattle.octseq.specs.Refusal.{IsShort, IsMemory, append_error};
ghost use Rattle.octseq_format.specs.Optional.{optional_octets};
ghost use Rattle.octseq_bgp.specs.Path.{asn_size};
ghost use Rattle.octseq_mrt.specs.Joined.{body_limit, parts_joined, with_count};
ghost use Rattle.octseq_mrt.specs.Written.{FitsOptional};

use octseq::builder::AsOctetsMut;
use octseq::{AppendError, OctetsBuilder, ShortBuf, Truncate};
use std::alloc::AllocError;

/// The greatest number of octets after a header, whose length has four octets: RFC 6396, 2.
pub(crate) const BODY_MAX: usize = 0xFFFF_FFFF;

/// Whether parts have at most `most` octets.
fn are_within(parts: &[&[u8]], most: usize) -> bool
    ensures { IsTrue result ↔ (length (parts_joined parts.now) ≤ most) }
{
    let mut left = most;
    for part in parts {
        if part.len() > left {
            return false;
        }
        left -= part.len();
    }
    true
}

/// Appends parts. On an error it may have appended some.
fn put_parts<B: OctetsBuilder>(builder: &mut B, parts: &[&[u8]]) -> Result<(), AllocError>
    requires { IsWithin B.limit (length (B.content builder.now) + length (parts_joined parts.now)) }
    ensures ok { OnOk result (B.content builder.new ≡ B.content builder.old ++ parts_joined parts.now) }
    ensures err { OnErr result (StartsWith (B.content builder.old) (B.content builder.new)) }
    ensures memory { IsErr result → B.asks ≡ true }
    ensures borrows { B.borrows builder.new ≡ B.borrows builder.old }
{
    for part in parts {
        if builder.append_few(part).is_err() {
            return Err(AllocError);
        }
    }
    Ok(())
}

/// Appends parts, or nothing. They may have `most` octets.
pub(crate) fn append_parts<B: OctetsBuilder + Truncate>(
    builder: &mut B,
    parts: &[&[u8]],
    most: usize,
) -> Result<(), AppendError>
    ensures ok { OnOk result (B.content builder.new ≡ B.content builder.old ++ parts_joined parts.now) }
    ensures few { OnOk result (length (parts_joined parts.now) ≤ most) }
    ensures err { OnErr result (B.content builder.new ≡ B.content builder.old) }
    ensures short { IsShort append_error result ↔ (most < length (parts_joined parts.now))
        ⊎ ExceedsLimit B.limit (length (B.content builder.old) + length (parts_joined parts.now)) }
    ensures memory { IsMemory append_error result → B.asks ≡ true }
    ensures borrows { B.borrows builder.new ≡ B.borrows builder.old }
{
    let before = builder.len();
    let room = match builder.max_len() {
        Some(limit) => most.min(limit - before),
        None => most,
    };
    if !are_within(parts, room) {
        return Err(AppendError::Short(ShortBuf));
    }
    if put_parts(builder, parts).is_err() {
        builder.truncate(before);
        return Err(AppendError::Memory);
    }
    Ok(())
}

/// Overwrites the octets from `at` on with a slice.
fn write_over<B: AsOctetsMut>(octets: &mut B, at: usize, slice: &[u8])
    requires { at + length slice.now ≤ length (B.content octets.old) }
    ensures content { B.content octets.new ≡ take at (B.content octets.old)
        ++ (slice.now ++ drop (at + length slice.now) (B.content octets.old)) }
    ensures borrows { B.borrows octets.new ≡ B.borrows octets.old }
{
    octets.as_mut()[at..at + slice.len()].copy_from_slice(slice);
}

/// Appends an item to a list whose count of two octets is at `count_at`, and counts it; or changes nothing. Returns the
/// new count.
#[tactic(auto, using(octseq::proofs::Written::written_2))]
pub(crate) fn push_item<B: OctetsBuilder + Truncate + AsOctetsMut>(
    octets: &mut B,
    count_at: usize,
    count: u16,
    item: &[&[u8]],
) -> Result<u16, AppendError>
    requires offset { count_at + 2 ≤ length (B.content octets.old) }
    requires few { length (B.content octets.old) ≤ 4294967295 }
    ensures count { IfOk result (λ n. (n ≡ count + 1) × (n ≤ 65535)) }
    ensures ok { OnOk result (B.content octets.new
        ≡ with_count count_at (count + 1) (B.content octets.old ++ parts_joined item.now)) }
    ensures within { OnOk result (length (B.content octets.old) + length (parts_joined item.now) ≤ 4294967295) }
    ensures err { OnErr result (B.content octets.new ≡ B.content octets.old) }
    ensures short { IsShort append_error result ↔ (65535 ≤ count)
        ⊎ ExceedsLimit (body_limit B.limit) (length (B.content octets.old) + length (parts_joined item.now)) }
    ensures memory { IsMemory append_error result → B.asks ≡ true }
    ensures borrows { B.borrows octets.new ≡ B.borrows octets.old }
{
    let Some(count) = count.checked_add(1) else {
        return Err(AppendError::Short(ShortBuf));
    };
    let most = BODY_MAX - octets.len();
    append_parts(octets, item, most)?;
    write_over(octets, count_at, &count.to_be_bytes());
    Ok(count)
}

/// Returns the octets of a number, and how many of the four these are: none if there is no number.
#[tactic(auto, using(octseq::proofs::Written::written_4))]
pub(crate) fn optional_octets(number: Option<u32>) -> ([u8; 4], usize)
    ensures octets { take result.1 result.0 ≡ optional_octets (octets_be 4) number }
    ensures most { result.1 ≤ 4 }
{
    match number {
        Some(number) => (number.to_be_bytes(), 4),
        None => ([0; 4], 0),
    }
}

/// Returns the octets of an AS number, of which four are given: all of them, or the last two.
pub(crate) fn asn_octets(octets: &[u8; 4], wide: bool) -> &[u8]
    ensures { (n : ℕ) → octets.now ≡ octets_be 4 n → result.now ≡ octets_be (asn_size wide) n }
{
    if wide { octets } else { &octets[2..] }
}
