//! Short texts, collected before they are appended.
//!
//! At each append a builder tests whether there is room, and some builders test whether the two places overlap. For a
//! character or two that takes longer than the copy, so short texts are copied into an array first, and appended
//! together.
ghost use Rattle.std.specs.Prelude.{◌≡◌, ◌≤◌, true, false, [], ◌++◌, take, length, OnOk, OnErr};
ghost use Rattle.octseq_core.specs.Appends.{Appends};
ghost use Rattle.octseq_core.specs.Limit.{IsWithin, ExceedsLimit};
ghost use Rattle.octseq_core.specs.Refusal.{IsShort, IsMemory, append_error};
ghost use Rattle.octseq_utf8.specs.Parts.{StartsWith};

use octseq_core::array::Array;
use octseq_core::builder::{AppendError, OctetsBuilder, Truncate};

/// The size of the array in octets.
pub(super) const STAGE: usize = 512;

/// Appends octets. If they are one to three, the size of the copy is known at compile time.
#[inline(always)]
pub(super) fn append_short<B: OctetsBuilder>(
    builder: &mut B,
    octets: &[u8],
) -> Result<(), AppendError>
    ensures appended { Appends B.limit B.asks result octets.now
        (B.content builder.old) (B.content builder.new) }
    ensures borrows { B.borrows builder.new ≡ B.borrows builder.old }
{
    match octets.len() {
        1 => builder.append_slice(&octets[..1]),
        2 => builder.append_slice(&octets[..2]),
        3 => builder.append_slice(&octets[..3]),
        _ => builder.append_slice(octets),
    }
}

/// The number of octets that are copied at once, if the text is no longer than that.
const LANE: usize = 16;

/// Stages the first `len` octets by copying a whole lane: one load and one store, whatever the length. Returns whether
/// there was room.
#[inline(always)]
fn append_lane(staged: &mut Array<STAGE>, octets: &[u8], len: usize) -> bool
    requires { (len ≤ 16) × (16 ≤ length octets.now) }
    ensures some { result ≡ true → staged.new.content ≡ staged.old.content ++ take len octets.now }
    ensures none { result ≡ false → staged.new.content ≡ staged.old.content }
{
    let end = staged.as_slice().len() + len;
    match staged.append_slice(&octets[..LANE]) {
        Ok(()) => {
            staged.truncate(end);
            true
        }
        Err(_) => false,
    }
}

/// Like [`append_staged`] for the first `len` octets, which are copied as a lane if they fit one and the octets fill
/// it.
#[inline(always)]
pub(super) fn append_front<B: OctetsBuilder>(
    builder: &mut B,
    staged: &mut Array<STAGE>,
    octets: &[u8],
    len: usize,
) -> Result<(), AppendError>
    requires { len ≤ length octets.now }
    ensures text { OnOk result (B.content builder.new ++ staged.new.content
        ≡ (B.content builder.old ++ staged.old.content) ++ take len octets.now) }
    ensures front { StartsWith (B.content builder.old) (B.content builder.new) }
    ensures short { IsShort append_error result
        → ExceedsLimit B.limit (length ((B.content builder.old ++ staged.old.content) ++ take len octets.now)) }
    ensures memory { IsMemory append_error result → B.asks ≡ true }
    ensures borrows { B.borrows builder.new ≡ B.borrows builder.old }
{
    if len <= LANE && octets.len() >= LANE && append_lane(staged, octets, len) {
        return Ok(());
    }
    append_staged(builder, staged, &octets[..len])
}

/// Stages the octets if there is room. Otherwise appends what is staged, and then the octets.
#[inline(always)]
pub(super) fn append_staged<B: OctetsBuilder>(
    builder: &mut B,
    staged: &mut Array<STAGE>,
    octets: &[u8],
) -> Result<(), AppendError>
    ensures text { OnOk result (B.content builder.new ++ staged.new.content
        ≡ (B.content builder.old ++ staged.old.content) ++ octets.now) }
    ensures front { StartsWith (B.content builder.old) (B.content builder.new) }
    ensures short { IsShort append_error result
        → ExceedsLimit B.limit (length ((B.content builder.old ++ staged.old.content) ++ octets.now)) }
    ensures memory { IsMemory append_error result → B.asks ≡ true }
    ensures borrows { B.borrows builder.new ≡ B.borrows builder.old }
{
    if append_short(staged, octets).is_ok() {
        return Ok(());
    }
    append_stage(builder, staged)?;
    builder.append_slice(octets)
}

/// Appends the staged octets.
pub(super) fn append_stage<B: OctetsBuilder>(
    builder: &mut B,
    staged: &mut Array<STAGE>,
) -> Result<(), AppendError>
    ensures text { OnOk result (B.content builder.new ≡ B.content builder.old ++ staged.old.content) }
    ensures empty { OnOk result (staged.new.content ≡ []) }
    ensures err { OnErr result (B.content builder.new ≡ B.content builder.old) }
    ensures within { OnOk result (IsWithin B.limit (length (B.content builder.new))) }
    ensures short { IsShort append_error result
        → ExceedsLimit B.limit (length (B.content builder.old ++ staged.old.content)) }
    ensures memory { IsMemory append_error result → B.asks ≡ true }
    ensures borrows { B.borrows builder.new ≡ B.borrows builder.old }
{
    builder.append_slice(staged.as_slice())?;
    staged.truncate(0);
    Ok(())
}
