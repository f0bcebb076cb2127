//! Slices of values, written one after another.
ghost use Rattle.std.specs.Prelude.{◌≡◌, ◌↔◌, ◌+◌, ◌++◌, length, map, true, IsErr, IsNone, IsSome, IfSome, OnOk, OnErr};
ghost use Rattle.std.specs.List.{AllByRecursion};
ghost use Rattle.octseq.specs.Limit.{ExceedsLimit, IsWithin};
ghost use Rattle.octseq.specs.Parts.{StartsWith};
ghost use Rattle.octseq.specs.Refusal.{IsShort, IsMemory, IsMalformed, write_error};
ghost use Rattle.octseq_format.specs.Laws.{HasOctets};
ghost use Rattle.octseq_format.specs.Row.{row_octets};

use crate::format::{Format, has_room, put_at_once};
use octseq::{AsOctets, OctetsBuilder, Truncate, WriteError};
use std::alloc::AllocError;

/// Returns the number of octets of all the items.
fn values_len<R: AsOctets + Copy, F: Format<R>>(values: &[F::Value]) -> Option<usize>
    ensures some { IfSome result (λ len.
        len ≡ length (row_octets F.octets (map (λ v. F.says (F.found v)) values.now))) }
    ensures fit { IsSome result → AllByRecursion F.fits (map (λ v. F.says (F.found v)) values.now) }
    ensures none { IsNone result → ¬ HasOctets (row_octets F.octets) (AllByRecursion F.fits)
        (map (λ v. F.says (F.found v)) values.now) }
{
    let mut len = 0_usize;
    let mut left = values;
    'values: while let Some((value, others)) = left.split_first() {
        len = len.checked_add(F::compose_len(value)?)?;
        left = others;
    }
    Some(len)
}

/// Appends the octets of each item. On an error it may have appended those of some.
fn put_values<B: OctetsBuilder + Truncate, R: AsOctets + Copy, F: Format<R>>(
    builder: &mut B,
    values: &[F::Value],
) -> Result<(), AllocError>
    requires fit { HasOctets (row_octets F.octets) (AllByRecursion F.fits) (map (λ v. F.says (F.found v)) values.now) }
    requires within { IsWithin B.limit (length (B.content builder.now)
        + length (row_octets F.octets (map (λ v. F.says (F.found v)) values.now))) }
    ensures ok { OnOk result (B.content builder.new
        ≡ B.content builder.old ++ row_octets F.octets (map (λ v. F.says (F.found v)) values.now)) }
    ensures front { OnErr result (StartsWith (B.content builder.old) (B.content builder.new)) }
    ensures memory { IsErr result → B.asks ≡ true }
    ensures borrows { B.borrows builder.new ≡ B.borrows builder.old }
{
    let mut left = values;
    'values: while let Some((value, others)) = left.split_first() {
        put_at_once::<B, R, F>(builder, value)?;
        left = others;
    }
    Ok(())
}

/// Appends the octets of values, one after another. On an error it appends nothing.
///
/// # Errors
///
/// `Malformed` if no octets say one of the values. Otherwise `Short` if the content would exceed the limit of its type.
/// Otherwise `Memory` if a request for memory was refused. The content is then unchanged.
pub fn append_all<R: AsOctets + Copy, F: Format<R>, B: OctetsBuilder + Truncate>(
    builder: &mut B,
    values: &[F::Value],
) -> Result<(), WriteError>
    ensures ok { OnOk result (B.content builder.new
        ≡ B.content builder.old ++ row_octets F.octets (map (λ v. F.says (F.found v)) values.now)) }
    ensures err { OnErr result (B.content builder.new ≡ B.content builder.old) }
    ensures malformed { IsMalformed write_error result ↔ ¬ HasOctets (row_octets F.octets) (AllByRecursion F.fits)
        (map (λ v. F.says (F.found v)) values.now) }
    ensures short { IsShort write_error result ↔ HasOctets (row_octets F.octets) (AllByRecursion F.fits)
        (map (λ v. F.says (F.found v)) values.now)
        × ExceedsLimit B.limit (length (B.content builder.old)
        + length (row_octets F.octets (map (λ v. F.says (F.found v)) values.now))) }
    ensures memory { IsMemory write_error result → B.asks ≡ true }
    ensures borrows { B.borrows builder.new ≡ B.borrows builder.old }
{
    let Some(len) = values_len::<R, F>(values) else {
        return Err(WriteError::Malformed);
    };
    let before = builder.len();
    if !has_room(builder.max_len(), before, len) {
        return Err(WriteError::Short);
    }
    if put_values::<B, R, F>(builder, values).is_err() {
        builder.truncate(before);
        return Err(WriteError::Memory);
    }
    Ok(())
}
