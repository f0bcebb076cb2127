//! Appending octets and names to a message, and overwriting its octets.
ghost use Rattle.std.specs.Prelude.{◌≡◌, ◌≤◌, ◌+◌, ◌*◌, ◌++◌, ◌⊎◌, ◌↔◌, length, take, drop, true, IsTrue, OnOk};
ghost use Rattle.octseq.specs.Appends.{Appends};
ghost use Rattle.octseq.specs.Limit.{IsWithin};
ghost use Rattle.octseq.specs.Refusal.{IsMemory, append_error};
ghost use Rattle.octseq_dns_compress.specs.Composed.{message_limit};
ghost use Rattle.octseq_dns_compress.specs.Fits.{NameFits};
ghost use Rattle.octseq_dns_compress.specs.Named.{AppendsName};
ghost use Rattle.octseq_dns_compress.specs.Sound.{MessageWithTargets};
ghost use Rattle.octseq_dns_name.specs.Read.{labels_of};

use crate::encode::append_encoded;
use crate::plain::{LABELS_FEW, LabelOffsets, starts_of};
use crate::remember::remember;
use crate::search::search;
use crate::table::Compressor;
use octseq::builder::AsOctetsMut;
use octseq::{AppendError, AsOctets, OctetsBuilder, ShortBuf, Truncate, Turns};
use octseq_dns_name::ParsedName;
use octseq_dns_name::name::a_name_has_labels;
use octseq_format::Format;
use std::alloc::AllocError;

/// The greatest length of a message: RFC 1035, 4.2.2.
const MESSAGE_MAX: usize = 65535;

/// Appends a slice to a message, within its limit.
#[inline(always)]
pub(crate) fn append<B: OctetsBuilder>(octets: &mut B, slice: &[u8]) -> Result<(), AppendError>
    requires { length (B.content octets.old) ≤ 65535 }
    ensures appended { Appends (message_limit B.limit) B.asks result slice.now
        (B.content octets.old) (B.content octets.new) }
    ensures most { length (B.content octets.new) ≤ 65535 }
    ensures within { OnOk result (IsWithin (message_limit B.limit) (length (B.content octets.new))) }
    ensures borrows { B.borrows octets.new ≡ B.borrows octets.old }
{
    if slice.len() > MESSAGE_MAX - octets.len() {
        return Err(AppendError::Short(ShortBuf));
    }
    octets.append_few(slice)
}

/// Whether a message stays within its limit with `len` more octets.
pub(crate) fn has_room<B: OctetsBuilder>(octets: &B, len: usize) -> bool
    requires { length (B.content octets.now) ≤ 65535 }
    ensures { IsTrue result ↔ IsWithin (message_limit B.limit) (length (B.content octets.now) + len) }
{
    let before = octets.len();
    if len > MESSAGE_MAX - before {
        return false;
    }
    match octets.max_len() {
        Some(limit) => before + len <= limit,
        None => true,
    }
}

/// Appends the octets of a value in a format to a message, within its limit.
pub(crate) fn append_value<B: OctetsBuilder + Truncate, R: AsOctets + Copy, F: Format<R>>(
    octets: &mut B,
    value: &F::Value,
) -> Result<(), AppendError>
    requires fits { F.fits (F.says (F.found value.now)) }
    requires short { length (B.content octets.old) ≤ 65535 }
    ensures appended { Appends (message_limit B.limit) B.asks result (F.octets (F.says (F.found value.now)))
        (B.content octets.old) (B.content octets.new) }
    ensures most { length (B.content octets.new) ≤ 65535 }
    ensures within { OnOk result (IsWithin (message_limit B.limit) (length (B.content octets.new))) }
    ensures borrows { B.borrows octets.new ≡ B.borrows octets.old }
{
    let Some(len) = F::compose_len(value) else {
        return Err(AppendError::Short(ShortBuf));
    };
    if !has_room(octets, len) {
        return Err(AppendError::Short(ShortBuf));
    }
    match F::put(octets, value) {
        Ok(()) => Ok(()),
        Err(AllocError) => Err(AppendError::Memory),
    }
}

/// Overwrites the octets from `at` on with a slice.
pub(crate) fn write_over<B: AsOctetsMut>(octets: &mut B, at: usize, slice: &[u8])
    requires { at + length slice.now ≤ length (B.content octets.old) }
    ensures content { B.content octets.new ≡ take at (B.content octets.old)
        ++ (slice.now ++ drop (at + length slice.now) (B.content octets.old)) }
    ensures borrows { B.borrows octets.new ≡ B.borrows octets.old }
{
    octets.as_mut()[at..at + slice.len()].copy_from_slice(slice);
}

/// Appends a name to a message, and keeps its labels in the table. An error leaves both unchanged.
pub(crate) fn append_name<B: OctetsBuilder + Truncate, T: Compressor, R: AsOctets + Copy>(
    octets: &mut B,
    table: &mut T,
    name: &ParsedName<R>,
    turns: &mut Turns,
) -> Result<(), AppendError>
    requires message { MessageWithTargets T.most (B.content octets.old) (T.held table.old) }
    ensures named { (old : MessageWithTargets T.most (B.content octets.old) (T.held table.old))
        → AppendsName (message_limit B.limit) result (labels_of name.now) old (B.content octets.new)
        (T.held table.new) }
    ensures fits { NameFits (labels_of name.now) }
    ensures memory { IsMemory append_error result → (B.asks ≡ true) ⊎ (T.asks ≡ true) }
    ensures borrows { B.borrows octets.new ≡ B.borrows octets.old }
    ensures on { turns.old ≤ turns.new }
    ensures turns { turns.new ≤ turns.old + 17 * length (labels_of name.now) }
    ensures least { OnOk result (turns.old + length (labels_of name.now) + length (B.content octets.old)
        ≤ turns.new + length (B.content octets.new)) }
{
    a_name_has_labels(name);
    let (mut few, mut many) = ([0; LABELS_FEW], None);
    let (starts, len) = starts_of(&mut few, &mut many, name);
    let parser = name.parser();
    let source = parser.octets_ref();
    let plain = LabelOffsets::new(source.as_ref(), starts, len, name);
    let ending = search(octets.as_ref(), table.as_slice(), &plain, turns);
    let start = octets.len();
    if let Err(error) = append_encoded(octets, &plain, ending) {
        return Err(error);
    }
    if let Err(AllocError) = remember(table, &plain, ending, start, turns) {
        octets.truncate(start);
        table.keep_before(start);
        return Err(AppendError::Memory);
    }
    Ok(())
}
