//! UPDATEs that are written anew: RFC 4271, 4.3.
ghost use Rattle.std.specs.Prelude.{◌≡◌, ◌≤◌, ◌+◌, ◌++◌, ◌↔◌, ℕ, List, length, true, IsErr, IfOk, OnOk};
ghost use Rattle.octseq.specs.Limit.{ExceedsLimit, IsWithin};
ghost use Rattle.octseq.specs.Part.{part_of};
ghost use Rattle.octseq.specs.Refusal.{IsShort, IsMemory, append_error};
ghost use Rattle.octseq.specs.Window.{Window, left};
ghost use Rattle.octseq_format.specs.Canonical.{IsSoundWindow};
ghost use Rattle.octseq_bgp.specs.Composed.{header_octets};
ghost use Rattle.octseq_bgp.specs.Lists.{attributes_left, attributes_session, prefixes_left};
ghost use Rattle.octseq_bgp.specs.Parsed.{update_of};
ghost use Rattle.octseq_bgp.specs.Puts.{AppendsSomeUnlimited};
ghost use Rattle.octseq_bgp.specs.Rewritten.{AreAttributesAnew, AreFew, AreSound, IsReady, IsUpdateRewritten};
ghost use Rattle.octseq_bgp.specs.Rewritten.{attributes_size, prefixes_anew, update_size};
ghost use Rattle.octseq_bgp.specs.Update.{IsUpdate};
ghost use Rattle.octseq_bgp.specs.Written.{WrittenAttribute, attributes_octets, prefixes_octets};
ghost use Rattle.octseq_bgp.specs.declared.session.SessionConfig.{SessionConfig as Session};

use super::attributes::{attributes_len, put_attributes, read_values};
use super::is_past;
use super::prefixes::{prefixes_len, put_prefixes};
use crate::compose::header_of;
use crate::message::update::UpdateMessage;
use crate::prefix::Prefixes;
use crate::put::{put_slice, put_u16};
use octseq::{AppendError, AsOctets, OctetsBuilder, ShortBuf, Truncate};
use std::alloc::AllocError;

/// How many octets an UPDATE has.
#[derive(Clone, Copy, Debug)]
struct Sizes {
    /// Those of its withdrawn routes.
    withdrawn: usize,
    /// Those of its attributes.
    attributes: usize,
    /// All of them.
    total: usize,
}

/// Returns how many octets an UPDATE has.
fn sizes_of<R: AsOctets + Copy>(update: &UpdateMessage<R>) -> Sizes
    requires { update_size (update_of update.now) ≤ 65535 }
    ensures withdrawn { result.withdrawn
        ≡ length (prefixes_octets (prefixes_anew (prefixes_left update.now.withdrawn))) }
    ensures attributes { result.attributes ≡ attributes_size (attributes_left update.now.path_attributes) }
    ensures total { result.total ≡ update_size (update_of update.now) }
{
    let withdrawn = prefixes_len(update.withdrawn);
    let attributes = attributes_len(update.path_attributes);
    let announced = prefixes_len(update.announced);
    let total = 23 + withdrawn + attributes + announced;
    Sizes {
        withdrawn,
        attributes,
        total,
    }
}

/// Appends the header of an UPDATE of `total` octets, and its withdrawn routes after their length.
fn put_withdrawn<R: AsOctets + Copy, B: OctetsBuilder>(
    builder: &mut B,
    total: usize,
    len: usize,
    withdrawn: Prefixes<R>,
) -> Result<(), AllocError>
    requires total { total ≤ 65535 }
    requires len { len ≡ length (prefixes_octets (prefixes_anew (prefixes_left withdrawn))) }
    requires most { len ≤ 65535 }
    requires few { AreFew (prefixes_left withdrawn) }
    requires within { IsWithin B.limit (length (B.content builder.old) + length (header_octets total 2
        ++ part_of 2 (prefixes_octets (prefixes_anew (prefixes_left withdrawn))))) }
    ensures puts { AppendsSomeUnlimited B.asks result (header_octets total 2
        ++ part_of 2 (prefixes_octets (prefixes_anew (prefixes_left withdrawn))))
        (B.content builder.old) (B.content builder.new) }
    ensures borrows { B.borrows builder.new ≡ B.borrows builder.old }
{
    put_slice(builder, &header_of(total as u16, 2))?;
    put_u16(builder, len as u16)?;
    put_prefixes(builder, withdrawn)
}

/// Appends the attributes of an UPDATE after their length, and its announced routes.
fn put_others<R: AsOctets + Copy, B: OctetsBuilder>(
    builder: &mut B,
    update: &UpdateMessage<R>,
    sizes: &Sizes,
) -> Result<(), AllocError>
    requires attributes { sizes.now.attributes ≡ attributes_size (attributes_left update.now.path_attributes) }
    requires most { sizes.now.attributes ≤ 65535 }
    requires sound { AreSound (attributes_left update.now.path_attributes) }
    requires few { AreFew (prefixes_left update.now.announced) }
    requires within { IsWithin B.limit (length (B.content builder.old) + (2
        + attributes_size (attributes_left update.now.path_attributes)
        + length (prefixes_octets (prefixes_anew (prefixes_left update.now.announced))))) }
    ensures ok { OnOk result ((row : List WrittenAttribute)
        × AreAttributesAnew (attributes_session update.now.path_attributes)
        (attributes_left update.now.path_attributes) row
        × (B.content builder.new ≡ B.content builder.old ++ (part_of 2 (attributes_octets row)
        ++ prefixes_octets (prefixes_anew (prefixes_left update.now.announced))))) }
    ensures memory { IsErr result → B.asks ≡ true }
    ensures borrows { B.borrows builder.new ≡ B.borrows builder.old }
{
    put_u16(builder, sizes.attributes as u16)?;
    put_attributes(builder, update.path_attributes)?;
    put_prefixes(builder, update.announced)
}

/// Appends an UPDATE of these sizes.
fn put_update<R: AsOctets + Copy, B: OctetsBuilder>(
    builder: &mut B,
    update: &UpdateMessage<R>,
    sizes: &Sizes,
) -> Result<(), AllocError>
    requires ready { IsReady (update_of update.now) }
    requires withdrawn { sizes.now.withdrawn
        ≡ length (prefixes_octets (prefixes_anew (prefixes_left update.now.withdrawn))) }
    requires attributes { sizes.now.attributes ≡ attributes_size (attributes_left update.now.path_attributes) }
    requires total { sizes.now.total ≡ update_size (update_of update.now) }
    requires within { IsWithin B.limit (length (B.content builder.old) + update_size (update_of update.now)) }
    ensures ok { OnOk result ((out : List ℕ) × IsUpdateRewritten (update_of update.now) out
        × (B.content builder.new ≡ B.content builder.old ++ out)) }
    ensures memory { IsErr result → B.asks ≡ true }
    ensures borrows { B.borrows builder.new ≡ B.borrows builder.old }
{
    put_withdrawn(builder, sizes.total, sizes.withdrawn, update.withdrawn)?;
    put_others(builder, update, sizes)
}

/// Writes an UPDATE anew, in place of what the builder holds. The UPDATE was read from a message.
///
/// # Errors
///
/// `Short` exactly if it exceeds the limit of the builder's type, and `Memory` if a request for memory was refused.
pub(super) fn rewrite_update<R: AsOctets + Copy, B: OctetsBuilder + Truncate>(
    update: &UpdateMessage<R>,
    builder: B,
) -> Result<B, AppendError>
    requires { (s : Session) × (w : Window) × IsUpdate s w (update_of update.now) × IsSoundWindow w × (left w ≤ 65516) }
    ensures rewritten { IfOk result (λ b. IsUpdateRewritten (update_of update.now) (B.content b)) }
    ensures short { IsShort append_error result
        ↔ ((out : List ℕ) × IsUpdateRewritten (update_of update.now) out × ExceedsLimit B.limit (length out)) }
    ensures memory { IsMemory append_error result → B.asks ≡ true }
    ensures borrows { IfOk result (λ b. B.borrows b ≡ B.borrows builder) }
{
    let sizes = sizes_of(update);
    let mut octets = builder;
    octets.truncate(0);
    if is_past(&octets, sizes.total) {
        read_values(update.path_attributes);
        return Err(AppendError::Short(ShortBuf));
    }
    match put_update(&mut octets, update, &sizes) {
        Ok(()) => Ok(octets),
        Err(AllocError) => Err(AppendError::Memory),
    }
}
