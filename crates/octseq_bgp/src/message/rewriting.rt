//! Messages that are written anew: RFC 4271, 4, and RFC 4760, 3 and 4.
ghost use Rattle.std.specs.Prelude.{◌≡◌, ◌↔◌, ℕ, List, length, true, IsTrue, IfOk};
ghost use Rattle.octseq.specs.Limit.{ExceedsLimit};
ghost use Rattle.octseq.specs.Refusal.{IsMalformed, IsShort, IsMemory, append_error, write_error};
ghost use Rattle.octseq_format.specs.Canonical.{AreOctets};
ghost use Rattle.octseq_bgp.specs.Message as said;
ghost use Rattle.octseq_bgp.specs.Message.{IsMessage};
ghost use Rattle.octseq_bgp.specs.Parsed.{message_of};
ghost use Rattle.octseq_bgp.specs.Rewritten.{IsMessageRewritten, IsRewritten};

mod attributes;
mod open;
mod prefixes;
mod update;

use self::open::rewrite_open;
use self::update::rewrite_update;
use crate::message::Message;
use crate::message::written::begin;
use crate::session::SessionConfig;
use octseq::{AppendError, AsOctets, OctetsBuilder, Truncate, WriteError};
use octseq_format::laws::are_octets;

/// Whether so many octets are more than the limit of a builder.
fn is_past<B: OctetsBuilder>(octets: &B, len: usize) -> bool
    ensures { IsTrue result ↔ ExceedsLimit B.limit len }
{
    match octets.max_len() {
        Some(limit) => len > limit,
        None => false,
    }
}

/// Writes a message that was read from these octets anew, in place of what the builder holds.
fn rewrite_message<R: AsOctets + Copy, B: OctetsBuilder + Truncate>(
    octets: &[u8],
    session: &SessionConfig,
    message: &Message<R>,
    builder: B,
) -> Result<B, AppendError>
    requires { IsMessage session.now octets.now (message_of message.now) }
    ensures rewritten { IfOk result (λ b. IsMessageRewritten octets.now (message_of message.now) (B.content b)) }
    ensures short { IsShort append_error result
        ↔ ((out : List ℕ) × IsMessageRewritten octets.now (message_of message.now) out
        × ExceedsLimit B.limit (length out)) }
    ensures memory { IsMemory append_error result → B.asks ≡ true }
    ensures borrows { IfOk result (λ b. B.borrows b ≡ B.borrows builder) }
{
    are_octets(octets);
    match message {
        Message::Open(it) => rewrite_open(it, builder),
        Message::Update(it) => rewrite_update(it, builder),
        Message::Notification(_) => begin(builder, octets),
        Message::Keepalive => begin(builder, octets),
        Message::RouteRefresh(_) => begin(builder, octets),
    }
}

/// Writes a message of the session anew, in place of what the builder holds. All that has a meaning stays as it was, in
/// its order.
///
/// Of an UPDATE, bits after a prefix, the reserved octet of an MP_REACH_NLRI and the four lower flags of a path
/// attribute are written as 0. The length of a path attribute has two octets, and its flag 0x10 is set, exactly if it
/// has more than 255.
///
/// Of an OPEN, the reserved octet of a multiprotocol capability, the reserved bits of a graceful restart and all but
/// the first of the flags of its families are written as 0. Its parameters have the long form exactly if they have more
/// than 255 octets in the short one, or the first of them is of type 255. The octet without meaning is then 255.
///
/// Each other octet stays.
///
/// # Errors
///
/// `Malformed` exactly if the octets aren't a message of the session. Otherwise `Short` exactly if the message exceeds
/// the limit of the builder's type, and `Memory` if a request for memory was refused.
pub fn rewrite<R: AsOctets + Copy, B: OctetsBuilder + Truncate>(
    octets: R,
    session: SessionConfig,
    builder: B,
) -> Result<B, WriteError>
    ensures rewritten { IfOk result (λ b. IsRewritten session (R.content octets) (B.content b)) }
    ensures malformed { IsMalformed write_error result
        ↔ ((m : said.Message) → ¬ IsMessage session (R.content octets) m) }
    ensures short { IsShort write_error result
        ↔ ((out : List ℕ) × IsRewritten session (R.content octets) out × ExceedsLimit B.limit (length out)) }
    ensures memory { IsMemory write_error result → B.asks ≡ true }
    ensures borrows { IfOk result (λ b. B.borrows b ≡ B.borrows builder) }
{
    let Ok(message) = Message::parse(octets, session) else {
        return Err(WriteError::Malformed);
    };
    match rewrite_message(octets.as_ref(), &session, &message, builder) {
        Ok(rewritten) => Ok(rewritten),
        Err(AppendError::Short(_)) => Err(WriteError::Short),
        Err(AppendError::Memory) => Err(WriteError::Memory),
    }
}
