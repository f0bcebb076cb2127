//! The octets of messages that are written.
ghost use Rattle.std.specs.Prelude.{◌≡◌, ◌≤◌, ◌↔◌, length, true, IfOk};
ghost use Rattle.octseq.specs.Limit.{ExceedsLimit};
ghost use Rattle.octseq.specs.Refusal.{IsShort, IsMemory, append_error};
ghost use Rattle.octseq_bgp.specs.WrittenMessage.{max_length};

use crate::session::SessionConfig;
use octseq::{AppendError, OctetsBuilder, Truncate};

/// The maximum length of a message: RFC 4271, 4.1.
pub(super) const MESSAGE_MAX: usize = 4096;

/// The maximum length of an extended message: RFC 8654, 4.
const EXTENDED_MAX: usize = 65535;

/// Returns the maximum length of a message of a session that may be extended.
pub(super) fn longest(session: &SessionConfig) -> usize
    ensures is { result ≡ max_length session.now.extended_message }
    ensures least { 4096 ≤ result }
    ensures most { result ≤ 65535 }
{
    if session.extended_message {
        EXTENDED_MAX
    } else {
        MESSAGE_MAX
    }
}

/// Begins a message, in place of what the builder holds.
pub(super) fn begin<B: OctetsBuilder + Truncate>(octets: B, front: &[u8]) -> Result<B, AppendError>
    ensures ok { IfOk result (λ b. B.content b ≡ front.now) }
    ensures short { IsShort append_error result ↔ ExceedsLimit B.limit (length front.now) }
    ensures memory { IsMemory append_error result → B.asks ≡ true }
    ensures borrows { IfOk result (λ b. B.borrows b ≡ B.borrows octets) }
{
    let mut octets = octets;
    octets.truncate(0);
    if let Err(error) = octets.append_few(front) {
        return Err(error);
    }
    Ok(octets)
}
