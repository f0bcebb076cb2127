//! Octets as text, each maximal ill-formed part as one U+FFFD.
ghost use Rattle.std.specs.Prelude.{◌≡◌, ◌≢◌, ◌↔◌, ◌<◌, ◌^◌, ◌-◌, ◌⊎◌, ℕ, List, length};
ghost use Rattle.octseq_c.specs.LossyText.{IsLossyText};
ghost use Rattle.octseq_c.specs.Puts.{Puts};
ghost use Rattle.octseq_c.specs.Status.{status_ok, status_no_room, status_too_long};

use crate::settled::{fill, measure, put_at, replacement};
use crate::status::{NO_ROOM, OK, TOO_LONG};

/// Writes the lossy text of octets to the front of `out`.
#[unsafe(no_mangle)]
pub extern "C" fn octseq_lossy(octets: &[u8], out: &mut [u8], written: &mut usize) -> u32
    ensures puts { Puts (IsLossyText octets.now) result out.old out.new written.new }
    ensures too_long { (result ≡ status_too_long)
        ↔ ((made : List ℕ) × IsLossyText octets.now made × (2 ^ 64 - 1 < length made)) }
    ensures only { (result ≡ status_ok) ⊎ (result ≡ status_no_room) ⊎ (result ≡ status_too_long) }
    ensures kept { result ≢ status_ok → out.new ≡ out.old }
{
    *written = 0;
    let Some(extent) = measure(octets, 0) else {
        return TOO_LONG;
    };
    let end = replacement(extent.end);
    let Some(len) = extent.text_len.checked_add(end.len()) else {
        return TOO_LONG;
    };
    *written = len;
    if len > out.len() {
        return NO_ROOM;
    }
    let at = fill(out, 0, octets);
    put_at(out, at, end);
    OK
}
