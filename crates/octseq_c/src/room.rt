//! Writing to a caller's buffer.
ghost use Rattle.std.specs.Prelude.{◌≡◌, ◌≢◌, ◌≤◌, ◌<◌, ◌++◌, List, length, drop};
ghost use Rattle.octseq_c.specs.Puts.{FillsPrefix, Puts};
ghost use Rattle.octseq_c.specs.Status.{status_ok, status_no_room};

use crate::status::{NO_ROOM, OK};

/// Copies items to the front of a buffer, or nothing if they don't fit.
pub fn put<T: Copy>(items: &[T], out: &mut [T], count: &mut usize) -> u32
    ensures count { count.new ≡ length items.now }
    ensures ok { result ≡ status_ok → (length items.now ≤ length out.old) × FillsPrefix items.now out.old out.new }
    ensures no_room { result ≢ status_ok → (result ≡ status_no_room) × (length out.old < length items.now)
        × (out.new ≡ out.old) }
{
    *count = items.len();
    if items.len() > out.len() {
        return NO_ROOM;
    }
    out[..items.len()].copy_from_slice(items);
    OK
}
