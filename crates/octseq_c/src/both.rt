//! Writing two pieces, one after the other, to a caller's buffer.
ghost use Rattle.std.specs.Prelude.{◌+◌, ◌<◌, ◌^◌, ◌++◌, length};
ghost use Rattle.octseq_c.specs.Puts.{Copies};

use crate::settled::put_at;
use crate::status::{NO_ROOM, OK};

/// Copies octets to the front of a buffer, followed by other octets, or nothing if both don't fit.
pub fn put_both(first: &[u8], second: &[u8], out: &mut [u8], count: &mut usize) -> u32
    requires { length first.now + length second.now < 2 ^ 64 }
    ensures { Copies (first.now ++ second.now) result out.old out.new count.new }
{
    *count = first.len() + second.len();
    if *count > out.len() {
        return NO_ROOM;
    }
    let middle = put_at(out, 0, first);
    let _end = put_at(out, middle, second);
    OK
}
