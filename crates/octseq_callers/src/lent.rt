//! Octets that are built in someone else's slice. A type parameter gives the length of the slice.
ghost use Rattle.std.specs.Prelude.{◌≡◌, ◌+◌, ◌<◌, ◌≤◌, ◌++◌, ◌∷◌, length, drop, IfSome, IfNone};

use octseq::OctetsBuilder;
use octseq::builder::infallible;
use octseq::slice_builder::{Room, SliceBuilder};
use std::marker::Brand;

/// Writes a text and a line feed to the front of a slice. Returns how many octets these are, or `None` if they don't
/// fit.
pub fn put_line(out: &mut [u8], text: &[u8]) -> Option<usize>
    ensures some { IfSome result (λ n. n ≡ length text.now + 1) }
    ensures line { IfSome result (λ n. out.new ≡ text.now ++ 10 ∷ drop n out.old) }
    ensures none { IfNone result (length out.old ≤ length text.now) }
    ensures kept { IfNone result (out.new ≡ out.old) }
{
    if out.len() <= text.len() {
        return None;
    }
    put_line_in::<Brand>(out, text);
    Some(text.len() + 1)
}

/// Does the same if they fit. `K` gives the slice's length.
fn put_line_in<K: Room>(out: &mut [u8], text: &[u8])
    requires room { K.room ≡ length out.old }
    requires fits { length text.now < length out.old }
    ensures { out.new ≡ text.now ++ 10 ∷ drop (length text.now + 1) out.old }
{
    let mut builder = SliceBuilder::<K>::new(out);
    infallible(builder.append_slice(text));
    infallible(builder.append_slice(b"\n"));
}
