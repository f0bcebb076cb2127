//! A text as a `str`, and an array as a slice.
ghost use Rattle.std.specs.Prelude.{◌≡◌, ◌≤◌, ◌↔◌, ◌++◌, List, ℕ, codes, length, slice_index, IsTrue, IsSome, IfSome};

use octseq::{Array, AsOctets, Str};

/// Whether the text begins with a number sign.
pub fn is_comment<O: AsOctets>(text: &Str<O>) -> bool
    ensures { IsTrue result ↔ (rest : List ℕ) × (O.content text.now ≡ codes "#" ++ rest) }
{
    text.starts_with("#")
}

/// Returns the fourth octet, or `None` if the array has fewer.
pub fn fourth(array: &Array<8>) -> Option<u8>
    ensures variant { IsSome result ↔ (4 ≤ length array.now.content) }
    ensures some { IfSome result (λ octet. octet ≡ slice_index array.now.content 3) }
{
    if array.len() < 4 {
        return None;
    }
    Some(array[3])
}
