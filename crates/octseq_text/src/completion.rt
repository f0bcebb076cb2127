//! A character that octets end within, and the octets that come next.
ghost use Rattle.std.specs.Prelude.{◌≡◌, ◌+◌, ◌-◌, ◌≤◌, ◌++◌, length, take};
ghost use Rattle.octseq_text.specs.Progress.{Completes};
ghost use Rattle.octseq_utf8.specs.Parts.{IsBeginning};

use octseq_core::array::Array;
use octseq_core::builder::{OctetsBuilder, Truncate, infallible};
use octseq_utf8::{FirstPart, Turns, first_part};

/// What the octets of an incomplete character are with those of the piece after them.
#[derive(Drop)]
pub enum Completed {
    /// Still an incomplete character: all of them.
    Incomplete(Array<4>),
    /// The encoding of a character, which this many octets of the piece belong to.
    Character(Array<4>, usize),
    /// A maximal ill-formed subpart, which this many octets of the piece belong to.
    Invalid(usize),
}

/// Returns what the octets of an incomplete character are with those of the piece after them, and counts a turn.
pub fn complete(begun: &[u8], piece: &[u8], turns: &mut Turns) -> Completed
    requires { IsBeginning begun.now }
    ensures completed { Completes begun.now piece.now result }
    ensures turns { turns.new ≡ turns.old + 1 }
{
    let mut joined = join(begun, piece);
    match first_part(joined.as_slice(), turns) {
        FirstPart::Encoding(len) => {
            joined.truncate(len);
            Completed::Character(joined, len - begun.len())
        }
        FirstPart::Bad(Some(len)) => Completed::Invalid(len - begun.len()),
        FirstPart::Bad(None) => Completed::Incomplete(joined),
    }
}

/// Joins octets and those of the piece after them, up to four in all.
fn join(begun: &[u8], piece: &[u8]) -> Array<4>
    requires { length begun.now ≤ 4 }
    ensures { result.content ≡ begun.now ++ take (4 - length begun.now) piece.now }
{
    let taken = piece.len().min(4 - begun.len());
    let mut joined = Array::new();
    infallible(joined.append_slice(begun));
    infallible(joined.append_slice(&piece[..taken]));
    joined
}
