//! The text of what is settled in octets, whatever follows them: its length, and how it is written.
ghost use Rattle.std.specs.Prelude.{◌≡◌, ◌+◌, ◌≤◌, ◌++◌, ℕ, List, length, take, drop, IfSome, IfNone};
ghost use Rattle.octseq.specs.Parts.{Part, text};
ghost use Rattle.octseq.specs.Pieces.{Settles};
ghost use Rattle.octseq_c.specs.LossyText.{end_text};
ghost use Rattle.octseq_c.specs.Settled.{HasRoomForText, IsMeasured, IsPastSize};

use octseq::utf8::chunks;

/// U+FFFD, the text of each maximal ill-formed part.
pub const REPLACEMENT: &[u8] = b"\xEF\xBF\xBD";

/// The length of the text of what is settled, and the open end.
#[derive(Clone, Copy)]
pub struct Extent<'a> {
    /// The length of the text.
    pub text_len: usize,
    /// The octets at the end that begin an incomplete character.
    pub end: &'a [u8],
}

/// Measures the text of what is settled, after `before` octets of text. Returns `None` if a `usize` can't hold the
/// length.
pub fn measure(octets: &[u8], before: usize) -> Option<Extent<'_>>
    ensures measured { IfSome result (λ extent. IsMeasured octets.now before extent.text_len extent.end.now) }
    ensures past { IfNone result (IsPastSize octets.now before) }
{
    let mut text_len = before;
    for chunk in chunks(octets) {
        text_len = text_len.checked_add(chunk.valid().len())?;
        if chunk.is_incomplete() {
            let end = chunk.invalid();
            return Some(Extent { text_len, end });
        }
        text_len = text_len.checked_add(replacement(chunk.invalid()).len())?;
    }
    Some(Extent {
        text_len,
        end: &octets[..0],
    })
}

/// Writes the text of what is settled, from index `before` on. Returns the index after it.
pub fn fill(out: &mut [u8], before: usize, octets: &[u8]) -> usize
    requires { HasRoomForText octets.now before (length out.old) }
    ensures { (settled : List Part) (end : List ℕ) → Settles octets.now settled end
        → (result ≡ before + length (text settled))
        × (out.new ≡ (take before out.old ++ text settled) ++ drop result out.old) }
{
    let mut at = before;
    for chunk in chunks(octets) {
        at = put_at(out, at, chunk.valid().as_bytes());
        if chunk.is_incomplete() {
            return at;
        }
        at = put_at(out, at, replacement(chunk.invalid()));
    }
    at
}

/// Copies octets to an index. Returns the index after them.
pub fn put_at(out: &mut [u8], at: usize, octets: &[u8]) -> usize
    requires { at + length octets.now ≤ length out.old }
    ensures end { result ≡ at + length octets.now }
    ensures octets { out.new ≡ (take at out.old ++ octets.now) ++ drop (at + length octets.now) out.old }
{
    let end = at + octets.len();
    out[at..end].copy_from_slice(octets);
    end
}

/// Returns the text of an open end that nothing follows.
pub fn replacement(end: &[u8]) -> &'static [u8]
    ensures { result.now ≡ end_text end.now }
{
    if end.is_empty() { b"" } else { REPLACEMENT }
}
