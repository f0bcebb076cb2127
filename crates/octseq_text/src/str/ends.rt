//! Where characters end: the last one of a text, and the places between two.
ghost use Rattle.std.specs.Prelude.{◌≡◌, ◌≢◌, ◌+◌, ◌<◌, ◌≤◌, ◌↔◌, [], length, IsTrue, IfSome, IfNone};
ghost use Rattle.octseq_utf8.specs.Encoding.{encoding_of};
ghost use Rattle.octseq_utf8.specs.Text.{IsWellFormed, IsBoundary, EndsWithCharacter};

use crate::utf8::Turns;
use octseq_utf8::is_continuation;

/// The last character of well-formed octets, and the number of its octets.
///
/// Reads from the end to where the character begins, one turn for each octet.
pub(super) fn last_encoding(octets: &[u8], turns: &mut Turns) -> Option<(char, usize)>
    requires { IsWellFormed octets.now }
    ensures some { IfSome result (λ last. EndsWithCharacter octets.now last.0) }
    ensures width { IfSome result (λ last. last.1 ≡ length (encoding_of last.0)) }
    ensures none { IfNone result (octets.now ≡ []) }
    ensures read { octets.now ≢ [] → turns.old < turns.new }
    ensures kept { turns.old ≤ turns.new }
    ensures turns { turns.new ≤ turns.old + 4 }
    ensures exact { IfSome result (λ last. turns.new ≡ turns.old + last.1) }
    ensures nothing { IfNone result (turns.new ≡ turns.old) }
{
    let len = octets.len();
    if len == 0 {
        return None;
    }
    turns.tick();
    let fourth = u32::from(octets[len - 1]);
    if fourth < 0x80 {
        return Some((unsafe { char::from_u32_unchecked(fourth) }, 1));
    }
    turns.tick();
    let third = u32::from(octets[len - 2]);
    if third >= 0xC0 {
        let number = (third - 0xC0) * 64 + (fourth - 0x80);
        return Some((unsafe { char::from_u32_unchecked(number) }, 2));
    }
    turns.tick();
    let second = u32::from(octets[len - 3]);
    if second >= 0xE0 {
        let number = (second - 0xE0) * 4096 + (third - 0x80) * 64 + (fourth - 0x80);
        return Some((unsafe { char::from_u32_unchecked(number) }, 3));
    }
    turns.tick();
    let first = u32::from(octets[len - 4]);
    let number = (first - 0xF0) * 262144
        + (second - 0x80) * 4096
        + (third - 0x80) * 64
        + (fourth - 0x80);
    Some((unsafe { char::from_u32_unchecked(number) }, 4))
}

/// The last character of well-formed octets, or `None` if there are no octets.
///
/// Reads from the end to where the character begins, one turn for each octet. Requests no memory.
pub fn last_char(octets: &[u8], turns: &mut Turns) -> Option<char>
    requires { IsWellFormed octets.now }
    ensures some { IfSome result (EndsWithCharacter octets.now) }
    ensures none { IfNone result (octets.now ≡ []) }
    ensures read { octets.now ≢ [] → turns.old < turns.new }
    ensures kept { turns.old ≤ turns.new }
    ensures turns { turns.new ≤ turns.old + 4 }

    // As many turns as the character has octets, and none if there is no character.
    ensures exact { IfSome result (λ c. turns.new ≡ turns.old + length (encoding_of c)) }
    ensures nothing { IfNone result (turns.new ≡ turns.old) }
{
    let (last, _) = last_encoding(octets, turns)?;
    Some(last)
}

/// Whether the first `place` of well-formed octets are whole characters. Never past the length.
///
/// Reads the octet at the place, in one turn. Requests no memory.
pub fn boundary(octets: &[u8], place: usize, turns: &mut Turns) -> bool
    requires { IsWellFormed octets.now }
    ensures between { IsTrue result ↔ IsBoundary octets.now place }
    ensures read { place < length octets.now → turns.old < turns.new }
    ensures kept { turns.old ≤ turns.new }
    ensures turns { turns.new ≤ turns.old + 1 }

    // At the length or past it there is no octet to read.
    ensures nothing { length octets.now ≤ place → turns.new ≡ turns.old }
{
    match octets.get(place) {
        Some(&octet) => {
            turns.tick();
            !is_continuation(octet)
        }
        None => place == octets.len(),
    }
}
