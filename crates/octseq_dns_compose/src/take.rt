//! Words taken from the front of a text.
ghost use Rattle.std.specs.Prelude.{◌≡◌, ◌+◌, length};
ghost use Rattle.octseq_dns_scan.specs.Words.{ahead_of, offset_of};
ghost use Rattle.octseq_dns_compose.specs.Take.{IsTaken, IsUpTo, TakesNextWord};

use octseq_dns_scan::{Words, scan_number};

/// Takes the given word, if it comes next, and returns whether it did.
pub(crate) fn take_word(words: &mut Words, wanted: &[u8]) -> bool
    ensures taken { IsTaken wanted.now result (ahead_of words.old) (ahead_of words.new) }
    ensures end { offset_of words.new + length (ahead_of words.new)
        ≡ offset_of words.old + length (ahead_of words.old) }
{
    let mut ahead = *words;
    if let Some(word) = ahead.next_word() {
        if word.octets == wanted {
            *words = ahead;
            return true;
        }
    }
    false
}

/// Takes a number of at most `max`.
pub(crate) fn take_number(words: &mut Words, max: u32) -> Option<u32>
    ensures taken { TakesNextWord (IsUpTo max) result (ahead_of words.old) (ahead_of words.new) }
    ensures end { offset_of words.new + length (ahead_of words.new)
        ≡ offset_of words.old + length (ahead_of words.old) }
{
    let mut ahead = *words;
    let Some(word) = ahead.next_word() else {
        return None;
    };
    let Some(number) = scan_number(word.octets, max) else {
        return None;
    };
    *words = ahead;
    Some(number)
}
