//! The lines of a text.
ghost use Rattle.std.specs.Prelude.{◌≡◌, ◌+◌, ◌≤◌, ◌<◌, ◌∷◌, ◌++◌, ℕ, List, [], take, length, IfSome, IsNone};
ghost use Rattle.std.specs.Prelude.{slice_index};
ghost use Rattle.octseq_dns_scan.specs.Word.{TakesWord};
ghost use Rattle.octseq_dns_scan.specs.Words.{ahead_of, offset_of};
ghost use Rattle.octseq_dns_compose.specs.TextLines.{EndsLine, IsLine, SplitsLines};

use octseq_dns_scan::Words;

/// Splits a text after the octets of its first line.
pub(crate) fn split_line(text: &[u8]) -> (&[u8], &[u8])
    ensures { SplitsLines text.now result.0.now result.1.now }
{
    let len = line_len(text);
    (&text[..len], &text[len..])
}

/// Returns the number of octets before the first line feed.
fn line_len(text: &[u8]) -> usize
    ensures within { result ≤ length text.now }
    ensures line { IsLine (take result text.now) }
    ensures feed { result < length text.now → slice_index text.now result ≡ 10 }
{
    let mut len = 0;
    'octets: while len < text.len() {
        if text[len] == b'\n' {
            return len;
        }
        len += 1;
    }
    len
}

/// Returns the words of a line after the first one, if that is `first`.
pub(crate) fn words_after<'a>(line: &'a [u8], first: &[u8]) -> Option<Words<'a>>
    ensures some { IfSome result (λ words. TakesWord first.now line.now (ahead_of words)
        × (offset_of words + length (ahead_of words) ≡ length line.now)) }
    ensures none { IsNone result → (rest : List ℕ) → ¬ TakesWord first.now line.now rest }
{
    let mut words = Words::new(line);
    let Some(word) = words.next_word() else {
        return None;
    };
    if word.octets == first {
        return Some(words);
    }
    None
}

/// Returns what follows the line feed at the front of a text.
pub(crate) fn after_feed(text: &[u8]) -> Option<&[u8]>
    requires { EndsLine text.now }
    ensures some { IfSome result (λ rest. text.now ≡ 10 ∷ rest.now) }
    ensures none { IsNone result → text.now ≡ [] }
{
    let Some((_, rest)) = text.split_first() else {
        return None;
    };
    Some(rest)
}
