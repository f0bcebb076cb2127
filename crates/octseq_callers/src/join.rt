//! Words joined in a text.
ghost use Rattle.std.specs.Prelude.{◌≡◌, ◌≢◌, ◌++◌, true, length, map, [], List, ℕ, IsErr, OnOk, OnErr};
ghost use Rattle.octseq.specs.Limit.{ExceedsLimit};
ghost use Rattle.octseq.specs.Refusal.{IsShort, IsMemory, append_error};
ghost use Rattle.octseq_callers.specs.Joined.{joined};

use octseq::StrBuilder;
use octseq::builder::{AppendError, OctetsBuilder};

/// Appends the words, with the separator between them.
///
/// # Errors
///
/// `Short` if the text with all of them would exceed the limit of its type, or `Memory` if a request for memory was
/// refused. If both apply, it may be either. The text then ends with a prefix of what was to be appended.
pub fn join<B: OctetsBuilder>(
    text: &mut StrBuilder<B>,
    words: &[&str],
    separator: &str,
) -> Result<(), AppendError>
    ensures ok { OnOk result (B.content text.new
        ≡ B.content text.old ++ joined separator.now (map (λ word. word.now) words.now)) }
    ensures short { IsShort append_error result → ExceedsLimit B.limit (length (B.content text.old
        ++ joined separator.now (map (λ word. word.now) words.now))) }
    ensures past { words.now ≢ [] → ExceedsLimit B.limit (length (B.content text.old
        ++ joined separator.now (map (λ word. word.now) words.now))) → IsErr result }
    ensures memory { IsMemory append_error result → B.asks ≡ true }
    ensures borrows { B.borrows text.new ≡ B.borrows text.old }
    ensures front { OnErr result ((cut : List ℕ) × (B.content text.new ++ cut
        ≡ B.content text.old ++ joined separator.now (map (λ word. word.now) words.now))) }
{
    let Some((first, others)) = words.split_first() else {
        return Ok(());
    };
    text.try_push_str(first)?;
    for word in others {
        text.try_push_str(separator)?;
        text.try_push_str(word)?;
    }
    Ok(())
}
