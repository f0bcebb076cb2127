//! Lines written at the end of a text.
ghost use Rattle.std.specs.Prelude.{◌≡◌, ◌≢◌, ◌+◌, ◌++◌, ℕ, List, None, true, length, IsErr, OnOk, OnErr};
ghost use Rattle.std.specs.Fmt.{HasWritten, IsPlainFormatter};
ghost use Rattle.octseq_core.specs.Limit.{ExceedsLimit};
ghost use Rattle.octseq_core.specs.Refusal.{IsShort, IsMemory};
ghost use Rattle.octseq_text.specs.Display.{display_error};
ghost use Rattle.octseq_text.specs.OneText.{OneAtMost};

use super::appending::{Appended, Appending, Begun, end, reason};
use super::builder::StrBuilder;
use super::counter::Counter;
use super::display::DisplayError;
use octseq_core::builder::{AsOctets, OctetsBuilder, Truncate};
use std::fmt;
use std::marker::{Brand, PhantomData};

/// A value whose text is lines, each ended by a line feed.
pub trait WriteLines {
    /// Whether octets are its text.
    ghost is_text: { Self → List ℕ → Type 0 };

    /// Writes the lines.
    fn write_lines<W: fmt::Write>(&self, f: &mut fmt::Formatter<W>) -> fmt::Result
        ensures shown { OnOk result ((lines : List ℕ) × is_text self.now lines
            × (IsPlainFormatter f.old → HasWritten W.write_str_gives f.old lines f.new)) };
}

/// Appends the text of a value. On an error it appends nothing. The value must have one text at most, so whether it
/// fits doesn't depend on the choice of a text.
///
/// # Errors
///
/// `Short` if the text would exceed the limit of its type, `Memory` if a request for memory was refused. The text is
/// then unchanged. (`Display` is never returned if `write_lines` never fails by itself, though no contract says so.)
pub fn append_lines<T: WriteLines, B: OctetsBuilder + Truncate>(
    value: &T,
    text: &mut StrBuilder<B>,
) -> Result<(), DisplayError>
    requires { OneAtMost (T.is_text value.now) }
    ensures text { OnOk result ((lines : List ℕ) × T.is_text value.now lines
        × (B.content text.new ≡ B.content text.old ++ lines)) }
    ensures err { OnErr result (B.content text.new ≡ B.content text.old) }
    ensures past { (lines : List ℕ) → T.is_text value.now lines
        → ExceedsLimit B.limit (length (B.content text.old) + length lines) → IsErr result }
    ensures short { IsShort display_error result → (lines : List ℕ) → T.is_text value.now lines
        → ExceedsLimit B.limit (length (B.content text.old) + length lines) }
    ensures limited { IsShort display_error result → B.limit ≢ None }
    ensures memory { IsMemory display_error result → B.asks ≡ true }
    ensures borrows { B.borrows text.new ≡ B.borrows text.old }
{
    append_from::<Brand, B, T>(text, value).answer
}

/// Appends the text of a value, or cuts the text back to where it ended before.
fn append_from<'a, K: Begun, B: OctetsBuilder + Truncate, T: WriteLines>(
    text: &'a mut StrBuilder<B>,
    value: &T,
) -> Appended<'a, B>
    requires one { OneAtMost (T.is_text value.now) }
    requires begun { K.before ≡ B.content text.old }
    requires lender { K.lender ≡ text.ghost_name }
    requires borrows { K.borrows ≡ B.borrows text.old }
    ensures same { result.text.ghost_name ≡ text.entry.ghost_name }
    ensures ok { OnOk result.answer ((lines : List ℕ) × T.is_text value.now lines
        × (B.content result.text.now ≡ B.content text.old ++ lines)) }
    ensures err { OnErr result.answer (B.content result.text.now ≡ B.content text.old) }
    ensures short { IsShort display_error result.answer → (lines : List ℕ) → T.is_text value.now lines
        → ExceedsLimit B.limit (length (B.content text.old) + length lines) }
    ensures limited { IsShort display_error result.answer → B.limit ≢ None }
    ensures past { (lines : List ℕ) → T.is_text value.now lines
        → ExceedsLimit B.limit (length (B.content text.old) + length lines) → IsErr result.answer }
    ensures memory { IsMemory display_error result.answer → B.asks ≡ true }
    ensures borrows { B.borrows result.text.now ≡ B.borrows text.old }
{
    let len = text.len();
    let limit = text.max_len();
    let mut f = fmt::Formatter::new(Appending {
        text,
        refusal: DisplayError::Display,
        of: PhantomData::<K>,
    });
    let written = value.write_lines(&mut f);
    let appending = f.into_inner();
    match written {
        Ok(()) => end(appending, len, Ok(())),
        Err(_) => {
            let answer = Err(reason(appending.refusal, exceeds(limit, len, value)));
            end(appending, len, answer)
        }
    }
}

/// Whether the text of a value after `len` octets exceeds a limit. If it can't be shown, it doesn't.
fn exceeds<T: WriteLines>(limit: Option<usize>, len: usize, value: &T) -> bool
    requires { OneAtMost (T.is_text value.now) }
    ensures { result ≡ true → (lines : List ℕ) → T.is_text value.now lines
        → ExceedsLimit limit (len + length lines) }
{
    let mut f = fmt::Formatter::new(Counter { count: len });
    let shown = value.write_lines(&mut f);
    let counter = f.into_inner();
    match (limit, shown) {
        (Some(limit), Ok(())) if limit < counter.count => true,
        _ => false,
    }
}
