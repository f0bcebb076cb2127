//! Values formatted at the end of a text.
ghost use Rattle.std.specs.Prelude.{◌≡◌, ◌≢◌, ◌+◌, ◌++◌, ℕ, List, [], Some, None, true};
ghost use Rattle.std.specs.Prelude.{false, take, drop, length, IsErr, IfSome, OnOk, OnErr};
ghost use Rattle.std.specs.Borrow.{GName};
ghost use Rattle.octseq_core.specs.Limit.{ExceedsLimit};
ghost use Rattle.octseq_core.specs.Refusal.{Refusal, Is, IsShort, IsMemory};
ghost use Rattle.octseq_text.specs.Display.{display_error};
ghost use Rattle.octseq_utf8.specs.Text.{begins_within};

use super::appending::{Appended, Appending, Begun, end, reason};
use super::builder::StrBuilder;
use super::counter::Counter;
use octseq_core::builder::{AppendError, OctetsBuilder, Truncate};
use std::error::Error;
use std::fmt::{self, Display, Write};
use std::marker::{Brand, PhantomData};

/// Why a value was not appended.
#[derive(Clone, Copy, Debug, PartialEq, Eq)]
pub enum DisplayError {
    /// The text would have exceeded the limit of its type.
    Short,
    /// A request for memory was refused.
    Memory,
    /// The value's own `fmt` returned an error, and no append was refused.
    Display,
}

impl From<AppendError> for DisplayError {
    ghost use Rattle.octseq_text.specs.Display.{display_error_of};

    ghost from_gives = { λ e made. made ≡ display_error_of e };

    fn from(e: AppendError) -> DisplayError {
        match e {
            AppendError::Short(_) => DisplayError::Short,
            AppendError::Memory => DisplayError::Memory,
        }
    }
}

impl Error for DisplayError {}

impl fmt::Display for DisplayError {
    ghost use Rattle.octseq_text.specs.Display.{display_error_text};

    ghost output = { λ e. Some (display_error_text e) };

    fn fmt<W: fmt::Write>(&self, f: &mut fmt::Formatter<W>) -> fmt::Result {
        match self {
            DisplayError::Short => f.write_str("buffer size exceeded"),
            DisplayError::Memory => f.write_str("out of memory"),
            DisplayError::Display => f.write_str("a value can't be shown"),
        }
    }
}

impl<Octets: OctetsBuilder> fmt::Write for StrBuilder<Octets> {
    ghost write_str_gives = { λ before octets after. (Octets.content after ≡ Octets.content before ++ octets)
        × (Octets.borrows after ≡ Octets.borrows before) };

    /// Appends all of `s`, or nothing. The error doesn't say why it was refused.
    fn write_str(&mut self, s: &str) -> fmt::Result {
        match self.try_push_str(s) {
            Ok(()) => Ok(()),
            Err(_) => Err(fmt::Error),
        }
    }
}

impl<Octets: OctetsBuilder + Truncate> StrBuilder<Octets> {
    /// Appends a value as `{}` formats it, or nothing. A value whose text would exceed the limit is never appended.
    ///
    /// # Errors
    ///
    /// `Short` if the text would exceed the limit of its type, `Memory` if a request for memory was refused, and
    /// `Display` if the value's own `fmt` returns an error although nothing is refused. The text is then unchanged.
    pub fn try_push_display<D: Display + Drop>(&mut self, value: D) -> Result<(), DisplayError>
        ensures ok { OnOk result (IfSome (D.output value)
            (λ octets. Octets.content self.new ≡ Octets.content self.old ++ octets)) }
        ensures err { OnErr result (Octets.content self.new ≡ Octets.content self.old) }
        ensures front { take (length (Octets.content self.old)) (Octets.content self.new) ≡ Octets.content self.old }
        ensures short { IsShort display_error result → IfSome (D.output value)
            (λ octets. ExceedsLimit Octets.limit (length (Octets.content self.old) + length octets)) }
        ensures limited { IsShort display_error result → Octets.limit ≢ None }
        ensures past { IfSome (D.output value)
            (λ octets. ExceedsLimit Octets.limit (length (Octets.content self.old) + length octets) → IsErr result) }
        ensures memory { IsMemory display_error result → Octets.asks ≡ true }
        ensures borrows { Octets.borrows self.new ≡ Octets.borrows self.old }
    {
        append_from::<Brand, Octets, D>(self, value).answer
    }
}

/// Appends a value, or cuts the text back to where it ended before.
fn append_from<'a, K: Begun, B: OctetsBuilder + Truncate, D: Display + Drop>(
    text: &'a mut StrBuilder<B>,
    value: D,
) -> Appended<'a, B>
    requires begun { K.before ≡ B.content text.old }
    requires lender { K.lender ≡ text.ghost_name }
    requires borrows { K.borrows ≡ B.borrows text.old }
    ensures same { result.text.ghost_name ≡ text.entry.ghost_name }
    ensures ok { OnOk result.answer (IfSome (D.output value)
        (λ octets. B.content result.text.now ≡ B.content text.old ++ octets)) }
    ensures err { OnErr result.answer (B.content result.text.now ≡ B.content text.old) }
    ensures front { take (length (B.content text.old)) (B.content result.text.now) ≡ B.content text.old }
    ensures short { IsShort display_error result.answer → IfSome (D.output value)
        (λ octets. ExceedsLimit B.limit (length (B.content text.old) + length octets)) }
    ensures limited { IsShort display_error result.answer → B.limit ≢ None }
    ensures past { IfSome (D.output value)
        (λ octets. ExceedsLimit B.limit (length (B.content text.old) + length octets) → IsErr result.answer) }
    ensures memory { IsMemory display_error result.answer → B.asks ≡ true }
    ensures borrows { B.borrows result.text.now ≡ B.borrows text.old }
{
    let len = text.len();
    let limit = text.max_len();
    let mut appending = Appending {
        text,
        refusal: DisplayError::Display,
        of: PhantomData::<K>,
    };
    let written = appending.write(&value);
    match written {
        Ok(()) => end(appending, len, Ok(())),
        Err(_) => {
            let answer = Err(reason(appending.refusal, exceeds(limit, len, &value)));
            end(appending, len, answer)
        }
    }
}

/// Whether a value after `len` octets exceeds the limit. False if the value can't be formatted.
fn exceeds<D: Display>(limit: Option<usize>, len: usize, value: &D) -> bool
    ensures { result ≡ true → IfSome (D.output value.now) (λ octets. ExceedsLimit limit (len + length octets)) }
{
    let mut counter = Counter { count: len };
    match (limit, counter.write(value)) {
        (Some(limit), Ok(())) if limit < counter.count => true,
        _ => false,
    }
}
