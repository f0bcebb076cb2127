//! A text that a value writes itself to.
ghost use Rattle.std.specs.Prelude.{◌≡◌, ◌≢◌, ◌++◌, ℕ, List, [], None, true, false, take, drop, length};
ghost use Rattle.std.specs.Prelude.{IfErr, OnOk, OnErr};
ghost use Rattle.std.specs.Borrow.{GName};
ghost use Rattle.octseq_core.specs.Appends.{Appends};
ghost use Rattle.octseq_core.specs.Limit.{IsWithin};
ghost use Rattle.octseq_core.specs.Refusal.{Refusal, Is};
ghost use Rattle.octseq_text.specs.Display.{display_error, display_error_of, reason_of};
ghost use Rattle.octseq_utf8.specs.Text.{begins_within};

use super::builder::StrBuilder;
use super::display::DisplayError;
use octseq_core::builder::{AppendError, AsOctets, OctetsBuilder, Truncate};
use std::fmt;
use std::marker::{Brand, PhantomData};

/// A text before a value was appended, and who lent it.
pub(super) trait Begun {
    ghost before: { List ℕ };

    ghost lender: { GName };

    ghost borrows: { List GName };
}

impl Begun for Brand {
    ghost before = { [] };

    ghost lender = { 0 };

    ghost borrows = { [] };
}

/// A text that a value writes to. The previous text stays at its front.
#[derive(Drop)]
pub(super) struct Appending<'a, K: Begun, B: AsOctets> {
    pub(super) text: &'a mut StrBuilder<B>,
    pub(super) refusal: DisplayError,
    pub(super) of: PhantomData<K>,
    ghost front: { take (length K.before) (B.content text.now) ≡ K.before },
    ghost edge: { begins_within (drop (length K.before) (B.content text.now)) ≡ false },
    ghost same: { text.ghost_name ≡ K.lender },
    ghost borrows: { B.borrows text.now ≡ K.borrows },
    ghost short: { Is Refusal.short (display_error refusal) → B.limit ≢ None },
    ghost memory: { Is Refusal.memory (display_error refusal) → B.asks ≡ true },
}

impl<'a, K: Begun, B: OctetsBuilder> fmt::Write for Appending<'a, K, B> {
    ghost write_str_gives = { λ before octets after.
        B.content after.text.now ≡ B.content before.text.now ++ octets };

    fn write_str(&mut self, s: &str) -> fmt::Result {
        match self.push(s) {
            Ok(()) => Ok(()),
            Err(_) => Err(fmt::Error),
        }
    }
}

impl<'a, K: Begun, B: OctetsBuilder> Appending<'a, K, B> {
    /// Appends all of `s`, or nothing, and notes why it was refused.
    fn push(&mut self, s: &str) -> Result<(), AppendError>
        ensures appended { Appends B.limit B.asks result s.now
            (B.content self.old.text.now) (B.content self.new.text.now) }
        ensures refusal { IfErr result (λ error. self.new.refusal ≡ display_error_of error) }
    {
        match self.text.try_push_str(s) {
            Ok(()) => Ok(()),
            Err(error) => {
                self.refusal = error.into();
                Err(error)
            }
        }
    }
}

/// A text, and the result of an append to it.
#[derive(Drop)]
pub(super) struct Appended<'a, B: AsOctets> {
    pub(super) text: &'a mut StrBuilder<B>,
    pub(super) answer: Result<(), DisplayError>,
}

/// Ends an append: on an error the text is cut back to the `len` octets that it had before.
pub(super) fn end<'a, K: Begun, B: OctetsBuilder + Truncate>(
    appending: Appending<'a, K, B>,
    len: usize,
    answer: Result<(), DisplayError>,
) -> Appended<'a, B>
    requires { len ≡ length K.before }
    ensures answer { result.answer ≡ answer }
    ensures same { result.text.ghost_name ≡ K.lender }
    ensures ok { OnOk answer (B.content result.text.now ≡ B.content appending.entry.text.now) }
    ensures err { OnErr answer (B.content result.text.now ≡ K.before) }
    ensures front { take (length K.before) (B.content result.text.now) ≡ K.before }
    ensures within { IsWithin B.limit (length (B.content result.text.now)) }
    ensures borrows { B.borrows result.text.now ≡ K.borrows }
{
    let Appending { text, .. } = appending;
    // The borrowed text is well formed, as the cut requires, and within the limit.
    let _lent = text.as_slice();
    if answer.is_err() {
        text.truncate(len);
    }
    Appended { text, answer }
}

/// Why a value wasn't appended, given why a part of it was refused, and whether all of it exceeds the limit: it is
/// `Short` only if it does.
pub(super) fn reason(refusal: DisplayError, exceeds: bool) -> DisplayError
    ensures { result ≡ reason_of refusal exceeds }
{
    match refusal {
        DisplayError::Short if !exceeds => DisplayError::Display,
        refusal => refusal,
    }
}
