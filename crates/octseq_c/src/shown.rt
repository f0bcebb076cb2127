//! Values shown in a caller's buffer. Their length is counted first, so that nothing is written if they don't fit.
ghost use Rattle.std.specs.Prelude.{◌≡◌, ◌≢◌, ◌⊎◌, List, ℕ, Some, None, length, IfSome, IsTrue, OnOk, OnErr};
ghost use Rattle.octseq.specs.Text.{IsWellFormed};
ghost use Rattle.octseq_c.specs.Puts.{Puts};
ghost use Rattle.octseq_c.specs.Status.{status_ok, status_no_room, status_unshown};

use crate::status::{NO_ROOM, OK, UNSHOWN};
use crate::writing::{Front, Shown, Writing};
use octseq::str::Counter;
use std::fmt::{self, Display, Write};
use std::marker::Brand;

/// Writes a value to the front of a buffer.
pub fn show<D: Display>(value: &D, out: &mut [u8], written: &mut usize) -> u32
    ensures puts { IfSome (D.output value.now)
        (λ text. Puts (λ made. made ≡ text) result out.old out.new written.new) }
    ensures only { (result ≡ status_ok) ⊎ (result ≡ status_no_room) ⊎ (result ≡ status_unshown) }
    ensures utf8 { result ≡ status_ok → IfSome (D.output value.now) IsWellFormed }
    ensures kept { result ≡ status_no_room → out.new ≡ out.old }
{
    let Some(len) = shown_len(value) else {
        *written = 0;
        return UNSHOWN;
    };
    if len > out.len() {
        *written = len;
        return NO_ROOM;
    }
    if show_whole(value, &mut out[..len]) {
        *written = len;
        OK
    } else {
        *written = 0;
        UNSHOWN
    }
}

/// Returns the number of octets of a value's text, if it has one.
fn shown_len<D: Display>(value: &D) -> Option<usize>
    ensures { IfSome result (λ len. IfSome (D.output value.now) (λ text. len ≡ length text)) }
{
    let mut counter = Counter { count: 0 };
    let shown = counter.write(value);
    counted(shown, counter)
}

/// Returns the number of octets that were counted, or `None` if the value wasn't shown.
pub fn counted(shown: fmt::Result, counter: Counter) -> Option<usize>
    ensures ok { OnOk shown (result ≡ Some counter.count) }
    ensures err { OnErr shown (result ≡ None) }
{
    match shown {
        Ok(()) => Some(counter.count),
        Err(_) => None,
    }
}

/// Writes a value to a buffer of exactly its size.
fn show_whole<D: Display>(value: &D, out: &mut [u8]) -> bool
    requires { IfSome (D.output value.now) (λ text. length text ≡ length out.old) }
    ensures shown { IsTrue result → IfSome (D.output value.now) (λ text. out.new ≡ text) }
    ensures utf8 { IsTrue result → IfSome (D.output value.now) IsWellFormed }
    ensures len { length out.new ≡ length out.old }
{
    show_in::<Brand, D>(value, out).is_shown
}

/// Does the same, with the buffer described by `K`.
fn show_in<'a, K: Front, D: Display>(value: &D, out: &'a mut [u8]) -> Shown<'a>
    requires room { K.room ≡ length out.old }
    requires lender { K.lender ≡ out.ghost_name }
    requires fits { IfSome (D.output value.now) (λ text. length text ≡ length out.old) }
    ensures same { result.octets.ghost_name ≡ out.entry.ghost_name }
    ensures shown { IsTrue result.is_shown → IfSome (D.output value.now) (λ text. result.octets.now ≡ text) }
    ensures utf8 { IsTrue result.is_shown → IfSome (D.output value.now) IsWellFormed }
    ensures len { length result.octets.now ≡ length out.old }
{
    let mut writer = Writing::<K>::new(out);
    let shown = writer.write(value);
    writer.finish(shown)
}
