//! Values shown as lines in a caller's buffer. Their length is counted first, so that nothing is written if they don't
//! fit.
ghost use Rattle.std.specs.Prelude.{◌≡◌, ◌≢◌, ◌⊎◌, List, ℕ, length, IfSome, IsTrue};
ghost use Rattle.octseq.specs.Text.{IsWellFormed};
ghost use Rattle.octseq_text.specs.OneText.{OneAtMost};
ghost use Rattle.octseq_c.specs.Puts.{Puts};
ghost use Rattle.octseq_c.specs.Status.{status_ok, status_no_room, status_unshown};

use crate::shown::counted;
use crate::status::{NO_ROOM, OK, UNSHOWN};
use crate::writing::{Front, Shown, Writing};
use octseq::str::{Counter, WriteLines};
use std::fmt;
use std::marker::Brand;

/// Writes the text of a value to the front of a buffer.
pub fn put_lines<T: WriteLines>(value: &T, out: &mut [u8], written: &mut usize) -> u32
    requires one { OneAtMost (T.is_text value.now) }
    ensures puts { Puts (T.is_text value.now) result out.old out.new written.new }
    ensures only { (result ≡ status_ok) ⊎ (result ≡ status_no_room) ⊎ (result ≡ status_unshown) }
    ensures utf8 { result ≡ status_ok → (text : List ℕ) → T.is_text value.now text → IsWellFormed text }
    ensures kept { result ≡ status_no_room → out.new ≡ out.old }
{
    let Some(len) = lines_len(value) else {
        *written = 0;
        return UNSHOWN;
    };
    if len > out.len() {
        *written = len;
        return NO_ROOM;
    }
    if put_whole(value, &mut out[..len]) {
        *written = len;
        OK
    } else {
        *written = 0;
        UNSHOWN
    }
}

/// Returns the number of octets of the text of a value, if it can be shown.
fn lines_len<T: WriteLines>(value: &T) -> Option<usize>
    ensures { IfSome result (λ len. (text : List ℕ) × T.is_text value.now text × (len ≡ length text)) }
{
    let mut f = fmt::Formatter::new(Counter { count: 0 });
    let shown = value.write_lines(&mut f);
    counted(shown, f.into_inner())
}

/// Writes the text of a value to a buffer of exactly its size.
fn put_whole<T: WriteLines>(value: &T, out: &mut [u8]) -> bool
    requires one { OneAtMost (T.is_text value.now) }
    requires fits { (text : List ℕ) × T.is_text value.now text × (length out.old ≡ length text) }
    ensures shown { IsTrue result → T.is_text value.now out.new × IsWellFormed out.new }
    ensures len { length out.new ≡ length out.old }
{
    put_in::<Brand, T>(value, out).is_shown
}

/// Does the same, with the buffer described by `K`.
fn put_in<'a, K: Front, T: WriteLines>(value: &T, out: &'a mut [u8]) -> Shown<'a>
    requires room { K.room ≡ length out.old }
    requires lender { K.lender ≡ out.ghost_name }
    requires one { OneAtMost (T.is_text value.now) }
    requires fits { (text : List ℕ) × T.is_text value.now text × (length out.old ≡ length text) }
    ensures same { result.octets.ghost_name ≡ out.entry.ghost_name }
    ensures shown { IsTrue result.is_shown → T.is_text value.now result.octets.now
        × IsWellFormed result.octets.now }
{
    let mut f = fmt::Formatter::new(Writing::<K>::new(out));
    let shown = value.write_lines(&mut f);
    f.into_inner().finish(shown)
}
