//! The text of DNS messages.
ghost use Rattle.std.specs.Prelude.{◌≡◌, ◌≢◌, ◌↔◌, ◌⊎◌, List, ℕ, length, IfSome, IsTrue};
ghost use Rattle.octseq.specs.Text.{IsWellFormed};
ghost use Rattle.octseq_dns.specs.MessageText.{IsMessageText};
ghost use Rattle.octseq_dns.specs.Parsed.{header_of, questions_of, answers_of, authorities_of, additionals_of};
ghost use Rattle.octseq_c.specs.Puts.{Puts};
ghost use Rattle.octseq_c.specs.Rows.{IsSomeMessage};
ghost use Rattle.octseq_c.specs.Status.{status_ok, status_no_room, status_malformed, status_unshown};
ghost use Rattle.octseq_c.specs.Texts.{IsTextOf};

use crate::message::message_of;
use crate::shown::counted;
use crate::status::{MALFORMED, NO_ROOM, OK, UNSHOWN};
use crate::writing::{Front, Shown, Writing};
use octseq::str::Counter;
use octseq_dns::{Malformed, Message};
use std::fmt;
use std::marker::Brand;

/// Writes the text of the message that the octets are to the front of `out`.
#[unsafe(no_mangle)]
pub extern "C" fn octseq_dns_message_text(octets: &[u8], out: &mut [u8], written: &mut usize) -> u32
    ensures puts { Puts (IsTextOf octets.now) result out.old out.new written.new }
    ensures malformed { (result ≡ status_malformed) ↔ ¬ IsSomeMessage octets.now }
    ensures only { (result ≡ status_ok) ⊎ (result ≡ status_no_room) ⊎ (result ≡ status_malformed)
        ⊎ (result ≡ status_unshown) }
    ensures utf8 { result ≡ status_ok → (text : List ℕ) → IsTextOf octets.now text → IsWellFormed text }
    ensures kept { result ≢ status_ok → result ≢ status_unshown → out.new ≡ out.old }
{
    match message_of(octets) {
        Ok(message) => put_text(&message, out, written),
        Err(Malformed) => {
            *written = 0;
            MALFORMED
        }
    }
}

/// Writes the text of a message to the front of `out`.
fn put_text(message: &Message<&[u8]>, out: &mut [u8], written: &mut usize) -> u32
    ensures puts { Puts (IsMessageText (header_of message.now) (questions_of message.now) (answers_of message.now)
        (authorities_of message.now) (additionals_of message.now)) result out.old out.new written.new }
    ensures only { (result ≡ status_ok) ⊎ (result ≡ status_no_room) ⊎ (result ≡ status_unshown) }
    ensures utf8 { result ≡ status_ok → (text : List ℕ) → IsMessageText (header_of message.now)
        (questions_of message.now) (answers_of message.now) (authorities_of message.now)
        (additionals_of message.now) text → IsWellFormed text }
    ensures kept { result ≡ status_no_room → out.new ≡ out.old }
{
    let Some(len) = text_len(message) else {
        *written = 0;
        return UNSHOWN;
    };
    if len > out.len() {
        *written = len;
        return NO_ROOM;
    }
    if put_whole(message, &mut out[..len]) {
        *written = len;
        OK
    } else {
        *written = 0;
        UNSHOWN
    }
}

/// Returns the number of octets of the text of a message, if it can be shown.
fn text_len(message: &Message<&[u8]>) -> Option<usize>
    ensures { IfSome result (λ len. (text : List ℕ) × IsMessageText (header_of message.now) (questions_of message.now)
        (answers_of message.now) (authorities_of message.now) (additionals_of message.now) text
        × (len ≡ length text)) }
{
    let mut f = fmt::Formatter::new(Counter { count: 0 });
    let shown = fmt::Display::fmt(message, &mut f);
    counted(shown, f.into_inner())
}

/// Writes the text of a message to a buffer of exactly its size.
fn put_whole(message: &Message<&[u8]>, out: &mut [u8]) -> bool
    requires fits { (text : List ℕ) × IsMessageText (header_of message.now) (questions_of message.now)
        (answers_of message.now) (authorities_of message.now) (additionals_of message.now) text
        × (length out.old ≡ length text) }
    ensures shown { IsTrue result → IsMessageText (header_of message.now) (questions_of message.now)
        (answers_of message.now) (authorities_of message.now) (additionals_of message.now) out.new
        × IsWellFormed out.new }
    ensures len { length out.new ≡ length out.old }
{
    put_in::<Brand>(message, out).is_shown
}

/// Does the same, with the buffer described by `K`.
fn put_in<'a, K: Front>(message: &Message<&[u8]>, out: &'a mut [u8]) -> Shown<'a>
    requires room { K.room ≡ length out.old }
    requires lender { K.lender ≡ out.ghost_name }
    requires fits { (text : List ℕ) × IsMessageText (header_of message.now) (questions_of message.now)
        (answers_of message.now) (authorities_of message.now) (additionals_of message.now) text
        × (length out.old ≡ length text) }
    ensures same { result.octets.ghost_name ≡ out.entry.ghost_name }
    ensures shown { IsTrue result.is_shown → IsMessageText (header_of message.now) (questions_of message.now)
        (answers_of message.now) (authorities_of message.now) (additionals_of message.now) result.octets.now
        × IsWellFormed result.octets.now }
{
    let mut f = fmt::Formatter::new(Writing::<K>::new(out));
    let shown = fmt::Display::fmt(message, &mut f);
    f.into_inner().finish(shown)
}
