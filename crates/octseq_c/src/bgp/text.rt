//! The text of BGP messages.
ghost use Rattle.std.specs.Prelude.{◌≡◌, ◌≢◌, ◌↔◌, ◌⊎◌, List, ℕ};
ghost use Rattle.octseq.specs.Text.{IsWellFormed};
ghost use Rattle.octseq_c.specs.BgpRows.{IsBgpMessage, IsBgpTextOf};
ghost use Rattle.octseq_c.specs.BgpSession.{session_of};
ghost use Rattle.octseq_c.specs.Puts.{Puts};
ghost use Rattle.octseq_c.specs.Status.{status_ok, status_no_room, status_malformed, status_unshown};

use crate::bgp::message::message_of;
use crate::lines::put_lines;
use crate::status::MALFORMED;
use octseq::{AsOctets, Malformed};

/// Writes the text of the message that the octets are to the front of `out`.
#[unsafe(no_mangle)]
pub extern "C" fn octseq_bgp_message_text(
    octets: &[u8],
    session: u32,
    out: &mut [u8],
    written: &mut usize,
) -> u32
    ensures puts { Puts (IsBgpTextOf (session_of session) octets.now) result out.old out.new written.new }
    ensures malformed { (result ≡ status_malformed) ↔ ¬ IsBgpMessage (session_of session) octets.now }
    ensures only { (result ≡ status_ok) ⊎ (result ≡ status_no_room) ⊎ (result ≡ status_malformed)
        ⊎ (result ≡ status_unshown) }
    ensures utf8 { result ≡ status_ok → (text : List ℕ) → IsBgpTextOf (session_of session) octets.now text
        → IsWellFormed text }
    ensures kept { result ≢ status_ok → result ≢ status_unshown → out.new ≡ out.old }
{
    put_text(octets, session, out, written)
}

/// Writes the text of the message that the octets are to the front of `out`.
fn put_text<R: AsOctets + Copy>(octets: R, session: u32, out: &mut [u8], written: &mut usize) -> u32
    ensures puts { Puts (IsBgpTextOf (session_of session) (R.content octets)) result out.old out.new written.new }
    ensures malformed { (result ≡ status_malformed) ↔ ¬ IsBgpMessage (session_of session) (R.content octets) }
    ensures only { (result ≡ status_ok) ⊎ (result ≡ status_no_room) ⊎ (result ≡ status_malformed)
        ⊎ (result ≡ status_unshown) }
    ensures utf8 { result ≡ status_ok → (text : List ℕ) → IsBgpTextOf (session_of session) (R.content octets) text
        → IsWellFormed text }
    ensures kept { result ≢ status_ok → result ≢ status_unshown → out.new ≡ out.old }
{
    match message_of(octets, session) {
        Ok(message) => put_lines(&message, out, written),
        Err(Malformed) => {
            *written = 0;
            MALFORMED
        }
    }
}
