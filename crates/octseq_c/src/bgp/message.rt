//! The BGP message that octets are.
ghost use Rattle.std.specs.Prelude.{◌≡◌, ◌↔◌, ◌⊎◌, ◌≤◌, length, IfOk, OnErr};
ghost use Rattle.octseq_bgp.specs.Message.{IsMessage};
ghost use Rattle.octseq_bgp.specs.Parsed.{message_of};
ghost use Rattle.octseq_bgp.specs.ReadTurns.{message_turns};
ghost use Rattle.octseq_bgp.specs.Stop.{IsStop};
ghost use Rattle.octseq_c.specs.BgpRows.{IsBgpMessage};
ghost use Rattle.octseq_c.specs.BgpSession.{session_of};
ghost use Rattle.octseq_c.specs.Status.{status_ok, status_malformed};

use crate::bgp::session::session_of;
use crate::status::{MALFORMED, OK};
use octseq::{AsOctets, Malformed, Turns};
use octseq_bgp::message::{Message, fault_offset};

/// Reports whether the octets are a message, and where reading stops: for a message at its end.
#[unsafe(no_mangle)]
pub extern "C" fn octseq_bgp_message_fault(octets: &[u8], session: u32, offset: &mut usize) -> u32
    ensures offset { IsStop (session_of session) octets.now offset.new }
    ensures malformed { (result ≡ status_malformed) ↔ ¬ IsBgpMessage (session_of session) octets.now }
    ensures only { (result ≡ status_ok) ⊎ (result ≡ status_malformed) }
{
    report_fault(octets, session, offset)
}

/// Does the same, for octets of any kind.
fn report_fault<R: AsOctets + Copy>(octets: R, session: u32, offset: &mut usize) -> u32
    ensures offset { IsStop (session_of session) (R.content octets) offset.new }
    ensures malformed { (result ≡ status_malformed) ↔ ¬ IsBgpMessage (session_of session) (R.content octets) }
    ensures only { (result ≡ status_ok) ⊎ (result ≡ status_malformed) }
{
    *offset = fault_offset(octets, session_of(session));
    match message_of(octets, session) {
        Ok(_) => OK,
        Err(Malformed) => MALFORMED,
    }
}

/// Reads all the octets as a message of the session that flags describe.
///
/// # Errors
///
/// `Malformed` if they aren't one.
pub fn message_of<R: AsOctets + Copy>(octets: R, session: u32) -> Result<Message<R>, Malformed>
    ensures message { IfOk result (λ message. IsMessage (session_of session) (R.content octets) (message_of message)) }
    ensures turns { IfOk result (λ message. message_turns (message_of message) ≤ length (R.content octets)) }
    ensures malformed { OnErr result (¬ IsBgpMessage (session_of session) (R.content octets)) }
{
    Message::parse_counted(octets, session_of(session), &mut Turns::new())
}
