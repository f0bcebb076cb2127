//! The message that octets are.
ghost use Rattle.std.specs.Prelude.{◌≡◌, ◌↔◌, ◌⊎◌, IfOk, OnErr};
ghost use Rattle.octseq_dns.specs.Message.{IsMessage};
ghost use Rattle.octseq_dns.specs.Parsed.{header_of, questions_of, answers_of, authorities_of, additionals_of};
ghost use Rattle.octseq_dns.specs.Stop.{IsStop};
ghost use Rattle.octseq_c.specs.Rows.{IsSomeMessage};
ghost use Rattle.octseq_c.specs.Status.{status_ok, status_malformed};

use crate::status::{MALFORMED, OK};
use octseq_dns::message::fault_offset;
use octseq_dns::{Malformed, Message};

/// Reports whether the octets are a message, and where reading stops: for a message at its end.
#[unsafe(no_mangle)]
pub extern "C" fn octseq_dns_message_fault(octets: &[u8], offset: &mut usize) -> u32
    ensures offset { IsStop octets.now offset.new }
    ensures malformed { (result ≡ status_malformed) ↔ ¬ IsSomeMessage octets.now }
    ensures only { (result ≡ status_ok) ⊎ (result ≡ status_malformed) }
{
    *offset = fault_offset(octets);
    match message_of(octets) {
        Ok(_) => OK,
        Err(Malformed) => MALFORMED,
    }
}

/// Reads all the octets as a message.
///
/// # Errors
///
/// `Malformed` if they aren't one.
pub fn message_of(octets: &[u8]) -> Result<Message<&[u8]>, Malformed>
    ensures message { IfOk result (λ message. IsMessage octets.now (header_of message) (questions_of message)
        (answers_of message) (authorities_of message) (additionals_of message)) }
    ensures malformed { OnErr result (¬ IsSomeMessage octets.now) }
{
    Message::parse(octets)
}
