//! Records and messages composed of their text: RFC 1035, 5.1. Data that ends in a list of types or of parameters
//! requests memory for it.
ghost use Rattle.std.specs.Prelude.{◌≡◌, ◌≢◌, ◌⊎◌, ◌+◌, ◌≤◌, ◌++◌, ℕ, List, None, Some, length};
ghost use Rattle.octseq.specs.Integer.{octets_be};
ghost use Rattle.octseq_dns_compose.specs.MessageText.{IsAnyText};
ghost use Rattle.octseq_dns_compose.specs.Read.{head_of};
ghost use Rattle.octseq_dns_compose.specs.RecordText.{BeginsWithList, IsAnyRecord};
ghost use Rattle.octseq_dns_compose.specs.TextLines.{IsLineFault};
ghost use Rattle.octseq_dns_compose.specs.TooLong.{HasListLine, IsMessageTooLong};
ghost use Rattle.octseq_dns_text.specs.Scans.{IsWordFault};
ghost use Rattle.octseq_c.specs.FromText.{IsLongRecord, IsRecordWire, IsTextWire, record_front};
ghost use Rattle.octseq_c.specs.Made.{offsets_kept};
ghost use Rattle.octseq_c.specs.Puts.{Copies, Puts};
ghost use Rattle.octseq_c.specs.Status.{status_ok, status_no_room, status_malformed, status_too_long, status_memory};

use crate::both::put_both;
use crate::room::put;
use crate::status::{MALFORMED, MEMORY, TOO_LONG};
use crate::table::{LentTable, Table};
use crate::write::{push, push_u16, wire_of};
use octseq::builder::infallible;
use octseq::compose::append_u32_be;
use octseq::{Array, AsOctets};
use octseq_dns::ParsedName;
use octseq_dns::message::MESSAGE_MAX;
use octseq_dns_compose::{ComposeError, RecordHead, compose_text, scan_record};
use octseq_dns_scan::Words;
use octseq_dns_text::ScanError;
use std::alloc::Global;

/// The maximum number of octets of a record before its data.
const FRONT_MAX: usize = 265;

/// Reads a record from its text, and writes its octets to the front of `out`.
#[unsafe(no_mangle)]
pub extern "C" fn octseq_dns_record_from_text(
    alloc: Global,
    text: &[u8],
    out: &mut [u8],
    written: &mut usize,
    offset: &mut usize,
) -> u32
    ensures puts { Puts (IsRecordWire text.now) result out.old out.new written.new }
    ensures malformed { result ≡ status_malformed → IsWordFault (IsAnyRecord None) text.now 0 offset.new }
    ensures too_long { result ≡ status_too_long → IsLongRecord text.now }
    ensures memory { result ≡ status_memory → BeginsWithList None text.now }
    ensures only { (result ≡ status_ok) ⊎ (result ≡ status_no_room) ⊎ (result ≡ status_malformed)
        ⊎ (result ≡ status_too_long) ⊎ (result ≡ status_memory) }
    ensures place { result ≢ status_malformed → offset.new ≡ 0 }
    ensures kept { result ≢ status_ok → out.new ≡ out.old }
{
    *written = 0;
    *offset = 0;
    let mut octets = Array::<65535>::new();
    match scan_record(
        alloc,
        Words::new(text),
        None::<&ParsedName<&[u8]>>,
        &mut octets,
    ) {
        Ok(head) => put_record(&head, octets.as_slice(), out, written),
        Err(ScanError::Malformed(place)) => {
            *offset = place;
            MALFORMED
        }
        Err(ScanError::Short) => TOO_LONG,
        Err(ScanError::Memory) => MEMORY,
    }
}

/// Writes the octets of a record to the front of `out`.
fn put_record(head: &RecordHead, octets: &[u8], out: &mut [u8], written: &mut usize) -> u32
    requires { length octets.now ≤ 65535 }
    ensures { Copies (record_front (head_of head.now) (length octets.now) ++ octets.now) result out.old out.new
        written.new }
{
    let Ok(len) = u16::try_from(octets.len()) else {
        unreachable!();
    };
    let front = front_of(head, len);
    put_both(front.as_slice(), octets, out, written)
}

/// Composes the octets of a record up to its data, which has `len` octets.
fn front_of(head: &RecordHead, len: u16) -> Array<FRONT_MAX>
    ensures content { result.content ≡ record_front (head_of head.now) len }
    ensures len { length result.content ≤ 265 }
{
    let mut made = Array::new();
    push(&mut made, wire_of(&head.owner));
    push_u16(&mut made, head.rtype.to_int());
    push_u16(&mut made, head.class.to_int());
    push_u32(&mut made, head.ttl.as_secs());
    push_u16(&mut made, len);
    made
}

/// Appends an integer of four octets for which there is room.
fn push_u32<const N: usize>(made: &mut Array<N>, number: u32)
    requires { length made.old.content + 4 ≤ N }
    ensures content { made.new.content ≡ made.old.content ++ octets_be 4 number }
    ensures len { length made.new.content ≡ length made.old.content + 4 }
{
    infallible(append_u32_be(made, number));
}

/// Composes a message of its text, and writes it to the front of `out`.
#[unsafe(no_mangle)]
pub extern "C" fn octseq_dns_message_from_text(
    alloc: Global,
    text: &[u8],
    out: &mut [u8],
    written: &mut usize,
    line: &mut usize,
    offset: &mut usize,
) -> u32
    ensures puts { Puts (IsTextWire text.now) result out.old out.new written.new }
    ensures malformed { result ≡ status_malformed → IsLineFault IsAnyText text.now 1 line.new offset.new }
    ensures too_long { result ≡ status_too_long → IsMessageTooLong offsets_kept (Some 65535) text.now }
    ensures not_long { result ≢ status_too_long → result ≢ status_memory
        → ¬ IsMessageTooLong offsets_kept (Some 65535) text.now }
    ensures memory { result ≡ status_memory → HasListLine text.now }
    ensures fits { written.new ≤ 65535 }
    ensures only { (result ≡ status_ok) ⊎ (result ≡ status_no_room) ⊎ (result ≡ status_malformed)
        ⊎ (result ≡ status_too_long) ⊎ (result ≡ status_memory) }
    ensures place { result ≢ status_malformed → (line.new ≡ 0) × (offset.new ≡ 0) }
    ensures kept { result ≢ status_ok → out.new ≡ out.old }
{
    *written = 0;
    *line = 0;
    *offset = 0;
    let mut room = Array::<MESSAGE_MAX>::new();
    let mut targets = Table::new();
    let table = LentTable {
        table: &mut targets,
    };
    match compose_text(alloc, text, &mut room, table) {
        Ok(message) => put(message.as_slice(), out, written),
        Err(ComposeError::Malformed(place)) => {
            *line = place.line;
            *offset = place.offset;
            MALFORMED
        }
        Err(ComposeError::Short) => TOO_LONG,
        Err(ComposeError::Memory) => MEMORY,
    }
}
