//! DNS messages written: RFC 1035, 4.1. They are composed on the stack, and copied to the caller's buffer if they fit.
//! Room for the longest message takes long to make, so it is made only for a message that needs it.
ghost use Rattle.std.specs.Prelude.{◌≡◌, ◌≢◌, ◌↔◌, ◌⊎◌, ◌++◌, ◌+◌, ◌<◌, ◌≤◌, ℕ, List, length, IfOk, IfSome, IsOk};
ghost use Rattle.std.specs.Prelude.{OnErr, Some};
ghost use Rattle.octseq.specs.Integer.{octets_be};
ghost use Rattle.octseq.specs.Limit.{ExceedsLimit, IsWithin};
ghost use Rattle.octseq.specs.Refusal.{IsShort, IsMalformed};
ghost use Rattle.octseq_dns.specs.Contents.{message_octets};
ghost use Rattle.octseq_dns.specs.Contents as contents;
ghost use Rattle.octseq_dns.specs.Moved.{CanMove};
ghost use Rattle.octseq_dns.specs.Owned.{owned_labels};
ghost use Rattle.octseq_dns.specs.Parsed.{records_of};
ghost use Rattle.octseq_dns.specs.Rewritten.{IsContentsOf, rewrite_error};
ghost use Rattle.octseq_dns.specs.Wire.{wire};
ghost use Rattle.octseq_dns_compress.specs.Composed.{message_limit};
ghost use Rattle.octseq_c.specs.Made.{IsImmovable, IsQuery, IsRewritten, offsets_kept, query_header};
ghost use Rattle.octseq_c.specs.Puts.{Copies, Puts};
ghost use Rattle.octseq_c.specs.Rows.{IsSomeMessage};
ghost use Rattle.octseq_c.specs.Status.{status_ok, status_no_room, status_malformed, status_immovable};
ghost use Rattle.octseq_c.specs.Status.{status_too_long};
ghost use Rattle.octseq_c.specs.Texts.{SpellsNameText};

use crate::message::message_of;
use crate::names::spelled;
use crate::room::put;
use crate::status::{IMMOVABLE, MALFORMED, TOO_LONG};
use crate::table::{LentTable, Table};
use octseq::builder::infallible;
use octseq::compose::append_u16_be;
use octseq::{Array, OctetsBuilder};
use octseq_dns::message::MESSAGE_MAX;
use octseq_dns::{Malformed, Message, Name, RewriteError, rewrite};

/// The maximum number of octets of most messages.
pub const FEW: usize = 4096;

/// The maximum number of octets of a message with one question: a header, a name, a type and a class.
const QUERY_MAX: usize = 271;

/// Composes the message that the octets are anew, and writes it to the front of `out`.
#[unsafe(no_mangle)]
pub extern "C" fn octseq_dns_rewrite(octets: &[u8], out: &mut [u8], written: &mut usize) -> u32
    ensures puts { Puts (IsRewritten octets.now) result out.old out.new written.new }
    ensures malformed { (result ≡ status_malformed) ↔ ¬ IsSomeMessage octets.now }
    ensures immovable { (result ≡ status_immovable) ↔ IsImmovable octets.now }
    ensures too_long { (made : List ℕ) → IsRewritten octets.now made
        → (result ≡ status_too_long) ↔ (65535 < length made) }
    ensures only { (result ≡ status_ok) ⊎ (result ≡ status_no_room) ⊎ (result ≡ status_malformed)
        ⊎ (result ≡ status_immovable) ⊎ (result ≡ status_too_long) }
    ensures kept { result ≢ status_ok → out.new ≡ out.old }
{
    let status = match message_of(octets) {
        Ok(message) => match rewrite_to(&message, out, written) {
            Ok(status) => return status,
            Err(RewriteError::Immovable) => IMMOVABLE,
            Err(RewriteError::Short(_)) => TOO_LONG,
            Err(RewriteError::Memory) => unreachable!(),
        },
        Err(Malformed) => MALFORMED,
    };
    *written = 0;
    status
}

/// Composes a message anew, and writes it to the front of `out`.
fn rewrite_to(
    message: &Message<&[u8]>,
    out: &mut [u8],
    written: &mut usize,
) -> Result<u32, RewriteError>
    ensures made { IfOk result (λ status. (m : contents.Message) × IsContentsOf message.now m
        × (length (message_octets offsets_kept m) ≤ 65535)
        × Copies (message_octets offsets_kept m) status out.old out.new written.new) }
    ensures immovable { IsMalformed rewrite_error result ↔ ¬ CanMove (records_of message.now) }
    ensures short { IsShort rewrite_error result → (m : contents.Message) → IsContentsOf message.now m
        → 65535 < length (message_octets offsets_kept m) }
    ensures only { IsOk result ⊎ IsMalformed rewrite_error result ⊎ IsShort rewrite_error result }
    ensures kept { OnErr result (out.new ≡ out.old) }
{
    match rewrite_within::<FEW>(message, out, written) {
        Ok(status) => Ok(status),
        Err(RewriteError::Immovable) => Err(RewriteError::Immovable),
        Err(RewriteError::Short(_)) => rewrite_within::<MESSAGE_MAX>(message, out, written),
        Err(RewriteError::Memory) => unreachable!(),
    }
}

/// Composes a message anew in room for `N` octets, and writes it to the front of `out`.
#[inline(never)]
fn rewrite_within<const N: usize>(
    message: &Message<&[u8]>,
    out: &mut [u8],
    written: &mut usize,
) -> Result<u32, RewriteError>
    requires { N ≤ 65535 }
    ensures made { IfOk result (λ status. (m : contents.Message) × IsContentsOf message.now m
        × IsWithin (message_limit (Some N)) (length (message_octets offsets_kept m))
        × Copies (message_octets offsets_kept m) status out.old out.new written.new) }
    ensures immovable { IsMalformed rewrite_error result ↔ ¬ CanMove (records_of message.now) }
    ensures short { IsShort rewrite_error result → (m : contents.Message) → IsContentsOf message.now m
        → ExceedsLimit (message_limit (Some N)) (length (message_octets offsets_kept m)) }
    ensures only { IsOk result ⊎ IsMalformed rewrite_error result ⊎ IsShort rewrite_error result }
    ensures kept { OnErr result (out.new ≡ out.old) }
{
    let mut room = Array::<N>::new();
    let mut targets = Table::new();
    let table = LentTable {
        table: &mut targets,
    };
    match rewrite(message, &mut room, table) {
        Ok(builder) => Ok(put(builder.as_slice(), out, written)),
        Err(error) => Err(error),
    }
}

/// Writes a message with one question to the front of `out`.
#[unsafe(no_mangle)]
pub extern "C" fn octseq_dns_query(
    id: u16,
    flags: u16,
    name: &[u8],
    qtype: u16,
    qclass: u16,
    out: &mut [u8],
    written: &mut usize,
) -> u32
    ensures puts { Puts (IsQuery id flags name.now qtype qclass) result out.old out.new written.new }
    ensures malformed { (result ≡ status_malformed) ↔ ((labels : List (List ℕ)) → ¬ SpellsNameText name.now labels) }
    ensures only { (result ≡ status_ok) ⊎ (result ≡ status_no_room) ⊎ (result ≡ status_malformed) }
    ensures kept { result ≢ status_ok → out.new ≡ out.old }
{
    match spelled(name) {
        Some(name) => {
            let made = query(id, flags, &name, qtype, qclass);
            put(made.as_slice(), out, written)
        }
        None => {
            *written = 0;
            MALFORMED
        }
    }
}

/// Composes a message with one question.
fn query(id: u16, flags: u16, name: &Name<Array<255>>, qtype: u16, qclass: u16) -> Array<QUERY_MAX>
    ensures { result.content ≡ query_header id flags ++ (wire (owned_labels name.now)
        ++ (octets_be 2 qtype ++ octets_be 2 qclass)) }
{
    let mut made = query_front(id, flags);
    push(&mut made, wire_of(name));
    push_u16(&mut made, qtype);
    push_u16(&mut made, qclass);
    made
}

/// Returns the wire form of a name.
pub fn wire_of(name: &Name<Array<255>>) -> &[u8]
    ensures wire { result.now ≡ wire (owned_labels name.now) }
    ensures short { length result.now ≤ 255 }
{
    // A name has at most 255 octets.
    let _len = name.len();
    name.as_slice()
}

/// Begins a message with one question with its header.
fn query_front(id: u16, flags: u16) -> Array<QUERY_MAX>
    ensures content { result.content ≡ query_header id flags }
    ensures len { length result.content ≡ 12 }
{
    let mut made = Array::new();
    push_u16(&mut made, id);
    push_u16(&mut made, flags);
    push_u16(&mut made, 1);
    push(&mut made, &[0; 6]);
    made
}

/// Appends octets for which there is room.
pub fn push<const N: usize>(made: &mut Array<N>, octets: &[u8])
    requires { length made.old.content + length octets.now ≤ N }
    ensures content { made.new.content ≡ made.old.content ++ octets.now }
    ensures len { length made.new.content ≡ length made.old.content + length octets.now }
{
    infallible(made.append_slice(octets));
}

/// Appends an integer of two octets for which there is room.
pub fn push_u16<const N: usize>(made: &mut Array<N>, number: u16)
    requires { length made.old.content + 2 ≤ N }
    ensures content { made.new.content ≡ made.old.content ++ octets_be 2 number }
    ensures len { length made.new.content ≡ length made.old.content + 2 }
{
    infallible(append_u16_be(made, number));
}
