//! Queries with an OPT record: RFC 6891, 6.1.
ghost use Rattle.std.specs.Prelude.{◌≡◌, ◌≢◌, ◌↔◌, ◌⊎◌, ◌++◌, ◌+◌, ◌<◌, ◌≤◌, ℕ, List, length, IsTrue};
ghost use Rattle.octseq_dns.specs.Owned.{owned_labels};
ghost use Rattle.octseq_c.specs.Edns.{AreOptions, IsEdnsQuery, IsNoEdnsQuery, edns_header, opt_head, question_octets};
ghost use Rattle.octseq_c.specs.Puts.{Puts};
ghost use Rattle.octseq_c.specs.Status.{status_ok, status_no_room, status_malformed, status_too_long};

use crate::both::put_both;
use crate::fields::OPT;
use crate::names::spelled;
use crate::status::{MALFORMED, TOO_LONG};
use crate::write::{push, push_u16, wire_of};
use octseq::{Array, AsOctets, Parser};
use octseq_dns::Name;
use octseq_dns::opt::EdnsOption;
use octseq_format::{Format, Of, Repeated};

/// The maximum number of octets before the options: a header, a name, a type and a class, and 11 octets of the record.
const FRONT_MAX: usize = 282;

/// Writes a message with one question and an OPT record to the front of `out`. `options` are the octets of its options.
#[unsafe(no_mangle)]
pub extern "C" fn octseq_dns_query_edns(
    id: u16,
    flags: u16,
    name: &[u8],
    qtype: u16,
    qclass: u16,
    payload: u16,
    edns_flags: u16,
    options: &[u8],
    out: &mut [u8],
    written: &mut usize,
) -> u32
    ensures puts { Puts (IsEdnsQuery id flags name.now qtype qclass payload edns_flags options.now) result out.old
        out.new written.new }
    ensures malformed { (result ≡ status_malformed) ↔ IsNoEdnsQuery name.now options.now }
    ensures too_long { (made : List ℕ) → IsEdnsQuery id flags name.now qtype qclass payload edns_flags options.now made
        → (result ≡ status_too_long) ↔ (65535 < length made) }
    ensures only { (result ≡ status_ok) ⊎ (result ≡ status_no_room) ⊎ (result ≡ status_malformed)
        ⊎ (result ≡ status_too_long) }
    ensures kept { result ≢ status_ok → out.new ≡ out.old }
{
    *written = 0;
    let Some(name) = spelled(name) else {
        return MALFORMED;
    };
    if !are_options(options) {
        return MALFORMED;
    }
    let Ok(len) = u16::try_from(options.len()) else {
        return TOO_LONG;
    };
    let mut front = edns_front(id, flags);
    push_question(&mut front, &name, qtype, qclass);
    push_opt_head(&mut front, payload, edns_flags, len);
    let front = front.as_slice();
    if front.len() + options.len() > 65535 {
        return TOO_LONG;
    }
    put_both(front, options, out, written)
}

/// Whether octets are options.
fn are_options<R: AsOctets + Copy>(octets: R) -> bool
    ensures { IsTrue result ↔ AreOptions (R.content octets) }
{
    let mut parser = Parser::from_ref(octets);
    match Repeated::<Of<EdnsOption<R>>>::parse(&mut parser) {
        Ok(_walk) => true,
        Err(_) => false,
    }
}

/// Begins a message with one question and one additional record with its header.
fn edns_front(id: u16, flags: u16) -> Array<FRONT_MAX>
    ensures content { result.content ≡ edns_header id flags }
    ensures len { length result.content ≡ 12 }
{
    let mut made = Array::new();
    push_u16(&mut made, id);
    push_u16(&mut made, flags);
    push_u16(&mut made, 1);
    push_u16(&mut made, 0);
    push_u16(&mut made, 0);
    push_u16(&mut made, 1);
    made
}

/// Appends a question.
fn push_question(made: &mut Array<FRONT_MAX>, name: &Name<Array<255>>, qtype: u16, qclass: u16)
    requires { length made.old.content ≡ 12 }
    ensures content { made.new.content
        ≡ made.old.content ++ question_octets (owned_labels name.now) qtype qclass }
    ensures len { length made.new.content ≤ 271 }
{
    push(made, wire_of(name));
    push_u16(made, qtype);
    push_u16(made, qclass);
}

/// Appends the octets of an OPT record up to the length of its data.
fn push_opt_head(made: &mut Array<FRONT_MAX>, payload: u16, flags: u16, len: u16)
    requires { length made.old.content ≤ 271 }
    ensures content { made.new.content ≡ made.old.content ++ opt_head payload flags len }
    ensures len { length made.new.content ≡ length made.old.content + 11 }
{
    push(made, &[0]);
    push_u16(made, OPT);
    push_u16(made, payload);
    push_u16(made, 0);
    push_u16(made, flags);
    push_u16(made, len);
}
