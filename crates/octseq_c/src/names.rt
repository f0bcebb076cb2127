//! Domain names: RFC 1035, 3.1.
ghost use Rattle.std.specs.Prelude.{◌≡◌, ◌≢◌, ◌↔◌, ◌⊎◌, ◌≤◌, ℕ, pos, List, length, IfOk, OnErr, IfSome, IfNone};
ghost use Rattle.octseq_dns.specs.Owned.{owned_labels};
ghost use Rattle.octseq_dns.specs.Wire.{wire};
ghost use Rattle.octseq.specs.Text.{IsWellFormed};
ghost use Rattle.octseq_dns.specs.Order.{name_cmp};
ghost use Rattle.octseq_dns.specs.Read.{labels_of};
ghost use Rattle.octseq_c.specs.Order.{IsOrder};
ghost use Rattle.octseq_c.specs.Puts.{Puts};
ghost use Rattle.octseq_c.specs.Status.{status_ok, status_no_room, status_malformed, status_unshown};
ghost use Rattle.octseq_c.specs.Texts.{IsNameAt, IsNameText, IsNameWire, IsSpelledWire, SpellsNameText};

use crate::room::put;
use crate::shown::show;
use crate::status::{MALFORMED, OK};
use octseq::builder::infallible;
use octseq::{Array, Parser, Str};
use octseq_dns::name::a_name_has_labels;
use octseq_dns::{DomainName, Malformed, Name, ParsedName};
use octseq_format::Format;
use std::cmp::Ordering;

/// Writes the text of the name at an offset of the octets to the front of `out`.
#[unsafe(no_mangle)]
pub extern "C" fn octseq_dns_name_text(
    octets: &[u8],
    offset: usize,
    out: &mut [u8],
    written: &mut usize,
) -> u32
    ensures puts { Puts (IsNameText octets.now offset) result out.old out.new written.new }
    ensures malformed { (result ≡ status_malformed)
        ↔ ((labels : List (List ℕ)) → ¬ IsNameAt octets.now offset labels) }
    ensures only { (result ≡ status_ok) ⊎ (result ≡ status_no_room) ⊎ (result ≡ status_malformed)
        ⊎ (result ≡ status_unshown) }
    ensures utf8 { result ≡ status_ok → (text : List ℕ) → IsNameText octets.now offset text → IsWellFormed text }
    ensures kept { result ≢ status_ok → result ≢ status_unshown → out.new ≡ out.old }
{
    match name_at(octets, offset) {
        Ok(name) => show(&name, out, written),
        Err(Malformed) => {
            *written = 0;
            MALFORMED
        }
    }
}

/// Writes the wire form of the name at an offset of the octets to the front of `out`.
#[unsafe(no_mangle)]
pub extern "C" fn octseq_dns_name_wire(
    octets: &[u8],
    offset: usize,
    out: &mut [u8],
    written: &mut usize,
) -> u32
    ensures puts { Puts (IsNameWire octets.now offset) result out.old out.new written.new }
    ensures malformed { (result ≡ status_malformed)
        ↔ ((labels : List (List ℕ)) → ¬ IsNameAt octets.now offset labels) }
    ensures only { (result ≡ status_ok) ⊎ (result ≡ status_no_room) ⊎ (result ≡ status_malformed) }
    ensures kept { result ≢ status_ok → out.new ≡ out.old }
{
    match name_at(octets, offset) {
        Ok(name) => put(wire_of(&name).as_slice(), out, written),
        Err(Malformed) => {
            *written = 0;
            MALFORMED
        }
    }
}

/// Parses a name, and writes its wire form to the front of `out`.
#[unsafe(no_mangle)]
pub extern "C" fn octseq_dns_name_from_text(text: &[u8], out: &mut [u8], written: &mut usize) -> u32
    ensures puts { Puts (IsSpelledWire text.now) result out.old out.new written.new }
    ensures malformed { (result ≡ status_malformed) ↔ ((labels : List (List ℕ)) → ¬ SpellsNameText text.now labels) }
    ensures only { (result ≡ status_ok) ⊎ (result ≡ status_no_room) ⊎ (result ≡ status_malformed) }
    ensures kept { result ≢ status_ok → out.new ≡ out.old }
{
    match spelled(text) {
        Some(name) => put(name.as_slice(), out, written),
        None => {
            *written = 0;
            MALFORMED
        }
    }
}

/// Compares the name at one offset with that at another: -1, 0 or 1.
#[unsafe(no_mangle)]
pub extern "C" fn octseq_dns_name_compare(
    one: &[u8],
    one_place: usize,
    other: &[u8],
    other_offset: usize,
    order: &mut i32,
) -> u32
    ensures ok { result ≡ status_ok → (labels others : List (List ℕ)) → IsNameAt one.now one_place labels
        → IsNameAt other.now other_offset others → IsOrder (name_cmp labels others) order.new }
    ensures malformed { (result ≡ status_malformed)
        ↔ ((labels others : List (List ℕ)) → IsNameAt one.now one_place labels
        → ¬ IsNameAt other.now other_offset others) }
    ensures only { (result ≡ status_ok) ⊎ ((result ≡ status_malformed) × (order.new ≡ pos 2)) }
{
    match (name_at(one, one_place), name_at(other, other_offset)) {
        (Ok(name), Ok(other)) => {
            *order = number_of(name.name_cmp(&other));
            OK
        }
        _ => {
            *order = 2;
            MALFORMED
        }
    }
}

/// Returns an order as a number.
fn number_of(order: Ordering) -> i32
    ensures { IsOrder order result }
{
    match order {
        Ordering::Less => -1,
        Ordering::Equal => 0,
        Ordering::Greater => 1,
    }
}

/// Reads the name at an offset of the octets.
pub fn name_at(octets: &[u8], offset: usize) -> Result<ParsedName<&[u8]>, Malformed>
    ensures name { IfOk result (λ name. IsNameAt octets.now offset (labels_of name)) }
    ensures malformed { OnErr result ((labels : List (List ℕ)) → ¬ IsNameAt octets.now offset labels) }
{
    let mut parser = Parser::from_ref(octets);
    match parser.seek(offset) {
        Ok(()) => ParsedName::parse(&mut parser),
        Err(_) => Err(Malformed),
    }
}

/// Returns the wire form of a name.
fn wire_of(name: &ParsedName<&[u8]>) -> Array<255>
    ensures { result.content ≡ wire (labels_of name.now) }
{
    a_name_has_labels(name);
    // A name has at most 255 octets.
    let _len = name.len();
    let mut octets = Array::<255>::new();
    infallible(DomainName::put(&mut octets, name));
    octets
}

/// Parses a name.
pub fn spelled(text: &[u8]) -> Option<Name<Array<255>>>
    ensures some { IfSome result (λ name. SpellsNameText text.now (owned_labels name)) }
    ensures none { IfNone result ((labels : List (List ℕ)) → ¬ SpellsNameText text.now labels) }
{
    let text = Str::from_utf8_slice(text).ok()?;
    match Name::from_text(text.as_str()) {
        Ok(name) => {
            a_name_has_labels(&name.parsed());
            // A name has at most 255 octets.
            let _len = name.len();
            Some(name)
        }
        Err(_) => None,
    }
}
