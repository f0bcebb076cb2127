//! The data of DNS records, by type.
ghost use Rattle.std.specs.Prelude.{◌≡◌, ◌≢◌, ◌↔◌, ◌⊎◌, ◌+◌, ◌≤◌, ◌<◌, ℕ, List, length, IfSome, IfNone};
ghost use Rattle.octseq.specs.Text.{IsWellFormed};
ghost use Rattle.octseq.specs.Parser.{window};
ghost use Rattle.octseq.specs.Window.{at, nested, whole};
ghost use Rattle.octseq_dns.specs.Data.{ParsedRdata};
ghost use Rattle.octseq_dns.specs.Typed.{rdata_of};
ghost use Rattle.octseq_c.specs.Puts.{Puts};
ghost use Rattle.octseq_c.specs.Status.{status_ok, status_no_room, status_malformed, status_unshown};
ghost use Rattle.octseq_c.specs.Texts.{IsDataAt, IsDataTextAt, IsTypedAt};

use crate::shown::show;
use crate::status::MALFORMED;
use octseq::{Parser, Turns};
use octseq_dns::{Class, Data, Rtype};

/// Returns 1 if data has the form of its type and class, otherwise 0.
#[unsafe(no_mangle)]
pub extern "C" fn octseq_dns_data_is_typed(
    octets: &[u8],
    data_at: usize,
    data_len: usize,
    rtype: u16,
    class: u16,
) -> u32
    ensures typed { (result ≡ 1)
        ↔ ((rdata : ParsedRdata) × IsTypedAt octets.now data_at data_len rtype class rdata) }
    ensures only { result ≢ 1 → result ≡ 0 }
{
    let Some((message, inside)) = place_of(octets, data_at, data_len) else {
        return 0;
    };
    let (rtype, class) = (Rtype::from_int(rtype), Class::from_int(class));
    match Data::parse(message, inside, rtype, class, &mut Turns::new()) {
        Ok(_) => 1,
        Err(_) => 0,
    }
}

/// Writes the text of data to the front of `out`.
#[unsafe(no_mangle)]
pub extern "C" fn octseq_dns_data_text(
    octets: &[u8],
    data_at: usize,
    data_len: usize,
    rtype: u16,
    class: u16,
    out: &mut [u8],
    written: &mut usize,
) -> u32
    ensures puts { Puts (IsDataTextAt octets.now data_at data_len rtype class) result out.old out.new written.new }
    ensures malformed { (result ≡ status_malformed) ↔ (length octets.now < data_at + data_len) }
    ensures only { (result ≡ status_ok) ⊎ (result ≡ status_no_room) ⊎ (result ≡ status_malformed)
        ⊎ (result ≡ status_unshown) }
    ensures utf8 { result ≡ status_ok → (text : List ℕ)
        → IsDataTextAt octets.now data_at data_len rtype class text → IsWellFormed text }
    ensures kept { result ≢ status_ok → result ≢ status_unshown → out.new ≡ out.old }
{
    match data_of(octets, data_at, data_len, rtype, class) {
        Some(found) => show(&found, out, written),
        None => {
            *written = 0;
            MALFORMED
        }
    }
}

/// Reads the data at an offset of the octets.
pub fn data_of(
    octets: &[u8],
    data_at: usize,
    data_len: usize,
    rtype: u16,
    class: u16,
) -> Option<Data<&[u8]>>
    ensures some { IfSome result (λ found. IsDataAt octets.now data_at data_len rtype class (rdata_of found)) }
    ensures none { IfNone result (length octets.now < data_at + data_len) }
{
    let (message, inside) = place_of(octets, data_at, data_len)?;
    let (rtype, class) = (Rtype::from_int(rtype), Class::from_int(class));
    match Data::parse(message, inside, rtype, class, &mut Turns::new()) {
        Ok(found) => Some(found),
        Err(_) => Some(Data::Unknown(rtype, inside)),
    }
}

/// Returns a parser of the octets at an offset, and one of the `len` octets there alone.
pub fn place_of(octets: &[u8], offset: usize, len: usize) -> Option<(Parser<&[u8]>, Parser<&[u8]>)>
    ensures some { IfSome result (λ found. (offset + len ≤ length octets.now)
        × (window found.0 ≡ at offset (whole octets.now))
        × (window found.1 ≡ nested len (at offset (whole octets.now)))) }
    ensures none { IfNone result (length octets.now < offset + len) }
{
    let mut message = Parser::from_ref(octets);
    message.seek(offset).ok()?;
    let mut ahead = message;
    let inside = ahead.parse_parser(len).ok()?;
    Some((message, inside))
}
