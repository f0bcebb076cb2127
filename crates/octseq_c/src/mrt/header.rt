//! The header of an MRT record as numbers: RFC 6396, 2.
ghost use Rattle.std.specs.Prelude.{◌≡◌, ◌≢◌, ◌↔◌, ◌⊎◌, ◌<◌, ◌≤◌, IfOk, OnErr, length};
ghost use Rattle.octseq_mrt.specs.Records.{BeginsWithRecord};
ghost use Rattle.octseq_c.specs.MrtRows.{HasMrtHeader};
ghost use Rattle.octseq_c.specs.Status.{status_ok, status_malformed};

use crate::status::{MALFORMED, OK};
use octseq::{AsOctets, Malformed, Parser};
use octseq_mrt::CommonHeader;

/// The header of a record.
#[repr(C)]
#[derive(Clone, Copy)]
pub struct MrtHeader {
    /// The number of octets of the whole record, with the 12 of the header.
    pub len: usize,
    /// The time of the record, in seconds since 1970.
    pub timestamp: u32,
    /// The type number.
    pub type_code: u16,
    /// The subtype number.
    pub subtype: u16,
}

/// Reads the header at the front of the octets.
#[unsafe(no_mangle)]
pub extern "C" fn octseq_mrt_record_header(octets: &[u8], header: &mut MrtHeader) -> u32
    ensures ok { result ≡ status_ok → HasMrtHeader octets.now header.new }
    ensures whole { result ≡ status_ok → (header.new.len ≤ length octets.now) ↔ BeginsWithRecord octets.now }
    ensures malformed { (result ≡ status_malformed) ↔ length octets.now < 12 }
    ensures only { (result ≡ status_ok) ⊎ (result ≡ status_malformed) }
    ensures kept { result ≢ status_ok → header.new ≡ header.old }
{
    match header_of(octets) {
        Ok(found) => {
            *header = found;
            OK
        }
        Err(Malformed) => MALFORMED,
    }
}

/// Reads the header at the front of octets.
///
/// # Errors
///
/// `Malformed` if there are fewer than 12 octets.
fn header_of<R: AsOctets + Copy>(octets: R) -> Result<MrtHeader, Malformed>
    ensures header { IfOk result (λ found. HasMrtHeader (R.content octets) found) }
    ensures malformed { OnErr result (length (R.content octets) < 12) }
{
    let mut parser = Parser::from_ref(octets);
    let header = CommonHeader::parse(&mut parser)?;
    Ok(MrtHeader {
        len: CommonHeader::LEN + header.length as usize,
        timestamp: header.timestamp,
        type_code: header.type_code,
        subtype: header.subtype,
    })
}
