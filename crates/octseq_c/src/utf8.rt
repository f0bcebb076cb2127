//! UTF-8: the Unicode Standard, 3.9.
ghost use Rattle.std.specs.Prelude.{◌≡◌, ◌≢◌, ◌↔◌, ◌<◌, ◌^◌, ◌-◌, ◌⊎◌, ℕ, List, length, IfSome, IfNone};
ghost use Rattle.octseq.specs.Fault.{IsFault};
ghost use Rattle.octseq.specs.Text.{IsWellFormed};
ghost use Rattle.octseq_c.specs.LossyText.{size_reported};
ghost use Rattle.octseq_c.specs.Status.{status_ok, status_fault};

use crate::status::{FAULT, OK};
use octseq::utf8::find_fault;

/// Returns 1 if octets are well-formed UTF-8, otherwise 0.
#[unsafe(no_mangle)]
pub extern "C" fn octseq_is_utf8(octets: &[u8]) -> u32
    ensures well_formed { (result ≡ 1) ↔ IsWellFormed octets.now }
    ensures only { result ≢ 1 → result ≡ 0 }
{
    match find_fault(octets) {
        None => 1,
        Some(_) => 0,
    }
}

/// Finds where octets stop being well-formed UTF-8.
#[unsafe(no_mangle)]
pub extern "C" fn octseq_utf8_fault(
    octets: &[u8],
    valid_up_to: &mut usize,
    error_len: &mut usize,
) -> u32
    ensures well_formed { (result ≡ status_ok) ↔ IsWellFormed octets.now }
    ensures all { result ≡ status_ok → (valid_up_to.new ≡ length octets.now) × (error_len.new ≡ 0) }
    ensures fault { result ≢ status_ok → (result ≡ status_fault)
        × IsFault octets.now (record { place = valid_up_to.new; size = size_reported error_len.new }) }
{
    match find_fault(octets) {
        None => {
            *valid_up_to = octets.len();
            *error_len = 0;
            OK
        }
        Some(fault) => {
            *valid_up_to = fault.valid_up_to();
            *error_len = fault.error_len().unwrap_or(0);
            FAULT
        }
    }
}
