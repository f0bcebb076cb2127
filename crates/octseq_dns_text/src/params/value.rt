//! The values of service parameters, by key: RFC 9460, 7 and 8.
ghost use Rattle.std.specs.Prelude.{◌≡◌, ℕ, List, [], IfOk};
ghost use Rattle.octseq.specs.Refusal.{IsMalformed, read_error};
ghost use Rattle.octseq_dns_text.specs.ParamText.{IsEchText, IsPortText, IsParamValueText};

use crate::params::addresses::{scan_ipv4_hints, scan_ipv6_hints};
use crate::params::ids::scan_ids;
use crate::params::mandatory::scan_mandatory;
use octseq::compose::append_u16_be;
use octseq::{ReadError, WriteError};
use octseq_dns_data::svc_params::key::{
    ALPN, ECH, IPV4HINT, IPV6HINT, MANDATORY, NO_DEFAULT_ALPN, PORT,
};
use octseq_dns_scan::{Base64Reader, scan_u16};
use std::alloc::Global;

/// Reads a value as its key says, from what the text says of it.
pub(crate) fn scan_value(alloc: Global, key: u16, said: Vec<u8>) -> Result<Vec<u8>, ReadError>
    ensures ok { IfOk result (λ value. IsParamValueText key said.items value.items) }
    ensures malformed { IsMalformed read_error result → (value : List ℕ) → ¬ (IsParamValueText key said.items value) }
{
    match key {
        MANDATORY => scan_mandatory(alloc, said.as_slice()),
        ALPN => scan_ids(alloc, said.as_slice()),
        NO_DEFAULT_ALPN => scan_nothing(said),
        PORT => scan_port(alloc, said.as_slice()),
        IPV4HINT => scan_ipv4_hints(alloc, said.as_slice()),
        ECH => scan_ech(alloc, said.as_slice()),
        IPV6HINT => scan_ipv6_hints(alloc, said.as_slice()),
        _ => Ok(said),
    }
}

/// Reads no octets.
fn scan_nothing(said: Vec<u8>) -> Result<Vec<u8>, ReadError>
    ensures ok { IfOk result (λ value. (said.items ≡ []) × (value.items ≡ [])) }
    ensures malformed { IsMalformed read_error result → (value : List ℕ) → ¬ ((said.items ≡ []) × (value ≡ [])) }
{
    if !said.is_empty() {
        return Err(ReadError::Malformed);
    }
    Ok(said)
}

/// Reads a port: a number up to 65,535.
fn scan_port(alloc: Global, said: &[u8]) -> Result<Vec<u8>, ReadError>
    ensures ok { IfOk result (λ value. IsPortText said.now value.items) }
    ensures malformed { IsMalformed read_error result → (value : List ℕ) → ¬ (IsPortText said.now value) }
{
    let Some(port) = scan_u16(said) else {
        return Err(ReadError::Malformed);
    };
    let mut value = Vec::new(alloc);
    match append_u16_be(&mut value, port) {
        Ok(()) => Ok(value),
        Err(_) => Err(ReadError::Memory),
    }
}

/// Reads octets in base 64.
fn scan_ech(alloc: Global, said: &[u8]) -> Result<Vec<u8>, ReadError>
    ensures ok { IfOk result (λ value. IsEchText said.now value.items) }
    ensures malformed { IsMalformed read_error result → (value : List ℕ) → ¬ (IsEchText said.now value) }
{
    let mut value = Vec::new(alloc);
    match Base64Reader::new().feed(said, &mut value) {
        Ok(reader) => match reader.finish() {
            Ok(()) => Ok(value),
            Err(_) => Err(ReadError::Malformed),
        },
        Err(WriteError::Malformed) => Err(ReadError::Malformed),
        Err(_) => Err(ReadError::Memory),
    }
}
