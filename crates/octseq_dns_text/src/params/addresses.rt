//! Lists of addresses: RFC 9460, 7.3.
ghost use Rattle.std.specs.Prelude.{◌≡◌, ℕ, List, ◌++◌, IfOk, OnOk};
ghost use Rattle.octseq.specs.Refusal.{IsMalformed, read_error};
ghost use Rattle.octseq_dns_scan.specs.Address.{IsIpv4Word, IsIpv6Word};
ghost use Rattle.octseq_dns_text.specs.ParamText.{AreAddressTexts, IsAddressText};

use crate::params::split::split_first;
use octseq::ReadError;
use octseq_dns_scan::{scan_ipv4, scan_ipv6};
use octseq_format::are_octets;
use std::alloc::Global;

/// Reads IPv4 addresses with commas between them.
pub(crate) fn scan_ipv4_hints(alloc: Global, said: &[u8]) -> Result<Vec<u8>, ReadError>
    ensures ok { IfOk result (λ value. AreAddressTexts IsIpv4Word 4 said.now value.items) }
    ensures malformed { IsMalformed read_error result → (value : List ℕ)
        → ¬ AreAddressTexts IsIpv4Word 4 said.now value }
{
    let mut value = Vec::new(alloc);
    let mut list = said;
    'hints: loop {
        let (item, rest) = split_first(list, b',');
        if let Err(error) = append_ipv4(item, &mut value) {
            return Err(error);
        }
        let Some(next) = rest else {
            return Ok(value);
        };
        list = next;
    }
}

/// Reads IPv6 addresses with commas between them.
pub(crate) fn scan_ipv6_hints(alloc: Global, said: &[u8]) -> Result<Vec<u8>, ReadError>
    ensures ok { IfOk result (λ value. AreAddressTexts IsIpv6Word 16 said.now value.items) }
    ensures malformed { IsMalformed read_error result → (value : List ℕ)
        → ¬ AreAddressTexts IsIpv6Word 16 said.now value }
{
    let mut value = Vec::new(alloc);
    let mut list = said;
    'hints: loop {
        let (item, rest) = split_first(list, b',');
        if let Err(error) = append_ipv6(item, &mut value) {
            return Err(error);
        }
        let Some(next) = rest else {
            return Ok(value);
        };
        list = next;
    }
}

/// Reads an item as an IPv4 address, and appends its octets.
fn append_ipv4(item: &[u8], value: &mut Vec<u8>) -> Result<(), ReadError>
    ensures ok { OnOk result ((octets : List ℕ) × IsAddressText IsIpv4Word 4 item.now octets
        × (value.new.items ≡ value.old.items ++ octets)) }
    ensures malformed { IsMalformed read_error result → (octets : List ℕ)
        → ¬ IsAddressText IsIpv4Word 4 item.now octets }
{
    let Some(octets) = scan_ipv4(item) else {
        return Err(ReadError::Malformed);
    };
    are_octets(&octets);
    match value.extend_from_slice(&octets) {
        Ok(()) => Ok(()),
        Err(_) => Err(ReadError::Memory),
    }
}

/// Reads an item as an IPv6 address, and appends its octets.
fn append_ipv6(item: &[u8], value: &mut Vec<u8>) -> Result<(), ReadError>
    ensures ok { OnOk result ((octets : List ℕ) × IsAddressText IsIpv6Word 16 item.now octets
        × (value.new.items ≡ value.old.items ++ octets)) }
    ensures malformed { IsMalformed read_error result → (octets : List ℕ)
        → ¬ IsAddressText IsIpv6Word 16 item.now octets }
{
    let Some(octets) = scan_ipv6(item) else {
        return Err(ReadError::Malformed);
    };
    are_octets(&octets);
    match value.extend_from_slice(&octets) {
        Ok(()) => Ok(()),
        Err(_) => Err(ReadError::Memory),
    }
}
