//! Lists of protocol ids: RFC 9460, 7.1.1 and A.1.
ghost use Rattle.std.specs.Prelude.{◌≡◌, ℕ, ◌^◌, ◌<◌, ◌≤◌, ◌↔◌, List, ◌∷◌, ◌++◌, length, true, false};
ghost use Rattle.std.specs.Prelude.{IsTrue, IsNone, IfSome, IfOk};
ghost use Rattle.octseq.specs.Refusal.{IsMalformed, read_error};
ghost use Rattle.octseq_dns_data.specs.SvcParamsText.{is_listed_quoted, listed_octet};
ghost use Rattle.octseq_dns_text.specs.IdsText.{IsIdsText, IsStuck, listed_id};

use octseq::ReadError;
use octseq::compose::append_part_u8;
use std::alloc::{AllocError, Global};

/// Reads protocol ids with commas between them. A comma and a backslash in an id come after a backslash.
pub(crate) fn scan_ids(alloc: Global, said: &[u8]) -> Result<Vec<u8>, ReadError>
    ensures ok { IfOk result (λ value. IsIdsText said.now value.items) }
    ensures malformed { IsMalformed read_error result → (value : List ℕ) → ¬ IsIdsText said.now value }
{
    let mut value = Vec::new(alloc);
    let mut list = said;
    'ids: loop {
        let Ok((id, rest)) = split_id(alloc, list) else {
            return Err(ReadError::Memory);
        };
        if !is_id(id.as_slice()) {
            return Err(ReadError::Malformed);
        }
        if append_part_u8(&mut value, id.as_slice()).is_err() {
            return Err(ReadError::Memory);
        }
        let Some((first, next)) = rest.split_first() else {
            return Ok(value);
        };
        if *first != b',' {
            return Err(ReadError::Malformed);
        }
        list = next;
    }
}

/// Whether octets are a protocol id: from 1 to 255 octets.
fn is_id(octets: &[u8]) -> bool
    ensures { IsTrue result ↔ (1 ≤ length octets.now) × (length octets.now < 2 ^ 8) }
{
    !octets.is_empty() && octets.len() < 256
}

/// Returns the octets of the id at the front of a list, and what follows it.
fn split_id(alloc: Global, list: &[u8]) -> Result<(Vec<u8>, &[u8]), AllocError>
    ensures { IfOk result (λ parts. (list.now ≡ listed_id parts.0.items ++ parts.1.now) × IsStuck parts.1.now) }
{
    let mut id = Vec::new(alloc);
    let mut ahead = list;
    'octets: while let Some((octet, rest)) = next_octet(ahead) {
        if id.push(octet).is_err() {
            return Err(AllocError);
        }
        ahead = rest;
    }
    Ok((id, ahead))
}

/// Takes an octet of an id from the front of a list.
fn next_octet(list: &[u8]) -> Option<(u8, &[u8])>
    ensures some { IfSome result (λ taken. list.now ≡ listed_octet taken.0 ++ taken.1.now) }
    ensures none { IsNone result → IsStuck list.now }
{
    let (first, rest) = list.split_first()?;
    if !needs_backslash(*first) {
        return Some((*first, rest));
    }
    if *first != b'\\' {
        return None;
    }
    next_quoted(rest)
}

/// Takes what comes after a backslash from the front of a list.
fn next_quoted(list: &[u8]) -> Option<(u8, &[u8])>
    ensures some { IfSome result (λ taken. (list.now ≡ taken.0 ∷ taken.1.now)
        × (is_listed_quoted taken.0 ≡ true)) }
    ensures none { IsNone result → (octet : ℕ) (rest : List ℕ) → list.now ≡ octet ∷ rest
        → is_listed_quoted octet ≡ false }
{
    let (octet, rest) = list.split_first()?;
    if !needs_backslash(*octet) {
        return None;
    }
    Some((*octet, rest))
}

/// Whether an octet of an id comes after a backslash.
fn needs_backslash(octet: u8) -> bool
    ensures { result ≡ is_listed_quoted octet }
{
    matches!(octet, b'\\' | b',')
}
