//! Lists of keys: RFC 9460, 8.
ghost use Rattle.std.specs.Prelude.{◌≡◌, ◌⊎◌, ℕ, ◌^◌, ◌<◌, ◌≤◌, List, ◌∷◌, IfOk, OnOk};
ghost use Rattle.std.specs.List.{Contains, flat_map};
ghost use Rattle.std.specs.List.Sorted.{IsPermutation, IsStrictlyIncreasing};
ghost use Rattle.octseq.specs.Integer.{octets_be};
ghost use Rattle.octseq.specs.Refusal.{IsMalformed, read_error};
ghost use Rattle.octseq_dns_text.specs.KeyText.{IsKeyText};
ghost use Rattle.octseq_dns_text.specs.ParamText.{IsMandatoryText};
ghost use Rattle.octseq_dns_text.specs.Reading.{AreReadKeys};

use crate::params::key::scan_key;
use crate::params::split::split_first;
use octseq::ReadError;
use octseq::compose::append_u16_be;
use octseq_dns_data::svc_params::key::MANDATORY;
use std::alloc::{AllocError, Global};
use std::collections::BTreeSet;

/// Reads the names of keys with commas between them, in any order, each key once.
pub(crate) fn scan_mandatory(alloc: Global, said: &[u8]) -> Result<Vec<u8>, ReadError>
    ensures ok { IfOk result (λ value. IsMandatoryText said.now value.items) }
    ensures malformed { IsMalformed read_error result → (value : List ℕ) → ¬ IsMandatoryText said.now value }
{
    let keys = match read_keys(alloc, said) {
        Ok(keys) => keys,
        Err(error) => return Err(error),
    };
    match keys_octets(alloc, &keys) {
        Ok(value) => Ok(value),
        Err(_) => Err(ReadError::Memory),
    }
}

/// Reads the names of keys with commas between them.
fn read_keys(alloc: Global, said: &[u8]) -> Result<BTreeSet<u16>, ReadError>
    ensures ok { IfOk result (λ set. AreReadKeys said.now set.keys) }
    ensures malformed { IsMalformed read_error result → (value : List ℕ) → ¬ IsMandatoryText said.now value }
{
    let mut set = BTreeSet::new(alloc);
    let mut list = said;
    'keys: loop {
        let (name, rest) = split_first(list, b',');
        if let Err(error) = put_key(name, &mut set) {
            return Err(error);
        }
        let Some(next) = rest else {
            return Ok(set);
        };
        list = next;
    }
}

/// Reads the name of a key, and puts the key among the others. It is not 0, and not there yet.
fn put_key(name: &[u8], set: &mut BTreeSet<u16>) -> Result<(), ReadError>
    ensures ok { OnOk result ((key : ℕ) × IsKeyText name.now key × (1 ≤ key) × (key < 2 ^ 16)
        × IsPermutation (key ∷ set.old.keys) set.new.keys × IsStrictlyIncreasing set.new.keys) }
    ensures malformed { IsMalformed read_error result → (key : ℕ) → IsKeyText name.now key
        → (key ≡ 0) ⊎ Contains set.old.keys key }
{
    let Some(key) = scan_key(name) else {
        return Err(ReadError::Malformed);
    };
    if key == MANDATORY {
        return Err(ReadError::Malformed);
    }
    match set.insert(key) {
        Ok(true) => Ok(()),
        Ok(false) => Err(ReadError::Malformed),
        Err(_) => Err(ReadError::Memory),
    }
}

/// Returns the octets of keys, 2 for each, in ascending order.
fn keys_octets(alloc: Global, set: &BTreeSet<u16>) -> Result<Vec<u8>, AllocError>
    ensures { IfOk result (λ octets. octets.items ≡ flat_map (octets_be 2) set.now.keys) }
{
    let mut octets = Vec::new(alloc);
    for key in set {
        if append_u16_be(&mut octets, *key).is_err() {
            return Err(AllocError);
        }
    }
    Ok(octets)
}
