//! Service parameters: RFC 9460, 2.1 and A.1.
ghost use Rattle.std.specs.Prelude.{◌≡◌, ℕ, ◌+◌, List, ◌∷◌, ◌++◌, true, length, map, option_copied};
ghost use Rattle.std.specs.Prelude.{IsErrOf, IfOk, OnOk};
ghost use Rattle.std.specs.List.{All, Contains, flat_map};
ghost use Rattle.std.specs.List.Sorted.{IsPermutation, IsStrictlyIncreasing};
ghost use Rattle.octseq.specs.Refusal.{IsMalformed, read_error};
ghost use Rattle.octseq.proofs.WrittenBack.{AreOctets};
ghost use Rattle.octseq_dns_data.specs.SvcParams.{IsSvcParams, Param, param_octets, params_of};
ghost use Rattle.octseq_dns_data.specs.SvcParamsText.{param_text};
ghost use Rattle.octseq_dns_scan.specs.Word.{AreWords, IsWord, TakesWord};
ghost use Rattle.octseq_dns_scan.specs.Words.{ahead_of, offset_of};
ghost use Rattle.octseq_dns_text.specs.ParamText.{IsParamText, Says};
ghost use Rattle.octseq_dns_text.specs.ParamsText.{IsParamsText};
ghost use Rattle.octseq_dns_text.specs.Reading.{AreReadParams, params_in};
ghost use Rattle.octseq_dns_text.specs.Scans.{IsWordFault, Scans};
ghost use Rattle.octseq_dns_text.specs.declared.error.ScanError.{ScanError};

mod addresses;
mod ids;
mod key;
mod mandatory;
mod split;
mod value;

use crate::error::ScanError;
use crate::params::key::scan_key;
use crate::params::split::split_first;
use crate::params::value::scan_value;
use octseq::compose::{append_part_u16_be, append_u16_be};
use octseq::{AppendError, OctetsBuilder, ReadError, Truncate};
use octseq_dns_scan::{StringError, Words, scan_string};
use std::alloc::{AllocError, Global};
use std::collections::BTreeMap;

/// The maximum number of octets of a value: RFC 9460, 2.2.
const VALUE_MAX: usize = 65_535;

/// Words are at most one list of parameters.
///
/// It does nothing. Calling it brings the law into the caller's proof.
pub fn words_are_one_list_of_params()
    ensures { (words : List (List ℕ)) (octets other : List ℕ) → IsParamsText words octets → IsParamsText words other
        → octets ≡ other }
{}

/// What is displayed of parameters is read as these parameters, and of each it is a word.
///
/// It does nothing. Calling it brings the law into the caller's proof.
pub fn params_are_read_from_their_text()
    ensures read { (octets : List ℕ) → AreOctets octets → IsSvcParams octets
        → IsParamsText (map param_text (params_of octets)) octets }
    ensures words { (octets : List ℕ) → AreOctets octets → IsSvcParams octets
        → All IsWord (map param_text (params_of octets)) }
{}

/// What words say of parameters has the form of parameters.
///
/// It does nothing. Calling it brings the law into the caller's proof.
pub fn what_is_read_is_svc_params()
    ensures { (words : List (List ℕ)) (octets : List ℕ) → IsParamsText words octets → IsSvcParams octets }
{}

/// Appends the octets of the service parameters that the words are, in any order.
///
/// # Errors
///
/// `Malformed` if a word is no parameter, or has the key of another one. `Short` if the content would exceed the limit
/// of its type, `Memory` if a request for memory was refused. The content is then unchanged.
pub fn scan_params<B: OctetsBuilder + Truncate>(
    alloc: Global,
    words: Words,
    target: &mut B,
) -> Result<(), ScanError>
    ensures scanned { Scans IsParamsText B.limit true result (ahead_of words.entry) (offset_of words.entry)
        (B.content target.old) (B.content target.new) }
    ensures params { OnOk result ((octets : List ℕ) × IsSvcParams octets
        × (B.content target.new ≡ B.content target.old ++ octets)) }
    ensures borrows { B.borrows target.new ≡ B.borrows target.old }
{
    let params = match read_params(alloc, words) {
        Ok(params) => params,
        Err(error) => return Err(error),
    };
    let Ok(octets) = params_octets(alloc, &params) else {
        return Err(ScanError::Memory);
    };
    match target.append_slice(octets.as_slice()) {
        Ok(()) => Ok(()),
        Err(AppendError::Short(_)) => Err(ScanError::Short),
        Err(AppendError::Memory) => Err(ScanError::Memory),
    }
}

/// Reads words as parameters, each key once.
fn read_params(alloc: Global, words: Words) -> Result<BTreeMap<u16, Vec<u8>>, ScanError>
    ensures ok { IfOk result (λ params. (front : List (List ℕ)) × AreWords front (ahead_of words.entry)
        × AreReadParams front (params_in params)) }
    ensures ascending { IfOk result (λ params. IsStrictlyIncreasing (map (λ param. param.0) (params_in params))) }
    ensures fault { (offset : ℕ) → IsErrOf result (ScanError.Malformed offset)
        → IsWordFault IsParamsText (ahead_of words.entry) (offset_of words.entry) offset }
    ensures within { ¬ IsErrOf result ScanError.Short }
{
    let mut params = BTreeMap::new(alloc);
    let mut ahead = words;
    'params: while !ahead.is_at_end() {
        let offset = ahead.offset();
        match next_param(alloc, &mut ahead, &mut params) {
            Ok(()) => {}
            Err(ReadError::Malformed) => return Err(ScanError::Malformed(offset)),
            Err(ReadError::Memory) => return Err(ScanError::Memory),
        }
    }
    Ok(params)
}

/// Takes the next word as a parameter, whose key isn't there yet.
fn next_param(
    alloc: Global,
    words: &mut Words,
    params: &mut BTreeMap<u16, Vec<u8>>,
) -> Result<(), ReadError>
    ensures ok { OnOk result ((word : List ℕ) × (param : Param)
        × TakesWord word (ahead_of words.old) (ahead_of words.new) × IsParamText word param
        × IsPermutation (param ∷ params_in params.old) (params_in params.new)) }
    ensures ascending { OnOk result (IsStrictlyIncreasing (map (λ param. param.0) (params_in params.new))) }
    ensures end { OnOk result (offset_of words.new + length (ahead_of words.new)
        ≡ offset_of words.old + length (ahead_of words.old)) }
    ensures malformed { IsMalformed read_error result → (word rest : List ℕ) (param : Param)
        → TakesWord word (ahead_of words.old) rest → IsParamText word param
        → Contains (map (λ there. there.0) (params_in params.old)) param.0 }
{
    let Some(word) = words.next_word() else {
        return Err(ReadError::Malformed);
    };
    let (key, value) = match scan_param(alloc, word.octets) {
        Ok(param) => param,
        Err(error) => return Err(error),
    };
    match params.insert(key, value) {
        Ok(None) => Ok(()),
        Ok(Some(_)) => Err(ReadError::Malformed),
        Err(_) => Err(ReadError::Memory),
    }
}

/// Reads a word as a parameter: its key, and the octets of its value.
fn scan_param(alloc: Global, word: &[u8]) -> Result<(u16, Vec<u8>), ReadError>
    ensures ok { IfOk result (λ param. IsParamText word.now (param.0, param.1.items)) }
    ensures malformed { IsMalformed read_error result → (param : Param) → ¬ IsParamText word.now param }
{
    let (name, text) = split_first(word, b'=');
    let Some(key) = scan_key(name) else {
        return Err(ReadError::Malformed);
    };
    let said = match scan_said(alloc, text) {
        Ok(said) => said,
        Err(error) => return Err(error),
    };
    let value = match scan_value(alloc, key, said) {
        Ok(value) => value,
        Err(error) => return Err(error),
    };
    if value.len() > VALUE_MAX {
        return Err(ReadError::Malformed);
    }
    Ok((key, value))
}

/// Reads what is said after the `=` of a parameter as a string of any length. Without one it has no octets.
fn scan_said(alloc: Global, text: Option<&[u8]>) -> Result<Vec<u8>, ReadError>
    ensures ok { IfOk result (λ said. Says (option_copied text.entry) said.items) }
    ensures malformed { IsMalformed read_error result → (said : List ℕ) → ¬ Says (option_copied text.entry) said }
{
    let mut said = Vec::new(alloc);
    let Some(text) = text else {
        return Ok(said);
    };
    match scan_string(text, None, &mut said) {
        Ok(()) => Ok(said),
        Err(StringError::Malformed) => Err(ReadError::Malformed),
        Err(_) => Err(ReadError::Memory),
    }
}

/// Returns the octets of parameters: for each its key, and its value after its length.
fn params_octets(alloc: Global, params: &BTreeMap<u16, Vec<u8>>) -> Result<Vec<u8>, AllocError>
    ensures { IfOk result (λ octets. octets.items ≡ flat_map param_octets (params_in params.now)) }
{
    let mut octets = Vec::new(alloc);
    for (key, value) in params {
        if append_param(*key, value.as_slice(), &mut octets).is_err() {
            return Err(AllocError);
        }
    }
    Ok(octets)
}

/// Appends the octets of a parameter.
fn append_param(key: u16, value: &[u8], octets: &mut Vec<u8>) -> Result<(), AllocError>
    ensures { OnOk result (octets.new.items ≡ octets.old.items ++ param_octets (key, value.now)) }
{
    if append_u16_be(octets, key).is_err() {
        return Err(AllocError);
    }
    if append_part_u16_be(octets, value).is_err() {
        return Err(AllocError);
    }
    Ok(())
}
