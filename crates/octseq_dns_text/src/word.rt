//! The octets that are made of one word.
ghost use Rattle.std.specs.Prelude.{◌≡◌, ◌≤◌, ℕ, List, [], ◌∷◌, length, IsNone, IfSome};
ghost use Rattle.octseq.proofs.WrittenBack.{AreOctets};
ghost use Rattle.octseq_dns_scan.specs.Address.{IsIpv4Word};
ghost use Rattle.octseq_dns_text.specs.Words.{
  IsNumeralWord,
  IsTimeWord,
  IsIpv6,
  IsCountedWord,
  IsStringWord,
  IsSomeHex,
};
ghost use Rattle.octseq_dns_text.specs.Words.{IsSomeBase32hex, IsSalt};

use octseq::builder::infallible;
use octseq::{Array, AsOctets, OctetsBuilder};
use octseq_dns_scan::{
    Base32hexReader, HexReader, STRING_MAX, scan_ipv4, scan_ipv6, scan_string, scan_time, scan_u8,
    scan_u16, scan_u32,
};

/// Returns the octet of a number of 8 bits.
#[tactic(auto, using(octseq::proofs::Written::made_be_1))]
pub(crate) fn u8_octets(word: &[u8]) -> Option<Array<256>>
    ensures some { IfSome result (λ found. IsNumeralWord 1 word.now found.content) }
    ensures none { IsNone result → (octets : List ℕ) → ¬ (IsNumeralWord 1 word.now octets) }
{
    let number = scan_u8(word)?;
    Some(held(&[number]))
}

/// Returns the octets of a number of 16 bits.
#[tactic(auto, using(octseq::proofs::Written::made_be_2))]
pub(crate) fn u16_octets(word: &[u8]) -> Option<Array<256>>
    ensures some { IfSome result (λ found. IsNumeralWord 2 word.now found.content) }
    ensures none { IsNone result → (octets : List ℕ) → ¬ (IsNumeralWord 2 word.now octets) }
{
    let number = scan_u16(word)?;
    Some(held(&number.to_be_bytes()))
}

/// Returns the octets of a number of 32 bits.
#[tactic(auto, using(octseq::proofs::Written::made_be_4))]
pub(crate) fn u32_octets(word: &[u8]) -> Option<Array<256>>
    ensures some { IfSome result (λ found. IsNumeralWord 4 word.now found.content) }
    ensures none { IsNone result → (octets : List ℕ) → ¬ (IsNumeralWord 4 word.now octets) }
{
    let number = scan_u32(word)?;
    Some(held(&number.to_be_bytes()))
}

/// Returns the octets of a time.
#[tactic(auto, using(octseq::proofs::Written::made_be_4))]
pub(crate) fn time_octets(word: &[u8]) -> Option<Array<256>>
    ensures some { IfSome result (λ found. IsTimeWord word.now found.content) }
    ensures none { IsNone result → (octets : List ℕ) → ¬ (IsTimeWord word.now octets) }
{
    let time = scan_time(word)?;
    Some(held(&time.to_be_bytes()))
}

/// Returns the octets of an IPv4 address.
pub(crate) fn ipv4_octets(word: &[u8]) -> Option<Array<256>>
    ensures some { IfSome result (λ found. IsIpv4Word word.now found.content) }
    ensures none { IsNone result → (octets : List ℕ) → ¬ (IsIpv4Word word.now octets) }
{
    let address = scan_ipv4(word)?;
    Some(held(&address))
}

/// Returns the octets of an IPv6 address.
pub(crate) fn ipv6_octets(word: &[u8]) -> Option<Array<256>>
    ensures some { IfSome result (λ found. IsIpv6 word.now found.content) }
    ensures none { IsNone result → (octets : List ℕ) → ¬ (IsIpv6 word.now octets) }
{
    let address = scan_ipv6(word)?;
    Some(held(&address))
}

/// Returns the octets of a character string after their length.
pub(crate) fn string_octets(word: &[u8]) -> Option<Array<256>>
    ensures some { IfSome result (λ found. IsStringWord word.now found.content) }
    ensures none { IsNone result → (octets : List ℕ) → ¬ (IsStringWord word.now octets) }
{
    let mut inside = Array::<255>::new();
    match scan_string(word, Some(STRING_MAX), &mut inside) {
        Ok(()) => Some(counted(inside.as_slice())),
        Err(_) => None,
    }
}

/// Returns the octets of a salt after their length.
pub(crate) fn salt_octets(word: &[u8]) -> Option<Array<256>>
    ensures some { IfSome result (λ found. IsCountedWord IsSalt word.now found.content) }
    ensures none { IsNone result → (octets : List ℕ) → ¬ (IsCountedWord IsSalt word.now octets) }
{
    if word == b"-".as_slice() {
        return Some(counted(&[]));
    }
    let salt = hex_octets(word)?;
    Some(counted(salt.as_slice()))
}

/// Returns the octets of a hashed owner name after their length.
pub(crate) fn hash_octets(word: &[u8]) -> Option<Array<256>>
    ensures some { IfSome result (λ found. IsCountedWord IsSomeBase32hex word.now found.content) }
    ensures none { IsNone result → (octets : List ℕ) → ¬ (IsCountedWord IsSomeBase32hex word.now octets) }
{
    let hash = base32hex_octets(word)?;
    Some(counted(hash.as_slice()))
}

/// Returns one or more octets in hexadecimal, of at most 255.
fn hex_octets(word: &[u8]) -> Option<Array<255>>
    ensures some { IfSome result (λ found. IsSomeHex word.now found.content) }
    ensures none { IsNone result → (octets : List ℕ) → length octets ≤ 255 → ¬ (IsSomeHex word.now octets) }
{
    let mut octets = Array::<255>::new();
    match HexReader::new().feed(word, &mut octets) {
        Ok(reader) => match reader.finish() {
            Ok(()) => some_octets(octets),
            Err(_) => None,
        },
        Err(_) => None,
    }
}

/// Returns one or more octets in base 32, of at most 255.
fn base32hex_octets(word: &[u8]) -> Option<Array<255>>
    ensures some { IfSome result (λ found. IsSomeBase32hex word.now found.content) }
    ensures none { IsNone result → (octets : List ℕ) → length octets ≤ 255 → ¬ (IsSomeBase32hex word.now octets) }
{
    let mut octets = Array::<255>::new();
    match Base32hexReader::new().feed(word, &mut octets) {
        Ok(reader) => match reader.finish() {
            Ok(()) => some_octets(octets),
            Err(_) => None,
        },
        Err(_) => None,
    }
}

/// Returns octets if there are any.
fn some_octets(octets: Array<255>) -> Option<Array<255>>
    ensures some { IfSome result (λ found. (found.content ≡ octets.content) × (1 ≤ length found.content)) }
    ensures none { IsNone result → octets.content ≡ [] }
{
    if octets.is_empty() {
        return None;
    }
    Some(octets)
}

/// Returns octets after their length.
pub(crate) fn counted(octets: &[u8]) -> Array<256>
    requires { length octets.now ≤ 255 }
    ensures { result.content ≡ length octets.now ∷ octets.now }
{
    let mut all = Array::<256>::new();
    infallible(all.append_slice(&[octets.len() as u8]));
    infallible(all.append_slice(octets));
    all
}

/// Returns a copy of octets.
pub(crate) fn held(octets: &[u8]) -> Array<256>
    requires { length octets.now ≤ 256 }
    ensures content { result.content ≡ octets.now }
    ensures octets { AreOctets result.content }
{
    let mut all = Array::<256>::new();
    infallible(all.append_slice(octets));
    all
}
