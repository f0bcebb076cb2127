//! Addresses, as words of text.
ghost use Rattle.std.specs.Prelude.{◌≡◌, ℕ, List, length, IfSome, IfNone};
ghost use Rattle.std.specs.Net.Text.{ipv4_text};
ghost use Rattle.octseq.proofs.WrittenBack.{AreOctets};
ghost use Rattle.octseq.specs.OctetsText.{ipv6_address_text};
ghost use Rattle.octseq_dns_scan.specs.Address.{IsIpv4Word, IsIpv6Word};

use std::net::{Ipv4Addr, Ipv6Addr};

/// Reads a word as an IPv4 address: four decimal numbers below 256 without leading zeros, with full stops between them
/// (RFC 1035, 3.4.1). std's `Ipv4Addr` reads the same texts.
pub fn scan_ipv4(word: &[u8]) -> Option<[u8; 4]>
    ensures some { IfSome result (λ octets. IsIpv4Word word.now octets) }
    ensures none { IfNone result ((octets : List ℕ) → ¬ (IsIpv4Word word.now octets)) }
{
    match Ipv4Addr::parse_ascii(word) {
        Ok(address) => Some(address.octets()),
        Err(_) => None,
    }
}

/// Reads a word as an IPv6 address, in each form of RFC 4291, 2.2. std's `Ipv6Addr` reads the same texts.
pub fn scan_ipv6(word: &[u8]) -> Option<[u8; 16]>
    ensures some { IfSome result (λ octets. IsIpv6Word word.now octets) }
    ensures none { IfNone result ((octets : List ℕ) → ¬ (IsIpv6Word word.now octets)) }
{
    match Ipv6Addr::parse_ascii(word) {
        Ok(address) => Some(address.octets()),
        Err(_) => None,
    }
}

/// A word is at most one IPv4 address.
///
/// It does nothing. Calling it brings the law into the caller's proof.
pub fn one_ipv4_of_a_word()
    ensures { (word octets other : List ℕ) → IsIpv4Word word octets → IsIpv4Word word other → octets ≡ other }
{}

/// The text that is written of an IPv4 address is a word of it, so it is read back as that address.
///
/// It does nothing. Calling it brings the law into the caller's proof.
pub fn ipv4_text_is_a_word()
    ensures { (octets : List ℕ) → AreOctets octets → length octets ≡ 4 → IsIpv4Word (ipv4_text octets) octets }
{}

/// A word is at most one IPv6 address.
///
/// It does nothing. Calling it brings the law into the caller's proof.
pub fn one_ipv6_of_a_word()
    ensures { (word octets other : List ℕ) → AreOctets octets → length octets ≡ 16 → AreOctets other
        → length other ≡ 16 → IsIpv6Word word octets → IsIpv6Word word other → octets ≡ other }
{}

/// The text that is written of an IPv6 address is a word of it, so it is read back as that address.
///
/// It does nothing. Calling it brings the law into the caller's proof.
pub fn ipv6_text_is_a_word()
    ensures { (octets : List ℕ) → AreOctets octets → length octets ≡ 16
        → IsIpv6Word (ipv6_address_text octets) octets }
{}
