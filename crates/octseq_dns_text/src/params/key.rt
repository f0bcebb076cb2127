//! The names of keys: RFC 9460, 2.1 and 14.3.2.
ghost use Rattle.std.specs.Prelude.{◌≡◌, ℕ, ◌≤◌, ◌↔◌, List, ◌++◌, length, map, slice_index, codes};
ghost use Rattle.std.specs.Prelude.{IsTrue, IsNone, IfSome};
ghost use Rattle.octseq_dns_text.specs.KeyText.{IsKeyText, IsNumberedKey, key_named};

use octseq_dns_data::svc_params::key::{
    ALPN, ECH, IPV4HINT, IPV6HINT, MANDATORY, NO_DEFAULT_ALPN, PORT,
};
use octseq_dns_scan::scan_u16;

/// Keys by name.
static KEY_NAMES: [(u16, &[u8]); 7] = [
    (MANDATORY, b"mandatory"),
    (ALPN, b"alpn"),
    (NO_DEFAULT_ALPN, b"no-default-alpn"),
    (PORT, b"port"),
    (IPV4HINT, b"ipv4hint"),
    (ECH, b"ech"),
    (IPV6HINT, b"ipv6hint"),
];

/// Reads the name of a key, or `key` and its number.
pub(crate) fn scan_key(name: &[u8]) -> Option<u16>
    ensures some { IfSome result (IsKeyText name.now) }
    ensures none { IsNone result → (key : ℕ) → ¬ IsKeyText name.now key }
{
    match named_key(&KEY_NAMES, name) {
        Some(key) => Some(key),
        None => numbered_key(name),
    }
}

/// Returns the first key with a name.
fn named_key(mut names: &[(u16, &'static [u8])], name: &[u8]) -> Option<u16>
    ensures { result ≡ key_named (map (λ named. (named.0, named.1.now)) names.entry.now) name.now }
{
    while let [named, more @ ..] = names {
        if named.1 == name {
            return Some(named.0);
        }
        names = more;
    }
    None
}

/// Reads `key` and a number up to 65,535, whose first digit is 0 only if there is no other.
fn numbered_key(name: &[u8]) -> Option<u16>
    ensures some { IfSome result (IsNumberedKey name.now) }
    ensures none { IsNone result → (key : ℕ) → ¬ IsNumberedKey name.now key }
{
    let digits = after_word(name)?;
    if has_needless_zero(digits) {
        return None;
    }
    scan_u16(digits)
}

/// Returns what follows `key` in a text.
fn after_word(text: &[u8]) -> Option<&[u8]>
    ensures some { IfSome result (λ rest. text.now ≡ codes "key" ++ rest.now) }
    ensures none { IsNone result → (rest : List ℕ) → ¬ (text.now ≡ codes "key" ++ rest) }
{
    match text {
        [b'k', b'e', b'y', rest @ ..] => Some(rest),
        _ => None,
    }
}

/// Whether digits begin with a 0 and go on.
fn has_needless_zero(digits: &[u8]) -> bool
    ensures { IsTrue result ↔ (2 ≤ length digits.now) × (slice_index digits.now 0 ≡ 48) }
{
    digits.len() > 1 && digits[0] == b'0'
}
