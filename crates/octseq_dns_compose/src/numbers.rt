//! Types and classes, read from a word.
ghost use Rattle.std.specs.Prelude.{ℕ, IfSome, IsNone};
ghost use Rattle.octseq_dns_data.specs.Mnemonic.{ReadsClass, ReadsRtype};

use octseq_dns_data::{Class, Rtype};
use std::str;

/// Returns the class whose text a word is, in letters of either case.
pub(crate) fn scan_class(word: &[u8]) -> Option<Class>
    ensures some { IfSome result (λ class. ReadsClass word.now class) }
    ensures none { IsNone result → (class : ℕ) → ¬ ReadsClass word.now class }
{
    match str::from_utf8(word) {
        Ok(text) => text.parse().ok(),
        Err(_) => None,
    }
}

/// Returns the type whose text a word is, in letters of either case.
pub(crate) fn scan_rtype(word: &[u8]) -> Option<Rtype>
    ensures some { IfSome result (λ rtype. ReadsRtype word.now rtype) }
    ensures none { IsNone result → (rtype : ℕ) → ¬ ReadsRtype word.now rtype }
{
    match str::from_utf8(word) {
        Ok(text) => text.parse().ok(),
        Err(_) => None,
    }
}
