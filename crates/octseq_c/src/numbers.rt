//! The mnemonics of types and classes: RFC 1035, 3.2, and RFC 3597, 5.
ghost use Rattle.std.specs.Prelude.{◌≡◌, ◌≢◌, ◌↔◌, ◌⊎◌, ℕ, List, IfSome, IfNone};
ghost use Rattle.octseq.specs.Text.{IsWellFormed};
ghost use Rattle.octseq_dns.specs.Mnemonic.{ReadsClass, ReadsRtype, class_text, rtype_text};
ghost use Rattle.octseq_c.specs.Puts.{Puts};
ghost use Rattle.octseq_c.specs.Status.{status_ok, status_no_room, status_malformed, status_unshown};

use crate::shown::show;
use crate::status::{MALFORMED, OK};
use octseq::Str;
use octseq_dns::{Class, Rtype};

/// Writes the mnemonic of a type to the front of `out`.
#[unsafe(no_mangle)]
pub extern "C" fn octseq_dns_rtype_text(rtype: u16, out: &mut [u8], written: &mut usize) -> u32
    ensures puts { Puts (λ made. made ≡ rtype_text rtype) result out.old out.new written.new }
    ensures only { (result ≡ status_ok) ⊎ (result ≡ status_no_room) ⊎ (result ≡ status_unshown) }
    ensures utf8 { result ≡ status_ok → IsWellFormed (rtype_text rtype) }
    ensures kept { result ≡ status_no_room → out.new ≡ out.old }
{
    show(&Rtype::from_int(rtype), out, written)
}

/// Writes the mnemonic of a class to the front of `out`.
#[unsafe(no_mangle)]
pub extern "C" fn octseq_dns_class_text(class: u16, out: &mut [u8], written: &mut usize) -> u32
    ensures puts { Puts (λ made. made ≡ class_text class) result out.old out.new written.new }
    ensures only { (result ≡ status_ok) ⊎ (result ≡ status_no_room) ⊎ (result ≡ status_unshown) }
    ensures utf8 { result ≡ status_ok → IsWellFormed (class_text class) }
    ensures kept { result ≡ status_no_room → out.new ≡ out.old }
{
    show(&Class::from_int(class), out, written)
}

/// Parses the text of a type.
#[unsafe(no_mangle)]
pub extern "C" fn octseq_dns_rtype_from_text(text: &[u8], rtype: &mut u16) -> u32
    ensures ok { result ≡ status_ok → ReadsRtype text.now rtype.new }
    ensures malformed { (result ≡ status_malformed)
        ↔ ((number : ℕ) → IsWellFormed text.now → ¬ ReadsRtype text.now number) }
    ensures only { (result ≡ status_ok) ⊎ ((result ≡ status_malformed) × (rtype.new ≡ 0)) }
{
    match rtype_of(text) {
        Some(number) => {
            *rtype = number;
            OK
        }
        None => {
            *rtype = 0;
            MALFORMED
        }
    }
}

/// Parses the text of a class.
#[unsafe(no_mangle)]
pub extern "C" fn octseq_dns_class_from_text(text: &[u8], class: &mut u16) -> u32
    ensures ok { result ≡ status_ok → ReadsClass text.now class.new }
    ensures malformed { (result ≡ status_malformed)
        ↔ ((number : ℕ) → IsWellFormed text.now → ¬ ReadsClass text.now number) }
    ensures only { (result ≡ status_ok) ⊎ ((result ≡ status_malformed) × (class.new ≡ 0)) }
{
    match class_of(text) {
        Some(number) => {
            *class = number;
            OK
        }
        None => {
            *class = 0;
            MALFORMED
        }
    }
}

/// Returns the number of the type with this text.
fn rtype_of(text: &[u8]) -> Option<u16>
    ensures some { IfSome result (λ number. IsWellFormed text.now × ReadsRtype text.now number) }
    ensures none { IfNone result ((number : ℕ) → IsWellFormed text.now → ¬ ReadsRtype text.now number) }
{
    let text = Str::from_utf8_slice(text).ok()?;
    match text.as_str().parse::<Rtype>() {
        Ok(rtype) => Some(rtype.to_int()),
        Err(_) => None,
    }
}

/// Returns the number of the class with this text.
fn class_of(text: &[u8]) -> Option<u16>
    ensures some { IfSome result (λ number. IsWellFormed text.now × ReadsClass text.now number) }
    ensures none { IfNone result ((number : ℕ) → IsWellFormed text.now → ¬ ReadsClass text.now number) }
{
    let text = Str::from_utf8_slice(text).ok()?;
    match text.as_str().parse::<Class>() {
        Ok(class) => Some(class.to_int()),
        Err(_) => None,
    }
}
