//! Octets from hexadecimal.
use crate::tests::unwrap;
use std::alloc::AllocGlobal;
use std::process::Abort;

/// Returns the value of a digit, or 16.
fn digit(byte: u8) -> u8 {
    match byte {
        b'0'..=b'9' => byte - b'0',
        b'a'..=b'f' => byte - b'a' + 10,
        _ => 16,
    }
}

/// Returns the octets that pairs of digits say. Spaces are skipped.
pub fn octets(rt: &(impl AllocGlobal + Abort), text: &str) -> Vec<u8> {
    let mut octets = Vec::new(rt.alloc());
    let mut high = 16;
    for byte in text.as_bytes() {
        let value = digit(*byte);
        if value < 16 {
            if high < 16 {
                unwrap(rt, octets.push(high * 16 + value));
                high = 16;
            } else {
                high = value;
            }
        }
    }
    octets
}

/// Makes a message: a marker, its length, and the rest, which begins with a type.
pub fn message(rt: &(impl AllocGlobal + Abort), text: &str) -> Vec<u8> {
    let rest = octets(rt, text);
    let mut all = Vec::new(rt.alloc());
    for _ in 0..16 {
        unwrap(rt, all.push(0xFF));
    }
    unwrap(rt, all.extend_from_slice(&rest));
    all
}
