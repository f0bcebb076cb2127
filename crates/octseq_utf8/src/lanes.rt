//! Thirty-two octets at once, or sixteen, eight, or four.
ghost use Rattle.std.specs.Prelude.{◌≡◌, ◌+◌, ◌%◌, ◌<◌, ◌≤◌, ◌↔◌, nat_le, true};
ghost use Rattle.std.specs.Prelude.{false, map, length, take, drop, slice_index};
ghost use Rattle.std.specs.List.{All};
ghost use Rattle.std.specs.Simd.Lanes.{mask_l};

use std::simd::prelude::*;

/// A bit for each of the sixteen octets from `at` on, set if it is 80 or more; the first octet has the lowest bit.
#[inline(always)]
fn high_lanes(octets: &[u8], at: usize) -> u64
    requires { at + 16 ≤ length octets.now }
    ensures mask { result ≡ mask_l (map (nat_le 0x80) (take 16 (drop at octets.now))) }
    ensures none { result ≡ 0 ↔ All (λ octet. octet < 0x80) (take 16 (drop at octets.now)) }
{
    u8x16::from_slice(&octets[at..])
        .simd_ge(u8x16::splat(0x80))
        .to_bitmask()
}

/// The number of octets below 80 before the first that isn't, of the sixteen from `at` on, or 16 if all are.
#[inline(always)]
pub(crate) fn ascii_len(octets: &[u8], at: usize) -> usize
    requires { at + 16 ≤ length octets.now }
    ensures few { result ≤ 16 }
    ensures low { All (λ octet. octet < 0x80) (take result (drop at octets.now)) }
    ensures high { result < 16 → 0x80 ≤ slice_index octets.now (at + result) }
{
    let high = high_lanes(octets, at);
    if high == 0 {
        return 16;
    }
    high.trailing_zeros() as usize
}

/// Whether any of the thirty-two octets from `at` on is 80 or more.
#[inline(always)]
pub(crate) fn is_high_in_thirty_two(octets: &[u8], at: usize) -> bool
    requires { at + 32 ≤ length octets.now }
    ensures { result ≡ false → All (λ octet. octet < 0x80) (take 32 (drop at octets.now)) }
{
    u8x32::from_slice(&octets[at..])
        .simd_ge(u8x32::splat(0x80))
        .to_bitmask()
        != 0
}

/// Whether any of the eight octets from `at` on is 80 or more.
#[inline(always)]
fn is_high_in_eight(octets: &[u8], at: usize) -> bool
    requires { at + 8 ≤ length octets.now }
    ensures { result ≡ false → All (λ octet. octet < 0x80) (take 8 (drop at octets.now)) }
{
    u8x8::from_slice(&octets[at..])
        .simd_ge(u8x8::splat(0x80))
        .to_bitmask()
        != 0
}

/// Whether any of the four octets from `at` on is 80 or more.
#[inline(always)]
fn is_high_in_four(octets: &[u8], at: usize) -> bool
    requires { at + 4 ≤ length octets.now }
    ensures { result ≡ false → All (λ octet. octet < 0x80) (take 4 (drop at octets.now)) }
{
    u8x4::from_slice(&octets[at..])
        .simd_ge(u8x4::splat(0x80))
        .to_bitmask()
        != 0
}

/// Whether four to sixteen octets are left from `from` on, and all are below 80. Tests the first and the last eight of
/// them, or four, which overlap.
#[inline(always)]
pub(crate) fn is_short_ascii(octets: &[u8], from: usize) -> bool
    requires { from ≤ length octets.now }
    ensures { result ≡ true → All (λ octet. octet < 0x80) (drop from octets.now) }
{
    let len = octets.len() - from;
    if len < 4 || len > 16 || octets[from] >= 0x80 {
        return false;
    }
    if len < 8 {
        return !is_high_in_four(octets, from) && !is_high_in_four(octets, octets.len() - 4);
    }
    !is_high_in_eight(octets, from) && !is_high_in_eight(octets, octets.len() - 8)
}

/// Whether there are sixteen to thirty-two octets, all below 80. Tests the first and the last sixteen of them, which
/// overlap.
#[inline(always)]
pub(crate) fn is_ascii_of_two_lanes(octets: &[u8]) -> bool
    ensures len { result ≡ true → (16 ≤ length octets.now) × (length octets.now ≤ 32) }
    ensures low { result ≡ true → All (λ octet. octet < 0x80) octets.now }
{
    let len = octets.len();
    if len < 16 || len > 32 || octets[0] >= 0x80 {
        return false;
    }
    high_lanes(octets, 0) == 0 && high_lanes(octets, len - 16) == 0
}
