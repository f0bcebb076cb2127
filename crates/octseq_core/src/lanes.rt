//! A few octets appended to a vector.
//!
//! std's `extend_from_slice` is a call of the C library's copy, after a test whether the two places overlap. For a few
//! octets that takes longer than the copy. Here their two ends are loaded first, and appended as one array, whose size
//! is known and which overlaps nothing. What is too much is cut off.
ghost use Rattle.std.specs.Prelude.{◌≡◌, ◌+◌, ◌-◌, ◌<◌, ◌≤◌, ◌++◌, length, take, drop};
ghost use Rattle.std.specs.Vec.{vec_len, vec_capacity};

/// The size of a lane in octets.
pub(crate) const LANE: usize = 16;

/// Appends at most a lane of octets, if there is room for a whole one.
#[inline(always)]
pub(crate) fn append_lane(vec: &mut Vec<u8>, octets: &[u8])
    requires few { length octets.now ≤ 16 }
    requires room { vec_len vec.old + 16 ≤ vec_capacity vec.old }
    ensures { vec.new.items ≡ vec.old.items ++ octets.now }
{
    let len = octets.len();
    if len >= 8 {
        let a = first_octets::<8>(octets);
        let b = without_first_of_eight(last_octets::<8>(octets), 16 - len);
        let lane = [
            a[0], a[1], a[2], a[3], a[4], a[5], a[6], a[7], b[0], b[1], b[2], b[3], b[4], b[5],
            b[6], b[7],
        ];
        append_first(vec, lane, len);
    } else if len >= 4 {
        let a = first_octets::<4>(octets);
        let b = without_first_of_four(last_octets::<4>(octets), 8 - len);
        append_first(vec, [a[0], a[1], a[2], a[3], b[0], b[1], b[2], b[3]], len);
    } else if len > 0 {
        append_first(vec, [octets[0], octets[len / 2], octets[len - 1], 0], len);
    }
}

/// Appends one to two lanes of octets, if there is room for two.
#[inline(always)]
pub(crate) fn append_two_lanes(vec: &mut Vec<u8>, octets: &[u8])
    requires some { 16 ≤ length octets.now }
    requires few { length octets.now ≤ 32 }
    requires room { vec_len vec.old + 32 ≤ vec_capacity vec.old }
    ensures { vec.new.items ≡ vec.old.items ++ octets.now }
{
    append_first(vec, first_octets::<16>(octets), octets.len() - 16);
    append_first(vec, last_octets::<16>(octets), 16);
}

/// Appends the first `len` octets of an array, if there is room for all of it.
#[inline(always)]
fn append_first<const N: usize>(vec: &mut Vec<u8>, octets: [u8; N], len: usize)
    requires few { len ≤ N }
    requires room { vec_len vec.old + N ≤ vec_capacity vec.old }
    ensures items { vec.new.items ≡ vec.old.items ++ take len octets.entry }
    ensures capacity { vec_capacity vec.old ≤ vec_capacity vec.new }
{
    let end = vec.len() + len;
    match vec.extend_from_slice(&octets[..]) {
        Ok(()) => vec.truncate(end),
        Err(_) => unreachable!(),
    }
}

/// The first octets.
#[inline(always)]
fn first_octets<const N: usize>(octets: &[u8]) -> [u8; N]
    requires { (N ≤ 16) × (N ≤ length octets.now) }
    ensures { result ≡ take N octets.now }
{
    match octets.first_chunk::<N>() {
        Some(first) => *first,
        None => unreachable!(),
    }
}

/// The last octets.
#[inline(always)]
fn last_octets<const N: usize>(octets: &[u8]) -> [u8; N]
    requires { (N ≤ 16) × (N ≤ length octets.now) }
    ensures { result ≡ drop (length octets.now - N) octets.now }
{
    match octets.last_chunk::<N>() {
        Some(last) => *last,
        None => unreachable!(),
    }
}

/// The octets after the first `count`, followed by others.
#[inline(always)]
fn without_first_of_eight(octets: [u8; 8], count: usize) -> [u8; 8]
    requires { count ≤ 8 }
    ensures { take (8 - count) result ≡ drop count octets }
{
    let rest = match u64::from_le_bytes(octets).checked_shr(8 * count as u32) {
        Some(rest) => rest,
        None => 0,
    };
    rest.to_le_bytes()
}

/// The octets after the first `count`, followed by others.
#[inline(always)]
fn without_first_of_four(octets: [u8; 4], count: usize) -> [u8; 4]
    requires { count ≤ 4 }
    ensures { take (4 - count) result ≡ drop count octets }
{
    let rest = match u32::from_le_bytes(octets).checked_shr(8 * count as u32) {
        Some(rest) => rest,
        None => 0,
    };
    rest.to_le_bytes()
}
