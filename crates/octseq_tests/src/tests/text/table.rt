//! Table 3-7 of the Unicode Standard, chapter 3, as data, and a fault finder that reads it octet by octet.

use std::alloc::{AllocError, Global};

/// The rows of Table 3-7: the ranges of the octets of an encoding, one after another.
pub(super) const ROWS: [&[(u8, u8)]; 9] = [
    &[(0x00, 0x7F)],
    &[(0xC2, 0xDF), (0x80, 0xBF)],
    &[(0xE0, 0xE0), (0xA0, 0xBF), (0x80, 0xBF)],
    &[(0xE1, 0xEC), (0x80, 0xBF), (0x80, 0xBF)],
    &[(0xED, 0xED), (0x80, 0x9F), (0x80, 0xBF)],
    &[(0xEE, 0xEF), (0x80, 0xBF), (0x80, 0xBF)],
    &[(0xF0, 0xF0), (0x90, 0xBF), (0x80, 0xBF), (0x80, 0xBF)],
    &[(0xF1, 0xF3), (0x80, 0xBF), (0x80, 0xBF), (0x80, 0xBF)],
    &[(0xF4, 0xF4), (0x80, 0x8F), (0x80, 0xBF), (0x80, 0xBF)],
];

/// Returns how many octets at the front are in the ranges of the row.
fn fitting(octets: &[u8], row: &[(u8, u8)]) -> usize {
    octets
        .iter()
        .zip(row)
        .take_while(|(octet, range)| range.0 <= **octet && **octet <= range.1)
        .count()
}

/// Returns the position and the length of the first fault, part by part and row by row.
pub(super) fn plain_fault(octets: &[u8]) -> Option<(usize, Option<usize>)> {
    let mut at = 0;
    for _ in octets {
        let rest = &octets[octets.len().min(at)..];
        let mut longest = 0;
        let mut whole = None;
        for row in ROWS {
            let count = fitting(rest, row);
            longest = longest.max(count);
            if count == row.len() {
                whole = Some(count);
            }
        }
        match whole {
            Some(count) => at = at.saturating_add(count),
            None if rest.is_empty() => return None,
            None if longest == 0 => return Some((at, Some(1))),
            None if longest == rest.len() => return Some((at, None)),
            None => return Some((at, Some(longest))),
        }
    }
    None
}

/// Returns the lowest encoding of a row and the highest.
pub(super) fn edges(alloc: Global, row: &[(u8, u8)]) -> Result<(Vec<u8>, Vec<u8>), AllocError> {
    let mut least = Vec::new(alloc);
    let mut greatest = Vec::new(alloc);
    for (low, high) in row {
        least.push(*low)?;
        greatest.push(*high)?;
    }
    Ok((least, greatest))
}
