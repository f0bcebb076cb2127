//! The fault finder compared with a plain one, which reads the table octet by octet, without lanes and words.
use super::lossy;
use super::table::{ROWS, edges, plain_fault};
use crate::tests::unwrap;
use octseq::utf8::{Turns, first_fault};
use octseq_asserts::assert_equal;
use std::alloc::Global;
use std::process::Abort;

/// Checks that both find the same.
fn agrees(rt: &impl Abort, octets: &[u8]) {
    let found = first_fault(octets, &mut Turns::new());
    let found = found.map(|fault| (fault.valid_up_to(), fault.error_len()));
    assert_eq!(rt; found, plain_fault(octets), "{octets:?}");
}

/// Checks an encoding after this many octets of ASCII, with others after it: whole, truncated at each place, and
/// truncated with another octet after it.
fn agrees_around(rt: &impl Abort, alloc: Global, before: usize, encoding: &[u8]) {
    for after in [0, 1, 20] {
        for len in 0..=encoding.len() {
            let mut octets = unwrap(rt, Vec::from_elem(alloc, b'a', before));
            unwrap(rt, octets.extend_from_slice(&encoding[..len]));
            agrees(rt, octets.as_slice());
            unwrap(
                rt,
                octets.extend_from_slice(unwrap(rt, Vec::from_elem(alloc, b'z', after)).as_slice()),
            );
            agrees(rt, octets.as_slice());
            unwrap(rt, octets.push(0x80));
            agrees(rt, octets.as_slice());
        }
    }
}

#[test]
fn each_row_is_found_as_by_the_table(rt: HostRuntime) {
    for row in ROWS {
        for before in [0, 1, 3, 12, 13, 15, 16, 17, 31, 33] {
            let (least, greatest) = unwrap(&rt, edges(rt.alloc(), row));
            agrees_around(&rt, rt.alloc(), before, least.as_slice());
            agrees_around(&rt, rt.alloc(), before, greatest.as_slice());
        }
    }
}

#[test]
fn each_octet_out_of_its_range_is_found_as_by_the_table(rt: HostRuntime) {
    for row in ROWS {
        for wrong in 0..row.len() {
            let mut below = Vec::new(rt.alloc());
            let mut above = Vec::new(rt.alloc());
            for (place, (low, high)) in row.iter().enumerate() {
                let is_wrong = place == wrong;
                unwrap(
                    &rt,
                    below.push(if is_wrong { low.wrapping_sub(1) } else { *low }),
                );
                unwrap(
                    &rt,
                    above.push(if is_wrong {
                        high.wrapping_add(1)
                    } else {
                        *high
                    }),
                );
            }
            for before in [0, 13, 16] {
                agrees_around(&rt, rt.alloc(), before, below.as_slice());
                agrees_around(&rt, rt.alloc(), before, above.as_slice());
            }
        }
    }
}

/// Returns octets of ASCII, some of which are replaced from an index on.
fn ascii_with(rt: &impl Abort, alloc: Global, len: usize, place: usize, others: &[u8]) -> Vec<u8> {
    let mut octets = unwrap(rt, Vec::from_elem(alloc, b'a', len));
    for (octet, other) in octets.as_mut_slice().iter_mut().skip(place).zip(others) {
        *octet = *other;
    }
    octets
}

/// Returns the position and the length of the first fault in 48 octets of ASCII, some of which are replaced from an
/// index on.
fn fault_within(
    rt: &impl Abort,
    alloc: Global,
    place: usize,
    others: &[u8],
) -> Option<(usize, Option<usize>)> {
    let octets = ascii_with(rt, alloc, 48, place, others);
    let fault = first_fault(octets.as_slice(), &mut Turns::new());
    fault.map(|fault| (fault.valid_up_to(), fault.error_len()))
}

/// Checks that a lane of ASCII has no fault.
fn is_passed(rt: &impl Abort, alloc: Global, len: usize) {
    let octets = ascii_with(rt, alloc, len, 0, b"");
    assert_equal!(rt, first_fault(octets.as_slice(), &mut Turns::new()), None);
}

/// Returns the length of the lossy text of octets with one invalid octet at an index.
fn lossy_length(rt: &impl Abort, alloc: Global, place: usize) -> usize {
    let octets = ascii_with(rt, alloc, 48, place, b"\xFF");
    lossy(rt, alloc, octets.as_slice()).len()
}

#[test]
fn lanes_are_passed_and_faults_within_them_found(rt: HostRuntime) {
    let alloc = rt.alloc();
    for len in [0, 15, 16, 17, 31, 32, 48] {
        is_passed(&rt, alloc, len);
    }
    for place in 0..48 {
        let fault = fault_within(&rt, alloc, place, b"\xFF");
        assert_equal!(&rt, fault, Some((place, Some(1))));
        assert_equal!(&rt, lossy_length(&rt, alloc, place), 50);
    }
    assert_equal!(&rt, fault_within(&rt, alloc, 15, b"\xC3\xA9"), None);
    for (place, cut) in [(47, b"\xC3".as_slice()), (46, b"\xE2\x82")] {
        assert_equal!(
            &rt,
            fault_within(&rt, alloc, place, cut),
            Some((place, None))
        );
    }
}
