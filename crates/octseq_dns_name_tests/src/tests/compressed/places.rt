//! The last offset that a pointer can express is 16,383: RFC 1035, 4.1.4.
use crate::tests::compressed::{append, new_composer};
use crate::tests::unwrap;
use octseq::Turns;
use octseq_asserts::assert_equal;
use std::alloc::AllocGlobal;
use std::process::Abort;

/// Writes `a` at an offset, followed by `b.a`, and checks what is there from the second name on.
fn twice(rt: &(impl AllocGlobal + Abort), place: usize, wanted: &[u8]) {
    let mut turns = Turns::new();
    let mut composer = new_composer(rt);
    for _zero in 12..place {
        unwrap(rt, composer.append_slice(b"\x00"));
    }
    append(rt, &mut composer, b"\x01a\x00", &mut turns);
    append(rt, &mut composer, b"\x01b\x01a\x00", &mut turns);
    let end = composer.as_slice().get(place.saturating_add(3)..);
    assert_equal!(rt, end, Some(wanted));
}

#[test]
fn a_pointer_says_16383(rt: HostRuntime) {
    twice(&rt, 16383, b"\x01b\xFF\xFF");
}

#[test]
fn and_no_more(rt: HostRuntime) {
    twice(&rt, 16384, b"\x01b\x01a\x00");
}

#[test]
fn names_differ_by_case(rt: HostRuntime) {
    let mut turns = Turns::new();
    let mut composer = new_composer(&rt);
    append(&rt, &mut composer, b"\x01a\x01C\x00", &mut turns);
    append(&rt, &mut composer, b"\x01a\x01c\x00", &mut turns);
    append(&rt, &mut composer, b"\x01b\x01c\x00", &mut turns);
    assert_equal!(
        &rt,
        composer.as_slice().get(12..),
        Some(b"\x01a\x01C\x00\x01a\x01c\x00\x01b\xC0\x13".as_slice())
    );
}
