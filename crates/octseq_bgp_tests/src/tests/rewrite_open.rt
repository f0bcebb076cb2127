//! OPENs that are written anew.
use crate::tests::octets::{message, octets};
use crate::tests::{equal, unwrap};
use octseq::{Array, AsOctets, WriteError};
use octseq_asserts::assert_equal;
use octseq_bgp::message::rewrite;
use octseq_bgp::session::SessionConfig;
use std::alloc::AllocGlobal;
use std::process::Abort;

/// Ends the test if a message isn't written anew as these octets.
fn assert_anew(rt: &(impl AllocGlobal + Abort), what: &str, read: &[u8], wanted: &[u8]) {
    let session = SessionConfig::modern();
    let anew = unwrap(rt, rewrite(read, session, Vec::new(rt.alloc())));
    equal(rt, what, anew.as_slice() == wanted, true);
}

/// The same for octets after the marker.
fn assert_texts(rt: &(impl AllocGlobal + Abort), what: &str, read: &str, wanted: &str) {
    assert_anew(rt, what, &message(rt, read), &message(rt, wanted));
}

/// Ends the test if a message isn't written anew as it was.
fn assert_same(rt: &(impl AllocGlobal + Abort), what: &str, read: &str) {
    assert_texts(rt, what, read, read);
}

/// Returns a message of which only the front is given, with zeros up to its end.
fn with_zeros(rt: &(impl AllocGlobal + Abort), text: &str, count: usize) -> Vec<u8> {
    let mut all = message(rt, text);
    for _ in 0..count {
        unwrap(rt, all.push(0));
    }
    all
}

#[test]
fn what_an_open_says_is_kept(rt: HostRuntime) {
    assert_same(&rt, "none", "001d 01 04 fc00 00b4 0a000001 00");
    assert_same(&rt, "version", "001d 01 03 0001 0002 01020304 00");
    let read = "0030 01 04 fc00 00b4 0a000001 13 0206 4104 00011170 0206 0104 00020001 0901 07";
    assert_same(&rt, "parameters", read);
    let read = "0029 01 04 fc00 00b4 0a000001 0c 020a 0200 4506 000101030002";
    assert_same(&rt, "octets that aren't typed", read);
    assert_same(
        &rt,
        "not capabilities",
        "0021 01 04 fc00 00b4 0a000001 04 0202 0201",
    );
}

#[test]
fn a_reserved_octet_is_zero(rt: HostRuntime) {
    assert_texts(
        &rt,
        "address family",
        "0025 01 04 fc00 00b4 0a000001 08 0206 0104 0002ff01",
        "0025 01 04 fc00 00b4 0a000001 08 0206 0104 00020001",
    );
    let read = "0026 01 04 fc00 00b4 0a000001 09 0207 0105 0002ff0100";
    assert_same(&rt, "five octets", read);
    let read = "0025 01 04 fc00 00b4 0a000001 08 0906 0104 0002ff01";
    assert_same(&rt, "a parameter of another type", read);
}

#[test]
fn reserved_bits_of_a_restart_are_zero(rt: HostRuntime) {
    assert_texts(
        &rt,
        "restart",
        "002b 01 04 fc00 00b4 0a000001 0e 020c 400a f078 000101ff 0002017f",
        "002b 01 04 fc00 00b4 0a000001 0e 020c 400a c078 00010180 00020100",
    );
    let read = "0026 01 04 fc00 00b4 0a000001 09 0207 4005 f07800017f";
    assert_same(&rt, "five octets", read);
}

#[test]
fn the_short_form_is_enough(rt: HostRuntime) {
    assert_texts(
        &rt,
        "none",
        "0020 01 04 fc00 00b4 0a000001 ff ff 0000",
        "001d 01 04 fc00 00b4 0a000001 00",
    );
    assert_texts(
        &rt,
        "two",
        "002a 01 04 fc00 00b4 0a000001 ff ff 000a 02 0002 0200 ff 0002 0304",
        "0025 01 04 fc00 00b4 0a000001 08 0202 0200 ff02 0304",
    );
    assert_anew(
        &rt,
        "255 octets",
        &with_zeros(&rt, "0120 01 04 fc00 00b4 0a000001 ff ff 0100 09 00fd", 253),
        &with_zeros(&rt, "011c 01 04 fc00 00b4 0a000001 ff 09 fd", 253),
    );
}

#[test]
fn the_long_form_is_needed(rt: HostRuntime) {
    let read = "0024 01 04 fc00 00b4 0a000001 ff ff 0004 ff 0001 07";
    assert_same(&rt, "the first is of type 255", read);
    let long = with_zeros(&rt, "0121 01 04 fc00 00b4 0a000001 ff ff 0101 09 00fe", 254);
    assert_anew(&rt, "256 octets", &long, &long);
    let long = with_zeros(&rt, "0148 01 04 fc00 00b4 0a000001 ff ff 0128 09 0125", 293);
    assert_anew(&rt, "one of 293 octets", &long, &long);
}

#[test]
fn an_open_anew_fits_or_is_refused(rt: HostRuntime) {
    let session = SessionConfig::modern();
    let read = message(&rt, "0020 01 04 fc00 00b4 0a000001 ff ff 0000");
    let small = rewrite(read.as_slice(), session, Array::<28>::new());
    assert_equal!(&rt, small.err(), Some(WriteError::Short));
    let whole = unwrap(&rt, rewrite(read.as_slice(), session, Array::<29>::new()));
    let wanted = message(&rt, "001d 01 04 fc00 00b4 0a000001 00");
    equal(&rt, "29 octets", whole.as_ref() == wanted.as_slice(), true);
    let cut = octets(&rt, "ffff");
    let refused = rewrite(cut.as_slice(), session, Array::<29>::new());
    assert_equal!(&rt, refused.err(), Some(WriteError::Malformed));
}
