//! Messages that are written anew.
use crate::tests::octets::{message, octets};
use crate::tests::{equal, unwrap};
use octseq::{Array, AsOctets, WriteError};
use octseq_bgp::message::rewrite;
use octseq_bgp::session::{AddPath, SessionConfig};
use std::alloc::AllocGlobal;
use std::process::Abort;

/// Ends the test if a message isn't rewritten as another. Both are octets after the marker.
fn assert_rewritten(
    rt: &(impl AllocGlobal + Abort),
    session: SessionConfig,
    text: &str,
    wanted: &str,
) {
    let read = message(rt, text);
    let written = rewrite(read.as_slice(), session, Vec::new(rt.alloc()));
    let wanted = message(rt, wanted);
    equal(
        rt,
        text,
        unwrap(rt, written).as_slice() == wanted.as_slice(),
        true,
    );
}

/// Ends the test if a message of a modern session isn't rewritten as another.
fn assert_modern(rt: &(impl AllocGlobal + Abort), text: &str, wanted: &str) {
    assert_rewritten(rt, SessionConfig::modern(), text, wanted);
}

/// Ends the test if a message of a modern session doesn't stay as it is.
fn assert_stays(rt: &(impl AllocGlobal + Abort), text: &str) {
    assert_modern(rt, text, text);
}

/// Appends zeros, and returns all.
fn with_zeros(rt: &impl Abort, mut octets: Vec<u8>, count: u16) -> Vec<u8> {
    for _ in 0..count {
        unwrap(rt, octets.push(0));
    }
    octets
}

/// Ends the test if an UPDATE with one attribute of `count` zeros isn't rewritten as another.
fn assert_zeros(rt: &(impl AllocGlobal + Abort), text: &str, wanted: &str, count: u16) {
    let read = with_zeros(rt, message(rt, text), count);
    let written = rewrite(
        read.as_slice(),
        SessionConfig::modern(),
        Vec::new(rt.alloc()),
    );
    let wanted = with_zeros(rt, message(rt, wanted), count);
    equal(
        rt,
        text,
        unwrap(rt, written).as_slice() == wanted.as_slice(),
        true,
    );
}

/// Returns why a message of a modern session isn't rewritten, if it isn't.
fn refusal(rt: &(impl AllocGlobal + Abort), text: &str) -> Option<WriteError> {
    let read = message(rt, text);
    match rewrite(
        read.as_slice(),
        SessionConfig::modern(),
        Vec::new(rt.alloc()),
    ) {
        Ok(_) => None,
        Err(error) => Some(error),
    }
}

#[test]
fn bits_after_prefixes_are_cleared(rt: HostRuntime) {
    assert_modern(
        &rt,
        "001e 02 0004 140a0bff 0000 09acff",
        "001e 02 0004 140a0bf0 0000 09ac80",
    );
    assert_stays(&rt, "0020 02 0005 20c0000201 0000 08 0a 00 00");
}

#[test]
fn path_ids_stay(rt: HostRuntime) {
    let session = SessionConfig {
        four_octet_asn: true,
        add_path: AddPath::all(true),
        extended_message: false,
    };
    assert_rewritten(
        &rt,
        session,
        "0026 02 0008 00000007 140a0bff 0000 01020304 09acff",
        "0026 02 0008 00000007 140a0bf0 0000 01020304 09ac80",
    );
}

#[test]
fn low_flags_are_cleared(rt: HostRuntime) {
    assert_modern(
        &rt,
        "0022 02 0000 000b ef63020102 2f6300 4f6300",
        "0022 02 0000 000b e063020102 206300 406300",
    );
}

#[test]
fn lengths_have_the_fewest_octets(rt: HostRuntime) {
    assert_modern(
        &rt,
        "001c 02 0000 0005 5001000100",
        "001b 02 0000 0004 40010100",
    );
    assert_zeros(
        &rt,
        "011a 02 0000 0103 d063 00ff",
        "0119 02 0000 0102 c063 ff",
        255,
    );
    assert_zeros(
        &rt,
        "011b 02 0000 0104 df63 0100",
        "011b 02 0000 0104 d063 0100",
        256,
    );
}

#[test]
fn reachable_prefixes_are_rewritten(rt: HostRuntime) {
    assert_modern(
        &rt,
        "0027 02 0000 0010 800e0d 0001 01 04 c0000201 05 140a0bff",
        "0027 02 0000 0010 800e0d 0001 01 04 c0000201 00 140a0bf0",
    );
    assert_modern(
        &rt,
        "0046 02 0000 002f 900e002b 0002 02 20 20010db8000000000000000000000001
        fe800000000000000000000000000001 ff 21 20010db8ff",
        "0045 02 0000 002e 800e2b 0002 02 20 20010db8000000000000000000000001
        fe800000000000000000000000000001 00 21 20010db880",
    );
}

#[test]
fn unreachable_prefixes_are_rewritten(rt: HostRuntime) {
    assert_modern(
        &rt,
        "0023 02 0000 000c 800f09 0002 01 21 20010db8ff",
        "0023 02 0000 000c 800f09 0002 01 21 20010db880",
    );
}

#[test]
fn opaque_values_stay(rt: HostRuntime) {
    assert_modern(
        &rt,
        "0023 02 0000 000c 810e09 0001 80 00 05 140a0bff",
        "0023 02 0000 000c 800e09 0001 80 00 05 140a0bff",
    );
    assert_stays(&rt, "0021 02 0000 000a 800f07 0001 80 140a0bff");
    assert_stays(&rt, "0022 02 0000 000b 800e08 0001 01 02 c000 05 00");
}

#[test]
fn parts_and_attributes_stay_in_order(rt: HostRuntime) {
    assert_stays(
        &rt,
        "0036 02 0004 18c63364 001b 400304c0000201 40020602010000fde8 40010100 80040400000001",
    );
    assert_stays(
        &rt,
        "0031 02 0004 18c63364 0014 400304c0000201 40020602010000fde8 40010100 08 0a",
    );
}

#[test]
fn other_messages_stay(rt: HostRuntime) {
    assert_stays(&rt, "0013 04");
    assert_stays(&rt, "0017 03 0602 0102");
    assert_stays(&rt, "0017 05 0001 07 01");
    assert_stays(&rt, "0017 02 0000 0000");
    assert_stays(&rt, "001d 01 04 fc00 00b4 0a000001 00");
}

#[test]
fn what_is_no_message_is_refused(rt: HostRuntime) {
    equal(
        &rt,
        "type",
        refusal(&rt, "0013 06"),
        Some(WriteError::Malformed),
    );
    equal(
        &rt,
        "length",
        refusal(&rt, "0014 04"),
        Some(WriteError::Malformed),
    );
    let bits = refusal(&rt, "001d 02 0000 0000 21c000020100");
    equal(&rt, "bits", bits, Some(WriteError::Malformed));
    equal(&rt, "none", refusal(&rt, "0013 04"), None);
}

#[test]
fn a_limit_is_that_of_what_is_written(rt: HostRuntime) {
    let session = SessionConfig::modern();
    let read = message(&rt, "001c 02 0000 0005 5001000100");
    let short = rewrite(read.as_slice(), session, Array::<26>::new());
    equal(&rt, "26", short.err(), Some(WriteError::Short));
    let whole = unwrap(&rt, rewrite(read.as_slice(), session, Array::<27>::new()));
    equal(&rt, "27", AsOctets::len(&whole), 27);
    let keepalive = message(&rt, "0013 04");
    let short = rewrite(keepalive.as_slice(), session, Array::<18>::new());
    equal(&rt, "18", short.err(), Some(WriteError::Short));
}

#[test]
fn what_a_builder_holds_is_replaced_by_a_message(rt: HostRuntime) {
    let read = message(&rt, "001b 02 0000 0004 40010100");
    let session = SessionConfig::modern();
    let held = octets(&rt, "010203");
    let written = unwrap(&rt, rewrite(read.as_slice(), session, held));
    equal(&rt, "update", written.as_slice() == read.as_slice(), true);
    let read = message(&rt, "0013 04");
    let written = unwrap(&rt, rewrite(read.as_slice(), session, written));
    equal(
        &rt,
        "keepalive",
        written.as_slice() == read.as_slice(),
        true,
    );
}
