//! The offset where reading stops in octets that aren't a message: each one is counted by hand from the layout.
use crate::tests::limits::{extended, zeros};
use crate::tests::octets::{message, octets};
use crate::tests::unwrap;
use octseq_asserts::assert_equal;
use octseq_bgp::message::fault_offset;
use octseq_bgp::session::{AddPath, SessionConfig};
use std::alloc::AllocGlobal;
use std::process::Abort;

/// Checks where reading of a message, given without its marker, stops.
fn stops_in(rt: &(impl AllocGlobal + Abort), session: SessionConfig, text: &str, wanted: usize) {
    let all = message(rt, text);
    assert_equal!(rt, fault_offset(&all, session), wanted);
}

/// Checks where it stops in a session without path ids.
fn stops(rt: &(impl AllocGlobal + Abort), text: &str, wanted: usize) {
    stops_in(rt, SessionConfig::modern(), text, wanted);
}

#[test]
fn in_headers(rt: HostRuntime) {
    stops(&rt, "", 0);
    stops(&rt, "0012", 0);
    stops(&rt, "0012 04", 0);
    stops(&rt, "0014 04", 0);
    stops(&rt, "0013 00", 0);
    stops(&rt, "0013 06", 0);
}

#[test]
fn in_markers(rt: HostRuntime) {
    let modern = SessionConfig::modern();
    assert_equal!(&rt, fault_offset(b"".as_slice(), modern), 0);
    let other = octets(&rt, "ffffffff ffffffff ffffffff fffffffe 0014 04 00");
    assert_equal!(&rt, fault_offset(&other, modern), 0);
}

#[test]
fn in_long_messages(rt: HostRuntime) {
    let modern = SessionConfig::modern();
    let update = zeros(&rt, 4096);
    assert_equal!(&rt, fault_offset(&update, modern), 4096);
    let mut other = zeros(&rt, 4097);
    assert_equal!(&rt, fault_offset(&other, modern), 0);
    assert_equal!(&rt, fault_offset(&other, extended()), 4097);
    if let Some(kind) = other.as_mut_slice().get_mut(18) {
        *kind = 1;
    }
    assert_equal!(&rt, fault_offset(&other, extended()), 0);
}

#[test]
fn in_keepalives_and_notifications(rt: HostRuntime) {
    stops(&rt, "0013 04", 19);
    stops(&rt, "0015 04 0000", 19);
    stops(&rt, "0013 03", 19);
    stops(&rt, "0014 03 06", 19);
    stops(&rt, "0015 03 04 00", 21);
    stops(&rt, "0017 03 04 00 ffff", 23);
}

#[test]
fn in_route_refreshes(rt: HostRuntime) {
    stops(&rt, "0013 05", 19);
    stops(&rt, "0016 05 0001 00", 19);
    stops(&rt, "0017 05 0001 00 01", 23);
    stops(&rt, "0018 05 0001 00 01 01", 24);
}

#[test]
fn in_opens(rt: HostRuntime) {
    stops(&rt, "0013 01", 19);
    stops(&rt, "001c 01 04 fdfc 005a 0a000001", 19);
    stops(&rt, "001d 01 04 fdfc 005a 0a000001 00", 29);
    stops(&rt, "001d 01 04 fdfc 005a 0a000001 01", 28);
    stops(&rt, "001e 01 04 fdfc 005a 0a000001 00 00", 28);
    stops(&rt, "001f 01 04 fdfc 005a 0a000001 01 0200", 28);
}

#[test]
fn in_parameters(rt: HostRuntime) {
    let front = "04 fdfc 005a 0a000001";
    let one = unwrap(
        &rt,
        format!(in rt.alloc(); "0024 01 {front} 07 0206 0104000100"),
    );
    stops(&rt, &one, 29);
    let two = unwrap(
        &rt,
        format!(in rt.alloc(); "0028 01 {front} 0b 02024600 0206 0104000100"),
    );
    stops(&rt, &two, 33);
    let end = unwrap(
        &rt,
        format!(in rt.alloc(); "0022 01 {front} 05 02024600 02"),
    );
    stops(&rt, &end, 33);
}

#[test]
fn in_long_parameters(rt: HostRuntime) {
    let front = "04 fdfc 005a 0a000001 ff ff";
    let all = unwrap(
        &rt,
        format!(in rt.alloc(); "0029 01 {front} 0009 02 0006 41040000fdfc"),
    );
    stops(&rt, &all, 41);
    let less = unwrap(
        &rt,
        format!(in rt.alloc(); "0029 01 {front} 0008 02 0006 41040000fdfc"),
    );
    stops(&rt, &less, 30);
    let cut = unwrap(&rt, format!(in rt.alloc(); "001f 01 {front} 00"));
    stops(&rt, &cut, 30);
    let other = unwrap(
        &rt,
        format!(in rt.alloc(); "0029 01 {front} 0009 02 0007 41040000fdfc"),
    );
    stops(&rt, &other, 32);
}

#[test]
fn in_lengths_of_updates(rt: HostRuntime) {
    stops(&rt, "0013 02", 19);
    stops(&rt, "0014 02 00", 19);
    stops(&rt, "0017 02 0003 0000", 19);
    stops(&rt, "0015 02 0000", 21);
    stops(&rt, "0016 02 0000 00", 21);
    stops(&rt, "001b 02 0004 18090909 0001", 25);
    stops(&rt, "0017 02 0000 0000", 23);
}

#[test]
fn in_prefixes(rt: HostRuntime) {
    stops(&rt, "001a 02 0003 180909 0000", 21);
    stops(&rt, "001c 02 0005 0808 210909 0000", 23);
    stops(&rt, "001c 02 0000 0000 0808 180909", 25);
    stops(&rt, "001d 02 0000 0000 210909090900", 23);
    stops(&rt, "001b 02 0000 0000 18090909", 27);
}

#[test]
fn in_attributes(rt: HostRuntime) {
    stops(
        &rt,
        "002f 02 0000 0014 40010100 40020602010000fdfc 4003050a000001 18090909",
        36,
    );
    stops(&rt, "001b 02 0000 0004 50010001", 23);
    stops(&rt, "001c 02 0000 0005 40010100 40", 27);
}

#[test]
fn in_the_first_of_lists(rt: HostRuntime) {
    stops(&rt, "001b 02 0001 21 0002 4001 21", 21);
    stops(&rt, "001b 02 0001 00 0002 4001 21", 24);
    stops(&rt, "001b 02 0001 00 0000 00 2100", 25);
}

#[test]
fn in_prefixes_with_path_ids(rt: HostRuntime) {
    let session = SessionConfig {
        four_octet_asn: true,
        add_path: AddPath::all(true),
        extended_message: false,
    };
    stops_in(&rt, session, "001b 02 0000 0000 18090909", 23);
    stops_in(&rt, session, "001f 02 0000 0000 00000007 18090909", 31);
    stops_in(&rt, session, "0021 02 0000 0000 00000007 18090909 0000", 31);
}
