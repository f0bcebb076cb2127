//! Single attributes, and the text that another reader prints of each.
use crate::tests::octets::octets;
use crate::tests::text::{lines_of, text_of};
use crate::tests::unwrap;
use octseq_asserts::assert_equal;
use octseq_bgp::session::SessionConfig;
use std::alloc::AllocGlobal;
use std::process::Abort;

/// Returns an UPDATE with only these attributes.
fn with_attributes(rt: &(impl AllocGlobal + Abort), attributes: &str) -> Vec<u8> {
    let attributes = octets(rt, attributes);
    let many = attributes.len();
    if many > 200 {
        panic!(rt; "too many octets");
    }
    let mut all = Vec::new(rt.alloc());
    for _ in 0..16 {
        unwrap(rt, all.push(0xFF));
    }
    let length = (23 + many) as u8;
    unwrap(
        rt,
        all.extend_from_slice(&[0, length, 2, 0, 0, 0, many as u8]),
    );
    unwrap(rt, all.extend_from_slice(&attributes));
    all
}

/// Checks the text of the attributes of an UPDATE.
fn reads(rt: &(impl AllocGlobal + Abort), session: SessionConfig, attributes: &str, wanted: &str) {
    let all = with_attributes(rt, attributes);
    let text = text_of(rt, &all, session);
    let wanted = unwrap(rt, format!(in rt.alloc(); "update;{wanted}"));
    let lines = lines_of(rt, &wanted);
    assert_equal!(rt, text.as_str(), lines.as_str());
}

/// Checks that an UPDATE with these attributes is malformed.
fn is_malformed(rt: &(impl AllocGlobal + Abort), attributes: &str) {
    let all = with_attributes(rt, attributes);
    let text = text_of(rt, &all, SessionConfig::modern());
    assert_equal!(rt, text.as_str(), "malformed\n");
}

#[test]
fn origins(rt: HostRuntime) {
    let modern = SessionConfig::modern();
    reads(&rt, modern, "40010103", "attribute T ORIGIN \\# 1 03");
    reads(&rt, modern, "5001000100", "attribute T ORIGIN IGP");
    reads(&rt, modern, "6f010100", "attribute TP ORIGIN IGP");
    reads(&rt, modern, "00010100", "attribute - ORIGIN IGP");
    is_malformed(&rt, "400101");
}

#[test]
fn paths(rt: HostRuntime) {
    let modern = SessionConfig::modern();
    let legacy = SessionConfig::legacy();
    reads(&rt, modern, "400200", "attribute T AS_PATH");
    reads(&rt, modern, "400202 0200", "attribute T AS_PATH \\# 2 0200");
    reads(
        &rt,
        modern,
        "400206 05010000fdfc",
        "attribute T AS_PATH \\# 6 05010000fdfc",
    );
    reads(
        &rt,
        modern,
        "400206 02010000fdfc",
        "attribute T AS_PATH sequence 65020",
    );
    reads(
        &rt,
        legacy,
        "400206 02010000fdfc",
        "attribute T AS_PATH \\# 6 02010000fdfc",
    );
    reads(
        &rt,
        legacy,
        "400206 0202fdfcfde9 c01106 0201fa56ea01",
        "attribute T AS_PATH sequence 65020 65001;attribute OT AS4_PATH sequence 4200000001",
    );
}

#[test]
fn communities(rt: HostRuntime) {
    let modern = SessionConfig::modern();
    reads(
        &rt,
        modern,
        "c0080c fde90064ffffff0100000001",
        "attribute OT COMMUNITIES 65001:100 65535:65281 0:1",
    );
    reads(&rt, modern, "c00800", "attribute OT COMMUNITIES \\# 0");
    reads(
        &rt,
        modern,
        "c01020 0002fde900000064 01030a0000010007 0202fa56ea010005 4306000000000001",
        "attribute OT EXTENDED_COMMUNITIES target:65001:100 origin:10.0.0.1:7 \
         target:4200000001L:5 4306000000000001",
    );
    reads(
        &rt,
        modern,
        "c0200c 0000fde9 00000001 00000002",
        "attribute OT LARGE_COMMUNITIES 65001:1:2",
    );
}

#[test]
fn prefixes_of_families(rt: HostRuntime) {
    let modern = SessionConfig::modern();
    reads(
        &rt,
        modern,
        "800e1d 0002 01 10 20010db8000000000000000000000001 00 3020010db80001 00",
        "attribute O MP_REACH_NLRI IPv6/unicast 2001:db8::1;reached 2001:db8:1::/48;reached ::/0",
    );
    reads(
        &rt,
        modern,
        "800e0e 0002 01 04 0a000001 00 3020010db8",
        "attribute O MP_REACH_NLRI \\# 14 000201040a000001003020010db8",
    );
    reads(
        &rt,
        modern,
        "800e0d 0001 01 04 0a000001 00 18090909",
        "attribute O MP_REACH_NLRI IPv4/unicast 10.0.0.1;reached 9.9.9.0/24",
    );
    reads(
        &rt,
        modern,
        "800f03 000201",
        "attribute O MP_UNREACH_NLRI IPv6/unicast",
    );
    reads(
        &rt,
        modern,
        "800f03 001941",
        "attribute O MP_UNREACH_NLRI \\# 3 001941",
    );
}

#[test]
fn aggregators(rt: HostRuntime) {
    let modern = SessionConfig::modern();
    reads(
        &rt,
        modern,
        "c00706 fdfc0a000001",
        "attribute OT AGGREGATOR \\# 6 fdfc0a000001",
    );
    reads(
        &rt,
        modern,
        "c00708 0000fdfc0a000001",
        "attribute OT AGGREGATOR 65020 10.0.0.1",
    );
    reads(&rt, modern, "400600", "attribute T ATOMIC_AGGREGATE");
    reads(&rt, modern, "e06302 0102", "attribute OTP 99 \\# 2 0102");
}
