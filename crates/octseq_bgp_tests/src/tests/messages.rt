//! Messages, and the text that another reader prints of each.
use crate::tests::octets::{message, octets};
use crate::tests::text::{lines_of, text_of};
use octseq_asserts::assert_equal;
use octseq_bgp::session::{AddPath, SessionConfig};
use std::alloc::AllocGlobal;
use std::process::Abort;

/// Returns a session with path ids for all families.
fn with_paths() -> SessionConfig {
    SessionConfig {
        four_octet_asn: true,
        add_path: AddPath::all(true),
        extended_message: false,
    }
}

/// Checks the text of a message, given without its marker.
fn reads(rt: &(impl AllocGlobal + Abort), session: SessionConfig, text: &str, wanted: &str) {
    let all = message(rt, text);
    let shown = text_of(rt, &all, session);
    let lines = lines_of(rt, wanted);
    assert_equal!(rt, shown.as_str(), lines.as_str());
}

#[test]
fn headers(rt: HostRuntime) {
    let modern = SessionConfig::modern();
    reads(&rt, modern, "0013 04", "keepalive");
    reads(&rt, modern, "0014 04 00", "malformed");
    reads(&rt, modern, "0013 06", "malformed");
    reads(&rt, modern, "0012 04", "malformed");
    let other = octets(&rt, "ffffffff ffffffff ffffffff fffffffe 0013 04");
    let text = text_of(&rt, &other, modern);
    assert_equal!(&rt, text.as_str(), "malformed\n");
    reads(&rt, modern, "0014 04", "malformed");
}

#[test]
fn opens(rt: HostRuntime) {
    let modern = SessionConfig::modern();
    reads(
        &rt,
        modern,
        "002d 01 04 5ba0 00b4 0a000001 10 020e 010400010001 0200 4104fa56ea01",
        "open version 4 as 23456 hold 180 id 10.0.0.1;capability multiprotocol IPv4/unicast;\
         capability route-refresh;capability four-octet-as 4200000001",
    );
    reads(
        &rt,
        modern,
        "0029 01 04 fdfc 005a 0a000001 ff ff 0009 02 0006 41040000fdfc",
        "open version 4 as 65020 hold 90 id 10.0.0.1;capability four-octet-as 65020",
    );
    reads(
        &rt,
        modern,
        "0024 01 04 fdfc 005a 0a000001 07 0205 0104000100",
        "open version 4 as 65020 hold 90 id 10.0.0.1;parameter 2 \\# 5 0104000100",
    );
    reads(
        &rt,
        modern,
        "0024 01 04 fdfc 005a 0a000001 07 0206 0104000100",
        "malformed",
    );
}

#[test]
fn prefixes(rt: HostRuntime) {
    let modern = SessionConfig::modern();
    reads(
        &rt,
        modern,
        "001b 02 0000 0000 18090909",
        "update;announced 9.9.9.0/24",
    );
    reads(
        &rt,
        modern,
        "001b 02 0000 0000 1409099f",
        "update;announced 9.9.144.0/20",
    );
    reads(
        &rt,
        modern,
        "0018 02 0000 0000 00",
        "update;announced 0.0.0.0/0",
    );
    reads(&rt, modern, "001d 02 0000 0000 210909090900", "malformed");
    reads(&rt, modern, "001a 02 0000 0000 180909", "malformed");
    reads(&rt, modern, "0017 02 0000 0000", "update");
    reads(
        &rt,
        with_paths(),
        "001f 02 0000 0000 00000007 18090909",
        "update;announced 9.9.9.0/24 path 7",
    );
    reads(&rt, with_paths(), "001b 02 0000 0000 18090909", "malformed");
}

#[test]
fn updates(rt: HostRuntime) {
    let update = "002f 02 0000 0014 40010100 40020602010000fdfc 4003040a000001 18090909";
    reads(
        &rt,
        SessionConfig::modern(),
        update,
        "update;attribute T ORIGIN IGP;attribute T AS_PATH sequence 65020;\
         attribute T NEXT_HOP 10.0.0.1;announced 9.9.9.0/24",
    );
    reads(
        &rt,
        SessionConfig::legacy(),
        update,
        "update;attribute T ORIGIN IGP;attribute T AS_PATH \\# 6 02010000fdfc;\
         attribute T NEXT_HOP 10.0.0.1;announced 9.9.9.0/24",
    );
    reads(
        &rt,
        SessionConfig::modern(),
        "001b 02 0004 18090909 0000",
        "update;withdrawn 9.9.9.0/24",
    );
}

#[test]
fn notifications_and_refreshes(rt: HostRuntime) {
    let modern = SessionConfig::modern();
    reads(&rt, modern, "0015 03 04 00", "notification 4 0 \\# 0");
    reads(
        &rt,
        modern,
        "0019 03 06 02 03 627965",
        "notification 6 2 \"bye\"",
    );
    reads(
        &rt,
        modern,
        "0019 03 06 02 03 fffefd",
        "notification 6 2 \\# 4 03fffefd",
    );
    reads(&rt, modern, "0014 03 06", "malformed");
    reads(
        &rt,
        modern,
        "0017 05 0001 00 01",
        "route-refresh IPv4/unicast 0",
    );
    reads(
        &rt,
        modern,
        "001c 05 0001 00 01 0140000180",
        "route-refresh IPv4/unicast 0 \\# 5 0140000180",
    );
    reads(&rt, modern, "0016 05 0001 00", "malformed");
}
