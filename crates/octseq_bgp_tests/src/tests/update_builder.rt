//! UPDATEs that are written.
use crate::tests::octets::{message, octets};
use crate::tests::{equal, unwrap};
use octseq::builder::AsOctetsMut;
use octseq::{AppendError, Array, AsOctets, OctetsBuilder, ShortBuf, Truncate, WriteError};
use octseq_asserts::{assert_equal, assert_true};
use octseq_bgp::attribute::{
    Asn, AtomicAggregate, ConventionalNextHop, Flags, MultiExitDisc, NextHop, Origin, OriginType,
    PathSegment, SegmentType,
};
use octseq_bgp::community::StandardCommunity;
use octseq_bgp::family::{Afi, AfiSafiType};
use octseq_bgp::message::{Announced, Attributes, MpList, UpdateBuilder, Withdrawn};
use octseq_bgp::prefix::{PathId, Prefix};
use octseq_bgp::session::{AddPath, SessionConfig};
use std::alloc::AllocGlobal;
use std::process::Abort;

/// Returns a session with path ids for all families.
fn with_paths() -> SessionConfig {
    SessionConfig {
        four_octet_asn: true,
        add_path: AddPath::all(true),
        extended_message: false,
    }
}

/// Returns an IPv4 prefix.
fn ipv4(address: [u8; 4], len: u8) -> Prefix {
    Prefix {
        afi: Afi::Ipv4,
        len,
        address: [
            address[0], address[1], address[2], address[3], 0, 0, 0, 0, 0, 0, 0, 0, 0, 0, 0, 0,
        ],
    }
}

/// Returns an IPv6 prefix whose address begins with three numbers.
fn ipv6(first: u8, second: u8, third: u8, len: u8) -> Prefix {
    Prefix {
        afi: Afi::Ipv6,
        len,
        address: [
            0x20, 0x01, 0x0d, 0xb8, first, second, third, 0, 0, 0, 0, 0, 0, 0, 0, 0,
        ],
    }
}

/// Begins an UPDATE in a vector.
fn begin(
    rt: &(impl AllocGlobal + Abort),
    session: SessionConfig,
) -> UpdateBuilder<Vec<u8>, Withdrawn> {
    unwrap(
        rt,
        UpdateBuilder::from_builder(Vec::new(rt.alloc()), session),
    )
}

/// Ends the test if the octets of a message aren't these, after the marker.
fn assert_message(rt: &(impl AllocGlobal + Abort), what: &str, written: &[u8], text: &str) {
    let wanted = message(rt, text);
    equal(rt, what, written == wanted.as_slice(), true);
}

#[test]
fn an_update_begins_as_the_end_of_rib(rt: HostRuntime) {
    let update = begin(&rt, SessionConfig::modern());
    assert_message(&rt, "begun", update.as_slice(), "0017 02 0000 0000");
    let octets = update.attributes().announced().finish();
    assert_message(&rt, "finished", &octets, "0017 02 0000 0000");
}

#[test]
fn what_a_builder_holds_is_replaced(rt: HostRuntime) {
    let used = octets(&rt, "010203");
    let update = unwrap(
        &rt,
        UpdateBuilder::from_builder(used, SessionConfig::modern()),
    );
    assert_message(&rt, "begun", update.as_slice(), "0017 02 0000 0000");
}

#[test]
fn announced_prefixes_are_written(rt: HostRuntime) {
    let mut update = begin(&rt, SessionConfig::modern()).attributes().announced();
    unwrap(&rt, update.push_announced(&ipv4([9, 9, 9, 0], 24), None));
    assert_message(&rt, "one", update.as_slice(), "001b 02 0000 0000 18090909");
    unwrap(&rt, update.push_announced(&ipv4([9, 9, 0x9f, 1], 20), None));
    unwrap(&rt, update.push_announced(&ipv4([9, 9, 9, 9], 0), None));
    unwrap(&rt, update.push_announced(&ipv4([10, 0, 0, 1], 32), None));
    let wanted = "0025 02 0000 0000 18090909 14090990 00 200a000001";
    assert_message(&rt, "four", &update.finish(), wanted);
}

#[test]
fn path_ids_are_written_where_the_session_has_them(rt: HostRuntime) {
    let mut update = begin(&rt, with_paths()).attributes().announced();
    let prefix = ipv4([9, 9, 9, 0], 24);
    unwrap(&rt, update.push_announced(&prefix, Some(PathId(7))));
    assert_equal!(
        &rt,
        update.push_announced(&prefix, None),
        Err(WriteError::Malformed)
    );
    let wanted = "001f 02 0000 0000 00000007 18090909";
    assert_message(&rt, "with", &update.finish(), wanted);
    let mut update = begin(&rt, SessionConfig::modern());
    let refused = update.push_withdrawn(&prefix, Some(PathId(7)));
    assert_equal!(&rt, refused, Err(WriteError::Malformed));
    assert_message(&rt, "without", &update.finish(), "0017 02 0000 0000");
}

#[test]
fn withdrawn_prefixes_come_first(rt: HostRuntime) {
    let mut update = begin(&rt, SessionConfig::modern());
    unwrap(&rt, update.push_withdrawn(&ipv4([10, 1, 2, 3], 16), None));
    unwrap(&rt, update.push_withdrawn(&ipv4([10, 129, 0, 0], 9), None));
    assert_message(
        &rt,
        "two",
        update.as_slice(),
        "001d 02 0006 100a01 090a80 0000",
    );
    let mut update = update.attributes().announced();
    unwrap(&rt, update.push_announced(&ipv4([10, 2, 0, 0], 16), None));
    let wanted = "0020 02 0006 100a01 090a80 0000 100a02";
    assert_message(&rt, "three", &update.finish(), wanted);
}

#[test]
fn other_prefixes_are_malformed(rt: HostRuntime) {
    let mut update = begin(&rt, SessionConfig::modern());
    let refused = update.push_withdrawn(&ipv6(0, 1, 0, 48), None);
    assert_equal!(&rt, refused, Err(WriteError::Malformed));
    let refused = update.push_withdrawn(&ipv4([10, 0, 0, 0], 33), None);
    assert_equal!(&rt, refused, Err(WriteError::Malformed));
    assert_message(&rt, "none", &update.finish(), "0017 02 0000 0000");
}

/// Pushes ORIGIN, AS_PATH and NEXT_HOP.
fn push_three<B: OctetsBuilder + Truncate + AsOctetsMut>(
    rt: &(impl AllocGlobal + Abort),
    update: &mut UpdateBuilder<B, Attributes>,
) {
    let transitive = Flags(0x40);
    unwrap(rt, update.push_attribute_octets(transitive, 1, &[0]));
    unwrap(
        rt,
        update.push_attribute_octets(transitive, 2, &octets(rt, "02010000fdfc")),
    );
    unwrap(
        rt,
        update.push_attribute_octets(transitive, 3, &[10, 0, 0, 1]),
    );
}

#[test]
fn attributes_are_written_as_given(rt: HostRuntime) {
    let mut update = begin(&rt, SessionConfig::modern()).attributes();
    push_three(&rt, &mut update);
    let mut update = update.announced();
    unwrap(&rt, update.push_announced(&ipv4([9, 9, 9, 0], 24), None));
    let wanted = "002f 02 0000 0014 40010100 40020602010000fdfc 4003040a000001 18090909";
    assert_message(&rt, "three", &update.finish(), wanted);
}

#[test]
fn the_flag_decides_how_a_length_is_written(rt: HostRuntime) {
    let mut update = begin(&rt, SessionConfig::modern()).attributes();
    unwrap(&rt, update.push_attribute_octets(Flags(0x50), 1, &[0]));
    unwrap(&rt, update.push_attribute_octets(Flags(0x6f), 1, &[0]));
    let refused = update.push_attribute_octets(Flags(0x40), 2, &[0; 256]);
    assert_equal!(&rt, refused, Err(WriteError::Malformed));
    let wanted = "0020 02 0000 0009 5001000100 6f010100";
    assert_message(&rt, "two", update.as_slice(), wanted);
    unwrap(&rt, update.push_attribute_octets(Flags(0x40), 2, &[0; 255]));
    unwrap(&rt, update.push_attribute_octets(Flags(0x50), 2, &[0; 256]));
    assert_equal!(&rt, update.as_slice().len(), 32 + 258 + 260);
}

#[test]
fn reachable_prefixes_are_written_one_by_one(rt: HostRuntime) {
    let mut update = begin(&rt, SessionConfig::modern()).attributes();
    let hop = NextHop::Ipv6([0x20, 1, 0xd, 0xb8, 0, 0, 0, 0, 0, 0, 0, 0, 0, 0, 0, 1]);
    unwrap(&rt, update.push_mp_reach(AfiSafiType::Ipv6Unicast, &hop));
    assert_equal!(
        &rt,
        update.open_list(),
        Some(MpList::Reach(AfiSafiType::Ipv6Unicast))
    );
    unwrap(&rt, update.push_reached(&ipv6(0, 1, 0, 48), None));
    unwrap(&rt, update.push_reached(&ipv6(0, 1, 0, 0), None));
    let refused = update.push_reached(&ipv4([9, 9, 9, 0], 24), None);
    assert_equal!(&rt, refused, Err(WriteError::Malformed));
    let refused = update.push_unreached(&ipv6(0, 1, 0, 48), None);
    assert_equal!(&rt, refused, Err(WriteError::Malformed));
    let wanted = "0037 02 0000 0020 800e1d 0002 01 10 20010db8 00000000 00000000 00000001 00
        3020010db80001 00";
    assert_message(&rt, "two", update.as_slice(), wanted);
    unwrap(&rt, update.push_attribute_octets(Flags(0x40), 1, &[0]));
    let refused = update.push_reached(&ipv6(0, 1, 0, 48), None);
    assert_equal!(&rt, refused, Err(WriteError::Malformed));
}

#[test]
fn next_hops_have_their_family(rt: HostRuntime) {
    let mut update = begin(&rt, SessionConfig::modern()).attributes();
    let hop = NextHop::Ipv4([10, 0, 0, 1]);
    let refused = update.push_mp_reach(AfiSafiType::Ipv6Multicast, &hop);
    assert_equal!(&rt, refused, Err(WriteError::Malformed));
    unwrap(&rt, update.push_mp_reach(AfiSafiType::Ipv4Unicast, &hop));
    unwrap(&rt, update.push_reached(&ipv4([9, 9, 9, 0], 24), None));
    let wanted = "0027 02 0000 0010 800e0d 0001 01 04 0a000001 00 18090909";
    assert_message(&rt, "ipv4", &update.finish(), wanted);
    let mut update = begin(&rt, SessionConfig::modern()).attributes();
    let hop = NextHop::Ipv6LinkLocal([1; 16], [2; 16]);
    unwrap(&rt, update.push_mp_reach(AfiSafiType::Ipv6Multicast, &hop));
    let wanted = "003f 02 0000 0028 800e25 0002 02 20 01010101010101010101010101010101
        02020202020202020202020202020202 00";
    assert_message(&rt, "link-local", &update.finish(), wanted);
}

#[test]
fn unreachable_prefixes_are_written_one_by_one(rt: HostRuntime) {
    let mut update = begin(&rt, with_paths()).attributes();
    unwrap(&rt, update.push_mp_unreach(AfiSafiType::Ipv6Unicast));
    assert_message(
        &rt,
        "none",
        update.as_slice(),
        "001d 02 0000 0006 800f03 000201",
    );
    assert_equal!(
        &rt,
        update.push_unreached(&ipv6(0, 2, 0, 48), None),
        Err(WriteError::Malformed)
    );
    unwrap(
        &rt,
        update.push_unreached(&ipv6(0, 2, 0, 47), Some(PathId(0x01020304))),
    );
    let wanted = "0028 02 0000 0011 800f0e 000201 01020304 2f20010db80002";
    assert_message(&rt, "one", &update.finish(), wanted);
}

#[test]
fn a_list_of_more_than_255_octets_has_a_length_of_two(rt: HostRuntime) {
    let mut update = begin(&rt, SessionConfig::modern()).attributes();
    unwrap(&rt, update.push_mp_unreach(AfiSafiType::Ipv6Unicast));
    for n in 0..14 {
        unwrap(&rt, update.push_unreached(&ipv6(n, 0, 0, 128), None));
    }
    unwrap(&rt, update.push_unreached(&ipv6(14, 0, 0, 104), None));
    let octets_before = octets(&rt, "0119 02 0000 0102 800fff 000201 80 20010db800");
    assert_equal!(
        &rt,
        update.as_slice().get(16..35),
        Some(octets_before.as_slice())
    );
    unwrap(&rt, update.push_unreached(&ipv6(0, 0, 0, 0), None));
    let octets_after = octets(&rt, "011b 02 0000 0104 900f0100 000201 80 20010db800");
    assert_equal!(
        &rt,
        update.as_slice().get(16..36),
        Some(octets_after.as_slice())
    );
    unwrap(&rt, update.push_unreached(&ipv6(0, 0, 0, 0), None));
    let octets_after = octets(&rt, "011c 02 0000 0105 900f0101 000201 80 20010db800");
    let all = update.finish();
    assert_equal!(
        &rt,
        all.as_slice().get(16..36),
        Some(octets_after.as_slice())
    );
    assert_equal!(&rt, all.len(), 0x11c);
    let last = octets(&rt, "68 20010db80e0000000000000000 00 00");
    assert_true!(&rt, all.as_slice().ends_with(&last));
}

#[test]
fn messages_have_at_most_4096_octets(rt: HostRuntime) {
    let mut update = begin(&rt, SessionConfig::modern()).attributes().announced();
    let prefix = ipv4([0, 0, 0, 0], 0);
    for _ in 23..4096 {
        unwrap(&rt, update.push_announced(&prefix, None));
    }
    assert_equal!(
        &rt,
        update.push_announced(&prefix, None),
        Err(WriteError::Short)
    );
    let octets = update.finish();
    assert_equal!(&rt, octets.len(), 4096);
    assert_equal!(&rt, octets.as_slice().get(16), Some(&16));
}

#[test]
fn builders_have_limits(rt: HostRuntime) {
    let small = UpdateBuilder::from_builder(Array::<22>::new(), SessionConfig::modern());
    assert_true!(&rt, matches!(small, Err(AppendError::Short(ShortBuf))));
    let update = UpdateBuilder::from_builder(Array::<29>::new(), SessionConfig::modern());
    let mut update = unwrap(&rt, update);
    unwrap(&rt, update.push_withdrawn(&ipv4([10, 1, 0, 0], 16), None));
    let refused = update.push_withdrawn(&ipv4([10, 1, 0, 0], 24), None);
    assert_equal!(&rt, refused, Err(WriteError::Short));
    let mut update = update.attributes();
    let refused = update.push_attribute_octets(Flags(0x40), 1, &[0]);
    assert_equal!(&rt, refused, Err(WriteError::Short));
    unwrap(&rt, update.push_attribute_octets(Flags(0xC0), 99, &[]));
    let octets = update.finish();
    assert_message(
        &rt,
        "full",
        octets.as_ref(),
        "001d 02 0003 100a01 0003 c06300",
    );
}

/// Pushes ORIGIN, AS_PATH and NEXT_HOP: 20 octets where AS numbers have four.
fn push_three_values<B: OctetsBuilder + Truncate + AsOctetsMut>(
    rt: &(impl AllocGlobal + Abort),
    update: &mut UpdateBuilder<B, Attributes>,
) {
    let asns = [Asn(65020)];
    let path = [PathSegment {
        kind: SegmentType::Sequence,
        asns: &asns,
    }];
    unwrap(rt, update.push_value(&Origin(OriginType::Igp)));
    unwrap(rt, update.push_value(&path.as_slice()));
    unwrap(rt, update.push_value(&ConventionalNextHop(0x0A000001)));
}

#[test]
fn values_are_written_with_the_flags_of_their_type(rt: HostRuntime) {
    let mut update = begin(&rt, SessionConfig::modern()).attributes();
    push_three_values(&rt, &mut update);
    unwrap(&rt, update.push_value(&MultiExitDisc(5)));
    unwrap(&rt, update.push_value(&AtomicAggregate));
    let communities = [StandardCommunity(0x00010002)];
    unwrap(&rt, update.push_value(&communities.as_slice()));
    let wanted = "003c 02 0000 0025 40010100 40020602010000fdfc 4003040a000001 80040400000005 400600
        c0080400010002";
    assert_message(&rt, "six", &update.finish(), wanted);
}

#[test]
fn a_value_has_the_as_numbers_of_the_session(rt: HostRuntime) {
    let session = SessionConfig {
        four_octet_asn: false,
        ..SessionConfig::modern()
    };
    let asns = [Asn(65020)];
    let path = [PathSegment {
        kind: SegmentType::Sequence,
        asns: &asns,
    }];
    let mut update = begin(&rt, session).attributes();
    unwrap(&rt, update.push_value(&path.as_slice()));
    let wide = [Asn(70000)];
    let path = [PathSegment {
        kind: SegmentType::Sequence,
        asns: &wide,
    }];
    let refused = update.push_value(&path.as_slice());
    assert_equal!(&rt, refused, Err(WriteError::Malformed));
    let none: [StandardCommunity; 0] = [];
    let refused = update.push_value(&none.as_slice());
    assert_equal!(&rt, refused, Err(WriteError::Malformed));
    let wanted = "001e 02 0000 0007 4002040201fdfc";
    assert_message(&rt, "narrow", &update.finish(), wanted);
}

#[test]
fn a_value_of_more_than_255_octets_has_a_length_of_two(rt: HostRuntime) {
    let session = SessionConfig::modern();
    let mut update = begin(&rt, session).attributes();
    let few = [StandardCommunity(1); 63];
    unwrap(&rt, update.push_value(&few.as_slice()));
    let wanted = octets(&rt, "0116 02 0000 00ff c008fc 00000001");
    assert_equal!(&rt, update.as_slice().get(16..30), Some(wanted.as_slice()));
    let mut update = begin(&rt, session).attributes();
    let many = [StandardCommunity(1); 64];
    unwrap(&rt, update.push_value(&many.as_slice()));
    let wanted = octets(&rt, "011b 02 0000 0104 d0080100 00000001");
    assert_equal!(&rt, update.as_slice().get(16..31), Some(wanted.as_slice()));
}

#[test]
fn a_value_that_is_refused_leaves_nothing(rt: HostRuntime) {
    let update = UpdateBuilder::from_builder(Array::<29>::new(), SessionConfig::modern());
    let mut update = unwrap(&rt, update).attributes();
    let refused = update.push_value(&MultiExitDisc(5));
    assert_equal!(&rt, refused, Err(WriteError::Short));
    assert_message(&rt, "none", update.as_slice(), "0017 02 0000 0000");
    unwrap(&rt, update.push_value(&AtomicAggregate));
    unwrap(&rt, update.push_value(&AtomicAggregate));
    let refused = update.push_value(&AtomicAggregate);
    assert_equal!(&rt, refused, Err(WriteError::Short));
    let octets = update.finish();
    let wanted = "001d 02 0000 0006 400600 400600";
    assert_message(&rt, "two", octets.as_ref(), wanted);
}

#[test]
fn a_value_closes_a_list_of_prefixes(rt: HostRuntime) {
    let mut update = begin(&rt, SessionConfig::modern()).attributes();
    unwrap(&rt, update.push_mp_unreach(AfiSafiType::Ipv6Unicast));
    unwrap(&rt, update.push_value(&AtomicAggregate));
    assert_equal!(&rt, update.open_list(), None);
    let refused = update.push_unreached(&ipv6(0, 1, 0, 48), None);
    assert_equal!(&rt, refused, Err(WriteError::Malformed));
    let wanted = "0020 02 0000 0009 800f03000201 400600";
    assert_message(&rt, "closed", &update.finish(), wanted);
}

/// Returns 3,000 prefixes of 24 bits: four octets each.
fn many_prefixes(rt: &(impl AllocGlobal + Abort)) -> Vec<(Prefix, Option<PathId>)> {
    let mut prefixes = Vec::new(rt.alloc());
    for n in 0..3000_u16 {
        let octets = n.to_be_bytes();
        let prefix = ipv4([10, octets[0], octets[1], 0], 24);
        unwrap(rt, prefixes.push((prefix, None)));
    }
    prefixes
}

/// Announces prefixes in as few messages as they need, all with the same attributes, and returns their lengths.
fn announce(rt: &(impl AllocGlobal + Abort), prefixes: &[(Prefix, Option<PathId>)]) -> Vec<usize> {
    let mut lens = Vec::new(rt.alloc());
    let mut left = prefixes;
    for _ in 0..prefixes.len() {
        if left.is_empty() {
            break;
        }
        let mut update = begin(rt, SessionConfig::modern()).attributes();
        push_three_values(rt, &mut update);
        let mut update = update.announced();
        let count = unwrap(rt, update.fill_announced(left));
        let Some(others) = left.get(count..) else {
            panic!(rt; "more were pushed than were left");
        };
        left = others;
        unwrap(rt, lens.push(update.finish().len()));
    }
    lens
}

#[test]
fn prefixes_fill_as_few_messages_as_they_need(rt: HostRuntime) {
    // A message has 23 octets and 20 of attributes, which leaves 4,053 for prefixes: 1,013 of four octets. The third
    // has the 974 that are left.
    let lens = announce(&rt, &many_prefixes(&rt));
    assert_equal!(&rt, lens.as_slice(), &[4095, 4095, 3939]);
}

#[test]
fn a_builder_is_filled_up_to_its_limit(rt: HostRuntime) {
    let update = UpdateBuilder::from_builder(Array::<31>::new(), SessionConfig::modern());
    let mut update = unwrap(&rt, update);
    let prefixes = [
        (ipv4([10, 1, 1, 0], 24), None),
        (ipv4([10, 1, 2, 0], 24), None),
        (ipv4([10, 0, 0, 0], 0), None),
    ];
    assert_equal!(&rt, unwrap(&rt, update.fill_withdrawn(&prefixes)), 2);
    assert_equal!(&rt, unwrap(&rt, update.fill_withdrawn(&prefixes)), 0);
    assert_equal!(&rt, unwrap(&rt, update.fill_withdrawn(&[])), 0);
    let octets = update.finish();
    let wanted = "001f 02 0008 180a0101 180a0102 0000";
    assert_message(&rt, "two", octets.as_ref(), wanted);
}

#[test]
fn a_prefix_that_cant_be_written_ends_a_run(rt: HostRuntime) {
    let mut update = begin(&rt, SessionConfig::modern()).attributes().announced();
    let prefixes = [
        (ipv4([10, 1, 1, 0], 24), None),
        (ipv4([10, 1, 2, 0], 33), None),
        (ipv4([10, 1, 3, 0], 24), None),
    ];
    let refused = update.fill_announced(&prefixes);
    assert_equal!(&rt, refused, Err(WriteError::Malformed));
    let wanted = "001b 02 0000 0000 180a0101";
    assert_message(&rt, "one", update.as_slice(), wanted);
    let update = UpdateBuilder::from_builder(Array::<27>::new(), SessionConfig::modern());
    let mut update = unwrap(&rt, update).attributes().announced();
    let full = [
        (ipv4([10, 1, 1, 0], 24), None),
        (ipv4([10, 1, 2, 0], 24), None),
        (ipv4([10, 1, 3, 0], 33), None),
    ];
    assert_equal!(&rt, unwrap(&rt, update.fill_announced(&full)), 1);
}

/// Returns 1,000 IPv6 prefixes of 64 bits: nine octets each.
fn many_ipv6_prefixes(rt: &(impl AllocGlobal + Abort)) -> Vec<(Prefix, Option<PathId>)> {
    let mut prefixes = Vec::new(rt.alloc());
    for n in 0..1000_u16 {
        let octets = n.to_be_bytes();
        unwrap(rt, prefixes.push((ipv6(octets[0], octets[1], 0, 64), None)));
    }
    prefixes
}

/// Lists prefixes in as few messages as they need, all with the same next hop, if any, and returns their lengths.
fn fill_lists(
    rt: &(impl AllocGlobal + Abort),
    list: MpList,
    prefixes: &[(Prefix, Option<PathId>)],
) -> Vec<usize> {
    let hop = NextHop::Ipv6([0x20, 1, 0xd, 0xb8, 0, 0, 0, 0, 0, 0, 0, 0, 0, 0, 0, 1]);
    let mut lens = Vec::new(rt.alloc());
    let mut left = prefixes;
    for _ in 0..prefixes.len() {
        if left.is_empty() {
            break;
        }
        let mut update = begin(rt, SessionConfig::modern()).attributes();
        let count = match list {
            MpList::Reach(family) => {
                unwrap(rt, update.push_mp_reach(family, &hop));
                unwrap(rt, update.fill_reached(left))
            }
            MpList::Unreach(family) => {
                unwrap(rt, update.push_mp_unreach(family));
                unwrap(rt, update.fill_unreached(left))
            }
        };
        let Some(others) = left.get(count..) else {
            panic!(rt; "more were pushed than were left");
        };
        left = others;
        unwrap(rt, lens.push(update.finish().len()));
    }
    lens
}

#[test]
fn lists_fill_as_few_messages_as_they_need(rt: HostRuntime) {
    // A message has 23 octets, its attribute four before its value, and this 21 before its prefixes. That leaves 4,048:
    // 449 prefixes of nine octets. The third message has the 102 that are left.
    let prefixes = many_ipv6_prefixes(&rt);
    let lens = fill_lists(&rt, MpList::Reach(AfiSafiType::Ipv6Unicast), &prefixes);
    assert_equal!(&rt, lens.as_slice(), &[4089, 4089, 966]);
    // An MP_UNREACH_NLRI has three before its prefixes, which leaves 4,066: 451 of nine octets, and then 98.
    let lens = fill_lists(&rt, MpList::Unreach(AfiSafiType::Ipv6Unicast), &prefixes);
    assert_equal!(&rt, lens.as_slice(), &[4089, 4089, 912]);
}

/// Lists unreachable prefixes in a message, and returns how many it took, and the message.
fn unreach<B: OctetsBuilder + Truncate + AsOctetsMut>(
    rt: &(impl AllocGlobal + Abort),
    octets: B,
    prefixes: &[(Prefix, Option<PathId>)],
) -> (usize, B) {
    let update = UpdateBuilder::from_builder(octets, SessionConfig::modern());
    let mut update = unwrap(rt, update).attributes();
    unwrap(rt, update.push_mp_unreach(AfiSafiType::Ipv6Unicast));
    let count = unwrap(rt, update.fill_unreached(prefixes));
    (count, update.finish())
}

#[test]
fn a_list_that_is_filled_may_pass_255_octets(rt: HostRuntime) {
    // With 28 prefixes the value has 255 octets, and the message 281. Another takes nine, and the length an octet more.
    let prefixes = many_ipv6_prefixes(&rt);
    let (count, message) = unreach(&rt, Array::<290>::new(), &prefixes);
    assert_equal!(&rt, count, 28);
    let wanted = octets(&rt, "0119 02 0000 0102 800fff 000201 40 20010db8");
    assert_equal!(&rt, message.as_ref().get(16..34), Some(wanted.as_slice()));
    let (count, message) = unreach(&rt, Array::<291>::new(), &prefixes);
    assert_equal!(&rt, count, 29);
    let wanted = octets(&rt, "0123 02 0000 010c 900f0108 000201 40 20010db8");
    assert_equal!(&rt, message.as_ref().get(16..35), Some(wanted.as_slice()));
}

#[test]
fn reachable_prefixes_are_filled_with_path_ids(rt: HostRuntime) {
    let mut update = begin(&rt, with_paths()).attributes();
    let hop = NextHop::Ipv4([10, 0, 0, 1]);
    unwrap(&rt, update.push_mp_reach(AfiSafiType::Ipv4Multicast, &hop));
    let prefixes = [
        (ipv4([9, 9, 9, 0], 24), Some(PathId(1))),
        (ipv4([9, 9, 9, 0], 24), Some(PathId(2))),
    ];
    assert_equal!(&rt, unwrap(&rt, update.fill_reached(&prefixes)), 2);
    let wanted =
        "0033 02 0000 001c 800e19 0001 02 04 0a000001 00 00000001 18090909 00000002 18090909";
    assert_message(&rt, "two", &update.finish(), wanted);
}

#[test]
fn a_prefix_that_isnt_of_the_list_ends_a_run(rt: HostRuntime) {
    let mut update = begin(&rt, SessionConfig::modern()).attributes();
    let prefixes = [
        (ipv6(0, 1, 0, 48), None),
        (ipv4([9, 9, 9, 0], 24), None),
        (ipv6(0, 2, 0, 48), None),
    ];
    let refused = update.fill_unreached(&prefixes);
    assert_equal!(&rt, refused, Err(WriteError::Malformed));
    assert_equal!(&rt, unwrap(&rt, update.fill_unreached(&[])), 0);
    unwrap(&rt, update.push_mp_unreach(AfiSafiType::Ipv6Unicast));
    let refused = update.fill_unreached(&prefixes);
    assert_equal!(&rt, refused, Err(WriteError::Malformed));
    let wanted = "0024 02 0000 000d 800f0a 000201 3020010db80001";
    assert_message(&rt, "one", update.as_slice(), wanted);
    let more = [(ipv6(0, 2, 0, 48), None)];
    assert_equal!(&rt, unwrap(&rt, update.fill_unreached(&more)), 1);
    let wanted = "002b 02 0000 0014 800f11 000201 3020010db80001 3020010db80002";
    assert_message(&rt, "two", &update.finish(), wanted);
}
