//! Messages but UPDATEs, and values of path attributes, that are written.
use crate::tests::octets::{message, octets};
use crate::tests::{equal, unwrap};
use octseq::{AppendError, Array, AsOctets, ShortBuf, WriteError};
use octseq_asserts::{assert_equal, assert_true};
use octseq_bgp::attribute::{
    Aggregator, As4Aggregator, As4Path, Asn, AtomicAggregate, AttributeType, ComposeAttribute,
    ConventionalNextHop, LocalPref, MultiExitDisc, Origin, OriginType, OriginatorId, PathSegment,
    SegmentType,
};
use octseq_bgp::capability::{FamilyTuple, NewCapability};
use octseq_bgp::community::{ClusterId, ExtendedCommunity, LargeCommunity, StandardCommunity};
use octseq_bgp::message::{
    NotificationBuilder, OpenBuilder, RouteRefreshBuilder, keepalive_octets,
};
use octseq_bgp::session::SessionConfig;
use std::alloc::AllocGlobal;
use std::process::Abort;

/// Ends the test if the octets of a message aren't these, after the marker.
fn assert_message(rt: &(impl AllocGlobal + Abort), what: &str, written: &[u8], text: &str) {
    let wanted = message(rt, text);
    equal(rt, what, written == wanted.as_slice(), true);
}

/// Ends the test if an attribute isn't of a type, or the octets of its value aren't these.
fn assert_value<A: ComposeAttribute>(
    rt: &(impl AllocGlobal + Abort),
    session: &SessionConfig,
    attribute: &A,
    kind: AttributeType,
    text: &str,
) {
    let wanted = octets(rt, text);
    equal(rt, "type", attribute.attribute_type(), kind);
    let Some(len) = attribute.compose_len(session) else {
        panic!(rt; "the value of {text} doesn't fit");
    };
    equal(rt, "length", len, wanted.len());
    let mut written = Vec::new(rt.alloc());
    unwrap(rt, attribute.put(session, &mut written));
    equal(rt, text, written.as_slice() == wanted.as_slice(), true);
}

#[test]
fn a_keepalive_is_a_header(rt: HostRuntime) {
    assert_message(&rt, "keepalive", &keepalive_octets(), "0013 04");
}

#[test]
fn an_open_has_parameters(rt: HostRuntime) {
    let begun = OpenBuilder::from_builder(Vec::new(rt.alloc()), 64512, 180, 0x0A000001);
    let mut open = unwrap(&rt, begun);
    assert_message(
        &rt,
        "begun",
        open.as_slice(),
        "001d 01 04 fc00 00b4 0a000001 00",
    );
    unwrap(
        &rt,
        open.push_capability(&NewCapability::FourOctetAsn(Asn(70000))),
    );
    let wanted = "0025 01 04 fc00 00b4 0a000001 08 0206 4104 00011170";
    assert_message(&rt, "one", open.as_slice(), wanted);
    unwrap(
        &rt,
        open.push_capability(&NewCapability::MultiProtocol(2, 0, 1)),
    );
    unwrap(&rt, open.push_parameter(9, &[7]));
    let wanted = "0030 01 04 fc00 00b4 0a000001 13 0206 4104 00011170 0206 0104 00020001 0901 07";
    assert_message(&rt, "three", &open.finish(), wanted);
}

#[test]
fn capabilities_are_written(rt: HostRuntime) {
    let begun = OpenBuilder::from_builder(Vec::new(rt.alloc()), 1, 2, 3);
    let mut open = unwrap(&rt, begun);
    let families = [FamilyTuple {
        afi: 1,
        safi: 1,
        flags: 3,
    }];
    unwrap(&rt, open.push_capability(&NewCapability::RouteRefresh));
    unwrap(&rt, open.push_capability(&NewCapability::ExtendedMessage));
    unwrap(
        &rt,
        open.push_capability(&NewCapability::EnhancedRouteRefresh),
    );
    unwrap(
        &rt,
        open.push_capability(&NewCapability::AddPath(&families)),
    );
    unwrap(
        &rt,
        open.push_capability(&NewCapability::GracefulRestart(0x8078, &families)),
    );
    unwrap(
        &rt,
        open.push_capability(&NewCapability::Unknown(200, &[1, 2])),
    );
    assert_equal!(
        &rt,
        open.push_capability(&NewCapability::AddPath(&[])),
        Err(WriteError::Malformed)
    );
    let wanted =
        "0041 01 04 0001 0002 00000003 24 0202 0200 0202 0600 0202 4600 0206 4504 00010103 \
        0208 4006 8078 00010103 0204 c802 0102";
    assert_message(&rt, "all", &open.finish(), wanted);
}

#[test]
fn a_long_open_has_lengths_of_two_octets(rt: HostRuntime) {
    let begun = OpenBuilder::from_builder_long(Vec::new(rt.alloc()), 64512, 180, 0x0A000001);
    let mut open = unwrap(&rt, begun);
    let wanted = "0020 01 04 fc00 00b4 0a000001 ff ff 0000";
    assert_message(&rt, "begun", open.as_slice(), wanted);
    unwrap(&rt, open.push_capability(&NewCapability::RouteRefresh));
    let wanted = "0025 01 04 fc00 00b4 0a000001 ff ff 0005 02 0002 0200";
    assert_message(&rt, "one", &open.finish(), wanted);
}

#[test]
fn a_parameter_fits_or_is_refused(rt: HostRuntime) {
    let small = OpenBuilder::from_builder(Array::<28>::new(), 1, 2, 3);
    assert_true!(&rt, matches!(small, Err(AppendError::Short(ShortBuf))));
    let mut open = unwrap(&rt, OpenBuilder::from_builder(Array::<31>::new(), 1, 2, 3));
    assert_equal!(
        &rt,
        open.push_parameter(255, &[]),
        Err(WriteError::Malformed)
    );
    assert_equal!(
        &rt,
        open.push_parameter(2, &[0; 256]),
        Err(WriteError::Malformed)
    );
    assert_equal!(&rt, open.push_parameter(2, &[0]), Err(WriteError::Short));
    unwrap(&rt, open.push_parameter(2, &[]));
    let octets = open.finish();
    assert_message(
        &rt,
        "full",
        octets.as_ref(),
        "001f 01 04 0001 0002 00000003 02 0200",
    );
}

#[test]
fn a_notification_has_data(rt: HostRuntime) {
    let session = SessionConfig::modern();
    let begun = NotificationBuilder::from_builder(Vec::new(rt.alloc()), &session, 6, 2);
    let mut notification = unwrap(&rt, begun);
    assert_message(&rt, "begun", notification.as_slice(), "0015 03 06 02");
    unwrap(&rt, notification.push_communication("bye"));
    assert_message(
        &rt,
        "text",
        notification.as_slice(),
        "0019 03 06 02 03 627965",
    );
    unwrap(&rt, notification.push(&[1]));
    assert_message(
        &rt,
        "octets",
        &notification.finish(),
        "001a 03 06 02 03 627965 01",
    );
}

#[test]
fn a_route_refresh_has_more_octets(rt: HostRuntime) {
    let session = SessionConfig::modern();
    let begun = RouteRefreshBuilder::from_builder(Array::<25>::new(), &session, 1, 0, 128);
    let mut refresh = unwrap(&rt, begun);
    assert_message(&rt, "begun", refresh.as_slice(), "0017 05 0001 00 80");
    unwrap(&rt, refresh.push(&[0xAA, 0xBB]));
    assert_true!(
        &rt,
        matches!(refresh.push(&[1]), Err(AppendError::Short(ShortBuf)))
    );
    let octets = refresh.finish();
    assert_message(&rt, "more", octets.as_ref(), "0019 05 0001 00 80 aabb");
}

#[test]
fn numbers_are_written(rt: HostRuntime) {
    let s = SessionConfig::modern();
    assert_value(
        &rt,
        &s,
        &Origin(OriginType::Igp),
        AttributeType::Origin,
        "00",
    );
    assert_value(
        &rt,
        &s,
        &Origin(OriginType::Egp),
        AttributeType::Origin,
        "01",
    );
    assert_value(
        &rt,
        &s,
        &Origin(OriginType::Incomplete),
        AttributeType::Origin,
        "02",
    );
    let hop = ConventionalNextHop(0x0A000001);
    assert_value(&rt, &s, &hop, AttributeType::NextHop, "0a000001");
    assert_value(
        &rt,
        &s,
        &MultiExitDisc(7),
        AttributeType::MultiExitDisc,
        "00000007",
    );
    assert_value(
        &rt,
        &s,
        &LocalPref(100),
        AttributeType::LocalPref,
        "00000064",
    );
    assert_value(
        &rt,
        &s,
        &AtomicAggregate,
        AttributeType::AtomicAggregate,
        "",
    );
    assert_value(
        &rt,
        &s,
        &OriginatorId(0x01020304),
        AttributeType::OriginatorId,
        "01020304",
    );
}

#[test]
fn as_numbers_have_the_width_of_the_session(rt: HostRuntime) {
    let (modern, legacy) = (SessionConfig::modern(), SessionConfig::legacy());
    let aggregator = Aggregator {
        asn: Asn(64512),
        address: 0x0A000001,
    };
    assert_value(
        &rt,
        &modern,
        &aggregator,
        AttributeType::Aggregator,
        "0000fc00 0a000001",
    );
    assert_value(
        &rt,
        &legacy,
        &aggregator,
        AttributeType::Aggregator,
        "fc00 0a000001",
    );
    let wide = As4Aggregator(aggregator);
    assert_value(
        &rt,
        &legacy,
        &wide,
        AttributeType::As4Aggregator,
        "0000fc00 0a000001",
    );
    let asns = [Asn(1), Asn(70000)];
    let segments = [PathSegment {
        kind: SegmentType::Sequence,
        asns: &asns,
    }];
    let path: &[PathSegment<'_>] = &segments;
    assert_value(
        &rt,
        &modern,
        &path,
        AttributeType::AsPath,
        "0202 00000001 00011170",
    );
    assert_equal!(&rt, path.compose_len(&legacy), None);
    assert_value(
        &rt,
        &legacy,
        &As4Path(path),
        AttributeType::As4Path,
        "0202 00000001 00011170",
    );
    let few = [PathSegment {
        kind: SegmentType::Set,
        asns: &asns[..1],
    }];
    let path: &[PathSegment<'_>] = &few;
    assert_value(&rt, &legacy, &path, AttributeType::AsPath, "0101 0001");
}

#[test]
fn communities_are_written(rt: HostRuntime) {
    let s = SessionConfig::modern();
    let standard: &[StandardCommunity] = &[StandardCommunity(0xFDE80001), StandardCommunity(2)];
    assert_value(
        &rt,
        &s,
        &standard,
        AttributeType::Communities,
        "fde80001 00000002",
    );
    let clusters: &[ClusterId] = &[ClusterId(0x0A000001)];
    assert_value(&rt, &s, &clusters, AttributeType::ClusterList, "0a000001");
    let extended: &[ExtendedCommunity] = &[ExtendedCommunity(0x0002_FDE8_0000_0064)];
    let kind = AttributeType::ExtendedCommunities;
    assert_value(&rt, &s, &extended, kind, "0002fde800000064");
    let large: &[LargeCommunity] = &[LargeCommunity {
        global: 1,
        data1: 2,
        data2: 3,
    }];
    let kind = AttributeType::LargeCommunities;
    assert_value(&rt, &s, &large, kind, "00000001 00000002 00000003");
    let none: &[StandardCommunity] = &[];
    assert_equal!(&rt, none.compose_len(&s), None);
}
