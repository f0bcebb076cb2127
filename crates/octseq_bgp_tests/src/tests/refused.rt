//! Refused requests for memory.
//!
//! `.ci/refused` runs these tests with their n-th request refused, for each n up to the last of them. A refusal ends a
//! test with its error, once the test has checked what is there.
use crate::tests::octets::message;
use crate::tests::unwrap;
use octseq::str::DisplayError;
use octseq::{AsOctets, StrBuilder, WriteError};
use octseq_asserts::{assert_equal, assert_true};
use octseq_bgp::attribute::{Asn, NextHop, PathSegment, SegmentType};
use octseq_bgp::capability::NewCapability;
use octseq_bgp::family::{Afi, AfiSafiType};
use octseq_bgp::message::{
    Message, MessageReader, NotificationBuilder, OpenBuilder, ReadMessageError,
    RouteRefreshBuilder, UpdateBuilder, rewrite,
};
use octseq_bgp::prefix::Prefix;
use octseq_bgp::session::SessionConfig;

/// Appends the text of a message.
fn append<R: AsOctets + Copy>(
    text: &mut StrBuilder<Vec<u8>>,
    octets: R,
) -> Result<(), DisplayError> {
    match Message::parse(octets, SessionConfig::modern()) {
        Ok(message) => message.append_text(text),
        Err(_) => Err(DisplayError::Display),
    }
}

#[test]
fn a_refused_text_stays(rt: HostRuntime) {
    let octets = message(
        &rt,
        "002f 02 0000 0014 40010100 40020602010000fdfc 4003040a000001 18090909",
    );
    let mut text = unwrap(&rt, StrBuilder::new(rt.alloc()));
    unwrap(&rt, text.push_str("before "));
    let appended = append(&mut text, &octets);
    if appended.is_err() {
        assert_equal!(&rt, text.as_str(), "before ");
    }
    unwrap(&rt, appended);
    assert_equal!(&rt, text.len(), 123);
}

#[test]
fn a_refused_message_ends_the_stream(rt: HostRuntime) {
    let octets = message(&rt, "0013 04");
    let mut messages = MessageReader::new(rt.alloc(), octets.as_slice(), SessionConfig::modern());
    let found = messages.read_next();
    if matches!(found, Err(ReadMessageError::Memory)) {
        assert_true!(&rt, messages.message().is_err());
        assert_true!(&rt, !unwrap(&rt, messages.read_next()));
    }
    assert_true!(&rt, unwrap(&rt, found));
    assert_equal!(&rt, messages.octets().len(), 19);
}

/// Whether octets are a message.
fn is_message<R: AsOctets + Copy>(octets: R) -> bool {
    Message::parse(octets, SessionConfig::modern()).is_ok()
}

/// Returns a prefix whose address begins with a number.
fn prefix(afi: Afi, first: u8) -> Prefix {
    Prefix {
        afi,
        len: 32,
        address: [first, 0, 0, 1, 0, 0, 0, 0, 0, 0, 0, 0, 0, 0, 0, 0],
    }
}

#[test]
fn a_refused_prefix_leaves_the_update(rt: HostRuntime) {
    let begun = UpdateBuilder::from_builder(Vec::new(rt.alloc()), SessionConfig::modern());
    let mut update = unwrap(&rt, begun);
    for first in 0..40_u8 {
        let before = update.as_slice().len();
        let pushed = update.push_withdrawn(&prefix(Afi::Ipv4, first), None);
        if pushed.is_err() {
            assert_equal!(&rt, update.as_slice().len(), before);
            assert_true!(&rt, is_message(update.as_slice()));
        }
        unwrap(&rt, pushed);
    }
    assert_equal!(&rt, update.finish().len(), 223);
}

#[test]
fn a_refused_attribute_leaves_the_update(rt: HostRuntime) {
    let begun = UpdateBuilder::from_builder(Vec::new(rt.alloc()), SessionConfig::modern());
    let mut update = unwrap(&rt, begun).attributes();
    let asns = [Asn(65001); 20];
    let path = [PathSegment {
        kind: SegmentType::Sequence,
        asns: &asns,
    }];
    let pushed = update.push_value(&path.as_slice());
    if pushed.is_err() {
        assert_equal!(&rt, update.as_slice().len(), 23);
        assert_true!(&rt, is_message(update.as_slice()));
    }
    unwrap(&rt, pushed);
    assert_equal!(&rt, update.finish().len(), 108);
}

#[test]
fn a_refused_prefix_leaves_its_list(rt: HostRuntime) {
    let begun = UpdateBuilder::from_builder(Vec::new(rt.alloc()), SessionConfig::modern());
    let mut update = unwrap(&rt, begun).attributes();
    let next_hop = NextHop::Ipv6([0x20; 16]);
    unwrap(
        &rt,
        update.push_mp_reach(AfiSafiType::Ipv6Unicast, &next_hop),
    );
    for first in 0..60_u8 {
        let before = update.as_slice().len();
        let pushed = update.push_reached(&prefix(Afi::Ipv6, first), None);
        if pushed.is_err() {
            assert_equal!(&rt, update.as_slice().len(), before);
            assert_true!(&rt, is_message(update.as_slice()));
        }
        unwrap(&rt, pushed);
    }
    assert_equal!(&rt, update.finish().len(), 348);
}

#[test]
fn a_refused_capability_leaves_the_open(rt: HostRuntime) {
    let begun = OpenBuilder::from_builder(Vec::new(rt.alloc()), 64512, 180, 0x0A000001);
    let mut open = unwrap(&rt, begun);
    for _ in 0..20 {
        let before = open.as_slice().len();
        let pushed = open.push_capability(&NewCapability::RouteRefresh);
        if pushed.is_err() {
            assert_equal!(&rt, open.as_slice().len(), before);
            assert_true!(&rt, is_message(open.as_slice()));
        }
        unwrap(&rt, pushed);
    }
    assert_equal!(&rt, open.finish().len(), 109);
}

#[test]
fn refused_octets_leave_a_notification(rt: HostRuntime) {
    let session = SessionConfig::modern();
    let begun = NotificationBuilder::from_builder(Vec::new(rt.alloc()), &session, 6, 4);
    let mut notification = unwrap(&rt, begun);
    let pushed = notification.push(&[7; 100]);
    if pushed.is_err() {
        assert_equal!(&rt, notification.as_slice().len(), 21);
        assert_true!(&rt, is_message(notification.as_slice()));
    }
    unwrap(&rt, pushed);
    assert_equal!(&rt, notification.finish().len(), 121);
}

#[test]
fn refused_octets_leave_a_route_refresh(rt: HostRuntime) {
    let session = SessionConfig::modern();
    let begun = RouteRefreshBuilder::from_builder(Vec::new(rt.alloc()), &session, 1, 0, 1);
    let mut refresh = unwrap(&rt, begun);
    let pushed = refresh.push(&[7; 100]);
    if pushed.is_err() {
        assert_equal!(&rt, refresh.as_slice().len(), 23);
        assert_true!(&rt, is_message(refresh.as_slice()));
    }
    unwrap(&rt, pushed);
    assert_equal!(&rt, refresh.finish().len(), 123);
}

#[test]
fn a_message_is_written_anew_or_refused(rt: HostRuntime) {
    let read = message(&rt, "0023 02 0000 0008 d005000400000064 18090909");
    let written = rewrite(
        read.as_slice(),
        SessionConfig::modern(),
        Vec::new(rt.alloc()),
    );
    assert_true!(&rt, !matches!(written, Err(WriteError::Short)));
    assert_equal!(&rt, unwrap(&rt, written).len(), 34);
}
