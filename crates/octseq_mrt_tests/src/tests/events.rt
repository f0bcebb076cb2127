//! Messages and state changes written: RFC 6396, 4.4, and RFC 8050, 3.
use crate::tests::unwrap;
use octseq::{Array, AsOctets, OctetsBuilder, WriteError};
use octseq_asserts::{assert_equal, assert_true};
use octseq_bgp::attribute::Asn;
use octseq_mrt::{Bgp4Mp, Bgp4MpSubtype, Event, MessageOctets, RecordKind};
use std::alloc::AllocGlobal;
use std::net::{IpAddr, Ipv4Addr, Ipv6Addr};
use std::process::Abort;

/// The octets of a message, which is none.
pub const OCTETS: &[u8] = b"\x01\x02\x03";

/// An event between 65001 at 10.0.0.1 and 65002 at 10.0.0.2, on interface 3.
pub fn between<R: AsOctets + Copy>(event: Event<R>) -> Bgp4Mp<R> {
    Bgp4Mp {
        microseconds: None,
        peer_asn: Asn(65001),
        local_asn: Asn(65002),
        interface: 3,
        peer_addr: IpAddr::V4(Ipv4Addr::new(10, 0, 0, 1)),
        local_addr: IpAddr::V4(Ipv4Addr::new(10, 0, 0, 2)),
        event,
    }
}

/// A message of these octets, in a record of a subtype.
pub fn message<R: AsOctets + Copy>(octets: R, subtype: Bgp4MpSubtype) -> Bgp4Mp<R> {
    between(Event::Message(MessageOctets::new(subtype, octets)))
}

/// Returns what is appended to an octet.
fn appended<R: AsOctets + Copy>(
    rt: &(impl Abort + AllocGlobal),
    it: &Bgp4Mp<R>,
    subtype: Bgp4MpSubtype,
) -> Result<Vec<u8>, WriteError> {
    let mut octets = Vec::new(rt.alloc());
    unwrap(rt, octets.push(9));
    match it.append_octets(subtype, &mut octets) {
        Ok(()) => Ok(octets),
        Err(error) => {
            assert_equal!(rt, octets.as_slice(), b"\x09");
            Err(error)
        }
    }
}

/// Ends the test if a message isn't appended as these octets, after another.
fn assert_message<R: AsOctets + Copy>(
    rt: &(impl Abort + AllocGlobal),
    octets: R,
    subtype: Bgp4MpSubtype,
    wanted: &[u8],
) {
    let it = message(octets, subtype);
    assert_equal!(
        rt,
        unwrap(rt, appended(rt, &it, subtype)).as_slice(),
        wanted
    );
    assert_equal!(rt, it.kind(subtype), RecordKind::Bgp4Mp(subtype));
}

#[test]
fn a_message_has_the_octets_of_its_subtype(rt: HostRuntime) {
    assert_message(
        &rt,
        OCTETS,
        Bgp4MpSubtype::Message,
        b"\x09\xFD\xE9\xFD\xEA\0\x03\0\x01\x0A\0\0\x01\x0A\0\0\x02\x01\x02\x03",
    );
    assert_message(
        &rt,
        OCTETS,
        Bgp4MpSubtype::MessageAs4AddPath,
        b"\x09\0\0\xFD\xE9\0\0\xFD\xEA\0\x03\0\x01\x0A\0\0\x01\x0A\0\0\x02\x01\x02\x03",
    );
}

/// A state change between addresses of IPv6, with microseconds.
fn change_of_ipv6<R: AsOctets + Copy>() -> Bgp4Mp<R> {
    Bgp4Mp {
        microseconds: Some(123),
        peer_asn: Asn(65001),
        local_asn: Asn(65002),
        interface: 3,
        peer_addr: IpAddr::V6(Ipv6Addr::LOCALHOST),
        local_addr: IpAddr::V6(Ipv6Addr::UNSPECIFIED),
        event: Event::StateChange(0x0102, 0x0304),
    }
}

/// Ends the test if a state change isn't appended as its octets.
fn assert_change<R: AsOctets + Copy>(rt: &(impl Abort + AllocGlobal)) {
    let change = change_of_ipv6::<R>();
    let wide = Bgp4MpSubtype::StateChangeAs4;
    assert_equal!(
        rt,
        unwrap(rt, appended(rt, &change, wide)).as_slice(),
        b"\x09\0\0\0\x7B\0\0\xFD\xE9\0\0\xFD\xEA\0\x03\0\x02\
\0\0\0\0\0\0\0\0\0\0\0\0\0\0\0\x01\0\0\0\0\0\0\0\0\0\0\0\0\0\0\0\0\x01\x02\x03\x04"
    );
    assert_equal!(rt, change.kind(wide), RecordKind::Bgp4MpEt(wide));
}

#[test]
fn a_state_change_has_two_states(rt: HostRuntime) {
    assert_change::<&[u8]>(&rt);
}

/// Whether a record is refused as malformed.
fn is_malformed<R: AsOctets + Copy>(
    rt: &(impl Abort + AllocGlobal),
    it: &Bgp4Mp<R>,
    subtype: Bgp4MpSubtype,
) -> bool {
    appended(rt, it, subtype).err() == Some(WriteError::Malformed)
}

/// Ends the test if what doesn't fit its subtype isn't refused.
fn assert_refusals<R: AsOctets + Copy>(rt: &(impl Abort + AllocGlobal), octets: R) {
    let (narrow, wide) = (Bgp4MpSubtype::Message, Bgp4MpSubtype::MessageAs4);
    let mut peer = message(octets, narrow);
    peer.peer_asn = Asn(65536);
    assert_true!(rt, is_malformed(rt, &peer, narrow));
    assert_true!(rt, !is_malformed(rt, &peer, wide));
    let mut local = message(octets, narrow);
    local.local_asn = Asn(65536);
    assert_true!(rt, is_malformed(rt, &local, narrow));
    assert_true!(rt, !is_malformed(rt, &local, wide));
    let mut mixed = message(octets, narrow);
    mixed.local_addr = IpAddr::V6(Ipv6Addr::LOCALHOST);
    assert_true!(rt, is_malformed(rt, &mixed, narrow));
    let change = between::<R>(Event::StateChange(1, 2));
    assert_true!(rt, is_malformed(rt, &change, narrow));
    let subtype = Bgp4MpSubtype::StateChange;
    let other = message(octets, subtype);
    assert_true!(rt, is_malformed(rt, &other, subtype));
    assert_true!(rt, !is_malformed(rt, &change, subtype));
}

#[test]
fn what_does_not_fit_its_subtype_is_refused(rt: HostRuntime) {
    assert_refusals(&rt, OCTETS);
}

/// Ends the test if a message that needs 19 octets isn't refused by 18.
fn assert_room<R: AsOctets + Copy>(rt: &impl Abort, octets: R) {
    let subtype = Bgp4MpSubtype::Message;
    let it = message(octets, subtype);
    let mut less = Array::<18>::new();
    assert_equal!(
        rt,
        it.append_octets(subtype, &mut less),
        Err(WriteError::Short)
    );
    assert_equal!(rt, less.len(), 0);
    let mut just = Array::<19>::new();
    assert_equal!(rt, it.append_octets(subtype, &mut just), Ok(()));
    assert_equal!(rt, just.len(), 19);
}

#[test]
fn an_event_without_room_is_refused(rt: HostRuntime) {
    assert_room(&rt, OCTETS);
}
