//! Records by their octets: where they end, and how many turns reading them takes.
use crate::tests::unwrap;
use octseq::{AsOctets, Malformed, Parser, Turns};
use octseq_asserts::{assert_equal, assert_true};
use octseq_bgp::family::Afi;
use octseq_bgp::session::SessionConfig;
use octseq_mrt::{
    CommonHeader, Event, Record, RecordValue, RibAttribute, RibValue, next_record, one_record,
    one_record_value,
};
use std::alloc::AllocGlobal;
use std::process::Abort;

/// A record of a header of 12 octets and 2 more: RFC 6396, 2.
pub const OTHER: &[u8] = b"\x65\x53\xF1\x00\0\x0C\0\x01\0\0\0\x02\x01\x02";

/// A peer index table with four peers, one of each type: RFC 6396, 4.3.1.
const PEERS: &[u8] = b"\x65\x53\xF1\x00\0\x0D\0\x01\0\0\0\x54\x0A\0\0\x09\0\x04view\0\x04\
\0\x0A\0\0\x01\x0A\0\0\x01\xFD\xE9\
\x01\x0A\0\0\x02\x20\x01\x0D\xB8\0\0\0\0\0\0\0\0\0\0\0\x01\xFD\xEA\
\x02\x0A\0\0\x03\x0A\0\0\x03\xFA\x56\xEA\x01\
\xFF\x0A\0\0\x04\x20\x01\x0D\xB8\0\0\0\0\0\0\0\0\0\0\0\x02\xFA\x56\xEA\x02";

/// A RIB of IPv4 unicast with a path id, and an entry with two attributes: RFC 8050, 4.
pub const RIB: &[u8] = b"\x65\x53\xF1\x00\0\x0D\0\x08\0\0\0\x22\0\0\0\x01\x18\x09\x09\x09\0\x01\
\0\x01\x65\x53\xF1\x00\0\0\0\x07\0\x0C\x40\x01\x01\0\x80\x0E\x05\x04\x0A\0\0\x01";

/// A KEEPALIVE with microseconds: RFC 6396, 3 and 4.4.3.
pub const KEEPALIVE: &[u8] = b"\x65\x53\xF1\x00\0\x11\0\x04\0\0\0\x2B\0\0\0\x7B\
\xFA\x56\xEA\x01\0\0\xFD\xEA\0\x03\0\x01\x0A\0\0\x01\x0A\0\0\x02\
\xFF\xFF\xFF\xFF\xFF\xFF\xFF\xFF\xFF\xFF\xFF\xFF\xFF\xFF\xFF\xFF\0\x13\x04";

/// Checks that neither fewer nor more octets are a record.
fn is_whole(rt: &(impl Abort + AllocGlobal), octets: &[u8]) {
    for len in 0..octets.len() {
        assert_true!(rt, Record::parse(&octets[..len]).is_err());
        let mut parser = Parser::from_ref(&octets[..len]);
        assert_equal!(rt, next_record(&mut parser).is_err(), len > 0);
        assert_equal!(rt, parser.pos(), 0);
    }
    assert_true!(rt, Record::parse(octets).is_ok());
    let mut more = unwrap(rt, octets.to_vec(rt.alloc()));
    unwrap(rt, more.push(0));
    assert_true!(rt, Record::parse(more.as_slice()).is_err());
}

#[test]
fn records_end_where_their_headers_say(rt: HostRuntime) {
    one_record();
    one_record_value();
    is_whole(&rt, OTHER);
    is_whole(&rt, PEERS);
    is_whole(&rt, RIB);
    is_whole(&rt, KEEPALIVE);
}

#[test]
fn records_follow_one_another(rt: HostRuntime) {
    let mut octets = unwrap(&rt, OTHER.to_vec(rt.alloc()));
    unwrap(&rt, octets.extend_from_slice(RIB));
    let mut parser = Parser::from_ref(octets.as_slice());
    let mut ends = Vec::new(rt.alloc());
    for _ in 0..3 {
        if let Some(record) = unwrap(&rt, next_record(&mut parser)) {
            unwrap(&rt, ends.push((record.header.subtype, record.octets.pos())));
        }
    }
    assert_equal!(&rt, ends.as_slice(), &[(1, 12), (8, 26)]);
}

#[test]
fn headers_are_read(rt: HostRuntime) {
    let header = unwrap(&rt, CommonHeader::parse(&mut Parser::from_ref(OTHER)));
    let wanted = CommonHeader {
        timestamp: 1_700_000_000,
        type_code: 12,
        subtype: 1,
        length: 2,
    };
    assert_equal!(&rt, header, wanted);
}

/// Whether a record has the form of its type, by the reading that counts turns.
fn is_typed<R: AsOctets + Copy>(octets: R) -> Result<bool, Malformed> {
    let value = Record::parse(octets)?.value_counted(&mut Turns::new());
    Ok(!matches!(value, RecordValue::Opaque(_)))
}

#[test]
fn readings_are_counted(rt: HostRuntime) {
    assert_true!(&rt, unwrap(&rt, is_typed(PEERS)));
    assert_true!(&rt, unwrap(&rt, is_typed(RIB)));
    assert_true!(&rt, unwrap(&rt, is_typed(KEEPALIVE)));
    assert_true!(&rt, !unwrap(&rt, is_typed(OTHER)));
}

/// Checks the parts of a RIB of IPv4.
fn has_parts<R: AsOctets + Copy>(rt: &impl Abort, octets: R) {
    let RecordValue::Rib(rib) = unwrap(rt, Record::parse(octets)).value() else {
        panic!(rt; "no RIB");
    };
    let prefix = rib.prefix().prefix();
    assert_equal!(rt, (prefix.afi, prefix.len), (Afi::Ipv4, 24));
    for entry in rib.entries {
        assert_equal!(rt, entry.peer_index, 1);
        for attribute in entry.attributes {
            is_next_hop(rt, &attribute);
        }
    }
}

/// Checks that an attribute is next hops exactly if it is an MP_REACH_NLRI.
fn is_next_hop<R: AsOctets + Copy>(rt: &impl Abort, attribute: &RibAttribute<R>) {
    let same = attribute.path_attribute();
    assert_equal!(rt, same.session, SessionConfig::modern());
    let value = attribute.value_counted(&mut Turns::new());
    let is_alone = matches!(value, RibValue::NextHop(_));
    assert_equal!(rt, is_alone, attribute.type_code == 14);
}

#[test]
fn a_rib_has_its_parts(rt: HostRuntime) {
    has_parts(&rt, RIB);
}

/// Checks the message of a record, and its session.
fn has_message<R: AsOctets + Copy>(rt: &impl Abort, octets: R) {
    let RecordValue::Bgp4Mp(it) = unwrap(rt, Record::parse(octets)).value() else {
        panic!(rt; "no BGP4MP");
    };
    assert_equal!(rt, it.microseconds, Some(123));
    let Event::Message(message) = it.event else {
        panic!(rt; "no message");
    };
    assert_equal!(rt, message.session.four_octet_asn, true);
    assert_equal!(rt, message.session.extended_message, true);
    assert_true!(rt, message.message().is_ok());
}

#[test]
fn a_message_has_its_session(rt: HostRuntime) {
    has_message(&rt, KEEPALIVE);
}
