//! Types and subtypes: RFC 6396, 4, and RFC 8050.
use octseq_asserts::assert_equal;
use octseq_bgp::family::AfiSafiType;
use octseq_bgp::session::AddPath;
use octseq_mrt::{Bgp4MpSubtype, RecordKind};

#[test]
fn kinds_have_numbers(rt: HostRuntime) {
    let table = RecordKind::from_numbers(13, 1);
    assert_equal!(&rt, table, Some(RecordKind::PeerIndexTable));
    let rib = RecordKind::from_numbers(13, 11);
    assert_equal!(
        &rt,
        rib,
        Some(RecordKind::Rib(AfiSafiType::Ipv6Multicast, true))
    );
    let message = RecordKind::from_numbers(17, 4);
    let subtype = Bgp4MpSubtype::MessageAs4;
    assert_equal!(&rt, message, Some(RecordKind::Bgp4MpEt(subtype)));
    assert_equal!(&rt, RecordKind::from_numbers(13, 6), None);
    assert_equal!(&rt, RecordKind::from_numbers(16, 3), None);
    assert_equal!(&rt, RecordKind::from_numbers(12, 1), None);
}

#[test]
fn subtypes_say_how_messages_are_read(rt: HostRuntime) {
    let subtype = Bgp4MpSubtype::MessageLocalAddPath;
    assert_equal!(&rt, subtype.number(), 10);
    assert_equal!(&rt, subtype.is_state_change(), false);
    assert_equal!(&rt, subtype.has_wide_asns(), false);
    assert_equal!(&rt, subtype.has_path_ids(), true);
    assert_equal!(&rt, subtype.session().add_path, AddPath::all(true));
}
