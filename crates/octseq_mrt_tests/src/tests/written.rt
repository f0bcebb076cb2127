//! Records written: RFC 6396, 2 and 4.
use crate::tests::records::OTHER;
use crate::tests::unwrap;
use octseq::{AppendError, Array, AsOctets, OctetsBuilder, ShortBuf, WriteError};
use octseq_asserts::{assert_equal, assert_true};
use octseq_bgp::attribute::Asn;
use octseq_mrt::{PeerEntry, PeerTableBuilder, RecordKind, RecordWriter};
use std::alloc::AllocGlobal;
use std::net::{IpAddr, Ipv4Addr, Ipv6Addr};
use std::process::Abort;

/// A peer with an IPv4 address.
pub fn peer(peer_type: u8, asn: u32) -> PeerEntry {
    PeerEntry {
        peer_type,
        bgp_id: 0x0A00_0001,
        addr: IpAddr::V4(Ipv4Addr::new(10, 0, 0, 1)),
        asn: Asn(asn),
    }
}

#[test]
fn a_table_counts_its_peers(rt: HostRuntime) {
    let mut table = unwrap(&rt, PeerTableBuilder::new(Vec::new(rt.alloc()), 1, b"v"));
    assert_equal!(&rt, table.as_slice(), b"\0\0\0\x01\0\x01v\0\0");
    unwrap(&rt, table.push_peer(&peer(0, 65001)));
    assert_equal!(
        &rt,
        table.as_slice(),
        b"\0\0\0\x01\0\x01v\0\x01\0\x0A\0\0\x01\x0A\0\0\x01\xFD\xE9"
    );
    assert_equal!(&rt, table.count(), 1);
}

#[test]
fn a_peer_is_as_its_type_says(rt: HostRuntime) {
    let mut table = unwrap(&rt, PeerTableBuilder::new(Vec::new(rt.alloc()), 1, b""));
    let malformed = Err(WriteError::Malformed);
    assert_equal!(&rt, table.push_peer(&peer(1, 65001)), malformed);
    assert_equal!(&rt, table.push_peer(&peer(0, 65536)), malformed);
    let mut ipv6 = peer(2, 65536);
    ipv6.addr = IpAddr::V6(Ipv6Addr::LOCALHOST);
    assert_equal!(&rt, table.push_peer(&ipv6), malformed);
    assert_equal!(&rt, table.as_slice(), b"\0\0\0\x01\0\0\0\0");
    assert_equal!(&rt, table.push_peer(&peer(0xFE, 65536)), Ok(()));
}

#[test]
fn a_peer_without_room_is_refused(rt: HostRuntime) {
    let mut table = unwrap(&rt, PeerTableBuilder::new(Array::<19>::new(), 1, b"v"));
    assert_equal!(
        &rt,
        table.push_peer(&peer(0, 65001)),
        Err(WriteError::Short)
    );
    assert_equal!(&rt, table.count(), 0);
    assert_equal!(&rt, table.finish().len(), 9);
    let mut table = unwrap(&rt, PeerTableBuilder::new(Array::<20>::new(), 1, b"v"));
    assert_equal!(&rt, table.push_peer(&peer(0, 65001)), Ok(()));
    assert_equal!(&rt, table.count(), 1);
    assert_equal!(&rt, table.finish().len(), 20);
    let short = PeerTableBuilder::new(Array::<8>::new(), 1, b"v");
    assert_true!(&rt, matches!(short, Err(AppendError::Short(ShortBuf))));
}

#[test]
fn a_table_has_65535_peers_at_most(rt: HostRuntime) {
    let mut name = Vec::new(rt.alloc());
    unwrap(&rt, name.resize(65536, 0_u8));
    let long = PeerTableBuilder::new(Vec::new(rt.alloc()), 1, name.as_slice());
    assert_true!(&rt, matches!(long, Err(AppendError::Short(ShortBuf))));
    let shorter = unwrap(&rt, name.as_slice().get(1..).ok_or("short"));
    let mut table = unwrap(&rt, PeerTableBuilder::new(Vec::new(rt.alloc()), 1, shorter));
    for _ in 0..65535 {
        unwrap(&rt, table.push_peer(&peer(0, 65001)));
    }
    assert_equal!(
        &rt,
        table.push_peer(&peer(0, 65001)),
        Err(WriteError::Short)
    );
    assert_equal!(&rt, table.count(), 65535);
    let octets = table.finish();
    assert_equal!(&rt, octets.len(), 8 + 65535 + 11 * 65535);
    assert_equal!(
        &rt,
        octets.as_slice().get(6 + 65535..8 + 65535),
        Some(b"\xFF\xFF".as_slice())
    );
}

#[test]
fn records_are_written_one_after_another(rt: HostRuntime) {
    let mut records = RecordWriter::new(Vec::new(rt.alloc()));
    unwrap(&rt, records.write_raw(1_700_000_000, 12, 1, &[1, 2]));
    assert_equal!(&rt, records.get_ref().as_slice(), OTHER);
    let mut table = unwrap(
        &rt,
        PeerTableBuilder::new(Vec::new(rt.alloc()), 0x0A000009, b"view"),
    );
    for (peer_type, address, asn) in [(0, 1, 65001), (2, 3, 4200000001)] {
        unwrap(
            &rt,
            table.push_peer(&PeerEntry {
                peer_type,
                bgp_id: 0x0A000000 + u32::from(address),
                addr: IpAddr::V4(Ipv4Addr::new(10, 0, 0, address)),
                asn: Asn(asn),
            }),
        );
    }
    let octets = table.finish();
    unwrap(
        &rt,
        records.write_record(1_700_000_000, RecordKind::PeerIndexTable, &octets),
    );
    let written = records.into_inner();
    let wanted = b"\x65\x53\xF1\x00\0\x0D\0\x01\0\0\0\x24\x0A\0\0\x09\0\x04view\0\x02\
\0\x0A\0\0\x01\x0A\0\0\x01\xFD\xE9\
\x02\x0A\0\0\x03\x0A\0\0\x03\xFA\x56\xEA\x01";
    assert_true!(&rt, written.as_slice().starts_with(OTHER));
    assert_true!(&rt, written.as_slice().ends_with(wanted));
    assert_equal!(&rt, written.len(), OTHER.len() + wanted.len());
}
