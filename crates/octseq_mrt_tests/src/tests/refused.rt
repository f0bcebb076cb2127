//! Refused requests for memory.
//!
//! `.ci/refused` runs these tests with their n-th request refused, for each n up to the last of them.
use crate::tests::records::OTHER;
use crate::tests::ribs::prefix;
use crate::tests::unwrap;
use crate::tests::written::peer;
use octseq_asserts::{assert_equal, assert_true};
use octseq_bgp::family::{Afi, AfiSafiType};
use octseq_mrt::{PeerTableBuilder, RecordReader, RibBuilder};

#[test]
fn a_refused_record_ends_the_file(rt: HostRuntime) {
    let mut records = RecordReader::new(rt.alloc(), OTHER);
    let found = records.read_next();
    if found.is_err() {
        assert_true!(&rt, records.record().is_err());
        assert_true!(&rt, !unwrap(&rt, records.read_next()));
    }
    assert_true!(&rt, unwrap(&rt, found));
    assert_equal!(&rt, records.octets(), OTHER);
}

#[test]
fn a_refused_peer_leaves_the_table(rt: HostRuntime) {
    let mut table = unwrap(&rt, PeerTableBuilder::new(Vec::new(rt.alloc()), 1, b"v"));
    for number in 0..10_u16 {
        let before = table.as_slice().len();
        let pushed = table.push_peer(&peer(0, 65001));
        if pushed.is_err() {
            assert_equal!(&rt, table.count(), number);
            assert_equal!(&rt, table.as_slice().len(), before);
        }
        unwrap(&rt, pushed);
    }
    assert_equal!(&rt, table.finish().len(), 119);
}

#[test]
fn a_refused_entry_leaves_the_rib(rt: HostRuntime) {
    let ten = prefix(Afi::Ipv4, 8, [10, 0, 0, 0]);
    let begun = RibBuilder::new(
        Vec::new(rt.alloc()),
        AfiSafiType::Ipv4Unicast,
        false,
        0,
        &ten,
    );
    let mut rib = unwrap(&rt, begun);
    for number in 0..10_u16 {
        let before = rib.as_slice().len();
        let pushed = rib.push_entry(number, 0, None, b"\x40\x01\x01\0");
        if pushed.is_err() {
            assert_equal!(&rt, rib.count(), number);
            assert_equal!(&rt, rib.as_slice().len(), before);
        }
        unwrap(&rt, pushed);
    }
    assert_equal!(&rt, rib.finish().len(), 128);
}
