//! RIBs written: RFC 6396, 4.3.2, and RFC 8050, 4.
use crate::tests::unwrap;
use octseq::{Array, AsOctets, OctetsBuilder, WriteError};
use octseq_asserts::{assert_equal, assert_true};
use octseq_bgp::family::{Afi, AfiSafiType};
use octseq_bgp::prefix::{PathId, Prefix};
use octseq_mrt::{RecordKind, RibBuilder};
use std::alloc::AllocGlobal;
use std::process::Abort;

/// An ORIGIN of IGP, and a MULTI_EXIT_DISC of 5: RFC 4271, 4.3 and 5.1.
const ATTRIBUTES: &[u8] = b"\x40\x01\x01\0\x80\x04\x04\0\0\0\x05";

/// A prefix of an address whose first four octets are given, and whose others are 255.
pub fn prefix(afi: Afi, len: u8, first: [u8; 4]) -> Prefix {
    let mut address = [255; 16];
    address[..4].copy_from_slice(&first);
    Prefix { afi, len, address }
}

/// 10.128.0.0/9, with other bits after it.
fn ten() -> Prefix {
    prefix(Afi::Ipv4, 9, [10, 255, 255, 255])
}

#[test]
fn a_rib_counts_its_entries(rt: HostRuntime) {
    let octets = Vec::new(rt.alloc());
    let family = AfiSafiType::Ipv4Unicast;
    let mut rib = unwrap(&rt, RibBuilder::new(octets, family, false, 258, &ten()));
    assert_equal!(&rt, rib.as_slice(), b"\0\0\x01\x02\x09\x0A\x80\0\0");
    unwrap(&rt, rib.push_entry(1, 1_700_000_000, None, ATTRIBUTES));
    unwrap(&rt, rib.push_entry(2, 0, None, b""));
    assert_equal!(&rt, rib.count(), 2);
    assert_equal!(&rt, rib.kind(), RecordKind::Rib(family, false));
    let wanted = b"\0\0\x01\x02\x09\x0A\x80\0\x02\
\0\x01\x65\x53\xF1\x00\0\x0B\x40\x01\x01\0\x80\x04\x04\0\0\0\x05\
\0\x02\0\0\0\0\0\0";
    assert_equal!(&rt, rib.as_slice(), wanted);
    assert_equal!(&rt, rib.finish().as_slice(), wanted);
}

#[test]
fn entries_have_path_ids_or_not(rt: HostRuntime) {
    let octets = Vec::new(rt.alloc());
    let family = AfiSafiType::Ipv4Multicast;
    let malformed = Err(WriteError::Malformed);
    let mut rib = unwrap(&rt, RibBuilder::new(octets, family, true, 0, &ten()));
    assert_equal!(&rt, rib.push_entry(1, 2, None, b""), malformed);
    assert_equal!(&rt, rib.as_slice(), b"\0\0\0\0\x09\x0A\x80\0\0");
    unwrap(
        &rt,
        rib.push_entry(1, 2, Some(PathId(7)), b"\x40\x01\x01\0"),
    );
    assert_equal!(
        &rt,
        rib.as_slice(),
        b"\0\0\0\0\x09\x0A\x80\0\x01\0\x01\0\0\0\x02\0\0\0\x07\0\x04\x40\x01\x01\0"
    );
    assert_equal!(&rt, rib.kind(), RecordKind::Rib(family, true));
    let octets = Vec::new(rt.alloc());
    let mut rib = unwrap(&rt, RibBuilder::new(octets, family, false, 0, &ten()));
    let refused = rib.push_entry(1, 2, Some(PathId(7)), b"");
    assert_equal!(&rt, refused, malformed);
    assert_equal!(&rt, rib.count(), 0);
}

/// Begins a RIB, and returns its octets after the sequence number.
fn begin(
    rt: &(impl Abort + AllocGlobal),
    family: AfiSafiType,
    prefix: &Prefix,
) -> Result<Vec<u8>, WriteError> {
    let mut octets = Vec::new(rt.alloc());
    unwrap(rt, octets.push(1));
    match RibBuilder::new(octets, family, false, 0, prefix) {
        Ok(rib) => {
            let after = unwrap(rt, rib.as_slice().get(4..).ok_or("short"));
            Ok(unwrap(rt, after.to_vec(rt.alloc())))
        }
        Err(error) => Err(error),
    }
}

#[test]
fn a_prefix_is_one_of_its_family(rt: HostRuntime) {
    let ipv4 = AfiSafiType::Ipv4Unicast;
    let ipv6 = AfiSafiType::Ipv6Multicast;
    let first = [0x20, 1, 0x0D, 0xB8];
    for (family, afi, len) in [
        (ipv4, Afi::Ipv6, 32),
        (ipv6, Afi::Ipv4, 32),
        (ipv4, Afi::Ipv4, 33),
        (ipv6, Afi::Ipv6, 129),
    ] {
        let found = begin(&rt, family, &prefix(afi, len, first));
        assert_true!(&rt, found.err() == Some(WriteError::Malformed));
    }
}

#[test]
fn a_prefix_has_the_octets_that_its_length_needs(rt: HostRuntime) {
    let first = [0x20, 1, 0x0D, 0xBF];
    let none = unwrap(
        &rt,
        begin(&rt, AfiSafiType::Ipv4Unicast, &prefix(Afi::Ipv4, 0, first)),
    );
    assert_equal!(&rt, none.as_slice(), b"\0\0\0");
    let all = unwrap(
        &rt,
        begin(&rt, AfiSafiType::Ipv4Unicast, &prefix(Afi::Ipv4, 32, first)),
    );
    assert_equal!(&rt, all.as_slice(), b"\x20\x20\x01\x0D\xBF\0\0");
    let most = unwrap(
        &rt,
        begin(&rt, AfiSafiType::Ipv6Unicast, &prefix(Afi::Ipv6, 29, first)),
    );
    assert_equal!(&rt, most.as_slice(), b"\x1D\x20\x01\x0D\xB8\0\0");
    let ipv6 = unwrap(
        &rt,
        begin(
            &rt,
            AfiSafiType::Ipv6Unicast,
            &prefix(Afi::Ipv6, 127, first),
        ),
    );
    assert_equal!(
        &rt,
        ipv6.as_slice(),
        b"\x7F\x20\x01\x0D\xBF\xFF\xFF\xFF\xFF\xFF\xFF\xFF\xFF\xFF\xFF\xFF\xFE\0\0"
    );
}

#[test]
fn an_entry_without_room_is_refused(rt: HostRuntime) {
    let family = AfiSafiType::Ipv4Unicast;
    let none = Array::<8>::new();
    let found = RibBuilder::new(none, family, false, 0, &ten());
    assert_true!(&rt, matches!(found, Err(WriteError::Short)));
    let less = Array::<18>::new();
    let mut rib = unwrap(&rt, RibBuilder::new(less, family, false, 0, &ten()));
    assert_equal!(
        &rt,
        rib.push_entry(1, 2, None, b"\x01\x02"),
        Err(WriteError::Short)
    );
    assert_equal!(&rt, rib.count(), 0);
    assert_equal!(&rt, rib.finish().len(), 9);
    let just = Array::<19>::new();
    let mut rib = unwrap(&rt, RibBuilder::new(just, family, false, 0, &ten()));
    assert_equal!(&rt, rib.push_entry(1, 2, None, b"\x01\x02"), Ok(()));
    assert_equal!(&rt, rib.finish().len(), 19);
}

#[test]
fn an_entry_has_65535_octets_of_attributes_at_most(rt: HostRuntime) {
    let mut long = Vec::new(rt.alloc());
    unwrap(&rt, long.resize(65536, 0_u8));
    let octets = Vec::new(rt.alloc());
    let family = AfiSafiType::Ipv4Unicast;
    let mut rib = unwrap(&rt, RibBuilder::new(octets, family, false, 0, &ten()));
    let refused = rib.push_entry(0, 0, None, long.as_slice());
    assert_equal!(&rt, refused, Err(WriteError::Short));
    let most = unwrap(&rt, long.as_slice().get(1..).ok_or("short"));
    assert_equal!(&rt, rib.push_entry(0, 0, None, most), Ok(()));
    assert_equal!(&rt, rib.finish().len(), 9 + 8 + 65535);
}

#[test]
fn a_rib_has_65535_entries_at_most(rt: HostRuntime) {
    let octets = Vec::new(rt.alloc());
    let family = AfiSafiType::Ipv4Unicast;
    let mut rib = unwrap(&rt, RibBuilder::new(octets, family, false, 0, &ten()));
    for _ in 0..65535 {
        unwrap(&rt, rib.push_entry(0, 0, None, b""));
    }
    assert_equal!(&rt, rib.push_entry(0, 0, None, b""), Err(WriteError::Short));
    assert_equal!(&rt, rib.count(), 65535);
    assert_equal!(&rt, rib.finish().len(), 9 + 8 * 65535);
}
