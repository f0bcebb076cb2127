//! Records read from one line.
use crate::tests::unwrap;
use octseq::Array;
use octseq_asserts::{assert_equal, assert_true};
use octseq_dns::{Class, Name, Rtype};
use octseq_dns_compose::{RecordHead, scan_record};
use octseq_dns_scan::Words;
use octseq_dns_text::ScanError;
use std::alloc::Global;

/// Reads a line with no origin.
fn scanned(alloc: Global, line: &[u8], data: &mut Array<16>) -> Result<RecordHead, ScanError> {
    scan_record::<&[u8], Array<16>>(alloc, Words::new(line), None, data)
}

/// The same record, whichever of TTL and class is first: RFC 1035, 5.1.
#[test]
fn a_record_is_read(rt: HostRuntime) {
    for line in [
        b"example.com. 300 IN A \\# 4 01020304".as_slice(),
        b"EXAMPLE.com.\t  IN \t300 a \\# 4 0102 0304 \t".as_slice(),
        b"example\\.com. class1 0000000300 TYPE1 \\# 4 010203 04".as_slice(),
    ] {
        let mut data = Array::<16>::new();
        let head = unwrap(&rt, scanned(rt.alloc(), line, &mut data));
        assert_equal!(&rt, head.ttl.as_secs(), 300);
        assert_equal!(&rt, head.class, Class::IN);
        assert_equal!(&rt, head.rtype, Rtype::A);
        assert_equal!(&rt, data.as_slice(), [1, 2, 3, 4].as_slice());
    }
}

/// A name that doesn't end in a full stop is relative to the origin, and `@` is the origin.
#[test]
fn an_owner_is_relative_to_an_origin(rt: HostRuntime) {
    let origin = unwrap(&rt, Name::from_text("example.com."));
    let mut data = Array::<16>::new();
    for (line, owner) in [
        (b"www 0 IN A \\# 0".as_slice(), "www.example.com."),
        (b"@ IN 0 A \\# 0".as_slice(), "example.com."),
        (b"www. IN 0 A \\# 0".as_slice(), "www."),
    ] {
        let owner = unwrap(&rt, Name::from_text(owner));
        let parsed = origin.parsed();
        let head = unwrap(
            &rt,
            scan_record(rt.alloc(), Words::new(line), Some(&parsed), &mut data),
        );
        assert_true!(&rt, head.owner.parsed().name_eq(&owner.parsed()));
    }
}

/// The offset is that of the first word that isn't what has to come there. The end of the line counts as a word.
#[test]
fn a_fault_has_the_offset_of_its_word(rt: HostRuntime) {
    for (line, offset) in [
        (b"".as_slice(), 0),
        (b" example.com. 300 IN A \\# 0".as_slice(), 0),
        (b"example.com 300 IN A \\# 0".as_slice(), 0),
        (b"example.com.".as_slice(), 12),
        (b"example.com.  ".as_slice(), 14),
        (b"example.com. A \\# 0".as_slice(), 13),
        (b"example.com. 300 A".as_slice(), 17),
        (b"example.com. IN A".as_slice(), 16),
        (b"example.com. IN 4294967296 A".as_slice(), 16),
        (b"example.com. IN 00000000300 A".as_slice(), 16),
        (b"example.com. IN IN A".as_slice(), 16),
        (b"example.com. 300 300 A".as_slice(), 17),
        (b"example.com. 300 IN".as_slice(), 19),
        (b"example.com. 300 IN B".as_slice(), 20),
        (b"example.com. 300 IN A".as_slice(), 21),
        (b"example.com. 300 IN A \\# 1".as_slice(), 26),
        (b"example.com. 300 IN A \\# 1 0".as_slice(), 28),
        (b"example.com. 300 IN A \\# 1 0x".as_slice(), 27),
        (b"example.com. 300 IN A \\# 1 00 ;".as_slice(), 30),
    ] {
        let mut data = Array::<16>::new();
        match scanned(rt.alloc(), line, &mut data) {
            Ok(_) => panic!(&rt; "read"),
            Err(error) => assert_equal!(&rt, error, ScanError::Malformed(offset)),
        }
    }
}
