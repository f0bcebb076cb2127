//! Data in the text of its type, and opaque data.
use crate::tests::equal;
use crate::tests::rows::{OPAQUE, Row, SHOWN, SPELLED};
use octseq::{Array, AsOctets, OctetsBuilder};
use octseq_asserts::assert_equal;
use octseq_dns_data::{Class, Rtype};
use octseq_dns_name::{Name, ParsedName};
use octseq_dns_scan::Words;
use octseq_dns_text::{ScanError, scan_data};
use std::alloc::{AllocGlobal, Global};
use std::process::Abort;
use std::test::Fail;

/// Reads texts, and compares their octets.
fn read_rows(rt: &(impl Abort + AllocGlobal), rows: &[Row]) {
    for row in rows {
        let mut target = Array::<128>::new();
        let read = scan_data::<&[u8], _>(
            rt.alloc(),
            Words::new(row.text),
            Rtype::from_int(row.rtype),
            Class::from_int(row.class),
            None,
            &mut target,
        );
        equal(rt, "a text is read", read, Ok(()));
        equal(rt, "the octets", target.as_slice(), row.octets);
    }
}

#[test]
fn what_is_shown_is_read(rt: HostRuntime) {
    read_rows(&rt, &SHOWN);
}

#[test]
fn opaque_data_is_read(rt: HostRuntime) {
    read_rows(&rt, &OPAQUE);
}

#[test]
fn data_may_be_spelled_in_other_ways(rt: HostRuntime) {
    read_rows(&rt, &SPELLED);
}

/// Reads an MX record's data with an origin.
fn read_mx(
    alloc: Global,
    text: &[u8],
    origin: &ParsedName<&[u8]>,
) -> (Result<(), ScanError>, Array<32>) {
    let mut target = Array::<32>::new();
    let read = scan_data(
        alloc,
        Words::new(text),
        Rtype::MX,
        Class::IN,
        Some(origin),
        &mut target,
    );
    (read, target)
}

#[test]
fn a_name_may_be_relative_to_an_origin(rt: HostRuntime) -> Result<(), Fail> {
    let origin = Name::from_text("example.com.")?;
    let parsed = origin.parsed();
    let (relative, octets) = read_mx(rt.alloc(), b"10 a", &parsed);
    assert_equal!(&rt, relative, Ok(()));
    assert_equal!(
        &rt,
        octets.as_slice(),
        b"\0\x0a\x01a\x07example\x03com\0".as_slice()
    );
    let (same, octets) = read_mx(rt.alloc(), b"10 @", &parsed);
    assert_equal!(&rt, same, Ok(()));
    assert_equal!(
        &rt,
        octets.as_slice(),
        b"\0\x0a\x07example\x03com\0".as_slice()
    );
    let (whole, octets) = read_mx(rt.alloc(), b"10 a.", &parsed);
    assert_equal!(&rt, whole, Ok(()));
    assert_equal!(&rt, octets.as_slice(), b"\0\x0a\x01a\0".as_slice());
    Ok(())
}

/// Appends a text's data to two octets, in room for five.
fn append_in_five(alloc: Global, rtype: Rtype, text: &[u8]) -> (Result<(), ScanError>, Array<5>) {
    let mut target = Array::<5>::new();
    drop(target.append_slice(b"\x01\x02"));
    let read = scan_data::<&[u8], _>(alloc, Words::new(text), rtype, Class::IN, None, &mut target);
    (read, target)
}

#[test]
fn a_limit_is_kept(rt: HostRuntime) {
    let (read, octets) = append_in_five(rt.alloc(), Rtype::TXT, b"a \"\"");
    assert_equal!(&rt, read, Ok(()));
    assert_equal!(&rt, octets.as_slice(), b"\x01\x02\x01a\0".as_slice());
    let (read, octets) = append_in_five(rt.alloc(), Rtype::TXT, b"a b");
    assert_equal!(&rt, read, Err(ScanError::Short));
    assert_equal!(&rt, octets.as_slice(), b"\x01\x02".as_slice());
    let (read, _) = append_in_five(rt.alloc(), Rtype::TXT, b"a b \"");
    assert_equal!(&rt, read, Err(ScanError::Malformed(4)));
    let (read, _) = append_in_five(rt.alloc(), Rtype::DS, b"1 1 1 ff");
    assert_equal!(&rt, read, Err(ScanError::Short));
    let (read, octets) = append_in_five(rt.alloc(), Rtype::NSEC, b"a. A");
    assert_equal!(&rt, read, Err(ScanError::Short));
    assert_equal!(&rt, octets.as_slice(), b"\x01\x02".as_slice());
    let (read, _) = append_in_five(rt.alloc(), Rtype::NSEC, b"a. A NS FOO");
    assert_equal!(&rt, read, Err(ScanError::Malformed(8)));
    let (read, _) = append_in_five(rt.alloc(), Rtype::DS, b"1 1 1 fff");
    assert_equal!(&rt, read, Err(ScanError::Malformed(9)));
}

#[test]
fn a_string_has_255_octets(rt: HostRuntime) {
    let mut text = [b'a'; 256];
    let mut target = Array::<256>::new();
    let words = Words::new(&text[..255]);
    let read = scan_data::<&[u8], _>(rt.alloc(), words, Rtype::TXT, Class::IN, None, &mut target);
    assert_equal!(&rt, read, Ok(()));
    assert_equal!(&rt, target.len(), 256);
    text[0] = b'b';
    let words = Words::new(&text);
    let read = scan_data::<&[u8], _>(rt.alloc(), words, Rtype::TXT, Class::IN, None, &mut target);
    assert_equal!(&rt, read, Err(ScanError::Malformed(0)));
}

#[test]
fn an_error_is_shown(rt: HostRuntime) -> Result<(), Fail> {
    let alloc = rt.alloc();
    let malformed = ScanError::Malformed(3);
    assert_equal!(
        &rt,
        format!(in alloc; "{malformed}")?.as_str(),
        "malformed text"
    );
    Ok(())
}
