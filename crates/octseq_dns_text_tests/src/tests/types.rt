//! Sets of types: RFC 4034, 4.3, RFC 5155, appendix A, and RFC 7477, 2.1.
use crate::tests::unwrap;
use octseq::{Array, AsOctets};
use octseq_asserts::assert_equal;
use octseq_dns_scan::Words;
use octseq_dns_text::{ScanError, scan_types};
use std::process::Abort;

/// The octets of the types A, MX, RRSIG, NSEC and TYPE1234: the example of RFC 4034, 4.3.
pub(crate) const EXAMPLE: &[u8] =
    b"\x00\x06\x40\x01\x00\x00\x00\x03\x04\x1B\0\0\0\0\0\0\0\0\0\0\0\0\0\0\0\0\0\0\0\0\0\0\0\0\0\0\x20";

/// Texts, and their octets, or why each is refused.
static ROWS: [(&str, Result<&[u8], ScanError>); 14] = [
    ("", Ok(b"")),
    ("A", Ok(b"\x00\x01\x40")),
    ("A MX RRSIG NSEC TYPE1234", Ok(EXAMPLE)),
    ("NSEC\ttype1234 A  RRSIG mx ", Ok(EXAMPLE)),
    (
        "NS SOA MX RRSIG DNSKEY NSEC3PARAM",
        Ok(b"\x00\x07\x22\x01\x00\x00\x00\x02\x90"),
    ),
    ("A NS AAAA", Ok(b"\x00\x04\x60\x00\x00\x08")),
    ("CAA A", Ok(b"\x00\x01\x40\x01\x01\x40")),
    ("TYPE0", Ok(b"\x00\x01\x80")),
    ("A TYPE65536", Err(ScanError::Malformed(2))),
    ("A MX A", Err(ScanError::Malformed(5))),
    ("A TYPE1", Err(ScanError::Malformed(2))),
    ("A MX \"NS\"", Err(ScanError::Malformed(5))),
    ("A MX é", Err(ScanError::Malformed(5))),
    ("A \"NS", Err(ScanError::Malformed(2))),
];

/// Checks what was appended to an octet 7 of a text, or that it was refused and nothing was appended.
pub(crate) fn assert_made(
    rt: &impl Abort,
    text: &str,
    made: Result<(), ScanError>,
    content: &[u8],
    wanted: Result<&[u8], ScanError>,
) {
    assert_eq!(rt; made, wanted.map(|_| ()), "{text}");
    let appended = content.split_first();
    assert_eq!(rt; appended, Some((&7, wanted.unwrap_or(b""))), "{text}");
}

#[test]
fn types_are_read_in_any_order(rt: HostRuntime) {
    for (text, wanted) in &ROWS {
        let mut octets = unwrap(&rt, vec![in rt.alloc(); 7]);
        let made = scan_types(rt.alloc(), Words::new(text.as_bytes()), &mut octets);
        assert_made(&rt, text, made, octets.as_slice(), *wanted);
    }
}

#[test]
fn types_beyond_the_limit_are_refused(rt: HostRuntime) {
    let mut few = Array::<3>::new();
    assert_equal!(
        &rt,
        scan_types(rt.alloc(), Words::new(b"A"), &mut few),
        Ok(())
    );
    let more = scan_types(rt.alloc(), Words::new(b"NS"), &mut few);
    assert_equal!(&rt, more, Err(ScanError::Short));
    assert_equal!(&rt, AsOctets::as_ref(&few), b"\x00\x01\x40".as_slice());
}
