//! Refused requests for memory.
//!
//! `.ci/refused` runs these tests with their n-th request refused, for each n up to the last of them. A refused text
//! leaves the content unchanged, so it is read afterwards as it would have been.
use crate::tests::types::EXAMPLE;
use crate::tests::unwrap;
use octseq::{Array, OctetsBuilder, Truncate};
use octseq_asserts::assert_equal;
use octseq_dns_data::{Class, Rtype};
use octseq_dns_scan::Words;
use octseq_dns_text::{ScanError, scan_data, scan_params, scan_types};
use std::alloc::Global;
use std::process::Abort;

/// The data of RFC 4034, 4.3, but for the types.
const OWNER: &[u8] = b"\x04host\x07example\x03com\0";

/// A text of RFC 9460, D.2, and its octets.
const SERVICE: &[u8] =
    b"16 foo.example.org. alpn=h2,h3-19 mandatory=ipv4hint,alpn ipv4hint=192.0.2.1";

const SERVICE_OCTETS: &[u8] = b"\0\x10\x03foo\x07example\x03org\0\0\0\0\x04\0\x01\0\x04\0\x01\0\x09\
\x02h2\x05h3-19\0\x04\0\x04\xC0\0\x02\x01";

/// Appends the data of a text. If it is refused, it is appended again.
fn append<B: OctetsBuilder + Truncate>(
    rt: &impl Abort,
    alloc: Global,
    rtype: Rtype,
    text: &[u8],
    target: &mut B,
) -> Result<(), ScanError> {
    let len = target.as_ref().len();
    let words = Words::new(text);
    let read = scan_data::<&[u8], B>(alloc, words, rtype, Class::IN, None, target);
    if read.is_err() {
        assert_equal!(rt, read, Err(ScanError::Memory));
        assert_equal!(rt, target.as_ref().len(), len);
        let again = scan_data::<&[u8], B>(alloc, words, rtype, Class::IN, None, target);
        unwrap(rt, again);
    }
    read
}

/// Appends data with types and data with parameters, of which at most one is refused at first.
fn append_both<B: OctetsBuilder + Truncate>(rt: &impl Abort, alloc: Global, mut target: B) {
    let text = b"host.example.com. A MX RRSIG NSEC TYPE1234";
    let types = append(rt, alloc, Rtype::NSEC, text, &mut target);
    let params = append(rt, alloc, Rtype::SVCB, SERVICE, &mut target);
    let octets = target.as_ref();
    let after_owner = OWNER.len() + EXAMPLE.len();
    assert_equal!(rt, octets.get(..OWNER.len()), Some(OWNER));
    assert_equal!(rt, octets.get(OWNER.len()..after_owner), Some(EXAMPLE));
    assert_equal!(rt, octets.get(after_owner..), Some(SERVICE_OCTETS));
    unwrap(rt, types.and(params));
}

#[test]
fn data_is_appended_or_not_at_all(rt: HostRuntime) {
    append_both(&rt, rt.alloc(), Vec::new(rt.alloc()));
}

/// A list is made of the types and of the parameters, so memory is asked for even if the content needs none.
#[test]
fn a_list_asks_for_memory(rt: HostRuntime) {
    append_both(&rt, rt.alloc(), Array::<128>::new());
}

#[test]
fn types_and_parameters_are_read(rt: HostRuntime) {
    let mut target = Array::<64>::new();
    let types = scan_types(rt.alloc(), Words::new(b"MX A"), &mut target);
    unwrap(&rt, types);
    let params = scan_params(rt.alloc(), Words::new(b"port=53"), &mut target);
    unwrap(&rt, params);
    let wanted = b"\0\x02\x40\x01\0\x03\0\x02\0\x35".as_slice();
    assert_equal!(&rt, target.as_slice(), wanted);
}
