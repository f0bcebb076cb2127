//! Refused requests for memory.
//!
//! `.ci/refused` runs these tests with their n-th request refused, for each n up to the last of them.
use crate::tests::unwrap;
use octseq::builder::AsOctetsMut;
use octseq::{Array, OctetsBuilder, Truncate};
use octseq_asserts::assert_equal;
use octseq_dns::{Compressor, StaticCompressor};
use octseq_dns_compose::{ComposeError, compose_text, scan_record};
use octseq_dns_scan::Words;
use octseq_dns_text::ScanError;
use std::alloc::Global;
use std::process::Abort;

/// A message with a set of types, and its octets: RFC 1035, 4.1, and RFC 4034, 4.1.
const TEXT: &[u8] = b"id 4660 opcode 0 rcode 0 flags QR\nquestion example.com. IN NSEC\n\
answer example.com. 300 IN NSEC a.example.com. MX A\n";

const OCTETS: &[u8] = b"\x12\x34\x80\0\0\x01\0\x01\0\0\0\0\x07example\x03com\0\0\x2f\0\x01\
\xc0\x0c\0\x2f\0\x01\0\0\x01\x2c\0\x13\x01a\x07example\x03com\0\0\x02\x40\x01";

/// Composes the message in a builder and with a table.
fn composes<B: OctetsBuilder + Truncate + AsOctetsMut, T: Compressor>(
    rt: &impl Abort,
    alloc: Global,
    octets: B,
    table: T,
) {
    let message = unwrap(rt, compose_text(alloc, TEXT, octets, table));
    let (octets, _) = message.finish();
    assert_equal!(rt, octets.as_ref(), OCTETS);
}

#[test]
fn a_builder_asks_for_memory(rt: HostRuntime) {
    let table = StaticCompressor::<8>::new();
    composes(&rt, rt.alloc(), Vec::new(rt.alloc()), table);
}

#[test]
fn a_table_asks_for_memory(rt: HostRuntime) {
    let table = Vec::new(rt.alloc());
    composes(&rt, rt.alloc(), Array::<66>::new(), table);
}

/// A list is made of the types, so memory is asked for even if the builder and the table need none.
#[test]
fn types_ask_for_memory(rt: HostRuntime) {
    let table = StaticCompressor::<8>::new();
    composes(&rt, rt.alloc(), Array::<66>::new(), table);
}

/// A refused record leaves the content unchanged, so it is read afterwards as it would have been.
#[test]
fn a_record_is_read_or_its_data_is_left_out(rt: HostRuntime) {
    let words = Words::new(b". 0 IN NSEC . A");
    let mut data = Vec::new(rt.alloc());
    let first = scan_record::<&[u8], _>(rt.alloc(), words, None, &mut data);
    if let Err(error) = &first {
        assert_equal!(&rt, *error, ScanError::Memory);
        assert_equal!(&rt, data.as_slice(), b"".as_slice());
        let again = scan_record::<&[u8], _>(rt.alloc(), words, None, &mut data);
        unwrap(&rt, again);
    }
    assert_equal!(&rt, data.as_slice(), b"\0\0\x01\x40".as_slice());
    unwrap(&rt, first);
}
