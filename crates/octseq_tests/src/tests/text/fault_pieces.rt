//! The search for the first fault in pieces.
use octseq::utf8::{FaultPieces, Utf8Fault};
use octseq_asserts::assert_equal;

/// A fault by its place and its length.
fn reported(fault: &Utf8Fault) -> (usize, Option<usize>) {
    (fault.valid_up_to(), fault.error_len())
}

/// The first fault of octets in pieces.
fn fault_of(pieces: &[&[u8]]) -> Option<Utf8Fault> {
    let mut search = FaultPieces::new();
    for piece in pieces {
        search.feed(piece);
    }
    search.finish()
}

/// Octets, and where Rust's `from_utf8` says that they stop being UTF-8.
fn faults() -> [(&'static [u8], Option<(usize, Option<usize>)>); 15] {
    [
        (b"", None),
        (b"hello", None),
        ("aé€😀z".as_bytes(), None),
        (b"a\xF1\x80\x80", Some((1, None))),
        (b"a\xC0", Some((1, Some(1)))),
        (b"\xE2\x82A", Some((0, Some(2)))),
        (b"\xC3\xA9\xF0\x9F\x98A", Some((2, Some(3)))),
        (b"\xED\xA0\x80", Some((0, Some(1)))),
        (b"\xF4\x90\x80\x80", Some((0, Some(1)))),
        (b"ab\xE2\x82\xAC\xE2\x82", Some((5, None))),
        (b"\xC3\xA9\xC3", Some((2, None))),
        (b"\x80", Some((0, Some(1)))),
        (b"\xE2\x82\xAC\xC3A", Some((3, Some(1)))),
        (b"\xF0\x9F\x98\x80\xF0\x9F\x98", Some((4, None))),
        (
            b"0123456789abcdef0123456789abcdef\xF0\x9F\x98\x80\xFFz",
            Some((36, Some(1))),
        ),
    ]
}

#[test]
fn each_cut_has_the_same_fault(rt: HostRuntime) {
    for (octets, wanted) in faults() {
        for place in 0..=octets.len() {
            let (front, rest) = octets.split_at(place);
            for next in 0..=rest.len() {
                let (middle, end) = rest.split_at(next);
                let fault = fault_of(&[front, middle, end]);
                assert_equal!(&rt, fault.as_ref().map(reported), wanted);
            }
        }
    }
}

#[test]
fn octet_by_octet_the_fault_is_the_same(rt: HostRuntime) {
    for (octets, wanted) in faults() {
        let mut search = FaultPieces::new();
        for octet in octets {
            search.feed(&[*octet]);
        }
        assert_equal!(&rt, search.finish().as_ref().map(reported), wanted);
    }
    assert_equal!(&rt, FaultPieces::new().finish(), None);
}

#[test]
fn a_fault_is_reported_once_no_octet_can_change_it(rt: HostRuntime) {
    let mut search = FaultPieces::new();
    search.feed(b"a\xE2\x82");
    assert_equal!(&rt, search.fault(), None);
    search.feed(b"");
    search.feed(b"A");
    assert_equal!(
        &rt,
        search.fault().as_ref().map(reported),
        Some((1, Some(2)))
    );
    search.feed(b"\xFF");
    assert_equal!(
        &rt,
        search.finish().as_ref().map(reported),
        Some((1, Some(2)))
    );
}
