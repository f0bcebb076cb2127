//! The first callers.
use crate::tests::unwrap;
use octseq::CowOctets;
use octseq::error::ReadError;
use octseq_asserts::assert_equal;
use octseq_callers::levels::read_levels;
use octseq_callers::single_calls::{extended, field, kept, text_front};

#[test]
fn octets_that_fit_are_kept(rt: HostRuntime) {
    let array = unwrap(&rt, kept::<3>(b"abc").ok_or("nothing is kept"));
    assert_equal!(&rt, array.as_slice(), b"abc".as_slice());
    assert_equal!(&rt, kept::<3>(b"abcd").is_none(), true);
}

#[test]
fn nothing_appended_leaves_octets_borrowed(rt: HostRuntime) {
    let mut octets = CowOctets::borrowed(rt.alloc(), b"ab");
    assert_equal!(&rt, extended(&mut octets, b""), Ok(()));
    assert_equal!(&rt, octets.is_borrowed(), true);
    assert_equal!(&rt, extended(&mut octets, b"c"), Ok(()));
    assert_equal!(&rt, octets.is_borrowed(), false);
    assert_equal!(&rt, octseq::AsOctets::as_ref(&octets), b"abc".as_slice());
}

#[test]
fn a_field_is_a_range_that_exists(rt: HostRuntime) {
    let octets = b"abcd".as_slice();
    assert_equal!(&rt, field(&octets, 1, 3), Ok(Some(b"bc".as_slice())));
    assert_equal!(&rt, field(&octets, 4, 4), Ok(Some(b"".as_slice())));
    assert_equal!(&rt, field(&octets, 3, 5), Ok(None));
    assert_equal!(&rt, field(&octets, 3, 2), Ok(None));
}

#[test]
fn a_front_is_a_text(rt: HostRuntime) {
    assert_equal!(&rt, text_front(b"h\xC3\xA9"), b"h\xC3\xA9".as_slice());
    assert_equal!(&rt, text_front(b"h\xC3\xA9\xC3"), b"h\xC3\xA9".as_slice());
    assert_equal!(&rt, text_front(b"\xFFh"), b"".as_slice());
}

#[test]
fn levels_are_signed(rt: HostRuntime) {
    let read = read_levels(rt.alloc(), b"\x00\x01\xFF\xFE\x80\x00".as_slice());
    let levels = unwrap(&rt, read);
    assert_equal!(&rt, levels.as_slice(), [1, -2, -32768].as_slice());
    let cut = read_levels(rt.alloc(), b"\x00\x01\xFF".as_slice());
    assert_equal!(&rt, cut.err(), Some(ReadError::Malformed));
}
