//! Where reading stops in octets that aren't a value.
use octseq::AsOctets;
use octseq_asserts::assert_equal;
use octseq_format::{
    Case, Const, Counted, Format, Itself, Key, Nothing, Optional, Others, Padded, Repeated, Rest,
    Tagged, Text, Times, U8, U16Be, Until, Whole, ZeroEnded,
};
use octseq_formats::{bgp, rtp};

/// Returns the position where reading stops, or `None` for a value.
fn offset<F: Format<R>, R: AsOctets + Copy>(octets: R) -> Option<usize> {
    F::fault_offset(octets)
}

#[test]
fn reading_stops_at_the_first_part_that_isnt_there(rt: HostRuntime) {
    assert_equal!(&rt, offset::<(U16Be, U8), &[u8]>(b"\0"), Some(0));
    assert_equal!(&rt, offset::<(U16Be, U8), &[u8]>(b"\0\x07"), Some(2));
    assert_equal!(&rt, offset::<(U16Be, U8), &[u8]>(b"\0\x07\x01"), None);
    assert_equal!(
        &rt,
        offset::<(U16Be, U8), &[u8]>(b"\0\x07\x01\x02"),
        Some(3)
    );
    assert_equal!(&rt, offset::<(U8, U8, U16Be, U8), &[u8]>(b"abc"), Some(2));
    assert_equal!(
        &rt,
        offset::<(U8, U8, U8, U8, U8, U8, U8, U8), &[u8]>(b"abcde"),
        Some(5)
    );
    assert_equal!(
        &rt,
        offset::<(U8, Const<U16Be, 7>), &[u8]>(b"a\0\x08"),
        Some(1)
    );
    assert_equal!(&rt, offset::<(U8, Text), &[u8]>(b"aa\xFF"), Some(1));
    assert_equal!(
        &rt,
        offset::<(ZeroEnded, ZeroEnded), &[u8]>(b"ab\0c"),
        Some(3)
    );
    assert_equal!(&rt, offset::<(U8, Optional<U16Be>), &[u8]>(b"ab"), Some(1));
    assert_equal!(
        &rt,
        offset::<(U8, Padded<4, U8>), &[u8]>(b"ab\0\0\x01"),
        Some(2)
    );
    assert_equal!(
        &rt,
        offset::<Whole<(Key<U8, Itself>, Rest)>, &[u8]>(b"\x03a"),
        Some(2)
    );
}

#[test]
fn reading_stops_within_what_a_number_decides(rt: HostRuntime) {
    assert_equal!(&rt, offset::<Counted<U8, Rest, 0>, &[u8]>(b""), Some(0));
    assert_equal!(
        &rt,
        offset::<Counted<U8, Rest, 0>, &[u8]>(b"\x05ab"),
        Some(1)
    );
    assert_equal!(
        &rt,
        offset::<Counted<U8, Rest, 2>, &[u8]>(b"\x01a"),
        Some(1)
    );
    assert_equal!(
        &rt,
        offset::<Counted<U8, U16Be, 0>, &[u8]>(b"\x01a"),
        Some(1)
    );
    assert_equal!(
        &rt,
        offset::<Counted<U8, U16Be, 0>, &[u8]>(b"\x03abc"),
        Some(3)
    );
    assert_equal!(
        &rt,
        offset::<Times<U8, U16Be>, &[u8]>(b"\x02\0\x01\0"),
        Some(3)
    );
    assert_equal!(
        &rt,
        offset::<Tagged<U8, (Case<1, U8>, Case<2, U16Be>)>, &[u8]>(b"\x02a"),
        Some(1)
    );
    assert_equal!(
        &rt,
        offset::<Tagged<U8, (Case<1, U8>, Case<2, U16Be>)>, &[u8]>(b"\x03a"),
        Some(1)
    );
}

/// Items, each a number and octets after their length.
fn offset_in_row<R: AsOctets + Copy>(octets: R) -> Option<usize> {
    offset::<Repeated<(U8, Counted<U8, Rest, 0>)>, R>(octets)
}

/// Items up to the tag 255, of which 0 has no octets.
fn offset_in_tagged<R: AsOctets + Copy>(octets: R) -> Option<usize> {
    offset::<Until<U8, 255, (Case<0, Nothing>, Others<Counted<U8, Rest, 0>>)>, R>(octets)
}

/// Attributes of BGP.
fn offset_in_attributes<R: AsOctets + Copy>(octets: R) -> Option<usize> {
    offset::<Repeated<bgp::Attribute>, R>(octets)
}

/// A packet of RTP.
fn offset_in_packet<R: AsOctets + Copy>(octets: R) -> Option<usize> {
    offset::<rtp::Packet, R>(octets)
}

#[test]
fn reading_stops_within_the_first_bad_item(rt: HostRuntime) {
    let items = b"\x01\x01a\x02\x03b".as_slice();
    assert_equal!(&rt, offset_in_row(items), Some(5));
    assert_equal!(&rt, offset_in_row(&items[..3]), None);
    let items = b"\0\x05\x02ab\x06\x09a".as_slice();
    assert_equal!(&rt, offset_in_tagged(items), Some(7));
    assert_equal!(&rt, offset_in_tagged(b"\0\0".as_slice()), Some(2));
    // An ORIGIN, and an AS_PATH of four octets of which two are there.
    let attributes = b"\x40\x01\x01\0\x40\x02\x04\x02\x01".as_slice();
    assert_equal!(&rt, offset_in_attributes(attributes), Some(7));
    // A header that counts one source, which isn't there.
    let packet = b"\x81\0\0\x01\0\0\0\x02\0\0\0\x03".as_slice();
    assert_equal!(&rt, offset_in_packet(packet), Some(12));
}
