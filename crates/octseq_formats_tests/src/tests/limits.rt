//! What exceeds a limit or a length, and what has no octets.
use crate::tests::{append, compose, unwrap};
use octseq::{Array, AsOctets, Malformed, OctetsBuilder, WriteError};
use octseq_asserts::assert_equal;
use octseq_format::{Counted, Format, Of, Rest, Times, U8, U16Be, Window};
use octseq_formats::ntp::Ntp;
use octseq_formats::tftp::Packet;

/// An NTP header in which all numbers are 0 or 1.
const NTP: Ntp = Ntp {
    leap_indicator: 0,
    version: 0,
    mode: 1,
    stratum: 0,
    poll: 1,
    precision: 0,
    root_delay: 1,
    root_dispersion: 0,
    reference_id: 1,
    timestamps: (0, 1, 0, 1),
};

#[test]
fn a_header_that_passes_the_limit_is_short(rt: HostRuntime) {
    let mut short = Array::<50>::new();
    unwrap(&rt, short.append_slice(b"abc"));
    let appended = append::<Of<Ntp>, &[u8], _>(&mut short, &NTP);
    assert_equal!(&rt, appended, Err(WriteError::Short));
    assert_equal!(&rt, short.as_slice(), b"abc".as_slice());
    let mut room = Array::<51>::new();
    unwrap(&rt, room.append_slice(b"abc"));
    let appended = append::<Of<Ntp>, &[u8], _>(&mut room, &NTP);
    assert_equal!(&rt, appended, Ok(()));
    assert_equal!(&rt, AsOctets::len(&room), 51);
}

#[test]
fn a_header_is_made_whole_or_not_at_all(rt: HostRuntime) {
    let made: Result<Array<47>, WriteError> = compose::<Of<Ntp>, &[u8], _>(rt.alloc(), &NTP);
    assert_equal!(&rt, made.err(), Some(WriteError::Short));
    let made: Result<Array<48>, WriteError> = compose::<Of<Ntp>, &[u8], _>(rt.alloc(), &NTP);
    assert_equal!(&rt, made.is_ok(), true);
}

#[test]
fn octets_that_their_length_cant_count_are_malformed(rt: HostRuntime) {
    let octets = [7; 256];
    let mut content = Array::<4>::new();
    let long = Window::from_ref(octets.as_slice());
    let appended = append::<Counted<U8, Rest, 0>, &[u8], _>(&mut content, &long);
    assert_equal!(&rt, appended, Err(WriteError::Malformed));
    let most = Window::from_ref(&octets[1..]);
    let appended = append::<Counted<U8, Rest, 0>, &[u8], _>(&mut content, &most);
    assert_equal!(&rt, appended, Err(WriteError::Short));
    let counted_too = append::<Counted<U8, Rest, 1>, &[u8], _>(&mut content, &most);
    assert_equal!(&rt, counted_too, Err(WriteError::Malformed));
}

#[test]
fn a_length_may_count_octets_before_it(rt: HostRuntime) {
    let octets = b"\x05ab".as_slice();
    let value = <Counted<U8, Rest, 3> as Format<&[u8]>>::parse_whole(octets);
    let offset = value.map(|rest| (rest.pos(), rest.len()));
    assert_equal!(&rt, offset, Ok((1, 2)));
    for octets in [b"\x02".as_slice(), b"\x04ab", b"\x06ab"] {
        let refused = <Counted<U8, Rest, 3> as Format<&[u8]>>::parse_whole(octets);
        assert_equal!(&rt, refused.err(), Some(Malformed));
    }
}

#[test]
fn a_count_says_how_many(rt: HostRuntime) {
    let octets = b"\x02\0\x01\0\x02".as_slice();
    let many = <Times<U8, U16Be> as Format<&[u8]>>::parse_whole(octets).map(|walk| walk.len());
    assert_equal!(&rt, many, Ok(2));
    for octets in [b"\x02\0\x01\0".as_slice(), b"\x01\0\x01\0\x02", b""] {
        let refused = <Times<U8, U16Be> as Format<&[u8]>>::parse_whole(octets).err();
        assert_equal!(&rt, refused, Some(Malformed));
    }
}

/// Appends a read request.
fn append_request<R: AsOctets + Copy>(
    content: &mut Array<9>,
    name: R,
    mode: R,
) -> Result<(), WriteError> {
    let packet = Packet::Read(Window::from_ref(name), Window::from_ref(mode));
    append::<Of<Packet<R>>, R, _>(content, &packet)
}

#[test]
fn a_text_with_a_zero_has_no_octets(rt: HostRuntime) {
    let mut content = Array::<9>::new();
    let appended = append_request(&mut content, b"name".as_slice(), b"a\0b".as_slice());
    assert_equal!(&rt, appended, Err(WriteError::Malformed));
    assert_equal!(&rt, content.as_slice(), b"".as_slice());
    let appended = append_request(&mut content, b"name".as_slice(), b"ab".as_slice());
    assert_equal!(&rt, appended, Err(WriteError::Short));
    let appended = append_request(&mut content, b"nam".as_slice(), b"ab".as_slice());
    assert_equal!(&rt, appended, Ok(()));
    assert_equal!(&rt, content.as_slice(), b"\0\x01nam\0ab\0".as_slice());
}
