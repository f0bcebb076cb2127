//! Type bitmaps: RFC 4034, 4.1.2.
use crate::tests::{shown, unwrap};
use octseq::array::Array;
use octseq::octets::Octets;
use octseq::{AppendError, EmptyBuilder, ShortBuf};
use octseq_asserts::{Case, assert_equal, assert_true, over_each};
use octseq_dns_data::rtype_bitmap::append_rtypes;
use octseq_dns_data::{Rtype, RtypeBitmap};
use std::alloc::AllocGlobal;
use std::process::Abort;

/// The types A, MX, RRSIG, NSEC and TYPE1234, as in the example of RFC 4034, 4.3.
const EXAMPLE: &[u8] =
    b"\x00\x06\x40\x01\x00\x00\x00\x03\x04\x1B\x00\x00\x00\x00\x00\x00\x00\x00\x00\x00\x00\x00\x00\x00\
    \x00\x00\x00\x00\x00\x00\x00\x00\x00\x00\x00\x00\x20";

/// A test that octets are the bitmap of these types.
#[derive(Drop)]
struct Are {
    numbers: &'static [u16],
}

impl<H: Abort> Case<H> for Are {
    fn holds<R: Octets + Copy>(&self, rt: &H, octets: R) {
        let bitmap = unwrap(rt, RtypeBitmap::from_octets(octets));
        let mut types = bitmap.iter();
        for number in self.numbers {
            let rtype = Rtype::from_int(*number);
            assert_equal!(rt, types.next(), Some(rtype));
            assert_true!(rt, bitmap.contains(rtype));
        }
        assert_equal!(rt, types.next(), None);
        assert_equal!(rt, bitmap.is_empty(), self.numbers.is_empty());
        assert_equal!(rt, bitmap.contains(Rtype::SOA), false);
        assert_equal!(rt, bitmap.as_slice(), octets.as_ref());
    }
}

#[test]
fn octets_say_their_types(rt: HostRuntime) {
    unwrap(&rt, over_each(&rt, &Are { numbers: &[] }, b""));
    unwrap(&rt, over_each(&rt, &Are { numbers: &[1] }, b"\x00\x01\x40"));
    unwrap(
        &rt,
        over_each(
            &rt,
            &Are {
                numbers: &[0, 7, 8],
            },
            b"\x00\x02\x81\x80",
        ),
    );
    let nsec = Are {
        numbers: &[1, 15, 46, 47],
    };
    unwrap(
        &rt,
        over_each(&rt, &nsec, b"\x00\x06\x40\x01\x00\x00\x00\x03"),
    );
    let two_windows = Are {
        numbers: &[1, 15, 46, 47, 257],
    };
    unwrap(
        &rt,
        over_each(
            &rt,
            &two_windows,
            b"\x00\x06\x40\x01\x00\x00\x00\x03\x01\x01\x40",
        ),
    );
    let example = Are {
        numbers: &[1, 15, 46, 47, 1234],
    };
    unwrap(&rt, over_each(&rt, &example, EXAMPLE));
    let last = Are { numbers: &[65535] };
    let mut octets = [0; 34];
    octets[0] = 255;
    octets[1] = 32;
    octets[33] = 1;
    unwrap(&rt, over_each(&rt, &last, &octets));
}

#[test]
fn types_show_after_spaces(rt: HostRuntime) {
    let cases: [(&[u8], &str); 4] = [
        (b"", ""),
        (b"\x00\x01\x40", " A"),
        (b"\x00\x02\x40\x01", " A MX"),
        (&EXAMPLE[8..], " TYPE1234"),
    ];
    for (octets, wanted) in cases {
        let bitmap = unwrap(&rt, RtypeBitmap::from_octets(octets));
        let text = shown(&rt, &bitmap);
        assert_equal!(&rt, text.as_str(), wanted);
    }
}

#[test]
fn other_octets_are_refused(rt: HostRuntime) {
    let cases: [&[u8]; 9] = [
        // no octet in the bitmap
        b"\x00\x00",
        b"\x00\x01\x40\x01\x00",
        // the last octet is 0
        b"\x00\x02\x40\x00",
        b"\x00\x01\x00",
        // fewer octets than the size says
        b"\x00\x02\x40",
        b"\x00\x20\x40",
        // the same number twice, and a lower one
        b"\x00\x01\x40\x00\x01\x40",
        b"\x00\x01\x40\x00\x01\x20",
        b"\x01\x01\x40\x00\x01\x40",
    ];
    for octets in cases {
        assert_true!(&rt, RtypeBitmap::from_octets(octets).is_err());
    }
    let mut long = [1; 35];
    long[0] = 0;
    long[1] = 33;
    assert_true!(&rt, RtypeBitmap::from_octets(long.as_slice()).is_err());
    long[1] = 32;
    assert_true!(&rt, RtypeBitmap::from_octets(&long[..34]).is_ok());
}

#[test]
fn a_set_may_be_cut_after_a_block_alone(rt: HostRuntime) {
    for len in 0..EXAMPLE.len() {
        let is_set = RtypeBitmap::from_octets(&EXAMPLE[..len]).is_ok();
        assert_equal!(&rt, is_set, len == 0 || len == 8);
    }
}

/// The types of the example, in another order, some of them repeated.
const UNORDERED: [u16; 7] = [1234, 47, 1, 46, 15, 1, 1234];

/// Checks that types make a set of these octets, in a builder of this type.
fn make<B: EmptyBuilder>(rt: &(impl Abort + AllocGlobal), rtypes: &[Rtype], wanted: &[u8]) {
    let bitmap = unwrap(rt, RtypeBitmap::<B>::from_rtypes(rt.alloc(), rtypes));
    assert_equal!(rt, bitmap.as_slice(), wanted);
}

#[test]
fn types_in_any_order_make_their_set(rt: HostRuntime) {
    let rtypes = UNORDERED.map(Rtype::from_int);
    make::<Vec<u8>>(&rt, &rtypes, EXAMPLE);
    make::<Vec<u8>>(&rt, &[], b"");
    make::<Array<37>>(&rt, &rtypes, EXAMPLE);
    let short = RtypeBitmap::<Array<36>>::from_rtypes(rt.alloc(), &rtypes);
    assert_equal!(&rt, short.err(), Some(AppendError::Short(ShortBuf)));
}

#[test]
fn a_set_is_appended_whole_or_not_at_all(rt: HostRuntime) {
    let rtypes = [Rtype::MX, Rtype::A];
    let mut builder = Array::<8>::new();
    unwrap(&rt, append_rtypes(&mut builder, &rtypes));
    unwrap(&rt, append_rtypes(&mut builder, &rtypes));
    let appended = append_rtypes(&mut builder, &[Rtype::A]);
    assert_equal!(&rt, appended, Err(AppendError::Short(ShortBuf)));
    assert_equal!(
        &rt,
        builder.as_slice(),
        b"\x00\x02\x40\x01\x00\x02\x40\x01".as_slice()
    );
}
