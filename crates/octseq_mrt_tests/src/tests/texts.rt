//! Texts of records at the end of others.
use crate::tests::records::{KEEPALIVE, RIB};
use crate::tests::unwrap;
use octseq::str::DisplayError;
use octseq::{Array, AsOctets, OctetsBuilder, StrBuilder, Truncate};
use octseq_asserts::assert_equal;
use octseq_mrt::{Record, one_record_text};

/// Appends the text of a record.
fn append<R: AsOctets + Copy, B: OctetsBuilder + Truncate>(
    text: &mut StrBuilder<B>,
    octets: R,
) -> Result<(), DisplayError> {
    match Record::parse(octets) {
        Ok(record) => record.append_text(text),
        Err(_) => Err(DisplayError::Display),
    }
}

#[test]
fn a_text_is_appended_where_there_is_just_room(rt: HostRuntime) {
    one_record_text();
    let mut text = unwrap(&rt, StrBuilder::<Array<130>>::new(rt.alloc()));
    unwrap(&rt, text.try_push_str("> "));
    assert_equal!(&rt, append(&mut text, RIB), Ok(()));
    assert_equal!(
        &rt,
        text.as_str(),
        "> rib 1700000000 8 sequence 1 9.9.9.0/24\nentry 1 time 1700000000 path 7\n\
attribute T ORIGIN IGP\nattribute O MP_REACH_NLRI 10.0.0.1\n"
    );
}

#[test]
fn a_text_is_not_appended_where_an_octet_has_no_room(rt: HostRuntime) {
    let mut text = unwrap(&rt, StrBuilder::<Array<129>>::new(rt.alloc()));
    unwrap(&rt, text.try_push_str("> "));
    assert_equal!(&rt, append(&mut text, RIB), Err(DisplayError::Short));
    assert_equal!(&rt, text.as_str(), "> ");
}

#[test]
fn microseconds_have_six_digits(rt: HostRuntime) {
    let mut text = unwrap(&rt, StrBuilder::<Vec<u8>>::new(rt.alloc()));
    assert_equal!(&rt, append(&mut text, KEEPALIVE), Ok(()));
    assert_equal!(
        &rt,
        text.as_str(),
        "bgp4mp 1700000000.000123 4 peer 10.0.0.1 as 4200000001 local 10.0.0.2 as 65002 interface 3\nkeepalive\n"
    );
}
