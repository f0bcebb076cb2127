//! Each caller, used.
use crate::tests::unwrap;
use octseq::builder::{AppendError, AsOctets, EmptyBuilder, ShortBuf};
use octseq::compose::ComposeError;
use octseq::error::ReadError;
use octseq::{Array, StrBuilder};
use octseq_asserts::assert_equal;
use octseq_callers::any_builder::paired;
use octseq_callers::join::join;
use octseq_callers::records::{append_record, read_records};
use std::alloc::Global;
use std::process::Abort;

mod lent;
mod lines;
mod patterns;
mod single_calls;

#[test]
fn a_record_is_appended_whole_or_not_at_all(rt: HostRuntime) {
    let mut octets = unwrap(&rt, Array::<8>::try_from(b"a".as_slice()));
    assert_equal!(&rt, append_record(&mut octets, 0x1234, b"bc"), Ok(()));
    assert_equal!(&rt, octets.as_slice(), b"a\x12\x34\x02bc".as_slice());
    assert_equal!(
        &rt,
        append_record(&mut octets, 1, b""),
        Err(ComposeError::Short),
    );
    assert_equal!(
        &rt,
        append_record(&mut octets, 1, &[0; 256]),
        Err(ComposeError::TooLong),
    );
    assert_equal!(&rt, octets.as_slice(), b"a\x12\x34\x02bc".as_slice());
}

#[test]
fn records_are_read_whole(rt: HostRuntime) {
    let mut octets = Vec::new(rt.alloc());
    assert_equal!(&rt, append_record(&mut octets, 0x1234, b"bc"), Ok(()));
    assert_equal!(&rt, append_record(&mut octets, 7, b""), Ok(()));
    let records = unwrap(&rt, read_records(rt.alloc(), octets.as_slice()));
    assert_equal!(&rt, records.len(), 2);
    let mut again = Vec::new(rt.alloc());
    for record in &records {
        assert_equal!(
            &rt,
            append_record(&mut again, record.key, record.value),
            Ok(()),
        );
    }
    assert_equal!(&rt, again.as_slice(), octets.as_slice());
    let cut = read_records(rt.alloc(), b"\x12\x34\x02b".as_slice());
    assert_equal!(&rt, cut.err(), Some(ReadError::Malformed));
}

fn pairs<B: EmptyBuilder>(rt: &impl Abort, alloc: Global) {
    let both: B = unwrap(rt, paired(alloc, b"ab", b"c"));
    assert_equal!(rt, both.as_ref(), b"abc".as_slice());
}

#[test]
fn a_builder_is_swapped_for_another(rt: HostRuntime) {
    pairs::<Vec<u8>>(&rt, rt.alloc());
    pairs::<Array<4>>(&rt, rt.alloc());
    let full = paired::<Array<2>>(rt.alloc(), b"ab", b"c");
    assert_equal!(&rt, full.err(), Some(AppendError::Short(ShortBuf)));
}

#[test]
fn words_are_joined(rt: HostRuntime) {
    let mut text = unwrap(&rt, StrBuilder::<Array<8>>::new(rt.alloc()));
    assert_equal!(&rt, join(&mut text, &["ab", "", "c"], ", "), Ok(()));
    assert_equal!(&rt, text.as_str(), "ab, , c");
    let full = join(&mut text, &["d", "e"], "-");
    assert_equal!(&rt, full, Err(AppendError::Short(ShortBuf)));
    assert_equal!(&rt, text.as_str(), "ab, , cd");
}
