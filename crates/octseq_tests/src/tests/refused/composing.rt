//! Integers and parts at the end of a builder.
use crate::tests::unwrap;
use bytes::BytesMut;
use octseq::builder::{EmptyBuilder, OctetsBuilder, Truncate};
use octseq::compose::{ComposeError, append_part_u8, append_part_u16_be, append_u64_be};
use octseq::cow::CowOctets;
use octseq_asserts::assert_equal;
use smallvec::SmallVec;
use std::alloc::AllocError;
use std::process::Abort;

/// Appends an integer and two parts to an empty builder. It has all of each, or nothing of it.
fn grows<B: OctetsBuilder + Truncate>(rt: &impl Abort, mut builder: B) {
    let whole = b"\0\0\0\0\0\0\0\x07\x0Aabcdefghij\0\x14abcdefghijabcdefghij".as_slice();
    let appended = append_u64_be(&mut builder, 7);
    let len = if appended.is_ok() { 8 } else { 0 };
    assert_equal!(rt, Some(builder.as_ref()), whole.get(..len));
    unwrap(rt, appended);
    let appended = append_part_u8(&mut builder, b"abcdefghij");
    let len = if appended.is_ok() { 19 } else { 8 };
    assert_equal!(rt, Some(builder.as_ref()), whole.get(..len));
    reported(rt, appended);
    let appended = append_part_u16_be(&mut builder, b"abcdefghijabcdefghij");
    let len = if appended.is_ok() { 41 } else { 19 };
    assert_equal!(rt, Some(builder.as_ref()), whole.get(..len));
    reported(rt, appended);
}

/// Checks that the refusal of a part is for memory.
fn reported(rt: &impl Abort, appended: Result<(), ComposeError>) {
    if let Err(error) = appended {
        assert_equal!(rt, error, ComposeError::Memory);
        unwrap(rt, Err(AllocError))
    }
}

#[test]
fn messages_in_vectors_grow(rt: HostRuntime) {
    grows(&rt, unwrap(&rt, Vec::empty(rt.alloc())));
    grows(&rt, CowOctets::borrowed(rt.alloc(), b""));
}

#[test]
fn messages_in_other_buffers_grow(rt: HostRuntime) {
    grows(&rt, unwrap(&rt, BytesMut::empty(rt.alloc())));
    grows(&rt, unwrap(&rt, SmallVec::<u8, 2>::empty(rt.alloc())));
}
