//! Builders and sequences of each representation.
use crate::tests::unwrap;
use arrayvec::ArrayVec;
use bytes::{Bytes, BytesMut};
use octseq::builder::{
    AppendError, AsOctets, CloneOctets, EmptyBuilder, FreezeBuilder, FromBuilder, IntoBuilder,
    OctetsBuilder,
};
use octseq::cow::CowOctets;
use octseq_asserts::{assert_equal, assert_true};
use smallvec::SmallVec;
use std::alloc::{AllocError, Global};
use std::process::Abort;
use std::rc::RcSlice;

/// Appends to an empty builder. It has all of the slice after each append, or none of it.
fn grows<B: OctetsBuilder>(rt: &impl Abort, mut builder: B) {
    let octets = b"0123456789abcdefghijklmnopqrstuvwxyz".as_slice();
    let mut len = 0_usize;
    for slice in octets.chunks(9) {
        let appended = builder.append_slice(slice);
        if appended.is_ok() {
            len = len.saturating_add(slice.len());
        }
        assert_equal!(rt, Some(builder.as_ref()), octets.get(..len));
        unwrap(rt, appended);
    }
}

#[test]
fn vectors_grow(rt: HostRuntime) {
    grows(&rt, unwrap(&rt, Vec::empty(rt.alloc())));
    grows(&rt, &mut unwrap(&rt, Vec::empty(rt.alloc())));
}

#[test]
fn shared_buffers_grow(rt: HostRuntime) {
    grows(&rt, unwrap(&rt, BytesMut::empty(rt.alloc())));
}

#[test]
fn small_vectors_grow(rt: HostRuntime) {
    grows(&rt, unwrap(&rt, SmallVec::<u8, 12>::empty(rt.alloc())));
}

#[test]
fn borrowed_octets_become_owned_or_stay_borrowed(rt: HostRuntime) {
    let mut octets = CowOctets::borrowed(rt.alloc(), b"abc");
    let appended = octets.append_slice(b"d");
    let wanted = if appended.is_ok() {
        b"abcd".as_slice()
    } else {
        b"abc"
    };
    assert_equal!(&rt, octets.as_ref(), wanted);
    assert_equal!(&rt, octets.is_borrowed(), appended.is_err());
    unwrap(&rt, appended);
    grows(&rt, CowOctets::borrowed(rt.alloc(), b""));
}

/// Makes empty builders.
fn is_made<B: EmptyBuilder>(rt: &impl Abort, alloc: Global) {
    assert_true!(rt, unwrap(rt, B::empty(alloc)).as_ref().is_empty());
    assert_true!(
        rt,
        unwrap(rt, B::with_capacity(alloc, 8)).as_ref().is_empty()
    );
}

#[test]
fn builders_are_made(rt: HostRuntime) {
    is_made::<Vec<u8>>(&rt, rt.alloc());
    is_made::<BytesMut>(&rt, rt.alloc());
    is_made::<SmallVec<u8, 2>>(&rt, rt.alloc());
}

/// Copies a sequence. It is unchanged whatever the result.
fn is_copied<T: CloneOctets>(rt: &impl Abort, alloc: Global, octets: T) {
    let copy = octets.clone_octets(alloc);
    assert_equal!(rt, octets.as_ref(), b"abc".as_slice());
    assert_equal!(rt, unwrap(rt, copy).as_ref(), b"abc".as_slice());
}

#[test]
fn vectors_are_copied(rt: HostRuntime) {
    let (alloc, slice) = (rt.alloc(), b"abc".as_slice());
    is_copied(&rt, alloc, unwrap(&rt, slice.to_vec(alloc)));
    is_copied(
        &rt,
        alloc,
        CowOctets::owned(unwrap(&rt, slice.to_vec(alloc))),
    );
    is_copied(
        &rt,
        alloc,
        unwrap(&rt, SmallVec::<u8, 2>::from_slice(alloc, slice)),
    );
}

#[test]
fn shared_octets_are_copied(rt: HostRuntime) {
    let (alloc, slice) = (rt.alloc(), b"abc".as_slice());
    is_copied(
        &rt,
        alloc,
        unwrap(&rt, Bytes::copy_from_slice(alloc, slice)),
    );
    is_copied(
        &rt,
        alloc,
        unwrap(&rt, BytesMut::copy_from_slice(alloc, slice)),
    );
    is_copied(
        &rt,
        alloc,
        unwrap(&rt, RcSlice::<u8>::from_slice(alloc, slice)),
    );
}

#[test]
fn shared_octets_go_round(rt: HostRuntime) {
    let alloc = rt.alloc();
    let builder = unwrap(&rt, BytesMut::copy_from_slice(alloc, b"abc"));
    let octets = unwrap(&rt, FreezeBuilder::freeze(builder));
    assert_equal!(&rt, octets.as_slice(), b"abc".as_slice());
    let other = unwrap(&rt, octets.clone_octets(alloc));
    // (with another handle on the octets, a builder has to copy them)
    let builder = unwrap(&rt, octets.into_builder(alloc));
    assert_equal!(&rt, builder.as_slice(), b"abc".as_slice());
    assert_equal!(&rt, other.as_slice(), b"abc".as_slice());
    assert_equal!(
        &rt,
        unwrap(&rt, Bytes::from_builder(builder)).as_slice(),
        b"abc".as_slice(),
    );
}

#[test]
fn a_slice_is_made_into_a_builder(rt: HostRuntime) {
    let builder = unwrap(&rt, b"abc".as_slice().into_builder(rt.alloc()));
    assert_equal!(&rt, builder.as_slice(), b"abc".as_slice());
}
