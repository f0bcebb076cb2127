//! Conversions and ranges.
ghost use Rattle.std.specs.Prelude.{◌≡◌, None};

use crate::tests::unwrap;
use arrayvec::ArrayVec;
use bytes::{Bytes, BytesMut};
use octseq::array::Array;
use octseq::builder::{AppendError, AsOctets, CloneOctets};
use octseq::cow::CowOctets;
use octseq::octets::{Octets, OctetsFrom, OctetsInto, span};
use octseq::str::Str;
use octseq_asserts::assert_equal;
use smallvec::SmallVec;
use std::alloc::Global;
use std::fmt::Debug;
use std::process::Abort;
use std::rc::RcSlice;

/// Checks that a sequence is unchanged, and that the octets made from a copy of it are equal, unless they were refused.
fn holds<S: AsOctets, T: AsOctets, E: Debug + Drop>(
    rt: &impl Abort,
    source: &S,
    made: Result<T, E>,
) {
    assert_equal!(rt, source.as_ref(), b"abc".as_slice());
    assert_equal!(rt, unwrap(rt, made).as_ref(), b"abc".as_slice());
}

/// Makes octets from copies of a sequence by each of the calls.
fn is_made_of<S: CloneOctets, T: OctetsFrom<S>>(rt: &impl Abort, alloc: Global, source: &S)
    requires { T.limit ≡ None }
{
    let copy = unwrap(rt, source.clone_octets(alloc));
    holds(rt, source, T::try_octets_from(alloc, copy));
    let copy = unwrap(rt, source.clone_octets(alloc));
    holds(rt, source, T::octets_from(alloc, copy));
    let copy = unwrap(rt, source.clone_octets(alloc));
    let made: Result<T, AppendError> = copy.try_octets_into(alloc);
    holds(rt, source, made);
    let copy = unwrap(rt, source.clone_octets(alloc));
    holds::<S, T, _>(rt, source, copy.octets_into(alloc));
}

/// Makes octets of each type that requests memory.
fn is_made_into_each<S: CloneOctets>(rt: &impl Abort, alloc: Global, source: S) {
    is_made_of::<S, Vec<u8>>(rt, alloc, &source);
    is_made_of::<S, Bytes>(rt, alloc, &source);
    is_made_of::<S, BytesMut>(rt, alloc, &source);
    is_made_of::<S, SmallVec<u8, 2>>(rt, alloc, &source);
}

#[test]
fn vectors_and_slices_are_converted(rt: HostRuntime) {
    let (alloc, slice) = (rt.alloc(), b"abc".as_slice());
    is_made_into_each(&rt, alloc, slice);
    is_made_into_each(&rt, alloc, unwrap(&rt, slice.to_vec(alloc)));
    is_made_into_each(&rt, alloc, CowOctets::borrowed(alloc, slice));
}

#[test]
fn shared_octets_are_converted(rt: HostRuntime) {
    let (alloc, slice) = (rt.alloc(), b"abc".as_slice());
    is_made_into_each(
        &rt,
        alloc,
        unwrap(&rt, Bytes::copy_from_slice(alloc, slice)),
    );
    is_made_into_each(
        &rt,
        alloc,
        unwrap(&rt, BytesMut::copy_from_slice(alloc, slice)),
    );
    is_made_into_each(
        &rt,
        alloc,
        unwrap(&rt, RcSlice::<u8>::from_slice(alloc, slice)),
    );
}

#[test]
fn inline_octets_are_converted(rt: HostRuntime) {
    let (alloc, slice) = (rt.alloc(), b"abc".as_slice());
    is_made_into_each(
        &rt,
        alloc,
        unwrap(&rt, SmallVec::<u8, 2>::from_slice(alloc, slice)),
    );
    is_made_into_each(
        &rt,
        alloc,
        unwrap(&rt, ArrayVec::<u8, 4>::try_octets_from(alloc, slice)),
    );
    is_made_into_each(&rt, alloc, unwrap(&rt, Array::<4>::try_from(slice)));
}

/// Makes texts of a text.
fn is_a_text_of<T: OctetsFrom<&'static [u8]>>(rt: &impl Abort, alloc: Global)
    requires { T.limit ≡ None }
{
    let text = unwrap(rt, Str::<T>::try_octets_from(alloc, Str::from_str("abc")));
    assert_equal!(rt, text.as_str(), "abc");
    let text: Str<T> = unwrap(rt, Str::from_str("abc").octets_into(alloc));
    assert_equal!(rt, text.as_str(), "abc");
}

#[test]
fn texts_are_converted(rt: HostRuntime) {
    let alloc = rt.alloc();
    is_a_text_of::<Vec<u8>>(&rt, alloc);
    is_a_text_of::<Bytes>(&rt, alloc);
    is_a_text_of::<BytesMut>(&rt, alloc);
    is_a_text_of::<SmallVec<u8, 2>>(&rt, alloc);
}

#[test]
fn a_range_of_shared_octets_is_cut(rt: HostRuntime) {
    let octets = Bytes::copy_from_slice(rt.alloc(), b"abcdef").expect(&rt, "error");
    let range = (&octets).range(span(1, 4));
    assert_equal!(&rt, octets.as_slice(), b"abcdef".as_slice());
    assert_equal!(&rt, unwrap(&rt, range).as_slice(), b"bcd".as_slice());
}
