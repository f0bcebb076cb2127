//! Ranges and conversions.
use crate::tests::unwrap;
use arrayvec::ArrayVec;
use bytes::{Bytes, BytesMut};
use octseq::array::Array;
use octseq::builder::{AppendError, AsOctets, CloneOctets, ShortBuf};
use octseq::cow::CowOctets;
use octseq::octets::{Bound, Octets, OctetsFrom, OctetsInto, SmallOctets, range_exists, span};
use octseq_asserts::{assert_equal, assert_true};
use smallvec::SmallVec;
use std::alloc::Global;
use std::fmt::Debug;
use std::process::Abort;
use std::rc::RcSlice;

/// Returns the octets of a range, or `None` if it doesn't exist.
fn cut<O: Octets>(octets: O, bounds: (Bound, Bound)) -> Option<O::Range> {
    if range_exists(octets.as_ref().len(), bounds) {
        octets.range(bounds).ok()
    } else {
        None
    }
}

#[test]
fn ranges_are_cut_where_they_lie(rt: HostRuntime) {
    let alloc = rt.alloc();
    let shared = unwrap(&rt, Bytes::copy_from_slice(alloc, b"abcdef"));
    let inner = unwrap(
        &rt,
        cut(&shared, (Bound::Included(1), Bound::Excluded(4))).ok_or("no range"),
    );
    assert_equal!(&rt, inner.as_slice(), b"bcd".as_slice());
    let again = unwrap(
        &rt,
        cut(&inner, (Bound::Excluded(0), Bound::Unbounded)).ok_or("no range"),
    );
    assert_equal!(&rt, again.as_slice(), b"cd".as_slice());
}

/// Checks that a range of "abc" is the slice "bc".
fn is_cut<'a, R: Octets<Range = &'a [u8]>>(rt: &impl Abort, octets: R) {
    assert_equal!(rt, cut(octets, span(1, 3)), Some(b"bc".as_slice()));
}

#[test]
fn ranges_of_octets_that_are_not_shared_are_slices(rt: HostRuntime) {
    let (alloc, slice) = (rt.alloc(), b"abc".as_slice());
    is_cut(&rt, slice);
    is_cut(&rt, &unwrap(&rt, slice.to_vec(alloc)));
    is_cut(&rt, &CowOctets::borrowed(alloc, slice));
    is_cut(
        &rt,
        &unwrap(&rt, SmallVec::<u8, 2>::from_slice(alloc, slice)),
    );
    is_cut(&rt, &unwrap(&rt, Array::<4>::try_from(slice)));
    is_cut(&rt, &unwrap(&rt, RcSlice::<u8>::from_slice(alloc, slice)));
    is_cut(
        &rt,
        &unwrap(&rt, ArrayVec::<u8, 4>::try_octets_from(alloc, slice)),
    );
}

#[test]
fn the_greatest_bounds_are_told_apart(rt: HostRuntime) {
    let most = usize::MAX;
    assert_true!(&rt, range_exists(3, (Bound::Excluded(2), Bound::Unbounded)));
    assert_true!(
        &rt,
        !range_exists(3, (Bound::Excluded(3), Bound::Unbounded)),
    );
    assert_true!(
        &rt,
        range_exists(most, (Bound::Excluded(most - 1), Bound::Unbounded)),
    );
    assert_true!(
        &rt,
        !range_exists(most, (Bound::Unbounded, Bound::Included(most))),
    );
    assert_true!(
        &rt,
        !range_exists(3, (Bound::Excluded(most), Bound::Unbounded)),
    );
    assert_true!(
        &rt,
        !range_exists(3, (Bound::Unbounded, Bound::Included(most))),
    );
}

/// Returns each bound with an index up to 5, with the start and the end that it means in octets of a length.
fn each_bound(rt: &impl Abort, alloc: Global, len: usize) -> Vec<(Bound, usize, usize)> {
    let mut bounds = Vec::new(alloc);
    unwrap(rt, bounds.push((Bound::Unbounded, 0, len)));
    for n in 0..6 {
        unwrap(rt, bounds.push((Bound::Included(n), n, n + 1)));
        unwrap(rt, bounds.push((Bound::Excluded(n), n + 1, n)));
    }
    bounds
}

#[test]
fn ranges_are_those_of_whole_numbers(rt: HostRuntime) {
    for octets in [b"".as_slice(), b"x", b"xy", b"xyz"] {
        let bounds = each_bound(&rt, rt.alloc(), octets.len());
        for (first, start, _) in &bounds {
            for (last, _, end) in &bounds {
                let wanted = octets.get(*start..*end);
                assert_equal!(&rt, cut(octets, (*first, *last)), wanted);
            }
        }
    }
}

/// Checks that a conversion keeps the octets.
fn converts<S: AsOctets, T: OctetsFrom<S>>(rt: &impl Abort, alloc: Global, source: S) {
    let octets = unwrap(rt, T::try_octets_from(alloc, source));
    assert_equal!(rt, octets.as_ref(), b"abc".as_slice());
}

/// Checks that a conversion of a copy of a source keeps the octets.
fn is_made_into<S: CloneOctets, T: OctetsFrom<S>>(rt: &impl Abort, alloc: Global, source: &S) {
    converts::<S, T>(rt, alloc, unwrap(rt, source.clone_octets(alloc)));
}

/// Checks every conversion of a source.
fn into_each_of<S: CloneOctets>(rt: &impl Abort, alloc: Global, source: &S) {
    is_made_into::<S, Vec<u8>>(rt, alloc, source);
    is_made_into::<S, Bytes>(rt, alloc, source);
    is_made_into::<S, BytesMut>(rt, alloc, source);
    is_made_into::<S, SmallVec<u8, 2>>(rt, alloc, source);
    is_made_into::<S, ArrayVec<u8, 3>>(rt, alloc, source);
    is_made_into::<S, Array<3>>(rt, alloc, source);
    converts::<&S, &[u8]>(rt, alloc, source);
    converts::<&S, Vec<u8>>(rt, alloc, source);
}

/// Checks every conversion of a source that was made.
fn into_each<S: CloneOctets, E: Debug + Drop>(rt: &impl Abort, alloc: Global, made: Result<S, E>) {
    into_each_of(rt, alloc, &unwrap(rt, made));
}

#[test]
fn each_sequence_is_made_into_each_other(rt: HostRuntime) {
    let (alloc, slice) = (rt.alloc(), b"abc".as_slice());
    into_each_of(&rt, alloc, &slice);
    into_each(&rt, alloc, slice.to_vec(alloc));
    into_each_of(&rt, alloc, &CowOctets::borrowed(alloc, slice));
    into_each(&rt, alloc, Bytes::copy_from_slice(alloc, slice));
    into_each(&rt, alloc, BytesMut::copy_from_slice(alloc, slice));
    into_each(&rt, alloc, SmallVec::<u8, 2>::from_slice(alloc, slice));
    into_each(&rt, alloc, RcSlice::<u8>::from_slice(alloc, slice));
    into_each(&rt, alloc, Array::<4>::try_from(slice));
    into_each(&rt, alloc, ArrayVec::<u8, 4>::try_octets_from(alloc, slice));
}

/// Checks that what was made has the expected octets, or if there are none, that it was refused for lack of room.
fn is_whole_or_short<T: AsOctets>(
    rt: &impl Abort,
    made: Result<T, AppendError>,
    wanted: Option<&[u8]>,
) {
    match made {
        Ok(octets) => assert_equal!(rt, Some(octets.as_ref()), wanted),
        Err(error) => {
            assert_true!(rt, wanted.is_none());
            assert_equal!(rt, error, AppendError::Short(ShortBuf));
        }
    }
}

#[test]
fn a_conversion_that_passes_the_limit_is_refused(rt: HostRuntime) {
    let (alloc, slice) = (rt.alloc(), b"abcd".as_slice());
    let short: Result<Array<3>, AppendError> = unwrap(&rt, slice.to_vec(alloc)).try_octets_into(
        alloc,
    );
    is_whole_or_short(&rt, short, None);
    let whole: Result<Array<4>, AppendError> = unwrap(&rt, slice.to_vec(alloc)).try_octets_into(
        alloc,
    );
    is_whole_or_short(&rt, whole, Some(slice));
    let fixed = ArrayVec::<u8, 4>::try_octets_from(alloc, unwrap(&rt, slice.to_vec(alloc)));
    is_whole_or_short(&rt, fixed, Some(slice));
    let short = Array::<3>::try_octets_from(alloc, unwrap(&rt, slice.to_vec(alloc)));
    is_whole_or_short(&rt, short, None);
}

#[test]
fn octets_of_any_length_are_converted(rt: HostRuntime) {
    let (alloc, long) = (rt.alloc(), [7u8; 25].as_slice());
    let shared: Bytes = unwrap(&rt, unwrap(&rt, long.to_vec(alloc)).octets_into(alloc));
    assert_equal!(&rt, shared.as_slice(), long);
    let small = unwrap(
        &rt,
        SmallOctets::try_octets_from(alloc, unwrap(&rt, long.to_vec(alloc))),
    );
    assert_equal!(&rt, small.as_slice(), long);
    let vec = unwrap(&rt, Vec::octets_from(alloc, long));
    assert_equal!(&rt, vec.as_slice(), long);
}
