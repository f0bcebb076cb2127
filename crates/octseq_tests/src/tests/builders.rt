//! Each sequence and builder: what it keeps, refuses, copies and freezes to.
ghost use Rattle.std.specs.Prelude.{◌≡◌, Ok};

use crate::tests::unwrap;
use arrayvec::ArrayVec;
use bytes::{Bytes, BytesMut};
use octseq::array::Array;
use octseq::builder::{
    AppendError, AsOctets, BuilderAppendError, CloneOctets, EmptyBuilder, FreezeBuilder,
    FromBuilder, IntoBuilder, OctetsBuilder, OctetsLimit, ShortBuf, Truncate, infallible,
    with_infallible,
};
use octseq::cow::CowOctets;
use octseq_asserts::{assert_equal, assert_true};
use smallvec::SmallVec;
use std::alloc::{AllocError, Global};
use std::cmp::Ordering;
use std::fmt::Debug;
use std::hash::{BuildHasher, BuildHasherDefault, FoldHasher};
use std::process::Abort;
use std::rc::RcSlice;

#[test]
fn array_keeps_what_it_hides(rt: HostRuntime) {
    let mut array = Array::<4>::new();
    unwrap(&rt, array.append_slice(b"abcd"));
    array.truncate(1);
    assert_equal!(&rt, array.resize_raw(3), Ok(()));
    assert_equal!(&rt, array.as_slice(), b"abc".as_slice());
    assert_equal!(&rt, array.resize_raw(5), Err(ShortBuf));
    assert_equal!(&rt, array.as_slice(), b"abc".as_slice());
}

#[test]
fn array_refuses_what_passes_its_end(rt: HostRuntime) {
    let mut array = unwrap(&rt, Array::<4>::try_from(b"abcd".as_slice()));
    assert_equal!(&rt, array.append_slice(b""), Ok(()));
    assert_equal!(
        &rt,
        array.append_slice(b"e"),
        Err(AppendError::Short(ShortBuf)),
    );
    assert_equal!(&rt, array.as_slice(), b"abcd".as_slice());
    array.truncate(2);
    assert_equal!(
        &rt,
        array.append_slice(b"xyz"),
        Err(AppendError::Short(ShortBuf)),
    );
    assert_equal!(&rt, array.as_slice(), b"ab".as_slice());
}

#[test]
fn array_is_written_in_place(rt: HostRuntime) {
    let mut array = unwrap(&rt, Array::<4>::try_from(b"abc".as_slice()));
    array.as_slice_mut().reverse();
    assert_equal!(&rt, array.as_slice(), b"cba".as_slice());
    assert_equal!(&rt, array.resize_raw(4), Ok(()));
    assert_equal!(&rt, array.as_slice(), b"cba\0".as_slice());
    assert_equal!(
        &rt,
        Array::<2>::try_from(b"abc".as_slice()).err(),
        Some(ShortBuf),
    );
    assert_equal!(&rt, Array::<2>::default().as_slice(), b"".as_slice());
}

/// Fills a new builder through its traits only.
fn fill<B: EmptyBuilder + Truncate>(rt: &impl Abort, alloc: Global) {
    let mut builder = unwrap(rt, B::empty(alloc));
    unwrap(rt, builder.append_slice(b"abcd"));
    assert_equal!(rt, builder.as_ref(), b"abcd".as_slice());
    builder.truncate(1);
    unwrap(rt, (&mut builder).append_few(b"e"));
    assert_equal!(rt, builder.as_ref(), b"ae".as_slice());
    assert_equal!(rt, (&mut builder).max_len(), B::limit());
    let reserved = unwrap(rt, B::with_capacity(alloc, 4));
    assert_equal!(rt, reserved.as_ref(), b"".as_slice());
}

#[test]
fn each_builder_is_filled(rt: HostRuntime) {
    let alloc = rt.alloc();
    fill::<Vec<u8>>(&rt, alloc);
    fill::<Array<4>>(&rt, alloc);
    fill::<BytesMut>(&rt, alloc);
    fill::<SmallVec<u8, 2>>(&rt, alloc);
    fill::<ArrayVec<u8, 4>>(&rt, alloc);
}

/// Appends the octets twice to a vector that begins with room for so many.
fn append_twice(rt: &impl Abort, alloc: Global, octets: &[u8], capacity: usize) {
    let mut builder = unwrap(rt, Vec::with_capacity(alloc, capacity));
    unwrap(rt, builder.append_few(octets));
    unwrap(rt, builder.append_few(octets));
    let mut wanted = Vec::new(alloc);
    unwrap(rt, wanted.extend_from_slice(octets));
    unwrap(rt, wanted.extend_from_slice(octets));
    assert_equal!(rt, builder.as_slice(), wanted.as_slice());
}

#[test]
fn a_vector_appends_few_octets_of_each_length(rt: HostRuntime) {
    let octets = b"0123456789abcdefghijklmnopqrstuvwxyzABCD".as_slice();
    for len in 0..=octets.len() {
        if let Some((first, _)) = octets.split_at_checked(len) {
            append_twice(&rt, rt.alloc(), first, 0);
            append_twice(&rt, rt.alloc(), first, 128);
        }
    }
}

/// Checks a type's limit and whether it requests memory.
fn has_facts<T: OctetsLimit>(rt: &impl Abort, limit: Option<usize>, asks_memory: bool) {
    assert_equal!(rt, T::limit(), limit);
    assert_equal!(rt, T::asks_memory(), asks_memory);
}

#[test]
fn types_tell_their_limits(rt: HostRuntime) {
    has_facts::<Vec<u8>>(&rt, None, true);
    has_facts::<Array<7>>(&rt, Some(7), false);
    has_facts::<&[u8]>(&rt, None, false);
    has_facts::<CowOctets>(&rt, None, true);
    has_facts::<Bytes>(&rt, None, true);
    has_facts::<BytesMut>(&rt, None, true);
    has_facts::<SmallVec<u8, 2>>(&rt, None, true);
    has_facts::<ArrayVec<u8, 7>>(&rt, Some(7), false);
    has_facts::<RcSlice<u8>>(&rt, None, true);
    has_facts::<&Array<7>>(&rt, Some(7), false);
    has_facts::<&mut Array<4>>(&rt, Some(4), false);
}

/// Checks that a copy of a sequence has its content.
fn is_copied<T: CloneOctets, E: Debug + Drop>(rt: &impl Abort, alloc: Global, made: Result<T, E>) {
    let octets = unwrap(rt, made);
    let copy = unwrap(rt, octets.clone_octets(alloc));
    assert_equal!(rt, copy.as_ref(), octets.as_ref());
}

/// Makes borrowed octets.
fn borrowed(alloc: Global, octets: &[u8]) -> Result<CowOctets<'_>, AllocError> {
    Ok(CowOctets::borrowed(alloc, octets))
}

/// Makes owned octets.
fn owned(alloc: Global, octets: &[u8]) -> Result<CowOctets<'static>, AllocError> {
    Ok(CowOctets::owned(octets.to_vec(alloc)?))
}

/// Makes a builder of a fixed size from octets.
fn fixed(octets: &[u8]) -> Result<ArrayVec<u8, 4>, AppendError> {
    let mut fixed = ArrayVec::<u8, 4>::new();
    fixed.append_slice(octets)?;
    Ok(fixed)
}

#[test]
fn each_sequence_is_copied(rt: HostRuntime) {
    let (alloc, slice) = (rt.alloc(), b"abc".as_slice());
    is_copied::<_, AllocError>(&rt, alloc, Ok(slice));
    is_copied(&rt, alloc, slice.to_vec(alloc));
    is_copied(&rt, alloc, borrowed(alloc, slice));
    is_copied(&rt, alloc, owned(alloc, slice));
    shared_octets_are_copied(&rt, alloc, slice);
    is_copied(&rt, alloc, fixed(slice));
    a_cut_array_is_copied(&rt, alloc, unwrap(&rt, Array::try_from(slice)));
}

/// Checks copies of sequences that share their octets, or hold them inline.
fn shared_octets_are_copied(rt: &impl Abort, alloc: Global, slice: &[u8]) {
    is_copied(rt, alloc, Bytes::copy_from_slice(alloc, slice));
    is_copied(rt, alloc, BytesMut::copy_from_slice(alloc, slice));
    is_copied(rt, alloc, SmallVec::<u8, 2>::from_slice(alloc, slice));
    is_copied(rt, alloc, RcSlice::<u8>::from_slice(alloc, slice));
}

/// Checks that a copy of a truncated array also has the octets hidden after its end.
fn a_cut_array_is_copied(rt: &impl Abort, alloc: Global, mut array: Array<4>) {
    array.truncate(1);
    let mut copy = unwrap(rt, array.clone_octets(alloc));
    is_copied::<_, AllocError>(rt, alloc, Ok(array));
    assert_equal!(rt, copy.resize_raw(4), Ok(()));
    assert_equal!(rt, copy.as_slice(), b"abc\0".as_slice());
}

/// Checks a builder's octets when they are frozen, turned into a builder again, and grown.
fn goes_round<B: EmptyBuilder + FreezeBuilder>(rt: &impl Abort, alloc: Global)
where
    B::Octets: IntoBuilder,
{
    let mut builder = unwrap(rt, B::empty(alloc));
    unwrap(rt, builder.append_slice(b"abc"));
    let octets = unwrap(rt, builder.freeze());
    assert_equal!(rt, octets.as_ref(), b"abc".as_slice());
    let mut builder = unwrap(rt, octets.into_builder(alloc));
    unwrap(rt, builder.append_slice(b"d"));
    assert_equal!(rt, builder.as_ref(), b"abcd".as_slice());
}

/// Checks a sequence made from its builder.
fn is_built<O: FromBuilder>(rt: &impl Abort, mut builder: O::Builder) {
    unwrap(rt, builder.append_slice(b"d"));
    let octets = unwrap(rt, O::from_builder(builder));
    assert_equal!(rt, octets.as_ref(), b"abcd".as_slice());
}

#[test]
fn builders_and_sequences_go_round(rt: HostRuntime) {
    let alloc = rt.alloc();
    goes_round::<Vec<u8>>(&rt, alloc);
    goes_round::<Array<4>>(&rt, alloc);
    goes_round::<BytesMut>(&rt, alloc);
    goes_round::<SmallVec<u8, 2>>(&rt, alloc);
    goes_round::<ArrayVec<u8, 4>>(&rt, alloc);
}

#[test]
fn sequences_are_made_by_their_builders(rt: HostRuntime) {
    let (alloc, slice) = (rt.alloc(), b"abc".as_slice());
    is_built::<Vec<u8>>(&rt, unwrap(&rt, slice.into_builder(alloc)));
    is_built::<Array<4>>(&rt, unwrap(&rt, Array::try_from(slice)));
    is_built::<SmallVec<u8, 2>>(&rt, unwrap(&rt, SmallVec::from_slice(alloc, slice)));
    let borrowed = unwrap(&rt, CowOctets::borrowed(alloc, slice).freeze());
    is_built::<CowOctets>(&rt, unwrap(&rt, borrowed.into_builder(alloc)));
}

#[test]
fn fixed_and_shared_octets_are_made_by_their_builders(rt: HostRuntime) {
    let (alloc, slice) = (rt.alloc(), b"abc".as_slice());
    is_built::<ArrayVec<u8, 4>>(&rt, unwrap(&rt, fixed(slice)));
    let shared = unwrap(&rt, BytesMut::copy_from_slice(alloc, slice));
    is_built::<Bytes>(
        &rt,
        unwrap(
            &rt,
            unwrap(&rt, FreezeBuilder::freeze(shared)).into_builder(alloc),
        ),
    );
}

/// Grows the octets "ab" through a reference, and truncates them.
fn grows_by_a_reference<B: OctetsBuilder + Truncate>(rt: &impl Abort, mut reference: B) {
    unwrap(rt, reference.append_slice(b"cd"));
    reference.truncate(3);
    assert_equal!(rt, reference.as_ref(), b"abc".as_slice());
}

/// Checks that octets are "abc".
fn is_abc(rt: &impl Abort, octets: impl AsOctets) {
    assert_equal!(rt, octets.as_ref(), b"abc".as_slice());
}

/// Truncates the octets "abc", and checks what is left.
fn is_cut<T: Truncate>(rt: &impl Abort, octets: &mut T, len: usize, front: &[u8]) {
    octets.truncate(len);
    assert_equal!(rt, octets.as_ref(), front);
}

#[test]
fn a_reference_grows_what_it_refers_to(rt: HostRuntime) {
    let mut octets = unwrap(&rt, b"ab".as_slice().to_vec(rt.alloc()));
    grows_by_a_reference(&rt, &mut octets);
    is_abc(&rt, &octets);
    let mut slice = b"abc".as_slice();
    is_cut(&rt, &mut slice, 5, b"abc");
    is_cut(&rt, &mut slice, 2, b"ab");
    let mut shared = unwrap(&rt, Bytes::copy_from_slice(rt.alloc(), b"abc"));
    is_cut(&rt, &mut shared, 2, b"ab");
}

/// Checks that octets are owned after an empty append.
fn is_owned_after_nothing(rt: &impl Abort, mut empty: CowOctets) {
    unwrap(rt, empty.append_slice(b""));
    assert_true!(rt, !empty.is_borrowed());
}

#[test]
fn borrowed_octets_are_copied_at_the_first_append(rt: HostRuntime) {
    is_owned_after_nothing(&rt, CowOctets::borrowed(rt.alloc(), b""));
    let mut cow = CowOctets::borrowed(rt.alloc(), b"abc");
    cow.truncate(5);
    assert_equal!(&rt, cow.as_ref(), b"abc".as_slice());
    assert_true!(&rt, cow.is_borrowed());
    unwrap(&rt, cow.append_slice(b"d"));
    assert_equal!(&rt, cow.as_ref(), b"abcd".as_slice());
    assert_true!(&rt, !cow.is_borrowed());
    cow.truncate(2);
    assert_equal!(&rt, cow.as_ref(), b"ab".as_slice());
}

/// Checks that a truncation to the maximum length removes nothing.
fn keeps_all<T: Truncate, E: Debug + Drop>(rt: &impl Abort, made: Result<T, E>) {
    let mut octets = unwrap(rt, made);
    octets.truncate(usize::MAX);
    assert_equal!(rt, octets.as_ref(), b"ab".as_slice());
}

#[test]
fn the_greatest_length_takes_nothing_away(rt: HostRuntime) {
    let (alloc, slice) = (rt.alloc(), b"ab".as_slice());
    keeps_all::<_, AllocError>(&rt, Ok(slice));
    keeps_all(&rt, slice.to_vec(alloc));
    keeps_all::<_, AllocError>(&rt, Ok(&mut unwrap(&rt, slice.to_vec(alloc))));
    keeps_all(&rt, borrowed(alloc, slice));
    keeps_all(&rt, owned(alloc, slice));
    shared_and_fixed_octets_are_kept(&rt, alloc, slice);
}

/// Does the same for sequences that share their octets or hold them inline.
fn shared_and_fixed_octets_are_kept(rt: &impl Abort, alloc: Global, slice: &[u8]) {
    keeps_all(rt, Bytes::copy_from_slice(alloc, slice));
    keeps_all(rt, BytesMut::copy_from_slice(alloc, slice));
    keeps_all(rt, SmallVec::<u8, 2>::from_slice(alloc, slice));
    keeps_all(rt, fixed(slice));
    let mut array = unwrap(rt, Array::<4>::try_from(slice));
    assert_equal!(rt, array.resize_raw(usize::MAX), Err(ShortBuf));
    keeps_all::<_, AllocError>(rt, Ok(array));
}

#[test]
fn the_greatest_capacity_is_refused_or_ignored(rt: HostRuntime) {
    let (alloc, most) = (rt.alloc(), usize::MAX);
    assert_true!(
        &rt,
        <Vec<u8> as EmptyBuilder>::with_capacity(alloc, most).is_err(),
    );
    assert_true!(
        &rt,
        <BytesMut as EmptyBuilder>::with_capacity(alloc, most).is_err(),
    );
    assert_true!(
        &rt,
        <SmallVec<u8, 2> as EmptyBuilder>::with_capacity(alloc, most).is_err()
    );
    assert_equal!(
        &rt,
        unwrap(&rt, Array::<4>::with_capacity(alloc, most)).as_slice(),
        b"".as_slice(),
    );
    let fixed = unwrap(
        &rt,
        <ArrayVec<u8, 4> as EmptyBuilder>::with_capacity(alloc, most),
    );
    assert_equal!(&rt, fixed.as_slice(), b"".as_slice());
}

#[test]
fn arrays_are_compared_by_content(rt: HostRuntime) {
    let mut cut = unwrap(&rt, Array::<4>::try_from(b"ab".as_slice()));
    cut.truncate(1);
    let mut whole = unwrap(&rt, Array::<4>::try_from(b"a".as_slice()));
    assert_true!(&rt, cut == whole);
    assert_equal!(&rt, cut.cmp(&whole), Ordering::Equal);
    assert_equal!(&rt, cut.resize_raw(2), Ok(()));
    assert_equal!(&rt, whole.resize_raw(2), Ok(()));
    assert_true!(&rt, cut != whole);
    assert_equal!(&rt, cut.partial_cmp(&whole), Some(Ordering::Greater));
}

#[test]
fn arrays_are_hashed_and_shown_by_content(rt: HostRuntime) {
    let mut cut = unwrap(&rt, Array::<4>::try_from(b"abc".as_slice()));
    cut.truncate(2);
    let whole = unwrap(&rt, Array::<4>::try_from(b"ab".as_slice()));
    let hasher = BuildHasherDefault::<FoldHasher>::default();
    assert_equal!(&rt, hasher.hash_one(&cut), hasher.hash_one(&whole));
    let shown = unwrap(&rt, format!(in rt.alloc(); "{cut:?}"));
    assert_equal!(&rt, shown.as_str(), "octets::Array([97, 98])");
}

#[test]
fn results_known_to_be_ok_give_their_values(rt: HostRuntime) {
    let seven: Result<u8, BuilderAppendError> = Ok(7);
    assert_equal!(&rt, infallible(seven), 7);
    let op = || -> Result<u8, AppendError>
        ensures { result ≡ Ok 7 }
    { Ok(7) };
    assert_equal!(&rt, with_infallible(op), 7);
}

/// Checks what an error shows.
fn shows<E: ToString>(rt: &impl Abort, alloc: Global, error: &E, text: &str) {
    assert_equal!(rt, unwrap(rt, error.to_string(alloc)).as_str(), text);
}

#[test]
fn errors_are_shown(rt: HostRuntime) {
    let alloc = rt.alloc();
    let short = AppendError::from(ShortBuf);
    let memory = AppendError::from(AllocError);
    assert_equal!(
        &rt,
        &short,
        &AppendError::Short(unwrap(&rt, ShortBuf.clone()))
    );
    assert_equal!(&rt, &memory, &AppendError::Memory);
    shows(&rt, alloc, &ShortBuf, "buffer size exceeded");
    shows(&rt, alloc, &short, "buffer size exceeded");
    shows(&rt, alloc, &memory, "out of memory");
    let shown = unwrap(&rt, format!(in alloc; "{short:?} {memory:?}"));
    assert_equal!(&rt, shown.as_str(), "Short(ShortBuf) Memory");
}
