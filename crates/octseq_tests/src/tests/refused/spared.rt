//! Calls that request no memory. Their setup may.
ghost use Rattle.std.specs.Prelude.{◌≡◌, None};

use crate::tests::{is_text_or_short, unwrap};
use arrayvec::ArrayVec;
use bytes::{Bytes, BytesMut};
use octseq::array::Array;
use octseq::builder::{
    AppendError, AsOctets, CloneOctets, EmptyBuilder, FreezeBuilder, FromBuilder, IntoBuilder,
    OctetsBuilder, ShortBuf, Truncate,
};
use octseq::cow::CowOctets;
use octseq::octets::{Octets, OctetsFrom, OctetsInto, range_exists, span};
use octseq::parse::Parser;
use octseq::str::{LossyPieces, Str, StrBuilder, boundary, last_char};
use octseq::utf8::{Turns, first_fault};
use octseq_asserts::{assert_equal, assert_true};
use smallvec::SmallVec;
use std::alloc::Global;
use std::process::Abort;
use std::rc::RcSlice;

/// Returns the value of a call that requests no memory.
fn given<T, E: Drop>(rt: &impl Abort, answer: Result<T, E>) -> T {
    match answer {
        Ok(value) => value,
        Err(_) => panic!(rt; "it was refused"),
    }
}

/// Freezes octets, turns them into a builder, and reads them.
fn stays<B>(rt: &impl Abort, alloc: Global, octets: B)
where
    B: FreezeBuilder<Octets = B> + IntoBuilder<Builder = B> + FromBuilder<Builder = B>,
{
    let octets = given(rt, given(rt, octets.freeze()).into_builder(alloc));
    let octets = given(rt, B::from_builder(octets));
    let text = unwrap(rt, StrBuilder::from_utf8(octets).ok().ok_or("refused"));
    let text = given(rt, text.freeze());
    assert_equal!(rt, text.as_str(), "ab€");
}

#[test]
fn vectors_stay_what_they_are(rt: HostRuntime) {
    let (alloc, octets) = (rt.alloc(), "ab€".as_bytes());
    stays(&rt, alloc, unwrap(&rt, octets.to_vec(alloc)));
    stays(
        &rt,
        alloc,
        unwrap(&rt, SmallVec::<u8, 2>::from_slice(alloc, octets)),
    );
    stays(&rt, alloc, CowOctets::borrowed(alloc, octets));
    stays(
        &rt,
        alloc,
        CowOctets::owned(unwrap(&rt, octets.to_vec(alloc))),
    );
}

#[test]
fn fixed_buffers_stay_what_they_are(rt: HostRuntime) {
    let (alloc, octets) = (rt.alloc(), "ab€".as_bytes());
    stays(&rt, alloc, unwrap(&rt, Array::<5>::try_from(octets)));
    stays(
        &rt,
        alloc,
        unwrap(&rt, ArrayVec::<u8, 6>::try_octets_from(alloc, octets)),
    );
}

/// Makes texts in a fixed builder.
fn texts_are_made<B: EmptyBuilder>(rt: &impl Abort, alloc: Global)
where
    B: FreezeBuilder<Octets = B> + FromBuilder<Builder = B>,
{
    assert_true!(rt, given(rt, StrBuilder::<B>::new(alloc)).is_empty());
    let mut text = given(rt, StrBuilder::<B>::with_capacity(alloc, usize::MAX));
    given(rt, text.try_push_str("ab"));
    given(rt, text.try_push('€'));
    assert_equal!(rt, text.as_str(), "ab€");
    let text = given(rt, Str::<B>::try_copy_from_str(alloc, "ab€"));
    assert_equal!(rt, text.as_str(), "ab€");
}

/// Makes a fixed builder, and borrows it.
fn is_lent<B: EmptyBuilder + Truncate>(rt: &impl Abort, alloc: Global) {
    let mut builder = given(rt, B::with_capacity(alloc, usize::MAX));
    given(rt, builder.append_slice(b"abcd"));
    let mut lent = &mut builder;
    lent.truncate(3);
    given(rt, lent.append_slice(b"de"));
    assert_equal!(rt, builder.as_ref(), b"abcde".as_slice());
}

#[test]
fn fixed_builders_are_made(rt: HostRuntime) {
    texts_are_made::<Array<5>>(&rt, rt.alloc());
    texts_are_made::<ArrayVec<u8, 5>>(&rt, rt.alloc());
    is_lent::<Array<5>>(&rt, rt.alloc());
    is_lent::<ArrayVec<u8, 5>>(&rt, rt.alloc());
}

/// Makes octets from copies of a sequence.
fn is_made_of<S: CloneOctets, T: OctetsFrom<S>>(rt: &impl Abort, alloc: Global, source: &S) {
    let copy = unwrap(rt, source.clone_octets(alloc));
    let octets = given(rt, T::try_octets_from(alloc, copy));
    assert_equal!(rt, octets.as_ref(), b"abc".as_slice());
    let copy = unwrap(rt, source.clone_octets(alloc));
    let octets: T = given(rt, copy.try_octets_into(alloc));
    assert_equal!(rt, octets.as_ref(), b"abc".as_slice());
}

/// Makes octets of each type that requests no memory, or none inline, and borrows them as a slice.
fn is_made_into_each<S: CloneOctets>(rt: &impl Abort, alloc: Global, source: S) {
    is_made_of::<S, Array<3>>(rt, alloc, &source);
    is_made_of::<S, ArrayVec<u8, 3>>(rt, alloc, &source);
    is_made_of::<S, SmallVec<u8, 3>>(rt, alloc, &source);
    let lent = given(rt, <&[u8]>::try_octets_from(alloc, &source));
    assert_equal!(rt, given(rt, <&[u8]>::octets_from(alloc, &source)), lent);
    let other: &[u8] = given(rt, (&source).try_octets_into(alloc));
    assert_equal!(rt, other, lent);
    let other: &[u8] = given(rt, (&source).octets_into(alloc));
    assert_equal!(rt, other, b"abc".as_slice());
}

#[test]
fn vectors_and_slices_are_converted(rt: HostRuntime) {
    let (alloc, slice) = (rt.alloc(), b"abc".as_slice());
    is_made_into_each(&rt, alloc, slice);
    is_made_into_each(&rt, alloc, unwrap(&rt, slice.to_vec(alloc)));
    is_made_into_each(&rt, alloc, CowOctets::borrowed(alloc, slice));
}

#[test]
fn shared_octets_are_converted(rt: HostRuntime) {
    let (alloc, slice) = (rt.alloc(), b"abc".as_slice());
    is_made_into_each(
        &rt,
        alloc,
        unwrap(&rt, Bytes::copy_from_slice(alloc, slice)),
    );
    is_made_into_each(
        &rt,
        alloc,
        unwrap(&rt, BytesMut::copy_from_slice(alloc, slice)),
    );
    is_made_into_each(
        &rt,
        alloc,
        unwrap(&rt, RcSlice::<u8>::from_slice(alloc, slice)),
    );
}

#[test]
fn inline_octets_are_converted(rt: HostRuntime) {
    let (alloc, slice) = (rt.alloc(), b"abc".as_slice());
    is_made_into_each(
        &rt,
        alloc,
        unwrap(&rt, SmallVec::<u8, 2>::from_slice(alloc, slice)),
    );
    is_made_into_each(
        &rt,
        alloc,
        unwrap(&rt, ArrayVec::<u8, 4>::try_octets_from(alloc, slice)),
    );
    is_made_into_each(&rt, alloc, unwrap(&rt, Array::<4>::try_from(slice)));
}

/// Takes a range, as octets and as a parser.
fn is_cut<R: Octets + Copy>(rt: &impl Abort, octets: R) {
    if !range_exists(octets.as_ref().len(), span(1, 3)) {
        panic!(rt; "no range");
    }
    let range = given(rt, octets.range(span(1, 3)));
    assert_equal!(rt, range.as_ref(), b"bc".as_slice());
    let mut parser = Parser::from_ref(octets);
    given(rt, parser.advance(1));
    let range = given(rt, parser.parse_octets(2));
    assert_equal!(rt, range.as_ref(), b"bc".as_slice());
    assert_equal!(rt, parser.pos(), 3);
}

#[test]
fn ranges_that_are_slices_are_cut(rt: HostRuntime) {
    let (alloc, slice) = (rt.alloc(), b"abc".as_slice());
    is_cut(&rt, slice);
    is_cut(&rt, &unwrap(&rt, slice.to_vec(alloc)));
    is_cut(&rt, &CowOctets::borrowed(alloc, slice));
    is_cut(
        &rt,
        &unwrap(&rt, SmallVec::<u8, 2>::from_slice(alloc, slice)),
    );
}

#[test]
fn ranges_of_fixed_and_counted_octets_are_cut(rt: HostRuntime) {
    let (alloc, slice) = (rt.alloc(), b"abc".as_slice());
    is_cut(&rt, &unwrap(&rt, Array::<4>::try_from(slice)));
    is_cut(
        &rt,
        &unwrap(&rt, ArrayVec::<u8, 4>::try_octets_from(alloc, slice)),
    );
    is_cut(&rt, &unwrap(&rt, RcSlice::<u8>::from_slice(alloc, slice)));
}

/// Puts octets that aren't well-formed into a fixed builder.
fn unread<B: EmptyBuilder>(rt: &impl Abort, alloc: Global, octets: &[u8]) -> B {
    let mut builder = given(rt, B::empty(alloc));
    given(rt, builder.append_slice(octets));
    builder
}

/// Checks the text that a call read.
fn is_text<B: AsOctets>(rt: &impl Abort, read: Result<StrBuilder<B>, AppendError>, wanted: &str) {
    assert_equal!(rt, given(rt, read).as_str(), wanted);
}

/// Reads octets lossily by each of the calls.
fn is_read<B: EmptyBuilder>(rt: &impl Abort, alloc: Global) {
    let (octets, wanted) = (b"a\xFF\xFF".as_slice(), "a??");
    let builder = unread::<B>(rt, alloc, octets);
    let text = StrBuilder::try_from_utf8_lossy_with(alloc, builder, '?');
    is_text(rt, text, wanted);
    let (builder, turns) = (unread::<B>(rt, alloc, octets), &mut Turns::new());
    let text = StrBuilder::try_from_utf8_lossy_with_counted(alloc, builder, '?', turns);
    is_text(rt, text, wanted);
}

/// Reads octets lossily in pieces.
fn is_read_in_pieces<B: EmptyBuilder>(rt: &impl Abort, alloc: Global) {
    let mut pieces = given(rt, LossyPieces::<B>::new(alloc));
    given(rt, pieces.feed(b"a\xFF\xE2"));
    given(rt, pieces.feed(b"\x82\xAC\xF1"));
    assert_equal!(
        rt,
        given(rt, pieces.finish()).as_str(),
        "a\u{FFFD}€\u{FFFD}"
    );
}

/// Reads octets lossily into a fixed builder, pushes to the text, and removes from it.
fn is_changed<B: EmptyBuilder + Truncate>(rt: &impl Abort, alloc: Global) {
    let octets = unread::<B>(rt, alloc, b"a\xFF\xFF");
    let mut text = given(rt, StrBuilder::try_from_utf8_lossy(alloc, octets));
    given(rt, text.try_push('é'));
    given(rt, text.try_push_str("z"));
    assert_equal!(rt, text.as_str(), "a\u{FFFD}\u{FFFD}éz");
    assert_equal!(rt, text.pop(), Some('z'));
    assert_true!(rt, text.is_char_boundary(7));
    text.truncate(usize::MAX);
    assert_equal!(rt, text.len(), 9);
    text.clear();
    assert_true!(rt, text.is_empty());
}

#[test]
fn texts_in_fixed_builders_are_read_and_changed(rt: HostRuntime) {
    is_read::<Array<10>>(&rt, rt.alloc());
    is_read::<ArrayVec<u8, 10>>(&rt, rt.alloc());
    is_read_in_pieces::<Array<10>>(&rt, rt.alloc());
    is_read_in_pieces::<ArrayVec<u8, 10>>(&rt, rt.alloc());
    is_changed::<Array<10>>(&rt, rt.alloc());
    is_changed::<ArrayVec<u8, 10>>(&rt, rt.alloc());
}

/// Reads octets lossily into a fixed builder that may be too small for the text.
fn is_read_or_short<B: EmptyBuilder>(
    rt: &impl Abort,
    alloc: Global,
    octets: &[u8],
    wanted: Option<&str>,
) {
    let text = StrBuilder::try_from_utf8_lossy(alloc, unread::<B>(rt, alloc, octets));
    is_text_or_short(rt, text, wanted);
    let builder = unread::<B>(rt, alloc, octets);
    let text = StrBuilder::try_from_utf8_lossy_counted(alloc, builder, &mut Turns::new());
    is_text_or_short(rt, text, wanted);
}

#[test]
fn texts_at_the_limit_of_fixed_builders_are_read(rt: HostRuntime) {
    let alloc = rt.alloc();
    is_read_or_short::<Array<4>>(&rt, alloc, b"a\xFF\xFF", None);
    is_read_or_short::<Array<7>>(&rt, alloc, b"a\xFF\xFF", Some("a\u{FFFD}\u{FFFD}"));
    is_read_or_short::<Array<0>>(&rt, alloc, b"", Some(""));
    is_read_or_short::<Array<1>>(&rt, alloc, b"\xFF", None);
    is_read_or_short::<Array<3>>(&rt, alloc, b"\xFF", Some("\u{FFFD}"));
    is_read_or_short::<ArrayVec<u8, 2>>(&rt, alloc, b"\xC3\xA9", Some("é"));
    is_read_or_short::<ArrayVec<u8, 5>>(&rt, alloc, b"\xFF\xFF", None);
    is_read_or_short::<ArrayVec<u8, 6>>(&rt, alloc, b"\xFF\xFF", Some("\u{FFFD}\u{FFFD}"));
}

/// Copies a text.
fn is_copied<O: CloneOctets>(rt: &impl Abort, alloc: Global, good: O) {
    let text = unwrap(rt, Str::from_utf8(good).ok().ok_or("refused"));
    assert_true!(rt, given(rt, text.clone(alloc)) == text);
}

/// Copies an error about octets that aren't well-formed, and those octets.
fn is_refusal_copied<O: CloneOctets>(rt: &impl Abort, alloc: Global, bad: O) {
    let error = unwrap(rt, Str::from_utf8(bad).err().ok_or("accepted"));
    assert_true!(rt, given(rt, error.clone(alloc)) == error);
    let octets = given(rt, error.into_octets().clone_octets(alloc));
    assert_equal!(rt, octets.as_ref(), b"a\xC0".as_slice());
}

/// Does the same over octets made from a slice.
fn are_copied<O: CloneOctets + OctetsFrom<&'static [u8]>>(rt: &impl Abort, alloc: Global) {
    is_copied(
        rt,
        alloc,
        unwrap(rt, O::try_octets_from(alloc, "ab€".as_bytes())),
    );
    is_refusal_copied(rt, alloc, unwrap(rt, O::try_octets_from(alloc, b"a\xC0")));
}

#[test]
fn fixed_inline_and_borrowed_texts_are_copied(rt: HostRuntime) {
    let (alloc, good, bad) = (rt.alloc(), "ab€".as_bytes(), b"a\xC0".as_slice());
    is_copied(&rt, alloc, good);
    is_refusal_copied(&rt, alloc, bad);
    is_copied(&rt, alloc, CowOctets::borrowed(alloc, good));
    is_refusal_copied(&rt, alloc, CowOctets::borrowed(alloc, bad));
    are_copied::<Array<5>>(&rt, alloc);
    are_copied::<ArrayVec<u8, 6>>(&rt, alloc);
    are_copied::<SmallVec<u8, 5>>(&rt, alloc);
}

#[test]
fn slices_are_read_where_they_lie(rt: HostRuntime) {
    let alloc = rt.alloc();
    let octets = "ab€".as_bytes();
    let text = given(&rt, Str::from_utf8(octets));
    assert_true!(&rt, text == given(&rt, Str::from_utf8_slice(octets)));
    assert_true!(&rt, text == Str::from_str("ab€"));
    assert_equal!(
        &rt,
        last_char(text.as_slice(), &mut Turns::new()),
        Some('€'),
    );
    assert_true!(&rt, !boundary(text.as_slice(), 3, &mut Turns::new()));
    assert_true!(&rt, first_fault(b"a\xC0", &mut Turns::new()).is_some());
    assert_equal!(&rt, CowOctets::borrowed(alloc, octets).as_ref(), octets);
}

#[test]
fn parsers_of_slices_take_what_they_read(rt: HostRuntime) {
    let mut parser = Parser::from_static(b"0123456789");
    assert_equal!(&rt, given(&rt, parser.parse_octets(2)), b"01".as_slice());
    assert_equal!(
        &rt,
        given(&rt, parser.parse_parser(2)).peek_all(),
        b"23".as_slice(),
    );
    let mut octets = [0; 2];
    given(&rt, parser.parse_buf(&mut octets));
    assert_equal!(&rt, &octets, b"45");
    assert_equal!(&rt, given(&rt, parser.parse_u8()), b'6');
    assert_equal!(
        &rt,
        given(&rt, parser.clone()).peek_all(),
        b"789".as_slice()
    );
}

/// Returns the octets of the text that a call read.
fn octets_of<B: OctetsBuilder>(rt: &impl Abort, read: Result<StrBuilder<B>, AppendError>) -> B {
    given(rt, read).into_octets_builder()
}

/// Reads well-formed octets, which stay where they are, by each of the calls.
fn is_read_as_it_is<B: EmptyBuilder>(rt: &impl Abort, alloc: Global, octets: B)
    requires { B.limit ≡ None }
{
    let turns = &mut Turns::new();
    let octets = octets_of(rt, StrBuilder::try_from_utf8_lossy(alloc, octets));
    let text = given(rt, StrBuilder::from_utf8_lossy(alloc, octets));
    let octets = text.into_octets_builder();
    let octets = octets_of(
        rt,
        StrBuilder::try_from_utf8_lossy_counted(alloc, octets, turns),
    );
    let octets = octets_of(rt, StrBuilder::try_from_utf8_lossy_with(alloc, octets, '?'));
    let text = StrBuilder::try_from_utf8_lossy_with_counted(alloc, octets, '?', turns);
    is_text(rt, text, "ab€");
}

#[test]
fn well_formed_octets_are_read_as_they_are(rt: HostRuntime) {
    let (alloc, octets) = (rt.alloc(), "ab€".as_bytes());
    is_read_as_it_is(&rt, alloc, unwrap(&rt, octets.to_vec(alloc)));
    is_read_as_it_is(
        &rt,
        alloc,
        unwrap(&rt, BytesMut::copy_from_slice(alloc, octets)),
    );
    is_read_as_it_is(
        &rt,
        alloc,
        unwrap(&rt, SmallVec::<u8, 2>::from_slice(alloc, octets)),
    );
}

#[test]
fn strings_are_taken_over(rt: HostRuntime) {
    let text = Str::from_string(unwrap(&rt, String::from_str(rt.alloc(), "ab€")));
    let octets = text.into_octets();
    assert_equal!(&rt, octets.as_slice(), "ab€".as_bytes());
    assert_true!(&rt, !CowOctets::owned(octets).is_borrowed());
}

/// Checks that an empty builder accepts no octets.
fn is_empty<B: EmptyBuilder>(rt: &impl Abort, alloc: Global) {
    assert_true!(rt, given(rt, B::empty(alloc)).as_ref().is_empty());
}

#[test]
fn empty_builders_and_inline_octets_take_none(rt: HostRuntime) {
    let (alloc, slice) = (rt.alloc(), b"abcd".as_slice());
    is_empty::<Vec<u8>>(&rt, alloc);
    is_empty::<BytesMut>(&rt, alloc);
    is_empty::<SmallVec<u8, 4>>(&rt, alloc);
    given(
        &rt,
        <SmallVec<u8, 4> as EmptyBuilder>::with_capacity(alloc, 4),
    );
    let octets = given(&rt, SmallVec::<u8, 4>::octets_from(alloc, slice));
    assert_equal!(&rt, octets.as_slice(), slice);
    let octets: SmallVec<u8, 4> = given(&rt, slice.octets_into(alloc));
    assert_equal!(&rt, octets.as_slice(), slice);
}

#[test]
fn texts_that_stay_inline_take_none(rt: HostRuntime) {
    let mut text = given(&rt, StrBuilder::<SmallVec<u8, 5>>::new(rt.alloc()));
    given(&rt, text.push_str("ab"));
    given(&rt, text.push('€'));
    assert_equal!(&rt, text.as_str(), "ab€");
    let text = given(
        &rt,
        Str::<SmallVec<u8, 5>>::copy_from_str(rt.alloc(), "ab€"),
    );
    assert_equal!(&rt, text.as_str(), "ab€");
    let empty = given(&rt, StrBuilder::<BytesMut>::new(rt.alloc()));
    assert_true!(&rt, given(&rt, empty.freeze()).is_empty());
}

#[test]
fn shared_octets_are_read_where_they_lie(rt: HostRuntime) {
    let alloc = rt.alloc();
    let mut octets = unwrap(&rt, Bytes::copy_from_slice(alloc, b"0123456789"));
    Truncate::truncate(&mut octets, usize::MAX);
    let mut parser = Parser::from_ref(&octets);
    assert_equal!(
        &rt,
        given(&rt, parser.parse_parser(4)).peek_all(),
        b"0123".as_slice(),
    );
    assert_equal!(&rt, given(&rt, parser.parse_u16_be()), 0x3435);
}
