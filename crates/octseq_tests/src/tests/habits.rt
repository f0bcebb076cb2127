//! Calls written as in Rust: ranges, dereferences, `write!`, content that is overwritten, errors that are shown.
use crate::tests::unwrap;
use arrayvec::ArrayVec;
use bytes::{Bytes, BytesMut};
use octseq::array::Array;
use octseq::builder::{AppendError, AsOctets, AsOctetsMut, OctetsBuilder, ShortBuf};
use octseq::compose::{ComposeError, append_u24_be, append_u24_le, append_u48_be, append_u48_le};
use octseq::octets::{Octets, try_range};
use octseq::parse::{Parser, ShortInput};
use octseq::str::{Counter, DisplayError, Str, StrBuilder};
use octseq::{ReadError, WriteError};
use octseq_asserts::{assert_equal, assert_true};
use smallvec::SmallVec;
use std::alloc::{AllocFailed, Global};
use std::convert::{AsSlice, AsStr};
use std::error::Error;
use std::fmt::{self, Debug, Display, Write};
use std::ops::RangeBounds;
use std::process::Abort;

/// Returns the octets of a range, or `None` if it doesn't exist.
fn cut<O: Octets, R: RangeBounds<usize>>(octets: O, range: R) -> Option<O::Range>
    requires { R.has_bounds range }
{
    let found = try_range(octets.len(), range)?;
    octets.range(found).ok()
}

/// Checks that a range of "abcd" is this slice, or doesn't exist.
fn is_cut<R: RangeBounds<usize>>(rt: &impl Abort, range: R, wanted: Option<&[u8]>)
    requires { R.has_bounds range }
{
    assert_equal!(rt, cut(b"abcd".as_slice(), range), wanted);
}

#[test]
fn ranges_are_written_as_rusts(rt: HostRuntime) {
    is_cut(&rt, 1..3, Some(b"bc"));
    is_cut(&rt, 1..=3, Some(b"bcd"));
    is_cut(&rt, 2.., Some(b"cd"));
    is_cut(&rt, ..1, Some(b"a"));
    is_cut(&rt, ..=1, Some(b"ab"));
    is_cut(&rt, .., Some(b"abcd"));
    is_cut(&rt, 4.., Some(b""));
    is_cut(&rt, 3..5, None);
    is_cut(&rt, 5.., None);
    is_cut(&rt, ..=4, None);
    assert_equal!(&rt, try_range(4, 1..=2), Some(1..3));
    shared_octets_are_cut(&rt, rt.alloc());
}

/// Checks that shared octets are cut as a slice is.
fn shared_octets_are_cut(rt: &impl Abort, alloc: Global) {
    let shared = unwrap(rt, Bytes::copy_from_slice(alloc, b"abcd"));
    let inner = unwrap(rt, cut(&shared, 1..).ok_or("no range"));
    assert_equal!(rt, inner.as_slice(), b"bcd".as_slice());
}

/// Returns a parser of a range of "abcd".
fn parser_of<R: RangeBounds<usize>>(rt: &impl Abort, range: R) -> Parser<&'static [u8]>
    requires { R.has_bounds range }
{
    let made = Parser::try_with_range(b"abcd".as_slice(), range);
    unwrap(rt, made.ok_or("no range"))
}

#[test]
fn parsers_begin_with_ranges_as_rusts(rt: HostRuntime) {
    let parser = parser_of(&rt, 1..3);
    assert_equal!(&rt, (parser.pos(), parser.len()), (1, 3));
    let parser = parser_of(&rt, 2..);
    assert_equal!(&rt, parser.peek_all(), b"cd".as_slice());
    let none = Parser::try_with_range(b"abcd".as_slice(), ..=4);
    assert_true!(&rt, none.is_none());
    assert_equal!(&rt, parser.peek_u8(), Ok(b'c'));
    assert_equal!(&rt, parser.pos(), 2);
    let end = parser_of(&rt, 4..);
    assert_equal!(&rt, end.peek_u8(), Err(ShortInput));
}

#[test]
fn arrays_are_slices(rt: HostRuntime) {
    let mut array = unwrap(&rt, Array::<4>::try_from(b"abc".as_slice()));
    assert_equal!(&rt, array.len(), 3);
    assert_equal!(&rt, array.first(), Some(&b'a'));
    assert_true!(&rt, array.ends_with(b"bc"));
    array.reverse();
    assert_equal!(&rt, array.as_slice(), b"cba".as_slice());
}

/// A call that takes any text.
fn len_of<S: AsStr>(text: &S) -> usize {
    text.as_str().len()
}

/// A call that takes any octets.
fn first_of<S: AsSlice<u8>>(octets: &S) -> Option<u8> {
    octets.as_slice().first().copied()
}

#[test]
fn calls_take_texts_and_arrays(rt: HostRuntime) {
    let text = unwrap(&rt, StrBuilder::from_utf8("a€b".as_bytes()));
    assert_equal!(&rt, (len_of(&text), first_of(&text)), (5, Some(b'a')));
    assert_equal!(&rt, Some(text).as_deref(), Some("a€b"));
    let text = unwrap(&rt, Str::from_utf8("é".as_bytes()));
    assert_equal!(&rt, (len_of(&text), first_of(&text)), (2, Some(0xC3)));
    assert_equal!(&rt, Some(text).as_deref(), Some("é"));
    let array = unwrap(&rt, Array::<4>::try_from(b"xy".as_slice()));
    assert_equal!(&rt, first_of(&array), Some(b'x'));
}

#[test]
fn texts_are_strs(rt: HostRuntime) {
    let text = unwrap(&rt, StrBuilder::from_utf8("a€b".as_bytes()));
    assert_true!(&rt, text.starts_with("a€"));
    assert_equal!(&rt, text.find('b'), Some(4));
    let text = unwrap(&rt, Str::from_utf8(b"x, y".as_slice()));
    assert_true!(&rt, text.contains(", "));
}

/// Checks that the octets of a builder are overwritten in place.
fn is_written_over<B: AsOctetsMut, E: Debug + Drop>(rt: &impl Abort, made: Result<B, E>) {
    let mut octets = unwrap(rt, made);
    assert_equal!(rt, octets.len(), 3);
    assert_true!(rt, !octets.is_empty());
    if let Some(first) = octets.as_mut().first_mut() {
        *first = b'x';
    }
    assert_equal!(rt, octets.as_ref(), b"xbc".as_slice());
}

/// Makes a builder of a fixed size from octets.
fn fixed(octets: &[u8]) -> Result<ArrayVec<u8, 4>, AppendError> {
    let mut fixed = ArrayVec::<u8, 4>::new();
    fixed.append_slice(octets)?;
    Ok(fixed)
}

#[test]
fn octets_are_written_over_in_place(rt: HostRuntime) {
    let (alloc, slice) = (rt.alloc(), b"abc".as_slice());
    is_written_over(&rt, slice.to_vec(alloc));
    is_written_over::<_, AppendError>(&rt, Ok(&mut unwrap(&rt, slice.to_vec(alloc))));
    is_written_over(&rt, BytesMut::copy_from_slice(alloc, slice));
    is_written_over(&rt, SmallVec::<u8, 2>::from_slice(alloc, slice));
    is_written_over(&rt, Array::<4>::try_from(slice));
    is_written_over(&rt, fixed(slice));
}

/// A value that shows nothing, and returns an error.
#[derive(Drop)]
struct Unshowable;

impl Display for Unshowable {
    fn fmt<W: fmt::Write>(&self, _f: &mut fmt::Formatter<W>) -> fmt::Result {
        Err(fmt::Error)
    }
}

/// A value that shows more than a text of 8 octets holds, and then returns an error.
#[derive(Drop)]
struct Unfinished;

impl Display for Unfinished {
    fn fmt<W: fmt::Write>(&self, f: &mut fmt::Formatter<W>) -> fmt::Result {
        f.write_str("abcdefghi")?;
        Err(fmt::Error)
    }
}

#[test]
fn values_are_written_to_texts(rt: HostRuntime) {
    let mut text = unwrap(&rt, StrBuilder::<Array<8>>::new(rt.alloc()));
    assert_true!(&rt, write!(text, "{}/{}", 12_u8, "é").is_ok());
    assert_equal!(&rt, text.as_str(), "12/é");
    assert_true!(&rt, write!(text, "{}", 1234_u16).is_err());
    assert_equal!(&rt, text.as_str(), "12/é");
}

#[test]
fn values_are_pushed_whole_or_not_at_all(rt: HostRuntime) {
    let mut text = unwrap(&rt, StrBuilder::<Array<8>>::new(rt.alloc()));
    assert_equal!(&rt, text.try_push_display(4321_u16), Ok(()));
    assert_equal!(&rt, text.as_str(), "4321");
    let fault = unwrap(
        &rt,
        StrBuilder::from_utf8(b"\xFF".as_slice())
            .err()
            .ok_or("a text"),
    );
    assert_equal!(&rt, text.try_push_display(fault), Err(DisplayError::Short));
    assert_equal!(&rt, text.as_str(), "4321");
    let shown = text.try_push_display(Unshowable);
    assert_equal!(&rt, shown, Err(DisplayError::Display));
    let shown = text.try_push_display(Unfinished);
    assert_equal!(&rt, shown, Err(DisplayError::Display));
    assert_equal!(&rt, text.as_str(), "4321");
}

#[test]
fn octets_are_counted(rt: HostRuntime) {
    let mut counter = Counter { count: 0 };
    assert_true!(&rt, write!(counter, "{}/{}", 12_u8, "é").is_ok());
    assert_equal!(&rt, counter.count, 5);
    counter.count = usize::MAX;
    assert_true!(&rt, counter.write_str("").is_ok());
    assert_true!(&rt, counter.write_str("a").is_err());
    assert_equal!(&rt, counter, Counter { count: usize::MAX });
}

/// Checks what an error prints, through the trait of errors.
fn shows<E: Error>(rt: &impl Abort, alloc: Global, error: E, text: &str) {
    assert_equal!(rt, unwrap(rt, format!(in alloc; "{error}")).as_str(), text);
}

#[test]
fn errors_are_shown(rt: HostRuntime) {
    let (alloc, short, memory) = (rt.alloc(), "buffer size exceeded", "out of memory");
    shows(&rt, alloc, ComposeError::TooLong, "long data");
    shows(&rt, alloc, ComposeError::Short, short);
    shows(&rt, alloc, ComposeError::Memory, memory);
    shows(&rt, alloc, ReadError::Malformed, "malformed data");
    shows(&rt, alloc, ReadError::Memory, memory);
    shows(&rt, alloc, WriteError::Malformed, "malformed data");
    shows(&rt, alloc, WriteError::Short, short);
    shows(&rt, alloc, WriteError::Memory, memory);
    shows(&rt, alloc, DisplayError::Short, short);
    shows(&rt, alloc, DisplayError::Memory, memory);
    shows(&rt, alloc, DisplayError::Display, "a value can't be shown");
}

#[test]
fn errors_are_copied_and_passed_on(rt: HostRuntime) {
    let error = AppendError::Short(ShortBuf);
    assert_equal!(&rt, (error, error), (error, AppendError::Short(ShortBuf)));
    assert_equal!(&rt, ComposeError::from(error), ComposeError::Short);
    assert_equal!(&rt, WriteError::from(error), WriteError::Short);
    assert_equal!(
        &rt,
        WriteError::from(ComposeError::TooLong),
        WriteError::Malformed
    );
    assert_equal!(&rt, ReadError::from(ShortInput), ReadError::Malformed);
    let refused = AllocFailed { value: 1_u8 };
    assert_equal!(&rt, ReadError::from(refused), ReadError::Memory);
    let refused = AllocFailed { value: 1_u8 };
    assert_equal!(&rt, WriteError::from(refused), WriteError::Memory);
    assert_equal!(
        &rt,
        DisplayError::from(AppendError::Memory),
        DisplayError::Memory
    );
}

#[test]
fn integers_of_3_and_6_octets_are_read(rt: HostRuntime) {
    let octets = b"\x12\x34\x56\x78\x9A\xBC".as_slice();
    assert_equal!(&rt, Parser::from_ref(octets).parse_u24_be(), Ok(1_193_046));
    assert_equal!(&rt, Parser::from_ref(octets).parse_u24_le(), Ok(5_649_426));
    assert_equal!(
        &rt,
        Parser::from_ref(octets).parse_u48_be(),
        Ok(20_015_998_343_868)
    );
    assert_equal!(
        &rt,
        Parser::from_ref(octets).parse_u48_le(),
        Ok(207_371_629_900_818)
    );
    let mut short = Parser::from_ref(b"\x12\x34".as_slice());
    assert_equal!(&rt, short.parse_u24_be(), Err(ShortInput));
    assert_equal!(&rt, short.parse_u48_le(), Err(ShortInput));
    assert_equal!(&rt, short.pos(), 0);
}

#[test]
fn integers_of_3_and_6_octets_are_appended(rt: HostRuntime) {
    let mut octets = Array::<18>::new();
    unwrap(&rt, append_u24_be(&mut octets, 0x12_3456));
    unwrap(&rt, append_u24_le(&mut octets, 0x12_3456));
    unwrap(&rt, append_u48_be(&mut octets, 0x1234_5678_9ABC));
    unwrap(&rt, append_u48_le(&mut octets, 0x1234_5678_9ABC));
    let wanted = b"\x12\x34\x56\x56\x34\x12\x12\x34\x56\x78\x9A\xBC\xBC\x9A\x78\x56\x34\x12";
    assert_equal!(&rt, octets.as_slice(), wanted.as_slice());
    assert_equal!(&rt, append_u24_be(&mut octets, 0), Err(ComposeError::Short));
    assert_equal!(
        &rt,
        append_u24_le(&mut octets, 1 << 24),
        Err(ComposeError::TooLong)
    );
    assert_equal!(
        &rt,
        append_u48_be(&mut octets, 1 << 48),
        Err(ComposeError::TooLong)
    );
    assert_equal!(
        &rt,
        append_u48_le(&mut octets, (1 << 48) - 1),
        Err(ComposeError::Short)
    );
    assert_equal!(&rt, octets.as_slice(), wanted.as_slice());
}
