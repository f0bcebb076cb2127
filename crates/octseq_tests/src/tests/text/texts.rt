//! Whole texts: constructors, views, truncation, comparisons, and lists of commands over each representation.
use crate::tests::unwrap;
use arrayvec::ArrayVec;
use bytes::BytesMut;
use octseq::Turns;
use octseq::array::Array;
use octseq::builder::{
    AppendError, AsOctets, CloneOctets, EmptyBuilder, OctetsBuilder, OctetsLimit, ShortBuf,
    Truncate,
};
use octseq::cow::CowOctets;
use octseq::octets::OctetsFrom;
use octseq::str::{Command, Reply, Str, StrBuilder, boundary, last_char, run};
use octseq_asserts::{assert_equal, assert_true};
use smallvec::SmallVec;
use std::alloc::Global;
use std::cmp::Ordering;
use std::fmt::{Debug, Display};
use std::hash::{BuildHasher, BuildHasherDefault, DefaultHasher, Hash};
use std::process::Abort;

/// Checks that a text of three octets shows them by each call.
fn is_abc(rt: &impl Abort, text: &Str<Vec<u8>>) {
    assert_equal!(rt, text.as_str(), "abc");
    assert_equal!(rt, text.as_slice(), b"abc".as_slice());
    assert_equal!(rt, text.as_octets().as_slice(), b"abc".as_slice());
    assert_equal!(rt, text.len(), 3);
    assert_true!(rt, !text.is_empty());
}

#[test]
fn texts_are_made(rt: HostRuntime) {
    let alloc = rt.alloc();
    let octets = unwrap(&rt, b"abc".as_slice().to_vec(alloc));
    let text = unwrap(&rt, Str::from_utf8(octets).ok().ok_or("refused"));
    is_abc(&rt, &text);
    assert_true!(&rt, unwrap(&rt, text.clone(alloc)) == text);
    assert_equal!(&rt, text.into_octets().as_slice(), b"abc".as_slice());
    let string = unwrap(&rt, String::from_str(alloc, "été"));
    assert_equal!(&rt, Str::from_string(string).as_str(), "été");
}

#[test]
fn texts_are_borrowed(rt: HostRuntime) {
    let error = unwrap(
        &rt,
        Str::from_utf8(b"a\xC0".as_slice()).err().ok_or("accepted"),
    );
    assert_equal!(&rt, error.into_octets(), b"a\xC0".as_slice());
    let borrowed = Str::from_utf8_slice("é".as_bytes())
        .ok()
        .expect(&rt, "refused");
    assert_equal!(&rt, borrowed.as_str(), "é");
    let fault = unwrap(
        &rt,
        Str::from_utf8_slice(b"a\xF1\x80").err().ok_or("accepted"),
    );
    assert_equal!(&rt, (fault.valid_up_to(), fault.error_len()), (1, None));
    assert_equal!(&rt, Str::from_utf8_unchecked("é".as_bytes()).len(), 2);
}

#[test]
fn texts_begin_empty(rt: HostRuntime) {
    assert_true!(&rt, Str::<Array<2>>::default().is_empty());
    assert_true!(&rt, Str::<&[u8]>::default().is_empty());
    assert_true!(&rt, StrBuilder::<Array<2>>::default().is_empty());
}

/// Checks that a copy is the expected text, or if there is none, that it was refused for lack of room.
fn is_copy_or_short<O: AsOctets>(
    rt: &impl Abort,
    copy: Result<Str<O>, AppendError>,
    wanted: Option<&str>,
) {
    match copy {
        Ok(text) => assert_equal!(rt, Some(text.as_str()), wanted),
        Err(error) => {
            assert_true!(rt, wanted.is_none());
            assert_equal!(rt, error, AppendError::Short(ShortBuf));
        }
    }
}

#[test]
fn texts_are_copied_where_the_limit_allows(rt: HostRuntime) {
    let alloc = rt.alloc();
    let copied = Str::<ArrayVec<u8, 2>>::try_copy_from_str(alloc, "abc");
    is_copy_or_short(&rt, copied, None);
    let copied = Str::<ArrayVec<u8, 3>>::try_copy_from_str(alloc, "abc");
    is_copy_or_short(&rt, copied, Some("abc"));
    let copied = unwrap(&rt, Str::<Vec<u8>>::copy_from_str(alloc, "ab€"));
    assert_equal!(&rt, copied.as_str(), "ab€");
    let source = unwrap(&rt, Str::<Vec<u8>>::copy_from_str(alloc, "€b"));
    is_copy_or_short(&rt, Str::<Array<3>>::try_octets_from(alloc, source), None);
    let source = unwrap(&rt, Str::<Vec<u8>>::copy_from_str(alloc, "€b"));
    let copied = Str::<Array<4>>::try_octets_from(alloc, source);
    is_copy_or_short(&rt, copied, Some("€b"));
}

#[test]
fn a_text_has_the_facts_of_its_octets(rt: HostRuntime) {
    assert_equal!(
        &rt,
        (Str::<Array<4>>::limit(), Str::<Array<4>>::asks_memory()),
        (Some(4), false),
    );
    assert_equal!(&rt, <&Str<Array<4>>>::limit(), Some(4));
    assert_equal!(&rt, <&StrBuilder<Array<4>>>::limit(), Some(4));
    assert_equal!(&rt, StrBuilder::<Vec<u8>>::limit(), None);
    assert_true!(&rt, StrBuilder::<Vec<u8>>::asks_memory());
    assert_equal!(&rt, StrBuilder::<Array<4>>::default().max_len(), Some(4));
    let text = Str::from_str("ab");
    assert_equal!(&rt, AsOctets::as_ref(&&text), b"ab".as_slice());
    let mut builder = unwrap(&rt, StrBuilder::<BytesMut>::new(rt.alloc()));
    unwrap(&rt, builder.push_str("ab"));
    assert_equal!(&rt, AsOctets::as_ref(&&builder), b"ab".as_slice());
    assert_equal!(&rt, unwrap(&rt, builder.freeze()).as_str(), "ab");
}

/// Returns the hash of a text.
fn hash<T: Hash>(text: &T) -> u64 {
    BuildHasherDefault::<DefaultHasher>::new().hash_one(text)
}

/// Checks how texts are ordered, and that their hashes are equal if they are.
fn are_ordered<T: Ord + Hash + Drop>(rt: &impl Abort, left: T, right: T, order: Ordering) {
    assert_equal!(rt, left.cmp(&right), order);
    assert_equal!(rt, left.partial_cmp(&right), Some(order));
    assert_equal!(rt, left == right, order == Ordering::Equal);
    assert_equal!(rt, hash(&left) == hash(&right), order == Ordering::Equal);
}

/// Checks how well-formed octets are ordered as a text and as a text builder.
fn are_texts_ordered<O: CloneOctets>(
    rt: &impl Abort,
    alloc: Global,
    left: O,
    right: O,
    order: Ordering,
) {
    let first = unwrap(
        rt,
        Str::from_utf8(unwrap(rt, left.clone_octets(alloc)))
            .ok()
            .ok_or("refused"),
    );
    let second = unwrap(
        rt,
        Str::from_utf8(unwrap(rt, right.clone_octets(alloc)))
            .ok()
            .ok_or("refused"),
    );
    are_ordered(rt, first, second, order);
    let first = unwrap(rt, StrBuilder::from_utf8(left).ok().ok_or("refused"));
    let second = unwrap(rt, StrBuilder::from_utf8(right).ok().ok_or("refused"));
    are_ordered(rt, first, second, order);
}

#[test]
fn texts_are_ordered_by_their_characters(rt: HostRuntime) {
    let ordered = ["", "a", "ab", "z", "é", "\u{FFFF}", "\u{10000}"];
    for (i, text) in ordered.iter().enumerate() {
        for (j, other) in ordered.iter().enumerate() {
            let (left, right, order) = (text.as_bytes(), other.as_bytes(), i.cmp(&j));
            are_ordered(&rt, Str::from_str(text), Str::from_str(other), order);
            are_texts_ordered(&rt, rt.alloc(), left, right, order);
            let (left, right) = (
                unwrap(&rt, left.to_vec(rt.alloc())),
                unwrap(&rt, right.to_vec(rt.alloc())),
            );
            are_texts_ordered(&rt, rt.alloc(), left, right, order);
        }
    }
}

#[test]
fn texts_are_the_same_in_each_representation(rt: HostRuntime) {
    let fixed = unwrap(&rt, Str::<Array<4>>::try_copy_from_str(rt.alloc(), "abc"));
    let grown = unwrap(&rt, Str::<Vec<u8>>::copy_from_str(rt.alloc(), "abc"));
    assert_equal!(&rt, fixed.as_str(), grown.as_str());
    assert_equal!(&rt, hash(&fixed), hash(&grown));
    assert_equal!(&rt, fixed.cmp(&fixed), Ordering::Equal);
}

/// Checks that a text of two characters is shown, right-aligned if requested, and with quotes.
fn is_shown<T: Display + Debug>(rt: &impl Abort, alloc: Global, text: &T) {
    assert_equal!(rt, unwrap(rt, format!(in alloc; "{text}")).as_str(), "ab");
    assert_equal!(
        rt,
        unwrap(rt, format!(in alloc; "{text:>4}")).as_str(),
        "  ab"
    );
    assert_equal!(
        rt,
        unwrap(rt, format!(in alloc; "{text:?}")).as_str(),
        "\"ab\""
    );
}

#[test]
fn texts_are_shown(rt: HostRuntime) {
    is_shown(&rt, rt.alloc(), &Str::from_str("ab"));
    let builder = StrBuilder::from_utf8(b"ab".as_slice());
    is_shown(&rt, rt.alloc(), &unwrap(&rt, builder.ok().ok_or("refused")));
}

#[test]
fn the_last_character_is_found(rt: HostRuntime) {
    let cases = [
        ("", None),
        ("a", Some('a')),
        ("aé", Some('é')),
        ("a\u{7FF}", Some('\u{7FF}')),
        ("é€", Some('€')),
        ("𤭢", Some('𤭢')),
        ("a\u{10FFFF}", Some('\u{10FFFF}')),
        ("€a", Some('a')),
    ];
    for (text, last) in cases {
        let text = Str::from_str(text);
        assert_equal!(&rt, last_char(text.as_slice(), &mut Turns::new()), last);
    }
    let many = unwrap(&rt, [0xC3, 0xA9].repeat(rt.alloc(), 1000));
    let many = unwrap(&rt, Str::from_utf8(many).ok().ok_or("refused"));
    assert_equal!(
        &rt,
        last_char(many.as_slice(), &mut Turns::new()),
        Some('é'),
    );
}

/// Whether an index is a character boundary of a text.
fn is_boundary(text: &str, place: usize) -> bool {
    boundary(Str::from_str(text).as_slice(), place, &mut Turns::new())
}

#[test]
fn places_between_characters_are_boundaries(rt: HostRuntime) {
    let wanted = [true, false, false, false, true, false];
    for (place, wanted) in wanted.iter().enumerate() {
        assert_equal!(&rt, is_boundary("𤭢", place), *wanted);
    }
    assert_true!(&rt, !is_boundary("𤭢", usize::MAX));
    assert_true!(&rt, is_boundary("", 0));
    let builder = unwrap(
        &rt,
        StrBuilder::from_utf8("aé".as_bytes()).ok().ok_or("refused"),
    );
    let wanted = [true, true, false, true, false];
    for (place, is_boundary) in wanted.iter().enumerate() {
        assert_equal!(&rt, builder.is_char_boundary(place), *is_boundary);
    }
}

#[test]
fn characters_are_popped(rt: HostRuntime) {
    let octets = unwrap(&rt, "ประเทศไทย中华b¢€𤭢".as_bytes().to_vec(rt.alloc()));
    let mut text = unwrap(&rt, StrBuilder::from_utf8(octets).ok().ok_or("refused"));
    assert_equal!(&rt, text.len(), 43);
    for ch in ['𤭢', '€', '¢', 'b', '华'] {
        assert_equal!(&rt, text.pop(), Some(ch));
    }
    assert_equal!(&rt, text.len(), 30);
    assert_equal!(&rt, text.as_str(), "ประเทศไทย中");
    text.truncate(usize::MAX);
    assert_equal!(&rt, text.len(), 30);
    text.clear();
    assert_true!(&rt, text.is_empty());
    assert_equal!(&rt, text.pop(), None);
}

/// Checks how a text in this builder replies to these commands.
fn answers<B: OctetsBuilder + Truncate>(
    rt: &impl Abort,
    alloc: Global,
    builder: B,
    commands: &[Command],
    wanted: &[Reply],
) {
    let mut text = unwrap(rt, StrBuilder::from_utf8(builder).ok().ok_or("refused"));
    assert_equal!(
        rt,
        unwrap(rt, run(alloc, &mut text, commands)).as_slice(),
        wanted
    );
}

#[test]
fn cuts_within_a_character_are_refused(rt: HostRuntime) {
    let alloc = rt.alloc();
    let commands = [
        Command::Push('é'),
        Command::Truncate(1),
        Command::Len,
        Command::Truncate(usize::MAX),
        Command::Is("é"),
        Command::Clear,
        Command::Pop,
    ];
    let wanted = [
        Reply::Done,
        Reply::NoBoundary,
        Reply::Len(2),
        Reply::Done,
        Reply::Is(true),
        Reply::Done,
        Reply::Popped(None),
    ];
    answers(&rt, alloc, Vec::new(alloc), &commands, &wanted);
    let commands = [
        Command::Push('b'),
        Command::Truncate(1),
        Command::Truncate(3),
        Command::Pop,
        Command::Pop,
        Command::Len,
    ];
    let wanted = [
        Reply::Done,
        Reply::NoBoundary,
        Reply::Done,
        Reply::Popped(Some('€')),
        Reply::Popped(None),
        Reply::Len(0),
    ];
    let borrowed = CowOctets::borrowed(alloc, "€".as_bytes());
    answers(&rt, alloc, borrowed, &commands, &wanted);
}

/// Returns the replies to a list of commands on an empty text.
fn replies<B: OctetsBuilder + Truncate>(rt: &impl Abort, alloc: Global, builder: B) -> Vec<Reply> {
    let commands = [
        Command::Push('€'),
        Command::Push('¢'),
        Command::Push('b'),
        Command::Pop,
        Command::Push('b'),
        Command::PushStr(""),
        Command::Len,
        Command::Is("€b"),
    ];
    let mut text = unwrap(rt, StrBuilder::from_utf8(builder).ok().ok_or("refused"));
    unwrap(rt, run(alloc, &mut text, &commands))
}

/// Checks that a builder with the limit 4 applies it to the commands.
fn answers_at_four<B: OctetsBuilder + Truncate>(rt: &impl Abort, alloc: Global, builder: B) {
    let wanted = [
        Reply::Done,
        Reply::Short,
        Reply::Done,
        Reply::Popped(Some('b')),
        Reply::Done,
        Reply::Done,
        Reply::Len(4),
        Reply::Is(true),
    ];
    assert_equal!(
        rt,
        replies(rt, alloc, builder).as_slice(),
        wanted.as_slice()
    );
}

/// Checks that a builder without a limit does what each command says.
fn answers_without_a_limit<B: OctetsBuilder + Truncate>(
    rt: &impl Abort,
    alloc: Global,
    builder: B,
) {
    let wanted = [
        Reply::Done,
        Reply::Done,
        Reply::Done,
        Reply::Popped(Some('b')),
        Reply::Done,
        Reply::Done,
        Reply::Len(6),
        Reply::Is(false),
    ];
    assert_equal!(
        rt,
        replies(rt, alloc, builder).as_slice(),
        wanted.as_slice()
    );
}

/// Does the same with a new builder without a limit.
fn one_answers_without_a_limit<B: EmptyBuilder + Truncate>(rt: &impl Abort, alloc: Global) {
    answers_without_a_limit(rt, alloc, unwrap(rt, B::empty(alloc)));
}

#[test]
fn each_representation_answers_by_its_limit(rt: HostRuntime) {
    let alloc = rt.alloc();
    answers_at_four(&rt, alloc, Array::<4>::new());
    answers_at_four(&rt, alloc, ArrayVec::<u8, 4>::new());
    answers_at_four(&rt, alloc, &mut Array::<4>::new());
    one_answers_without_a_limit::<Vec<u8>>(&rt, alloc);
    one_answers_without_a_limit::<BytesMut>(&rt, alloc);
    one_answers_without_a_limit::<SmallVec<u8, 2>>(&rt, alloc);
    answers_without_a_limit(&rt, alloc, CowOctets::borrowed(alloc, b""));
}
