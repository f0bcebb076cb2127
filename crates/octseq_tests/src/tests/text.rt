//! Texts: how they are read, pushed to and refused, and where faults are.
use super::is_text_or_short;
use crate::tests::unwrap;
use octseq::array::Array;
use octseq::builder::{AppendError, EmptyBuilder, OctetsBuilder, ShortBuf, Truncate};
use octseq::str::{Command, FromUtf8Error, Reply, StrBuilder, run};
use octseq::utf8::{Turns, find_fault, first_fault};
use octseq_asserts::{assert_equal, assert_true};
use octseq_callers::capped::Capped;
use octseq_callers::rationed::Rationed;
use std::alloc::Global;
use std::process::Abort;

mod chunks;
mod conversions;
mod fault_pieces;
mod hostile;
mod pieces;
mod plain;
mod replacements;
mod table;
mod texts;

#[test]
fn thai_and_chinese_are_read(rt: HostRuntime) {
    let octets = unwrap(&rt, "ประเทศไทย中".as_bytes().to_vec(rt.alloc()));
    let text = unwrap(&rt, StrBuilder::from_utf8(octets).ok().ok_or("refused"));
    assert_equal!(&rt, text.len(), 30);
    assert_true!(&rt, !text.is_empty());
    assert_equal!(&rt, text.as_str(), "ประเทศไทย中");
    assert_equal!(&rt, text.as_slice(), "ประเทศไทย中".as_bytes());
    assert_equal!(&rt, text.into_octets_builder().len(), 30);
}

/// Returns why octets in an array aren't a text.
fn refused(rt: &impl Abort, octets: &[u8]) -> FromUtf8Error<Array<4>> {
    let octets = unwrap(rt, Array::<4>::try_from(octets));
    unwrap(rt, StrBuilder::from_utf8(octets).err().ok_or("accepted"))
}

/// Checks that the error has the octets, and says where they are wrong.
fn is_refused(rt: &impl Abort, error: &FromUtf8Error<Array<4>>) {
    assert_equal!(rt, error.as_slice(), b"a\xC0".as_slice());
    let fault = error.utf8_error();
    assert_equal!(rt, (fault.valid_up_to(), fault.error_len()), (1, Some(1)));
}

#[test]
fn octets_that_are_no_text_are_handed_back(rt: HostRuntime) {
    let error = refused(&rt, b"a\xC0");
    is_refused(&rt, &error);
    assert_true!(&rt, refused(&rt, b"b\xC0") != error);
    let shown = unwrap(&rt, format!(in rt.alloc(); "{error:?}"));
    assert_equal!(
        &rt,
        shown.as_str(),
        "FromUtf8Error { fault: Utf8Fault { valid_up_to: 1, error_len: Some(1) }, .. }",
    );
    let copy = unwrap(&rt, error.clone(rt.alloc()));
    assert_true!(&rt, copy == error);
    assert_equal!(&rt, copy.into_octets().as_slice(), b"a\xC0".as_slice());
}

/// Checks that octets aren't a text, by both errors.
fn is_faulty(
    rt: &impl Abort,
    alloc: Global,
    octets: &[u8],
    wanted: (usize, Option<usize>),
    text: &str,
) {
    let fault = unwrap(rt, first_fault(octets, &mut Turns::new()).ok_or("none"));
    assert_equal!(rt, (fault.valid_up_to(), fault.error_len()), wanted);
    assert_equal!(rt, unwrap(rt, fault.to_string(alloc)).as_str(), text);
    let error = unwrap(rt, StrBuilder::from_utf8(octets).err().ok_or("accepted"));
    assert_equal!(rt, error.utf8_error(), fault);
    assert_equal!(rt, unwrap(rt, error.to_string(alloc)).as_str(), text);
}

#[test]
fn faults_are_found_and_shown(rt: HostRuntime) {
    let cases = [
        (
            b"a\xF1\x80\x80".as_slice(),
            (1, None),
            "incomplete utf-8 byte sequence from index 1",
        ),
        (
            b"a\xC0",
            (1, Some(1)),
            "invalid utf-8 sequence of 1 bytes from index 1",
        ),
        (
            b"\xE2\x82A",
            (0, Some(2)),
            "invalid utf-8 sequence of 2 bytes from index 0",
        ),
        (
            b"\xC3\xA9\xF0\x9F\x98A",
            (2, Some(3)),
            "invalid utf-8 sequence of 3 bytes from index 2",
        ),
        (
            b"\xED\xA0\x80",
            (0, Some(1)),
            "invalid utf-8 sequence of 1 bytes from index 0",
        ),
    ];
    for (octets, wanted, text) in cases {
        is_faulty(&rt, rt.alloc(), octets, wanted, text);
    }
    assert_equal!(&rt, find_fault(b""), None);
}

/// Returns the lengths of the ill-formed parts, from the left.
fn bad_lengths(rt: &impl Abort, alloc: Global, octets: &[u8]) -> Vec<usize> {
    let mut lengths = Vec::new(alloc);
    let mut at = 0;
    for _ in octets {
        let Some(fault) = first_fault(&octets[at.min(octets.len())..], &mut Turns::new()) else {
            break;
        };
        let length = unwrap(rt, fault.error_len().ok_or("cut"));
        unwrap(rt, lengths.push(length));
        at = at
            .saturating_add(fault.valid_up_to())
            .saturating_add(length);
    }
    lengths
}

/// The examples of the Unicode Standard, chapter 3, on the replacement of maximal subparts.
#[test]
fn maximal_subparts_are_those_of_the_standard(rt: HostRuntime) {
    let cases = [
        (
            b"\xC0\xAF\xE0\x80\xBF\xF0\x81\x82A".as_slice(),
            [1, 1, 1, 1, 1, 1, 1, 1].as_slice(),
        ),
        (
            b"\xED\xA0\x80\xED\xBF\xBF\xED\xAFA",
            &[1, 1, 1, 1, 1, 1, 1, 1],
        ),
        (b"\xF4\x91\x92\x93\xFFA\x80\xBFB", &[1, 1, 1, 1, 1, 1, 1]),
        (b"\xE1\x80\xE2\xF0\x91\x92\xF1\xBFA", &[2, 1, 3, 2]),
    ];
    for (octets, lengths) in cases {
        assert_equal!(
            &rt,
            bad_lengths(&rt, rt.alloc(), octets).as_slice(),
            lengths
        );
    }
}

/// Makes texts through their traits only.
fn make<B: EmptyBuilder>(rt: &impl Abort, alloc: Global) {
    assert_true!(rt, unwrap(rt, StrBuilder::<B>::new(alloc)).is_empty());
    assert_true!(
        rt,
        unwrap(rt, StrBuilder::<B>::with_capacity(alloc, 8)).is_empty()
    );
    let text = StrBuilder::from_utf8_unchecked(B::empty(alloc).expect(rt, "error"));
    assert_equal!(rt, text.as_str(), "");
}

#[test]
fn texts_are_made_empty(rt: HostRuntime) {
    make::<Vec<u8>>(&rt, rt.alloc());
    make::<Array<0>>(&rt, rt.alloc());
}

#[test]
fn characters_are_pushed(rt: HostRuntime) {
    let octets = unwrap(&rt, "ประเทศไทย中".as_bytes().to_vec(rt.alloc()));
    let mut text = unwrap(&rt, StrBuilder::from_utf8(octets).ok().ok_or("refused"));
    for ch in ['华', 'b', '¢', '€', '𤭢'] {
        unwrap(&rt, text.push(ch));
    }
    assert_equal!(&rt, text.len(), 43);
    assert_equal!(&rt, text.as_str(), "ประเทศไทย中华b¢€𤭢");
}

#[test]
fn texts_are_pushed(rt: HostRuntime) {
    let mut text = unwrap(&rt, StrBuilder::<Vec<u8>>::new(rt.alloc()));
    unwrap(&rt, text.push_str(""));
    assert_equal!(&rt, text.as_str(), "");
    unwrap(&rt, text.push_str("abc"));
    assert_equal!(&rt, text.as_str(), "abc");
    unwrap(&rt, text.push_str("ประเทศไทย中华Việt Nam"));
    assert_equal!(&rt, text.as_str(), "abcประเทศไทย中华Việt Nam");
    assert_equal!(&rt, text.len(), 46);
}

#[test]
fn a_push_that_passes_the_limit_is_refused(rt: HostRuntime) {
    let mut text = unwrap(&rt, StrBuilder::<Array<4>>::new(rt.alloc()));
    assert_equal!(&rt, text.try_push_str("abc"), Ok(()));
    assert_equal!(&rt, text.try_push('¢'), Err(AppendError::Short(ShortBuf)));
    assert_equal!(
        &rt,
        text.try_push_str("de"),
        Err(AppendError::Short(ShortBuf)),
    );
    assert_equal!(&rt, text.try_push('d'), Ok(()));
    assert_equal!(&rt, text.as_str(), "abcd");
}

/// Checks the replies to commands on an empty text.
fn replies<B: EmptyBuilder + Truncate>(
    rt: &impl Abort,
    alloc: Global,
    commands: &[Command],
    wanted: &[Reply],
) {
    let mut text = unwrap(rt, StrBuilder::<B>::new(alloc));
    let replies = unwrap(rt, run(alloc, &mut text, commands));
    assert_equal!(rt, replies.as_slice(), wanted);
}

#[test]
fn commands_are_answered(rt: HostRuntime) {
    let alloc = rt.alloc();
    let commands = [
        Command::Push('€'),
        Command::Push('¢'),
        Command::Push('b'),
        Command::PushStr(""),
        Command::Len,
        Command::Is("€b"),
    ];
    let at_four = [
        Reply::Done,
        Reply::Short,
        Reply::Done,
        Reply::Done,
        Reply::Len(4),
        Reply::Is(true),
    ];
    replies::<Array<4>>(&rt, alloc, &commands, &at_four);
    let unlimited = [
        Reply::Done,
        Reply::Done,
        Reply::Done,
        Reply::Done,
        Reply::Len(6),
        Reply::Is(false),
    ];
    replies::<Vec<u8>>(&rt, alloc, &commands, &unlimited);
    let to_none = [Command::PushStr(""), Command::Push('a'), Command::Len];
    let at_none = [Reply::Done, Reply::Short, Reply::Len(0)];
    replies::<Array<0>>(&rt, alloc, &to_none, &at_none);
    let to_five = [
        Command::Push('€'),
        Command::Push('é'),
        Command::Push('a'),
        Command::Len,
    ];
    let at_five = [Reply::Done, Reply::Done, Reply::Short, Reply::Len(5)];
    replies::<Capped>(&rt, alloc, &to_five, &at_five);
}

#[test]
fn a_refusal_of_memory_leaves_the_text(rt: HostRuntime) {
    let alloc = rt.alloc();
    let commands = [
        Command::PushStr("ab"),
        Command::Push('é'),
        Command::PushStr("c"),
    ];
    let texts = ["abéc", "éc", "abc", "abé"];
    for (n, text) in texts.iter().enumerate() {
        let rationed = Rationed::new(Vec::new(alloc), n);
        let mut builder = unwrap(&rt, StrBuilder::from_utf8(rationed).ok().ok_or("refused"));
        let replies = unwrap(&rt, run(alloc, &mut builder, &commands));
        assert_equal!(&rt, builder.as_str(), *text);
        are_done_but_one(&rt, replies.as_slice(), n);
    }
}

/// Checks that three commands were done except the n-th, if there is one.
fn are_done_but_one(rt: &impl Abort, replies: &[Reply], n: usize) {
    assert_equal!(rt, replies.len(), 3);
    for (i, reply) in replies.iter().enumerate() {
        let is_refused = i.checked_add(1) == Some(n);
        let wanted = if is_refused {
            Reply::Memory
        } else {
            Reply::Done
        };
        assert_equal!(rt, reply, &wanted);
    }
}

/// Octets and their lossy texts.
fn lossy_texts() -> [(&'static [u8], &'static str); 16] {
    [
        (
            b"Hello\xC0\x80 There\xE6\x83 Goodbye",
            "Hello\u{FFFD}\u{FFFD} There\u{FFFD} Goodbye",
        ),
        (
            b"\xF1foo\xF1\x80bar\xF1\x80\x80baz",
            "\u{FFFD}foo\u{FFFD}bar\u{FFFD}baz",
        ),
        (
            b"\xF0\x80\x80\x80foo\xF0\x90\x80\x80bar",
            "\u{FFFD}\u{FFFD}\u{FFFD}\u{FFFD}foo\u{10000}bar",
        ),
        (
            b"\xED\xA0\x80foo\xED\xBF\xBFbar",
            "\u{FFFD}\u{FFFD}\u{FFFD}foo\u{FFFD}\u{FFFD}\u{FFFD}bar",
        ),
        (
            b"\xF4foo\xF4\x80bar\xF4\xBFbaz",
            "\u{FFFD}foo\u{FFFD}bar\u{FFFD}\u{FFFD}baz",
        ),
        (b"a\xF1\x80\x80", "a\u{FFFD}"),
        (b"a\xC0", "a\u{FFFD}"),
        (
            b"Hello\xC2 There\xFF Goodbye",
            "Hello\u{FFFD} There\u{FFFD} Goodbye",
        ),
        (b"\xF5foo\xF5\x80bar", "\u{FFFD}foo\u{FFFD}\u{FFFD}bar"),
        (b"hello", "hello"),
        ("ศไทย中华Việt Nam".as_bytes(), "ศไทย中华Việt Nam"),
        (b"", ""),
        // The examples of the Unicode Standard, chapter 3.
        (
            b"\xC0\xAF\xE0\x80\xBF\xF0\x81\x82A",
            "\u{FFFD}\u{FFFD}\u{FFFD}\u{FFFD}\u{FFFD}\u{FFFD}\u{FFFD}\u{FFFD}A",
        ),
        (
            b"\xED\xA0\x80\xED\xBF\xBF\xED\xAFA",
            "\u{FFFD}\u{FFFD}\u{FFFD}\u{FFFD}\u{FFFD}\u{FFFD}\u{FFFD}\u{FFFD}A",
        ),
        (
            b"\xF4\x91\x92\x93\xFFA\x80\xBFB",
            "\u{FFFD}\u{FFFD}\u{FFFD}\u{FFFD}\u{FFFD}A\u{FFFD}\u{FFFD}B",
        ),
        (
            b"\xE1\x80\xE2\xF0\x91\x92\xF1\xBFA",
            "\u{FFFD}\u{FFFD}\u{FFFD}\u{FFFD}A",
        ),
    ]
}

/// Returns the lossy text of octets, in a vector.
fn lossy(rt: &impl Abort, alloc: Global, octets: &[u8]) -> StrBuilder<Vec<u8>> {
    unwrap(
        rt,
        StrBuilder::try_from_utf8_lossy_counted(
            alloc,
            unwrap(rt, octets.to_vec(alloc)),
            &mut Turns::new(),
        ),
    )
}

/// Checks that octets pushed to a text are their lossy text.
fn is_pushed_lossily(rt: &impl Abort, alloc: Global, octets: &[u8], text: &str) {
    let mut pushed = unwrap(rt, StrBuilder::<Vec<u8>>::try_copy_lossy(alloc, b"\xC3"));
    unwrap(rt, pushed.try_push_lossy(octets));
    assert_equal!(rt, pushed.as_str().strip_prefix("\u{FFFD}"), Some(text));
}

#[test]
fn each_bad_part_becomes_one_replacement(rt: HostRuntime) {
    let alloc = rt.alloc();
    for (octets, text) in lossy_texts() {
        assert_equal!(&rt, lossy(&rt, alloc, octets).as_str(), text);
        let read = unwrap(
            &rt,
            StrBuilder::from_utf8_lossy(alloc, unwrap(&rt, octets.to_vec(alloc))),
        );
        assert_equal!(&rt, read.as_str(), text);
        is_pushed_lossily(&rt, alloc, octets, text);
    }
    let text = lossy(&rt, alloc, b"Hello\xC0\x80 There\xE6\x83 Goodbye");
    assert_equal!(&rt, text.len(), 28);
}

/// Puts octets into a builder.
fn filled<B: EmptyBuilder>(alloc: Global, octets: &[u8]) -> Result<B, AppendError> {
    let mut builder = B::empty(alloc)?;
    builder.append_slice(octets)?;
    Ok(builder)
}

/// Checks that both calls return the expected text for these octets, or refuse it as too long.
fn lossy_over<B: EmptyBuilder>(
    rt: &impl Abort,
    alloc: Global,
    octets: &[u8],
    wanted: Option<&str>,
) {
    let text = StrBuilder::try_from_utf8_lossy(alloc, unwrap(rt, filled::<B>(alloc, octets)));
    is_text_or_short(rt, text, wanted);
    let builder = unwrap(rt, filled::<B>(alloc, octets));
    let text = StrBuilder::try_from_utf8_lossy_counted(alloc, builder, &mut Turns::new());
    is_text_or_short(rt, text, wanted);
    is_text_or_short(rt, StrBuilder::<B>::try_copy_lossy(alloc, octets), wanted);
}

#[test]
fn a_lossy_text_that_passes_the_limit_is_refused(rt: HostRuntime) {
    let alloc = rt.alloc();
    lossy_over::<Array<0>>(&rt, alloc, b"", Some(""));
    lossy_over::<Array<4>>(&rt, alloc, b"a\xFF\xFF", None);
    lossy_over::<Array<7>>(&rt, alloc, b"a\xFF\xFF", Some("a\u{FFFD}\u{FFFD}"));
    lossy_over::<Capped>(&rt, alloc, b"a\xFF", Some("a\u{FFFD}"));
    lossy_over::<Capped>(&rt, alloc, b"\xFF\xFF", None);
    let refused = Array::<0>::new().append_slice(b"a");
    assert_equal!(&rt, refused, Err(AppendError::Short(ShortBuf)));
}
