//! Texts: how they are made, pushes, lossy readings and lists of commands.
ghost use Rattle.std.specs.Prelude.{◌≡◌, None};

use crate::tests::unwrap;
use arrayvec::ArrayVec;
use bytes::{Bytes, BytesMut};
use octseq::Turns;
use octseq::array::Array;
use octseq::builder::{
    AppendError, AsOctets, CloneOctets, EmptyBuilder, FreezeBuilder, FromBuilder, OctetsBuilder,
    Truncate,
};
use octseq::cow::CowOctets;
use octseq::str::{Command, LossyPieces, Reply, Str, StrBuilder, run};
use octseq_asserts::{assert_equal, assert_true};
use smallvec::SmallVec;
use std::alloc::{AllocError, Global};
use std::fmt::{Debug, Write};
use std::process::Abort;
use std::rc::RcSlice;

/// Pushes to an empty text. It has all of the characters after each push, or none of them.
fn grows<B: OctetsBuilder>(rt: &impl Abort, builder: B) {
    let mut text = unwrap(rt, StrBuilder::from_utf8(builder).ok().ok_or("no text"));
    let whole = "0123456789abcdefé€𤭢";
    let mut len = 0_usize;
    for ch in whole.chars() {
        let pushed = text.try_push(ch);
        if pushed.is_ok() {
            len = len.saturating_add(ch.len_utf8());
        }
        assert_equal!(rt, Some(text.as_slice()), whole.as_bytes().get(..len));
        unwrap(rt, pushed);
    }
    let pushed = text.try_push_str("0123456789abcdefghijklmnopqrstuvwxyz");
    let wanted = if pushed.is_ok() { 61 } else { 25 };
    assert_equal!(rt, text.len(), wanted);
    unwrap(rt, pushed);
}

#[test]
fn texts_in_vectors_grow(rt: HostRuntime) {
    grows(&rt, unwrap(&rt, Vec::empty(rt.alloc())));
    grows(&rt, CowOctets::borrowed(rt.alloc(), b""));
}

#[test]
fn texts_in_other_buffers_grow(rt: HostRuntime) {
    grows(&rt, unwrap(&rt, BytesMut::empty(rt.alloc())));
    grows(&rt, unwrap(&rt, SmallVec::<u8, 20>::empty(rt.alloc())));
}

/// Shows numbers at the end of a text. It has all digits of each, or none; `write!` doesn't say why it failed.
fn shows<B: OctetsBuilder + Truncate>(rt: &impl Abort, builder: B) {
    let mut text = unwrap(rt, StrBuilder::from_utf8(builder).ok().ok_or("no text"));
    let pushed = text.try_push_display(12_345_678_u32);
    let wanted = if pushed.is_ok() { "12345678" } else { "" };
    assert_equal!(rt, text.as_str(), wanted);
    unwrap(rt, pushed);
    let pushed = text.try_push_display("abcdefghijklmnopqrstuvwxyzé");
    let wanted = if pushed.is_ok() { 36 } else { 8 };
    assert_equal!(rt, text.as_slice().len(), wanted);
    unwrap(rt, pushed);
    let written = write!(text, "{}", 87_654_321_u32);
    let wanted = if written.is_ok() { 44 } else { 36 };
    assert_equal!(rt, text.as_slice().len(), wanted);
    unwrap(rt, written.map_err(|_| AllocError));
}

#[test]
fn values_are_shown_in_buffers_that_grow(rt: HostRuntime) {
    shows(&rt, unwrap(&rt, Vec::empty(rt.alloc())));
    shows(&rt, unwrap(&rt, BytesMut::empty(rt.alloc())));
    shows(&rt, unwrap(&rt, SmallVec::<u8, 12>::empty(rt.alloc())));
    shows(&rt, CowOctets::borrowed(rt.alloc(), b""));
}

/// Pushes to an empty text without a limit, by the calls that require that.
fn grows_without_a_limit<B: OctetsBuilder>(rt: &impl Abort, builder: B)
    requires { B.limit ≡ None }
{
    let mut text = unwrap(rt, StrBuilder::from_utf8(builder).ok().ok_or("no text"));
    let pushed = text.push_str("abc");
    assert_equal!(rt, text.as_str(), if pushed.is_ok() { "abc" } else { "" });
    unwrap(rt, pushed);
    for _ in 0..8 {
        let before = text.len();
        let pushed = text.push('€');
        let more = if pushed.is_ok() { 3 } else { 0 };
        assert_equal!(rt, text.len(), before.saturating_add(more));
        unwrap(rt, pushed);
    }
}

#[test]
fn texts_in_vectors_grow_without_a_limit(rt: HostRuntime) {
    grows_without_a_limit(&rt, unwrap(&rt, Vec::empty(rt.alloc())));
    grows_without_a_limit(&rt, &mut unwrap(&rt, Vec::empty(rt.alloc())));
    grows_without_a_limit(&rt, CowOctets::borrowed(rt.alloc(), b""));
}

#[test]
fn texts_in_other_buffers_grow_without_a_limit(rt: HostRuntime) {
    grows_without_a_limit(&rt, unwrap(&rt, BytesMut::empty(rt.alloc())));
    grows_without_a_limit(&rt, unwrap(&rt, SmallVec::<u8, 2>::empty(rt.alloc())));
}

/// Makes empty texts, and texts from characters.
fn is_made<B: EmptyBuilder + FreezeBuilder<Octets = O>, O: FromBuilder<Builder = B>>(
    rt: &impl Abort,
    alloc: Global,
)
    requires { B.limit ≡ None }
{
    assert_true!(rt, unwrap(rt, StrBuilder::<B>::new(alloc)).is_empty());
    assert_true!(
        rt,
        unwrap(rt, StrBuilder::<B>::with_capacity(alloc, 8)).is_empty()
    );
    let text = unwrap(rt, Str::<O>::try_copy_from_str(alloc, "ab€"));
    assert_equal!(rt, text.as_str(), "ab€");
    let text = unwrap(rt, Str::<O>::copy_from_str(alloc, "ab€"));
    assert_equal!(rt, text.as_str(), "ab€");
}

#[test]
fn texts_are_made(rt: HostRuntime) {
    is_made::<_, Vec<u8>>(&rt, rt.alloc());
    is_made::<_, Bytes>(&rt, rt.alloc());
    is_made::<_, SmallVec<u8, 2>>(&rt, rt.alloc());
}

#[test]
fn a_shared_text_is_frozen(rt: HostRuntime) {
    let mut text = unwrap(&rt, StrBuilder::<BytesMut>::new(rt.alloc()));
    unwrap(&rt, text.push_str("ab€"));
    assert_equal!(&rt, unwrap(&rt, text.freeze()).as_str(), "ab€");
}

/// Copies a text. It is unchanged whatever the result.
fn is_copied<O: CloneOctets, E: Debug + Drop>(rt: &impl Abort, alloc: Global, made: Result<O, E>) {
    let text = unwrap(rt, Str::from_utf8(unwrap(rt, made)).ok().ok_or("no text"));
    let copy = text.clone(alloc);
    assert_equal!(rt, text.as_str(), "ab€");
    assert_equal!(rt, unwrap(rt, copy).as_str(), "ab€");
}

/// Copies an error about octets that aren't well-formed. It is unchanged whatever the result.
fn is_refusal_copied<O: CloneOctets, E: Debug + Drop>(
    rt: &impl Abort,
    alloc: Global,
    made: Result<O, E>,
) {
    let error = unwrap(
        rt,
        StrBuilder::from_utf8(unwrap(rt, made))
            .err()
            .ok_or("accepted"),
    );
    let copy = error.clone(alloc);
    assert_equal!(rt, error.as_slice(), b"a\xC0".as_slice());
    assert_true!(rt, unwrap(rt, copy) == error);
}

/// Makes owned octets.
fn owned(alloc: Global, octets: &[u8]) -> Result<CowOctets<'static>, AllocError> {
    Ok(CowOctets::owned(octets.to_vec(alloc)?))
}

#[test]
fn texts_in_vectors_are_copied(rt: HostRuntime) {
    let (alloc, good, bad) = (rt.alloc(), "ab€".as_bytes(), b"a\xC0".as_slice());
    is_copied(&rt, alloc, good.to_vec(alloc));
    is_refusal_copied(&rt, alloc, bad.to_vec(alloc));
    is_copied(&rt, alloc, owned(alloc, good));
    is_refusal_copied(&rt, alloc, owned(alloc, bad));
    is_copied(&rt, alloc, SmallVec::<u8, 1>::from_slice(alloc, good));
    is_refusal_copied(&rt, alloc, SmallVec::<u8, 1>::from_slice(alloc, bad));
}

#[test]
fn shared_texts_are_copied(rt: HostRuntime) {
    let (alloc, good, bad) = (rt.alloc(), "ab€".as_bytes(), b"a\xC0".as_slice());
    is_copied(&rt, alloc, Bytes::copy_from_slice(alloc, good));
    is_refusal_copied(&rt, alloc, Bytes::copy_from_slice(alloc, bad));
    is_copied(&rt, alloc, BytesMut::copy_from_slice(alloc, good));
    is_refusal_copied(&rt, alloc, BytesMut::copy_from_slice(alloc, bad));
    is_copied(&rt, alloc, RcSlice::<u8>::from_slice(alloc, good));
    is_refusal_copied(&rt, alloc, RcSlice::<u8>::from_slice(alloc, bad));
}

/// Puts octets that aren't well-formed into a builder.
fn unread<B: EmptyBuilder>(alloc: Global) -> Result<B, AppendError> {
    let mut octets = B::empty(alloc)?;
    octets.append_slice(b"0123456789\xFFabcdefgh\xF1\x80\x80")?;
    Ok(octets)
}

/// Checks that a text is the lossy text of those octets.
fn is_lossy<B: AsOctets>(rt: &impl Abort, read: Result<StrBuilder<B>, AppendError>) {
    assert_equal!(
        rt,
        unwrap(rt, read).as_str(),
        "0123456789\u{FFFD}abcdefgh\u{FFFD}"
    );
}

/// Reads octets that aren't well-formed by each of the calls.
fn is_read<B: EmptyBuilder>(rt: &impl Abort, alloc: Global)
    requires { B.limit ≡ None }
{
    let octets = unwrap(rt, unread::<B>(alloc));
    is_lossy(rt, StrBuilder::try_from_utf8_lossy(alloc, octets));
    let octets = unwrap(rt, unread::<B>(alloc));
    is_lossy(
        rt,
        Ok(unwrap(rt, StrBuilder::from_utf8_lossy(alloc, octets))),
    );
    let (octets, turns) = (unwrap(rt, unread::<B>(alloc)), &mut Turns::new());
    let text = StrBuilder::try_from_utf8_lossy_counted(alloc, octets, turns);
    is_lossy(rt, text);
}

/// Does the same by the calls that take a replacement.
fn is_read_with<B: EmptyBuilder>(rt: &impl Abort, alloc: Global) {
    let replacement = char::REPLACEMENT_CHARACTER;
    let octets = unwrap(rt, unread::<B>(alloc));
    let text = StrBuilder::try_from_utf8_lossy_with(alloc, octets, replacement);
    is_lossy(rt, text);
    let (octets, turns) = (unwrap(rt, unread::<B>(alloc)), &mut Turns::new());
    let text = StrBuilder::try_from_utf8_lossy_with_counted(alloc, octets, replacement, turns);
    is_lossy(rt, text);
}

/// Reads a slice lossily.
fn copies_lossily<B: EmptyBuilder>(rt: &impl Abort, alloc: Global) {
    let octets = unwrap(rt, unread::<Vec<u8>>(alloc));
    let octets = octets.as_slice();
    is_lossy(rt, StrBuilder::<B>::try_copy_lossy(alloc, octets));
    is_lossy(
        rt,
        StrBuilder::<B>::try_copy_lossy_with(alloc, octets, '\u{FFFD}'),
    );
}

/// Reads lossily by each of the calls.
fn each_reads<B: EmptyBuilder>(rt: &impl Abort, alloc: Global)
    requires { B.limit ≡ None }
{
    is_read::<B>(rt, alloc);
    is_read_with::<B>(rt, alloc);
    copies_lossily::<B>(rt, alloc);
}

/// Pushes to the end of a text of ten octets. It has all of the lossy text afterwards, or is unchanged.
fn pushes_lossily<B: OctetsBuilder + Truncate>(rt: &impl Abort, builder: B) {
    let mut text = unwrap(rt, StrBuilder::from_utf8(builder).ok().ok_or("no text"));
    let front = text.len();
    let pushed = text.try_push_lossy(b"0123456789\xF1\x80abcdefgh\xFF");
    let wanted = if pushed.is_ok() { 24 } else { 0 };
    assert_equal!(rt, text.len(), front.saturating_add(wanted));
    unwrap(rt, pushed);
    let pushed = text.try_push_lossy_with(b"abcdefghijklmnopqrstuvwxyz\xE2\x82", 'é');
    let wanted = if pushed.is_ok() { 52 } else { 24 };
    assert_equal!(rt, text.len(), front.saturating_add(wanted));
    unwrap(rt, pushed);
}

#[test]
fn octets_are_pushed_as_text_or_not_at_all(rt: HostRuntime) {
    pushes_lossily(&rt, unwrap(&rt, Vec::empty(rt.alloc())));
    pushes_lossily(&rt, CowOctets::borrowed(rt.alloc(), b"0123456789"));
    pushes_lossily(&rt, unwrap(&rt, BytesMut::empty(rt.alloc())));
    pushes_lossily(&rt, unwrap(&rt, SmallVec::<u8, 20>::empty(rt.alloc())));
}

#[test]
fn octets_are_read_lossily(rt: HostRuntime) {
    each_reads::<Vec<u8>>(&rt, rt.alloc());
    each_reads::<BytesMut>(&rt, rt.alloc());
    each_reads::<SmallVec<u8, 2>>(&rt, rt.alloc());
}

/// Reads octets in pieces. After a refusal every call returns it.
fn is_read_in_pieces<B: EmptyBuilder>(rt: &impl Abort, alloc: Global) {
    let mut pieces = unwrap(rt, LossyPieces::<B>::new(alloc));
    let cut = [
        b"0123456789\xE2".as_slice(),
        b"\x82\xACabcdefgh\xFF",
        b"ijklmnopqrstuvwxyz\xF1\x80",
    ];
    for piece in cut {
        let fed = pieces.feed(piece);
        if fed.is_err() {
            assert_equal!(rt, pieces.feed(b""), Err(AppendError::Memory));
            assert_equal!(rt, pieces.finish().err(), Some(AppendError::Memory));
            return unwrap(rt, fed);
        }
    }
    let whole = "0123456789€abcdefgh\u{FFFD}ijklmnopqrstuvwxyz\u{FFFD}";
    assert_equal!(rt, unwrap(rt, pieces.finish()).as_str(), whole);
}

#[test]
fn pieces_are_read(rt: HostRuntime) {
    is_read_in_pieces::<Vec<u8>>(&rt, rt.alloc());
    is_read_in_pieces::<BytesMut>(&rt, rt.alloc());
    is_read_in_pieces::<SmallVec<u8, 2>>(&rt, rt.alloc());
}

/// Runs commands on an empty text, of which at most one is refused for memory. The later ones use what it left.
fn is_run<B: OctetsBuilder + Truncate>(rt: &impl Abort, alloc: Global, builder: B) {
    let commands = [
        Command::PushStr("0123456789"),
        Command::Push('é'),
        Command::PushStr("abcdefghijklmnopqrstuvwxyz"),
        Command::Len,
    ];
    let mut text = unwrap(rt, StrBuilder::from_utf8(builder).ok().ok_or("no text"));
    let replies = run(alloc, &mut text, &commands);
    if replies.is_err() {
        assert_true!(rt, text.is_empty());
    }
    let replies = unwrap(rt, replies);
    let refused = replies.iter().position(|reply| *reply == Reply::Memory);
    let wanted = match refused {
        None => "0123456789éabcdefghijklmnopqrstuvwxyz",
        Some(0) => "éabcdefghijklmnopqrstuvwxyz",
        Some(1) => "0123456789abcdefghijklmnopqrstuvwxyz",
        Some(_) => "0123456789é",
    };
    assert_equal!(rt, text.as_str(), wanted);
    assert_equal!(rt, replies.len(), 4);
    for (place, reply) in replies.iter().enumerate() {
        let answer = if place == 3 {
            Reply::Len(wanted.len())
        } else if refused == Some(place) {
            Reply::Memory
        } else {
            Reply::Done
        };
        assert_equal!(rt, reply, &answer);
    }
    unwrap(rt, refused.is_none().then_some(()).ok_or(AllocError));
}

#[test]
fn commands_are_answered_over_vectors(rt: HostRuntime) {
    is_run(&rt, rt.alloc(), unwrap(&rt, Vec::empty(rt.alloc())));
    is_run(&rt, rt.alloc(), CowOctets::borrowed(rt.alloc(), b""));
}

#[test]
fn commands_are_answered_over_other_buffers(rt: HostRuntime) {
    is_run(&rt, rt.alloc(), unwrap(&rt, BytesMut::empty(rt.alloc())));
    is_run(
        &rt,
        rt.alloc(),
        unwrap(&rt, SmallVec::<u8, 2>::empty(rt.alloc())),
    );
}

#[test]
fn commands_are_answered_over_fixed_buffers(rt: HostRuntime) {
    is_run(&rt, rt.alloc(), Array::<38>::new());
    is_run(&rt, rt.alloc(), ArrayVec::<u8, 38>::new());
}
