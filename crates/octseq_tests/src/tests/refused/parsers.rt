//! Parsers: ranges of shared octets, and lists of commands.
use crate::tests::unwrap;
use arrayvec::ArrayVec;
use bytes::Bytes;
use octseq::array::Array;
use octseq::builder::AsOctets;
use octseq::cow::CowOctets;
use octseq::octets::{Octets, OctetsFrom};
use octseq::parse::{ParseOctetsError, Parser, ParserCall, ParserCommand, ParserReply, run};
use octseq_asserts::{assert_equal, assert_true};
use smallvec::SmallVec;
use std::alloc::{AllocError, AllocGlobal};
use std::process::Abort;
use std::rc::RcSlice;

#[test]
fn a_refused_range_moves_nothing(rt: HostRuntime) {
    let octets = unwrap(&rt, Bytes::copy_from_slice(rt.alloc(), b"0123456789"));
    let mut parser = Parser::from_ref(&octets);
    unwrap(&rt, parser.advance(1));
    match parser.parse_octets(3) {
        Ok(range) => {
            assert_equal!(&rt, range.as_slice(), b"123".as_slice());
            assert_equal!(&rt, parser.pos(), 4);
        }
        Err(error) => {
            assert_equal!(&rt, &error, &ParseOctetsError::Memory);
            assert_equal!(&rt, (parser.pos(), parser.len()), (1, 10));
            unwrap(&rt, Err(error))
        }
    }
}

/// Whether a reply has octets, which are then as expected, rather than a refusal for memory.
fn gives<R: Octets>(rt: &impl Abort, reply: Option<ParserReply<R>>, wanted: Option<&[u8]>) -> bool {
    match reply {
        Some(ParserReply::Slice(octets)) => {
            assert_equal!(rt, Some(octets.as_slice()), wanted);
            true
        }
        Some(ParserReply::Range(range)) => {
            assert_equal!(rt, Some(range.as_ref()), wanted);
            true
        }
        reply => {
            assert_true!(rt, matches!(reply, Some(ParserReply::Memory)));
            false
        }
    }
}

/// Runs commands, of which at most one is refused for memory. The later ones use the window that it left.
fn is_run<R: Octets + Copy>(rt: &(impl Abort + AllocGlobal), octets: R) {
    let calls = [
        ParserCall::Peek(3),
        ParserCall::Octets(3),
        ParserCall::Buf(2),
        ParserCall::PeekAll,
        ParserCall::AsSlice,
        ParserCall::Remaining,
    ];
    let commands = calls.map(|call| ParserCommand { parser: 0, call });
    let mut replies = unwrap(rt, run(rt.alloc(), octets, &commands)).into_iter();
    let whole = b"0123456789".as_slice();
    let is_peeked = gives(rt, replies.next(), whole.get(..3));
    let is_cut = gives(rt, replies.next(), whole.get(..3));
    let at = if is_cut { 3 } else { 0 };
    let is_filled = gives(rt, replies.next(), whole.get(at..at + 2));
    let at = if is_filled { at + 2 } else { at };
    let is_shown = gives(rt, replies.next(), whole.get(at..));
    let is_whole = gives(rt, replies.next(), Some(whole));
    let left = replies.next();
    assert_true!(
        rt,
        matches!(left, Some(ParserReply::Number(n)) if n == 10 - at),
    );
    assert_true!(rt, replies.next().is_none());
    let is_given = is_peeked && is_cut && is_filled && is_shown && is_whole;
    unwrap(rt, is_given.then_some(()).ok_or(AllocError));
}

#[test]
fn commands_are_answered_over_slices(rt: HostRuntime) {
    is_run(&rt, b"0123456789".as_slice());
}

#[test]
fn commands_are_answered_over_vectors(rt: HostRuntime) {
    let octets = b"0123456789".as_slice();
    is_run(&rt, &unwrap(&rt, octets.to_vec(rt.alloc())));
    is_run(&rt, &CowOctets::borrowed(rt.alloc(), octets));
    is_run(
        &rt,
        &unwrap(&rt, SmallVec::<u8, 2>::from_slice(rt.alloc(), octets)),
    );
}

#[test]
fn commands_are_answered_over_fixed_buffers(rt: HostRuntime) {
    let octets = b"0123456789".as_slice();
    is_run(&rt, &unwrap(&rt, Array::<10>::try_from(octets)));
    is_run(
        &rt,
        &unwrap(&rt, ArrayVec::<u8, 10>::try_octets_from(rt.alloc(), octets)),
    );
}

#[test]
fn commands_are_answered_over_shared_octets(rt: HostRuntime) {
    let octets = b"0123456789".as_slice();
    is_run(
        &rt,
        &unwrap(&rt, Bytes::copy_from_slice(rt.alloc(), octets)),
    );
    is_run(
        &rt,
        &unwrap(&rt, RcSlice::<u8>::from_slice(rt.alloc(), octets)),
    );
}
