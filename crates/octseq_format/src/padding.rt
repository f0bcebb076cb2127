//! Octets that must be zero.
ghost use Rattle.std.specs.Prelude.{◌≡◌, ◌≤◌, ◌+◌, ◌++◌, length, replicate, true, refl};
ghost use Rattle.std.specs.Prelude.{IsTrue, IsFalse, IsErr, OnOk, OnErr};
ghost use Rattle.octseq.specs.Limit.{IsWithin};
ghost use Rattle.octseq.specs.Parser.{window, sequence};
ghost use Rattle.octseq.specs.Parts.{StartsWith};
ghost use Rattle.octseq.specs.Window.{left};
ghost use Rattle.octseq_format.specs.Answer.{not_so};
ghost use Rattle.octseq_format.specs.Constant.{coded_unit};
ghost use Rattle.octseq_format.specs.Laws.{NoneAt};
ghost use Rattle.octseq_format.specs.Padding.{IsZeros, one_zeros, onward_zeros, delimited_zeros};
ghost use Rattle.octseq_format.specs.Padding.{zeros_read_back, canonical_zeros};
ghost use Rattle.octseq_format.specs.Padding.{padding, IsPadded, padded_octets, one_padded};
ghost use Rattle.octseq_format.specs.Padding.{onward_padded, delimited_padded, padded_read_back};
ghost use Rattle.octseq_format.specs.Padding.{canonical_padded};
ghost use Rattle.octseq_format.specs.Stop.{StopsThen, stops_here};

use crate::answer::{No, Yes};
use crate::format::{Format, end_or_fault};
use crate::number::put_octets;
use octseq::{AsOctets, Malformed, OctetsBuilder, Parser, Truncate, Turns};
use std::alloc::AllocError;
use std::marker::PhantomData;

/// Whether all octets are zero.
fn are_zeros(octets: &[u8]) -> bool
    ensures yes { IsTrue result → octets.now ≡ replicate (length octets.now) 0 }
    ensures no { IsFalse result → ¬ (octets.now ≡ replicate (length octets.now) 0) }
{
    for k in 0..octets.len() {
        if octets[k] != 0 {
            return false;
        }
    }
    true
}

/// Reads `len` octets that are zero.
#[inline(always)]
fn parse_zeros<R: AsOctets>(parser: &mut Parser<R>, len: usize) -> Result<(), Malformed>
    ensures ok { OnOk result (IsZeros len (window parser.old) tt (window parser.new)) }
    ensures malformed { IsErr result → NoneAt (IsZeros len) (window parser.old) }
    ensures kept { OnErr result (window parser.new ≡ window parser.old) }
    ensures same { sequence parser.new ≡ sequence parser.old }
    ensures end { (window parser.new).end ≡ (window parser.old).end }
    ensures onward { left (window parser.new) ≤ left (window parser.old) }
{
    if !are_zeros(parser.peek(len)?) {
        return Err(Malformed);
    }
    parser.advance(len)?;
    Ok(())
}

/// Appends `len` zero octets. On an error it may have appended some.
fn put_zeros<B: OctetsBuilder>(builder: &mut B, len: usize) -> Result<(), AllocError>
    requires { IsWithin B.limit (length (B.content builder.now) + len) }
    ensures ok { OnOk result (B.content builder.new ≡ B.content builder.old ++ replicate len 0) }
    ensures front { OnErr result (StartsWith (B.content builder.old) (B.content builder.new)) }
    ensures memory { IsErr result → B.asks ≡ true }
    ensures borrows { B.borrows builder.new ≡ B.borrows builder.old }
{
    for done in 0..len {
        put_octets(builder, &[0])?;
    }
    Ok(())
}

/// `N` octets, which must be zero.
#[derive(Debug)]
pub struct Zeros<const N: usize>;

impl<R: AsOctets + Copy, const N: usize> Format<R> for Zeros<N> {
    type Value = ();

    type SelfDelimiting = Yes;

    type NonEmpty = No;

    ghost Found = { Unit {0} };

    ghost found = { λ a. a };

    ghost is_at = { IsZeros N };

    ghost Said = { Unit {0} };

    ghost says = { λ a. a };

    ghost octets = { λ _. replicate N 0 };

    ghost fits = { λ _. Unit {0} };

    ghost one = { one_zeros N };

    ghost found_code = { coded_unit };

    ghost least = { N };

    ghost turns_of = { λ _. 0 };

    ghost base = { 0 };

    ghost rate = { 0 };

    ghost key = { λ _. 0 };

    ghost stops = { stops_here };

    ghost one_way = { true };

    #[inline(always)]
    fn parse_counted(parser: &mut Parser<R>, _turns: &mut Turns) -> Result<(), Malformed> {
        parse_zeros(parser, N)
    }

    fn fault(parser: &Parser<R>) -> usize {
        parser.pos()
    }

    #[inline(always)]
    fn least_len() -> usize {
        N
    }

    #[inline(always)]
    fn key_of(_value: &Self::Value) -> usize {
        0
    }

    #[inline(always)]
    fn is_canonical() -> bool {
        true
    }

    #[inline(always)]
    fn fixed_len() -> Option<usize> {
        Some(N)
    }

    #[inline(always)]
    #[tactic(auto, using(crate::specs::Padding::zeros_long))]
    fn compose_len(_value: &()) -> Option<usize> {
        Some(N)
    }

    #[inline(always)]
    #[tactic(auto, using(crate::specs::Padding::zeros_long))]
    fn put<B: OctetsBuilder + Truncate>(builder: &mut B, _value: &()) -> Result<(), AllocError> {
        let before = builder.len();
        let appended = put_zeros(builder, N);
        if appended.is_err() {
            builder.truncate(before);
        }
        appended
    }

    ghost canonical = { λ _. canonical_zeros N };

    ghost onward = { onward_zeros N };

    ghost read_back = { zeros_read_back N };

    ghost delimited = { λ _. delimited_zeros N };

    ghost moving = { not_so };
}

/// Returns how many octets there are after `len` octets up to a multiple of `of`. Returns 0 if `of`
/// is 0.
#[inline(always)]
fn padding_len(of: usize, len: usize) -> usize
    ensures padding { result ≡ padding of len }
    ensures few { result ≤ of }
{
    if of == 0 {
        return 0;
    }
    (of - len % of) % of
}

/// `A`, followed by the fewest zero octets with which it takes a multiple of `N` octets, counted
/// from the first octet of `A`. If `N` is 0, no zero octets follow.
#[derive(Debug)]
pub struct Padded<const N: usize, A> {
    inside: PhantomData<A>,
}

impl<R: AsOctets + Copy, const N: usize, A: Format<R, SelfDelimiting = Yes>> Format<R>
    for Padded<N, A> {
    type Value = A::Value;

    type SelfDelimiting = Yes;

    type NonEmpty = A::NonEmpty;

    ghost Found = { A.Found };

    ghost found = { A.found };

    ghost is_at = { IsPadded N A.is_at };

    ghost Said = { A.Said };

    ghost says = { A.says };

    ghost octets = { padded_octets N A.octets };

    ghost fits = { A.fits };

    ghost one = { one_padded N A.one };

    ghost found_code = { A.found_code };

    ghost least = { A.least };

    ghost turns_of = { A.turns_of };

    ghost base = { A.base };

    ghost rate = { A.rate };

    ghost key = { A.key };

    ghost stops = { StopsThen A.is_at A.stops (λ _. stops_here) };

    ghost one_way = { A.one_way };

    #[inline(always)]
    fn parse_counted(parser: &mut Parser<R>, turns: &mut Turns) -> Result<Self::Value, Malformed> {
        let mut ahead = *parser;
        let value = A::parse_counted(&mut ahead, turns)?;
        let len = padding_len(N, ahead.pos() - parser.pos());
        parse_zeros(&mut ahead, len)?;
        *parser = ahead;
        Ok(value)
    }

    fn fault(parser: &Parser<R>) -> usize {
        end_or_fault::<R, A>(parser)
    }

    #[inline(always)]
    fn least_len() -> usize {
        A::least_len()
    }

    #[inline(always)]
    fn key_of(value: &Self::Value) -> usize {
        A::key_of(value)
    }

    #[inline(always)]
    fn is_canonical() -> bool {
        A::is_canonical()
    }

    #[inline(always)]
    #[tactic(auto, using(crate::specs::Padding::padded_long))]
    fn compose_len(value: &Self::Value) -> Option<usize> {
        let len = A::compose_len(value)?;
        len.checked_add(padding_len(N, len))
    }

    #[inline(always)]
    #[tactic(auto, using(crate::specs::Padding::padded_long))]
    fn put<B: OctetsBuilder + Truncate>(
        builder: &mut B,
        value: &Self::Value,
    ) -> Result<(), AllocError> {
        let before = builder.len();
        A::put(builder, value)?;
        let len = builder.len() - before;
        let appended = put_zeros(builder, padding_len(N, len));
        if appended.is_err() {
            builder.truncate(before);
        }
        appended
    }

    ghost canonical = { λ yes. canonical_padded N A.onward (A.canonical yes) };

    ghost onward = { onward_padded N A.onward };

    ghost read_back = { padded_read_back N (A.delimited refl) };

    ghost delimited = { λ _. delimited_padded N (A.delimited refl) };

    ghost moving = { A.moving };
}
