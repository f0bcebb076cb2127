//! Rows: values of one format, one after another.
ghost use Rattle.std.specs.Prelude.{◌≡◌, ◌≤◌, ◌<◌, ◌+◌, ◌*◌, ◌++◌, ℕ, List, length, map, true, IsErr, IsNone, IsSome};
ghost use Rattle.std.specs.Prelude.{refl, IfSome, IfOk, OnOk, OnErr};
ghost use Rattle.std.specs.Coded.{coded_list};
ghost use Rattle.std.specs.List.{AllByRecursion};
ghost use Rattle.octseq.specs.Limit.{IsWithin};
ghost use Rattle.octseq.specs.Parser.{window, sequence};
ghost use Rattle.octseq.specs.Parts.{StartsWith};
ghost use Rattle.octseq.specs.Window.{Window, left};
ghost use Rattle.octseq_format.specs.Laws.{HasOctets, NoneAt};
ghost use Rattle.octseq_format.specs.Row.{Many, Row, RowTo, row_octets, row_turns};
ghost use Rattle.octseq_format.specs.Stop.{StopsInRow};
ghost use Rattle.octseq_format.specs.Turns.{TakesTurns};
ghost use Rattle.octseq_format.specs.Walk.{items_left};
ghost use Rattle.octseq_format.specs.Answer.{not_so};

use crate::answer::{No, Yes};
use crate::format::{Format, put_at_once};
use crate::walk::Walk;
use octseq::{AsOctets, Malformed, OctetsBuilder, Parser, Truncate, Turns};
use std::alloc::AllocError;
use std::marker::PhantomData;

/// Reads `count` items.
fn skip_many<R: AsOctets + Copy, F: Format<R, SelfDelimiting = Yes, NonEmpty = Yes>>(
    parser: &mut Parser<R>,
    count: usize,
    turns: &mut Turns,
) -> Result<(), Malformed>
    ensures all { OnOk result ((row : List F.Found) × Many count F.is_at (window parser.old) row (window parser.new)
        × (turns.old + row_turns F.turns_of row ≤ turns.new)) }
    ensures malformed { IsErr result → (row : List F.Found) (v : Window)
        → ¬ Many count F.is_at (window parser.old) row v }
    ensures passed { IsErr result → (row : List F.Found) × Row F.is_at (window parser.old) row (window parser.new) }
    ensures none { IsErr result → NoneAt F.is_at (window parser.new) }
    ensures same { sequence parser.new ≡ sequence parser.old }
    ensures end { (window parser.new).end ≡ (window parser.old).end }
    ensures onward { left (window parser.new) ≤ left (window parser.old) }
    ensures some { turns.old ≤ turns.new }
    ensures most { turns.new ≤ turns.old + (F.base + 1) + (F.base + 1 + F.rate) * left (window parser.old) }
    ensures took { OnOk result (turns.new + (F.base + 1 + F.rate) * left (window parser.new)
        ≤ turns.old + (F.base + 1 + F.rate) * left (window parser.old)) }
{
    for taken in 0..count {
        turns.tick();
        let _item = F::parse_counted(parser, turns)?;
    }
    Ok(())
}

/// Reads `count` items, as a count elsewhere in the message may say, and counts the loop turns that this takes.
///
/// # Errors
///
/// `Malformed` if there are fewer. The parser is then unchanged.
pub fn parse_many<R: AsOctets + Copy, F: Format<R, SelfDelimiting = Yes, NonEmpty = Yes>>(
    parser: &mut Parser<R>,
    count: usize,
    turns: &mut Turns,
) -> Result<Walk<R, F>, Malformed>
    ensures value { IfOk result (λ walk. Many count F.is_at (window parser.old) (items_left walk) (window parser.new)) }
    ensures malformed { IsErr result → (row : List F.Found) (v : Window)
        → ¬ Many count F.is_at (window parser.old) row v }
    ensures kept { OnErr result (window parser.new ≡ window parser.old) }
    ensures same { sequence parser.new ≡ sequence parser.old }
    ensures end { (window parser.new).end ≡ (window parser.old).end }
    ensures onward { left (window parser.new) ≤ left (window parser.old) }
    ensures counted { IfOk result (λ walk. turns.old + row_turns F.turns_of (items_left walk) ≤ turns.new) }
    ensures turns { TakesTurns (F.base + 1) (F.base + 1 + F.rate) (left (window parser.old)) turns.old turns.new }
    ensures took { OnOk result (turns.new + (F.base + 1 + F.rate) * left (window parser.new)
        ≤ turns.old + (F.base + 1 + F.rate) * left (window parser.old)) }
{
    let first = *parser;
    let mut ahead = first;
    skip_many::<R, F>(&mut ahead, count, turns)?;
    *parser = ahead;
    Ok(Walk::at(first, count, ahead.pos()))
}

/// Returns the position where reading as many items stops.
#[tactic(auto, using(crate::specs::Stop::stops_in_row))]
pub(crate) fn fault_in_many<R: AsOctets + Copy, F: Format<R, SelfDelimiting = Yes, NonEmpty = Yes>>(
    parser: &Parser<R>,
    count: usize,
) -> usize
    requires { NoneAt (Many count F.is_at) (window parser.now) }
    ensures { StopsInRow F.is_at F.stops (window parser.now) result }
{
    let mut ahead = *parser;
    match skip_many::<R, F>(&mut ahead, count, &mut Turns::new()) {
        Ok(()) => unreachable!(),
        Err(_) => F::fault(&ahead),
    }
}

/// Reads all items up to the end of the window. Returns how many there are.
fn skip_all<R: AsOctets + Copy, F: Format<R, SelfDelimiting = Yes, NonEmpty = Yes>>(
    parser: &mut Parser<R>,
    turns: &mut Turns,
) -> Result<usize, Malformed>
    ensures all { IfOk result (λ count. (row : List F.Found)
        × Many count F.is_at (window parser.old) row (window parser.new)
        × (turns.old + row_turns F.turns_of row ≤ turns.new)) }
    ensures ends { OnOk result (left (window parser.new) ≡ 0) }
    ensures malformed { IsErr result → (row : List F.Found) (v : Window) → ¬ RowTo F.is_at (window parser.old) row v }
    ensures passed { IsErr result → (row : List F.Found) × Row F.is_at (window parser.old) row (window parser.new) }
    ensures none { IsErr result → NoneAt F.is_at (window parser.new) }
    ensures same { sequence parser.new ≡ sequence parser.old }
    ensures end { (window parser.new).end ≡ (window parser.old).end }
    ensures onward { left (window parser.new) ≤ left (window parser.old) }
    ensures some { turns.old ≤ turns.new }
    ensures most { turns.new ≤ turns.old + (F.base + 1) + (F.base + 1 + F.rate) * left (window parser.old) }
    ensures took { OnOk result (turns.new + (F.base + 1 + F.rate) * left (window parser.new)
        ≤ turns.old + (F.base + 1 + F.rate) * left (window parser.old)) }
{
    let mut count = 0;
    let mut left = parser.remaining();
    'items: while left > 0 {
        turns.tick();
        let _item = F::parse_counted(parser, turns)?;
        left = parser.remaining();
        count += 1;
    }
    Ok(count)
}

/// Returns the number of octets of all the items.
pub(crate) fn items_len<R: AsOctets + Copy, F: Format<R>>(walk: Walk<R, F>) -> Option<usize>
    ensures some { IfSome result (λ len. len ≡ length (row_octets F.octets (map F.says (items_left walk)))) }
    ensures fit { IsSome result → AllByRecursion F.fits (map F.says (items_left walk)) }
    ensures none { IsNone result
        → ¬ HasOctets (row_octets F.octets) (AllByRecursion F.fits) (map F.says (items_left walk)) }
{
    if F::is_canonical() {
        return Some(walk.as_slice().len());
    }
    let mut len = 0_usize;
    for item in walk {
        len = len.checked_add(F::compose_len(&item)?)?;
    }
    Some(len)
}

/// Appends the octets of each item. On an error it may have appended those of some.
pub(crate) fn put_items<B: OctetsBuilder + Truncate, R: AsOctets + Copy, F: Format<R>>(
    builder: &mut B,
    walk: Walk<R, F>,
) -> Result<(), AllocError>
    requires fit { HasOctets (row_octets F.octets) (AllByRecursion F.fits) (map F.says (items_left walk)) }
    requires within { IsWithin B.limit (length (B.content builder.now)
        + length (row_octets F.octets (map F.says (items_left walk)))) }
    ensures ok { OnOk result (B.content builder.new
        ≡ B.content builder.old ++ row_octets F.octets (map F.says (items_left walk))) }
    ensures front { OnErr result (StartsWith (B.content builder.old) (B.content builder.new)) }
    ensures memory { IsErr result → B.asks ≡ true }
    ensures borrows { B.borrows builder.new ≡ B.borrows builder.old }
{
    if F::is_canonical() {
        return builder
            .append_slice(walk.as_slice())
            .map_err(|_| AllocError);
    }
    for item in walk {
        put_at_once::<B, R, F>(builder, &item)?;
    }
    Ok(())
}

/// All items up to the end of the window.
#[derive(Debug)]
pub struct Repeated<F> {
    item: PhantomData<F>,
}

impl<R: AsOctets + Copy, F: Format<R, SelfDelimiting = Yes, NonEmpty = Yes>> Format<R>
    for Repeated<F> {
    ghost use Rattle.octseq_format.specs.Laws.{moving_of};
    ghost use Rattle.octseq_format.specs.Row.{Moved, one_to, one_moved, moving_moved, onward_to};
    ghost use Rattle.octseq_format.specs.Row.{onward_moved, delimited_moved, to_read_back};
    ghost use Rattle.octseq_format.specs.Row.{canonical_moved, canonical_to};

    type Value = Walk<R, F>;

    type SelfDelimiting = No;

    type NonEmpty = No;

    ghost Found = { List F.Found };

    ghost found = { λ walk. items_left walk };

    ghost is_at = { RowTo (Moved F.is_at) };

    ghost Said = { List F.Said };

    ghost says = { map F.says };

    ghost octets = { row_octets F.octets };

    ghost fits = { AllByRecursion F.fits };

    ghost one = { one_to (Moved F.is_at) (one_moved F.one) (moving_moved F.is_at) };

    ghost found_code = { coded_list F.found_code };

    ghost least = { 0 };

    ghost turns_of = { row_turns F.turns_of };

    ghost base = { F.base + 1 };

    ghost rate = { F.base + 1 + F.rate };

    ghost key = { λ _. 0 };

    ghost stops = { StopsInRow F.is_at F.stops };

    #[inline(always)]
    fn parse_counted(parser: &mut Parser<R>, turns: &mut Turns) -> Result<Walk<R, F>, Malformed> {
        let first = *parser;
        let mut ahead = first;
        let count = skip_all::<R, F>(&mut ahead, turns)?;
        *parser = ahead;
        Ok(Walk::at(first, count, ahead.pos()))
    }

    #[tactic(auto, using(crate::specs::Stop::stops_in_row, crate::proofs::RowSteps::not_all))]
    fn fault(parser: &Parser<R>) -> usize {
        let mut ahead = *parser;
        match skip_all::<R, F>(&mut ahead, &mut Turns::new()) {
            Ok(_) => unreachable!(),
            Err(_) => F::fault(&ahead),
        }
    }

    #[inline(always)]
    fn least_len() -> usize {
        0
    }

    #[inline(always)]
    fn key_of(_value: &Self::Value) -> usize {
        0
    }

    #[inline(always)]
    fn is_canonical() -> bool {
        F::is_canonical()
    }

    #[inline(always)]
    fn compose_len(value: &Walk<R, F>) -> Option<usize> {
        items_len(value.iter())
    }

    #[inline(always)]
    fn put<B: OctetsBuilder + Truncate>(
        builder: &mut B,
        value: &Walk<R, F>,
    ) -> Result<(), AllocError> {
        let before = builder.len();
        let appended = put_items(builder, value.iter());
        if appended.is_err() {
            builder.truncate(before);
        }
        appended
    }

    ghost one_way = { F.one_way };

    ghost canonical = { λ yes. canonical_to (canonical_moved (F.canonical yes)) };

    ghost onward = { onward_to (Moved F.is_at) (onward_moved F.onward) };

    ghost read_back = { to_read_back (Moved F.is_at) F.says F.octets F.fits
        (delimited_moved (moving_of F.onward (F.moving refl)) (F.delimited refl)) };

    ghost delimited = { not_so };

    ghost moving = { not_so };
}
