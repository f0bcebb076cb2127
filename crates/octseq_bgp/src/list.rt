//! Lists that fill a part of a message: values of one format, one after another.
ghost use Rattle.std.specs.Prelude.{◌≡◌, ◌+◌, ◌≤◌, ℕ, List, IsErr, IsNone, IfOk, IfSome};
ghost use Rattle.octseq.specs.Parser.{window};
ghost use Rattle.octseq.specs.Window.{left};
ghost use Rattle.octseq_format.specs.Row.{Holds, Many};
ghost use Rattle.octseq_bgp.specs.Fills.{AreFilled, Counts, Fills, ListStops, TakesFirst};

use octseq::{AsOctets, Malformed, Parser, Turns};
use octseq_format::{Format, Yes};

/// Reads values up to the end of a parser, and counts a turn for each.
fn skip_all<R: AsOctets + Copy, F: Format<R, SelfDelimiting = Yes, NonEmpty = Yes>>(
    parser: &mut Parser<R>,
    turns: &mut Turns,
) -> Result<usize, Malformed>
    ensures all { IfOk result (λ count. (row : List F.Found)
        × Many count F.is_at (window parser.old) row (window parser.new)) }
    ensures ends { IfOk result (λ _. left (window parser.new) ≡ 0) }
    ensures malformed { IsErr result → (row : List F.Found) → ¬ Fills F.is_at (window parser.old) row }
    ensures some { turns.old ≤ turns.new }
    ensures least { IfOk result (λ count. turns.old + count ≤ turns.new) }
    ensures turns { turns.new ≤ turns.old + left (window parser.old) }
{
    let mut count = 0;
    let mut left = parser.remaining();
    'items: while left > 0 {
        turns.tick();
        let _item = F::parse(parser)?;
        left = parser.remaining();
        count += 1;
    }
    Ok(count)
}

/// Returns how many values of a format fill what a parser has left, and counts a turn for each.
///
/// # Errors
///
/// `Malformed` if they don't fill it exactly.
#[inline(always)]
pub(crate) fn count_all<R: AsOctets + Copy, F: Format<R, SelfDelimiting = Yes, NonEmpty = Yes>>(
    parser: Parser<R>,
    turns: &mut Turns,
) -> Result<usize, Malformed>
    ensures counts { Counts F.is_at (window parser) result }
    ensures some { turns.old ≤ turns.new }
    ensures least { IfOk result (λ count. turns.old + count ≤ turns.new) }
    ensures turns { turns.new ≤ turns.old + left (window parser) }
{
    let mut ahead = parser;
    match skip_all::<R, F>(&mut ahead, turns) {
        Ok(count) => Ok(count),
        Err(Malformed) => Err(Malformed),
    }
}

/// Reads the first of the values that are known to be there. Returns it, and a parser past it.
#[inline(always)]
pub(crate) fn take_first<R: AsOctets + Copy, F: Format<R, SelfDelimiting = Yes>>(
    parser: Parser<R>,
    left: usize,
) -> Option<(F::Value, Parser<R>)>
    requires { Holds F.is_at (window parser) left }
    ensures { TakesFirst F.is_at F.found (λ after. window after) (window parser) left result }
{
    if left == 0 {
        return None;
    }
    let mut ahead = parser;
    match F::parse(&mut ahead) {
        Ok(item) => Some((item, ahead)),
        Err(_) => unreachable!(),
    }
}

/// Returns the position of the first value of a format that isn't there, or `None` if values fill what a parser has
/// left.
pub(crate) fn first_fault<R: AsOctets + Copy, F: Format<R, SelfDelimiting = Yes, NonEmpty = Yes>>(
    parser: Parser<R>,
) -> Option<usize>
    ensures stops { IfSome result (λ offset. ListStops F.is_at (window parser) offset) }
    ensures filled { IsNone result → AreFilled F.is_at (window parser) }
{
    let mut ahead = parser;
    'items: while ahead.remaining() > 0 {
        let offset = ahead.pos();
        let Ok(_item) = F::parse(&mut ahead) else {
            return Some(offset);
        };
    }
    None
}
