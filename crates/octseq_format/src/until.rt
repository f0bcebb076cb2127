//! Items up to a tag that ends them.
ghost use Rattle.std.specs.Prelude.{◌≡◌, ◌≤◌, ◌+◌, ◌*◌, List, map, refl, ◌&&◌};
ghost use Rattle.std.specs.Prelude.{IsErr, IfOk, OnOk, OnErr};
ghost use Rattle.std.specs.Coded.{coded_list};
ghost use Rattle.octseq.specs.Parser.{window, sequence};
ghost use Rattle.octseq.specs.Window.{Window, left};
ghost use Rattle.octseq_format.specs.Family.{IsWhen, WhenFits, one_when, onward_when};
ghost use Rattle.octseq_format.specs.Family.{when_read_back, delimited_when};
ghost use Rattle.octseq_format.specs.Laws.{NoneAt};
ghost use Rattle.octseq_format.specs.Optional.{optional_says, optional_turns};
ghost use Rattle.octseq_format.specs.Row.{Many, Row, row_turns};
ghost use Rattle.octseq_format.specs.Stop.{StopsThen, StopsBy, StopsInRow, stops_here};
ghost use Rattle.octseq_format.specs.Turns.{TakesTurns};
ghost use Rattle.octseq_format.specs.Until.{IsNot, IsItem, IsNextItem, IsUntil, until_octets};
ghost use Rattle.octseq_format.specs.Until.{UntilFits, one_until, onward_until};
ghost use Rattle.octseq_format.specs.Until.{until_read_back, delimited_until};
ghost use Rattle.octseq_format.specs.Until.{canonical_unless, canonical_ended};
ghost use Rattle.octseq_format.specs.Walk.{items_left};

use crate::answer::Yes;
use crate::family::{Family, TellsKey};
use crate::format::Format;
use crate::number::Number;
use crate::rows::{items_len, put_items};
use crate::tagged::Tagged;
use crate::walk::Walk;
use octseq::{AsOctets, Malformed, OctetsBuilder, Parser, Truncate, Turns};
use std::alloc::AllocError;
use std::marker::PhantomData;

/// `F` for each number but `N`, which has no format.
#[derive(Debug)]
pub struct Unless<const N: usize, F> {
    family: PhantomData<F>,
}

impl<const N: usize, F: TellsKey> TellsKey for Unless<N, F> {}

impl<R: AsOctets + Copy, const N: usize, F: Family<R>> Family<R> for Unless<N, F> {
    type Value = F::Value;

    type SelfDelimiting = F::SelfDelimiting;

    ghost Found = { F.Found };

    ghost found = { F.found };

    ghost covers = { λ key. IsNot N key × F.covers key };

    ghost is_at = { IsWhen (IsNot N) F.is_at };

    ghost Said = { F.Said };

    ghost says = { F.says };

    ghost tag = { F.tag };

    ghost octets = { F.octets };

    ghost fits = { WhenFits (IsNot N) F.fits };

    ghost one = { one_when (IsNot N) F.one };

    ghost found_code = { F.found_code };

    ghost turns_of = { F.turns_of };

    ghost base = { F.base };

    ghost rate = { F.rate };

    ghost stops = { λ key. StopsBy (IsNot N key) (F.stops key) stops_here };

    ghost one_way = { F.one_way };

    #[inline(always)]
    fn has_format(key: usize) -> bool {
        key != N && F::has_format(key)
    }

    #[inline(always)]
    fn parse_by(
        key: usize,
        parser: &mut Parser<R>,
        turns: &mut Turns,
    ) -> Result<Self::Value, Malformed> {
        if key == N {
            return Err(Malformed);
        }
        F::parse_by(key, parser, turns)
    }

    #[tactic(auto, using(crate::specs::Stop::stops_yes, crate::specs::Stop::stops_no, crate::specs::Stop::none_when))]
    fn fault_by(key: usize, parser: &Parser<R>) -> usize {
        if key == N {
            return parser.pos();
        }
        F::fault_by(key, parser)
    }

    #[inline(always)]
    fn is_unique() -> bool {
        F::is_unique()
    }

    #[inline(always)]
    fn tag_of(value: &Self::Value) -> Option<usize> {
        F::tag_of(value)
    }

    #[inline(always)]
    fn len_by(key: usize, value: &Self::Value) -> Option<usize> {
        if key == N {
            return None;
        }
        F::len_by(key, value)
    }

    #[inline(always)]
    fn put_by<B: OctetsBuilder + Truncate>(
        key: usize,
        builder: &mut B,
        value: &Self::Value,
    ) -> Result<(), AllocError> {
        F::put_by(key, builder, value)
    }

    ghost onward = { onward_when (IsNot N) F.onward };

    ghost read_back = { when_read_back (IsNot N) F.read_back };

    ghost delimited = { λ yes. delimited_when (IsNot N) (F.delimited yes) };

    ghost canonical = { λ yes. canonical_unless N (F.canonical yes) };

    ghost told = { λ yes key said fits. F.told yes key said fits.0 };
}

/// Reads an item, or the tag that ends them.
#[inline(always)]
fn next_item<
    R: AsOctets + Copy,
    N: Number,
    const END: usize,
    F: Family<R, SelfDelimiting = Yes> + TellsKey,
>(parser: &mut Parser<R>, turns: &mut Turns) -> Result<Option<F::Value>, Malformed>
    ensures value { IfOk result (λ next. IsNextItem END N.is_at F.is_at (window parser.old)
        (optional_says F.found next) (window parser.new)) }
    ensures malformed { IsErr result → NoneAt (IsNextItem END N.is_at F.is_at) (window parser.old) }
    ensures kept { OnErr result (window parser.new ≡ window parser.old) }
    ensures same { sequence parser.new ≡ sequence parser.old }
    ensures end { (window parser.new).end ≡ (window parser.old).end }
    ensures onward { left (window parser.new) ≤ left (window parser.old) }
    ensures counted { IfOk result (λ next.
        turns.old + optional_turns F.turns_of (optional_says F.found next) ≤ turns.new) }
    ensures turns { TakesTurns F.base F.rate (left (window parser.old)) turns.old turns.new }
    ensures took { OnOk result (turns.new + F.rate * left (window parser.new)
        ≤ turns.old + F.base + F.rate * left (window parser.old)) }
{
    let mut ahead = *parser;
    let tag = N::parse_number(&mut ahead)?;
    if tag == END {
        *parser = ahead;
        return Ok(None);
    }
    let item = F::parse_by(tag, &mut ahead, turns)?;
    *parser = ahead;
    Ok(Some(item))
}

/// Returns the position where reading an item stops.
#[inline(always)]
#[tactic(auto, using(crate::specs::Stop::at_first, crate::specs::Stop::at_second))]
fn fault_of_item<
    R: AsOctets + Copy,
    N: Number,
    const END: usize,
    F: Family<R, SelfDelimiting = Yes> + TellsKey,
>(parser: &Parser<R>) -> usize
    requires { NoneAt (IsNextItem END N.is_at F.is_at) (window parser.now) }
    ensures { StopsThen N.is_at stops_here F.stops (window parser.now) result }
{
    let mut ahead = *parser;
    match N::parse_number(&mut ahead) {
        Err(_) => parser.pos(),
        Ok(number) => F::fault_by(number, &ahead),
    }
}

/// Reads all items and the tag that ends them. Returns how many items there are, and the position
/// after the last one.
fn skip_until<
    R: AsOctets + Copy,
    N: Number,
    const END: usize,
    F: Family<R, SelfDelimiting = Yes> + TellsKey,
>(parser: &mut Parser<R>, turns: &mut Turns) -> Result<(usize, usize), Malformed>
    ensures all { IfOk result (λ passed. (row : List F.Found) × (u : Window)
        × Many passed.0 (IsItem END N.is_at F.is_at) (window parser.old) row u
        × (u.position ≡ passed.1) × N.is_at u END (window parser.new)
        × (turns.old + row_turns F.turns_of row ≤ turns.new)) }
    ensures malformed { IsErr result → NoneAt (IsUntil END N.is_at F.is_at) (window parser.old) }
    ensures passed { IsErr result → (row : List F.Found)
        × Row (IsItem END N.is_at F.is_at) (window parser.old) row (window parser.new) }
    ensures none { IsErr result → NoneAt (IsNextItem END N.is_at F.is_at) (window parser.new) }
    ensures same { sequence parser.new ≡ sequence parser.old }
    ensures end { (window parser.new).end ≡ (window parser.old).end }
    ensures onward { left (window parser.new) ≤ left (window parser.old) }
    ensures turns { TakesTurns (F.base + 1) (F.base + 1 + F.rate) (left (window parser.old))
        turns.old turns.new }
    ensures took { OnOk result (turns.new + (F.base + 1 + F.rate) * left (window parser.new)
        ≤ turns.old + (F.base + 1 + F.rate) * left (window parser.old)) }
{
    let mut count = 0;
    let mut end = parser.pos();
    'items: loop {
        turns.tick();
        let Some(_item) = next_item::<R, N, END, F>(parser, turns)? else {
            return Ok((count, end));
        };
        end = parser.pos();
        count += 1;
    }
}

/// Items, each `F` after its tag, up to the tag `END`, which takes no value and is no item. `N`
/// encodes the tags.
#[derive(Debug)]
pub struct Until<N, const END: usize, F> {
    number: PhantomData<N>,
    family: PhantomData<F>,
}

impl<
    R: AsOctets + Copy,
    N: Number,
    const END: usize,
    F: Family<R, SelfDelimiting = Yes> + TellsKey,
> Format<R> for Until<N, END, F> {
    type Value = Walk<R, Tagged<N, Unless<END, F>>>;

    type SelfDelimiting = Yes;

    type NonEmpty = Yes;

    ghost Found = { List F.Found };

    ghost found = { λ walk. items_left walk };

    ghost is_at = { IsUntil END N.is_at F.is_at };

    ghost Said = { List F.Said };

    ghost says = { map F.says };

    ghost octets = { until_octets END N.octets F.tag F.octets };

    ghost fits = { UntilFits END N.fits F.tag F.fits };

    ghost one = { one_until END F.is_at N.one F.one };

    ghost found_code = { coded_list F.found_code };

    ghost least = { N.least };

    ghost turns_of = { row_turns F.turns_of };

    ghost base = { F.base + 1 };

    ghost rate = { F.base + 1 + F.rate };

    ghost key = { λ _. 0 };

    ghost stops = { StopsInRow (IsItem END N.is_at F.is_at) (StopsThen N.is_at stops_here F.stops) };

    ghost one_way = { N.one_way && F.one_way };

    #[inline(always)]
    fn parse_counted(parser: &mut Parser<R>, turns: &mut Turns) -> Result<Self::Value, Malformed> {
        let first = *parser;
        let mut ahead = first;
        let passed = skip_until::<R, N, END, F>(&mut ahead, turns)?;
        *parser = ahead;
        Ok(Walk::at(first, passed.0, passed.1))
    }

    #[tactic(auto, using(crate::specs::Stop::stops_in_row))]
    fn fault(parser: &Parser<R>) -> usize {
        let mut ahead = *parser;
        match skip_until::<R, N, END, F>(&mut ahead, &mut Turns::new()) {
            Ok(_) => unreachable!(),
            Err(_) => fault_of_item::<R, N, END, F>(&ahead),
        }
    }

    #[inline(always)]
    fn least_len() -> usize {
        N::least_octets()
    }

    #[inline(always)]
    fn key_of(_value: &Self::Value) -> usize {
        0
    }

    #[inline(always)]
    fn is_canonical() -> bool {
        N::is_unique() && F::is_unique()
    }

    #[inline(always)]
    #[tactic(auto, using(crate::specs::Tagged::tagged_long))]
    fn compose_len(value: &Self::Value) -> Option<usize> {
        items_len(value.iter())?.checked_add(N::number_len(END)?)
    }

    #[inline(always)]
    #[tactic(auto, using(crate::specs::Tagged::tagged_long))]
    fn put<B: OctetsBuilder + Truncate>(
        builder: &mut B,
        value: &Self::Value,
    ) -> Result<(), AllocError> {
        let before = builder.len();
        let items = put_items(builder, value.iter());
        if items.is_err() {
            builder.truncate(before);
            return items;
        }
        let ended = N::put_number(builder, END);
        if ended.is_err() {
            builder.truncate(before);
        }
        ended
    }

    ghost canonical = { canonical_ended END N.canonical F.canonical F.told };

    ghost onward = { onward_until END N.onward F.onward };

    ghost read_back = { until_read_back END N.delimited (F.delimited refl) };

    ghost delimited = { λ _. delimited_until END N.delimited (F.delimited refl) };

    ghost moving = { λ _. N.moving };
}
