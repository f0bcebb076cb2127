//! As many octets, or as many values, as a number says.
ghost use Rattle.std.specs.Prelude.{◌+◌, length, List, map};
ghost use Rattle.std.specs.Coded.{coded_list};
ghost use Rattle.octseq_format.specs.Family.{IsSized, sized_number, SizedFit, one_sized, onward_sized, sized_read_back};
ghost use Rattle.octseq_format.specs.Family.{delimited_sized, canonical_sized, ManyFit, one_many_by, onward_many};
ghost use Rattle.octseq_format.specs.Family.{many_read_back, delimited_many, canonical_many};
ghost use Rattle.octseq_format.specs.Row.{Many, row_octets, row_turns};
ghost use Rattle.octseq_format.specs.Stop.{StopsInRow, stops_sized};
ghost use Rattle.octseq_format.specs.Walk.{items_left};
ghost use Rattle.std.specs.Prelude.{refl};

use crate::answer::Yes;
use crate::family::{Family, TellsKey};
use crate::format::{Format, end_or_fault};
use crate::rows::{fault_in_many, items_len, parse_many, put_items};
use crate::tagged::Tagged;
use crate::walk::Walk;
use octseq::{AsOctets, Malformed, OctetsBuilder, Parser, Truncate, Turns};
use std::alloc::AllocError;
use std::marker::PhantomData;

/// A length `L`, followed by `A`, which takes all the octets that the length counts. The length includes `EXTRA` more
/// octets: fields before the length, and the length itself.
pub type Counted<L, A, const EXTRA: usize> = Tagged<L, Sized<A, EXTRA>>;

/// A count `N`, followed by that many `A`.
pub type Times<N, A> = Tagged<N, ManyBy<A>>;

/// `A` in as many octets as the number says, less the `EXTRA` that it counts too.
#[derive(Debug)]
pub struct Sized<A, const EXTRA: usize> {
    inside: PhantomData<A>,
}

impl<A, const EXTRA: usize> TellsKey for Sized<A, EXTRA> {}

impl<R: AsOctets + Copy, A: Format<R>, const EXTRA: usize> Family<R> for Sized<A, EXTRA> {
    type Value = A::Value;

    type SelfDelimiting = Yes;

    ghost Found = { A.Found };

    ghost found = { A.found };

    ghost covers = { λ _. Unit {0} };

    ghost is_at = { IsSized EXTRA A.is_at };

    ghost Said = { A.Said };

    ghost says = { A.says };

    ghost tag = { sized_number EXTRA A.octets };

    ghost octets = { λ _. A.octets };

    ghost fits = { SizedFit EXTRA A.octets A.fits };

    ghost one = { one_sized A.one };

    ghost found_code = { A.found_code };

    ghost turns_of = { A.turns_of };

    ghost base = { A.base };

    ghost rate = { A.rate };

    ghost stops = { stops_sized EXTRA A.is_at A.stops };

    ghost one_way = { A.one_way };

    #[inline(always)]
    fn has_format(_key: usize) -> bool {
        true
    }

    #[inline(always)]
    fn parse_by(
        key: usize,
        parser: &mut Parser<R>,
        turns: &mut Turns,
    ) -> Result<A::Value, Malformed> {
        if key < EXTRA {
            return Err(Malformed);
        }
        let mut ahead = *parser;
        let mut inside = ahead.parse_parser(key - EXTRA)?;
        let value = A::parse_counted(&mut inside, turns)?;
        if inside.remaining() > 0 {
            return Err(Malformed);
        }
        *parser = ahead;
        Ok(value)
    }

    fn fault_by(key: usize, parser: &Parser<R>) -> usize {
        if key < EXTRA {
            return parser.pos();
        }
        let mut ahead = *parser;
        match ahead.parse_parser(key - EXTRA) {
            Err(_) => parser.pos(),
            Ok(inside) => end_or_fault::<R, A>(&inside),
        }
    }

    #[inline(always)]
    fn is_unique() -> bool {
        A::is_canonical()
    }

    #[inline(always)]
    fn tag_of(value: &A::Value) -> Option<usize> {
        A::compose_len(value)?.checked_add(EXTRA)
    }

    #[inline(always)]
    fn told_len(value: &A::Value) -> Option<(usize, usize)> {
        let len = A::compose_len(value)?;
        Some((len.checked_add(EXTRA)?, len))
    }

    #[inline(always)]
    fn len_by(key: usize, value: &A::Value) -> Option<usize> {
        let len = A::compose_len(value)?;
        if key < EXTRA || key - EXTRA != len {
            return None;
        }
        Some(len)
    }

    #[inline(always)]
    fn put_by<B: OctetsBuilder + Truncate>(
        _key: usize,
        builder: &mut B,
        value: &A::Value,
    ) -> Result<(), AllocError> {
        A::put(builder, value)
    }

    ghost onward = { onward_sized EXTRA A.is_at };

    ghost read_back = { sized_read_back A.read_back };

    ghost delimited = { λ _. delimited_sized A.read_back };

    ghost canonical = { λ yes. canonical_sized (A.canonical yes) };

    ghost told = { λ yes key said fits. fits.many };
}

/// As many `A` as the number says.
#[derive(Debug)]
pub struct ManyBy<A> {
    item: PhantomData<A>,
}

impl<A> TellsKey for ManyBy<A> {}

impl<R: AsOctets + Copy, A: Format<R, SelfDelimiting = Yes, NonEmpty = Yes>> Family<R>
    for ManyBy<A> {
    type Value = Walk<R, A>;

    type SelfDelimiting = Yes;

    ghost Found = { List A.Found };

    ghost found = { λ walk. items_left walk };

    ghost covers = { λ _. Unit {0} };

    ghost is_at = { λ n. Many n A.is_at };

    ghost Said = { List A.Said };

    ghost says = { map A.says };

    ghost tag = { length };

    ghost octets = { λ _. row_octets A.octets };

    ghost fits = { ManyFit A.fits };

    ghost one = { one_many_by A.is_at A.one };

    ghost found_code = { coded_list A.found_code };

    ghost turns_of = { row_turns A.turns_of };

    ghost base = { A.base + 1 };

    ghost rate = { A.base + 1 + A.rate };

    ghost stops = { λ _. StopsInRow A.is_at A.stops };

    ghost one_way = { A.one_way };

    #[inline(always)]
    fn has_format(_key: usize) -> bool {
        true
    }

    #[inline(always)]
    fn parse_by(
        key: usize,
        parser: &mut Parser<R>,
        turns: &mut Turns,
    ) -> Result<Walk<R, A>, Malformed> {
        parse_many(parser, key, turns)
    }

    fn fault_by(key: usize, parser: &Parser<R>) -> usize {
        fault_in_many::<R, A>(parser, key)
    }

    #[inline(always)]
    fn is_unique() -> bool {
        A::is_canonical()
    }

    #[inline(always)]
    #[tactic(auto, using(std::proofs::lemmas::Grind::common_steps))]
    fn tag_of(value: &Walk<R, A>) -> Option<usize> {
        Some(value.len())
    }

    #[inline(always)]
    #[tactic(auto, using(std::proofs::lemmas::Grind::common_steps))]
    fn len_by(key: usize, value: &Walk<R, A>) -> Option<usize> {
        if value.len() != key {
            return None;
        }
        items_len(value.iter())
    }

    #[inline(always)]
    fn put_by<B: OctetsBuilder + Truncate>(
        _key: usize,
        builder: &mut B,
        value: &Walk<R, A>,
    ) -> Result<(), AllocError> {
        let before = builder.len();
        let appended = put_items(builder, value.iter());
        if appended.is_err() {
            builder.truncate(before);
        }
        appended
    }

    ghost onward = { onward_many A.is_at A.onward };

    ghost read_back = { many_read_back (A.delimited refl) };

    ghost delimited = { λ _. delimited_many (A.delimited refl) };

    ghost canonical = { λ yes. canonical_many (A.canonical yes) };

    ghost told = { λ yes key said fits. fits.many };
}
