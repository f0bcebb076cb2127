//! A value that is there only if the key says so.
ghost use Rattle.std.specs.Prelude.{◌≡◌, Option, IsTrue, false, nat_eq};
ghost use Rattle.std.specs.Coded.{coded_option};
ghost use Rattle.octseq_format.specs.Answer.{not_so};
ghost use Rattle.octseq_format.specs.Canonical.{not_one_way};
ghost use Rattle.octseq_format.specs.Conditional.{IsIf, IfFits, one_if, onward_if, if_read_back};
ghost use Rattle.octseq_format.specs.Conditional.{delimited_if, told_if};
ghost use Rattle.octseq_format.specs.Optional.{optional_says, optional_octets, optional_turns};
ghost use Rattle.octseq_format.specs.Stop.{StopsBy, stops_here};

use crate::families::Switch;
use crate::family::{Family, TellsKey};
use crate::format::Format;
use octseq::{AsOctets, Malformed, OctetsBuilder, Parser, Truncate, Turns};
use std::alloc::AllocError;
use std::marker::PhantomData;

/// `F` if the key answers `S` with yes, otherwise nothing. A value where the answer is no, or none where it is yes, has
/// no octets. `If<IsSet, F>` tells its key, one bit.
#[derive(Debug)]
pub struct If<S, F> {
    switch: PhantomData<S>,
    inside: PhantomData<F>,
}

/// Whether a number is 1: of one bit, whether it is set.
#[derive(Debug)]
pub struct IsSet;

impl Switch for IsSet {
    ghost on = { λ number. nat_eq number 1 };

    #[inline(always)]
    fn is_on(number: usize) -> bool {
        number == 1
    }
}

impl<F> TellsKey for If<IsSet, F> {}

impl<R: AsOctets + Copy, S: Switch, F: Format<R>> Family<R> for If<S, F> {
    type Value = Option<F::Value>;

    type SelfDelimiting = F::SelfDelimiting;

    ghost Found = { Option F.Found };

    ghost found = { optional_says F.found };

    ghost covers = { λ _. Unit {0} };

    ghost is_at = { IsIf S.on F.is_at };

    ghost Said = { Option F.Said };

    ghost says = { optional_says F.says };

    ghost tag = { told_if };

    ghost octets = { λ _. optional_octets F.octets };

    ghost fits = { IfFits S.on F.fits };

    ghost one = { one_if S.on F.is_at F.one };

    ghost found_code = { coded_option F.found_code };

    ghost turns_of = { optional_turns F.turns_of };

    ghost base = { F.base };

    ghost rate = { F.rate };

    ghost stops = { λ key. StopsBy (IsTrue (S.on key)) F.stops stops_here };

    ghost one_way = { false };

    #[inline(always)]
    fn has_format(_key: usize) -> bool {
        true
    }

    #[inline(always)]
    fn parse_by(
        key: usize,
        parser: &mut Parser<R>,
        turns: &mut Turns,
    ) -> Result<Self::Value, Malformed> {
        if !S::is_on(key) {
            return Ok(None);
        }
        match F::parse_counted(parser, turns) {
            Ok(value) => Ok(Some(value)),
            Err(e) => Err(e),
        }
    }

    #[tactic(auto, using(crate::specs::Stop::stops_yes, crate::specs::Stop::stops_no))]
    fn fault_by(key: usize, parser: &Parser<R>) -> usize {
        if S::is_on(key) {
            F::fault(parser)
        } else {
            parser.pos()
        }
    }

    #[inline(always)]
    fn is_unique() -> bool {
        false
    }

    #[inline(always)]
    fn tag_of(value: &Self::Value) -> Option<usize> {
        match value {
            None => Some(0),
            Some(_) => Some(1),
        }
    }

    #[inline(always)]
    fn len_by(key: usize, value: &Self::Value) -> Option<usize> {
        match value {
            None if S::is_on(key) => None,
            None => Some(0),
            Some(inside) if S::is_on(key) => F::compose_len(inside),
            Some(_) => None,
        }
    }

    #[inline(always)]
    fn put_by<B: OctetsBuilder + Truncate>(
        _key: usize,
        builder: &mut B,
        value: &Self::Value,
    ) -> Result<(), AllocError> {
        match value {
            None => Ok(()),
            Some(inside) => F::put(builder, inside),
        }
    }

    ghost onward = { onward_if S.on F.is_at F.onward };

    ghost read_back = { if_read_back S.on F.read_back };

    ghost delimited = { λ yes. delimited_if S.on (F.delimited yes) };

    ghost canonical = { λ yes key. not_one_way yes };

    ghost told = { λ yes key said fits. not_so yes };
}
