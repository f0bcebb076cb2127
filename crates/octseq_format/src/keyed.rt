//! What a number that was read before decides: a length, a count or a tag somewhere in a head.
ghost use Rattle.std.specs.Prelude.{◌≡◌, ◌+◌, ℕ, false};
ghost use Rattle.std.specs.Coded.{coded×, coded_ℕ};
ghost use Rattle.octseq_format.specs.Canonical.{not_one_way};
ghost use Rattle.octseq_format.specs.Keyed.{KeyThen, keyed_octets, KeyedFit, one_keyed, onward_keyed};
ghost use Rattle.octseq_format.specs.Keyed.{delimited_keyed, keyed_read_back};
ghost use Rattle.octseq_format.specs.Laws.{back_of};
ghost use Rattle.octseq_format.specs.Pair.{both_say};
ghost use Rattle.std.specs.Prelude.{refl};
ghost use Rattle.octseq_format.specs.Stop.{StopsThen, stops_here};

use crate::answer::Yes;
use crate::family::Family;
use crate::format::{Format, put_at_once};
use crate::number::Number;
use octseq::{AsOctets, Malformed, OctetsBuilder, Parser, Truncate, Turns};
use std::alloc::AllocError;
use std::marker::PhantomData;

/// `H`, followed by the value that the family `F` has for the key of `H`.
#[derive(Debug)]
pub struct Keyed<H, F> {
    head: PhantomData<H>,
    family: PhantomData<F>,
}

impl<R: AsOctets + Copy, H: Format<R, SelfDelimiting = Yes>, F: Family<R>> Format<R>
    for Keyed<H, F> {
    type Value = (H::Value, F::Value);

    type SelfDelimiting = F::SelfDelimiting;

    type NonEmpty = H::NonEmpty;

    ghost Found = { H.Found × F.Found };

    ghost found = { λ both. (H.found both.0, F.found both.1) };

    ghost is_at = { KeyThen H.key H.says H.is_at F.is_at };

    ghost Said = { H.Said × F.Said };

    ghost says = { both_say H.says F.says };

    ghost octets = { keyed_octets H.key H.octets F.octets };

    ghost fits = { KeyedFit H.key H.fits F.fits };

    ghost one = { one_keyed H.key H.says H.one F.one };

    ghost found_code = { coded× H.found_code F.found_code };

    ghost least = { H.least };

    ghost turns_of = { λ both. H.turns_of both.0 + F.turns_of both.1 };

    ghost base = { H.base + F.base };

    ghost rate = { H.rate + F.rate };

    ghost key = { λ both. H.key both.0 };

    ghost stops = { StopsThen H.is_at H.stops (λ head. F.stops (H.key (H.says head))) };

    ghost one_way = { false };

    #[inline(always)]
    fn parse_counted(parser: &mut Parser<R>, turns: &mut Turns) -> Result<Self::Value, Malformed> {
        let mut ahead = *parser;
        let head = H::parse_counted(&mut ahead, turns)?;
        let value = F::parse_by(H::key_of(&head), &mut ahead, turns)?;
        *parser = ahead;
        Ok((head, value))
    }

    #[tactic(auto, using(crate::specs::Stop::at_first, crate::specs::Stop::at_second))]
    fn fault(parser: &Parser<R>) -> usize {
        let mut ahead = *parser;
        match H::parse(&mut ahead) {
            Err(_) => H::fault(parser),
            Ok(head) => F::fault_by(H::key_of(&head), &ahead),
        }
    }

    #[inline(always)]
    fn least_len() -> usize {
        H::least_len()
    }

    #[inline(always)]
    #[tactic(auto, unfolding(crate::specs::Pair::both_say))]
    fn key_of(value: &Self::Value) -> usize {
        H::key_of(&value.0)
    }

    #[inline(always)]
    fn is_canonical() -> bool {
        false
    }

    #[inline(always)]
    #[tactic(auto, unfolding(crate::specs::Keyed::keyed_octets, crate::specs::Pair::both_say))]
    fn compose_len(value: &Self::Value) -> Option<usize> {
        H::compose_len(&value.0)?.checked_add(F::len_by(H::key_of(&value.0), &value.1)?)
    }

    #[inline(always)]
    #[tactic(auto, unfolding(crate::specs::Keyed::keyed_octets, crate::specs::Pair::both_say))]
    fn put<B: OctetsBuilder + Truncate>(
        builder: &mut B,
        value: &Self::Value,
    ) -> Result<(), AllocError> {
        let before = builder.len();
        put_at_once::<B, R, H>(builder, &value.0)?;
        let appended = F::put_by(H::key_of(&value.0), builder, &value.1);
        if appended.is_err() {
            builder.truncate(before);
        }
        appended
    }

    ghost onward = { onward_keyed H.key H.says H.onward F.onward };

    ghost read_back = { keyed_read_back H.key H.says (H.delimited refl) F.read_back };

    ghost delimited = { λ yes. delimited_keyed H.key H.says (H.delimited refl) (F.delimited yes) };

    ghost moving = { H.moving };

    ghost canonical = { not_one_way };
}

/// What a key says: a function of the number that was read.
pub trait Reckoning {
    ghost of: { ℕ → ℕ };

    /// Returns what a number says.
    fn of(number: usize) -> usize
        ensures { result ≡ of number };
}

/// The number itself.
#[derive(Debug)]
pub struct Itself;

impl Reckoning for Itself {
    ghost of = { λ number. number };

    #[inline(always)]
    fn of(number: usize) -> usize {
        number
    }
}

/// A number that decides what follows, as `K` reckons. The key of a tuple is the sum of those of its parts.
#[derive(Debug)]
pub struct Key<N, K> {
    number: PhantomData<N>,
    reckoning: PhantomData<K>,
}

impl<R: AsOctets + Copy, N: Number, K: Reckoning> Format<R> for Key<N, K> {
    type Value = usize;

    type SelfDelimiting = Yes;

    type NonEmpty = Yes;

    ghost Found = { ℕ };

    ghost found = { λ number. number };

    ghost is_at = { N.is_at };

    ghost Said = { ℕ };

    ghost says = { λ number. number };

    ghost octets = { N.octets };

    ghost fits = { N.fits };

    ghost one = { N.one };

    ghost found_code = { coded_ℕ };

    ghost least = { N.least };

    ghost turns_of = { λ _. 0 };

    ghost base = { 0 };

    ghost rate = { 0 };

    ghost key = { K.of };

    ghost stops = { stops_here };

    ghost one_way = { N.one_way };

    #[inline(always)]
    fn parse_counted(parser: &mut Parser<R>, _turns: &mut Turns) -> Result<usize, Malformed> {
        N::parse_number(parser)
    }

    fn fault(parser: &Parser<R>) -> usize {
        parser.pos()
    }

    #[inline(always)]
    fn least_len() -> usize {
        N::least_octets()
    }

    #[inline(always)]
    fn key_of(value: &usize) -> usize {
        K::of(*value)
    }

    #[inline(always)]
    fn is_canonical() -> bool {
        N::is_unique()
    }

    #[inline(always)]
    fn fixed_len() -> Option<usize> {
        N::fixed_octets()
    }

    #[inline(always)]
    fn compose_len(value: &usize) -> Option<usize> {
        N::number_len(*value)
    }

    #[inline(always)]
    fn put<B: OctetsBuilder + Truncate>(builder: &mut B, value: &usize) -> Result<(), AllocError> {
        N::put_number(builder, *value)
    }

    ghost onward = { N.onward };

    ghost read_back = { back_of N.delimited };

    ghost delimited = { λ _. N.delimited };

    ghost moving = { λ _. N.moving };

    ghost canonical = { N.canonical };
}
