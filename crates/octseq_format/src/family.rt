//! Families: a format for each number, its key.
ghost use Rattle.std.specs.Prelude.{
  ◌≡◌,
  ◌≤◌,
  ◌<◌,
  ◌^◌,
  ◌+◌,
  ◌*◌,
  ◌++◌,
  ℕ,
  Bool,
  List,
  length,
  true,
  false,
  IsTrue,
  IsFalse,
};
ghost use Rattle.std.specs.Prelude.{IsErr, IfOk, OnOk, OnErr, IsNone, IsSome, IfSome};
ghost use Rattle.std.specs.Coded.{Coded, coded_ℕ, coded×};
ghost use Rattle.octseq.specs.Limit.{IsWithin};
ghost use Rattle.octseq.specs.Parser.{window, sequence};
ghost use Rattle.octseq.specs.Window.{Window, left};
ghost use Rattle.octseq_format.specs.Answer.{not_so};
ghost use Rattle.octseq_format.specs.Canonical.{IsCanonical, not_one_way};
ghost use Rattle.octseq_format.specs.Family.{ByKey, IsCase, CaseFits, one_case, onward_case, case_read_back};
ghost use Rattle.octseq_format.specs.Family.{delimited_case, IsOther, OtherFits, other_says, one_other, onward_other};
ghost use Rattle.octseq_format.specs.Family.{other_read_back, delimited_other, any_onward};
ghost use Rattle.octseq_format.specs.Stop.{Stop, StopsBy, stops_here};
ghost use Rattle.octseq_format.specs.Laws.{NoneAt, IsOne, IsOnward, IsReadBack, IsDelimited, HasOctets};
ghost use Rattle.octseq_format.specs.Turns.{TakesTurns};

use crate::answer::Answer;
use crate::format::Format;
use octseq::{AsOctets, Malformed, OctetsBuilder, Parser, Truncate, Turns};
use std::alloc::AllocError;
use std::marker::PhantomData;

/// The formats of what follows a number, its key: one for each number.
pub trait Family<R: AsOctets + Copy> {
    /// The type that is read and written.
    type Value: Drop;

    /// Whether the octets show where a value ends, whatever follows.
    type SelfDelimiting: Answer;

    ghost Found: { Type 0 };

    ghost found: { Self.Value → Found };

    // A number has a format.
    ghost covers: { ℕ → Type 0 };

    // A value is at a window's position, after a key.
    ghost is_at: { ByKey Found };

    ghost Said: { Type 0 };

    ghost says: { Found → Said };

    // The number that a value tells, or 0 if it tells none.
    ghost tag: { Said → ℕ };

    // The octets of a value, after a key.
    ghost octets: { ℕ → Said → List ℕ };

    // A value can follow a key, and its lengths fit their fields.
    ghost fits: { ℕ → Said → Type 0 };

    ghost one: { (key : ℕ) → IsOne (is_at key) };

    ghost found_code: { Coded Found };

    ghost turns_of: { Found → ℕ };

    ghost base: { ℕ };

    ghost rate: { ℕ };

    // Where reading stops, after a key, if nothing of its format is there.
    ghost stops: { ℕ → Stop };

    // Whether its encoding, with the number that a value tells, is known to be unique.
    ghost one_way: { Bool };

    /// Whether a number has a format.
    fn has_format(key: usize) -> bool
        ensures yes { IsTrue result → covers key }
        ensures no { IsFalse result → ¬ covers key };

    /// Reads the value at the parser's position, after this key, and counts the loop turns that this takes.
    ///
    /// # Errors
    ///
    /// `Malformed` if there is no value of this format. The parser is then unchanged.
    fn parse_by(
        key: usize,
        parser: &mut Parser<R>,
        turns: &mut Turns,
    ) -> Result<Self::Value, Malformed>
        ensures value { IfOk result (λ value. is_at key (window parser.old) (found value) (window parser.new)) }
        ensures malformed { IsErr result → (other : Found) (end : Window)
            → ¬ is_at key (window parser.old) other end }
        ensures kept { OnErr result (window parser.new ≡ window parser.old) }
        ensures same { sequence parser.new ≡ sequence parser.old }
        ensures end { (window parser.new).end ≡ (window parser.old).end }
        ensures onward { left (window parser.new) ≤ left (window parser.old) }
        ensures counted { IfOk result (λ value. turns.old + turns_of (found value) ≤ turns.new) }
        ensures turns { TakesTurns base rate (left (window parser.old)) turns.old turns.new }
        ensures took { OnOk result (turns.new + rate * left (window parser.new)
            ≤ turns.old + base + rate * left (window parser.old)) };

    /// Returns the position where reading stops, if there is no value of this format after this key: that of the first
    /// part that isn't there.
    fn fault_by(key: usize, parser: &Parser<R>) -> usize
        requires { NoneAt (is_at key) (window parser.now) }
        ensures { stops key (window parser.now) result };

    /// Whether a value has one encoding only, so that what was read is written as the octets it was read from. Returns
    /// `false` if that isn't known.
    fn is_unique() -> bool
        ensures { result ≡ one_way };

    /// Returns the number that a value tells, or `None` if no octets encode the value, or the number doesn't fit a
    /// `usize`.
    fn tag_of(value: &Self::Value) -> Option<usize>
        ensures some { IfSome result (λ number. number ≡ tag (says (found value.now))) }
        ensures none { IsNone result
            → HasOctets (octets (tag (says (found value.now)))) (fits (tag (says (found value.now))))
            (says (found value.now))
            → 2 ^ 64 ≤ tag (says (found value.now)) };

    /// Returns the number that a value tells, and the number of octets that encode the value after it. Returns `None`
    /// if no octets do, or the number doesn't fit a `usize`.
    #[inline(always)]
    fn told_len(value: &Self::Value) -> Option<(usize, usize)>
        ensures number { IfSome result (λ both. both.0 ≡ tag (says (found value.now))) }
        ensures len { IfSome result (λ both.
            both.1 ≡ length (octets (tag (says (found value.now))) (says (found value.now)))) }
        ensures fit { IsSome result → fits (tag (says (found value.now))) (says (found value.now)) }
        ensures none { IsNone result
            → HasOctets (octets (tag (says (found value.now)))) (fits (tag (says (found value.now))))
            (says (found value.now))
            → 2 ^ 64 ≤ tag (says (found value.now)) }
    {
        let number = Self::tag_of(value)?;
        Some((number, Self::len_by(number, value)?))
    }

    /// Returns the number of octets that encode a value after this key, or `None` if none do.
    fn len_by(key: usize, value: &Self::Value) -> Option<usize>
        ensures some { IfSome result (λ len. len ≡ length (octets key (says (found value.now)))) }
        ensures fit { IsSome result → fits key (says (found value.now)) }
        ensures none { IsNone result → ¬ HasOctets (octets key) (fits key) (says (found value.now)) };

    /// Appends the octets of a value after this key. The caller has checked that they fit.
    ///
    /// # Errors
    ///
    /// `AllocError` if a request for memory was refused. The content is then unchanged.
    fn put_by<B: OctetsBuilder + Truncate>(
        key: usize,
        builder: &mut B,
        value: &Self::Value,
    ) -> Result<(), AllocError>
        requires fit { HasOctets (octets key) (fits key) (says (found value.now)) }
        requires within { IsWithin B.limit (length (B.content builder.now)
            + length (octets key (says (found value.now)))) }
        ensures ok { OnOk result (B.content builder.new
            ≡ B.content builder.old ++ octets key (says (found value.now))) }
        ensures err { OnErr result (B.content builder.new ≡ B.content builder.old) }
        ensures memory { IsErr result → B.asks ≡ true }
        ensures borrows { B.borrows builder.new ≡ B.borrows builder.old };

    ghost onward: { (key : ℕ) → IsOnward 0 (is_at key) };

    // If nothing but its octets is left, it is read back.
    ghost read_back: { (key : ℕ) → IsReadBack (is_at key) says (octets key) (fits key) };

    // If its octets come next, it is read back, where they show where it ends.
    ghost delimited: { IsTrue Self.SelfDelimiting.yes
        → (key : ℕ) → IsDelimited (is_at key) says (octets key) (fits key) };

    // If the encoding is unique, what was read is written as the octets it was read from, and tells its number.
    ghost canonical: { IsTrue one_way → (key : ℕ) → IsCanonical (is_at key) says (octets key) (fits key) };

    ghost told: { IsTrue one_way → (key : ℕ) (said : Said) → fits key said → tag said ≡ key };
}

/// Values that tell the number they follow, so that it is no field of its own.
pub trait TellsKey {}

/// `F` if the number is `N`. No other number has a format.
#[derive(Debug)]
pub struct Case<const N: usize, F> {
    inside: PhantomData<F>,
}

impl<const N: usize, F> TellsKey for Case<N, F> {}

impl<R: AsOctets + Copy, const N: usize, F: Format<R>> Family<R> for Case<N, F> {
    type Value = F::Value;

    type SelfDelimiting = F::SelfDelimiting;

    ghost Found = { F.Found };

    ghost found = { F.found };

    ghost covers = { λ key. key ≡ N };

    ghost is_at = { IsCase N F.is_at };

    ghost Said = { F.Said };

    ghost says = { F.says };

    ghost tag = { λ _. N };

    ghost octets = { λ _. F.octets };

    ghost fits = { CaseFits N F.fits };

    ghost one = { one_case N F.is_at F.one };

    ghost found_code = { F.found_code };

    ghost turns_of = { F.turns_of };

    ghost base = { F.base };

    ghost rate = { F.rate };

    ghost stops = { λ key. StopsBy (key ≡ N) F.stops stops_here };

    ghost one_way = { false };

    #[inline(always)]
    fn has_format(key: usize) -> bool {
        key == N
    }

    #[inline(always)]
    fn parse_by(
        key: usize,
        parser: &mut Parser<R>,
        turns: &mut Turns,
    ) -> Result<F::Value, Malformed> {
        if key != N {
            return Err(Malformed);
        }
        F::parse_counted(parser, turns)
    }

    #[tactic(auto, using(crate::specs::Stop::stops_yes, crate::specs::Stop::stops_no, crate::specs::Stop::none_case))]
    fn fault_by(key: usize, parser: &Parser<R>) -> usize {
        if key != N {
            return parser.pos();
        }
        F::fault(parser)
    }

    #[inline(always)]
    fn is_unique() -> bool {
        false
    }

    #[inline(always)]
    fn tag_of(_value: &F::Value) -> Option<usize> {
        Some(N)
    }

    #[inline(always)]
    fn len_by(key: usize, value: &F::Value) -> Option<usize> {
        if key != N {
            return None;
        }
        F::compose_len(value)
    }

    #[inline(always)]
    fn put_by<B: OctetsBuilder + Truncate>(
        _key: usize,
        builder: &mut B,
        value: &F::Value,
    ) -> Result<(), AllocError> {
        F::put(builder, value)
    }

    ghost onward = { onward_case N F.is_at F.onward };

    ghost read_back = { case_read_back F.read_back };

    ghost delimited = { λ yes. delimited_case (F.delimited yes) };

    ghost canonical = { λ yes key. not_one_way yes };

    ghost told = { λ yes key said fits. not_so yes };
}

/// `F` for any number, together with the number.
#[derive(Debug)]
pub struct Others<F> {
    inside: PhantomData<F>,
}

impl<F> TellsKey for Others<F> {}

impl<R: AsOctets + Copy, F: Format<R>> Family<R> for Others<F> {
    type Value = (usize, F::Value);

    type SelfDelimiting = F::SelfDelimiting;

    ghost Found = { ℕ × F.Found };

    ghost found = { λ other. (other.0, F.found other.1) };

    ghost covers = { λ _. Unit {0} };

    ghost is_at = { IsOther F.is_at };

    ghost Said = { ℕ × F.Said };

    ghost says = { other_says F.says };

    ghost tag = { λ said. said.0 };

    ghost octets = { λ _ said. F.octets said.1 };

    ghost fits = { OtherFits F.fits };

    ghost one = { one_other F.is_at F.one };

    ghost found_code = { coded× coded_ℕ F.found_code };

    ghost turns_of = { λ other. F.turns_of other.1 };

    ghost base = { F.base };

    ghost rate = { F.rate };

    ghost stops = { λ _. F.stops };

    ghost one_way = { false };

    #[inline(always)]
    fn has_format(_key: usize) -> bool {
        true
    }

    #[inline(always)]
    fn parse_by(
        key: usize,
        parser: &mut Parser<R>,
        turns: &mut Turns,
    ) -> Result<Self::Value, Malformed> {
        match F::parse_counted(parser, turns) {
            Ok(value) => Ok((key, value)),
            Err(e) => Err(e),
        }
    }

    fn fault_by(_key: usize, parser: &Parser<R>) -> usize {
        F::fault(parser)
    }

    #[inline(always)]
    fn is_unique() -> bool {
        false
    }

    #[inline(always)]
    fn tag_of(value: &Self::Value) -> Option<usize> {
        Some(value.0)
    }

    #[inline(always)]
    fn len_by(key: usize, value: &Self::Value) -> Option<usize> {
        if value.0 != key {
            return None;
        }
        F::compose_len(&value.1)
    }

    #[inline(always)]
    fn put_by<B: OctetsBuilder + Truncate>(
        _key: usize,
        builder: &mut B,
        value: &Self::Value,
    ) -> Result<(), AllocError> {
        F::put(builder, &value.1)
    }

    ghost onward = { onward_other F.is_at F.onward };

    ghost read_back = { other_read_back F.read_back };

    ghost delimited = { λ yes. delimited_other (F.delimited yes) };

    ghost canonical = { λ yes key. not_one_way yes };

    ghost told = { λ yes key said fits. not_so yes };
}

/// `F` for any number, without the number: a head tells it.
#[derive(Debug)]
pub struct Any<F> {
    inside: PhantomData<F>,
}

impl<R: AsOctets + Copy, F: Format<R>> Family<R> for Any<F> {
    type Value = F::Value;

    type SelfDelimiting = F::SelfDelimiting;

    ghost Found = { F.Found };

    ghost found = { F.found };

    ghost covers = { λ _. Unit {0} };

    ghost is_at = { λ _. F.is_at };

    ghost Said = { F.Said };

    ghost says = { F.says };

    ghost tag = { λ _. 0 };

    ghost octets = { λ _. F.octets };

    ghost fits = { λ _. F.fits };

    ghost one = { λ _. F.one };

    ghost found_code = { F.found_code };

    ghost turns_of = { F.turns_of };

    ghost base = { F.base };

    ghost rate = { F.rate };

    ghost stops = { λ _. F.stops };

    ghost one_way = { false };

    #[inline(always)]
    fn has_format(_key: usize) -> bool {
        true
    }

    #[inline(always)]
    fn parse_by(
        _key: usize,
        parser: &mut Parser<R>,
        turns: &mut Turns,
    ) -> Result<F::Value, Malformed> {
        F::parse_counted(parser, turns)
    }

    fn fault_by(_key: usize, parser: &Parser<R>) -> usize {
        F::fault(parser)
    }

    #[inline(always)]
    fn is_unique() -> bool {
        false
    }

    #[inline(always)]
    fn tag_of(_value: &F::Value) -> Option<usize> {
        Some(0)
    }

    #[inline(always)]
    fn len_by(_key: usize, value: &F::Value) -> Option<usize> {
        F::compose_len(value)
    }

    #[inline(always)]
    fn put_by<B: OctetsBuilder + Truncate>(
        _key: usize,
        builder: &mut B,
        value: &F::Value,
    ) -> Result<(), AllocError> {
        F::put(builder, value)
    }

    ghost onward = { λ _. any_onward F.onward };

    ghost read_back = { λ _. F.read_back };

    ghost delimited = { λ yes _. F.delimited yes };

    ghost canonical = { λ yes key. not_one_way yes };

    ghost told = { λ yes key said fits. not_so yes };
}
