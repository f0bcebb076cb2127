//! The trait of formats.
ghost use Rattle.std.specs.Prelude.{◌≡◌, ◌≤◌, ◌<◌, ◌↔◌, ◌+◌, ◌*◌, ◌++◌, ℕ, List, length, Bool, true, IsTrue, IsFalse};
ghost use Rattle.std.specs.Prelude.{IsErr, IfOk, OnOk, OnErr, IsNone, IsSome, IfSome};
ghost use Rattle.std.specs.Coded.{Coded};
ghost use Rattle.octseq.specs.Limit.{ExceedsLimit, IsWithin};
ghost use Rattle.octseq.specs.Parser.{window, sequence};
ghost use Rattle.octseq.specs.Refusal.{IsShort, IsMemory, IsMalformed, write_error};
ghost use Rattle.octseq.specs.Window.{Window, left, whole, past};
ghost use Rattle.octseq_format.specs.Canonical.{IsCanonical};
ghost use Rattle.octseq_format.specs.Laws.{Relation, NoneAt, AllHave, IsOne, IsOnward, IsReadBack, IsDelimited};
ghost use Rattle.octseq_format.specs.Laws.{HasOctets};
ghost use Rattle.octseq_format.specs.Stop.{Stop, StopsThen, stops_here, stops_whole};
ghost use Rattle.octseq_format.specs.Turns.{TakesTurns};

use crate::answer::Answer;
use octseq::{
    Array, AsOctets, EmptyBuilder, Malformed, OctetsBuilder, OctetsLimit, Parser, Truncate, Turns,
    WriteError,
};
use std::alloc::{AllocError, Global};

/// How a value is encoded as octets: one type reads and writes it.
pub trait Format<R: AsOctets + Copy> {
    /// The type that is read and written.
    type Value: Drop;

    /// Whether the octets show where a value ends, whatever follows.
    type SelfDelimiting: Answer;

    /// Whether a value is known to take at least one octet.
    type NonEmpty: Answer;

    // What contracts see of a value: what it says, and the offsets where that was found.
    ghost Found: { Type 0 };

    ghost found: { Self.Value → Found };

    // A value is at a window's position, and the second window is past it.
    ghost is_at: { Relation Found };

    // What a value says, wherever it was found.
    ghost Said: { Type 0 };

    ghost says: { Found → Said };

    // The octets that say it.
    ghost octets: { Said → List ℕ };

    // It has octets: its lengths fit their fields.
    ghost fits: { Said → Type 0 };

    // At most one value is at an offset.
    ghost one: { IsOne is_at };

    // Two of them are equal in at most one way.
    ghost found_code: { Coded Found };

    // The minimum number of octets.
    ghost least: { ℕ };

    // The minimum number of loop turns that reading it takes.
    ghost turns_of: { Found → ℕ };

    // The maximum number of turns that any reading takes, without and for each octet that is left.
    ghost base: { ℕ };

    ghost rate: { ℕ };

    // The number that decides what follows, or 0 if none does.
    ghost key: { Said → ℕ };

    // Where reading stops if nothing of the format is there.
    ghost stops: { Stop };

    // Whether its encoding is known to be unique.
    ghost one_way: { Bool };

    /// Reads the value at the parser's position, and counts the loop turns that this takes.
    ///
    /// # Errors
    ///
    /// `Malformed` if there is no value of this format. The parser is then unchanged.
    fn parse_counted(parser: &mut Parser<R>, turns: &mut Turns) -> Result<Self::Value, Malformed>
        ensures value { IfOk result (λ value. is_at (window parser.old) (found value) (window parser.new)) }
        ensures malformed { IsErr result → (other : Found) (end : Window) → ¬ is_at (window parser.old) other end }
        ensures kept { OnErr result (window parser.new ≡ window parser.old) }
        ensures same { sequence parser.new ≡ sequence parser.old }
        ensures end { (window parser.new).end ≡ (window parser.old).end }
        ensures onward { left (window parser.new) ≤ left (window parser.old) }
        ensures counted { IfOk result (λ value. turns.old + turns_of (found value) ≤ turns.new) }
        ensures turns { TakesTurns base rate (left (window parser.old)) turns.old turns.new }
        ensures took { OnOk result (turns.new + rate * left (window parser.new)
            ≤ turns.old + base + rate * left (window parser.old)) };

    /// Returns the position where reading stops, if there is no value of this format: that of the first part that isn't
    /// there.
    fn fault(parser: &Parser<R>) -> usize
        requires { NoneAt is_at (window parser.now) }
        ensures { stops (window parser.now) result };

    /// Returns the minimum number of octets of a value.
    fn least_len() -> usize
        ensures { result ≤ least };

    /// Returns the number that decides what follows, or 0 if none does.
    fn key_of(value: &Self::Value) -> usize
        ensures { result ≡ key (says (found value.now)) };

    /// Whether a value has one encoding only, so that what was read is written as the octets it was read from. Returns
    /// `false` if that isn't known.
    fn is_canonical() -> bool
        ensures { result ≡ one_way };

    /// Returns the number of octets of each value, if all have as many. Returns `None` if that isn't known.
    fn fixed_len() -> Option<usize>
        ensures { IfSome result (λ len. AllHave octets fits len) }
    {
        None
    }

    /// Returns the number of octets that encode a value, or `None` if none do: a length doesn't fit its field, or the
    /// number doesn't fit a `usize`.
    fn compose_len(value: &Self::Value) -> Option<usize>
        ensures some { IfSome result (λ len. len ≡ length (octets (says (found value.now)))) }
        ensures fit { IsSome result → fits (says (found value.now)) }
        ensures none { IsNone result → ¬ HasOctets octets fits (says (found value.now)) };

    /// Appends the octets of a value. The caller has checked that they fit, as [`append`](Self::append) does.
    ///
    /// # Errors
    ///
    /// `AllocError` if a request for memory was refused. The content is then unchanged.
    fn put<B: OctetsBuilder + Truncate>(
        builder: &mut B,
        value: &Self::Value,
    ) -> Result<(), AllocError>
        requires fit { HasOctets octets fits (says (found value.now)) }
        requires within { IsWithin B.limit (length (B.content builder.now) + length (octets (says (found value.now)))) }
        ensures ok { OnOk result (B.content builder.new ≡ B.content builder.old ++ octets (says (found value.now))) }
        ensures err { OnErr result (B.content builder.new ≡ B.content builder.old) }
        ensures memory { IsErr result → B.asks ≡ true }
        ensures borrows { B.borrows builder.new ≡ B.borrows builder.old };

    /// Reads the value at the parser's position.
    ///
    /// # Errors
    ///
    /// `Malformed` if there is no value of this format. The parser is then unchanged.
    #[inline(always)]
    final fn parse(parser: &mut Parser<R>) -> Result<Self::Value, Malformed>
        ensures value { IfOk result (λ value. is_at (window parser.old) (found value) (window parser.new)) }
        ensures malformed { IsErr result → (other : Found) (end : Window) → ¬ is_at (window parser.old) other end }
        ensures kept { OnErr result (window parser.new ≡ window parser.old) }
        ensures same { sequence parser.new ≡ sequence parser.old }
        ensures end { (window parser.new).end ≡ (window parser.old).end }
    {
        Self::parse_counted(parser, &mut Turns::new())
    }

    /// Reads a value from all the octets.
    ///
    /// # Errors
    ///
    /// `Malformed` if they aren't such a value, or octets are left after it.
    #[inline(always)]
    final fn parse_whole(from: R) -> Result<Self::Value, Malformed>
        ensures value { IfOk result (λ value. is_at (whole (R.content from)) (found value)
            (past (length (R.content from)) (whole (R.content from)))) }
        ensures malformed { IsErr result → (other : Found)
            → ¬ is_at (whole (R.content from)) other (past (length (R.content from)) (whole (R.content from))) }
    {
        let mut parser = Parser::from_ref(from);
        let value = Self::parse(&mut parser)?;
        if parser.remaining() > 0 {
            return Err(Malformed);
        }
        Ok(value)
    }

    /// Returns the position where reading all the octets stops, or `None` if they are a value: that of the first part
    /// that isn't there, or of the octets that are left after a value.
    final fn fault_offset(from: R) -> Option<usize>
        ensures some { IfSome result (λ offset. stops_whole is_at stops (whole (R.content from)) offset) }
        ensures none { IsNone result → (value : Found) × is_at (whole (R.content from)) value
            (past (length (R.content from)) (whole (R.content from))) }
    {
        let parser = Parser::from_ref(from);
        let mut ahead = parser;
        let Ok(_value) = Self::parse(&mut ahead) else {
            return Some(Self::fault(&parser));
        };
        if ahead.remaining() > 0 {
            return Some(ahead.pos());
        }
        None
    }

    /// Appends the octets of a value. On an error it appends nothing.
    ///
    /// # Errors
    ///
    /// `Malformed` if no octets say the value: a number doesn't fit its octets, or a field doesn't agree with what it
    /// decides. Otherwise `Short` if the content would exceed the limit of its type. Otherwise `Memory` if a request
    /// for memory was refused. The content is then unchanged.
    #[inline(always)]
    final fn append<B: OctetsBuilder + Truncate>(
        builder: &mut B,
        value: &Self::Value,
    ) -> Result<(), WriteError>
        ensures ok { OnOk result (B.content builder.new ≡ B.content builder.old ++ octets (says (found value.now))) }
        ensures err { OnErr result (B.content builder.new ≡ B.content builder.old) }
        ensures malformed { IsMalformed write_error result ↔ ¬ HasOctets octets fits (says (found value.now)) }
        ensures short { IsShort write_error result ↔ HasOctets octets fits (says (found value.now))
            × ExceedsLimit B.limit (length (B.content builder.old) + length (octets (says (found value.now)))) }
        ensures memory { IsMemory write_error result → B.asks ≡ true }
        ensures borrows { B.borrows builder.new ≡ B.borrows builder.old }
    {
        let Some(len) = Self::compose_len(value) else {
            return Err(WriteError::Malformed);
        };
        if !has_room(builder.max_len(), builder.len(), len) {
            return Err(WriteError::Short);
        }
        match put_at_once::<B, R, Self>(builder, value) {
            Ok(()) => Ok(()),
            Err(_) => Err(WriteError::Memory),
        }
    }

    /// Returns a new builder with the octets of a value.
    ///
    /// # Errors
    ///
    /// `Malformed` if no octets say the value: a number doesn't fit its octets, or a field doesn't agree with what it
    /// decides. Otherwise `Short` if the octets exceed the limit of the builder's type. Otherwise `Memory` if a request
    /// for memory was refused.
    #[inline(always)]
    final fn compose_whole<B: EmptyBuilder + Truncate>(
        alloc: Global,
        value: &Self::Value,
    ) -> Result<B, WriteError>
        ensures ok { IfOk result (λ builder. B.content builder ≡ octets (says (found value.now))) }
        ensures fit { OnOk result (HasOctets octets fits (says (found value.now))) }
        ensures malformed { IsMalformed write_error result ↔ ¬ HasOctets octets fits (says (found value.now)) }
        ensures short { IsShort write_error result ↔ HasOctets octets fits (says (found value.now))
            × ExceedsLimit B.limit (length (octets (says (found value.now)))) }
        ensures memory { IsMemory write_error result → B.asks ≡ true }
    {
        let Some(len) = Self::compose_len(value) else {
            return Err(WriteError::Malformed);
        };
        if !has_room(B::limit(), 0, len) {
            return Err(WriteError::Short);
        }
        let Ok(mut builder) = B::with_capacity(alloc, len) else {
            return Err(WriteError::Memory);
        };
        match put_at_once::<B, R, Self>(&mut builder, value) {
            Ok(()) => Ok(builder),
            Err(_) => Err(WriteError::Memory),
        }
    }

    // If the encoding is unique, what was read is written as the octets it was read from.
    ghost canonical: { IsTrue one_way → IsCanonical is_at says octets fits };

    // What follows is a window on the same octets, no further back and with the same end.
    ghost onward: { IsOnward least is_at };

    // If nothing but its octets is left, it is read back.
    ghost read_back: { IsReadBack is_at says octets fits };

    // If its octets come next, it is read back, where they show where it ends.
    ghost delimited: { IsTrue Self.SelfDelimiting.yes → IsDelimited is_at says octets fits };

    ghost moving: { IsTrue Self.NonEmpty.yes → 0 < least };
}

/// The greatest number of octets that are put together in an array, to be appended at once.
const FEW: usize = 64;

/// Whether all values of a format have as many octets, and not many.
#[inline(always)]
fn are_few<R: AsOctets + Copy, F: Format<R>>() -> bool
    ensures { IsTrue result → (said : F.Said) → F.fits said → length (F.octets said) ≤ 64 }
{
    match F::fixed_len() {
        Some(len) => len <= FEW,
        None => false,
    }
}

/// Appends the octets of a value as [`put`](Format::put) does: at once if it is known that they are few, and the
/// builder has no limit.
#[inline(always)]
pub(crate) fn put_at_once<B: OctetsBuilder + Truncate, R: AsOctets + Copy, F: Format<R>>(
    builder: &mut B,
    value: &F::Value,
) -> Result<(), AllocError>
    requires fit { HasOctets F.octets F.fits (F.says (F.found value.now)) }
    requires within { IsWithin B.limit (length (B.content builder.now)
        + length (F.octets (F.says (F.found value.now)))) }
    ensures ok { OnOk result (B.content builder.new ≡ B.content builder.old ++ F.octets (F.says (F.found value.now))) }
    ensures err { OnErr result (B.content builder.new ≡ B.content builder.old) }
    ensures memory { IsErr result → B.asks ≡ true }
    ensures borrows { B.borrows builder.new ≡ B.borrows builder.old }
{
    if !are_few::<R, F>() || builder.max_len().is_some() {
        return F::put(builder, value);
    }
    let mut few = Array::<FEW>::new();
    F::put(&mut few, value)?;
    builder.append_slice(few.as_slice()).map_err(|_| AllocError)
}

/// Returns the position past a value, or where reading it stops.
#[tactic(auto, using(crate::specs::Stop::at_first, crate::specs::Stop::at_second))]
pub(crate) fn end_or_fault<R: AsOctets + Copy, F: Format<R>>(parser: &Parser<R>) -> usize
    ensures { StopsThen F.is_at F.stops (λ _. stops_here) (window parser.now) result }
{
    let mut ahead = *parser;
    match F::parse(&mut ahead) {
        Err(_) => F::fault(parser),
        Ok(_value) => ahead.pos(),
    }
}

/// Whether `before` octets and `len` more are within a limit. Always, if there is none.
pub(crate) fn has_room(limit: Option<usize>, before: usize, len: usize) -> bool
    ensures within { IsTrue result → IsWithin limit (before + len) }
    ensures past { IsFalse result ↔ ExceedsLimit limit (before + len) }
{
    match limit {
        None => true,
        Some(limit) => before <= limit && len <= limit - before,
    }
}
