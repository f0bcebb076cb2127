//! Numbers as octets: lengths, counts, tags and keys.
ghost use Rattle.std.specs.Prelude.{
  ◌≡◌,
  ◌≤◌,
  ◌<◌,
  ◌^◌,
  ◌+◌,
  ◌%◌,
  ◌++◌,
  ℕ,
  Bool,
  List,
  length,
  true,
  IsTrue,
  IsErr,
  IfOk,
  OnOk,
  OnErr,
};
ghost use Rattle.std.specs.Prelude.{IsNone, IsSome, IfSome};
ghost use Rattle.octseq.specs.Limit.{IsWithin};
ghost use Rattle.octseq.specs.Parser.{window, sequence};
ghost use Rattle.octseq.specs.Window.{left};
ghost use Rattle.octseq_format.specs.Canonical.{IsCanonical};
ghost use Rattle.octseq_format.specs.Laws.{Relation, NoneAt, AllHave, IsOne, IsOnward, IsDelimited};

use octseq::{AsOctets, Malformed, OctetsBuilder, Parser};
use std::alloc::AllocError;

/// A way to encode a number as octets: a length, a count, a tag or a key.
pub trait Number {
    // A number is at a window's position.
    ghost is_at: { Relation ℕ };

    // The octets that say a number, in the shortest way.
    ghost octets: { ℕ → List ℕ };

    ghost fits: { ℕ → Type 0 };

    // At most one number is at an offset.
    ghost one: { IsOne is_at };

    // The minimum number of octets.
    ghost least: { ℕ };

    // Whether its encoding is known to be unique.
    ghost one_way: { Bool };

    /// Reads the number at the parser's position.
    ///
    /// # Errors
    ///
    /// `Malformed` if there is none that fits a `usize`. The parser is then unchanged.
    fn parse_number<R: AsOctets>(parser: &mut Parser<R>) -> Result<usize, Malformed>
        ensures value { IfOk result (λ number. is_at (window parser.old) number (window parser.new)) }
        ensures malformed { IsErr result → NoneAt is_at (window parser.old) }
        ensures kept { OnErr result (window parser.new ≡ window parser.old) }
        ensures same { sequence parser.new ≡ sequence parser.old }
        ensures end { (window parser.new).end ≡ (window parser.old).end }
        ensures onward { left (window parser.new) ≤ left (window parser.old) };

    /// Returns the minimum number of octets of a number.
    fn least_octets() -> usize
        ensures { result ≤ least };

    /// Whether a number has one encoding only. Returns `false` if that isn't known.
    fn is_unique() -> bool
        ensures { result ≡ one_way };

    /// Returns the number of octets of each number, if all have as many. Returns `None` if that isn't known.
    fn fixed_octets() -> Option<usize>
        ensures { IfSome result (λ len. AllHave octets fits len) }
    {
        None
    }

    /// Returns the number of octets that encode a number, or `None` if none do.
    fn number_len(number: usize) -> Option<usize>
        ensures some { IfSome result (λ len. len ≡ length (octets number)) }
        ensures fit { IsSome result → fits number }
        ensures none { IsNone result → ¬ fits number };

    /// Appends the octets of a number.
    ///
    /// # Errors
    ///
    /// `AllocError` if a request for memory was refused. The content is then unchanged.
    fn put_number<B: OctetsBuilder>(builder: &mut B, number: usize) -> Result<(), AllocError>
        requires fit { fits number }
        requires within { IsWithin B.limit (length (B.content builder.now) + length (octets number)) }
        ensures ok { OnOk result (B.content builder.new ≡ B.content builder.old ++ octets number) }
        ensures err { OnErr result (B.content builder.new ≡ B.content builder.old) }
        ensures memory { IsErr result → B.asks ≡ true }
        ensures borrows { B.borrows builder.new ≡ B.borrows builder.old };

    ghost onward: { IsOnward least is_at };

    ghost moving: { 0 < least };

    // Its numbers fit a `usize`.
    ghost small: { (number : ℕ) → fits number → number < 2 ^ 64 };

    // If its octets come next, it is read back.
    ghost delimited: { IsDelimited is_at (λ number. number) octets fits };

    ghost canonical: { IsTrue one_way → IsCanonical is_at (λ number. number) octets fits };
}

/// Numbers of a fixed number of octets, which hold any number that isn't too great for them.
pub trait FixedWidth: Number {
    ghost width: { ℕ };

    /// Returns the number of octets of each number.
    fn width() -> usize
        ensures { result ≡ width };

    ghost each: { (number : ℕ) → Self.fits (number % 256 ^ width) };

    ghost as_long: { AllHave Self.octets Self.fits width };
}

/// Returns the number that the lowest octets of a number say, as many as `N` has.
#[inline(always)]
#[tactic(auto, using(crate::proofs::EightOctets::lowest_octets, crate::proofs::EightOctets::all_octets))]
pub(crate) fn lowest<N: FixedWidth>(number: usize) -> usize
    ensures { result ≡ number % 256 ^ N.width }
{
    let width = N::width();
    if width >= 8 {
        return number;
    }
    number % (1 << (8 * width))
}

/// Appends octets. The caller has checked that they fit.
///
/// # Errors
///
/// `AllocError` if a request for memory was refused. The content is then unchanged.
#[inline(always)]
pub(crate) fn put_octets<B: OctetsBuilder>(builder: &mut B, octets: &[u8]) -> Result<(), AllocError>
    requires { IsWithin B.limit (length (B.content builder.now) + length octets.now) }
    ensures ok { OnOk result (B.content builder.new ≡ B.content builder.old ++ octets.now) }
    ensures err { OnErr result (B.content builder.new ≡ B.content builder.old) }
    ensures memory { IsErr result → B.asks ≡ true }
    ensures borrows { B.borrows builder.new ≡ B.borrows builder.old }
{
    builder.append_slice(octets).map_err(|_| AllocError)
}
