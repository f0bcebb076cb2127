//! Ranges of octet sequences, and conversions between them.
ghost use Rattle.std.specs.Prelude.{◌≡◌, ◌≤◌, ◌↔◌, true, None, slice_range};
ghost use Rattle.std.specs.Prelude.{length, IsTrue, IsSome, IfSome, IfOk, OnErr};
ghost use Rattle.octseq_core.specs.Limit.{ExceedsLimit};
ghost use Rattle.octseq_core.specs.Refusal.{IsShort, IsMemory, append_error};
ghost use Rattle.octseq_text.specs.Range.{start_of, end_of, RangeExists, range_of};
ghost use Rattle.std.specs.declared.ops.Bound.TheVariants.{Included, Excluded};

use octseq_core::builder::{AppendError, AsOctets, OctetsLimit};
use smallvec::SmallVec;
use std::alloc::{AllocError, Global};
use std::ops::{self, Range, RangeBounds};

mod conversions;
mod ranges;

/// Octets that are stored inline if they are at most 24, enough for many names and addresses.
pub type SmallOctets = SmallVec<u8, 24>;

/// One end of a range of octets: a place, included or excluded, or the start or the end of the octets.
pub type Bound = ops::Bound<usize>;

/// The bounds of the range from `start` up to `end`, which is excluded.
pub fn span(start: usize, end: usize) -> (Bound, Bound)
    ensures { result ≡ (Included start, Excluded end) }
{
    (Bound::Included(start), Bound::Excluded(end))
}

/// Whether a range exists in octets of this length: its start is at most its end, and its end at most the length.
/// `has_bounds` holds for each of std's ranges except an `a..=b` that was iterated to its end.
///
/// # Examples
///
/// ```
/// // crates/octseq_callers/src/single_calls.rt
/// if !range_exists(octets.len(), start..end) {
///     return Ok(None);
/// }
/// Ok(Some(octets.range(start..end)?))
/// ```
pub fn range_exists<R: RangeBounds<usize>>(len: usize, range: R) -> bool
    requires { R.has_bounds range }
    ensures { IsTrue result ↔ RangeExists len (R.start_bound range, R.end_bound range) }
{
    try_range(len, range).is_some()
}

/// Where a range starts and ends in octets of this length, or `None` if it doesn't exist.
pub fn try_range<R: RangeBounds<usize>>(len: usize, range: R) -> Option<Range<usize>>
    requires { R.has_bounds range }
    ensures variant { IsSome result ↔ RangeExists len (R.start_bound range, R.end_bound range) }
    ensures start { IfSome result (λ found. found.start ≡ start_of (R.start_bound range)) }
    ensures end { IfSome result (λ found. found.end ≡ end_of len (R.end_bound range)) }
{
    let start = match range.start_bound() {
        ops::Bound::Unbounded => 0,
        ops::Bound::Included(start) => *start,
        ops::Bound::Excluded(before) => before.checked_add(1)?,
    };
    let end = match range.end_bound() {
        ops::Bound::Unbounded => len,
        ops::Bound::Included(last) => last.checked_add(1)?,
        ops::Bound::Excluded(end) => *end,
    };
    if start > end || end > len {
        return None;
    }
    Some(start..end)
}

/// A reference to octets, from which ranges are cut.
pub trait Octets: AsOctets {
    /// A range of the octets.
    type Range: AsOctets + OctetsLimit;

    /// The octets of a range that exists; `range_exists` tests that. A range is written as in Rust: `1..3`, `at..`,
    /// `..=last`, or a pair of bounds.
    ///
    /// # Errors
    ///
    /// `AllocError` if a request for memory was refused. A range that is a slice requests none.
    ///
    /// # Examples
    ///
    /// ```
    /// // crates/octseq_callers/src/ranges.rt
    /// if octets.len() < 3 {
    ///     return Ok(None);
    /// }
    /// Ok(Some(octets.range(1..3)?))
    /// ```
    fn range<R: RangeBounds<usize>>(&self, range: R) -> Result<Self::Range, AllocError>
        requires known { R.has_bounds range }
        requires exists { RangeExists (length (Self.content self.now)) (R.start_bound range, R.end_bound range) }
        ensures ok { IfOk result (λ octets. Self.Range.content octets
            ≡ range_of (Self.content self.now) (R.start_bound range, R.end_bound range)) }
        ensures memory { OnErr result (Self.Range.asks ≡ true) };
}

/// A sequence of octets that can be made from another.
pub trait OctetsFrom<Source: AsOctets>: OctetsLimit {
    /// The source's octets.
    ///
    /// # Errors
    ///
    /// `Short` if the octets exceed the limit of the type, otherwise `Memory` if a request for memory was refused. The
    /// source is then dropped.
    fn try_octets_from(alloc: Global, source: Source) -> Result<Self, AppendError>
        ensures ok { IfOk result (λ octets. Self.content octets ≡ Source.content source) }
        ensures short { IsShort append_error result ↔ ExceedsLimit Self.limit (length (Source.content source)) }
        ensures memory { IsMemory append_error result → Self.asks ≡ true };

    /// The source's octets, for a type without a limit.
    ///
    /// # Errors
    ///
    /// `AllocError` if a request for memory was refused. The source is then dropped.
    final fn octets_from(alloc: Global, source: Source) -> Result<Self, AllocError>
    where
        Self: Sized,
        requires { Self.limit ≡ None }
        ensures ok { IfOk result (λ octets. Self.content octets ≡ Source.content source) }
        ensures memory { OnErr result (Self.asks ≡ true) }
    {
        match Self::try_octets_from(alloc, source) {
            Ok(octets) => Ok(octets),
            Err(AppendError::Memory) => Err(AllocError),
            Err(AppendError::Short(_)) => unreachable!(),
        }
    }
}

/// A sequence of octets that can be made into another: the counterpart of [`OctetsFrom`].
pub trait OctetsInto<Target: OctetsLimit>: AsOctets {
    /// The octets in the other type.
    ///
    /// # Errors
    ///
    /// See `OctetsFrom::try_octets_from`.
    fn try_octets_into(self, alloc: Global) -> Result<Target, AppendError>
        ensures ok { IfOk result (λ octets. Target.content octets ≡ Self.content self) }
        ensures short { IsShort append_error result ↔ ExceedsLimit Target.limit (length (Self.content self)) }
        ensures memory { IsMemory append_error result → Target.asks ≡ true };

    /// The octets in the other type, which has no limit.
    ///
    /// # Errors
    ///
    /// `AllocError` if a request for memory was refused.
    fn octets_into(self, alloc: Global) -> Result<Target, AllocError>
        requires { Target.limit ≡ None }
        ensures ok { IfOk result (λ octets. Target.content octets ≡ Self.content self) }
        ensures memory { OnErr result (Target.asks ≡ true) };
}

impl<Source: AsOctets, Target: OctetsFrom<Source>> OctetsInto<Target> for Source {
    fn try_octets_into(self, alloc: Global) -> Result<Target, AppendError> {
        Target::try_octets_from(alloc, self)
    }

    fn octets_into(self, alloc: Global) -> Result<Target, AllocError> {
        Target::octets_from(alloc, self)
    }
}
