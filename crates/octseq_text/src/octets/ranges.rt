//! The references from which ranges are cut.
ghost use Rattle.std.specs.Prelude.{◌≡◌, length};
ghost use Rattle.octseq_text.specs.Range.{RangeExists, range_of};

use super::Octets;
use arrayvec::ArrayVec;
use bytes::Bytes;
use octseq_core::array::Array;
use octseq_core::builder::{AsOctets, OctetsLimit};
use octseq_core::cow::CowOctets;
use smallvec::SmallVec;
use std::alloc::AllocError;
use std::ops::RangeBounds;
use std::rc::RcSlice;
use std::slice;

/// The part of a slice in a range.
fn part<R: RangeBounds<usize>>(octets: &[u8], range: R) -> &[u8]
    requires known { R.has_bounds range }
    requires exists { RangeExists (length octets.now) (R.start_bound range, R.end_bound range) }
    ensures { result.now ≡ range_of octets.now (R.start_bound range, R.end_bound range) }
{
    let range = slice::range(range, ..octets.len());
    &octets[range.start..range.end]
}

/// The types whose ranges are slices.
trait SliceRange: AsOctets {}

impl SliceRange for Vec<u8> {}

impl SliceRange for CowOctets<'_> {}

impl<const N: usize> SliceRange for SmallVec<u8, N> {}

impl<const N: usize> SliceRange for ArrayVec<u8, N> {}

impl<const N: usize> SliceRange for Array<N> {}

impl SliceRange for RcSlice<u8> {}

impl<'a, T: SliceRange> Octets for &'a T {
    type Range = &'a [u8];

    fn range<R: RangeBounds<usize>>(&self, range: R) -> Result<&'a [u8], AllocError> {
        let octets: &'a T = *self;
        Ok(part(octets.as_ref(), range))
    }
}

impl<'a> Octets for &'a [u8] {
    type Range = &'a [u8];

    fn range<R: RangeBounds<usize>>(&self, range: R) -> Result<&'a [u8], AllocError> {
        let octets: &'a [u8] = *self;
        Ok(part(octets, range))
    }
}

impl<'a> Octets for &'a Bytes {
    type Range = Bytes;

    /// Shares the octets without copying them.
    fn range<R: RangeBounds<usize>>(&self, range: R) -> Result<Bytes, AllocError> {
        self.slice(range)
    }
}
