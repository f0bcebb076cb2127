//! The types that are made from other sequences.
ghost use Rattle.std.specs.Prelude.{◌≡◌, ◌≤◌, ◌↔◌, true, false, Some, None, length, IsOk, IfOk};
ghost use Rattle.octseq_core.specs.ArrayOctets.{padded};
ghost use Rattle.octseq_core.specs.Limit.{ExceedsLimit};
ghost use Rattle.octseq_core.specs.Refusal.{IsShort, IsMemory, append_error};

use super::OctetsFrom;
use arrayvec::ArrayVec;
use bytes::{Bytes, BytesMut};
use octseq_core::array::Array;
use octseq_core::builder::{AppendError, AsOctets, OctetsBuilder, OctetsLimit};
use smallvec::SmallVec;
use std::alloc::Global;

impl<Source: AsOctets> OctetsFrom<Source> for Vec<u8> {
    fn try_octets_from(alloc: Global, source: Source) -> Result<Self, AppendError> {
        Ok(Vec::from_slice(alloc, source.as_ref())?)
    }
}

impl<Source: AsOctets> OctetsFrom<Source> for Bytes {
    fn try_octets_from(alloc: Global, source: Source) -> Result<Self, AppendError> {
        Ok(Bytes::copy_from_slice(alloc, source.as_ref())?)
    }
}

impl<Source: AsOctets> OctetsFrom<Source> for BytesMut {
    fn try_octets_from(alloc: Global, source: Source) -> Result<Self, AppendError> {
        Ok(BytesMut::copy_from_slice(alloc, source.as_ref())?)
    }
}

impl<Source: AsOctets, const N: usize> OctetsFrom<Source> for SmallVec<u8, N> {
    fn try_octets_from(alloc: Global, source: Source) -> Result<Self, AppendError>
        ensures ok { IfOk result (λ octets. octets.items ≡ Source.content source) }
        ensures short { IsShort append_error result ↔ ExceedsLimit None (length (Source.content source)) }
        ensures memory { IsMemory append_error result → true ≡ true }
        ensures never { length (Source.content source) ≤ N → IsOk result }
    {
        Ok(SmallVec::from_slice(alloc, source.as_ref())?)
    }
}

impl<Source: AsOctets, const N: usize> OctetsFrom<Source> for ArrayVec<u8, N> {
    fn try_octets_from(_alloc: Global, source: Source) -> Result<Self, AppendError> {
        let mut octets = ArrayVec::new();
        octets.append_slice(source.as_ref())?;
        Ok(octets)
    }
}

impl<Source: AsOctets, const N: usize> OctetsFrom<Source> for Array<N> {
    fn try_octets_from(_alloc: Global, source: Source) -> Result<Self, AppendError>
        ensures ok { IfOk result (λ octets. octets.content ≡ Source.content source) }
        ensures short { IsShort append_error result ↔ ExceedsLimit (Some N) (length (Source.content source)) }
        ensures memory { IsMemory append_error result → false ≡ true }
        ensures padded { IfOk result (λ octets. octets ≡ padded N (Source.content source)) }
    {
        let mut octets = Array::new();
        octets.append_slice(source.as_ref())?;
        Ok(octets)
    }
}

impl<'a, S: AsOctets> OctetsFrom<&'a S> for &'a [u8] {
    /// Borrows the octets without copying them.
    fn try_octets_from(_alloc: Global, source: &'a S) -> Result<Self, AppendError> {
        Ok(source.as_ref())
    }
}
