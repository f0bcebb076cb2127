//! A builder whose octets are in a borrowed slice.
ghost use Rattle.std.specs.Prelude.{◌≡◌, ◌≤◌, ℕ, [], ◌∷◌, false, Some, drop, length, OnErr};
ghost use Rattle.octseq_core.specs.Appends.{Appends};

use crate::builder::{AppendError, AsOctets, OctetsBuilder, ShortBuf, Truncate};
use std::marker::{Brand, PhantomData};

/// The size of the slice, as a type. A caller gives the number in a proof, where it passes `Brand` as the type.
pub trait Room {
    // The number of octets that there is room for.
    ghost room: { ℕ };
}

impl Room for Brand {
    ghost room = { 0 };
}

/// A builder over a mutably borrowed slice. The front of the slice is the content, and the limit is the slice's length.
/// It requests no memory.
#[derive(Drop)]
pub struct SliceBuilder<'a, K: Room> {
    octets: &'a mut [u8],
    len: usize,
    of: PhantomData<K>,
    ghost room: { length octets.now ≡ K.room },
    ghost within: { len ≤ K.room },
}

impl<'a, K: Room> SliceBuilder<'a, K> {
    ghost use Rattle.octseq_core.specs.SliceBuilder.{slice_content, slice_octets, lender};

    /// An empty builder over a slice.
    pub fn new(octets: &'a mut [u8]) -> Self
        requires { K.room ≡ length octets.old }
        ensures lender { lender result ≡ octets.entry.ghost_name }
        ensures octets { slice_octets result ≡ octets.old }
        ensures empty { slice_content result ≡ [] }
    {
        SliceBuilder {
            octets,
            len: 0,
            of: PhantomData::<K>,
        }
    }

    /// The content.
    pub fn as_slice(&self) -> &[u8]
        ensures content { result.now ≡ slice_content self.now }
        ensures within { length result.now ≤ K.room }
    {
        &self.octets[..self.len]
    }
}

impl<K: Room> AsOctets for SliceBuilder<'_, K> {
    ghost use Rattle.octseq_core.specs.SliceBuilder.{slice_content, lender};

    ghost content = { λ b. slice_content b };

    ghost limit = { Some K.room };

    ghost asks = { false };

    ghost borrows = { λ b. lender b ∷ [] };

    fn as_ref(&self) -> &[u8] {
        &self.octets[..self.len]
    }
}

impl<K: Room> OctetsBuilder for SliceBuilder<'_, K> {
    ghost use Rattle.octseq_core.specs.SliceBuilder.{slice_content, slice_octets, lender};

    fn max_len(&self) -> Option<usize> {
        Some(self.octets.len())
    }

    /// The slice overwrites the octets after the content; the octets after those don't change.
    #[inline(always)]
    #[tactic(auto, using(std::proofs::lemmas::Slice::overwrites))]
    fn append_slice(&mut self, slice: &[u8]) -> Result<(), AppendError>
        ensures appended { Appends (Some K.room) false result slice.now (slice_content self.old)
            (slice_content self.new) }
        ensures rest { let len = length (slice_content self.new) in
            drop len (slice_octets self.new) ≡ drop len (slice_octets self.old) }
        ensures unchanged { OnErr result (self.new ≡ self.old) }
        ensures lender { lender self.new ≡ lender self.old }
    {
        if slice.len() > self.octets.len() - self.len {
            return Err(AppendError::Short(ShortBuf));
        }
        let start = self.len;
        let end = start + slice.len();
        self.octets[start..end].copy_from_slice(slice);
        self.len = end;
        Ok(())
    }
}

impl<K: Room> Truncate for SliceBuilder<'_, K> {
    ghost use Rattle.std.specs.Prelude.{take};
    ghost use Rattle.octseq_core.specs.SliceBuilder.{slice_content, slice_octets, lender};

    /// Changes only the length.
    fn truncate(&mut self, len: usize)
        ensures content { slice_content self.new ≡ take len (slice_content self.old) }
        ensures octets { slice_octets self.new ≡ slice_octets self.old }
        ensures lender { lender self.new ≡ lender self.old }
    {
        if len < self.len {
            self.len = len;
        }
    }
}
