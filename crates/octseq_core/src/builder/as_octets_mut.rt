//! The sequences whose content can be overwritten in place.
ghost use Rattle.arrayvec.specs.ArrayVec.{with_items as with_fixed_items};
ghost use Rattle.bytes.specs.Filled.{with_items as with_bytes};
ghost use Rattle.octseq_core.specs.ArrayOctets.{with_content as with_array_content};
ghost use Rattle.octseq_core.specs.Rewritten.{taken_whole};
ghost use Rattle.smallvec.specs.SmallVec.{with_items as with_small_items};
ghost use Rattle.std.proofs.Common.{sym, ◌∙◌, ap};
ghost use Rattle.std.specs.Prelude.{◌≡◌, refl, length, drop, ◌∷◌};
ghost use Rattle.std.specs.Vec.{with_items};

use super::AsOctetsMut;
use crate::array::Array;
use arrayvec::ArrayVec;
use bytes::BytesMut;
use smallvec::SmallVec;

impl AsOctetsMut for Vec<u8> {
    ghost with_content = { with_items };

    fn as_mut(&mut self) -> &mut [u8] {
        self.as_mut_slice()
    }

    ghost written = { λ x octets same. taken_whole octets (drop (length octets) x.items) x.len (same ∙ sym x.ok.0) };

    ghost kept = { λ x octets. refl };
}

impl AsOctetsMut for BytesMut {
    ghost with_content = { with_bytes };

    fn as_mut(&mut self) -> &mut [u8] {
        self.as_mut_slice()
    }

    ghost written = { λ x octets same. taken_whole octets (drop (length octets) x.items) (length x.items) same };

    ghost kept = { λ x octets. refl };
}

impl<const N: usize> AsOctetsMut for SmallVec<u8, N> {
    ghost with_content = { with_small_items };

    fn as_mut(&mut self) -> &mut [u8] {
        self.as_mut_slice()
    }

    ghost written = { λ x octets same. taken_whole octets (drop (length octets) x.items) (length x.items) same };

    ghost kept = { λ x octets. refl };
}

impl<const N: usize> AsOctetsMut for ArrayVec<u8, N> {
    ghost with_content = { with_fixed_items };

    fn as_mut(&mut self) -> &mut [u8] {
        self.as_mut_slice()
    }

    ghost written = { λ x octets same. taken_whole octets (drop (length octets) x.items) (length x.items) same };

    ghost kept = { λ x octets. refl };
}

impl<const N: usize> AsOctetsMut for Array<N> {
    ghost with_content = { with_array_content };

    fn as_mut(&mut self) -> &mut [u8] {
        self.as_slice_mut()
    }

    ghost written = { λ x octets same. taken_whole octets x.hidden (length x.content) same };

    ghost kept = { λ x octets. refl };
}

impl<T: AsOctetsMut> AsOctetsMut for &mut T {
    ghost with_content = { λ r octets. record r { now = T.with_content r.now octets } };

    fn as_mut(&mut self) -> &mut [u8] {
        (**self).as_mut()
    }

    ghost written = { λ r octets same. T.written r.now octets same };

    ghost kept = { λ r octets. ap (λ names. r.ghost_name ∷ names) (T.kept r.now octets) };
}
