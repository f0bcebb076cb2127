//! References: each represents the octets of the value that it refers to.
ghost use Rattle.std.specs.Prelude.{◌∷◌};

use super::{AppendError, AsOctets, OctetsBuilder, OctetsLimit, Truncate};

impl<T: AsOctets> AsOctets for &T {
    ghost content = { λ r. T.content r.now };

    ghost limit = { T.limit };

    ghost asks = { T.asks };

    fn as_ref(&self) -> &[u8] {
        (**self).as_ref()
    }
}

impl<T: OctetsLimit> OctetsLimit for &T {
    fn limit() -> Option<usize> {
        T::limit()
    }

    fn asks_memory() -> bool {
        T::asks_memory()
    }
}

impl<T: AsOctets> AsOctets for &mut T {
    ghost content = { λ r. T.content r.now };

    ghost limit = { T.limit };

    ghost asks = { T.asks };

    ghost borrows = { λ r. r.ghost_name ∷ T.borrows r.now };

    fn as_ref(&self) -> &[u8] {
        (**self).as_ref()
    }
}

impl<T: OctetsLimit> OctetsLimit for &mut T {
    fn limit() -> Option<usize> {
        T::limit()
    }

    fn asks_memory() -> bool {
        T::asks_memory()
    }
}

impl<T: OctetsBuilder> OctetsBuilder for &mut T {
    fn max_len(&self) -> Option<usize> {
        (**self).max_len()
    }

    fn append_slice(&mut self, slice: &[u8]) -> Result<(), AppendError> {
        (**self).append_slice(slice)
    }

    fn append_few(&mut self, slice: &[u8]) -> Result<(), AppendError> {
        (**self).append_few(slice)
    }
}

impl<T: Truncate> Truncate for &mut T {
    fn truncate(&mut self, len: usize) {
        (**self).truncate(len)
    }
}
