//! A writer to a slice that a caller lends.
ghost use Rattle.std.specs.Prelude.{◌≡◌, ◌↔◌, ◌≤◌, ◌++◌, ℕ, length, take, IsTrue, IsOk};
ghost use Rattle.std.specs.Borrow.{GName};
ghost use Rattle.octseq_c.specs.OwnText.{IsOwnText};

use std::fmt;
use std::marker::{Brand, PhantomData};

/// The slice that is written to, as a type: its length, and its borrow.
pub trait Front {
    ghost room: { ℕ };

    ghost lender: { GName };
}

impl Front for Brand {
    ghost room = { 0 };

    ghost lender = { 0 };
}

/// A writer to the front of a slice. What was written is well-formed UTF-8.
#[derive(Drop)]
pub struct Writing<'a, K: Front> {
    octets: &'a mut [u8],
    len: usize,
    of: PhantomData<K>,
    ghost room: { length octets.now ≡ K.room },
    ghost within: { len ≤ K.room },
    ghost same: { octets.ghost_name ≡ K.lender },
    ghost text: { IsOwnText (take len octets.now) },
}

/// A slice that a value was shown in.
#[derive(Drop)]
pub struct Shown<'a> {
    /// The slice.
    pub octets: &'a mut [u8],
    /// Whether all of it was shown.
    pub is_shown: bool,
}

impl<'a, K: Front> Writing<'a, K> {
    /// Makes a writer that has written nothing yet.
    pub fn new(octets: &'a mut [u8]) -> Self
        requires room { K.room ≡ length octets.old }
        requires lender { K.lender ≡ octets.ghost_name }
        ensures octets { result.octets.now ≡ octets.old }
        ensures len { result.len ≡ 0 }
    {
        Writing {
            octets,
            len: 0,
            of: PhantomData::<K>,
        }
    }

    /// Returns the slice, and whether the value was shown in it.
    pub fn finish(self, shown: fmt::Result) -> Shown<'a>
        ensures same { result.octets.ghost_name ≡ K.lender }
        ensures octets { result.octets.now ≡ self.entry.octets.now }
        ensures is_shown { IsTrue result.is_shown ↔ IsOk shown }
    {
        Shown {
            octets: self.octets,
            is_shown: shown.is_ok(),
        }
    }
}

impl<'a, K: Front> fmt::Write for Writing<'a, K> {
    ghost write_str_gives = { λ before octets after.
        take after.len after.octets.now ≡ take before.len before.octets.now ++ octets };

    /// Writes all of `s`, or nothing.
    fn write_str(&mut self, s: &str) -> fmt::Result {
        if s.len() > self.octets.len() - self.len {
            return Err(fmt::Error);
        }
        let start = self.len;
        let end = start + s.len();
        self.octets[start..end].copy_from_slice(s.as_bytes());
        self.len = end;
        Ok(())
    }
}
