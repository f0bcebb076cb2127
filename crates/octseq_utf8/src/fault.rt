//! Where octets stop being well formed.
ghost use Rattle.std.specs.Prelude.{◌≡◌, ◌≤◌, length, take, drop};
ghost use Rattle.octseq_utf8.specs.Fault.{fault_end, fault_after};

use std::error::Error;
use std::fmt;
use std::marker::Model;

/// The first place at which octets are not UTF-8.
///
/// `{}` prints `invalid utf-8 sequence of {length} bytes from index {place}`, or `incomplete utf-8 byte sequence from
/// index {place}` if the octets end within a character.
#[derive(Clone, Copy, Debug, PartialEq, Eq)]
pub struct Utf8Fault {
    valid_up_to: usize,
    error_len: Option<usize>,
}

impl Model for Utf8Fault {
    ghost use Rattle.octseq_utf8.specs.Fault.{Fault};

    ghost Value = { Fault };

    ghost view = { λ fault. record { place = fault.valid_up_to; size = fault.error_len } };

    ghost inverse = { λ fault. record { valid_up_to = fault.place; error_len = fault.size } };
}

impl Utf8Fault {
    /// A fault after `valid_up_to` octets, with its size, or `None` if the octets end within a character.
    pub(crate) fn new(valid_up_to: usize, error_len: Option<usize>) -> Self
        ensures { result ≡ record { place = valid_up_to; size = error_len } }
    {
        Utf8Fault {
            valid_up_to,
            error_len,
        }
    }

    /// The number of octets before the fault. They are well formed.
    pub fn valid_up_to(&self) -> usize
        ensures { result ≡ self.now.place }
    {
        self.valid_up_to
    }

    /// The number of octets of the fault, 1 to 3, or `None` if the octets end within a character.
    pub fn error_len(&self) -> Option<usize>
        ensures { result ≡ self.now.size }
    {
        self.error_len
    }

    /// The fault if this many octets come before the others. A place past the greatest saturates.
    pub fn offset(&self, octets: usize) -> Self
        ensures { result ≡ fault_after octets self.now }
    {
        Utf8Fault {
            valid_up_to: octets.saturating_add(self.valid_up_to),
            error_len: self.error_len,
        }
    }
}

/// The octets before the fault.
#[inline(always)]
pub(crate) fn before<'a>(octets: &'a [u8], fault: &Utf8Fault) -> &'a [u8]
    requires { fault.now.place ≤ length octets.now }
    ensures { result.now ≡ take fault.now.place octets.now }
{
    &octets[..fault.valid_up_to]
}

/// The octets from the fault on.
#[inline(always)]
pub(crate) fn onward<'a>(octets: &'a [u8], fault: &Utf8Fault) -> &'a [u8]
    requires { fault.now.place ≤ length octets.now }
    ensures { result.now ≡ drop fault.now.place octets.now }
{
    &octets[fault.valid_up_to..]
}

/// The octets after the fault.
#[inline(always)]
pub(crate) fn after<'a>(octets: &'a [u8], fault: &Utf8Fault) -> &'a [u8]
    requires place { fault.now.place ≤ length octets.now }
    requires end { fault_end octets.now fault.now ≤ length octets.now }
    ensures { result.now ≡ drop (fault_end octets.now fault.now) octets.now }
{
    match fault.error_len {
        Some(len) => &octets[fault.valid_up_to + len..],
        None => &octets[octets.len()..],
    }
}

impl Error for Utf8Fault {}

impl fmt::Display for Utf8Fault {
    ghost use Rattle.std.specs.Prelude.{Some};
    ghost use Rattle.octseq_utf8.specs.Fault.{fault_text};

    ghost output = { λ fault. Some (fault_text fault) };

    fn fmt<W: fmt::Write>(&self, f: &mut fmt::Formatter<W>) -> fmt::Result {
        let place = self.valid_up_to;
        match self.error_len {
            Some(len) => write!(
                f,
                "invalid utf-8 sequence of {len} bytes from index {place}"
            ),
            None => write!(f, "incomplete utf-8 byte sequence from index {place}"),
        }
    }
}
