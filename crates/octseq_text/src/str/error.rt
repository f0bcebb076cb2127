//! The error for octets that are not valid text.
ghost use Rattle.std.specs.Prelude.{◌≡◌, true, Some, IfOk, OnErr};
ghost use Rattle.octseq_utf8.specs.Fault.{IsFault, fault_text};

use crate::utf8::Utf8Fault;
use octseq_core::builder::{AsOctets, CloneOctets};
use std::alloc::{AllocError, Global};
use std::error::Error;
use std::fmt;
use std::marker::Model;

/// Octets that aren't well-formed UTF-8, and their first fault.
///
/// `{}` prints the fault.
#[derive(Drop)]
pub struct FromUtf8Error<Octets: AsOctets> {
    octets: Octets,
    fault: Utf8Fault,
}

impl<Octets: AsOctets> Model for FromUtf8Error<Octets> {
    ghost use Rattle.octseq_utf8.specs.Fault.{IsFault};
    ghost use Rattle.octseq_text.specs.Refused.{Refused};

    ghost Value = { Refused Octets };

    ghost view = { λ e. record { octets = e.octets; fault = e.fault } };

    ghost invariant = { λ e. IsFault (Octets.content e.octets) e.fault };
}

impl<Octets: AsOctets> FromUtf8Error<Octets> {
    /// The error for these octets.
    pub(super) fn new(octets: Octets, fault: Utf8Fault) -> Self
        requires { IsFault (Octets.content octets) fault }
        ensures octets { result.octets ≡ octets }
        ensures fault { result.fault ≡ fault }
    {
        FromUtf8Error { octets, fault }
    }

    /// The octets that were refused.
    pub fn as_slice(&self) -> &[u8]
        ensures content { result.now ≡ Octets.content self.now.octets }
        ensures fault { IsFault result.now self.now.fault }
    {
        self.octets.as_ref()
    }

    /// Returns the octets that were refused.
    pub fn into_octets(self) -> Octets
        ensures same { result ≡ self.octets }
        ensures fault { IsFault (Octets.content result) self.fault }
    {
        self.octets
    }

    /// Where the octets stop being well formed.
    pub fn utf8_error(&self) -> Utf8Fault
        ensures value { result ≡ self.now.fault }
        ensures fault { IsFault (Octets.content self.now.octets) result }
    {
        self.fault
    }

    /// The same error, with a copy of the octets.
    ///
    /// # Errors
    ///
    /// `AllocError` if a request for memory was refused.
    pub fn clone(&self, alloc: Global) -> Result<Self, AllocError>
    where
        Octets: CloneOctets,
        ensures content { IfOk result (λ e. Octets.content e.octets ≡ Octets.content self.now.octets) }
        ensures fault { IfOk result (λ e. e.fault ≡ self.now.fault) }
        ensures memory { OnErr result (Octets.asks ≡ true) }
    {
        let octets = self.octets.clone_octets(alloc)?;
        Ok(FromUtf8Error {
            octets,
            fault: self.fault,
        })
    }
}

impl<Octets: AsOctets> PartialEq for FromUtf8Error<Octets> {
    ghost use Rattle.std.specs.Prelude.{nat_eq};
    ghost use Rattle.std.specs.Cmp.Lexicographic.{pointwise};
    ghost use Rattle.std.specs.Cmp.Rules.{comparing};
    ghost use Rattle.std.specs.Ordering.{on, eq_of_both};
    ghost use Rattle.std.proofs.Common.{rules};
    ghost use Rattle.octseq_utf8.specs.Fault.{fault_eq};

    ghost eq = { eq_of_both (on (λ e. e.fault) fault_eq) (on (λ e. Octets.content e.octets) (pointwise nat_eq)) };

    ghost laws = { Prim.search (comparing, rules) };

    fn eq(&self, other: &Self) -> bool {
        self.fault == other.fault && self.as_slice() == other.as_slice()
    }
}

impl<Octets: AsOctets> Eq for FromUtf8Error<Octets> {
    ghost use Rattle.std.specs.Cmp.Rules.{comparing};
    ghost use Rattle.std.proofs.Common.{rules};

    ghost laws = { Prim.search (comparing, rules) };
}

impl<Octets: AsOctets> Error for FromUtf8Error<Octets> {}

impl<Octets: AsOctets> fmt::Display for FromUtf8Error<Octets> {
    ghost output = { λ e. Some (fault_text e.fault) };

    fn fmt<W: fmt::Write>(&self, f: &mut fmt::Formatter<W>) -> fmt::Result {
        fmt::Display::fmt(&self.fault, f)
    }
}

impl<Octets: AsOctets> fmt::Debug for FromUtf8Error<Octets> {
    fn fmt<W: fmt::Write>(&self, f: &mut fmt::Formatter<W>) -> fmt::Result {
        f.debug_struct("FromUtf8Error")
            .field("fault", &self.fault)
            .finish_non_exhaustive()
    }
}
