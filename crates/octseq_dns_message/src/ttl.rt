//! The time to live of records.
ghost use Rattle.std.specs.Prelude.{◌≡◌};

use std::marker::Model;

/// For how many seconds a record may be cached: RFC 1035, 4.1.3; unsigned, with all of its 32 bits. Contracts see the
/// number of seconds.
#[derive(Clone, Copy, Debug, PartialEq, Eq, PartialOrd, Ord, Hash)]
pub struct Ttl {
    secs: u32,
}

impl Model for Ttl {
    ghost use Rattle.std.specs.Prelude.{ℕ};

    ghost Value = { ℕ };

    ghost view = { λ ttl. ttl.secs };

    ghost inverse = { λ n. record { secs = n } };
}

impl Ttl {
    /// Makes the TTL of a number of seconds.
    pub fn from_secs(secs: u32) -> Self
        ensures { result ≡ secs }
    {
        Ttl { secs }
    }

    /// Returns the number of seconds.
    pub fn as_secs(self) -> u32
        ensures { result ≡ self }
    {
        self.secs
    }
}
