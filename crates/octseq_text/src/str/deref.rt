//! Texts as a `str` or as a slice of octets.
ghost use Rattle.std.specs.Prelude.{◌≡◌};

use super::builder::StrBuilder;
use super::text::Str;
use octseq_core::builder::AsOctets;
use std::convert::{AsSlice, AsStr};
use std::ops::{AsDeref, DerefStr};

impl<Octets: AsOctets> DerefStr for StrBuilder<Octets> {
    ghost deref_gives = { λ text octets. octets ≡ Octets.content text };

    fn deref(&self) -> &str {
        StrBuilder::as_str(self)
    }
}

impl<Octets: AsOctets> DerefStr for Str<Octets> {
    ghost deref_gives = { λ text octets. octets ≡ Octets.content text };

    fn deref(&self) -> &str {
        Str::as_str(self)
    }
}

impl<Octets: AsOctets> AsStr for StrBuilder<Octets> {
    ghost text = { λ text. Octets.content text };

    fn as_str(&self) -> &str {
        self.as_str()
    }
}

impl<Octets: AsOctets> AsStr for Str<Octets> {
    ghost text = { λ text. Octets.content text };

    fn as_str(&self) -> &str {
        self.as_str()
    }
}

impl<Octets: AsOctets> AsSlice<u8> for StrBuilder<Octets> {
    ghost items = { λ text. Octets.content text };

    fn as_slice(&self) -> &[u8] {
        self.as_slice()
    }
}

impl<Octets: AsOctets> AsSlice<u8> for Str<Octets> {
    ghost items = { λ text. Octets.content text };

    fn as_slice(&self) -> &[u8] {
        self.as_slice()
    }
}

impl<'a, Octets: AsOctets + 'a> AsDeref<'a> for StrBuilder<Octets> {
    type Shown = &'a str;

    ghost use Rattle.std.specs.Prelude.{ℕ, List};

    ghost as_deref_gives = { λ text shown. shown.now ≡ Octets.content text };

    ghost View = { List ℕ };

    ghost view = { λ text. Octets.content text };

    ghost output_view = { λ shown. shown.now };

    fn shown(&'a self) -> &'a str {
        self.as_str()
    }
}

impl<'a, Octets: AsOctets + 'a> AsDeref<'a> for Str<Octets> {
    type Shown = &'a str;

    ghost use Rattle.std.specs.Prelude.{ℕ, List};

    ghost as_deref_gives = { λ text shown. shown.now ≡ Octets.content text };

    ghost View = { List ℕ };

    ghost view = { λ text. Octets.content text };

    ghost output_view = { λ shown. shown.now };

    fn shown(&'a self) -> &'a str {
        self.as_str()
    }
}
