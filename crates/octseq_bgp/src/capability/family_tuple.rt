//! Address families with flags, as capabilities list them.
ghost use Rattle.std.specs.Prelude.{◌≡◌, ◌*◌, ℕ};
ghost use Rattle.std.proofs.Common.{rules};
ghost use Rattle.std.specs.Coded.{coded_ℕ, coded×};
ghost use Rattle.octseq_bgp.specs.FamilyTuple.{family_tuple, forwards};

use crate::item::Item;
use octseq::{AsOctets, Parser, ShortInput};

/// An address family by its numbers, and an octet about it: RFC 4724, 3, and RFC 7911, 4.
#[derive(Clone, Copy, Debug, PartialEq, Eq)]
pub struct FamilyTuple {
    /// The AFI.
    pub afi: u16,
    /// The SAFI.
    pub safi: u8,
    /// The flags of a graceful restart, or what is done with path ids: 1 receive, 2 send, 3 both.
    pub flags: u8,
}

impl FamilyTuple {
    /// Whether the forwarding state of the family was kept over the restart: the first bit of the flags (RFC 4724, 3).
    pub fn forwards(&self) -> bool
        ensures { result ≡ forwards self.now.flags }
    {
        self.flags >= 128
    }
}

impl Item for FamilyTuple {
    ghost Found = { ℕ × (ℕ × ℕ) };

    ghost found = { λ tuple. (tuple.afi, (tuple.safi, tuple.flags)) };

    ghost found_code = { coded× coded_ℕ (coded× coded_ℕ coded_ℕ) };

    ghost width = { 4 };

    ghost reads = { family_tuple };

    fn width() -> usize {
        4
    }

    fn take<R: AsOctets>(parser: &mut Parser<R>) -> Result<Self, ShortInput> {
        parser.check_len(4)?;
        let afi = parser.parse_u16_be()?;
        let safi = parser.parse_u8()?;
        let flags = parser.parse_u8()?;
        Ok(FamilyTuple { afi, safi, flags })
    }

    ghost wide = { Prim.search rules };
}
