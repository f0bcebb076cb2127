//! Communities: RFC 1997, RFC 4360, RFC 8092, and cluster ids: RFC 4456.
ghost use Rattle.std.specs.Prelude.{◌≡◌, ◌*◌, ℕ, ⊤};
ghost use Rattle.std.proofs.Common.{rules};
ghost use Rattle.std.specs.Coded.{coded_ℕ, coded×};
ghost use Rattle.octseq.specs.Integer.{be};
ghost use Rattle.octseq_bgp.specs.Community.{large_community};

use crate::item::{Item, Items};
use octseq::{AsOctets, Parser, ShortInput};

/// A community: RFC 1997.
#[derive(Clone, Copy, Debug, PartialEq, Eq)]
pub struct StandardCommunity(pub u32);

impl Item for StandardCommunity {
    ghost Found = { ℕ };

    ghost found = { λ community. community.0 };

    ghost found_code = { coded_ℕ };

    ghost width = { 4 };

    ghost reads = { be };

    fn width() -> usize {
        4
    }

    fn take<R: AsOctets>(parser: &mut Parser<R>) -> Result<Self, ShortInput> {
        Ok(StandardCommunity(parser.parse_u32_be()?))
    }

    ghost wide = { Prim.search rules };
}

/// A cluster id: RFC 4456, 8.
#[derive(Clone, Copy, Debug, PartialEq, Eq)]
pub struct ClusterId(pub u32);

impl Item for ClusterId {
    ghost Found = { ℕ };

    ghost found = { λ id. id.0 };

    ghost found_code = { coded_ℕ };

    ghost width = { 4 };

    ghost reads = { be };

    fn width() -> usize {
        4
    }

    fn take<R: AsOctets>(parser: &mut Parser<R>) -> Result<Self, ShortInput> {
        Ok(ClusterId(parser.parse_u32_be()?))
    }

    ghost wide = { Prim.search rules };
}

/// An extended community: RFC 4360.
#[derive(Clone, Copy, Debug, PartialEq, Eq)]
pub struct ExtendedCommunity(pub u64);

impl Item for ExtendedCommunity {
    ghost Found = { ℕ };

    ghost found = { λ community. community.0 };

    ghost found_code = { coded_ℕ };

    ghost width = { 8 };

    ghost reads = { be };

    fn width() -> usize {
        8
    }

    fn take<R: AsOctets>(parser: &mut Parser<R>) -> Result<Self, ShortInput> {
        Ok(ExtendedCommunity(parser.parse_u64_be()?))
    }

    ghost wide = { Prim.search rules };
}

/// A large community: RFC 8092, 3.
#[derive(Clone, Copy, Debug, PartialEq, Eq)]
pub struct LargeCommunity {
    /// The global administrator: the AS that defines the meaning.
    pub global: u32,
    /// The first part of the local data.
    pub data1: u32,
    /// The second part of the local data.
    pub data2: u32,
}

impl Item for LargeCommunity {
    ghost Found = { ℕ × (ℕ × ℕ) };

    ghost found = { λ community. (community.global, (community.data1, community.data2)) };

    ghost found_code = { coded× coded_ℕ (coded× coded_ℕ coded_ℕ) };

    ghost width = { 12 };

    ghost reads = { large_community };

    fn width() -> usize {
        12
    }

    fn take<R: AsOctets>(parser: &mut Parser<R>) -> Result<Self, ShortInput> {
        parser.check_len(12)?;
        let global = parser.parse_u32_be()?;
        let data1 = parser.parse_u32_be()?;
        let data2 = parser.parse_u32_be()?;
        Ok(LargeCommunity {
            global,
            data1,
            data2,
        })
    }

    ghost wide = { Prim.search rules };
}

/// Communities.
pub type StandardCommunities<R> = Items<R, StandardCommunity>;

/// The clusters that a route passed through.
pub type ClusterIds<R> = Items<R, ClusterId>;

/// Extended communities.
pub type ExtendedCommunities<R> = Items<R, ExtendedCommunity>;

/// Large communities.
pub type LargeCommunities<R> = Items<R, LargeCommunity>;
