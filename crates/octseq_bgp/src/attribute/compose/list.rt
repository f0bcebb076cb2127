//! Communities and cluster ids, written.
ghost use Rattle.std.specs.Prelude.{◌≡◌, ◌↔◌, ℕ, true, map, length, IsSome, IfSome};
ghost use Rattle.octseq.specs.Integer.{octets_be};
ghost use Rattle.octseq_format.specs.Row.{row_octets};
ghost use Rattle.octseq_bgp.specs.ItemOctets.{large_octets, FitsLarge};
ghost use Rattle.octseq_bgp.specs.PartRow.{FitSome};
ghost use Rattle.octseq_bgp.specs.WrittenValue.{WrittenValue as Written, FitsIn};

use crate::attribute::attribute_type::AttributeType;
use crate::attribute::compose::ComposeAttribute;
use crate::community::{ClusterId, ExtendedCommunity, LargeCommunity, StandardCommunity};
use crate::part::{Part, parts_len, put_parts};
use crate::put::{put_slice, put_u32, put_u64};
use crate::session::SessionConfig;
use octseq::OctetsBuilder;
use std::alloc::AllocError;

/// Returns the number of octets of one item or more, or `None` if there is none, or if they have more than 65,535.
fn some_len<P: Part>(parts: &[P]) -> Option<usize>
    ensures some { IfSome result (λ len. len ≡ length (row_octets (P.octets true) (map P.says parts.now))) }
    ensures fit { IsSome result ↔ FitSome (P.octets true) (P.fits true) (map P.says parts.now) }
{
    if parts.is_empty() {
        return None;
    }
    parts_len(parts, true)
}

impl Part for StandardCommunity {
    ghost Said = { ℕ };

    ghost says = { λ community. community.0 };

    ghost octets = { λ _. octets_be 4 };

    ghost fits = { λ _. FitsIn 4 };

    #[tactic(auto, using(octseq::proofs::Written::length_be))]
    fn part_len(&self, _wide: bool) -> Option<usize> {
        Some(self.0.to_be_bytes().len())
    }

    fn put_part<B: OctetsBuilder>(&self, _wide: bool, builder: &mut B) -> Result<(), AllocError> {
        put_u32(builder, self.0)
    }
}

/// COMMUNITIES, of items as values.
impl<'a> ComposeAttribute for &'a [StandardCommunity] {
    ghost says = { λ items. Written.communities (map (λ community. community.0) items.now) };

    fn attribute_type(&self) -> AttributeType {
        AttributeType::Communities
    }

    fn compose_len(&self, _session: &SessionConfig) -> Option<usize> {
        some_len(self)
    }

    fn put_some<B: OctetsBuilder>(
        &self,
        _session: &SessionConfig,
        builder: &mut B,
    ) -> Result<(), AllocError> {
        put_parts(builder, self, true)
    }
}

impl Part for ClusterId {
    ghost Said = { ℕ };

    ghost says = { λ id. id.0 };

    ghost octets = { λ _. octets_be 4 };

    ghost fits = { λ _. FitsIn 4 };

    #[tactic(auto, using(octseq::proofs::Written::length_be))]
    fn part_len(&self, _wide: bool) -> Option<usize> {
        Some(self.0.to_be_bytes().len())
    }

    fn put_part<B: OctetsBuilder>(&self, _wide: bool, builder: &mut B) -> Result<(), AllocError> {
        put_u32(builder, self.0)
    }
}

/// CLUSTER_LIST, of items as values.
impl<'a> ComposeAttribute for &'a [ClusterId] {
    ghost says = { λ items. Written.cluster_list (map (λ id. id.0) items.now) };

    fn attribute_type(&self) -> AttributeType {
        AttributeType::ClusterList
    }

    fn compose_len(&self, _session: &SessionConfig) -> Option<usize> {
        some_len(self)
    }

    fn put_some<B: OctetsBuilder>(
        &self,
        _session: &SessionConfig,
        builder: &mut B,
    ) -> Result<(), AllocError> {
        put_parts(builder, self, true)
    }
}

impl Part for ExtendedCommunity {
    ghost Said = { ℕ };

    ghost says = { λ community. community.0 };

    ghost octets = { λ _. octets_be 8 };

    ghost fits = { λ _. FitsIn 8 };

    #[tactic(auto, using(octseq::proofs::Written::length_be))]
    fn part_len(&self, _wide: bool) -> Option<usize> {
        Some(self.0.to_be_bytes().len())
    }

    fn put_part<B: OctetsBuilder>(&self, _wide: bool, builder: &mut B) -> Result<(), AllocError> {
        put_u64(builder, self.0)
    }
}

/// EXTENDED_COMMUNITIES, of items as values.
impl<'a> ComposeAttribute for &'a [ExtendedCommunity] {
    ghost says = { λ items. Written.extended_communities (map (λ community. community.0) items.now) };

    fn attribute_type(&self) -> AttributeType {
        AttributeType::ExtendedCommunities
    }

    fn compose_len(&self, _session: &SessionConfig) -> Option<usize> {
        some_len(self)
    }

    fn put_some<B: OctetsBuilder>(
        &self,
        _session: &SessionConfig,
        builder: &mut B,
    ) -> Result<(), AllocError> {
        put_parts(builder, self, true)
    }
}

/// Returns the octets of a large community.
#[tactic(auto, using(octseq::proofs::Written::written_4))]
fn octets_of(community: &LargeCommunity) -> [u8; 12]
    ensures octets { result ≡ large_octets (community.now.global, (community.now.data1, community.now.data2)) }
    ensures fits { FitsLarge (community.now.global, (community.now.data1, community.now.data2)) }
{
    let global = community.global.to_be_bytes();
    let data1 = community.data1.to_be_bytes();
    let data2 = community.data2.to_be_bytes();
    [
        global[0], global[1], global[2], global[3], data1[0], data1[1], data1[2], data1[3],
        data2[0], data2[1], data2[2], data2[3],
    ]
}

impl Part for LargeCommunity {
    ghost Said = { ℕ × (ℕ × ℕ) };

    ghost says = { λ community. (community.global, (community.data1, community.data2)) };

    ghost octets = { λ _. large_octets };

    ghost fits = { λ _. FitsLarge };

    #[tactic(auto, using(octseq::proofs::Written::length_be))]
    fn part_len(&self, _wide: bool) -> Option<usize> {
        Some(octets_of(self).len())
    }

    fn put_part<B: OctetsBuilder>(&self, _wide: bool, builder: &mut B) -> Result<(), AllocError> {
        put_slice(builder, &octets_of(self))
    }
}

/// LARGE_COMMUNITIES, of items as values.
impl<'a> ComposeAttribute for &'a [LargeCommunity] {
    ghost says = { λ items. Written.large_communities
        (map (λ community. (community.global, (community.data1, community.data2))) items.now) };

    fn attribute_type(&self) -> AttributeType {
        AttributeType::LargeCommunities
    }

    fn compose_len(&self, _session: &SessionConfig) -> Option<usize> {
        some_len(self)
    }

    fn put_some<B: OctetsBuilder>(
        &self,
        _session: &SessionConfig,
        builder: &mut B,
    ) -> Result<(), AllocError> {
        put_parts(builder, self, true)
    }
}
