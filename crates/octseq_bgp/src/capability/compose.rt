//! Writing capabilities.
ghost use Rattle.std.specs.Prelude.{◌≡◌, ◌≤◌, ◌<◌, ◌+◌, ◌^◌, ◌↔◌, ℕ, true, map, length, IsTrue, IsSome, IfSome};
ghost use Rattle.std.specs.List.{AllByRecursion};
ghost use Rattle.octseq.specs.Limit.{IsWithin};
ghost use Rattle.octseq_format.specs.Row.{row_octets};
ghost use Rattle.octseq_bgp.specs.Capability.{ArePaths};
ghost use Rattle.octseq_bgp.specs.ItemOctets.{tuple_octets, FitsTuple};
ghost use Rattle.octseq_bgp.specs.TupleOf.{tuple_of};
ghost use Rattle.octseq_bgp.specs.Puts.{AppendsSomeUnlimited};
ghost use Rattle.octseq_bgp.specs.WrittenCapability.{WrittenCapability as Written, FitsCapability, written_code};
ghost use Rattle.octseq_bgp.specs.WrittenCapability.{written_value};

use crate::attribute::Asn;
use crate::capability::capability_type::CapabilityType;
use crate::capability::family_tuple::FamilyTuple;
use crate::part::{Part, parts_len, put_parts};
use crate::put::{put_slice, put_u16};
use octseq::OctetsBuilder;
use std::alloc::AllocError;

/// A capability that can be written.
pub trait ComposeCapability {
    // What it says.
    ghost says: { Self → Written };

    /// Returns the code.
    fn code(&self) -> u8
        ensures { result ≡ written_code (says self.now) };

    /// Returns the number of octets after the code and the length, or `None` if it doesn't fit: they are more than 255,
    /// or families with path ids are none, or not received, sent, or both.
    fn compose_len(&self) -> Option<usize>
        ensures some { IfSome result (λ len. len ≡ length (written_value (says self.now))) }
        ensures fit { IsSome result ↔ FitsCapability (says self.now) };

    /// Appends the octets after the code and the length, which are known to fit.
    ///
    /// # Errors
    ///
    /// `AllocError` if a request for memory was refused. Some octets may then have been appended.
    fn put_some<B: OctetsBuilder>(&self, builder: &mut B) -> Result<(), AllocError>
        requires fit { FitsCapability (says self.now) }
        requires within { IsWithin B.limit (length (B.content builder.old) + length (written_value (says self.now))) }
        ensures puts { AppendsSomeUnlimited B.asks result (written_value (says self.now))
            (B.content builder.old) (B.content builder.new) }
        ensures borrows { B.borrows builder.new ≡ B.borrows builder.old };
}

impl Part for FamilyTuple {
    ghost Said = { ℕ × (ℕ × ℕ) };

    ghost says = { tuple_of };

    ghost octets = { λ _. tuple_octets };

    ghost fits = { λ _. FitsTuple };

    fn part_len(&self, _wide: bool) -> Option<usize> {
        Some(octets_of(self).len())
    }

    fn put_part<B: OctetsBuilder>(&self, _wide: bool, builder: &mut B) -> Result<(), AllocError> {
        put_slice(builder, &octets_of(self))
    }
}

/// Returns the octets of an address family with flags.
fn octets_of(tuple: &FamilyTuple) -> [u8; 4]
    ensures octets { result ≡ tuple_octets (tuple.now.afi, (tuple.now.safi, tuple.now.flags)) }
    ensures fits { FitsTuple (tuple.now.afi, (tuple.now.safi, tuple.now.flags)) }
{
    let afi = tuple.afi.to_be_bytes();
    let (safi, flags) = (tuple.safi, tuple.flags);
    [afi[0], afi[1], safi, flags]
}

/// A capability to write.
#[derive(Clone, Copy, Debug)]
pub enum NewCapability<'a> {
    /// An address family: its AFI, a reserved octet, and its SAFI.
    MultiProtocol(u16, u8, u8),
    /// Route refresh.
    RouteRefresh,
    /// Extended messages.
    ExtendedMessage,
    /// Graceful restart: its sixteen bits, and address families with flags.
    GracefulRestart(u16, &'a [FamilyTuple]),
    /// Four-octet AS numbers, with the sender's.
    FourOctetAsn(Asn),
    /// Address families with path ids.
    AddPath(&'a [FamilyTuple]),
    /// Enhanced route refresh.
    EnhancedRouteRefresh,
    /// Octets of a code, as they are.
    Unknown(u8, &'a [u8]),
}

/// Whether each family has its path ids received, sent, or both.
fn are_paths(families: &[FamilyTuple]) -> bool
    ensures { IsTrue result ↔ ArePaths (map tuple_of families.now) }
{
    let mut left = families;
    'families: while let Some((tuple, others)) = left.split_first() {
        if tuple.flags < 1 || tuple.flags > 3 {
            return false;
        }
        left = others;
    }
    true
}

/// Returns the number of octets of address families with flags, or `None` if they are more than `most`.
fn families_len(families: &[FamilyTuple], most: usize) -> Option<usize>
    requires { most ≤ 255 }
    ensures some { IfSome result (λ len. len
        ≡ length (row_octets tuple_octets (map tuple_of families.now))) }
    ensures fit { IsSome result ↔ AllByRecursion FitsTuple
        (map tuple_of families.now)
        × (length (row_octets tuple_octets (map tuple_of families.now))
        ≤ most) }
{
    let len = parts_len(families, true)?;
    if len > most {
        return None;
    }
    Some(len)
}

/// Returns the number of octets of a graceful restart after its code and length, or `None` if they are more than 255.
#[tactic(auto, using(octseq::proofs::Written::length_be))]
fn restart_len(bits: u16, families: &[FamilyTuple]) -> Option<usize>
    ensures some { IfSome result (λ len. len ≡ length (written_value (Written.graceful_restart
        (record { bits = bits; families = map tuple_of families.now })))) }
    ensures fit { IsSome result ↔ FitsCapability (Written.graceful_restart
        (record { bits = bits; families = map tuple_of families.now })) }
{
    let len = families_len(families, 253)?;
    Some(2 + len)
}

/// Returns the number of octets of families with path ids after their code and length, or `None` if they don't fit.
fn add_path_len(families: &[FamilyTuple]) -> Option<usize>
    ensures some { IfSome result (λ len. len ≡ length (written_value (Written.add_path (map tuple_of families.now)))) }
    ensures fit { IsSome result ↔ FitsCapability (Written.add_path (map tuple_of families.now)) }
{
    if families.is_empty() || !are_paths(families) {
        return None;
    }
    families_len(families, 255)
}

impl<'a> ComposeCapability for NewCapability<'a> {
    ghost use Rattle.octseq_bgp.specs.NewCapability.{new_capability};

    ghost says = { new_capability };

    fn code(&self) -> u8 {
        match self {
            NewCapability::MultiProtocol(_, _, _) => CapabilityType::MultiProtocol.number(),
            NewCapability::RouteRefresh => CapabilityType::RouteRefresh.number(),
            NewCapability::ExtendedMessage => CapabilityType::ExtendedMessage.number(),
            NewCapability::GracefulRestart(_, _) => CapabilityType::GracefulRestart.number(),
            NewCapability::FourOctetAsn(_) => CapabilityType::FourOctetAsn.number(),
            NewCapability::AddPath(_) => CapabilityType::AddPath.number(),
            NewCapability::EnhancedRouteRefresh => CapabilityType::EnhancedRouteRefresh.number(),
            NewCapability::Unknown(code, _) => *code,
        }
    }

    #[tactic(auto, using(octseq::proofs::Written::length_be))]
    fn compose_len(&self) -> Option<usize> {
        match self {
            NewCapability::MultiProtocol(afi, reserved, safi) => {
                multi_protocol(*afi, *reserved, *safi).part_len(true)
            }
            NewCapability::GracefulRestart(bits, families) => restart_len(*bits, families),
            NewCapability::FourOctetAsn(asn) => asn.part_len(true),
            NewCapability::AddPath(families) => add_path_len(families),
            NewCapability::Unknown(code, octets) => {
                // A code is a number below 256.
                let _code = *code;
                if octets.len() > VALUE_MAX {
                    return None;
                }
                Some(octets.len())
            }
            _ => Some(0),
        }
    }

    fn put_some<B: OctetsBuilder>(&self, builder: &mut B) -> Result<(), AllocError> {
        match self {
            NewCapability::MultiProtocol(afi, reserved, safi) => {
                multi_protocol(*afi, *reserved, *safi).put_part(true, builder)
            }
            NewCapability::GracefulRestart(bits, families) => {
                put_u16(builder, *bits)?;
                put_parts(builder, families, true)
            }
            NewCapability::FourOctetAsn(asn) => asn.put_part(true, builder),
            NewCapability::AddPath(families) => put_parts(builder, families, true),
            NewCapability::Unknown(_, octets) => put_slice(builder, octets),
            _ => Ok(()),
        }
    }
}

/// The greatest number of octets after the code and the length of a capability: RFC 5492, 4.
const VALUE_MAX: usize = 255;

/// Returns the octets of a multiprotocol capability as a tuple, with the reserved octet in the place of the SAFI.
fn multi_protocol(afi: u16, reserved: u8, safi: u8) -> FamilyTuple
    ensures { tuple_of result ≡ (afi, (reserved, safi)) }
{
    FamilyTuple {
        afi,
        safi: reserved,
        flags: safi,
    }
}
