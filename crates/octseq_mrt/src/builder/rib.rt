//! RIBs, written: RFC 6396, 4.3.2, and RFC 8050, 4.
ghost use Rattle.std.specs.Prelude.{◌≡◌, ◌≤◌, ◌<◌, ◌+◌, ◌↔◌, ◌⊎◌, length, take, true, None, is_some, IsTrue, IfOk};
ghost use Rattle.std.specs.Prelude.{OnOk, OnErr};
ghost use Rattle.octseq.specs.Limit.{ExceedsLimit};
ghost use Rattle.octseq.specs.Refusal.{IsShort, IsMemory, IsMalformed, append_error, write_error};
ghost use Rattle.octseq_bgp.specs.Family.{afi_of};
ghost use Rattle.octseq_bgp.specs.Parts.{octets_of_bits};
ghost use Rattle.octseq_bgp.specs.Prefix.{most_bits};
ghost use Rattle.octseq_bgp.specs.Written.{written_prefix};
ghost use Rattle.octseq_mrt.specs.Building.{FitsPrefix, RibWritten, address_bits, begun_rib, pushed_route, rib_once};
ghost use Rattle.octseq_mrt.specs.Building.{with_route};
ghost use Rattle.octseq_mrt.specs.Joined.{body_limit, parts_joined};
ghost use Rattle.octseq_mrt.specs.Rib.{path_id_of};
ghost use Rattle.octseq_mrt.specs.Written.{FitsOptional, FitsRib, FitsRoute, rib_octets, route_octets};
ghost use Rattle.octseq_mrt.specs.declared.kind.RecordKind.TheVariants as kind;

use crate::builder::parts::{BODY_MAX, append_parts, optional_octets, push_item};
use crate::kind::RecordKind;
use octseq::builder::AsOctetsMut;
use octseq::{AppendError, AsOctets, OctetsBuilder, Parser, Truncate, WriteError};
use octseq_bgp::family::{Afi, AfiSafiType};
use octseq_bgp::prefix::{Nlri, OctetsOfBits, PathId, Prefix};
use octseq_format::Reckoning;

/// Whether a prefix is one of an address family.
fn is_prefix_of(prefix: &Prefix, family: AfiSafiType) -> bool
    ensures fits { IsTrue result ↔ FitsPrefix family prefix.now }
    ensures most { IsTrue result → prefix.now.len ≤ 128 }
{
    let afi = family.afi();
    let most = match afi {
        Afi::Ipv4 => 32,
        Afi::Ipv6 => 128,
    };
    prefix.afi == afi && prefix.len <= most
}

/// Returns the octets of a prefix, with the bits after its length cleared, and how many of the sixteen these are.
fn prefix_octets(prefix: &Prefix) -> ([u8; 16], usize)
    requires { prefix.now.len ≤ 128 }
    ensures octets { take result.1 result.0 ≡ (written_prefix prefix.now None).octets }
    ensures many { result.1 ≡ octets_of_bits prefix.now.len }
    ensures most { result.1 ≤ 16 }
{
    let octets: &[u8] = &prefix.address;
    let nlri = Nlri {
        path_id: None,
        afi: prefix.afi,
        len: prefix.len,
        octets: Parser::from_ref(octets),
    };
    let cleared = nlri.prefix();
    let address = cleared.address;
    (address, OctetsOfBits::of(usize::from(prefix.len)))
}

/// Returns the number of a path id.
fn path_number(path_id: Option<PathId>) -> Option<u32>
    ensures number { result ≡ path_id_of path_id }
    ensures fits { FitsOptional (is_some path_id) (path_id_of path_id) }
{
    match path_id {
        Some(id) => Some(id.0),
        None => None,
    }
}

/// The octets of a RIB that is being written: those of a record of the kind [`Rib`](RecordKind::Rib), after its header.
/// They are a RIB at all times.
#[derive(Drop)]
pub struct RibBuilder<B: AsOctets> {
    octets: B,
    family: AfiSafiType,
    paths: bool,
    count_at: usize,
    count: u16,
    ghost rib: { RibWritten (address_bits family) paths (B.content octets) count_at count } by { rib_once _ _ _ _ _ },
}

impl<B: OctetsBuilder + Truncate + AsOctetsMut> RibBuilder<B> {
    ghost use Rattle.octseq_mrt.specs.Builders.{rib_in, rib_builder, rib_family, has_paths};

    /// Begins a RIB of an address family without entries, with path ids or without. What the builder holds is removed.
    /// Bits after the length of the prefix are written as 0.
    ///
    /// # Errors
    ///
    /// `Malformed` if the prefix isn't one of the family: of its addresses, and of at most 32 or 128 bits. Otherwise
    /// `Short` if the RIB would exceed the limit of the builder's type, or `Memory` if a request for memory was
    /// refused. The builder is then dropped.
    pub fn new(
        octets: B,
        family: AfiSafiType,
        paths: bool,
        sequence: u32,
        prefix: &Prefix,
    ) -> Result<RibBuilder<B>, WriteError>
        ensures rib { IfOk result (λ it. rib_in it ≡ begun_rib sequence prefix.now) }
        ensures family { IfOk result (λ it. rib_family it ≡ family) }
        ensures paths { IfOk result (λ it. has_paths it ≡ paths) }
        ensures malformed { IsMalformed write_error result ↔ ¬ FitsPrefix family prefix.now }
        ensures short { IsShort write_error result ↔ FitsPrefix family prefix.now
            × ExceedsLimit B.limit (7 + octets_of_bits prefix.now.len) }
        ensures memory { IsMemory write_error result → B.asks ≡ true }
        ensures borrows { IfOk result (λ it. B.borrows (rib_builder it) ≡ B.borrows octets) }
    {
        if !is_prefix_of(prefix, family) {
            return Err(WriteError::Malformed);
        }
        let (address, len) = prefix_octets(prefix);
        let mut octets = octets;
        octets.truncate(0);
        let head: [&[u8]; 4] = [
            &sequence.to_be_bytes(),
            &prefix.len.to_be_bytes(),
            &address[..len],
            &[0, 0],
        ];
        match append_parts(&mut octets, &head, BODY_MAX) {
            Ok(()) => Ok(RibBuilder {
                octets,
                family,
                paths,
                count_at: 5 + len,
                count: 0,
            }),
            Err(error) => Err(WriteError::from(error)),
        }
    }

    /// Pushes an entry, whole or not at all: the number of a peer, the time at which its route was received, in seconds
    /// since 1970, a path id, and the octets of its path attributes. What these are isn't looked at. AS numbers in them
    /// have four octets.
    ///
    /// # Errors
    ///
    /// `Malformed` if it has a path id where the RIB has none, or none where the RIB has them. Otherwise `Short` if
    /// there are more than 65,535 octets of attributes, or the RIB already has 65,535 entries, or would exceed the
    /// limit of the builder's type. Otherwise `Memory` if a request for memory was refused. The RIB is then unchanged.
    pub fn push_entry(
        &mut self,
        peer_index: u16,
        originated_time: u32,
        path_id: Option<PathId>,
        attributes: &[u8],
    ) -> Result<(), WriteError>
        ensures ok { OnOk result (rib_in self.new
            ≡ with_route (rib_in self.old) (pushed_route peer_index originated_time path_id attributes.now)) }
        ensures err { OnErr result (rib_in self.new ≡ rib_in self.old) }
        ensures family { rib_family self.new ≡ rib_family self.old }
        ensures paths { has_paths self.new ≡ has_paths self.old }
        ensures malformed { IsMalformed write_error result ↔ ¬ (is_some path_id ≡ has_paths self.old) }
        ensures short { IsShort write_error result ↔ (is_some path_id ≡ has_paths self.old)
            × ((65535 < length attributes.now) ⊎ (65535 ≤ length (rib_in self.old).entries)
            ⊎ ExceedsLimit (body_limit B.limit) (length (rib_octets (with_route (rib_in self.old)
            (pushed_route peer_index originated_time path_id attributes.now))))) }
        ensures memory { IsMemory write_error result → B.asks ≡ true }
        ensures borrows { B.borrows (rib_builder self.new) ≡ B.borrows (rib_builder self.old) }
    {
        if path_id.is_some() != self.paths {
            return Err(WriteError::Malformed);
        }
        let Ok(len) = u16::try_from(attributes.len()) else {
            return Err(WriteError::Short);
        };
        let (path, path_len) = optional_octets(path_number(path_id));
        let parts: [&[u8]; 5] = [
            &peer_index.to_be_bytes(),
            &originated_time.to_be_bytes(),
            &path[..path_len],
            &len.to_be_bytes(),
            attributes,
        ];
        self.push_parts(peer_index, originated_time, path_id, attributes, &parts)?;
        Ok(())
    }

    /// Pushes an entry with these octets.
    fn push_parts(
        &mut self,
        peer_index: u16,
        originated_time: u32,
        path_id: Option<PathId>,
        attributes: &[u8],
        parts: &[&[u8]],
    ) -> Result<(), AppendError>
        requires fits { FitsRoute (has_paths self.old)
            (pushed_route peer_index originated_time path_id attributes.now) }
        requires octets { parts_joined parts.now
            ≡ route_octets (pushed_route peer_index originated_time path_id attributes.now) }
        ensures ok { OnOk result (rib_in self.new
            ≡ with_route (rib_in self.old) (pushed_route peer_index originated_time path_id attributes.now)) }
        ensures err { OnErr result (rib_in self.new ≡ rib_in self.old) }
        ensures family { rib_family self.new ≡ rib_family self.old }
        ensures paths { has_paths self.new ≡ has_paths self.old }
        ensures short { IsShort append_error result ↔ (65535 ≤ length (rib_in self.old).entries)
            ⊎ ExceedsLimit (body_limit B.limit) (length (rib_octets (with_route (rib_in self.old)
            (pushed_route peer_index originated_time path_id attributes.now)))) }
        ensures memory { IsMemory append_error result → B.asks ≡ true }
        ensures borrows { B.borrows (rib_builder self.new) ≡ B.borrows (rib_builder self.old) }
    {
        match push_item(&mut self.octets, self.count_at, self.count, parts) {
            Ok(count) => {
                self.count = count;
                Ok(())
            }
            Err(error) => Err(error),
        }
    }

    /// Returns the kind of a record with these octets.
    pub fn kind(&self) -> RecordKind
        ensures { result ≡ kind.Rib (rib_family self.now) (has_paths self.now) }
    {
        RecordKind::Rib(self.family, self.paths)
    }

    /// Returns the number of entries.
    pub fn count(&self) -> u16
        ensures { result ≡ length (rib_in self.now).entries }
    {
        self.count
    }

    /// Returns the octets of the RIB so far.
    pub fn as_slice(&self) -> &[u8]
        ensures octets { result.now ≡ rib_octets (rib_in self.now) }
        ensures fits { FitsRib (most_bits (afi_of (rib_family self.now))) (FitsRoute (has_paths self.now))
            (rib_in self.now) }
    {
        self.octets.as_ref()
    }

    /// Returns the builder, which holds the octets of the RIB.
    pub fn finish(self) -> B
        ensures octets { result ≡ rib_builder self }
        ensures content { B.content result ≡ rib_octets (rib_in self) }
        ensures fits { FitsRib (most_bits (afi_of (rib_family self))) (FitsRoute (has_paths self)) (rib_in self) }
        ensures few { length (B.content result) ≤ 4294967295 }
    {
        self.octets
    }
}
