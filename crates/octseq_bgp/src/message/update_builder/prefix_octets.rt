//! The octets of a prefix: RFC 4271, 4.3, and RFC 7911, 3.
ghost use Rattle.std.specs.Prelude.{◌≡◌, ◌≤◌, ◌<◌, ◌+◌, ◌*◌, ◌^◌, ◌↔◌, take, slice_range, IfSome, IsTrue};
ghost use Rattle.octseq_bgp.specs.Parts.{octets_of_bits};
ghost use Rattle.octseq_bgp.specs.PrefixValue.{address_from};
ghost use Rattle.octseq_bgp.specs.Written.{IsPrefixOf, prefix_octets, written_prefix};

use crate::compose::Tail;
use crate::family::{Afi, AfiSafiType};
use crate::prefix::{PathId, Prefix, address_of, four_at};
use crate::put::put_few;
use crate::session::SessionConfig;
use octseq::OctetsBuilder;
use std::alloc::AllocError;

/// The octets of a prefix, in a range.
#[derive(Drop)]
pub(crate) struct PrefixOctets {
    octets: [u8; 21],
    start: usize,
    end: usize,
    ghost within: { (start ≤ end) × (end ≤ 21) },
}

impl PrefixOctets {
    /// Returns the octets of a prefix, with the bits after its length cleared.
    #[inline(always)]
    pub(crate) fn new(prefix: &Prefix, path_id: Option<PathId>) -> PrefixOctets
        requires { prefix.now.len ≤ 128 }
        ensures octets { slice_range result.octets result.start result.end
            ≡ prefix_octets (written_prefix prefix.now path_id) }
        ensures path_id { IfSome path_id (λ id. id.0 < 256 ^ 4) }
    {
        let len = octets_of_bits(prefix.len);
        let address = cleared_address(prefix, len);
        let (id, start) = match path_id {
            Some(id) => (id.0.to_be_bytes(), 0),
            None => ([0; 4], 4),
        };
        let mut octets = [0; 21];
        octets[0..4].copy_from_slice(&id);
        octets[4] = prefix.len;
        octets[5..21].copy_from_slice(&address);
        PrefixOctets {
            octets,
            start,
            end: 5 + len,
        }
    }

    /// Returns them.
    pub(crate) fn as_slice(&self) -> &[u8]
        ensures { result.now ≡ slice_range self.now.octets self.now.start self.now.end }
    {
        &self.octets[self.start..self.end]
    }
}

impl Tail for PrefixOctets {
    ghost octets = { λ p. slice_range p.octets p.start p.end };

    ghost fits = { λ _. Unit {0} };

    #[inline(always)]
    fn len(&self) -> usize {
        self.end - self.start
    }

    #[inline(always)]
    fn put<B: OctetsBuilder>(&self, builder: &mut B) -> Result<(), AllocError> {
        // A range that is known here is read from where the octets were made.
        match (self.start, self.end) {
            (4, 7) => put_few(builder, &self.octets[4..7]),
            (4, 8) => put_few(builder, &self.octets[4..8]),
            (4, 9) => put_few(builder, &self.octets[4..9]),
            (start, end) => put_few(builder, &self.octets[start..end]),
        }
    }
}

/// Returns how many octets a number of bits needs.
pub(crate) fn octets_of_bits(bits: u8) -> usize
    ensures octets { result ≡ octets_of_bits bits }
    ensures bits { bits ≤ 8 * result }
    ensures few { 8 * result ≤ bits + 7 }
{
    let bits = usize::from(bits);
    bits / 8 + (bits % 8 + 7) / 8
}

/// Returns an address with the bits after a prefix of `len` octets cleared.
#[inline(always)]
fn cleared_address(prefix: &Prefix, len: usize) -> [u8; 16]
    requires few { 8 * len ≤ prefix.now.len + 7 }
    requires most { len ≤ 16 }
    ensures { take len result ≡ address_from len 0 prefix.now.len prefix.now.address }
{
    if prefix.len > 32 {
        return address_of(&prefix.address, prefix.len);
    }
    let [a, b, c, d] = four_at(&prefix.address, 0, prefix.len);
    [a, b, c, d, 0, 0, 0, 0, 0, 0, 0, 0, 0, 0, 0, 0]
}

/// Whether a prefix is one of a family, with a path id exactly if the session has them for it.
pub(crate) fn is_prefix_of(
    session: &SessionConfig,
    family: AfiSafiType,
    prefix: &Prefix,
    path_id: Option<PathId>,
) -> bool
    ensures { IsTrue result ↔ IsPrefixOf session.now family prefix.now path_id }
{
    let afi = family.afi();
    let most = match afi {
        Afi::Ipv4 => 32,
        Afi::Ipv6 => 128,
    };
    prefix.afi == afi && prefix.len <= most && path_id.is_some() == session.add_path.has(family)
}
