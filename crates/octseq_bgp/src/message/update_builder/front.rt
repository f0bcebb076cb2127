//! What an MP_REACH_NLRI has before its prefixes: RFC 4760, 3.
ghost use Rattle.std.specs.Prelude.{◌≡◌, ◌≤◌, ◌↔◌, ◌++◌, ◌∷◌, [], take, length, IfSome, IsSome};
ghost use Rattle.octseq.specs.Integer.{octets_be};
ghost use Rattle.octseq.specs.Part.{part_of};
ghost use Rattle.octseq_bgp.specs.Family.{afi_number, safi_number};
ghost use Rattle.octseq_bgp.specs.Written.{IsHopOf, reach_front};

use crate::attribute::NextHop;
use crate::family::AfiSafiType;

/// A family, next hops after their length, and a reserved octet.
#[derive(Drop)]
pub(crate) struct Front {
    octets: [u8; 37],
    len: usize,
    ghost within: { len ≤ 37 },
}

/// Returns two addresses, one after the other.
fn joined(first: &[u8; 16], second: &[u8; 16]) -> [u8; 32]
    ensures { result ≡ first.now ++ second.now }
{
    let mut octets = [0; 32];
    octets[0..16].copy_from_slice(first);
    octets[16..32].copy_from_slice(second);
    octets
}

impl Front {
    /// Returns the front of an MP_REACH_NLRI, or `None` if its next hops aren't those of its family.
    pub(crate) fn reach(family: AfiSafiType, next_hop: &NextHop) -> Option<Front>
        ensures octets { IfSome result (λ f. take f.len f.octets ≡ reach_front family next_hop.now) }
        ensures some { IsSome result ↔ IsHopOf family next_hop.now }
    {
        match next_hop {
            NextHop::Ipv4(address) => {
                if family.afi_number() != 1 {
                    return None;
                }
                Some(Front::new(family, address))
            }
            NextHop::Ipv6(address) => Some(Front::new(family, address)),
            NextHop::Ipv6LinkLocal(address, link_local) => {
                Some(Front::new(family, &joined(address, link_local)))
            }
        }
    }

    fn new(family: AfiSafiType, next_hops: &[u8]) -> Front
        requires { length next_hops.now ≤ 32 }
        ensures { take result.len result.octets ≡ octets_be 2 (afi_number family)
            ++ (octets_be 1 (safi_number family) ++ (part_of 1 next_hops.now ++ 0 ∷ [])) }
    {
        let afi = family.afi_number().to_be_bytes();
        let len = next_hops.len();
        let mut octets = [0; 37];
        octets[0] = afi[0];
        octets[1] = afi[1];
        octets[2] = family.safi_number();
        octets[3] = len as u8;
        octets[4..4 + len].copy_from_slice(next_hops);
        Front {
            octets,
            len: 5 + len,
        }
    }

    /// Returns its octets.
    pub(crate) fn as_slice(&self) -> &[u8]
        ensures { result.now ≡ take self.now.len self.now.octets }
    {
        &self.octets[..self.len]
    }
}
