//! What an attribute has before its octets: RFC 4271, 4.3.
ghost use Rattle.std.specs.Prelude.{◌≡◌, ◌<◌, ◌≤◌, ◌^◌, ◌++◌, ◌∷◌, [], take, length, IfSome, IsNone, IsSome};
ghost use Rattle.octseq.specs.Integer.{octets_be};
ghost use Rattle.octseq_bgp.specs.Parts.{is_extended};
ghost use Rattle.octseq_bgp.specs.Written.{flags_for, head_octets, length_width};

use crate::attribute::AttributeType;

/// The flags, the type and the length of an attribute.
#[derive(Drop)]
pub(super) struct Head {
    octets: [u8; 4],
    len: usize,
    ghost within: { len ≤ 4 },
}

impl Head {
    /// Returns the head of an attribute with `len` octets, or `None` if its length can't say so many.
    pub(super) fn new(flags: u8, type_code: u8, len: usize) -> Option<Head>
        ensures octets { IfSome result (λ h. take h.len h.octets ≡ head_octets flags type_code len) }
        ensures some { IsSome result → len < 256 ^ length_width flags }
        ensures few { IsSome result → len ≤ 65535 }
        ensures none { IsNone result → 256 ^ length_width flags ≤ len }
        ensures flags { flags < 256 }
        ensures type_code { type_code < 256 }
    {
        if flags / 16 % 2 == 1 {
            if len > 65535 {
                return None;
            }
            let len = (len as u16).to_be_bytes();
            return Some(Head {
                octets: [flags, type_code, len[0], len[1]],
                len: 4,
            });
        }
        if len > 255 {
            return None;
        }
        Some(Head {
            octets: [flags, type_code, len as u8, 0],
            len: 3,
        })
    }

    /// Returns its octets.
    pub(super) fn as_slice(&self) -> &[u8]
        ensures { result.now ≡ take self.now.len self.now.octets }
    {
        &self.octets[..self.len]
    }
}

/// Returns the flags of an attribute of a type with `len` octets.
pub(super) fn flags_for(kind: AttributeType, len: usize) -> u8
    ensures { result ≡ flags_for kind len }
{
    let flags = 64 * kind.flags();
    if len > 255 { flags + 16 } else { flags }
}

/// Returns how many octets an attribute of a type has before its own, by how many it has with them.
pub(super) fn head_len(len: usize) -> usize
    ensures short { len ≤ 258 → result ≡ 3 }
    ensures long { 258 < len → result ≡ 4 }
{
    if len > 258 { 4 } else { 3 }
}
