//! Fields: parts of data that are one word each.
ghost use Rattle.std.specs.Prelude.{◌≡◌, ◌≤◌, ℕ, List, length, option_map, IsNone, IfSome};
ghost use Rattle.octseq_dns_name.specs.Owned.{owned_labels};
ghost use Rattle.octseq_dns_name.specs.Read.{labels_of};
ghost use Rattle.octseq_dns_name.specs.Wire.{IsWireOf};
ghost use Rattle.octseq_dns_text.specs.Fields.{IsRtypeWord, IsNameWord, IsTagWord, IsFieldText};
ghost use Rattle.octseq_dns_text.specs.Words.{IsCountedWord};

use crate::types::scan_type;
use crate::word::{
    counted, hash_octets, held, ipv4_octets, ipv6_octets, salt_octets, string_octets, time_octets,
    u8_octets, u16_octets, u32_octets,
};
use octseq::{Array, AsOctets};
use octseq_dns_data::is_tag;
use octseq_dns_data::layout::Field;
use octseq_dns_name::name::a_name_has_labels;
use octseq_dns_name::{Name, ParsedName};
use octseq_dns_scan::STRING_MAX;

/// Returns the octets of a field, or `None` if the word isn't one.
pub(crate) fn field_octets<R: AsOctets + Copy>(
    field: Field,
    word: &[u8],
    origin: Option<&ParsedName<R>>,
) -> Option<Array<256>>
    ensures some { IfSome result (λ found. IsFieldText (option_map (λ name. labels_of name.now) origin.entry) field
        word.now found.content) }
    ensures none { IsNone result → (octets : List ℕ)
        → ¬ (IsFieldText (option_map (λ name. labels_of name.now) origin.entry) field word.now octets) }
{
    match field {
        Field::U8 => u8_octets(word),
        Field::U16 => u16_octets(word),
        Field::U32 => u32_octets(word),
        Field::Rtype => rtype_octets(word),
        Field::Time => time_octets(word),
        Field::Ipv4 => ipv4_octets(word),
        Field::Ipv6 => ipv6_octets(word),
        Field::Name => name_octets(word, origin),
        Field::String => string_octets(word),
        Field::Tag => tag_octets(word),
        Field::Salt => salt_octets(word),
        Field::OwnerHash => hash_octets(word),
    }
}

/// Returns the octets of a type.
fn rtype_octets(word: &[u8]) -> Option<Array<256>>
    ensures some { IfSome result (λ found. IsRtypeWord word.now found.content) }
    ensures none { IsNone result → (octets : List ℕ) → ¬ (IsRtypeWord word.now octets) }
{
    match scan_type(word) {
        Some(rtype) => Some(held(&rtype.to_int().to_be_bytes())),
        None => None,
    }
}

/// Returns the wire form of a name, which may be relative to an origin if there is one.
fn name_octets<R: AsOctets + Copy>(
    word: &[u8],
    origin: Option<&ParsedName<R>>,
) -> Option<Array<256>>
    ensures some { IfSome result (λ found. IsNameWord (option_map (λ name. labels_of name.now) origin.entry) word.now
        found.content) }
    ensures none { IsNone result → (octets : List ℕ)
        → ¬ (IsNameWord (option_map (λ name. labels_of name.now) origin.entry) word.now octets) }
{
    match origin {
        Some(origin) => match Name::from_text_octets_with_origin(word, origin) {
            Ok(name) => Some(wire_octets(&name)),
            Err(_) => None,
        },
        None => match Name::from_text_octets(word) {
            Ok(name) => Some(wire_octets(&name)),
            Err(_) => None,
        },
    }
}

/// Returns the wire form of a name.
fn wire_octets(name: &Name<Array<255>>) -> Array<256>
    ensures { IsWireOf (owned_labels name.now) result.content }
{
    a_name_has_labels(&name.parsed());
    // A name has at most 255 octets.
    let _len = name.len();
    held(name.as_slice())
}

/// Returns a property tag after its length.
fn tag_octets(word: &[u8]) -> Option<Array<256>>
    ensures some { IfSome result (λ found. IsCountedWord IsTagWord word.now found.content) }
    ensures none { IsNone result → (octets : List ℕ) → ¬ (IsCountedWord IsTagWord word.now octets) }
{
    if word.len() > STRING_MAX {
        return None;
    }
    if !is_tag(word) {
        return None;
    }
    Some(counted(word))
}
