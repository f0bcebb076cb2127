//! What a record says before its data, taken word by word.
ghost use Rattle.std.specs.Prelude.{◌≡◌, ◌≤◌, ◌+◌, ℕ, List, Option, length, option_map, IfSome, IsNone};
ghost use Rattle.octseq_dns_name.specs.Owned.{owned_labels};
ghost use Rattle.octseq_dns_name.specs.Read.{labels_of};
ghost use Rattle.octseq_dns_name.specs.Name.{wire_length};
ghost use Rattle.octseq_dns_name.specs.Wire.{AreLabels};
ghost use Rattle.octseq_dns_scan.specs.Word.{TakesWord};
ghost use Rattle.octseq_dns_scan.specs.Words.{ahead_of, offset_of};
ghost use Rattle.octseq_dns_compose.specs.RecordText.{IsClassWord, IsOwnerWord, IsRecordTypeWord, IsTtlWord};
ghost use Rattle.octseq_dns_compose.specs.Take.{TakesNextWord};
ghost use Rattle.octseq_dns_compose.specs.TakeOrder.{TakesOrder};

use crate::numbers::{scan_class, scan_rtype};
use octseq::{Array, AsOctets};
use octseq_dns_data::{Class, Rtype};
use octseq_dns_message::Ttl;
use octseq_dns_name::name::a_name_has_labels;
use octseq_dns_name::{Name, ParsedName};
use octseq_dns_scan::{Words, scan_ttl};

/// Takes a name that is whole, or relative to an origin.
pub(crate) fn take_owner<R: AsOctets + Copy>(
    words: &mut Words,
    origin: Option<&ParsedName<R>>,
) -> Option<Name<Array<255>>>
    ensures some { IfSome result (λ name. (word : List ℕ) × TakesWord word (ahead_of words.old) (ahead_of words.new)
        × IsOwnerWord (option_map (λ name. labels_of name.now) origin.entry) (owned_labels name) word) }
    ensures none { IsNone result → (word rest : List ℕ) (labels : List (List ℕ))
        → TakesWord word (ahead_of words.old) rest
        → ¬ IsOwnerWord (option_map (λ name. labels_of name.now) origin.entry) labels word }
    ensures kept { IsNone result → ahead_of words.new ≡ ahead_of words.old }
    ensures end { offset_of words.new + length (ahead_of words.new)
        ≡ offset_of words.old + length (ahead_of words.old) }
{
    let mut ahead = *words;
    let Some(word) = ahead.next_word() else {
        return None;
    };
    let Some(name) = scan_name(word.octets, origin) else {
        return None;
    };
    *words = ahead;
    Some(name)
}

/// Reads a name that is whole, or relative to an origin.
fn scan_name<R: AsOctets + Copy>(
    word: &[u8],
    origin: Option<&ParsedName<R>>,
) -> Option<Name<Array<255>>>
    ensures some { IfSome result (λ name.
        IsOwnerWord (option_map (λ name. labels_of name.now) origin.entry) (owned_labels name) word.now) }
    ensures none { IsNone result → (labels : List (List ℕ))
        → ¬ IsOwnerWord (option_map (λ name. labels_of name.now) origin.entry) labels word.now }
{
    match origin {
        Some(origin) => match Name::from_text_octets_with_origin(word, origin) {
            Ok(name) => Some(checked(name)),
            Err(_) => None,
        },
        None => match Name::from_text_octets(word) {
            Ok(name) => Some(checked(name)),
            Err(_) => None,
        },
    }
}

/// Returns the same name, whose labels have 1 to 63 octets each, and which has at most 255.
fn checked(name: Name<Array<255>>) -> Name<Array<255>>
    ensures same { result ≡ name }
    ensures labels { AreLabels (owned_labels result) }
    ensures most { wire_length (owned_labels result) ≤ 255 }
{
    let parsed = name.parsed();
    a_name_has_labels(&parsed);
    // A name has at most 255 octets.
    let _len = parsed.len();
    name
}

/// Takes a TTL and a class, in either order.
pub(crate) fn take_ttl_and_class(words: &mut Words) -> Option<(Ttl, Class)>
    ensures taken { TakesOrder result (ahead_of words.old) (ahead_of words.new) }
    ensures end { offset_of words.new + length (ahead_of words.new)
        ≡ offset_of words.old + length (ahead_of words.old) }
{
    if let Some(ttl) = take_ttl(words) {
        let Some(class) = take_class(words) else {
            return None;
        };
        return Some((ttl, class));
    }
    let Some(class) = take_class(words) else {
        return None;
    };
    let Some(ttl) = take_ttl(words) else {
        return None;
    };
    Some((ttl, class))
}

/// Takes a TTL.
fn take_ttl(words: &mut Words) -> Option<Ttl>
    ensures taken { TakesNextWord IsTtlWord result (ahead_of words.old) (ahead_of words.new) }
    ensures end { offset_of words.new + length (ahead_of words.new)
        ≡ offset_of words.old + length (ahead_of words.old) }
{
    let mut ahead = *words;
    let Some(word) = ahead.next_word() else {
        return None;
    };
    let Some(secs) = scan_ttl(word.octets) else {
        return None;
    };
    *words = ahead;
    Some(Ttl::from_secs(secs))
}

/// Takes a class.
pub(crate) fn take_class(words: &mut Words) -> Option<Class>
    ensures taken { TakesNextWord IsClassWord result (ahead_of words.old) (ahead_of words.new) }
    ensures end { offset_of words.new + length (ahead_of words.new)
        ≡ offset_of words.old + length (ahead_of words.old) }
{
    let mut ahead = *words;
    let Some(word) = ahead.next_word() else {
        return None;
    };
    let Some(class) = scan_class(word.octets) else {
        return None;
    };
    *words = ahead;
    Some(class)
}

/// Takes a type.
pub(crate) fn take_rtype(words: &mut Words) -> Option<Rtype>
    ensures taken { TakesNextWord IsRecordTypeWord result (ahead_of words.old) (ahead_of words.new) }
    ensures end { offset_of words.new + length (ahead_of words.new)
        ≡ offset_of words.old + length (ahead_of words.old) }
{
    let mut ahead = *words;
    let Some(word) = ahead.next_word() else {
        return None;
    };
    let Some(rtype) = scan_rtype(word.octets) else {
        return None;
    };
    *words = ahead;
    Some(rtype)
}
