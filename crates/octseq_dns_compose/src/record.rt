//! Records, read from one line: RFC 1035, 5.1.
ghost use Rattle.std.specs.Prelude.{◌≡◌, ◌⊎◌, ◌+◌, ◌++◌, ℕ, List, length, option_map, true};
ghost use Rattle.std.specs.Prelude.{IfOk, IsErrOf, OnErr};
ghost use Rattle.octseq.specs.Limit.{ExceedsLimit};
ghost use Rattle.octseq_dns_name.specs.Read.{labels_of};
ghost use Rattle.octseq_dns_scan.specs.Word.{AreWords};
ghost use Rattle.octseq_dns_scan.specs.Words.{ahead_of, offset_of};
ghost use Rattle.octseq_dns_text.specs.Scans.{IsWordFault};
ghost use Rattle.octseq_dns_compose.specs.Read.{head_of};
ghost use Rattle.octseq_dns_compose.specs.RecordText.{BeginsWithList, IsAnyRecord, IsRecordText};

use crate::head::{take_owner, take_rtype, take_ttl_and_class};
use octseq::{Array, AsOctets, OctetsBuilder, Truncate};
use octseq_dns_data::{Class, Rtype};
use octseq_dns_message::Ttl;
use octseq_dns_name::{Name, ParsedName};
use octseq_dns_scan::Words;
use octseq_dns_text::{ScanError, scan_data};
use std::alloc::Global;

/// What a record says before its data.
#[derive(Drop)]
pub struct RecordHead {
    /// The owner.
    pub owner: Name<Array<255>>,
    /// The TTL.
    pub ttl: Ttl,
    /// The class.
    pub class: Class,
    /// The type.
    pub rtype: Rtype,
}

/// Reads a record from the words that are left, and appends the octets of its data: its owner, its TTL and its class in
/// either order, its type, and its data. Names without a full stop at their end have the origin's labels after their
/// own; without an origin each name is whole.
///
/// # Errors
///
/// `Malformed` with the offset of the first word that isn't what has to come there, `Short` if the content would exceed
/// the limit of its type, `Memory` if a request for memory was refused, which data that ends in a list of types or of
/// parameters makes. The content is then unchanged.
pub fn scan_record<R: AsOctets + Copy, B: OctetsBuilder + Truncate>(
    alloc: Global,
    words: Words,
    origin: Option<&ParsedName<R>>,
    target: &mut B,
) -> Result<RecordHead, ScanError>
    ensures ok { IfOk result (λ head. (all : List (List ℕ)) × (octets : List ℕ) × AreWords all (ahead_of words.entry)
        × IsRecordText (option_map (λ name. labels_of name.now) origin.entry) (head_of head) all octets
        × (B.content target.new ≡ B.content target.old ++ octets)) }
    ensures fault { (offset : ℕ) → IsErrOf result (ScanError.Malformed offset)
        → IsWordFault (IsAnyRecord (option_map (λ name. labels_of name.now) origin.entry)) (ahead_of words.entry)
        (offset_of words.entry) offset }
    ensures short { IsErrOf result ScanError.Short → (all : List (List ℕ)) × (octets : List ℕ)
        × AreWords all (ahead_of words.entry)
        × IsAnyRecord (option_map (λ name. labels_of name.now) origin.entry) all octets
        × ExceedsLimit B.limit (length (B.content target.old) + length octets) }
    ensures memory { IsErrOf result ScanError.Memory → (B.asks ≡ true)
        ⊎ BeginsWithList (option_map (λ name. labels_of name.now) origin.entry) (ahead_of words.entry) }
    ensures kept { OnErr result (B.content target.new ≡ B.content target.old) }
    ensures borrows { B.borrows target.new ≡ B.borrows target.old }
{
    let mut words = words;
    let Some(owner) = take_owner(&mut words, origin) else {
        return Err(ScanError::Malformed(words.offset()));
    };
    let Some(both) = take_ttl_and_class(&mut words) else {
        return Err(ScanError::Malformed(words.offset()));
    };
    let (ttl, class) = both;
    let Some(rtype) = take_rtype(&mut words) else {
        return Err(ScanError::Malformed(words.offset()));
    };
    match scan_data(alloc, words, rtype, class, origin, target) {
        Ok(()) => Ok(RecordHead {
            owner,
            ttl,
            class,
            rtype,
        }),
        Err(error) => Err(error),
    }
}
