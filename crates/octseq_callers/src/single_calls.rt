//! A first caller for modules that the others don't show.
ghost use Rattle.std.specs.Prelude.{◌≡◌, ◌≢◌, ◌≤◌, ◌++◌, ◌↔◌, [], length, take};
ghost use Rattle.std.specs.Prelude.{true, false, IsSome, IfSome, IfOk, OnOk, OnErr};
ghost use Rattle.std.specs.declared.ops.Bound.TheVariants.{Included, Excluded};
ghost use Rattle.octseq.specs.Cow.{cow_content, is_borrowed};
ghost use Rattle.octseq.specs.Fault.{Fault, IsFault};
ghost use Rattle.octseq.specs.Range.{RangeExists, range_of};
ghost use Rattle.octseq.specs.Refusal.{IsShort, append_error};
ghost use Rattle.octseq.specs.Text.{IsWellFormed};

use octseq::builder::{AppendError, AsOctets, OctetsBuilder};
use octseq::octets::range_exists;
use octseq::utf8::{find_fault, one_fault};
use octseq::{Array, CowOctets, Octets};
use std::alloc::AllocError;

/// Returns the octets in an array, or `None` if they don't fit.
pub fn kept<const N: usize>(octets: &[u8]) -> Option<Array<N>>
    ensures variant { IsSome result ↔ (length octets.now ≤ N) }
    ensures some { IfSome result (λ array. array.content ≡ octets.now) }
{
    Array::try_from(octets).ok()
}

/// Appends to octets that may be borrowed. They stay borrowed if nothing is appended.
///
/// # Errors
///
/// `Memory` if a request for memory was refused. The octets are then unchanged.
pub fn extended(octets: &mut CowOctets<'_>, more: &[u8]) -> Result<(), AppendError>
    ensures ok { OnOk result (cow_content octets.new ≡ cow_content octets.old ++ more.now) }
    ensures err { OnErr result (cow_content octets.new ≡ cow_content octets.old) }
    ensures memory { ¬ IsShort append_error result }
    ensures borrowed { more.now ≡ [] → is_borrowed octets.new ≡ is_borrowed octets.old }
    ensures owned { OnOk result (more.now ≢ [] → is_borrowed octets.new ≡ false) }
    ensures unchanged { OnErr result (is_borrowed octets.new ≡ is_borrowed octets.old) }
{
    if more.is_empty() {
        return Ok(());
    }
    octets.append_slice(more)
}

/// Returns the field from `start` to `end`, or `None` if it isn't within the octets.
///
/// # Errors
///
/// `AllocError` if a request for memory was refused. A range that is a slice requests none.
pub fn field<T: Octets>(
    octets: &T,
    start: usize,
    end: usize,
) -> Result<Option<T::Range>, AllocError>
    ensures variant { IfOk result (λ field. IsSome field
        ↔ RangeExists (length (T.content octets.now)) (Included start, Excluded end)) }
    ensures some { IfOk result (λ field. IfSome field (λ range.
        T.Range.content range ≡ range_of (T.content octets.now) (Included start, Excluded end))) }
    ensures memory { OnErr result (T.Range.asks ≡ true) }
{
    if !range_exists(octets.len(), start..end) {
        return Ok(None);
    }
    Ok(Some(octets.range(start..end)?))
}

/// Returns the front of the octets that is well-formed UTF-8: all of them, or those before the first fault.
pub fn text_front(octets: &[u8]) -> &[u8]
    ensures text { IsWellFormed result.now }
    ensures front { result.now ≡ take (length result.now) octets.now }
    ensures whole { IsWellFormed octets.now → result.now ≡ octets.now }
    ensures cut { (fault : Fault) → IsFault octets.now fault → length result.now ≡ fault.place }
{
    one_fault();
    match find_fault(octets) {
        None => octets,
        Some(fault) => &octets[..fault.valid_up_to()],
    }
}
