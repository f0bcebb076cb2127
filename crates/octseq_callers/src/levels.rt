//! Levels: signed integers, one after another.
ghost use Rattle.std.specs.List.{AllByRecursion, flat_map};
ghost use Rattle.std.specs.Prelude.{◌≡◌, ◌≢◌, ℤ, List, IfOk};
ghost use Rattle.octseq.specs.Integer.{IsSigned};
ghost use Rattle.octseq.specs.Refusal.{IsMalformed, read_error};
ghost use Rattle.octseq_callers.specs.Levels.{level_of};

use octseq::{AsOctets, Parser, ReadError};
use std::alloc::Global;

/// Reads all the octets as levels, one after another: each a signed integer of 2 octets, big-endian.
///
/// # Errors
///
/// `Malformed` if the octets aren't levels, and `Memory` only if a request for memory was refused.
pub fn read_levels<R: AsOctets>(alloc: Global, octets: R) -> Result<Vec<i16>, ReadError>
    ensures ok { IfOk result (λ levels. R.content octets ≡ flat_map level_of levels.items) }
    ensures malformed { IsMalformed read_error result → (levels : List ℤ)
        → AllByRecursion (IsSigned 2) levels → R.content octets ≢ flat_map level_of levels }
{
    let mut parser = Parser::from_ref(octets);
    let mut levels = Vec::new(alloc);
    while parser.remaining() > 0 {
        let level = parser.parse_i16_be()?;
        if levels.push(level).is_err() {
            return Err(ReadError::Memory);
        }
    }
    Ok(levels)
}
