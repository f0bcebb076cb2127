//! One theorem for every builder: another builder changes no clause.
ghost use Rattle.std.specs.Prelude.{◌≡◌, ◌+◌, ◌++◌, true, length, IsErr, IfOk};
ghost use Rattle.octseq.specs.Limit.{ExceedsLimit};
ghost use Rattle.octseq.specs.Refusal.{IsShort, IsMemory, append_error};

use octseq::builder::{AppendError, EmptyBuilder};
use std::alloc::Global;

/// Returns a builder with the octets of both slices, the second after the first.
///
/// # Errors
///
/// `Short` if both together exceed the limit of the type, or `Memory` if a request for memory was refused. If both
/// apply, it may be either.
pub fn paired<B: EmptyBuilder>(alloc: Global, first: &[u8], second: &[u8]) -> Result<B, AppendError>
    ensures ok { IfOk result (λ builder. B.content builder ≡ first.now ++ second.now) }
    ensures short { IsShort append_error result → ExceedsLimit B.limit (length first.now + length second.now) }
    ensures past { ExceedsLimit B.limit (length first.now + length second.now) → IsErr result }
    ensures memory { IsMemory append_error result → B.asks ≡ true }
{
    let mut builder = B::empty(alloc)?;
    builder.append_slice(first)?;
    builder.append_slice(second)?;
    Ok(builder)
}
