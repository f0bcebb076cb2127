//! Ranges of any octets, written as in Rust.
ghost use Rattle.std.specs.Prelude.{◌≡◌, ◌≤◌, ◌↔◌, true, length, drop, slice_range, IsSome, IfOk, IfSome, OnErr};
ghost use Rattle.octseq.specs.Parser.{sequence, window};
ghost use Rattle.octseq.specs.Window.{rest};

use octseq::octets::range_exists;
use octseq::{AsOctets, Octets, Parser};
use std::alloc::AllocError;

/// Returns the second and the third octet, or `None` if there are fewer.
///
/// # Errors
///
/// `AllocError` if a request for memory was refused. A range that is a slice requests none.
pub fn key<O: Octets>(octets: &O) -> Result<Option<O::Range>, AllocError>
    ensures variant { IfOk result (λ key. IsSome key ↔ (3 ≤ length (O.content octets.now))) }
    ensures some { IfOk result (λ key. IfSome key (λ range.
        O.Range.content range ≡ slice_range (O.content octets.now) 1 3)) }
    ensures memory { OnErr result (O.Range.asks ≡ true) }
{
    if octets.len() < 3 {
        return Ok(None);
    }
    Ok(Some(octets.range(1..3)?))
}

/// Returns the octets from an index on, or `None` if there are fewer octets than that.
///
/// # Errors
///
/// `AllocError` if a request for memory was refused. A range that is a slice requests none.
pub fn onward<O: Octets>(octets: &O, at: usize) -> Result<Option<O::Range>, AllocError>
    ensures variant { IfOk result (λ onward. IsSome onward ↔ (at ≤ length (O.content octets.now))) }
    ensures some { IfOk result (λ onward. IfSome onward (λ range.
        O.Range.content range ≡ drop at (O.content octets.now))) }
    ensures memory { OnErr result (O.Range.asks ≡ true) }
{
    if !range_exists(octets.len(), at..) {
        return Ok(None);
    }
    Ok(Some(octets.range(at..)?))
}

/// Returns a parser of the octets after the first two.
pub fn after_two<R: AsOctets>(octets: R) -> Parser<R>
    requires { 2 ≤ length (R.content octets) }
    ensures sequence { sequence result ≡ octets }
    ensures rest { rest (window result) ≡ drop 2 (R.content octets) }
{
    Parser::with_range(octets, 2..)
}
