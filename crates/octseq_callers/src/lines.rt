//! Lines of octets, read as texts.
ghost use Rattle.std.specs.Prelude.{◌≡◌, ◌≢◌, ℕ, ◌+◌, ◌<◌, ◌≤◌, ◌↔◌, true, List, ◌∷◌, ◌++◌, length};
ghost use Rattle.std.specs.Prelude.{take, drop, IsErr, IsNone, IfOk, IfSome, IfNone, OnErr};
ghost use Rattle.octseq.specs.Limit.{ExceedsLimit};
ghost use Rattle.octseq.specs.Parser.{sequence, window};
ghost use Rattle.octseq.specs.Parts.{Part, Splits, text};
ghost use Rattle.octseq.specs.Refusal.{IsShort, IsMemory, append_error};
ghost use Rattle.octseq.specs.Window.{left, rest};
ghost use Rattle.octseq_callers.specs.Line.{IsLine, TakesLine};

use octseq::builder::{AppendError, AsOctets, EmptyBuilder, infallible};
use octseq::{Parser, StrBuilder};
use std::alloc::Global;

/// Exactly one line is at the front of octets.
///
/// It does nothing. Calling it brings the law into the caller's proof.
pub fn one_line()
    ensures exists { (octets : List ℕ) → (line : List ℕ) × (more : List ℕ) × TakesLine octets line more }
    ensures only { (octets line other more rest : List ℕ)
        → TakesLine octets line more → TakesLine octets other rest → (line ≡ other) × (more ≡ rest) }
{}

/// Returns the index of the first line feed.
fn line_feed(octets: &[u8]) -> Option<usize>
    ensures line { IfSome result (λ place. IsLine (take place octets.now)) }
    ensures feed { IfSome result (λ place. octets.now ≡ take place octets.now ++ 10 ∷ drop (place + 1) octets.now) }
    ensures within { IfSome result (λ place. place < length octets.now) }
    ensures none { IfNone result (IsLine octets.now) }
{
    octets.iter().position(|octet| *octet == b'\n')
}

/// Returns the first line, and its number of octets including the line feed that ends it.
fn first_line(octets: &[u8]) -> (&[u8], usize)
    ensures line { TakesLine octets.now result.0.now (drop result.1 octets.now) }
    ensures within { result.1 ≤ length octets.now }
    ensures some { length octets.now ≢ 0 → 0 < result.1 }
{
    match line_feed(octets) {
        Some(place) => (&octets[..place], place + 1),
        None => (octets, octets.len()),
    }
}

/// Reads the next line, which ends with a line feed or with the octets, as a text without the line feed. Each
/// ill-formed part becomes the replacement character. Returns `None` if no octets are left.
///
/// # Errors
///
/// `Short` if the text exceeds the limit of the type, or `Memory` if a request for memory was refused. If both apply,
/// it may be either. The parser is then unchanged.
pub fn next_line<R: AsOctets, B: EmptyBuilder>(
    alloc: Global,
    parser: &mut Parser<R>,
) -> Result<Option<StrBuilder<B>>, AppendError>
    ensures none { IfOk result (λ read. IsNone read ↔ (left (window parser.old) ≡ 0)) }
    ensures text { IfOk result (λ read. IfSome read (λ made. (line : List ℕ)
        × TakesLine (rest (window parser.old)) line (rest (window parser.new))
        × ((parts : List Part) → Splits line parts → B.content made ≡ text parts))) }
    ensures less { IfOk result (λ read. IfSome read (λ made. left (window parser.new) < left (window parser.old))) }
    ensures short { IsShort append_error result → (line more : List ℕ) (parts : List Part)
        → TakesLine (rest (window parser.old)) line more → Splits line parts
        → ExceedsLimit B.limit (length (text parts)) }
    ensures past { (line more : List ℕ) (parts : List Part)
        → TakesLine (rest (window parser.old)) line more → Splits line parts
        → ExceedsLimit B.limit (length (text parts)) → IsErr result }
    ensures memory { IsMemory append_error result → B.asks ≡ true }
    ensures kept { OnErr result (window parser.new ≡ window parser.old) }
    ensures same { sequence parser.new ≡ sequence parser.old }
{
    let octets = parser.peek_all();
    if octets.is_empty() {
        return Ok(None);
    }
    let (line, len) = first_line(octets);
    let text = StrBuilder::try_copy_lossy(alloc, line)?;
    infallible(parser.advance(len));
    Ok(Some(text))
}
