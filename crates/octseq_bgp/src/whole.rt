//! Reading all that a parser has left by a format.
ghost use Rattle.std.specs.Prelude.{IsErr, IfOk};
ghost use Rattle.octseq.specs.Parser.{window};
ghost use Rattle.octseq_bgp.specs.Fills.{Whole};

use octseq::{AsOctets, Malformed, Parser};
use octseq_format::Format;

/// Reads a value of a format from all the octets that a parser has left.
///
/// # Errors
///
/// `Malformed` if they don't have the format, or if octets are left after the value.
#[inline(always)]
pub fn parse_all<R: AsOctets + Copy, F: Format<R>>(parser: Parser<R>) -> Result<F::Value, Malformed>
    ensures value { IfOk result (λ value. Whole F.is_at (window parser) (F.found value)) }
    ensures malformed { IsErr result → (other : F.Found) → ¬ Whole F.is_at (window parser) other }
{
    let mut ahead = parser;
    let value = F::parse(&mut ahead)?;
    if ahead.remaining() > 0 {
        return Err(Malformed);
    }
    Ok(value)
}
