//! Records of a length in one octet and that many octets.
ghost use Rattle.std.specs.Prelude.{◌≡◌, ℕ, ◌<◌, List, ◌∷◌, ◌++◌, length, codes, Some, IfOk, OnOk, OnErr};
ghost use Rattle.octseq.specs.Parser.{window};
ghost use Rattle.octseq.specs.Window.{left, rest};
ghost use Rattle.octseq_tool.specs.Out.{HasText, IsCutRecord, Out};
ghost use Rattle.octseq_tool.specs.declared.engine.Command.TheVariants.{Records};
ghost use Rattle.octseq_tool.specs.declared.engine.Status.TheVariants.{Refused};

use crate::engine::{Answer, Status};
use octseq::StrBuilder;
use octseq::parse::{self, Parser, ShortInput};
use std::alloc::{AllocError, Global};

/// The octets of the next record.
fn next_part<'a>(parser: &mut Parser<&'a [u8]>) -> Result<Parser<&'a [u8]>, ShortInput>
    ensures ok { IfOk result (λ part. rest (window parser.old)
        ≡ length (rest (window part)) ∷ rest (window part) ++ rest (window parser.new)) }
    ensures less { OnOk result (left (window parser.new) < left (window parser.old)) }
    ensures err { OnErr result (0 < left (window parser.old) → IsCutRecord (rest (window parser.old))) }
{
    parse::nothing_is_lost();
    parser.parse_part_u8()
}

/// Appends the lossy text of the octets, and a newline.
fn push_line(output: &mut StrBuilder<Vec<u8>>, octets: &[u8]) -> Result<(), AllocError>
    ensures { OnOk result ((line : List ℕ) × HasText octets.now line
        × (output.new.items ≡ output.old.items ++ (line ++ codes "\n"))) }
{
    // (a vector has no limit, so it refuses only for lack of memory)
    let Ok(()) = output.try_push_lossy(octets) else {
        return Err(AllocError);
    };
    output.push_str("\n")
}

/// Returns the refusal of a rest that is no whole record, after the lines of the records before it.
fn cut_off(lines: StrBuilder<Vec<u8>>, short: ShortInput) -> Result<Answer, AllocError>
    ensures output { IfOk result (λ answer. answer.output.items ≡ lines.items ++ codes "unexpected end of input\n") }
    ensures status { IfOk result (λ answer. answer.status ≡ Refused) }
{
    let mut output = lines;
    let Ok(()) = output.try_push_display(short) else {
        return Err(AllocError);
    };
    output.push_str("\n")?;
    Ok(Answer {
        output: output.into_octets_builder(),
        status: Status::Refused,
    })
}

/// Returns the lossy text of each record on a line, and at the end why the rest is none. A line is at least as long as
/// its record, so there is room for all of them at once if no part is ill-formed.
///
/// # Errors
///
/// `AllocError` if a request for memory was refused.
pub fn lines_of(alloc: Global, input: &[u8]) -> Result<Answer, AllocError>
    ensures { IfOk result (λ answer. Out (Some Records) input.now answer.output.items answer.status) }
{
    let mut parser = Parser::from_static(input);
    let mut output = StrBuilder::<Vec<u8>>::with_capacity(alloc, input.len())?;
    while parser.remaining() > 0 {
        match next_part(&mut parser) {
            Ok(part) => push_line(&mut output, part.peek_all())?,
            Err(short) => return cut_off(output, short),
        }
    }
    Ok(Answer {
        output: output.into_octets_builder(),
        status: Status::Fine,
    })
}
