//! The program over any reader and any writer.
ghost use Rattle.std.specs.Prelude.{◌≡◌, ◌≢◌, ◌<◌, ◌≤◌, ◌∷◌, ℕ, [], length, map, codes, string_bytes, Some, List};
ghost use Rattle.std.specs.Prelude.{Option, IfOk, IfErr, OnOk, OnErr, Err};
ghost use Rattle.std.specs.Io.KnownBytes.{Consumes, IsAtEnd};
ghost use Rattle.octseq_tool.specs.Out.{IsNamed, IsCommand, Out, Makes, Ran, Broke};
ghost use Rattle.octseq_tool.specs.declared.engine.Command.{Command};
ghost use Rattle.octseq_tool.specs.declared.engine.Command.TheVariants.{Check, Lossy, Lossy64};
ghost use Rattle.octseq_tool.specs.declared.engine.Status.{Status};
ghost use Rattle.octseq_tool.specs.declared.engine.Status.TheVariants.{Refused};

use feeding::{Searched, feed_all};
use octseq::array::Array;
use octseq::builder::{AppendError, ShortBuf};
use octseq::str::{LossyPieces, StrBuilder};
use octseq::utf8;
use records::lines_of;
use std::alloc::{AllocError, Global};
use std::io::{Read, Write};
use streams::{read_all, write_all};

mod feeding;
mod records;
mod streams;
#[cfg(test)]
mod tests;

/// The line for a word that names no command.
const USAGE: &str = "usage: octseq_tool check|lossy|lossy64|records\n";

/// The commands of the program.
#[derive(Clone, Copy, Debug, PartialEq, Eq)]
pub enum Command {
    /// Check whether the input is well-formed UTF-8.
    Check,
    /// Write the input's lossy text.
    Lossy,
    /// Write the input's lossy text if it has at most 64 octets.
    Lossy64,
    /// Read the input as records of a length in one octet and that many octets, and write the lossy text of each on a
    /// line.
    Records,
}

/// How the program ended.
#[derive(Clone, Copy, Debug, PartialEq, Eq)]
pub enum Status {
    /// The input is as the command wants it.
    Fine,
    /// The command refused the input, and said why.
    Refused,
    /// No command has the name that was given.
    Usage,
}

/// The reason why the program failed.
#[derive(Clone, Copy, Debug, PartialEq, Eq)]
pub enum ToolFault {
    /// A request for memory was refused.
    Memory,
    /// A read failed.
    Read,
    /// A write failed.
    Write,
}

impl From<AllocError> for ToolFault {
    ghost use Rattle.octseq_tool.specs.declared.engine.ToolFault.TheVariants.{Memory};

    ghost from_gives = { λ _ fault. fault ≡ Memory };

    fn from(_e: AllocError) -> ToolFault {
        ToolFault::Memory
    }
}

/// What is written, and how the program ends.
#[derive(Drop)]
struct Answer {
    output: Vec<u8>,
    status: Status,
}

/// A word names at most one command, and a command has one output and one status for an input: what the program writes
/// is a function of both. The law is on a function that does nothing, so that a check proves it.
pub fn one_answer()
    ensures command { (word : List ℕ) (c d : Option Command) → IsNamed word c → IsNamed word d → c ≡ d }
    ensures output { (c : Option Command) (input x y : List ℕ) (s t : Status)
        → Out c input x s → Out c input y t → (x ≡ y) × (s ≡ t) }
{
    utf8::one_fault();
    utf8::one_splitting();
}

/// Returns the word for the command: the program's one argument after its own name, or `check` if there is none. If
/// there are more, it is the empty word, which names no command.
pub fn command_word(args: &[String]) -> &str
    ensures none { length args.now ≤ 1 → result.now ≡ codes "check" }
    ensures one { (name word : List ℕ) → map string_bytes args.now ≡ name ∷ word ∷ [] → result.now ≡ word }
    ensures more { 2 < length args.now → (result.now ≡ []) × ¬ IsCommand result.now }
{
    match args {
        [] | [_] => "check",
        [_, word] => word.as_str(),
        _ => "",
    }
}

/// Returns the command of this name.
fn named(word: &str) -> Option<Command>
    ensures { IsNamed word.now result }
{
    match word {
        "check" => Some(Command::Check),
        "lossy" => Some(Command::Lossy),
        "lossy64" => Some(Command::Lossy64),
        "records" => Some(Command::Records),
        _ => None,
    }
}

/// Whether all that the reader has left is well-formed UTF-8, and if not, where it stops. It is searched as it is read.
fn check<R: Read>(alloc: Global, reader: &mut R) -> Result<Answer, ToolFault>
    ensures ok { IfOk result (λ answer. Makes Check (R.remaining reader.old) (R.remaining reader.new)
        answer.output.items answer.status) }
    ensures end { OnOk result (IsAtEnd (R.remaining reader.new)) }
    ensures err { IfErr result (λ fault. fault ≢ ToolFault.Write) }
    ensures lost { OnErr result ((read : List ℕ) × Consumes (R.remaining reader.old) (R.remaining reader.new) read) }
{
    let mut searched = Searched::new();
    feed_all(alloc, reader, &mut searched)?;
    match searched.search.finish() {
        None => {
            let line = format!(in alloc; "well formed: {} octets\n", searched.len)?;
            Ok(Answer {
                output: line.into_bytes(),
                status: Status::Fine,
            })
        }
        Some(fault) => Ok(Answer {
            output: format!(in alloc; "{fault}\n")?.into_bytes(),
            status: Status::Refused,
        }),
    }
}

/// Returns the lossy text of all that the reader has left. It is made while the octets are read, so that only the text
/// is in memory.
fn lossy<R: Read>(alloc: Global, reader: &mut R) -> Result<Answer, ToolFault>
    ensures ok { IfOk result (λ answer. Makes Lossy (R.remaining reader.old) (R.remaining reader.new)
        answer.output.items answer.status) }
    ensures end { OnOk result (IsAtEnd (R.remaining reader.new)) }
    ensures err { IfErr result (λ fault. fault ≢ ToolFault.Write) }
    ensures lost { OnErr result ((read : List ℕ) × Consumes (R.remaining reader.old) (R.remaining reader.new) read) }
{
    utf8::one_splitting();
    let mut pieces = LossyPieces::new(alloc)?;
    feed_all(alloc, reader, &mut pieces)?;
    // (a vector has no limit, so it refuses only for lack of memory)
    let Ok(text) = pieces.finish() else {
        return Err(ToolFault::Memory);
    };
    Ok(Answer {
        output: text.into_octets_builder(),
        status: Status::Fine,
    })
}

/// The lossy text of the octets, if an array of 64 octets can hold it.
fn lossy64(alloc: Global, input: &[u8]) -> Result<Answer, AllocError>
    ensures { IfOk result (λ answer. Out (Some Lossy64) input.now answer.output.items answer.status) }
{
    match StrBuilder::<Array<64>>::try_copy_lossy(alloc, input) {
        Ok(text) => Ok(Answer {
            output: Vec::from_slice(alloc, text.as_slice())?,
            status: Status::Fine,
        }),
        Err(AppendError::Short(_)) => too_long(alloc),
        Err(AppendError::Memory) => Err(AllocError),
    }
}

/// Returns the refusal of octets that exceed a limit.
fn too_long(alloc: Global) -> Result<Answer, AllocError>
    ensures output { IfOk result (λ answer. answer.output.items ≡ codes "buffer size exceeded\n") }
    ensures status { IfOk result (λ answer. answer.status ≡ Refused) }
{
    Ok(Answer {
        output: format!(in alloc; "{}\n", ShortBuf)?.into_bytes(),
        status: Status::Refused,
    })
}

/// Returns what a command makes of all that the reader has left.
#[tactic(auto, using(crate::proofs::Feeding::makes))]
fn run_command<R: Read>(
    alloc: Global,
    command: Command,
    reader: &mut R,
) -> Result<Answer, ToolFault>
    ensures ok { IfOk result (λ answer. Makes command (R.remaining reader.old) (R.remaining reader.new)
        answer.output.items answer.status) }
    ensures end { OnOk result (IsAtEnd (R.remaining reader.new)) }
    ensures err { IfErr result (λ fault. fault ≢ ToolFault.Write) }
    ensures lost { OnErr result ((read : List ℕ) × Consumes (R.remaining reader.old) (R.remaining reader.new) read) }
{
    match command {
        Command::Check => check(alloc, reader),
        Command::Lossy => lossy(alloc, reader),
        Command::Lossy64 => Ok(lossy64(alloc, read_all(alloc, reader)?.as_slice())?),
        Command::Records => Ok(lines_of(alloc, read_all(alloc, reader)?.as_slice())?),
    }
}

/// Reads the whole input, does what the command says, and writes the answer.
///
/// # Errors
///
/// `Memory` if a request for memory was refused, `Read` if a read failed, `Write` if a write failed.
pub fn engine<R: Read, W: Write>(
    alloc: Global,
    command: &str,
    reader: &mut R,
    writer: &mut W,
) -> Result<Status, ToolFault>
    // What was written, and how the program ended, are a function of the command and the whole input.
    ensures ran { IfOk result (Ran command.now (R.remaining reader.old) (W.contents writer.old)
        (W.contents writer.new)) }
    ensures end { OnOk result (IsCommand command.now → IsAtEnd (R.remaining reader.new)) }

    // A word that names no command reads nothing, whatever the answer.
    ensures usage { ¬ IsCommand command.now → reader.new ≡ reader.old }
    ensures never { ¬ IsCommand command.now → IfErr result (λ fault. fault ≡ ToolFault.Write) }

    // All of the input is read, and all of the output made, before the first write.
    ensures write { result ≡ Err ToolFault.Write → IsCommand command.now → IsAtEnd (R.remaining reader.new) }
    ensures front { result ≡ Err ToolFault.Write
        → Broke command.now (R.remaining reader.old) (W.contents writer.old) (W.contents writer.new) }
    ensures read { result ≡ Err ToolFault.Read → writer.new ≡ writer.old }
    ensures memory { result ≡ Err ToolFault.Memory → writer.new ≡ writer.old }

    // What the reader lost before a failure is a front of what it had.
    ensures lost { OnErr result ((read : List ℕ) × Consumes (R.remaining reader.old) (R.remaining reader.new) read) }
{
    let Some(command) = named(command) else {
        write_all(writer, USAGE.as_bytes())?;
        return Ok(Status::Usage);
    };
    let answer = run_command(alloc, command, reader)?;
    write_all(writer, answer.output.as_slice())?;
    Ok(answer.status)
}
