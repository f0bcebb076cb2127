//! What standard error says of a failure.
ghost use Rattle.std.specs.Prelude.{◌≡◌, ◌⊎◌, Bool, IfOk, OnErr, string_bytes};
ghost use Rattle.std.specs.Option.{option_map};
ghost use Rattle.octseq_cli.specs.Report.{HasReason, IsReasoned, IsSource, IsErrorWritten, program_fault};

use crate::status::ProgramFault;
use crate::streams::write_whole;
use std::alloc::{AllocError, Global};
use std::io::{Error, Write};

/// What failed.
#[derive(Clone, Copy, Debug)]
pub enum Failure {
    /// A request for memory.
    Memory,
    /// To open the file, for this reason.
    Open(Error),
    /// A read, for this reason, if it is known.
    Read(Option<Error>),
    /// A write of the output.
    Write,
    /// A write of the output to a pipe that its reader closed. Whoever closed it knows, so no line tells.
    Closed,
    /// A write of a note on standard error.
    Note,
}

impl Failure {
    /// Returns the fault of this failure.
    pub fn fault(self) -> ProgramFault
        ensures { result ≡ program_fault self }
    {
        match self {
            Failure::Memory => ProgramFault::Memory,
            Failure::Open(_) | Failure::Read(_) => ProgramFault::Read,
            Failure::Write | Failure::Closed => ProgramFault::Write,
            Failure::Note => ProgramFault::Note,
        }
    }
}

/// Returns what the input comes from: the path between quotes, or standard input if there is none.
fn source_of(alloc: Global, path: Option<&str>) -> Result<String, AllocError>
    ensures { IfOk result (λ source. IsSource (option_map (λ path. path.now) path.entry) (string_bytes source)) }
{
    match path {
        Some(path) => format!(in alloc; "{path:?}"),
        None => format!(in alloc; "standard input"),
    }
}

/// Returns the line that says what couldn't be done, with the reason if it is known.
///
/// # Errors
///
/// `AllocError` if a request for memory was refused.
fn reasoned(
    alloc: Global,
    action: &str,
    path: Option<&str>,
    reason: Option<Error>,
) -> Result<String, AllocError>
    ensures { IfOk result (λ line. IsReasoned action.now (option_map (λ path. path.now) path.entry) reason
        (string_bytes line)) }
{
    let source = source_of(alloc, path)?;
    match reason {
        Some(error) => {
            let reason = format!(in alloc; "{error}")?;
            let line = format!(in alloc; "cannot {action} {source}: {reason}\n")?;
            Ok(line)
        }
        None => {
            let line = format!(in alloc; "cannot {action} {source}\n")?;
            Ok(line)
        }
    }
}

/// Writes the line that says what failed, if one does: with the path if there is a file, and the system's reason if it
/// is known. Returns whether all of it was written; otherwise a front of it was.
///
/// # Errors
///
/// `AllocError` if a request for memory was refused. Nothing was written then.
pub fn write_error<E: Write>(
    alloc: Global,
    errors: &mut E,
    failure: Failure,
    path: Option<&str>,
) -> Result<bool, AllocError>
    ensures told { IfOk result (λ is_whole. IsErrorWritten failure (option_map (λ path. path.now) path.entry) is_whole
        (E.contents errors.old) (E.contents errors.new)) }
    ensures memory { OnErr result (HasReason failure × (errors.new ≡ errors.old)) }
{
    match failure {
        Failure::Memory => Ok(write_whole(errors, b"out of memory\n")),
        Failure::Write => Ok(write_whole(errors, b"cannot write the output\n")),
        Failure::Closed => Ok(true),
        Failure::Note => Ok(write_whole(errors, b"cannot write to standard error\n")),
        Failure::Open(reason) => {
            let line = reasoned(alloc, "open", path, Some(reason))?;
            Ok(write_whole(errors, line.as_bytes()))
        }
        Failure::Read(reason) => {
            let line = reasoned(alloc, "read", path, reason)?;
            Ok(write_whole(errors, line.as_bytes()))
        }
    }
}

/// Writes the line that says what failed, as far as it can be written. Returns the fault that the program ends with: if
/// there is no memory for the line, that is what failed.
pub fn report<E: Write>(
    alloc: Global,
    errors: &mut E,
    failure: Failure,
    path: Option<&str>,
) -> ProgramFault
    ensures { (told : Failure) × (is_whole : Bool) × ((told ≡ failure) ⊎ ((told ≡ Failure.Memory) × HasReason failure))
        × IsErrorWritten told (option_map (λ path. path.now) path.entry) is_whole (E.contents errors.old)
        (E.contents errors.new) × (result ≡ program_fault told) }
{
    match write_error(alloc, errors, failure, path) {
        Ok(_) => failure.fault(),
        Err(AllocError) => {
            let _ = write_error(alloc, errors, Failure::Memory, path);
            ProgramFault::Memory
        }
    }
}
