//! A program on the standard streams, or on a file.
ghost use Rattle.std.specs.IoError.{error_kind};
ghost use Rattle.std.specs.Prelude.{◌≡◌, ◌↔◌, ℕ, List, None, Result, IfOk, IsSomeAnd, IsTrue};
ghost use Rattle.std.specs.Process.{exit_status};
ghost use Rattle.octseq_cli.specs.Report.{failure_of};
ghost use Rattle.octseq_cli.specs.Run.{Ran};
ghost use Rattle.octseq_cli.specs.Status.{status_of};
ghost use Rattle.octseq_cli.specs.declared.status.ProgramFault.{ProgramFault};
ghost use Rattle.octseq_cli.specs.declared.status.Status.{Status};

use crate::engine::{Commands, engine};
use crate::report::{Failure, report};
use crate::request::{Request, command_word, input_path, parse_command};
use crate::status::{ProgramFault, Status};
use crate::streams::write_all;
use crate::watched::Watched;
use std::alloc::AllocError;
use std::env;
use std::fs::File;
use std::io::{self, BufReader, Error, ErrorKind, Read};
use std::process::ExitCode;

/// Returns the program's arguments. The first is its own name.
///
/// # Errors
///
/// An error of the kind `OutOfMemory` if there is no memory for them, of another kind if one isn't a text.
pub fn arguments(rt: &HostRuntime) -> io::Result<Vec<String>> {
    let args: Result<Vec<String>, AllocError> = env::args(rt)?.collect(rt.alloc());
    Ok(args?)
}

/// Returns the exit code of the process.
pub fn exit_code(ended: Result<Status, ProgramFault>) -> ExitCode
    ensures { exit_status result ≡ status_of ended }
{
    ExitCode::from(match ended {
        Ok(Status::Fine) => 0,
        Ok(Status::Refused) => 1,
        Ok(Status::Usage) => 2,
        Err(ProgramFault::Memory) => 3,
        Err(ProgramFault::Read | ProgramFault::Write | ProgramFault::Note) => 4,
    })
}

/// Ends a program that failed: a line on standard error says what failed, with the path if there is a file. If there is
/// no memory for the line, that is what failed. A failure of that write can't be reported.
fn exit_with(rt: &HostRuntime, failure: Failure, path: Option<&str>) -> ExitCode
    ensures { (fault : ProgramFault) × (exit_status result ≡ status_of (Result.Err fault)) }
{
    exit_code(Err(report(rt.alloc(), &mut rt.stderr(), failure, path)))
}

/// Returns what failed if a program ended with this fault, with this error of its last failed read, and its output to a
/// pipe that is closed, or not.
fn failure_of(fault: ProgramFault, error: Option<Error>, is_closed: bool) -> Failure
    ensures { result ≡ failure_of fault error is_closed }
{
    match fault {
        ProgramFault::Memory => Failure::Memory,
        ProgramFault::Read => Failure::Read(error),
        ProgramFault::Write if is_closed => Failure::Closed,
        ProgramFault::Write => Failure::Write,
        ProgramFault::Note => Failure::Note,
    }
}

/// Reports whether this error of a write says that the reader of a pipe closed it.
fn is_closed_pipe(error: Option<Error>) -> bool
    ensures { IsTrue result ↔ IsSomeAnd error (λ e. error_kind e ≡ ErrorKind.BrokenPipe) }
{
    match error {
        Some(error) => error.kind() == ErrorKind::BrokenPipe,
        None => false,
    }
}

/// Does what the word asks for on the standard streams, with a reader as the input.
fn run_on<C: Commands, R: Read + Drop>(
    rt: &HostRuntime,
    word: &str,
    reader: R,
    path: Option<&str>,
) -> ExitCode
    ensures { (ended : Result Status ProgramFault) × (exit_status result ≡ status_of ended)
        × IfOk ended (Ran C.name_of C.said C.out word.now None None None None None) }
{
    let mut reader = match BufReader::new(rt.alloc(), Watched::new(reader)) {
        Ok(reader) => reader,
        Err(_) => return exit_with(rt, Failure::Memory, path),
    };
    let mut output = Watched::new(rt.stdout());
    let ended = engine::<C, _, _, _>(rt.alloc(), word, &mut reader, &mut output, &mut rt.stderr());
    match ended {
        Ok(status) => exit_code(Ok(status)),
        Err(fault) => {
            let is_closed = is_closed_pipe(output.error);
            let failure = failure_of(fault, reader.get_ref().error, is_closed);
            exit_with(rt, failure, path)
        }
    }
}

/// Does what the word asks for on the standard streams, with a file as the input.
fn run_on_file<C: Commands>(rt: &HostRuntime, word: &str, path: &str) -> ExitCode
    ensures { (ended : Result Status ProgramFault) × (exit_status result ≡ status_of ended)
        × IfOk ended (Ran C.name_of C.said C.out word.now None None None None None) }
{
    match File::open(rt, path) {
        Ok(file) => run_on::<C, _>(rt, word, file, Some(path)),
        Err(error) if error.kind() == ErrorKind::OutOfMemory => {
            exit_with(rt, Failure::Memory, Some(path))
        }
        Err(error) => exit_with(rt, Failure::Open(error), Some(path)),
    }
}

/// Does what a word that isn't a command asks for on the standard streams. No input is read.
fn run_on_nothing<C: Commands>(rt: &HostRuntime, word: &str) -> ExitCode
    ensures { (ended : Result Status ProgramFault) × (exit_status result ≡ status_of ended)
        × IfOk ended (Ran C.name_of C.said C.out word.now None None None None None) }
{
    let mut output = Watched::new(rt.stdout());
    let errors = &mut rt.stderr();
    match engine::<C, _, _, _>(rt.alloc(), word, &mut rt.stdin(), &mut output, errors) {
        Ok(status) => exit_code(Ok(status)),
        Err(fault) => {
            let failure = failure_of(fault, None, is_closed_pipe(output.error));
            exit_with(rt, failure, None)
        }
    }
}

/// Does what the word asks for on the standard streams. A command reads the file of the path, or standard input if
/// there is none. The status is that of a run on some input, as no contract can say what these contain.
pub fn run<C: Commands>(rt: &HostRuntime, word: &str, path: Option<&str>) -> ExitCode
    ensures { (ended : Result Status ProgramFault) × (exit_status result ≡ status_of ended)
        × IfOk ended (Ran C.name_of C.said C.out word.now None None None None None) }
{
    match (parse_command::<C>(word), path) {
        (Request::Command(_), Some(path)) => run_on_file::<C>(rt, word, path),
        (Request::Command(_), None) => run_on::<C, _>(rt, word, rt.reader(), None),
        _ => run_on_nothing::<C>(rt, word),
    }
}

/// Does what the program's arguments ask for. If there is no memory for them, the program ends with that status; if one
/// isn't UTF-8, a line says so, and they are an unknown word. The status is that of a run of some word on some input,
/// as no contract can say what the arguments, a file and standard input contain.
pub fn start<C: Commands>(rt: &HostRuntime) -> ExitCode
    ensures { (word : List ℕ) × (ended : Result Status ProgramFault) × (exit_status result ≡ status_of ended)
        × IfOk ended (Ran C.name_of C.said C.out word None None None None None) }
{
    match arguments(rt) {
        Ok(args) => run::<C>(rt, command_word::<C>(&args), input_path(&args)),
        Err(error) if error.kind() == ErrorKind::OutOfMemory => {
            exit_with(rt, Failure::Memory, None)
        }
        Err(_) => {
            let _ = write_all(&mut rt.stderr(), b"an argument isn't UTF-8\n");
            run::<C>(rt, "", None)
        }
    }
}
