//! Reads octets from standard input, and reports on them as text.
//!
//! `octseq_tool check` reports whether they are well-formed UTF-8. `lossy` writes their lossy text, and `lossy64` does
//! so if it has at most 64 octets. `records` reads them as records of a length in one octet and that many octets, and
//! writes the lossy text of each on a line. The command is the program's one argument, and `check` if there is none.
//!
//! All output goes to standard output, once the whole input is read. The status is 0, or 1 if the input is refused, 2
//! if no command has the given name, 3 if a request for memory was refused, 4 if a read or a write failed.
#![tactic(auto)]

ghost use Rattle.std.specs.Prelude.{◌≡◌, Result, None, IfOk};
ghost use Rattle.std.specs.Process.{exit_status};
ghost use Rattle.octseq_tool.specs.Out.{Ran, status_of};
ghost use Rattle.octseq_tool.specs.declared.engine.Status.{Status};
ghost use Rattle.octseq_tool.specs.declared.engine.ToolFault.{ToolFault};

use engine::{Status, ToolFault, command_word, engine};
use std::alloc::AllocError;
use std::process::ExitCode;
use std::{env, io};

mod engine;

/// Returns the exit code of the process.
fn exit_code(ended: Result<Status, ToolFault>) -> ExitCode
    ensures { exit_status result ≡ status_of ended }
{
    ExitCode::from(match ended {
        Ok(Status::Fine) => 0,
        Ok(Status::Refused) => 1,
        Ok(Status::Usage) => 2,
        Err(ToolFault::Memory) => 3,
        Err(ToolFault::Read | ToolFault::Write) => 4,
    })
}

/// Runs a command on the standard streams. The status is that of a run on some input, as no contract can say what
/// standard input contains.
fn run(rt: &HostRuntime, command: &str) -> ExitCode
    ensures { (ended : Result Status ToolFault) × (exit_status result ≡ status_of ended)
        × IfOk ended (Ran command.now None None None) }
{
    exit_code(engine(rt.alloc(), command, &mut rt.stdin(), &mut rt.stdout()))
}

/// Returns the program's arguments. The first is its own name.
///
/// # Errors
///
/// An error of the kind `OutOfMemory` if there is no memory for them, of another kind if one isn't a text.
fn arguments(rt: &HostRuntime) -> io::Result<Vec<String>> {
    let args: Result<Vec<String>, AllocError> = env::args(rt)?.collect(rt.alloc());
    Ok(args?)
}

fn main(rt: HostRuntime) -> ExitCode {
    // Arguments that can't be read name no command, even if the reason is lack of memory.
    match arguments(&rt) {
        Ok(args) => run(&rt, command_word(&args)),
        Err(_) => run(&rt, ""),
    }
}
