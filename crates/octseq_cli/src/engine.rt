//! A program over any reader and any writers.
ghost use Rattle.std.specs.Prelude.{◌≡◌, ◌++◌, ℕ, List, [], codes, Bool, IsTrue, false};
ghost use Rattle.std.specs.Prelude.{Option, Err, IfOk, IfErr, OnOk, OnErr};
ghost use Rattle.std.specs.Io.KnownBytes.{Appends, IsAtEnd};
ghost use Rattle.octseq.specs.Parts.{StartsWith};
ghost use Rattle.octseq_cli.specs.Run.{IsRequest, IsCommand, IsNamed, ProgramHelp, Writes, unknown_line};
ghost use Rattle.octseq_cli.specs.Run.{Answers, BreaksOff, Ran, Broke, Unnoted};
ghost use Rattle.octseq_cli.specs.declared.status.Status.{Status};

use crate::request::{Request, parse_command};
use crate::status::{ProgramFault, Status};
use crate::streams::write_all;
use std::alloc::Global;
use std::io::{Read, Write};

/// The version of the programs, the kit that proves them, and their licence.
const VERSION: &str = "octseq 0.1.0, proved with rattle-kit-13f, BSD 3-Clause License\n";

/// The commands of a program. `name_of` is the name of a command, `default_word` the word of a program without
/// arguments, `said` what it says of itself, and `out` what is written for a command and an input, on standard output
/// and on standard error, and how the program ends.
pub trait Commands: Copy {
    ghost name_of: { Self → List ℕ };

    ghost default_word: { List ℕ };

    ghost said: { ProgramHelp };

    ghost out: { Self → List ℕ → List ℕ → List ℕ → Status → Type 0 };

    // whether commands write notes on standard error
    ghost has_notes: { Bool } = { false };

    /// Returns the command of a name.
    fn named(word: &str) -> Option<Self>
        ensures { IsNamed name_of word.now result };

    /// Returns the word of a program without arguments.
    fn default_word() -> &'static str
        ensures { result.now ≡ default_word };

    /// Returns the help text: what the program does, its commands, an example of each, and the statuses.
    fn help() -> &'static str
        ensures { result.now ≡ said.help };

    /// Returns how the program is used, and where the help text is: the end of the line about an unknown word.
    fn usage() -> &'static str
        ensures { result.now ≡ said.usage };

    /// Writes what a command makes of all that the reader has left. It may write while it reads: if it fails, what it
    /// wrote is a front of what it writes for every input that begins with what it read.
    ///
    /// # Errors
    ///
    /// `Memory` if a request for memory was refused, `Read` if a read failed, `Write` if a write failed. `Note` if the
    /// whole output was written, but not all notes on standard error.
    fn run<R: Read, W: Write, E: Write>(
        self,
        alloc: Global,
        reader: &mut R,
        writer: &mut W,
        errors: &mut E,
    ) -> Result<Status, ProgramFault>
        ensures ok { IfOk result (Answers (out self) (R.remaining reader.old) (W.contents writer.old)
            (W.contents writer.new) (E.contents errors.old) (E.contents errors.new)) }
        ensures end { OnOk result (IsAtEnd (R.remaining reader.new)) }
        ensures broke { OnErr result (BreaksOff (out self) (R.remaining reader.old) (R.remaining reader.new)
            (W.contents writer.old) (W.contents writer.new) (E.contents errors.old) (E.contents errors.new)) }
        ensures unnoted { IsTrue has_notes → result ≡ Err ProgramFault.Note → Unnoted (out self)
            (R.remaining reader.old) (R.remaining reader.new) (W.contents writer.old) (W.contents writer.new)
            (E.contents errors.old) (E.contents errors.new) };
}

/// Writes the line about an unknown word.
///
/// # Errors
///
/// `Write` if a write failed.
fn write_unknown<W: Write>(writer: &mut W, word: &str, usage: &str) -> Result<(), ProgramFault>
    ensures ok { OnOk result (Appends (W.contents writer.old) (W.contents writer.new)
        (unknown_line usage.now word.now)) }
    ensures err { IfErr result (λ fault. fault ≡ ProgramFault.Write) }
    ensures front { (front : List ℕ) × StartsWith front (unknown_line usage.now word.now)
        × Appends (W.contents writer.old) (W.contents writer.new) front }
{
    write_all(writer, b"no command '")?;
    write_all(writer, word.as_bytes())?;
    write_all(writer, b"'; ")?;
    write_all(writer, usage.as_bytes())
}

/// Does what the word asks for: runs a command on all that the reader has left, or writes the help text or the version,
/// or on standard error a line about an unknown word.
///
/// # Errors
///
/// `Memory` if a request for memory was refused, `Read` if a read failed, `Write` if a write failed. `Note` if the
/// whole output was written, but not all notes on standard error.
pub fn engine<C: Commands, R: Read, W: Write, E: Write>(
    alloc: Global,
    word: &str,
    reader: &mut R,
    writer: &mut W,
    errors: &mut E,
) -> Result<Status, ProgramFault>
    // What was written, and how the program ended, are what the word makes of the whole input.
    ensures ran { IfOk result (Ran C.name_of C.said C.out word.now (R.remaining reader.old)
        (W.contents writer.old) (W.contents writer.new) (E.contents errors.old) (E.contents errors.new)) }
    ensures end { OnOk result (IsCommand C.name_of word.now → IsAtEnd (R.remaining reader.new)) }

    // After a failure, what was written is a front of that.
    ensures broke { OnErr result (Broke C.name_of C.said C.out word.now (R.remaining reader.old)
        (R.remaining reader.new) (W.contents writer.old) (W.contents writer.new)
        (E.contents errors.old) (E.contents errors.new)) }

    // If only notes couldn't be written, the whole output was.
    ensures unnoted { IsTrue C.has_notes → result ≡ Err ProgramFault.Note → (request : Request C)
        × IsRequest C.name_of word.now request × Unnoted (Writes C.out C.said word.now request) (R.remaining reader.old)
        (R.remaining reader.new) (W.contents writer.old) (W.contents writer.new) (E.contents errors.old)
        (E.contents errors.new) }

    // A word that isn't a command reads nothing, whatever the result.
    ensures unread { ¬ IsCommand C.name_of word.now → reader.new ≡ reader.old }
    ensures never { ¬ IsCommand C.name_of word.now → IfErr result (λ fault. fault ≡ ProgramFault.Write) }
{
    match parse_command::<C>(word) {
        Request::Command(command) => command.run(alloc, reader, writer, errors),
        Request::Help => {
            write_all(writer, C::help().as_bytes())?;
            Ok(Status::Fine)
        }
        Request::Version => {
            write_all(writer, VERSION.as_bytes())?;
            Ok(Status::Fine)
        }
        Request::Unknown => {
            write_unknown(errors, word, C::usage())?;
            Ok(Status::Usage)
        }
    }
}
