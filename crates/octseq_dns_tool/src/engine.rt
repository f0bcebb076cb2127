//! The commands of the program.
ghost use Rattle.std.specs.Prelude.{◌≡◌, ℕ, List, Option, codes, true};
ghost use Rattle.octseq_dns_tool.specs.Out.{command_name, Out};
ghost use Rattle.octseq_dns_tool.specs.declared.engine.Command.{Command};
ghost use Rattle.octseq_cli.specs.Run.{IsNamed};
ghost use Rattle.octseq_cli.specs.declared.status.Status.{Status};

use crate::engine::compose::{Composed, one_text_piece};
use crate::engine::shown::{OneMessage, one_message_piece};
use crate::engine::stream::{Messages, one_stream_piece};
use octseq_cli::{Commands, ProgramFault, Status, process_stream, process_texts, process_whole};
use std::alloc::Global;
use std::io::{Read, Write};

mod compose;
mod rewrite;
mod shown;
mod stream;
#[cfg(test)]
mod tests;

/// The help text of the program.
const HELP: &str = "\
./dns reads DNS messages, and shows them as text or writes them anew; it composes them of their text, too.

usage: ./dns [COMMAND [FILE]]

It reads the file, or standard input where none is named, or -.

commands, the first where none is named:
  message  shows one message
           ./dns message FILE
  stream   shows messages, each after its length in 2 octets, with an empty line after each
           ./dns stream < FILE
  rewrite  writes such messages anew, with their names compressed; it leaves out what is no message, what can't be
           moved and what takes more than 65,535 octets
           ./dns rewrite FILE > OUTPUT
  compose  composes messages of texts, as stream shows them, as a stream, with their names compressed; it leaves out
           what is the text of no message, and what takes more than 65,535 octets; one or more empty lines are between
           two texts, and a line feed has to end each line
           ./dns compose TEXTS > OUTPUT
  --help   writes this, and so does -h; --version writes the version, the kit and the licence

Of what is malformed or left out, standard error has a line with the number of the message and the place where reading
stopped, in a text the line and the octet in it, or the reason. If such a line can't be written, none follows, the
output goes on, and the status is 4.

status:
  0  all went well
  1  the message is malformed, a message or a text is left out, or the stream ends inside a message
  2  the words name no command
  3  there was not enough memory
  4  a read or a write failed
";

/// The end of the line about an unknown word.
const USAGE: &str = "usage: ./dns [COMMAND [FILE]]; ./dns --help lists the commands\n";

/// The commands of the program.
#[derive(Clone, Copy, Debug, PartialEq, Eq)]
pub enum Command {
    /// Write the text of the input as one message.
    Message,
    /// Write the text of each message of the input, each of which is preceded by its length in two octets.
    Stream,
    /// Rewrite each message of such a stream, with its names compressed, as a stream.
    Rewrite,
    /// Compose the message of each text of the input, with its names compressed, as a stream. Empty lines are between
    /// texts.
    Compose,
}

/// A word names at most one command, and a command has one output, on standard output and on standard error, and one
/// status for an input: what the program writes is a function of both. The law is on a function that does nothing, so
/// that a check proves it.
pub fn one_answer()
    ensures command { (word : List ℕ) (c d : Option Command)
        → IsNamed command_name word c → IsNamed command_name word d → c ≡ d }
    ensures output { (c : Command) (input x y e f : List ℕ) (s t : Status)
        → Out c input x e s → Out c input y f t → (x ≡ y) × (e ≡ f) × (s ≡ t) }
{
    one_message_piece();
    one_stream_piece();
    one_text_piece();
}

impl Commands for Command {
    ghost use Rattle.octseq_dns_tool.specs.declared.engine.TheConstants.{HELP, USAGE};

    ghost name_of = { command_name };

    ghost default_word = { codes "message" };

    ghost said = { record { help = HELP.now; usage = USAGE.now } };

    ghost out = { Out };

    ghost has_notes = { true };

    fn named(word: &str) -> Option<Command> {
        match word {
            "message" => Some(Command::Message),
            "stream" => Some(Command::Stream),
            "rewrite" => Some(Command::Rewrite),
            "compose" => Some(Command::Compose),
            _ => None,
        }
    }

    fn default_word() -> &'static str {
        "message"
    }

    fn help() -> &'static str {
        HELP
    }

    fn usage() -> &'static str {
        USAGE
    }

    fn run<R: Read, W: Write, E: Write>(
        self,
        alloc: Global,
        reader: &mut R,
        writer: &mut W,
        errors: &mut E,
    ) -> Result<Status, ProgramFault> {
        match self {
            Command::Message => process_whole(OneMessage, alloc, reader, writer, errors),
            Command::Stream => process_stream(Messages::Shown, alloc, reader, writer, errors),
            Command::Rewrite => process_stream(Messages::Rewritten, alloc, reader, writer, errors),
            Command::Compose => process_texts(Composed, alloc, reader, writer, errors),
        }
    }
}
