//! The commands of the program.
ghost use Rattle.std.specs.Prelude.{◌≡◌, ◌≢◌, ◌++◌, ℕ, List, Option, codes, true, IfSome, IsNone};
ghost use Rattle.octseq_bgp_tool.specs.Out.{Out};
ghost use Rattle.octseq_bgp_tool.specs.Words.{command_name};
ghost use Rattle.octseq_bgp_tool.specs.declared.engine.Command.{Command};
ghost use Rattle.octseq_cli.specs.Run.{IsNamed};
ghost use Rattle.octseq_cli.specs.declared.status.Status.{Status};

use crate::engine::messages::{Messages, Output, one_stream_piece};
use crate::engine::records::{Records, one_record_piece};
use crate::engine::shown::{OneMessage, one_message_piece};
use crate::options::Options;
use octseq_bgp::laws::{framed_messages_are_apart, misframed_begins_none};
use octseq_cli::{Commands, ProgramFault, Status, process_stream, process_whole};
use octseq_mrt::records_are_apart;
use std::alloc::Global;
use std::io::{Read, Write};

mod messages;
mod records;
mod shown;
#[cfg(test)]
mod tests;

/// The help text of the program.
const HELP: &str = "\
./bgp reads BGP messages and MRT records, and shows them as text or writes them anew.

usage: ./bgp [COMMAND [FILE]]

It reads the file, or standard input where none is named, or -.

commands, the first where none is named:
  message   shows one BGP message
            ./bgp message FILE
  stream    shows BGP messages, one after another, with an empty line after each
            ./bgp stream,two-octet < FILE
  rewrite   writes such messages anew: without bits that mean nothing, and no length longer than it has to be; it
            leaves out what is no message
            ./bgp rewrite FILE > OUTPUT
  mrt       shows MRT records, with an empty line after each
            ./bgp mrt FILE
  messages  writes the messages of the MRT records that have one, as a stream; it leaves out what is no message
            ./bgp messages FILE > OUTPUT
  --help    writes this, and so does -h; --version writes the version, the kit and the licence

message, stream and rewrite may be followed by these words, in this order, each after a comma:
  two-octet  AS numbers have two octets
  add-path   prefixes of all families have path ids
  extended   messages may have 65,535 octets

Of what is malformed, standard error has a line with the number of the message or record and the offset in the message
where reading stopped. If such a line can't be written, none follows, the output goes on, and the status is 4.

status:
  0  all went well
  1  the message is malformed, rewrite left out octets that are no message, what follows the last message is none, or
     the input ends inside a message or a record
  2  the words name no command
  3  there was not enough memory
  4  a read or a write failed
";

/// The end of the line about an unknown word.
const USAGE: &str = "usage: ./bgp [COMMAND [FILE]]; ./bgp --help lists the commands\n";

/// The commands of the program.
#[derive(Clone, Copy, Debug, PartialEq, Eq)]
pub enum Command {
    /// Write the text of the input as one message.
    Message(Options),
    /// Write the text of each message of the input.
    Stream(Options),
    /// Write each message of the input anew.
    Rewrite(Options),
    /// Write the text of each record of the input.
    Mrt,
    /// Write the messages in the records of the input.
    Messages,
}

/// A word names at most one command, and a command has one output, on standard output and on standard error, and one
/// status for an input: what the program writes is a function of both. The law is on a function that does nothing, so
/// that a check proves it.
pub fn one_answer()
    ensures command { (word : List ℕ) (c d : Option Command)
        → IsNamed command_name word c → IsNamed command_name word d → c ≡ d }
    ensures output { (c : Command) (input x y e f : List ℕ) (s t : Status)
        → Out c input x e s → Out c input y f t → (x ≡ y) × (e ≡ f) × (s ≡ t) }
{
    one_message_piece();
    one_stream_piece();
    one_record_piece();
    framed_messages_are_apart();
    misframed_begins_none();
    records_are_apart();
}

/// Returns what follows a front of a word, if the word begins with it.
fn after<'a>(word: &'a str, front: &str) -> Option<&'a str>
    ensures some { IfSome result (λ rest. word.now ≡ front.now ++ rest.now) }
    ensures none { IsNone result → (rest : List ℕ) → word.now ≢ front.now ++ rest }
{
    word.strip_prefix(front)
}

impl Commands for Command {
    ghost use Rattle.octseq_bgp_tool.specs.declared.engine.TheConstants.{HELP, USAGE};

    ghost name_of = { command_name };

    ghost default_word = { codes "message" };

    ghost said = { record { help = HELP.now; usage = USAGE.now } };

    ghost out = { Out };

    ghost has_notes = { true };

    fn named(word: &str) -> Option<Command> {
        match word {
            "mrt" => Some(Command::Mrt),
            "messages" => Some(Command::Messages),
            _ => match (
                after(word, "message"),
                after(word, "stream"),
                after(word, "rewrite"),
            ) {
                (Some(words), _, _) => Options::named(words).map(Command::Message),
                (_, Some(words), _) => Options::named(words).map(Command::Stream),
                (_, _, Some(words)) => Options::named(words).map(Command::Rewrite),
                _ => None,
            },
        }
    }

    fn default_word() -> &'static str {
        "message"
    }

    fn help() -> &'static str {
        HELP
    }

    fn usage() -> &'static str {
        USAGE
    }

    fn run<R: Read, W: Write, E: Write>(
        self,
        alloc: Global,
        reader: &mut R,
        writer: &mut W,
        errors: &mut E,
    ) -> Result<Status, ProgramFault> {
        match self {
            Command::Message(options) => {
                process_whole(OneMessage(options.session()), alloc, reader, writer, errors)
            }
            Command::Stream(options) => {
                let (session, output) = (options.session(), Output::Text);
                process_stream(Messages { session, output }, alloc, reader, writer, errors)
            }
            Command::Rewrite(options) => {
                let (session, output) = (options.session(), Output::Anew);
                process_stream(Messages { session, output }, alloc, reader, writer, errors)
            }
            Command::Mrt => process_stream(Records::Shown, alloc, reader, writer, errors),
            Command::Messages => process_stream(Records::Taken, alloc, reader, writer, errors),
        }
    }
}
