//! Reads DNS messages from standard input or a file and shows them as text, and composes messages of such text.
//!
//! `octseq_dns_tool message` shows one message, and `stream` shows a stream of messages, each preceded by its length in
//! two octets. `rewrite` rewrites the messages of such a stream, with their names compressed, as a stream. `compose`
//! composes messages of texts, as `stream` shows them, as such a stream. The command is the program's first argument,
//! and `message` if there is none; the second argument is the path of a file to read in place of standard input.
//! `--help` describes all this.
#![tactic(auto)]

use engine::Command;
use octseq_cli::start;
use std::process::ExitCode;

mod engine;

fn main(rt: HostRuntime) -> ExitCode {
    start::<Command>(&rt)
}
