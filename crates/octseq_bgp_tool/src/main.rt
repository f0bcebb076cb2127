//! Reads BGP messages and MRT records from standard input or a file, and shows them as text or writes them anew.
//!
//! `octseq_bgp_tool message` shows one message, `stream` a stream of messages, and `rewrite` writes such a stream anew.
//! `mrt` shows MRT records, and `messages` writes the messages in such records as a stream. `message`, `stream` and
//! `rewrite` may be followed by `,two-octet`, `,add-path` and `,extended`, in this order, which say how messages are
//! read. The command is the program's first argument, and `message` if there is none; the second argument is the path
//! of a file to read in place of standard input. `--help` describes all this.
#![tactic(auto)]

use engine::Command;
use octseq_cli::start;
use std::process::ExitCode;

mod engine;
mod options;

fn main(rt: HostRuntime) -> ExitCode {
    start::<Command>(&rt)
}
