//! Shows each message of standard input, each of which is preceded by its length in two octets, followed by an empty
//! line. What isn't a message is shown as `malformed`. Then a line for each message of at most 512 octets reports what
//! is read if it is truncated to each length, and if each octet in turn is changed to each of six others: how many
//! readings there are, how many of them are malformed, and a digest of all that they show.
//!
//! It is a test of `octseq_dns`: `stdin` has 483 messages of real traffic, followed by 137 that were made, with types
//! of data that the traffic lacks; `stdout` is what the readers of dnspython make of them.
#![tactic(auto)]

use crate::variants::{Shown, read_changes, read_cuts};
use octseq::octets::Octets;
use octseq::str::DisplayError;
use octseq::{AppendError, StrBuilder};
use octseq_dns::{Malformed, Message};
use std::alloc::Global;
use std::fmt;
use std::io::{self, Read, Write};
use std::process::ExitCode;

mod variants;

/// Longer messages are neither truncated nor changed, as that would take most of the time.
const LONGEST: usize = 512;

/// Returns the first message of a stream, and what follows it.
fn split_message(stream: &[u8]) -> Option<(&[u8], &[u8])> {
    let (len, after) = stream.split_first_chunk::<2>()?;
    after.split_at_checked(usize::from(u16::from_be_bytes(*len)))
}

/// Appends the text of a message and an empty line, and returns whether it is one.
fn append_message<R: Octets + Copy>(
    text: &mut StrBuilder<Vec<u8>>,
    octets: R,
) -> Result<bool, DisplayError> {
    let is_message = match Message::parse(octets) {
        Ok(message) => {
            message.append_text(text)?;
            true
        }
        Err(Malformed) => {
            text.try_push_str("malformed\n")?;
            false
        }
    };
    text.try_push_str("\n")?;
    Ok(is_message)
}

/// Appends the text of all messages of a stream.
fn append_messages(text: &mut StrBuilder<Vec<u8>>, stream: &[u8]) -> Result<(), DisplayError> {
    let mut rest = stream;
    for _ in stream {
        let Some((octets, after)) = split_message(rest) else {
            break;
        };
        append_message(text, octets)?;
        rest = after;
    }
    Ok(())
}

/// The line that reports on a message.
#[derive(Drop)]
struct Line {
    cuts: Shown,
    changes: Shown,
}

impl fmt::Display for Line {
    fn fmt<W: fmt::Write>(&self, f: &mut fmt::Formatter<W>) -> fmt::Result {
        let Line { cuts, changes } = self;
        write!(f, "cuts {cuts}; changes {changes}\n")
    }
}

/// Returns the line for a message. The readings are shown in `shown`, whose content is overwritten.
fn line_of(
    alloc: Global,
    shown: &mut StrBuilder<Vec<u8>>,
    octets: &[u8],
) -> Result<Line, DisplayError> {
    let mut message = Vec::new(alloc);
    message
        .extend_from_slice(octets)
        .map_err(|_| AppendError::Memory)?;
    let cuts = read_cuts(shown, octets)?;
    let changes = read_changes(shown, message.as_mut_slice())?;
    Ok(Line { cuts, changes })
}

/// Appends a line for each message of a stream that isn't too long.
fn append_lines(
    alloc: Global,
    text: &mut StrBuilder<Vec<u8>>,
    stream: &[u8],
) -> Result<(), DisplayError> {
    let mut shown = new_text(alloc)?;
    let mut rest = stream;
    for _ in stream {
        let Some((octets, after)) = split_message(rest) else {
            break;
        };
        if octets.len() <= LONGEST {
            text.try_push_display(line_of(alloc, &mut shown, octets)?)?;
        }
        rest = after;
    }
    Ok(())
}

/// Returns an empty text.
fn new_text(alloc: Global) -> Result<StrBuilder<Vec<u8>>, DisplayError> {
    Ok(StrBuilder::new(alloc).map_err(|_| AppendError::Memory)?)
}

/// Returns the whole output for a stream.
fn text_of(alloc: Global, stream: &[u8]) -> Result<StrBuilder<Vec<u8>>, DisplayError> {
    let mut text = new_text(alloc)?;
    append_messages(&mut text, stream)?;
    append_lines(alloc, &mut text, stream)?;
    Ok(text)
}

fn main(rt: HostRuntime) -> ExitCode {
    let mut stream = Vec::new(rt.alloc());
    if rt.reader().read_to_end(&mut stream).is_err() {
        return ExitCode::from(4);
    }
    match text_of(rt.alloc(), stream.as_slice()) {
        Ok(text) => match io::writer(&rt).write_all(text.as_slice()) {
            Ok(()) => ExitCode::from(0),
            Err(_) => ExitCode::from(4),
        },
        Err(_) => ExitCode::from(3),
    }
}
