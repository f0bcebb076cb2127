//! Shows each message of standard input, as its session reads it, followed by an empty line. What isn't a message is
//! shown as `malformed`. Then a line for each message of at most 512 octets reports what is read if it is truncated to
//! each length, with that length in its header, and if each octet in turn is changed to each of five others: how many
//! readings there are, how many of them are malformed, and a digest of all that they show.
//!
//! Each message of standard input is preceded by three octets. The first is its session, a sum: 1 if AS numbers have
//! two octets, 2 if prefixes have path ids, 4 if messages may have 65,535 octets. The other two are the length of the
//! message, whatever its own header says.
//!
//! It is a test of `octseq_bgp`: `stdin` has 187 messages of five daemons, which spoke to each other and to a script,
//! and of captures, followed by 131 that were made, most of them odd in one way; `stdout` is what the readers of
//! mrtparse make of them.
#![tactic(auto)]

use crate::variants::{Shown, read_changes, read_cuts};
use octseq::octets::Octets;
use octseq::str::DisplayError;
use octseq::{AppendError, Malformed, StrBuilder};
use octseq_bgp::message::Message;
use octseq_bgp::session::{AddPath, SessionConfig};
use std::alloc::Global;
use std::fmt;
use std::io::{self, Read, Write};
use std::process::ExitCode;

mod variants;

/// Longer messages are neither truncated nor changed, as that would take most of the time.
const LONGEST: usize = 512;

/// A message as it is in a stream: its session, and its octets.
#[derive(Clone, Copy)]
struct Entry<'a> {
    session: SessionConfig,
    octets: &'a [u8],
}

/// Returns the session of a number.
fn session_of(number: u8) -> SessionConfig {
    SessionConfig {
        four_octet_asn: number & 1 == 0,
        add_path: AddPath::all(number & 2 != 0),
        extended_message: number & 4 != 0,
    }
}

/// Returns the first message of a stream, and what follows it.
fn split_message(stream: &[u8]) -> Option<(Entry<'_>, &[u8])> {
    let ([number, upper, lower], after) = stream.split_first_chunk::<3>()?;
    let len = u16::from_be_bytes([*upper, *lower]);
    let (octets, rest) = after.split_at_checked(usize::from(len))?;
    let session = session_of(*number);
    Some((Entry { session, octets }, rest))
}

/// Appends the text of a message and an empty line, and returns whether it is one.
fn append_message<R: Octets + Copy>(
    text: &mut StrBuilder<Vec<u8>>,
    session: SessionConfig,
    octets: R,
) -> Result<bool, DisplayError> {
    let is_message = match Message::parse(octets, session) {
        Ok(message) => {
            message.append_text(text)?;
            true
        }
        Err(Malformed) => {
            text.try_push_str("malformed\n")?;
            false
        }
    };
    text.try_push_str("\n")?;
    Ok(is_message)
}

/// Appends the text of all messages of a stream.
fn append_messages(text: &mut StrBuilder<Vec<u8>>, stream: &[u8]) -> Result<(), DisplayError> {
    let mut rest = stream;
    for _ in stream {
        let Some((entry, after)) = split_message(rest) else {
            break;
        };
        append_message(text, entry.session, entry.octets)?;
        rest = after;
    }
    Ok(())
}

/// The line that reports on a message.
#[derive(Drop)]
struct Line {
    cuts: Shown,
    changes: Shown,
}

impl fmt::Display for Line {
    fn fmt<W: fmt::Write>(&self, f: &mut fmt::Formatter<W>) -> fmt::Result {
        let Line { cuts, changes } = self;
        write!(f, "cuts {cuts}; changes {changes}\n")
    }
}

/// Returns a vector with the octets.
fn copy_of(alloc: Global, octets: &[u8]) -> Result<Vec<u8>, DisplayError> {
    let mut copy = Vec::new(alloc);
    copy.extend_from_slice(octets)
        .map_err(|_| AppendError::Memory)?;
    Ok(copy)
}

/// Returns the line for a message. The readings are shown in `shown`, whose content is overwritten.
fn line_of(
    alloc: Global,
    shown: &mut StrBuilder<Vec<u8>>,
    entry: Entry<'_>,
) -> Result<Line, DisplayError> {
    let mut cut = copy_of(alloc, entry.octets)?;
    let cuts = read_cuts(shown, entry.session, cut.as_mut_slice())?;
    let mut changed = copy_of(alloc, entry.octets)?;
    let changes = read_changes(shown, entry.session, changed.as_mut_slice())?;
    Ok(Line { cuts, changes })
}

/// Appends a line for each message of a stream that isn't too long.
fn append_lines(
    alloc: Global,
    text: &mut StrBuilder<Vec<u8>>,
    stream: &[u8],
) -> Result<(), DisplayError> {
    let mut shown = new_text(alloc)?;
    let mut rest = stream;
    for _ in stream {
        let Some((entry, after)) = split_message(rest) else {
            break;
        };
        if entry.octets.len() <= LONGEST {
            text.try_push_display(line_of(alloc, &mut shown, entry)?)?;
        }
        rest = after;
    }
    Ok(())
}

/// Returns an empty text.
fn new_text(alloc: Global) -> Result<StrBuilder<Vec<u8>>, DisplayError> {
    Ok(StrBuilder::new(alloc).map_err(|_| AppendError::Memory)?)
}

/// Returns the whole output for a stream.
fn text_of(alloc: Global, stream: &[u8]) -> Result<StrBuilder<Vec<u8>>, DisplayError> {
    let mut text = new_text(alloc)?;
    append_messages(&mut text, stream)?;
    append_lines(alloc, &mut text, stream)?;
    Ok(text)
}

fn main(rt: HostRuntime) -> ExitCode {
    let mut stream = Vec::new(rt.alloc());
    if rt.reader().read_to_end(&mut stream).is_err() {
        return ExitCode::from(4);
    }
    match text_of(rt.alloc(), stream.as_slice()) {
        Ok(text) => match io::writer(&rt).write_all(text.as_slice()) {
            Ok(()) => ExitCode::from(0),
            Err(_) => ExitCode::from(4),
        },
        Err(_) => ExitCode::from(3),
    }
}
