//! Composes the text of each message of standard input, each of which is preceded by its length in two octets, and
//! compares the octets with those of the message rewritten, with the reserved bit cleared. It prints a line for each
//! message whose text is refused or composed otherwise, and then how many there are of each kind.
//!
//! It is a test of `octseq_dns_compose`: `stdin` has 483 messages of real traffic, followed by 137 that were made. Of
//! the 620, dnspython finds 63 malformed.
#![tactic(auto)]

use octseq::StrBuilder;
use octseq_dns::{Flags, Header, Message, RewriteError, Target, rewrite};
use octseq_dns_compose::compose_text;
use std::alloc::{AllocError, Global};
use std::io::{self, Read, Write};
use std::process::ExitCode;

/// What is made of a message.
#[derive(Clone, Copy, Debug, PartialEq, Eq)]
enum Outcome {
    /// Its text composes the octets of the message rewritten, with the reserved bit cleared.
    Same,
    /// It isn't one.
    Malformed,
    /// It can't be rewritten.
    Immovable,
    /// Its text composes other octets, or none.
    Different,
}

/// How many messages have each outcome.
#[derive(Clone, Copy, Debug, Default, PartialEq, Eq)]
struct Counts {
    same: usize,
    malformed: usize,
    immovable: usize,
    different: usize,
}

impl Counts {
    /// Counts one more.
    fn add(&mut self, outcome: Outcome) {
        let count = match outcome {
            Outcome::Same => &mut self.same,
            Outcome::Malformed => &mut self.malformed,
            Outcome::Immovable => &mut self.immovable,
            Outcome::Different => &mut self.different,
        };
        *count = count.saturating_add(1);
    }
}

/// Returns the first message of a stream, and what follows it.
fn split_message(stream: &[u8]) -> Option<(&[u8], &[u8])> {
    let (len, after) = stream.split_first_chunk::<2>()?;
    after.split_at_checked(usize::from(u16::from_be_bytes(*len)))
}

/// Returns what is made of a message.
fn outcome_of(alloc: Global, octets: &[u8]) -> Result<Outcome, AllocError> {
    let Ok(message) = Message::parse(octets) else {
        return Ok(Outcome::Malformed);
    };
    let mut text = StrBuilder::<Vec<u8>>::new(alloc)?;
    if message.append_text(&mut text).is_err() {
        return Err(AllocError);
    }
    let table = Vec::<Target>::new(alloc);
    let mut anew = match rewrite(&message, Vec::new(alloc), table) {
        Ok(written) => written,
        Err(RewriteError::Immovable) => return Ok(Outcome::Immovable),
        Err(_) => return Err(AllocError),
    };
    // (the text doesn't show the reserved bit, so what is composed of it has 0 there)
    let header = anew.header();
    let flags = Flags {
        z: false,
        ..header.flags
    };
    anew.set_header(Header { flags, ..header });
    let table = Vec::<Target>::new(alloc);
    match compose_text(alloc, text.as_slice(), Vec::new(alloc), table) {
        Ok(composed) if composed.as_slice() == anew.as_slice() => Ok(Outcome::Same),
        _ => Ok(Outcome::Different),
    }
}

/// Returns the whole output for a stream.
fn report(alloc: Global, stream: &[u8]) -> Result<String, AllocError> {
    let mut lines = String::new(alloc);
    let mut counts = Counts::default();
    let mut rest = stream;
    let mut number = 0_usize;
    for _ in stream {
        let Some((octets, after)) = split_message(rest) else {
            break;
        };
        number = number.saturating_add(1);
        let outcome = outcome_of(alloc, octets)?;
        if outcome == Outcome::Different {
            lines.push_str(format!(in alloc;
                "message {number} is composed otherwise\n"
            )?.as_str())?;
        }
        counts.add(outcome);
        rest = after;
    }
    let Counts {
        same,
        malformed,
        immovable,
        different,
    } = counts;
    let last = format!(in alloc;
        "{same} same, {malformed} malformed, {immovable} immovable, {different} other\n"
    )?;
    lines.push_str(last.as_str())?;
    Ok(lines)
}

fn main(rt: HostRuntime) -> ExitCode {
    let mut stream = Vec::new(rt.alloc());
    if rt.reader().read_to_end(&mut stream).is_err() {
        return ExitCode::from(4);
    }
    match report(rt.alloc(), stream.as_slice()) {
        Ok(text) => match io::writer(&rt).write_all(text.as_str().as_bytes()) {
            Ok(()) => ExitCode::from(0),
            Err(_) => ExitCode::from(4),
        },
        Err(_) => ExitCode::from(3),
    }
}
