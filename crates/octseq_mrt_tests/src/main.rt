//! Shows each record of standard input, followed by an empty line.
//!
//! It is a test of `octseq_mrt`: `stdin` has files of records that four daemons wrote, one after another, and then
//! records that were made; `stdout` is what another reader makes of them.
#![tactic(auto)]

use octseq_mrt::{RecordError, RecordReader};
use std::io::{self, Read, Write};
use std::process::ExitCode;

#[cfg(test)]
mod tests;

/// The reason why the program fails.
#[derive(Debug, Drop)]
enum Fault {
    /// A request for memory was refused.
    Memory,
    /// A read or a write failed.
    Stream,
}

/// Shows the records of a reader, one at a time. Returns whether the last one is whole.
fn show<R: Read, W: Write>(records: &mut RecordReader<R>, out: &mut W) -> Result<bool, Fault> {
    for _ in 0..u64::MAX {
        match records.read_next() {
            Ok(true) => show_record(records, out)?,
            Ok(false) => return Ok(true),
            Err(RecordError::Short) => {
                write_text(out, "unexpected end of input\n")?;
                return Ok(false);
            }
            // (any octets are a header)
            Err(RecordError::Malformed) => unreachable!(),
            Err(RecordError::Memory) => return Err(Fault::Memory),
            Err(RecordError::Read(_)) => return Err(Fault::Stream),
        }
    }
    Ok(true)
}

/// Shows the last record read.
fn show_record<R: Read, W: Write>(records: &RecordReader<R>, out: &mut W) -> Result<(), Fault> {
    match records.record() {
        Ok(record) => match write!(out, "{record}\n") {
            Ok(()) => Ok(()),
            Err(_) => Err(Fault::Stream),
        },
        Err(_) => Err(Fault::Stream),
    }
}

/// Writes a text.
fn write_text<W: Write>(out: &mut W, text: &str) -> Result<(), Fault> {
    match out.write_all(text.as_bytes()) {
        Ok(()) => Ok(()),
        Err(_) => Err(Fault::Stream),
    }
}

fn main(rt: HostRuntime) -> ExitCode {
    let mut records = RecordReader::new(rt.alloc(), rt.reader());
    let mut out = io::writer(&rt);
    match show(&mut records, &mut out) {
        Ok(true) => ExitCode::from(0),
        Ok(false) => ExitCode::from(1),
        Err(Fault::Memory) => ExitCode::from(3),
        Err(Fault::Stream) => ExitCode::from(4),
    }
}
