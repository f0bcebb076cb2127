//! Reading all of an input, and writing all of an output.
ghost use Rattle.std.specs.Prelude.{◌≡◌, ◌≢◌, ◌≤◌, [], length, take, List, ℕ, IfOk, IfErr, OnOk, OnErr};
ghost use Rattle.std.specs.Io.KnownBytes.{Appends, Consumes, IsAtEnd};
ghost use Rattle.std.specs.IoError.{error_kind};
ghost use Rattle.octseq.specs.Parts.{StartsWith};

use super::ToolFault;
use std::alloc::Global;
use std::io::{self, ErrorKind, Read, Write};

/// Returns the fault of a failed read. A reader may report that way that it is out of memory.
pub fn failed_read(e: &io::Error) -> ToolFault
    ensures memory { error_kind e.now ≡ ErrorKind.OutOfMemory → result ≡ ToolFault.Memory }
    ensures read { error_kind e.now ≢ ErrorKind.OutOfMemory → result ≡ ToolFault.Read }
    ensures other { result ≢ ToolFault.Write }
{
    match e.kind() {
        ErrorKind::OutOfMemory => ToolFault::Memory,
        _ => ToolFault::Read,
    }
}

/// Reads all that the reader has left.
///
/// # Errors
///
/// `Memory` if a request for memory was refused, `Read` if a read failed.
pub fn read_all<R: Read>(alloc: Global, reader: &mut R) -> Result<Vec<u8>, ToolFault>
    ensures ok { IfOk result (λ input. Consumes (R.remaining reader.old) (R.remaining reader.new) input.items) }
    ensures end { OnOk result (IsAtEnd (R.remaining reader.new)) }
    ensures err { IfErr result (λ fault. fault ≢ ToolFault.Write) }
    ensures lost { OnErr result ((read : List ℕ) × Consumes (R.remaining reader.old) (R.remaining reader.new) read) }
{
    let mut input = Vec::new(alloc);
    match reader.read_to_end(&mut input) {
        Ok(_) => Ok(input),
        Err(e) => Err(failed_read(&e)),
    }
}

/// Writes all of the output and flushes the writer. What was written before a failure stays.
///
/// # Errors
///
/// `Write` if a write failed.
pub fn write_all<W: Write>(writer: &mut W, output: &[u8]) -> Result<(), ToolFault>
    ensures ok { OnOk result (Appends (W.contents writer.old) (W.contents writer.new) output.now) }
    ensures err { IfErr result (λ fault. fault ≡ ToolFault.Write) }
    ensures front { (front : List ℕ) × StartsWith front output.now
        × Appends (W.contents writer.old) (W.contents writer.new) front }
{
    let mut rest = output;
    for _ in 0..u64::MAX {
        if rest.is_empty() {
            return writer.flush().map_err(|_| ToolFault::Write);
        }
        let count = write_next(writer, rest)?;
        rest = &rest[count..];
    }
    Err(ToolFault::Write)
}

/// Writes once. Returns how many octets were taken, or 0 if the write was interrupted.
fn write_next<W: Write>(writer: &mut W, octets: &[u8]) -> Result<usize, ToolFault>
    ensures ok { IfOk result (λ count. (count ≤ length octets.now)
        × Appends (W.contents writer.old) (W.contents writer.new) (take count octets.now)) }
    ensures kept { OnErr result (Appends (W.contents writer.old) (W.contents writer.new) []) }
    ensures err { IfErr result (λ fault. fault ≡ ToolFault.Write) }
{
    match writer.write(octets) {
        Ok(0) => Err(ToolFault::Write),
        Ok(count) => Ok(count),
        Err(e) if e.kind() == ErrorKind::Interrupted => Ok(0),
        Err(_) => Err(ToolFault::Write),
    }
}
