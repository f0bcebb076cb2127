//! Reading all of an input, and writing all of an output.
ghost use Rattle.std.specs.Prelude.{◌≡◌, ◌≢◌, ◌≤◌, [], length, take, List, ℕ, IfOk, IfErr, IfSome};
ghost use Rattle.std.specs.Prelude.{OnOk, OnErr, Ok, false};
ghost use Rattle.std.specs.Io.KnownBytes.{Appends, Consumes, IsAtEnd};
ghost use Rattle.std.specs.IoError.{error_kind};
ghost use Rattle.octseq.specs.Parts.{StartsWith};
ghost use Rattle.octseq_cli.specs.Run.{IsPartWritten};

use crate::status::ProgramFault;
use std::alloc::Global;
use std::io::{self, ErrorKind, Read, Write};

/// Returns the fault of a failed read. A reader may report that way that it is out of memory.
pub fn failed_read(e: &io::Error) -> ProgramFault
    ensures memory { error_kind e.now ≡ ErrorKind.OutOfMemory → result ≡ ProgramFault.Memory }
    ensures read { error_kind e.now ≢ ErrorKind.OutOfMemory → result ≡ ProgramFault.Read }
    ensures other { result ≢ ProgramFault.Write }
    ensures note { result ≢ ProgramFault.Note }
{
    match e.kind() {
        ErrorKind::OutOfMemory => ProgramFault::Memory,
        _ => ProgramFault::Read,
    }
}

/// Reads all that the reader has left.
///
/// # Errors
///
/// `Memory` if a request for memory was refused, `Read` if a read failed.
pub fn read_all<R: Read>(alloc: Global, reader: &mut R) -> Result<Vec<u8>, ProgramFault>
    ensures whole { IfOk result (λ input. IfSome (R.remaining reader.old) (λ octets. input.items ≡ octets)) }
    ensures end { OnOk result (IsAtEnd (R.remaining reader.new)) }
    ensures err { IfErr result (λ fault. fault ≢ ProgramFault.Write) }
    ensures note { IfErr result (λ fault. fault ≢ ProgramFault.Note) }
    ensures lost { IfOk result (λ input. Consumes (R.remaining reader.old) (R.remaining reader.new) input.items) }
    ensures some_lost { OnErr result ((read : List ℕ)
        × Consumes (R.remaining reader.old) (R.remaining reader.new) read) }
{
    let mut input = Vec::new(alloc);
    match reader.read_to_end(&mut input) {
        Ok(_) => Ok(input),
        Err(e) => Err(failed_read(&e)),
    }
}

/// Reads all that the reader has left, and discards it.
///
/// # Errors
///
/// `Read` if a read failed, `Memory` if the reader reports that it is out of memory.
pub fn drop_rest<R: Read>(reader: &mut R) -> Result<(), ProgramFault>
    ensures all { OnOk result ((rest : List ℕ) × Consumes (R.remaining reader.old) (R.remaining reader.new) rest
        × IsAtEnd (R.remaining reader.new)) }
    ensures some { OnErr result ((read : List ℕ)
        × Consumes (R.remaining reader.old) (R.remaining reader.new) read) }
    ensures err { IfErr result (λ fault. fault ≢ ProgramFault.Write) }
    ensures note { IfErr result (λ fault. fault ≢ ProgramFault.Note) }
{
    for _ in 0..u64::MAX {
        if !drop_next(reader)? {
            return Ok(());
        }
    }
    Err(ProgramFault::Read)
}

/// Reads once, and discards what it read. Returns whether more may come.
fn drop_next<R: Read>(reader: &mut R) -> Result<bool, ProgramFault>
    ensures read { (read : List ℕ) × Consumes (R.remaining reader.old) (R.remaining reader.new) read }
    ensures end { result ≡ Ok false → IsAtEnd (R.remaining reader.new) }
    ensures err { IfErr result (λ fault. fault ≢ ProgramFault.Write) }
    ensures note { IfErr result (λ fault. fault ≢ ProgramFault.Note) }
{
    let mut room = [0; 4096];
    match reader.read(&mut room) {
        Ok(count) => Ok(count > 0),
        Err(e) if e.kind() == ErrorKind::Interrupted => Ok(true),
        Err(e) => Err(failed_read(&e)),
    }
}

/// Writes all of the output and flushes the writer. What was written before a failure stays.
///
/// # Errors
///
/// `Write` if a write failed.
pub fn write_all<W: Write>(writer: &mut W, output: &[u8]) -> Result<(), ProgramFault>
    ensures ok { OnOk result (Appends (W.contents writer.old) (W.contents writer.new) output.now) }
    ensures err { IfErr result (λ fault. fault ≡ ProgramFault.Write) }
    ensures front { (front : List ℕ) × StartsWith front output.now
        × Appends (W.contents writer.old) (W.contents writer.new) front }
{
    let mut rest = output;
    for _ in 0..u64::MAX {
        if rest.is_empty() {
            return writer.flush().map_err(|_| ProgramFault::Write);
        }
        let count = write_next(writer, rest)?;
        rest = &rest[count..];
    }
    Err(ProgramFault::Write)
}

/// Writes all of the octets and flushes the writer. Returns whether that succeeded; otherwise a front of them was
/// written.
pub fn write_whole<W: Write>(writer: &mut W, octets: &[u8]) -> bool
    ensures { (part : List ℕ) × IsPartWritten result part octets.now
        × Appends (W.contents writer.old) (W.contents writer.new) part }
{
    match write_all(writer, octets) {
        Ok(()) => true,
        Err(_) => false,
    }
}

/// Writes once. Returns how many octets were taken, or 0 if the write was interrupted.
fn write_next<W: Write>(writer: &mut W, octets: &[u8]) -> Result<usize, ProgramFault>
    ensures ok { IfOk result (λ count. (count ≤ length octets.now)
        × Appends (W.contents writer.old) (W.contents writer.new) (take count octets.now)) }
    ensures kept { OnErr result (Appends (W.contents writer.old) (W.contents writer.new) []) }
    ensures err { IfErr result (λ fault. fault ≡ ProgramFault.Write) }
{
    match writer.write(octets) {
        Ok(0) => Err(ProgramFault::Write),
        Ok(count) => Ok(count),
        Err(e) if e.kind() == ErrorKind::Interrupted => Ok(0),
        Err(_) => Err(ProgramFault::Write),
    }
}
