//! Filling vectors from a reader.
ghost use Rattle.std.specs.Prelude.{◌≡◌, ◌≢◌, ◌+◌, ◌<◌, ◌≤◌, ◌++◌, ℕ, true, false, List, [], length, take, drop};
ghost use Rattle.std.specs.Prelude.{IfOk, OnErr, Ok, Err};
ghost use Rattle.std.specs.Io.{ReadsAtMost};
ghost use Rattle.std.specs.Io.KnownBytes.{Consumes, IsAtEnd};

use crate::reader::FrameError;
use std::io::{self, ErrorKind, Read};

/// The maximum number of octets to read at once, and for which a vector grows before they are read.
const STEP: usize = 65_536;

/// Reads `len` octets and appends them to a vector. Returns `false` if the input ends before. The vector never grows by
/// more than 65,536 octets ahead of the input.
///
/// # Errors
///
/// `Memory` if a request for memory was refused, `Read` if a read failed. Some of the octets may have been read, and
/// others than were read may be in the vector.
pub(crate) fn append_octets<R: Read>(
    reader: &mut R,
    octets: &mut Vec<u8>,
    len: usize,
) -> Result<bool, FrameError>
    ensures all { result ≡ Ok true → (read : List ℕ) × (length read ≡ len)
        × (octets.new.items ≡ octets.old.items ++ read)
        × Consumes (R.remaining reader.old) (R.remaining reader.new) read }
    ensures end { result ≡ Ok false → (read : List ℕ) × (length read < len)
        × (octets.new.items ≡ octets.old.items ++ read)
        × Consumes (R.remaining reader.old) (R.remaining reader.new) read × IsAtEnd (R.remaining reader.new) }
    ensures err { OnErr result ((read : List ℕ) × (length read < len)
        × Consumes (R.remaining reader.old) (R.remaining reader.new) read) }
    ensures short { result ≢ Err FrameError.Short }
    ensures malformed { result ≢ Err FrameError.Malformed }
{
    let mut left = len;
    'steps: while left > 0 {
        let step = if left < STEP { left } else { STEP };
        let count = append_step(reader, octets, step)?;
        if count < step {
            return Ok(false);
        }
        left -= step;
    }
    Ok(true)
}

/// Reads and appends `step` octets, or as many as there are up to the end of the input. Returns how many it read.
fn append_step<R: Read>(
    reader: &mut R,
    octets: &mut Vec<u8>,
    step: usize,
) -> Result<usize, FrameError>
    requires some { 0 < step }
    requires few { step ≤ 65536 }
    ensures read { IfOk result (λ n. (read : List ℕ) × (length read ≡ n) × (n ≤ step)
        × (octets.new.items ≡ octets.old.items ++ read)
        × Consumes (R.remaining reader.old) (R.remaining reader.new) read) }
    ensures end { IfOk result (λ n. n < step → IsAtEnd (R.remaining reader.new)) }
    ensures err { OnErr result ((read : List ℕ) × (length read < step)
        × Consumes (R.remaining reader.old) (R.remaining reader.new) read) }
    ensures short { result ≢ Err FrameError.Short }
    ensures malformed { result ≢ Err FrameError.Malformed }
{
    let before = octets.len();
    octets.resize(before + step, 0)?;
    let count = fill_after(reader, octets.as_mut_slice(), before)?;
    octets.truncate(before + count);
    Ok(count)
}

/// Reads into the octets from index `before` on, until they are full or the input ends. Returns how many it read.
fn fill_after<R: Read>(reader: &mut R, octets: &mut [u8], before: usize) -> io::Result<usize>
    requires { before ≤ length octets.old }
    ensures front { take before octets.new ≡ take before octets.old }
    ensures fits { IfOk result (λ n. before + n ≤ length octets.new) }
    ensures ok { IfOk result (λ n. Consumes (R.remaining reader.old) (R.remaining reader.new)
        (take n (drop before octets.new))) }
    ensures end { IfOk result (λ n. before + n < length octets.new → IsAtEnd (R.remaining reader.new)) }
    ensures err { OnErr result ((read : List ℕ) × (before + length read < length octets.new)
        × Consumes (R.remaining reader.old) (R.remaining reader.new) read) }
{
    fill(reader, &mut octets[before..])
}

/// Reads until the octets are full or the input ends. Returns how many it read.
fn fill<R: Read>(reader: &mut R, octets: &mut [u8]) -> io::Result<usize>
    ensures count { IfOk result (λ n. n ≤ length octets.new) }
    ensures ok { IfOk result (λ n. Consumes (R.remaining reader.old) (R.remaining reader.new) (take n octets.new)) }
    ensures end { IfOk result (λ n. n < length octets.new → IsAtEnd (R.remaining reader.new)) }
    ensures err { OnErr result ((read : List ℕ) × (length read < length octets.new)
        × Consumes (R.remaining reader.old) (R.remaining reader.new) read) }
{
    if octets.is_empty() {
        return Ok(0);
    }
    let mut filled = 0;
    for _ in 0..u64::MAX {
        let count = read_at(reader, octets, filled)?;
        filled += count;
        if count == 0 || filled == octets.len() {
            return Ok(filled);
        }
    }
    Err(io::Error::from(ErrorKind::TimedOut))
}

/// Reads once into the octets from index `filled` on. Returns how many octets it read.
fn read_at<R: Read>(reader: &mut R, octets: &mut [u8], filled: usize) -> io::Result<usize>
    requires { filled < length octets.old }
    ensures front { take filled octets.new ≡ take filled octets.old }
    ensures fits { IfOk result (λ n. filled + n ≤ length octets.new) }
    ensures ok { IfOk result (λ n. Consumes (R.remaining reader.old) (R.remaining reader.new)
        (take n (drop filled octets.new))) }
    ensures err { OnErr result (Consumes (R.remaining reader.old) (R.remaining reader.new) []) }
    ensures end { IfOk result (λ n. n ≡ 0 → IsAtEnd (R.remaining reader.new)) }
{
    read_once(reader, &mut octets[filled..])
}

/// Reads once, and returns how many octets it read. An interrupted read is repeated.
fn read_once<R: Read>(reader: &mut R, room: &mut [u8]) -> io::Result<usize>
    ensures bound { ReadsAtMost result room.new }
    ensures ok { IfOk result (λ n. Consumes (R.remaining reader.old) (R.remaining reader.new) (take n room.new)) }
    ensures err { OnErr result (Consumes (R.remaining reader.old) (R.remaining reader.new) []) }
    ensures end { IfOk result (λ n. n ≡ 0 → 0 < length room.old → IsAtEnd (R.remaining reader.new)) }
{
    for _ in 0..u64::MAX {
        match reader.read(room) {
            Ok(count) => return Ok(count),
            Err(error) if error.kind() == ErrorKind::Interrupted => {}
            Err(error) => return Err(error),
        }
    }
    Err(io::Error::from(ErrorKind::TimedOut))
}
