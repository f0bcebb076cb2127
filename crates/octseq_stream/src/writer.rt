//! A writer of streams of frames with a length of two octets.
ghost use Rattle.std.specs.Prelude.{◌≡◌, ◌<◌, ◌≤◌, [], ℕ, List, length, take, IfOk, OnOk, OnErr, Err};
ghost use Rattle.std.specs.Io.KnownBytes.{Appends};
ghost use Rattle.octseq.specs.Part.{part_of};
ghost use Rattle.octseq.specs.Parts.{StartsWith};

use std::error::Error;
use std::fmt;
use std::io::{self, ErrorKind, Write};

/// The reason why no frame was written.
#[derive(Debug, Drop)]
pub enum WriteFrameError {
    /// There are more than 65,535 octets.
    TooLong,
    /// A write failed.
    Write(io::Error),
}

impl Error for WriteFrameError {}

impl fmt::Display for WriteFrameError {
    ghost use Rattle.octseq_stream.specs.Shown.{write_frame_error_text};

    ghost output = { λ e. write_frame_error_text e };

    fn fmt<W: fmt::Write>(&self, f: &mut fmt::Formatter<W>) -> fmt::Result {
        match self {
            WriteFrameError::TooLong => f.write_str("message too long for a frame"),
            WriteFrameError::Write(error) => write!(f, "{error}"),
        }
    }
}

impl From<io::Error> for WriteFrameError {
    ghost use Rattle.octseq_stream.specs.declared.writer.WriteFrameError.TheVariants as why;

    ghost from_gives = { λ error made. made ≡ why.Write error };

    fn from(error: io::Error) -> WriteFrameError {
        WriteFrameError::Write(error)
    }
}

/// Writes octets, preceded by their length in two octets, big-endian.
///
/// # Errors
///
/// `TooLong` if there are more than 65,535 octets: nothing is then written. Otherwise `Write` if a write failed: a
/// front of the length and the octets may then be written.
#[tactic(auto, using(octseq::proofs::Written::written_2))]
pub fn write_frame<W: Write>(writer: &mut W, octets: &[u8]) -> Result<(), WriteFrameError>
    ensures ok { OnOk result (Appends (W.contents writer.old) (W.contents writer.new) (part_of 2 octets.now)) }
    ensures fits { OnOk result (length octets.now < 65536) }
    ensures long { result ≡ Err WriteFrameError.TooLong → 65535 < length octets.now }
    ensures refused { 65535 < length octets.now → (result ≡ Err WriteFrameError.TooLong) × (writer.new ≡ writer.old) }
    ensures front { (front : List ℕ) × StartsWith front (part_of 2 octets.now)
        × Appends (W.contents writer.old) (W.contents writer.new) front }
{
    let Ok(len) = u16::try_from(octets.len()) else {
        return Err(WriteFrameError::TooLong);
    };
    write_octets(writer, &len.to_be_bytes())?;
    write_octets(writer, octets)?;
    Ok(())
}

/// Writes all the octets.
///
/// # Errors
///
/// Those of a write, but for one that was interrupted, which is tried again. A front of the octets may then be written.
pub fn write_octets<W: Write>(writer: &mut W, octets: &[u8]) -> io::Result<()>
    ensures ok { OnOk result (Appends (W.contents writer.old) (W.contents writer.new) octets.now) }
    ensures front { (front : List ℕ) × StartsWith front octets.now
        × Appends (W.contents writer.old) (W.contents writer.new) front }
{
    let mut rest = octets;
    for _ in 0..u64::MAX {
        if rest.is_empty() {
            return Ok(());
        }
        let count = write_once(writer, rest)?;
        rest = &rest[count..];
    }
    Err(io::Error::from(ErrorKind::TimedOut))
}

/// Writes once, and returns the number of octets written: 0 if the write was interrupted.
fn write_once<W: Write>(writer: &mut W, octets: &[u8]) -> io::Result<usize>
    ensures ok { IfOk result (λ count. (count ≤ length octets.now)
        × Appends (W.contents writer.old) (W.contents writer.new) (take count octets.now)) }
    ensures kept { OnErr result (Appends (W.contents writer.old) (W.contents writer.new) []) }
{
    match writer.write(octets) {
        Ok(0) => Err(io::Error::from(ErrorKind::WriteZero)),
        Ok(count) => Ok(count),
        Err(error) if error.kind() == ErrorKind::Interrupted => Ok(0),
        Err(error) => Err(error),
    }
}
