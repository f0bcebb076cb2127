//! A writer of streams of messages.
ghost use Rattle.std.specs.Prelude.{◌≡◌, ◌<◌, ℕ, List, length, OnOk, Err};
ghost use Rattle.std.specs.Io.KnownBytes.{Appends};
ghost use Rattle.octseq.specs.Part.{part_of};
ghost use Rattle.octseq.specs.Parts.{StartsWith};
ghost use Rattle.octseq_dns.specs.Frames.{FitsStream};

use octseq_stream::WriteFrameError;
use std::io::Write;

/// Writes a message, preceded by its length in two octets.
///
/// # Errors
///
/// `TooLong` if the message has more than 65,535 octets: nothing is then written. Otherwise `Write` if a write failed:
/// a front of the length and the message may then be written.
pub fn write_frame<W: Write>(writer: &mut W, message: &[u8]) -> Result<(), WriteFrameError>
    ensures ok { OnOk result (Appends (W.contents writer.old) (W.contents writer.new) (part_of 2 message.now)) }
    ensures fits { OnOk result (FitsStream message.now) }
    ensures long { result ≡ Err WriteFrameError.TooLong → 65535 < length message.now }
    ensures refused { 65535 < length message.now → (result ≡ Err WriteFrameError.TooLong) × (writer.new ≡ writer.old) }
    ensures front { (front : List ℕ) × StartsWith front (part_of 2 message.now)
        × Appends (W.contents writer.old) (W.contents writer.new) front }
{
    octseq_stream::write_frame(writer, message)
}
