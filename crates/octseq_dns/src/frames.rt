//! Streams of messages, each preceded by its length in two octets: RFC 1035, 4.2.2.
ghost use Rattle.std.specs.Prelude.{◌≡◌, ◌≢◌, ◌+◌, ◌<◌, ◌++◌, ℕ, true, false, List, []};
ghost use Rattle.std.specs.Prelude.{IfSome, IfNone, IfOk, OnErr, Ok, Err};
ghost use Rattle.std.proofs.Common.{rules};
ghost use Rattle.std.specs.Io.KnownBytes.{Consumes, IsAtEnd};
ghost use Rattle.std.specs.List.{AllByRecursion};
ghost use Rattle.octseq.specs.Code.{HasFront};
ghost use Rattle.octseq.specs.Integer.{be};
ghost use Rattle.octseq.specs.Part.{part_of};
ghost use Rattle.octseq.specs.Parser.{window, sequence};
ghost use Rattle.octseq.specs.Window.{left, rest};
ghost use Rattle.octseq_dns.specs.Frames.{FitsStream, IsMessageCut, stream_of};

use octseq::{AsOctets, Malformed, Parser, ShortInput};
use octseq_stream::Framing;
use std::io::Read;

mod reader;
mod writer;

pub use crate::frames::reader::FrameReader;
pub use crate::frames::writer::write_frame;
pub use octseq_stream::{FrameError, WriteFrameError};

/// Octets are one list of messages, followed by one rest that doesn't begin with a message: what was written as a
/// stream is read back as those messages.
///
/// It does nothing. Calling it brings the law into the caller's proof.
pub fn one_stream()
    ensures { (messages others : List (List ℕ)) (more less : List ℕ) → AllByRecursion FitsStream messages
        → AllByRecursion FitsStream others → ¬ HasFront FitsStream (part_of 2) more
        → ¬ HasFront FitsStream (part_of 2) less
        → stream_of messages ++ more ≡ stream_of others ++ less → (messages ≡ others) × (more ≡ less) }
{
    octseq_stream::one_stream::<MessageFraming>();
}

/// Takes the next message of a stream, and returns a parser of its octets, or `None` at the end.
///
/// # Errors
///
/// `ShortInput` if the octets end inside a frame. The parser is then unchanged.
pub fn next_frame<R: AsOctets + Copy>(
    parser: &mut Parser<R>,
) -> Result<Option<Parser<R>>, ShortInput>
    ensures frame { IfOk result (λ frame. IfSome frame (λ frame. FitsStream (rest (window frame))
        × (rest (window parser.old) ≡ part_of 2 (rest (window frame)) ++ rest (window parser.new))
        × (left (window parser.new) < left (window parser.old)))) }
    ensures end { IfOk result (λ frame. IfNone frame (rest (window parser.old) ≡ [])) }
    ensures cut { OnErr result (IsMessageCut (rest (window parser.old))) }
    ensures kept { OnErr result (window parser.new ≡ window parser.old) }
    ensures same { sequence parser.new ≡ sequence parser.old }
{
    if parser.remaining() == 0 {
        return Ok(None);
    }
    let mut ahead = *parser;
    let len = ahead.parse_u16_be()?;
    let frame = ahead.parse_parser(usize::from(len))?;
    *parser = ahead;
    Ok(Some(frame))
}

/// Messages, each preceded by its length in two octets.
#[derive(Clone, Copy, Debug, PartialEq, Eq)]
pub struct MessageFraming;

impl Framing for MessageFraming {
    ghost use Rattle.octseq_dns.specs.OneFrame.{message_whole, one_message};

    ghost header = { 2 };

    ghost is_kept = { false };

    ghost fits = { λ _. FitsStream };

    ghost code = { λ _. part_of 2 };

    ghost size = { λ _ header. 2 + be header };

    ghost is_misframed = { λ _ _. ⊥ };

    fn header_len() -> usize {
        2
    }

    fn keeps_header() -> bool {
        false
    }

    fn parse_header(&self, octets: &[u8]) -> Result<Option<usize>, Malformed> {
        match Parser::from_static(octets).parse_u16_be() {
            Ok(len) => Ok(Some(usize::from(len))),
            Err(_) => Ok(None),
        }
    }

    ghost some = { Prim.search rules };

    ghost whole = { λ _. message_whole };

    ghost one = { λ _. one_message };

    ghost begins_none = { λ _ _ _ none. absurd none };
}

/// Reads the next message of a stream into a vector, replacing its content. Returns `false` at the end of the input.
/// The vector holds at most one message, and is empty after any answer but `Ok(true)`.
///
/// # Errors
///
/// `Short` if the input ends inside a frame, `Memory` if a request for memory was refused, `Read` if a read failed. The
/// reader may then be inside a frame. It is never `Malformed`: any octets are a length.
pub fn read_frame<R: Read>(reader: &mut R, frame: &mut Vec<u8>) -> Result<bool, FrameError>
    ensures frame { result ≡ Ok true → FitsStream frame.new.items
        × Consumes (R.remaining reader.old) (R.remaining reader.new) (part_of 2 frame.new.items) }
    ensures end { result ≡ Ok false → Consumes (R.remaining reader.old) (R.remaining reader.new) []
        × IsAtEnd (R.remaining reader.new) }
    ensures short { result ≡ Err FrameError.Short → (read : List ℕ) × IsMessageCut read
        × Consumes (R.remaining reader.old) (R.remaining reader.new) read × IsAtEnd (R.remaining reader.new) }
    ensures malformed { result ≢ Err FrameError.Malformed }
    ensures err { OnErr result ((read : List ℕ) × ¬ HasFront FitsStream (part_of 2) read
        × Consumes (R.remaining reader.old) (R.remaining reader.new) read) }
    ensures empty { result ≢ Ok true → frame.new.items ≡ [] }
{
    octseq_stream::read_frame(reader, &MessageFraming, frame)
}
