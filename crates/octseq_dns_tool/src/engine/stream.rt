//! Streams of messages, each preceded by its length in two octets.
ghost use Rattle.std.specs.Prelude.{◌≡◌, ◌≤◌, ℕ, List, [], length, Bool, true, false, IfOk};
ghost use Rattle.octseq.specs.Part.{part_of};
ghost use Rattle.octseq_dns.specs.Frames.{FitsStream};
ghost use Rattle.octseq_dns_tool.specs.Taken.{IsEnd, IsPiece, IsStreamRest, left_line};
ghost use Rattle.octseq_dns_tool.specs.declared.engine.stream.Messages.{Messages};
ghost use Rattle.octseq_dns_tool.specs.declared.engine.stream.Messages.TheVariants as messages;

use crate::engine::rewrite::{Rewriting, Writer};
use crate::engine::shown::{note_on, one_message_piece, push_shown};
use octseq::StrBuilder;
use octseq::compose::append_part_u16_be;
use octseq_cli::streams::failed_read;
use octseq_cli::{Ending, FrameCommand, FrameOutput, Next, ProgramFault, StreamCommand};
use octseq_dns::frames::{FrameError, read_frame};
use octseq_dns::{Message, laws};
use std::alloc::{AllocError, Global};
use std::io::Read;

/// A message makes one piece, and so does a rest.
///
/// It does nothing. Calling it brings the law into the caller's proof.
pub(super) fn one_stream_piece()
    ensures piece { (c : Messages) (number : ℕ) (octets x y e f : List ℕ) (a b : Bool)
        → IsPiece c number octets a x e → IsPiece c number octets b y f → (a ≡ b) × (x ≡ y) × (e ≡ f) }
    ensures end { (c : Messages) (number : ℕ) (rest x y e f : List ℕ) (a b : Bool)
        → IsEnd c number rest a x e → IsEnd c number rest b y f → (a ≡ b) × (x ≡ y) × (e ≡ f) }
{
    one_message_piece();
    octseq_dns::message::one_message();
    laws::one_message_of();
}

/// How the messages of a stream are processed: shown, or rewritten.
#[derive(Clone, Copy)]
pub(super) enum Messages {
    /// The text of each message.
    Shown,
    /// Each message with its names compressed, preceded by its length.
    Rewritten,
}

/// Returns the text of a message, and an empty line.
fn shown_piece(alloc: Global, number: u64, octets: &[u8]) -> Result<FrameOutput, AllocError>
    ensures { IfOk result (λ piece.
        IsPiece messages.Shown number octets.now piece.is_fine piece.output.items piece.note.items) }
{
    let mut text = StrBuilder::<Vec<u8>>::new(alloc)?;
    let is_message = push_shown(&mut text, octets)?;
    text.push_str("\n")?;
    let note = note_on(alloc, number, octets, is_message)?;
    Ok(FrameOutput {
        output: text.into_octets_builder(),
        note,
        is_fine: true,
    })
}

/// Returns a rewritten message, preceded by its length, or nothing if it is left out.
fn moved_piece(
    alloc: Global,
    writer: &mut Writer,
    number: u64,
    octets: &[u8],
) -> Result<FrameOutput, AllocError>
    ensures { IfOk result (λ piece.
        IsPiece messages.Rewritten number octets.now piece.is_fine piece.output.items piece.note.items) }
{
    let Ok(message) = Message::parse(octets) else {
        let note = note_on(alloc, number, octets, false)?;
        return Ok(left_out(alloc, note));
    };
    match writer.rewrite(alloc, &message)? {
        Rewriting::Written => written_piece(alloc, writer.octets.as_slice()),
        Rewriting::Immovable => {
            let note = left_line(alloc, number, "its data may have pointers")?;
            Ok(left_out(alloc, note))
        }
        Rewriting::Long => {
            let note = left_line(alloc, number, "it takes more than 65535 octets")?;
            Ok(left_out(alloc, note))
        }
    }
}

/// Returns the octets of a message, preceded by their length.
pub(super) fn written_piece(alloc: Global, octets: &[u8]) -> Result<FrameOutput, AllocError>
    requires { length octets.now ≤ 65535 }
    ensures { IfOk result (λ piece. (piece.output.items ≡ part_of 2 octets.now) × (piece.note.items ≡ [])
        × (piece.is_fine ≡ true)) }
{
    let mut output = Vec::new(alloc);
    // (a vector has no limit, and there are at most 65,535 octets, so it refuses only for lack of memory)
    match append_part_u16_be(&mut output, octets) {
        Ok(()) => Ok(FrameOutput {
            output,
            note: Vec::new(alloc),
            is_fine: true,
        }),
        Err(_) => Err(AllocError),
    }
}

/// Returns the line that reports why a numbered message is left out.
pub(super) fn left_line(alloc: Global, number: u64, why: &str) -> Result<Vec<u8>, AllocError>
    ensures { IfOk result (λ line. line.items ≡ left_line number why.now) }
{
    let line = format!(in alloc; "message {number}: left out: {why}\n")?;
    Ok(line.into_bytes())
}

/// Returns nothing for a message that is left out, with this note.
pub(super) fn left_out(alloc: Global, note: Vec<u8>) -> FrameOutput
    ensures output { result.output.items ≡ [] }
    ensures note { result.note.items ≡ note.items }
    ensures is_fine { result.is_fine ≡ false }
{
    FrameOutput {
        output: Vec::new(alloc),
        note,
        is_fine: false,
    }
}

impl FrameCommand for Messages {
    type Tools = Writer;

    ghost fits = { λ _. FitsStream };

    ghost is_piece = { IsPiece };

    fn one_piece(self) {
        one_stream_piece();
    }

    fn tools(self, alloc: Global) -> Writer {
        Writer::new(alloc)
    }

    fn take(
        self,
        alloc: Global,
        tools: &mut Writer,
        number: u64,
        octets: &[u8],
    ) -> Result<FrameOutput, AllocError> {
        match self {
            Messages::Shown => shown_piece(alloc, number, octets),
            Messages::Rewritten => moved_piece(alloc, tools, number, octets),
        }
    }
}

impl StreamCommand for Messages {
    ghost code = { λ _. part_of 2 };

    ghost is_rest = { λ _. IsStreamRest };

    ghost is_end = { IsEnd };

    fn one_end(self) {
        one_stream_piece();
    }

    fn read_next<R: Read>(
        self,
        reader: &mut R,
        octets: &mut Vec<u8>,
    ) -> Result<Next, ProgramFault> {
        match read_frame(reader, octets) {
            Ok(true) => Ok(Next::Frame),
            Ok(false) => Ok(Next::End(Ending::Whole)),
            Err(FrameError::Short) => Ok(Next::End(Ending::Cut)),
            // (any octets are a length)
            Err(FrameError::Malformed) => unreachable!(),
            Err(FrameError::Memory) => Err(ProgramFault::Memory),
            Err(FrameError::Read(error)) => Err(failed_read(&error)),
        }
    }

    fn take_end(
        self,
        alloc: Global,
        _number: u64,
        ending: Ending,
    ) -> Result<FrameOutput, AllocError> {
        match (ending, self) {
            (Ending::Whole, _) => FrameOutput::plain(alloc, "", true),
            (_, Messages::Shown) => FrameOutput::plain(alloc, "unexpected end of input\n", false),
            (_, Messages::Rewritten) => FrameOutput::plain(alloc, "", false),
        }
    }
}
