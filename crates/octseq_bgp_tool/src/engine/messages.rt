//! Streams of messages.
ghost use Rattle.std.specs.Prelude.{◌≡◌, ◌≢◌, ◌++◌, ℕ, List, [], Bool, IfOk, OnErr, Ok};
ghost use Rattle.std.specs.Io.KnownBytes.{Consumes, IsAtEnd};
ghost use Rattle.octseq_bgp.specs.Stream.{IsFrameCut, IsFramed, IsMisframed};
ghost use Rattle.octseq_bgp.specs.declared.session.SessionConfig.{SessionConfig as Session};
ghost use Rattle.octseq_bgp_tool.specs.Out.{as_they_are};
ghost use Rattle.octseq_bgp_tool.specs.Streams.{IsAnew, IsBlock, IsMessagesEnd, IsMessagesRest, IsPiece};
ghost use Rattle.octseq_bgp_tool.specs.declared.engine.messages.Output.{Output};

use crate::engine::shown::{note_on, one_message_piece, push_shown};
use octseq::{StrBuilder, WriteError};
use octseq_bgp::laws::{
    framed_messages_are_apart, misframed_begins_none, misframed_octets_stay_so, one_rewriting,
};
use octseq_bgp::message::{ReadMessageError, read_message, rewrite};
use octseq_bgp::session::SessionConfig;
use octseq_cli::streams::{drop_rest, failed_read};
use octseq_cli::{Ending, FrameCommand, FrameOutput, Next, ProgramFault, StreamCommand, stop_line};
use std::alloc::{AllocError, Global};
use std::io::Read;

/// A message makes one piece, and so does a rest.
///
/// It does nothing. Calling it brings the law into the caller's proof.
pub(super) fn one_stream_piece()
    ensures piece { (output : Output) (session : Session) (number : ℕ) (octets x y e f : List ℕ) (a b : Bool)
        → IsPiece output session number octets a x e → IsPiece output session number octets b y f
        → (a ≡ b) × (x ≡ y) × (e ≡ f) }
    ensures end { (output : Output) (session : Session) (number : ℕ) (rest x y e f : List ℕ) (a b : Bool)
        → IsMessagesEnd output session number rest a x e → IsMessagesEnd output session number rest b y f
        → (a ≡ b) × (x ≡ y) × (e ≡ f) }
{
    one_message_piece();
    one_rewriting();
}

/// What is written for each message.
#[derive(Clone, Copy)]
pub(super) enum Output {
    /// Its text.
    Text,
    /// Its octets, written anew.
    Anew,
}

/// The messages of a session.
#[derive(Clone, Copy)]
pub(super) struct Messages {
    pub(super) session: SessionConfig,
    pub(super) output: Output,
}

/// Returns the text of a message, and an empty line.
fn text_piece(
    alloc: Global,
    number: u64,
    octets: &[u8],
    session: SessionConfig,
) -> Result<FrameOutput, AllocError>
    ensures { IfOk result (λ piece.
        IsBlock session number octets.now piece.is_fine piece.output.items piece.note.items) }
{
    let mut text = StrBuilder::<Vec<u8>>::new(alloc)?;
    let is_message = push_shown(&mut text, octets, session)?;
    text.push_str("\n")?;
    let note = note_on(alloc, "message", number, octets, session, is_message)?;
    Ok(FrameOutput {
        output: text.into_octets_builder(),
        note,
        is_fine: true,
    })
}

/// Returns a message anew, or nothing if the octets aren't one.
fn anew_piece(
    alloc: Global,
    number: u64,
    octets: &[u8],
    session: SessionConfig,
) -> Result<FrameOutput, AllocError>
    ensures { IfOk result (λ piece.
        IsAnew session number octets.now piece.is_fine piece.output.items piece.note.items) }
{
    match rewrite(octets, session, Vec::new(alloc)) {
        Ok(output) => Ok(FrameOutput {
            output,
            note: Vec::new(alloc),
            is_fine: true,
        }),
        Err(WriteError::Malformed) => Ok(FrameOutput {
            output: Vec::new(alloc),
            note: note_on(alloc, "message", number, octets, session, false)?,
            is_fine: false,
        }),
        // (a vector has no limit, so it refuses only for lack of memory)
        Err(_) => Err(AllocError),
    }
}

impl FrameCommand for Messages {
    type Tools = ();

    ghost fits = { λ command. IsFramed command.session };

    ghost is_piece = { λ command. IsPiece command.output command.session };

    fn one_piece(self) {
        one_stream_piece();
    }

    fn tools(self, _alloc: Global) {}

    fn take(
        self,
        alloc: Global,
        _tools: &mut (),
        number: u64,
        octets: &[u8],
    ) -> Result<FrameOutput, AllocError> {
        match self.output {
            Output::Text => text_piece(alloc, number, octets, self.session),
            Output::Anew => anew_piece(alloc, number, octets, self.session),
        }
    }
}

impl StreamCommand for Messages {
    ghost code = { λ _. as_they_are };

    ghost is_rest = { λ command. IsMessagesRest command.session };

    ghost is_end = { λ command. IsMessagesEnd command.output command.session };

    fn one_end(self) {
        one_stream_piece();
        framed_messages_are_apart();
        misframed_begins_none();
    }

    fn read_next<R: Read>(
        self,
        reader: &mut R,
        octets: &mut Vec<u8>,
    ) -> Result<Next, ProgramFault> {
        misframed_octets_stay_so();
        match read_message(reader, &self.session, octets) {
            Ok(true) => Ok(Next::Frame),
            Ok(false) => Ok(Next::End(Ending::Whole)),
            Err(ReadMessageError::Short) => Ok(Next::End(Ending::Cut)),
            Err(ReadMessageError::Malformed) => {
                drop_rest(reader)?;
                Ok(Next::End(Ending::Misframed))
            }
            Err(ReadMessageError::Memory) => Err(ProgramFault::Memory),
            Err(ReadMessageError::Read(error)) => Err(failed_read(&error)),
        }
    }

    fn take_end(
        self,
        alloc: Global,
        number: u64,
        ending: Ending,
    ) -> Result<FrameOutput, AllocError> {
        let (cut, misframed) = match self.output {
            Output::Text => ("unexpected end of input\n", "malformed\n\n"),
            Output::Anew => ("", ""),
        };
        match ending {
            Ending::Whole => FrameOutput::plain(alloc, "", true),
            Ending::Cut => FrameOutput::plain(alloc, cut, false),
            Ending::Misframed => {
                let mut piece = FrameOutput::plain(alloc, misframed, false)?;
                piece.note = stop_line(alloc, "message", number, 0)?;
                Ok(piece)
            }
        }
    }
}
