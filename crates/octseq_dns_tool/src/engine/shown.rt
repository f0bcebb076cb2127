//! What is shown of a message, and the note about it.
ghost use Rattle.std.specs.Prelude.{◌≡◌, ◌++◌, ℕ, List, Bool, IfOk, ⊤};
ghost use Rattle.octseq_dns_tool.specs.Shown.{IsMessagePiece, IsNote, IsShown};

use octseq::StrBuilder;
use octseq_cli::{FrameCommand, FrameOutput, stop_line};
use octseq_dns::message::{self, Message, fault_offset};
use std::alloc::{AllocError, Global};

/// Octets make one output and one note.
///
/// It does nothing. Calling it brings the law into the caller's proof.
pub(super) fn one_message_piece()
    ensures shown { (octets x y : List ℕ) (b c : Bool) → IsShown octets b x → IsShown octets c y
        → (x ≡ y) × (b ≡ c) }
    ensures piece { (number : ℕ) (octets x y e f : List ℕ) (a b : Bool) → IsMessagePiece number octets a x e
        → IsMessagePiece number octets b y f → (a ≡ b) × (x ≡ y) × (e ≡ f) }
{
    message::one_message();
    message::one_text_of_a_message();
}

/// Appends the text of a message, or `malformed` if the octets aren't one. Returns whether they are.
pub(super) fn push_shown(text: &mut StrBuilder<Vec<u8>>, octets: &[u8]) -> Result<bool, AllocError>
    ensures { IfOk result (λ is_message. (shown : List ℕ) × IsShown octets.now is_message shown
        × (text.new.items ≡ text.old.items ++ shown)) }
{
    match Message::parse(octets) {
        // (a vector has no limit, so it refuses only for lack of memory)
        Ok(message) => match message.append_text(text) {
            Ok(()) => Ok(true),
            Err(_) => Err(AllocError),
        },
        Err(_) => {
            text.push_str("malformed\n")?;
            Ok(false)
        }
    }
}

/// Returns the note about a message on standard error: nothing, or the line with its number and the place where reading
/// stopped.
pub(super) fn note_on(
    alloc: Global,
    number: u64,
    octets: &[u8],
    is_message: bool,
) -> Result<Vec<u8>, AllocError>
    ensures { IfOk result (λ note. IsNote number octets.now is_message note.items) }
{
    if is_message {
        return Ok(Vec::new(alloc));
    }
    stop_line(alloc, "message", number, fault_offset(octets))
}

/// The whole input as one message.
#[derive(Clone, Copy)]
pub(super) struct OneMessage;

impl FrameCommand for OneMessage {
    type Tools = ();

    ghost fits = { λ _ _. ⊤ };

    ghost is_piece = { λ _. IsMessagePiece };

    fn one_piece(self) {
        one_message_piece();
    }

    fn tools(self, _alloc: Global) {}

    fn take(
        self,
        alloc: Global,
        _tools: &mut (),
        number: u64,
        octets: &[u8],
    ) -> Result<FrameOutput, AllocError> {
        let mut text = StrBuilder::<Vec<u8>>::new(alloc)?;
        let is_fine = push_shown(&mut text, octets)?;
        let note = note_on(alloc, number, octets, is_fine)?;
        Ok(FrameOutput {
            output: text.into_octets_builder(),
            note,
            is_fine,
        })
    }
}
