//! Composing messages of their texts.
ghost use Rattle.std.specs.Prelude.{◌≡◌, ℕ, List, Bool, IfOk, ⊤};
ghost use Rattle.octseq_dns_tool.specs.Composed.{IsTextPiece, fault_line};

use crate::engine::rewrite::{Composing, Writer};
use crate::engine::stream::{left_line, left_out, written_piece};
use octseq_cli::{FrameCommand, FrameOutput};
use octseq_dns_compose::{
    Place, a_refused_text_is_no_message, a_text_has_one_fault, a_text_is_of_one_message,
};
use std::alloc::{AllocError, Global};

/// Returns the message of a text, composed and preceded by its length, or nothing if the text is left out.
fn composed_piece(
    alloc: Global,
    writer: &mut Writer,
    number: u64,
    text: &[u8],
) -> Result<FrameOutput, AllocError>
    ensures { IfOk result (λ piece.
        IsTextPiece number text.now piece.is_fine piece.output.items piece.note.items) }
{
    match writer.compose(alloc, text)? {
        Composing::Written => written_piece(alloc, writer.octets.as_slice()),
        Composing::Malformed(place) => {
            let note = fault_line(alloc, number, place)?;
            Ok(left_out(alloc, note))
        }
        Composing::Long => {
            let note = left_line(alloc, number, "it takes more than 65535 octets")?;
            Ok(left_out(alloc, note))
        }
    }
}

/// Returns the line that reports where the text of a numbered message is malformed.
fn fault_line(alloc: Global, number: u64, place: Place) -> Result<Vec<u8>, AllocError>
    ensures { IfOk result (λ line. line.items ≡ fault_line number place) }
{
    let Place { line, offset } = place;
    let line = format!(in alloc; "message {number}: malformed at line {line}, octet {offset}\n")?;
    Ok(line.into_bytes())
}

/// A text makes one piece.
///
/// It does nothing. Calling it brings the law into the caller's proof.
pub(super) fn one_text_piece()
    ensures { (number : ℕ) (text x y e f : List ℕ) (a b : Bool) → IsTextPiece number text a x e
        → IsTextPiece number text b y f → (a ≡ b) × (x ≡ y) × (e ≡ f) }
{
    a_text_is_of_one_message();
    a_text_has_one_fault();
    a_refused_text_is_no_message();
}

/// Texts of messages, each composed, and preceded by its length.
#[derive(Clone, Copy)]
pub(super) struct Composed;

impl FrameCommand for Composed {
    type Tools = Writer;

    ghost fits = { λ _ _. ⊤ };

    ghost is_piece = { λ _. IsTextPiece };

    fn one_piece(self) {
        one_text_piece();
    }

    fn tools(self, alloc: Global) -> Writer {
        Writer::new(alloc)
    }

    fn take(
        self,
        alloc: Global,
        tools: &mut Writer,
        number: u64,
        octets: &[u8],
    ) -> Result<FrameOutput, AllocError> {
        composed_piece(alloc, tools, number, octets)
    }
}
