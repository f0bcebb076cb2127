//! What is shown of a message, and the note about it.
ghost use Rattle.std.specs.Prelude.{◌≡◌, ◌++◌, ℕ, List, Bool, IfOk, codes, ⊤};
ghost use Rattle.octseq_bgp.specs.declared.session.SessionConfig.{SessionConfig as Session};
ghost use Rattle.octseq_bgp_tool.specs.Shown.{IsMessagePiece, IsNote, IsRead, IsShown};

use octseq::{AsOctets, StrBuilder};
use octseq_bgp::laws::{one_message, one_stop, one_text};
use octseq_bgp::message::{Message, fault_offset};
use octseq_bgp::session::SessionConfig;
use octseq_cli::{FrameCommand, FrameOutput, stop_line};
use std::alloc::{AllocError, Global};

/// Octets make one output and one note.
///
/// It does nothing. Calling it brings the law into the caller's proof.
pub(super) fn one_message_piece()
    ensures shown { (session : Session) (octets x y : List ℕ) (b c : Bool)
        → IsShown session octets b x → IsShown session octets c y → (x ≡ y) × (b ≡ c) }
    ensures note { (what : List ℕ) (session : Session) (number : ℕ) (octets x y : List ℕ) (b : Bool)
        → IsNote what session number octets b x → IsNote what session number octets b y → x ≡ y }
    ensures piece { (session : Session) (number : ℕ) (octets x y e f : List ℕ) (a b : Bool)
        → IsMessagePiece session number octets a x e → IsMessagePiece session number octets b y f
        → (a ≡ b) × (x ≡ y) × (e ≡ f) }
{
    one_message();
    one_text();
    one_stop();
}

/// Whether octets are a message of a session.
pub(super) fn is_message<R: AsOctets + Copy>(octets: R, session: SessionConfig) -> bool
    ensures { IsRead session (R.content octets) result }
{
    match Message::parse(octets, session) {
        Ok(_) => true,
        Err(_) => false,
    }
}

/// Appends the text of a message, or `malformed` if the octets aren't one. Returns whether they are.
pub(super) fn push_shown<R: AsOctets + Copy>(
    text: &mut StrBuilder<Vec<u8>>,
    octets: R,
    session: SessionConfig,
) -> Result<bool, AllocError>
    ensures { IfOk result (λ is_message. (shown : List ℕ) × IsShown session (R.content octets) is_message shown
        × (text.new.items ≡ text.old.items ++ shown)) }
{
    match Message::parse(octets, session) {
        // (a vector has no limit, so it refuses only for lack of memory)
        Ok(message) => match message.append_text(text) {
            Ok(()) => Ok(true),
            Err(_) => Err(AllocError),
        },
        Err(_) => {
            text.push_str("malformed\n")?;
            Ok(false)
        }
    }
}

/// Returns the note about octets on standard error, by what they are and their number: nothing, or the line with the
/// offset where reading stopped.
pub(super) fn note_on(
    alloc: Global,
    what: &str,
    number: u64,
    octets: &[u8],
    session: SessionConfig,
    is_message: bool,
) -> Result<Vec<u8>, AllocError>
    ensures { IfOk result (λ note. IsNote what.now session number octets.now is_message note.items) }
{
    if is_message {
        return Ok(Vec::new(alloc));
    }
    stop_line(alloc, what, number, fault_offset(octets, session))
}

/// The whole input as one message of a session.
#[derive(Clone, Copy)]
pub(super) struct OneMessage(pub(super) SessionConfig);

impl FrameCommand for OneMessage {
    type Tools = ();

    ghost fits = { λ _ _. ⊤ };

    ghost is_piece = { λ command. IsMessagePiece command.0 };

    fn one_piece(self) {
        one_message_piece();
    }

    fn tools(self, _alloc: Global) {}

    fn take(
        self,
        alloc: Global,
        _tools: &mut (),
        number: u64,
        octets: &[u8],
    ) -> Result<FrameOutput, AllocError> {
        let mut text = StrBuilder::<Vec<u8>>::new(alloc)?;
        let is_fine = push_shown(&mut text, octets, self.0)?;
        let note = note_on(alloc, "message", number, octets, self.0, is_fine)?;
        Ok(FrameOutput {
            output: text.into_octets_builder(),
            note,
            is_fine,
        })
    }
}
