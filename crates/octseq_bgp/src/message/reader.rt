//! A reader of message streams, which holds one message at a time: RFC 4271, 4.1.
ghost use Rattle.std.specs.Prelude.{◌≡◌, ◌≢◌, ◌++◌, ◌↔◌, ℕ, true, false, List, [], length};
ghost use Rattle.std.specs.Prelude.{IsTrue, IfOk, IsErr, OnErr, Ok, Err};
ghost use Rattle.std.specs.Io.KnownBytes.{Consumes, IsAtEnd};
ghost use Rattle.std.specs.List.{All};
ghost use Rattle.std.proofs.Common.{rules};
ghost use Rattle.octseq.specs.Code.{HasFront};
ghost use Rattle.octseq_format.specs.Canonical.{AreOctets};
ghost use Rattle.octseq_bgp.specs.Message.{IsMessage};
ghost use Rattle.octseq_bgp.specs.Message as said;
ghost use Rattle.octseq_bgp.specs.MessageReader.{reader_of, session_of, held_octets, is_over};
ghost use Rattle.octseq_bgp.specs.Stream.{IsFramed, IsMisframed, IsFrameCut};
ghost use Rattle.octseq_bgp.specs.Stream.{IsMarked, longest_message, message_length};
ghost use Rattle.octseq_bgp.specs.declared.session.SessionConfig.{SessionConfig as Session};

use crate::message::Message;
use crate::session::SessionConfig;
use octseq::{Malformed, Parser};
pub use octseq_stream::FrameError as ReadMessageError;
use octseq_stream::{FrameReader, Framing, frames_are_apart, read_frame};
use std::alloc::Global;
use std::io::Read;

/// The number of octets of a marker.
const MARKER: usize = 16;

/// The number of octets of a marker and a length.
const FRONT: usize = 18;

/// The minimum number of octets of a message.
const LEAST: usize = 19;

/// Messages of a session, each a marker, a length in two octets, and what follows them: RFC 4271, 4.1.
impl Framing for SessionConfig {
    ghost use Rattle.octseq_bgp.specs.OneFrame.{message_whole, begins_none};

    ghost header = { 18 };

    ghost is_kept = { true };

    ghost fits = { IsFramed };

    ghost code = { λ _ octets. octets };

    ghost size = { λ _. message_length };

    ghost is_misframed = { IsMisframed };

    fn header_len() -> usize {
        FRONT
    }

    fn keeps_header() -> bool {
        true
    }

    fn parse_header(&self, octets: &[u8]) -> Result<Option<usize>, Malformed> {
        if !is_marked(octets) {
            return Err(Malformed);
        }
        if octets.len() < FRONT {
            return Ok(None);
        }
        let len = length_of(octets);
        if len < LEAST || len > longest_message(self) {
            return Err(Malformed);
        }
        Ok(Some(len - FRONT))
    }

    ghost some = { Prim.search rules };

    ghost whole = { message_whole };

    ghost one = { λ _ _ _ _ _ same. same };

    ghost begins_none = { begins_none };
}

/// Reads the next message of a stream into a vector, replacing its content. Returns `false` at the end of the input.
/// Only the marker and the length of the message are checked. The vector never grows by more than 65,536 octets ahead
/// of the input, and is empty after any answer but `Ok(true)`.
///
/// # Errors
///
/// `Short` if the input ends inside a message, `Malformed` if what comes next isn't framed as a message of the session,
/// `Memory` if a request for memory was refused, `Read` if a read failed. The reader may then be inside a message. If
/// the input ends within 18 octets, the error is `Short` if those of the first 16 that came are 255.
pub fn read_message<R: Read>(
    reader: &mut R,
    session: &SessionConfig,
    octets: &mut Vec<u8>,
) -> Result<bool, ReadMessageError>
    ensures message { result ≡ Ok true → IsFramed session.now octets.new.items
        × Consumes (R.remaining reader.old) (R.remaining reader.new) octets.new.items }
    ensures end { result ≡ Ok false → Consumes (R.remaining reader.old) (R.remaining reader.new) []
        × IsAtEnd (R.remaining reader.new) }
    ensures short { result ≡ Err ReadMessageError.Short → (read : List ℕ) × IsFrameCut session.now read
        × Consumes (R.remaining reader.old) (R.remaining reader.new) read × IsAtEnd (R.remaining reader.new) }
    ensures malformed { result ≡ Err ReadMessageError.Malformed → (read : List ℕ) × IsMisframed session.now read
        × Consumes (R.remaining reader.old) (R.remaining reader.new) read }
    ensures err { OnErr result ((read : List ℕ) × ¬ HasFront (IsFramed session.now) (λ octets. octets) read
        × Consumes (R.remaining reader.old) (R.remaining reader.new) read) }
    ensures empty { result ≢ Ok true → octets.new.items ≡ [] }
{
    read_frame(reader, session, octets)
}

/// Returns the maximum number of octets of a message of the session.
fn longest_message(session: &SessionConfig) -> usize
    ensures { result ≡ longest_message session.now }
{
    if session.extended_message {
        65_535
    } else {
        4096
    }
}

/// Whether the first 16 octets, or all if there are fewer, are 255.
fn is_marked(octets: &[u8]) -> bool
    ensures { IsTrue result ↔ IsMarked octets.now }
{
    if octets.len() < MARKER {
        are_255(octets)
    } else {
        are_255(&octets[..MARKER])
    }
}

/// Whether all octets are 255.
fn are_255(octets: &[u8]) -> bool
    ensures { IsTrue result ↔ All (λ octet. octet ≡ 255) octets.now }
{
    octets.iter().all(|&octet| octet == 255)
}

/// Returns the length that follows a marker.
fn length_of(front: &[u8]) -> usize
    requires { length front.now ≡ 18 }
    ensures { result ≡ message_length front.now }
{
    let mut parser = Parser::from_static(front);
    match (parser.advance(MARKER), parser.parse_u16_be()) {
        (Ok(()), Ok(len)) => usize::from(len),
        _ => 0,
    }
}

/// A reader of the messages of a stream, one at a time. It holds the octets of one message, and none after the last
/// one.
#[derive(Drop)]
pub struct MessageReader<R> {
    frames: FrameReader<R, SessionConfig>,
}

impl<R: Read> MessageReader<R> {
    ghost use Rattle.octseq_bgp.specs.Parsed.{message_of};

    /// Makes a reader of all the messages that a reader has left.
    pub fn new(alloc: Global, reader: R, session: SessionConfig) -> MessageReader<R>
        ensures reader { reader_of result ≡ reader }
        ensures session { session_of result ≡ session }
        ensures octets { held_octets result ≡ [] }
        ensures open { is_over result ≡ false }
    {
        MessageReader {
            frames: FrameReader::new(alloc, reader, session),
        }
    }

    /// Reads the next message, replacing the last one. Returns `false` at the end of the input, and after an error. It
    /// holds no octets after any answer but `Ok(true)`.
    ///
    /// # Errors
    ///
    /// `Short` if the input ends inside a message, `Malformed` if what comes next isn't framed as a message of the
    /// session, `Memory` if a request for memory was refused, `Read` if a read failed. The reader may then be inside a
    /// message, so no further message is read.
    pub fn read_next(&mut self) -> Result<bool, ReadMessageError>
        ensures message { result ≡ Ok true → IsFramed (session_of self.old) (held_octets self.new)
            × Consumes (R.remaining (reader_of self.old)) (R.remaining (reader_of self.new)) (held_octets self.new) }
        ensures end { result ≡ Ok false → is_over self.old ≡ false → Consumes (R.remaining (reader_of self.old))
            (R.remaining (reader_of self.new)) [] × IsAtEnd (R.remaining (reader_of self.new)) }
        ensures short { result ≡ Err ReadMessageError.Short → (read : List ℕ) × IsFrameCut (session_of self.old) read
            × Consumes (R.remaining (reader_of self.old)) (R.remaining (reader_of self.new)) read
            × IsAtEnd (R.remaining (reader_of self.new)) }
        ensures malformed { result ≡ Err ReadMessageError.Malformed → (read : List ℕ)
            × IsMisframed (session_of self.old) read
            × Consumes (R.remaining (reader_of self.old)) (R.remaining (reader_of self.new)) read }
        ensures err { OnErr result ((read : List ℕ)
            × ¬ HasFront (IsFramed (session_of self.old)) (λ octets. octets) read
            × Consumes (R.remaining (reader_of self.old)) (R.remaining (reader_of self.new)) read) }
        ensures over { is_over self.old ≡ true → (result ≡ Ok false) × (self.new ≡ self.old) }
        ensures last { result ≢ Ok true → is_over self.new ≡ true }
        ensures on { result ≡ Ok true → is_over self.new ≡ false }
        ensures empty { result ≢ Ok true → held_octets self.new ≡ [] }
        ensures session { session_of self.new ≡ session_of self.old }
    {
        self.frames.read_next()
    }

    /// Returns the octets of the last message read, or none if [`read_next`](Self::read_next) didn't return `true`.
    pub fn octets(&self) -> &[u8]
        ensures octets { result.now ≡ held_octets self.now }
        ensures over { is_over self.now ≡ true → result.now ≡ [] }
    {
        self.frames.octets()
    }

    /// Returns the last message read.
    ///
    /// # Errors
    ///
    /// `Malformed` if its octets aren't a message of the session, or if none was read: if
    /// [`read_next`](Self::read_next) didn't return `true`.
    pub fn message(&self) -> Result<Message<&[u8]>, Malformed>
        ensures message { IfOk result (λ it. IsMessage (session_of self.now) (held_octets self.now) (message_of it)) }
        ensures malformed { IsErr result → (m : said.Message)
            → ¬ IsMessage (session_of self.now) (held_octets self.now) m }
    {
        Message::parse(self.frames.octets(), *self.frames.framing())
    }

    /// Returns the session.
    pub fn session(&self) -> SessionConfig
        ensures { result ≡ session_of self.now }
    {
        *self.frames.framing()
    }

    /// Returns the underlying reader.
    pub fn get_ref(&self) -> &R
        ensures { result.now ≡ reader_of self.now }
    {
        self.frames.get_ref()
    }
}
