//! Commands that process a stream frame by frame. The output for a frame is written before the next frame is read, so
//! that a live source shows at once, and an input of any length needs only the memory of one frame and its output.
ghost use Rattle.std.specs.Prelude.{◌≡◌, ◌≢◌, ◌&&◌, ℕ, List, [], Bool, IfOk, IfErr, OnErr, OnOk, Ok, Err};
ghost use Rattle.std.specs.Io.KnownBytes.{Appends, Consumes, IsAtEnd};
ghost use Rattle.octseq.specs.Code.{HasFront, IsCode};
ghost use Rattle.octseq.specs.Parts.{StartsWith};
ghost use Rattle.octseq_cli.specs.Run.{Answers, BreaksOff, Unnoted};
ghost use Rattle.octseq_cli.specs.Frames.{IsNoted, IsStreamOut, IsWholeOut, ended_as, ends_as, stop_line};

use crate::status::{ProgramFault, Status};
use crate::streams::{read_all, write_all, write_whole};
use std::alloc::{AllocError, Global};
use std::io::{Read, Write};

/// The output for a frame, the note about it on standard error, and whether the frame is valid.
#[derive(Drop)]
pub struct FrameOutput {
    /// The output.
    pub output: Vec<u8>,
    /// The note on standard error.
    pub note: Vec<u8>,
    /// Whether the frame is valid.
    pub is_fine: bool,
}

impl FrameOutput {
    /// Makes a piece of a text, without a note.
    ///
    /// # Errors
    ///
    /// `AllocError` if a request for memory was refused.
    pub fn plain(alloc: Global, text: &str, is_fine: bool) -> Result<FrameOutput, AllocError>
        ensures { IfOk result (λ piece. (piece.output.items ≡ text.now) × (piece.note.items ≡ [])
            × (piece.is_fine ≡ is_fine)) }
    {
        let mut output = Vec::new(alloc);
        output.extend_from_slice(text.as_bytes())?;
        Ok(FrameOutput {
            output,
            note: Vec::new(alloc),
            is_fine,
        })
    }
}

/// Returns the line that reports where reading of a numbered item stopped.
///
/// # Errors
///
/// `AllocError` if a request for memory was refused.
pub fn stop_line(
    alloc: Global,
    what: &str,
    number: u64,
    offset: usize,
) -> Result<Vec<u8>, AllocError>
    ensures { IfOk result (λ line. line.items ≡ stop_line what.now number offset) }
{
    let line = format!(in alloc; "{what} {number}: malformed at octet {offset}\n")?;
    Ok(line.into_bytes())
}

/// How a stream ends.
#[derive(Clone, Copy, Debug, PartialEq, Eq)]
pub enum Ending {
    /// After its last frame.
    Whole,
    /// Inside a frame.
    Cut,
    /// At octets with which no frame begins. The input is read to its end.
    Misframed,
}

/// What comes next in a stream.
#[derive(Clone, Copy, Debug, PartialEq, Eq)]
pub enum Next {
    /// A frame.
    Frame,
    /// The end.
    End(Ending),
}

/// A command that makes a piece of octets and their number.
pub trait FrameCommand: Copy {
    /// The tools that are kept from frame to frame.
    type Tools: Drop;

    // the octets that it accepts
    ghost fits: { Self → List ℕ → Type 0 };

    // what it makes of octets and their number: whether they are valid, the output, and the note
    ghost is_piece: { Self → ℕ → List ℕ → Bool → List ℕ → List ℕ → Type 0 };

    /// Octets and their number make one piece.
    ///
    /// It does nothing. Calling it brings the law into the caller's proof.
    fn one_piece(self)
        ensures { (number : ℕ) (octets x y e f : List ℕ) (a b : Bool) → is_piece self number octets a x e
            → is_piece self number octets b y f → (a ≡ b) × (x ≡ y) × (e ≡ f) };

    /// Makes tools without allocated memory.
    fn tools(self, alloc: Global) -> Self::Tools;

    /// Makes a piece of the octets with a number.
    ///
    /// # Errors
    ///
    /// `AllocError` if a request for memory was refused.
    fn take(
        self,
        alloc: Global,
        tools: &mut Self::Tools,
        number: u64,
        octets: &[u8],
    ) -> Result<FrameOutput, AllocError>
        requires { fits self octets.now }
        ensures { IfOk result (λ piece.
            is_piece self number octets.now piece.is_fine piece.output.items piece.note.items) };
}

/// A command that processes a stream of frames. It makes a piece of each frame and of the rest after the last one.
pub trait StreamCommand: FrameCommand {
    ghost use Rattle.octseq_cli.specs.declared.frames.Ending.{Ending};

    // the octets of a frame in the stream
    ghost code: { Self → List ℕ → List ℕ };

    // the rest of a stream after its last frame, by how it ends
    ghost is_rest: { Self → Ending → List ℕ → Type 0 };

    // what is made of a rest, with the number after that of the last frame
    ghost is_end: { Self → ℕ → List ℕ → Bool → List ℕ → List ℕ → Type 0 };

    /// A stream is frames in one way, no frame is at the front of the rest, and the rest makes one piece.
    ///
    /// It does nothing. Calling it brings the laws into the caller's proof.
    fn one_end(self)
        ensures apart { IsCode (Self.fits self) (code self) }
        ensures rest { (number : ℕ) (octets written note : List ℕ) (is_fine : Bool)
            → is_end self number octets is_fine written note → ¬ HasFront (Self.fits self) (code self) octets }
        ensures one { (number : ℕ) (octets x y e f : List ℕ) (a b : Bool) → is_end self number octets a x e
            → is_end self number octets b y f → (a ≡ b) × (x ≡ y) × (e ≡ f) };

    /// Reads the next frame, replacing the last one, or to the end of the input if there is none.
    ///
    /// # Errors
    ///
    /// `Memory` if a request for memory was refused, `Read` if a read failed.
    fn read_next<R: Read>(self, reader: &mut R, octets: &mut Vec<u8>) -> Result<Next, ProgramFault>
        ensures frame { result ≡ Ok Next.Frame → Self.fits self octets.new.items
            × Consumes (R.remaining reader.old) (R.remaining reader.new) (code self octets.new.items) }
        ensures end { (ending : Ending) → result ≡ Ok (Next.End ending) → (rest : List ℕ) × is_rest self ending rest
            × Consumes (R.remaining reader.old) (R.remaining reader.new) rest × IsAtEnd (R.remaining reader.new) }
        ensures err { OnErr result ((read : List ℕ)
            × Consumes (R.remaining reader.old) (R.remaining reader.new) read) }
        ensures note { IfErr result (λ fault. fault ≢ ProgramFault.Note) };

    /// Makes a piece of the rest of a stream that ends like this.
    ///
    /// # Errors
    ///
    /// `AllocError` if a request for memory was refused.
    fn take_end(self, alloc: Global, number: u64, ending: Ending) -> Result<FrameOutput, AllocError>
        ensures { IfOk result (λ piece. (rest : List ℕ) → is_rest self ending rest
            → is_end self number rest piece.is_fine piece.output.items piece.note.items) };
}

/// Processes all that the reader has left as one item with the number 1.
///
/// # Errors
///
/// `Memory` if a request for memory was refused, `Read` if a read failed, `Write` if a write of the output failed.
/// `Note` if the output was written, but not the note.
pub fn process_whole<C: FrameCommand, R: Read, W: Write, E: Write>(
    command: C,
    alloc: Global,
    reader: &mut R,
    writer: &mut W,
    errors: &mut E,
) -> Result<Status, ProgramFault>
    requires { (octets : List ℕ) → C.fits command octets }
    ensures ok { IfOk result (Answers (IsWholeOut (C.is_piece command 1)) (R.remaining reader.old)
        (W.contents writer.old) (W.contents writer.new) (E.contents errors.old) (E.contents errors.new)) }
    ensures end { OnOk result (IsAtEnd (R.remaining reader.new)) }
    ensures broke { OnErr result (BreaksOff (IsWholeOut (C.is_piece command 1)) (R.remaining reader.old)
        (R.remaining reader.new) (W.contents writer.old) (W.contents writer.new) (E.contents errors.old)
        (E.contents errors.new)) }
    ensures unnoted { result ≡ Err ProgramFault.Note → Unnoted (IsWholeOut (C.is_piece command 1))
        (R.remaining reader.old) (R.remaining reader.new) (W.contents writer.old) (W.contents writer.new)
        (E.contents errors.old) (E.contents errors.new) }
{
    command.one_piece();
    let input = read_all(alloc, reader)?;
    let mut tools = command.tools(alloc);
    let piece = command.take(alloc, &mut tools, 1, input.as_slice())?;
    let is_noted = write_piece(writer, errors, &piece, true)?;
    ended(piece.is_fine, is_noted)
}

/// Processes a stream, one frame at a time. A note that can't be written doesn't end the output: no note follows it,
/// and all else does.
///
/// # Errors
///
/// `Memory` if a request for memory was refused, `Read` if a read failed, `Write` if a write of the output failed.
/// `Note` if the whole output was written, but not all notes.
pub fn process_stream<C: StreamCommand, R: Read, W: Write, E: Write>(
    command: C,
    alloc: Global,
    reader: &mut R,
    writer: &mut W,
    errors: &mut E,
) -> Result<Status, ProgramFault>
    ensures ok { IfOk result (Answers
        (IsStreamOut (C.fits command) (C.code command) (C.is_piece command) (C.is_end command))
        (R.remaining reader.old) (W.contents writer.old) (W.contents writer.new) (E.contents errors.old)
        (E.contents errors.new)) }
    ensures end { OnOk result (IsAtEnd (R.remaining reader.new)) }
    ensures broke { OnErr result (BreaksOff
        (IsStreamOut (C.fits command) (C.code command) (C.is_piece command) (C.is_end command))
        (R.remaining reader.old) (R.remaining reader.new) (W.contents writer.old) (W.contents writer.new)
        (E.contents errors.old) (E.contents errors.new)) }
    ensures unnoted { result ≡ Err ProgramFault.Note → Unnoted
        (IsStreamOut (C.fits command) (C.code command) (C.is_piece command) (C.is_end command))
        (R.remaining reader.old) (R.remaining reader.new) (W.contents writer.old) (W.contents writer.new)
        (E.contents errors.old) (E.contents errors.new) }
{
    command.one_piece();
    command.one_end();
    let mut octets = Vec::new(alloc);
    let mut tools = command.tools(alloc);
    let mut is_all = true;
    let mut is_noted = true;
    for index in 0..u64::MAX {
        match command.read_next(reader, &mut octets)? {
            Next::Frame => {
                let piece = command.take(alloc, &mut tools, index + 1, octets.as_slice())?;
                is_noted = write_piece(writer, errors, &piece, is_noted)?;
                is_all = both(is_all, piece.is_fine);
            }
            Next::End(ending) => {
                let piece = command.take_end(alloc, index + 1, ending)?;
                let is_noted = write_piece(writer, errors, &piece, is_noted)?;
                return ended(both(is_all, piece.is_fine), is_noted);
            }
        }
    }
    Err(ProgramFault::Read)
}

/// Whether both are true.
pub(crate) fn both(first: bool, second: bool) -> bool
    ensures { result ≡ (first && second) }
{
    first && second
}

/// Returns how the program ends, by whether everything is valid.
fn status_of(is_all: bool) -> Status
    ensures { result ≡ ends_as is_all }
{
    if is_all {
        Status::Fine
    } else {
        Status::Refused
    }
}

/// Returns how the program ends after its output was written: by whether everything is valid, and whether all notes
/// were written.
pub(crate) fn ended(is_all: bool, is_noted: bool) -> Result<Status, ProgramFault>
    ensures { result ≡ ended_as is_all is_noted }
{
    if is_noted {
        Ok(status_of(is_all))
    } else {
        Err(ProgramFault::Note)
    }
}

/// Writes the output of a piece, and then its note on standard error, unless one before it wasn't written in full.
/// Returns whether all notes so far were.
///
/// # Errors
///
/// `Write` if a write of the output failed. The note isn't written then.
pub fn write_piece<W: Write, E: Write>(
    writer: &mut W,
    errors: &mut E,
    piece: &FrameOutput,
    is_noted: bool,
) -> Result<bool, ProgramFault>
    ensures ok { OnOk result (Appends (W.contents writer.old) (W.contents writer.new) piece.now.output.items) }
    ensures noted { IfOk result (λ all. IsNoted is_noted all piece.now.note.items (E.contents errors.old)
        (E.contents errors.new)) }
    ensures front { OnErr result ((front : List ℕ) × StartsWith front piece.now.output.items
        × Appends (W.contents writer.old) (W.contents writer.new) front) }
    ensures unnoted { OnErr result (errors.new ≡ errors.old) }
    ensures err { IfErr result (λ fault. fault ≡ ProgramFault.Write) }
{
    write_some(writer, piece.output.as_slice())?;
    Ok(write_note(errors, piece.note.as_slice(), is_noted))
}

/// Writes a note, unless it is empty or one before it wasn't written in full. Returns whether all notes so far were.
fn write_note<E: Write>(errors: &mut E, note: &[u8], is_noted: bool) -> bool
    ensures { IsNoted is_noted result note.now (E.contents errors.old) (E.contents errors.new) }
{
    if !is_noted {
        return false;
    }
    if note.is_empty() {
        return true;
    }
    write_whole(errors, note)
}

/// Writes all of the octets, if there are any.
fn write_some<W: Write>(writer: &mut W, octets: &[u8]) -> Result<(), ProgramFault>
    ensures ok { OnOk result (Appends (W.contents writer.old) (W.contents writer.new) octets.now) }
    ensures front { (front : List ℕ) × StartsWith front octets.now
        × Appends (W.contents writer.old) (W.contents writer.new) front }
    ensures err { IfErr result (λ fault. fault ≡ ProgramFault.Write) }
{
    if octets.is_empty() {
        return Ok(());
    }
    write_all(writer, octets)
}
