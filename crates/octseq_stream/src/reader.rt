//! A reader of streams of frames, which holds one frame at a time.
ghost use Rattle.std.specs.Prelude.{◌≡◌, ◌≢◌, ℕ, true, false, List, []};
ghost use Rattle.std.specs.Prelude.{IfOk, IfSome, OnErr, Ok, Err, None};
ghost use Rattle.std.specs.Io.KnownBytes.{Consumes, IsAtEnd};
ghost use Rattle.octseq.specs.Code.{HasFront};
ghost use Rattle.octseq_stream.specs.Frames.{IsCut, IsFramingHeader, kept_of};

use crate::framing::Framing;
use crate::read_exact::append_octets;
use octseq::Malformed;
use std::alloc::{AllocError, Global};
use std::error::Error;
use std::fmt;
use std::io::{self, Read};

/// The reason why no frame was read.
#[derive(Debug, Drop)]
pub enum FrameError {
    /// The input ends inside a frame.
    Short,
    /// No frame begins with what comes next.
    Malformed,
    /// A request for memory was refused.
    Memory,
    /// A read failed.
    Read(io::Error),
}

impl Error for FrameError {}

impl fmt::Display for FrameError {
    ghost use Rattle.octseq_stream.specs.Shown.{frame_error_text};

    ghost output = { λ e. frame_error_text e };

    fn fmt<W: fmt::Write>(&self, f: &mut fmt::Formatter<W>) -> fmt::Result {
        match self {
            FrameError::Short => f.write_str("unexpected end of input"),
            FrameError::Malformed => f.write_str("malformed frame"),
            FrameError::Memory => f.write_str("out of memory"),
            FrameError::Read(error) => write!(f, "{error}"),
        }
    }
}

impl From<Malformed> for FrameError {
    ghost use Rattle.octseq_stream.specs.declared.reader.FrameError.TheVariants as why;

    ghost from_gives = { λ _ error. error ≡ why.Malformed };

    fn from(_e: Malformed) -> FrameError {
        FrameError::Malformed
    }
}

impl From<AllocError> for FrameError {
    ghost use Rattle.octseq_stream.specs.declared.reader.FrameError.TheVariants as why;

    ghost from_gives = { λ _ error. error ≡ why.Memory };

    fn from(_e: AllocError) -> FrameError {
        FrameError::Memory
    }
}

impl From<io::Error> for FrameError {
    ghost use Rattle.octseq_stream.specs.declared.reader.FrameError.TheVariants as why;

    ghost from_gives = { λ error made. made ≡ why.Read error };

    fn from(error: io::Error) -> FrameError {
        FrameError::Read(error)
    }
}

/// Reads the next frame of a stream into a vector, replacing its content. Returns `false` at the end of the input. The
/// vector is empty after any answer but `Ok(true)`. It never grows by more than 65,536 octets ahead of the input,
/// whatever a header says.
///
/// # Errors
///
/// `Short` if the input ends inside a frame, `Malformed` if no frame begins with what comes next, `Memory` if a request
/// for memory was refused, `Read` if a read failed. The reader may then be inside a frame.
pub fn read_frame<R: Read, F: Framing>(
    reader: &mut R,
    framing: &F,
    octets: &mut Vec<u8>,
) -> Result<bool, FrameError>
    ensures frame { result ≡ Ok true → F.fits framing.now octets.new.items
        × Consumes (R.remaining reader.old) (R.remaining reader.new) (F.code framing.now octets.new.items) }
    ensures end { result ≡ Ok false → Consumes (R.remaining reader.old) (R.remaining reader.new) []
        × IsAtEnd (R.remaining reader.new) }
    ensures short { result ≡ Err FrameError.Short → (read : List ℕ)
        × IsCut (F.fits framing.now) (F.code framing.now) (F.is_misframed framing.now) read
        × Consumes (R.remaining reader.old) (R.remaining reader.new) read × IsAtEnd (R.remaining reader.new) }
    ensures malformed { result ≡ Err FrameError.Malformed → (read : List ℕ) × F.is_misframed framing.now read
        × Consumes (R.remaining reader.old) (R.remaining reader.new) read }
    ensures err { OnErr result ((read : List ℕ) × ¬ HasFront (F.fits framing.now) (F.code framing.now) read
        × Consumes (R.remaining reader.old) (R.remaining reader.new) read) }
    ensures empty { result ≢ Ok true → octets.new.items ≡ [] }
{
    octets.clear();
    let found = append_frame(reader, framing, octets);
    if !matches!(found, Ok(true)) {
        octets.clear();
    }
    found
}

/// Reads the next frame into an empty vector. Returns `false` at the end of the input. After an error anything may be
/// in the vector.
fn append_frame<R: Read, F: Framing>(
    reader: &mut R,
    framing: &F,
    octets: &mut Vec<u8>,
) -> Result<bool, FrameError>
    requires { octets.old.items ≡ [] }
    ensures frame { result ≡ Ok true → F.fits framing.now octets.new.items
        × Consumes (R.remaining reader.old) (R.remaining reader.new) (F.code framing.now octets.new.items) }
    ensures end { result ≡ Ok false → Consumes (R.remaining reader.old) (R.remaining reader.new) []
        × IsAtEnd (R.remaining reader.new) }
    ensures short { result ≡ Err FrameError.Short → (read : List ℕ)
        × IsCut (F.fits framing.now) (F.code framing.now) (F.is_misframed framing.now) read
        × Consumes (R.remaining reader.old) (R.remaining reader.new) read × IsAtEnd (R.remaining reader.new) }
    ensures malformed { result ≡ Err FrameError.Malformed → (read : List ℕ) × F.is_misframed framing.now read
        × Consumes (R.remaining reader.old) (R.remaining reader.new) read }
    ensures err { OnErr result ((read : List ℕ) × ¬ HasFront (F.fits framing.now) (F.code framing.now) read
        × Consumes (R.remaining reader.old) (R.remaining reader.new) read) }
{
    let Some(len) = append_header(reader, framing, octets)? else {
        return Ok(false);
    };
    drop_header::<F>(octets);
    if !append_octets(reader, octets, len)? {
        return Err(FrameError::Short);
    }
    Ok(true)
}

/// Drops a header that isn't part of what a frame holds.
fn drop_header<F: Framing>(octets: &mut Vec<u8>)
    ensures { octets.new.items ≡ kept_of F.is_kept octets.old.items }
{
    if !F::keeps_header() {
        octets.clear();
    }
}

/// Reads the header of the next frame into an empty vector. Returns how many octets follow, or `None` at the end of the
/// input.
fn append_header<R: Read, F: Framing>(
    reader: &mut R,
    framing: &F,
    octets: &mut Vec<u8>,
) -> Result<Option<usize>, FrameError>
    requires { octets.old.items ≡ [] }
    ensures header { IfOk result (λ more. IfSome more (λ more.
        IsFramingHeader F.header F.is_kept (F.fits framing.now) (F.code framing.now) octets.new.items more
        × Consumes (R.remaining reader.old) (R.remaining reader.new) octets.new.items)) }
    ensures end { result ≡ Ok None → Consumes (R.remaining reader.old) (R.remaining reader.new) []
        × IsAtEnd (R.remaining reader.new) }
    ensures short { result ≡ Err FrameError.Short → (read : List ℕ)
        × IsCut (F.fits framing.now) (F.code framing.now) (F.is_misframed framing.now) read
        × Consumes (R.remaining reader.old) (R.remaining reader.new) read × IsAtEnd (R.remaining reader.new) }
    ensures malformed { result ≡ Err FrameError.Malformed → (read : List ℕ) × F.is_misframed framing.now read
        × Consumes (R.remaining reader.old) (R.remaining reader.new) read }
    ensures err { OnErr result ((read : List ℕ) × ¬ HasFront (F.fits framing.now) (F.code framing.now) read
        × Consumes (R.remaining reader.old) (R.remaining reader.new) read) }
{
    let is_there = append_octets(reader, octets, F::header_len())?;
    if !is_there && octets.is_empty() {
        return Ok(None);
    }
    let Some(len) = framing.parse_header(octets.as_slice())? else {
        return Err(FrameError::Short);
    };
    Ok(Some(len))
}

/// A reader of the frames of a stream, one at a time. It holds the octets of one frame, and none after the last one.
#[derive(Drop)]
pub struct FrameReader<R, F> {
    reader: R,
    framing: F,
    octets: Vec<u8>,
    is_over: bool,
    ghost over: { is_over ≡ true → octets.items ≡ [] },
}

impl<R: Read, F: Framing> FrameReader<R, F> {
    ghost use Rattle.octseq_stream.specs.FrameReader.{reader_of, framing_of, held_octets, is_over};

    /// Makes a reader of all the frames that a reader has left.
    pub fn new(alloc: Global, reader: R, framing: F) -> FrameReader<R, F>
        ensures reader { reader_of result ≡ reader }
        ensures framing { framing_of result ≡ framing }
        ensures octets { held_octets result ≡ [] }
        ensures open { is_over result ≡ false }
    {
        FrameReader {
            reader,
            framing,
            octets: Vec::new(alloc),
            is_over: false,
        }
    }

    /// Reads the next frame, replacing the last one. Returns `false` at the end of the input, and after an error. It
    /// holds no octets after any answer but `Ok(true)`.
    ///
    /// # Errors
    ///
    /// `Short` if the input ends inside a frame, `Malformed` if no frame begins with what comes next, `Memory` if a
    /// request for memory was refused, `Read` if a read failed. The reader may then be inside a frame, so no further
    /// frame is read.
    pub fn read_next(&mut self) -> Result<bool, FrameError>
        ensures frame { result ≡ Ok true → F.fits (framing_of self.old) (held_octets self.new)
            × Consumes (R.remaining (reader_of self.old)) (R.remaining (reader_of self.new))
            (F.code (framing_of self.old) (held_octets self.new)) }
        ensures end { result ≡ Ok false → is_over self.old ≡ false → Consumes (R.remaining (reader_of self.old))
            (R.remaining (reader_of self.new)) [] × IsAtEnd (R.remaining (reader_of self.new)) }
        ensures short { result ≡ Err FrameError.Short → (read : List ℕ)
            × IsCut (F.fits (framing_of self.old)) (F.code (framing_of self.old)) (F.is_misframed (framing_of self.old))
            read
            × Consumes (R.remaining (reader_of self.old)) (R.remaining (reader_of self.new)) read
            × IsAtEnd (R.remaining (reader_of self.new)) }
        ensures malformed { result ≡ Err FrameError.Malformed → (read : List ℕ)
            × F.is_misframed (framing_of self.old) read
            × Consumes (R.remaining (reader_of self.old)) (R.remaining (reader_of self.new)) read }
        ensures err { OnErr result ((read : List ℕ)
            × ¬ HasFront (F.fits (framing_of self.old)) (F.code (framing_of self.old)) read
            × Consumes (R.remaining (reader_of self.old)) (R.remaining (reader_of self.new)) read) }
        ensures over { is_over self.old ≡ true → (result ≡ Ok false) × (self.new ≡ self.old) }
        ensures last { result ≢ Ok true → is_over self.new ≡ true }
        ensures on { result ≡ Ok true → is_over self.new ≡ false }
        ensures empty { result ≢ Ok true → held_octets self.new ≡ [] }
        ensures framing { framing_of self.new ≡ framing_of self.old }
    {
        if self.is_over {
            return Ok(false);
        }
        let found = read_frame(&mut self.reader, &self.framing, &mut self.octets);
        self.is_over = !matches!(found, Ok(true));
        found
    }

    /// Returns the octets that the last frame holds, or none if [`read_next`](Self::read_next) didn't return `true`.
    pub fn octets(&self) -> &[u8]
        ensures octets { result.now ≡ held_octets self.now }
        ensures over { is_over self.now ≡ true → result.now ≡ [] }
    {
        self.octets.as_slice()
    }

    /// Returns the framing.
    pub fn framing(&self) -> &F
        ensures { result.now ≡ framing_of self.now }
    {
        &self.framing
    }

    /// Returns the underlying reader.
    pub fn get_ref(&self) -> &R
        ensures { result.now ≡ reader_of self.now }
    {
        &self.reader
    }
}
