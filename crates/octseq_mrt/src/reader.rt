//! A reader of MRT files, which holds one record at a time.
ghost use Rattle.std.specs.Prelude.{◌≡◌, ◌≢◌, ◌+◌, ◌++◌, ℕ, true, false, List, [], length};
ghost use Rattle.std.specs.Prelude.{IfOk, IsErr, OnErr, Ok, Err};
ghost use Rattle.std.specs.Io.KnownBytes.{Consumes, IsAtEnd};
ghost use Rattle.std.proofs.Common.{rules};
ghost use Rattle.octseq_mrt.specs.RecordReader.{reader_of, held_octets, is_over};
ghost use Rattle.octseq_mrt.specs.Records.{IsRecordOctets, BeginsWithRecord, IsRecordCut, record_length};

use crate::record::Record;
use octseq::{Malformed, Parser};
pub use octseq_stream::FrameError as RecordError;
use octseq_stream::{FrameReader, Framing, frames_are_apart, read_frame};
use std::alloc::Global;
use std::io::Read;

/// At most one record is at the front of octets.
///
/// It does nothing. Calling it brings the law into the caller's proof.
pub fn records_are_apart()
    ensures { (a b x y : List ℕ) → IsRecordOctets a → IsRecordOctets b → a ++ x ≡ b ++ y → a ≡ b }
{
    frames_are_apart::<RecordFraming>();
}

/// Records, each a header of 12 octets and as many octets as it says: RFC 6396, 2.
#[derive(Clone, Copy, Debug, PartialEq, Eq)]
pub struct RecordFraming;

impl Framing for RecordFraming {
    ghost use Rattle.octseq_mrt.specs.OneFrame.{record_whole};

    ghost header = { 12 };

    ghost is_kept = { true };

    ghost fits = { λ _. IsRecordOctets };

    ghost code = { λ _ octets. octets };

    ghost size = { λ _ header. 12 + record_length header };

    ghost is_misframed = { λ _ _. ⊥ };

    fn header_len() -> usize {
        HEADER
    }

    fn keeps_header() -> bool {
        true
    }

    fn parse_header(&self, octets: &[u8]) -> Result<Option<usize>, Malformed> {
        if octets.len() < HEADER {
            return Ok(None);
        }
        Ok(Some(length_of(octets)))
    }

    ghost some = { Prim.search rules };

    ghost whole = { λ _. record_whole };

    ghost one = { λ _ _ _ _ _ same. same };

    ghost begins_none = { λ _ _ _ none. absurd none };
}

/// The number of octets of a header.
const HEADER: usize = 12;

/// Reads the next record of a file into a vector, replacing its content. Returns `false` at the end of the input.
/// Whatever length the header says, the vector never grows by more than 65,536 octets ahead of the input. It is empty
/// after any answer but `Ok(true)`.
///
/// # Errors
///
/// `Short` if the input ends inside a record, `Memory` if a request for memory was refused, `Read` if a read failed.
/// The reader may then be inside a record. It is never `Malformed`: any octets are a header.
pub fn read_record<R: Read>(reader: &mut R, octets: &mut Vec<u8>) -> Result<bool, RecordError>
    ensures record { result ≡ Ok true → IsRecordOctets octets.new.items
        × Consumes (R.remaining reader.old) (R.remaining reader.new) octets.new.items }
    ensures end { result ≡ Ok false → Consumes (R.remaining reader.old) (R.remaining reader.new) []
        × IsAtEnd (R.remaining reader.new) }
    ensures short { result ≡ Err RecordError.Short → (read : List ℕ) × IsRecordCut read
        × Consumes (R.remaining reader.old) (R.remaining reader.new) read × IsAtEnd (R.remaining reader.new) }
    ensures malformed { result ≢ Err RecordError.Malformed }
    ensures err { OnErr result ((read : List ℕ) × ¬ BeginsWithRecord read
        × Consumes (R.remaining reader.old) (R.remaining reader.new) read) }
    ensures empty { result ≢ Ok true → octets.new.items ≡ [] }
{
    read_frame(reader, &RecordFraming, octets)
}

/// Returns the number of octets after a header.
fn length_of(header: &[u8]) -> usize
    requires { length header.now ≡ 12 }
    ensures { result ≡ record_length header.now }
{
    let mut parser = Parser::from_static(header);
    match (parser.advance(8), parser.parse_u32_be()) {
        (Ok(()), Ok(len)) => len as usize,
        _ => 0,
    }
}

/// A reader of the records of a file, one at a time. It holds the octets of one record, and none after the last one.
#[derive(Drop)]
pub struct RecordReader<R> {
    frames: FrameReader<R, RecordFraming>,
}

impl<R: Read> RecordReader<R> {
    ghost use Rattle.octseq_mrt.specs.Parsed.{record_of};
    ghost use Rattle.octseq_mrt.specs.Record.{AreRecord};
    ghost use Rattle.octseq_mrt.specs.declared.header.CommonHeader.{CommonHeader as Header};
    ghost use Rattle.octseq.specs.Window.{Window};

    /// Makes a reader of all the records that a reader has left.
    pub fn new(alloc: Global, reader: R) -> RecordReader<R>
        ensures reader { reader_of result ≡ reader }
        ensures octets { held_octets result ≡ [] }
        ensures open { is_over result ≡ false }
    {
        RecordReader {
            frames: FrameReader::new(alloc, reader, RecordFraming),
        }
    }

    /// Reads the next record, replacing the last one. Returns `false` at the end of the input, and after an error. It
    /// holds no octets after any answer but `Ok(true)`.
    ///
    /// # Errors
    ///
    /// `Short` if the input ends inside a record, `Memory` if a request for memory was refused, `Read` if a read
    /// failed. The reader may then be inside a record, so no further record is read. It is never `Malformed`: any
    /// octets are a header.
    pub fn read_next(&mut self) -> Result<bool, RecordError>
        ensures record { result ≡ Ok true → IsRecordOctets (held_octets self.new)
            × Consumes (R.remaining (reader_of self.old)) (R.remaining (reader_of self.new)) (held_octets self.new) }
        ensures end { result ≡ Ok false → is_over self.old ≡ false → Consumes (R.remaining (reader_of self.old))
            (R.remaining (reader_of self.new)) [] × IsAtEnd (R.remaining (reader_of self.new)) }
        ensures short { result ≡ Err RecordError.Short → (read : List ℕ) × IsRecordCut read
            × Consumes (R.remaining (reader_of self.old)) (R.remaining (reader_of self.new)) read
            × IsAtEnd (R.remaining (reader_of self.new)) }
        ensures malformed { result ≢ Err RecordError.Malformed }
        ensures err { OnErr result ((read : List ℕ) × ¬ BeginsWithRecord read
            × Consumes (R.remaining (reader_of self.old)) (R.remaining (reader_of self.new)) read) }
        ensures over { is_over self.old ≡ true → (result ≡ Ok false) × (self.new ≡ self.old) }
        ensures last { result ≢ Ok true → is_over self.new ≡ true }
        ensures on { result ≡ Ok true → is_over self.new ≡ false }
        ensures empty { result ≢ Ok true → held_octets self.new ≡ [] }
    {
        self.frames.read_next()
    }

    /// Returns the octets of the last record read, or none if [`read_next`](Self::read_next) didn't return `true`.
    pub fn octets(&self) -> &[u8]
        ensures octets { result.now ≡ held_octets self.now }
        ensures over { is_over self.now ≡ true → result.now ≡ [] }
    {
        self.frames.octets()
    }

    /// Returns the last record read.
    ///
    /// # Errors
    ///
    /// `Malformed` if there is none: if [`read_next`](Self::read_next) didn't return `true`.
    pub fn record(&self) -> Result<Record<&[u8]>, Malformed>
        ensures record { IfOk result (λ it. AreRecord (held_octets self.now) (record_of it)) }
        ensures malformed { IsErr result → (it : Header × Window) → ¬ AreRecord (held_octets self.now) it }
    {
        Record::parse(self.frames.octets())
    }

    /// Returns the underlying reader.
    pub fn get_ref(&self) -> &R
        ensures { result.now ≡ reader_of self.now }
    {
        self.frames.get_ref()
    }
}
