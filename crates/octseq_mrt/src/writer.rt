//! A writer of MRT files, one record at a time.
ghost use Rattle.std.specs.Prelude.{◌≡◌, ◌<◌, ◌≤◌, ◌++◌, ℕ, List, length, OnOk, Err};
ghost use Rattle.std.specs.Io.KnownBytes.{Appends};
ghost use Rattle.octseq.specs.Integer.{octets_be};
ghost use Rattle.octseq.specs.Parts.{StartsWith};
ghost use Rattle.octseq_mrt.specs.Kind.{kind_type, kind_subtype};
ghost use Rattle.octseq_mrt.specs.RecordWriter.{writer_of};
ghost use Rattle.octseq_mrt.specs.Written.{record_octets};

use crate::kind::RecordKind;
pub use octseq_stream::WriteFrameError as WriteRecordError;
use octseq_stream::write_octets;
use std::io::Write;

/// A writer of records, one after another: RFC 6396, 2.
#[derive(Drop)]
pub struct RecordWriter<W> {
    writer: W,
}

impl<W: Write> RecordWriter<W> {
    /// Makes a writer of records.
    pub fn new(writer: W) -> RecordWriter<W>
        ensures { writer_of result ≡ writer }
    {
        RecordWriter { writer }
    }

    /// Writes a record of a kind: its time, in seconds since 1970, and the octets after its header.
    ///
    /// # Errors
    ///
    /// `TooLong` if there are more than 4,294,967,295 octets: nothing is then written. Otherwise `Write` if a write
    /// failed: a front of the record may then be written.
    pub fn write_record(
        &mut self,
        timestamp: u32,
        kind: RecordKind,
        octets: &[u8],
    ) -> Result<(), WriteRecordError>
        ensures ok { OnOk result (Appends (W.contents (writer_of self.old)) (W.contents (writer_of self.new))
            (record_octets timestamp (kind_type kind) (kind_subtype kind) octets.now)) }
        ensures fits { OnOk result (length octets.now ≤ 4294967295) }
        ensures long { result ≡ Err WriteRecordError.TooLong → 4294967295 < length octets.now }
        ensures refused { 4294967295 < length octets.now
            → (result ≡ Err WriteRecordError.TooLong) × (self.new ≡ self.old) }
        ensures front { (front : List ℕ)
            × StartsWith front (record_octets timestamp (kind_type kind) (kind_subtype kind) octets.now)
            × Appends (W.contents (writer_of self.old)) (W.contents (writer_of self.new)) front }
    {
        self.write_raw(timestamp, kind.type_code(), kind.subtype(), octets)
    }

    /// Writes a record of any type and subtype: its time, in seconds since 1970, and the octets after its header.
    ///
    /// # Errors
    ///
    /// As [`write_record`](Self::write_record).
    pub fn write_raw(
        &mut self,
        timestamp: u32,
        type_code: u16,
        subtype: u16,
        octets: &[u8],
    ) -> Result<(), WriteRecordError>
        ensures ok { OnOk result (Appends (W.contents (writer_of self.old)) (W.contents (writer_of self.new))
            (record_octets timestamp type_code subtype octets.now)) }
        ensures fits { OnOk result (length octets.now ≤ 4294967295) }
        ensures long { result ≡ Err WriteRecordError.TooLong → 4294967295 < length octets.now }
        ensures refused { 4294967295 < length octets.now
            → (result ≡ Err WriteRecordError.TooLong) × (self.new ≡ self.old) }
        ensures front { (front : List ℕ) × StartsWith front (record_octets timestamp type_code subtype octets.now)
            × Appends (W.contents (writer_of self.old)) (W.contents (writer_of self.new)) front }
    {
        let Ok(len) = u32::try_from(octets.len()) else {
            return Err(WriteRecordError::TooLong);
        };
        let header = header_octets(timestamp, type_code, subtype, len);
        write_octets(&mut self.writer, &header)?;
        write_octets(&mut self.writer, octets)?;
        Ok(())
    }

    /// Returns the underlying writer.
    pub fn get_ref(&self) -> &W
        ensures { result.now ≡ writer_of self.now }
    {
        &self.writer
    }

    /// Returns the underlying writer, without this one.
    pub fn into_inner(self) -> W
        ensures { result ≡ writer_of self }
    {
        self.writer
    }
}

/// Returns the octets of a header.
#[tactic(auto, using(octseq::proofs::Written::written_2, octseq::proofs::Written::written_4))]
fn header_octets(timestamp: u32, type_code: u16, subtype: u16, len: u32) -> [u8; 12]
    ensures { (octets : List ℕ) → length octets ≡ len
        → record_octets timestamp type_code subtype octets ≡ result ++ octets }
{
    let t = timestamp.to_be_bytes();
    let k = type_code.to_be_bytes();
    let s = subtype.to_be_bytes();
    let l = len.to_be_bytes();
    [
        t[0], t[1], t[2], t[3], k[0], k[1], s[0], s[1], l[0], l[1], l[2], l[3],
    ]
}
