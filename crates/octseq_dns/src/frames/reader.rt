//! A reader of streams of messages.
ghost use Rattle.std.specs.Prelude.{◌≡◌, ◌≢◌, ℕ, [], List, true, false, OnErr, Ok, Err};
ghost use Rattle.std.specs.Io.KnownBytes.{Consumes, IsAtEnd};
ghost use Rattle.octseq.specs.Code.{HasFront};
ghost use Rattle.octseq.specs.Part.{part_of};
ghost use Rattle.octseq_dns.specs.FrameReader.{reader_of, frame_of, is_over};
ghost use Rattle.octseq_dns.specs.Frames.{FitsStream, IsMessageCut};

use crate::frames::{FrameError, MessageFraming};
use std::alloc::Global;
use std::io::Read;

/// Reads the messages of a stream, one at a time. It holds the octets of one message, and none after the last one.
#[derive(Drop)]
pub struct FrameReader<R> {
    frames: octseq_stream::FrameReader<R, MessageFraming>,
}

impl<R: Read> FrameReader<R> {
    /// Returns a reader of the messages that `reader` has left.
    pub fn new(alloc: Global, reader: R) -> FrameReader<R>
        ensures reader { reader_of result ≡ reader }
        ensures frame { frame_of result ≡ [] }
        ensures open { is_over result ≡ false }
    {
        FrameReader {
            frames: octseq_stream::FrameReader::new(alloc, reader, MessageFraming),
        }
    }

    /// Reads the next message, in place of the last one. It returns `false` at the end of the input, and after an
    /// error. It holds no octets after any answer but `Ok(true)`.
    ///
    /// # Errors
    ///
    /// `Short` if the input ends inside a frame, `Memory` if a request for memory was refused, `Read` if a read failed.
    /// The reader may then be inside a frame, so later calls return `false`. It is never `Malformed`: any octets are a
    /// length.
    pub fn read_next(&mut self) -> Result<bool, FrameError>
        ensures frame { result ≡ Ok true → FitsStream (frame_of self.new) × Consumes (R.remaining (reader_of self.old))
            (R.remaining (reader_of self.new)) (part_of 2 (frame_of self.new)) }
        ensures end { result ≡ Ok false → is_over self.old ≡ false → Consumes (R.remaining (reader_of self.old))
            (R.remaining (reader_of self.new)) [] × IsAtEnd (R.remaining (reader_of self.new)) }
        ensures short { result ≡ Err FrameError.Short → (read : List ℕ) × IsMessageCut read
            × Consumes (R.remaining (reader_of self.old)) (R.remaining (reader_of self.new)) read
            × IsAtEnd (R.remaining (reader_of self.new)) }
        ensures malformed { result ≢ Err FrameError.Malformed }
        ensures err { OnErr result ((read : List ℕ) × ¬ HasFront FitsStream (part_of 2) read
            × Consumes (R.remaining (reader_of self.old)) (R.remaining (reader_of self.new)) read) }
        ensures over { is_over self.old ≡ true → (result ≡ Ok false) × (self.new ≡ self.old) }
        ensures last { result ≢ Ok true → is_over self.new ≡ true }
        ensures on { result ≡ Ok true → is_over self.new ≡ false }
        ensures empty { result ≢ Ok true → frame_of self.new ≡ [] }
    {
        self.frames.read_next()
    }

    /// Returns the octets of the message that was read last, or none if [`read_next`](Self::read_next) didn't return
    /// `true`.
    pub fn frame(&self) -> &[u8]
        ensures frame { result.now ≡ frame_of self.now }
        ensures over { is_over self.now ≡ true → result.now ≡ [] }
    {
        self.frames.octets()
    }

    /// Returns what it reads from.
    pub fn get_ref(&self) -> &R
        ensures { result.now ≡ reader_of self.now }
    {
        self.frames.get_ref()
    }
}
