//! Appending the text of a record to another text.
ghost use Rattle.std.specs.Prelude.{◌≡◌, ◌≢◌, ◌+◌, ◌++◌, ℕ, List, None, true, length, IsErr, OnOk, OnErr};
ghost use Rattle.octseq.specs.Display.{display_error};
ghost use Rattle.octseq.specs.Limit.{ExceedsLimit};
ghost use Rattle.octseq.specs.Refusal.{IsShort, IsMemory};
ghost use Rattle.octseq_mrt.specs.Parsed.{record_of};
ghost use Rattle.octseq_mrt.specs.RecordText.{IsRecordText};

use crate::record::Record;
use octseq::str::{DisplayError, WriteLines, append_lines};
use octseq::{AsOctets, OctetsBuilder, StrBuilder, Truncate};
use std::fmt;

impl<R: AsOctets + Copy> WriteLines for Record<R> {
    ghost is_text = { λ it. IsRecordText (record_of it) };

    fn write_lines<W: fmt::Write>(&self, f: &mut fmt::Formatter<W>) -> fmt::Result {
        fmt::Display::fmt(self, f)
    }
}

impl<R: AsOctets + Copy> Record<R> {
    /// Appends the text of the record. On an error it appends nothing. There is a line for each part, such as `rib
    /// 1700000000 2 sequence 0 10.0.0.0/8`, `entry 0 time 1700000000` and `attribute T ORIGIN IGP`. Each ends with a
    /// line feed. The number after the time, which is in seconds since 1970, is the subtype.
    ///
    /// # Errors
    ///
    /// `Short` if the text would exceed the limit of its type, `Memory` if a request for memory was refused. The text
    /// is then unchanged. (`Display` is never returned, though no contract says so: by std's contract, a `fmt` may
    /// always fail.)
    pub fn append_text<B: OctetsBuilder + Truncate>(
        &self,
        text: &mut StrBuilder<B>,
    ) -> Result<(), DisplayError>
        ensures text { OnOk result ((lines : List ℕ) × IsRecordText (record_of self.now) lines
            × (B.content text.new ≡ B.content text.old ++ lines)) }
        ensures err { OnErr result (B.content text.new ≡ B.content text.old) }
        ensures past { (lines : List ℕ) → IsRecordText (record_of self.now) lines
            → ExceedsLimit B.limit (length (B.content text.old) + length lines) → IsErr result }
        ensures short { IsShort display_error result → (lines : List ℕ) → IsRecordText (record_of self.now) lines
            → ExceedsLimit B.limit (length (B.content text.old) + length lines) }
        ensures limited { IsShort display_error result → B.limit ≢ None }
        ensures memory { IsMemory display_error result → B.asks ≡ true }
        ensures borrows { B.borrows text.new ≡ B.borrows text.old }
    {
        append_lines(self, text)
    }
}
