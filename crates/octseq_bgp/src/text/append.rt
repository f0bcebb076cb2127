//! Appending the text of a value to another text.
ghost use Rattle.std.specs.Prelude.{◌≡◌, ◌≢◌, ◌+◌, ◌++◌, ℕ, List, None, true, length, IsErr, OnOk, OnErr};
ghost use Rattle.octseq.specs.Display.{display_error};
ghost use Rattle.octseq.specs.Limit.{ExceedsLimit};
ghost use Rattle.octseq.specs.Refusal.{IsShort, IsMemory};
ghost use Rattle.octseq_bgp.specs.MessageText.{IsMessageText};

use crate::message::Message;
use octseq::str::{DisplayError, WriteLines, append_lines};
use octseq::{AsOctets, OctetsBuilder, StrBuilder, Truncate};
use std::fmt;

impl<R: AsOctets + Copy> WriteLines for Message<R> {
    ghost use Rattle.octseq_bgp.specs.Parsed.{message_of};

    ghost is_text = { λ message. IsMessageText (message_of message) };

    fn write_lines<W: fmt::Write>(&self, f: &mut fmt::Formatter<W>) -> fmt::Result {
        fmt::Display::fmt(self, f)
    }
}

impl<R: AsOctets + Copy> Message<R> {
    ghost use Rattle.octseq_bgp.specs.Parsed.{message_of};

    /// Appends the text of the message. On an error it appends nothing. There is a line for each part, such as
    /// `update`, `attribute T ORIGIN IGP` and `announced 10.2.0.0/16`. Each ends with a line feed.
    ///
    /// # Errors
    ///
    /// `Short` if the text would exceed the limit of its type, `Memory` if a request for memory was refused. The text
    /// is then unchanged. (`Display` is never returned, though no contract says so: by std's contract, a `fmt` may
    /// always fail.)
    pub fn append_text<B: OctetsBuilder + Truncate>(
        &self,
        text: &mut StrBuilder<B>,
    ) -> Result<(), DisplayError>
        ensures text { OnOk result ((lines : List ℕ) × IsMessageText (message_of self.now) lines
            × (B.content text.new ≡ B.content text.old ++ lines)) }
        ensures err { OnErr result (B.content text.new ≡ B.content text.old) }
        ensures past { (lines : List ℕ) → IsMessageText (message_of self.now) lines
            → ExceedsLimit B.limit (length (B.content text.old) + length lines) → IsErr result }
        ensures short { IsShort display_error result → (lines : List ℕ) → IsMessageText (message_of self.now) lines
            → ExceedsLimit B.limit (length (B.content text.old) + length lines) }
        ensures limited { IsShort display_error result → B.limit ≢ None }
        ensures memory { IsMemory display_error result → B.asks ≡ true }
        ensures borrows { B.borrows text.new ≡ B.borrows text.old }
    {
        append_lines(self, text)
    }
}
