//! Why a text was not read.
ghost use Rattle.std.specs.Prelude.{Some};

use std::error::Error;
use std::fmt;

/// Why a text was not read.
#[derive(Clone, Copy, Debug, PartialEq, Eq)]
pub enum ScanError {
    /// No text goes on so. It has the offset of the first word that isn't what has to come there. The end of the text
    /// counts as a word.
    Malformed(usize),
    /// The content would exceed the limit of its type.
    Short,
    /// A request for memory was refused.
    Memory,
}

impl Error for ScanError {}

impl fmt::Display for ScanError {
    ghost use Rattle.octseq_dns_text.specs.Shown.{scan_error_text};

    ghost output = { λ e. Some (scan_error_text e) };

    fn fmt<W: fmt::Write>(&self, f: &mut fmt::Formatter<W>) -> fmt::Result {
        f.write_str(match self {
            ScanError::Malformed(_) => "malformed text",
            ScanError::Short => "buffer size exceeded",
            ScanError::Memory => "out of memory",
        })
    }
}
