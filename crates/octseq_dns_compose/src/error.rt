//! Why no message was composed of a text.
ghost use Rattle.std.specs.Prelude.{Some};

use std::error::Error;
use std::fmt;

/// A place in a text of lines.
#[derive(Clone, Copy, Debug, PartialEq, Eq)]
pub struct Place {
    /// The number of the line, from 1 on.
    pub line: usize,
    /// The offset in the line.
    pub offset: usize,
}

/// Why no message was composed of a text.
#[derive(Clone, Copy, Debug, PartialEq, Eq)]
pub enum ComposeError {
    /// The text of no message goes on so. It has the place of the first word that isn't what has to come there. The end
    /// of a line counts as a word, and so does the end of the text.
    Malformed(Place),
    /// The message would exceed the limit of the builder's type or 65,535 octets, or data has more.
    Short,
    /// A request for memory was refused.
    Memory,
}

impl Error for ComposeError {}

impl fmt::Display for ComposeError {
    ghost use Rattle.octseq_dns_compose.specs.Shown.{compose_error_text};

    ghost output = { λ e. Some (compose_error_text e) };

    fn fmt<W: fmt::Write>(&self, f: &mut fmt::Formatter<W>) -> fmt::Result {
        f.write_str(match self {
            ComposeError::Malformed(_) => "malformed text",
            ComposeError::Short => "buffer size exceeded",
            ComposeError::Memory => "out of memory",
        })
    }
}
