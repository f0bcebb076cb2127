//! Errors: why a name was not read or made.
ghost use Rattle.std.specs.Prelude.{◌≡◌, Some, codes};

pub use octseq::error::Malformed;
use std::alloc::AllocError;
use std::error::Error;
use std::fmt;

/// Why a text doesn't spell a name. It is read from the left, and the first fault decides.
#[derive(Clone, Copy, Debug, PartialEq, Eq)]
pub enum FromTextError {
    /// The text ends without a full stop, or is empty.
    UnexpectedEnd,
    /// A label is empty.
    EmptyLabel,
    /// A label has more than 63 octets.
    LongLabel,
    /// The name has more than 255 octets in wire form.
    LongName,
    /// A backslash is the last octet of the text, or a digit follows it, but not three digits of a number up to 255.
    IllegalEscape,
    /// An octet isn't visible ASCII, or needs a backslash before it.
    IllegalOctet,
}

impl Error for FromTextError {}

impl fmt::Display for FromTextError {
    ghost use Rattle.octseq_dns_name.specs.Shown.{from_text_error_text};

    ghost output = { λ e. Some (from_text_error_text e) };

    fn fmt<W: fmt::Write>(&self, f: &mut fmt::Formatter<W>) -> fmt::Result {
        f.write_str(match self {
            FromTextError::UnexpectedEnd => "unexpected end of input",
            FromTextError::EmptyLabel => "empty label",
            FromTextError::LongLabel => "long label",
            FromTextError::LongName => "long domain name",
            FromTextError::IllegalEscape => "illegal escape sequence",
            FromTextError::IllegalOctet => "illegal octet",
        })
    }
}

/// Why a name was not made from labels.
#[derive(Clone, Copy, Debug, PartialEq, Eq)]
pub enum FromLabelsError {
    /// A label is empty.
    EmptyLabel,
    /// A label has more than 63 octets.
    LongLabel,
    /// The name has more than 255 octets in wire form.
    LongName,
    /// The wire form passes the limit of the builder's type.
    Short,
    /// A request for memory was refused.
    Memory,
}

impl Error for FromLabelsError {}

impl fmt::Display for FromLabelsError {
    ghost use Rattle.octseq_dns_name.specs.Shown.{from_labels_error_text};

    ghost output = { λ e. Some (from_labels_error_text e) };

    fn fmt<W: fmt::Write>(&self, f: &mut fmt::Formatter<W>) -> fmt::Result {
        f.write_str(match self {
            FromLabelsError::EmptyLabel => "empty label",
            FromLabelsError::LongLabel => "long label",
            FromLabelsError::LongName => "long domain name",
            FromLabelsError::Short => "buffer size exceeded",
            FromLabelsError::Memory => "out of memory",
        })
    }
}

impl From<AllocError> for FromLabelsError {
    ghost use Rattle.octseq_dns_name.specs.declared.error.FromLabelsError.TheVariants.{Memory};

    ghost from_gives = { λ _ made. made ≡ Memory };

    fn from(_e: AllocError) -> FromLabelsError {
        FromLabelsError::Memory
    }
}
