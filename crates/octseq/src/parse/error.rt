//! Why a call on a parser was refused.
ghost use Rattle.std.specs.Prelude.{◌≡◌, Some, codes};

use std::alloc::AllocError;
use std::error::Error;
use std::fmt;

/// Fewer octets were left than requested.
#[derive(Clone, Copy, Debug, Default, PartialEq, Eq)]
pub struct ShortInput;

impl Error for ShortInput {}

impl fmt::Display for ShortInput {
    ghost output = { λ _. Some (codes "unexpected end of input") };

    fn fmt<W: fmt::Write>(&self, f: &mut fmt::Formatter<W>) -> fmt::Result {
        f.write_str("unexpected end of input")
    }
}

/// Why a range of octets was refused.
#[derive(Clone, Copy, Debug, PartialEq, Eq)]
pub enum ParseOctetsError {
    /// Fewer octets were left.
    Short(ShortInput),
    /// A request for memory was refused.
    Memory,
}

impl Error for ParseOctetsError {}

impl fmt::Display for ParseOctetsError {
    ghost use Rattle.octseq.specs.Shown.{parse_octets_error_text};

    ghost output = { λ e. Some (parse_octets_error_text e) };

    fn fmt<W: fmt::Write>(&self, f: &mut fmt::Formatter<W>) -> fmt::Result {
        match self {
            ParseOctetsError::Short(e) => write!(f, "{e}"),
            ParseOctetsError::Memory => f.write_str("out of memory"),
        }
    }
}

impl From<ShortInput> for ParseOctetsError {
    ghost use Rattle.octseq.specs.declared.parse.error.ParseOctetsError.TheVariants.{Short};

    ghost from_gives = { λ e made. made ≡ Short e };

    fn from(e: ShortInput) -> ParseOctetsError {
        ParseOctetsError::Short(e)
    }
}

impl From<AllocError> for ParseOctetsError {
    ghost use Rattle.octseq.specs.declared.parse.error.ParseOctetsError.TheVariants.{Memory};

    ghost from_gives = { λ _ made. made ≡ Memory };

    fn from(_e: AllocError) -> ParseOctetsError {
        ParseOctetsError::Memory
    }
}
