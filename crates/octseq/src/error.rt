//! The errors that readers and writers of formats share, so that `?` converts each refusal.
ghost use Rattle.std.specs.Prelude.{◌≡◌, Some, codes};

use crate::compose::ComposeError;
use crate::parse::{ParseOctetsError, ShortInput};
use octseq_core::builder::AppendError;
use std::alloc::{AllocError, AllocFailed};
use std::error::Error;
use std::fmt;

/// The octets don't have the expected form.
#[derive(Clone, Copy, Debug, Default, PartialEq, Eq)]
pub struct Malformed;

impl Error for Malformed {}

impl fmt::Display for Malformed {
    ghost output = { λ _. Some (codes "malformed") };

    fn fmt<W: fmt::Write>(&self, f: &mut fmt::Formatter<W>) -> fmt::Result {
        f.write_str("malformed")
    }
}

impl From<ShortInput> for Malformed {
    fn from(_e: ShortInput) -> Malformed {
        Malformed
    }
}

/// Why octets were not read.
#[derive(Clone, Copy, Debug, PartialEq, Eq)]
pub enum ReadError {
    /// They don't have the expected form.
    Malformed,
    /// A request for memory was refused.
    Memory,
}

impl Error for ReadError {}

impl fmt::Display for ReadError {
    ghost use Rattle.octseq.specs.Shown.{read_error_text};

    ghost output = { λ e. Some (read_error_text e) };

    fn fmt<W: fmt::Write>(&self, f: &mut fmt::Formatter<W>) -> fmt::Result {
        match self {
            ReadError::Malformed => f.write_str("malformed data"),
            ReadError::Memory => f.write_str("out of memory"),
        }
    }
}

impl From<Malformed> for ReadError {
    ghost use Rattle.octseq.specs.declared.error.ReadError.TheVariants as read;

    ghost from_gives = { λ _ made. made ≡ read.Malformed };

    fn from(_e: Malformed) -> ReadError {
        ReadError::Malformed
    }
}

impl From<ShortInput> for ReadError {
    ghost use Rattle.octseq.specs.declared.error.ReadError.TheVariants.{Malformed};

    ghost from_gives = { λ _ made. made ≡ Malformed };

    fn from(_e: ShortInput) -> ReadError {
        ReadError::Malformed
    }
}

impl From<ParseOctetsError> for ReadError {
    ghost use Rattle.octseq.specs.Error.{read_error_of};

    ghost from_gives = { λ e made. made ≡ read_error_of e };

    fn from(e: ParseOctetsError) -> ReadError {
        match e {
            ParseOctetsError::Short(_) => ReadError::Malformed,
            ParseOctetsError::Memory => ReadError::Memory,
        }
    }
}

impl From<AllocError> for ReadError {
    ghost use Rattle.octseq.specs.declared.error.ReadError.TheVariants.{Memory};

    ghost from_gives = { λ _ made. made ≡ Memory };

    fn from(_e: AllocError) -> ReadError {
        ReadError::Memory
    }
}

/// The error of a `push` onto a vector. The value is dropped.
impl<T: Drop> From<AllocFailed<T>> for ReadError {
    ghost use Rattle.octseq.specs.declared.error.ReadError.TheVariants.{Memory};

    ghost from_gives = { λ _ made. made ≡ Memory };

    fn from(_e: AllocFailed<T>) -> ReadError {
        ReadError::Memory
    }
}

/// Why a value was not written.
#[derive(Clone, Copy, Debug, PartialEq, Eq)]
pub enum WriteError {
    /// It doesn't fit the format.
    Malformed,
    /// The content would exceed the limit of its type.
    Short,
    /// A request for memory was refused.
    Memory,
}

impl Error for WriteError {}

impl fmt::Display for WriteError {
    ghost use Rattle.octseq.specs.Shown.{write_error_text};

    ghost output = { λ e. Some (write_error_text e) };

    fn fmt<W: fmt::Write>(&self, f: &mut fmt::Formatter<W>) -> fmt::Result {
        match self {
            WriteError::Malformed => f.write_str("malformed data"),
            WriteError::Short => f.write_str("buffer size exceeded"),
            WriteError::Memory => f.write_str("out of memory"),
        }
    }
}

impl From<ComposeError> for WriteError {
    ghost use Rattle.octseq.specs.Error.{write_error_of};

    ghost from_gives = { λ e made. made ≡ write_error_of e };

    fn from(e: ComposeError) -> WriteError {
        match e {
            ComposeError::TooLong => WriteError::Malformed,
            ComposeError::Short => WriteError::Short,
            ComposeError::Memory => WriteError::Memory,
        }
    }
}

impl From<AppendError> for WriteError {
    ghost use Rattle.octseq.specs.Composer.{refusal_of};
    ghost use Rattle.octseq.specs.Error.{write_error_of};

    ghost from_gives = { λ e made. made ≡ write_error_of (refusal_of e) };

    fn from(e: AppendError) -> WriteError {
        match e {
            AppendError::Short(_) => WriteError::Short,
            AppendError::Memory => WriteError::Memory,
        }
    }
}

impl From<AllocError> for WriteError {
    ghost use Rattle.octseq.specs.declared.error.WriteError.TheVariants.{Memory};

    ghost from_gives = { λ _ made. made ≡ Memory };

    fn from(_e: AllocError) -> WriteError {
        WriteError::Memory
    }
}

/// The error of a `push` onto a vector. The value is dropped.
impl<T: Drop> From<AllocFailed<T>> for WriteError {
    ghost use Rattle.octseq.specs.declared.error.WriteError.TheVariants.{Memory};

    ghost from_gives = { λ _ made. made ≡ Memory };

    fn from(_e: AllocFailed<T>) -> WriteError {
        WriteError::Memory
    }
}
