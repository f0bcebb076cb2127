//! Composing messages: integers and parts appended to a builder.
//!
//! An integer is appended as the octets from which [`Parser`](crate::Parser) reads it. A part is its length, big-endian
//! in the number of octets that the call's name gives, followed by its octets.
//!
//! # Errors
//!
//! Each call that appends returns `Short` if the content would exceed the limit of its type, otherwise `Memory` if a
//! request for memory was refused. The content is then unchanged, unless a call says otherwise.
ghost use Rattle.std.specs.Prelude.{◌≡◌, Some};

use octseq_core::builder::AppendError;
use std::error::Error;
use std::fmt;

mod integers;
mod laws;
mod parts;

pub use crate::compose::integers::{
    append_i8, append_i16_be, append_i16_le, append_i32_be, append_i32_le, append_i64_be,
    append_i64_le, append_i128_be, append_i128_le, append_u8, append_u16_be, append_u16_le,
    append_u24_be, append_u24_le, append_u32_be, append_u32_le, append_u48_be, append_u48_le,
    append_u64_be, append_u64_le, append_u128_be, append_u128_le,
};
pub use crate::compose::laws::{integers_are_read_back, parts_are_read_back};
pub use crate::compose::parts::{append_part_u8, append_part_u16_be, append_part_u32_be};

/// Why a part, or an integer that may not fit its octets, was not appended.
#[derive(Clone, Copy, Debug, PartialEq, Eq)]
pub enum ComposeError {
    /// The integer, or the part's length, doesn't fit in its octets.
    TooLong,
    /// The content would exceed the limit of its type.
    Short,
    /// A request for memory was refused.
    Memory,
}

impl Error for ComposeError {}

impl fmt::Display for ComposeError {
    ghost use Rattle.octseq.specs.Shown.{compose_error_text};

    ghost output = { λ e. Some (compose_error_text e) };

    fn fmt<W: fmt::Write>(&self, f: &mut fmt::Formatter<W>) -> fmt::Result {
        match self {
            ComposeError::TooLong => f.write_str("long data"),
            ComposeError::Short => f.write_str("buffer size exceeded"),
            ComposeError::Memory => f.write_str("out of memory"),
        }
    }
}

impl From<AppendError> for ComposeError {
    ghost use Rattle.octseq.specs.Composer.{refusal_of};

    ghost from_gives = { λ e made. made ≡ refusal_of e };

    fn from(e: AppendError) -> ComposeError {
        match e {
            AppendError::Short(_) => ComposeError::Short,
            AppendError::Memory => ComposeError::Memory,
        }
    }
}
