//! Texts: sequences and builders whose octets are well-formed UTF-8.
mod appending;
mod builder;
mod commands;
mod compare;
mod counter;
mod deref;
mod display;
mod ends;
mod error;
mod laws;
mod lines;
mod lossy;
mod pieces;
mod staged;
mod text;

pub use builder::StrBuilder;
pub use commands::{Command, Reply, run};
pub use counter::Counter;
pub use display::DisplayError;
pub use ends::{boundary, last_char};
pub use error::FromUtf8Error;
pub use laws::{one_run, one_settling};
pub use lines::{WriteLines, append_lines};
pub use pieces::LossyPieces;
pub use text::Str;
