//! Streams of frames, one after another: a header that says how many octets follow it, and those octets. One reader for
//! every format of that kind, which gives its [`Framing`].
#![tactic(auto)]

pub mod framing;
mod read_exact;
pub mod reader;
pub mod writer;

pub use framing::{Framing, frames_are_apart, misframed_begins_none, one_stream};
pub use reader::{FrameError, FrameReader, read_frame};
pub use writer::{WriteFrameError, write_frame, write_octets};
