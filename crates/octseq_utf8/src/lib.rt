//! UTF-8: where octets stop being well formed, and laws about the definitions.
//!
//! The definitions are in `specs/`, by the Unicode Standard; the contracts here cite them. `octseq_text::utf8`
//! re-exports what callers use.
#![tactic(auto)]

mod chunk;
mod fault;
mod finder;
mod lanes;
mod laws;
mod turns;
mod words;

pub use chunk::{Utf8Chunk, Utf8Chunks, chunks};
pub use fault::Utf8Fault;
pub use finder::{FirstPart, fault_at_front, find_fault, first_fault, first_part, is_continuation};
pub use laws::{
    chunks_are_parts, lossy_text, one_encoding, one_fault, one_spelling, one_splitting, same_in_std,
};
pub use turns::Turns;
