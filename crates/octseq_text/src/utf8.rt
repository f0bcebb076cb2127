//! UTF-8: where octets stop being well formed, also if they come in pieces, and laws about the definitions.
mod pieces;

pub use octseq_utf8::{
    Turns, Utf8Chunk, Utf8Chunks, Utf8Fault, chunks, chunks_are_parts, find_fault, first_fault,
    lossy_text, one_encoding, one_fault, one_spelling, one_splitting, same_in_std,
};
pub use pieces::FaultPieces;
