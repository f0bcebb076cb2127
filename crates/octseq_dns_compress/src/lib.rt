//! DNS messages with compressed names: RFC 1035, 4.1.4.
//!
//! A [`Composer`] writes the octets of a message into a builder, and replaces the longest known suffix of each name
//! with a pointer. A table of [`Target`]s, in an order for binary search, holds where the known labels are, so a name
//! takes at most 17 turns for each of its labels, whatever names came before it.
#![tactic(auto)]

mod append;
pub mod compose;
mod encode;
pub mod laws;
mod plain;
mod remember;
mod search;
pub mod table;

pub use compose::Composer;
pub use laws::{a_compressed_name_is_read, never_longer_than_plain};
pub use table::{Compressor, StaticCompressor, Target, Uncompressed};
