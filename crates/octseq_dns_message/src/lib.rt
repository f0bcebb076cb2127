//! DNS messages, read from one buffer without copying: the header, questions, records, their data, and the text of all
//! of these.
#![tactic(auto)]

pub mod header;
pub mod message;
pub mod opt;
mod text;
pub mod ttl;

pub use header::{Flags, Header, HeaderCounts};
pub use message::{Message, Question, Record};
pub use ttl::Ttl;
