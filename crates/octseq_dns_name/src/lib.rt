//! Domain names: in a message, as values that own their octets, and as text.
//!
//! A name of a message is its offset there, compression pointers included. Octets are copied only into a name that owns
//! them.
#![tactic(auto)]

pub mod error;
pub mod name;

pub use error::{FromLabelsError, FromTextError, Malformed};
pub use name::{DomainName, NAME_MAX, Name, POINTER_MAX, ParsedName, Suffixes};
