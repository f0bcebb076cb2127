//! BGP messages.

mod message;
mod path;
pub mod rows;
pub mod session;
mod text;
