//! BGP messages, read from one buffer without copies, written, and written anew: RFC 4271 and its extensions.
#![tactic(auto)]

pub mod attribute;
pub mod capability;
pub mod community;
mod compose;
pub mod family;
pub mod item;
mod key_octet;
pub mod laws;
mod list;
pub mod message;
mod part;
pub mod prefix;
mod put;
pub mod session;
pub mod text;
pub mod whole;
