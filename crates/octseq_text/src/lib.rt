//! Texts over octet sequences.
//!
//! A sequence or a builder of octets is a text if its octets are well-formed UTF-8. The definitions of UTF-8 are in
//! `specs/`, by the Unicode Standard; the contracts here cite them.
#![tactic(auto)]

pub mod completion;
pub mod octets;
pub mod octets_text;
pub mod str;
pub mod utf8;
