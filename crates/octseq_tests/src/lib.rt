//! Tests of sequences, builders, texts, parsers and composers, of callers, and of calls written as in Rust: what no
//! proof covers.
//!
//! A crate with tests is proved twice, with and without them. So they have a crate of their own, which uses the public
//! calls only.
#![tactic(auto)]

#[cfg(test)]
mod tests;
