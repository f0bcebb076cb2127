//! Callers of the crate octseq, proved from its public contracts, and from what the holder of a parser knows of its
//! window.
//!
//! Each module is what an outside crate would write: its code accesses no private field, and its contracts speak of
//! lists of octets. Words of the crates below `octseq` are imported from `Rattle.octseq.specs`, and laws from
//! `Rattle.octseq.proofs`.
#![tactic(auto)]

pub mod any_builder;
pub mod capped;
pub mod frame;
pub mod join;
pub mod lent;
pub mod levels;
pub mod lines;
pub mod note;
pub mod ranges;
pub mod rationed;
pub mod records;
pub mod scarce;
pub mod shown;
pub mod single_calls;
pub mod views;
