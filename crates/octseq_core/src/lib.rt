//! Octet sequences and the builders that make them.
//!
//! A sequence has a *content*, a list of octets. A builder is a sequence that grows, and its type may have a *limit*, a
//! greatest length of its content. The contracts of the traits in [`builder`] speak of nothing else, so code that is
//! generic over them is proved for every builder, including a caller's own.
#![tactic(auto)]

pub mod array;
pub mod builder;
pub mod cow;
mod lanes;
pub mod slice_builder;
