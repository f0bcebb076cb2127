//! Generic octet sequences: builders, ranges and conversions, texts, a parser and a composer.
//!
//! A sequence or a builder has a content, a list of octets, and everything here is about that content, however it is
//! stored. This crate has [`parse`], [`compose`] and [`error`], and re-exports all modules of the crates below it.
#![tactic(auto)]

pub mod compose;
pub mod error;
pub mod parse;

pub use error::{Malformed, ReadError, WriteError};
pub use octseq_core::array::Array;
pub use octseq_core::builder::{
    AppendError, AsOctets, CloneOctets, EmptyBuilder, FreezeBuilder, FromBuilder, IntoBuilder,
    OctetsBuilder, OctetsLimit, ShortBuf, Truncate,
};
pub use octseq_core::cow::CowOctets;
pub use octseq_core::slice_builder::SliceBuilder;
pub use octseq_core::{array, builder, cow, slice_builder};
pub use octseq_text::octets::{Octets, OctetsFrom, OctetsInto};
pub use octseq_text::str::{Str, StrBuilder};
pub use octseq_text::utf8::Turns;
pub use octseq_text::{octets, octets_text, str, utf8};
pub use parse::{Parser, ShortInput};
