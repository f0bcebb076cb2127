//! MRT records, read from one buffer without copies, and written: RFC 6396 and RFC 8050.
#![tactic(auto)]

pub mod address;
pub mod bgp4mp;
pub mod builder;
pub mod header;
pub mod kind;
pub mod laws;
pub mod peer;
pub mod reader;
pub mod record;
pub mod rib;
pub mod rib_attribute;
mod text;
pub mod writer;

pub use bgp4mp::{Bgp4Mp, Event, MessageOctets};
pub use builder::peers::PeerTableBuilder;
pub use builder::rib::RibBuilder;
pub use header::CommonHeader;
pub use kind::{Bgp4MpSubtype, RecordKind};
pub use peer::{PeerEntry, PeerIndexTable, Peers};
pub use reader::{RecordError, RecordReader, read_record, records_are_apart};
pub use record::{Record, RecordValue, next_record, one_record, one_record_value};
pub use rib::{Rib, RibEntries, RibEntry};
pub use rib_attribute::{RibAttribute, RibAttributes, RibValue, next_hops_are_apart};
pub use text::one_record_text;
pub use writer::{RecordWriter, WriteRecordError};
