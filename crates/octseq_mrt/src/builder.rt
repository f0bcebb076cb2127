//! The octets of records, written: RFC 6396, 4, and RFC 8050.

mod bgp4mp;
mod parts;
pub mod peers;
pub mod rib;
