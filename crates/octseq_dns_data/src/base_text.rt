//! Base 64 and base 32 text: RFC 4648.
pub use octseq_dns_scan::base32hex::{base32hex_determines_octets, write_base32hex};
pub use octseq_dns_scan::base64::{base64_determines_octets, write_base64};
