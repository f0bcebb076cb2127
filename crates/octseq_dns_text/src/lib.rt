//! The data of DNS records, read from the words of a line of a zone file: RFC 1035, 5.1, and RFC 3597, 5.
#![tactic(auto)]

pub mod data;
pub mod error;
mod field;
pub mod laws;
mod output;
pub mod params;
mod runs;
mod tail;
pub mod types;
mod word;

pub use data::{one_reading_of_data_text, scan_data};
pub use error::ScanError;
pub use laws::{data_is_read_as_shown, fields_are_read_as_shown};
pub use params::scan_params;
pub use types::scan_types;
