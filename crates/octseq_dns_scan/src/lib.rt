//! Reading the text of zone files word by word: RFC 1035, 5.1.
//!
//! A text is octets. Its words are separated by spaces and tabs. A word is read as what has to come there: a number, a
//! time, a string, an address, or octets in hexadecimal, base 64 or base 32.
#![tactic(auto)]

pub mod address;
pub mod base32hex;
pub mod base64;
mod digits;
pub mod hex;
pub mod number;
pub mod string;
pub mod time;
pub mod words;

pub use address::{scan_ipv4, scan_ipv6};
pub use base32hex::{Base32hexReader, write_base32hex};
pub use base64::{Base64Reader, write_base64};
pub use hex::HexReader;
pub use number::{a_number_is_read_as_shown, scan_number, scan_ttl, scan_u8, scan_u16, scan_u32};
pub use string::{
    STRING_MAX, StringError, a_string_is_spelled_by_its_text, one_string_of_a_word, scan_string,
    string_len,
};
pub use time::{one_time_of_a_word, scan_time};
pub use words::{
    Word, Words, a_text_splits_in_one_way, a_word_is_taken_before_a_space, what_a_word_is_made_of,
};
