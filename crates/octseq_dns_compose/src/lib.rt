//! Records and messages read from their text, and messages composed of it: RFC 1035, 5.1.
//!
//! [`scan_record`] reads a record from the words of one line, as a zone file has it. [`compose_text`] reads the text of
//! a whole message, as `octseq_dns` shows it, and composes the message with its names compressed.
#![tactic(auto)]

mod alone;
mod entry;
pub mod error;
pub mod fault;
mod head;
mod header;
pub mod laws;
mod lines;
pub mod message;
mod numbers;
mod question;
pub mod record;
mod take;

pub use error::{ComposeError, Place};
pub use fault::a_text_has_one_fault;
pub use laws::{
    a_message_is_what_its_lines_say, a_shown_message_is_composed_again, a_text_is_of_one_message,
    messages_are_read_as_shown, records_are_read_as_shown,
};
pub use message::{a_refused_text_is_no_message, compose_text};
pub use record::{RecordHead, scan_record};
