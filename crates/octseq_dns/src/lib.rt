//! Domain names and DNS messages: reading them from one buffer without copying, and writing them.
//!
//! A message is octets that anyone may have sent. [`Message::parse`] accepts every message of RFC 1035 and nothing
//! else, and requests no memory. It returns a value that says where everything is: the header, and iterators over the
//! sections that can't fail. A name is its offset in the message, with its compression pointers.
//!
//! [`MessageBuilder`] writes a message, section by section, into an octets builder. A table of the names in the message
//! is used for compression. What was written is read back as that message.
#![tactic(auto)]

pub mod builder;
pub mod edns;
pub mod frames;
pub mod laws;
pub mod moved;
pub mod rdata;
mod rewriting;
pub mod txt;

pub use builder::{
    AdditionalBuilder, AnswerBuilder, AuthorityBuilder, MessageBuilder, QuestionBuilder,
    SectionBuilder,
};
pub use edns::{OptData, PushOptError, UnknownOptData};
pub use frames::{FrameError, FrameReader, WriteFrameError, next_frame, read_frame, write_frame};
pub use moved::can_move;
pub use octseq_dns_compress::{Composer, Compressor, StaticCompressor, Target, Uncompressed};
pub use octseq_dns_data::{
    Class, Data, Opcode, Rcode, Rtype, RtypeBitmap, SvcParams, base_text, data, iana, rtype_bitmap,
    svc_params, tag,
};
pub use octseq_dns_message::header::{Flags, Header, HeaderCounts};
pub use octseq_dns_message::message::{Message, Question, Record};
pub use octseq_dns_message::ttl::Ttl;
pub use octseq_dns_message::{header, message, opt, ttl};
pub use octseq_dns_name::error::{FromLabelsError, FromTextError, Malformed};
pub use octseq_dns_name::name::{DomainName, Name, ParsedName, Suffixes};
pub use octseq_dns_name::{error, name};
pub use rdata::{ComposeRecordData, UnknownRecordData};
pub use rewriting::{RewriteError, rewrite, rewrite_counted};
