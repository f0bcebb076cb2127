//! Starting a message.
ghost use Rattle.std.specs.Prelude.{◌≡◌, true, false, IfOk, ◌↔◌, length};
ghost use Rattle.octseq.specs.Limit.{ExceedsLimit, IsWithin};
ghost use Rattle.octseq.specs.Refusal.{IsShort, IsMemory, append_error};
ghost use Rattle.octseq_dns_compress.specs.Composed.{message_limit};
ghost use Rattle.octseq_dns.specs.Blank.{blank_header, blank_message};
ghost use Rattle.octseq_dns.specs.Writes.{ComposesMessage};

use crate::builder::{MessageBuilder, QuestionBuilder, SectionBuilder};
use octseq::builder::AsOctetsMut;
use octseq::{AppendError, OctetsBuilder, Truncate};
use octseq_dns_compress::{Composer, Compressor};
use octseq_dns_data::{Opcode, Rcode};
use octseq_dns_message::{Flags, Header, HeaderCounts};
use std::marker::PhantomData;

impl<B: OctetsBuilder + Truncate + AsOctetsMut, T: Compressor> MessageBuilder<B, T> {
    /// Starts a message with a header of zeros, in place of what the builder and the table hold. A table that was used
    /// for another message is cleared and keeps its capacity. No push limit is set.
    ///
    /// # Errors
    ///
    /// `Short` exactly if the limit of the builder's type is less than the 12 octets of a header, otherwise `Memory` if
    /// a request for memory was refused. The builder and the table are then dropped.
    ///
    /// # Examples
    ///
    /// ```
    /// // crates/octseq_examples/src/dns.rt
    /// let table = StaticCompressor::<8>::new();
    /// let mut message = MessageBuilder::from_builder(Array::<512>::new(), table)?;
    /// message.set_header(header);
    /// let mut questions = message.question();
    /// questions.push_question(&name.parsed(), Rtype::A, Class::IN)?;
    /// let (octets, _) = questions.answer().authority().additional().finish();
    /// ```
    pub fn from_builder(octets: B, table: T) -> Result<Self, AppendError>
        ensures written { IfOk result (λ m. ComposesMessage T.most blank_message m.state m.header m.counts) }
        ensures within { IfOk result (λ m. IsWithin (message_limit B.limit) (length m.state.octets)) }
        ensures push_limit { IfOk result (λ m. m.push_limit ≡ None) }
        ensures has_opt { IfOk result (λ m. m.has_opt ≡ false) }
        ensures short { IsShort append_error result ↔ ExceedsLimit B.limit 12 }
        ensures memory { IsMemory append_error result → B.asks ≡ true }
        ensures borrows { IfOk result (λ m. B.borrows m.octets ≡ B.borrows octets) }
    {
        let message = Composer::from_builder(octets, table)?;
        Ok(SectionBuilder {
            message,
            header: blank_header(),
            counts: HeaderCounts {
                qdcount: 0,
                ancount: 0,
                nscount: 0,
                arcount: 0,
            },
            push_limit: None,
            has_opt: false,
            section: PhantomData,
        })
    }

    /// Continues with the question section.
    pub fn question(self) -> QuestionBuilder<B, T>
        ensures { result ≡ self }
    {
        self.next_section()
    }
}

/// Returns a header of zeros.
fn blank_header() -> Header
    ensures { result ≡ blank_header }
{
    Header {
        id: 0,
        flags: Flags {
            qr: false,
            aa: false,
            tc: false,
            rd: false,
            ra: false,
            z: false,
            ad: false,
            cd: false,
        },
        opcode: Opcode::QUERY,
        rcode: Rcode::NOERROR,
    }
}
