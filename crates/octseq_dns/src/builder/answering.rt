//! Answering messages: RFC 1035, 4.1.1.
ghost use Rattle.std.specs.Prelude.{◌≡◌, ◌⊎◌, length, true, IfOk};
ghost use Rattle.octseq.specs.Limit.{ExceedsLimit, IsWithin};
ghost use Rattle.octseq.specs.Refusal.{IsShort, IsMemory, append_error};
ghost use Rattle.octseq_dns_compress.specs.Composed.{message_limit};
ghost use Rattle.octseq_dns.specs.Answering.{answer_header, answer_to};
ghost use Rattle.octseq_dns.specs.Contents.{message_octets};
ghost use Rattle.octseq_dns.specs.Writes.{ComposesMessage, least_limit};

use crate::builder::anew::append_questions;
use crate::builder::entry::is_past;
use crate::builder::header::octets_of;
use crate::builder::{AnswerBuilder, MessageBuilder, SectionBuilder};
use octseq::builder::AsOctetsMut;
use octseq::{AppendError, AsOctets, OctetsBuilder, ShortBuf, Truncate, Turns};
use octseq_dns_compress::Compressor;
use octseq_dns_data::Rcode;
use octseq_dns_message::{Flags, Header, HeaderCounts, Message};
use std::marker::PhantomData;

impl<B: OctetsBuilder + Truncate + AsOctetsMut, T: Compressor> MessageBuilder<B, T> {
    /// Starts an answer to a message, and continues with the answer section. The header has the ID, the opcode and the
    /// RD flag of the message, the QR flag, the response code, and no other flag: RFC 1035, 4.1.1. The questions are
    /// those of the message, with their names octet for octet.
    ///
    /// # Errors
    ///
    /// `Short` if the message with its questions would exceed the push limit, the limit of the builder's type or 65,535
    /// octets, and `Memory` if a request for memory was refused. The builder is then dropped.
    ///
    /// # Examples
    ///
    /// ```
    /// // crates/octseq_examples/src/dns.rt
    /// let request = Message::parse(request)?;
    /// let table = StaticCompressor::<8>::new();
    /// let message = MessageBuilder::from_builder(Array::<512>::new(), table)?;
    /// let answers = message.start_answer(&request, Rcode::REFUSED)?;
    /// let (octets, _) = answers.authority().additional().finish();
    /// ```
    pub fn start_answer<R: AsOctets + Copy>(
        self,
        message: &Message<R>,
        rcode: Rcode,
    ) -> Result<AnswerBuilder<B, T>, AppendError>
        ensures written { IfOk result (λ b.
            ComposesMessage T.most (answer_to message.now rcode) b.state b.header b.counts) }
        ensures fits { let limit = least_limit self.push_limit (message_limit B.limit) in
            IfOk result (λ b. IsWithin limit (length self.state.octets) → IsWithin limit (length b.state.octets)) }
        ensures push_limit { IfOk result (λ b. b.push_limit ≡ self.push_limit) }
        ensures has_opt { IfOk result (λ b. b.has_opt ≡ self.has_opt) }
        ensures short { IsShort append_error result → ExceedsLimit (least_limit self.push_limit (message_limit B.limit))
            (length (message_octets T.most (answer_to message.now rcode))) }
        ensures memory { IsMemory append_error result → (B.asks ≡ true) ⊎ (T.asks ≡ true) }
        ensures borrows { IfOk result (λ b. B.borrows b.octets ≡ B.borrows self.octets) }
    {
        let header = answer_header(&message.header(), rcode);
        let qdcount = message.header_counts().qdcount;
        let counts = HeaderCounts {
            qdcount,
            ..self.counts
        };
        let (push_limit, has_opt) = (self.push_limit, self.has_opt);
        let mut composer = self.message;
        composer.put_header(&octets_of(&header, &counts));
        append_questions(&mut composer, message, &mut Turns::new())?;
        if is_past(push_limit, composer.as_slice().len()) {
            return Err(AppendError::Short(ShortBuf));
        }
        Ok(SectionBuilder {
            message: composer,
            header,
            counts,
            push_limit,
            has_opt,
            section: PhantomData,
        })
    }
}

/// Returns the header of an answer.
fn answer_header(asked: &Header, rcode: Rcode) -> Header
    ensures { result ≡ answer_header asked.now rcode }
{
    Header {
        id: asked.id,
        flags: Flags {
            qr: true,
            aa: false,
            tc: false,
            rd: asked.flags.rd,
            ra: false,
            z: false,
            ad: false,
            cd: false,
        },
        opcode: asked.opcode,
        rcode,
    }
}
