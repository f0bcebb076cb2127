//! The question section.
ghost use Rattle.std.specs.Prelude.{◌≡◌, ◌≤◌, ◌+◌, ◌*◌, ◌⊎◌, length, true, OnOk, OnErr};
ghost use Rattle.octseq.specs.Limit.{IsWithin};
ghost use Rattle.octseq_dns_compress.specs.Composed.{message_limit};
ghost use Rattle.octseq_dns_compress.specs.State.{with_entry};
ghost use Rattle.octseq_dns_name.specs.Read.{labels_of};
ghost use Rattle.octseq_dns.specs.Contents.{Message, header_octets, question_entry};
ghost use Rattle.octseq_dns.specs.Pushed.{pushed_question};
ghost use Rattle.octseq_dns.specs.Writes.{Pushes, UpToQuestions, ComposesMessage, least_limit, more_questions};

use crate::builder::entry::append_question;
use crate::builder::header::octets_of;
use crate::builder::{AnswerBuilder, QuestionBuilder};
use octseq::builder::AsOctetsMut;
use octseq::{AppendError, AsOctets, OctetsBuilder, ShortBuf, Truncate, Turns};
use octseq_dns_compress::Compressor;
use octseq_dns_data::{Class, Rtype};
use octseq_dns_name::ParsedName;

impl<B: OctetsBuilder + Truncate + AsOctetsMut, T: Compressor> QuestionBuilder<B, T> {
    /// Pushes a question, whole or not at all. Its name is compressed.
    ///
    /// # Errors
    ///
    /// `Short` if the message would exceed the push limit, the limit of the builder's type or 65,535 octets, or already
    /// has 65,535 questions, and `Memory` if a request for memory was refused. The message is then unchanged.
    ///
    /// # Examples
    ///
    /// ```
    /// // crates/octseq_examples/src/dns.rt
    /// let name = Name::from_text("example.com.")?;
    /// let mut questions = message.question();
    /// questions.push_question(&name.parsed(), Rtype::A, Class::IN)?; // 17 octets
    /// questions.push_question(&name.parsed(), Rtype::AAAA, Class::IN)?; // 6 octets: the name is a pointer
    /// ```
    pub fn push_question<R: AsOctets + Copy>(
        &mut self,
        qname: &ParsedName<R>,
        qtype: Rtype,
        qclass: Class,
    ) -> Result<(), AppendError>
        ensures pushed { Pushes (least_limit self.old.push_limit (message_limit B.limit))
            ((B.asks ≡ true) ⊎ (T.asks ≡ true)) result
            (with_entry T.most self.old.state (question_entry (pushed_question qname.now qtype qclass)))
            (header_octets self.new.header self.new.counts) self.old.counts.qdcount self.old.state self.new.state }
        ensures written { OnOk result ((m : Message)
            → ComposesMessage T.most m self.old.state self.old.header self.old.counts
            → ComposesMessage T.most (more_questions m (pushed_question qname.now qtype qclass))
            self.new.state self.new.header self.new.counts) }
        ensures within { OnOk result (IsWithin (least_limit self.old.push_limit (message_limit B.limit))
            (length self.new.state.octets)) }
        ensures header { self.new.header ≡ self.old.header }
        ensures counts { OnOk result (self.new.counts
            ≡ record self.old.counts { qdcount = self.old.counts.qdcount + 1 }) }
        ensures kept { OnErr result (self.new.counts ≡ self.old.counts) }
        ensures push_limit { self.new.push_limit ≡ self.old.push_limit }
        ensures has_opt { self.new.has_opt ≡ self.old.has_opt }
        ensures reaches { UpToQuestions self.old.counts }
        ensures borrows { B.borrows self.new.octets ≡ B.borrows self.old.octets }
    {
        self.push_question_counted(qname, qtype, qclass, &mut Turns::new())
    }

    /// Pushes a question as [`push_question`](Self::push_question) does, and counts turns: at most 17 for each label of
    /// its name, whatever names came before it.
    ///
    /// # Errors
    ///
    /// As `push_question`.
    pub fn push_question_counted<R: AsOctets + Copy>(
        &mut self,
        qname: &ParsedName<R>,
        qtype: Rtype,
        qclass: Class,
        turns: &mut Turns,
    ) -> Result<(), AppendError>
        ensures pushed { Pushes (least_limit self.old.push_limit (message_limit B.limit))
            ((B.asks ≡ true) ⊎ (T.asks ≡ true)) result
            (with_entry T.most self.old.state (question_entry (pushed_question qname.now qtype qclass)))
            (header_octets self.new.header self.new.counts) self.old.counts.qdcount self.old.state self.new.state }
        ensures written { OnOk result ((m : Message)
            → ComposesMessage T.most m self.old.state self.old.header self.old.counts
            → ComposesMessage T.most (more_questions m (pushed_question qname.now qtype qclass))
            self.new.state self.new.header self.new.counts) }
        ensures within { OnOk result (IsWithin (least_limit self.old.push_limit (message_limit B.limit))
            (length self.new.state.octets)) }
        ensures header { self.new.header ≡ self.old.header }
        ensures counts { OnOk result (self.new.counts
            ≡ record self.old.counts { qdcount = self.old.counts.qdcount + 1 }) }
        ensures kept { OnErr result (self.new.counts ≡ self.old.counts) }
        ensures push_limit { self.new.push_limit ≡ self.old.push_limit }
        ensures has_opt { self.new.has_opt ≡ self.old.has_opt }
        ensures reaches { UpToQuestions self.old.counts }
        ensures borrows { B.borrows self.new.octets ≡ B.borrows self.old.octets }
        ensures on { turns.old ≤ turns.new }
        ensures turns { turns.new ≤ turns.old + 17 * length (labels_of qname.now) }
        ensures least { OnOk result (turns.old + length (labels_of qname.now) + length self.old.state.octets
            ≤ turns.new + length self.new.state.octets) }
    {
        let Some(qdcount) = self.counts.qdcount.checked_add(1) else {
            return Err(AppendError::Short(ShortBuf));
        };
        let limit = self.push_limit;
        append_question(&mut self.message, limit, qname, qtype, qclass, turns)?;
        self.counts.qdcount = qdcount;
        self.message
            .put_header(&octets_of(&self.header, &self.counts));
        Ok(())
    }

    /// Continues with the answer section.
    pub fn answer(self) -> AnswerBuilder<B, T>
        ensures { result ≡ self }
    {
        self.next_section()
    }
}
