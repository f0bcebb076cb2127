//! The sections of records.
ghost use Rattle.std.specs.Prelude.{◌≡◌, ◌≤◌, ◌+◌, ◌*◌, ◌⊎◌, ◌||◌, length, true, nat_eq, OnOk, OnErr};
ghost use Rattle.octseq.specs.Limit.{IsWithin};
ghost use Rattle.octseq_dns_compress.specs.Composed.{message_limit};
ghost use Rattle.octseq_dns_compress.specs.State.{label_count, with_entry};
ghost use Rattle.octseq_dns_name.specs.Read.{labels_of};
ghost use Rattle.octseq_dns.specs.Contents.{Message, header_octets, record_entry};
ghost use Rattle.octseq_dns.specs.Pushed.{pushed_record};
ghost use Rattle.octseq_dns.specs.Writes.{IsBuilt, Pushes, UpToAdditionals, ComposesMessage, least_limit};

use crate::builder::entry::append_record;
use crate::builder::header::octets_of;
use crate::builder::section::RecordSection;
use crate::builder::{AdditionalBuilder, AnswerBuilder, AuthorityBuilder, SectionBuilder};
use crate::rdata::ComposeRecordData;
use octseq::builder::AsOctetsMut;
use octseq::{AppendError, AsOctets, OctetsBuilder, ShortBuf, Truncate, Turns};
use octseq_dns_compress::Compressor;
use octseq_dns_data::{Class, Rtype};
use octseq_dns_message::Ttl;
use octseq_dns_name::ParsedName;

impl<B: OctetsBuilder + Truncate + AsOctetsMut, T: Compressor, S: RecordSection> SectionBuilder<
    B,
    T,
    S,
> {
    /// Pushes a record, whole or not at all. Its type is that of its data. Its owner name is compressed, and so are the
    /// names in NS, CNAME, PTR, MX and SOA data: RFC 3597, 4.
    ///
    /// # Errors
    ///
    /// `Short` if the message would exceed the push limit, the limit of the builder's type or 65,535 octets, or its
    /// section already has 65,535 records, and `Memory` if a request for memory was refused. The message is then
    /// unchanged.
    ///
    /// # Examples
    ///
    /// ```
    /// // crates/octseq_examples/src/dns.rt
    /// let name = Name::from_text("example.com.")?;
    /// let address = Data::<R>::A([192, 0, 2, 1]);
    /// let mut answers = message.question().answer();
    /// answers.push_record(&name.parsed(), Class::IN, Ttl::from_secs(300), &address)?;
    /// ```
    pub fn push_record<R: AsOctets + Copy, D: ComposeRecordData>(
        &mut self,
        owner: &ParsedName<R>,
        class: Class,
        ttl: Ttl,
        rdata: &D,
    ) -> Result<(), AppendError>
        ensures pushed { Pushes (least_limit self.old.push_limit (message_limit B.limit))
            ((B.asks ≡ true) ⊎ (T.asks ≡ true)) result
            (with_entry T.most self.old.state
            (record_entry (pushed_record owner.now (D.rtype_of rdata.now) class ttl (D.fields rdata.now))))
            (header_octets self.new.header self.new.counts) (S.count self.old.counts)
            self.old.state self.new.state }
        ensures written { OnOk result ((m : Message)
            → ComposesMessage T.most m self.old.state self.old.header self.old.counts
            → ComposesMessage T.most
            (S.more m (pushed_record owner.now (D.rtype_of rdata.now) class ttl (D.fields rdata.now)))
            self.new.state self.new.header self.new.counts) }
        ensures within { OnOk result (IsWithin (least_limit self.old.push_limit (message_limit B.limit))
            (length self.new.state.octets)) }
        ensures header { self.new.header ≡ self.old.header }
        ensures counts { OnOk result (self.new.counts ≡ S.counted self.old.counts (S.count self.old.counts + 1)) }
        ensures kept { OnErr result (self.new.counts ≡ self.old.counts) }
        ensures push_limit { self.new.push_limit ≡ self.old.push_limit }
        ensures has_opt { OnOk result (self.new.has_opt
            ≡ (self.old.has_opt || nat_eq (D.rtype_of rdata.now) 41)) }
        ensures kept_opt { OnErr result (self.new.has_opt ≡ self.old.has_opt) }
        ensures reaches { S.reaches self.old.counts }
        ensures borrows { B.borrows self.new.octets ≡ B.borrows self.old.octets }
    {
        self.push_record_counted(owner, class, ttl, rdata, &mut Turns::new())
    }

    /// Pushes a record as [`push_record`](Self::push_record) does, and counts turns: at most 17 for each label of its
    /// names that may be compressed, whatever names came before them.
    ///
    /// # Errors
    ///
    /// As `push_record`.
    pub fn push_record_counted<R: AsOctets + Copy, D: ComposeRecordData>(
        &mut self,
        owner: &ParsedName<R>,
        class: Class,
        ttl: Ttl,
        rdata: &D,
        turns: &mut Turns,
    ) -> Result<(), AppendError>
        ensures pushed { Pushes (least_limit self.old.push_limit (message_limit B.limit))
            ((B.asks ≡ true) ⊎ (T.asks ≡ true)) result
            (with_entry T.most self.old.state
            (record_entry (pushed_record owner.now (D.rtype_of rdata.now) class ttl (D.fields rdata.now))))
            (header_octets self.new.header self.new.counts) (S.count self.old.counts)
            self.old.state self.new.state }
        ensures written { OnOk result ((m : Message)
            → ComposesMessage T.most m self.old.state self.old.header self.old.counts
            → ComposesMessage T.most
            (S.more m (pushed_record owner.now (D.rtype_of rdata.now) class ttl (D.fields rdata.now)))
            self.new.state self.new.header self.new.counts) }
        ensures within { OnOk result (IsWithin (least_limit self.old.push_limit (message_limit B.limit))
            (length self.new.state.octets)) }
        ensures header { self.new.header ≡ self.old.header }
        ensures counts { OnOk result (self.new.counts ≡ S.counted self.old.counts (S.count self.old.counts + 1)) }
        ensures kept { OnErr result (self.new.counts ≡ self.old.counts) }
        ensures push_limit { self.new.push_limit ≡ self.old.push_limit }
        ensures has_opt { OnOk result (self.new.has_opt
            ≡ (self.old.has_opt || nat_eq (D.rtype_of rdata.now) 41)) }
        ensures kept_opt { OnErr result (self.new.has_opt ≡ self.old.has_opt) }
        ensures reaches { S.reaches self.old.counts }
        ensures borrows { B.borrows self.new.octets ≡ B.borrows self.old.octets }
        ensures on { turns.old ≤ turns.new }
        ensures turns { turns.new ≤ turns.old
            + 17 * (length (labels_of owner.now) + label_count (D.fields rdata.now)) }
        ensures least { OnOk result (turns.old + (length (labels_of owner.now) + label_count (D.fields rdata.now))
            + length self.old.state.octets ≤ turns.new + length self.new.state.octets) }
    {
        let Some(counts) = S::count_one_more(self.counts) else {
            return Err(AppendError::Short(ShortBuf));
        };
        let limit = self.push_limit;
        append_record(&mut self.message, limit, owner, class, ttl, rdata, turns)?;
        self.counts = counts;
        self.has_opt = self.has_opt || rdata.rtype() == Rtype::OPT;
        self.message
            .put_header(&octets_of(&self.header, &self.counts));
        Ok(())
    }
}

impl<B: OctetsBuilder + Truncate + AsOctetsMut, T: Compressor> AnswerBuilder<B, T> {
    /// Continues with the authority section.
    pub fn authority(self) -> AuthorityBuilder<B, T>
        ensures { result ≡ self }
    {
        self.next_section()
    }
}

impl<B: OctetsBuilder + Truncate + AsOctetsMut, T: Compressor> AuthorityBuilder<B, T> {
    /// Continues with the additional section.
    pub fn additional(self) -> AdditionalBuilder<B, T>
        ensures { result ≡ self }
    {
        self.next_section()
    }
}

impl<B: OctetsBuilder + Truncate + AsOctetsMut, T: Compressor> AdditionalBuilder<B, T> {
    /// Returns the octets builder, which holds the message, and the table, which can be used for another message.
    pub fn finish(self) -> (B, T)
        ensures octets { result.0 ≡ self.octets }
        ensures table { result.1 ≡ self.table }
        ensures content { B.content result.0 ≡ self.state.octets }
        ensures message { IsBuilt T.most self.state self.header self.counts UpToAdditionals }
    {
        self.message.finish()
    }
}
