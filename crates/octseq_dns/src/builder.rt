//! Building messages: RFC 1035, 4.1.
//!
//! A message is a header followed by its sections: question, answer, authority and additional. Each section has a
//! builder type of its own, which turns into that of the next, so nothing can be pushed to an earlier section. Each
//! push appends a whole entry or nothing, and the octets are a message at all times.
ghost use Rattle.std.specs.Prelude.{◌≡◌, ◌≤◌, ℕ, length};
ghost use Rattle.octseq_dns.specs.Contents.{MessageFits, Message, header_octets, message_octets};
ghost use Rattle.octseq_dns.specs.ReadBack.{ReadsBack};
ghost use Rattle.octseq_dns.specs.Writes.{IsBuilt, ComposesMessage};
ghost use Rattle.octseq_dns_compress.specs.State.{with_header};

use crate::builder::header::octets_of;
use crate::builder::section::{Additionals, Answers, Authorities, NoSection, Questions, Section};
use octseq::builder::AsOctetsMut;
use octseq::{AsOctets, OctetsBuilder, Truncate};
use octseq_dns_compress::{Composer, Compressor};
use octseq_dns_message::{Header, HeaderCounts};
use std::marker::{Model, PhantomData};

pub(crate) mod anew;
mod answering;
mod entry;
mod header;
mod message;
mod questions;
mod records;
pub mod section;

/// A message that is written up to a section: its octets, and a table of the names in them. Contracts see both, the
/// header, the number of entries of each section, the push limit, and whether the message has an OPT record.
#[derive(Drop)]
pub struct SectionBuilder<B: AsOctets, T: Compressor, S: Section> {
    message: Composer<B, T>,
    header: Header,
    counts: HeaderCounts,
    push_limit: Option<usize>,
    has_opt: bool,
    section: PhantomData<S>,
}

impl<B: AsOctets, T: Compressor, S: Section> Model for SectionBuilder<B, T, S> {
    ghost use Rattle.std.specs.Coded.{codes};
    ghost use Rattle.octseq_dns.specs.Writes.{Building, IsBuilt};
    ghost use Rattle.octseq_dns_compress.specs.State.{state_code};

    ghost Value = { Building B T };

    ghost coded = { Prim.hlevel (codes, state_code) };

    ghost view = { λ m. record {
      octets = m.message.octets;
      table = m.message.table;
      state = m.message.state;
      header = m.header;
      counts = m.counts;
      push_limit = m.push_limit;
      has_opt = m.has_opt;
    } };

    ghost invariant = { λ m. IsBuilt T.most m.message.state m.header m.counts S.reaches };
}

/// A message that has only its header.
pub type MessageBuilder<B, T> = SectionBuilder<B, T, NoSection>;

/// Builds the question section of a message.
pub type QuestionBuilder<B, T> = SectionBuilder<B, T, Questions>;

/// Builds the answer section of a message.
pub type AnswerBuilder<B, T> = SectionBuilder<B, T, Answers>;

/// Builds the authority section of a message.
pub type AuthorityBuilder<B, T> = SectionBuilder<B, T, Authorities>;

/// Builds the additional section of a message.
pub type AdditionalBuilder<B, T> = SectionBuilder<B, T, Additionals>;

impl<B: OctetsBuilder + Truncate + AsOctetsMut, T: Compressor, S: Section> SectionBuilder<B, T, S> {
    /// Returns the header.
    pub fn header(&self) -> Header
        ensures { result ≡ self.now.header }
    {
        self.header
    }

    /// Returns the number of entries of each section.
    pub fn header_counts(&self) -> HeaderCounts
        ensures { result ≡ self.now.counts }
    {
        self.counts
    }

    /// Sets the header. The counts don't change.
    pub fn set_header(&mut self, header: Header)
        ensures header { self.new.header ≡ header }
        ensures counts { self.new.counts ≡ self.old.counts }
        ensures state { self.new.state ≡ with_header self.old.state (header_octets header self.old.counts) }
        ensures len { length self.new.state.octets ≡ length self.old.state.octets }
        ensures written { (m : Message) → ComposesMessage T.most m self.old.state self.old.header self.old.counts
            → ComposesMessage T.most (record m { header = header }) self.new.state self.new.header self.new.counts }
        ensures push_limit { self.new.push_limit ≡ self.old.push_limit }
        ensures has_opt { self.new.has_opt ≡ self.old.has_opt }
        ensures borrows { B.borrows self.new.octets ≡ B.borrows self.old.octets }
    {
        self.header = header;
        self.message
            .put_header(&octets_of(&self.header, &self.counts));
    }

    /// Limits pushes from now on: a push that would make the message longer than `limit` octets fails with `Short`.
    /// What is there already stays, even if it is longer. The limit holds for later sections too.
    ///
    /// # Examples
    ///
    /// ```
    /// // crates/octseq_examples/src/dns.rt
    /// answers.set_push_limit(64);
    /// for address in addresses {
    ///     let data = Data::<R>::A(*address);
    ///     let pushed = answers.push_record(&name.parsed(), Class::IN, Ttl::from_secs(300), &data);
    ///     if pushed.is_err() {
    ///         break; // with this record the message would have more than 64 octets
    ///     }
    /// }
    /// ```
    pub fn set_push_limit(&mut self, limit: usize)
        ensures { self.new ≡ record self.old { push_limit = Some limit } }
    {
        self.push_limit = Some(limit);
    }

    /// Removes the push limit. Pushes are then limited only by the builder's type and by 65,535 octets.
    pub fn clear_push_limit(&mut self)
        ensures { self.new ≡ record self.old { push_limit = None } }
    {
        self.push_limit = None;
    }

    /// Returns the push limit, if one is set.
    pub fn push_limit(&self) -> Option<usize>
        ensures { result ≡ self.now.push_limit }
    {
        self.push_limit
    }

    /// Whether the message has an OPT record.
    pub fn has_opt(&self) -> bool
        ensures { result ≡ self.now.has_opt }
    {
        self.has_opt
    }

    /// Returns the message so far.
    pub fn as_slice(&self) -> &[u8]
        ensures { result.now ≡ self.now.state.octets }
    {
        self.message.as_slice()
    }

    /// Continues with a later section.
    fn next_section<N: Section>(self) -> SectionBuilder<B, T, N>
        requires { S.reaches self.counts → N.reaches self.counts }
        ensures { result ≡ self }
    {
        SectionBuilder {
            message: self.message,
            header: self.header,
            counts: self.counts,
            push_limit: self.push_limit,
            has_opt: self.has_opt,
            section: PhantomData,
        }
    }
}
