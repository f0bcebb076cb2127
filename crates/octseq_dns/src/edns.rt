//! Writing OPT records: RFC 6891, 6.1.
ghost use Rattle.std.specs.Prelude.{◌≡◌, ◌≤◌, ◌<◌, ◌+◌, ◌⊎◌, ◌↔◌, ◌++◌, [], length, true, OnOk, OnErr, Some};
ghost use Rattle.octseq.specs.Integer.{octets_be};
ghost use Rattle.octseq.specs.Limit.{IsWithin};
ghost use Rattle.octseq.specs.Refusal.{IsMalformed};
ghost use Rattle.octseq_dns_compress.specs.Composed.{Composes, message_limit};
ghost use Rattle.octseq_dns_compress.specs.State.{Field, with_entry, with_fields, with_octets};
ghost use Rattle.octseq_dns_message.specs.Entry.{Record as Entry};
ghost use Rattle.octseq_dns_message.specs.Opt.{IsOpt, Opt};
ghost use Rattle.octseq_dns_name.specs.Read.{labels_of};
ghost use Rattle.octseq_dns.specs.Contents.{Message, header_octets, record_entry};
ghost use Rattle.octseq_dns.specs.OptWritten.{option_octets, options_octets, opt_fields, opt_record, opt_ttl};
ghost use Rattle.octseq_dns.specs.OptWritten.{FitsOpt, SaysOpt, push_opt_error};
ghost use Rattle.octseq_dns.specs.ReadBack.{IsAsWritten};
ghost use Rattle.octseq_dns.specs.Writes.{PushesAs, ComposesMessage, least_limit, more_additionals};

use crate::builder::AdditionalBuilder;
use crate::rdata::ComposeRecordData;
use octseq::builder::AsOctetsMut;
use octseq::{AppendError, OctetsBuilder, Parser, ShortBuf, Truncate, Turns};
use octseq_dns_compress::{Composer, Compressor};
use octseq_dns_data::{Class, Rtype};
use octseq_dns_message::Ttl;
use octseq_dns_name::ParsedName;
use octseq_dns_name::name::one_name_at_a_place;
use std::error::Error;
use std::fmt;

/// The octets of the root: RFC 1035, 3.1.
const ROOT: [u8; 1] = [0];

/// An EDNS option to write: RFC 6891, 6.1.2.
#[derive(Clone, Copy, Debug)]
pub struct UnknownOptData<'a> {
    /// The option code.
    pub code: u16,
    /// The option data.
    pub octets: &'a [u8],
}

/// An OPT record to write. Its options are the record data: RFC 6891, 6.1.2 and 6.1.3.
#[derive(Clone, Copy, Debug)]
pub struct OptData<'a> {
    /// The number of octets of the largest UDP payload that the sender accepts.
    pub udp_payload_size: u16,
    /// The upper eight bits of the extended response code, which has twelve. The lower four are in the header.
    pub extended_rcode: u8,
    /// The EDNS version.
    pub version: u8,
    /// Whether the sender accepts DNSSEC records: the DO bit of RFC 3225, 3.
    pub dnssec_ok: bool,
    /// The options, in their order.
    pub options: &'a [UnknownOptData<'a>],
}

impl<'a> OptData<'a> {
    /// Returns the bits that the record has in place of a TTL: RFC 6891, 6.1.3.
    fn ttl(&self) -> Ttl
        ensures { result ≡ opt_ttl self.now }
    {
        let flags = if self.dnssec_ok { 32768 } else { 0 };
        let version = u32::from(self.version) * 65536;
        Ttl::from_secs(u32::from(self.extended_rcode) * 16777216 + version + flags)
    }
}

impl<'a> ComposeRecordData for OptData<'a> {
    ghost rtype_of = { λ _. 41 };

    ghost fields = { opt_fields };

    fn rtype(&self) -> Rtype {
        Rtype::OPT
    }

    fn compose<B: OctetsBuilder + Truncate + AsOctetsMut, T: Compressor>(
        &self,
        message: &mut Composer<B, T>,
        _turns: &mut Turns,
    ) -> Result<(), AppendError> {
        append_options(message, self.options)
    }
}

/// Why an OPT record wasn't pushed.
#[derive(Clone, Copy, Debug, PartialEq, Eq)]
pub enum PushOptError {
    /// The message already has an OPT record.
    AlreadyPushed,
    /// The message would have exceeded the push limit, the limit of the builder's type or 65,535 octets, or it already
    /// has 65,535 additional records.
    Short(ShortBuf),
    /// A request for memory was refused.
    Memory,
}

impl Error for PushOptError {}

impl fmt::Display for PushOptError {
    ghost use Rattle.octseq_dns.specs.PushOptShown.{push_opt_error_text};

    ghost output = { λ e. Some (push_opt_error_text e) };

    fn fmt<W: fmt::Write>(&self, f: &mut fmt::Formatter<W>) -> fmt::Result {
        match self {
            PushOptError::AlreadyPushed => f.write_str("a second record of type OPT"),
            PushOptError::Short(_) => f.write_str("buffer size exceeded"),
            PushOptError::Memory => f.write_str("out of memory"),
        }
    }
}

/// An OPT record that was written is read as what was written: [`Opt::from_record`] returns the same values.
///
/// It does nothing. Calling it brings the law into the caller's proof.
///
/// [`Opt::from_record`]: octseq_dns_message::opt::Opt::from_record
pub fn an_opt_is_read_as_written()
    ensures { (r : Entry) (opt : OptData) → IsAsWritten r (opt_record opt) → FitsOpt opt
        → (read : Opt) × IsOpt r read × SaysOpt read opt }
{}

impl<B: OctetsBuilder + Truncate + AsOctetsMut, T: Compressor> AdditionalBuilder<B, T> {
    /// Pushes the OPT record, whole or not at all. Its name is the root, its class is the UDP payload size, and its
    /// data is the options.
    ///
    /// # Errors
    ///
    /// `AlreadyPushed` exactly if the message already has an OPT record: RFC 6891, 6.1.1. Otherwise `Short` if the
    /// message would exceed the push limit, the limit of the builder's type or 65,535 octets, or already has 65,535
    /// additional records, and `Memory` if a request for memory was refused. The message is then unchanged.
    ///
    /// # Examples
    ///
    /// ```
    /// // crates/octseq_examples/src/dns.rt
    /// let mut additionals = message.question().answer().authority().additional();
    /// additionals.push_opt(&OptData {
    ///     udp_payload_size: 1232,
    ///     extended_rcode: 0,
    ///     version: 0,
    ///     dnssec_ok: true,
    ///     options: &[],
    /// })?;
    /// ```
    pub fn push_opt(&mut self, opt: &OptData<'_>) -> Result<(), PushOptError>
        ensures pushed { PushesAs push_opt_error (least_limit self.old.push_limit (message_limit B.limit))
            ((B.asks ≡ true) ⊎ (T.asks ≡ true)) result
            (with_entry T.most self.old.state (record_entry (opt_record opt.now)))
            (header_octets self.new.header self.new.counts) self.old.counts.arcount
            self.old.state self.new.state }
        ensures written { OnOk result ((m : Message)
            → ComposesMessage T.most m self.old.state self.old.header self.old.counts
            → ComposesMessage T.most (more_additionals m (opt_record opt.now))
            self.new.state self.new.header self.new.counts) }
        ensures within { OnOk result (IsWithin (least_limit self.old.push_limit (message_limit B.limit))
            (length self.new.state.octets)) }
        ensures already { IsMalformed push_opt_error result ↔ (self.old.has_opt ≡ true) }
        ensures has_opt { OnOk result (self.new.has_opt ≡ true) }
        ensures header { self.new.header ≡ self.old.header }
        ensures counts { OnOk result (self.new.counts
            ≡ record self.old.counts { arcount = self.old.counts.arcount + 1 }) }
        ensures kept { OnErr result (self.new.counts ≡ self.old.counts) }
        ensures kept_opt { OnErr result (self.new.has_opt ≡ self.old.has_opt) }
        ensures push_limit { self.new.push_limit ≡ self.old.push_limit }
        ensures borrows { B.borrows self.new.octets ≡ B.borrows self.old.octets }
    {
        if self.has_opt() {
            return Err(PushOptError::AlreadyPushed);
        }
        let class = Class::from_int(opt.udp_payload_size);
        match self.push_record(&root(), class, opt.ttl(), opt) {
            Ok(()) => Ok(()),
            Err(AppendError::Short(error)) => Err(PushOptError::Short(error)),
            Err(AppendError::Memory) => Err(PushOptError::Memory),
        }
    }
}

/// Returns the root, as a name in a message of its own.
fn root() -> ParsedName<&'static [u8]>
    ensures { labels_of result ≡ [] }
{
    one_name_at_a_place();
    let mut parser = Parser::from_ref(ROOT.as_slice());
    match ParsedName::parse(&mut parser) {
        Ok(root) => root,
        Err(_) => unreachable!(),
    }
}

/// Appends options, one after another. The last append, of no octets, fails if the message exceeds its limit even
/// without options.
fn append_options<B: OctetsBuilder + Truncate + AsOctetsMut, T: Compressor>(
    message: &mut Composer<B, T>,
    options: &[UnknownOptData<'_>],
) -> Result<(), AppendError>
    ensures composed { Composes (message_limit B.limit) (B.asks ≡ true) result
        (with_octets message.old.state (options_octets options.now)) message.old message.new }
    ensures borrows { B.borrows message.new.octets ≡ B.borrows message.old.octets }
{
    for option in options {
        append_option(message, option)?;
    }
    message.append_slice(&[])
}

/// Appends an option: its code, its length and its data.
fn append_option<B: OctetsBuilder + Truncate + AsOctetsMut, T: Compressor>(
    message: &mut Composer<B, T>,
    option: &UnknownOptData<'_>,
) -> Result<(), AppendError>
    ensures composed { Composes (message_limit B.limit) (B.asks ≡ true) result
        (with_octets message.old.state (option_octets (option.now.code, option.now.octets.now)))
        message.old message.new }
    ensures borrows { B.borrows message.new.octets ≡ B.borrows message.old.octets }
{
    let Ok(len) = u16::try_from(option.octets.len()) else {
        return Err(AppendError::Short(ShortBuf));
    };
    message.append_slice(&option_head(option.code, len))?;
    message.append_slice(option.octets)
}

/// Returns the octets of the code and the length of an option.
#[tactic(auto, using(octseq::proofs::Written::written_2))]
fn option_head(code: u16, len: u16) -> [u8; 4]
    ensures { result ≡ octets_be 2 code ++ octets_be 2 len }
{
    let code = code.to_be_bytes();
    let len = len.to_be_bytes();
    [code[0], code[1], len[0], len[1]]
}
