//! Appending entries to a message: RFC 1035, 4.1.2 and 4.1.3.
ghost use Rattle.std.specs.Prelude.{◌≡◌, ◌<◌, ◌≤◌, ◌+◌, ◌*◌, ◌⊎◌, ◌++◌, length, true, IsTrue, OnOk};
ghost use Rattle.octseq.specs.Integer.{octets_be};
ghost use Rattle.octseq.specs.Limit.{ExceedsLimit, IsWithin};
ghost use Rattle.octseq.specs.Refusal.{IsShort, IsMemory, append_error};
ghost use Rattle.octseq_dns_compress.specs.Composed.{message_limit, Composes};
ghost use Rattle.octseq_dns_compress.specs.State.{with_counted, with_entry, label_count};
ghost use Rattle.std.specs.List.{AllByRecursion};
ghost use Rattle.octseq_dns_compress.specs.Fits.{FitsField};
ghost use Rattle.octseq_dns_name.specs.Read.{labels_of};
ghost use Rattle.octseq_dns.specs.Contents.{FitsQuestion, FitsRecord, question_entry, record_entry};
ghost use Rattle.octseq_dns.specs.Pushed.{pushed_question, pushed_record};
ghost use Rattle.octseq_dns.specs.Writes.{ChangesMessage, least_limit};

use crate::rdata::ComposeRecordData;
use octseq::builder::AsOctetsMut;
use octseq::{AppendError, AsOctets, OctetsBuilder, ShortBuf, Truncate, Turns};
use octseq_dns_compress::{Composer, Compressor};
use octseq_dns_data::{Class, Rtype};
use octseq_dns_message::Ttl;
use octseq_dns_name::ParsedName;

/// Returns the octets of the type and the class of a question.
#[tactic(auto, using(octseq::proofs::Written::written_2))]
fn question_end(qtype: Rtype, qclass: Class) -> [u8; 4]
    ensures octets { result ≡ octets_be 2 qtype ++ octets_be 2 qclass }
    ensures qtype { qtype < 65536 }
    ensures qclass { qclass < 65536 }
{
    let qtype = qtype.to_int().to_be_bytes();
    let qclass = qclass.to_int().to_be_bytes();
    [qtype[0], qtype[1], qclass[0], qclass[1]]
}

/// Returns the octets of the type, the class and the TTL of a record.
#[tactic(auto, using(octseq::proofs::Written::written_2, octseq::proofs::Written::written_4))]
fn record_middle(rtype: Rtype, class: Class, ttl: Ttl) -> [u8; 8]
    ensures octets { result ≡ octets_be 2 rtype ++ (octets_be 2 class ++ octets_be 4 ttl) }
    ensures rtype { rtype < 65536 }
    ensures class { class < 65536 }
    ensures ttl { ttl < 4294967296 }
{
    let rtype = rtype.to_int().to_be_bytes();
    let class = class.to_int().to_be_bytes();
    let ttl = ttl.as_secs().to_be_bytes();
    [
        rtype[0], rtype[1], class[0], class[1], ttl[0], ttl[1], ttl[2], ttl[3],
    ]
}

/// Appends the fields of a question.
pub(super) fn compose_question<
    B: OctetsBuilder + Truncate + AsOctetsMut,
    T: Compressor,
    R: AsOctets + Copy,
>(
    message: &mut Composer<B, T>,
    qname: &ParsedName<R>,
    qtype: Rtype,
    qclass: Class,
    turns: &mut Turns,
) -> Result<(), AppendError>
    ensures composed { Composes (message_limit B.limit) ((B.asks ≡ true) ⊎ (T.asks ≡ true)) result
        (with_entry T.most message.old.state (question_entry (pushed_question qname.now qtype qclass)))
        message.old message.new }
    ensures fits { OnOk result (FitsQuestion (pushed_question qname.now qtype qclass)) }
    ensures borrows { B.borrows message.new.octets ≡ B.borrows message.old.octets }
    ensures on { turns.old ≤ turns.new }
    ensures turns { turns.new ≤ turns.old + 17 * length (labels_of qname.now) }
    ensures least { OnOk result (turns.old + length (labels_of qname.now) + length message.old.state.octets
        ≤ turns.new + length message.new.state.octets) }
{
    let end = question_end(qtype, qclass);
    message.append_name(qname, turns)?;
    message.append_slice(&end)
}

/// Appends record data, preceded by its length.
fn append_data<B: OctetsBuilder + Truncate + AsOctetsMut, T: Compressor, D: ComposeRecordData>(
    message: &mut Composer<B, T>,
    rdata: &D,
    turns: &mut Turns,
) -> Result<(), AppendError>
    ensures ok { OnOk result (message.new.state ≡ with_counted T.most message.old.state (D.fields rdata.now)) }
    ensures within { OnOk result (IsWithin (message_limit B.limit)
        (length (with_counted T.most message.old.state (D.fields rdata.now)).octets)) }
    ensures short { IsShort append_error result → ExceedsLimit (message_limit B.limit)
        (length (with_counted T.most message.old.state (D.fields rdata.now)).octets) }
    ensures memory { IsMemory append_error result → (B.asks ≡ true) ⊎ (T.asks ≡ true) }
    ensures begun { message.new.begun ≡ message.old.begun }
    ensures fits { OnOk result (AllByRecursion FitsField (D.fields rdata.now)) }
    ensures borrows { B.borrows message.new.octets ≡ B.borrows message.old.octets }
    ensures on { turns.old ≤ turns.new }
    ensures turns { turns.new ≤ turns.old + 17 * label_count (D.fields rdata.now) }
    ensures least { OnOk result (turns.old + label_count (D.fields rdata.now) + length message.old.state.octets
        ≤ turns.new + length message.new.state.octets) }
{
    if let Err(error) = message.begin_data() {
        return Err(error);
    }
    if let Err(error) = rdata.compose(message, turns) {
        return Err(error);
    }
    message.end_data();
    Ok(())
}

/// Appends the fields of a record.
pub(super) fn compose_record<
    B: OctetsBuilder + Truncate + AsOctetsMut,
    T: Compressor,
    R: AsOctets + Copy,
    D: ComposeRecordData,
>(
    message: &mut Composer<B, T>,
    owner: &ParsedName<R>,
    class: Class,
    ttl: Ttl,
    rdata: &D,
    turns: &mut Turns,
) -> Result<(), AppendError>
    ensures ok { OnOk result (message.new.state ≡ with_entry T.most message.old.state
        (record_entry (pushed_record owner.now (D.rtype_of rdata.now) class ttl (D.fields rdata.now)))) }
    ensures within { OnOk result (IsWithin (message_limit B.limit) (length (with_entry T.most message.old.state
        (record_entry (pushed_record owner.now (D.rtype_of rdata.now) class ttl (D.fields rdata.now)))).octets)) }
    ensures short { IsShort append_error result → ExceedsLimit (message_limit B.limit)
        (length (with_entry T.most message.old.state
        (record_entry (pushed_record owner.now (D.rtype_of rdata.now) class ttl (D.fields rdata.now)))).octets) }
    ensures memory { IsMemory append_error result → (B.asks ≡ true) ⊎ (T.asks ≡ true) }
    ensures fits { OnOk result
        (FitsRecord (pushed_record owner.now (D.rtype_of rdata.now) class ttl (D.fields rdata.now))) }
    ensures borrows { B.borrows message.new.octets ≡ B.borrows message.old.octets }
    ensures on { turns.old ≤ turns.new }
    ensures turns { turns.new ≤ turns.old + 17 * (length (labels_of owner.now) + label_count (D.fields rdata.now)) }
    ensures least { OnOk result (turns.old + (length (labels_of owner.now) + label_count (D.fields rdata.now))
        + length message.old.state.octets ≤ turns.new + length message.new.state.octets) }
    ensures begun { message.new.begun ≡ message.old.begun }
{
    let middle = record_middle(rdata.rtype(), class, ttl);
    message.append_name(owner, turns)?;
    message.append_slice(&middle)?;
    append_data(message, rdata, turns)
}

/// Whether `len` octets exceed a limit, if there is one.
pub(super) fn is_past(limit: Option<usize>, len: usize) -> bool
    ensures past { IsTrue result → ExceedsLimit limit len }
    ensures within { ¬ IsTrue result → IsWithin limit len }
{
    match limit {
        Some(most) => len > most,
        None => false,
    }
}

/// Appends a question. An error leaves the message unchanged.
pub(super) fn append_question<
    B: OctetsBuilder + Truncate + AsOctetsMut,
    T: Compressor,
    R: AsOctets + Copy,
>(
    message: &mut Composer<B, T>,
    push_limit: Option<usize>,
    qname: &ParsedName<R>,
    qtype: Rtype,
    qclass: Class,
    turns: &mut Turns,
) -> Result<(), AppendError>
    ensures appended { ChangesMessage (least_limit push_limit (message_limit B.limit))
        ((B.asks ≡ true) ⊎ (T.asks ≡ true)) result
        (with_entry T.most message.old.state (question_entry (pushed_question qname.now qtype qclass)))
        message.old.state message.new.state }
    ensures fits { OnOk result (FitsQuestion (pushed_question qname.now qtype qclass)) }
    ensures borrows { B.borrows message.new.octets ≡ B.borrows message.old.octets }
    ensures on { turns.old ≤ turns.new }
    ensures turns { turns.new ≤ turns.old + 17 * length (labels_of qname.now) }
    ensures least { OnOk result (turns.old + length (labels_of qname.now) + length message.old.state.octets
        ≤ turns.new + length message.new.state.octets) }
{
    message.begin_entry();
    if let Err(error) = compose_question(message, qname, qtype, qclass, turns) {
        message.rollback();
        return Err(error);
    }
    if is_past(push_limit, message.as_slice().len()) {
        message.rollback();
        return Err(AppendError::Short(ShortBuf));
    }
    Ok(())
}

/// Appends a record. An error leaves the message unchanged.
pub(super) fn append_record<
    B: OctetsBuilder + Truncate + AsOctetsMut,
    T: Compressor,
    R: AsOctets + Copy,
    D: ComposeRecordData,
>(
    message: &mut Composer<B, T>,
    push_limit: Option<usize>,
    owner: &ParsedName<R>,
    class: Class,
    ttl: Ttl,
    rdata: &D,
    turns: &mut Turns,
) -> Result<(), AppendError>
    ensures appended { ChangesMessage (least_limit push_limit (message_limit B.limit))
        ((B.asks ≡ true) ⊎ (T.asks ≡ true)) result
        (with_entry T.most message.old.state
        (record_entry (pushed_record owner.now (D.rtype_of rdata.now) class ttl (D.fields rdata.now))))
        message.old.state message.new.state }
    ensures fits { OnOk result
        (FitsRecord (pushed_record owner.now (D.rtype_of rdata.now) class ttl (D.fields rdata.now))) }
    ensures borrows { B.borrows message.new.octets ≡ B.borrows message.old.octets }
    ensures on { turns.old ≤ turns.new }
    ensures turns { turns.new ≤ turns.old + 17 * (length (labels_of owner.now) + label_count (D.fields rdata.now)) }
    ensures least { OnOk result (turns.old + (length (labels_of owner.now) + label_count (D.fields rdata.now))
        + length message.old.state.octets ≤ turns.new + length message.new.state.octets) }
{
    message.begin_entry();
    if let Err(error) = compose_record(message, owner, class, ttl, rdata, turns) {
        message.rollback();
        return Err(error);
    }
    if is_past(push_limit, message.as_slice().len()) {
        message.rollback();
        return Err(AppendError::Short(ShortBuf));
    }
    Ok(())
}
