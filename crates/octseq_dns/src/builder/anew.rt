//! Rewriting the entries of a message, one after another.
ghost use Rattle.std.specs.Prelude.{◌≡◌, ◌≤◌, ◌+◌, ◌*◌, ◌⊎◌, List, length, map, true, IfOk, OnOk};
ghost use Rattle.std.specs.List.{AllZip, sum_by};
ghost use Rattle.octseq.specs.Limit.{ExceedsLimit, IsWithin};
ghost use Rattle.octseq.specs.Refusal.{IsShort, IsMemory, IsMalformed, append_error};
ghost use Rattle.octseq_dns_compress.specs.Composed.{message_limit};
ghost use Rattle.octseq_dns_compress.specs.State.{with_entries};
ghost use Rattle.octseq_dns_message.specs.Parsed.{questions_of, records_of};
ghost use Rattle.octseq_dns.specs.Appended.{Appended};
ghost use Rattle.octseq_dns.specs.Contents.{Message as Contents, Question as Asked, Record as Written};
ghost use Rattle.octseq_dns.specs.Contents.{FitsHeader, FitsQuestion, FitsRecord, with_only_header, message_octets};
ghost use Rattle.octseq_dns.specs.Contents.{question_entry, record_entry};
ghost use Rattle.octseq_dns.specs.Labels.{labels_in, question_labels, record_labels};
ghost use Rattle.octseq_dns.specs.Moved.{CanMove};
ghost use Rattle.octseq_dns.specs.Rewritten.{IsContentsOf, IsQuestionOf, IsRecordOf, IsRewritten, any_opt};
ghost use Rattle.octseq_dns.specs.Rewritten.{rewrite_error};

use crate::builder::entry::{compose_question, compose_record};
use crate::builder::header::octets_of;
use crate::builder::{AdditionalBuilder, SectionBuilder};
use crate::moved::is_movable;
use crate::rewriting::RewriteError;
use octseq::builder::AsOctetsMut;
use octseq::{AppendError, AsOctets, OctetsBuilder, Truncate, Turns};
use octseq_dns_compress::{Composer, Compressor};
use octseq_dns_data::Rtype;
use octseq_dns_message::{Header, HeaderCounts, Message};
use std::marker::PhantomData;

/// Begins a message with this header and the counts of the entries that will follow.
fn begin<B: OctetsBuilder + Truncate + AsOctetsMut, T: Compressor>(
    octets: B,
    table: T,
    header: &Header,
    counts: &HeaderCounts,
) -> Result<Composer<B, T>, AppendError>
    ensures state { IfOk result (λ c. c.state ≡ with_only_header header.now counts.now) }
    ensures within { IfOk result (λ c. IsWithin (message_limit B.limit) (length c.state.octets)) }
    ensures fits { FitsHeader header.now }
    ensures short { IsShort append_error result → ExceedsLimit (message_limit B.limit) 12 }
    ensures memory { IsMemory append_error result → B.asks ≡ true }
    ensures borrows { IfOk result (λ c. B.borrows c.octets ≡ B.borrows octets) }
{
    let header = octets_of(header, counts);
    let mut message = Composer::from_builder(octets, table)?;
    message.put_header(&header);
    Ok(message)
}

/// Appends the questions of a message.
pub(super) fn append_questions<
    B: OctetsBuilder + Truncate + AsOctetsMut,
    T: Compressor,
    R: AsOctets + Copy,
>(message: &mut Composer<B, T>, source: &Message<R>, turns: &mut Turns) -> Result<(), AppendError>
    ensures appended { OnOk result (Appended IsQuestionOf question_entry question_labels FitsQuestion T.most
        (questions_of source.now) message.old.state message.new.state turns.old turns.new) }
    ensures within { OnOk result (IsWithin (message_limit B.limit) (length message.old.state.octets)
        → IsWithin (message_limit B.limit) (length message.new.state.octets)) }
    ensures short { IsShort append_error result → (written : List Asked)
        → AllZip IsQuestionOf (questions_of source.now) written → ExceedsLimit (message_limit B.limit)
        (length (with_entries T.most message.old.state (map question_entry written)).octets) }
    ensures memory { IsMemory append_error result → (B.asks ≡ true) ⊎ (T.asks ≡ true) }
    ensures borrows { B.borrows message.new.octets ≡ B.borrows message.old.octets }
    ensures on { turns.old ≤ turns.new }
    ensures turns { (written : List Asked) → AllZip IsQuestionOf (questions_of source.now) written
        → turns.new ≤ turns.old + 17 * sum_by question_labels written }
{
    for question in source.questions() {
        let (qtype, qclass) = (question.qtype(), question.qclass());
        compose_question(message, &question.qname(), qtype, qclass, turns)?;
    }
    Ok(())
}

/// Appends the records of a message, each with its parsed data, up to the first that can't be moved. Returns whether
/// one of them is an OPT record.
fn append_records<B: OctetsBuilder + Truncate + AsOctetsMut, T: Compressor, R: AsOctets + Copy>(
    message: &mut Composer<B, T>,
    source: &Message<R>,
    turns: &mut Turns,
) -> Result<bool, RewriteError>
    ensures appended { OnOk result (Appended IsRecordOf record_entry record_labels FitsRecord T.most
        (records_of source.now) message.old.state message.new.state turns.old turns.new) }
    ensures within { OnOk result (IsWithin (message_limit B.limit) (length message.old.state.octets)
        → IsWithin (message_limit B.limit) (length message.new.state.octets)) }
    ensures movable { OnOk result (CanMove (records_of source.now)) }
    ensures opt { IfOk result (λ has_opt. has_opt ≡ any_opt (records_of source.now)) }
    ensures immovable { IsMalformed rewrite_error result → ¬ CanMove (records_of source.now) }
    ensures short { IsShort rewrite_error result → (written : List Written)
        → AllZip IsRecordOf (records_of source.now) written → ExceedsLimit (message_limit B.limit)
        (length (with_entries T.most message.old.state (map record_entry written)).octets) }
    ensures memory { IsMemory rewrite_error result → (B.asks ≡ true) ⊎ (T.asks ≡ true) }
    ensures borrows { B.borrows message.new.octets ≡ B.borrows message.old.octets }
    ensures on { turns.old ≤ turns.new }
    ensures turns { (written : List Written) → AllZip IsRecordOf (records_of source.now) written
        → turns.new ≤ turns.old + 17 * sum_by record_labels written }
{
    let mut has_opt = false;
    for listed in source.records() {
        let entry = listed.0;
        let data = entry.data();
        let (class, ttl) = (entry.class(), entry.ttl());
        if !is_movable(&entry, &data) {
            return Err(RewriteError::Immovable);
        }
        has_opt = has_opt | (entry.rtype() == Rtype::OPT);
        compose_record(message, &entry.owner(), class, ttl, &data, turns)?;
    }
    Ok(has_opt)
}

/// Rewrites a message, up to the first record that can't be moved.
pub(crate) fn compose_anew<
    B: OctetsBuilder + Truncate + AsOctetsMut,
    T: Compressor,
    R: AsOctets + Copy,
>(
    source: &Message<R>,
    octets: B,
    table: T,
    turns: &mut Turns,
) -> Result<AdditionalBuilder<B, T>, RewriteError>
    ensures rewritten { IfOk result (λ b. IsRewritten T.most (message_limit B.limit) source.now b) }
    ensures movable { OnOk result (CanMove (records_of source.now)) }
    ensures immovable { IsMalformed rewrite_error result → ¬ CanMove (records_of source.now) }
    ensures short { IsShort rewrite_error result → (m : Contents) → IsContentsOf source.now m
        → ExceedsLimit (message_limit B.limit) (length (message_octets T.most m)) }
    ensures memory { IsMemory rewrite_error result → (B.asks ≡ true) ⊎ (T.asks ≡ true) }
    ensures borrows { IfOk result (λ b. B.borrows b.octets ≡ B.borrows octets) }
    ensures on { turns.old ≤ turns.new }
    ensures turns { (m : Contents) → IsContentsOf source.now m → turns.new ≤ turns.old + 17 * labels_in m }
    ensures least { IfOk result (λ b. (m : Contents) → IsContentsOf source.now m
        → turns.old + labels_in m ≤ turns.new + length b.state.octets) }
{
    let (header, counts) = (source.header(), source.header_counts());
    let mut message = begin(octets, table, &header, &counts)?;
    append_questions(&mut message, source, turns)?;
    let has_opt = append_records(&mut message, source, turns)?;
    Ok(SectionBuilder {
        message,
        header,
        counts,
        push_limit: None,
        has_opt,
        section: PhantomData,
    })
}
