//! Messages, composed of their text.
ghost use Rattle.std.specs.Prelude.{◌≡◌, ◌⊎◌, ℕ, List, None, true, codes, length, IfOk, OnOk, IsErrOf};
ghost use Rattle.octseq.specs.Limit.{ExceedsLimit, IsWithin};
ghost use Rattle.octseq.specs.Refusal.{IsMemory, IsShort, append_error};
ghost use Rattle.octseq_dns.specs.Blank.{blank_message};
ghost use Rattle.octseq_dns.specs.Contents.{Message, Record};
ghost use Rattle.octseq_dns.specs.Writes.{ComposesMessage, least_limit, more_questions};
ghost use Rattle.octseq_dns_compress.specs.Composed.{message_limit};
ghost use Rattle.octseq_dns_compose.specs.MessageText.{IsAnyText, IsTextOfMessage, IsQuestionLine, IsRecordLine};
ghost use Rattle.octseq_dns_compose.specs.MessageText.{IsRecordOfLine};
ghost use Rattle.octseq_dns_compose.specs.Progress.{ExceedsNext, HasPushed, IsAsked, IsSmallRecord, PushedUpTo};
ghost use Rattle.octseq_dns_compose.specs.QuestionText.{IsAnyQuestion};
ghost use Rattle.octseq_dns_compose.specs.Read.{head_of};
ghost use Rattle.octseq_dns_compose.specs.RecordText.{IsAnyRecord};
ghost use Rattle.octseq_dns_compose.specs.TextLines.{IsFaultyLine, IsLineFault, IsLongLine, IsNoneOf};
ghost use Rattle.octseq_dns_compose.specs.TooLong.{Exceeds, HasListLine, IsListLine, IsMessageTooLong};

use crate::alone::data_of;
use crate::entry::{Lines, next_header, next_question, next_record};
use crate::error::{ComposeError, Place};
use crate::record::RecordHead;
use octseq::builder::AsOctetsMut;
use octseq::{AppendError, Array, OctetsBuilder, Truncate};
use octseq_dns::builder::section::RecordSection;
use octseq_dns::{AdditionalBuilder, Compressor, MessageBuilder, QuestionBuilder, SectionBuilder};
use std::alloc::Global;

/// A text that is refused as malformed is that of no message.
///
/// It does nothing. Calling it brings the law into the caller's proof.
pub fn a_refused_text_is_no_message()
    ensures { (text : List ℕ) (first number offset : ℕ) (m : Message)
        → IsLineFault IsAnyText text first number offset → ¬ IsTextOfMessage text m }
{}

/// Composes the message of a text, in place of what a builder and a table hold. The text has a line for the header, as
/// `id 4660 opcode 0 rcode 0 flags QR AA RD`; one for each question, as `question example.com. IN A`; and one for each
/// record after the word for its section, as `answer example.com. 300 IN A 1.2.3.4`, section by section. A line feed
/// ends each. Names are compressed with the table.
///
/// # Errors
///
/// The text is read line by line, and the first fault decides: `Malformed` with the place of the first word that isn't
/// what has to come there, `Short` if the message would exceed the limit of the builder's type or 65,535 octets or data
/// has more, `Memory` if a request for memory was refused. The builder and the table make such requests, and data that
/// ends in a list of types or of parameters does. The builder and the table are then dropped.
pub fn compose_text<B: OctetsBuilder + Truncate + AsOctetsMut, T: Compressor>(
    alloc: Global,
    text: &[u8],
    octets: B,
    table: T,
) -> Result<AdditionalBuilder<B, T>, ComposeError>
    ensures ok { IfOk result (λ b. (m : Message) × IsTextOfMessage text.now m
        × ComposesMessage T.most m b.state b.header b.counts) }
    ensures within { IfOk result (λ b. IsWithin (message_limit B.limit) (length b.state.octets)) }
    ensures malformed { (place : Place) → IsErrOf result (ComposeError.Malformed place)
        → IsLineFault IsAnyText text.now 1 place.line place.offset }
    ensures first { (place : Place) → IsErrOf result (ComposeError.Malformed place)
        → ¬ IsMessageTooLong T.most (message_limit B.limit) text.now }
    ensures not_long { OnOk result (¬ IsMessageTooLong T.most (message_limit B.limit) text.now) }
    ensures short { IsErrOf result ComposeError.Short → IsMessageTooLong T.most (message_limit B.limit) text.now }
    ensures memory { IsErrOf result ComposeError.Memory
        → (B.asks ≡ true) ⊎ (T.asks ≡ true) ⊎ HasListLine text.now }
    ensures borrows { IfOk result (λ b. B.borrows b.octets ≡ B.borrows octets) }
{
    let mut lines = Lines::new(text);
    let header = next_header(&mut lines)?;
    let mut message = started(octets, table)?;
    message.set_header(header);
    let mut questions = message.question();
    push_questions(&mut lines, &mut questions)?;
    let mut data = Array::<65535>::new();
    let mut answers = questions.answer();
    push_records(alloc, &mut lines, b"answer", &mut answers, &mut data)?;
    let mut authorities = answers.authority();
    push_records(alloc, &mut lines, b"authority", &mut authorities, &mut data)?;
    let mut additionals = authorities.additional();
    push_records(
        alloc,
        &mut lines,
        b"additional",
        &mut additionals,
        &mut data,
    )?;
    if !lines.ahead.is_empty() {
        return Err(lines.malformed(0));
    }
    Ok(additionals)
}

/// Starts a message.
fn started<B: OctetsBuilder + Truncate + AsOctetsMut, T: Compressor>(
    octets: B,
    table: T,
) -> Result<MessageBuilder<B, T>, ComposeError>
    ensures written { IfOk result (λ m. ComposesMessage T.most blank_message m.state m.header m.counts) }
    ensures within { IfOk result (λ m. IsWithin (message_limit B.limit) (length m.state.octets)) }
    ensures other { (place : Place) → ¬ IsErrOf result (ComposeError.Malformed place) }
    ensures push_limit { IfOk result (λ m. m.push_limit ≡ None) }
    ensures short { IsErrOf result ComposeError.Short → ExceedsLimit B.limit 12 }
    ensures memory { IsErrOf result ComposeError.Memory → B.asks ≡ true }
    ensures borrows { IfOk result (λ m. B.borrows m.octets ≡ B.borrows octets) }
{
    match MessageBuilder::from_builder(octets, table) {
        Ok(message) => Ok(message),
        Err(AppendError::Short(_)) => Err(ComposeError::Short),
        Err(AppendError::Memory) => Err(ComposeError::Memory),
    }
}

/// Pushes the questions of the lines that come next.
fn push_questions<B: OctetsBuilder + Truncate + AsOctetsMut, T: Compressor>(
    lines: &mut Lines,
    message: &mut QuestionBuilder<B, T>,
) -> Result<(), ComposeError>
    ensures ok { OnOk result (HasPushed IsQuestionLine IsAsked T.most (message_limit B.limit) more_questions
        lines.old.ahead.now lines.new.ahead.now lines.old.number lines.new.number message.old message.new
        × IsNoneOf (codes "question") lines.new.ahead.now) }
    ensures malformed { (place : Place) → IsErrOf result (ComposeError.Malformed place)
        → PushedUpTo IsQuestionLine IsAsked T.most (message_limit B.limit) more_questions
        lines.old.ahead.now lines.old.number message.old (λ ahead now after. (place.line ≡ now)
        × IsFaultyLine (codes "question") IsAnyQuestion ahead place.offset) }
    ensures short { IsErrOf result ComposeError.Short
        → PushedUpTo IsQuestionLine IsAsked T.most (message_limit B.limit) more_questions
        lines.old.ahead.now lines.old.number message.old (λ ahead now after.
        ExceedsNext IsQuestionLine IsAsked T.most (least_limit after.push_limit (message_limit B.limit))
        (λ counts. counts.qdcount) more_questions ahead after) }
    ensures memory { IsErrOf result ComposeError.Memory → (B.asks ≡ true) ⊎ (T.asks ≡ true) }
    ensures borrows { B.borrows message.new.octets ≡ B.borrows message.old.octets }
{
    'lines: loop {
        let next = match next_question(lines) {
            Ok(next) => next,
            Err(error) => return Err(error),
        };
        let Some(question) = next else {
            return Ok(());
        };
        let qname = question.qname.parsed();
        match message.push_question(&qname, question.qtype, question.qclass) {
            Ok(()) => {}
            Err(AppendError::Short(_)) => return Err(ComposeError::Short),
            Err(AppendError::Memory) => return Err(ComposeError::Memory),
        }
    }
}

/// Pushes the records of the lines that come next and begin with the word for a section.
fn push_records<
    B: OctetsBuilder + Truncate + AsOctetsMut,
    T: Compressor,
    S: RecordSection,
    D: OctetsBuilder + Truncate,
>(
    alloc: Global,
    lines: &mut Lines,
    section: &[u8],
    message: &mut SectionBuilder<B, T, S>,
    target: &mut D,
) -> Result<(), ComposeError>
    ensures ok { OnOk result (HasPushed (IsRecordLine section.now) (IsSmallRecord D.limit) T.most
        (message_limit B.limit) S.more lines.old.ahead.now lines.new.ahead.now lines.old.number lines.new.number
        message.old message.new × IsNoneOf section.now lines.new.ahead.now) }
    ensures malformed { (place : Place) → IsErrOf result (ComposeError.Malformed place)
        → PushedUpTo (IsRecordLine section.now) (IsSmallRecord D.limit) T.most (message_limit B.limit) S.more
        lines.old.ahead.now lines.old.number message.old (λ ahead now after. (place.line ≡ now)
        × IsFaultyLine section.now (IsAnyRecord None) ahead place.offset
        × ¬ IsLongLine section.now (IsAnyRecord None) D.limit ahead) }
    ensures short { IsErrOf result ComposeError.Short
        → PushedUpTo (IsRecordLine section.now) (IsSmallRecord D.limit) T.most (message_limit B.limit) S.more
        lines.old.ahead.now lines.old.number message.old (λ ahead now after.
        ExceedsNext (IsRecordLine section.now) (IsSmallRecord D.limit) T.most
        (least_limit after.push_limit (message_limit B.limit)) S.count S.more ahead after
        ⊎ IsLongLine section.now (IsAnyRecord None) D.limit ahead) }
    ensures memory { IsErrOf result ComposeError.Memory → (B.asks ≡ true) ⊎ (T.asks ≡ true) ⊎ (D.asks ≡ true)
        ⊎ PushedUpTo (IsRecordLine section.now) (IsSmallRecord D.limit) T.most (message_limit B.limit) S.more
        lines.old.ahead.now lines.old.number message.old (λ ahead now after. IsListLine section.now ahead) }
    ensures borrows { B.borrows message.new.octets ≡ B.borrows message.old.octets }
{
    'lines: loop {
        let next = match next_record(alloc, lines, section, target) {
            Ok(next) => next,
            Err(error) => return Err(error),
        };
        let Some(head) = next else {
            return Ok(());
        };
        match push_record(message, &head, target.as_ref()) {
            Ok(()) => {}
            Err(AppendError::Short(_)) => return Err(ComposeError::Short),
            Err(AppendError::Memory) => return Err(ComposeError::Memory),
        }
    }
}

/// Pushes a record with data of these octets.
fn push_record<B: OctetsBuilder + Truncate + AsOctetsMut, T: Compressor, S: RecordSection>(
    message: &mut SectionBuilder<B, T, S>,
    head: &RecordHead,
    octets: &[u8],
) -> Result<(), AppendError>
    ensures written { OnOk result ((r : Record)
        × IsRecordOfLine (record { head = head_of head.now; octets = octets.now }) r
        × ((m : Message) → ComposesMessage T.most m message.old.state message.old.header message.old.counts
        → ComposesMessage T.most (S.more m r) message.new.state message.new.header message.new.counts)) }
    ensures within { OnOk result (IsWithin (message_limit B.limit) (length message.new.state.octets)) }
    ensures short { IsShort append_error result → (r : Record)
        × IsRecordOfLine (record { head = head_of head.now; octets = octets.now }) r
        × ((m : Message) → ComposesMessage T.most m message.old.state message.old.header message.old.counts
        → Exceeds T.most (least_limit message.old.push_limit (message_limit B.limit)) S.count (S.more m r)) }
    ensures memory { IsMemory append_error result → (B.asks ≡ true) ⊎ (T.asks ≡ true) }
    ensures push_limit { message.new.push_limit ≡ message.old.push_limit }
    ensures borrows { B.borrows message.new.octets ≡ B.borrows message.old.octets }
{
    let said = data_of(octets, head.rtype, head.class);
    let owner = head.owner.parsed();
    message.push_record(&owner, head.class, head.ttl, &said)
}
