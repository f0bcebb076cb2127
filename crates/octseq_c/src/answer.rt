//! Answers to DNS messages: RFC 1035, 4.1.1. The records of an answer are rows that point into octets of the caller.
ghost use Rattle.std.specs.Prelude.{◌≡◌, ◌≢◌, ◌↔◌, ◌⊎◌, ◌+◌, ◌<◌, ◌≤◌, ℕ, None, List, length, map, IsTrue, IsErr};
ghost use Rattle.std.specs.Prelude.{IfOk, OnErr, OnOk};
ghost use Rattle.std.specs.List.{AllByRecursion, AllZip};
ghost use Rattle.octseq_dns.specs.Contents as contents;
ghost use Rattle.octseq_dns.specs.Contents.{message_octets, record_entry};
ghost use Rattle.octseq_dns.specs.Parsed.{header_of, questions_of};
ghost use Rattle.octseq_dns.specs.ReadBack.{bare};
ghost use Rattle.octseq_dns.specs.State.{with_entry};
ghost use Rattle.octseq_dns.specs.Writes.{ComposesMessage, all_more};
ghost use Rattle.octseq_dns_message.specs.declared.header.Header.{Header as Fields};
ghost use Rattle.octseq_c.specs.Made.{CanMoveRow, HasRecordsOf, IsAnswer, IsAnswerHeader, IsAnswerOf, IsRecordAt};
ghost use Rattle.octseq_c.specs.Made.{IsRow};
ghost use Rattle.octseq_c.specs.Made.{in_section, offsets_kept, without_records};
ghost use Rattle.octseq_c.specs.Puts.{Copies, Puts};
ghost use Rattle.octseq_c.specs.Rows.{IsSomeMessage};
ghost use Rattle.octseq_c.specs.Status.{status_ok, status_no_room, status_malformed, status_immovable};
ghost use Rattle.octseq_c.specs.Status.{status_too_long, status_bad_row};

use crate::data::{data_of, octseq_dns_data_is_typed};
use crate::header::header_from;
use crate::message::message_of;
use crate::names::name_at;
use crate::room::put;
use crate::rows::Row;
use crate::status::{BAD_ROW, IMMOVABLE, MALFORMED, TOO_LONG};
use crate::table::{LentTable, Table};
use crate::write::FEW;
use octseq::{AppendError, Array};
use octseq_dns::builder::section::RecordSection;
use octseq_dns::builder::{AdditionalBuilder, AnswerBuilder, MessageBuilder, SectionBuilder};
use octseq_dns::message::MESSAGE_MAX;
use octseq_dns::moved::data_may_have_names;
use octseq_dns::{Class, Flags, Header, Malformed, Message, Rtype, Ttl};

/// Writes the answer to a message to the front of `out`. Its records are the rows, each in its section, in
/// order; the names and the data of the rows are in `source`.
#[unsafe(no_mangle)]
pub extern "C" fn octseq_dns_answer(
    query: &[u8],
    flags: u16,
    source: &[u8],
    rows: &[Row],
    out: &mut [u8],
    written: &mut usize,
) -> u32
    ensures puts { Puts (IsAnswer query.now flags source.now rows.now) result out.old out.new written.new }
    ensures malformed { (result ≡ status_malformed) ↔ ¬ IsSomeMessage query.now }
    ensures bad_row { (result ≡ status_bad_row)
        ↔ (IsSomeMessage query.now × ¬ AllByRecursion (IsRow source.now) rows.now) }
    ensures immovable { (result ≡ status_immovable) ↔ (IsSomeMessage query.now
        × AllByRecursion (IsRow source.now) rows.now × ¬ AllByRecursion (CanMoveRow source.now) rows.now) }
    ensures too_long { result ≡ status_too_long → (length rows.now ≤ 65535) → (made : List ℕ)
        → IsAnswer query.now flags source.now rows.now made → 65535 < length made }
    ensures fits { written.new ≤ 65535 }
    ensures only { (result ≡ status_ok) ⊎ (result ≡ status_no_room) ⊎ (result ≡ status_malformed)
        ⊎ (result ≡ status_bad_row) ⊎ (result ≡ status_immovable) ⊎ (result ≡ status_too_long) }
    ensures kept { result ≢ status_ok → out.new ≡ out.old }
{
    let status = match message_of(query) {
        Ok(_) if !are_rows(source, rows) => BAD_ROW,
        Ok(_) if !can_move_rows(source, rows) => IMMOVABLE,
        Ok(message) => match answer_to(&message, flags, source, rows, out, written) {
            Ok(status) => return status,
            Err(_) => TOO_LONG,
        },
        Err(Malformed) => MALFORMED,
    };
    *written = 0;
    status
}

/// Whether what each row refers to is there.
pub fn are_rows(source: &[u8], rows: &[Row]) -> bool
    ensures { IsTrue result ↔ AllByRecursion (IsRow source.now) rows.now }
{
    for row in rows {
        if !is_row(source, row) {
            return false;
        }
    }
    true
}

/// Whether there is a name at a row's offset, its data is within the octets, and its section is one of records.
fn is_row(source: &[u8], row: &Row) -> bool
    ensures { IsTrue result ↔ IsRow source.now row.now }
{
    let within = row.data_at <= source.len() && row.data_len <= source.len() - row.data_at;
    match name_at(source, row.name_at) {
        Ok(_) => within && row.section >= 1 && row.section <= 3,
        Err(Malformed) => false,
    }
}

/// Whether the data of each row can be moved.
pub fn can_move_rows(source: &[u8], rows: &[Row]) -> bool
    ensures { IsTrue result ↔ AllByRecursion (CanMoveRow source.now) rows.now }
{
    for row in rows {
        if !can_move_row(source, row) {
            return false;
        }
    }
    true
}

/// Whether the data of a row can be moved.
fn can_move_row(source: &[u8], row: &Row) -> bool
    ensures { IsTrue result ↔ CanMoveRow source.now row.now }
{
    let (rtype, class) = (Rtype::from_int(row.rtype), Class::from_int(row.class));
    if row.data_len == 0 || !data_may_have_names(rtype, class) {
        return true;
    }
    octseq_dns_data_is_typed(source, row.data_at, row.data_len, row.rtype, row.class) == 1
}

/// Composes an answer, and writes it to the front of `out`.
pub fn answer_to(
    message: &Message<&[u8]>,
    flags: u16,
    source: &[u8],
    rows: &[Row],
    out: &mut [u8],
    written: &mut usize,
) -> Result<u32, AppendError>
    requires { AllByRecursion (IsRow source.now) rows.now }
    ensures made { IfOk result (λ status. (m : contents.Message)
        × IsAnswerOf (header_of message.now) flags (questions_of message.now) source.now rows.now m
        × (length (message_octets offsets_kept m) ≤ 65535)
        × Copies (message_octets offsets_kept m) status out.old out.new written.new) }
    ensures short { IsErr result → (m : contents.Message)
        → IsAnswerOf (header_of message.now) flags (questions_of message.now) source.now rows.now m
        → (length rows.now ≤ 65535) → 65535 < length (message_octets offsets_kept m) }
    ensures kept { OnErr result (out.new ≡ out.old) }
{
    match answer_within::<FEW>(message, flags, source, rows, out, written) {
        Ok(status) => Ok(status),
        Err(_) => answer_within::<MESSAGE_MAX>(message, flags, source, rows, out, written),
    }
}

/// Composes an answer in room for `N` octets, and writes it to the front of `out`.
#[inline(never)]
fn answer_within<const N: usize>(
    message: &Message<&[u8]>,
    flags: u16,
    source: &[u8],
    rows: &[Row],
    out: &mut [u8],
    written: &mut usize,
) -> Result<u32, AppendError>
    requires rows { AllByRecursion (IsRow source.now) rows.now }
    requires most { N ≤ 65535 }
    requires least { 12 ≤ N }
    ensures made { IfOk result (λ status. (m : contents.Message)
        × IsAnswerOf (header_of message.now) flags (questions_of message.now) source.now rows.now m
        × (length (message_octets offsets_kept m) ≤ N)
        × Copies (message_octets offsets_kept m) status out.old out.new written.new) }
    ensures short { IsErr result → (m : contents.Message)
        → IsAnswerOf (header_of message.now) flags (questions_of message.now) source.now rows.now m
        → (length rows.now ≤ 65535) → N < length (message_octets offsets_kept m) }
    ensures kept { OnErr result (out.new ≡ out.old) }
{
    let mut room = Array::<N>::new();
    let mut targets = Table::new();
    let table = LentTable {
        table: &mut targets,
    };
    match answer(message, flags, source, rows, &mut room, table) {
        Ok(made) => Ok(put(made.as_slice(), out, written)),
        Err(error) => Err(error),
    }
}

/// Composes an answer in `room`. (The builder holds the room and the table by reference, so its stages move pointers
/// rather than them.)
fn answer<'a, const N: usize>(
    message: &Message<&[u8]>,
    flags: u16,
    source: &[u8],
    rows: &[Row],
    room: &'a mut Array<N>,
    table: LentTable<'a>,
) -> Result<&'a mut Array<N>, AppendError>
    requires rows { AllByRecursion (IsRow source.now) rows.now }
    requires most { N ≤ 65535 }
    requires least { 12 ≤ N }
    ensures made { IfOk result (λ made. (m : contents.Message)
        × IsAnswerOf (header_of message.now) flags (questions_of message.now) source.now rows.now m
        × (made.now.content ≡ message_octets offsets_kept m)) }
    ensures short { IsErr result → (m : contents.Message)
        → IsAnswerOf (header_of message.now) flags (questions_of message.now) source.now rows.now m
        → (length rows.now ≤ 65535) → N < length (message_octets offsets_kept m) }
{
    let begun = begin_answer(message, flags, room, table)?;
    let whole = push_sections(begun, source, rows)?;
    Ok(whole.finish().0)
}

/// Begins an answer with its header and its questions.
fn begin_answer<'a, const N: usize>(
    message: &Message<&[u8]>,
    flags: u16,
    room: &'a mut Array<N>,
    table: LentTable<'a>,
) -> Result<AnswerBuilder<&'a mut Array<N>, LentTable<'a>>, AppendError>
    requires most { N ≤ 65535 }
    requires least { 12 ≤ N }
    ensures header { OnOk result ((header : Fields) × IsAnswerHeader (header_of message.now) flags header) }
    ensures written { IfOk result (λ b. (m : contents.Message)
        → IsAnswerHeader (header_of message.now) flags m.header → m.questions ≡ map bare (questions_of message.now)
        → ComposesMessage offsets_kept (without_records m) b.state b.header b.counts) }
    ensures unlimited { IfOk result (λ b. b.push_limit ≡ None) }
    ensures short { IsErr result → (m : contents.Message)
        → m.questions ≡ map bare (questions_of message.now) → N < length (message_octets offsets_kept m) }
{
    let header = answer_header(&message.header(), flags);
    let begun = MessageBuilder::from_builder(room, table)?;
    let mut answers = begun.start_answer(message, header.rcode)?;
    answers.set_header(header);
    Ok(answers)
}

/// Returns the header of an answer.
fn answer_header(asked: &Header, flags: u16) -> Header
    ensures { IsAnswerHeader asked.now flags result }
{
    let header = header_from(asked.id, flags);
    Header {
        id: asked.id,
        flags: Flags {
            qr: true,
            rd: asked.flags.rd,
            ..header.flags
        },
        opcode: asked.opcode,
        rcode: header.rcode,
    }
}

/// Pushes the records of rows, each to its section.
fn push_sections<'a, const N: usize>(
    answers: AnswerBuilder<&'a mut Array<N>, LentTable<'a>>,
    source: &[u8],
    rows: &[Row],
) -> Result<AdditionalBuilder<&'a mut Array<N>, LentTable<'a>>, AppendError>
    requires rows { AllByRecursion (IsRow source.now) rows.now }
    requires most { N ≤ 65535 }
    requires unlimited { answers.push_limit ≡ None }
    ensures records { OnOk result ((m : contents.Message) × HasRecordsOf source.now rows.now m) }
    ensures written { IfOk result (λ b. (m : contents.Message) → HasRecordsOf source.now rows.now m
        → ComposesMessage offsets_kept (without_records m) answers.entry.state answers.entry.header answers.entry.counts
        → ComposesMessage offsets_kept m b.state b.header b.counts) }
    ensures short { IsErr result → (m : contents.Message) → HasRecordsOf source.now rows.now m
        → ComposesMessage offsets_kept (without_records m) answers.entry.state answers.entry.header answers.entry.counts
        → (length rows.now ≤ 65535) → N < length (message_octets offsets_kept m) }
{
    let answered = push_rows(answers, source, rows, 1)?;
    let authorized = push_rows(answered.authority(), source, rows, 2)?;
    push_rows(authorized.additional(), source, rows, 3)
}

/// Pushes the records of the rows of a section.
fn push_rows<'a, const N: usize, S: RecordSection>(
    builder: SectionBuilder<&'a mut Array<N>, LentTable<'a>, S>,
    source: &[u8],
    rows: &[Row],
    section: u32,
) -> Result<SectionBuilder<&'a mut Array<N>, LentTable<'a>, S>, AppendError>
    requires rows { AllByRecursion (IsRow source.now) rows.now }
    requires most { N ≤ 65535 }
    requires unlimited { builder.push_limit ≡ None }
    ensures records { OnOk result ((written : List contents.Record)
        × AllZip (IsRecordAt source.now) (in_section section rows.now) written) }
    ensures written { IfOk result (λ b. (m : contents.Message) (written : List contents.Record)
        → ComposesMessage offsets_kept m builder.entry.state builder.entry.header builder.entry.counts
        → AllZip (IsRecordAt source.now) (in_section section rows.now) written
        → ComposesMessage offsets_kept (all_more S.more m written) b.state b.header b.counts) }
    ensures unlimited { IfOk result (λ b. b.push_limit ≡ None) }
    ensures short { IsErr result → (m : contents.Message) (written : List contents.Record)
        → ComposesMessage offsets_kept m builder.entry.state builder.entry.header builder.entry.counts
        → AllZip (IsRecordAt source.now) (in_section section rows.now) written
        → (S.count builder.entry.counts + length rows.now ≤ 65535)
        → N < length (message_octets offsets_kept (all_more S.more m written)) }
{
    let mut message = builder;
    for row in rows {
        if row.section != section {
            continue;
        }
        push_row(&mut message, source, row)?;
    }
    Ok(message)
}

/// Pushes the record of a row.
fn push_row<const N: usize, S: RecordSection>(
    message: &mut SectionBuilder<&mut Array<N>, LentTable<'_>, S>,
    source: &[u8],
    row: &Row,
) -> Result<(), AppendError>
    requires row { IsRow source.now row.now }
    requires most { N ≤ 65535 }
    requires unlimited { message.old.push_limit ≡ None }
    ensures pushed { (one : contents.Record) × IsRecordAt source.now row.now one
        × OnOk result ((m : contents.Message)
        → ComposesMessage offsets_kept m message.old.state message.old.header message.old.counts
        → ComposesMessage offsets_kept (S.more m one) message.new.state message.new.header message.new.counts)
        × (IsErr result → (N < length (with_entry offsets_kept message.old.state (record_entry one)).octets)
        ⊎ (65535 ≤ S.count message.old.counts)) }
    ensures counts { OnOk result (S.count message.new.counts ≡ S.count message.old.counts + 1) }
    ensures reaches { S.reaches message.old.counts }
    ensures unlimited { message.new.push_limit ≡ None }
{
    let Ok(owner) = name_at(source, row.name_at) else {
        unreachable!();
    };
    let Some(found) = data_of(source, row.data_at, row.data_len, row.rtype, row.class) else {
        unreachable!();
    };
    let (class, ttl) = (Class::from_int(row.class), Ttl::from_secs(row.ttl));
    message.push_record(&owner, class, ttl, &found)
}
