//! Answers within a limit: RFC 2181, 9. An answer that exceeds it has fewer records, and the flag TC.
ghost use Rattle.std.specs.Prelude.{◌≡◌, ◌≢◌, ◌↔◌, ◌⊎◌, ◌+◌, ◌<◌, ◌≤◌, ℕ, length, IfSome, IfNone, IsTrue};
ghost use Rattle.std.specs.List.{AllByRecursion};
ghost use Rattle.octseq_dns.specs.Contents as contents;
ghost use Rattle.octseq_dns.specs.Contents.{message_octets};
ghost use Rattle.octseq_dns.specs.Parsed.{header_of, questions_of};
ghost use Rattle.octseq_c.specs.Made.{CanMoveRow, IsRow, offsets_kept};
ghost use Rattle.octseq_c.specs.Puts.{Copies, Puts};
ghost use Rattle.octseq_c.specs.Rows.{IsSomeMessage};
ghost use Rattle.octseq_c.specs.Status.{status_ok, status_no_room, status_malformed, status_immovable};
ghost use Rattle.octseq_c.specs.Status.{status_too_long, status_bad_row};
ghost use Rattle.octseq_c.specs.Within.{FitsUpTo, IsAnswerUpTo, IsAnswerWithin, IsPastUpTo, IsTooLongWithin};
ghost use Rattle.octseq_c.specs.Within.{KeepsUpTo, answer_flags};

use crate::answer::{answer_to, are_rows, can_move_rows};
use crate::message::message_of;
use crate::rows::Row;
use crate::status::{BAD_ROW, IMMOVABLE, MALFORMED, TOO_LONG};
use octseq_dns::{Malformed, Message};

/// Writes the answer to a message to the front of `out`, with the records of the rows that come before the first with
/// which it would exceed `limit` octets. It has the flag TC exactly if it lacks one.
#[unsafe(no_mangle)]
pub extern "C" fn octseq_dns_answer_within(
    query: &[u8],
    flags: u16,
    source: &[u8],
    rows: &[Row],
    limit: u16,
    out: &mut [u8],
    written: &mut usize,
) -> u32
    ensures puts { Puts (IsAnswerWithin query.now flags source.now rows.now limit) result out.old out.new written.new }
    ensures malformed { (result ≡ status_malformed) ↔ ¬ IsSomeMessage query.now }
    ensures bad_row { (result ≡ status_bad_row)
        ↔ (IsSomeMessage query.now × ¬ AllByRecursion (IsRow source.now) rows.now) }
    ensures immovable { (result ≡ status_immovable) ↔ (IsSomeMessage query.now
        × AllByRecursion (IsRow source.now) rows.now × ¬ AllByRecursion (CanMoveRow source.now) rows.now) }
    ensures too_long { result ≡ status_too_long → IsTooLongWithin query.now flags source.now rows.now limit }
    ensures many { 65535 < length rows.now → (result ≢ status_ok) × (result ≢ status_no_room) }
    ensures fits { written.new ≤ limit }
    ensures only { (result ≡ status_ok) ⊎ (result ≡ status_no_room) ⊎ (result ≡ status_malformed)
        ⊎ (result ≡ status_bad_row) ⊎ (result ≡ status_immovable) ⊎ (result ≡ status_too_long) }
    ensures kept { result ≢ status_ok → out.new ≡ out.old }
{
    let status = match message_of(query) {
        Ok(_) if !are_rows(source, rows) => BAD_ROW,
        Ok(_) if !can_move_rows(source, rows) => IMMOVABLE,
        Ok(message) => match rows_kept(&message, flags, source, rows, limit) {
            Some(kept) => {
                return answer_kept(&message, flags, source, rows, kept, limit, out, written);
            }
            None => TOO_LONG,
        },
        Err(Malformed) => MALFORMED,
    };
    *written = 0;
    status
}

/// Writes the answer with the records of the first rows.
fn answer_kept(
    message: &Message<&[u8]>,
    flags: u16,
    source: &[u8],
    rows: &[Row],
    kept: usize,
    limit: u16,
    out: &mut [u8],
    written: &mut usize,
) -> u32
    requires rows { AllByRecursion (IsRow source.now) rows.now }
    requires few { length rows.now ≤ 65535 }
    requires within { kept ≤ length rows.now }
    requires fits { FitsUpTo (header_of message.now) flags (questions_of message.now) source.now rows.now limit kept }
    ensures { (m : contents.Message)
        × IsAnswerUpTo (header_of message.now) flags (questions_of message.now) source.now rows.now kept m
        × (length (message_octets offsets_kept m) ≤ limit)
        × Copies (message_octets offsets_kept m) result out.old out.new written.new }
{
    let flags = flags_for(kept, rows.len(), flags);
    match answer_to(message, flags, source, &rows[..kept], out, written) {
        Ok(status) => status,
        Err(_) => unreachable!(),
    }
}

/// Returns how many rows are kept, or `None` if there are more than 65,535 or the questions alone exceed the limit.
fn rows_kept(
    message: &Message<&[u8]>,
    flags: u16,
    source: &[u8],
    rows: &[Row],
    limit: u16,
) -> Option<usize>
    requires { AllByRecursion (IsRow source.now) rows.now }
    ensures keeps { IfSome result (λ kept.
        KeepsUpTo (header_of message.now) flags (questions_of message.now) source.now rows.now limit kept) }
    ensures few { IfSome result (λ kept. (kept ≤ length rows.now) × (length rows.now ≤ 65535)) }
    ensures none { IfNone result ((65535 < length rows.now)
        ⊎ IsPastUpTo (header_of message.now) flags (questions_of message.now) source.now rows.now limit 0) }
{
    if rows.len() > 65535 {
        return None;
    }
    if fits(message, flags, source, rows, rows.len(), limit) {
        return Some(rows.len());
    }
    let first = first_past(message, flags, source, rows, limit);
    if first == 0 {
        return None;
    }
    Some(first - 1)
}

/// Returns the least number of rows with whose records the answer exceeds the limit, if it is less than all.
fn first_past(
    message: &Message<&[u8]>,
    flags: u16,
    source: &[u8],
    rows: &[Row],
    limit: u16,
) -> usize
    requires rows { AllByRecursion (IsRow source.now) rows.now }
    requires few { length rows.now ≤ 65535 }
    ensures most { result ≤ length rows.now }
    ensures fit { (other : ℕ) → other < result
        → FitsUpTo (header_of message.now) flags (questions_of message.now) source.now rows.now limit other }
    ensures past { result < length rows.now
        → IsPastUpTo (header_of message.now) flags (questions_of message.now) source.now rows.now limit result }
{
    for count in 0..rows.len() {
        if !fits(message, flags, source, rows, count, limit) {
            return count;
        }
    }
    rows.len()
}

/// Whether the answer with the records of the first rows has no more octets than the limit.
#[tactic(auto, using(crate::proofs::AnswersWithin::fits_measured, crate::proofs::AnswersWithin::past_refused))]
fn fits(
    message: &Message<&[u8]>,
    flags: u16,
    source: &[u8],
    rows: &[Row],
    count: usize,
    limit: u16,
) -> bool
    requires rows { AllByRecursion (IsRow source.now) rows.now }
    requires few { length rows.now ≤ 65535 }
    requires within { count ≤ length rows.now }
    ensures fits { IsTrue result
        → FitsUpTo (header_of message.now) flags (questions_of message.now) source.now rows.now limit count }
    ensures past { ¬ IsTrue result
        → IsPastUpTo (header_of message.now) flags (questions_of message.now) source.now rows.now limit count }
{
    let flags = flags_for(count, rows.len(), flags);
    let mut len = 0;
    let most = usize::from(limit);
    match answer_to(message, flags, source, &rows[..count], &mut [], &mut len) {
        Ok(_) if len > most => false,
        Ok(_) => true,
        Err(_) => false,
    }
}

/// Returns the flags of an answer with `count` of `all` records.
fn flags_for(count: usize, all: usize, flags: u16) -> u16
    ensures { result ≡ answer_flags count all flags }
{
    let whole = flags / 1024 * 1024 + flags % 512;
    if count == all { whole } else { whole + 512 }
}
