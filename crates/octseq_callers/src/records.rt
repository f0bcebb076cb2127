//! Records: a key and a value each, one after another.
ghost use Rattle.std.specs.Prelude.{◌≡◌, ℕ, ◌+◌, ◌<◌, ◌++◌, ◌↔◌, true, length, map, List, IsErr, IfOk, OnOk, OnErr};
ghost use Rattle.octseq.specs.Limit.{ExceedsLimit};
ghost use Rattle.octseq.specs.Parser.{sequence, window};
ghost use Rattle.octseq.specs.Refusal.{IsShort, IsMemory, IsTooLong, IsMalformed, compose_error, read_error};
ghost use Rattle.octseq.specs.Window.{left, rest, at};
ghost use Rattle.octseq_callers.specs.Record.{record_of, IsRecord, AreRecords, HasRecord};

use octseq::builder::{OctetsBuilder, Truncate};
use octseq::compose::{ComposeError, append_part_u8, append_u16_be};
use octseq::{Octets, Parser, ReadError};
use std::alloc::Global;

/// A record, read or to be written.
#[derive(Drop)]
pub struct Record<V> {
    /// The key.
    pub key: u16,
    /// The octets of the value.
    pub value: V,
}

/// Appends a record: the key in 2 octets, big-endian, the length of the value in one octet, and the value.
///
/// # Errors
///
/// `TooLong` if the value has more than 255 octets. Otherwise `Short` if the content with the whole record would exceed
/// the limit of its type, or `Memory` if a request for memory was refused. If both apply, it may be either. The content
/// is then unchanged.
pub fn append_record<B: OctetsBuilder + Truncate>(
    builder: &mut B,
    key: u16,
    value: &[u8],
) -> Result<(), ComposeError>
    ensures ok { OnOk result (B.content builder.new ≡ B.content builder.old ++ record_of key value.now) }
    ensures err { OnErr result (B.content builder.new ≡ B.content builder.old) }
    ensures too_long { IsTooLong compose_error result ↔ (255 < length value.now) }
    ensures short { IsShort compose_error result
        → ExceedsLimit B.limit (length (B.content builder.old) + length (record_of key value.now)) }
    ensures past { ExceedsLimit B.limit (length (B.content builder.old) + length (record_of key value.now))
        → IsErr result }
    ensures memory { IsMemory compose_error result → B.asks ≡ true }
    ensures borrows { B.borrows builder.new ≡ B.borrows builder.old }
{
    if value.len() > 255 {
        return Err(ComposeError::TooLong);
    }
    let before = builder.len();
    append_u16_be(builder, key)?;
    let appended = append_part_u8(builder, value);
    if appended.is_err() {
        builder.truncate(before);
    }
    appended
}

/// Reads the next record.
fn next_record<R: Octets>(parser: &mut Parser<R>) -> Result<Record<R::Range>, ReadError>
    ensures fits { IfOk result (λ read. IsRecord (read.key, R.Range.content read.value)) }
    ensures taken { IfOk result (λ read. rest (window parser.old)
        ≡ record_of read.key (R.Range.content read.value) ++ rest (window parser.new)) }
    ensures less { OnOk result (left (window parser.new) < left (window parser.old)) }
    ensures malformed { IsMalformed read_error result → ¬ HasRecord (rest (window parser.old)) }
    ensures memory { IsMemory read_error result → R.Range.asks ≡ true }
    ensures limit { (window parser.new).end ≡ (window parser.old).end }
    ensures same { sequence parser.new ≡ sequence parser.old }
{
    let key = parser.parse_u16_be()?;
    let len = parser.parse_u8()?;
    let value = parser.parse_octets(usize::from(len))?;
    Ok(Record { key, value })
}

/// Reads all that is left as records, one after another, up to the end.
///
/// # Errors
///
/// `Malformed` if the octets aren't records, and `Memory` only if a request for memory was refused.
pub fn take_records<R: Octets>(
    alloc: Global,
    parser: &mut Parser<R>,
) -> Result<Vec<Record<R::Range>>, ReadError>
    ensures ok { IfOk result (λ records. AreRecords (rest (window parser.old))
        (map (λ read. (read.key, R.Range.content read.value)) records.items)) }
    ensures malformed { IsMalformed read_error result
        → (records : List (ℕ × List ℕ)) → ¬ AreRecords (rest (window parser.old)) records }
    ensures end { OnOk result (window parser.new ≡ at (window parser.old).end (window parser.old)) }
    ensures same { sequence parser.new ≡ sequence parser.old }
{
    let mut records = Vec::new(alloc);
    while parser.remaining() > 0 {
        let read = next_record(parser)?;
        if records.push(read).is_err() {
            return Err(ReadError::Memory);
        }
    }
    Ok(records)
}

/// Reads all the octets as records, one after another: each a key in 2 octets, big-endian, and a value with a length of
/// one octet before it.
///
/// # Errors
///
/// `Malformed` if the octets aren't records, and `Memory` only if a request for memory was refused.
pub fn read_records<R: Octets>(alloc: Global, octets: R) -> Result<Vec<Record<R::Range>>, ReadError>
    ensures ok { IfOk result (λ records. AreRecords (R.content octets)
        (map (λ read. (read.key, R.Range.content read.value)) records.items)) }
    ensures malformed { IsMalformed read_error result
        → (records : List (ℕ × List ℕ)) → ¬ AreRecords (R.content octets) records }
{
    take_records(alloc, &mut Parser::from_ref(octets))
}
