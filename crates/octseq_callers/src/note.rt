//! A small message, written and read in a program whose errors are `anyhow`'s.
ghost use Rattle.std.specs.Prelude.{◌≡◌, ◌+◌, ◌<◌, ◌≤◌, ◌++◌, ◌↔◌, length, take, IsOk, IsErr, IfOk, OnOk, OnErr};
ghost use Rattle.octseq.specs.Limit.{ExceedsLimit};
ghost use Rattle.octseq.specs.Parser.{sequence, window};
ghost use Rattle.octseq.specs.Refusal.{IsMalformed, read_error};
ghost use Rattle.octseq.specs.Window.{rest};
ghost use Rattle.octseq_callers.specs.Note.{mark, note_of, HasMark};

use anyhow::Result;
use octseq::compose::{append_part_u8, append_u8, append_u16_be};
use octseq::{Array, AsOctets, Octets, OctetsBuilder, Parser, ReadError, Str, Truncate};

/// The octet that a note begins with.
const MARK: u8 = b'N';

/// A note with its words as octets of this type.
#[derive(Drop)]
pub struct Note<V: AsOctets> {
    /// The number of the note.
    pub number: u16,
    /// The words.
    pub words: Str<V>,
}

/// Reads the octet that a note begins with.
///
/// # Errors
///
/// `Malformed` if it isn't the next one.
fn next_mark<R: AsOctets>(parser: &mut Parser<R>) -> Result<(), ReadError>
    ensures ok { OnOk result (rest (window parser.old) ≡ mark ++ rest (window parser.new)) }
    ensures malformed { IsMalformed read_error result ↔ ¬ HasMark (rest (window parser.old)) }
    ensures same { sequence parser.new ≡ sequence parser.old }
{
    if parser.parse_u8()? != MARK {
        return Err(ReadError::Malformed);
    }
    Ok(())
}

/// Reads the next note.
///
/// # Errors
///
/// The error of the call that failed: what comes next isn't a note, or a request for memory was refused.
pub fn read_note<R: Octets>(parser: &mut Parser<R>) -> Result<Note<R::Range>>
    ensures taken { IfOk result (λ note. rest (window parser.old)
        ≡ note_of note.number (R.Range.content note.words) ++ rest (window parser.new)) }
    ensures same { sequence parser.new ≡ sequence parser.old }
{
    next_mark(parser)?;
    let number = parser.parse_u16_be()?;
    let len = parser.parse_u8()?;
    let octets = parser.parse_octets(usize::from(len))?;
    let words = Str::from_utf8(octets)?;
    Ok(Note { number, words })
}

/// Appends a note piece by piece. On an error the content may end with a prefix of it.
fn append_pieces<B: OctetsBuilder + Truncate>(
    builder: &mut B,
    number: u16,
    words: &str,
) -> Result<()>
    ensures ok { OnOk result (B.content builder.new ≡ B.content builder.old ++ note_of number words.now) }
    ensures front { take (length (B.content builder.old)) (B.content builder.new) ≡ B.content builder.old }
    ensures long { 255 < length words.now → IsErr result }
    ensures past { ExceedsLimit B.limit (length (B.content builder.old) + length (note_of number words.now))
        → IsErr result }
    ensures borrows { B.borrows builder.new ≡ B.borrows builder.old }
{
    append_u8(builder, MARK)?;
    append_u16_be(builder, number)?;
    append_part_u8(builder, words.as_bytes())?;
    Ok(())
}

/// Appends a note.
///
/// # Errors
///
/// The error of the call that failed: the words have more than 255 octets, the content would exceed the limit of its
/// type, or a request for memory was refused. The content is then unchanged.
pub fn append_note<B: OctetsBuilder + Truncate>(
    builder: &mut B,
    number: u16,
    words: &str,
) -> Result<()>
    ensures ok { OnOk result (B.content builder.new ≡ B.content builder.old ++ note_of number words.now) }
    ensures err { OnErr result (B.content builder.new ≡ B.content builder.old) }
    ensures long { 255 < length words.now → IsErr result }
    ensures past { ExceedsLimit B.limit (length (B.content builder.old) + length (note_of number words.now))
        → IsErr result }
    ensures borrows { B.borrows builder.new ≡ B.borrows builder.old }
{
    let before = builder.len();
    let appended = append_pieces(builder, number, words);
    if appended.is_err() {
        builder.truncate(before);
    }
    appended
}

/// Returns the octets of a note in an array.
///
/// # Errors
///
/// `ShortBuf` if the octets don't fit an array.
pub fn kept(octets: &[u8]) -> Result<Array<64>>
    ensures variant { IsOk result ↔ (length octets.now ≤ 64) }
    ensures ok { IfOk result (λ array. array.content ≡ octets.now) }
{
    Ok(Array::try_from(octets)?)
}
