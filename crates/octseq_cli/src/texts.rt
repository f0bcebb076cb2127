//! Commands that process an input of texts, with empty lines between them, text by text. The output for a text is
//! written as soon as the empty line after it is read, so that a live source shows at once, and an input of any length
//! needs only the memory of one text and its output.
ghost use Rattle.std.specs.Prelude.{◌≡◌, ◌≢◌, ◌∷◌, ◌++◌, ℕ, List, [], Bool, IfOk, IfErr, IfSome, IfNone, OnErr, OnOk};
ghost use Rattle.std.specs.Prelude.{Ok, Err};
ghost use Rattle.std.specs.Io.KnownBytes.{Consumes, IsAtEnd};
ghost use Rattle.octseq_cli.specs.Run.{Answers, BreaksOff, Unnoted};
ghost use Rattle.octseq_cli.specs.Texts.{AreFeeds, AreFilledLines, EndsWithLineFeed, IsNextText, IsLineText};
ghost use Rattle.octseq_cli.specs.Texts.{IsTextsOut};
ghost use Rattle.octseq_cli.specs.Texts.{last_of};

use crate::frames::{FrameCommand, both, ended, write_piece};
use crate::status::{ProgramFault, Status};
use crate::streams::failed_read;
use std::alloc::{AllocError, Global};
use std::io::{ErrorKind, Read, Write};

/// Processes an input of texts, one at a time. A text has one or more lines, none of them empty. Empty lines are
/// between texts, and any number of them may be before the first and after the last. A note that can't be written
/// doesn't end the output: no note follows it, and all else does.
///
/// # Errors
///
/// `Memory` if a request for memory was refused, `Read` if a read failed, `Write` if a write of the output failed.
/// `Note` if the whole output was written, but not all notes.
pub fn process_texts<C: FrameCommand, R: Read, W: Write, E: Write>(
    command: C,
    alloc: Global,
    reader: &mut R,
    writer: &mut W,
    errors: &mut E,
) -> Result<Status, ProgramFault>
    requires { (octets : List ℕ) → C.fits command octets }
    ensures ok { IfOk result (Answers (IsTextsOut (C.is_piece command)) (R.remaining reader.old)
        (W.contents writer.old) (W.contents writer.new) (E.contents errors.old) (E.contents errors.new)) }
    ensures end { OnOk result (IsAtEnd (R.remaining reader.new)) }
    ensures broke { OnErr result (BreaksOff (IsTextsOut (C.is_piece command)) (R.remaining reader.old)
        (R.remaining reader.new) (W.contents writer.old) (W.contents writer.new) (E.contents errors.old)
        (E.contents errors.new)) }
    ensures unnoted { result ≡ Err ProgramFault.Note → Unnoted (IsTextsOut (C.is_piece command))
        (R.remaining reader.old) (R.remaining reader.new) (W.contents writer.old) (W.contents writer.new)
        (E.contents errors.old) (E.contents errors.new) }
{
    command.one_piece();
    let mut text = Vec::new(alloc);
    let mut tools = command.tools(alloc);
    let mut is_all = true;
    let mut is_noted = true;
    for index in 0..u64::MAX {
        let is_over = read_text(reader, &mut text)?;
        if text.is_empty() {
            return ended(is_all, is_noted);
        }
        let piece = command.take(alloc, &mut tools, index + 1, text.as_slice())?;
        is_noted = write_piece(writer, errors, &piece, is_noted)?;
        is_all = both(is_all, piece.is_fine);
        if is_over {
            return ended(is_all, is_noted);
        }
    }
    Err(ProgramFault::Read)
}

/// Reads the next text, and the empty line that ends it, into a vector, replacing its content. Returns whether the
/// input is over. It may then end with a text that no empty line ends, or with none: the vector is empty.
///
/// # Errors
///
/// `Memory` if a request for memory was refused, `Read` if a read failed.
pub fn read_text<R: Read>(reader: &mut R, text: &mut Vec<u8>) -> Result<bool, ProgramFault>
    ensures text { IfOk result (λ is_over. (read : List ℕ) × IsNextText is_over text.new.items read
        × Consumes (R.remaining reader.old) (R.remaining reader.new) read) }
    ensures end { result ≡ Ok Bool.true → IsAtEnd (R.remaining reader.new) }
    ensures err { OnErr result ((read : List ℕ) × Consumes (R.remaining reader.old) (R.remaining reader.new) read) }
    ensures note { IfErr result (λ fault. fault ≢ ProgramFault.Note) }
{
    text.clear();
    let Some(first) = read_first(reader)? else {
        return Ok(true);
    };
    append(text, first)?;
    append_lines(reader, text)
}

/// Reads up to the first octet that isn't a line feed. Returns it, or `None` at the end of the input.
fn read_first<R: Read>(reader: &mut R) -> Result<Option<u8>, ProgramFault>
    ensures some { IfOk result (λ next. IfSome next (λ octet. ¬ (octet ≡ 10) × (feeds : List ℕ) × AreFeeds feeds
        × Consumes (R.remaining reader.old) (R.remaining reader.new) (feeds ++ octet ∷ []))) }
    ensures none { IfOk result (λ next. IfNone next ((feeds : List ℕ) × AreFeeds feeds
        × Consumes (R.remaining reader.old) (R.remaining reader.new) feeds × IsAtEnd (R.remaining reader.new))) }
    ensures err { OnErr result ((read : List ℕ) × Consumes (R.remaining reader.old) (R.remaining reader.new) read) }
    ensures note { IfErr result (λ fault. fault ≢ ProgramFault.Note) }
{
    for _ in 0..u64::MAX {
        let Some(octet) = read_octet(reader)? else {
            return Ok(None);
        };
        if octet != b'\n' {
            return Ok(Some(octet));
        }
    }
    Err(ProgramFault::Read)
}

/// Reads up to the end of a text, of which the first octet was read, and appends its octets, but not the empty line
/// that ends it. Returns whether the input is over.
fn append_lines<R: Read>(reader: &mut R, text: &mut Vec<u8>) -> Result<bool, ProgramFault>
    requires text { IsLineText text.old.items }
    requires line { ¬ EndsWithLineFeed text.old.items }
    ensures text { OnOk result (IsLineText text.new.items) }
    ensures ended { result ≡ Ok Bool.false → EndsWithLineFeed text.new.items × (read : List ℕ)
        × (text.new.items ≡ text.old.items ++ read)
        × Consumes (R.remaining reader.old) (R.remaining reader.new) (read ++ 10 ∷ []) }
    ensures over { result ≡ Ok Bool.true → IsAtEnd (R.remaining reader.new) × (read : List ℕ)
        × (text.new.items ≡ text.old.items ++ read)
        × Consumes (R.remaining reader.old) (R.remaining reader.new) read }
    ensures err { OnErr result ((read : List ℕ) × Consumes (R.remaining reader.old) (R.remaining reader.new) read) }
    ensures note { IfErr result (λ fault. fault ≢ ProgramFault.Note) }
{
    let mut is_ended = false;
    for _ in 0..u64::MAX {
        let Some(octet) = read_octet(reader)? else {
            return Ok(true);
        };
        let is_feed = octet == b'\n';
        if is_ended && is_feed {
            return Ok(false);
        }
        append(text, octet)?;
        is_ended = is_feed;
    }
    Err(ProgramFault::Read)
}

/// Appends an octet.
fn append(text: &mut Vec<u8>, octet: u8) -> Result<(), AllocError>
    ensures { OnOk result (text.new.items ≡ text.old.items ++ octet ∷ []) }
{
    text.push(octet)?;
    Ok(())
}

/// Reads an octet. Returns `None` at the end of the input. An interrupted read is repeated.
///
/// # Errors
///
/// `Read` if a read failed, `Memory` if the reader reports that it is out of memory.
fn read_octet<R: Read>(reader: &mut R) -> Result<Option<u8>, ProgramFault>
    ensures some { IfOk result (λ next. IfSome next (λ octet.
        Consumes (R.remaining reader.old) (R.remaining reader.new) (octet ∷ []))) }
    ensures none { IfOk result (λ next. IfNone next (Consumes (R.remaining reader.old) (R.remaining reader.new) []
        × IsAtEnd (R.remaining reader.new))) }
    ensures err { OnErr result (Consumes (R.remaining reader.old) (R.remaining reader.new) []) }
    ensures note { IfErr result (λ fault. fault ≢ ProgramFault.Note) }
{
    let mut room = [0];
    for _ in 0..u64::MAX {
        match reader.read(&mut room) {
            Ok(0) => return Ok(None),
            Ok(_) => return Ok(Some(room[0])),
            Err(e) if e.kind() == ErrorKind::Interrupted => {}
            Err(e) => return Err(failed_read(&e)),
        }
    }
    Err(ProgramFault::Read)
}
