//! The lossy reading of octets that come in pieces.
ghost use Rattle.std.specs.Prelude.{◌≡◌, ◌≢◌, ℕ, ◌+◌, ◌*◌, ◌<◌, ◌≤◌, ◌↔◌, true, Some, List, [], ◌∷◌};
ghost use Rattle.std.specs.Prelude.{◌++◌, length, IsErr, IfOk, IfErr, IfSome, IfNone, OnOk, OnErr};
ghost use Rattle.octseq_core.specs.Limit.{IsWithin, ExceedsLimit};
ghost use Rattle.octseq_core.specs.Refusal.{IsShort, IsMemory, append_error};
ghost use Rattle.octseq_core.specs.declared.builder.AppendError.{AppendError};
ghost use Rattle.octseq_utf8.specs.Encoding.{encoding_of};
ghost use Rattle.octseq_utf8.specs.Parts.{Part, Splits, text};
ghost use Rattle.octseq_utf8.specs.Reading.{parts_of};
ghost use Rattle.octseq_text.specs.Pieces.{Settles, HasRead};
ghost use Rattle.octseq_text.specs.Progress.{IsOpenEnd, HasReadParts, IsTextTooLong};
ghost use Rattle.octseq_utf8.specs.Text.{IsWellFormed};

use super::builder::StrBuilder;
use crate::completion::{Completed, complete};
use crate::utf8::{Turns, chunks};
use octseq_core::array::Array;
use octseq_core::builder::{AppendError, EmptyBuilder, OctetsBuilder, infallible};
use std::alloc::{AllocError, Global};
use std::marker::Model;

/// A lossy reading of octets that come in pieces. However they are cut, the text is the one of
/// [`StrBuilder::try_from_utf8_lossy`].
///
/// It holds the text of what is settled, and at most three octets of a character that isn't complete yet. Once a piece
/// is refused, for memory or by the limit of the type, the reading has failed permanently.
///
/// Contracts see the text, those octets, and the refusal.
#[derive(Drop)]
pub struct LossyPieces<B: EmptyBuilder> {
    text: B,
    end: Array<4>,
    refusal: Option<AppendError>,
}

impl<B: EmptyBuilder> Model for LossyPieces<B> {
    ghost use Rattle.octseq_text.specs.Pieces.{Held, IsSound};

    ghost Value = { Held };

    ghost view = { λ pieces.
        record { settled_text = B.content pieces.text; end = pieces.end.content; refusal = pieces.refusal } };

    ghost invariant = { λ pieces. IsSound B.limit B.asks
        (record { settled_text = B.content pieces.text; end = pieces.end.content; refusal = pieces.refusal }) };
}

impl<B: EmptyBuilder> LossyPieces<B> {
    /// A reading of no octets yet.
    ///
    /// # Errors
    ///
    /// `AllocError` if a request for memory was refused.
    pub fn new(alloc: Global) -> Result<Self, AllocError>
        ensures has_read { IfOk result (λ made. HasRead made []) }
        ensures memory { OnErr result (B.asks ≡ true) }
    {
        let text = B::empty(alloc)?;
        Ok(LossyPieces {
            text,
            end: Array::new(),
            refusal: None,
        })
    }

    /// Reads the next piece.
    ///
    /// # Errors
    ///
    /// `Short` if the text of what is settled exceeds the limit of the type, `Memory` if a request for memory was
    /// refused. Every later call returns the same error.
    ///
    /// # Examples
    ///
    /// ```
    /// // crates/octseq_examples/src/text.rt
    /// let mut pieces = LossyPieces::<Vec<u8>>::new(alloc)?;
    /// pieces.feed(b"5 \xE2\x82")?; // ends with two of the three octets of "€"
    /// pieces.feed(b"\xAC \xFF")?; // begins with the third one
    /// let text = pieces.finish()?; // "5 € \u{FFFD}"
    /// ```
    pub fn feed(&mut self, piece: &[u8]) -> Result<(), AppendError>
        // If the reading had read octets, it now has read them followed by the piece.
        ensures has_read { OnOk result ((octets : List ℕ)
            → HasRead self.old octets → HasRead self.new (octets ++ piece.now)) }

        // If the text of their settled parts exceeds the limit, the call is refused; it is refused as short only then.
        ensures short { IsShort append_error result → (octets end : List ℕ) (settled : List Part)
            → HasRead self.old octets → Settles (octets ++ piece.now) settled end
            → ExceedsLimit B.limit (length (text settled)) }
        ensures past { (octets end : List ℕ) (settled : List Part)
            → HasRead self.old octets → Settles (octets ++ piece.now) settled end
            → ExceedsLimit B.limit (length (text settled)) → IsErr result }
        ensures memory { IsMemory append_error result → B.asks ≡ true }

        // A refusal is kept, and returned from then on.
        ensures kept { IfErr result (λ refusal. self.new.refusal ≡ Some refusal) }
        ensures again { (refusal : AppendError)
            → self.old.refusal ≡ Some refusal → result ≡ Err refusal }
    {
        self.feed_counted(piece, &mut Turns::new())
    }

    /// Like [`LossyPieces::feed`], and counts the turns of the search: at most one for each part of the held octets and
    /// the piece, so at most one for each octet of the piece, and one more.
    ///
    /// # Errors
    ///
    /// `Short` if the text of what is settled exceeds the limit of the type, `Memory` if a request for memory was
    /// refused. Every later call returns the same error.
    pub fn feed_counted(&mut self, piece: &[u8], turns: &mut Turns) -> Result<(), AppendError>
        // If the reading had read octets, it now has read them followed by the piece.
        ensures has_read { OnOk result ((octets : List ℕ)
            → HasRead self.old octets → HasRead self.new (octets ++ piece.now)) }

        // If the text of their settled parts exceeds the limit, the call is refused; it is refused as short only then.
        ensures short { IsShort append_error result → (octets end : List ℕ) (settled : List Part)
            → HasRead self.old octets → Settles (octets ++ piece.now) settled end
            → ExceedsLimit B.limit (length (text settled)) }
        ensures past { (octets end : List ℕ) (settled : List Part)
            → HasRead self.old octets → Settles (octets ++ piece.now) settled end
            → ExceedsLimit B.limit (length (text settled)) → IsErr result }
        ensures memory { IsMemory append_error result → B.asks ≡ true }

        // A refusal is kept, and returned from then on.
        ensures kept { IfErr result (λ refusal. self.new.refusal ≡ Some refusal) }
        ensures again { (refusal : AppendError)
            → self.old.refusal ≡ Some refusal → result ≡ Err refusal }

        // At most one turn for each part of the open end and the piece, so at most one more than octets, whatever the
        // result; a turn for every sixteen octets that were read; none after a refusal.
        ensures parts { (parts : List Part) → Splits (self.old.end ++ piece.now) parts
            → turns.new ≤ turns.old + length parts }
        ensures turns { turns.new ≤ turns.old + length piece.now + 1 }
        ensures passed { OnOk result (length piece.now + 16 * turns.old ≤ 16 * turns.new) }
        ensures turns_kept { turns.old ≤ turns.new }
        ensures nothing { (refusal : AppendError)
            → self.old.refusal ≡ Some refusal → turns.new ≡ turns.old }
    {
        if let Some(refusal) = self.refusal {
            return Err(refusal);
        }
        match read(&mut self.text, &self.end, piece, turns) {
            Ok(end) => {
                self.end = end;
                Ok(())
            }
            Err(refusal) => {
                self.refusal = Some(refusal);
                Err(refusal)
            }
        }
    }

    /// The text of everything that was read. Octets of a character that never became complete are one bad part.
    ///
    /// # Errors
    ///
    /// `Short` if the text exceeds the limit of the type, `Memory` if a request for memory was refused. If a piece was
    /// refused, the error of that piece.
    ///
    /// # Examples
    ///
    /// ```
    /// // crates/octseq_examples/src/text.rt
    /// pub fn received_text(alloc: Global, received: &[&[u8]]) -> anyhow::Result<StrBuilder<Array<16>>> {
    ///     let mut pieces = LossyPieces::new(alloc)?;
    ///     for piece in received {
    ///         pieces.feed(piece)?;
    ///     }
    ///     Ok(pieces.finish()?)
    /// }
    /// ```
    pub fn finish(self) -> Result<StrBuilder<B>, AppendError>
        // The result is the text of all parts of the octets that the reading stands for.
        ensures text { IfOk result (λ made. (octets : List ℕ) (parts : List Part)
            → HasRead self octets → Splits octets parts → B.content made ≡ text parts) }
        ensures well_formed { IfOk result (λ made. IsWellFormed (B.content made)) }

        // If that text exceeds the limit, the call is refused; it is refused as short only then.
        ensures short { IsShort append_error result → (octets : List ℕ) (parts : List Part)
            → HasRead self octets → Splits octets parts → ExceedsLimit B.limit (length (text parts)) }
        ensures past { (octets : List ℕ) (parts : List Part)
            → HasRead self octets → Splits octets parts
            → ExceedsLimit B.limit (length (text parts)) → IsErr result }
        ensures memory { IsMemory append_error result → B.asks ≡ true }

        // An earlier refusal is returned again.
        ensures again { (refusal : AppendError) → self.refusal ≡ Some refusal → result ≡ Err refusal }
    {
        let LossyPieces {
            mut text,
            end,
            refusal,
        } = self;
        if let Some(refusal) = refusal {
            return Err(refusal);
        }
        append_end(&mut text, &end)?;
        Ok(StrBuilder::from_utf8_unchecked(text))
    }
}

/// Reads the piece after the open end, and returns the open end of both.
fn read<B: OctetsBuilder>(
    text: &mut B,
    end: &Array<4>,
    piece: &[u8],
    turns: &mut Turns,
) -> Result<Array<4>, AppendError>
    requires open_end { IsOpenEnd end.now.content }
    requires within { IsWithin B.limit (length (B.content text.old)) }
    ensures read { IfOk result (λ left.
        HasReadParts (end.now.content ++ piece.now) left.content (B.content text.old) (B.content text.new)) }
    ensures open_end { IfOk result (λ left. IsOpenEnd left.content) }
    ensures within { OnOk result (IsWithin B.limit (length (B.content text.new))) }
    ensures short { IsShort append_error result
        → IsTextTooLong B.limit (end.now.content ++ piece.now) (B.content text.old) }
    ensures memory { IsMemory append_error result → B.asks ≡ true }
    ensures turns { turns.new ≤ turns.old + length (parts_of (end.now.content ++ piece.now)) }
    ensures passed { OnOk result (length piece.now + 16 * turns.old ≤ 16 * turns.new) }
    ensures kept { turns.old ≤ turns.new }
{
    if end.as_slice().is_empty() {
        return settle(text, piece, turns);
    }
    match complete(end.as_slice(), piece, turns) {
        Completed::Incomplete(end) => Ok(end),
        Completed::Character(encoding, taken) => {
            text.append_slice(encoding.as_slice())?;
            settle(text, &piece[taken..], turns)
        }
        Completed::Invalid(taken) => {
            append_replacement(text)?;
            settle(text, &piece[taken..], turns)
        }
    }
}

/// Appends the text of the settled parts of the octets, and returns the open end.
fn settle<B: OctetsBuilder>(
    text: &mut B,
    octets: &[u8],
    turns: &mut Turns,
) -> Result<Array<4>, AppendError>
    requires within { IsWithin B.limit (length (B.content text.old)) }
    ensures read { IfOk result (λ left.
        HasReadParts octets.now left.content (B.content text.old) (B.content text.new)) }
    ensures open_end { IfOk result (λ left. IsOpenEnd left.content) }
    ensures within { OnOk result (IsWithin B.limit (length (B.content text.new))) }
    ensures short { IsShort append_error result → IsTextTooLong B.limit octets.now (B.content text.old) }
    ensures memory { IsMemory append_error result → B.asks ≡ true }
    ensures turns { turns.new ≤ turns.old + length (parts_of octets.now) }
    ensures passed { OnOk result (length octets.now + 16 * turns.old ≤ 16 * turns.new) }
    ensures kept { turns.old ≤ turns.new }
{
    let mut chunks = chunks(octets);
    while let Some(chunk) = chunks.next_counted(turns) {
        text.append_slice(chunk.valid().as_bytes())?;
        if chunk.is_incomplete() {
            return Ok(open_end(chunk.invalid()));
        }
        if !chunk.invalid().is_empty() {
            append_replacement(text)?;
        }
    }
    Ok(Array::new())
}

/// Appends the replacement character for an open end that nothing follows, if there is one.
fn append_end<B: OctetsBuilder>(text: &mut B, end: &Array<4>) -> Result<(), AppendError>
    requires { IsWithin B.limit (length (B.content text.old)) }
    ensures none { OnOk result (end.now.content ≡ [] → B.content text.new ≡ B.content text.old) }
    ensures some { OnOk result (end.now.content ≢ []
        → B.content text.new ≡ B.content text.old ++ encoding_of 0xFFFD) }
    ensures within { OnOk result (IsWithin B.limit (length (B.content text.new))) }
    ensures short { IsShort append_error result → (end.now.content ≢ [])
        × ExceedsLimit B.limit (length (B.content text.old) + length (encoding_of 0xFFFD)) }
    ensures memory { IsMemory append_error result → B.asks ≡ true }
{
    if end.as_slice().is_empty() {
        return Ok(());
    }
    append_replacement(text)
}

/// Appends the replacement character.
#[tactic(auto, unfolding(octseq_utf8::specs::Encoding::encoding_of))]
fn append_replacement<B: OctetsBuilder>(text: &mut B) -> Result<(), AppendError>
    ensures ok { OnOk result (B.content text.new ≡ B.content text.old ++ encoding_of 0xFFFD) }
    ensures short { IsShort append_error result
        ↔ ExceedsLimit B.limit (length (B.content text.old) + length (encoding_of 0xFFFD)) }
    ensures memory { IsMemory append_error result → B.asks ≡ true }
{
    text.append_slice(b"\xEF\xBF\xBD")
}

/// The octets as an open end.
fn open_end(octets: &[u8]) -> Array<4>
    requires { length octets.now ≤ 4 }
    ensures { result.content ≡ octets.now }
{
    infallible(Array::try_from(octets))
}
