//! The lossy reading: octets as text, with a replacement for each part that is not valid.
//!
//! Every call here iterates over chunks: a text, and the bad part after it. What a call ensures is one record,
//! `ReadsLossily` of `specs/Lossy.antt`; [`StrBuilder::try_from_utf8_lossy_counted`] also spells it out.
ghost use Rattle.std.specs.Prelude.{◌≡◌, ◌≢◌, ℕ, ◌+◌, ◌*◌, ◌≤◌, true, None, List};
ghost use Rattle.std.specs.Prelude.{[], ◌++◌, length, IsErr, IfOk, OnOk, OnErr};
ghost use Rattle.octseq_core.specs.Limit.{IsWithin, ExceedsLimit};
ghost use Rattle.octseq_core.specs.Refusal.{IsShort, IsMemory, append_error, alloc_error};
ghost use Rattle.octseq_utf8.specs.Chunk.{mark_of, chunk_text};
ghost use Rattle.octseq_utf8.specs.Encoding.{encoding_of};
ghost use Rattle.octseq_utf8.specs.Parts.{StartsWith, Part, Splits, text_with, text};
ghost use Rattle.octseq_utf8.specs.Reading.{parts_of};
ghost use Rattle.octseq_text.specs.Lossy.{ReadsLossily};
ghost use Rattle.octseq_utf8.specs.Text.{IsWellFormed};

use super::builder::StrBuilder;
use super::staged::{STAGE, append_front, append_stage, append_staged};
use crate::utf8::{Turns, Utf8Chunk, Utf8Chunks, chunks};
use octseq_core::array::Array;
use octseq_core::builder::{
    AppendError, AsOctets, EmptyBuilder, OctetsBuilder, OctetsLimit, Truncate,
};
use std::alloc::{AllocError, Global};

impl<Octets: AsOctets> StrBuilder<Octets> {
    /// The octets as a text with one U+FFFD for each maximal ill-formed part, by the Unicode Standard's practice for
    /// the replacement of maximal subparts (chapter 3).
    ///
    /// Well-formed octets are returned as they are, and no memory is requested. Otherwise a new builder is filled, and
    /// `octets` is dropped.
    ///
    /// # Errors
    ///
    /// `Short` if the lossy text exceeds the limit of the type, `Memory` if a request for memory was refused.
    ///
    /// # Examples
    ///
    /// ```
    /// // crates/octseq_examples/src/text.rt
    /// let octets = b"caf\xE9".to_vec(alloc)?; // "café" in Latin-1
    /// let mut text = StrBuilder::try_from_utf8_lossy(alloc, octets)?;
    /// text.try_push_str(" au lait")?; // "caf\u{FFFD} au lait"
    /// ```
    pub fn try_from_utf8_lossy(alloc: Global, octets: Octets) -> Result<Self, AppendError>
    where
        Octets: EmptyBuilder,
        ensures answer { ReadsLossily append_error Octets.limit
            ((Octets.asks ≡ true) × ¬ IsWellFormed (Octets.content octets))
            0xFFFD [] (Octets.content octets) Octets.content result }
        // Well-formed octets are returned unchanged.
        ensures same { IsWellFormed (Octets.content octets) → result ≡ Ok octets }
    {
        StrBuilder::try_from_utf8_lossy_counted(alloc, octets, &mut Turns::new())
    }

    /// Like [`StrBuilder::try_from_utf8_lossy`], and counts the turns of the search: at most one for each part of the
    /// octets, even if the reading is refused.
    ///
    /// # Errors
    ///
    /// `Short` if the lossy text exceeds the limit of the type, `Memory` if a request for memory was refused.
    pub fn try_from_utf8_lossy_counted(
        alloc: Global,
        octets: Octets,
        turns: &mut Turns,
    ) -> Result<Self, AppendError>
    where
        Octets: EmptyBuilder,
        // What every lossy reading ensures. The next six clauses spell out what counts most.
        ensures answer { ReadsLossily append_error Octets.limit
            ((Octets.asks ≡ true) × ¬ IsWellFormed (Octets.content octets))
            0xFFFD [] (Octets.content octets) Octets.content result }

        // Exactly one list of parts splits the octets.
        ensures one_splitting { (parts others : List Part)
            → Splits (Octets.content octets) parts → Splits (Octets.content octets) others → parts ≡ others }
        ensures splitting { (parts : List Part) × Splits (Octets.content octets) parts }

        // The result is the text of those parts. Well-formed octets are returned unchanged.
        ensures text { IfOk result (λ made. (parts : List Part)
            → Splits (Octets.content octets) parts → Octets.content made ≡ text parts) }
        ensures same { IsWellFormed (Octets.content octets) → result ≡ Ok octets }

        // If that text exceeds the limit, the call is refused; it is refused as short only then.
        ensures short { IsShort append_error result → (parts : List Part)
            → Splits (Octets.content octets) parts → ExceedsLimit Octets.limit (length (text parts)) }
        ensures past { (parts : List Part) → Splits (Octets.content octets) parts
            → ExceedsLimit Octets.limit (length (text parts)) → IsErr result }

        // At most as many turns as parts, whatever the result, and a turn for every sixteen octets.
        ensures turns { (parts : List Part) → Splits (Octets.content octets) parts
            → turns.new ≤ turns.old + length parts }
        ensures passed { OnOk result (length (Octets.content octets) + 16 * turns.old ≤ 16 * turns.new) }
        ensures kept { turns.old ≤ turns.new }
    {
        StrBuilder::try_from_utf8_lossy_with_counted(
            alloc,
            octets,
            char::REPLACEMENT_CHARACTER,
            turns,
        )
    }

    /// Like [`StrBuilder::try_from_utf8_lossy`], for a builder without a limit.
    ///
    /// # Errors
    ///
    /// `AllocError` if a request for memory was refused.
    pub fn from_utf8_lossy(alloc: Global, octets: Octets) -> Result<Self, AllocError>
    where
        Octets: EmptyBuilder,
        requires { Octets.limit ≡ None }
        ensures answer { ReadsLossily alloc_error Octets.limit
            ((Octets.asks ≡ true) × ¬ IsWellFormed (Octets.content octets))
            0xFFFD [] (Octets.content octets) Octets.content result }
        // Well-formed octets are returned unchanged.
        ensures same { IsWellFormed (Octets.content octets) → result ≡ Ok octets }
    {
        match StrBuilder::try_from_utf8_lossy(alloc, octets) {
            Ok(text) => Ok(text),
            Err(AppendError::Memory) => Err(AllocError),
            Err(AppendError::Short(_)) => unreachable!(),
        }
    }

    /// Like [`StrBuilder::try_from_utf8_lossy`], with `replacement` for each maximal ill-formed part.
    ///
    /// # Errors
    ///
    /// `Short` if the text exceeds the limit of the type, `Memory` if a request for memory was refused.
    pub fn try_from_utf8_lossy_with(
        alloc: Global,
        octets: Octets,
        replacement: char,
    ) -> Result<Self, AppendError>
    where
        Octets: EmptyBuilder,
        ensures answer { ReadsLossily append_error Octets.limit
            ((Octets.asks ≡ true) × ¬ IsWellFormed (Octets.content octets))
            replacement [] (Octets.content octets) Octets.content result }
        // Well-formed octets are returned unchanged.
        ensures same { IsWellFormed (Octets.content octets) → result ≡ Ok octets }
    {
        StrBuilder::try_from_utf8_lossy_with_counted(alloc, octets, replacement, &mut Turns::new())
    }

    /// Like [`StrBuilder::try_from_utf8_lossy_with`], and counts the turns of the search: at most one for each part of
    /// the octets, even if the reading is refused.
    ///
    /// # Errors
    ///
    /// `Short` if the text exceeds the limit of the type, `Memory` if a request for memory was refused.
    pub fn try_from_utf8_lossy_with_counted(
        alloc: Global,
        octets: Octets,
        replacement: char,
        turns: &mut Turns,
    ) -> Result<Self, AppendError>
    where
        Octets: EmptyBuilder,
        ensures answer { ReadsLossily append_error Octets.limit
            ((Octets.asks ≡ true) × ¬ IsWellFormed (Octets.content octets))
            replacement [] (Octets.content octets) Octets.content result }
        // Well-formed octets are returned unchanged.
        ensures same { IsWellFormed (Octets.content octets) → result ≡ Ok octets }

        // At most as many turns as parts, whatever the result, and a turn for every sixteen octets.
        ensures turns { (parts : List Part) → Splits (Octets.content octets) parts
            → turns.new ≤ turns.old + length parts }
        ensures passed { OnOk result (length (Octets.content octets) + 16 * turns.old ≤ 16 * turns.new) }
        ensures kept { turns.old ≤ turns.new }
    {
        read_with(alloc, octets, replacement, turns)
    }

    /// A text of the octets with one U+FFFD for each maximal ill-formed part. The octets are only read: nothing but the
    /// text is copied.
    ///
    /// # Errors
    ///
    /// `Short` if the text exceeds the limit of the type, `Memory` if a request for memory was refused.
    pub fn try_copy_lossy(alloc: Global, octets: &[u8]) -> Result<Self, AppendError>
    where
        Octets: EmptyBuilder,
        ensures answer { ReadsLossily append_error Octets.limit (Octets.asks ≡ true)
            0xFFFD [] octets.now Octets.content result }
    {
        StrBuilder::try_copy_lossy_with(alloc, octets, char::REPLACEMENT_CHARACTER)
    }

    /// Like [`StrBuilder::try_copy_lossy`], with `replacement` for each maximal ill-formed part.
    ///
    /// # Errors
    ///
    /// `Short` if the text exceeds the limit of the type, `Memory` if a request for memory was refused.
    pub fn try_copy_lossy_with(
        alloc: Global,
        octets: &[u8],
        replacement: char,
    ) -> Result<Self, AppendError>
    where
        Octets: EmptyBuilder,
        ensures answer { ReadsLossily append_error Octets.limit (Octets.asks ≡ true)
            replacement [] octets.now Octets.content result }
    {
        let mut made = Octets::with_capacity(alloc, octets.len())?;
        append_lossy(&mut made, octets, replacement)?;
        Ok(StrBuilder::from_utf8_unchecked(made))
    }

    /// Appends the octets as a text with one U+FFFD for each maximal ill-formed part, or nothing.
    ///
    /// # Errors
    ///
    /// `Short` if the text would exceed the limit of its type, `Memory` if a request for memory was refused. The text
    /// is then unchanged.
    pub fn try_push_lossy(&mut self, octets: &[u8]) -> Result<(), AppendError>
    where
        Octets: OctetsBuilder + Truncate,
        ensures answer { ReadsLossily append_error Octets.limit (Octets.asks ≡ true)
            0xFFFD (Octets.content self.old) octets.now (λ _. Octets.content self.new) result }
        ensures err { OnErr result (Octets.content self.new ≡ Octets.content self.old) }
        ensures borrows { Octets.borrows self.new ≡ Octets.borrows self.old }
    {
        self.try_push_lossy_with(octets, char::REPLACEMENT_CHARACTER)
    }

    /// Like [`StrBuilder::try_push_lossy`], with `replacement` for each maximal ill-formed part.
    ///
    /// # Errors
    ///
    /// `Short` if the text would exceed the limit of its type, `Memory` if a request for memory was refused. The text
    /// is then unchanged.
    pub fn try_push_lossy_with(
        &mut self,
        octets: &[u8],
        replacement: char,
    ) -> Result<(), AppendError>
    where
        Octets: OctetsBuilder + Truncate,
        ensures answer { ReadsLossily append_error Octets.limit (Octets.asks ≡ true)
            replacement (Octets.content self.old) octets.now (λ _. Octets.content self.new) result }
        ensures err { OnErr result (Octets.content self.new ≡ Octets.content self.old) }
        ensures borrows { Octets.borrows self.new ≡ Octets.borrows self.old }
    {
        let before = self.as_slice();
        let len = before.len();
        match append_lossy(&mut self.octets, octets, replacement) {
            Ok(()) => Ok(()),
            Err(refusal) => {
                self.octets.truncate(len);
                Err(refusal)
            }
        }
    }
}

/// The octets as a text with the replacement for each bad part.
fn read_with<B: EmptyBuilder>(
    alloc: Global,
    octets: B,
    replacement: char,
    turns: &mut Turns,
) -> Result<StrBuilder<B>, AppendError>
    ensures text { IfOk result (λ made. B.content made ≡ text_with replacement (parts_of (B.content octets))) }
    ensures same { IsWellFormed (B.content octets) → result ≡ Ok octets }
    ensures short { IsShort append_error result
        → ExceedsLimit B.limit (length (text_with replacement (parts_of (B.content octets)))) }
    ensures past { ExceedsLimit B.limit (length (text_with replacement (parts_of (B.content octets)))) → IsErr result }
    ensures memory { IsMemory append_error result → (B.asks ≡ true) × ¬ IsWellFormed (B.content octets) }
    ensures turns { turns.new ≤ turns.old + length (parts_of (B.content octets)) }
    ensures passed { OnOk result (length (B.content octets) + 16 * turns.old ≤ 16 * turns.new) }
    ensures kept { turns.old ≤ turns.new }
{
    let content = octets.as_ref();
    let mut chunks = chunks(content);
    match chunks.next_counted(turns) {
        None => Ok(StrBuilder::from_utf8_unchecked(octets)),
        Some(first) => {
            if first.invalid().is_empty() {
                return Ok(StrBuilder::from_utf8_unchecked(octets));
            }
            let mut made = B::with_capacity(alloc, content.len())?;
            append_chunks(&mut made, first, chunks, replacement, turns)?;
            Ok(StrBuilder::from_utf8_unchecked(made))
        }
    }
}

/// Appends the octets as a text with the replacement for each bad part. If refused, a front of that text may have been
/// appended.
fn append_lossy<B: OctetsBuilder>(
    builder: &mut B,
    octets: &[u8],
    replacement: char,
) -> Result<(), AppendError>
    requires { IsWithin B.limit (length (B.content builder.old)) }
    ensures text { OnOk result (B.content builder.new
        ≡ B.content builder.old ++ text_with replacement (parts_of octets.now)) }
    ensures front { OnErr result (StartsWith (B.content builder.old) (B.content builder.new)) }
    ensures short { IsShort append_error result
        → ExceedsLimit B.limit (length (B.content builder.old ++ text_with replacement (parts_of octets.now))) }
    ensures within { OnOk result (IsWithin B.limit (length (B.content builder.new))) }
    ensures memory { IsMemory append_error result → B.asks ≡ true }
    ensures borrows { B.borrows builder.new ≡ B.borrows builder.old }
{
    let mut turns = Turns::new();
    let mut chunks = chunks(octets);
    match chunks.next_counted(&mut turns) {
        None => Ok(()),
        Some(first) => append_chunks(builder, first, chunks, replacement, &mut turns),
    }
}

/// Appends the text of a chunk and of those after it.
fn append_chunks<B: OctetsBuilder>(
    builder: &mut B,
    first: Utf8Chunk<'_>,
    rest: Utf8Chunks<'_>,
    replacement: char,
    turns: &mut Turns,
) -> Result<(), AppendError>
    ensures text { OnOk result (B.content builder.new ≡ B.content builder.old
        ++ (chunk_text replacement first.entry ++ text_with replacement (parts_of rest.entry))) }
    ensures front { OnErr result (StartsWith (B.content builder.old) (B.content builder.new)) }
    ensures short { IsShort append_error result → ExceedsLimit B.limit (length (B.content builder.old
        ++ (chunk_text replacement first.entry ++ text_with replacement (parts_of rest.entry)))) }
    ensures within { OnOk result (IsWithin B.limit (length (B.content builder.new))) }
    ensures memory { IsMemory append_error result → B.asks ≡ true }
    ensures borrows { B.borrows builder.new ≡ B.borrows builder.old }
    ensures turns { turns.new ≤ turns.old + length (parts_of rest.entry) }
    ensures passed { OnOk result (length rest.entry + 16 * turns.old ≤ 16 * turns.new) }
    ensures kept { turns.old ≤ turns.new }
{
    let mut encoded = [0; 4];
    let mark = replacement.encode_utf8(&mut encoded[..]).as_bytes();
    let mut staged = Array::new();
    append_chunk(builder, &mut staged, first.valid().as_bytes(), &first, mark)?;
    let mut rest = rest;
    let mut octets = rest.as_octets();
    while let Some(chunk) = rest.next_counted(turns) {
        append_chunk(builder, &mut staged, octets, &chunk, mark)?;
        octets = rest.as_octets();
    }
    append_stage(builder, &mut staged)
}

/// Appends the text of the chunk at the front of the octets, with the mark in place of its bad part, after what is
/// staged.
#[inline(always)]
fn append_chunk<B: OctetsBuilder>(
    builder: &mut B,
    staged: &mut Array<STAGE>,
    octets: &[u8],
    chunk: &Utf8Chunk<'_>,
    mark: &[u8],
) -> Result<(), AppendError>
    requires { StartsWith chunk.now.valid octets.now }
    ensures text { OnOk result (B.content builder.new ++ staged.new.content
        ≡ (B.content builder.old ++ staged.old.content) ++ (chunk.now.valid ++ mark_of mark.now chunk.now.invalid)) }
    ensures front { StartsWith (B.content builder.old) (B.content builder.new) }
    ensures short { IsShort append_error result → ExceedsLimit B.limit (length
        ((B.content builder.old ++ staged.old.content) ++ (chunk.now.valid ++ mark_of mark.now chunk.now.invalid))) }
    ensures memory { IsMemory append_error result → B.asks ≡ true }
    ensures borrows { B.borrows builder.new ≡ B.borrows builder.old }
{
    append_front(builder, staged, octets, chunk.valid().len())?;
    if chunk.invalid().is_empty() {
        return Ok(());
    }
    append_staged(builder, staged, mark)
}
