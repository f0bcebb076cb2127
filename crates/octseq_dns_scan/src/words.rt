//! The words of a text: RFC 1035, 5.1.
ghost use Rattle.std.specs.Prelude.{◌≡◌, ℕ, ◌+◌, ◌<◌, ◌≤◌, ◌↔◌, List, [], ◌∷◌, ◌++◌, length, IsTrue, IsNone};
ghost use Rattle.std.specs.Prelude.{IfSome, IfNone, false};
ghost use Rattle.std.specs.List.{All};
ghost use Rattle.octseq_dns_scan.specs.Made.{Leaves};
ghost use Rattle.octseq_dns_scan.specs.Word.{is_blank, is_special, BeginsNoBlank, IsWordPart, IsQuotedPiece};
ghost use Rattle.octseq_dns_scan.specs.Word.{BeginsWithQuote, EndsWord};
ghost use Rattle.octseq_dns_scan.specs.Word.{SplitsBlanks, TakesWord, AreWords, IsWord};

/// A text splits into words in one way, and a word is taken from its front in one way.
///
/// It does nothing. Calling it brings the law into the caller's proof.
pub fn a_text_splits_in_one_way()
    ensures words { (words others : List (List ℕ)) (text : List ℕ) → AreWords words text → AreWords others text
        → words ≡ others }
    ensures first { (word other text rest left : List ℕ) → TakesWord word text rest → TakesWord other text left
        → (word ≡ other) × (rest ≡ left) }
{}

/// A word is taken from a text that has a blank and another word after it, or nothing.
///
/// It does nothing. Calling it brings the law into the caller's proof.
pub fn a_word_is_taken_before_a_space()
    ensures space { (word rest : List ℕ) → IsWord word → BeginsNoBlank rest → TakesWord word (word ++ 32 ∷ rest) rest }
    ensures end { (word : List ℕ) → IsWord word → TakesWord word word [] }
{}

/// Octets that are no blank, no end of a line, no quotation mark and no backslash are a word, if there are any. So are
/// a backslash and an octet, and two words side by side.
///
/// It does nothing. Calling it brings the law into the caller's proof.
pub fn what_a_word_is_made_of()
    ensures plain { (octets : List ℕ) → 1 ≤ length octets → All (λ octet. is_special octet ≡ false) octets
        → IsWord octets }
    ensures escaped { (octet : ℕ) → IsWord (92 ∷ octet ∷ []) }
    ensures joined { (word other : List ℕ) → IsWord word → IsWord other → IsWord (word ++ other) }
{}

/// A word of a text.
#[derive(Clone, Copy, Debug)]
pub struct Word<'a> {
    /// The octets of the word, as they are in the text: with its quotation marks and its backslashes.
    pub octets: &'a [u8],
    /// The place in the text where the word begins.
    pub offset: usize,
}

/// A cursor over the words of a text.
#[derive(Clone, Copy, Debug)]
pub struct Words<'a> {
    ahead: &'a [u8],
    len: usize,
    ghost within: { length ahead.now ≤ len },
}

impl<'a> Words<'a> {
    ghost use Rattle.octseq_dns_scan.specs.Words.{ahead_of, offset_of};

    /// A cursor at the front of a text.
    pub fn new(text: &'a [u8]) -> Words<'a>
        ensures ahead { ahead_of result ≡ text.now }
        ensures offset { offset_of result ≡ 0 }
    {
        Words {
            ahead: text,
            len: text.len(),
        }
    }

    /// The place in the text where the next word would begin. At the end it is the length of the text.
    pub fn offset(&self) -> usize
        ensures { result ≡ offset_of self.now }
    {
        self.len - self.ahead.len()
    }

    /// Whether no octet is left.
    pub fn is_at_end(&self) -> bool
        ensures { IsTrue result ↔ (ahead_of self.now ≡ []) }
    {
        self.ahead.is_empty()
    }

    /// Takes the next word, and the spaces and tabs after it. Returns `None` if no word comes next: at the end of the
    /// text, or if what comes next isn't a word that a space, a tab or the end follows. The cursor then stays.
    pub fn next_word(&mut self) -> Option<Word<'a>>
        ensures some { IfSome result (λ word. TakesWord word.octets.now (ahead_of self.old) (ahead_of self.new)) }
        ensures offset { IfSome result (λ word. word.offset ≡ offset_of self.old) }
        ensures end { offset_of self.new + length (ahead_of self.new)
            ≡ offset_of self.old + length (ahead_of self.old) }
        ensures none { IsNone result → (word rest : List ℕ) → ¬ TakesWord word (ahead_of self.old) rest }
        ensures kept { IfNone result (ahead_of self.new ≡ ahead_of self.old) }
    {
        let ahead = self.ahead;
        let rest = after_parts(ahead)?;
        let len = ahead.len() - rest.len();
        if len == 0 {
            return None;
        }
        let word = Word {
            octets: &ahead[..len],
            offset: self.offset(),
        };
        self.ahead = after_blanks(rest);
        Some(word)
    }
}

/// Whether an octet separates words.
fn is_blank(octet: u8) -> bool
    ensures { result ≡ is_blank octet }
{
    octet == b' ' || octet == b'\t'
}

/// Returns what follows the spaces and tabs at the front of a text.
fn after_blanks(text: &[u8]) -> &[u8]
    ensures { (blanks : List ℕ) × SplitsBlanks blanks text.now result.now }
{
    let mut ahead = text;
    'blanks: while let Some((first, rest)) = ahead.split_first() {
        if !is_blank(*first) {
            return ahead;
        }
        ahead = rest;
    }
    ahead
}

/// Returns what follows the parts of a word at the front of a text: the end, or a space or tab. `None` if something
/// else follows them.
fn after_parts(text: &[u8]) -> Option<&[u8]>
    ensures some { IfSome result (λ rest. Leaves IsWordPart EndsWord text.now rest.now) }
    ensures none { IsNone result → (rest : List ℕ) → ¬ Leaves IsWordPart EndsWord text.now rest }
{
    let mut ahead = text;
    'parts: while let Some((first, rest)) = ahead.split_first() {
        ahead = match *first {
            b' ' | b'\t' => return Some(ahead),
            b'\n' | b'\r' => return None,
            b'"' => after_quoted(rest)?,
            b'\\' => after_octet(rest)?,
            _ => rest,
        };
    }
    Some(ahead)
}

/// Returns what follows a quoted part whose opening quotation mark is before the text.
fn after_quoted(text: &[u8]) -> Option<&[u8]>
    ensures some { IfSome result (λ rest. Leaves IsQuotedPiece BeginsWithQuote text.now (34 ∷ rest.now)) }
    ensures none { IsNone result → (rest : List ℕ) → ¬ Leaves IsQuotedPiece BeginsWithQuote text.now rest }
{
    let mut ahead = text;
    'pieces: loop {
        let (first, rest) = ahead.split_first()?;
        ahead = match *first {
            b'"' => return Some(rest),
            b'\\' => after_octet(rest)?,
            _ => rest,
        };
    }
}

/// Returns what follows the first octet of a text.
fn after_octet(text: &[u8]) -> Option<&[u8]>
    ensures some { IfSome result (λ rest. (octet : ℕ) × (text.now ≡ octet ∷ rest.now)) }
    ensures none { IsNone result → text.now ≡ [] }
{
    let (_, rest) = text.split_first()?;
    Some(rest)
}
