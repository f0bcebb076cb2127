//! Laws about the definitions of UTF-8. Each is the contract of a function that does nothing, so that the check demands
//! its proof and callers can cite it.
ghost use Rattle.std.specs.Prelude.{◌≡◌, ℕ, ◌≤◌, ◌↔◌, List, [], ◌∷◌, ◌++◌, map, length, encode_utf8, Some};
ghost use Rattle.std.specs.Str.{IsUtf8};
ghost use Rattle.std.specs.List.{flat_map};
ghost use Rattle.octseq_utf8.specs.Chunk.{Chunk, IsFirstChunk, AreChunks, chunk_parts, chunk_text};
ghost use Rattle.octseq_utf8.specs.Encoding.{IsEncoding, IsCharacter, number_of, encoding_of};
ghost use Rattle.octseq_utf8.specs.Fault.{Fault, IsFault};
ghost use Rattle.octseq_utf8.specs.Parts.{IsBadPart, Part, Char, Bad, Splits, text_with, text};
ghost use Rattle.octseq_utf8.specs.Text.{Spells, IsWellFormed, chars, octets_of};

/// Each character has one encoding, each encoding encodes one character, and no encoding begins another.
pub fn one_encoding()
    ensures encodes { (c : ℕ) → IsCharacter c → IsEncoding (encoding_of c) × (number_of (encoding_of c) ≡ c) }
    ensures only { (e f : List ℕ) → IsEncoding e → IsEncoding f → number_of e ≡ number_of f → e ≡ f }
    ensures character { (e : List ℕ) → IsEncoding e → IsCharacter (number_of e) }
    ensures no_front { (e more : List ℕ) → IsEncoding e → IsEncoding (e ++ more) → more ≡ [] }
{}

/// Octets spell at most one list of characters, and a list of characters is spelled by at most one list of octets.
pub fn one_spelling()
    ensures characters { (octets characters : List ℕ) → Spells octets characters → chars octets ≡ characters }
    ensures octets { (octets characters : List ℕ) → Spells octets characters → octets_of characters ≡ octets }
{}

/// std's definitions of well-formed octets and of a character's octets mean the same.
pub fn same_in_std()
    ensures well_formed { (octets : List ℕ) → IsWellFormed octets ↔ IsUtf8 octets }
    ensures encoding { (c : ℕ) → encode_utf8 c ≡ encoding_of c }
{}

/// All octets split into parts, in exactly one way. Characters, a bad part and a splitting of what follows make a
/// splitting of the whole.
pub fn one_splitting()
    ensures exists { (octets : List ℕ) → (parts : List Part) × Splits octets parts }
    ensures only { (octets : List ℕ) (parts others : List Part)
        → Splits octets parts → Splits octets others → parts ≡ others }
    ensures joined { (good characters bad rest : List ℕ) (parts : List Part)
        → Spells good characters → IsBadPart (bad ++ rest) bad → Splits rest parts
        → Splits (good ++ (bad ++ rest)) (map Char characters ++ (Bad bad ∷ parts)) }
{}

/// Octets have at most one fault, and if they have one they aren't well formed. If the fault has a size, it is 1 to 3.
pub fn one_fault()
    ensures only { (octets : List ℕ) (fault other : Fault)
        → IsFault octets fault → IsFault octets other → fault ≡ other }
    ensures refutes { (octets : List ℕ) (fault : Fault) → IsFault octets fault → ¬ IsWellFormed octets }
    ensures size { (octets : List ℕ) (place n : ℕ)
        → IsFault octets (record { place = place; size = Some n }) → (1 ≤ n) × (n ≤ 3) }
{}

/// The lossy text is well formed and no shorter than its source. For well-formed octets it is those octets, so a second
/// reading changes nothing.
pub fn lossy_text()
    ensures well_formed { (octets : List ℕ) (parts : List Part) → Splits octets parts → IsWellFormed (text parts) }
    ensures longer { (octets : List ℕ) (parts : List Part) → Splits octets parts → length octets ≤ length (text parts) }
    ensures same { (octets : List ℕ) (parts : List Part)
        → IsWellFormed octets → Splits octets parts → text parts ≡ octets }
    ensures again { (octets : List ℕ) (parts others : List Part)
        → Splits octets parts → Splits (text parts) others → text others ≡ text parts }
{}

/// The chunks of octets are their one splitting: each is its characters, followed by the bad part. So the lossy text is
/// the text of the first chunk followed by the lossy text of the rest.
pub fn chunks_are_parts()
    ensures splits { (octets : List ℕ) (chunks : List Chunk)
        → AreChunks octets chunks → Splits octets (flat_map chunk_parts chunks) }
    ensures first { (octets after : List ℕ) (chunk : Chunk) (parts rest : List Part)
        → IsFirstChunk octets chunk after → Splits octets parts → Splits after rest
        → parts ≡ chunk_parts chunk ++ rest }
    ensures text { (octets after : List ℕ) (chunk : Chunk) (parts rest : List Part) (w : ℕ)
        → IsFirstChunk octets chunk after → Splits octets parts → Splits after rest
        → text_with w parts ≡ chunk_text w chunk ++ text_with w rest }
{}
