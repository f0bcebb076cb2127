//! Encodings recognized in a word of four octets, by one mask each.
ghost use Rattle.std.specs.Prelude.{◌≡◌, ◌+◌, ◌<◌, ◌≤◌, ◌++◌, [], ◌∷◌, true, length, take, drop};
ghost use Rattle.std.specs.Int.{w32, to_le_bytes};
ghost use Rattle.octseq_utf8.specs.Encoding.{IsEncoding};

/// The four octets from `at` on, the first one lowest.
#[inline(always)]
pub(crate) fn word_at(octets: &[u8], at: usize) -> u32
    requires { at + 4 ≤ length octets.now }
    ensures { to_le_bytes w32 result ≡ take 4 (drop at octets.now) }
{
    match octets[at..at + 4].split_first_chunk::<4>() {
        Some((four, _)) => u32::from_le_bytes(*four),
        None => 0,
    }
}

/// The last one to three octets, from `at` on, followed by zeros: the last word, shifted.
#[inline(always)]
pub(crate) fn last_word(octets: &[u8], at: usize) -> u32
    requires some { at < length octets.now }
    requires few { length octets.now < at + 4 }
    requires word { 4 ≤ length octets.now }
    ensures { to_le_bytes w32 result ≡ take 4 (drop at octets.now ++ 0 ∷ 0 ∷ 0 ∷ []) }
{
    let missing = 4 - (octets.len() - at);
    word_at(octets, octets.len() - 4) >> (8 * missing as u32)
}

/// Whether an encoding of two octets is at the front of the word: the first is in C2..DF, and the second has the top
/// bits 10.
#[inline(always)]
pub(crate) fn begins_two(word: u32) -> bool
    ensures { result ≡ true → IsEncoding (take 2 (to_le_bytes w32 word)) }
{
    let lead = word & 0xC0FF;
    0x80C2 <= lead && lead <= 0x80DF
}

/// Whether the word is two encodings of two octets: each first octet has the top bits 110 and isn't C0 or C1, and each
/// second one has the top bits 10.
#[inline(always)]
pub(crate) fn is_pair_of_two(word: u32) -> bool
    ensures first { result ≡ true → IsEncoding (take 2 (to_le_bytes w32 word)) }
    ensures second { result ≡ true → IsEncoding (drop 2 (to_le_bytes w32 word)) }
{
    if word & 0xC0E0_C0E0 != 0x80C0_80C0 {
        return false;
    }
    // (in C0 and C1 these bits are 0; in all other first octets the sum carries)
    let carried = (word & 0x1E_001E) + 0x1E_001E;
    carried & 0x20_0020 == 0x20_0020
}

/// Whether an encoding of three octets is at the front of the word: the top bits are as in the table, and the first and
/// the second octet aren't E0 80..9F or ED A0..BF.
#[inline(always)]
pub(crate) fn begins_three(word: u32) -> bool
    ensures { result ≡ true → IsEncoding (take 3 (to_le_bytes w32 word)) }
{
    if word & 0xC0_C0F0 != 0x80_80E0 {
        return false;
    }
    let nibbles = word & 0x200F;
    if nibbles == 0 {
        return false;
    }
    nibbles != 0x200D
}

/// Whether the word is an encoding of four octets: the top bits are as in the table, and the bits of the number in the
/// first two octets are in the range of 10000..10FFFF.
#[inline(always)]
pub(crate) fn is_four(word: u32) -> bool
    ensures { result ≡ true → IsEncoding (to_le_bytes w32 word) }
{
    if word & 0xC0C0_C0F8 != 0x8080_80F0 {
        return false;
    }
    let high = (word & 7) << 8 | (word >> 8) & 0x3F;
    high.wrapping_sub(0x10) < 0x400
}

/// Whether an encoding of `LEN` octets is at the front of the word, if `LEN` is two, three or four.
#[inline(always)]
pub(crate) fn begins<const LEN: usize>(word: u32) -> bool
    ensures { result ≡ true → IsEncoding (take LEN (to_le_bytes w32 word)) }
{
    match LEN {
        2 => begins_two(word),
        3 => begins_three(word),
        4 => is_four(word),
        _ => false,
    }
}
