//! Numbers: RFC 1035, 5.1.
ghost use Rattle.std.specs.Prelude.{◌≡◌, ℕ, ◌^◌, ◌<◌, ◌≤◌, length};
ghost use Rattle.std.specs.Option.{SomeIff};
ghost use Rattle.std.specs.Fmt.{decimal};
ghost use Rattle.std.specs.Str.Parse.{IsNumeral, digits_value};
ghost use Rattle.octseq_dns_scan.specs.Word.{IsWord};

/// The maximum number of digits of a TTL.
const TTL_DIGITS: usize = 10;

/// A number is read as std's `Display` shows it, and what that shows is a word.
///
/// It does nothing. Calling it brings the law into the caller's proof.
pub fn a_number_is_read_as_shown()
    ensures digits { (n : ℕ) → n < 2 ^ 64 → IsNumeral 10 (decimal n) }
    ensures value { (n : ℕ) → n < 2 ^ 64 → digits_value 10 (decimal n) ≡ n }
    ensures word { (n : ℕ) → n < 2 ^ 64 → IsWord (decimal n) }
    ensures ttl { (n : ℕ) → n < 2 ^ 32 → length (decimal n) ≤ 10 }
{}

/// Reads a number of one or more decimal digits, with no sign. Returns `None` for other octets, and if the number is
/// greater than `max`.
pub fn scan_number(word: &[u8], max: u32) -> Option<u32>
    ensures { SomeIff result (IsNumeral 10 word.now × (digits_value 10 word.now ≤ max)) (digits_value 10 word.now) }
{
    let number = scan_digits(word, u64::from(max))?;
    Some(number as u32)
}

/// Reads a number as [`scan_number`] does.
pub(crate) fn scan_digits(word: &[u8], max: u64) -> Option<u64>
    requires { max < 2 ^ 60 }
    ensures { SomeIff result (IsNumeral 10 word.now × (digits_value 10 word.now ≤ max)) (digits_value 10 word.now) }
{
    if word.is_empty() {
        return None;
    }
    let mut value = 0;
    for octet in word {
        if !octet.is_ascii_digit() {
            return None;
        }
        value = value * 10 + u64::from(*octet - b'0');
        if value > max {
            return None;
        }
    }
    Some(value)
}

/// Reads a number up to 255 as [`scan_number`] does.
pub fn scan_u8(word: &[u8]) -> Option<u8>
    ensures { SomeIff result (IsNumeral 10 word.now × (digits_value 10 word.now ≤ 255)) (digits_value 10 word.now) }
{
    let number = scan_number(word, u32::from(u8::MAX))?;
    Some(number as u8)
}

/// Reads a number up to 65,535 as [`scan_number`] does.
pub fn scan_u16(word: &[u8]) -> Option<u16>
    ensures { SomeIff result (IsNumeral 10 word.now × (digits_value 10 word.now ≤ 65535)) (digits_value 10 word.now) }
{
    let number = scan_number(word, u32::from(u16::MAX))?;
    Some(number as u16)
}

/// Reads a number up to 4,294,967,295 as [`scan_number`] does.
pub fn scan_u32(word: &[u8]) -> Option<u32>
    ensures { SomeIff result (IsNumeral 10 word.now × (digits_value 10 word.now ≤ 4294967295))
        (digits_value 10 word.now) }
{
    scan_number(word, u32::MAX)
}

/// Reads a TTL in seconds: a number up to 4,294,967,295 of at most ten digits.
pub fn scan_ttl(word: &[u8]) -> Option<u32>
    ensures { SomeIff result
        (IsNumeral 10 word.now × (length word.now ≤ 10) × (digits_value 10 word.now ≤ 4294967295))
        (digits_value 10 word.now) }
{
    if word.len() > TTL_DIGITS {
        return None;
    }
    scan_number(word, u32::MAX)
}
