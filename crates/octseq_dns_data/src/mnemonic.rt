//! Named numbers, by a table.
ghost use Rattle.std.specs.Prelude.{◌≡◌, ℕ, ◌<◌, option_copied, map, IfSome, IfNone};
ghost use Rattle.std.specs.Fmt.{WritesOnOk};
ghost use Rattle.std.specs.Option.{SomeIff};
ghost use Rattle.std.specs.Str.{str_eq_ignore_ascii_case};
ghost use Rattle.std.specs.Str.Parse.{IsNumeral, digits_value};
ghost use Rattle.octseq_dns_data.specs.Mnemonic.{name_in, name_or, number_in, IsMnemonicText, IsWordAndNumber};

use std::{fmt, str};

/// Writes the name of a number. If it has none, writes the word and the number.
pub(crate) fn write_named<W: fmt::Write>(
    f: &mut fmt::Formatter<W>,
    names: &[(u16, &'static str)],
    word: &str,
    number: u16,
) -> fmt::Result
    ensures { WritesOnOk W.write_str_gives f.old result
        (name_or word.now (map (λ named. (named.0, named.1.now)) names.now) number) f.new }
{
    match name_of(names, number) {
        Some(name) => f.write_str(name),
        None => write!(f, "{word}{number}"),
    }
}

/// Returns the name of a number.
fn name_of(mut names: &[(u16, &'static str)], number: u16) -> Option<&'static str>
    ensures { option_copied result ≡ name_in (map (λ named. (named.0, named.1.now)) names.entry.now) number }
{
    while let [named, more @ ..] = names {
        if named.0 == number {
            return Some(named.1);
        }
        names = more;
    }
    None
}

/// Returns the number whose name the text is, or the number that follows the word in it. Letters are of either case.
pub(crate) fn read_number(names: &[(u16, &'static str)], word: &str, text: &str) -> Option<u16>
    ensures some { IfSome result (IsMnemonicText word.now (map (λ named. (named.0, named.1.now)) names.now) text.now) }
    ensures none { IfNone result ((number : ℕ)
        → ¬ IsMnemonicText word.now (map (λ named. (named.0, named.1.now)) names.now) text.now number) }
{
    match number_of(names, text) {
        Some(number) => Some(number),
        None => number_after(word.as_bytes(), text.as_bytes()),
    }
}

/// Returns the number whose name the text is, in letters of either case.
fn number_of(mut names: &[(u16, &'static str)], text: &str) -> Option<u16>
    ensures { result ≡ number_in (map (λ named. (named.0, named.1.now)) names.entry.now) text.now }
{
    while let [named, more @ ..] = names {
        if has_letters(text, named.1) {
            return Some(named.0);
        }
        names = more;
    }
    None
}

/// Whether a text is a name, in letters of either case.
fn has_letters(text: &str, name: &str) -> bool
    ensures { result ≡ str_eq_ignore_ascii_case text.now name.now }
{
    text.eq_ignore_ascii_case(name)
}

/// Returns the number of 16 bits that follows a word, whose letters are of either case.
fn number_after(word: &[u8], text: &[u8]) -> Option<u16>
    ensures some { IfSome result (IsWordAndNumber word.now text.now) }
    ensures none { IfNone result ((number : ℕ) → ¬ IsWordAndNumber word.now text.now number) }
{
    let (letters, digits) = text.split_at_checked(word.len())?;
    if letters.eq_ignore_ascii_case(word) {
        return decimal_number(digits);
    }
    None
}

/// Returns the number of 16 bits that one or more decimal digits write.
fn decimal_number(digits: &[u8]) -> Option<u16>
    ensures { SomeIff result (IsNumeral 10 digits.now × (digits_value 10 digits.now < 65536))
        (digits_value 10 digits.now) }
{
    if digits.first().copied() == Some(b'+') {
        return None;
    }
    match str::from_utf8(digits) {
        Ok(digits) => digits.parse().ok(),
        Err(_) => None,
    }
}
