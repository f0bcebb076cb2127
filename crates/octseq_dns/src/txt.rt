//! Writing TXT data, from strings or from one text: RFC 1035, 3.3 and 3.3.14.
ghost use Rattle.std.specs.Prelude.{◌≡◌, ◌↔◌, ℕ, ◌+◌, ◌++◌, ◌≤◌, true, List, length, map, IsTrue, OnOk, OnErr};
ghost use Rattle.octseq.specs.Appends.{Appends};
ghost use Rattle.octseq.specs.Limit.{ExceedsLimit};
ghost use Rattle.octseq.specs.Part.{part_of};
ghost use Rattle.octseq.specs.Refusal.{IsMalformed, IsMemory, IsShort, append_error, write_error};
ghost use Rattle.octseq.specs.Window.{Window, whole};
ghost use Rattle.octseq_dns_data.specs.Data.{HasStrings};
ghost use Rattle.octseq_dns_data.specs.Strings.{spelling};
ghost use Rattle.octseq_dns.specs.TxtWritten.{AreTxtStrings, strings_of_text};

use octseq::compose::{ComposeError, append_part_u8};
use octseq::error::WriteError;
use octseq::{AppendError, OctetsBuilder, ShortBuf, Truncate};

/// The greatest length of a string: RFC 1035, 3.3.
const STRING_MAX: usize = 255;

/// Appends TXT data with these strings, whole or not at all. Each string is preceded by its length in one octet.
/// [`Txt::from_octets`](octseq_dns_data::data::Txt::from_octets) reads them.
///
/// # Errors
///
/// `Malformed` exactly if there is no string, or one has more than 255 octets. Otherwise `Short` if the content would
/// exceed the limit of its type, and `Memory` if a request for memory was refused. The content is then unchanged.
///
/// # Examples
///
/// ```
/// // crates/octseq_examples/src/dns.rt
/// let mut octets = Array::<16>::new();
/// append_strings(&mut octets, &[b"mail".as_slice(), b"web"])?; // "\x04mail\x03web"
/// let txt = Txt::from_octets(octets.as_slice())?;
/// let text = format!(in alloc; "{txt}")?; // "mail" "web"
/// ```
pub fn append_strings<B: OctetsBuilder + Truncate>(
    octets: &mut B,
    strings: &[&[u8]],
) -> Result<(), WriteError>
    ensures ok { OnOk result (B.content octets.new
        ≡ B.content octets.old ++ spelling (map (λ string. string.now) strings.now)) }
    ensures err { OnErr result (B.content octets.new ≡ B.content octets.old) }
    ensures fits { OnOk result (¬ ExceedsLimit B.limit
        (length (B.content octets.old) + length (spelling (map (λ string. string.now) strings.now)))) }
    ensures malformed { IsMalformed write_error result ↔ ¬ AreTxtStrings (map (λ string. string.now) strings.now) }
    ensures short { IsShort write_error result → ExceedsLimit B.limit
        (length (B.content octets.old) + length (spelling (map (λ string. string.now) strings.now))) }
    ensures memory { IsMemory write_error result → B.asks ≡ true }
    ensures borrows { B.borrows octets.new ≡ B.borrows octets.old }
{
    if !are_strings(strings) {
        return Err(WriteError::Malformed);
    }
    match append_each(octets, strings) {
        Ok(()) => Ok(()),
        Err(AppendError::Short(_)) => Err(WriteError::Short),
        Err(AppendError::Memory) => Err(WriteError::Memory),
    }
}

/// Appends TXT data with a text: strings of 255 octets, followed by one with the rest. An empty text is one empty
/// string. [`Txt::from_octets`](octseq_dns_data::data::Txt::from_octets) reads them.
///
/// # Errors
///
/// `Short` if the content would exceed the limit of its type, and `Memory` if a request for memory was refused. The
/// content is then unchanged.
///
/// # Examples
///
/// ```
/// // crates/octseq_examples/src/dns.rt
/// let mut octets = Array::<512>::new();
/// append_text(&mut octets, &[b'a'; 300])?;
/// let mut lens = Vec::new(alloc);
/// for string in Txt::from_octets(octets.as_slice())?.strings() {
///     lens.push(string.as_slice().len())?; // 255, and then 45
/// }
/// ```
pub fn append_text<B: OctetsBuilder + Truncate>(
    octets: &mut B,
    text: &[u8],
) -> Result<(), AppendError>
    ensures ok { OnOk result (B.content octets.new
        ≡ B.content octets.old ++ spelling (strings_of_text text.now)) }
    ensures err { OnErr result (B.content octets.new ≡ B.content octets.old) }
    ensures fits { OnOk result (¬ ExceedsLimit B.limit
        (length (B.content octets.old) + length (spelling (strings_of_text text.now)))) }
    ensures strings { AreTxtStrings (strings_of_text text.now) }
    ensures short { IsShort append_error result → ExceedsLimit B.limit
        (length (B.content octets.old) + length (spelling (strings_of_text text.now))) }
    ensures memory { IsMemory append_error result → B.asks ≡ true }
    ensures borrows { B.borrows octets.new ≡ B.borrows octets.old }
{
    let start = octets.len();
    let mut left = text;
    while left.len() > STRING_MAX {
        let (string, rest) = left.split_at(STRING_MAX);
        if let Err(error) = append_string(octets, string) {
            octets.truncate(start);
            return Err(error);
        }
        left = rest;
    }
    if let Err(error) = append_string(octets, left) {
        octets.truncate(start);
        return Err(error);
    }
    Ok(())
}

/// Strings that were written are read as those strings: `Txt::from_octets` returns them.
///
/// It does nothing. Calling it brings the law into the caller's proof.
pub fn strings_are_read_as_written()
    ensures { (strings : List (List ℕ)) → AreTxtStrings strings → (end : Window)
        × HasStrings (whole (spelling strings)) strings end × (end.position ≡ length (spelling strings)) }
{}

/// Whether strings are TXT data.
fn are_strings(strings: &[&[u8]]) -> bool
    ensures { IsTrue result ↔ AreTxtStrings (map (λ string. string.now) strings.now) }
{
    if strings.is_empty() {
        return false;
    }
    for string in strings {
        if string.len() > STRING_MAX {
            return false;
        }
    }
    true
}

/// Appends strings that are TXT data, whole or not at all.
fn append_each<B: OctetsBuilder + Truncate>(
    octets: &mut B,
    strings: &[&[u8]],
) -> Result<(), AppendError>
    requires { AreTxtStrings (map (λ string. string.now) strings.now) }
    ensures ok { OnOk result (B.content octets.new
        ≡ B.content octets.old ++ spelling (map (λ string. string.now) strings.now)) }
    ensures err { OnErr result (B.content octets.new ≡ B.content octets.old) }
    ensures fits { OnOk result (¬ ExceedsLimit B.limit
        (length (B.content octets.old) + length (spelling (map (λ string. string.now) strings.now)))) }
    ensures short { IsShort append_error result → ExceedsLimit B.limit
        (length (B.content octets.old) + length (spelling (map (λ string. string.now) strings.now))) }
    ensures memory { IsMemory append_error result → B.asks ≡ true }
    ensures borrows { B.borrows octets.new ≡ B.borrows octets.old }
{
    let start = octets.len();
    for string in strings {
        if let Err(error) = append_string(octets, string) {
            octets.truncate(start);
            return Err(error);
        }
    }
    Ok(())
}

/// Appends a string, preceded by its length.
fn append_string<B: OctetsBuilder + Truncate>(
    octets: &mut B,
    string: &[u8],
) -> Result<(), AppendError>
    requires { length string.now ≤ 255 }
    ensures appended { Appends B.limit B.asks result (part_of 1 string.now)
        (B.content octets.old) (B.content octets.new) }
    ensures borrows { B.borrows octets.new ≡ B.borrows octets.old }
{
    match append_part_u8(octets, string) {
        Ok(()) => Ok(()),
        Err(ComposeError::Short) => Err(AppendError::Short(ShortBuf)),
        Err(ComposeError::Memory) => Err(AppendError::Memory),
        Err(ComposeError::TooLong) => unreachable!(),
    }
}
