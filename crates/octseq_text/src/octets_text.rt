//! Octets and addresses as a text shows them: in hexadecimal, in quotation marks, or as the address that they are.
ghost use Rattle.std.specs.Prelude.{◌≡◌, ◌+◌, ◌<◌, ◌∷◌, []};
ghost use Rattle.std.specs.Fmt.{WritesOnOk};
ghost use Rattle.std.specs.List.{flat_map};
ghost use Rattle.std.specs.Net.Text.{ipv4_text};
ghost use Rattle.octseq_text.specs.OctetsText.{is_compatible, ipv6_address_text, is_string_quoted, string_octet_text};
ghost use Rattle.octseq_text.specs.OctetsText.{string_text, hex_text, opaque_text, three_digits};

use std::fmt;
use std::net::{Ipv4Addr, Ipv6Addr};

/// Writes each octet as two lower-case hexadecimal digits.
pub fn write_hex<W: fmt::Write>(f: &mut fmt::Formatter<W>, octets: &[u8]) -> fmt::Result
    ensures { WritesOnOk W.write_str_gives f.old result (flat_map hex_text octets.now) f.new }
{
    for octet in octets {
        write_hex_octet(f, *octet)?;
    }
    Ok(())
}

/// Writes an octet as two lower-case hexadecimal digits.
pub fn write_hex_octet<W: fmt::Write>(f: &mut fmt::Formatter<W>, octet: u8) -> fmt::Result
    ensures { WritesOnOk W.write_str_gives f.old result (hex_text octet) f.new }
{
    write!(f, "{octet:02x}")
}

/// Writes octets of no known form as RFC 3597, 5, has it: `\#`, their number, and the octets in hexadecimal if there
/// are any.
pub fn write_opaque<W: fmt::Write>(f: &mut fmt::Formatter<W>, octets: &[u8]) -> fmt::Result
    ensures { WritesOnOk W.write_str_gives f.old result (opaque_text octets.now) f.new }
{
    let len = octets.len();
    write!(f, "\\# {len}")?;
    if octets.is_empty() {
        return Ok(());
    }
    f.write_char(' ')?;
    write_hex(f, octets)
}

/// Writes octets, of any number, as a string in `"`: `"` and `\` after a backslash, other octets of 20 to 7E
/// (hexadecimal) as they are, and all others as a backslash and three decimal digits.
pub fn write_string<W: fmt::Write>(f: &mut fmt::Formatter<W>, octets: &[u8]) -> fmt::Result
    ensures { WritesOnOk W.write_str_gives f.old result (string_text octets.now) f.new }
{
    f.write_char('"')?;
    for octet in octets {
        write_string_octet(f, *octet)?;
    }
    f.write_char('"')
}

/// Writes an octet of a string, as [`write_string`] does.
pub fn write_string_octet<W: fmt::Write>(f: &mut fmt::Formatter<W>, octet: u8) -> fmt::Result
    ensures { WritesOnOk W.write_str_gives f.old result (string_octet_text octet) f.new }
{
    if needs_backslash(octet) {
        f.write_char('\\')?;
        return f.write_char(char::from(octet));
    }
    if octet == b' ' || octet.is_ascii_graphic() {
        return f.write_char(char::from(octet));
    }
    f.write_char('\\')?;
    write_digits(f, octet)
}

/// Whether an octet of a string is written after a backslash.
fn needs_backslash(octet: u8) -> bool
    ensures { result ≡ is_string_quoted octet }
{
    matches!(octet, b'"' | b'\\')
}

/// Writes a number as three decimal digits, as they follow the backslash of an escape.
pub fn write_digits<W: fmt::Write>(f: &mut fmt::Formatter<W>, number: u8) -> fmt::Result
    ensures { WritesOnOk W.write_str_gives f.old result (three_digits number) f.new }
{
    write_digit(f, number / 100)?;
    write_digit(f, number / 10 % 10)?;
    write_digit(f, number % 10)
}

/// Writes one decimal digit.
fn write_digit<W: fmt::Write>(f: &mut fmt::Formatter<W>, digit: u8) -> fmt::Result
    requires { digit < 10 }
    ensures { WritesOnOk W.write_str_gives f.old result ((48 + digit) ∷ []) f.new }
{
    f.write_char(char::from(b'0' + digit))
}

/// Writes four octets as an IPv4 address.
pub fn write_ipv4<W: fmt::Write>(f: &mut fmt::Formatter<W>, octets: [u8; 4]) -> fmt::Result
    ensures { WritesOnOk W.write_str_gives f.old result (ipv4_text octets) f.new }
{
    let address = Ipv4Addr::from_octets(octets);
    write!(f, "{address}")
}

/// Writes sixteen octets as an IPv6 address, as RFC 5952 has it. An IPv4-compatible or IPv4-mapped address ends in an
/// IPv4 address.
pub fn write_ipv6<W: fmt::Write>(f: &mut fmt::Formatter<W>, octets: [u8; 16]) -> fmt::Result
    ensures { WritesOnOk W.write_str_gives f.old result (ipv6_address_text octets) f.new }
{
    if is_compatible(octets) {
        let [.., a, b, c, d] = octets;
        let tail = Ipv4Addr::new(a, b, c, d);
        return write!(f, "::{tail}");
    }
    let address = Ipv6Addr::from_octets(octets);
    write!(f, "{address}")
}

/// Whether an IPv6 address is shown as `::` and an IPv4 address of its last four octets.
fn is_compatible(octets: [u8; 16]) -> bool
    ensures { result ≡ is_compatible octets }
{
    octets[..12] == [0; 12] && octets[12..14] != [0; 2]
}
