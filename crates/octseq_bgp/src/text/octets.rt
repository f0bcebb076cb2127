//! The text of octets and of addresses.
ghost use Rattle.std.specs.Prelude.{◌≡◌, ◌∷◌, []};
ghost use Rattle.std.specs.Fmt.{WritesOnOk};
ghost use Rattle.octseq.specs.OctetsText.{opaque_text};
ghost use Rattle.octseq_bgp.specs.OctetsText.{number_dotted, number_hex, spaced};
ghost use Rattle.octseq_bgp.specs.OctetsText.{first_octet, second_octet, third_octet, fourth_octet};
ghost use Rattle.octseq_bgp.specs.Text.{address_text};

use crate::family::Afi;
use octseq::octets_text::{self, write_hex_octet, write_ipv4, write_ipv6};
use std::fmt;

/// Writes an address of a family. An IPv4 address is the first four octets.
#[tactic(auto, unfolding(crate::specs::Text::address_text))]
pub fn write_address<W: fmt::Write>(
    f: &mut fmt::Formatter<W>,
    afi: Afi,
    octets: [u8; 16],
) -> fmt::Result
    ensures { WritesOnOk W.write_str_gives f.old result (address_text afi octets) f.new }
{
    match afi {
        Afi::Ipv4 => {
            let [a, b, c, d, ..] = octets;
            write_ipv4(f, [a, b, c, d])
        }
        Afi::Ipv6 => write_ipv6(f, octets),
    }
}

/// Writes a number as an IPv4 address.
#[tactic(auto, unfolding(crate::specs::OctetsText::number_dotted))]
pub fn write_dotted<W: fmt::Write>(f: &mut fmt::Formatter<W>, number: u32) -> fmt::Result
    ensures { WritesOnOk W.write_str_gives f.old result (number_dotted number) f.new }
{
    write_ipv4(f, octets_of(number))
}

/// Returns the four octets of a number.
fn octets_of(number: u32) -> [u8; 4]
    ensures { result ≡ first_octet number ∷ second_octet number ∷ third_octet number ∷ fourth_octet number ∷ [] }
{
    [
        (number / 16777216) as u8,
        (number / 65536 % 256) as u8,
        (number / 256 % 256) as u8,
        (number % 256) as u8,
    ]
}

/// Writes a number as eight hexadecimal digits.
pub(crate) fn write_number_hex<W: fmt::Write>(f: &mut fmt::Formatter<W>, number: u32) -> fmt::Result
    ensures { WritesOnOk W.write_str_gives f.old result (number_hex number) f.new }
{
    let [a, b, c, d] = octets_of(number);
    write_hex_octet(f, a)?;
    write_hex_octet(f, b)?;
    write_hex_octet(f, c)?;
    write_hex_octet(f, d)
}

/// Writes a space, the number of octets, and the octets if there are any, as RFC 3597, 5, has it.
pub fn write_opaque<W: fmt::Write>(f: &mut fmt::Formatter<W>, octets: &[u8]) -> fmt::Result
    ensures { WritesOnOk W.write_str_gives f.old result (spaced (opaque_text octets.now)) f.new }
{
    f.write_char(' ')?;
    octets_text::write_opaque(f, octets)
}
