//! The property tags of CAA: RFC 8659, 4.1.
ghost use Rattle.std.specs.Prelude.{IsTrue, IsFalse};
ghost use Rattle.std.specs.Fmt.{WritesOnOk};
ghost use Rattle.octseq_dns_data.specs.Tag.{IsTag};

use std::fmt;

/// Whether octets are a tag: one or more ASCII letters and digits.
pub fn is_tag(octets: &[u8]) -> bool
    ensures yes { IsTrue result → IsTag octets.now }
    ensures no { IsFalse result → ¬ IsTag octets.now }
{
    for octet in octets {
        if !octet.is_ascii_alphanumeric() {
            return false;
        }
    }
    !octets.is_empty()
}

/// Writes a tag as it is.
pub fn write_tag<W: fmt::Write>(f: &mut fmt::Formatter<W>, tag: &[u8]) -> fmt::Result
    requires { IsTag tag.now }
    ensures { WritesOnOk W.write_str_gives f.old result tag.now f.new }
{
    for octet in tag {
        f.write_char(char::from(*octet))?;
    }
    Ok(())
}
