//! The text of names.
ghost use Rattle.std.specs.Prelude.{◌≡◌, ℕ, ◌<◌, ◌≤◌, ◌+◌, List, [], ◌∷◌, Some};
ghost use Rattle.std.specs.Fmt.{WritesOnOk};
ghost use Rattle.octseq_dns_name.specs.Name.{wire_length};
ghost use Rattle.octseq_dns_name.specs.Origin.{SpellsWithOrigin};
ghost use Rattle.octseq_dns_name.specs.Read.{labels_of, label_octets};
ghost use Rattle.octseq_dns_name.specs.Spelling.{AreOctetLabels, SpellsName};
ghost use Rattle.octseq_dns_name.specs.Wire.{AreLabels};
ghost use Rattle.octseq_dns_name.specs.Text.{is_quoted, octet_text, label_text, name_text};

use crate::name::{Label, ParsedName};
use octseq::AsOctets;
use octseq::octets_text::write_digits;
use octseq_format::are_octets;
use std::fmt;

/// A text spells at most one name.
///
/// It does nothing. Calling it brings the law into the caller's proof.
pub fn one_name_of_a_text()
    ensures { (labels others : List (List ℕ)) (text : List ℕ) → AreLabels labels → AreLabels others
        → SpellsName labels text → SpellsName others text → labels ≡ others }
{}

/// A text spells at most one name with an origin.
///
/// It does nothing. Calling it brings the law into the caller's proof.
pub fn one_name_of_a_text_with_origin()
    ensures { (origin labels others : List (List ℕ)) (text : List ℕ) → AreLabels labels → wire_length labels ≤ 255
        → AreLabels others → wire_length others ≤ 255 → SpellsWithOrigin origin labels text
        → SpellsWithOrigin origin others text → labels ≡ others }
{}

/// The printed text of a name spells it, so it is read back as that name.
///
/// It does nothing. Calling it brings the law into the caller's proof.
pub fn a_name_is_spelled_by_its_text()
    ensures { (labels : List (List ℕ)) → AreOctetLabels labels → SpellsName labels (name_text labels) }
{}

/// The printed text of a name spells it with any origin, and no other name, so it is read back as that name.
///
/// It does nothing. Calling it brings the law into the caller's proof.
pub fn a_name_is_spelled_by_its_text_with_origin()
    ensures spells { (origin labels : List (List ℕ)) → AreOctetLabels labels
        → SpellsWithOrigin origin labels (name_text labels) }
    ensures one { (origin labels others : List (List ℕ)) → AreOctetLabels labels → AreLabels labels
        → wire_length labels ≤ 255 → AreLabels others → wire_length others ≤ 255
        → SpellsWithOrigin origin others (name_text labels) → others ≡ labels }
{}

/// The labels of a name have 1 to 63 octets each, so its printed text is read back as that name.
///
/// It only borrows the octets. Calling it brings the law into the caller's proof.
pub fn a_name_has_labels<R: AsOctets + Copy>(name: &ParsedName<R>)
    ensures labels { AreLabels (labels_of name.now) }
    ensures octets { AreOctetLabels (labels_of name.now) }
{
    let sequence = name.parser.octets_ref();
    are_octets(sequence.as_ref());
}

/// Prints the octets of the label: each of `"().;\@$` after a backslash, other visible ASCII (21 to 7E, hexadecimal) as
/// itself, and any other octet as a backslash and three decimal digits.
impl<R: AsOctets> fmt::Display for Label<R> {
    ghost output = { λ label. Some (label_text (label_octets label)) };

    fn fmt<W: fmt::Write>(&self, f: &mut fmt::Formatter<W>) -> fmt::Result {
        for octet in self.as_slice() {
            write_octet(f, *octet)?;
        }
        Ok(())
    }
}

/// Prints each label followed by a full stop, and the root as `.`.
impl<R: AsOctets + Copy> fmt::Display for ParsedName<R> {
    ghost output = { λ name. Some (name_text (labels_of name)) };

    fn fmt<W: fmt::Write>(&self, f: &mut fmt::Formatter<W>) -> fmt::Result {
        if self.is_root() {
            return f.write_str(".");
        }
        for label in self.labels() {
            write!(f, "{label}.")?;
        }
        Ok(())
    }
}

/// Writes an octet of a label.
fn write_octet<W: fmt::Write>(f: &mut fmt::Formatter<W>, octet: u8) -> fmt::Result
    ensures { WritesOnOk W.write_str_gives f.old result (octet_text octet) f.new }
{
    if needs_backslash(octet) {
        f.write_char('\\')?;
        return f.write_char(char::from(octet));
    }
    if octet.is_ascii_graphic() {
        return f.write_char(char::from(octet));
    }
    f.write_char('\\')?;
    write_digits(f, octet)
}

/// Whether a visible octet is written after a backslash.
pub(crate) fn needs_backslash(octet: u8) -> bool
    ensures { result ≡ is_quoted octet }
{
    matches!(
        octet,
        b'"' | b'(' | b')' | b'.' | b';' | b'\\' | b'@' | b'$'
    )
}
