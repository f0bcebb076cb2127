//! The character strings of data.
ghost use Rattle.std.specs.Prelude.{◌≡◌, ◌≤◌, ℕ, List, IsErr, IfOk};
ghost use Rattle.octseq.specs.Parser.{window};
ghost use Rattle.octseq.specs.Part.{part};
ghost use Rattle.octseq.specs.Window.{Window, left, rest};
ghost use Rattle.octseq_dns_data.specs.Strings.{HasString};

use octseq::{AsOctets, Parser};
use octseq_dns_name::Malformed;
use octseq_format::{Counted, Format, Nested, U8, are_octets};

/// The format of a character string: octets with a length of one octet before them.
pub(crate) type CharacterString = Counted<U8, Nested, 0>;

/// Reads the next string. Returns a parser of its octets.
pub(crate) fn take_string<R: AsOctets + Copy>(
    parser: &mut Parser<R>,
) -> Result<Parser<R>, Malformed>
    ensures string { IfOk result (λ string.
        HasString (window parser.old) (rest (window string)) (window parser.new)) }
    ensures short { IfOk result (λ string. left (window string) ≤ 255) }
    ensures place { IfOk result (λ string. window string ≡ part 1 (window parser.old)) }
    ensures malformed { IsErr result → (string : List ℕ) (v : Window) → ¬ HasString (window parser.old) string v }
{
    let sequence = parser.octets_ref();
    are_octets(sequence.as_ref());
    let string = CharacterString::parse(parser)?;
    Ok(string)
}
