//! Character strings: RFC 1035, 3.3 and 3.3.14.
ghost use Rattle.std.specs.Prelude.{◌≡◌, ◌≤◌, ◌+◌, ◌-◌, ⊤, Some, length, slice_range};
ghost use Rattle.std.specs.List.{All};
ghost use Rattle.octseq.specs.Parser.{window};
ghost use Rattle.octseq.specs.Window.{left};
ghost use Rattle.octseq_dns_data.specs.OneRow.{IsRowTo, strings_once};
ghost use Rattle.octseq_dns_data.specs.Strings.{HasString, spelling};

use crate::data::formed::FormedOctets;
use crate::data::string::{CharacterString, take_string};
use crate::layout::{Layout, Tail};
use octseq::octets_text::write_string;
use octseq::{AsOctets, Parser, Turns};
use octseq_dns_name::Malformed;
use octseq_format::{Format, Repeated, are_octets};
use std::alloc::AllocError;
use std::fmt;

/// A character string: at most 255 octets, where they are in the message.
#[derive(Debug)]
pub struct CharStr<R: AsOctets> {
    parser: Parser<R>,
    ghost short: { left (window parser) ≤ 255 },
}

impl<R: AsOctets + Copy> Copy for CharStr<R> {}

impl<R: AsOctets + Copy> Clone for CharStr<R> {
    ghost is_clone = { λ string copy. copy ≡ string };

    ghost is_infallible = { λ _. ⊤ };

    fn clone(&self) -> Result<Self, AllocError> {
        Ok(*self)
    }
}

impl<R: AsOctets> CharStr<R> {
    ghost use Rattle.std.specs.Prelude.{[], IsTrue, ◌↔◌};
    ghost use Rattle.octseq_dns_data.specs.Txt.{string_place, string_octets};

    /// Returns the octets.
    pub fn as_slice(&self) -> &[u8]
        ensures octets { result.now ≡ string_octets self.now }
        ensures most { length result.now ≤ 255 }
    {
        self.parser.peek_all()
    }

    /// Returns the number of octets.
    pub fn len(&self) -> usize
        ensures { result ≡ length (string_octets self.now) }
    {
        self.parser.remaining()
    }

    /// Whether the string is empty.
    pub fn is_empty(&self) -> bool
        ensures { IsTrue result ↔ (length (string_octets self.now) ≡ 0) }
    {
        self.len() == 0
    }

    /// Returns the position of the first octet, after the length, from the start of the message.
    pub fn pos(&self) -> usize
        ensures { result ≡ (string_place self.now).position }
    {
        self.parser.pos()
    }
}

impl<R: AsOctets + Copy> CharStr<R> {
    ghost use Rattle.octseq.specs.Window.{whole, rest};
    ghost use Rattle.std.specs.Prelude.{IsErr, IfOk};
    ghost use Rattle.octseq_dns_data.specs.Formed.{IsString};
    ghost use Rattle.octseq_dns_data.specs.Txt.{string_place};

    /// Reads all the octets as one string.
    ///
    /// # Errors
    ///
    /// `Malformed` if there are more than 255.
    pub fn from_octets(octets: R) -> Result<CharStr<R>, Malformed>
        ensures place { IfOk result (λ string. string_place string ≡ whole (R.content octets)) }
        ensures malformed { IsErr result → ¬ IsString (R.content octets) }
    {
        CharStr::from_parser(&Parser::from_ref(octets), &mut Turns::new())
    }
}

impl<R: AsOctets + Copy> FormedOctets<R> for CharStr<R> {
    ghost use Rattle.octseq_dns_data.specs.Formed.{IsString};
    ghost use Rattle.octseq_dns_data.specs.Txt.{string_place};

    ghost has_form = { IsString };

    ghost place = { string_place };

    ghost turns_of = { λ _. 0 };

    ghost rate = { 0 };

    #[inline(always)]
    fn from_parser(parser: &Parser<R>, _turns: &mut Turns) -> Result<CharStr<R>, Malformed> {
        if parser.peek_all().len() > 255 {
            return Err(Malformed);
        }
        Ok(CharStr { parser: *parser })
    }

    #[inline(always)]
    fn parser(&self) -> Parser<R> {
        self.parser
    }
}

/// Prints the octets of the string in `"`: `"` and `\` after a backslash, other octets of 20 to 7E (hexadecimal) as
/// they are, and all others as a backslash and three decimal digits.
impl<R: AsOctets> fmt::Display for CharStr<R> {
    ghost use Rattle.octseq.specs.OctetsText.{string_text};
    ghost use Rattle.octseq_dns_data.specs.Txt.{string_octets};

    ghost output = { λ string. Some (string_text (string_octets string)) };

    fn fmt<W: fmt::Write>(&self, f: &mut fmt::Formatter<W>) -> fmt::Result {
        write_string(f, self.as_slice())
    }
}

/// One or more character strings, one after another up to the end of the data.
#[derive(Debug)]
pub struct Txt<R: AsOctets> {
    parser: Parser<R>,
    end: usize,
    ghost strings: { IsRowTo HasString (window parser) end } by { strings_once (window parser) end },
    ghost some: { 1 ≤ length strings.0 },
    ghost begins: { (window parser).position ≤ end },
    ghost within: { end ≤ (window parser).end },
    ghost spelled: { slice_range (window parser).octets (window parser).position end ≡ spelling strings.0 },
    ghost short: { All (λ string. length string ≤ 255) strings.0 },
}

impl<R: AsOctets + Copy> Copy for Txt<R> {}

impl<R: AsOctets + Copy> Clone for Txt<R> {
    ghost is_clone = { λ txt copy. copy ≡ txt };

    ghost is_infallible = { λ _. ⊤ };

    fn clone(&self) -> Result<Self, AllocError> {
        Ok(*self)
    }
}

impl<R: AsOctets + Copy> Txt<R> {
    ghost use Rattle.std.specs.Prelude.{ℕ, List, IsErr, IfOk, OnOk};
    ghost use Rattle.octseq.specs.Window.{Window};
    ghost use Rattle.octseq_dns_data.specs.Strings.{HasStrings};
    ghost use Rattle.octseq.specs.Window.{whole};
    ghost use Rattle.octseq_dns_data.specs.Txt.{strings_of, strings_left, txt_place, strings_ahead};

    /// Reads all the octets as one or more strings, each with a length of one octet before it, as `append_part_u8`
    /// writes them. This makes data to push from text that was never in a message.
    ///
    /// # Errors
    ///
    /// `Malformed` if the octets aren't such strings.
    pub fn from_octets(octets: R) -> Result<Txt<R>, Malformed>
        ensures txt { IfOk result (λ txt. (end : Window) × HasStrings (whole (R.content octets)) (strings_of txt) end
            × (end.position ≡ length (R.content octets))) }
        ensures malformed { IsErr result → (strings : List (List ℕ)) (end : Window)
            → HasStrings (whole (R.content octets)) strings end → ¬ (end.position ≡ length (R.content octets)) }
        ensures place { IfOk result (λ txt. txt_place txt ≡ whole (R.content octets)) }
    {
        let mut parser = Parser::from_ref(octets);
        let end = parser.len();
        Txt::parse(&mut parser, end, &mut Turns::new())
    }

    /// Reads the strings of a message up to `end`. It counts a turn for each string.
    pub(crate) fn parse(
        parser: &mut Parser<R>,
        end: usize,
        turns: &mut Turns,
    ) -> Result<Txt<R>, Malformed>
        ensures txt { IfOk result (λ txt. HasStrings (window parser.old) (strings_of txt) (window parser.new)) }
        ensures place { IfOk result (λ txt. txt_place txt ≡ window parser.old) }
        ensures ends { OnOk result ((window parser.new).position ≡ end) }
        ensures malformed { IsErr result → (strings : List (List ℕ)) (v : Window)
            → HasStrings (window parser.old) strings v → ¬ (v.position ≡ end) }
        ensures some { turns.old ≤ turns.new }
        ensures turns { turns.new ≤ turns.old + 1 + (end - (window parser.old).position) }
        ensures least { IfOk result (λ txt. turns.old + length (strings_of txt) ≤ turns.new) }
    {
        let first = *parser;
        let place = first.pos();
        if place > end {
            return Err(Malformed);
        }
        let mut octets = parser.parse_parser(end - place)?;
        let strings = Repeated::<CharacterString>::parse_counted(&mut octets, turns)?;
        if strings.is_empty() {
            return Err(Malformed);
        }
        let sequence = first.octets_ref();
        are_octets(sequence.as_ref());
        Ok(Txt { parser: first, end })
    }

    /// Returns the octets as they are in the message: each string with its length before it.
    pub fn as_slice(&self) -> &[u8]
        ensures octets { result.now ≡ spelling (strings_of self.now) }
        ensures some { 1 ≤ length (strings_of self.now) }
        ensures short { All (λ string. length string ≤ 255) (strings_of self.now) }
    {
        &self.parser.as_slice()[self.parser.pos()..self.end]
    }

    /// Returns an iterator over the strings.
    pub fn strings(&self) -> Strings<R>
        ensures strings { strings_left result ≡ strings_of self.now }
        ensures ahead { strings_ahead result ≡ txt_place self.now }
        ensures some { 1 ≤ length (strings_left result) }
    {
        Strings {
            parser: self.parser,
            end: self.end,
        }
    }
}

/// How its text is read: RFC 1035, 3.3.14.
pub(crate) const LAYOUT: Layout = Layout {
    fields: &[],
    tail: Tail::Strings,
};

/// Prints the strings, separated by spaces.
impl<R: AsOctets + Copy> fmt::Display for Txt<R> {
    ghost use Rattle.octseq_dns_data.specs.DataText.{strings_text};
    ghost use Rattle.octseq_dns_data.specs.Txt.{strings_of};

    ghost output = { λ txt. Some (strings_text (strings_of txt)) };

    fn fmt<W: fmt::Write>(&self, f: &mut fmt::Formatter<W>) -> fmt::Result {
        let mut strings = self.strings();
        match strings.next() {
            Some(first) => write!(f, "{first}")?,
            None => return Ok(()),
        }
        for string in strings {
            write!(f, " {string}")?;
        }
        Ok(())
    }
}

/// An iterator over the strings of a TXT record.
#[derive(Debug)]
pub struct Strings<R: AsOctets> {
    parser: Parser<R>,
    end: usize,
    ghost ahead: { IsRowTo HasString (window parser) end } by { strings_once (window parser) end },
}

impl<R: AsOctets + Copy> Copy for Strings<R> {}

impl<R: AsOctets + Copy> Clone for Strings<R> {
    ghost is_clone = { λ strings copy. copy ≡ strings };

    ghost is_infallible = { λ _. ⊤ };

    fn clone(&self) -> Result<Self, AllocError> {
        Ok(*self)
    }
}

impl<R: AsOctets + Copy> Iterator for Strings<R> {
    ghost use Rattle.std.specs.Iterator.{item_count};
    ghost use Rattle.octseq_dns_data.specs.Txt.{strings_left, YieldsNextString};

    type Item = CharStr<R>;

    ghost next_gives = { YieldsNextString };

    ghost remaining = { item_count strings_left };

    fn next(&mut self) -> Option<CharStr<R>> {
        let mut ahead = self.parser;
        if ahead.pos() == self.end {
            return None;
        }
        match take_string(&mut ahead) {
            Ok(parser) => {
                let end = self.end;
                *self = Strings { parser: ahead, end };
                Some(CharStr { parser })
            }
            Err(_) => unreachable!(),
        }
    }
}
