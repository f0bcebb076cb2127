//! Domain names in messages, with their compression pointers.
ghost use Rattle.std.specs.Prelude.{◌≡◌, ℕ, List, IfSome};
ghost use Rattle.std.proofs.Props.{props};
ghost use Rattle.octseq.specs.Parser.{window};
ghost use Rattle.octseq.specs.Window.{Window};
ghost use Rattle.octseq_dns_name.specs.Name.{IsName, wire_length};
ghost use Rattle.octseq_dns_name.specs.OneName.{Named, named_once};

use crate::error::Malformed;
use crate::name::pass::name_end;
use crate::name::step::skip_known;
use crate::name::wire::wire_len;
use octseq::builder::infallible;
use octseq::{AsOctets, Parser, Turns};
use std::alloc::AllocError;

mod compare;
mod format;
mod labels;
mod owned;
mod pass;
mod relatives;
mod spelling;
mod step;
pub(crate) mod text;
mod wire;

pub use crate::name::format::DomainName;
pub use crate::name::labels::{Label, Labels};
pub use crate::name::owned::Name;
pub use crate::name::relatives::Suffixes;
pub use crate::name::text::{
    a_name_has_labels, a_name_is_spelled_by_its_text, a_name_is_spelled_by_its_text_with_origin,
    one_name_of_a_text, one_name_of_a_text_with_origin,
};

/// The maximum number of octets of a name in wire form: RFC 1035, 2.3.4.
pub const NAME_MAX: usize = 255;

/// The maximum number of pointers of a name. No RFC sets one; a name without pointers has at most 127 labels.
pub const POINTER_MAX: usize = 127;

/// At most one name is at an offset, with one end.
///
/// It does nothing. Calling it brings the law into the caller's proof.
pub fn one_name_at_a_place()
    ensures { (w end last : Window) (labels others : List (List ℕ)) → IsName w labels end → IsName w others last
        → (labels ≡ others) × (end ≡ last) }
{}

/// A name in a message: a parser of the message at the name's offset. No octet is copied.
#[derive(Debug)]
pub struct ParsedName<R: AsOctets> {
    parser: Parser<R>,
    // The number of octets in wire form, if it was counted.
    len: Option<usize>,
    ghost named: { Named (window parser) } by { named_once (window parser) },
    ghost measured: { IfSome len (λ len. len ≡ wire_length named.0) } by { Prim.hlevel props },
}

impl<R: AsOctets + Copy> Copy for ParsedName<R> {}

impl<R: AsOctets + Copy> Clone for ParsedName<R> {
    ghost use Rattle.std.specs.Prelude.{⊤};

    ghost is_clone = { λ name copy. copy ≡ name };

    ghost is_infallible = { λ _. ⊤ };

    fn clone(&self) -> Result<Self, AllocError> {
        Ok(*self)
    }
}

impl<R: AsOctets + Copy> ParsedName<R> {
    ghost use Rattle.std.specs.Prelude.{◌+◌, ◌≤◌, ◌↔◌, [], length, IsTrue, IsErr, IfOk, OnOk, OnErr};
    ghost use Rattle.octseq.specs.Parser.{sequence};
    ghost use Rattle.octseq_dns_name.specs.NameTurns.{CountsName};
    ghost use Rattle.octseq_dns_name.specs.NextLabel.{ahead_of};
    ghost use Rattle.octseq_dns_name.specs.Read.{place_of, labels_of, labels_left};

    /// Reads the next name of a message. The parser is then after it: after its first pointer, if it has one.
    ///
    /// # Errors
    ///
    /// `Malformed` if no name comes next. The parser is then unchanged.
    ///
    /// # Examples
    ///
    /// ```
    /// // crates/octseq_examples/src/dns.rt
    /// let mut parser = Parser::from_static(b"\x07example\x03com\x00\x03www\xC0\x00");
    /// let domain = ParsedName::parse(&mut parser)?; // "example.com."
    /// let host = ParsedName::parse(&mut parser)?; // "www.example.com."
    /// ```
    pub fn parse(parser: &mut Parser<R>) -> Result<ParsedName<R>, Malformed>
        ensures place { IfOk result (λ name. place_of name ≡ window parser.old) }
        ensures name { IfOk result (λ name. IsName (window parser.old) (labels_of name) (window parser.new)) }
        ensures malformed { IsErr result → (labels : List (List ℕ)) (end : Window)
            → ¬ IsName (window parser.old) labels end }
        ensures kept { OnErr result (window parser.new ≡ window parser.old) }
        ensures same { sequence parser.new ≡ sequence parser.old }
    {
        ParsedName::parse_counted(parser, &mut Turns::new())
    }

    /// Reads the next name as [`parse`](Self::parse) does, and counts a turn for the root, for each label and for each
    /// pointer.
    ///
    /// # Errors
    ///
    /// As `parse`.
    #[inline(always)]
    pub fn parse_counted(
        parser: &mut Parser<R>,
        turns: &mut Turns,
    ) -> Result<ParsedName<R>, Malformed>
        ensures place { IfOk result (λ name. place_of name ≡ window parser.old) }
        ensures name { IfOk result (λ name. IsName (window parser.old) (labels_of name) (window parser.new)) }
        ensures malformed { IsErr result → (labels : List (List ℕ)) (end : Window)
            → ¬ IsName (window parser.old) labels end }
        ensures kept { OnErr result (window parser.new ≡ window parser.old) }
        ensures same { sequence parser.new ≡ sequence parser.old }
        ensures counted { OnOk result (CountsName (window parser.old) turns.old turns.new) }
        ensures turns { turns.new ≤ turns.old + 255 }
        ensures some { turns.old + 1 ≤ turns.new }
    {
        let octets = parser.octets_ref();
        let (place, end) = (parser.pos(), parser.len());
        let Some((after, len)) = name_end(octets.as_ref(), place, end, turns) else {
            return Err(Malformed);
        };
        let name = ParsedName {
            parser: *parser,
            len: Some(len),
        };
        infallible(parser.seek(after));
        Ok(name)
    }

    /// Reads the next name of a message, which is known to be there, as in a checked message. The parser is then where
    /// [`parse`](Self::parse) leaves it, but no pointer is followed.
    #[inline(always)]
    pub fn parse_known(parser: &mut Parser<R>) -> ParsedName<R>
        requires { Named (window parser.old) }
        ensures place { place_of result ≡ window parser.old }
        ensures name { ∥ IsName (window parser.old) (labels_of result) (window parser.new) ∥₁ }
        ensures same { sequence parser.new ≡ sequence parser.old }
    {
        let name = ParsedName {
            parser: *parser,
            len: None,
        };
        skip_known(parser);
        name
    }

    /// Returns a parser of the message, at the name's offset.
    pub fn parser(&self) -> Parser<R>
        ensures { window result ≡ place_of self.now }
    {
        self.parser
    }

    /// Returns an iterator over the labels, from the first one on.
    pub fn labels(&self) -> Labels<R>
        ensures labels { labels_left result ≡ labels_of self.now }
        ensures ahead { ahead_of result ≡ place_of self.now }
    {
        Labels::at(self.parser)
    }

    /// Returns the number of labels, without the root.
    pub fn label_count(&self) -> usize
        ensures { result ≡ length (labels_of self.now) }
    {
        self.labels().count()
    }

    /// Returns the number of octets in wire form: each label after its length, and one octet for the root.
    pub fn len(&self) -> usize
        ensures len { result ≡ wire_length (labels_of self.now) }
        ensures most { result ≤ 255 }
    {
        match self.len {
            Some(len) => len,
            None => wire_len(self.labels()),
        }
    }

    /// Whether it is the root, which has no labels.
    pub fn is_root(&self) -> bool
        ensures { IsTrue result ↔ (labels_of self.now ≡ []) }
    {
        self.labels().next().is_none()
    }
}
