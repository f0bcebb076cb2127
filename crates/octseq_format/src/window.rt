//! Octets that were read, in their place.
ghost use Rattle.std.specs.Prelude.{◌≡◌, ◌↔◌, ◌≤◌, ⊤, [], length, IsTrue, nat_eq};
ghost use Rattle.std.specs.Cmp.{partial_equiv_from_equiv, on_per, on_equiv};
ghost use Rattle.std.specs.Cmp.Lexicographic.{pointwise, nat_list_eq_equiv};
ghost use Rattle.octseq.specs.Parser.{window};
ghost use Rattle.octseq.specs.Window.{left, rest, whole};

use octseq::{AsOctets, Parser};
use std::alloc::AllocError;
use std::fmt;

/// Octets that were read, as a window on the sequence that has them: nothing is copied. Two are equal if their octets
/// are.
///
/// A window that is written needn't have been read: `Window::from_ref(slice)` is one of a slice.
pub struct Window<R: AsOctets + Copy> {
    parser: Parser<R>,
}

impl<R: AsOctets + Copy> Copy for Window<R> {}

impl<R: AsOctets + Copy> Clone for Window<R> {
    ghost is_clone = { λ here copy. copy ≡ here };

    ghost is_infallible = { λ _. ⊤ };

    fn clone(&self) -> Result<Self, AllocError> {
        Ok(*self)
    }
}

impl<R: AsOctets + Copy> Window<R> {
    ghost use Rattle.octseq_format.specs.WindowOf.{window_of};

    /// A window of all the octets.
    pub fn from_ref(octets: R) -> Self
        ensures { window_of result ≡ whole (R.content octets) }
    {
        Window {
            parser: Parser::from_ref(octets),
        }
    }

    /// A window of what a parser has left.
    pub fn from_parser(parser: Parser<R>) -> Self
        ensures { window_of result ≡ window parser }
    {
        Window { parser }
    }

    /// A parser of the octets alone, which reads them further. Its position is counted from the first octet of the
    /// sequence.
    pub fn parser(&self) -> Parser<R>
        ensures { window result ≡ window_of self.now }
    {
        self.parser
    }

    /// The octets.
    pub fn as_slice(&self) -> &[u8]
        ensures content { result.now ≡ rest (window_of self.now) }
        ensures length { length result.now ≡ left (window_of self.now) }
    {
        self.parser.peek_all()
    }

    /// The number of octets.
    pub fn len(&self) -> usize
        ensures left { result ≡ left (window_of self.now) }
        ensures rest { result ≡ length (rest (window_of self.now)) }
    {
        self.parser.remaining()
    }

    /// Whether there are no octets.
    pub fn is_empty(&self) -> bool
        ensures { IsTrue result ↔ (rest (window_of self.now) ≡ []) }
    {
        self.as_slice().is_empty()
    }

    /// The position of the first octet, counted from the first one of the sequence.
    pub fn pos(&self) -> usize
        ensures position { result ≡ (window_of self.now).position }
        ensures ordered { result ≤ (window_of self.now).end }
    {
        self.parser.pos()
    }
}

impl<R: AsOctets + Copy> PartialEq for Window<R> {
    ghost use Rattle.octseq_format.specs.WindowOf.{window_of};

    ghost eq = { λ a b. pointwise nat_eq (rest (window_of a)) (rest (window_of b)) };

    ghost laws = { on_per (λ a. rest (window_of a)) (partial_equiv_from_equiv nat_list_eq_equiv) };

    fn eq(&self, other: &Self) -> bool {
        self.as_slice() == other.as_slice()
    }
}

impl<R: AsOctets + Copy> Eq for Window<R> {
    ghost use Rattle.octseq_format.specs.WindowOf.{window_of};

    ghost laws = { on_equiv (λ a. rest (window_of a)) nat_list_eq_equiv };
}

impl<R: AsOctets + Copy> fmt::Debug for Window<R> {
    fn fmt<W: fmt::Write>(&self, f: &mut fmt::Formatter<W>) -> fmt::Result {
        f.debug_tuple("Window").field(&self.as_slice()).finish()
    }
}
