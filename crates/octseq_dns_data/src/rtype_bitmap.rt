//! Sets of record types, as type bitmaps: RFC 4034, 4.1.2.
ghost use Rattle.std.specs.Prelude.{◌≡◌, ℕ, List, ◌+◌, ◌*◌, ◌≤◌, ◌↔◌, ⊤, [], Some, IsTrue, IsErr, IfOk, OnOk};
ghost use Rattle.std.specs.List.{Contains, flat_map};
ghost use Rattle.std.specs.List.Sorted.{IsStrictlyIncreasing};
ghost use Rattle.octseq.specs.Parser.{window};
ghost use Rattle.octseq.specs.Window.{left, rest};
ghost use Rattle.octseq_dns_data.specs.OneBitmap.{one_bitmap};
ghost use Rattle.octseq_dns_data.specs.RtypeBitmap.{AreBlocksFrom, IsRtypeBitmap, WindowBlock};
ghost use Rattle.octseq_dns_data.specs.RtypeBitmap.{bitmap_turns, block_types, types_of};
ghost use Rattle.octseq_dns_data.specs.RtypeBitmapText.{rtypes_text};

mod blocks;
mod build;
mod iter;

use crate::data::FormedOctets;
use crate::iana::Rtype;
use crate::rtype_bitmap::blocks::is_bitmap;
pub use crate::rtype_bitmap::build::append_rtypes;
pub use crate::rtype_bitmap::iter::RtypeBitmapIter;
use octseq::{AsOctets, Malformed, Parser, Turns};
use std::alloc::AllocError;
use std::fmt;

/// The types of octets are those of their window blocks, and strictly ascend.
///
/// It does nothing. Calling it brings the laws into the caller's proof.
pub fn types_of_blocks()
    ensures blocks { (octets : List ℕ) (blocks : List WindowBlock) → AreBlocksFrom 0 octets blocks
        → types_of octets ≡ flat_map block_types blocks }
    ensures ascending { (octets : List ℕ) → IsRtypeBitmap octets → IsStrictlyIncreasing (types_of octets) }
{}

/// A type bitmap, where it was read. None of its octets is copied.
#[derive(Debug)]
pub struct RtypeBitmap<R: AsOctets> {
    parser: Parser<R>,
    ghost bitmap: { IsRtypeBitmap (rest (window parser)) } by { one_bitmap (rest (window parser)) },
}

impl<R: AsOctets + Copy> Copy for RtypeBitmap<R> {}

impl<R: AsOctets + Copy> Clone for RtypeBitmap<R> {
    ghost is_clone = { λ bitmap copy. copy ≡ bitmap };

    ghost is_infallible = { λ _. ⊤ };

    fn clone(&self) -> Result<Self, AllocError> {
        Ok(*self)
    }
}

impl<R: AsOctets> RtypeBitmap<R> {
    ghost use Rattle.octseq_dns_data.specs.RtypeBitmapOf.{bitmap_octets, bitmap_place, rtypes_left, rtypes_of};

    /// Reads all the octets as a type bitmap.
    ///
    /// # Errors
    ///
    /// `Malformed` if the octets aren't a type bitmap.
    pub fn from_octets(octets: R) -> Result<RtypeBitmap<R>, Malformed>
        ensures octets { IfOk result (λ bitmap. bitmap_octets bitmap ≡ R.content octets) }
        ensures ok { OnOk result (IsRtypeBitmap (R.content octets)) }
        ensures malformed { IsErr result → ¬ IsRtypeBitmap (R.content octets) }
    {
        let parser = Parser::from_ref(octets);
        RtypeBitmap::parse(parser, &mut Turns::new())
    }

    /// Reads the octets that are left as a type bitmap. It counts a turn for each window block.
    pub(crate) fn parse(parser: Parser<R>, turns: &mut Turns) -> Result<RtypeBitmap<R>, Malformed>
        ensures place { IfOk result (λ bitmap. bitmap_place bitmap ≡ window parser) }
        ensures ok { OnOk result (IsRtypeBitmap (rest (window parser))) }
        ensures malformed { IsErr result → ¬ IsRtypeBitmap (rest (window parser)) }
        ensures turns { 3 * turns.new ≤ 3 * turns.old + left (window parser) }
        ensures some { turns.old ≤ turns.new }
        ensures least { OnOk result (turns.old + bitmap_turns (rest (window parser)) ≤ turns.new) }
    {
        if !is_bitmap(parser.peek_all(), turns) {
            return Err(Malformed);
        }
        Ok(RtypeBitmap::of_parser(parser))
    }

    /// Makes a bitmap of the octets that a parser has left.
    pub(crate) fn of_parser(parser: Parser<R>) -> RtypeBitmap<R>
        requires { IsRtypeBitmap (rest (window parser)) }
        ensures { bitmap_place result ≡ window parser }
    {
        RtypeBitmap { parser }
    }

    /// Returns a parser limited to the octets of the bitmap.
    pub(crate) fn parser(&self) -> Parser<R>
    where
        R: Copy,
        ensures parser { window result ≡ bitmap_place self.now }
        ensures bitmap { IsRtypeBitmap (rest (bitmap_place self.now)) }
    {
        self.parser
    }

    /// Returns the octets: window blocks with ascending numbers.
    pub fn as_slice(&self) -> &[u8]
        ensures octets { result.now ≡ bitmap_octets self.now }
        ensures bitmap { IsRtypeBitmap result.now }
    {
        self.parser.peek_all()
    }

    /// Returns an iterator over the types, in ascending order.
    pub fn iter(&self) -> RtypeBitmapIter<'_>
        ensures { rtypes_left result ≡ rtypes_of self.now }
    {
        RtypeBitmapIter::new(self.as_slice())
    }

    /// Whether the bitmap contains a type.
    pub fn contains(&self, rtype: Rtype) -> bool
        ensures { IsTrue result ↔ Contains (rtypes_of self.now) rtype }
    {
        self.iter().any(|said| said == rtype)
    }

    /// Whether the bitmap contains no type.
    pub fn is_empty(&self) -> bool
        ensures { IsTrue result ↔ (rtypes_of self.now ≡ []) }
    {
        self.iter().next().is_none()
    }
}

impl<R: AsOctets + Copy> FormedOctets<R> for RtypeBitmap<R> {
    ghost use Rattle.octseq_dns_data.specs.RtypeBitmapOf.{bitmap_place};

    ghost has_form = { IsRtypeBitmap };

    ghost place = { bitmap_place };

    ghost turns_of = { bitmap_turns };

    ghost rate = { 1 };

    #[inline(always)]
    fn from_parser(parser: &Parser<R>, turns: &mut Turns) -> Result<RtypeBitmap<R>, Malformed> {
        RtypeBitmap::parse(*parser, turns)
    }

    #[inline(always)]
    fn parser(&self) -> Parser<R> {
        self.parser
    }
}

/// Prints the types in ascending order, each after a space.
impl<R: AsOctets> fmt::Display for RtypeBitmap<R> {
    ghost use Rattle.octseq_dns_data.specs.RtypeBitmapOf.{rtypes_of};

    ghost output = { λ bitmap. Some (rtypes_text (rtypes_of bitmap)) };

    fn fmt<W: fmt::Write>(&self, f: &mut fmt::Formatter<W>) -> fmt::Result {
        for rtype in self.iter() {
            write!(f, " {rtype}")?;
        }
        Ok(())
    }
}
