//! Prefixes: RFC 4271, 4.3, and RFC 7911, 3, for their path ids.
ghost use Rattle.std.specs.Prelude.{◌≡◌, ◌∷◌, [], ◌+◌, ◌-◌, ◌<◌, ◌≤◌, ℕ, List, length, slice_index, IsErr, IfOk};
ghost use Rattle.std.specs.Prelude.{IsNone, IsSome, IfSome, ⊤};
ghost use Rattle.octseq.specs.Parser.{window};
ghost use Rattle.octseq.specs.Window.{Window as ParserWindow, left, rest};
ghost use Rattle.octseq_format.specs.Row.{Holds};
ghost use Rattle.octseq_bgp.specs.Fills.{Counts, TakesFirst};
ghost use Rattle.octseq_bgp.specs.Parts.{IsPathPrefix, IsPrefix, octets_of_bits};
ghost use Rattle.octseq_bgp.specs.Prefix as said;
ghost use Rattle.octseq_bgp.specs.Prefix.{AreAhead, ArePrefixes, ahead_once, most_bits};
ghost use Rattle.octseq_bgp.specs.PrefixValue.{address_from, prefix_address, bits_after, cleared};

use crate::family::{Afi, AfiSafiType};
use crate::key_octet::KeyOctet;
use crate::list::{count_all, take_first};
use crate::session::SessionConfig;
use octseq::{AsOctets, Malformed, Parser, Turns};
use octseq_format::{Keyed, Nested, Reckoning, Sized, Test, Through, U32Be, When};
use std::alloc::AllocError;

/// A path id: RFC 7911, 3.
#[derive(Clone, Copy, Debug, PartialEq, Eq)]
pub struct PathId(pub u32);

/// A prefix, where it was read.
#[derive(Debug)]
pub struct Nlri<R: AsOctets> {
    /// The path id, if the session has them.
    pub path_id: Option<PathId>,
    /// The family of the address.
    pub afi: Afi,
    /// The length in bits.
    pub len: u8,
    /// The octets, as a parser. Bits after the last one of the prefix have no meaning.
    pub octets: Parser<R>,
}

impl<R: AsOctets + Copy> Copy for Nlri<R> {}

impl<R: AsOctets + Copy> Clone for Nlri<R> {
    ghost is_clone = { λ nlri copy. copy ≡ nlri };

    ghost is_infallible = { λ _. ⊤ };

    fn clone(&self) -> Result<Self, AllocError> {
        Ok(*self)
    }
}

/// As many octets as a number of bits needs.
#[derive(Debug)]
pub struct OctetsOfBits;

impl Reckoning for OctetsOfBits {
    ghost of = { octets_of_bits };

    #[inline(always)]
    fn of(bits: usize) -> usize {
        bits / 8 + (bits % 8 + 7) / 8
    }
}

/// At most `MOST`.
#[derive(Debug)]
pub struct AtMost<const MOST: usize>;

impl<const MOST: usize> Test for AtMost<MOST> {
    ghost holds = { λ bits. bits ≤ MOST };

    #[inline(always)]
    fn test(bits: usize) -> bool {
        bits <= MOST
    }
}

/// A length in bits, at most `MOST`, and as many octets as the bits need.
pub type PrefixFormat<const MOST: usize> = Keyed<
    KeyOctet,
    When<AtMost<MOST>, Through<OctetsOfBits, Sized<Nested, 0>>>,
>;

/// The same after a path id.
pub type PathPrefixFormat<const MOST: usize> = (U32Be, PrefixFormat<MOST>);

/// An iterator over prefixes.
#[derive(Debug)]
pub struct Prefixes<R: AsOctets> {
    parser: Parser<R>,
    left: usize,
    afi: Afi,
    paths: bool,
    ghost ahead: { AreAhead paths afi (window parser) left } by { ahead_once paths afi (window parser) left },
}

impl<R: AsOctets + Copy> Copy for Prefixes<R> {}

impl<R: AsOctets + Copy> Clone for Prefixes<R> {
    ghost is_clone = { λ prefixes copy. copy ≡ prefixes };

    ghost is_infallible = { λ _. ⊤ };

    fn clone(&self) -> Result<Self, AllocError> {
        Ok(*self)
    }
}

/// Returns how many prefixes without path ids fill what a parser has left, and counts a turn for each.
fn count_plain<R: AsOctets + Copy>(
    parser: Parser<R>,
    afi: Afi,
    turns: &mut Turns,
) -> Result<usize, Malformed>
    ensures counts { Counts (IsPrefix (most_bits afi)) (window parser) result }
    ensures some { turns.old ≤ turns.new }
    ensures least { IfOk result (λ count. turns.old + count ≤ turns.new) }
    ensures turns { turns.new ≤ turns.old + left (window parser) }
{
    match afi {
        Afi::Ipv4 => count_all::<R, PrefixFormat<32>>(parser, turns),
        Afi::Ipv6 => count_all::<R, PrefixFormat<128>>(parser, turns),
    }
}

/// Returns how many prefixes with path ids fill what a parser has left, and counts a turn for each.
fn count_with_paths<R: AsOctets + Copy>(
    parser: Parser<R>,
    afi: Afi,
    turns: &mut Turns,
) -> Result<usize, Malformed>
    ensures counts { Counts (IsPathPrefix (most_bits afi)) (window parser) result }
    ensures some { turns.old ≤ turns.new }
    ensures least { IfOk result (λ count. turns.old + count ≤ turns.new) }
    ensures turns { turns.new ≤ turns.old + left (window parser) }
{
    match afi {
        Afi::Ipv4 => count_all::<R, PathPrefixFormat<32>>(parser, turns),
        Afi::Ipv6 => count_all::<R, PathPrefixFormat<128>>(parser, turns),
    }
}

impl<R: AsOctets + Copy> Prefixes<R> {
    ghost use Rattle.octseq_bgp.specs.Lists.{prefixes_left};

    /// Reads all that a parser has left as prefixes of a family, and counts a turn for each.
    ///
    /// # Errors
    ///
    /// `Malformed` if prefixes don't fill it exactly.
    #[inline(always)]
    pub(crate) fn parse_counted(
        parser: Parser<R>,
        session: &SessionConfig,
        family: AfiSafiType,
        turns: &mut Turns,
    ) -> Result<Prefixes<R>, Malformed>
        ensures prefixes { IfOk result (λ prefixes.
            ArePrefixes session.now family (window parser) (prefixes_left prefixes)) }
        ensures malformed { IsErr result → (row : List said.Nlri)
            → ¬ ArePrefixes session.now family (window parser) row }
        ensures some { turns.old ≤ turns.new }
        ensures least { IfOk result (λ prefixes. turns.old + length (prefixes_left prefixes) ≤ turns.new) }
        ensures turns { turns.new ≤ turns.old + left (window parser) }
    {
        let afi = family.afi();
        let paths = session.add_path.has(family);
        if paths {
            let left = count_with_paths(parser, afi, turns)?;
            return Ok(Prefixes {
                parser,
                left,
                afi,
                paths,
            });
        }
        let left = count_plain(parser, afi, turns)?;
        Ok(Prefixes {
            parser,
            left,
            afi,
            paths,
        })
    }

    /// Returns the number of prefixes that are left.
    pub fn len(&self) -> usize
        ensures { result ≡ length (prefixes_left self.now) }
    {
        self.left
    }
}

/// Reads the first of the prefixes without path ids that are known to be there. Returns it, and a parser past it.
#[inline(always)]
fn take_plain<R: AsOctets + Copy>(
    parser: Parser<R>,
    left: usize,
    afi: Afi,
) -> Option<((u8, Parser<R>), Parser<R>)>
    requires { Holds (IsPrefix (most_bits afi)) (window parser) left }
    ensures { TakesFirst (IsPrefix (most_bits afi)) (λ it. (it.0, window it.1)) (λ after. window after) (window parser)
        left result }
{
    match afi {
        Afi::Ipv4 => take_first::<R, PrefixFormat<32>>(parser, left),
        Afi::Ipv6 => take_first::<R, PrefixFormat<128>>(parser, left),
    }
}

/// Reads the first of the prefixes with path ids that are known to be there. Returns it, and a parser past it.
#[inline(always)]
fn take_with_path<R: AsOctets + Copy>(
    parser: Parser<R>,
    left: usize,
    afi: Afi,
) -> Option<((u32, (u8, Parser<R>)), Parser<R>)>
    requires { Holds (IsPathPrefix (most_bits afi)) (window parser) left }
    ensures { TakesFirst (IsPathPrefix (most_bits afi)) (λ it. (it.0, (it.1.0, window it.1.1))) (λ after. window after)
        (window parser) left result }
{
    match afi {
        Afi::Ipv4 => take_first::<R, PathPrefixFormat<32>>(parser, left),
        Afi::Ipv6 => take_first::<R, PathPrefixFormat<128>>(parser, left),
    }
}

impl<R: AsOctets + Copy> Iterator for Prefixes<R> {
    ghost use Rattle.std.specs.Iterator.{YieldsFirstBy, item_count};
    ghost use Rattle.octseq_bgp.specs.Lists.{nlri_of, prefixes_left};

    type Item = Nlri<R>;

    ghost next_gives = { YieldsFirstBy nlri_of prefixes_left };

    ghost remaining = { item_count prefixes_left };

    #[inline(always)]
    fn next(&mut self) -> Option<Nlri<R>> {
        let (afi, paths) = (self.afi, self.paths);
        if paths {
            let Some(first) = take_with_path(self.parser, self.left, afi) else {
                return None;
            };
            let ((id, (len, octets)), parser) = first;
            let left = self.left - 1;
            *self = Prefixes {
                parser,
                left,
                afi,
                paths,
            };
            return Some(Nlri {
                path_id: Some(PathId(id)),
                afi,
                len,
                octets,
            });
        }
        let Some(first) = take_plain(self.parser, self.left, afi) else {
            return None;
        };
        let ((len, octets), parser) = first;
        let left = self.left - 1;
        *self = Prefixes {
            parser,
            left,
            afi,
            paths,
        };
        Some(Nlri {
            path_id: None,
            afi,
            len,
            octets,
        })
    }
}

/// A prefix as a value: its family, its length in bits, and its address, whose bits after that length are 0. An IPv4
/// address takes the first four octets.
#[derive(Clone, Copy, Debug, PartialEq, Eq)]
pub struct Prefix {
    /// The family of the address.
    pub afi: Afi,
    /// The length in bits.
    pub len: u8,
    /// The address, followed by zeros.
    pub address: [u8; 16],
}

/// Clears the last `bits` bits of an octet.
#[inline(always)]
pub(crate) fn clear(octet: u8, bits: usize) -> u8
    requires { bits ≤ 8 }
    ensures { result ≡ cleared bits octet }
{
    (u32::from(octet) >> bits << bits) as u8
}

/// Returns the octet at an index of the address whose first `bits` bits are in `octets`.
#[inline(always)]
fn octet_at(octets: &[u8], i: usize, bits: u8) -> u8
    requires { i < 16 }
    ensures { result ≡ cleared (bits_after bits i) (slice_index octets.now i) }
{
    if i >= octets.len() {
        return 0;
    }
    let after = (8 * (i + 1)).saturating_sub(usize::from(bits));
    clear(octets[i], after.min(8))
}

/// Returns four octets of the address whose first `bits` bits are in `octets`, from an index on.
#[inline(always)]
pub(crate) fn four_at(octets: &[u8], i: usize, bits: u8) -> [u8; 4]
    requires { i ≤ 12 }
    ensures { result ≡ address_from 4 i bits octets.now }
{
    if i >= octets.len() {
        return [0; 4];
    }
    if i + 4 <= octets.len() && 8 * (i + 4) <= usize::from(bits) {
        return [octets[i], octets[i + 1], octets[i + 2], octets[i + 3]];
    }
    [
        octet_at(octets, i, bits),
        octet_at(octets, i + 1, bits),
        octet_at(octets, i + 2, bits),
        octet_at(octets, i + 3, bits),
    ]
}

/// Returns the address whose first `bits` bits are in `octets`.
#[inline(always)]
pub(crate) fn address_of(octets: &[u8], bits: u8) -> [u8; 16]
    ensures { result ≡ prefix_address bits octets.now }
{
    let a = four_at(octets, 0, bits);
    let b = four_at(octets, 4, bits);
    let c = four_at(octets, 8, bits);
    let d = four_at(octets, 12, bits);
    [
        a[0], a[1], a[2], a[3], b[0], b[1], b[2], b[3], c[0], c[1], c[2], c[3], d[0], d[1], d[2],
        d[3],
    ]
}

impl<R: AsOctets + Copy> Nlri<R> {
    /// Returns the prefix as a value.
    #[inline(always)]
    pub fn prefix(&self) -> Prefix
        ensures afi { result.afi ≡ self.now.afi }
        ensures len { result.len ≡ self.now.len }
        ensures address { result.address ≡ prefix_address self.now.len (rest (window self.now.octets)) }
    {
        Prefix {
            afi: self.afi,
            len: self.len,
            address: address_of(self.octets.peek_all(), self.len),
        }
    }
}
