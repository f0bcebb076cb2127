//! Prefixes of any address family: RFC 4760, 3 and 4.
ghost use Rattle.std.specs.Prelude.{◌≡◌, ◌+◌, ◌≤◌, length, IsErr, IfOk, ⊤};
ghost use Rattle.octseq.specs.Parser.{window};
ghost use Rattle.octseq.specs.Window.{left};
ghost use Rattle.octseq_bgp.specs.Lists.{prefixes_left};
ghost use Rattle.octseq_bgp.specs.Value.{Reach, Unreach, IsReach, IsUnreach};

use crate::attribute::next_hop::NextHop;
use crate::family::AfiSafiType;
use crate::prefix::Prefixes;
use crate::session::SessionConfig;
use crate::whole::parse_all;
use octseq::{AsOctets, Malformed, Parser, Turns};
use octseq_format::{Counted, Nested, U8, U16Be};
use std::alloc::AllocError;

// The parser comes first, as in the values of other attributes. A value is then moved in the same pieces whatever it
// is, which takes half the time.

/// Reachable prefixes.
#[derive(Debug)]
pub struct MpReachNlri<R: AsOctets> {
    /// The prefixes.
    pub prefixes: Prefixes<R>,
    /// The next hops.
    pub next_hop: NextHop,
    /// The address family.
    pub family: AfiSafiType,
}

impl<R: AsOctets + Copy> Copy for MpReachNlri<R> {}

impl<R: AsOctets + Copy> Clone for MpReachNlri<R> {
    ghost is_clone = { λ reach copy. copy ≡ reach };

    ghost is_infallible = { λ _. ⊤ };

    fn clone(&self) -> Result<Self, AllocError> {
        Ok(*self)
    }
}

/// AFI, SAFI, next hops with a length before them, a reserved octet, and what follows.
type ReachFront = (U16Be, U8, Counted<U8, Nested, 0>, U8, Nested);

impl<R: AsOctets + Copy> MpReachNlri<R> {
    ghost use Rattle.octseq_bgp.specs.ValueOf.{reach_of};

    /// Reads all that a parser has left, and counts a turn for each prefix.
    #[inline(always)]
    pub(crate) fn parse_counted(
        parser: Parser<R>,
        session: &SessionConfig,
        turns: &mut Turns,
    ) -> Result<MpReachNlri<R>, Malformed>
        ensures reach { IfOk result (λ it. IsReach session.now (window parser) (reach_of it)) }
        ensures malformed { IsErr result → (it : Reach) → ¬ IsReach session.now (window parser) it }
        ensures some { turns.old ≤ turns.new }
        ensures least { IfOk result (λ it. turns.old + length (prefixes_left it.prefixes) ≤ turns.new) }
        ensures turns { turns.new ≤ turns.old + left (window parser) }
    {
        let (afi, safi, next_hops, _reserved, rest) = parse_all::<R, ReachFront>(parser)?;
        let Some(family) = AfiSafiType::from_numbers(afi, safi) else {
            return Err(Malformed);
        };
        let next_hop = NextHop::parse(next_hops, family)?;
        let prefixes = Prefixes::parse_counted(rest, session, family, turns)?;
        Ok(MpReachNlri {
            family,
            next_hop,
            prefixes,
        })
    }
}

/// Prefixes that are no longer reachable.
#[derive(Debug)]
pub struct MpUnreachNlri<R: AsOctets> {
    /// The prefixes.
    pub prefixes: Prefixes<R>,
    /// The address family.
    pub family: AfiSafiType,
}

impl<R: AsOctets + Copy> Copy for MpUnreachNlri<R> {}

impl<R: AsOctets + Copy> Clone for MpUnreachNlri<R> {
    ghost is_clone = { λ unreach copy. copy ≡ unreach };

    ghost is_infallible = { λ _. ⊤ };

    fn clone(&self) -> Result<Self, AllocError> {
        Ok(*self)
    }
}

impl<R: AsOctets + Copy> MpUnreachNlri<R> {
    ghost use Rattle.octseq_bgp.specs.ValueOf.{unreach_of};

    /// Reads all that a parser has left, and counts a turn for each prefix.
    #[inline(always)]
    pub(crate) fn parse_counted(
        parser: Parser<R>,
        session: &SessionConfig,
        turns: &mut Turns,
    ) -> Result<MpUnreachNlri<R>, Malformed>
        ensures unreach { IfOk result (λ it. IsUnreach session.now (window parser) (unreach_of it)) }
        ensures malformed { IsErr result → (it : Unreach) → ¬ IsUnreach session.now (window parser) it }
        ensures some { turns.old ≤ turns.new }
        ensures least { IfOk result (λ it. turns.old + length (prefixes_left it.prefixes) ≤ turns.new) }
        ensures turns { turns.new ≤ turns.old + left (window parser) }
    {
        let (afi, safi, rest) = parse_all::<R, (U16Be, U8, Nested)>(parser)?;
        let Some(family) = AfiSafiType::from_numbers(afi, safi) else {
            return Err(Malformed);
        };
        let prefixes = Prefixes::parse_counted(rest, session, family, turns)?;
        Ok(MpUnreachNlri { family, prefixes })
    }
}
