//! UPDATE: RFC 4271, 4.3.
ghost use Rattle.std.specs.Prelude.{◌≡◌, ◌+◌, ◌≤◌, ℕ, IsErr, IfOk};
ghost use Rattle.octseq.specs.Parser.{window};
ghost use Rattle.octseq.specs.Window.{Window, left};
ghost use Rattle.octseq_bgp.specs.Fills.{Whole};
ghost use Rattle.octseq_bgp.specs.Update as said;
ghost use Rattle.octseq_bgp.specs.Update.{IsUpdate, IsUpdateParts};

use crate::attribute::PathAttributes;
use crate::family::AfiSafiType;
use crate::prefix::Prefixes;
use crate::session::SessionConfig;
use crate::whole::parse_all;
use octseq::{AsOctets, Malformed, Parser, Turns};
use octseq_format::{Counted, Nested, U16Be};

/// An UPDATE.
#[derive(Debug, Drop)]
pub struct UpdateMessage<R: AsOctets> {
    /// The withdrawn routes.
    pub withdrawn: Prefixes<R>,
    /// The path attributes.
    pub path_attributes: PathAttributes<R>,
    /// The announced prefixes.
    pub announced: Prefixes<R>,
}

/// The three parts of an UPDATE, whether lists fill them or not.
#[derive(Debug, Drop)]
pub struct UpdateParts<R: AsOctets> {
    /// The octets of the withdrawn routes, as a parser.
    pub withdrawn: Parser<R>,
    /// The octets of the path attributes, as a parser.
    pub path_attributes: Parser<R>,
    /// The octets of the announced prefixes, as a parser.
    pub announced: Parser<R>,
}

/// The format of the three parts: octets with a length before them, twice, and the rest.
type Parts = (Counted<U16Be, Nested, 0>, Counted<U16Be, Nested, 0>, Nested);

impl<R: AsOctets + Copy> UpdateParts<R> {
    ghost use Rattle.octseq_bgp.specs.Parsed.{update_parts_of};

    /// Splits all that a parser has left into the three parts of an UPDATE.
    #[inline(always)]
    pub(crate) fn parse_body(parser: Parser<R>) -> Result<UpdateParts<R>, Malformed>
        ensures parts { IfOk result (λ it. Whole IsUpdateParts (window parser) (update_parts_of it)) }
        ensures malformed { IsErr result → (parts : Window × (Window × Window))
            → ¬ Whole IsUpdateParts (window parser) parts }
    {
        let (withdrawn, path_attributes, announced) = parse_all::<R, Parts>(parser)?;
        Ok(UpdateParts {
            withdrawn,
            path_attributes,
            announced,
        })
    }
}

impl<R: AsOctets + Copy> UpdateMessage<R> {
    ghost use Rattle.octseq_bgp.specs.Parsed.{update_of};
    ghost use Rattle.octseq_bgp.specs.ReadTurns.{update_turns};

    /// Reads all that a parser has left as an UPDATE without its header, and counts a turn for each prefix and
    /// attribute.
    #[inline(always)]
    pub(crate) fn parse_counted(
        parser: Parser<R>,
        session: SessionConfig,
        turns: &mut Turns,
    ) -> Result<UpdateMessage<R>, Malformed>
        ensures update { IfOk result (λ update. IsUpdate session (window parser) (update_of update)) }
        ensures malformed { IsErr result → (update : said.Update) → ¬ IsUpdate session (window parser) update }
        ensures some { turns.old ≤ turns.new }
        ensures least { IfOk result (λ update. turns.old + update_turns (update_of update) ≤ turns.new) }
        ensures turns { turns.new ≤ turns.old + left (window parser) }
    {
        let parts = UpdateParts::parse_body(parser)?;
        let family = AfiSafiType::Ipv4Unicast;
        let withdrawn = Prefixes::parse_counted(parts.withdrawn, &session, family, turns)?;
        let path_attributes = PathAttributes::parse_counted(parts.path_attributes, session, turns)?;
        let announced = Prefixes::parse_counted(parts.announced, &session, family, turns)?;
        Ok(UpdateMessage {
            withdrawn,
            path_attributes,
            announced,
        })
    }
}
