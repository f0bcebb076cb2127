//! Messages: RFC 4271, 4.
ghost use Rattle.std.specs.Prelude.{◌≡◌, ◌+◌, ◌≤◌, ℕ, List, length, ◌↔◌, IsTrue, IsErr, IfOk};
ghost use Rattle.octseq.specs.Parser.{window};
ghost use Rattle.octseq.specs.Window.{Window, left, whole};
ghost use Rattle.octseq_bgp.specs.Fills.{Whole};
ghost use Rattle.octseq_bgp.specs.Message as said;
ghost use Rattle.octseq_bgp.specs.Message.{IsHeader, IsRouteRefresh, IsBody, IsMessage, IsShortEnough};
ghost use Rattle.octseq_bgp.specs.Message.{HasUpdateParts};
ghost use Rattle.octseq_bgp.specs.declared.session.SessionConfig.{SessionConfig as Session};

mod end_of_rib;
mod fault;
mod handling;
mod keepalive;
mod notification;
mod notification_builder;
mod offset;
mod open;
mod open_builder;
mod parameter;
mod reader;
mod rewriting;
mod route_refresh_builder;
mod update;
mod update_builder;
mod written;

use crate::session::SessionConfig;
use crate::whole::parse_all;
pub use fault::{Fault, Faults};
pub use handling::Handling;
pub use keepalive::keepalive_octets;
pub use notification::{NotificationData, NotificationMessage};
pub use notification_builder::NotificationBuilder;
use octseq::{AsOctets, Malformed, Parser, Turns};
use octseq_format::{Nested, U8, U16Be, U128Be};
pub use offset::fault_offset;
pub use open::OpenMessage;
pub use open_builder::OpenBuilder;
pub use parameter::{Parameter, Parameters};
pub use reader::{MessageReader, ReadMessageError, read_message};
pub use rewriting::rewrite;
pub use route_refresh_builder::RouteRefreshBuilder;
pub use update::{UpdateMessage, UpdateParts};
pub use update_builder::UpdateBuilder;
pub use update_builder::part::{Announced, Attributes, MpList, Part, Withdrawn};

/// 16 octets of 255, as a number.
const MARKER: u128 = u128::MAX;

/// A ROUTE-REFRESH: RFC 2918, 3.
#[derive(Debug, Drop)]
pub struct RouteRefreshMessage<R: AsOctets> {
    /// The AFI.
    pub afi: u16,
    /// The subtype: RFC 7313, 3.2.
    pub subtype: u8,
    /// The SAFI.
    pub safi: u8,
    /// The octets that follow, as a parser: RFC 5291, 4.
    pub orf: Parser<R>,
}

impl<R: AsOctets + Copy> RouteRefreshMessage<R> {
    fn parse(parser: Parser<R>) -> Result<RouteRefreshMessage<R>, Malformed>
        ensures is { IfOk result (λ it. Whole IsRouteRefresh (window parser)
            (it.afi, (it.subtype, (it.safi, window it.orf)))) }
        ensures malformed { IsErr result → (it : ℕ × (ℕ × (ℕ × Window))) → ¬ Whole IsRouteRefresh (window parser) it }
    {
        let (afi, subtype, safi, orf) = parse_all::<R, (U16Be, U8, U8, Nested)>(parser)?;
        Ok(RouteRefreshMessage {
            afi,
            subtype,
            safi,
            orf,
        })
    }
}

/// A message.
#[derive(Debug, Drop)]
pub enum Message<R: AsOctets> {
    /// OPEN.
    Open(OpenMessage<R>),
    /// UPDATE.
    Update(UpdateMessage<R>),
    /// NOTIFICATION.
    Notification(NotificationMessage<R>),
    /// KEEPALIVE.
    Keepalive,
    /// ROUTE-REFRESH.
    RouteRefresh(RouteRefreshMessage<R>),
}

/// A header, and what follows it.
#[derive(Debug, Drop)]
pub(crate) struct Header<R: AsOctets> {
    length: u16,
    pub(crate) kind: u8,
    pub(crate) body: Parser<R>,
}

impl<R: AsOctets + Copy> Header<R> {
    fn parse(parser: Parser<R>) -> Result<Header<R>, Malformed>
        ensures header { IfOk result (λ it. IsHeader (window parser) (it.length, (it.kind, window it.body))) }
        ensures malformed { IsErr result → (h : ℕ × (ℕ × Window)) → ¬ IsHeader (window parser) h }
    {
        let (marker, length, kind, body) = parse_all::<R, (U128Be, U16Be, U8, Nested)>(parser)?;
        if marker != MARKER {
            return Err(Malformed);
        }
        Ok(Header { length, kind, body })
    }
}

/// Whether a message of a type may have this many octets.
fn is_short_enough(session: &SessionConfig, kind: u8, size: usize) -> bool
    ensures { IsTrue result ↔ IsShortEnough session.now kind size }
{
    size <= 4096 || session.extended_message && kind != 1 && kind != 4
}

/// Reads a header. Its length must be the number of octets, and allowed in the session.
pub(crate) fn parse_header<R: AsOctets + Copy>(
    octets: R,
    session: &SessionConfig,
) -> Result<Header<R>, Malformed>
    ensures header { IfOk result (λ it. IsHeader (whole (R.content octets))
        (length (R.content octets), (it.kind, window it.body))) }
    ensures short { IfOk result (λ it. IsShortEnough session.now it.kind (length (R.content octets))) }
    ensures malformed { IsErr result → (kind : ℕ) (body : Window)
        → IsHeader (whole (R.content octets)) (length (R.content octets), (kind, body))
        → ¬ IsShortEnough session.now kind (length (R.content octets)) }
{
    let parser = Parser::from_ref(octets);
    let size = parser.remaining();
    let header = Header::parse(parser)?;
    if usize::from(header.length) != size || !is_short_enough(session, header.kind, size) {
        return Err(Malformed);
    }
    Ok(header)
}

impl<R: AsOctets + Copy> UpdateParts<R> {
    ghost use Rattle.octseq_bgp.specs.Parsed.{update_parts_of};

    /// Splits an UPDATE into its three parts, as parsers. The lengths must fit, but prefixes and attributes needn't
    /// fill them: RFC 7606, 3.
    ///
    /// # Errors
    ///
    /// `Malformed` if by their header the octets aren't an UPDATE of the session, or if the lengths don't fit.
    pub fn parse(octets: R, session: SessionConfig) -> Result<UpdateParts<R>, Malformed>
        ensures parts { IfOk result (λ it. HasUpdateParts session (R.content octets) (update_parts_of it)) }
        ensures malformed { IsErr result → (parts : Window × (Window × Window))
            → ¬ HasUpdateParts session (R.content octets) parts }
    {
        let header = parse_header(octets, &session)?;
        if header.kind != 2 {
            return Err(Malformed);
        }
        let parts = UpdateParts::parse_body(header.body)?;
        Ok(parts)
    }
}

impl<R: AsOctets + Copy> Message<R> {
    ghost use Rattle.octseq_bgp.specs.Parsed.{message_of};
    ghost use Rattle.octseq_bgp.specs.ReadTurns.{message_turns};

    /// Reads what follows a header.
    #[inline(always)]
    fn parse_body(
        parser: Parser<R>,
        kind: u8,
        session: SessionConfig,
        turns: &mut Turns,
    ) -> Result<Message<R>, Malformed>
        ensures body { IfOk result (λ it. IsBody session (window parser) kind (message_of it)) }
        ensures malformed { IsErr result → (m : said.Message) → ¬ IsBody session (window parser) kind m }
        ensures some { turns.old ≤ turns.new }
        ensures least { IfOk result (λ it. turns.old + message_turns (message_of it) ≤ turns.new) }
        ensures turns { turns.new ≤ turns.old + left (window parser) }
    {
        match kind {
            1 => Ok(Message::Open(OpenMessage::parse_counted(parser, turns)?)),
            2 => Ok(Message::Update(UpdateMessage::parse_counted(parser, session, turns)?)),
            3 => Ok(Message::Notification(NotificationMessage::parse(parser)?)),
            4 => {
                if parser.remaining() > 0 {
                    return Err(Malformed);
                }
                Ok(Message::Keepalive)
            }
            5 => Ok(Message::RouteRefresh(RouteRefreshMessage::parse(parser)?)),
            _ => Err(Malformed),
        }
    }

    /// Reads all the octets as a message of the session. It requests no memory.
    ///
    /// # Errors
    ///
    /// `Malformed` if they aren't one.
    #[inline(always)]
    pub fn parse(octets: R, session: SessionConfig) -> Result<Message<R>, Malformed>
        ensures message { IfOk result (λ it. IsMessage session (R.content octets) (message_of it)) }
        ensures malformed { IsErr result → (m : said.Message) → ¬ IsMessage session (R.content octets) m }
    {
        Message::parse_counted(octets, session, &mut Turns::new())
    }

    /// Reads like [`parse`](Self::parse), and counts the loop turns that this takes: one for each prefix, attribute and
    /// parameter, at most one for each octet.
    ///
    /// # Errors
    ///
    /// Those of `parse`.
    #[inline(always)]
    pub fn parse_counted(
        octets: R,
        session: SessionConfig,
        turns: &mut Turns,
    ) -> Result<Message<R>, Malformed>
        ensures message { IfOk result (λ it. IsMessage session (R.content octets) (message_of it)) }
        ensures malformed { IsErr result → (m : said.Message) → ¬ IsMessage session (R.content octets) m }
        ensures some { turns.old ≤ turns.new }
        ensures least { IfOk result (λ it. turns.old + message_turns (message_of it) ≤ turns.new) }
        ensures turns { turns.new ≤ turns.old + length (R.content octets) }
    {
        let header = parse_header(octets, &session)?;
        let message = Message::parse_body(header.body, header.kind, session, turns)?;
        Ok(message)
    }
}
