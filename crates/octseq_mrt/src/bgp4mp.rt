//! Messages and state changes: RFC 6396, 4.4 and 4.5, and RFC 8050, 3.
ghost use Rattle.std.specs.Prelude.{◌≡◌, ℕ, IsErr, IfOk, ⊤};
ghost use Rattle.octseq.specs.Parser.{window};
ghost use Rattle.octseq.specs.Window.{Window, rest, whole};
ghost use Rattle.octseq_format.specs.Laws.{NoneAt};
ghost use Rattle.octseq_bgp.specs.Message as bgp;
ghost use Rattle.octseq_bgp.specs.Message.{IsMessage};
ghost use Rattle.octseq_bgp.specs.Parsed.{message_of};
ghost use Rattle.octseq_mrt.specs.Address.{address_of};
ghost use Rattle.octseq_mrt.specs.Bgp4Mp as said;
ghost use Rattle.octseq_mrt.specs.Bgp4Mp.{ArePeers, IsBgp4Mp, IsBgp4MpFront, IsEvent, message_session};

use crate::address::{parse_address, parse_asn, parse_family, parse_optional};
use crate::kind::Bgp4MpSubtype;
use octseq::{AsOctets, Malformed, Parser};
use octseq_bgp::attribute::Asn;
use octseq_bgp::family::Afi;
use octseq_bgp::message::Message;
use octseq_bgp::session::{AddPath, SessionConfig};
use octseq_bgp::whole::parse_all;
use octseq_format::{Format, U16Be};
use std::alloc::AllocError;
use std::net::IpAddr;

/// The octets of a message in a record.
#[derive(Debug)]
pub struct MessageOctets<R: AsOctets> {
    /// The session in which the message is to be read.
    pub session: SessionConfig,
    /// The octets, as a parser. They may not be a message.
    pub octets: Parser<R>,
}

impl<R: AsOctets + Copy> Copy for MessageOctets<R> {}

impl<R: AsOctets + Copy> Clone for MessageOctets<R> {
    ghost is_clone = { λ message copy. copy ≡ message };

    ghost is_infallible = { λ _. ⊤ };

    fn clone(&self) -> Result<Self, AllocError> {
        Ok(*self)
    }
}

impl<R: AsOctets> MessageOctets<R> {
    /// The octets of a message, in a record of a subtype.
    pub fn new(subtype: Bgp4MpSubtype, octets: R) -> MessageOctets<R>
        ensures session { result.session ≡ message_session subtype }
        ensures octets { window result.octets ≡ whole (R.content octets) }
    {
        let session = subtype.session();
        let octets = Parser::from_ref(octets);
        MessageOctets { session, octets }
    }
}

/// An event of a session.
#[derive(Debug)]
pub enum Event<R: AsOctets> {
    /// The state changed, from the first to the second: RFC 4271, 8.2.2.
    StateChange(u16, u16),
    /// A message was sent or received.
    Message(MessageOctets<R>),
}

impl<R: AsOctets + Copy> Copy for Event<R> {}

impl<R: AsOctets + Copy> Clone for Event<R> {
    ghost is_clone = { λ event copy. copy ≡ event };

    ghost is_infallible = { λ _. ⊤ };

    fn clone(&self) -> Result<Self, AllocError> {
        Ok(*self)
    }
}

impl Bgp4MpSubtype {
    /// Returns how a message of the subtype is to be read: with AS numbers of its width, with path ids for all families
    /// if it has them, and of up to 65,535 octets.
    pub fn session(self) -> SessionConfig
        ensures { result ≡ message_session self }
    {
        SessionConfig {
            four_octet_asn: self.has_wide_asns(),
            add_path: AddPath::all(self.has_path_ids()),
            extended_message: true,
        }
    }
}

impl<R: AsOctets + Copy> Event<R> {
    ghost use Rattle.octseq_mrt.specs.Parsed.{event_of};

    /// Reads all that a parser has left as the event of a subtype.
    fn parse(parser: Parser<R>, subtype: Bgp4MpSubtype) -> Result<Event<R>, Malformed>
        ensures event { IfOk result (λ event. IsEvent subtype (window parser) (event_of event)) }
        ensures malformed { IsErr result → (event : said.Event) → ¬ IsEvent subtype (window parser) event }
    {
        if subtype.is_state_change() {
            let (old, new) = parse_all::<R, (U16Be, U16Be)>(parser)?;
            return Ok(Event::StateChange(old, new));
        }
        Ok(Event::Message(MessageOctets {
            session: subtype.session(),
            octets: parser,
        }))
    }
}

/// The address family and the addresses of two speakers.
#[derive(Clone, Copy, Debug)]
struct Addresses {
    afi: Afi,
    peer: IpAddr,
    local: IpAddr,
}

impl Addresses {
    /// Reads the next addresses.
    fn parse<R: AsOctets + Copy>(parser: &mut Parser<R>) -> Result<Addresses, Malformed>
        ensures peers { IfOk result (λ it. ArePeers (window parser.old)
            (it.afi, (address_of it.peer, address_of it.local)) (window parser.new)) }
        ensures malformed { IsErr result → NoneAt ArePeers (window parser.old) }
    {
        let afi = parse_family(parser)?;
        let peer = parse_address(parser, afi)?;
        let local = parse_address(parser, afi)?;
        Ok(Addresses { afi, peer, local })
    }
}

/// What a record says before its event.
#[derive(Clone, Copy, Debug)]
struct Front {
    microseconds: Option<u32>,
    peer_asn: Asn,
    local_asn: Asn,
    interface: u16,
    addresses: Addresses,
}

impl Front {
    /// Reads it, with or without microseconds, and with AS numbers of four octets or two.
    fn parse<R: AsOctets + Copy>(
        parser: &mut Parser<R>,
        extended: bool,
        wide: bool,
    ) -> Result<Front, Malformed>
        ensures front { IfOk result (λ it. IsBgp4MpFront extended wide (window parser.old) (
          it.microseconds,
          (
            it.peer_asn.0,
            (
              it.local_asn.0,
              (
                it.interface,
                (it.addresses.afi, (address_of it.addresses.peer, address_of it.addresses.local)),
              ),
            ),
          ),
        ) (window parser.new)) }
        ensures malformed { IsErr result → NoneAt (IsBgp4MpFront extended wide) (window parser.old) }
    {
        let microseconds = parse_optional(parser, extended)?;
        let peer_asn = parse_asn(parser, wide)?;
        let local_asn = parse_asn(parser, wide)?;
        let interface = U16Be::parse(parser)?;
        let addresses = Addresses::parse(parser)?;
        Ok(Front {
            microseconds,
            peer_asn,
            local_asn,
            interface,
            addresses,
        })
    }
}

/// A message or a state change, with the speakers of its session.
#[derive(Debug)]
pub struct Bgp4Mp<R: AsOctets> {
    /// The microseconds of the timestamp, if the type has them.
    pub microseconds: Option<u32>,
    /// The AS number of the peer.
    pub peer_asn: Asn,
    /// The AS number of the collector.
    pub local_asn: Asn,
    /// The interface index, or 0.
    pub interface: u16,
    /// The address of the peer.
    pub peer_addr: IpAddr,
    /// The address of the collector.
    pub local_addr: IpAddr,
    /// The event.
    pub event: Event<R>,
}

impl<R: AsOctets + Copy> Copy for Bgp4Mp<R> {}

impl<R: AsOctets + Copy> Clone for Bgp4Mp<R> {
    ghost is_clone = { λ it copy. copy ≡ it };

    ghost is_infallible = { λ _. ⊤ };

    fn clone(&self) -> Result<Self, AllocError> {
        Ok(*self)
    }
}

impl<R: AsOctets + Copy> Bgp4Mp<R> {
    ghost use Rattle.octseq_mrt.specs.Parsed.{bgp4mp_of};

    /// Reads all that a parser has left, with or without microseconds, by a subtype.
    pub(crate) fn parse(
        parser: Parser<R>,
        extended: bool,
        subtype: Bgp4MpSubtype,
    ) -> Result<Bgp4Mp<R>, Malformed>
        ensures bgp4mp { IfOk result (λ it. IsBgp4Mp extended subtype (window parser) (bgp4mp_of it)) }
        ensures malformed { IsErr result → (it : said.Bgp4Mp) → ¬ IsBgp4Mp extended subtype (window parser) it }
    {
        let wide = subtype.has_wide_asns();
        let mut ahead = parser;
        let front = Front::parse(&mut ahead, extended, wide)?;
        let event = Event::parse(ahead, subtype)?;
        Ok(Bgp4Mp {
            microseconds: front.microseconds,
            peer_asn: front.peer_asn,
            local_asn: front.local_asn,
            interface: front.interface,
            peer_addr: front.addresses.peer,
            local_addr: front.addresses.local,
            event,
        })
    }
}

impl<R: AsOctets + Copy> MessageOctets<R> {
    /// Reads the octets as a message.
    ///
    /// # Errors
    ///
    /// `Malformed` if they aren't one.
    pub fn message(&self) -> Result<Message<&[u8]>, Malformed>
        ensures message { IfOk result (λ it.
            IsMessage self.now.session (rest (window self.now.octets)) (message_of it)) }
        ensures malformed { IsErr result → (m : bgp.Message)
            → ¬ IsMessage self.now.session (rest (window self.now.octets)) m }
    {
        Message::parse(self.octets.peek_all(), self.session)
    }
}
