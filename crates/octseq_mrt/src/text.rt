//! The text of peers, RIB entries and sessions.
ghost use Rattle.std.specs.Prelude.{◌++◌, Some, codes};
ghost use Rattle.octseq_mrt.specs.Address.{address_of};
ghost use Rattle.octseq_mrt.specs.Parsed.{peer_of, entry_of, event_of, bgp4mp_of};
ghost use Rattle.octseq_mrt.specs.Rib.{path_id_of};
ghost use Rattle.octseq_mrt.specs.Text.{ip_text, peer_text, path_id_text, entry_text, states_text, bgp4mp_text};

mod append;
mod lines;
mod rib;

use crate::bgp4mp::{Bgp4Mp, Event};
use crate::peer::PeerEntry;
use crate::rib::RibEntry;
pub use lines::one_record_text;
use octseq::AsOctets;
use octseq_bgp::family::Afi;
use octseq_bgp::prefix::PathId;
use octseq_bgp::text::{write_address, write_dotted};
use std::fmt;
use std::net::IpAddr;

/// The text of an address.
#[derive(Clone, Copy)]
struct AddressText(IpAddr);

impl fmt::Display for AddressText {
    ghost output = { λ it. Some (ip_text (address_of it.0)) };

    fn fmt<W: fmt::Write>(&self, f: &mut fmt::Formatter<W>) -> fmt::Result {
        match self.0 {
            IpAddr::V4(address) => write!(f, "{address}"),
            IpAddr::V6(address) => write_address(f, Afi::Ipv6, address.octets()),
        }
    }
}

/// Prints the identifier, the address and the AS number.
impl fmt::Display for PeerEntry {
    ghost output = { λ peer. Some (peer_text (peer_of peer)) };

    fn fmt<W: fmt::Write>(&self, f: &mut fmt::Formatter<W>) -> fmt::Result {
        let addr = AddressText(self.addr);
        let asn = self.asn;
        f.write_str("id ")?;
        write_dotted(f, self.bgp_id)?;
        write!(f, " address {addr} as {asn}")
    }
}

/// The text of a path id, if there is one.
#[derive(Clone, Copy)]
struct PathText(Option<PathId>);

impl fmt::Display for PathText {
    ghost output = { λ it. Some (path_id_text (path_id_of it.0)) };

    fn fmt<W: fmt::Write>(&self, f: &mut fmt::Formatter<W>) -> fmt::Result {
        match self.0 {
            Some(id) => write!(f, " path {id}"),
            None => Ok(()),
        }
    }
}

/// Prints the number of the peer, the time, and the path id if there is one.
impl<R: AsOctets> fmt::Display for RibEntry<R> {
    ghost output = { λ entry. Some (codes "entry " ++ entry_text (entry_of entry)) };

    fn fmt<W: fmt::Write>(&self, f: &mut fmt::Formatter<W>) -> fmt::Result {
        let index = self.peer_index;
        let time = self.originated_time;
        let path = PathText(self.path_id);
        write!(f, "entry {index} time {time}{path}")
    }
}

/// Prints the states of a state change, otherwise nothing.
impl<R: AsOctets> fmt::Display for Event<R> {
    ghost output = { λ event. Some (states_text (event_of event)) };

    fn fmt<W: fmt::Write>(&self, f: &mut fmt::Formatter<W>) -> fmt::Result {
        match self {
            Event::StateChange(old, new) => write!(f, " state {old} {new}"),
            Event::Message(_) => Ok(()),
        }
    }
}

/// Prints the speakers and the interface, and the states of a state change.
impl<R: AsOctets + Copy> fmt::Display for Bgp4Mp<R> {
    ghost output = { λ it. Some (bgp4mp_text (bgp4mp_of it)) };

    #[tactic(auto, unfolding(crate::specs::Text::bgp4mp_text))]
    fn fmt<W: fmt::Write>(&self, f: &mut fmt::Formatter<W>) -> fmt::Result {
        let peer = AddressText(self.peer_addr);
        let remote = self.peer_asn;
        let local = AddressText(self.local_addr);
        let asn = self.local_asn;
        let interface = self.interface;
        let event = self.event;
        write!(f, "peer {peer} as {remote} local {local} as {asn}")?;
        write!(f, " interface {interface}{event}")
    }
}
