//! The row of each part of an MRT record.
ghost use Rattle.std.specs.Prelude.{◌≡◌, ◌<◌, ◌≤◌, ◌^◌, length, List, ℕ};
ghost use Rattle.octseq.specs.Parser.{window};
ghost use Rattle.octseq_mrt.specs.Address.{address_of};
ghost use Rattle.octseq_mrt.specs.Parsed.{attributes_left, bgp4mp_of, entries_left, entry_of, event_of, peer_of};
ghost use Rattle.octseq_mrt.specs.Parsed.{peers_left, rib_of, table_of};
ghost use Rattle.octseq_c.specs.MrtRows.{address_afi, address_len, address_octets, no_row, number_count};
ghost use Rattle.octseq_c.specs.MrtRows.{number_or_zero, row_of_entry, row_of_event, row_of_opaque, row_of_peer};
ghost use Rattle.octseq_c.specs.MrtRows.{row_of_rib, row_of_table, with_event};

use crate::bgp::session::flags_of;
use octseq::{AsOctets, Parser};
use octseq_mrt::{Bgp4Mp, Event, PeerEntry, PeerIndexTable, Rib, RibEntry};
use std::net::IpAddr;

/// Octets without the form of their type and subtype.
const OPAQUE: u32 = 0;

/// A PEER_INDEX_TABLE.
const TABLE: u32 = 1;

/// A peer of a table.
const PEER: u32 = 2;

/// A RIB.
const RIB: u32 = 3;

/// An entry of a RIB.
const ENTRY: u32 = 4;

/// A message.
const MESSAGE: u32 = 5;

/// A state change.
const STATE_CHANGE: u32 = 6;

/// A part of a record. What a kind doesn't have is 0.
#[repr(C)]
#[derive(Clone, Copy)]
pub struct MrtRow {
    /// Where octets begin, from the first octet of the record: the name of a table's view, the prefix of a RIB, a
    /// message, or opaque octets.
    pub at: usize,
    /// How many octets there are.
    pub len: usize,
    /// How many peers a table has, how many entries a RIB, how many attributes an entry.
    pub count: usize,
    /// 0 for opaque octets, 1 for a table, 2 for a peer, 3 for a RIB, 4 for an entry, 5 for a message, 6 for a state
    /// change.
    pub kind: u32,
    /// The BGP identifier of a collector or a peer, the sequence number of a RIB, the path id of an entry.
    pub id: u32,
    /// When the route of an entry was received, in seconds since 1970; the microseconds of a message or a state change.
    pub time: u32,
    /// The AS number of a peer.
    pub asn: u32,
    /// The AS number of the collector, of a message or a state change.
    pub local_asn: u32,
    /// The session of a message, as flags.
    pub session: u32,
    /// The old state of a state change.
    pub old_state: u32,
    /// The new state.
    pub new_state: u32,
    /// The number of an entry's peer in the table; the interface of a message or a state change.
    pub index: u16,
    /// The AFI of a prefix or of addresses.
    pub afi: u16,
    /// The SAFI of a prefix.
    pub safi: u8,
    /// The length of a prefix in bits.
    pub bits: u8,
    /// 1 for an entry with a path id, a message or a state change with microseconds.
    pub has_number: u8,
    /// How many octets an address has.
    pub addr_len: u8,
    /// The address of a peer, followed by zeros.
    pub addr: [u8; 16],
    /// The address of the collector, followed by zeros.
    pub local_addr: [u8; 16],
}

/// Returns the row of opaque octets.
pub fn opaque_row<R: AsOctets + Copy>(octets: Parser<R>) -> MrtRow
    ensures { result ≡ row_of_opaque (window octets) }
{
    MrtRow {
        at: octets.pos(),
        len: octets.remaining(),
        count: 0,
        kind: OPAQUE,
        id: 0,
        time: 0,
        asn: 0,
        local_asn: 0,
        session: 0,
        old_state: 0,
        new_state: 0,
        index: 0,
        afi: 0,
        safi: 0,
        bits: 0,
        has_number: 0,
        addr_len: 0,
        addr: [0; 16],
        local_addr: [0; 16],
    }
}

/// Returns a row without octets.
fn no_row() -> MrtRow
    ensures { result ≡ no_row }
{
    opaque_row::<&[u8]>(Parser::from_ref(&[]))
}

/// Returns the row of a table with so many peers.
pub fn table_row<R: AsOctets + Copy>(table: &PeerIndexTable<R>, count: usize) -> MrtRow
    requires { count ≡ length (peers_left table.now.peers) }
    ensures { result ≡ row_of_table (table_of table.now) }
{
    MrtRow {
        count,
        kind: TABLE,
        id: table.collector_bgp_id,
        ..opaque_row(table.view_name)
    }
}

/// Returns the row of a peer.
pub fn peer_row(peer: &PeerEntry) -> MrtRow
    ensures { result ≡ row_of_peer (peer_of peer.now) }
{
    MrtRow {
        kind: PEER,
        id: peer.bgp_id,
        asn: peer.asn.0,
        afi: address_afi(peer.addr),
        addr_len: address_len(peer.addr),
        addr: address_octets(peer.addr),
        ..no_row()
    }
}

/// Returns the row of a RIB with so many entries.
pub fn rib_row<R: AsOctets + Copy>(rib: &Rib<R>, count: usize) -> MrtRow
    requires { count ≡ length (entries_left rib.now.entries) }
    ensures { result ≡ row_of_rib (rib_of rib.now) }
{
    MrtRow {
        count,
        kind: RIB,
        id: rib.sequence,
        afi: rib.family.afi_number(),
        safi: rib.family.safi_number(),
        bits: rib.len,
        ..opaque_row(rib.octets)
    }
}

/// Returns the row of an entry with so many attributes.
pub fn entry_row<R: AsOctets + Copy>(entry: &RibEntry<R>, count: usize) -> MrtRow
    requires { count ≡ length (attributes_left entry.now.attributes) }
    ensures { result ≡ row_of_entry (entry_of entry.now) }
{
    let (id, has_number) = match entry.path_id {
        Some(id) => (id.0, 1),
        None => (0, 0),
    };
    MrtRow {
        count,
        kind: ENTRY,
        id,
        time: entry.originated_time,
        index: entry.peer_index,
        has_number,
        ..no_row()
    }
}

/// Returns what a row says of an event.
fn event_alone<R: AsOctets + Copy>(event: &Event<R>) -> MrtRow
    ensures { result ≡ with_event (event_of event.now) }
{
    match event {
        Event::Message(message) => MrtRow {
            kind: MESSAGE,
            session: flags_of(&message.session),
            ..opaque_row(message.octets)
        },
        Event::StateChange(old, new) => MrtRow {
            kind: STATE_CHANGE,
            old_state: u32::from(*old),
            new_state: u32::from(*new),
            ..no_row()
        },
    }
}

/// Returns the row of a message or a state change.
pub fn event_row<R: AsOctets + Copy>(event: &Bgp4Mp<R>) -> MrtRow
    ensures { result ≡ row_of_event (bgp4mp_of event.now) }
{
    let (time, has_number) = number_and_count(event.microseconds);
    MrtRow {
        time,
        asn: event.peer_asn.0,
        local_asn: event.local_asn.0,
        index: event.interface,
        afi: address_afi(event.peer_addr),
        has_number,
        addr_len: address_len(event.peer_addr),
        addr: address_octets(event.peer_addr),
        local_addr: address_octets(event.local_addr),
        ..event_alone(&event.event)
    }
}

/// Returns a number, or 0, and how many there are.
fn number_and_count(number: Option<u32>) -> (u32, u8)
    ensures number { result.0 ≡ number_or_zero number }
    ensures count { result.1 ≡ number_count number }
{
    match number {
        Some(number) => (number, 1),
        None => (0, 0),
    }
}

/// Returns an address as 16 octets. Zeros follow the four of IPv4.
fn address_octets(addr: IpAddr) -> [u8; 16]
    ensures { result ≡ address_octets (address_of addr) }
{
    match addr {
        IpAddr::V4(addr) => {
            let mut octets = [0; 16];
            octets[..4].copy_from_slice(&addr.octets());
            octets
        }
        IpAddr::V6(addr) => addr.octets(),
    }
}

/// Returns how many of these are the address.
fn address_len(addr: IpAddr) -> u8
    ensures { result ≡ address_len (address_of addr) }
{
    match addr {
        IpAddr::V4(_) => 4,
        IpAddr::V6(_) => 16,
    }
}

/// Returns the AFI of an address.
fn address_afi(addr: IpAddr) -> u16
    ensures { result ≡ address_afi (address_of addr) }
{
    match addr {
        IpAddr::V4(_) => 1,
        IpAddr::V6(_) => 2,
    }
}
