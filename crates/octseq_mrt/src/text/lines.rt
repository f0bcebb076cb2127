//! The text of records, line by line.
ghost use Rattle.std.specs.Prelude.{◌≡◌, ◌++◌, ℕ, List, None, codes, OnOk};
ghost use Rattle.std.specs.Fmt.{WritesOnOk, HasWritten, IsPlainFormatter, decimal};
ghost use Rattle.octseq.specs.Window.{Window};
ghost use Rattle.octseq_bgp.specs.MessageText.{line};
ghost use Rattle.octseq_bgp.specs.OctetsText.{spaced};
ghost use Rattle.octseq_mrt.specs.Parsed.{peer_of, peers_left, table_of, event_of, bgp4mp_of, value_of, record_of};
ghost use Rattle.octseq_mrt.specs.RecordText.{peer_lines, table_text, table_lines, six_digits, microseconds_text};
ghost use Rattle.octseq_mrt.specs.RecordText.{session_text, IsOctetsText, IsEventText, IsBgp4MpText};
ghost use Rattle.octseq_mrt.specs.RecordText.{opaque_record_text, IsValueText, IsRecordText};
ghost use Rattle.octseq_mrt.specs.Text.{peer_text};
ghost use Rattle.octseq_mrt.specs.declared.header.CommonHeader.{CommonHeader as Header};

use crate::bgp4mp::{Bgp4Mp, Event};
use crate::header::CommonHeader;
use crate::peer::{PeerEntry, PeerIndexTable, Peers};
use crate::record::{Record, RecordValue};
use crate::text::rib::write_rib;
use octseq::AsOctets;
use octseq::octets_text::write_string;
use octseq_bgp::message::Message;
use octseq_bgp::session::SessionConfig;
use octseq_bgp::text::{write_dotted, write_opaque};
use std::fmt;

/// A record has at most one text.
///
/// It does nothing. Calling it brings the law into the caller's proof.
pub fn one_record_text()
    ensures { (r : Header × Window) (text other : List ℕ) → IsRecordText r text → IsRecordText r other → text ≡ other }
{}

/// Writes the line of a peer, after its number.
fn write_peer<W: fmt::Write>(
    f: &mut fmt::Formatter<W>,
    number: usize,
    peer: &PeerEntry,
) -> fmt::Result
    ensures { WritesOnOk W.write_str_gives f.old result
        (line (codes "peer") (decimal number ++ spaced (peer_text (peer_of peer.now)))) f.new }
{
    write!(f, "peer {number} {peer}\n")
}

/// Writes a line for each peer, numbered from 0.
fn write_peers<W: fmt::Write, R: AsOctets + Copy>(
    f: &mut fmt::Formatter<W>,
    peers: Peers<R>,
) -> fmt::Result
    ensures { WritesOnOk W.write_str_gives f.old result (peer_lines 0 (peers_left peers)) f.new }
{
    // There are no more peers than octets, so the numbers fit.
    let _most = peers.octets_left();
    let mut number = 0;
    for peer in peers {
        write_peer(f, number, &peer)?;
        number += 1;
    }
    Ok(())
}

/// Writes the line of a peer index table.
fn write_table_line<W: fmt::Write>(
    f: &mut fmt::Formatter<W>,
    time: u32,
    collector: u32,
    view: &[u8],
) -> fmt::Result
    ensures { WritesOnOk W.write_str_gives f.old result
        (line (codes "peers") (table_text time collector view.now)) f.new }
{
    write!(f, "peers {time} collector ")?;
    write_dotted(f, collector)?;
    f.write_str(" view ")?;
    write_string(f, view)?;
    f.write_str("\n")
}

/// Writes the lines of a peer index table and of its peers.
fn write_table<W: fmt::Write, R: AsOctets + Copy>(
    f: &mut fmt::Formatter<W>,
    header: CommonHeader,
    table: &PeerIndexTable<R>,
) -> fmt::Result
    ensures { WritesOnOk W.write_str_gives f.old result (table_lines header (table_of table.now)) f.new }
{
    let view = table.view_name.peek_all();
    write_table_line(f, header.timestamp, table.collector_bgp_id, view)?;
    write_peers(f, table.peers)
}

/// Writes a number with at least six digits.
fn write_six_digits<W: fmt::Write>(f: &mut fmt::Formatter<W>, number: u32) -> fmt::Result
    ensures { WritesOnOk W.write_str_gives f.old result (six_digits number) f.new }
{
    write!(f, "{number:06}")
}

/// Writes microseconds, if there are any.
fn write_microseconds<W: fmt::Write>(
    f: &mut fmt::Formatter<W>,
    microseconds: Option<u32>,
) -> fmt::Result
    ensures { WritesOnOk W.write_str_gives f.old result (microseconds_text microseconds) f.new }
{
    match microseconds {
        Some(number) => {
            f.write_str(".")?;
            write_six_digits(f, number)
        }
        None => Ok(()),
    }
}

/// Writes the line of a session.
fn write_session<W: fmt::Write, R: AsOctets + Copy>(
    f: &mut fmt::Formatter<W>,
    header: CommonHeader,
    it: &Bgp4Mp<R>,
) -> fmt::Result
    ensures { WritesOnOk W.write_str_gives f.old result
        (line (codes "bgp4mp") (session_text header (bgp4mp_of it.now))) f.new }
{
    let (time, subtype) = (header.timestamp, header.subtype);
    write!(f, "bgp4mp {time}")?;
    write_microseconds(f, it.microseconds)?;
    write!(f, " {subtype} {it}\n")
}

/// Writes the lines of the message that the octets are, or `malformed`.
fn write_octets<W: fmt::Write, R: AsOctets + Copy>(
    f: &mut fmt::Formatter<W>,
    octets: R,
    session: SessionConfig,
) -> fmt::Result
    ensures { OnOk result ((lines : List ℕ) × IsOctetsText session (R.content octets) lines
        × (IsPlainFormatter f.old → HasWritten W.write_str_gives f.old lines f.new)) }
{
    match Message::parse(octets, session) {
        Ok(message) => fmt::Display::fmt(&message, f),
        Err(_) => f.write_str("malformed\n"),
    }
}

/// Writes the lines of a message, or nothing for a state change.
fn write_event<W: fmt::Write, R: AsOctets + Copy>(
    f: &mut fmt::Formatter<W>,
    event: &Event<R>,
) -> fmt::Result
    ensures { OnOk result ((lines : List ℕ) × IsEventText (event_of event.now) lines
        × (IsPlainFormatter f.old → HasWritten W.write_str_gives f.old lines f.new)) }
{
    match event {
        Event::StateChange(_, _) => Ok(()),
        Event::Message(it) => write_octets(f, it.octets.peek_all(), it.session),
    }
}

/// Writes the lines of a session and of its message.
fn write_bgp4mp<W: fmt::Write, R: AsOctets + Copy>(
    f: &mut fmt::Formatter<W>,
    header: CommonHeader,
    it: &Bgp4Mp<R>,
) -> fmt::Result
    ensures { OnOk result ((lines : List ℕ) × IsBgp4MpText header (bgp4mp_of it.now) lines
        × (IsPlainFormatter f.old → HasWritten W.write_str_gives f.old lines f.new)) }
{
    write_session(f, header, it)?;
    write_event(f, &it.event)
}

/// Writes the line of a record with opaque octets.
fn write_opaque_record<W: fmt::Write>(
    f: &mut fmt::Formatter<W>,
    header: CommonHeader,
    octets: &[u8],
) -> fmt::Result
    ensures { WritesOnOk W.write_str_gives f.old result
        (line (codes "record") (opaque_record_text header octets.now)) f.new }
{
    let (time, kind, subtype) = (header.timestamp, header.type_code, header.subtype);
    write!(f, "record {time} {kind} {subtype}")?;
    write_opaque(f, octets)?;
    f.write_str("\n")
}

/// Writes the lines of the value of a record.
fn write_value<W: fmt::Write, R: AsOctets + Copy>(
    f: &mut fmt::Formatter<W>,
    header: CommonHeader,
    value: &RecordValue<R>,
) -> fmt::Result
    ensures { OnOk result ((lines : List ℕ) × IsValueText header (value_of value.now) lines
        × (IsPlainFormatter f.old → HasWritten W.write_str_gives f.old lines f.new)) }
{
    match value {
        RecordValue::PeerIndexTable(table) => write_table(f, header, table),
        RecordValue::Rib(rib) => write_rib(f, header, rib),
        RecordValue::Bgp4Mp(it) => write_bgp4mp(f, header, it),
        RecordValue::Opaque(octets) => write_opaque_record(f, header, octets.peek_all()),
    }
}

/// Prints the text of the record as [`append_text`](Record::append_text) appends it: a line for each part.
impl<R: AsOctets + Copy> fmt::Display for Record<R> {
    ghost output = { λ _. None };

    fn fmt<W: fmt::Write>(&self, f: &mut fmt::Formatter<W>) -> fmt::Result
        ensures shown { OnOk result ((lines : List ℕ) × IsRecordText (record_of self.now) lines
            × (IsPlainFormatter f.old → HasWritten W.write_str_gives f.old lines f.new)) }
    {
        let value = self.value();
        write_value(f, self.header, &value)
    }
}
