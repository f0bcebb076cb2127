//! The parts of an MRT record as rows of numbers.
ghost use Rattle.std.specs.Prelude.{◌≡◌, ◌≢◌, ◌↔◌, ◌⊎◌, ◌+◌, ◌<◌, ◌≤◌, ◌^◌, ◌++◌, ◌∷◌, [], List};
ghost use Rattle.std.specs.Prelude.{map, take, drop, length};
ghost use Rattle.octseq.specs.Parser.{window};
ghost use Rattle.octseq_mrt.specs.Parsed.{attributes_left, entries_left, peers_left, rib_of, table_of, value_of};
ghost use Rattle.octseq_mrt.specs.ReadTurns.{entries_turns, record_turns};
ghost use Rattle.octseq_mrt.specs.Records.{IsRecordOctets};
ghost use Rattle.octseq_c.specs.MrtRows.{AreMrtRowsOf, row_of_entry, row_of_peer, row_of_rib, row_of_table};
ghost use Rattle.octseq_c.specs.MrtRows.{rows_of_record};
ghost use Rattle.octseq_c.specs.Puts.{FillsPrefix, Puts};
ghost use Rattle.octseq_c.specs.Status.{status_ok, status_no_room, status_malformed};

use crate::mrt::record::record_value;
use crate::mrt::row::{MrtRow, entry_row, event_row, opaque_row, peer_row, rib_row, table_row};
use crate::status::{MALFORMED, NO_ROOM, OK};
use octseq::{AsOctets, Malformed};
use octseq_mrt::{PeerIndexTable, Peers, RecordValue, Rib, RibAttributes, RibEntries};

/// Writes the rows of the record that the octets are to the front of `out`.
#[unsafe(no_mangle)]
pub extern "C" fn octseq_mrt_rows(octets: &[u8], out: &mut [MrtRow], count: &mut usize) -> u32
    ensures puts { Puts (AreMrtRowsOf octets.now) result out.old out.new count.new }
    ensures malformed { (result ≡ status_malformed) ↔ ¬ IsRecordOctets octets.now }
    ensures only { (result ≡ status_ok) ⊎ (result ≡ status_no_room) ⊎ (result ≡ status_malformed) }
    ensures kept { result ≢ status_ok → out.new ≡ out.old }
{
    put_rows(octets, out, count)
}

/// Writes the rows of the record that the octets are to the front of `out`.
fn put_rows<R: AsOctets + Copy>(octets: R, out: &mut [MrtRow], count: &mut usize) -> u32
    requires few { 1 + length (R.content octets) < 2 ^ 64 }
    ensures puts { Puts (AreMrtRowsOf (R.content octets)) result out.old out.new count.new }
    ensures malformed { (result ≡ status_malformed) ↔ ¬ IsRecordOctets (R.content octets) }
    ensures only { (result ≡ status_ok) ⊎ (result ≡ status_no_room) ⊎ (result ≡ status_malformed) }
    ensures kept { result ≢ status_ok → out.new ≡ out.old }
{
    match record_value(octets) {
        Ok(value) => {
            *count = row_count(&value);
            if *count > out.len() {
                return NO_ROOM;
            }
            fill_rows(out, &value);
            OK
        }
        Err(Malformed) => {
            *count = 0;
            MALFORMED
        }
    }
}

/// Returns the number of rows of a value.
fn row_count<R: AsOctets + Copy>(value: &RecordValue<R>) -> usize
    requires { 1 + record_turns (value_of value.now) < 2 ^ 64 }
    ensures { result ≡ length (rows_of_record (value_of value.now)) }
{
    match value {
        RecordValue::PeerIndexTable(table) => 1 + peers_count(table.peers),
        RecordValue::Rib(rib) => 1 + entries_count(rib.entries),
        _ => 1,
    }
}

/// Returns the number of peers that are left.
fn peers_count<R: AsOctets + Copy>(peers: Peers<R>) -> usize
    requires { length (peers_left peers) < 2 ^ 64 }
    ensures { result ≡ length (peers_left peers) }
{
    let mut count = 0;
    for _peer in peers {
        count += 1;
    }
    count
}

/// Returns the number of entries that are left.
fn entries_count<R: AsOctets + Copy>(entries: RibEntries<R>) -> usize
    requires { length (entries_left entries) < 2 ^ 64 }
    ensures { result ≡ length (entries_left entries) }
{
    let mut count = 0;
    for _entry in entries {
        count += 1;
    }
    count
}

/// Returns the number of attributes that are left.
pub fn attributes_count<R: AsOctets + Copy>(attributes: RibAttributes<R>) -> usize
    requires { length (attributes_left attributes) < 2 ^ 64 }
    ensures { result ≡ length (attributes_left attributes) }
{
    let mut count = 0;
    for _attribute in attributes {
        count += 1;
    }
    count
}

/// Writes the rows of a value to the front of a buffer that has room for them.
fn fill_rows<R: AsOctets + Copy>(out: &mut [MrtRow], value: &RecordValue<R>)
    requires few { record_turns (value_of value.now) < 2 ^ 64 }
    requires room { length (rows_of_record (value_of value.now)) ≤ length out.old }
    ensures { FillsPrefix (rows_of_record (value_of value.now)) out.old out.new }
{
    match value {
        RecordValue::PeerIndexTable(table) => fill_table(out, table),
        RecordValue::Rib(rib) => fill_rib(out, rib),
        RecordValue::Bgp4Mp(event) => out[0] = event_row(event),
        RecordValue::Opaque(octets) => out[0] = opaque_row(*octets),
    }
}

/// Writes the rows of a table to the front of a buffer that has room for them.
fn fill_table<R: AsOctets + Copy>(out: &mut [MrtRow], table: &PeerIndexTable<R>)
    requires { 1 + length (peers_left table.now.peers) ≤ length out.old }
    ensures { FillsPrefix
        (row_of_table (table_of table.now) ∷ map row_of_peer (peers_left table.now.peers)) out.old out.new }
{
    let end = fill_peers(out, 1, table.peers);
    out[0] = table_row(table, end - 1);
}

/// Writes the rows of a RIB to the front of a buffer that has room for them.
fn fill_rib<R: AsOctets + Copy>(out: &mut [MrtRow], rib: &Rib<R>)
    requires few { entries_turns (entries_left rib.now.entries) < 2 ^ 64 }
    requires room { 1 + length (entries_left rib.now.entries) ≤ length out.old }
    ensures { FillsPrefix
        (row_of_rib (rib_of rib.now) ∷ map row_of_entry (entries_left rib.now.entries)) out.old out.new }
{
    let end = fill_entries(out, 1, rib.entries);
    out[0] = rib_row(rib, end - 1);
}

/// Writes the rows of peers from an index on. Returns the index after them.
fn fill_peers<R: AsOctets + Copy>(out: &mut [MrtRow], from: usize, peers: Peers<R>) -> usize
    requires { from + length (peers_left peers) ≤ length out.old }
    ensures end { result ≡ from + length (peers_left peers) }
    ensures out { out.new ≡ take from out.old ++ (map row_of_peer (peers_left peers) ++ drop result out.old) }
{
    let mut at = from;
    for peer in peers {
        out[at] = peer_row(&peer);
        at += 1;
    }
    at
}

/// Writes the rows of entries from an index on. Returns the index after them.
fn fill_entries<R: AsOctets + Copy>(
    out: &mut [MrtRow],
    from: usize,
    entries: RibEntries<R>,
) -> usize
    requires few { entries_turns (entries_left entries) < 2 ^ 64 }
    requires room { from + length (entries_left entries) ≤ length out.old }
    ensures end { result ≡ from + length (entries_left entries) }
    ensures out { out.new ≡ take from out.old ++ (map row_of_entry (entries_left entries) ++ drop result out.old) }
{
    let mut at = from;
    for entry in entries {
        let count = attributes_count(entry.attributes);
        out[at] = entry_row(&entry, count);
        at += 1;
    }
    at
}
