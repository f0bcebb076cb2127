//! The path attributes of the entries of a RIB as rows of numbers.
ghost use Rattle.std.specs.Prelude.{◌≡◌, ◌≢◌, ◌↔◌, ◌⊎◌, ◌+◌, ◌<◌, ◌≤◌, ◌^◌, ◌++◌, List, map, take, drop, length};
ghost use Rattle.std.specs.List.{flat_map};
ghost use Rattle.octseq_mrt.specs.Parsed.{attribute_of, attributes_left, entries_left, value_of};
ghost use Rattle.octseq_mrt.specs.ReadTurns.{entries_turns, record_turns};
ghost use Rattle.octseq_mrt.specs.Records.{IsRecordOctets};
ghost use Rattle.octseq_c.specs.BgpRows.{row_of_attribute};
ghost use Rattle.octseq_c.specs.MrtRows.{AreMrtAttributesOf, rows_of_attributes, rows_of_entries};
ghost use Rattle.octseq_c.specs.Puts.{FillsPrefix, Puts};
ghost use Rattle.octseq_c.specs.Status.{status_ok, status_no_room, status_malformed};

use crate::bgp::rows::{BgpRow, attribute_row};
use crate::mrt::record::record_value;
use crate::mrt::rows::attributes_count;
use crate::status::{MALFORMED, NO_ROOM, OK};
use octseq::{AsOctets, Malformed};
use octseq_mrt::{RecordValue, RibAttributes, RibEntries};

/// Writes the rows of the attributes of all entries of the RIB that the octets are to the front of `out`.
#[unsafe(no_mangle)]
pub extern "C" fn octseq_mrt_attributes(octets: &[u8], out: &mut [BgpRow], count: &mut usize) -> u32
    ensures puts { Puts (AreMrtAttributesOf octets.now) result out.old out.new count.new }
    ensures malformed { (result ≡ status_malformed) ↔ ¬ IsRecordOctets octets.now }
    ensures only { (result ≡ status_ok) ⊎ (result ≡ status_no_room) ⊎ (result ≡ status_malformed) }
    ensures kept { result ≢ status_ok → out.new ≡ out.old }
{
    put_attributes(octets, out, count)
}

/// Writes the rows of the attributes of all entries of the RIB that the octets are to the front of `out`.
fn put_attributes<R: AsOctets + Copy>(octets: R, out: &mut [BgpRow], count: &mut usize) -> u32
    requires few { 1 + length (R.content octets) < 2 ^ 64 }
    ensures puts { Puts (AreMrtAttributesOf (R.content octets)) result out.old out.new count.new }
    ensures malformed { (result ≡ status_malformed) ↔ ¬ IsRecordOctets (R.content octets) }
    ensures only { (result ≡ status_ok) ⊎ (result ≡ status_no_room) ⊎ (result ≡ status_malformed) }
    ensures kept { result ≢ status_ok → out.new ≡ out.old }
{
    match record_value(octets) {
        Ok(value) => {
            *count = row_count(&value);
            if *count > out.len() {
                return NO_ROOM;
            }
            fill_rows(out, &value);
            OK
        }
        Err(Malformed) => {
            *count = 0;
            MALFORMED
        }
    }
}

/// Returns the number of attributes of all entries.
fn row_count<R: AsOctets + Copy>(value: &RecordValue<R>) -> usize
    requires { record_turns (value_of value.now) < 2 ^ 64 }
    ensures { result ≡ length (rows_of_entries (value_of value.now)) }
{
    match value {
        RecordValue::Rib(rib) => entries_count(rib.entries),
        _ => 0,
    }
}

/// Returns the number of attributes of entries.
fn entries_count<R: AsOctets + Copy>(entries: RibEntries<R>) -> usize
    requires { entries_turns (entries_left entries) < 2 ^ 64 }
    ensures { result ≡ length (flat_map rows_of_attributes (entries_left entries)) }
{
    let mut count = 0;
    for entry in entries {
        count += attributes_count(entry.attributes);
    }
    count
}

/// Writes the rows of a value to the front of a buffer that has room for them.
fn fill_rows<R: AsOctets + Copy>(out: &mut [BgpRow], value: &RecordValue<R>)
    requires { length (rows_of_entries (value_of value.now)) ≤ length out.old }
    ensures { FillsPrefix (rows_of_entries (value_of value.now)) out.old out.new }
{
    match value {
        RecordValue::Rib(rib) => fill_entries(out, rib.entries),
        _ => (),
    }
}

/// Writes the rows of the attributes of entries to the front of a buffer that has room for them.
fn fill_entries<R: AsOctets + Copy>(out: &mut [BgpRow], entries: RibEntries<R>)
    requires { length (flat_map rows_of_attributes (entries_left entries)) ≤ length out.old }
    ensures { FillsPrefix (flat_map rows_of_attributes (entries_left entries)) out.old out.new }
{
    let mut at = 0;
    for entry in entries {
        at = fill_attributes(out, at, entry.attributes);
    }
}

/// Writes the rows of attributes from an index on. Returns the index after them.
fn fill_attributes<R: AsOctets + Copy>(
    out: &mut [BgpRow],
    from: usize,
    attributes: RibAttributes<R>,
) -> usize
    requires { from + length (attributes_left attributes) ≤ length out.old }
    ensures end { result ≡ from + length (attributes_left attributes) }
    ensures out { out.new ≡ take from out.old
        ++ (map row_of_attribute (attributes_left attributes) ++ drop result out.old) }
{
    let mut at = from;
    for attribute in attributes {
        out[at] = attribute_row(&attribute.path_attribute());
        at += 1;
    }
    at
}
