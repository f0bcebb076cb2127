//! The text of RIBs, line by line.
ghost use Rattle.std.specs.Prelude.{◌≡◌, List, ℕ, codes, length, OnOk};
ghost use Rattle.std.specs.Fmt.{WritesOnOk, HasWritten, IsPlainFormatter};
ghost use Rattle.octseq.specs.Parser.{window};
ghost use Rattle.octseq_bgp.specs.MessageText.{line};
ghost use Rattle.octseq_mrt.specs.Parsed.{attribute_of, attributes_left, rib_value_of, entry_of, entries_left, rib_of};
ghost use Rattle.octseq_mrt.specs.RecordText.{next_hop_of, hops_line, rib_attribute_lines, AreRibAttributeLines};
ghost use Rattle.octseq_mrt.specs.RecordText.{IsEntryText, AreEntryLines, rib_text, IsRibText};
ghost use Rattle.octseq_mrt.specs.Rib.{is_next_hop_size, IsRibValue};
ghost use Rattle.octseq_mrt.specs.Text.{entry_text};

use crate::header::CommonHeader;
use crate::rib::{Rib, RibEntries, RibEntry};
use crate::rib_attribute::{RibAttribute, RibAttributes, RibValue};
use octseq::AsOctets;
use octseq_bgp::attribute::{AttributeType, Flags, NextHop};
use octseq_bgp::text::{write_attribute_lines, write_next_hop};
use std::fmt;

/// Returns octets as an address.
fn address<const N: usize>(octets: &[u8]) -> [u8; N]
    requires { length octets.now ≡ N }
    ensures { result ≡ octets.now }
{
    let mut address = [0; N];
    address.copy_from_slice(octets);
    address
}

/// Returns next hops, by their number of octets.
fn hops_of(octets: &[u8]) -> NextHop
    requires { is_next_hop_size (length octets.now) }
    ensures { result ≡ next_hop_of octets.now }
{
    match octets.len() {
        4 => NextHop::Ipv4(address(octets)),
        16 => NextHop::Ipv6(address(octets)),
        _ => NextHop::Ipv6LinkLocal(address(&octets[..16]), address(&octets[16..])),
    }
}

/// Writes the line of an attribute with next hops only.
fn write_hops_line<W: fmt::Write>(
    f: &mut fmt::Formatter<W>,
    flags: Flags,
    octets: &[u8],
) -> fmt::Result
    requires { is_next_hop_size (length octets.now) }
    ensures { WritesOnOk W.write_str_gives f.old result (hops_line flags.0 octets.now) f.new }
{
    let kind = AttributeType::MpReachNlri;
    write!(f, "attribute {flags} {kind}")?;
    write_next_hop(f, hops_of(octets))?;
    f.write_str("\n")
}

/// Writes the lines of an attribute, by its value.
fn write_attribute<W: fmt::Write, R: AsOctets + Copy>(
    f: &mut fmt::Formatter<W>,
    attribute: &RibAttribute<R>,
    value: &RibValue<R>,
) -> fmt::Result
    requires { IsRibValue attribute.now.type_code (window attribute.now.value) (rib_value_of value.now) }
    ensures { WritesOnOk W.write_str_gives f.old result
        (rib_attribute_lines (attribute_of attribute.now) (rib_value_of value.now)) f.new }
{
    match value {
        RibValue::NextHop(octets) => write_hops_line(f, attribute.flags, octets.peek_all()),
        RibValue::Value(value) => write_attribute_lines(f, &attribute.path_attribute(), value),
    }
}

/// Writes the lines of each attribute.
fn write_attributes<W: fmt::Write, R: AsOctets + Copy>(
    f: &mut fmt::Formatter<W>,
    attributes: RibAttributes<R>,
) -> fmt::Result
    ensures { OnOk result ((lines : List ℕ) × AreRibAttributeLines (attributes_left attributes) lines
        × (IsPlainFormatter f.old → HasWritten W.write_str_gives f.old lines f.new)) }
{
    for attribute in attributes {
        let value = attribute.value();
        write_attribute(f, &attribute, &value)?;
    }
    Ok(())
}

/// Writes the line of an entry.
fn write_entry_line<W: fmt::Write, R: AsOctets + Copy>(
    f: &mut fmt::Formatter<W>,
    entry: &RibEntry<R>,
) -> fmt::Result
    ensures { WritesOnOk W.write_str_gives f.old result
        (line (codes "entry") (entry_text (entry_of entry.now))) f.new }
{
    write!(f, "{entry}\n")
}

/// Writes the lines of an entry and of its attributes.
fn write_entry<W: fmt::Write, R: AsOctets + Copy>(
    f: &mut fmt::Formatter<W>,
    entry: &RibEntry<R>,
) -> fmt::Result
    ensures { OnOk result ((lines : List ℕ) × IsEntryText (entry_of entry.now) lines
        × (IsPlainFormatter f.old → HasWritten W.write_str_gives f.old lines f.new)) }
{
    write_entry_line(f, entry)?;
    write_attributes(f, entry.attributes)
}

/// Writes the lines of each entry.
fn write_entries<W: fmt::Write, R: AsOctets + Copy>(
    f: &mut fmt::Formatter<W>,
    entries: RibEntries<R>,
) -> fmt::Result
    ensures { OnOk result ((lines : List ℕ) × AreEntryLines (entries_left entries) lines
        × (IsPlainFormatter f.old → HasWritten W.write_str_gives f.old lines f.new)) }
{
    for entry in entries {
        write_entry(f, &entry)?;
    }
    Ok(())
}

/// Writes the line of a RIB.
fn write_rib_line<W: fmt::Write, R: AsOctets + Copy>(
    f: &mut fmt::Formatter<W>,
    header: CommonHeader,
    rib: &Rib<R>,
) -> fmt::Result
    ensures { WritesOnOk W.write_str_gives f.old result (line (codes "rib") (rib_text header (rib_of rib.now))) f.new }
{
    let (time, subtype) = (header.timestamp, header.subtype);
    let sequence = rib.sequence;
    let prefix = rib.prefix();
    write!(f, "rib {time} {subtype} sequence {sequence} {prefix}\n")
}

/// Writes the lines of a RIB and of its entries.
pub(crate) fn write_rib<W: fmt::Write, R: AsOctets + Copy>(
    f: &mut fmt::Formatter<W>,
    header: CommonHeader,
    rib: &Rib<R>,
) -> fmt::Result
    ensures { OnOk result ((lines : List ℕ) × IsRibText header (rib_of rib.now) lines
        × (IsPlainFormatter f.old → HasWritten W.write_str_gives f.old lines f.new)) }
{
    write_rib_line(f, header, rib)?;
    write_entries(f, rib.entries)
}
