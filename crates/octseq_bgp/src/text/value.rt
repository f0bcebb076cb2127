//! The text of attributes, their values, and prefixes.
ghost use Rattle.std.specs.Prelude.{◌≡◌, ◌<◌, ◌++◌, Some, None, codes};
ghost use Rattle.std.specs.Fmt.{WritesOnOk, decimal};
ghost use Rattle.std.specs.List.{flat_map};
ghost use Rattle.octseq.specs.Parser.{window};
ghost use Rattle.octseq_bgp.specs.ExtendedText.{extended_type, extended_subtype, extended_value, extended_text};
ghost use Rattle.octseq_bgp.specs.ExtendedText.{extended_name, extended_parts, extended_digits, is_named};
ghost use Rattle.octseq_bgp.specs.Items.{items_left};
ghost use Rattle.octseq_bgp.specs.Lists.{attribute_of, nlri_of};
ghost use Rattle.octseq_bgp.specs.OctetsText.{spaced, number_dotted};
ghost use Rattle.octseq_bgp.specs.PathOf.{asns_left, path_of, segment_of};
ghost use Rattle.octseq_bgp.specs.Text.{community_text, large_text, address_text};
ghost use Rattle.octseq_bgp.specs.Value.{Value, IsValue};
ghost use Rattle.octseq_bgp.specs.ValueOf.{value_of};
ghost use Rattle.octseq_bgp.specs.ValueText.{flag_text, set_flags, flags_text, attribute_name_text, origin_text};
ghost use Rattle.octseq_bgp.specs.ValueText.{numbers_text};
ghost use Rattle.octseq_bgp.specs.ValueText.{segment_words, path_text, next_hop_text, aggregator_text, value_text};
ghost use Rattle.octseq_bgp.specs.ValueText.{attribute_text, path_id_text, nlri_text};
ghost use Rattle.octseq_bgp.specs.declared.family.Afi.TheVariants as addresses;

use crate::attribute::{
    Aggregator, AsPath, Asns, AttributeType, AttributeValue, Flags, NextHop, PathAttribute, Segment,
};
use crate::community::{
    ClusterIds, ExtendedCommunities, ExtendedCommunity, LargeCommunities, StandardCommunities,
};
use crate::family::Afi;
use crate::prefix::{Nlri, PathId};
use crate::text::octets::{write_address, write_dotted, write_number_hex, write_opaque};
use octseq::AsOctets;
use std::fmt;
use std::net::Ipv4Addr;

/// Prints the letters of the flags that are set: `O` optional, `T` transitive, `P` partial, or `-` for none.
impl fmt::Display for Flags {
    ghost output = { λ flags. Some (flags_text flags.0) };

    fn fmt<W: fmt::Write>(&self, f: &mut fmt::Formatter<W>) -> fmt::Result {
        let flags = self.0;
        if flags / 32 == 0 {
            return f.write_str("-");
        }
        write_set_flags(f, flags)
    }
}

/// Writes the letters of the flags that are set.
fn write_set_flags<W: fmt::Write>(f: &mut fmt::Formatter<W>, flags: u8) -> fmt::Result
    ensures { WritesOnOk W.write_str_gives f.old result (set_flags flags) f.new }
{
    write_flag(f, flags / 128, "O")?;
    write_flag(f, flags / 64 % 2, "T")?;
    write_flag(f, flags / 32 % 2, "P")
}

/// Writes a letter if a bit is set.
fn write_flag<W: fmt::Write>(f: &mut fmt::Formatter<W>, bit: u8, letter: &str) -> fmt::Result
    ensures { WritesOnOk W.write_str_gives f.old result (flag_text bit letter.now) f.new }
{
    if bit == 1 {
        return f.write_str(letter);
    }
    Ok(())
}

/// Writes the name of a type, or its number.
fn write_name<W: fmt::Write>(f: &mut fmt::Formatter<W>, type_code: u8) -> fmt::Result
    ensures { WritesOnOk W.write_str_gives f.old result (attribute_name_text type_code) f.new }
{
    match AttributeType::from_number(type_code) {
        Some(kind) => write!(f, "{kind}"),
        None => write!(f, "{type_code}"),
    }
}

/// Prints the name and the parts of a route target or a route origin, such as `target:65001:100`, otherwise sixteen
/// hexadecimal digits.
impl fmt::Display for ExtendedCommunity {
    ghost output = { λ community. Some (extended_text community.0) };

    #[tactic(auto, unfolding(crate::specs::ExtendedText::extended_text))]
    fn fmt<W: fmt::Write>(&self, f: &mut fmt::Formatter<W>) -> fmt::Result {
        let number = self.0;
        if is_named(number) {
            return write_named(f, number);
        }
        write_extended_digits(f, number)
    }
}

/// Writes the name and the parts.
fn write_named<W: fmt::Write>(f: &mut fmt::Formatter<W>, number: u64) -> fmt::Result
    ensures { WritesOnOk W.write_str_gives f.old result (extended_name (extended_subtype number)
        ++ extended_parts (extended_type number) (extended_value number)) f.new }
{
    let kind = (number / 72057594037927936) as u8;
    let subtype = (number / 281474976710656 % 256) as u8;
    write_extended_name(f, subtype)?;
    write_extended_parts(f, kind, number % 281474976710656)
}

/// Whether an extended community has a name and parts.
fn is_named(number: u64) -> bool
    ensures { result ≡ is_named number }
{
    let subtype = number / 281474976710656 % 256;
    number / 72057594037927936 <= 2 && (subtype == 2 || subtype == 3)
}

/// Writes sixteen hexadecimal digits.
fn write_extended_digits<W: fmt::Write>(f: &mut fmt::Formatter<W>, number: u64) -> fmt::Result
    ensures { WritesOnOk W.write_str_gives f.old result (extended_digits number) f.new }
{
    write_number_hex(f, (number / 4294967296) as u32)?;
    write_number_hex(f, (number % 4294967296) as u32)
}

/// Writes the name of a subtype.
fn write_extended_name<W: fmt::Write>(f: &mut fmt::Formatter<W>, subtype: u8) -> fmt::Result
    ensures { WritesOnOk W.write_str_gives f.old result (extended_name subtype) f.new }
{
    if subtype == 2 {
        f.write_str("target:")
    } else {
        f.write_str("origin:")
    }
}

/// Writes the six octets after the subtype, by the type.
fn write_extended_parts<W: fmt::Write>(
    f: &mut fmt::Formatter<W>,
    kind: u8,
    number: u64,
) -> fmt::Result
    requires { number < 281474976710656 }
    ensures { WritesOnOk W.write_str_gives f.old result (extended_parts kind number) f.new }
{
    let (upper, lower) = (number / 65536, number % 65536);
    match kind {
        0 => {
            let (asn, local) = (number / 4294967296, number % 4294967296);
            write!(f, "{asn}:{local}")
        }
        1 => write_dotted_pair(f, upper as u32, lower),
        _ => write!(f, "{upper}L:{lower}"),
    }
}

/// Writes an address and a number.
fn write_dotted_pair<W: fmt::Write>(
    f: &mut fmt::Formatter<W>,
    address: u32,
    number: u64,
) -> fmt::Result
    ensures { WritesOnOk W.write_str_gives f.old result
        (number_dotted address ++ codes ":" ++ decimal number) f.new }
{
    write_dotted(f, address)?;
    write!(f, ":{number}")
}

/// Writes each community after a space.
fn write_communities<W: fmt::Write, R: AsOctets + Copy>(
    f: &mut fmt::Formatter<W>,
    items: StandardCommunities<R>,
) -> fmt::Result
    ensures { WritesOnOk W.write_str_gives f.old result
        (flat_map (λ n. spaced (community_text n)) (items_left items)) f.new }
{
    for item in items {
        write!(f, " {item}")?;
    }
    Ok(())
}

/// Writes each id after a space.
fn write_cluster_ids<W: fmt::Write, R: AsOctets + Copy>(
    f: &mut fmt::Formatter<W>,
    items: ClusterIds<R>,
) -> fmt::Result
    ensures { WritesOnOk W.write_str_gives f.old result
        (flat_map (λ n. spaced (number_dotted n)) (items_left items)) f.new }
{
    for item in items {
        write!(f, " {item}")?;
    }
    Ok(())
}

/// Writes each community after a space.
fn write_extended_communities<W: fmt::Write, R: AsOctets + Copy>(
    f: &mut fmt::Formatter<W>,
    items: ExtendedCommunities<R>,
) -> fmt::Result
    ensures { WritesOnOk W.write_str_gives f.old result
        (flat_map (λ n. spaced (extended_text n)) (items_left items)) f.new }
{
    for item in items {
        write!(f, " {item}")?;
    }
    Ok(())
}

/// Writes each community after a space.
fn write_large_communities<W: fmt::Write, R: AsOctets + Copy>(
    f: &mut fmt::Formatter<W>,
    items: LargeCommunities<R>,
) -> fmt::Result
    ensures { WritesOnOk W.write_str_gives f.old result
        (flat_map (λ it. spaced (large_text it.0 it.1.0 it.1.1)) (items_left items)) f.new }
{
    for item in items {
        write!(f, " {item}")?;
    }
    Ok(())
}

/// Writes the name of an origin.
fn write_origin<W: fmt::Write>(f: &mut fmt::Formatter<W>, origin: u8) -> fmt::Result
    ensures { WritesOnOk W.write_str_gives f.old result (spaced (origin_text origin)) f.new }
{
    match origin {
        0 => f.write_str(" IGP"),
        1 => f.write_str(" EGP"),
        _ => f.write_str(" INCOMPLETE"),
    }
}

/// Prints the type, and each AS number after a space.
impl<R: AsOctets + Copy> fmt::Display for Segment<R> {
    ghost output = { λ segment. Some (segment_words segment.wide (segment_of segment)) };

    fn fmt<W: fmt::Write>(&self, f: &mut fmt::Formatter<W>) -> fmt::Result {
        let kind = self.kind;
        write!(f, "{kind}")?;
        write_asns(f, self.asns())
    }
}

/// Writes each AS number after a space.
fn write_asns<W: fmt::Write, R: AsOctets + Copy>(
    f: &mut fmt::Formatter<W>,
    asns: Asns<R>,
) -> fmt::Result
    ensures { WritesOnOk W.write_str_gives f.old result (numbers_text (asns_left asns)) f.new }
{
    for asn in asns {
        write!(f, " {asn}")?;
    }
    Ok(())
}

/// Writes each segment after a space.
fn write_path<W: fmt::Write, R: AsOctets + Copy>(
    f: &mut fmt::Formatter<W>,
    path: AsPath<R>,
) -> fmt::Result
    ensures { WritesOnOk W.write_str_gives f.old result (path_text (path_of path)) f.new }
{
    let mut ahead = path;
    'segments: while let Some(segment) = ahead.next() {
        write!(f, " {segment}")?;
    }
    Ok(())
}

/// Writes a number as an IPv4 address, after a space.
fn write_spaced_dotted<W: fmt::Write>(f: &mut fmt::Formatter<W>, number: u32) -> fmt::Result
    ensures { WritesOnOk W.write_str_gives f.old result (spaced (number_dotted number)) f.new }
{
    f.write_char(' ')?;
    write_dotted(f, number)
}

/// Writes an AS number and an address, each after a space.
fn write_aggregator<W: fmt::Write>(f: &mut fmt::Formatter<W>, it: Aggregator) -> fmt::Result
    ensures { WritesOnOk W.write_str_gives f.old result (aggregator_text (it.asn.0, it.address)) f.new }
{
    let asn = it.asn;
    write!(f, " {asn}")?;
    write_spaced_dotted(f, it.address)
}

/// Writes an IPv6 address after a space.
fn write_spaced_ipv6<W: fmt::Write>(f: &mut fmt::Formatter<W>, octets: [u8; 16]) -> fmt::Result
    ensures { WritesOnOk W.write_str_gives f.old result (spaced (address_text addresses.Ipv6 octets)) f.new }
{
    f.write_char(' ')?;
    write_address(f, Afi::Ipv6, octets)
}

/// Writes each next hop after a space.
pub fn write_next_hop<W: fmt::Write>(f: &mut fmt::Formatter<W>, next_hop: NextHop) -> fmt::Result
    ensures { WritesOnOk W.write_str_gives f.old result (next_hop_text next_hop) f.new }
{
    match next_hop {
        NextHop::Ipv4(octets) => {
            let address = Ipv4Addr::from_octets(octets);
            write!(f, " {address}")
        }
        NextHop::Ipv6(address) => write_spaced_ipv6(f, address),
        NextHop::Ipv6LinkLocal(global, link_local) => write_two(f, global, link_local),
    }
}

/// Writes two IPv6 addresses, each after a space.
fn write_two<W: fmt::Write>(
    f: &mut fmt::Formatter<W>,
    global: [u8; 16],
    link_local: [u8; 16],
) -> fmt::Result
    ensures { WritesOnOk W.write_str_gives f.old result (spaced (address_text addresses.Ipv6 global)
        ++ spaced (address_text addresses.Ipv6 link_local)) f.new }
{
    write_spaced_ipv6(f, global)?;
    write_spaced_ipv6(f, link_local)
}

/// Writes a value, each of its parts after a space.
fn write_value<W: fmt::Write, R: AsOctets + Copy>(
    f: &mut fmt::Formatter<W>,
    value: &AttributeValue<R>,
) -> fmt::Result
    ensures { WritesOnOk W.write_str_gives f.old result (value_text (value_of value.now)) f.new }
{
    match value {
        AttributeValue::Origin(origin) => write_origin(f, *origin),
        AttributeValue::AsPath(path) => write_path(f, *path),
        AttributeValue::NextHop(address) => write_spaced_dotted(f, *address),
        AttributeValue::MultiExitDisc(number) => write!(f, " {number}"),
        AttributeValue::LocalPref(number) => write!(f, " {number}"),
        AttributeValue::AtomicAggregate => Ok(()),
        AttributeValue::Aggregator(it) => write_aggregator(f, *it),
        AttributeValue::Communities(items) => write_communities(f, *items),
        AttributeValue::OriginatorId(id) => write_spaced_dotted(f, *id),
        AttributeValue::ClusterList(items) => write_cluster_ids(f, *items),
        AttributeValue::MpReachNlri(it) => {
            let family = it.family;
            write!(f, " {family}")?;
            write_next_hop(f, it.next_hop)
        }
        AttributeValue::MpUnreachNlri(it) => {
            let family = it.family;
            write!(f, " {family}")
        }
        AttributeValue::ExtendedCommunities(items) => write_extended_communities(f, *items),
        AttributeValue::As4Path(path) => write_path(f, *path),
        AttributeValue::As4Aggregator(it) => write_aggregator(f, *it),
        AttributeValue::LargeCommunities(items) => write_large_communities(f, *items),
        AttributeValue::Opaque(parser) => write_opaque(f, parser.peek_all()),
    }
}

/// Prints the flags, the name or the number of the type, and the value, such as `T ORIGIN IGP`. The prefixes of
/// MP_REACH_NLRI and MP_UNREACH_NLRI aren't shown.
impl<R: AsOctets + Copy> fmt::Display for PathAttribute<R> {
    ghost output = { λ _. None };

    fn fmt<W: fmt::Write>(&self, f: &mut fmt::Formatter<W>) -> fmt::Result
        ensures shown { (value : Value) → IsValue self.now.session self.now.type_code (window self.now.value) value
            → WritesOnOk W.write_str_gives f.old result (attribute_text (attribute_of self.now) value) f.new }
    {
        let value = self.value();
        write_attribute(f, self, &value)
    }
}

/// Writes an attribute with its value.
pub(crate) fn write_attribute<W: fmt::Write, R: AsOctets + Copy>(
    f: &mut fmt::Formatter<W>,
    attribute: &PathAttribute<R>,
    value: &AttributeValue<R>,
) -> fmt::Result
    ensures { WritesOnOk W.write_str_gives f.old result
        (attribute_text (attribute_of attribute.now) (value_of value.now)) f.new }
{
    let flags = attribute.flags;
    write!(f, "{flags} ")?;
    write_name(f, attribute.type_code)?;
    write_value(f, value)
}

/// Prints the address, the length, and the path id if there is one, such as `10.0.0.0/8 path 7`.
impl<R: AsOctets + Copy> fmt::Display for Nlri<R> {
    ghost output = { λ nlri. Some (nlri_text (nlri_of nlri)) };

    fn fmt<W: fmt::Write>(&self, f: &mut fmt::Formatter<W>) -> fmt::Result {
        let prefix = self.prefix();
        write!(f, "{prefix}")?;
        write_path_id(f, self.path_id)
    }
}

/// Writes a path id, if there is one.
fn write_path_id<W: fmt::Write>(f: &mut fmt::Formatter<W>, path_id: Option<PathId>) -> fmt::Result
    ensures { WritesOnOk W.write_str_gives f.old result (path_id_text path_id) f.new }
{
    match path_id {
        Some(id) => write!(f, " path {id}"),
        None => Ok(()),
    }
}
