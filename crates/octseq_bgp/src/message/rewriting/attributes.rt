//! Path attributes that are written anew: RFC 4271, 4.3, and RFC 4760, 3 and 4.
ghost use Rattle.std.specs.Prelude.{◌≡◌, ◌≤◌, ◌+◌, ◌++◌, List, length, true, IsErr, OnOk};
ghost use Rattle.octseq.specs.Limit.{IsWithin};
ghost use Rattle.octseq.specs.Parser.{window};
ghost use Rattle.octseq.specs.Window.{left};
ghost use Rattle.octseq_format.specs.Canonical.{IsSoundWindow};
ghost use Rattle.octseq_bgp.specs.Lists.{attribute_of, attributes_left, attributes_session, prefixes_left};
ghost use Rattle.octseq_bgp.specs.Puts.{AppendsSomeUnlimited};
ghost use Rattle.octseq_bgp.specs.Rewritten.{AreAttributesAnew, AreFew, AreSound, IsAttributeAnew, IsWritable};
ghost use Rattle.octseq_bgp.specs.Rewritten.{attribute_size, attributes_size, flags_anew, prefixes_anew, value_anew};
ghost use Rattle.octseq_bgp.specs.RewrittenOpen.{AppendedRow};
ghost use Rattle.octseq_bgp.specs.ValueOf.{value_of};
ghost use Rattle.octseq_bgp.specs.Written.{IsHopOf, WrittenAttribute, attribute_octets, head_octets, prefixes_octets};
ghost use Rattle.octseq_bgp.specs.Written.{reach_front, unreach_front};

use super::prefixes::put_prefixes;
use crate::attribute::{AttributeValue, MpReachNlri, MpUnreachNlri, PathAttribute, PathAttributes};
use crate::family::AfiSafiType;
use crate::message::update_builder::front::Front;
use crate::put::put_slice;
use octseq::{AsOctets, OctetsBuilder, Parser};
use std::alloc::AllocError;

/// Returns the number of octets of an attribute whose value has `len`.
fn attribute_len(len: usize) -> usize
    requires { len ≤ 65535 }
    ensures { result ≡ attribute_size len }
{
    if len > 255 { len + 4 } else { len + 3 }
}

/// Returns the number of octets of attributes. A value keeps its length.
pub(super) fn attributes_len<R: AsOctets + Copy>(attributes: PathAttributes<R>) -> usize
    requires { attributes_size (attributes_left attributes) ≤ 65535 }
    ensures { result ≡ attributes_size (attributes_left attributes) }
{
    let mut len = 0;
    let mut ahead = attributes;
    'attributes: while let Some(attribute) = ahead.next() {
        len += attribute_len(attribute.value.remaining());
    }
    len
}

/// Reads the value of each attribute: it has one.
pub(super) fn read_values<R: AsOctets + Copy>(attributes: PathAttributes<R>)
    ensures { (row : List WrittenAttribute)
        × AreAttributesAnew (attributes_session attributes) (attributes_left attributes) row }
{
    let mut ahead = attributes;
    'attributes: while let Some(attribute) = ahead.next() {
        // Whether it has its form is known once it is read: the clause `short` speaks of it.
        let _value = attribute.value();
    }
}

/// Appends what an attribute has before a value of `len` octets.
fn put_head<B: OctetsBuilder>(
    builder: &mut B,
    flags: u8,
    type_code: u8,
    len: usize,
) -> Result<(), AllocError>
    requires few { len ≤ 65535 }
    requires within { IsWithin B.limit (length (B.content builder.old)
        + length (head_octets (flags_anew flags len) type_code len)) }
    ensures puts { AppendsSomeUnlimited B.asks result (head_octets (flags_anew flags len) type_code len)
        (B.content builder.old) (B.content builder.new) }
    ensures borrows { B.borrows builder.new ≡ B.borrows builder.old }
{
    let flags = flags / 32 * 32;
    if len <= 255 {
        return put_slice(builder, &[flags, type_code, len as u8]);
    }
    let len = (len as u16).to_be_bytes();
    put_slice(builder, &[flags + 16, type_code, len[0], len[1]])
}

/// Appends reachable prefixes.
fn put_reach<R: AsOctets + Copy, B: OctetsBuilder>(
    builder: &mut B,
    reach: &MpReachNlri<R>,
) -> Result<(), AllocError>
    requires hop { IsHopOf reach.now.family reach.now.next_hop }
    requires few { AreFew (prefixes_left reach.now.prefixes) }
    requires within { IsWithin B.limit (length (B.content builder.old)
        + length (reach_front reach.now.family reach.now.next_hop
        ++ prefixes_octets (prefixes_anew (prefixes_left reach.now.prefixes)))) }
    ensures puts { AppendsSomeUnlimited B.asks result (reach_front reach.now.family reach.now.next_hop
        ++ prefixes_octets (prefixes_anew (prefixes_left reach.now.prefixes)))
        (B.content builder.old) (B.content builder.new) }
    ensures borrows { B.borrows builder.new ≡ B.borrows builder.old }
{
    let Some(front) = Front::reach(reach.family, &reach.next_hop) else {
        unreachable!();
    };
    put_slice(builder, front.as_slice())?;
    put_prefixes(builder, reach.prefixes)
}

/// Returns what an MP_UNREACH_NLRI has before its prefixes.
fn front_of(family: AfiSafiType) -> [u8; 3]
    ensures { result ≡ unreach_front family }
{
    let afi = family.afi_number().to_be_bytes();
    [afi[0], afi[1], family.safi_number()]
}

/// Appends prefixes that are no longer reachable.
fn put_unreach<R: AsOctets + Copy, B: OctetsBuilder>(
    builder: &mut B,
    unreach: &MpUnreachNlri<R>,
) -> Result<(), AllocError>
    requires few { AreFew (prefixes_left unreach.now.prefixes) }
    requires within { IsWithin B.limit (length (B.content builder.old) + length (unreach_front unreach.now.family
        ++ prefixes_octets (prefixes_anew (prefixes_left unreach.now.prefixes)))) }
    ensures puts { AppendsSomeUnlimited B.asks result (unreach_front unreach.now.family
        ++ prefixes_octets (prefixes_anew (prefixes_left unreach.now.prefixes)))
        (B.content builder.old) (B.content builder.new) }
    ensures borrows { B.borrows builder.new ≡ B.borrows builder.old }
{
    let front = front_of(unreach.family);
    put_slice(builder, &front)?;
    put_prefixes(builder, unreach.prefixes)
}

/// Appends a value, which is that of the octets of its attribute.
fn put_value<R: AsOctets + Copy, B: OctetsBuilder>(
    builder: &mut B,
    octets: Parser<R>,
    value: &AttributeValue<R>,
) -> Result<(), AllocError>
    requires fits { IsWritable (value_of value.now) }
    requires within { IsWithin B.limit (length (B.content builder.old)
        + length (value_anew (window octets) (value_of value.now))) }
    ensures puts { AppendsSomeUnlimited B.asks result (value_anew (window octets) (value_of value.now))
        (B.content builder.old) (B.content builder.new) }
    ensures borrows { B.borrows builder.new ≡ B.borrows builder.old }
{
    match value {
        AttributeValue::MpReachNlri(it) => put_reach(builder, it),
        AttributeValue::MpUnreachNlri(it) => put_unreach(builder, it),
        _ => put_slice(builder, octets.peek_all()),
    }
}

/// Appends an attribute.
fn put_attribute<R: AsOctets + Copy, B: OctetsBuilder>(
    builder: &mut B,
    attribute: &PathAttribute<R>,
) -> Result<(), AllocError>
    requires few { left (window attribute.now.value) ≤ 65535 }
    requires sound { IsSoundWindow (window attribute.now.value) }
    requires within { IsWithin B.limit (length (B.content builder.old)
        + attribute_size (left (window attribute.now.value))) }
    ensures ok { OnOk result ((anew : WrittenAttribute)
        × IsAttributeAnew attribute.now.session (attribute_of attribute.now) anew
        × (B.content builder.new ≡ B.content builder.old ++ attribute_octets anew)) }
    ensures memory { IsErr result → B.asks ≡ true }
    ensures borrows { B.borrows builder.new ≡ B.borrows builder.old }
{
    let value = attribute.value();
    let len = attribute.value.remaining();
    put_head(builder, attribute.flags.0, attribute.type_code, len)?;
    put_value(builder, attribute.value, &value)
}

/// Appends attributes.
pub(super) fn put_attributes<R: AsOctets + Copy, B: OctetsBuilder>(
    builder: &mut B,
    attributes: PathAttributes<R>,
) -> Result<(), AllocError>
    requires few { attributes_size (attributes_left attributes) ≤ 65535 }
    requires sound { AreSound (attributes_left attributes) }
    requires within { IsWithin B.limit (length (B.content builder.old)
        + attributes_size (attributes_left attributes)) }
    ensures ok { OnOk result (AppendedRow (IsAttributeAnew (attributes_session attributes)) attribute_octets
        (attributes_left attributes) (B.content builder.old) (B.content builder.new)) }
    ensures memory { IsErr result → B.asks ≡ true }
    ensures borrows { B.borrows builder.new ≡ B.borrows builder.old }
{
    let mut ahead = attributes;
    'attributes: while let Some(attribute) = ahead.next() {
        put_attribute(builder, &attribute)?;
    }
    Ok(())
}
