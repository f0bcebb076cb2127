//! The text of messages, line by line.
ghost use Rattle.std.specs.Prelude.{◌≡◌, ◌++◌, List, ℕ, Some, None, codes, OnOk};
ghost use Rattle.std.specs.Fmt.{WritesOnOk, HasWritten, IsPlainFormatter, decimal};
ghost use Rattle.octseq.specs.Parser.{window};
ghost use Rattle.octseq_bgp.specs.CapabilityOf.{capabilities_left, capability_value_of, parameter_value_of};
ghost use Rattle.octseq_bgp.specs.CapabilityText.{capability_text};
ghost use Rattle.octseq_bgp.specs.Lists.{attribute_of, attributes_left, attributes_session, nlri_of};
ghost use Rattle.octseq_bgp.specs.Lists.{parameters_left, prefixes_left};
ghost use Rattle.octseq_bgp.specs.Message as said;
ghost use Rattle.octseq_bgp.specs.MessageText.{line, nlri_lines, value_lines, attribute_lines, AreAttributeLines};
ghost use Rattle.octseq_bgp.specs.MessageText.{IsUpdateText, AreCapabilityLines, AreParameterValueLines};
ghost use Rattle.octseq_bgp.specs.MessageText.{AreParameterLines, open_text, IsOpenText, data_text, notification_text};
ghost use Rattle.octseq_bgp.specs.MessageText.{IsNotificationText, orf_text, refresh_text, IsMessageText};
ghost use Rattle.octseq_bgp.specs.NotificationOf.{notification_data_of};
ghost use Rattle.octseq_bgp.specs.OctetsText.{spaced, number_dotted};
ghost use Rattle.octseq.specs.OctetsText.{opaque_text};
ghost use Rattle.octseq_bgp.specs.Parsed.{message_of, open_of, update_of};
ghost use Rattle.octseq_bgp.specs.ValueOf.{value_of};
ghost use Rattle.octseq_bgp.specs.ValueText.{nlri_text};

use crate::attribute::{AttributeValue, PathAttribute, PathAttributes};
use crate::capability::{Capabilities, CapabilityValue, ParameterValue};
use crate::message::{
    Message, NotificationData, NotificationMessage, OpenMessage, Parameters, RouteRefreshMessage,
    UpdateMessage,
};
use crate::prefix::{Nlri, Prefixes};
use crate::text::capability::{write_capability, write_family};
use crate::text::octets::{write_dotted, write_opaque};
use crate::text::value::write_attribute;
use octseq::octets_text::write_string;
use octseq::{AsOctets, Parser};
use std::fmt;

/// Writes the line of a prefix, after a word.
fn write_prefix<W: fmt::Write, R: AsOctets + Copy>(
    f: &mut fmt::Formatter<W>,
    word: &str,
    nlri: &Nlri<R>,
) -> fmt::Result
    ensures { WritesOnOk W.write_str_gives f.old result (line word.now (nlri_text (nlri_of nlri.now))) f.new }
{
    f.write_str(word)?;
    write!(f, " {nlri}")?;
    f.write_str("\n")
}

/// Writes a line for each prefix, after a word.
fn write_prefixes<W: fmt::Write, R: AsOctets + Copy>(
    f: &mut fmt::Formatter<W>,
    word: &str,
    prefixes: Prefixes<R>,
) -> fmt::Result
    ensures { WritesOnOk W.write_str_gives f.old result (nlri_lines word.now (prefixes_left prefixes)) f.new }
{
    for nlri in prefixes {
        write_prefix(f, word, &nlri)?;
    }
    Ok(())
}

/// Writes a line for each prefix of a value.
fn write_value_lines<W: fmt::Write, R: AsOctets + Copy>(
    f: &mut fmt::Formatter<W>,
    value: &AttributeValue<R>,
) -> fmt::Result
    ensures { WritesOnOk W.write_str_gives f.old result (value_lines (value_of value.now)) f.new }
{
    match value {
        AttributeValue::MpReachNlri(it) => write_prefixes(f, "reached", it.prefixes),
        AttributeValue::MpUnreachNlri(it) => write_prefixes(f, "unreached", it.prefixes),
        _ => Ok(()),
    }
}

/// Writes the lines of an attribute, by its value.
pub fn write_attribute_lines<W: fmt::Write, R: AsOctets + Copy>(
    f: &mut fmt::Formatter<W>,
    attribute: &PathAttribute<R>,
    value: &AttributeValue<R>,
) -> fmt::Result
    ensures { WritesOnOk W.write_str_gives f.old result
        (attribute_lines (attribute_of attribute.now) (value_of value.now)) f.new }
{
    f.write_str("attribute ")?;
    write_attribute(f, attribute, value)?;
    f.write_str("\n")?;
    write_value_lines(f, value)
}

/// Writes the lines of each attribute.
fn write_attributes<W: fmt::Write, R: AsOctets + Copy>(
    f: &mut fmt::Formatter<W>,
    attributes: PathAttributes<R>,
) -> fmt::Result
    ensures { OnOk result ((lines : List ℕ)
        × AreAttributeLines (attributes_session attributes) (attributes_left attributes) lines
        × (IsPlainFormatter f.old → HasWritten W.write_str_gives f.old lines f.new)) }
{
    let mut ahead = attributes;
    'attributes: while let Some(attribute) = ahead.next() {
        let value = attribute.value();
        write_attribute_lines(f, &attribute, &value)?;
    }
    Ok(())
}

/// Prints the lines: `update`, one for each withdrawn prefix, those of the attributes, and one for each announced
/// prefix.
impl<R: AsOctets + Copy> fmt::Display for UpdateMessage<R> {
    ghost output = { λ _. None };

    fn fmt<W: fmt::Write>(&self, f: &mut fmt::Formatter<W>) -> fmt::Result
        ensures shown { OnOk result ((lines : List ℕ) × IsUpdateText (update_of self.now) lines
            × (IsPlainFormatter f.old → HasWritten W.write_str_gives f.old lines f.new)) }
    {
        f.write_str("update\n")?;
        write_prefixes(f, "withdrawn", self.withdrawn)?;
        write_attributes(f, self.path_attributes)?;
        write_prefixes(f, "announced", self.announced)
    }
}

/// Writes the line of a capability of a code, by its value.
fn write_capability_line<W: fmt::Write, R: AsOctets + Copy>(
    f: &mut fmt::Formatter<W>,
    code: u8,
    value: &CapabilityValue<R>,
) -> fmt::Result
    ensures { WritesOnOk W.write_str_gives f.old result
        (line (codes "capability") (capability_text code (capability_value_of value.now))) f.new }
{
    f.write_str("capability ")?;
    write_capability(f, code, value)?;
    f.write_str("\n")
}

/// Writes a line for each capability.
fn write_capabilities<W: fmt::Write, R: AsOctets + Copy>(
    f: &mut fmt::Formatter<W>,
    capabilities: Capabilities<R>,
) -> fmt::Result
    ensures { OnOk result ((lines : List ℕ) × AreCapabilityLines (capabilities_left capabilities) lines
        × (IsPlainFormatter f.old → HasWritten W.write_str_gives f.old lines f.new)) }
{
    for capability in capabilities {
        let value = capability.value();
        write_capability_line(f, capability.code, &value)?;
    }
    Ok(())
}

/// Writes the lines of a parameter of a type, by its value.
fn write_parameter<W: fmt::Write, R: AsOctets + Copy>(
    f: &mut fmt::Formatter<W>,
    kind: u8,
    value: &ParameterValue<R>,
) -> fmt::Result
    ensures { OnOk result ((lines : List ℕ) × AreParameterValueLines kind (parameter_value_of value.now) lines
        × (IsPlainFormatter f.old → HasWritten W.write_str_gives f.old lines f.new)) }
{
    match value {
        ParameterValue::Capabilities(capabilities) => write_capabilities(f, *capabilities),
        ParameterValue::Opaque(parser) => write_opaque_parameter(f, kind, parser.peek_all()),
    }
}

/// Writes the line of a parameter of a type with opaque octets.
fn write_opaque_parameter<W: fmt::Write>(
    f: &mut fmt::Formatter<W>,
    kind: u8,
    octets: &[u8],
) -> fmt::Result
    ensures { WritesOnOk W.write_str_gives f.old result
        (line (codes "parameter") (decimal kind ++ spaced (opaque_text octets.now))) f.new }
{
    write!(f, "parameter {kind}")?;
    write_opaque(f, octets)?;
    f.write_str("\n")
}

/// Writes the lines of each parameter.
fn write_parameters<W: fmt::Write, R: AsOctets + Copy>(
    f: &mut fmt::Formatter<W>,
    parameters: Parameters<R>,
) -> fmt::Result
    ensures { OnOk result ((lines : List ℕ) × AreParameterLines (parameters_left parameters) lines
        × (IsPlainFormatter f.old → HasWritten W.write_str_gives f.old lines f.new)) }
{
    for parameter in parameters {
        let value = parameter.value();
        write_parameter(f, parameter.kind, &value)?;
    }
    Ok(())
}

/// Writes the line of an OPEN, without its parameters.
fn write_open_line<W: fmt::Write, R: AsOctets + Copy>(
    f: &mut fmt::Formatter<W>,
    message: &OpenMessage<R>,
) -> fmt::Result
    ensures { WritesOnOk W.write_str_gives f.old result
        (line (codes "open") (open_text (open_of message.now))) f.new }
{
    let (version, asn, holdtime) = (message.version, message.my_asn, message.holdtime);
    write!(f, "open version {version} as {asn} hold {holdtime}")?;
    write_identifier(f, message.identifier)
}

/// Writes the end of the line of an OPEN.
fn write_identifier<W: fmt::Write>(f: &mut fmt::Formatter<W>, identifier: u32) -> fmt::Result
    ensures { WritesOnOk W.write_str_gives f.old result
        (codes " id " ++ number_dotted identifier ++ codes "\n") f.new }
{
    f.write_str(" id ")?;
    write_dotted(f, identifier)?;
    f.write_str("\n")
}

/// Prints the lines: one for the OPEN, one for each capability, and one for each parameter that isn't capabilities.
impl<R: AsOctets + Copy> fmt::Display for OpenMessage<R> {
    ghost output = { λ _. None };

    fn fmt<W: fmt::Write>(&self, f: &mut fmt::Formatter<W>) -> fmt::Result
        ensures shown { OnOk result ((lines : List ℕ) × IsOpenText (open_of self.now) lines
            × (IsPlainFormatter f.old → HasWritten W.write_str_gives f.old lines f.new)) }
    {
        write_open_line(f, self)?;
        write_parameters(f, self.parameters)
    }
}

/// Writes what the data of a NOTIFICATION says, after a space.
fn write_data<W: fmt::Write, R: AsOctets + Copy>(
    f: &mut fmt::Formatter<W>,
    value: &NotificationData<R>,
) -> fmt::Result
    ensures { WritesOnOk W.write_str_gives f.old result
        (spaced (data_text (notification_data_of value.now))) f.new }
{
    match value {
        NotificationData::ShutdownCommunication(text) => {
            f.write_str(" ")?;
            write_string(f, text.peek_all())
        }
        NotificationData::Opaque(parser) => write_opaque(f, parser.peek_all()),
    }
}

/// Writes the line of a NOTIFICATION, by its data.
fn write_notification<W: fmt::Write, R: AsOctets + Copy>(
    f: &mut fmt::Formatter<W>,
    message: &NotificationMessage<R>,
    value: &NotificationData<R>,
) -> fmt::Result
    ensures { WritesOnOk W.write_str_gives f.old result (line (codes "notification")
        (notification_text message.now.code message.now.subcode (notification_data_of value.now))) f.new }
{
    let (code, subcode) = (message.code, message.subcode);
    write!(f, "notification {code} {subcode}")?;
    write_data(f, value)?;
    f.write_str("\n")
}

/// Prints the line: the codes, and the data as a string or as octets.
impl<R: AsOctets + Copy> fmt::Display for NotificationMessage<R> {
    ghost output = { λ _. None };

    fn fmt<W: fmt::Write>(&self, f: &mut fmt::Formatter<W>) -> fmt::Result
        ensures shown { OnOk result ((lines : List ℕ)
            × IsNotificationText (self.now.code, (self.now.subcode, window self.now.«data»)) lines
            × (IsPlainFormatter f.old → HasWritten W.write_str_gives f.old lines f.new)) }
    {
        let value = self.value();
        write_notification(f, self, &value)
    }
}

/// Writes octets after a space, if there are any.
fn write_orf<W: fmt::Write>(f: &mut fmt::Formatter<W>, octets: &[u8]) -> fmt::Result
    ensures { WritesOnOk W.write_str_gives f.old result (orf_text octets.now) f.new }
{
    if octets.is_empty() {
        return Ok(());
    }
    write_opaque(f, octets)
}

/// Prints the line: the family, the subtype, and the octets after them if there are any.
impl<R: AsOctets + Copy> fmt::Display for RouteRefreshMessage<R> {
    ghost output = { λ r. Some (line (codes "route-refresh")
        (refresh_text (r.afi, (r.subtype, (r.safi, window r.orf))))) };

    fn fmt<W: fmt::Write>(&self, f: &mut fmt::Formatter<W>) -> fmt::Result {
        let subtype = self.subtype;
        f.write_str("route-refresh ")?;
        write_family(f, self.afi, self.safi)?;
        write!(f, " {subtype}")?;
        write_orf(f, self.orf.peek_all())?;
        f.write_str("\n")
    }
}

/// Prints the text of the message as [`append_text`](Message::append_text) appends it: a line for each part.
impl<R: AsOctets + Copy> fmt::Display for Message<R> {
    ghost output = { λ _. None };

    fn fmt<W: fmt::Write>(&self, f: &mut fmt::Formatter<W>) -> fmt::Result
        ensures shown { OnOk result ((lines : List ℕ) × IsMessageText (message_of self.now) lines
            × (IsPlainFormatter f.old → HasWritten W.write_str_gives f.old lines f.new)) }
    {
        match self {
            Message::Open(it) => fmt::Display::fmt(it, f),
            Message::Update(it) => fmt::Display::fmt(it, f),
            Message::Notification(it) => fmt::Display::fmt(it, f),
            Message::Keepalive => f.write_str("keepalive\n"),
            Message::RouteRefresh(it) => fmt::Display::fmt(it, f),
        }
    }
}
