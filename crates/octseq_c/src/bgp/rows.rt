//! The parts of an UPDATE as rows of numbers.
ghost use Rattle.std.specs.Prelude.{◌≡◌, ◌≢◌, ◌↔◌, ◌⊎◌, ◌+◌, ◌*◌, ◌<◌, ◌≤◌, ◌^◌, ◌++◌, ℕ, List, map, take, drop};
ghost use Rattle.std.specs.Prelude.{length};
ghost use Rattle.octseq.specs.Parser.{window};
ghost use Rattle.octseq.specs.Window.{left};
ghost use Rattle.octseq_bgp.specs.Lists.{attribute_of, attributes_left, attributes_session, nlri_of, prefixes_left};
ghost use Rattle.octseq_bgp.specs.Parsed.{message_of, update_of};
ghost use Rattle.octseq_bgp.specs.Value.{Value, IsValue};
ghost use Rattle.octseq_bgp.specs.ValueOf.{value_of};
ghost use Rattle.octseq_c.specs.BgpRoom.{attributes_room, message_room, update_room};
ghost use Rattle.octseq_c.specs.BgpRows.{AreAttributeRows, AreBgpRowsOf, AreMessageRows, AreUpdateRows, IsBgpMessage};
ghost use Rattle.octseq_c.specs.BgpRows.{afi_of_address, path_count, path_number};
ghost use Rattle.octseq_c.specs.BgpRows.{row_of_attribute, row_of_prefix, rows_of_attribute, rows_of_value};
ghost use Rattle.octseq_c.specs.BgpSession.{session_of};
ghost use Rattle.octseq_c.specs.Puts.{FillsPrefix, Puts};
ghost use Rattle.octseq_c.specs.Status.{status_ok, status_no_room, status_malformed};

use crate::bgp::message::message_of;
use crate::status::{MALFORMED, NO_ROOM, OK};
use octseq::{AsOctets, Malformed, Turns};
use octseq_bgp::attribute::{AttributeValue, PathAttribute, PathAttributes};
use octseq_bgp::family::Afi;
use octseq_bgp::message::{Message, UpdateMessage};
use octseq_bgp::prefix::{Nlri, PathId, Prefixes};

/// A withdrawn prefix.
const WITHDRAWN: u32 = 0;

/// A path attribute.
const ATTRIBUTE: u32 = 1;

/// An announced prefix.
const ANNOUNCED: u32 = 2;

/// A prefix of a typed MP_REACH_NLRI.
const REACHED: u32 = 3;

/// A prefix of a typed MP_UNREACH_NLRI.
const UNREACHED: u32 = 4;

/// The SAFI of withdrawn and announced prefixes.
const UNICAST: u8 = 1;

/// A prefix or a path attribute of an UPDATE.
#[repr(C)]
#[derive(Clone, Copy)]
pub struct BgpRow {
    /// Where the octets of the prefix begin, or the value of the attribute, from the first octet of the message.
    pub at: usize,
    /// How many octets there are.
    pub len: usize,
    /// 0 for a withdrawn prefix, 1 for an attribute, 2 for an announced prefix, 3 for a reached one, 4 for an unreached
    /// one.
    pub kind: u32,
    /// The path id, or 0.
    pub path_id: u32,
    /// 1 if there is a path id, otherwise 0.
    pub has_path_id: u16,
    /// The AFI of a prefix, otherwise 0.
    pub afi: u16,
    /// The SAFI of a prefix, otherwise 0.
    pub safi: u8,
    /// The length of a prefix in bits, otherwise 0.
    pub bits: u8,
    /// The flags of an attribute, otherwise 0.
    pub flags: u8,
    /// The type of an attribute, otherwise 0.
    pub type_code: u8,
}

/// Writes the rows of the message that the octets are to the front of `out`.
#[unsafe(no_mangle)]
pub extern "C" fn octseq_bgp_rows(
    octets: &[u8],
    session: u32,
    out: &mut [BgpRow],
    count: &mut usize,
) -> u32
    ensures puts { Puts (AreBgpRowsOf (session_of session) octets.now) result out.old out.new count.new }
    ensures malformed { (result ≡ status_malformed) ↔ ¬ IsBgpMessage (session_of session) octets.now }
    ensures only { (result ≡ status_ok) ⊎ (result ≡ status_no_room) ⊎ (result ≡ status_malformed) }
    ensures kept { result ≢ status_ok → out.new ≡ out.old }
{
    put_rows(octets, session, out, count)
}

/// Writes the rows of the message that the octets are to the front of `out`.
fn put_rows<R: AsOctets + Copy>(
    octets: R,
    session: u32,
    out: &mut [BgpRow],
    count: &mut usize,
) -> u32
    requires few { 2 * length (R.content octets) < 2 ^ 64 }
    ensures puts { Puts (AreBgpRowsOf (session_of session) (R.content octets)) result out.old out.new count.new }
    ensures malformed { (result ≡ status_malformed) ↔ ¬ IsBgpMessage (session_of session) (R.content octets) }
    ensures only { (result ≡ status_ok) ⊎ (result ≡ status_no_room) ⊎ (result ≡ status_malformed) }
    ensures kept { result ≢ status_ok → out.new ≡ out.old }
{
    match message_of(octets, session) {
        Ok(message) => {
            *count = row_count(&message);
            if *count > out.len() {
                return NO_ROOM;
            }
            fill_message(out, &message);
            OK
        }
        Err(Malformed) => {
            *count = 0;
            MALFORMED
        }
    }
}

/// Returns the number of rows of a message.
fn row_count<R: AsOctets + Copy>(message: &Message<R>) -> usize
    requires { message_room (message_of message.now) < 2 ^ 64 }
    ensures { (rows : List BgpRow) × AreMessageRows (message_of message.now) rows × (result ≡ length rows) }
{
    match message {
        Message::Update(update) => update_count(update),
        _ => 0,
    }
}

/// Returns the number of rows of an UPDATE.
fn update_count<R: AsOctets + Copy>(update: &UpdateMessage<R>) -> usize
    requires { update_room (update_of update.now) < 2 ^ 64 }
    ensures { (rows : List BgpRow) × AreUpdateRows (update_of update.now) rows × (result ≡ length rows) }
{
    let attributes = attributes_count(update.path_attributes);
    update.withdrawn.len() + attributes + update.announced.len()
}

/// Returns the number of rows of attributes.
fn attributes_count<R: AsOctets + Copy>(attributes: PathAttributes<R>) -> usize
    requires { attributes_room (attributes_left attributes) < 2 ^ 64 }
    ensures rows { (rows : List BgpRow) × AreAttributeRows (attributes_session attributes)
        (attributes_left attributes) rows × (result ≡ length rows) }
    ensures most { result ≤ attributes_room (attributes_left attributes) }
{
    let mut ahead = attributes;
    let mut count = 0;
    'attributes: while let Some(attribute) = ahead.next() {
        count += 1 + value_count(&attribute);
    }
    count
}

/// Returns the number of rows of the value of an attribute.
fn value_count<R: AsOctets + Copy>(attribute: &PathAttribute<R>) -> usize
    ensures rows { (value : Value) × IsValue attribute.now.session attribute.now.type_code
        (window attribute.now.value) value × (result ≡ length (rows_of_value value)) }
    ensures most { result ≤ left (window attribute.now.value) }
{
    let mut turns = Turns::new();
    let value = attribute.value_counted(&mut turns);
    match value {
        AttributeValue::MpReachNlri(it) => it.prefixes.len(),
        AttributeValue::MpUnreachNlri(it) => it.prefixes.len(),
        _ => 0,
    }
}

/// Writes the rows of a message to the front of a buffer that has room for them.
fn fill_message<R: AsOctets + Copy>(out: &mut [BgpRow], message: &Message<R>)
    requires { (rows : List BgpRow) × AreMessageRows (message_of message.now) rows × (length rows ≤ length out.old) }
    ensures { (rows : List BgpRow) × AreMessageRows (message_of message.now) rows × FillsPrefix rows out.old out.new }
{
    match message {
        Message::Update(update) => fill_update(out, update),
        _ => (),
    }
}

/// Writes the rows of an UPDATE to the front of a buffer that has room for them.
fn fill_update<R: AsOctets + Copy>(out: &mut [BgpRow], update: &UpdateMessage<R>)
    requires { (rows : List BgpRow) × AreUpdateRows (update_of update.now) rows × (length rows ≤ length out.old) }
    ensures { (rows : List BgpRow) × AreUpdateRows (update_of update.now) rows × FillsPrefix rows out.old out.new }
{
    let at = fill_prefixes(out, 0, WITHDRAWN, UNICAST, update.withdrawn);
    let at = fill_attributes(out, at, update.path_attributes);
    fill_prefixes(out, at, ANNOUNCED, UNICAST, update.announced);
}

/// Writes the rows of prefixes of a kind and a SAFI from an index on. Returns the index after them.
fn fill_prefixes<R: AsOctets + Copy>(
    out: &mut [BgpRow],
    from: usize,
    kind: u32,
    safi: u8,
    prefixes: Prefixes<R>,
) -> usize
    requires { from + length (prefixes_left prefixes) ≤ length out.old }
    ensures end { result ≡ from + length (prefixes_left prefixes) }
    ensures out { out.new ≡ take from out.old ++ (map (row_of_prefix kind safi) (prefixes_left prefixes)
        ++ drop result out.old) }
{
    let mut at = from;
    for nlri in prefixes {
        out[at] = prefix_row(kind, safi, &nlri);
        at += 1;
    }
    at
}

/// Writes the rows of attributes from an index on. Returns the index after them.
fn fill_attributes<R: AsOctets + Copy>(
    out: &mut [BgpRow],
    from: usize,
    attributes: PathAttributes<R>,
) -> usize
    requires { (rows : List BgpRow) × AreAttributeRows (attributes_session attributes) (attributes_left attributes) rows
        × (from + length rows ≤ length out.old) }
    ensures { (rows : List BgpRow) × AreAttributeRows (attributes_session attributes)
        (attributes_left attributes) rows × (result ≡ from + length rows)
        × (out.new ≡ take from out.old ++ (rows ++ drop result out.old)) }
{
    let mut ahead = attributes;
    let mut at = from;
    'attributes: while let Some(attribute) = ahead.next() {
        let value = attribute.value();
        at = fill_attribute(out, at, &attribute, &value);
    }
    at
}

/// Writes the rows of an attribute from an index on, by its value. Returns the index after them.
fn fill_attribute<R: AsOctets + Copy>(
    out: &mut [BgpRow],
    from: usize,
    attribute: &PathAttribute<R>,
    value: &AttributeValue<R>,
) -> usize
    requires { from + length (rows_of_attribute (attribute_of attribute.now) (value_of value.now)) ≤ length out.old }
    ensures end { result ≡ from + length (rows_of_attribute (attribute_of attribute.now) (value_of value.now)) }
    ensures out { out.new ≡ take from out.old
        ++ (rows_of_attribute (attribute_of attribute.now) (value_of value.now) ++ drop result out.old) }
{
    out[from] = attribute_row(attribute);
    fill_value(out, from + 1, value)
}

/// Writes the rows of the prefixes of a value from an index on. Returns the index after them.
fn fill_value<R: AsOctets + Copy>(
    out: &mut [BgpRow],
    from: usize,
    value: &AttributeValue<R>,
) -> usize
    requires { from + length (rows_of_value (value_of value.now)) ≤ length out.old }
    ensures end { result ≡ from + length (rows_of_value (value_of value.now)) }
    ensures out { out.new ≡ take from out.old ++ (rows_of_value (value_of value.now) ++ drop result out.old) }
{
    match value {
        AttributeValue::MpReachNlri(it) => {
            fill_prefixes(out, from, REACHED, it.family.safi_number(), it.prefixes)
        }
        AttributeValue::MpUnreachNlri(it) => {
            fill_prefixes(out, from, UNREACHED, it.family.safi_number(), it.prefixes)
        }
        _ => from,
    }
}

/// Returns the row of a prefix of a kind and a SAFI.
fn prefix_row<R: AsOctets + Copy>(kind: u32, safi: u8, nlri: &Nlri<R>) -> BgpRow
    ensures { result ≡ row_of_prefix kind safi (nlri_of nlri.now) }
{
    BgpRow {
        at: nlri.octets.pos(),
        len: nlri.octets.remaining(),
        kind,
        path_id: path_number(nlri.path_id),
        has_path_id: path_count(nlri.path_id),
        afi: afi_number(nlri.afi),
        safi,
        bits: nlri.len,
        flags: 0,
        type_code: 0,
    }
}

/// Returns the row of an attribute.
pub fn attribute_row<R: AsOctets + Copy>(attribute: &PathAttribute<R>) -> BgpRow
    ensures { result ≡ row_of_attribute (attribute_of attribute.now) }
{
    BgpRow {
        at: attribute.value.pos(),
        len: attribute.value.remaining(),
        kind: ATTRIBUTE,
        path_id: 0,
        has_path_id: 0,
        afi: 0,
        safi: 0,
        bits: 0,
        flags: attribute.flags.0,
        type_code: attribute.type_code,
    }
}

/// Returns the number of a path id, or 0.
fn path_number(path_id: Option<PathId>) -> u32
    ensures { result ≡ path_number path_id }
{
    match path_id {
        Some(id) => id.0,
        None => 0,
    }
}

/// Returns 1 if there is a path id, otherwise 0.
fn path_count(path_id: Option<PathId>) -> u16
    ensures { result ≡ path_count path_id }
{
    match path_id {
        Some(_) => 1,
        None => 0,
    }
}

/// Returns the AFI of an address.
fn afi_number(afi: Afi) -> u16
    ensures { result ≡ afi_of_address afi }
{
    match afi {
        Afi::Ipv4 => 1,
        Afi::Ipv6 => 2,
    }
}
