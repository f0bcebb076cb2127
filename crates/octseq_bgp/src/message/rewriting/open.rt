//! OPENs written anew: RFC 4271, 4.2, and RFC 9072, 2.
ghost use Rattle.std.specs.Prelude.{◌≡◌, ◌≤◌, ◌<◌, ◌+◌, ◌^◌, ◌++◌, ◌↔◌, ℕ, List, length, map, true, false};
ghost use Rattle.std.specs.Prelude.{IsErr, IfOk, OnOk};
ghost use Rattle.octseq.specs.Integer.{octets_be};
ghost use Rattle.octseq.specs.Limit.{ExceedsLimit, IsWithin};
ghost use Rattle.octseq.specs.Parser.{window};
ghost use Rattle.octseq.specs.Refusal.{IsShort, IsMemory, append_error};
ghost use Rattle.octseq.specs.Window.{Window, left, rest};
ghost use Rattle.octseq_format.specs.Canonical.{IsSoundWindow};
ghost use Rattle.octseq_format.specs.Row.{row_octets};
ghost use Rattle.octseq_bgp.specs.CapabilityOf.{capabilities_left, capability_of, capability_value_of, restart_of};
ghost use Rattle.octseq_bgp.specs.ItemOctets.{tuple_octets};
ghost use Rattle.octseq_bgp.specs.Items.{items_left};
ghost use Rattle.octseq_bgp.specs.Lists.{parameter_of, parameters_left};
ghost use Rattle.octseq_bgp.specs.OneOpen.{says_parameter};
ghost use Rattle.octseq_bgp.specs.Open.{IsOpen, length_octets};
ghost use Rattle.octseq_bgp.specs.Parsed.{open_of};
ghost use Rattle.octseq_bgp.specs.Puts.{AppendsSomeUnlimited};
ghost use Rattle.octseq_bgp.specs.RewrittenOpen.{AppendedRow, AreItemsSound, Each, IsCapabilityAnew, IsOpenRewritten};
ghost use Rattle.octseq_bgp.specs.RewrittenOpen.{IsParameterAnew, capability_anew, family_anew, needs_long, open_front};
ghost use Rattle.octseq_bgp.specs.RewrittenOpen.{open_numbers, restart_anew, said_octets};
ghost use Rattle.octseq_bgp.specs.WrittenOpen.{WrittenParameter, front_len, is_apart, lengths, most_parameters};
ghost use Rattle.octseq_bgp.specs.WrittenOpen.{parameter_octets};

use crate::capability::{
    Capabilities, Capability, CapabilityValue, FamilyTuple, GracefulRestart, ParameterValue,
};
use crate::compose::header_of;
use crate::item::Items;
use crate::message::open_builder::put_length;
use crate::message::rewriting::is_past;
use crate::message::{OpenMessage, Parameter, Parameters};
use crate::part::Part;
use crate::put::{put_slice, put_u8, put_u16, put_u32};
use octseq::{AppendError, AsOctets, OctetsBuilder, ShortBuf, Truncate};
use std::alloc::AllocError;

/// Returns how many octets parameters have in the short form. A value keeps its length.
fn parameters_len<R: AsOctets + Copy>(parameters: Parameters<R>) -> usize
    requires { length (said_octets false (parameters_left parameters)) ≤ 4096 }
    ensures { result ≡ length (said_octets false (parameters_left parameters)) }
{
    let mut len = 0;
    let mut ahead = parameters;
    'parameters: while let Some(parameter) = ahead.next() {
        len += 2 + parameter.value.remaining();
    }
    len
}

/// Whether the first parameter, if there is one, isn't of type 255.
fn is_apart<R: AsOctets + Copy>(parameters: Parameters<R>) -> bool
    ensures { result ≡ is_apart false (map says_parameter (parameters_left parameters)) }
{
    let mut ahead = parameters;
    match ahead.next() {
        Some(parameter) => parameter.kind != 255,
        None => true,
    }
}

/// Whether parameters of `len` octets in the short form need the long one.
fn needs_long<R: AsOctets + Copy>(parameters: Parameters<R>, len: usize) -> bool
    requires { len ≡ length (said_octets false (parameters_left parameters)) }
    ensures is { result ≡ needs_long (map says_parameter (parameters_left parameters)) }
    ensures few { result ≡ false → len ≤ 255 }
{
    if len > 255 {
        return true;
    }
    !is_apart(parameters)
}

/// The form of parameters.
#[derive(Clone, Copy)]
struct Form {
    /// Whether it is the long one.
    long: bool,
    /// The number of their octets.
    len: usize,
}

/// Returns the form that parameters need.
fn form_of<R: AsOctets + Copy>(parameters: Parameters<R>) -> Form
    requires few { length (said_octets false (parameters_left parameters)) ≤ 4096 }
    ensures long { result.long ≡ needs_long (map says_parameter (parameters_left parameters)) }
    ensures len { result.len ≡ length (said_octets result.long (parameters_left parameters)) }
    ensures most { result.len ≤ 8192 }
    ensures fit { result.len ≤ most_parameters result.long }
{
    let len = parameters_len(parameters);
    if needs_long(parameters, len) {
        let len = len + parameters.len();
        return Form { long: true, len };
    }
    Form { long: false, len }
}

/// Reads the value of each capability: it has one.
fn read_capabilities<R: AsOctets + Copy>(capabilities: Capabilities<R>)
    ensures { (row : List WrittenParameter) × Each IsCapabilityAnew (capabilities_left capabilities) row }
{
    let mut ahead = capabilities;
    'capabilities: while let Some(capability) = ahead.next() {
        // Whether it has its form is known once it is read: the clause `short` speaks of it.
        let _value = capability.value();
    }
}

/// Reads the value of a parameter, and those of its capabilities.
fn read_parameter<R: AsOctets + Copy>(parameter: &Parameter<R>)
    ensures { (p : WrittenParameter) × IsParameterAnew (parameter_of parameter.now) p }
{
    match parameter.value() {
        ParameterValue::Capabilities(capabilities) => read_capabilities(capabilities),
        ParameterValue::Opaque(_) => {}
    }
}

/// Does so for each parameter.
fn read_parameters<R: AsOctets + Copy>(parameters: Parameters<R>)
    ensures { (row : List WrittenParameter) × Each IsParameterAnew (parameters_left parameters) row }
{
    let mut ahead = parameters;
    'parameters: while let Some(parameter) = ahead.next() {
        read_parameter(&parameter);
    }
}

/// Appends families of a graceful restart, whose flags keep only their first bit.
fn put_families<R: AsOctets + Copy, B: OctetsBuilder>(
    octets: &mut B,
    families: Items<R, FamilyTuple>,
) -> Result<(), AllocError>
    requires within { IsWithin B.limit (length (B.content octets.old)
        + length (row_octets tuple_octets (map family_anew (items_left families)))) }
    ensures puts { AppendsSomeUnlimited B.asks result (row_octets tuple_octets (map family_anew (items_left families)))
        (B.content octets.old) (B.content octets.new) }
    ensures borrows { B.borrows octets.new ≡ B.borrows octets.old }
{
    let mut ahead = families;
    'families: while let Some(tuple) = ahead.next() {
        let family = FamilyTuple {
            afi: tuple.afi,
            safi: tuple.safi,
            flags: tuple.flags / 128 * 128,
        };
        family.put_part(true, octets)?;
    }
    Ok(())
}

/// Appends a graceful restart without its reserved bits.
fn put_restart<R: AsOctets + Copy, B: OctetsBuilder>(
    octets: &mut B,
    restart: GracefulRestart<R>,
) -> Result<(), AllocError>
    requires within { IsWithin B.limit (length (B.content octets.old)
        + length (restart_anew (restart_of restart))) }
    ensures puts { AppendsSomeUnlimited B.asks result (restart_anew (restart_of restart))
        (B.content octets.old) (B.content octets.new) }
    ensures borrows { B.borrows octets.new ≡ B.borrows octets.old }
{
    put_u16(octets, restart.bits / 16384 * 16384 + restart.bits % 4096)?;
    put_families(octets, restart.families)
}

/// Appends the octets of a capability, by its value and the octets that were read.
fn put_value<R: AsOctets + Copy, B: OctetsBuilder>(
    octets: &mut B,
    value: CapabilityValue<R>,
    read: &[u8],
) -> Result<(), AllocError>
    requires within { IsWithin B.limit (length (B.content octets.old)
        + length (capability_anew (capability_value_of value) read.now)) }
    ensures puts { AppendsSomeUnlimited B.asks result (capability_anew (capability_value_of value) read.now)
        (B.content octets.old) (B.content octets.new) }
    ensures borrows { B.borrows octets.new ≡ B.borrows octets.old }
{
    match value {
        CapabilityValue::MultiProtocol(afi, _, safi) => {
            let family = FamilyTuple {
                afi,
                safi: 0,
                flags: safi,
            };
            family.put_part(true, octets)
        }
        CapabilityValue::GracefulRestart(restart) => put_restart(octets, restart),
        _ => put_slice(octets, read),
    }
}

/// Appends a type or a code, and a length.
fn put_head<B: OctetsBuilder>(
    octets: &mut B,
    long: bool,
    kind: u8,
    len: usize,
) -> Result<(), AllocError>
    requires fit { len < 256 ^ length_octets long }
    requires within { IsWithin B.limit (length (B.content octets.old)
        + length (octets_be 1 kind ++ octets_be (length_octets long) len)) }
    ensures puts { AppendsSomeUnlimited B.asks result (octets_be 1 kind ++ octets_be (length_octets long) len)
        (B.content octets.old) (B.content octets.new) }
    ensures borrows { B.borrows octets.new ≡ B.borrows octets.old }
{
    put_u8(octets, kind)?;
    put_length(octets, long, len)
}

/// Appends a capability: its code, its length, and its octets.
fn put_capability<R: AsOctets + Copy, B: OctetsBuilder>(
    octets: &mut B,
    capability: &Capability<R>,
) -> Result<(), AllocError>
    requires sound { IsSoundWindow (window capability.now.octets) }
    requires within { IsWithin B.limit (length (B.content octets.old)
        + length (parameter_octets false (says_parameter (capability_of capability.now)))) }
    ensures ok { OnOk result ((c : WrittenParameter) × IsCapabilityAnew (capability_of capability.now) c
        × (B.content octets.new ≡ B.content octets.old ++ parameter_octets false c)) }
    ensures memory { IsErr result → B.asks ≡ true }
    ensures borrows { B.borrows octets.new ≡ B.borrows octets.old }
{
    let value = capability.value();
    let read = capability.octets.peek_all();
    put_head(octets, false, capability.code, read.len() % 256)?;
    put_value(octets, value, read)
}

/// Appends capabilities.
fn put_capabilities<R: AsOctets + Copy, B: OctetsBuilder>(
    octets: &mut B,
    capabilities: Capabilities<R>,
) -> Result<(), AllocError>
    requires sound { AreItemsSound (capabilities_left capabilities) }
    requires within { IsWithin B.limit (length (B.content octets.old)
        + length (said_octets false (capabilities_left capabilities))) }
    ensures ok { OnOk result (AppendedRow IsCapabilityAnew (parameter_octets false) (capabilities_left capabilities)
        (B.content octets.old) (B.content octets.new)) }
    ensures memory { IsErr result → B.asks ≡ true }
    ensures borrows { B.borrows octets.new ≡ B.borrows octets.old }
{
    let mut ahead = capabilities;
    'capabilities: while let Some(capability) = ahead.next() {
        put_capability(octets, &capability)?;
    }
    Ok(())
}

/// Appends the octets of a parameter.
fn put_inside<R: AsOctets + Copy, B: OctetsBuilder>(
    octets: &mut B,
    parameter: &Parameter<R>,
) -> Result<(), AllocError>
    requires sound { IsSoundWindow (window parameter.now.value) }
    requires within { IsWithin B.limit (length (B.content octets.old)
        + length (rest (window parameter.now.value))) }
    ensures ok { OnOk result ((p : WrittenParameter) × IsParameterAnew (parameter_of parameter.now) p
        × (B.content octets.new ≡ B.content octets.old ++ p.1)) }
    ensures memory { IsErr result → B.asks ≡ true }
    ensures borrows { B.borrows octets.new ≡ B.borrows octets.old }
{
    match parameter.value() {
        ParameterValue::Capabilities(capabilities) => put_capabilities(octets, capabilities),
        ParameterValue::Opaque(read) => put_slice(octets, read.peek_all()),
    }
}

/// Appends a parameter: its type, its length, and its octets.
fn put_parameter<R: AsOctets + Copy, B: OctetsBuilder>(
    octets: &mut B,
    long: bool,
    parameter: &Parameter<R>,
) -> Result<(), AllocError>
    requires sound { IsSoundWindow (window parameter.now.value) }
    requires fit { length (rest (window parameter.now.value)) < 256 ^ length_octets long }
    requires within { IsWithin B.limit (length (B.content octets.old)
        + length (parameter_octets long (says_parameter (parameter_of parameter.now)))) }
    ensures ok { OnOk result ((p : WrittenParameter) × IsParameterAnew (parameter_of parameter.now) p
        × (B.content octets.new ≡ B.content octets.old ++ parameter_octets long p)) }
    ensures memory { IsErr result → B.asks ≡ true }
    ensures borrows { B.borrows octets.new ≡ B.borrows octets.old }
{
    let len = parameter.value.remaining();
    put_head(octets, long, parameter.kind, len)?;
    put_inside(octets, parameter)
}

/// Appends parameters.
fn put_parameters<R: AsOctets + Copy, B: OctetsBuilder>(
    octets: &mut B,
    long: bool,
    parameters: Parameters<R>,
) -> Result<(), AllocError>
    requires sound { AreItemsSound (parameters_left parameters) }
    requires fit { length (said_octets long (parameters_left parameters)) ≤ most_parameters long }
    requires within { IsWithin B.limit (length (B.content octets.old)
        + length (said_octets long (parameters_left parameters))) }
    ensures ok { OnOk result (AppendedRow IsParameterAnew (parameter_octets long) (parameters_left parameters)
        (B.content octets.old) (B.content octets.new)) }
    ensures memory { IsErr result → B.asks ≡ true }
    ensures borrows { B.borrows octets.new ≡ B.borrows octets.old }
{
    let mut ahead = parameters;
    'parameters: while let Some(parameter) = ahead.next() {
        put_parameter(octets, long, &parameter)?;
    }
    Ok(())
}

/// Appends what comes before parameters of `len` octets: the number of these, in one octet; or 255, 255, and the number
/// in two.
fn put_lengths<B: OctetsBuilder>(octets: &mut B, long: bool, len: usize) -> Result<(), AllocError>
    requires fit { len ≤ most_parameters long }
    requires within { IsWithin B.limit (length (B.content octets.old) + length (lengths long len)) }
    ensures puts { AppendsSomeUnlimited B.asks result (lengths long len) (B.content octets.old) (B.content octets.new) }
    ensures borrows { B.borrows octets.new ≡ B.borrows octets.old }
{
    if long {
        put_slice(octets, &[255, 255])?;
    }
    put_length(octets, long, len)
}

/// Appends the numbers of an OPEN.
fn put_numbers<R: AsOctets + Copy, B: OctetsBuilder>(
    octets: &mut B,
    message: &OpenMessage<R>,
) -> Result<(), AllocError>
    requires within { IsWithin B.limit (length (B.content octets.old)
        + length (open_numbers (open_of message.now))) }
    ensures puts { AppendsSomeUnlimited B.asks result (open_numbers (open_of message.now))
        (B.content octets.old) (B.content octets.new) }
    ensures borrows { B.borrows octets.new ≡ B.borrows octets.old }
{
    put_u8(octets, message.version)?;
    put_u16(octets, message.my_asn)?;
    put_u16(octets, message.holdtime)?;
    put_u32(octets, message.identifier)
}

/// Appends what comes before parameters of `len` octets.
fn put_front<R: AsOctets + Copy, B: OctetsBuilder>(
    octets: &mut B,
    message: &OpenMessage<R>,
    long: bool,
    len: usize,
) -> Result<(), AllocError>
    requires few { len ≤ 8192 }
    requires fit { len ≤ most_parameters long }
    requires within { IsWithin B.limit (length (B.content octets.old)
        + length (open_front (open_of message.now) long len)) }
    ensures puts { AppendsSomeUnlimited B.asks result (open_front (open_of message.now) long len)
        (B.content octets.old) (B.content octets.new) }
    ensures borrows { B.borrows octets.new ≡ B.borrows octets.old }
{
    let size = front_len(long) + len;
    put_slice(octets, &header_of(size as u16, 1))?;
    put_numbers(octets, message)?;
    put_lengths(octets, long, len)
}

/// Returns how many octets come before the parameters.
fn front_len(long: bool) -> usize
    ensures is { result ≡ front_len long }
    ensures most { result ≤ 32 }
{
    if long { 32 } else { 29 }
}

/// Writes an OPEN anew in place of what the builder holds. It says what it said, and what has no meaning is 0: the
/// reserved octet of an address family, the reserved bits of a graceful restart, and all but the first of the flags of
/// its families. Its parameters are in the long form (RFC 9072, 2) only if they need it.
///
/// # Errors
///
/// `Short` exactly if it has more octets than the limit of the builder's type, otherwise `Memory` if a request for
/// memory was refused. The builder is then dropped.
pub(super) fn rewrite_open<R: AsOctets + Copy, B: OctetsBuilder + Truncate>(
    message: &OpenMessage<R>,
    mut octets: B,
) -> Result<B, AppendError>
    requires { (w : Window) × IsOpen w (open_of message.now) × IsSoundWindow w × (left w ≤ 4077) }
    ensures rewritten { IfOk result (λ b. IsOpenRewritten (open_of message.now) (B.content b)) }
    ensures short { IsShort append_error result ↔ (out : List ℕ) × IsOpenRewritten (open_of message.now) out
        × ExceedsLimit B.limit (length out) }
    ensures memory { IsMemory append_error result → B.asks ≡ true }
    ensures borrows { IfOk result (λ b. B.borrows b ≡ B.borrows octets) }
{
    let form = form_of(message.parameters);
    octets.truncate(0);
    if is_past(&octets, front_len(form.long) + form.len) {
        read_parameters(message.parameters);
        return Err(AppendError::Short(ShortBuf));
    }
    if let Err(AllocError) = put_front(&mut octets, message, form.long, form.len) {
        return Err(AppendError::Memory);
    }
    if let Err(AllocError) = put_parameters(&mut octets, form.long, message.parameters) {
        return Err(AppendError::Memory);
    }
    Ok(octets)
}
