//! Writing OPENs: RFC 4271, 4.2, and RFC 9072, 2.
ghost use Rattle.std.specs.Prelude.{◌≡◌, ◌≤◌, ◌<◌, ◌+◌, ◌^◌, ◌++◌, ◌↔◌, ℕ, List, length, true, false};
ghost use Rattle.std.specs.Prelude.{IsTrue, IsSome, IfSome, IfOk};
ghost use Rattle.octseq.specs.Integer.{octets_be};
ghost use Rattle.octseq.specs.Limit.{ExceedsLimit, IsWithin};
ghost use Rattle.octseq.specs.Refusal.{IsShort, IsMemory, append_error};
ghost use Rattle.octseq_bgp.specs.OneOpen.{open_once};
ghost use Rattle.octseq_bgp.specs.Open.{length_octets};
ghost use Rattle.octseq_bgp.specs.Puts.{AppendsSomeUnlimited};
ghost use Rattle.octseq_bgp.specs.WrittenCapability.{FitsCapability, capability_octets};
ghost use Rattle.octseq_bgp.specs.WrittenOpen.{CanFollow, FitsParameter, HoldsOpen, IsOpenWritten, PushesParameter};
ghost use Rattle.octseq_bgp.specs.WrittenOpen.{WrittenOpen, WrittenParameter, apart_at, bare_open, front_len, lengths};
ghost use Rattle.octseq_bgp.specs.WrittenOpen.{open_max, open_octets, parameter_octets};

use crate::capability::ComposeCapability;
use crate::compose::{Tail, write, write_over};
use crate::message::written::{MESSAGE_MAX, begin};
use crate::put::{put_slice, put_u8, put_u16};
use octseq::builder::AsOctetsMut;
use octseq::{AppendError, AsOctets, OctetsBuilder, Truncate, WriteError};
use std::alloc::AllocError;
use std::marker::Model;

/// A parameter that can be written.
trait ComposeParameter {
    // Its type and its octets, and whether it has them.
    ghost says: { Self → WrittenParameter };

    ghost has: { Self → Type 0 };

    /// Returns the type.
    fn kind(&self) -> u8
        ensures kind { result ≡ (says self.now).0 }
        ensures fits { result < 256 };

    /// Returns the number of octets, or `None` if it has none.
    fn value_len(&self) -> Option<usize>
        ensures some { IfSome result (λ len. len ≡ length (says self.now).1) }
        ensures has { IsSome result ↔ has self.now };

    /// Appends the octets. On an error it may have appended some.
    fn put_value<B: OctetsBuilder>(&self, octets: &mut B) -> Result<(), AllocError>
        requires has { has self.now }
        requires within { IsWithin B.limit (length (B.content octets.old) + length (says self.now).1) }
        ensures puts { AppendsSomeUnlimited B.asks result (says self.now).1 (B.content octets.old)
            (B.content octets.new) }
        ensures borrows { B.borrows octets.new ≡ B.borrows octets.old };
}

/// A parameter of a type with octets.
#[derive(Drop)]
struct RawParameter<'a> {
    kind: u8,
    octets: &'a [u8],
}

impl<'a> ComposeParameter for RawParameter<'a> {
    ghost says = { λ p. (p.kind, p.octets.now) };

    ghost has = { λ _. Unit {0} };

    fn kind(&self) -> u8 {
        self.kind
    }

    fn value_len(&self) -> Option<usize> {
        Some(self.octets.len())
    }

    fn put_value<B: OctetsBuilder>(&self, octets: &mut B) -> Result<(), AllocError> {
        put_slice(octets, self.octets)
    }
}

/// The type of parameters that hold capabilities: RFC 5492, 4.
const CAPABILITIES: u8 = 2;

/// A parameter that holds one capability.
#[derive(Drop)]
struct CapabilityParameter<'a, C> {
    capability: &'a C,
}

impl<'a, C: ComposeCapability> ComposeParameter for CapabilityParameter<'a, C> {
    ghost says = { λ p. (2, capability_octets (C.says p.capability.now)) };

    ghost has = { λ p. FitsCapability (C.says p.capability.now) };

    fn kind(&self) -> u8 {
        CAPABILITIES
    }

    fn value_len(&self) -> Option<usize> {
        let len = self.capability.compose_len()?;
        Some(2 + len)
    }

    fn put_value<B: OctetsBuilder>(&self, octets: &mut B) -> Result<(), AllocError> {
        match self.capability.compose_len() {
            Some(len) => {
                put_u8(octets, self.capability.code())?;
                put_u8(octets, len as u8)?;
                self.capability.put_some(octets)
            }
            None => unreachable!(),
        }
    }
}

/// Returns the number of octets of a parameter, or `None` if it can't be written, as the first one or a later one.
fn parameter_len<P: ComposeParameter>(parameter: &P, long: bool, is_first: bool) -> Option<usize>
    ensures some { IfSome result (λ len. len ≡ length (parameter_octets long (P.says parameter.now))) }
    ensures fit { IsSome result ↔ P.has parameter.now × FitsParameter long (P.says parameter.now)
        × (apart_at long is_first (P.says parameter.now).0 ≡ true) }
{
    let len = parameter.value_len()?;
    let kind = parameter.kind();
    if long {
        return if len > 65535 { None } else { Some(3 + len) };
    }
    if len > 255 || is_first && kind == 255 {
        return None;
    }
    Some(2 + len)
}

/// Whether an OPEN has no parameters.
fn has_none<B: AsOctets>(octets: &B, long: bool) -> bool
    ensures { IsTrue result ↔ (length (B.content octets.now) ≡ front_len long) }
{
    let len = octets.len();
    if long { len == 32 } else { len == 29 }
}

/// Returns the maximum length of an OPEN.
fn open_max(long: bool) -> usize
    ensures { result ≡ open_max long }
{
    if long { MESSAGE_MAX } else { 284 }
}

/// Appends a length in two octets, or in one.
pub(super) fn put_length<B: OctetsBuilder>(
    octets: &mut B,
    long: bool,
    len: usize,
) -> Result<(), AllocError>
    requires fit { len < 256 ^ length_octets long }
    requires within { IsWithin B.limit (length (B.content octets.old) + length (octets_be (length_octets long) len)) }
    ensures puts { AppendsSomeUnlimited B.asks result (octets_be (length_octets long) len)
        (B.content octets.old) (B.content octets.new) }
    ensures borrows { B.borrows octets.new ≡ B.borrows octets.old }
{
    if long {
        return put_u16(octets, len as u16);
    }
    put_u8(octets, len as u8)
}

/// Appends a parameter. On an error it may have appended some octets.
fn put_some<B: OctetsBuilder, P: ComposeParameter>(
    octets: &mut B,
    long: bool,
    parameter: &P,
) -> Result<(), AllocError>
    requires has { P.has parameter.now }
    requires fit { FitsParameter long (P.says parameter.now) }
    requires within { IsWithin B.limit (length (B.content octets.old)
        + length (parameter_octets long (P.says parameter.now))) }
    ensures puts { AppendsSomeUnlimited B.asks result (parameter_octets long (P.says parameter.now))
        (B.content octets.old) (B.content octets.new) }
    ensures borrows { B.borrows octets.new ≡ B.borrows octets.old }
{
    put_u8(octets, parameter.kind())?;
    match parameter.value_len() {
        Some(len) => put_length(octets, long, len)?,
        None => unreachable!(),
    }
    parameter.put_value(octets)
}

/// A parameter in the long form or in the short one. It is known to have `len` octets there.
#[derive(Drop)]
struct FormedParameter<'a, P> {
    parameter: &'a P,
    long: bool,
    len: usize,
}

impl<'a, P: ComposeParameter> Tail for FormedParameter<'a, P> {
    ghost octets = { λ p. parameter_octets p.long (P.says p.parameter.now) };

    ghost fits = { λ p. P.has p.parameter.now × FitsParameter p.long (P.says p.parameter.now)
        × (p.len ≡ length (parameter_octets p.long (P.says p.parameter.now))) };

    fn len(&self) -> usize {
        self.len
    }

    fn put<B: OctetsBuilder>(&self, builder: &mut B) -> Result<(), AllocError> {
        put_some(builder, self.long, self.parameter)
    }
}

/// Writes the length of the parameters of an OPEN.
fn count_parameters<B: AsOctetsMut>(octets: &mut B, long: bool)
    requires some { front_len long ≤ length (B.content octets.old) }
    requires few { length (B.content octets.old) ≤ open_max long }
    ensures content { (a ps : List ℕ) (n : ℕ) → B.content octets.old ≡ a ++ (lengths long n ++ ps) → length a ≡ 28
        → B.content octets.new ≡ a ++ (lengths long (length ps) ++ ps) }
    ensures borrows { B.borrows octets.new ≡ B.borrows octets.old }
{
    let len = octets.len();
    if long {
        let count = ((len - 32) as u16).to_be_bytes();
        write_over(octets, 30, &count);
        return;
    }
    write_over(octets, 28, &[(len - 29) as u8]);
}

/// Appends a parameter to an OPEN, or does nothing.
fn append_parameter<B: OctetsBuilder + Truncate + AsOctetsMut, P: ComposeParameter>(
    octets: &mut B,
    long: bool,
    parameter: &P,
) -> Result<(), WriteError>
    requires { HoldsOpen long (B.content octets.old) }
    ensures holds { HoldsOpen long (B.content octets.new) }
    ensures pushes { (o now : WrittenOpen) → IsOpenWritten long (B.content octets.old) o
        → IsOpenWritten long (B.content octets.new) now → PushesParameter B.limit B.asks
        (P.has parameter.now × CanFollow o (P.says parameter.now)) result (P.says parameter.now) o now }
    ensures borrows { B.borrows octets.new ≡ B.borrows octets.old }
{
    let is_first = has_none(octets, long);
    let Some(len) = parameter_len(parameter, long, is_first) else {
        return Err(WriteError::Malformed);
    };
    let formed = FormedParameter {
        parameter,
        long,
        len,
    };
    if let Err(error) = write(octets, open_max(long), &formed) {
        return Err(error);
    }
    count_parameters(octets, long);
    Ok(())
}

/// An OPEN that is written. Its octets are a message at all times.
#[derive(Drop)]
pub struct OpenBuilder<B: AsOctets> {
    octets: B,
    long: bool,
    ghost is_open: { HoldsOpen long (B.content octets) } by { open_once long (B.content octets) },
}

impl<B: AsOctets> Model for OpenBuilder<B> {
    ghost use Rattle.octseq_bgp.specs.WrittenOpen.{WritingOpen};

    ghost Value = { WritingOpen B };

    ghost view = { λ o. record { octets = o.octets; message = o.is_open.0 } };
}

/// Returns the octets of the numbers of an OPEN.
#[tactic(auto, using(octseq::proofs::Written::written_2, octseq::proofs::Written::written_4))]
fn numbers(my_asn: u16, holdtime: u16, identifier: u32) -> [u8; 8]
    ensures { result ≡ octets_be 2 my_asn ++ (octets_be 2 holdtime ++ octets_be 4 identifier) }
{
    let asn = my_asn.to_be_bytes();
    let hold = holdtime.to_be_bytes();
    let id = identifier.to_be_bytes();
    [asn[0], asn[1], hold[0], hold[1], id[0], id[1], id[2], id[3]]
}

/// Returns the octets of an OPEN without parameters, in the short form.
fn short_front(my_asn: u16, holdtime: u16, identifier: u32) -> [u8; 29]
    ensures { result ≡ open_octets (bare_open false my_asn holdtime identifier) }
{
    let n = numbers(my_asn, holdtime, identifier);
    [
        255, 255, 255, 255, 255, 255, 255, 255, 255, 255, 255, 255, 255, 255, 255, 255, 0, 29, 1,
        4, n[0], n[1], n[2], n[3], n[4], n[5], n[6], n[7], 0,
    ]
}

/// Returns the octets of an OPEN without parameters, in the long form.
fn long_front(my_asn: u16, holdtime: u16, identifier: u32) -> [u8; 32]
    ensures { result ≡ open_octets (bare_open true my_asn holdtime identifier) }
{
    let n = numbers(my_asn, holdtime, identifier);
    [
        255, 255, 255, 255, 255, 255, 255, 255, 255, 255, 255, 255, 255, 255, 255, 255, 0, 32, 1,
        4, n[0], n[1], n[2], n[3], n[4], n[5], n[6], n[7], 255, 255, 0, 0,
    ]
}

impl<B: OctetsBuilder + Truncate + AsOctetsMut> OpenBuilder<B> {
    /// Begins an OPEN of version 4 without parameters, in place of what the builder holds. Its parameters have at
    /// most 255 octets.
    ///
    /// # Errors
    ///
    /// `Short` exactly if the limit of the builder's type is less than 29 octets, otherwise `Memory` if a request for
    /// memory was refused. The builder is then dropped.
    pub fn from_builder(
        octets: B,
        my_asn: u16,
        holdtime: u16,
        identifier: u32,
    ) -> Result<Self, AppendError>
        ensures message { IfOk result (λ o. o.message ≡ bare_open false my_asn holdtime identifier) }
        ensures short { IsShort append_error result ↔ ExceedsLimit B.limit 29 }
        ensures memory { IsMemory append_error result → B.asks ≡ true }
        ensures borrows { IfOk result (λ o. B.borrows o.octets ≡ B.borrows octets) }
    {
        let octets = match begin(octets, &short_front(my_asn, holdtime, identifier)) {
            Ok(octets) => octets,
            Err(error) => return Err(error),
        };
        Ok(OpenBuilder {
            octets,
            long: false,
        })
    }

    /// Begins an OPEN of version 4 without parameters in the long form, in place of what the builder holds. Lengths of
    /// parameters have two octets: RFC 9072, 2.
    ///
    /// # Errors
    ///
    /// `Short` exactly if the limit of the builder's type is less than 32 octets, otherwise `Memory` if a request for
    /// memory was refused. The builder is then dropped.
    pub fn from_builder_long(
        octets: B,
        my_asn: u16,
        holdtime: u16,
        identifier: u32,
    ) -> Result<Self, AppendError>
        ensures message { IfOk result (λ o. o.message ≡ bare_open true my_asn holdtime identifier) }
        ensures short { IsShort append_error result ↔ ExceedsLimit B.limit 32 }
        ensures memory { IsMemory append_error result → B.asks ≡ true }
        ensures borrows { IfOk result (λ o. B.borrows o.octets ≡ B.borrows octets) }
    {
        let octets = match begin(octets, &long_front(my_asn, holdtime, identifier)) {
            Ok(octets) => octets,
            Err(error) => return Err(error),
        };
        Ok(OpenBuilder { octets, long: true })
    }

    /// Appends a parameter, or does nothing.
    fn push<P: ComposeParameter>(&mut self, parameter: &P) -> Result<(), WriteError>
        ensures pushes { PushesParameter B.limit B.asks
            (P.has parameter.now × CanFollow self.old.message (P.says parameter.now)) result (P.says parameter.now)
            self.old.message self.new.message }
        ensures borrows { B.borrows self.new.octets ≡ B.borrows self.old.octets }
    {
        append_parameter(&mut self.octets, self.long, parameter)
    }

    /// Appends a parameter, all or nothing.
    ///
    /// # Errors
    ///
    /// `Malformed` exactly if the length doesn't fit: it is more than 255, or in the long form more than 65,535; or
    /// if the first parameter of the short form is of type 255, which would be read as the long form. Otherwise
    /// `Short` exactly if the message would exceed the limit of the builder's type or 4,096 octets, or in the short
    /// form its parameters 255. Otherwise `Memory` if a request for memory was refused. The message is then unchanged.
    pub fn push_parameter(&mut self, kind: u8, octets: &[u8]) -> Result<(), WriteError>
        ensures pushes { PushesParameter B.limit B.asks (CanFollow self.old.message (kind, octets.now)) result
            (kind, octets.now) self.old.message self.new.message }
        ensures borrows { B.borrows self.new.octets ≡ B.borrows self.old.octets }
    {
        self.push(&RawParameter { kind, octets })
    }

    /// Appends a parameter that holds one capability, all or nothing.
    ///
    /// # Errors
    ///
    /// `Malformed` exactly if the capability doesn't fit, or in the short form has more than 253 octets after its
    /// code and length. Otherwise as for [`push_parameter`](Self::push_parameter).
    pub fn push_capability<C: ComposeCapability>(
        &mut self,
        capability: &C,
    ) -> Result<(), WriteError>
        ensures pushes { PushesParameter B.limit B.asks (FitsCapability (C.says capability.now)
            × CanFollow self.old.message (2, capability_octets (C.says capability.now))) result
            (2, capability_octets (C.says capability.now)) self.old.message self.new.message }
        ensures borrows { B.borrows self.new.octets ≡ B.borrows self.old.octets }
    {
        self.push(&CapabilityParameter { capability })
    }

    /// Returns the message.
    pub fn as_slice(&self) -> &[u8]
        ensures { result.now ≡ open_octets self.now.message }
    {
        self.octets.as_ref()
    }

    /// Returns the builder, which holds the message.
    pub fn finish(self) -> B
        ensures octets { result ≡ self.octets }
        ensures content { B.content result ≡ open_octets self.message }
    {
        self.octets
    }
}
