//! Messages and state changes, written: RFC 6396, 4.4, and RFC 8050, 3.
ghost use Rattle.std.specs.Prelude.{◌≡◌, ◌<◌, ◌≤◌, ◌+◌, ◌++◌, ◌↔◌, ◌⊎◌, length, true, IsTrue, OnOk, OnErr};
ghost use Rattle.octseq.specs.Integer.{octets_be};
ghost use Rattle.octseq.specs.Limit.{ExceedsLimit};
ghost use Rattle.octseq.specs.Refusal.{IsShort, IsMemory, IsMalformed, write_error};
ghost use Rattle.octseq_mrt.specs.Address.{address_of, family_number};
ghost use Rattle.octseq_mrt.specs.Joined.{AppendsBody};
ghost use Rattle.octseq_mrt.specs.Parsed.{bgp4mp_of, event_of};
ghost use Rattle.octseq_mrt.specs.ReadBack.{bgp4mp_kind};
ghost use Rattle.octseq_mrt.specs.Written.{FitsBgp4Mp, FitsFamily, IsOfSubtype, bgp4mp_octets, event_octets};
ghost use Rattle.octseq_mrt.specs.Written.{family_of, is_change};

use crate::address::{address_octets, fits_asn};
use crate::bgp4mp::{Bgp4Mp, Event};
use crate::builder::parts::{BODY_MAX, append_parts, asn_octets, optional_octets};
use crate::kind::{Bgp4MpSubtype, RecordKind};
use octseq::{AppendError, AsOctets, OctetsBuilder, Truncate, WriteError};
use std::net::IpAddr;

/// Returns the number of the family of an address.
fn family_number(addr: IpAddr) -> u16
    ensures { result ≡ family_number (family_of (address_of addr)) }
{
    match addr {
        IpAddr::V4(_) => 1,
        IpAddr::V6(_) => 2,
    }
}

/// Whether two addresses are of one family.
fn are_of_one_family(first: IpAddr, second: IpAddr) -> bool
    ensures of { IsTrue result ↔ FitsFamily (family_of (address_of first)) (address_of second) }
    ensures fits { IsTrue result → FitsFamily (family_of (address_of first)) (address_of first) }
{
    match (first, second) {
        (IpAddr::V4(_), IpAddr::V4(_)) | (IpAddr::V6(_), IpAddr::V6(_)) => true,
        _ => false,
    }
}

/// Returns the octets of two states.
#[tactic(auto, using(octseq::proofs::Written::written_2))]
fn state_octets(old: u16, new: u16) -> [u8; 4]
    ensures { result ≡ octets_be 2 old ++ octets_be 2 new }
{
    let old = old.to_be_bytes();
    let new = new.to_be_bytes();
    [old[0], old[1], new[0], new[1]]
}

impl<R: AsOctets> Event<R> {
    /// Whether it is a state change.
    fn is_change(&self) -> bool
        ensures { result ≡ is_change (event_of self.now) }
    {
        matches!(self, Event::StateChange(_, _))
    }
}

impl<R: AsOctets + Copy> Bgp4Mp<R> {
    /// Whether it is one of a subtype.
    fn is_of_subtype(self, subtype: Bgp4MpSubtype) -> bool
        ensures of { IsTrue result ↔ IsOfSubtype subtype (bgp4mp_of self) }
        ensures fits { IsTrue result → FitsBgp4Mp subtype (bgp4mp_of self) }
    {
        let wide = subtype.has_wide_asns();
        let fits = fits_asn(self.peer_asn, wide) && fits_asn(self.local_asn, wide);
        let agree = are_of_one_family(self.peer_addr, self.local_addr);
        fits && agree && self.event.is_change() == subtype.is_state_change()
    }

    /// Returns the kind of a record of a subtype: with microseconds, if there are some.
    pub fn kind(&self, subtype: Bgp4MpSubtype) -> RecordKind
        ensures { result ≡ bgp4mp_kind subtype (bgp4mp_of self.now) }
    {
        if self.microseconds.is_some() {
            RecordKind::Bgp4MpEt(subtype)
        } else {
            RecordKind::Bgp4Mp(subtype)
        }
    }

    /// Appends the octets of a record of a subtype after its header, or nothing. Its kind is [`kind`](Self::kind).
    ///
    /// # Errors
    ///
    /// `Malformed` if an AS number doesn't fit the two octets of the subtype, the addresses aren't of one family, or
    /// the event isn't one of the subtype. Otherwise `Short` if there would be more than 4,294,967,295 octets, or the
    /// content would exceed the limit of the builder's type. Otherwise `Memory` if a request for memory was refused.
    /// The content is then unchanged.
    pub fn append_octets<B: OctetsBuilder + Truncate>(
        &self,
        subtype: Bgp4MpSubtype,
        builder: &mut B,
    ) -> Result<(), WriteError>
        ensures ok { OnOk result (B.content builder.new
            ≡ B.content builder.old ++ bgp4mp_octets subtype (bgp4mp_of self.now)) }
        ensures fits { OnOk result (FitsBgp4Mp subtype (bgp4mp_of self.now)) }
        ensures few { OnOk result (length (bgp4mp_octets subtype (bgp4mp_of self.now)) ≤ 4294967295) }
        ensures err { OnErr result (B.content builder.new ≡ B.content builder.old) }
        ensures malformed { IsMalformed write_error result ↔ ¬ IsOfSubtype subtype (bgp4mp_of self.now) }
        ensures short { IsShort write_error result ↔ IsOfSubtype subtype (bgp4mp_of self.now)
            × ((4294967295 < length (bgp4mp_octets subtype (bgp4mp_of self.now)))
            ⊎ ExceedsLimit B.limit
            (length (B.content builder.old) + length (bgp4mp_octets subtype (bgp4mp_of self.now)))) }
        ensures memory { IsMemory write_error result → B.asks ≡ true }
        ensures borrows { B.borrows builder.new ≡ B.borrows builder.old }
    {
        if !self.is_of_subtype(subtype) {
            return Err(WriteError::Malformed);
        }
        self.append_event(subtype, builder)?;
        Ok(())
    }

    /// Does so for a record that is one of the subtype.
    fn append_event<B: OctetsBuilder + Truncate>(
        &self,
        subtype: Bgp4MpSubtype,
        builder: &mut B,
    ) -> Result<(), AppendError>
        ensures appends { AppendsBody B.limit B.asks result (bgp4mp_octets subtype (bgp4mp_of self.now))
            (B.content builder.old) (B.content builder.new) }
        ensures borrows { B.borrows builder.new ≡ B.borrows builder.old }
    {
        match &self.event {
            Event::StateChange(old, new) => {
                self.append_with(subtype, &state_octets(*old, *new), builder)
            }
            Event::Message(message) => {
                self.append_with(subtype, message.octets.peek_all(), builder)
            }
        }
    }

    /// Appends the octets of a record of a subtype, whose event has these octets.
    fn append_with<B: OctetsBuilder + Truncate>(
        &self,
        subtype: Bgp4MpSubtype,
        event: &[u8],
        builder: &mut B,
    ) -> Result<(), AppendError>
        requires event { event.now ≡ event_octets (event_of self.now.event) }
        ensures appends { AppendsBody B.limit B.asks result (bgp4mp_octets subtype (bgp4mp_of self.now))
            (B.content builder.old) (B.content builder.new) }
        ensures borrows { B.borrows builder.new ≡ B.borrows builder.old }
    {
        let wide = subtype.has_wide_asns();
        let peer_asn = self.peer_asn.0.to_be_bytes();
        let local_asn = self.local_asn.0.to_be_bytes();
        let (time, time_len) = optional_octets(self.microseconds);
        let (peer, peer_len) = address_octets(self.peer_addr);
        let (local, local_len) = address_octets(self.local_addr);
        let parts: [&[u8]; 8] = [
            &time[..time_len],
            asn_octets(&peer_asn, wide),
            asn_octets(&local_asn, wide),
            &self.interface.to_be_bytes(),
            &family_number(self.peer_addr).to_be_bytes(),
            &peer[..peer_len],
            &local[..local_len],
            event,
        ];
        append_parts(builder, &parts, BODY_MAX)
    }
}
