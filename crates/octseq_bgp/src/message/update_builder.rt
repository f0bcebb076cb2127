//! Building UPDATEs: RFC 4271, 4.3.
//!
//! An UPDATE has withdrawn routes, path attributes, and announced prefixes. Each part has a builder type of its own,
//! which turns into that of the next, so nothing can be pushed to an earlier part. Each push writes something whole or
//! not at all, and the octets are a message at all times.
ghost use Rattle.std.specs.Prelude.{◌≡◌, ◌↔◌, ◌≤◌, None, true, IfOk};
ghost use Rattle.octseq.specs.Limit.{ExceedsLimit};
ghost use Rattle.octseq.specs.Refusal.{IsShort, IsMemory, append_error};
ghost use Rattle.octseq_bgp.specs.Held.{HeldUpdate, held_once};
ghost use Rattle.octseq_bgp.specs.Written.{update_octets, UpdateFits, longest};

use crate::message::update_builder::octets::UpdateOctets;
use crate::message::update_builder::part::{Announced, Attributes, MpList, Part, Withdrawn};
use crate::session::SessionConfig;
use octseq::builder::AsOctetsMut;
use octseq::{AppendError, AsOctets, OctetsBuilder, Truncate};
use std::marker::{Model, PhantomData};

mod attributes;
mod fill;
pub(super) mod front;
mod head;
mod octets;
pub mod part;
pub(super) mod prefix_octets;
mod prefixes;
mod reach;
mod values;

/// An UPDATE that is written up to a part. Contracts see the builder of its octets, the session, what it says, and
/// which list of prefixes can be continued.
#[derive(Drop)]
pub struct UpdateBuilder<B: AsOctets, P: Part> {
    octets: UpdateOctets<B>,
    session: SessionConfig,
    open_list: Option<MpList>,
    open_at: usize,
    part: PhantomData<P>,
    ghost held: { HeldUpdate P.reaches session octets open_list open_at } by { held_once P.reaches session
        octets open_list open_at },
}

impl<B: AsOctets, P: Part> Model for UpdateBuilder<B, P> {
    ghost use Rattle.std.specs.Coded.{codes};
    ghost use Rattle.octseq_bgp.specs.Held.{update_code};
    ghost use Rattle.octseq_bgp.specs.Writing.{Writing};

    ghost Value = { Writing B };

    ghost coded = { Prim.hlevel (codes, update_code) };

    ghost view = { λ b. record {
      octets = b.octets.octets;
      session = b.session;
      update = b.held.0;
      open_list = b.open_list;
    } };
}

/// Returns the greatest length of an UPDATE of a session.
fn longest(session: &SessionConfig) -> usize
    ensures value { result ≡ longest session.now }
    ensures most { result ≤ 65535 }
{
    if session.extended_message {
        65535
    } else {
        4096
    }
}

impl<B: OctetsBuilder + Truncate + AsOctetsMut, P: Part> UpdateBuilder<B, P> {
    /// Returns the session whose messages are written.
    pub fn session(&self) -> SessionConfig
        ensures { result ≡ self.now.session }
    {
        self.session
    }

    /// Returns the list of prefixes that can be continued: the last attribute, if it was pushed as one.
    pub fn open_list(&self) -> Option<MpList>
        ensures { result ≡ self.now.open_list }
    {
        self.open_list
    }

    /// Returns the message so far.
    pub fn as_slice(&self) -> &[u8]
        ensures octets { result.now ≡ update_octets self.now.update }
        ensures fits { UpdateFits self.now.session self.now.update }
    {
        self.octets.as_slice()
    }

    /// Returns the builder, which has the message.
    pub fn finish(self) -> B
        ensures octets { B.content result ≡ update_octets self.update }
        ensures fits { UpdateFits self.session self.update }
        ensures same { result ≡ self.octets }
    {
        self.octets.finish()
    }

    /// Continues with a later part.
    fn next_part<N: Part>(self) -> UpdateBuilder<B, N>
        requires { P.reaches self.update → N.reaches self.update }
        ensures { result ≡ self }
    {
        UpdateBuilder {
            octets: self.octets,
            session: self.session,
            open_list: self.open_list,
            open_at: self.open_at,
            part: PhantomData,
        }
    }
}

impl<B: OctetsBuilder + Truncate + AsOctetsMut> UpdateBuilder<B, Withdrawn> {
    ghost use Rattle.octseq_bgp.specs.Writing.{empty_update};

    /// Begins an UPDATE that says nothing, in place of what the builder holds: the End-of-RIB marker of IPv4 unicast
    /// (RFC 4724, 2).
    ///
    /// # Errors
    ///
    /// `Short` exactly if the limit of the builder's type is less than 23 octets, and `Memory` if a request for memory
    /// was refused. The builder is then dropped.
    pub fn from_builder(octets: B, session: SessionConfig) -> Result<Self, AppendError>
        ensures update { IfOk result (λ b. b.update ≡ empty_update) }
        ensures session { IfOk result (λ b. b.session ≡ session) }
        ensures open_list { IfOk result (λ b. b.open_list ≡ None) }
        ensures short { IsShort append_error result ↔ ExceedsLimit B.limit 23 }
        ensures memory { IsMemory append_error result → B.asks ≡ true }
        ensures borrows { IfOk result (λ b. B.borrows b.octets ≡ B.borrows octets) }
    {
        match UpdateOctets::begin(octets) {
            Ok(octets) => Ok(UpdateBuilder {
                octets,
                session,
                open_list: None,
                open_at: 0,
                part: PhantomData,
            }),
            Err(error) => Err(error),
        }
    }

    /// Continues with the path attributes.
    pub fn attributes(self) -> UpdateBuilder<B, Attributes>
        ensures { result ≡ self }
    {
        self.next_part()
    }
}

impl<B: OctetsBuilder + Truncate + AsOctetsMut> UpdateBuilder<B, Attributes> {
    /// Continues with the announced prefixes.
    pub fn announced(self) -> UpdateBuilder<B, Announced>
        ensures { result ≡ self }
    {
        self.next_part()
    }
}
