//! Writing NOTIFICATIONs: RFC 4271, 4.5.
ghost use Rattle.std.specs.Prelude.{◌≡◌, ◌<◌, ◌≤◌, ◌↔◌, [], length, true, IfOk, OnOk, OnErr};
ghost use Rattle.octseq.specs.Limit.{ExceedsLimit};
ghost use Rattle.octseq.specs.Refusal.{IsMalformed, IsShort, IsMemory, append_error, write_error};
ghost use Rattle.octseq_bgp.specs.WrittenMessage.{limit_of, max_length};
ghost use Rattle.octseq_bgp.specs.WrittenNotification.{communication_octets, notification_octets};
ghost use Rattle.octseq_bgp.specs.WrittenNotification.{notification_with_data};

use crate::compose::{Slice, extend};
use crate::message::written::{begin, longest};
use crate::session::SessionConfig;
use octseq::builder::{AsOctetsMut, infallible};
use octseq::{AppendError, Array, AsOctets, OctetsBuilder, Truncate, WriteError};
use std::marker::Model;

/// The greatest length of a shutdown communication: RFC 9003, 2.
const COMMUNICATION_MAX: usize = 255;

/// A NOTIFICATION that is written. Its octets are a message at all times.
#[derive(Drop)]
pub struct NotificationBuilder<B: AsOctets> {
    octets: B,
    most: usize,
}

impl<B: AsOctets> Model for NotificationBuilder<B> {
    ghost use Rattle.std.specs.Coded.{codes};
    ghost use Rattle.octseq_bgp.specs.WrittenMessage.{WritingMessage};
    ghost use Rattle.octseq_bgp.specs.WrittenNotification.{IsNotificationWritten, WrittenNotification, notification_in};

    ghost Value = { WritingMessage B WrittenNotification };

    ghost view = { λ n. record { octets = n.octets; message = notification_in (B.content n.octets); most = n.most } };

    ghost invariant = { λ n. IsNotificationWritten n.most (B.content n.octets) };
}

/// Returns the octets of a NOTIFICATION without data.
#[tactic(auto, using(octseq::proofs::Written::written_2), unfolding(crate::specs::Composed::header_octets))]
fn front(code: u8, subcode: u8) -> [u8; 21]
    ensures { result ≡ notification_octets (record { code = code; subcode = subcode; «data» = [] }) }
{
    [
        255, 255, 255, 255, 255, 255, 255, 255, 255, 255, 255, 255, 255, 255, 255, 255, 0, 21, 3,
        code, subcode,
    ]
}

impl<B: OctetsBuilder + Truncate + AsOctetsMut> NotificationBuilder<B> {
    /// Begins a NOTIFICATION without data, in place of what the builder holds.
    ///
    /// # Errors
    ///
    /// `Short` exactly if the limit of the builder's type is less than 21 octets, otherwise `Memory` if a request for
    /// memory was refused. The builder is then dropped.
    pub fn from_builder(
        octets: B,
        session: &SessionConfig,
        code: u8,
        subcode: u8,
    ) -> Result<Self, AppendError>
        ensures message { IfOk result (λ n. n.message ≡ record { code = code; subcode = subcode; «data» = [] }) }
        ensures most { IfOk result (λ n. n.most ≡ max_length session.now.extended_message) }
        ensures short { IsShort append_error result ↔ ExceedsLimit B.limit 21 }
        ensures memory { IsMemory append_error result → B.asks ≡ true }
        ensures borrows { IfOk result (λ n. B.borrows n.octets ≡ B.borrows octets) }
    {
        let most = longest(session);
        let octets = match begin(octets, &front(code, subcode)) {
            Ok(octets) => octets,
            Err(error) => return Err(error),
        };
        Ok(NotificationBuilder { octets, most })
    }

    /// Appends octets to the data, all or none.
    ///
    /// # Errors
    ///
    /// `Short` exactly if the message would exceed the limit of the builder's type, or the maximum of the session:
    /// 4,096 octets, or 65,535 if messages are extended. Otherwise `Memory` if a request for memory was refused. The
    /// message is then unchanged.
    pub fn push(&mut self, octets: &[u8]) -> Result<(), AppendError>
        ensures ok { OnOk result (self.new.message ≡ notification_with_data self.old.message octets.now) }
        ensures err { OnErr result (self.new.message ≡ self.old.message) }
        ensures short { IsShort append_error result ↔ ExceedsLimit (limit_of self.old.most B.limit)
            (length (notification_octets (notification_with_data self.old.message octets.now))) }
        ensures memory { IsMemory append_error result → B.asks ≡ true }
        ensures most { self.new.most ≡ self.old.most }
        ensures borrows { B.borrows self.new.octets ≡ B.borrows self.old.octets }
    {
        extend(&mut self.octets, self.most, &Slice(octets))
    }

    /// Appends a text to the data, after its length, or nothing. As all data of code 6 and subcode 2 or 4 it is a
    /// shutdown communication: RFC 9003, 2.
    ///
    /// # Errors
    ///
    /// `Malformed` exactly if the text has more than 255 octets. Otherwise `Short` and `Memory` as from
    /// [`push`](Self::push). The message is then unchanged.
    pub fn push_communication(&mut self, text: &str) -> Result<(), WriteError>
        ensures ok { OnOk result
            (self.new.message ≡ notification_with_data self.old.message (communication_octets text.now)) }
        ensures err { OnErr result (self.new.message ≡ self.old.message) }
        ensures malformed { IsMalformed write_error result ↔ (255 < length text.now) }
        ensures short { IsShort write_error result ↔ (length text.now ≤ 255)
            × ExceedsLimit (limit_of self.old.most B.limit)
            (length (notification_octets (notification_with_data self.old.message (communication_octets text.now)))) }
        ensures memory { IsMemory write_error result → B.asks ≡ true }
        ensures most { self.new.most ≡ self.old.most }
        ensures borrows { B.borrows self.new.octets ≡ B.borrows self.old.octets }
    {
        let octets = text.as_bytes();
        if octets.len() > COMMUNICATION_MAX {
            return Err(WriteError::Malformed);
        }
        let mut communication = Array::<256>::new();
        infallible(communication.append_slice(&[octets.len() as u8]));
        infallible(communication.append_slice(octets));
        match self.push(communication.as_slice()) {
            Ok(()) => Ok(()),
            Err(AppendError::Short(_)) => Err(WriteError::Short),
            Err(AppendError::Memory) => Err(WriteError::Memory),
        }
    }

    /// Returns the message.
    pub fn as_slice(&self) -> &[u8]
        ensures { result.now ≡ notification_octets self.now.message }
    {
        self.octets.as_ref()
    }

    /// Returns the builder, which holds the message.
    pub fn finish(self) -> B
        ensures octets { result ≡ self.octets }
        ensures content { B.content result ≡ notification_octets self.message }
    {
        self.octets
    }
}
