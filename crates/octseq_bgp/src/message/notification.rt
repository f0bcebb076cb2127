//! NOTIFICATION: RFC 4271, 4.5, and RFC 9003 for shutdown communications.
ghost use Rattle.std.specs.Prelude.{◌≡◌, ℕ, IsErr, IfOk, ⊤};
ghost use Rattle.octseq.specs.Parser.{window};
ghost use Rattle.octseq.specs.Window.{Window};
ghost use Rattle.octseq_bgp.specs.Fills.{Whole};
ghost use Rattle.octseq_bgp.specs.Message.{IsNotification};
ghost use Rattle.octseq_bgp.specs.Notification.{IsCommunication, IsNotificationData};

use crate::whole::parse_all;
use octseq::{AsOctets, Malformed, Parser};
use octseq_format::{Counted, Nested, Text, U8};
use std::alloc::AllocError;

/// The value of the data of a NOTIFICATION.
#[derive(Debug)]
pub enum NotificationData<R: AsOctets> {
    /// Why the session ends, as a parser of well-formed UTF-8: code 6, subcode 2 or 4 (RFC 9003, 2).
    ShutdownCommunication(Parser<R>),
    /// Octets of another code, or without this form, as a parser.
    Opaque(Parser<R>),
}

impl<R: AsOctets + Copy> Copy for NotificationData<R> {}

impl<R: AsOctets + Copy> Clone for NotificationData<R> {
    ghost is_clone = { λ value copy. copy ≡ value };

    ghost is_infallible = { λ _. ⊤ };

    fn clone(&self) -> Result<Self, AllocError> {
        Ok(*self)
    }
}

/// A NOTIFICATION: RFC 4271, 4.5.
#[derive(Debug, Drop)]
pub struct NotificationMessage<R: AsOctets> {
    /// The error code.
    pub code: u8,
    /// The error subcode.
    pub subcode: u8,
    /// The data, as a parser.
    pub data: Parser<R>,
}

impl<R: AsOctets + Copy> NotificationMessage<R> {
    ghost use Rattle.octseq_bgp.specs.NotificationOf.{notification_data_of};

    pub(crate) fn parse(parser: Parser<R>) -> Result<NotificationMessage<R>, Malformed>
        ensures is { IfOk result (λ it. Whole IsNotification (window parser)
            (it.code, (it.subcode, window it.«data»))) }
        ensures malformed { IsErr result → (it : ℕ × (ℕ × Window)) → ¬ Whole IsNotification (window parser) it }
    {
        let (code, subcode, data) = parse_all::<R, (U8, U8, Nested)>(parser)?;
        Ok(NotificationMessage {
            code,
            subcode,
            data,
        })
    }

    /// Reads the data as a shutdown communication.
    fn communication(&self) -> Result<Parser<R>, Malformed>
        ensures text { IfOk result (λ text.
            IsCommunication self.now.code self.now.subcode (window self.now.«data») (window text)) }
        ensures malformed { IsErr result → (text : Window)
            → ¬ IsCommunication self.now.code self.now.subcode (window self.now.«data») text }
    {
        if self.code != 6 || self.subcode != 2 && self.subcode != 4 {
            return Err(Malformed);
        }
        let text = parse_all::<R, Counted<U8, Text, 0>>(self.data)?;
        Ok(text.parser())
    }

    /// Returns what the data says.
    pub fn value(&self) -> NotificationData<R>
        ensures { IsNotificationData self.now.code self.now.subcode (window self.now.«data»)
            (notification_data_of result) }
    {
        match self.communication() {
            Ok(text) => NotificationData::ShutdownCommunication(text),
            Err(_) => NotificationData::Opaque(self.data),
        }
    }
}
