//! TFTP packets: RFC 1350, 5.

use octseq::AsOctets;
use octseq_format::{Case, Fields, Format, OneOf5, Rest, Tagged, U16Be, Window, ZeroEnded};

/// A TFTP packet. Texts are windows of their octets.
#[derive(Clone, Copy, Debug, Drop)]
pub enum Packet<R: AsOctets + Copy> {
    /// A read request: a file name and a mode.
    Read(Window<R>, Window<R>),
    /// A write request: a file name and a mode.
    Write(Window<R>, Window<R>),
    /// A block of data: its number and its octets.
    Data(u16, Window<R>),
    /// An acknowledgment: the number of the block.
    Acknowledgment(u16),
    /// An error: a code and a message.
    Error(u16, Window<R>),
}

impl<R: AsOctets + Copy> Fields<R> for Packet<R> {
    ghost use Rattle.octseq_formats.specs.Tftp.{packet_fields};

    type Format = Tagged<
        U16Be,
        (
            Case<1, (ZeroEnded, ZeroEnded)>,
            Case<2, (ZeroEnded, ZeroEnded)>,
            Case<3, (U16Be, Rest)>,
            Case<4, U16Be>,
            Case<5, (U16Be, ZeroEnded)>,
        ),
    >;

    ghost fields = { packet_fields };

    fn from_fields(parts: <Self::Format as Format<R>>::Value) -> Self {
        match parts {
            OneOf5::First((name, mode)) => Packet::Read(name, mode),
            OneOf5::Second((name, mode)) => Packet::Write(name, mode),
            OneOf5::Third((block, octets)) => Packet::Data(block, octets),
            OneOf5::Fourth(block) => Packet::Acknowledgment(block),
            OneOf5::Fifth((code, words)) => Packet::Error(code, words),
        }
    }

    fn to_fields(&self) -> <Self::Format as Format<R>>::Value {
        match *self {
            Packet::Read(name, mode) => OneOf5::First((name, mode)),
            Packet::Write(name, mode) => OneOf5::Second((name, mode)),
            Packet::Data(block, octets) => OneOf5::Third((block, octets)),
            Packet::Acknowledgment(block) => OneOf5::Fourth(block),
            Packet::Error(code, words) => OneOf5::Fifth((code, words)),
        }
    }
}
