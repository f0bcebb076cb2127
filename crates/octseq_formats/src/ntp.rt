//! The NTP version 4 header: RFC 5905, 7.3.

ghost use Rattle.std.specs.Prelude.{◌≡◌, IfOk};

use octseq::{AsOctets, WriteError};
use octseq_format::{Bits, Fields, Format, I8, Of, U8, U32Be, U64Be, UInt, parse_composed};
use std::alloc::Global;

/// An NTP header.
#[derive(Clone, Copy, Debug, PartialEq, Eq)]
pub struct Ntp {
    /// A warning of a leap second in the last minute of the day.
    pub leap_indicator: usize,
    /// The version.
    pub version: usize,
    /// The mode of the sender: 3 for a client, 4 for a server.
    pub mode: usize,
    /// The stratum: the distance from a reference clock.
    pub stratum: u8,
    /// The maximum interval between messages, in log2 seconds.
    pub poll: i8,
    /// The precision of the clock, in log2 seconds.
    pub precision: i8,
    /// The round-trip delay to the reference clock, in 1/65536 seconds.
    pub root_delay: u32,
    /// The dispersion to the reference clock, in 1/65536 seconds.
    pub root_dispersion: u32,
    /// The id of the reference clock.
    pub reference_id: u32,
    /// The reference, origin, receive and transmit timestamps, in 2 ^ -32 seconds since 1900.
    pub timestamps: (u64, u64, u64, u64),
}

impl<R: AsOctets + Copy> Fields<R> for Ntp {
    type Format = (
        Bits<U8, (UInt<2>, UInt<3>, UInt<3>)>,
        U8,
        I8,
        I8,
        U32Be,
        U32Be,
        U32Be,
        (U64Be, U64Be, U64Be, U64Be),
    );

    ghost fields = { λ ntp. (
      (ntp.leap_indicator, ntp.version, ntp.mode),
      ntp.stratum,
      ntp.poll,
      ntp.precision,
      ntp.root_delay,
      ntp.root_dispersion,
      ntp.reference_id,
      ntp.timestamps,
    ) };

    fn from_fields(parts: <Self::Format as Format<R>>::Value) -> Self {
        Ntp {
            leap_indicator: parts.0.0,
            version: parts.0.1,
            mode: parts.0.2,
            stratum: parts.1,
            poll: parts.2,
            precision: parts.3,
            root_delay: parts.4,
            root_dispersion: parts.5,
            reference_id: parts.6,
            timestamps: parts.7,
        }
    }

    fn to_fields(&self) -> <Self::Format as Format<R>>::Value {
        (
            (self.leap_indicator, self.version, self.mode),
            self.stratum,
            self.poll,
            self.precision,
            self.root_delay,
            self.root_dispersion,
            self.reference_id,
            self.timestamps,
        )
    }
}

/// Writes a header and reads it back. The result says the same.
///
/// # Errors
///
/// `Malformed` if a number has more bits than its field, `Memory` if a request for memory was refused.
#[tactic(auto, unfolding(octseq_format::specs::Pair::both_say))]
pub fn round_trip(alloc: Global, ntp: &Ntp) -> Result<Ntp, WriteError>
    ensures { IfOk result (λ again. again ≡ ntp.now) }
{
    let octets: Vec<u8> = <Of<Ntp> as Format<&[u8]>>::compose_whole(alloc, ntp)?;
    Ok(parse_composed::<&[u8], Of<Ntp>>(octets.as_slice(), ntp))
}
