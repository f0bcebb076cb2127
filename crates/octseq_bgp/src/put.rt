//! Appending octets that are known to fit.
//!
//! # Errors
//!
//! Each call returns `AllocError` if a request for memory was refused. The content is then unchanged.
ghost use Rattle.std.specs.Prelude.{◌≡◌, ◌≤◌, ◌<◌, ◌+◌, ◌^◌, length};
ghost use Rattle.octseq.specs.Integer.{octets_be};
ghost use Rattle.octseq.specs.Limit.{IsWithin};
ghost use Rattle.octseq_bgp.specs.Puts.{AppendsUnlimited, AppendsSomeUnlimited};

use octseq::OctetsBuilder;
use std::alloc::AllocError;

/// Appends a slice.
#[inline(always)]
pub(crate) fn put_slice<B: OctetsBuilder>(builder: &mut B, slice: &[u8]) -> Result<(), AllocError>
    requires { IsWithin B.limit (length (B.content builder.old) + length slice.now) }
    ensures puts { AppendsUnlimited B.asks result slice.now (B.content builder.old) (B.content builder.new) }
    ensures some { AppendsSomeUnlimited B.asks result slice.now (B.content builder.old) (B.content builder.new) }
    ensures borrows { B.borrows builder.new ≡ B.borrows builder.old }
{
    builder.append_slice(slice).map_err(|_| AllocError)
}

/// Appends a slice of a few octets.
#[inline(always)]
pub(crate) fn put_few<B: OctetsBuilder>(builder: &mut B, slice: &[u8]) -> Result<(), AllocError>
    requires { IsWithin B.limit (length (B.content builder.old) + length slice.now) }
    ensures puts { AppendsUnlimited B.asks result slice.now (B.content builder.old) (B.content builder.new) }
    ensures some { AppendsSomeUnlimited B.asks result slice.now (B.content builder.old) (B.content builder.new) }
    ensures borrows { B.borrows builder.new ≡ B.borrows builder.old }
{
    builder.append_few(slice).map_err(|_| AllocError)
}

/// Appends an octet.
#[inline(always)]
#[tactic(auto, using(octseq::proofs::Written::written_1))]
pub(crate) fn put_u8<B: OctetsBuilder>(builder: &mut B, number: u8) -> Result<(), AllocError>
    requires { IsWithin B.limit (length (B.content builder.old) + length (octets_be 1 number)) }
    ensures puts { AppendsUnlimited B.asks result (octets_be 1 number) (B.content builder.old) (B.content builder.new) }
    ensures some { AppendsSomeUnlimited B.asks result (octets_be 1 number) (B.content builder.old)
        (B.content builder.new) }
    ensures borrows { B.borrows builder.new ≡ B.borrows builder.old }
{
    put_few(builder, &number.to_be_bytes())
}

/// Appends a number in two octets.
#[inline(always)]
#[tactic(auto, using(octseq::proofs::Written::written_2))]
pub(crate) fn put_u16<B: OctetsBuilder>(builder: &mut B, number: u16) -> Result<(), AllocError>
    requires { IsWithin B.limit (length (B.content builder.old) + length (octets_be 2 number)) }
    ensures puts { AppendsUnlimited B.asks result (octets_be 2 number) (B.content builder.old) (B.content builder.new) }
    ensures some { AppendsSomeUnlimited B.asks result (octets_be 2 number) (B.content builder.old)
        (B.content builder.new) }
    ensures borrows { B.borrows builder.new ≡ B.borrows builder.old }
{
    put_few(builder, &number.to_be_bytes())
}

/// Appends a number in four octets.
#[inline(always)]
#[tactic(auto, using(octseq::proofs::Written::written_4))]
pub(crate) fn put_u32<B: OctetsBuilder>(builder: &mut B, number: u32) -> Result<(), AllocError>
    requires { IsWithin B.limit (length (B.content builder.old) + length (octets_be 4 number)) }
    ensures puts { AppendsUnlimited B.asks result (octets_be 4 number) (B.content builder.old) (B.content builder.new) }
    ensures some { AppendsSomeUnlimited B.asks result (octets_be 4 number) (B.content builder.old)
        (B.content builder.new) }
    ensures borrows { B.borrows builder.new ≡ B.borrows builder.old }
{
    put_few(builder, &number.to_be_bytes())
}

/// Appends a number in eight octets.
#[inline(always)]
#[tactic(auto, using(octseq::proofs::Written::written_8))]
pub(crate) fn put_u64<B: OctetsBuilder>(builder: &mut B, number: u64) -> Result<(), AllocError>
    requires { IsWithin B.limit (length (B.content builder.old) + length (octets_be 8 number)) }
    ensures puts { AppendsUnlimited B.asks result (octets_be 8 number) (B.content builder.old) (B.content builder.new) }
    ensures some { AppendsSomeUnlimited B.asks result (octets_be 8 number) (B.content builder.old)
        (B.content builder.new) }
    ensures borrows { B.borrows builder.new ≡ B.borrows builder.old }
{
    put_few(builder, &number.to_be_bytes())
}
