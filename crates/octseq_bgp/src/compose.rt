//! Messages while they are written: RFC 4271, 4.1.
ghost use Rattle.std.specs.Prelude.{◌≡◌, ◌≤◌, ◌+◌, ◌++◌, ℕ, List, length, true, OnOk, OnErr};
ghost use Rattle.octseq.specs.Limit.{IsWithin};
ghost use Rattle.octseq.specs.Refusal.{append_error, write_error};
ghost use Rattle.octseq_bgp.specs.Composed.{Extends, least, header_octets, message_octets};
ghost use Rattle.octseq_bgp.specs.Puts.{AppendsUnlimited, AppendsSomeUnlimited};

mod value;

use crate::put::{put_few, put_slice};
use octseq::builder::AsOctetsMut;
use octseq::{AppendError, OctetsBuilder, ShortBuf, Truncate, WriteError};
use std::alloc::AllocError;
pub(crate) use value::Valued;

/// The offset of the length in a header.
const LENGTH_AT: usize = 16;

/// Writes a slice over as many octets, from `at` on.
pub(crate) fn write_over<B: AsOctetsMut>(octets: &mut B, at: usize, slice: &[u8])
    requires { at + length slice.now ≤ length (B.content octets.old) }
    ensures content { (a x b : List ℕ) → B.content octets.old ≡ a ++ (x ++ b) → length a ≡ at
        → length x ≡ length slice.now → B.content octets.new ≡ a ++ (slice.now ++ b) }
    ensures len { length (B.content octets.new) ≡ length (B.content octets.old) }
    ensures borrows { B.borrows octets.new ≡ B.borrows octets.old }
{
    octets.as_mut()[at..at + slice.len()].copy_from_slice(slice);
}

/// Moves what follows `at` up by the length of a slice, over as many octets at the end, and writes the slice there.
fn insert_over<B: AsOctetsMut>(octets: &mut B, at: usize, slice: &[u8])
    requires { at + length slice.now ≤ length (B.content octets.old) }
    ensures content { (a b x : List ℕ) → B.content octets.old ≡ a ++ (b ++ x) → length a ≡ at
        → length x ≡ length slice.now → B.content octets.new ≡ a ++ (slice.now ++ b) }
    ensures len { length (B.content octets.new) ≡ length (B.content octets.old) }
    ensures borrows { B.borrows octets.new ≡ B.borrows octets.old }
{
    if slice.is_empty() {
        return;
    }
    let octets = octets.as_mut();
    let end = octets.len() - slice.len();
    octets.copy_within(at..end, at + slice.len());
    octets[at..at + slice.len()].copy_from_slice(slice);
}

/// Writes a slice in place of the `old` octets from `at` on, and moves what follows over as many octets at the end.
pub(crate) fn replace_over<B: AsOctetsMut>(octets: &mut B, at: usize, old: usize, slice: &[u8])
    requires old { old ≤ length slice.now }
    requires inside { at + length slice.now ≤ length (B.content octets.old) }
    requires most { length (B.content octets.old) ≤ 65535 }
    ensures content { (a o b x : List ℕ) → B.content octets.old ≡ a ++ (o ++ (b ++ x)) → length a ≡ at
        → length o ≡ old → length o + length x ≡ length slice.now → B.content octets.new ≡ a ++ (slice.now ++ b) }
    ensures len { length (B.content octets.new) ≡ length (B.content octets.old) }
    ensures borrows { B.borrows octets.new ≡ B.borrows octets.old }
{
    insert_over(octets, at + old, &slice[old..]);
    write_over(octets, at, &slice[..old]);
}

/// Returns how many octets a builder takes, up to its limit and to `most`.
fn room<B: OctetsBuilder>(octets: &B, most: usize) -> usize
    requires { length (B.content octets.now) ≤ most }
    ensures { length (B.content octets.now) + result ≡ least most B.limit }
{
    let limit = match octets.max_len() {
        Some(limit) => limit.min(most),
        None => most,
    };
    limit - octets.len()
}

/// Returns a header.
#[tactic(auto, using(octseq::proofs::Written::written_1, octseq::proofs::Written::written_2), unfolding(crate::specs::Composed::header_octets))]
pub(crate) fn header_of(len: u16, kind: u8) -> [u8; 19]
    ensures { result ≡ header_octets len kind }
{
    let len = len.to_be_bytes();
    [
        255, 255, 255, 255, 255, 255, 255, 255, 255, 255, 255, 255, 255, 255, 255, 255, len[0],
        len[1], kind,
    ]
}

/// Sets the length in a header to that of the octets.
fn put_length<B: AsOctetsMut>(octets: &mut B)
    requires least { 19 ≤ length (B.content octets.old) }
    requires most { length (B.content octets.old) ≤ 65535 }
    ensures content { (n kind : ℕ) (body : List ℕ) → B.content octets.old ≡ header_octets n kind ++ body
        → B.content octets.new ≡ message_octets kind body }
    ensures borrows { B.borrows octets.new ≡ B.borrows octets.old }
{
    let length = (octets.len() as u16).to_be_bytes();
    write_over(octets, LENGTH_AT, &length);
}

/// Octets that are appended to a message.
pub(crate) trait Tail {
    // The octets, and what is known of them.
    ghost octets: { Self → List ℕ };

    ghost fits: { Self → Type 0 };

    /// Returns how many.
    fn len(&self) -> usize
        requires { fits self.now }
        ensures { result ≡ length (octets self.now) };

    /// Appends them. On an error it may have appended some.
    fn put<B: OctetsBuilder>(&self, builder: &mut B) -> Result<(), AllocError>
        requires fit { fits self.now }
        requires within { IsWithin B.limit (length (B.content builder.old) + length (octets self.now)) }
        ensures puts { AppendsSomeUnlimited B.asks result (octets self.now) (B.content builder.old)
            (B.content builder.new) }
        ensures borrows { B.borrows builder.new ≡ B.borrows builder.old };
}

/// A slice.
#[derive(Drop)]
pub(crate) struct Slice<'a>(pub(crate) &'a [u8]);

impl<'a> Tail for Slice<'a> {
    ghost octets = { λ s. s.0.now };

    ghost fits = { λ _. Unit {0} };

    fn len(&self) -> usize {
        self.0.len()
    }

    fn put<B: OctetsBuilder>(&self, builder: &mut B) -> Result<(), AllocError> {
        put_few(builder, self.0)
    }
}

/// Two slices, one after the other.
#[derive(Drop)]
pub(crate) struct Slices<'a> {
    pub(crate) first: &'a [u8],
    pub(crate) second: &'a [u8],
}

impl<'a> Tail for Slices<'a> {
    ghost octets = { λ s. s.first.now ++ s.second.now };

    ghost fits = { λ _. Unit {0} };

    fn len(&self) -> usize {
        self.first.len() + self.second.len()
    }

    fn put<B: OctetsBuilder>(&self, builder: &mut B) -> Result<(), AllocError> {
        put_few(builder, self.first)?;
        put_slice(builder, self.second)
    }
}

/// A slice before other octets.
#[derive(Drop)]
pub(crate) struct Headed<'a, T> {
    pub(crate) head: &'a [u8],
    pub(crate) tail: &'a T,
}

impl<'a, T: Tail> Tail for Headed<'a, T> {
    ghost octets = { λ h. h.head.now ++ T.octets h.tail.now };

    ghost fits = { λ h. T.fits h.tail.now × (length (T.octets h.tail.now) ≤ 65535) };

    fn len(&self) -> usize {
        self.head.len() + self.tail.len()
    }

    fn put<B: OctetsBuilder>(&self, builder: &mut B) -> Result<(), AllocError> {
        put_few(builder, self.head)?;
        self.tail.put(builder)
    }
}

/// Appends octets for which there is room, all or none.
fn put_all<B: OctetsBuilder + Truncate, T: Tail>(octets: &mut B, tail: &T) -> Result<(), AllocError>
    requires fit { T.fits tail.now }
    requires within { IsWithin B.limit (length (B.content octets.old) + length (T.octets tail.now)) }
    ensures puts { AppendsUnlimited B.asks result (T.octets tail.now) (B.content octets.old) (B.content octets.new) }
    ensures borrows { B.borrows octets.new ≡ B.borrows octets.old }
{
    let start = octets.len();
    let done = tail.put(octets);
    if done.is_err() {
        octets.truncate(start);
    }
    done
}

/// Appends octets to a message, and counts them, or does nothing.
pub(crate) fn extend<B: OctetsBuilder + Truncate + AsOctetsMut, T: Tail>(
    octets: &mut B,
    most: usize,
    tail: &T,
) -> Result<(), AppendError>
    requires fit { T.fits tail.now }
    requires some { 19 ≤ length (B.content octets.old) }
    requires now { length (B.content octets.old) ≤ most }
    requires most { most ≤ 65535 }
    ensures extends { (kind : ℕ) (body : List ℕ) → B.content octets.old ≡ message_octets kind body
        → Extends append_error (least most B.limit) B.asks result (message_octets kind (body ++ T.octets tail.now))
        (B.content octets.old) (B.content octets.new) }
    ensures borrows { B.borrows octets.new ≡ B.borrows octets.old }
{
    if tail.len() > room(octets, most) {
        return Err(AppendError::Short(ShortBuf));
    }
    match put_all(octets, tail) {
        Ok(()) => {
            put_length(octets);
            Ok(())
        }
        Err(AllocError) => Err(AppendError::Memory),
    }
}

/// The same, with the error of a write.
pub(crate) fn write<B: OctetsBuilder + Truncate + AsOctetsMut, T: Tail>(
    octets: &mut B,
    most: usize,
    tail: &T,
) -> Result<(), WriteError>
    requires fit { T.fits tail.now }
    requires some { 19 ≤ length (B.content octets.old) }
    requires now { length (B.content octets.old) ≤ most }
    requires most { most ≤ 65535 }
    ensures extends { (kind : ℕ) (body : List ℕ) → B.content octets.old ≡ message_octets kind body
        → Extends write_error (least most B.limit) B.asks result (message_octets kind (body ++ T.octets tail.now))
        (B.content octets.old) (B.content octets.new) }
    ensures borrows { B.borrows octets.new ≡ B.borrows octets.old }
{
    match extend(octets, most, tail) {
        Ok(()) => Ok(()),
        Err(AppendError::Short(_)) => Err(WriteError::Short),
        Err(AppendError::Memory) => Err(WriteError::Memory),
    }
}
