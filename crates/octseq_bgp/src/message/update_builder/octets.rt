//! The octets of an UPDATE, part by part: RFC 4271, 4.3.
ghost use Rattle.std.specs.Prelude.{◌≡◌, ◌≤◌, ◌+◌, ◌++◌, ◌↔◌, [], List, ℕ, length, take, drop, true, IfOk};
ghost use Rattle.octseq.specs.Limit.{ExceedsLimit};
ghost use Rattle.octseq.specs.Refusal.{IsShort, IsMemory, append_error};
ghost use Rattle.octseq_bgp.specs.Composed.{least};
ghost use Rattle.octseq_bgp.specs.PartOctets.{Arranges, PutsParts, after_length, parts_octets};
ghost use Rattle.octseq_bgp.specs.Written.{body_octets};

use crate::compose::{Headed, Slice, Slices, Tail, replace_over, write, write_over};
use crate::message::written::begin;
use octseq::builder::AsOctetsMut;
use octseq::{AppendError, AsOctets, OctetsBuilder, Truncate, WriteError};
use std::marker::Model;

/// An UPDATE without withdrawn routes, attributes and prefixes.
const EMPTY: [u8; 23] = [
    255, 255, 255, 255, 255, 255, 255, 255, 255, 255, 255, 255, 255, 255, 255, 255, 0, 23, 2, 0, 0,
    0, 0,
];

/// Writes the lengths of the withdrawn routes and of the attributes.
fn put_lengths<B: AsOctetsMut>(octets: &mut B, withdrawn: usize, attributes: usize)
    requires inside { 23 + withdrawn + attributes ≤ length (B.content octets.old) }
    requires most { length (B.content octets.old) ≤ 65535 }
    ensures content { (h x w y a n : List ℕ) → B.content octets.old ≡ h ++ (x ++ (w ++ (y ++ (a ++ n)))) → length h ≡ 19
        → length x ≡ 2 → length w ≡ withdrawn → length y ≡ 2 → length a ≡ attributes
        → B.content octets.new ≡ h ++ body_octets w a n }
    ensures len { length (B.content octets.new) ≡ length (B.content octets.old) }
    ensures borrows { B.borrows octets.new ≡ B.borrows octets.old }
{
    write_over(octets, 19, &(withdrawn as u16).to_be_bytes());
    write_over(octets, 21 + withdrawn, &(attributes as u16).to_be_bytes());
}

/// The octets of an UPDATE. Contracts see those of its three parts.
#[derive(Drop)]
pub(super) struct UpdateOctets<B: AsOctets> {
    octets: B,
    withdrawn: usize,
    attributes: usize,
}

impl<B: AsOctets> Model for UpdateOctets<B> {
    ghost use Rattle.octseq_bgp.specs.PartOctets.{PartOctets, AreParts, parts_in};

    ghost Value = { PartOctets B };

    ghost view = { λ o. parts_in o.octets (B.content o.octets) o.withdrawn o.attributes };

    ghost invariant = { λ o. AreParts (B.content o.octets) o.withdrawn o.attributes
        (parts_in o.octets (B.content o.octets) o.withdrawn o.attributes) };
}

impl<B: OctetsBuilder + Truncate + AsOctetsMut> UpdateOctets<B> {
    /// Begins an UPDATE without withdrawn routes, attributes and prefixes, in place of what the builder holds.
    pub(super) fn begin(octets: B) -> Result<UpdateOctets<B>, AppendError>
        ensures withdrawn { IfOk result (λ o. o.withdrawn ≡ []) }
        ensures attributes { IfOk result (λ o. o.attributes ≡ []) }
        ensures announced { IfOk result (λ o. o.announced ≡ []) }
        ensures short { IsShort append_error result ↔ ExceedsLimit B.limit 23 }
        ensures memory { IsMemory append_error result → B.asks ≡ true }
        ensures borrows { IfOk result (λ o. B.borrows o.octets ≡ B.borrows octets) }
    {
        match begin(octets, &EMPTY) {
            Ok(octets) => Ok(UpdateOctets {
                octets,
                withdrawn: 0,
                attributes: 0,
            }),
            Err(error) => Err(error),
        }
    }

    /// Returns the message.
    pub(super) fn as_slice(&self) -> &[u8]
        ensures { result.now ≡ parts_octets self.now.withdrawn self.now.attributes self.now.announced }
    {
        self.octets.as_ref()
    }

    /// Returns the builder.
    pub(super) fn finish(self) -> B
        ensures octets { B.content result ≡ parts_octets self.withdrawn self.attributes self.announced }
        ensures same { result ≡ self.octets }
    {
        self.octets
    }

    /// Returns the number of octets of the withdrawn routes.
    fn withdrawn_len(&self) -> usize
        ensures { result ≡ length self.now.withdrawn }
    {
        self.withdrawn
    }

    /// Returns the number of octets of the attributes.
    pub(super) fn attributes_len(&self) -> usize
        ensures { result ≡ length self.now.attributes }
    {
        self.attributes
    }

    /// Appends octets to the announced prefixes.
    fn append<T: Tail>(&mut self, most: usize, tail: &T) -> Result<(), WriteError>
        requires fit { T.fits tail.now }
        requires now { 23 + length self.old.withdrawn + length self.old.attributes + length self.old.announced ≤ most }
        requires most { most ≤ 65535 }
        ensures puts { PutsParts (least most B.limit) B.asks result self.old.withdrawn self.old.attributes
            (self.old.announced ++ T.octets tail.now) self.old self.new }
        ensures borrows { B.borrows self.new.octets ≡ B.borrows self.old.octets }
    {
        write(&mut self.octets, most, tail)
    }

    /// Writes a slice in place of the `old` octets at `at` after the length of the withdrawn routes, moves what follows
    /// over as many octets at the end, and divides all into parts.
    fn arrange(&mut self, at: usize, old: usize, slice: &[u8], withdrawn: usize, attributes: usize)
        requires { (w a n : List ℕ)
            × Arranges (after_length self.old.withdrawn self.old.attributes self.old.announced) at old slice.now
            withdrawn attributes w a n }
        ensures arranged { (w a n : List ℕ)
            → Arranges (after_length self.old.withdrawn self.old.attributes self.old.announced) at old slice.now
            withdrawn attributes w a n
            → (self.new.withdrawn ≡ w) × (self.new.attributes ≡ a) × (self.new.announced ≡ n) }
        ensures borrows { B.borrows self.new.octets ≡ B.borrows self.old.octets }
    {
        replace_over(&mut self.octets, 21 + at, old, slice);
        put_lengths(&mut self.octets, withdrawn, attributes);
        self.withdrawn = withdrawn;
        self.attributes = attributes;
    }

    /// Appends octets, arranges all, and counts so many more of withdrawn routes and of attributes.
    fn push<T: Tail>(
        &mut self,
        most: usize,
        tail: &T,
        at: usize,
        old: usize,
        slice: &[u8],
        withdrawn: usize,
        attributes: usize,
    ) -> Result<(), WriteError>
        requires fit { T.fits tail.now }
        requires now { 23 + length self.old.withdrawn + length self.old.attributes + length self.old.announced ≤ most }
        requires most { most ≤ 65535 }
        requires arranges { (w a n : List ℕ) × Arranges (after_length self.old.withdrawn self.old.attributes
            (self.old.announced ++ T.octets tail.now)) at old slice.now (length self.old.withdrawn + withdrawn)
            (length self.old.attributes + attributes) w a n }
        ensures puts { (w a n : List ℕ) → Arranges (after_length self.old.withdrawn self.old.attributes
            (self.old.announced ++ T.octets tail.now)) at old slice.now (length self.old.withdrawn + withdrawn)
            (length self.old.attributes + attributes) w a n
            → PutsParts (least most B.limit) B.asks result w a n self.old self.new }
        ensures borrows { B.borrows self.new.octets ≡ B.borrows self.old.octets }
    {
        match self.append(most, tail) {
            Ok(()) => {
                let withdrawn = self.withdrawn_len() + withdrawn;
                let attributes = self.attributes_len() + attributes;
                self.arrange(at, old, slice, withdrawn, attributes);
                Ok(())
            }
            Err(error) => Err(error),
        }
    }

    /// Appends a slice to the withdrawn routes.
    pub(super) fn append_withdrawn(&mut self, most: usize, slice: &[u8]) -> Result<(), WriteError>
        requires now { 23 + length self.old.withdrawn + length self.old.attributes + length self.old.announced ≤ most }
        requires most { most ≤ 65535 }
        ensures puts { PutsParts (least most B.limit) B.asks result
            (self.old.withdrawn ++ slice.now) self.old.attributes
            self.old.announced self.old self.new }
        ensures borrows { B.borrows self.new.octets ≡ B.borrows self.old.octets }
    {
        let at = self.withdrawn_len();
        self.push(most, &Slice(slice), at, 0, slice, slice.len(), 0)
    }

    /// Appends a slice, and other octets, to the attributes.
    pub(super) fn append_attribute<T: Tail>(
        &mut self,
        most: usize,
        head: &[u8],
        tail: &T,
    ) -> Result<(), WriteError>
        requires fit { T.fits tail.now }
        requires few { length (T.octets tail.now) ≤ 65535 }
        requires announced { self.old.announced ≡ [] }
        requires now { 23 + length self.old.withdrawn + length self.old.attributes ≤ most }
        requires most { most ≤ 65535 }
        ensures puts { PutsParts (least most B.limit) B.asks result self.old.withdrawn
            (self.old.attributes ++ (head.now ++ T.octets tail.now)) [] self.old self.new }
        ensures borrows { B.borrows self.new.octets ≡ B.borrows self.old.octets }
    {
        let headed = Headed { head, tail };
        self.push(most, &headed, 0, 0, &[], 0, headed.len())
    }

    /// Writes a slice over the `old` octets of the attributes from `at` on, and appends another to the attributes.
    pub(super) fn grow_attribute(
        &mut self,
        most: usize,
        at: usize,
        old: usize,
        head: &[u8],
        more: &[u8],
    ) -> Result<(), WriteError>
        requires announced { self.old.announced ≡ [] }
        requires head { old ≤ length head.now }
        requires inside { at + old ≤ length self.old.attributes }
        requires now { 23 + length self.old.withdrawn + length self.old.attributes ≤ most }
        requires most { most ≤ 65535 }
        ensures puts { PutsParts (least most B.limit) B.asks result self.old.withdrawn
            (take at self.old.attributes ++ (head.now ++ (drop old (drop at self.old.attributes) ++ more.now))) []
            self.old self.new }
        ensures borrows { B.borrows self.new.octets ≡ B.borrows self.old.octets }
    {
        let from = 2 + self.withdrawn_len() + at;
        let tail = Slices {
            first: more,
            second: &head[old..],
        };
        self.push(most, &tail, from, old, head, 0, tail.len())
    }

    /// Appends octets to the announced prefixes.
    pub(super) fn append_announced<T: Tail>(
        &mut self,
        most: usize,
        tail: &T,
    ) -> Result<(), WriteError>
        requires fit { T.fits tail.now }
        requires now { 23 + length self.old.withdrawn + length self.old.attributes + length self.old.announced ≤ most }
        requires most { most ≤ 65535 }
        ensures puts { PutsParts (least most B.limit) B.asks result self.old.withdrawn self.old.attributes
            (self.old.announced ++ T.octets tail.now) self.old self.new }
        ensures borrows { B.borrows self.new.octets ≡ B.borrows self.old.octets }
    {
        self.append(most, tail)
    }
}
