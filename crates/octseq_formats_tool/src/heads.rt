//! MessagePack and DER.
use crate::fields::{Fields, Unshown, between, next};
use crate::owed::Owed;
use octseq::{AsOctets, Malformed, Parser};
use octseq_format::{Format, OneOf2, OneOf3, OneOf4, OneOf5, OneOf7};
use octseq_formats::{der, msgpack};
use std::alloc::Global;
use std::num::{f32_from_bits_with_nan, f64_to_bits_with_nan};

/// A value with its type's name before it.
fn named(fields: &mut Fields, name: &str, number: u64) -> Result<(), Unshown> {
    fields.push(name)?;
    fields.decimal(number)
}

/// A number below zero or not.
fn signed(fields: &mut Fields, number: i64) -> Result<(), Unshown> {
    if number < 0 {
        return named(fields, "int:-", number.unsigned_abs());
    }
    named(fields, "int:", number.unsigned_abs())
}

/// Octets with their type's name before them.
fn octets(fields: &mut Fields, name: &str, octets: &[u8]) -> Result<(), Unshown> {
    fields.push(name)?;
    fields.hex(octets)
}

/// An extension.
fn extension(fields: &mut Fields, kind: i8, inside: &[u8]) -> Result<(), Unshown> {
    fields.push("ext:")?;
    if kind < 0 {
        fields.push("-")?;
    }
    fields.decimal(u64::from(kind.unsigned_abs()))?;
    fields.push(":")?;
    fields.hex(inside)
}

/// An array.
fn array(fields: &mut Fields, owed: &mut Owed, items: u64) -> Result<(), Unshown> {
    named(fields, "array:", items)?;
    owed.owe(items)
}

/// A map.
fn map(fields: &mut Fields, owed: &mut Owed, pairs: u64) -> Result<(), Unshown> {
    named(fields, "map:", pairs)?;
    owed.owe(pairs.saturating_mul(2))
}

/// An item that is its first octet.
fn alone(fields: &mut Fields, owed: &mut Owed, first: u8) -> Result<(), Unshown> {
    match first {
        0..=0x7F => named(fields, "int:", u64::from(first)),
        0x80..=0x8F => map(fields, owed, u64::from(first % 16)),
        0x90..=0x9F => array(fields, owed, u64::from(first % 16)),
        0xC0 => fields.push("nil"),
        0xC2 => fields.push("false"),
        0xC3 => fields.push("true"),
        _ => named(fields, "int:-", 256 - u64::from(first)),
    }
}

/// The bits of a float of 32 bits, as one of 64. Every NaN has the same.
fn double(bits: u32) -> u64 {
    f64_to_bits_with_nan(f64::from(f32_from_bits_with_nan(bits)))
}

/// An item of MessagePack.
fn msgpack_item<R: AsOctets + Copy>(
    fields: &mut Fields,
    owed: &mut Owed,
    item: <msgpack::Item as Format<R>>::Value,
) -> Result<(), Unshown> {
    let (first, inside) = item;
    match inside {
        OneOf5::First(_) => alone(fields, owed, (first % 256) as u8),
        OneOf5::Second(text) => octets(fields, "str:", text.as_slice()),
        OneOf5::Third(lengthy) => match lengthy {
            OneOf7::First(inside) | OneOf7::Second(inside) | OneOf7::Third(inside) => {
                octets(fields, "bin:", inside.as_slice())
            }
            OneOf7::Fourth(
                OneOf3::First(((_, kind), inside))
                | OneOf3::Second(((_, kind), inside))
                | OneOf3::Third(((_, kind), inside)),
            ) => extension(fields, kind, inside.as_slice()),
            OneOf7::Fifth(text) | OneOf7::Sixth(text) | OneOf7::Seventh(text) => {
                octets(fields, "str:", text.as_slice())
            }
        },
        OneOf5::Fourth(fixed) => match fixed {
            OneOf4::First(OneOf2::First(bits)) => {
                octets(fields, "float:", double(bits).to_be_bytes().as_slice())
            }
            OneOf4::First(OneOf2::Second(bits)) => {
                octets(fields, "float:", bits.to_be_bytes().as_slice())
            }
            OneOf4::Second(OneOf4::First(number)) => named(fields, "int:", u64::from(number)),
            OneOf4::Second(OneOf4::Second(number)) => named(fields, "int:", u64::from(number)),
            OneOf4::Second(OneOf4::Third(number)) => named(fields, "int:", u64::from(number)),
            OneOf4::Second(OneOf4::Fourth(number)) => named(fields, "int:", number),
            OneOf4::Third(OneOf4::First(number)) => signed(
                fields,
                i64::from(i8::from_be_bytes(number.to_be_bytes())),
            ),
            OneOf4::Third(OneOf4::Second(number)) => signed(
                fields,
                i64::from(i16::from_be_bytes(number.to_be_bytes())),
            ),
            OneOf4::Third(OneOf4::Third(number)) => signed(
                fields,
                i64::from(i32::from_be_bytes(number.to_be_bytes())),
            ),
            OneOf4::Third(OneOf4::Fourth(number)) => signed(
                fields,
                i64::from_be_bytes(number.to_be_bytes()),
            ),
            OneOf4::Fourth(OneOf4::First(items)) => array(fields, owed, u64::from(items)),
            OneOf4::Fourth(OneOf4::Second(items)) => array(fields, owed, u64::from(items)),
            OneOf4::Fourth(OneOf4::Third(pairs)) => map(fields, owed, u64::from(pairs)),
            OneOf4::Fourth(OneOf4::Fourth(pairs)) => map(fields, owed, u64::from(pairs)),
        },
        OneOf5::Fifth(short) => match short {
            OneOf5::First(pair) => {
                let inside = pair.1;
                extension(fields, pair.0, inside.as_slice())
            }
            OneOf5::Second(pair) => {
                let inside = pair.1;
                extension(fields, pair.0, inside.as_slice())
            }
            OneOf5::Third(pair) => {
                let inside = pair.1;
                extension(fields, pair.0, inside.as_slice())
            }
            OneOf5::Fourth(pair) => {
                let inside = pair.1;
                extension(fields, pair.0, inside.as_slice())
            }
            OneOf5::Fifth(pair) => {
                let inside = pair.1;
                extension(fields, pair.0, inside.as_slice())
            }
        },
    }
}

/// The items of MessagePack.
pub fn msgpack<R: AsOctets + Copy>(
    alloc: Global,
    fields: &mut Fields,
    octets: R,
) -> Result<(), Unshown> {
    let mut parser = Parser::from_ref(octets);
    let mut owed = Owed::new(alloc)?;
    fields.begin("items")?;
    for _ in 0..octets.as_ref().len() {
        if parser.remaining() == 0 {
            break;
        }
        let item = next::<msgpack::Item, R>(&mut parser)?;
        fields.item()?;
        owed.pay()?;
        msgpack_item::<R>(fields, &mut owed, item)?;
    }
    owed.finish()?;
    fields.end()
}

/// A node of DER: its depth, its class, whether it has nodes, its tag number, the octets of its head, and its length.
fn node(fields: &mut Fields, depth: usize, tag: Tag, head: usize) -> Result<(), Unshown> {
    fields.item()?;
    fields.decimal(depth as u64)?;
    fields.push(match tag.first / 64 {
        0 => ":u",
        1 => ":a",
        2 => ":c",
        _ => ":p",
    })?;
    fields.push(if tag.first / 32 % 2 == 1 { "c" } else { "p" })?;
    fields.decimal(tag.number as u64)?;
    fields.push(":")?;
    fields.decimal(head as u64)?;
    fields.push(":")?;
    fields.decimal(tag.len as u64)
}

/// Ends the levels that end here.
fn settle(ends: &mut Vec<usize>, here: usize) {
    for _ in 0..ends.len() {
        if ends.last() != Some(&here) {
            break;
        }
        ends.pop();
    }
}

/// What a head of DER says.
#[derive(Clone, Copy)]
struct Tag {
    first: usize,
    number: usize,
    len: usize,
    // how many octets were read after the head
    taken: usize,
}

/// Reads a head, with the octets of a value that has no nodes.
fn read_tag<R: AsOctets + Copy>(parser: &mut Parser<R>) -> Result<Tag, Malformed> {
    let (first, inside) = next::<der::Head, R>(parser)?;
    let (number, len, taken) = match inside {
        OneOf2::First(OneOf2::First(len)) => (first % 32, len, 0),
        OneOf2::First(OneOf2::Second(octets)) => { (first % 32, octets.len(), octets.len()) }
        OneOf2::Second(OneOf2::First((number, len))) => (number, len, 0),
        OneOf2::Second(OneOf2::Second((number, octets))) => { (number, octets.len(), octets.len()) }
    };
    Ok(Tag {
        first,
        number,
        len,
        taken,
    })
}

/// Checks that a value ends within the one around it, and begins the level of its nodes. `left` octets follow it, or
/// its head if it has nodes.
fn enter(ends: &mut Vec<usize>, tag: Tag, left: usize) -> Result<(), Unshown> {
    let mut end = left;
    if tag.first / 32 % 2 == 1 {
        end = left.checked_sub(tag.len).ok_or(Unshown::Malformed)?;
    }
    if ends.last().is_some_and(|outer| end < *outer) {
        return Err(Unshown::Malformed);
    }
    if tag.first / 32 % 2 == 1 {
        ends.push(end).map_err(|_| Unshown::Memory)?;
    }
    settle(ends, left);
    Ok(())
}

/// The nodes of a value of DER.
pub fn der<R: AsOctets + Copy>(
    alloc: Global,
    fields: &mut Fields,
    octets: R,
) -> Result<(), Unshown> {
    // how many octets follow each level that isn't at its end
    let mut ends = Vec::new(alloc);
    ends.push(0).map_err(|_| Unshown::Memory)?;
    let mut parser = Parser::from_ref(octets);
    fields.begin("nodes")?;
    for _ in 0..octets.as_ref().len() {
        if ends.is_empty() {
            break;
        }
        let before = parser;
        let tag = read_tag(&mut parser)?;
        let taken = between(&before, &parser).len();
        let depth = ends.len().saturating_sub(1);
        node(fields, depth, tag, taken.saturating_sub(tag.taken))?;
        enter(&mut ends, tag, parser.remaining())?;
    }
    if parser.remaining() > 0 || !ends.is_empty() {
        return Err(Unshown::Malformed);
    }
    fields.end()
}
