//! CBOR, DER, MessagePack, PNG, Protobuf and WebAssembly.
use crate::fields::{Fields, Unshown, between, next, value};
use crate::owed::Owed;
use octseq::{AsOctets, Parser};
use octseq_format::{Counted, Format, OneOf3, OneOf4, OneOf5, OneOf6, Rest, U8, Window};
use octseq_formats::{cbor, png, protobuf, wasm};
use std::alloc::Global;

/// The fields of a message of Protobuf.
pub fn protobuf<R: AsOctets + Copy>(fields: &mut Fields, octets: R) -> Result<(), Unshown> {
    let message = value::<protobuf::Message, R>(octets)?;
    fields.begin("fields")?;
    for (key, field) in message {
        fields.item()?;
        fields.decimal(key as u64 / 8)?;
        fields.push(":")?;
        fields.decimal(key as u64 % 8)?;
        fields.push(":")?;
        match field {
            OneOf4::First(number) => fields.decimal(number as u64)?,
            OneOf4::Second(eight) => fields.hex(eight.to_le_bytes().as_slice())?,
            OneOf4::Third(octets) => fields.hex(octets.as_slice())?,
            OneOf4::Fourth(four) => fields.hex(four.to_le_bytes().as_slice())?,
        }
    }
    fields.end()
}

/// The rank of a section of WebAssembly among the others: 12 comes before 10.
fn rank(number: u8) -> u8 {
    match number {
        10 => 11,
        11 => 12,
        12 => 10,
        _ => number,
    }
}

/// A section of WebAssembly, by its octets.
fn section<R: AsOctets + Copy>(fields: &mut Fields, octets: R) -> Result<u8, Unshown> {
    let (number, contents) = value::<(U8, Counted<wasm::Number, Rest, 0>), R>(octets)?;
    fields.item()?;
    fields.decimal(u64::from(number))?;
    fields.push(":")?;
    fields.decimal(contents.len() as u64)?;
    fields.push(":")?;
    match value::<wasm::Section, R>(octets)? {
        OneOf3::First(inside) => fields.decimal(inside.len() as u64)?,
        OneOf3::Second(index) => fields.decimal(index as u64)?,
        OneOf3::Third((_, (count, _))) => fields.decimal(count as u64)?,
    }
    Ok(number)
}

/// The sections of a module of WebAssembly.
pub fn wasm<R: AsOctets + Copy>(fields: &mut Fields, octets: R) -> Result<(), Unshown> {
    let mut parser = Parser::from_ref(octets);
    next::<wasm::Header, R>(&mut parser)?;
    let mut last = 0;
    fields.begin("sections")?;
    for _ in 0..octets.as_ref().len() {
        if parser.remaining() == 0 {
            break;
        }
        let before = parser;
        next::<wasm::Section, R>(&mut parser)?;
        let number = section(fields, between(&before, &parser))?;
        if number != 0 {
            if rank(number) <= last {
                return Err(Unshown::Malformed);
            }
            last = rank(number);
        }
    }
    fields.end()
}

/// The fields of an `IHDR`.
fn image_header<R: AsOctets + Copy>(fields: &mut Fields, octets: R) -> Result<(), Unshown> {
    let ((width, height), (depth, colour, compression), (filter, interlace)) = value::<
        png::ImageHeader,
        R,
    >(octets)?;
    fields.number("width", u64::from(width))?;
    fields.number("height", u64::from(height))?;
    fields.number("depth", u64::from(depth))?;
    fields.number("colour", u64::from(colour))?;
    fields.number("compression", u64::from(compression))?;
    fields.number("filter", u64::from(filter))?;
    fields.number("interlace", u64::from(interlace))
}

/// The type and the length of a chunk.
fn chunk<R: AsOctets + Copy>(
    fields: &mut Fields,
    (kind, data): ([u8; 4], Window<R>),
) -> Result<[u8; 4], Unshown> {
    fields.item()?;
    match str::from_utf8(kind.as_slice()) {
        Ok(text) => fields.push(text)?,
        Err(_) => return Err(Unshown::Malformed),
    }
    fields.push(":")?;
    fields.decimal(data.len() as u64)?;
    Ok(kind)
}

/// The chunks of a file of PNG.
pub fn png<R: AsOctets + Copy>(fields: &mut Fields, octets: R) -> Result<(), Unshown> {
    let all = octets.as_ref();
    image_header(fields, all.get(16..29).ok_or(Unshown::Malformed)?)?;
    let mut parser = Parser::from_ref(octets);
    next::<png::Signature, R>(&mut parser)?;
    let mut last = *b"IHDR";
    fields.begin("chunks")?;
    for taken in 0..all.len() {
        if parser.remaining() == 0 {
            break;
        }
        let read = next::<png::Chunk, R>(&mut parser)?;
        let kind = chunk(fields, read)?;
        // IHDR comes first, and nothing after IEND.
        if (kind == *b"IHDR") != (taken == 0) || last == *b"IEND" {
            return Err(Unshown::Malformed);
        }
        last = kind;
    }
    if last != *b"IEND" {
        return Err(Unshown::Malformed);
    }
    fields.end()
}

/// A head of CBOR: its major type, and its argument.
fn head(fields: &mut Fields, owed: &mut Owed, major: u64, argument: u64) -> Result<(), Unshown> {
    fields.decimal(major)?;
    fields.push(":")?;
    fields.decimal(argument)?;
    match major {
        4 => owed.owe(argument),
        5 => owed.owe(argument.checked_mul(2).ok_or(Unshown::Malformed)?),
        6 => owed.owe(1),
        _ => Ok(()),
    }
}

/// A string of CBOR, or `*` for one without a length.
fn string<R: AsOctets + Copy>(
    fields: &mut Fields,
    owed: &mut Owed,
    major: u64,
    octets: Option<Window<R>>,
) -> Result<(), Unshown> {
    fields.decimal(major)?;
    fields.push(":")?;
    match octets {
        Some(octets) => fields.hex(octets.as_slice()),
        None => {
            fields.push("*")?;
            owed.open()
        }
    }
}

/// A float of CBOR.
fn float(fields: &mut Fields, name: &str, octets: &[u8]) -> Result<(), Unshown> {
    fields.push(name)?;
    fields.hex(octets)
}

/// An item of CBOR.
fn cbor_item<R: AsOctets + Copy>(
    fields: &mut Fields,
    owed: &mut Owed,
    item: <cbor::Item as Format<R>>::Value,
) -> Result<(), Unshown> {
    let (first, inside) = item;
    let major = first as u64 / 32;
    match inside {
        OneOf4::First(simple) => head(fields, owed, 7, simple as u64),
        OneOf4::Second(OneOf6::Sixth(_)) => string::<R>(fields, owed, major, None),
        OneOf4::Second(
            OneOf6::First(octets)
            | OneOf6::Second(octets)
            | OneOf6::Third(octets)
            | OneOf6::Fourth(octets)
            | OneOf6::Fifth(octets),
        ) => string(fields, owed, major, Some(octets)),
        OneOf4::Third(_) if first == 0xFF => {
            fields.push("break")?;
            owed.close()
        }
        OneOf4::Third(_) => {
            fields.decimal(major)?;
            fields.push(":*")?;
            owed.open()
        }
        OneOf4::Fourth(OneOf5::First(_)) => head(fields, owed, major, first as u64 % 32),
        OneOf4::Fourth(OneOf5::Second(number)) => head(fields, owed, major, u64::from(number)),
        OneOf4::Fourth(OneOf5::Third(number)) if major == 7 => {
            float(fields, "f16:", number.to_be_bytes().as_slice())
        }
        OneOf4::Fourth(OneOf5::Third(number)) => head(fields, owed, major, u64::from(number)),
        OneOf4::Fourth(OneOf5::Fourth(number)) if major == 7 => {
            float(fields, "f32:", number.to_be_bytes().as_slice())
        }
        OneOf4::Fourth(OneOf5::Fourth(number)) => head(fields, owed, major, u64::from(number)),
        OneOf4::Fourth(OneOf5::Fifth(number)) if major == 7 => {
            float(fields, "f64:", number.to_be_bytes().as_slice())
        }
        OneOf4::Fourth(OneOf5::Fifth(number)) => head(fields, owed, major, number),
    }
}

/// The items of CBOR.
pub fn cbor<R: AsOctets + Copy>(
    alloc: Global,
    fields: &mut Fields,
    octets: R,
) -> Result<(), Unshown> {
    let mut parser = Parser::from_ref(octets);
    let mut owed = Owed::new(alloc)?;
    fields.begin("items")?;
    for _ in 0..octets.as_ref().len() {
        if parser.remaining() == 0 {
            break;
        }
        let item = next::<cbor::Item, R>(&mut parser)?;
        fields.item()?;
        if item.0 != 0xFF {
            owed.pay()?;
        }
        cbor_item::<R>(fields, &mut owed, item)?;
    }
    owed.finish()?;
    fields.end()
}
