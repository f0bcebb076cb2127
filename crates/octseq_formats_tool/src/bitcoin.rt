//! Bitcoin.
use crate::fields::{Fields, Unshown, next, value};
use octseq::{AsOctets, Parser};
use octseq_format::{CompactSize, Counted, OneOf2, Rest, U32Le};
use octseq_formats::bitcoin;

/// The inputs of a transaction.
fn inputs<R: AsOctets + Copy>(
    fields: &mut Fields,
    parser: &mut Parser<R>,
    count: usize,
) -> Result<(), Unshown> {
    fields.begin("inputs")?;
    for _ in 0..count {
        let (hash, index, script, sequence) = next::<bitcoin::Input, R>(parser)?;
        fields.item()?;
        fields.hex(hash.as_slice())?;
        fields.push(":")?;
        fields.decimal(u64::from(index))?;
        fields.push(":")?;
        fields.hex(script.as_slice())?;
        fields.push(":")?;
        fields.decimal(u64::from(sequence))?;
    }
    fields.end()
}

/// The outputs of a transaction.
fn outputs<R: AsOctets + Copy>(fields: &mut Fields, parser: &mut Parser<R>) -> Result<(), Unshown> {
    let count = next::<bitcoin::Count, R>(parser)?;
    fields.begin("outputs")?;
    for _ in 0..count {
        let (value, script) = next::<bitcoin::Output, R>(parser)?;
        fields.item()?;
        fields.decimal(value)?;
        fields.push(":")?;
        fields.hex(script.as_slice())?;
    }
    fields.end()
}

/// The items of a witness. Returns how many there are.
fn witness<R: AsOctets + Copy>(
    fields: &mut Fields,
    parser: &mut Parser<R>,
) -> Result<usize, Unshown> {
    let count = next::<bitcoin::Count, R>(parser)?;
    fields.item()?;
    for taken in 0..count {
        if taken > 0 {
            fields.push("+")?;
        }
        let item = next::<Counted<CompactSize, Rest, 0>, R>(parser)?;
        fields.hex(item.as_slice())?;
    }
    if count == 0 {
        fields.push("-")?;
    }
    Ok(count)
}

/// The witnesses of a transaction. At least one has to have an item.
fn witnesses<R: AsOctets + Copy>(
    fields: &mut Fields,
    parser: &mut Parser<R>,
    count: usize,
) -> Result<(), Unshown> {
    let mut some = false;
    fields.begin("witness")?;
    for _ in 0..count {
        if witness(fields, parser)? > 0 {
            some = true;
        }
    }
    if !some {
        return Err(Unshown::Malformed);
    }
    fields.end()
}

/// A transaction.
pub fn transaction<R: AsOctets + Copy>(fields: &mut Fields, octets: R) -> Result<(), Unshown> {
    value::<bitcoin::Transaction, R>(octets)?;
    let mut parser = Parser::from_ref(octets);
    let (version, mut count) = next::<(U32Le, bitcoin::Count), R>(&mut parser)?;
    let witnessed = count == 0;
    fields.number("version", u64::from(version))?;
    fields.number("segwit", if witnessed { 1 } else { 0 })?;
    if witnessed {
        count = next::<bitcoin::WitnessedCount, R>(&mut parser)?.1;
    }
    inputs(fields, &mut parser, count)?;
    outputs(fields, &mut parser)?;
    if witnessed {
        witnesses(fields, &mut parser, count)?;
    }
    fields.number("lock_time", u64::from(next::<U32Le, R>(&mut parser)?))
}

/// A command: its octets up to the first zero.
fn command(fields: &mut Fields, octets: &[u8]) -> Result<(), Unshown> {
    let mut len = 0_usize;
    for octet in octets {
        if *octet == 0 {
            break;
        }
        len = len.saturating_add(1);
    }
    let Ok(text) = str::from_utf8(octets.get(..len).ok_or(Unshown::Malformed)?) else {
        return Err(Unshown::Malformed);
    };
    fields.begin("command")?;
    fields.item()?;
    fields.push(text)?;
    fields.end()
}

/// A message.
pub fn message<R: AsOctets + Copy>(fields: &mut Fields, octets: R) -> Result<(), Unshown> {
    let ((magic, _, _, len, checksum), payload) = value::<bitcoin::Message, R>(octets)?;
    fields.octets("magic", magic.to_be_bytes().as_slice())?;
    command(
        fields,
        octets.as_ref().get(4..16).ok_or(Unshown::Malformed)?,
    )?;
    fields.number("length", len as u64)?;
    fields.octets("checksum", checksum.to_be_bytes().as_slice())?;
    match payload {
        OneOf2::First(items) => {
            fields.begin("items")?;
            for (kind, hash) in items {
                fields.item()?;
                fields.decimal(u64::from(kind))?;
                fields.push(":")?;
                fields.hex(hash.as_slice())?;
            }
            fields.end()
        }
        OneOf2::Second(rest) => fields.octets("payload", rest.as_slice()),
    }
}
