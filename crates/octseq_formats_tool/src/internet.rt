//! IPv4, IPv6 and TCP.
use crate::fields::{Fields, Unshown, between, next, value};
use octseq::{AsOctets, Parser, Turns};
use octseq_format::{Family, OneOf3, Window};
use octseq_formats::{ipv4, ipv6, tcp};

/// The options of IPv4 and TCP. After the option 0 is padding.
fn options<R: AsOctets + Copy>(fields: &mut Fields, options: Window<R>) -> Result<(), Unshown> {
    let mut parser = options.parser();
    fields.begin("options")?;
    for _ in 0..options.len() {
        if parser.remaining() == 0 {
            break;
        }
        let before = parser;
        let option = next::<ipv4::HeaderOption, R>(&mut parser)?;
        fields.item()?;
        fields.hex(between(&before, &parser))?;
        if let OneOf3::First(_) = option {
            break;
        }
    }
    fields.end()
}

/// A datagram of IPv4.
pub fn ipv4<R: AsOctets + Copy>(fields: &mut Fields, octets: R) -> Result<(), Unshown> {
    let ((first, (_, inside)), payload) = value::<ipv4::Datagram, R>(octets)?;
    let ((_, total, id), (bits, ttl, protocol, _), (source, destination)) = first;
    if usize::from(total) != octets.as_ref().len() {
        return Err(Unshown::Malformed);
    }
    fields.number("ihl", 5 + inside.len() as u64 / 4)?;
    fields.number("total_length", u64::from(total))?;
    fields.number("id", u64::from(id))?;
    fields.number("flags", u64::from(bits / 8192))?;
    fields.number("offset", u64::from(bits % 8192))?;
    fields.number("ttl", u64::from(ttl))?;
    fields.number("protocol", u64::from(protocol))?;
    fields.octets("src", source.as_slice())?;
    fields.octets("dst", destination.as_slice())?;
    options(fields, inside)?;
    fields.octets("payload", payload.as_slice())
}

/// A segment of TCP.
pub fn tcp<R: AsOctets + Copy>(fields: &mut Fields, octets: R) -> Result<(), Unshown> {
    let (first, second, payload) = value::<tcp::Segment, R>(octets)?;
    let (source, destination, sequence, acknowledged) = first;
    let ((window, _, urgent), (inside, (flags, _))) = second;
    fields.number("src_port", u64::from(source))?;
    fields.number("dst_port", u64::from(destination))?;
    fields.number("seq", u64::from(sequence))?;
    fields.number("ack", u64::from(acknowledged))?;
    fields.number("data_offset", 5 + inside.len() as u64 / 4)?;
    fields.number("flags", flags as u64)?;
    fields.number("window", u64::from(window))?;
    fields.number("urgent", u64::from(urgent))?;
    options(fields, inside)?;
    fields.octets("payload", payload.as_slice())
}

/// The options of a header of IPv6.
fn header_options<R: AsOctets + Copy>(
    fields: &mut Fields,
    options: Window<R>,
) -> Result<(), Unshown> {
    let mut parser = options.parser();
    for _ in 0..options.len() {
        if parser.remaining() == 0 {
            break;
        }
        let before = parser;
        next::<ipv6::HeaderOption, R>(&mut parser)?;
        fields.item()?;
        fields.hex(between(&before, &parser))?;
    }
    Ok(())
}

/// What follows an extension header.
#[derive(Clone, Copy)]
enum After<R: AsOctets + Copy> {
    /// A header of this number, and options before it.
    Header(u8, Option<Window<R>>),
    /// The rest, which has this number.
    End(u8),
}

/// Reads an extension header.
fn extension<R: AsOctets + Copy>(parser: &mut Parser<R>, number: u8) -> Result<After<R>, Unshown> {
    let mut turns = Turns::new();
    let read = <ipv6::Extension as Family<R>>::parse_by(usize::from(number), parser, &mut turns)?;
    Ok(match read {
        OneOf3::First(((next, _), inside)) => {
            After::Header(next, if number == 43 { None } else { Some(inside) })
        }
        OneOf3::Second((next, _, bits, _)) if bits & 0xFFF9 == 0 => After::Header(next, None),
        OneOf3::Second((next, _, _, _)) => After::End(next),
        OneOf3::Third(((next, _), _)) => After::Header(next, None),
    })
}

/// The chain of extension headers, and the number of what follows it.
fn chain<R: AsOctets + Copy>(
    fields: &mut Fields,
    parser: &mut Parser<R>,
    first: u8,
) -> Result<u8, Unshown> {
    let mut number = first;
    fields.begin("ext")?;
    for _ in 0..parser.remaining() {
        if !<ipv6::Extension as Family<R>>::has_format(usize::from(number)) {
            break;
        }
        let before = *parser;
        let after = extension(parser, number)?;
        fields.item()?;
        fields.decimal(u64::from(number))?;
        fields.push(":")?;
        fields.hex(between(&before, parser))?;
        match after {
            After::Header(next, _) => number = next,
            After::End(next) => {
                number = next;
                break;
            }
        }
    }
    fields.end()?;
    Ok(number)
}

/// The options in the headers of a chain.
fn chain_options<R: AsOctets + Copy>(
    fields: &mut Fields,
    headers: Window<R>,
    first: u8,
) -> Result<(), Unshown> {
    let mut parser = headers.parser();
    let mut number = first;
    fields.begin("options")?;
    for _ in 0..headers.len() {
        if !<ipv6::Extension as Family<R>>::has_format(usize::from(number)) {
            break;
        }
        match extension(&mut parser, number)? {
            After::Header(next, inside) => {
                if let Some(inside) = inside {
                    header_options(fields, inside)?;
                }
                number = next;
            }
            After::End(_) => break,
        }
    }
    fields.end()
}

/// A packet of IPv6.
pub fn ipv6<R: AsOctets + Copy>(fields: &mut Fields, octets: R) -> Result<(), Unshown> {
    let ((_, len, number, hops), (source, destination, headers)) = value::<ipv6::Packet, R>(
        octets,
    )?;
    if usize::from(len) != headers.len() {
        return Err(Unshown::Malformed);
    }
    fields.number("payload_length", u64::from(len))?;
    fields.number("next_header", u64::from(number))?;
    fields.number("hop_limit", u64::from(hops))?;
    fields.octets("src", source.as_slice())?;
    fields.octets("dst", destination.as_slice())?;
    let mut payload = headers.parser();
    let upper = chain(fields, &mut payload, number)?;
    chain_options(fields, headers, number)?;
    fields.number("upper", u64::from(upper))?;
    fields.octets("payload", payload.peek_all())
}
