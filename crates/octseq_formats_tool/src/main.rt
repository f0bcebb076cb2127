//! Shows packets of formats of standards: for each line of standard input, which is a packet in hexadecimal, a line
//! with its fields as JSON has them, or `malformed`. The first argument names the format; with `named`, each line does,
//! before a space and the packet.
#![tactic(auto)]

use crate::fields::{Fields, Unshown};
use octseq::AsOctets;
use std::alloc::{AllocError, Global};
use std::io::{self, Read, Write};
use std::process::ExitCode;

mod bitcoin;
mod data;
mod fields;
mod heads;
mod internet;
mod owed;
mod sessions;

/// What the program says where the argument names no format.
const USAGE: &str = "\
usage: ./formats FORMAT < PACKETS

It reads a packet in hexadecimal a line, and writes a line with its fields as JSON has them, or malformed. With named in
place of a format, each line names its format, before a space and the packet. The formats:
  bitcoin-message bitcoin-tx cbor der dhcp ipv4 ipv6 mqtt mqtt5 msgpack png protobuf quic-long quic-varint
  socks5-methods socks5-reply socks5-request tcp wasm websocket

status: 0 all went well, 2 the argument names no format, 3 there was not enough memory, 4 a read or a write failed
";

/// A format that the program shows.
#[derive(Clone, Copy, Debug, PartialEq, Eq)]
enum Shown {
    BitcoinMessage,
    BitcoinTransaction,
    Cbor,
    Der,
    Dhcp,
    Ipv4,
    Ipv6,
    Mqtt,
    Mqtt5,
    MessagePack,
    Png,
    Protobuf,
    QuicLong,
    QuicVarint,
    SocksMethods,
    SocksReply,
    SocksRequest,
    Tcp,
    Wasm,
    WebSocket,
}

impl Shown {
    /// Returns the format of a name.
    fn named(name: &str) -> Option<Shown> {
        Some(match name {
            "bitcoin-message" => Shown::BitcoinMessage,
            "bitcoin-tx" => Shown::BitcoinTransaction,
            "cbor" => Shown::Cbor,
            "der" => Shown::Der,
            "dhcp" => Shown::Dhcp,
            "ipv4" => Shown::Ipv4,
            "ipv6" => Shown::Ipv6,
            "mqtt" => Shown::Mqtt,
            "mqtt5" => Shown::Mqtt5,
            "msgpack" => Shown::MessagePack,
            "png" => Shown::Png,
            "protobuf" => Shown::Protobuf,
            "quic-long" => Shown::QuicLong,
            "quic-varint" => Shown::QuicVarint,
            "socks5-methods" => Shown::SocksMethods,
            "socks5-reply" => Shown::SocksReply,
            "socks5-request" => Shown::SocksRequest,
            "tcp" => Shown::Tcp,
            "wasm" => Shown::Wasm,
            "websocket" => Shown::WebSocket,
            _ => return None,
        })
    }

    /// Appends the fields of a packet.
    fn fields<R: AsOctets + Copy>(
        self,
        alloc: Global,
        fields: &mut Fields,
        octets: R,
    ) -> Result<(), Unshown> {
        match self {
            Shown::BitcoinMessage => bitcoin::message(fields, octets),
            Shown::BitcoinTransaction => bitcoin::transaction(fields, octets),
            Shown::Cbor => data::cbor(alloc, fields, octets),
            Shown::Der => heads::der(alloc, fields, octets),
            Shown::Dhcp => sessions::dhcp(fields, octets),
            Shown::Ipv4 => internet::ipv4(fields, octets),
            Shown::Ipv6 => internet::ipv6(fields, octets),
            Shown::Mqtt => sessions::mqtt(fields, octets),
            Shown::Mqtt5 => sessions::mqtt5(fields, octets),
            Shown::MessagePack => heads::msgpack(alloc, fields, octets),
            Shown::Png => data::png(fields, octets),
            Shown::Protobuf => data::protobuf(fields, octets),
            Shown::QuicLong => sessions::quic_long(fields, octets),
            Shown::QuicVarint => sessions::quic_varint(fields, octets),
            Shown::SocksMethods => sessions::socks5_methods(fields, octets),
            Shown::SocksReply => sessions::socks5_reply(fields, octets),
            Shown::SocksRequest => sessions::socks5_request(fields, octets),
            Shown::Tcp => internet::tcp(fields, octets),
            Shown::Wasm => data::wasm(fields, octets),
            Shown::WebSocket => sessions::websocket(fields, octets),
        }
    }
}

/// The number that a digit of hexadecimal stands for.
fn number(digit: u8) -> Option<u8> {
    match digit {
        b'0'..=b'9' => Some(digit - b'0'),
        b'a'..=b'f' => Some(digit - b'a' + 10),
        b'A'..=b'F' => Some(digit - b'A' + 10),
        _ => None,
    }
}

/// The octets of a line, or `None` if it isn't hexadecimal.
fn octets(alloc: Global, line: &[u8]) -> Result<Option<Vec<u8>>, AllocError> {
    let mut octets = Vec::new(alloc);
    let mut rest = line;
    for _ in line {
        match rest {
            [] => break,
            [upper, lower, others @ ..] => {
                let (Some(upper), Some(lower)) = (number(*upper), number(*lower)) else {
                    return Ok(None);
                };
                octets.push(upper << 4 | lower)?;
                rest = others;
            }
            [_] => return Ok(None),
        }
    }
    Ok(Some(octets))
}

/// The format that a line names, and its packet.
fn named_packet(line: &[u8]) -> Option<(Shown, &[u8])> {
    let mut parts = line.splitn(2, |octet| *octet == b' ');
    let name = str::from_utf8(parts.next()?).ok()?;
    Some((Shown::named(name)?, parts.next()?))
}

/// Writes the line of a packet, whose format is known or named.
fn show<W: Write>(
    alloc: Global,
    writer: &mut W,
    known: Option<Shown>,
    line: &[u8],
) -> Result<(), ExitCode> {
    let memory = ExitCode::from(3);
    let packet = match known {
        Some(shown) => Some((shown, line)),
        None => named_packet(line),
    };
    let Some((shown, digits)) = packet else {
        return written(writer, b"malformed\n");
    };
    let made = match octets(alloc, digits).map_err(|_| memory)? {
        Some(octets) => text(alloc, shown, octets.as_slice()),
        None => Err(Unshown::Malformed),
    };
    match made {
        Ok(fields) => match fields.finish() {
            Ok(text) => written(writer, text.as_slice()),
            Err(_) => Err(memory),
        },
        Err(Unshown::Malformed) => written(writer, b"malformed\n"),
        Err(Unshown::Memory) => Err(memory),
    }
}

/// The fields of a packet.
fn text(alloc: Global, shown: Shown, octets: &[u8]) -> Result<Fields, Unshown> {
    let mut fields = Fields::new(alloc)?;
    shown.fields(alloc, &mut fields, octets)?;
    Ok(fields)
}

/// Writes octets.
fn written<W: Write>(writer: &mut W, octets: &[u8]) -> Result<(), ExitCode> {
    writer.write_all(octets).map_err(|_| ExitCode::from(4))
}

/// Writes the line of each packet of a text.
fn show_all<W: Write>(
    alloc: Global,
    writer: &mut W,
    known: Option<Shown>,
    text: &[u8],
) -> Result<(), ExitCode> {
    let mut rest = text;
    for _ in text {
        let mut parts = rest.splitn(2, |octet| *octet == b'\n');
        let Some(line) = parts.next() else {
            break;
        };
        let after = parts.next();
        if !line.is_empty() {
            show(alloc, writer, known, line)?;
        }
        match after {
            Some(after) => rest = after,
            None => break,
        }
    }
    Ok(())
}

fn main(rt: HostRuntime) -> ExitCode {
    let Ok(arguments) = octseq_cli::arguments(&rt) else {
        return ExitCode::from(3);
    };
    let word = match arguments.get(1) {
        Some(word) => word.as_str(),
        None => "",
    };
    let known = Shown::named(word);
    if known.is_none() && word != "named" {
        return match rt.eprint(USAGE) {
            Ok(()) => ExitCode::from(2),
            Err(_) => ExitCode::from(4),
        };
    }
    let mut text = Vec::new(rt.alloc());
    if rt.reader().read_to_end(&mut text).is_err() {
        return ExitCode::from(4);
    }
    match show_all(rt.alloc(), &mut io::writer(&rt), known, text.as_slice()) {
        Ok(()) => ExitCode::from(0),
        Err(code) => code,
    }
}
