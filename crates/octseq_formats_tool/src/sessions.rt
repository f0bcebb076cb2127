//! DHCP, MQTT, QUIC, SOCKS and WebSocket.
use crate::fields::{Fields, Unshown, value};
use octseq::AsOctets;
use octseq_format::{
    Itself, Key, OneOf2, OneOf3, OneOf4, OneOf5, OneOf6, QuicInteger, Rest, Window,
};
use octseq_formats::{dhcp, mqtt, mqtt5, quic, socks5, websocket};

/// What a client of SOCKS 5 offers.
pub fn socks5_methods<R: AsOctets + Copy>(fields: &mut Fields, octets: R) -> Result<(), Unshown> {
    let (_, methods) = value::<socks5::Methods, R>(octets)?;
    fields.octets("methods", methods.as_slice())
}

/// A request of SOCKS 5.
pub fn socks5_request<R: AsOctets + Copy>(fields: &mut Fields, octets: R) -> Result<(), Unshown> {
    let (_, command, _, address, port) = value::<socks5::Request, R>(octets)?;
    fields.number("command", u64::from(command))?;
    socks5_address(fields, address, port)
}

/// A reply of SOCKS 5.
pub fn socks5_reply<R: AsOctets + Copy>(fields: &mut Fields, octets: R) -> Result<(), Unshown> {
    let (_, reply, _, address, port) = value::<socks5::Reply, R>(octets)?;
    fields.number("reply", u64::from(reply))?;
    socks5_address(fields, address, port)
}

/// An address and a port.
fn socks5_address<R: AsOctets + Copy>(
    fields: &mut Fields,
    address: OneOf3<[u8; 4], Window<R>, [u8; 16]>,
    port: u16,
) -> Result<(), Unshown> {
    match address {
        OneOf3::First(four) => {
            fields.number("address_type", 1)?;
            fields.octets("address", four.as_slice())?;
        }
        OneOf3::Second(name) => {
            fields.number("address_type", 3)?;
            fields.octets("address", name.as_slice())?;
        }
        OneOf3::Third(sixteen) => {
            fields.number("address_type", 4)?;
            fields.octets("address", sixteen.as_slice())?;
        }
    }
    fields.number("port", u64::from(port))
}

/// A frame of WebSocket.
pub fn websocket<R: AsOctets + Copy>(fields: &mut Fields, octets: R) -> Result<(), Unshown> {
    let (head, payload) = value::<websocket::Frame, R>(octets)?;
    match payload {
        OneOf6::First(octets) => plain(fields, head, 7, octets.as_slice()),
        OneOf6::Second(pair) => {
            let key = pair.0;
            masked(fields, head, 7, key.as_slice(), pair.1.as_slice())
        }
        OneOf6::Third(octets) => plain(fields, head, 16, octets.as_slice()),
        OneOf6::Fourth(octets) => plain(fields, head, 64, octets.as_slice()),
        OneOf6::Fifth(pair) => {
            let key = pair.0.1;
            masked(fields, head, 16, key.as_slice(), pair.1.as_slice())
        }
        OneOf6::Sixth(pair) => {
            let key = pair.0.1;
            masked(fields, head, 64, key.as_slice(), pair.1.as_slice())
        }
    }
}

/// The head of a frame.
fn frame(
    fields: &mut Fields,
    (first, second): (usize, usize),
    bits: u64,
    len: usize,
) -> Result<(), Unshown> {
    fields.number("fin", first as u64 / 128)?;
    fields.number("rsv", first as u64 / 16 % 8)?;
    fields.number("opcode", first as u64 % 16)?;
    fields.number("mask", second as u64 / 128)?;
    fields.number("length_bits", bits)?;
    fields.number("length", len as u64)
}

/// A frame without a mask.
fn plain(
    fields: &mut Fields,
    head: (usize, usize),
    bits: u64,
    payload: &[u8],
) -> Result<(), Unshown> {
    frame(fields, head, bits, payload.len())?;
    fields.octets("payload", payload)
}

/// A frame with a mask.
fn masked(
    fields: &mut Fields,
    head: (usize, usize),
    bits: u64,
    key: &[u8],
    payload: &[u8],
) -> Result<(), Unshown> {
    frame(fields, head, bits, payload.len())?;
    fields.octets("key", key)?;
    match key.first_chunk::<4>() {
        Some(key) => unmasked(fields, payload, *key),
        None => Err(Unshown::Malformed),
    }
}

/// A payload by its key.
fn unmasked(fields: &mut Fields, masked: &[u8], key: [u8; 4]) -> Result<(), Unshown> {
    let [mut a, mut b, mut c, mut d] = key;
    fields.begin("payload")?;
    fields.item()?;
    if masked.is_empty() {
        fields.push("-")?;
    }
    for octet in masked {
        fields.hex(&[*octet ^ a])?;
        (a, b, c, d) = (b, c, d, a);
    }
    fields.end()
}

/// The options of DHCP up to their end, without padding. Returns option 52, if it is there.
fn dhcp_options<R: AsOctets + Copy>(
    fields: &mut Fields,
    name: &str,
    octets: R,
) -> Result<u8, Unshown> {
    let (options, _) = value::<(dhcp::Options, Rest), R>(octets)?;
    let mut overload = 0;
    fields.begin(name)?;
    for option in options {
        if let OneOf2::Second((code, inside)) = option {
            let octets = inside.as_slice();
            if code == 52 {
                overload = octets.first().copied().unwrap_or(0);
            }
            fields.item()?;
            fields.hex(&[(code % 256) as u8, (octets.len() % 256) as u8])?;
            if !octets.is_empty() {
                fields.hex(octets)?;
            }
        }
    }
    fields.end()?;
    Ok(overload)
}

/// A packet of DHCP.
pub fn dhcp<R: AsOctets + Copy>(fields: &mut Fields, octets: R) -> Result<(), Unshown> {
    let packet = value::<dhcp::Packet, R>(octets)?;
    let (kinds, times, addresses, hardware, server, file, _, _) = packet;
    let ((op, htype, hlen, hops), (xid, secs, flags)) = (kinds, times);
    let (client, yours, next, relay) = addresses;
    fields.number("op", u64::from(op))?;
    fields.number("htype", u64::from(htype))?;
    fields.number("hlen", u64::from(hlen))?;
    fields.number("hops", u64::from(hops))?;
    fields.number("xid", u64::from(xid))?;
    fields.number("secs", u64::from(secs))?;
    fields.number("flags", u64::from(flags))?;
    for (name, address) in [
        ("ciaddr", client),
        ("yiaddr", yours),
        ("siaddr", next),
        ("giaddr", relay),
    ] {
        fields.octets(name, address.to_be_bytes().as_slice())?;
    }
    match hardware.get(..usize::from(hlen)) {
        Some(front) => fields.octets("chaddr", front)?,
        None => return Err(Unshown::Malformed),
    }
    let options = octets.as_ref().get(240..).ok_or(Unshown::Malformed)?;
    let overload = dhcp_options(fields, "options", options)?;
    if overload & 1 != 0 {
        dhcp_options(fields, "file_options", file.as_slice())?;
    }
    if overload & 2 != 0 {
        dhcp_options(fields, "sname_options", server.as_slice())?;
    }
    Ok(())
}

/// An integer of QUIC.
pub fn quic_varint<R: AsOctets + Copy>(fields: &mut Fields, octets: R) -> Result<(), Unshown> {
    let number = value::<Key<QuicInteger, Itself>, R>(octets)?;
    fields.number("length", octets.as_ref().len() as u64)?;
    fields.number("value", number as u64)
}

/// The identifiers of a connection of QUIC.
fn connection<R: AsOctets + Copy>(
    fields: &mut Fields,
    version: usize,
    destination: Window<R>,
    source: Window<R>,
) -> Result<(), Unshown> {
    fields.number("version", version as u64)?;
    fields.octets("dcid", destination.as_slice())?;
    fields.octets("scid", source.as_slice())
}

/// What a packet of QUIC protects, and what is left of its datagram.
fn protected<R: AsOctets + Copy>(
    fields: &mut Fields,
    inside: Window<R>,
    next: Window<R>,
) -> Result<(), Unshown> {
    fields.number("length", inside.len() as u64)?;
    fields.octets("protected", inside.as_slice())?;
    fields.octets("next", next.as_slice())
}

/// A datagram of QUIC that begins with a long header.
pub fn quic_long<R: AsOctets + Copy>(fields: &mut Fields, octets: R) -> Result<(), Unshown> {
    let ((first, version), body) = value::<quic::LongHeader, R>(octets)?;
    match body {
        OneOf5::First((to, from, token, inside, next)) => {
            connection(fields, version, to, from)?;
            fields.number("type", 0)?;
            fields.octets("token", token.as_slice())?;
            protected(fields, inside, next)
        }
        OneOf5::Second((to, from, inside, next)) | OneOf5::Third((to, from, inside, next)) => {
            connection(fields, version, to, from)?;
            fields.number("type", first as u64 / 16 % 4)?;
            protected(fields, inside, next)
        }
        OneOf5::Fourth((to, from, rest)) => {
            connection(fields, version, to, from)?;
            fields.number("type", 3)?;
            retry(fields, rest.as_slice())
        }
        OneOf5::Fifth((to, from, versions)) => {
            connection(fields, version, to, from)?;
            fields.begin("versions")?;
            for each in versions {
                fields.item()?;
                fields.decimal(u64::from(each))?;
            }
            fields.end()
        }
    }
}

/// The token of a Retry, and its tag of 16 octets.
fn retry(fields: &mut Fields, octets: &[u8]) -> Result<(), Unshown> {
    match octets.split_last_chunk::<16>() {
        Some((token, tag)) => {
            fields.octets("token", token)?;
            fields.octets("tag", tag.as_slice())
        }
        None => Err(Unshown::Malformed),
    }
}

/// The first octet of a packet of MQTT, and the number of octets that follow its length.
fn mqtt_head(fields: &mut Fields, first: usize, octets: &[u8]) -> Result<(), Unshown> {
    let mut head = 1_usize;
    for octet in octets.iter().skip(1) {
        head = head.saturating_add(1);
        if *octet < 128 {
            break;
        }
    }
    fields.number("type", first as u64 / 16)?;
    fields.number("flags", first as u64 % 16)?;
    fields.number("length", octets.len().saturating_sub(head) as u64)
}

/// A field that may not be there.
fn optional<R: AsOctets + Copy>(
    fields: &mut Fields,
    name: &str,
    field: Option<Window<R>>,
) -> Result<(), Unshown> {
    match field {
        Some(field) => fields.octets(name, field.as_slice()),
        None => Ok(()),
    }
}

/// A packet of MQTT 3.1.1.
pub fn mqtt<R: AsOctets + Copy>(fields: &mut Fields, octets: R) -> Result<(), Unshown> {
    let (first, body) = value::<mqtt::Packet, R>(octets)?;
    mqtt_head(fields, first, octets.as_ref())?;
    match body {
        OneOf5::First(((name, level, flags, seconds), (client, (will, (user, password))))) => {
            fields.octets("name", name.as_slice())?;
            fields.number("level", u64::from(level))?;
            fields.number("connect_flags", flags as u64)?;
            fields.number("keep_alive", u64::from(seconds))?;
            fields.octets("client_id", client.as_slice())?;
            if let Some((topic, message)) = will {
                fields.octets("will_topic", topic.as_slice())?;
                fields.octets("will_payload", message.as_slice())?;
            }
            optional(fields, "user", user)?;
            optional(fields, "password", password)
        }
        OneOf5::Second((number, topics)) => {
            fields.number("packet_id", u64::from(number))?;
            fields.begin("topics")?;
            for (topic, asked) in topics {
                fields.item()?;
                fields.hex(topic.as_slice())?;
                fields.push(":")?;
                fields.decimal(u64::from(asked))?;
            }
            fields.end()
        }
        OneOf5::Third((topic, payload)) => {
            fields.octets("topic", topic.as_slice())?;
            fields.octets("payload", payload.as_slice())
        }
        OneOf5::Fourth((topic, number, payload)) => {
            fields.octets("topic", topic.as_slice())?;
            fields.number("packet_id", u64::from(number))?;
            fields.octets("payload", payload.as_slice())
        }
        OneOf5::Fifth(rest) => fields.octets("payload", rest.as_slice()),
    }
}

/// A packet of MQTT 5.0.
pub fn mqtt5<R: AsOctets + Copy>(fields: &mut Fields, octets: R) -> Result<(), Unshown> {
    let (first, body) = value::<mqtt5::Packet, R>(octets)?;
    mqtt_head(fields, first, octets.as_ref())?;
    match body {
        OneOf4::First((head, ((properties, client), (will, (user, password))))) => {
            let (name, level, flags, seconds) = head;
            fields.octets("name", name.as_slice())?;
            fields.number("level", u64::from(level))?;
            fields.number("connect_flags", flags as u64)?;
            fields.number("keep_alive", u64::from(seconds))?;
            fields.octets("properties", properties.as_slice())?;
            fields.octets("client_id", client.as_slice())?;
            if let Some((properties, topic, message)) = will {
                fields.octets("will_properties", properties.as_slice())?;
                fields.octets("will_topic", topic.as_slice())?;
                fields.octets("will_payload", message.as_slice())?;
            }
            optional(fields, "user", user)?;
            optional(fields, "password", password)
        }
        OneOf4::Second((topic, properties, payload)) => {
            fields.octets("topic", topic.as_slice())?;
            fields.octets("properties", properties.as_slice())?;
            fields.octets("payload", payload.as_slice())
        }
        OneOf4::Third((topic, number, properties, payload)) => {
            fields.octets("topic", topic.as_slice())?;
            fields.number("packet_id", u64::from(number))?;
            fields.octets("properties", properties.as_slice())?;
            fields.octets("payload", payload.as_slice())
        }
        OneOf4::Fourth(rest) => fields.octets("payload", rest.as_slice()),
    }
}
