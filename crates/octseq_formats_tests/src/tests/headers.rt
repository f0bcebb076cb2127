//! Packets of scapy 2.5.0, as tshark 4.0.17 reads them: IPv4, IPv6 and TCP, with options. Packets of RTP by RFC 3550.
use crate::tests::{is_refused, is_same, rewritten};
use octseq::{AsOctets, Parser, Turns};
use octseq_format::{Family, Format, OneOf3, Window};
use octseq_formats::{ipv4, ipv6, rtp, tcp};
use std::alloc::AllocGlobal;
use std::process::Abort;

/// Whether octets are options of IPv4 or TCP, which end with them or at the option 0.
fn are_options<R: AsOctets + Copy>(options: Window<R>) -> bool {
    let mut parser = options.parser();
    for _ in 0..options.len() {
        if parser.remaining() == 0 {
            break;
        }
        match ipv4::HeaderOption::parse(&mut parser) {
            Ok(OneOf3::First(_)) => break,
            Ok(_) => {}
            Err(_) => return false,
        }
    }
    true
}

/// Reads a datagram of IPv4 and writes it again. Returns `None` if it, its options or its total length are malformed.
fn ipv4_again<R: AsOctets + Copy>(rt: &(impl AllocGlobal + Abort), octets: R) -> Option<Vec<u8>> {
    let Ok(value) = <ipv4::Datagram as Format<R>>::parse_whole(octets) else {
        return None;
    };
    let ((((_, total, _), _, _), (_, options)), _) = value;
    if usize::from(total) != octets.as_ref().len() || !are_options(options) {
        return None;
    }
    rewritten::<ipv4::Datagram, R>(rt, octets)
}

#[test]
fn ipv4_datagrams(rt: HostRuntime) {
    let packets: [&[u8]; 4] = [
        b"E\x00\x00\x1B\x89<\x00\x00@\xFDw\xCF\x0A\x85\x9AK\x0A\x91\xC9ypayload",
        b"F\x00\x00\x18M)\x00\x00@\x02\x81\xF1\x0AR\xED\x11\x0Ah\x14\xFA\x94\x04\x00\
          \x00",
        b"I\x00\x00'\x10\x0A\x00\x00@\xFD\xDF1\xAC\x0E\x1B\xE4\xAC\x8C\xF2\x11\x01\x07\
          \x0B\x04\x0A\x00\x00\x01\x0A\x00\x00\x02\x00\x00\x00\x00abc",
        b"G\x00\x00$Fr@\x00\x01\xFD;\xF8\xC0{V\xC4\xC0O\x8C\xD1\x83\x07\x04\x0A\x00\
          \x00\x09\x0112345678",
    ];
    for octets in packets {
        is_same(&rt, ipv4_again(&rt, octets), octets);
        for len in 0..octets.len() {
            is_refused(&rt, ipv4_again(&rt, &octets[..len]));
        }
    }
    let malformed: [&[u8]; 3] = [
        b"I\x00\x00(\xA0\x98\x00\x00@\xFD\x04\xA0\xC0x\x906\xAC\x881F\x94\x04\x00\x00\
          \x07\x0B\x04\x0A\x00\x00",
        b"H\x00\x00 \x14\xD7\x00\x00@\xFD\xDE5\xAC(\xF9V\xAC*$\x0C\x07<\x04\x0A\x00\
          \x00\x01\x0A\x00\x00\x02\x00",
        b"D\x00\x00\x14/\x89\x00\x00@\xFD\xBD\xC2\xC0p\x8E\xA9\xC0\x81}\x06",
    ];
    for octets in malformed {
        is_refused(&rt, ipv4_again(&rt, octets));
    }
}

/// Reads a segment of TCP and writes it again. Returns `None` if it or its options are malformed.
fn tcp_again<R: AsOctets + Copy>(rt: &(impl AllocGlobal + Abort), octets: R) -> Option<Vec<u8>> {
    let Ok(value) = <tcp::Segment as Format<R>>::parse_whole(octets) else {
        return None;
    };
    let (_, (_, (options, _)), _) = value;
    if !are_options(options) {
        return None;
    }
    rewritten::<tcp::Segment, R>(rt, octets)
}

#[test]
fn tcp_segments(rt: HostRuntime) {
    let packets: [&[u8]; 4] = [
        b"\xDD<'\x0F/b\xC1\xE8\x00\x00\x00\x05P\x18 \x00\x00\x00\x00\x00GET",
        b"S%'\x0F\xAE\xFD\xD8\xE6\x00\x00\x00\x00\xA0\x02 \x00\x00\x00\x00\x00\x02\x04\
          \x05\xB4\x04\x02\x08\x0A\x1E\x19\xC2\x16\x00\x00\x00\x07\x01\x03\x03\x07",
        b"\xC6''\x0F\xFE\xDD-\x97\x00\x00\x00\x00\xA0\x10 \x00\x00\x00\x00\x00\x01\x01\
          \x05\x12\x00\x00\x00\x01\x00\x00\x00\x02\x00\x00\x00\x05\x00\x00\x00\x09",
        b"\"Z'\x0F\x83t\xE6\x18\x00\x00\x00\x00`\x18 \x00\x00\x00\x00\x00\x03\x03\x07\
          \x00abcd",
    ];
    for octets in packets {
        is_same(&rt, tcp_again(&rt, octets), octets);
        for len in 0..20 {
            is_refused(&rt, tcp_again(&rt, &octets[..len]));
        }
    }
    let malformed: [&[u8]; 2] = [
        b"*\x95'\x0F\xF2M\xAF\xED\x00\x00\x00\x00\x90\x02 \x00\x00\x00\x00\x00\x02\x04\
          \x05\xB4\x04",
        b"H1'\x0F]\x98h8\x00\x00\x00\x00\xF0\x02 \x00\x00\x00\x00\x00abc",
    ];
    for octets in malformed {
        is_refused(&rt, tcp_again(&rt, octets));
    }
}

/// Whether octets are options of IPv6.
fn are_ipv6_options<R: AsOctets + Copy>(options: Window<R>) -> bool {
    let mut parser = options.parser();
    for _ in 0..options.len() {
        if parser.remaining() == 0 {
            break;
        }
        if ipv6::HeaderOption::parse(&mut parser).is_err() {
            return false;
        }
    }
    true
}

/// Reads an extension header. Returns the number of the next header, or `None` if the chain ends with it, or an error.
fn after<R: AsOctets + Copy>(parser: &mut Parser<R>, number: usize) -> Result<Option<usize>, ()> {
    let mut turns = Turns::new();
    match <ipv6::Extension as Family<R>>::parse_by(number, parser, &mut turns) {
        Ok(OneOf3::First(((next, _), octets))) => {
            if number != 43 && !are_ipv6_options(octets) {
                return Err(());
            }
            Ok(Some(usize::from(next)))
        }
        // A fragment that isn't a whole packet ends the chain.
        Ok(OneOf3::Second((next, _, offset, _))) if offset & 0xFFF9 == 0 => {
            Ok(Some(usize::from(next)))
        }
        Ok(OneOf3::Second(_)) => Ok(None),
        Ok(OneOf3::Third(((next, _), _))) => Ok(Some(usize::from(next))),
        Err(_) => Err(()),
    }
}

/// Whether octets begin with a chain of extension headers, the first of which has this number.
fn are_headers<R: AsOctets + Copy>(headers: Window<R>, first: u8) -> bool {
    let mut parser = headers.parser();
    let mut number = usize::from(first);
    for _ in 0..headers.len() {
        if !<ipv6::Extension as Family<R>>::has_format(number) {
            break;
        }
        match after(&mut parser, number) {
            Ok(Some(next)) => number = next,
            Ok(None) => break,
            Err(()) => return false,
        }
    }
    true
}

/// Reads a packet of IPv6 and writes it again. Returns `None` if it, its headers or its length are malformed.
fn ipv6_again<R: AsOctets + Copy>(rt: &(impl AllocGlobal + Abort), octets: R) -> Option<Vec<u8>> {
    let Ok(value) = <ipv6::Packet as Format<R>>::parse_whole(octets) else {
        return None;
    };
    let ((_, len, number, _), (_, _, headers)) = value;
    if usize::from(len) != headers.len() || !are_headers(headers, number) {
        return None;
    }
    rewritten::<ipv6::Packet, R>(rt, octets)
}

#[test]
fn ipv6_packets(rt: HostRuntime) {
    let packets: [&[u8]; 6] = [
        b"`\x00\x00\x00\x00\x0A\x11M \x01\x0D\xB8\x00\x00\x00\x00\x00\x00\x00\x00\x00\
          \x00q\xB2 \x01\x0D\xB8\x00\x00\x00\x00\x00\x00\x00\x00\x00\x00\x19\xEF\x00\
          \x07\x00\x09\x00\x0A\xB0Mhi",
        b"`\x00\x00\x00\x00\x12\x00\xE1 \x01\x0D\xB8\x00\x00\x00\x00\x00\x00\x00\x00\
          \x00\x00\x18R \x01\x0D\xB8\x00\x00\x00\x00\x00\x00\x00\x00\x00\x00\xEE\x08\
          \x11\x00\x05\x02\x00\x00\x01\x00\x00\x07\x00\x09\x00\x0A5\x94hi",
        b"`\x00\x00\x00\x00B<I \x01\x0D\xB8\x00\x00\x00\x00\x00\x00\x00\x00\x00\x00\
          \xDB7 \x01\x0D\xB8\x00\x00\x00\x00\x00\x00\x00\x00\x00\x00Tp+\x03\x00\x01\
          \x02\x00\x00\x01\x05\x00\x00\x00\x00\x00\xC9\x10 \x01\x0D\xB8\x00\x00\x00\
          \x00\x00\x00\x00\x00\x00\x00\x00\x05\x11\x02\x00\x01\x00\x00\x00\x00 \x01\
          \x0D\xB8\x00\x00\x00\x00\x00\x00\x00\x00\x00\x00\x00\x09\x00\x07\x00\x09\x00\
          \x0A`\xAEhi",
        b"`\x00\x00\x00\x00j\x00B \x01\x0D\xB8\x00\x00\x00\x00\x00\x00\x00\x00\x00\x00\
          \xA88 \x01\x0D\xB8\x00\x00\x00\x00\x00\x00\x00\x00\x00\x00%\x13<\x00\x05\x02\
          \x00\x00\x01\x00+\x03\x00\x01\x02\x00\x00\x01\x05\x00\x00\x00\x00\x00\xC9\
          \x10 \x01\x0D\xB8\x00\x00\x00\x00\x00\x00\x00\x00\x00\x00\x00\x05,\x02\x00\
          \x01\x00\x00\x00\x00 \x01\x0D\xB8\x00\x00\x00\x00\x00\x00\x00\x00\x00\x00\
          \x00\x093\x00\x00\x00\x00\x00\x00M\x11\x04\x00\x00\x00\x00\x00\x01\x00\x00\
          \x00\x02\x01\x01\x01\x01\x01\x01\x01\x01\x01\x01\x01\x01\x00\x07\x00\x09\x00\
          \x0A\x00\x00hi",
        b"`\x00\x00\x00\x00\x12,\x15 \x01\x0D\xB8\x00\x00\x00\x00\x00\x00\x00\x00\x00\
          \x00m\x85 \x01\x0D\xB8\x00\x00\x00\x00\x00\x00\x00\x00\x00\x00\xDB\xFC\x11\
          \x00\x05\xC8\x00\x00\x00N\x00\x07\x00\x09\x00\x0A\xF2lhi",
        b"`\x00\x00\x00\x001,z \x01\x0D\xB8\x00\x00\x00\x00\x00\x00\x00\x00\x00\x00\
          \x83\xBE \x01\x0D\xB8\x00\x00\x00\x00\x00\x00\x00\x00\x00\x00\xCE\xE6<\x00\
          \x00\x01\x00\x00\x00O\x11\x03\x00\x01\x02\x00\x00\x01\x05\x00\x00\x00\x00\
          \x00\xC9\x10 \x01\x0D\xB8\x00\x00\x00\x00\x00\x00\x00\x00\x00\x00\x00\x05\
          \x00\x07\x00\x09\x00\x09\xE1\xB4p",
    ];
    for octets in packets {
        is_same(&rt, ipv6_again(&rt, octets), octets);
        for len in 0..octets.len() {
            is_refused(&rt, ipv6_again(&rt, &octets[..len]));
        }
    }
    let malformed: [&[u8]; 3] = [
        b"`\x00\x00\x00\x00\x12\x00\xAD \x01\x0D\xB8\x00\x00\x00\x00\x00\x00\x00\x00\
          \x00\x00$n \x01\x0D\xB8\x00\x00\x00\x00\x00\x00\x00\x00\x00\x00K\x8C\x11\x00\
          \x05\x02",
        b"`\x00\x00\x00\x00\x12\x00\xAD \x01\x0D\xB8\x00\x00\x00\x00\x00\x00\x00\x00\
          \x00\x00$n \x01\x0D\xB8\x00\x00\x00\x00\x00\x00\x00\x00\x00\x00K\x8C\x11\x09\
          \x05\x02\x00\x00\x01\x00\x00\x07\x00\x09\x00\x0A\xCB\xF4hi",
        b"`\x00\x00\x00\x00\x12\x00\xAD \x01\x0D\xB8\x00\x00\x00\x00\x00\x00\x00\x00\
          \x00\x00$n \x01\x0D\xB8\x00\x00\x00\x00\x00\x00\x00\x00\x00\x00K\x8C\x11\x00\
          \x05\x09\x00\x00\x01\x00\x00\x07\x00\x09\x00\x0A\xCB\xF4hi",
    ];
    for octets in malformed {
        is_refused(&rt, ipv6_again(&rt, octets));
    }
}

/// Reads and writes a packet again.
fn rtp_again<R: AsOctets + Copy>(rt: &(impl AllocGlobal + Abort), octets: R) -> Option<Vec<u8>> {
    rewritten::<rtp::Packet, R>(rt, octets)
}

#[test]
fn rtp_packets(rt: HostRuntime) {
    let packets: [&[u8]; 2] = [
        // two sources, an extension of one word, and a payload
        b"\x92\xE0\x124\x00\x00\x00\xA0\xDE\xAD\xBE\xEF\x01\x02\x03\x04\x05\x06\x07\x08\
          \xBE\xDE\x00\x01\x10\xFF\x00\x00hello",
        b"\x80\x60\x124\x00\x00\x00\xA0\xDE\xAD\xBE\xEF",
    ];
    for octets in packets {
        is_same(&rt, rtp_again(&rt, octets), octets);
        for len in 0..12 {
            is_refused(&rt, rtp_again(&rt, &octets[..len]));
        }
    }
    let malformed: [&[u8]; 3] = [
        // of version 1, without its second source, and without its extension's word
        b"\x52\xE0\x124\x00\x00\x00\xA0\xDE\xAD\xBE\xEF\x01\x02\x03\x04\x05\x06\x07\x08",
        b"\x82\xE0\x124\x00\x00\x00\xA0\xDE\xAD\xBE\xEF\x01\x02\x03\x04\x05\x06\x07",
        b"\x90\xE0\x124\x00\x00\x00\xA0\xDE\xAD\xBE\xEF\xBE\xDE\x00\x01\x10\xFF\x00",
    ];
    for octets in malformed {
        is_refused(&rt, rtp_again(&rt, octets));
    }
}

/// Reads and writes options again.
fn options_again<R: AsOctets + Copy>(
    rt: &(impl AllocGlobal + Abort),
    octets: R,
) -> Option<Vec<u8>> {
    rewritten::<ipv4::Options, R>(rt, octets)
}

#[test]
fn options_end_with_their_octets_or_with_zero(rt: HostRuntime) {
    let lists: [&[u8]; 5] = [
        b"",
        b"\x94\x04\0\0",
        b"\x01\x07\x0B\x04\x0A\0\0\x01\x0A\0\0\x02\0",
        b"\x83\x07\x04\x0A\0\0\x09\x01",
        b"\x01\0\x02\x03",
    ];
    for octets in lists {
        is_same(&rt, options_again(&rt, octets), octets);
    }
    for octets in [b"\x07".as_slice(), b"\x07\x01", b"\x07\x0B\x04\0"] {
        is_refused(&rt, options_again(&rt, octets));
    }
}
