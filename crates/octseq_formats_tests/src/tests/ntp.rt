//! NTP headers, as tshark 4.0.17 reads them: packets of tcpdump's captures.
use crate::tests::unwrap;
use octseq::Parser;
use octseq_asserts::assert_equal;
use octseq_format::{Format, Of};
use octseq_formats::ntp::Ntp;
use std::alloc::AllocGlobal;
use std::process::Abort;

/// Returns the seconds of a timestamp, and its nanoseconds.
fn seconds(stamp: u64) -> (u64, u64) {
    (stamp >> 32, ((stamp & 0xFFFF_FFFF) * 1_000_000_000) >> 32)
}

/// The numbers of a header, except its timestamps.
type Numbers = ((usize, usize, usize), u8, i8, i8, u32, u32, u32);

/// The seconds and nanoseconds of the four timestamps.
type Times = [(u64, u64); 4];

/// Reads a header, compares it, and writes it back.
fn is_read<H: AllocGlobal + Abort>(rt: &H, octets: &[u8], numbers: Numbers, times: Times) {
    let mut parser = Parser::from_ref(octets);
    let ntp: Ntp = unwrap(rt, Of::parse(&mut parser));
    assert_equal!(rt, parser.pos(), 48);
    let found = (
        (ntp.leap_indicator, ntp.version, ntp.mode),
        ntp.stratum,
        ntp.poll,
        ntp.precision,
        ntp.root_delay,
        ntp.root_dispersion,
        ntp.reference_id,
    );
    assert_equal!(rt, found, numbers);
    let (reference, origin, receive, transmit) = ntp.timestamps;
    let found = [
        seconds(reference),
        seconds(origin),
        seconds(receive),
        seconds(transmit),
    ];
    assert_equal!(rt, found, times);
    let written: Vec<u8> = unwrap(
        rt,
        <Of<Ntp> as Format<&[u8]>>::compose_whole(rt.alloc(), &ntp),
    );
    assert_equal!(rt, Some(written.as_slice()), octets.get(..48));
}

#[test]
fn a_client_that_knows_no_time(rt: HostRuntime) {
    let octets = b"\
#\x00\x00 \x00\x00\x00\x00\x00\x00\x00\x00\x00\x00\x00\x00\x00\x00\x00\x00\x00\x00\x00\x00\x00\x00\
\x00\x00\x00\x00\x00\x00\x00\x00\x00\x00\x00\x00\x00\x00\xA4\xB3\x9C\xD1\x01\xFB$\xBF\x00\x00\x00\
\x08W\xEAS\x0Fmt5\x0C\xC5(k\xFE\xC1\xAB\x8C\xA7G\xC75\x84";
    let numbers = ((0, 4, 3), 0, 0, 32, 0, 0, 0x00000000);
    let times = [(0, 0), (0, 0), (0, 0), (2763234513, 7738396)];
    is_read(&rt, octets, numbers, times);
}

#[test]
fn a_kiss_of_death(rt: HostRuntime) {
    let octets = b"\
\xE4\x00\x03\xE9\x00\x00\x00\x00\x00\x00\x00ZSTEP\x00\x00\x00\x00\x00\x00\x00\x00\xA4\xB3\x9C\xD1\
\x01\xFB$\xBF\xDC\xF2Z9\x84\x19\x91\x19\xDC\xF2Z9\x84\x1Dm\xC5\x00\x00\x00\x00";
    let numbers = ((3, 4, 4), 0, 3, -23, 0, 90, 0x53544550);
    let times = [
        (0, 0),
        (2763234513, 7738396),
        (3706870329, 516015118),
        (3706870329, 516074047),
    ];
    is_read(&rt, octets, numbers, times);
}

#[test]
fn a_client_with_a_key(rt: HostRuntime) {
    let octets = b"\
#\x00\x00 \x00\x00\x00\x00\x00\x00\x00\x00\x00\x00\x00\x00\x00\x00\x00\x00\x00\x00\x00\x00\xDC\xF2[\
\xE5yM jkp\xCA\xF9\xB1\xA9\xF9\xD9\xAE\x9D\x0A\xA8\x1B\x89q\xA7\x00\x00\x00\x08\x8B~d\x09y\x15bd\xF3\
\xFA\xA5\xAE\x97\x96V\xDD\x86P$1";
    let numbers = ((0, 4, 3), 0, 0, 32, 0, 0, 0x00000000);
    let times = [
        (0, 0),
        (3706870757, 473833108),
        (1802554105, 693999877),
        (2929527464, 107565978),
    ];
    is_read(&rt, octets, numbers, times);
}

#[test]
fn a_server_with_a_key(rt: HostRuntime) {
    let octets = b"\
$\x02\x00\xE9\x00\x00'\xCF\x00\x00\x00g\x0A\x05\x1B\x0A\xDC\xF2[\xE5\xB8mVU\xAE\x9D\x0A\xA8\x1B\x89q\
\xA7\xDC\xF2[\xE6~\x92\xD2@\xDC\xF2[\xE6~\x9A\x9F\xC9\x00\x00\x00\x08b\x99\x90\xA7\xFC\x22\xCC\x84g\
\xDD\x88\xB7\xAF-\x22\x0D\xBE2\x87\xD6";
    let numbers = ((0, 4, 4), 2, 0, -23, 10191, 103, 0x0A051B0A);
    let times = [
        (3706870757, 720418353),
        (2929527464, 107565978),
        (3706870758, 494427815),
        (3706870758, 494546877),
    ];
    is_read(&rt, octets, numbers, times);
}

#[test]
fn a_client_with_no_clock(rt: HostRuntime) {
    let octets = b"\
\xE3\x00\x03\xFA\x00\x01\x00\x00\x00\x01\x00\x00\x00\x00\x00\x00\x00\x00\x00\x00\x00\x00\x00\x00\x00\
\x00\x00\x00\x00\x00\x00\x00\x00\x00\x00\x00\x00\x00\x00\x00\xDC\xF2\x5C\xBE}\x0D\x94\xF5";
    let numbers = ((3, 4, 3), 0, 3, -6, 65536, 65536, 0x00000000);
    let times = [(0, 0), (0, 0), (0, 0), (3706870974, 488488492)];
    is_read(&rt, octets, numbers, times);
}

#[test]
fn a_server_with_no_key(rt: HostRuntime) {
    let octets = b"\
$\x02\x03\xE9\x00\x00'\xCC\x00\x00\x00B\x0A\x05\x1B\x0A\xDC\xF2\x5C\xBC\x05ax\xDE\xDC\xF2\x5C\xBE}\
\x0D\x94\xF5\xDC\xF2\x5C\xBE}\x10\xFE\xBC\xDC\xF2\x5C\xBE}\x19+\xE2";
    let numbers = ((0, 4, 4), 2, 3, -23, 10188, 66, 0x0A051B0A);
    let times = [
        (3706870972, 21018556),
        (3706870974, 488488492),
        (3706870974, 488540573),
        (3706870974, 488665335),
    ];
    is_read(&rt, octets, numbers, times);
}

#[test]
fn a_client_that_starts(rt: HostRuntime) {
    let octets = b"\
\xE3\x00\x06\xE7\x00\x00\x00\x00\x00\x00\x00\x00INIT\x00\x00\x00\x00\x00\x00\x00\x00\x00\x00\x00\x00\
\x00\x00\x00\x00\x00\x00\x00\x00\x00\x00\x00\x00\xDC\xF2bp\xCD\x03\xEDO\x00\x00\x00\x08\xD57\x8A\x09\
\xC0M\xA8Es \x97\x10CH\x84:";
    let numbers = ((3, 4, 3), 0, 6, -25, 0, 0, 0x494E4954);
    let times = [(0, 0), (0, 0), (0, 0), (3706872432, 800841171)];
    is_read(&rt, octets, numbers, times);
}

#[test]
fn a_server_of_stratum_2(rt: HostRuntime) {
    let octets = b"\
$\x02\x06\xE9\x00\x00\x1D\xD8\x00\x00\x00r\x0A\x0B\xA0\xEE\xDC\xF2beC\xEAt\x09\xDC\xF2bp\xCD\x03\xED\
O\xDC\xF2bp\xCC\x96K\xCD\xDC\xF2bp\xCC\x99\x80\xB3\x00\x00\x00\x08\xA7\x00[\x03L\xA2\x15\xFE\xDF\xA0\
\xD7\x98\xDB7\xAE\x9E";
    let numbers = ((0, 4, 4), 2, 6, -23, 7640, 114, 0x0A0BA0EE);
    let times = [
        (3706872421, 265296222),
        (3706872432, 800841171),
        (3706872432, 799168336),
        (3706872432, 799217265),
    ];
    is_read(&rt, octets, numbers, times);
}

#[test]
fn a_client_of_another_make(rt: HostRuntime) {
    let octets = b"\
\xE3\x00\x08\x00\x00\x00\x00\x00\x00\x00\x00\x00\x00\x00\x00\x00\x00\x00\x00\x00\x00\x00\x00\x00\x00\
\x00\x00\x00\x00\x00\x00\x00\x00\x00\x00\x00\x00\x00\x00\x00\xDDG\xFF\xF4\xED\xB0\xCC\xBC";
    let numbers = ((3, 4, 3), 0, 8, 0, 0, 0, 0x00000000);
    let times = [(0, 0), (0, 0), (0, 0), (3712483316, 928478999)];
    is_read(&rt, octets, numbers, times);
}

#[test]
fn a_server_far_away(rt: HostRuntime) {
    let octets = b"\
$\x02\x08\xE8\x00\x00\x00\x15\x00\x00\x09R\x84\xC7\x07\xC9\xDDG\xFB:Vv7\xC0\xDDG\xFF\xF4\xED\xB0\xCC\
\xBC\xDDG\xFF\xF4\xEE\x0FGC\xDDG\xFF\xF4\xEE\x11\x19\xCF";
    let numbers = ((0, 4, 4), 2, 8, -24, 21, 2386, 0x84C707C9);
    let times = [
        (3712482106, 337741360),
        (3712483316, 928478999),
        (3712483316, 929920629),
        (3712483316, 929948437),
    ];
    is_read(&rt, octets, numbers, times);
}
