//! DHCP packets made with scapy 2.5.0, as tshark 4.0.17 reads them. Each is read and written as one type.
use crate::tests::{read, refusal, unwrap};
use octseq::AsOctets;
use octseq_asserts::{assert_equal, assert_true};
use octseq_format::OneOf2;
use octseq_formats::dhcp::{Bootp, DhcpOption};
use std::alloc::AllocGlobal;
use std::process::Abort;

/// Makes the octets of a packet: its first ones, zeros, the magic cookie, and the options.
fn packet(rt: &(impl AllocGlobal + Abort), first: &[u8], options: &[u8]) -> Vec<u8> {
    let mut octets = Vec::new(rt.alloc());
    unwrap(rt, octets.extend_from_slice(first));
    unwrap(rt, octets.resize(236, 0));
    unwrap(rt, octets.extend_from_slice(b"\x63\x82\x53\x63"));
    unwrap(rt, octets.extend_from_slice(options));
    octets
}

/// Reads a packet, checks that it is written back, and compares it.
fn is_packet<R: AsOctets + Copy>(
    rt: &(impl AllocGlobal + Abort),
    octets: R,
    wanted: (u32, u16, [u8; 6]),
    options: &[(usize, &[u8])],
) {
    let (_, (transaction, _, flags), _, hardware, _, _, vendor) = read::<Bootp<R>, R>(rt, octets);
    assert_equal!(rt, (transaction, flags), (wanted.0, wanted.1));
    assert_equal!(rt, &hardware[..6], wanted.2.as_slice());
    let Some(OneOf2::First(walk)) = vendor else {
        return assert_equal!(rt, "no options", "options");
    };
    assert_equal!(rt, walk.len(), options.len());
    let mut walk = walk;
    for &(code, octets) in options {
        match walk.next() {
            Some(DhcpOption::Other(other, value)) => {
                assert_equal!(rt, other, code);
                assert_equal!(rt, value.as_slice(), octets);
            }
            Some(DhcpOption::Pad) => assert_equal!(rt, 0, code),
            Some(DhcpOption::End) => assert_equal!(rt, 255, code),
            None => assert_equal!(rt, "no option", "an option"),
        }
    }
}

#[test]
fn a_request_is_read(rt: HostRuntime) {
    let first =
        b"\x01\x01\x06\0\x46\xAA\xC1\x26\0\0\0\0\0\0\0\0\0\0\0\0\0\0\0\0\0\0\0\0\x1A\xC8\x26\xCD\x97\xCA";
    let octets = packet(
        &rt,
        first,
        b"\x35\x01\x01\x37\x03\x01\x03\x06\x0C\x03box\xFF\0\0",
    );
    let hardware = [0x1A, 0xC8, 0x26, 0xCD, 0x97, 0xCA];
    let options: [(usize, &[u8]); 6] = [
        (53, b"\x01"),
        (55, b"\x01\x03\x06"),
        (12, b"box"),
        (255, b""),
        (0, b""),
        (0, b""),
    ];
    is_packet(&rt, octets.as_slice(), (0x46AA_C126, 0, hardware), &options);
}

/// Whether the octets aren't a packet.
fn is_refused<R: AsOctets + Copy>(octets: R) -> bool {
    refusal::<Bootp<R>, R>(octets).is_some()
}

#[test]
fn an_option_past_the_end_is_refused(rt: HostRuntime) {
    let first =
        b"\x01\x01\x06\0\x83\x1C\x7B\xB9\0\0\0\0\0\0\0\0\0\0\0\0\0\0\0\0\0\0\0\0\x57\xEA\x0C\xA2\x8C\x74";
    let mut octets = packet(&rt, first, b"\x35\x01\x01\x0C\x06abc");
    assert_true!(&rt, is_refused(octets.as_slice()));
    octets.truncate(235);
    assert_true!(&rt, is_refused(octets.as_slice()));
}
