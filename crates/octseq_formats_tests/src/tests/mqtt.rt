//! Packets of mosquitto 2.0.11 and its clients, as tshark 4.0.17 reads them.
use crate::tests::{is_refused, is_same, is_shorter, rewritten};
use octseq::AsOctets;
use octseq_formats::{mqtt, mqtt5};
use std::alloc::AllocGlobal;
use std::process::Abort;

/// Reads and writes a packet again.
fn packet_again<R: AsOctets + Copy>(rt: &(impl AllocGlobal + Abort), octets: R) -> Option<Vec<u8>> {
    rewritten::<mqtt::Packet, R>(rt, octets)
}

/// Reads and writes a packet again.
fn packet5_again<R: AsOctets + Copy>(
    rt: &(impl AllocGlobal + Abort),
    octets: R,
) -> Option<Vec<u8>> {
    rewritten::<mqtt5::Packet, R>(rt, octets)
}

#[test]
fn mqtt_packets(rt: HostRuntime) {
    let packets: [&[u8]; 5] = [
        b"\x10\x18\x00\x04MQTT\x04\x02\x00<\x00\x0Csub-mqttv311",
        b"\x10,\x00\x04MQTT\x04\xEE\x00<\x00\x01b\x00\x04gone\x00\x09b is gone\x00\x04\
          user\x00\x06secret",
        b"0\x11\x00\x0Broom/1/heat21.5",
        b"2\x11\x00\x0Broom/2/heat\x00\x0119",
        b"\x82\x18\x00\x01\x00\x0Broom/+/heat\x02\x00\x05alarm\x02",
    ];
    for octets in packets {
        is_same(&rt, packet_again(&rt, octets), octets);
        for len in 0..octets.len() {
            is_refused(&rt, packet_again(&rt, &octets[..len]));
        }
    }
    let longer: &[u8] = b"0\x85\x80\x00\x00\x01axy";
    is_shorter(&rt, packet_again(&rt, longer), longer.len());
    let malformed: [&[u8]; 3] = [
        b"\x10,\x00\x04MQTT\x04\xEE\x00<\x00\x01b\x00\x04gon",
        b"0\x11\x10\x0Broom/1/heat21.5",
        b"0\xFF\xFF\xFF\xFF\x01\x00\x00\x00\x00\x00\x00\x00\x00\x00\x00\x00\x00\x00\
          \x00\x00\x00\x00\x00\x00\x00\x00",
    ];
    for octets in malformed {
        is_refused(&rt, packet_again(&rt, octets));
    }
}

#[test]
fn mqtt5_packets(rt: HostRuntime) {
    let packets: [&[u8]; 2] = [
        b"\x10\x1A\x00\x04MQTT\x05\x02\x00<\x03!\x00\x03\x00\x0Asub-mqttv5",
        b"4\xCA\x02\x00\x05alarm\x00\x02\x14&\x00\x01k\x00\x01v\x03\x00\x0Atext/plainx\
          xxxxxxxxxxxxxxxxxxxxxxxxxxxxxxxxxxxxxxxxxxxxxxxxxxxxxxxxxxxxxxxxxxxxxxxxxxxx\
          xxxxxxxxxxxxxxxxxxxxxxxxxxxxxxxxxxxxxxxxxxxxxxxxxxxxxxxxxxxxxxxxxxxxxxxxxxxx\
          xxxxxxxxxxxxxxxxxxxxxxxxxxxxxxxxxxxxxxxxxxxxxxxxxxxxxxxxxxxxxxxxxxxxxxxxxxxx\
          xxxxxxxxxxxxxxxxxxxxxxxxxxxxxxxxxxxxxxxxxxxxxxxxxxxxxxxxxxxxxxxxxxxxxxx",
    ];
    for octets in packets {
        is_same(&rt, packet5_again(&rt, octets), octets);
        for len in 0..octets.len() {
            is_refused(&rt, packet5_again(&rt, &octets[..len]));
        }
    }
    // A longer length is malformed in this version.
    let longer: &[u8] = b"0\x85\x80\x00\x00\x01axy";
    is_refused(&rt, packet5_again(&rt, longer));
}
