//! TFTP packets, as tshark 4.0.17 reads them: packets of tcpdump's captures.
use crate::tests::{read, refusal};
use octseq::AsOctets;
use octseq_asserts::assert_equal;
use octseq_format::Of;
use octseq_formats::tftp::Packet;
use std::alloc::AllocGlobal;
use std::process::Abort;

/// Reads all the octets, and checks that the packet is written back.
fn packet<R: AsOctets + Copy>(rt: &(impl AllocGlobal + Abort), octets: R) -> Packet<R> {
    read::<Of<Packet<R>>, R>(rt, octets)
}

/// Compares a read request.
fn is_request<R: AsOctets + Copy>(
    rt: &(impl AllocGlobal + Abort),
    octets: R,
    wanted: (&[u8], &[u8]),
    offsets: (usize, usize),
) {
    match packet(rt, octets) {
        Packet::Read(name, mode) => {
            assert_equal!(rt, (name.as_slice(), mode.as_slice()), wanted);
            assert_equal!(rt, (name.pos(), mode.pos()), offsets);
        }
        _ => assert_equal!(rt, "another packet", "a request"),
    }
}

#[test]
fn a_request_to_read_is_read(rt: HostRuntime) {
    let octets = b"\0\x01file1\0octet\0".as_slice();
    is_request(&rt, octets, (b"file1", b"octet"), (2, 8));
}

/// Returns the number of a block and of its octets, or of an acknowledgment.
fn block<R: AsOctets + Copy>(
    rt: &(impl AllocGlobal + Abort),
    octets: R,
) -> Option<(u16, Option<usize>)> {
    match packet(rt, octets) {
        Packet::Data(block, octets) => Some((block, Some(octets.len()))),
        Packet::Acknowledgment(block) => Some((block, None)),
        _ => None,
    }
}

#[test]
fn the_first_block_is_read(rt: HostRuntime) {
    let octets = b"\
\x00\x03\x00\x01#! /bin/sh\x0A### BEGIN INIT INFO\x0A# Provides:          umountroot\x0A# Required-S\
tart:\x0A# Required-Stop:\x0A# Should-Stop:       halt reboot kexec\x0A# Default-Start:\x0A# Default\
-Stop:      0 6\x0A# Short-Description: Mount the root filesystem read-only.\x0A### END INIT INFO\
\x0A\x0APATH=/sbin:/bin\x0A. /lib/init/vars.sh\x0A\x0A. /lib/lsb/init-functions\x0A\x0Ado_stop () {\
\x0A\x09[ \x22$VERBOSE\x22 = no ] || log_action_begin_msg \x22Mounting root filesystem read-only\x22\
\x0A\x09MOUNT_FORCE_OPT=\x0A\x09[ \x22$(uname -s)\x22 = \x22GNU/kFreeBSD\x22 ] && MOUNT_FORCE_OPT=-f\
\x0A\x09# This:\x0A\x09#     mount";
    assert_equal!(&rt, block(&rt, octets.as_slice()), Some((1, Some(512))));
}

#[test]
fn the_first_acknowledgment_is_read(rt: HostRuntime) {
    assert_equal!(
        &rt,
        block(
            &rt,
            b"\
\x00\x04\x00\x01"
                .as_slice()
        ),
        Some((1, None))
    );
}

#[test]
fn the_second_block_is_read(rt: HostRuntime) {
    let octets = b"\
\x00\x03\x00\x02 -n -o remount,ro /\x0A\x09# will act on a bind mount of / if there is one.\x0A\x09#\
\x20See #339023 and the comment in checkroot.sh\x0A\x09mount    $MOUNT_FORCE_OPT -n -o remount,ro -t\
\x20dummytype dummydev / 2>/dev/null \x5C\x0A\x09|| mount $MOUNT_FORCE_OPT -n -o remount,ro         \
\x20    dummydev / 2>/dev/null \x5C\x0A\x09|| mount $MOUNT_FORCE_OPT -n -o remount,ro               \
\x20       /\x0A\x09ES=$?\x0A\x09[ \x22$VERBOSE\x22 = no ] || log_action_end_msg $ES\x0A}\x0A\x0Acas\
e \x22$1\x22 in\x0A  start|status)\x0A\x09# No-op\x0A\x09;;\x0A  restart|reload|force-reload)\x0A\
\x09echo \x22Error: argument '$1' not s";
    assert_equal!(&rt, block(&rt, octets.as_slice()), Some((2, Some(512))));
}

#[test]
fn the_second_acknowledgment_is_read(rt: HostRuntime) {
    assert_equal!(
        &rt,
        block(
            &rt,
            b"\
\x00\x04\x00\x02"
                .as_slice()
        ),
        Some((2, None))
    );
}

#[test]
fn the_last_block_is_read(rt: HostRuntime) {
    let octets = b"\
\x00\x03\x00\x03upported\x22 >&2\x0A\x09exit 3\x0A\x09;;\x0A  stop)\x0A\x09do_stop\x0A\x09;;\x0A  *)\
\x0A\x09echo \x22Usage: $0 start|stop\x22 >&2\x0A\x09exit 3\x0A\x09;;\x0Aesac\x0A\x0A:\x0A";
    assert_equal!(&rt, block(&rt, octets.as_slice()), Some((3, Some(105))));
}

#[test]
fn the_last_acknowledgment_is_read(rt: HostRuntime) {
    assert_equal!(
        &rt,
        block(
            &rt,
            b"\
\x00\x04\x00\x03"
                .as_slice()
        ),
        Some((3, None))
    );
}

/// Whether octets aren't a packet.
fn is_refused<R: AsOctets + Copy>(octets: R) -> bool {
    refusal::<Of<Packet<R>>, R>(octets).is_some()
}

#[test]
fn what_is_no_packet_is_refused(rt: HostRuntime) {
    for octets in [
        b"".as_slice(),
        b"\0",
        b"\0\0",
        b"\0\x06\0\0",
        b"\x01\x01a\0b\0",
        b"\0\x01a\0b",
        b"\0\x01a",
        b"\0\x01a\0b\0c",
        b"\0\x03\0",
        b"\0\x04\0\x01\0",
        b"\0\x05\0\x01words",
    ] {
        assert_equal!(&rt, is_refused(octets), true);
    }
}
