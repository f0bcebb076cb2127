//! Files written record by record, and read back.
use crate::tests::events::{OCTETS, between, message};
use crate::tests::ribs::prefix;
use crate::tests::unwrap;
use crate::tests::written::peer;
use octseq::{Array, AsOctets};
use octseq_asserts::{assert_equal, assert_true};
use octseq_bgp::family::{Afi, AfiSafiType};
use octseq_bgp::prefix::PathId;
use octseq_mrt::{
    Bgp4MpSubtype, Event, PeerTableBuilder, RecordKind, RecordReader, RecordWriter, RibBuilder,
    WriteRecordError,
};
use std::alloc::AllocGlobal;
use std::io::{self, Error, ErrorKind, Write};
use std::process::Abort;

/// A file of a table with a peer, two RIBs, octets that are no message, and a state change.
const FILE: &[u8] = b"\x65\x53\xF1\x00\0\x0D\0\x01\0\0\0\x14\
\x0A\0\0\x09\0\x01v\0\x01\0\x0A\0\0\x01\x0A\0\0\x01\xFD\xE9\
\x65\x53\xF1\x01\0\x0D\0\x02\0\0\0\x14\
\0\0\0\0\x08\x0A\0\x01\0\0\x65\x53\xF1\x00\0\x04\x40\x01\x01\0\
\x65\x53\xF1\x02\0\x0D\0\x0A\0\0\0\x1A\
\0\0\0\x01\x18\x20\x01\x0D\0\x01\0\0\0\0\0\0\0\0\0\x07\0\x04\x40\x01\x01\x02\
\x65\x53\xF1\x03\0\x10\0\x01\0\0\0\x13\
\xFD\xE9\xFD\xEA\0\x03\0\x01\x0A\0\0\x01\x0A\0\0\x02\x01\x02\x03\
\x65\x53\xF1\x04\0\x11\0\x05\0\0\0\x1C\
\0\0\0\x05\0\0\xFD\xE9\0\0\xFD\xEA\0\x03\0\x01\x0A\0\0\x01\x0A\0\0\x02\0\x05\0\x06";

/// The text of those records.
const TEXT: &str = "peers 1700000000 collector 10.0.0.9 view \"v\"
peer 0 id 10.0.0.1 address 10.0.0.1 as 65001
rib 1700000001 2 sequence 0 10.0.0.0/8
entry 0 time 1700000000
attribute T ORIGIN IGP
rib 1700000002 10 sequence 1 2001:d00::/24
entry 0 time 0 path 7
attribute T ORIGIN INCOMPLETE
bgp4mp 1700000003 1 peer 10.0.0.1 as 65001 local 10.0.0.2 as 65002 interface 3
malformed
bgp4mp 1700000004.000005 5 peer 10.0.0.1 as 65001 local 10.0.0.2 as 65002 interface 3 state 5 6
";

/// Writes a table with a peer.
fn write_table<W: Write>(
    rt: &(impl Abort + AllocGlobal),
    records: &mut RecordWriter<W>,
) -> Result<(), WriteRecordError> {
    let octets = Array::<64>::new();
    let mut table = unwrap(rt, PeerTableBuilder::new(octets, 0x0A000009, b"v"));
    unwrap(rt, table.push_peer(&peer(0, 65001)));
    records.write_record(1_700_000_000, RecordKind::PeerIndexTable, table.as_slice())
}

/// Writes a RIB of IPv4, and one of IPv6 with path ids.
fn write_ribs<W: Write>(
    rt: &(impl Abort + AllocGlobal),
    records: &mut RecordWriter<W>,
) -> Result<(), WriteRecordError> {
    let ipv4 = prefix(Afi::Ipv4, 8, [10, 0, 0, 0]);
    let octets = Array::<64>::new();
    let family = AfiSafiType::Ipv4Unicast;
    let mut rib = unwrap(rt, RibBuilder::new(octets, family, false, 0, &ipv4));
    unwrap(
        rt,
        rib.push_entry(0, 1_700_000_000, None, b"\x40\x01\x01\0"),
    );
    records.write_record(1_700_000_001, rib.kind(), rib.as_slice())?;
    let ipv6 = prefix(Afi::Ipv6, 24, [0x20, 1, 0x0D, 0xB8]);
    let octets = Array::<64>::new();
    let family = AfiSafiType::Ipv6Unicast;
    let mut rib = unwrap(rt, RibBuilder::new(octets, family, true, 1, &ipv6));
    unwrap(
        rt,
        rib.push_entry(0, 0, Some(PathId(7)), b"\x40\x01\x01\x02"),
    );
    records.write_record(1_700_000_002, rib.kind(), rib.as_slice())
}

/// Writes a message of these octets, and a state change with microseconds.
fn write_events<R: AsOctets + Copy, W: Write>(
    rt: &impl Abort,
    records: &mut RecordWriter<W>,
    octets: R,
) -> Result<(), WriteRecordError> {
    let subtype = Bgp4MpSubtype::Message;
    let mut written = Array::<64>::new();
    let it = message(octets, subtype);
    unwrap(rt, it.append_octets(subtype, &mut written));
    records.write_record(1_700_000_003, it.kind(subtype), written.as_slice())?;
    let subtype = Bgp4MpSubtype::StateChangeAs4;
    let mut written = Array::<64>::new();
    let mut it = between::<R>(Event::StateChange(5, 6));
    it.microseconds = Some(5);
    unwrap(rt, it.append_octets(subtype, &mut written));
    records.write_record(1_700_000_004, it.kind(subtype), written.as_slice())
}

/// Writes the file.
fn write_file<W: Write>(
    rt: &(impl Abort + AllocGlobal),
    records: &mut RecordWriter<W>,
) -> Result<(), WriteRecordError> {
    write_table(rt, records)?;
    write_ribs(rt, records)?;
    write_events(rt, records, OCTETS)
}

/// Ends the test if a file of five records doesn't have this text.
fn assert_text(rt: &(impl Abort + AllocGlobal), file: &[u8], wanted: &str) {
    let mut reader = RecordReader::new(rt.alloc(), file);
    let mut text = String::new(rt.alloc());
    for _ in 0..5 {
        assert_true!(rt, unwrap(rt, reader.read_next()));
        let record = unwrap(rt, reader.record());
        unwrap(rt, write!(text, "{record}"));
    }
    assert_true!(rt, !unwrap(rt, reader.read_next()));
    assert_equal!(rt, text.as_str(), wanted);
}

#[test]
fn a_file_is_written_and_read_back(rt: HostRuntime) {
    let mut records = RecordWriter::new(Vec::new(rt.alloc()));
    unwrap(&rt, write_file(&rt, &mut records));
    let file = records.into_inner();
    assert_equal!(&rt, file.as_slice(), FILE);
    assert_text(&rt, file.as_slice(), TEXT);
}

/// A sink that takes a few octets at a time, fails at one write, and goes on after it.
#[derive(Drop)]
struct Failing {
    taken: Vec<u8>,
    at_once: usize,
    until_failure: usize,
    kind: ErrorKind,
    has_failed: bool,
}

impl Write for Failing {
    fn write(&mut self, buf: &[u8]) -> io::Result<usize> {
        let fails = self.until_failure == 1;
        self.until_failure = self.until_failure.saturating_sub(1);
        if fails {
            self.has_failed = true;
            return Err(Error::from(self.kind));
        }
        let count = self.at_once.min(buf.len());
        self.taken.write(&buf[..count])
    }

    fn flush(&mut self) -> io::Result<()> {
        Ok(())
    }
}

/// Writes the file to a sink that fails at a write, and checks what it took. Returns whether it failed.
fn fails_at(
    rt: &(impl Abort + AllocGlobal),
    write: usize,
    at_once: usize,
    kind: ErrorKind,
) -> bool {
    let sink = Failing {
        taken: Vec::new(rt.alloc()),
        at_once,
        until_failure: write,
        kind,
        has_failed: false,
    };
    let mut records = RecordWriter::new(sink);
    let written = write_file(rt, &mut records);
    let sink = records.get_ref();
    assert_true!(rt, FILE.starts_with(sink.taken.as_slice()));
    let ends = sink.has_failed && kind != ErrorKind::Interrupted;
    assert_equal!(rt, sink.taken.len() < FILE.len(), ends);
    assert_equal!(rt, matches!(written, Err(WriteRecordError::Write(_))), ends);
    sink.has_failed
}

#[test]
fn what_a_failing_sink_took_is_a_prefix(rt: HostRuntime) {
    // (a header and what follows it are a write each)
    for write in 1..12 {
        let failed = fails_at(&rt, write, 1000, ErrorKind::BrokenPipe);
        assert_equal!(&rt, failed, write <= 10);
        fails_at(&rt, write, 1000, ErrorKind::Interrupted);
    }
    for write in 1..200 {
        let failed = fails_at(&rt, write, 1, ErrorKind::BrokenPipe);
        assert_equal!(&rt, failed, write <= FILE.len());
    }
    fails_at(&rt, 7, 1, ErrorKind::Interrupted);
}
