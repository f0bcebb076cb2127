//! Files of records, read one at a time.
use crate::tests::records::OTHER;
use crate::tests::unwrap;
use octseq_asserts::{assert_equal, assert_true};
use octseq_mrt::{RecordError, RecordReader, read_record};
use std::alloc::AllocGlobal;
use std::io::{self, Error, ErrorKind, Read};
use std::process::Abort;

/// A source that gives one octet at a time, stalls before each, and may fail at its end.
#[derive(Drop)]
struct Slow<'a> {
    rest: &'a [u8],
    is_ready: bool,
    fails: bool,
}

impl Read for Slow<'_> {
    fn read(&mut self, buf: &mut [u8]) -> io::Result<usize> {
        self.is_ready = !self.is_ready;
        if self.is_ready {
            return Err(Error::from(ErrorKind::Interrupted));
        }
        if self.fails && self.rest.is_empty() {
            return Err(Error::from(ErrorKind::ConnectionReset));
        }
        let count = buf.len().min(1);
        self.rest.read(&mut buf[..count])
    }
}

/// Two records of 14 octets each.
const TWO: &[u8] = b"\x65\x53\xF1\x00\0\x0C\0\x01\0\0\0\x02\x01\x02\
\x65\x53\xF1\x00\0\x0C\0\x02\0\0\0\x02\x03\x04";

#[test]
fn records_are_read_one_at_a_time(rt: HostRuntime) {
    let mut records = RecordReader::new(rt.alloc(), TWO);
    assert_true!(&rt, records.record().is_err());
    assert_true!(&rt, unwrap(&rt, records.read_next()));
    assert_equal!(&rt, records.octets(), OTHER);
    assert_equal!(&rt, unwrap(&rt, records.record()).header.subtype, 1);
    assert_equal!(&rt, records.get_ref().len(), 14);
    assert_true!(&rt, unwrap(&rt, records.read_next()));
    assert_equal!(&rt, unwrap(&rt, records.record()).header.subtype, 2);
    assert_true!(&rt, !unwrap(&rt, records.read_next()));
    assert_true!(&rt, !unwrap(&rt, records.read_next()));
}

#[test]
fn a_source_that_stalls_is_read(rt: HostRuntime) {
    let source = Slow {
        rest: TWO,
        is_ready: false,
        fails: true,
    };
    let mut records = RecordReader::new(rt.alloc(), source);
    assert_true!(&rt, unwrap(&rt, records.read_next()));
    assert_true!(&rt, unwrap(&rt, records.read_next()));
    assert_true!(
        &rt,
        matches!(records.read_next(), Err(RecordError::Read(_)))
    );
    assert_true!(&rt, !unwrap(&rt, records.read_next()));
}

/// Checks how reading a truncated file ends.
fn ends_short(rt: &(impl Abort + AllocGlobal), len: usize) {
    let front = unwrap(rt, TWO.get(..len).ok_or("too long"));
    let mut records = RecordReader::new(rt.alloc(), front);
    for _ in 0..len / 14 {
        assert_true!(rt, unwrap(rt, records.read_next()));
    }
    if len % 14 > 0 {
        assert_true!(rt, matches!(records.read_next(), Err(RecordError::Short)));
        assert_true!(rt, records.record().is_err());
    }
    assert_true!(rt, !unwrap(rt, records.read_next()));
    assert_true!(rt, records.octets().is_empty());
}

#[test]
fn a_file_that_is_cut_off_is_reported(rt: HostRuntime) {
    for len in 0..29 {
        ends_short(&rt, len);
    }
}

/// Checks a source that fails after some octets.
fn fails_after(rt: &(impl Abort + AllocGlobal), len: usize) {
    let front = unwrap(rt, TWO.get(..len).ok_or("too long"));
    let source = Slow {
        rest: front,
        is_ready: false,
        fails: true,
    };
    let mut records = RecordReader::new(rt.alloc(), source);
    for _ in 0..len / 14 {
        assert_true!(rt, unwrap(rt, records.read_next()));
    }
    assert_true!(rt, matches!(records.read_next(), Err(RecordError::Read(_))));
    assert_true!(rt, records.record().is_err() && records.octets().is_empty());
    assert_true!(rt, !unwrap(rt, records.read_next()));
}

#[test]
fn a_read_that_fails_is_reported(rt: HostRuntime) {
    for len in 0..29 {
        fails_after(&rt, len);
    }
}

#[test]
fn a_header_alone_asks_for_little_memory(rt: HostRuntime) {
    let header = b"\x65\x53\xF1\x00\0\x0C\0\x01\xFF\xFF\xFF\xFF\x01";
    let mut source = header.as_slice();
    let mut octets = Vec::new(rt.alloc());
    let found = read_record(&mut source, &mut octets);
    assert_true!(&rt, matches!(found, Err(RecordError::Short)));
    assert_true!(&rt, octets.is_empty() && octets.capacity() < 262_144);
}

#[test]
fn a_long_record_is_read(rt: HostRuntime) {
    let mut file = unwrap(
        &rt,
        b"\x65\x53\xF1\x00\0\x0C\0\x01\0\x02\0\x01".to_vec(rt.alloc()),
    );
    unwrap(&rt, file.resize(12 + 131_073, 7));
    let mut records = RecordReader::new(rt.alloc(), file.as_slice());
    assert_true!(&rt, unwrap(&rt, records.read_next()));
    assert_equal!(&rt, records.octets(), file.as_slice());
    assert_true!(&rt, !unwrap(&rt, records.read_next()));
}
