//! Readers and writers for tests of programs: they take few octets at a time, fail, or request no memory.
use octseq::array::Array;
use octseq::builder::OctetsBuilder;
use std::io::{self, Error, ErrorKind, Read, Write};

/// A reader of octets that come a few at a time, and fails after some reads.
#[derive(Drop)]
pub struct ShortReads<'a> {
    /// The octets that are left.
    pub rest: &'a [u8],
    /// The maximum number of octets of a read.
    pub at_once: usize,
    /// The number of reads that succeed.
    pub reads: usize,
}

impl Read for ShortReads<'_> {
    fn read(&mut self, buf: &mut [u8]) -> io::Result<usize> {
        if self.reads == 0 {
            return Err(Error::from(ErrorKind::ConnectionReset));
        }
        self.reads -= 1;
        let count = self.at_once.min(buf.len());
        self.rest.read(&mut buf[..count])
    }
}

/// A writer that takes a few octets at a time, and fails after some calls.
#[derive(Drop)]
pub struct ShortWrites {
    /// The octets that it took.
    pub taken: Vec<u8>,
    /// The maximum number of octets of a write.
    pub at_once: usize,
    /// The number of calls that succeed.
    pub calls: usize,
}

impl ShortWrites {
    /// Counts a call, or fails if there are none left.
    fn call(&mut self) -> io::Result<()> {
        if self.calls == 0 {
            return Err(Error::from(ErrorKind::BrokenPipe));
        }
        self.calls -= 1;
        Ok(())
    }
}

impl Write for ShortWrites {
    fn write(&mut self, buf: &[u8]) -> io::Result<usize> {
        self.call()?;
        let count = self.at_once.min(buf.len());
        self.taken.write(&buf[..count])
    }

    fn flush(&mut self) -> io::Result<()> {
        self.call()
    }
}

/// A writer that takes one octet at a time, fails at one write, and goes on after it.
#[derive(Drop)]
pub struct FailingWriter {
    /// The octets that it took.
    pub taken: Vec<u8>,
    /// The number of the write that fails, counted from 1, or 0 for none.
    pub until_failure: usize,
    /// The kind of the error.
    pub kind: ErrorKind,
}

impl Write for FailingWriter {
    fn write(&mut self, buf: &[u8]) -> io::Result<usize> {
        let fails = self.until_failure == 1;
        self.until_failure = self.until_failure.saturating_sub(1);
        if fails {
            return Err(Error::from(self.kind));
        }
        self.taken.write(&buf[..buf.len().min(1)])
    }

    fn flush(&mut self) -> io::Result<()> {
        Ok(())
    }
}

/// A writer that requests no memory, and has room for `N` octets.
#[derive(Drop)]
pub struct Fixed<const N: usize> {
    /// The octets that it took.
    pub taken: Array<N>,
}

impl<const N: usize> Write for Fixed<N> {
    fn write(&mut self, buf: &[u8]) -> io::Result<usize> {
        match self.taken.append_slice(buf) {
            Ok(()) => Ok(buf.len()),
            Err(_) => Err(Error::from(ErrorKind::WriteZero)),
        }
    }

    fn flush(&mut self) -> io::Result<()> {
        Ok(())
    }
}
