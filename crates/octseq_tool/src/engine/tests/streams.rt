//! A reader and writers over memory: they take a few octets at a time and fail at one call, or request no memory.
use octseq::array::Array;
use octseq::builder::OctetsBuilder;
use std::io::{self, Error, ErrorKind, Read, Write};

/// The call at which a stream fails, counted from 1, or 0 for none. It goes on after that.
#[derive(Clone, Copy)]
pub struct Failure {
    pub at: usize,
    pub kind: ErrorKind,
}

/// No failure.
pub const NONE: Failure = Failure {
    at: 0,
    kind: ErrorKind::Other,
};

impl Failure {
    /// Counts a call, and fails if it is the one.
    fn call(&mut self) -> io::Result<()> {
        let fails = self.at == 1;
        self.at = self.at.saturating_sub(1);
        if fails {
            return Err(Error::from(self.kind));
        }
        Ok(())
    }
}

/// A reader of octets that come a few at a time.
#[derive(Drop)]
pub struct ShortReads<'a> {
    pub rest: &'a [u8],
    pub at_once: usize,
    pub failure: Failure,
}

impl Read for ShortReads<'_> {
    fn read(&mut self, buf: &mut [u8]) -> io::Result<usize> {
        self.failure.call()?;
        let count = self.at_once.min(buf.len());
        self.rest.read(&mut buf[..count])
    }
}

/// A writer that takes a few octets at a time.
#[derive(Drop)]
pub struct ShortWrites {
    pub taken: Vec<u8>,
    pub at_once: usize,
    pub failure: Failure,
}

impl Write for ShortWrites {
    fn write(&mut self, buf: &[u8]) -> io::Result<usize> {
        self.failure.call()?;
        let count = self.at_once.min(buf.len());
        self.taken.write(&buf[..count])
    }

    fn flush(&mut self) -> io::Result<()> {
        self.failure.call()
    }
}

/// A writer that requests no memory, and has room for 64 octets.
#[derive(Drop)]
pub struct Fixed {
    pub taken: Array<64>,
}

impl Write for Fixed {
    fn write(&mut self, buf: &[u8]) -> io::Result<usize> {
        match self.taken.append_slice(buf) {
            Ok(()) => Ok(buf.len()),
            Err(_) => Err(Error::from(ErrorKind::WriteZero)),
        }
    }

    fn flush(&mut self) -> io::Result<()> {
        Ok(())
    }
}
