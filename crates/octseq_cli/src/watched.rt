//! A reader or a writer that keeps the reason why it failed.
ghost use Rattle.std.specs.Prelude.{◌≡◌, None, Some, Option, IfErr};
ghost use Rattle.std.specs.Io.{ReadsAtMost, WritesAtMost};
ghost use Rattle.std.specs.Io.KnownBytes.{Keeps, ReadConsumes, WriteAppends};

use std::io::{self, Error, Read, Write};

/// A reader or a writer, and the error of its last read, write or flush that failed.
#[derive(Drop)]
pub struct Watched<R> {
    /// The reader or the writer.
    pub inner: R,
    /// The error of what failed last.
    pub error: Option<Error>,
}

impl<R> Watched<R> {
    /// Watches a reader or a writer.
    pub fn new(inner: R) -> Watched<R>
        ensures inner { result.inner ≡ inner }
        ensures error { result.error ≡ None }
    {
        Watched { inner, error: None }
    }
}

impl<R: Read> Read for Watched<R> {
    ghost remaining = { λ it. R.remaining it.inner };

    fn read(&mut self, buf: &mut [u8]) -> io::Result<usize>
        ensures bound { ReadsAtMost result buf.new }
        ensures bytes { ReadConsumes (R.remaining self.old.inner) (R.remaining self.new.inner) result buf.new }
        ensures reason { IfErr result (λ e. self.new.error ≡ Some e) }
    {
        let read = self.inner.read(buf);
        if let Err(error) = &read {
            self.error = Some(*error);
        }
        read
    }
}

impl<W: Write> Write for Watched<W> {
    ghost contents = { λ it. W.contents it.inner };

    fn write(&mut self, buf: &[u8]) -> io::Result<usize>
        ensures bound { WritesAtMost result buf.now }
        ensures bytes { WriteAppends (W.contents self.old.inner) (W.contents self.new.inner) result buf.now }
        ensures reason { IfErr result (λ e. self.new.error ≡ Some e) }
    {
        let written = self.inner.write(buf);
        if let Err(error) = &written {
            self.error = Some(*error);
        }
        written
    }

    fn flush(&mut self) -> io::Result<()>
        ensures bytes { Keeps (W.contents self.old.inner) (W.contents self.new.inner) }
        ensures reason { IfErr result (λ e. self.new.error ≡ Some e) }
    {
        let flushed = self.inner.flush();
        if let Err(error) = &flushed {
            self.error = Some(*error);
        }
        flushed
    }
}
