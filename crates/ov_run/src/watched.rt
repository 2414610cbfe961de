//! The key file and standard output, as a program hands them on.
use ov_io::{Fault, Source};
use std::io::{self, ErrorKind, Write};

/// A writer that remembers whether a write found that its reader is gone.
#[derive(Drop)]
pub struct Watched<W: Write> {
    writer: W,
    reader_is_gone: bool,
}

impl<W: Write> Watched<W> {
    /// Watches this writer.
    pub fn new(writer: W) -> Watched<W> {
        Watched {
            writer,
            reader_is_gone: false,
        }
    }

    /// Whether a write found that the reader is gone.
    pub fn reader_is_gone(&self) -> bool {
        self.reader_is_gone
    }
}

impl<W: Write> Write for Watched<W> {
    ghost contents = { λ w. W.contents w.writer };

    fn write(&mut self, buf: &[u8]) -> io::Result<usize> {
        let written = self.writer.write(buf);
        match &written {
            Ok(_) => {}
            Err(error) if error.kind() == ErrorKind::BrokenPipe => self.reader_is_gone = true,
            Err(_) => {}
        }
        written
    }

    fn flush(&mut self) -> io::Result<()> {
        self.writer.flush()
    }
}

/// A source that remembers whether a take failed.
#[derive(Drop)]
pub struct Tried<S: Source> {
    source: S,
    failed: bool,
}

impl<S: Source> Tried<S> {
    /// Watches this source.
    pub fn new(source: S) -> Tried<S> {
        Tried {
            source,
            failed: false,
        }
    }

    /// Whether a take failed.
    pub fn failed(&self) -> bool {
        self.failed
    }
}

impl<S: Source> Source for Tried<S> {
    ghost tells = { record {
      left = λ s. S.tells.left s.source;
      faults = λ s. S.tells.faults s.source;
      borrow = λ s. S.tells.borrow s.source;
      takes = λ a b. S.tells.takes a.source b.source;
    } };

    fn take(&mut self, buf: &mut [u8]) -> Result<usize, Fault> {
        let taken = self.source.take(buf);
        if taken.is_err() {
            self.failed = true;
        }
        taken
    }
}
