//! A reader or a writer that no signal interrupts.
ghost use Rattle.std.specs.Prelude.{◌≡◌, ◌≢◌, IfErr};
ghost use Rattle.std.specs.Io.{ReadsAtMost, WritesAtMost};
ghost use Rattle.std.specs.Io.KnownBytes.{ReadConsumes, WriteAppends};
ghost use Rattle.std.specs.IoError.{error_kind};

use crate::reading::read_retrying;
use crate::writing::write_retrying;
use std::io;
use std::io::{ErrorKind, Read, Write};

/// The reader or writer in it, whose calls are made again where a signal interrupted them. It tells
/// what that one tells.
#[derive(Drop)]
pub struct Retrying<S> {
    inner: S,
}

impl<S> Retrying<S> {
    /// This reader or writer, which is never interrupted.
    pub fn new(inner: S) -> Retrying<S>
        ensures { result ≡ record { inner = inner } }
    {
        Retrying { inner }
    }
}

impl<R: Read> Read for Retrying<R> {
    ghost remaining = { λ r. R.remaining r.inner };

    fn read(&mut self, buf: &mut [u8]) -> io::Result<usize>
        ensures bound { ReadsAtMost result buf.new }
        ensures bytes { ReadConsumes (R.remaining self.old.inner) (R.remaining self.new.inner)
            result buf.new }
        ensures retried { IfErr result (λ e. error_kind e ≢ ErrorKind.Interrupted) }
    {
        read_retrying(&mut self.inner, buf)
    }
}

impl<W: Write> Write for Retrying<W> {
    ghost contents = { λ w. W.contents w.inner };

    fn write(&mut self, buf: &[u8]) -> io::Result<usize>
        ensures bound { WritesAtMost result buf.now }
        ensures bytes { WriteAppends (W.contents self.old.inner) (W.contents self.new.inner)
            result buf.now }
        ensures retried { IfErr result (λ e. error_kind e ≢ ErrorKind.Interrupted) }
    {
        write_retrying(&mut self.inner, buf)
    }

    fn flush(&mut self) -> io::Result<()> {
        self.inner.flush()
    }
}
