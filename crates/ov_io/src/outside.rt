//! Sources and sinks over std's readers and writers. Over the system's own, what these really give
//! and take is trusted.
ghost use Rattle.std.specs.Prelude.{◌≡◌, ◌≤◌, length, take, ⊤};
ghost use Rattle.std.specs.Io.{ReadsAtMost};
ghost use Rattle.std.specs.Io.KnownBytes.{Appends, ReadConsumes};
ghost use Rattle.ov_base.specs.Causes.{HasCause, Counts};
ghost use Rattle.ov_io.specs.Putting.{Puts};

use crate::{Fault, Sink, Source};
use std::io::{Read, Write};

// Takes bytes from a reader. An error of the reader, an interruption included, is a fault.
pub fn read_some<R: Read>(reader: &mut R, buf: &mut [u8]) -> Result<usize, Fault>
    ensures bound { ReadsAtMost result buf.new }
    ensures bytes { ReadConsumes (R.remaining reader.old) (R.remaining reader.new) result buf.new }
{
    match reader.read(buf) {
        Ok(count) => Ok(count),
        Err(_) => Err(Fault),
    }
}

/// Any reader of std. An error of the reader, an interruption included, is a fault.
#[derive(Drop)]
pub struct StdSource<R: Read> {
    reader: R,
    faults: u64,
}

impl<R: Read> StdSource<R> {
    /// A source over this reader, which has not failed yet.
    pub fn new(reader: R) -> StdSource<R>
        ensures { result ≡ record { reader = reader; faults = 0 } }
    {
        StdSource { reader, faults: 0 }
    }
}

impl<R: Read> Source for StdSource<R> {
    ghost tells = { record {
      left = λ s. R.remaining s.reader;
      faults = λ s. s.faults;
      borrow = λ _. 0;
      takes = λ _ _. ⊤;
    } };

    fn take(&mut self, buf: &mut [u8]) -> Result<usize, Fault>
        ensures bound { ReadsAtMost result buf.new }
        ensures bytes { ReadConsumes (R.remaining self.old.reader) (R.remaining self.new.reader)
            result buf.new }
        ensures cause { HasCause self.old.faults self.new.faults result }
        ensures counted { Counts self.old.faults self.new.faults result }
    {
        let taken = read_some(&mut self.reader, buf);
        if taken.is_err() {
            self.faults = self.faults.saturating_add(1);
        }
        taken
    }
}

/// Any writer of std. An error of the writer, an interruption included, and a write that takes
/// nothing are faults.
#[derive(Drop)]
pub struct StdSink<W: Write> {
    writer: W,
    faults: u64,
}

impl<W: Write> StdSink<W> {
    /// A sink over this writer, which has not failed yet.
    pub fn new(writer: W) -> StdSink<W>
        ensures { result ≡ record { writer = writer; faults = 0 } }
    {
        StdSink { writer, faults: 0 }
    }
}

// Writes some of the bytes, and says how many: none where the writer fails.
fn write_some<W: Write>(writer: &mut W, bytes: &[u8]) -> usize
    ensures bound { result ≤ length bytes.now }
    ensures bytes { Appends (W.contents writer.old) (W.contents writer.new)
        (take result bytes.now) }
{
    match writer.write(bytes) {
        Ok(count) => count,
        Err(_) => 0,
    }
}

// Writes all the bytes.
pub fn write_all<W: Write>(writer: &mut W, bytes: &[u8]) -> Result<(), Fault>
    ensures { Puts (W.contents writer.old) (W.contents writer.new) result bytes.now }
{
    let mut rest = bytes;
    'parts: while !rest.is_empty() {
        let count = write_some(writer, rest);
        if count == 0 {
            return Err(Fault);
        }
        let (_, more) = rest.split_at(count);
        rest = more;
    }
    Ok(())
}

impl<W: Write> Sink for StdSink<W> {
    ghost tells = { record {
      written = λ s. W.contents s.writer;
      faults = λ s. s.faults;
      borrow = λ _. 0;
      puts = λ _ _. ⊤;
    } };

    fn put(&mut self, bytes: &[u8]) -> Result<(), Fault>
        ensures bytes { Puts (W.contents self.old.writer) (W.contents self.new.writer)
            result bytes.now }
        ensures cause { HasCause self.old.faults self.new.faults result }
        ensures counted { Counts self.old.faults self.new.faults result }
    {
        let written = write_all(&mut self.writer, bytes);
        if written.is_err() {
            self.faults = self.faults.saturating_add(1);
        }
        written
    }
}
