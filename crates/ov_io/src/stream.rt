//! Streams: in memory, and over what std reads and writes.
ghost use Rattle.std.specs.Prelude.{◌≡◌, length, None, Some, IsErr, OnErr, Contains};
ghost use Rattle.std.specs.Io.{ReadsAtMost};
ghost use Rattle.std.specs.Io.KnownBytes.{ReadConsumes};
ghost use Rattle.ov_base.specs.Causes.{HasCause, Counts};
ghost use Rattle.ov_io.specs.Memory.{IsTake, IsPut, Gives};
ghost use Rattle.ov_io.specs.Putting.{Puts};

use crate::outside::{read_some, write_all};
use crate::{Fault, MemSink, MemSource, Sink, Source, Stream};
use std::io::{Read, Write};

/// A source and a sink in memory: what a peer sends, and what it is sent.
#[derive(Drop)]
pub struct MemStream {
    pub source: MemSource,
    pub sink: MemSink,
}

impl Source for MemStream {
    ghost tells = { record {
      left = λ s. Some s.source.left;
      faults = λ s. s.source.faults;
      borrow = λ _. 0;
      takes = λ a b. IsTake a.source b.source × (b.sink ≡ a.sink);
    } };

    fn take(&mut self, buf: &mut [u8]) -> Result<usize, Fault>
        ensures bound { ReadsAtMost result buf.new }
        ensures bytes { ReadConsumes (Some self.old.source.left) (Some self.new.source.left)
            result buf.new }
        ensures cause { HasCause self.old.source.faults self.new.source.faults result }
        ensures counted { Counts self.old.source.faults self.new.source.faults result }
        ensures step { IsTake self.old.source self.new.source × (self.new.sink ≡ self.old.sink) }
        ensures gives { Gives self.old.source (length buf.old) result }
    {
        self.source.take(buf)
    }
}

impl Sink for MemStream {
    ghost tells = { record {
      written = λ s. Some s.sink.written;
      faults = λ s. s.sink.faults;
      borrow = λ _. 0;
      puts = λ a b. IsPut a.sink b.sink × (b.source ≡ a.source);
    } };

    fn put(&mut self, bytes: &[u8]) -> Result<(), Fault>
        ensures bytes { Puts (Some self.old.sink.written) (Some self.new.sink.written)
            result bytes.now }
        ensures counted { Counts self.old.sink.faults self.new.sink.faults result }
        ensures cause { HasCause self.old.sink.faults self.new.sink.faults result }
        ensures step { IsPut self.old.sink self.new.sink × (self.new.source ≡ self.old.source) }
        ensures fails { Contains self.old.sink.fails self.old.sink.calls → IsErr result }
        ensures kept { OnErr result (self.new.sink.written ≡ self.old.sink.written) }
    {
        self.sink.put(bytes)
    }
}

impl Stream for MemStream {
    ghost use Rattle.std.proofs.Common.{refl, ap};
    ghost use Rattle.ov_io.specs.Memory.{Reads, Writes};

    ghost take_leaves = { λ old new took. record {
      bytes = ap (λ (w : Writes). Some w.written) took.1;
      faults = ap (λ (w : Writes). w.faults) took.1;
      borrow = refl;
    } };

    ghost put_leaves = { λ old new put. record {
      bytes = ap (λ (r : Reads). Some r.left) put.1;
      faults = ap (λ (r : Reads). r.faults) put.1;
      borrow = refl;
    } };
}

/// What std reads and writes both, such as a socket, as a stream, which tells nothing of its bytes.
/// An error, an interruption included, and a write that takes nothing are faults.
#[derive(Drop)]
pub struct StdStream<S: Read + Write + Drop> {
    inner: S,
    read_faults: u64,
    write_faults: u64,
}

impl<S: Read + Write + Drop> StdStream<S> {
    /// A stream over this, which has not failed yet.
    pub fn new(inner: S) -> StdStream<S>
        ensures { result ≡ record { inner = inner; read_faults = 0; write_faults = 0 } }
    {
        StdStream {
            inner,
            read_faults: 0,
            write_faults: 0,
        }
    }
}

impl<S: Read + Write + Drop> Source for StdStream<S> {
    ghost tells = { record {
      left = λ _. None;
      faults = λ s. s.read_faults;
      borrow = λ _. 0;
      takes = λ a b. b.write_faults ≡ a.write_faults;
    } };

    fn take(&mut self, buf: &mut [u8]) -> Result<usize, Fault> {
        let taken = read_some(&mut self.inner, buf);
        if taken.is_err() {
            self.read_faults = self.read_faults.saturating_add(1);
        }
        taken
    }
}

impl<S: Read + Write + Drop> Sink for StdStream<S> {
    ghost tells = { record {
      written = λ _. None;
      faults = λ s. s.write_faults;
      borrow = λ _. 0;
      puts = λ a b. b.read_faults ≡ a.read_faults;
    } };

    fn put(&mut self, bytes: &[u8]) -> Result<(), Fault> {
        let written = write_all(&mut self.inner, bytes);
        if written.is_err() {
            self.write_faults = self.write_faults.saturating_add(1);
        }
        written
    }
}

impl<S: Read + Write + Drop> Stream for StdStream<S> {
    ghost use Rattle.std.proofs.Common.{refl};

    ghost take_leaves = { λ old new took. record { bytes = refl; faults = took; borrow = refl } };

    ghost put_leaves = { λ old new put. record { bytes = refl; faults = put; borrow = refl } };
}
