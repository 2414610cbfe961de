//! Sources and sinks of bytes, and what is both.
ghost use Rattle.std.specs.Prelude.{◌≡◌};
ghost use Rattle.std.specs.Io.{ReadsAtMost};
ghost use Rattle.std.specs.Io.KnownBytes.{ReadConsumes};
ghost use Rattle.ov_base.specs.Causes.{HasCause};
ghost use Rattle.ov_io.specs.Putting.{Puts};
ghost use Rattle.ov_io.specs.Streams.{LeavesSource, LeavesSink};
ghost use Rattle.ov_io.specs.Tells.{SourceTells, SinkTells};

/// A read or a write failed.
#[derive(Clone, Copy, Debug, PartialEq, Eq)]
pub struct Fault;

/// What bytes are taken from.
pub trait Source {
    /// The bytes that are left, how often the source has failed, and which loan it is.
    ghost tells: { SourceTells Self };

    /// Takes the next bytes into the front of `buf`, and answers how many. It answers 0 where the
    /// input has ended or `buf` is empty, and never otherwise. After a fault nothing was taken.
    fn take(&mut self, buf: &mut [u8]) -> Result<usize, Fault>
        ensures bound { ReadsAtMost result buf.new }
        ensures bytes { ReadConsumes (tells.left self.old) (tells.left self.new) result buf.new }
        ensures same { tells.borrow self.new ≡ tells.borrow self.old }
        ensures cause { HasCause (tells.faults self.old) (tells.faults self.new) result }
        ensures step { tells.takes self.old self.new };
}

/// What bytes are put to.
pub trait Sink {
    /// The bytes that were written, how often the sink has failed, and which loan it is.
    ghost tells: { SinkTells Self };

    /// Appends all the bytes. After a fault some front of them was appended.
    fn put(&mut self, bytes: &[u8]) -> Result<(), Fault>
        ensures bytes { Puts (tells.written self.old) (tells.written self.new) result bytes.now }
        ensures same { tells.borrow self.new ≡ tells.borrow self.old }
        ensures cause { HasCause (tells.faults self.old) (tells.faults self.new) result }
        ensures step { tells.puts self.old self.new };
}

/// What bytes are taken from and put to: neither call touches what the other half tells.
pub trait Stream: Source + Sink {
    /// What a take leaves: the bytes that were written, and the faults and the loan of the sink.
    ghost take_leaves: { (old new : Self) → Self.Source.tells.takes old new
        → LeavesSink Self.Sink.tells old new };

    /// What a put leaves: the bytes that are left, and the faults and the loan of the source.
    ghost put_leaves: { (old new : Self) → Self.Sink.tells.puts old new
        → LeavesSource Self.Source.tells old new };
}

impl<S: Source> Source for &mut S {
    ghost tells = { record {
      left = λ s. S.tells.left s.now;
      faults = λ s. S.tells.faults s.now;
      borrow = λ s. s.ghost_name;
      takes = λ a b. (b.ghost_name ≡ a.ghost_name) × S.tells.takes a.now b.now;
    } };

    fn take(&mut self, buf: &mut [u8]) -> Result<usize, Fault> {
        Source::take(&mut **self, buf)
    }
}

impl<S: Sink> Sink for &mut S {
    ghost tells = { record {
      written = λ s. S.tells.written s.now;
      faults = λ s. S.tells.faults s.now;
      borrow = λ s. s.ghost_name;
      puts = λ a b. (b.ghost_name ≡ a.ghost_name) × S.tells.puts a.now b.now;
    } };

    fn put(&mut self, bytes: &[u8]) -> Result<(), Fault> {
        Sink::put(&mut **self, bytes)
    }
}

impl<S: Stream> Stream for &mut S {
    ghost take_leaves = { λ old new took.
        let left = S.take_leaves old.now new.now took.1 in
        record { bytes = left.bytes; faults = left.faults; borrow = took.0 } };

    ghost put_leaves = { λ old new put.
        let left = S.put_leaves old.now new.now put.1 in
        record { bytes = left.bytes; faults = left.faults; borrow = put.0 } };
}
