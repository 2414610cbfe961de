//! A source and a sink in memory, which fail at the calls that they are told to.
ghost use Rattle.std.specs.Prelude.{◌≡◌, ◌≤◌, ◌<◌, ◌↔◌, [], length, take, drop, Some, IsTrue, IsErr, OnErr, Contains, min};
ghost use Rattle.std.specs.Io.{ReadsAtMost};
ghost use Rattle.std.specs.Io.KnownBytes.{ReadConsumes};
ghost use Rattle.ov_base.specs.Causes.{HasCause, Counts};
ghost use Rattle.ov_io.specs.Putting.{Puts};
ghost use Rattle.ov_io.specs.Memory.{Reads, Writes, IsTake, IsPut, Gives};

use crate::{Fault, Sink, Source};
use ov_base::Octets;
use std::alloc::Global;
use std::marker::Model;

/// Bytes in memory, given in pieces.
#[derive(Drop)]
pub struct MemSource {
    bytes: Octets,
    given: usize,
    piece: usize,
    fails: Octets,
    calls: u64,
    faults: u64,
}

impl Model for MemSource {
    ghost Value = { Reads };

    ghost view = { λ s. record {
      left = drop s.given s.bytes;
      piece = s.piece;
      fails = s.fails;
      calls = s.calls;
      faults = s.faults;
    } };

    ghost invariant = { λ s. (s.given ≤ length s.bytes) × (0 < s.piece) };
}

// Whether the call of this number fails.
fn is_failing(fails: &Octets, call: u64) -> bool
    ensures { IsTrue result ↔ Contains fails.now call }
{
    fails.as_slice().iter().any(|n| u64::from(*n) == call)
}

// Copies as many bytes as are in `from`, fit into `to` and are at most `most`, and says how many.
fn give(from: &[u8], to: &mut [u8], most: usize) -> usize
    ensures count { result ≡ min (min (length from.now) (length to.old)) most }
    ensures bytes { take result to.new ≡ take result from.now }
    ensures none { result ≡ 0 → 0 < length to.old → 0 < most → from.now ≡ [] }
{
    let count = from.len().min(to.len()).min(most);
    to[..count].copy_from_slice(&from[..count]);
    count
}

impl MemSource {
    /// A source of these bytes, at most `piece` of them a call. A call fails exactly where `fails`
    /// has its number; calls are counted from 0, and 255 is the last that can be named.
    pub fn new(bytes: Octets, piece: usize, fails: Octets) -> MemSource
        requires { 0 < piece }
        ensures { result ≡ record {
          left = bytes;
          piece = piece;
          fails = fails;
          calls = 0;
          faults = 0;
        } }
    {
        MemSource {
            bytes,
            given: 0,
            piece,
            fails,
            calls: 0,
            faults: 0,
        }
    }
}

impl Source for MemSource {
    ghost tells = { record {
      left = λ s. Some s.left;
      faults = λ s. s.faults;
      borrow = λ _. 0;
      takes = IsTake;
    } };

    fn take(&mut self, buf: &mut [u8]) -> Result<usize, Fault>
        ensures bound { ReadsAtMost result buf.new }
        ensures bytes { ReadConsumes (Some self.old.left) (Some self.new.left) result buf.new }
        ensures cause { HasCause self.old.faults self.new.faults result }
        ensures counted { Counts self.old.faults self.new.faults result }
        ensures step { IsTake self.old self.new }
        ensures gives { Gives self.old (length buf.old) result }
    {
        let call = self.calls;
        self.calls = call.saturating_add(1);
        if is_failing(&self.fails, call) {
            self.faults = self.faults.saturating_add(1);
            return Err(Fault);
        }
        let (_, rest) = self.bytes.as_slice().split_at(self.given);
        let count = give(rest, buf, self.piece);
        self.given += count;
        Ok(count)
    }
}

/// Bytes that are kept in memory.
#[derive(Drop)]
pub struct MemSink {
    bytes: Vec<u8>,
    fails: Octets,
    calls: u64,
    faults: u64,
}

impl Model for MemSink {
    ghost Value = { Writes };

    ghost view = { λ s. record {
      written = s.bytes.items;
      fails = s.fails;
      calls = s.calls;
      faults = s.faults;
    } };
}

impl MemSink {
    /// A sink that was given nothing yet. It fails the calls whose numbers, from 0 and below 256,
    /// are in `fails`. Where memory for a growth is refused it fails too, which counts as a fault.
    pub fn new(alloc: Global, fails: Octets) -> MemSink
        ensures { result ≡ record { written = []; fails = fails; calls = 0; faults = 0 } }
    {
        MemSink {
            bytes: Vec::new(alloc),
            fails,
            calls: 0,
            faults: 0,
        }
    }

    /// The bytes that were put.
    pub fn written(&self) -> &[u8]
        ensures { result.now ≡ self.now.written }
    {
        self.bytes.as_slice()
    }
}

impl Sink for MemSink {
    ghost tells = { record {
      written = λ s. Some s.written;
      faults = λ s. s.faults;
      borrow = λ _. 0;
      puts = IsPut;
    } };

    fn put(&mut self, bytes: &[u8]) -> Result<(), Fault>
        ensures bytes { Puts (Some self.old.written) (Some self.new.written) result bytes.now }
        ensures counted { Counts self.old.faults self.new.faults result }
        ensures cause { HasCause self.old.faults self.new.faults result }
        ensures step { IsPut self.old self.new }
        ensures fails { Contains self.old.fails self.old.calls → IsErr result }
        ensures kept { OnErr result (self.new.written ≡ self.old.written) }
    {
        let call = self.calls;
        self.calls = call.saturating_add(1);
        if is_failing(&self.fails, call) || self.bytes.extend_from_slice(bytes).is_err() {
            self.faults = self.faults.saturating_add(1);
            return Err(Fault);
        }
        Ok(())
    }
}
