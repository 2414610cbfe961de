//! A door in memory, which fails at the calls that it is told to.
ghost use Rattle.std.specs.Prelude.{◌≡◌, ◌↔◌, [], codes, length, IsTrue, Contains, IfSome};
ghost use Rattle.std.specs.Prelude.{false, Some};
ghost use Rattle.ov_io.specs.Memory.{one_call};
ghost use Rattle.ov_session.specs.Memory.{IsBackAt, seen_back};
ghost use Rattle.ov_session.specs.Doors.{Accepts, Doorway, IsOut, Listens, taken_back};

use crate::{Door, SessionEnd};
use ov_base::Octets;
use ov_io::{Fault, MemStream};
use std::alloc::Global;
use std::marker::Model;
use std::snapshot::Snapshot;

/// A stream that was taken back, and how its session ended.
#[derive(Drop)]
pub struct Returned {
    pub stream: MemStream,
    pub ending: SessionEnd,
}

/// A stream as it was given, and what was taken back of it.
#[derive(Drop)]
struct Gave {
    stream: Snapshot<MemStream>,
    back: Option<Returned>,
}

/// A door that gives the streams that it was made with, and keeps them when they come back. The
/// address at which it listens is `memory`.
#[derive(Drop)]
pub struct MemDoor {
    waiting: Vec<MemStream>,
    gave: Vec<Gave>,
    fails: Octets,
    calls: u64,
    closed: bool,
    faults: u64,
}

impl Model for MemDoor {
    ghost use Rattle.ov_session.specs.Memory.{Keeping, all_seen};

    ghost Value = { Keeping };

    ghost view = { λ d. record {
      waiting = d.waiting.items;
      gave = all_seen d.gave.items;
      fails = d.fails;
      calls = d.calls;
      closed = d.closed;
      faults = d.faults;
    } };
}

/// Whether the call of this number fails.
fn is_failing(fails: &Octets, call: u64) -> bool
    ensures { IsTrue result ↔ Contains fails.now call }
{
    fails.as_slice().iter().any(|n| u64::from(*n) == call)
}

impl MemDoor {
    /// A door that gives these streams in order. It fails exactly the calls whose numbers, from 0
    /// and below 256, are in `fails`, and where memory for a growth is refused.
    pub fn new(alloc: Global, streams: Vec<MemStream>, fails: Octets) -> MemDoor
        ensures { result ≡ record {
          waiting = streams.items;
          gave = [];
          fails = fails;
          calls = 0;
          closed = false;
          faults = 0;
        } }
    {
        MemDoor {
            waiting: streams,
            gave: Vec::new(alloc),
            fails,
            calls: 0,
            closed: false,
            faults: 0,
        }
    }

    /// What was taken back of the stream of this number.
    pub fn back(&self, number: usize) -> Option<&Returned>
        ensures { IfSome result (λ returned.
            IsBackAt self.now.gave number (seen_back returned.now)) }
    {
        match self.gave.as_slice().get(number) {
            Some(gave) => gave.back.as_ref(),
            None => None,
        }
    }

    // Whether this call fails.
    fn fails_now(&mut self) -> bool
        ensures same { self.new ≡ record self.old { calls = one_call self.old.calls } }
        ensures exactly { IsTrue result ↔ Contains self.old.fails self.old.calls }
    {
        let call = self.calls;
        self.calls = call.saturating_add(1);
        is_failing(&self.fails, call)
    }

    fn fail(&mut self) -> Fault
        ensures { self.new ≡ record self.old { faults = one_call self.old.faults } }
    {
        self.faults = self.faults.saturating_add(1);
        Fault
    }
}

impl Door for MemDoor {
    type Stream = MemStream;

    ghost shows = { λ d. record {
      listens_at = Some (codes "memory");
      told = Some d.gave;
      given = length d.gave;
      closed = d.closed;
      faults = d.faults;
    } };

    fn listen(&mut self, address: &mut Vec<u8>) -> Result<(), Fault> {
        if self.fails_now() || address.extend_from_slice(b"memory").is_err() {
            return Err(self.fail());
        }
        Ok(())
    }

    fn accept(&mut self) -> Result<Option<MemStream>, Fault> {
        if self.fails_now() {
            return Err(self.fail());
        }
        if self.waiting.is_empty() {
            self.closed = true;
            return Ok(None);
        }
        let stream = self.waiting.remove(0);
        match self.gave.push(Gave {
            stream: Snapshot::of(&stream),
            back: None,
        }) {
            Ok(()) => Ok(Some(stream)),
            Err(_) => Err(self.fail()),
        }
    }

    fn ended(&mut self, number: u32, stream: MemStream, end: SessionEnd) {
        self.gave[number as usize].back = Some(Returned {
            stream,
            ending: end,
        });
    }
}
