//! Sessions in memory: what a gate is told, and what a door gives back.
ghost use Rattle.std.specs.Prelude.{◌≡◌, ◌∷◌, [], false, length};

use crate::memory::stream;
use ov_base::{Memory, Octets};
use ov_peer::Answerer;
use ov_session::{Alone, Door, Gate, MemDoor, OpenGate, SessionEnd, serve_each, serve_one};
use std::alloc::Global;
use std::cell::Cell;
use std::sync::Wait;
use std::test::Fail;

/// Answers each frame with a Bytes of itself. It has no memory for a frame that begins with 0xff.
#[derive(Drop)]
struct Parrot {
    epoch: u32,
}

impl Answerer for Parrot {
    ghost tells = { record {
      reached = λ a list b. (list ≡ []) × (b.epoch ≡ a.epoch);
      replies = λ a list request reply. reply ≡ 0x86 ∷ request;
      epoch_of = λ a. a.epoch;
      stuck = λ _. Unit {0};
    } };

    fn answer(&mut self, request: &[u8], reply: &mut Vec<u8>) -> Result<(), Memory> {
        if request[0] == 0xff || request.len() > 1_000 {
            return Err(Memory);
        }
        reply.clear();
        reply.push(0x86)?;
        reply.extend_from_slice(request)?;
        Ok(())
    }

    fn epoch(&self) -> u32 {
        self.epoch
    }
}

/// Serves what a door in memory gives: it gave as many streams as were served.
fn serve_memory<R: Wait>(
    rt: &R,
    alloc: Global,
    door: &mut MemDoor,
    parrot: &mut Parrot,
    sessions: u32,
) -> (u32, bool)
    requires gave { door.old.gave ≡ [] }
    requires open { door.old.closed ≡ false }
    ensures { length door.new.gave ≡ result.0 }
{
    serve_each(rt, alloc, door, parrot, sessions)
}

/// A gate that counts the requests that come to it, and keeps the numbers of the last one.
#[derive(Drop)]
struct Counter {
    requests: Cell<u8>,
    last: Cell<(u32, u32)>,
}

impl Gate for Counter {
    ghost was_told = { λ _ _ _ _ _. Unit {0} };

    fn pause<A>(&self, session: u32, request: u32, asker: &A) {
        let _ = asker;
        self.requests.set(self.requests.get().saturating_add(1));
        self.last.set((session, request));
    }
}

/// Answers each frame with the number of requests that have come to the gate so far.
#[derive(Drop)]
struct Watcher<'a> {
    gate: &'a Counter,
}

impl<'a> Answerer for Watcher<'a> {
    ghost tells = { record {
      reached = λ _ list _. list ≡ [];
      replies = λ _ _ _ reply. length reply ≡ 2;
      epoch_of = λ _. 0;
      stuck = λ _. Unit {0};
    } };

    fn answer(&mut self, request: &[u8], reply: &mut Vec<u8>) -> Result<(), Memory> {
        let _ = request;
        reply.clear();
        reply.push(0x86)?;
        reply.push(self.gate.requests.get())?;
        Ok(())
    }

    fn epoch(&self) -> u32 {
        0
    }
}

#[test]
fn each_request_comes_to_the_gate_before_it_is_asked(rt: HostRuntime) -> Result<(), Fail> {
    let alloc = rt.alloc();
    let input = [0, 0, 0, 1, 7, 0, 0, 0, 1, 8, 0, 0, 0, 1, 9];
    let mut stream = stream(alloc, &input, 12, &[], &[])?;
    let gate = Counter {
        requests: Cell::new(0),
        last: Cell::new((0, 0)),
    };
    let mut watcher = Watcher { gate: &gate };
    let mut asker = Alone {
        value: &mut watcher,
    };
    let end = serve_one(&rt, alloc, 5, &mut stream, &mut asker, &gate);
    assert_eq!(rt; end, SessionEnd::End);
    let numbers: [u8; 18] = [
        0, 0, 0, 2, 0x86, 1, 0, 0, 0, 2, 0x86, 2, 0, 0, 0, 2, 0x86, 3,
    ];
    assert_eq!(rt; stream.sink.written(), numbers.as_slice());
    assert_eq!(rt; gate.last.get(), (5, 2));
    Ok(())
}

#[test]
fn a_door_in_memory(rt: HostRuntime) -> Result<(), Fail> {
    let alloc = rt.alloc();
    let mut streams = Vec::new(alloc);
    streams.push(stream(alloc, &[0, 0, 0, 1, 7], 2, &[], &[])?)?;
    streams.push(stream(alloc, &[0, 0, 0, 0], 2, &[], &[])?)?;
    let mut door = MemDoor::new(alloc, streams, Octets::copy(alloc, &[])?);
    let mut parrot = Parrot { epoch: 0 };
    assert_eq!(rt;
        serve_memory(&rt, alloc, &mut door, &mut parrot, 9),
        (2, false)
    );
    let Some(first) = door.back(0) else {
        return Err(Fail::from("nothing came back"));
    };
    assert_eq!(rt; first.ending, SessionEnd::End);
    assert_eq!(rt;
        first.stream.sink.written(),
        [0, 0, 0, 2, 0x86, 7].as_slice()
    );
    let Some(second) = door.back(1) else {
        return Err(Fail::from("nothing came back"));
    };
    assert_eq!(rt; second.ending, SessionEnd::Bad { at: 0 });
    assert!(rt; door.back(2).is_none());
    let mut door = MemDoor::new(alloc, Vec::new(alloc), Octets::copy(alloc, &[1])?);
    let mut address = Vec::new(alloc);
    assert!(rt; door.listen(&mut address).is_ok());
    assert_eq!(rt;
        serve_memory(&rt, alloc, &mut door, &mut parrot, 9),
        (0, true)
    );
    Ok(())
}
