//! Sessions in memory, against bytes that were written by hand.
ghost use Rattle.std.specs.Prelude.{◌≤◌, ◌≡◌, ◌<◌, ◌∷◌, [], false, length, All, IfOk};
ghost use Rattle.std.specs.Arc.{arc_value};
ghost use Rattle.ov_turn.specs.Passes.{IsPassOf};

use crate::closing::serve_and_close;
use ov_base::{Memory, Octets};
use ov_io::{MemSink, MemSource, MemStream};
use ov_peer::Answerer;
use ov_serving::{Spawner, serve};
use ov_session::{Gate, MemDoor, OpenGate, SessionEnd};
use ov_turn::{Pass, Shared};
use std::alloc::Global;
use std::process::Abort;
use std::sync::atomic::{AtomicBool, Ordering};
use std::sync::{Arc, Wait};
use std::test::Fail;
use std::thread;
use std::thread::Threads;

/// Answers each frame with a Bytes of itself. It has no memory for a frame that begins with 0xff.
#[derive(Drop)]
struct Parrot {
    epoch: u32,
}

impl Answerer for Parrot {
    ghost tells = { record {
      reached = λ a list b. (list ≡ []) × (b.epoch ≡ a.epoch);
      replies = λ a list request reply. reply ≡ 0x86 ∷ request;
      epoch_of = λ a. a.epoch;
      stuck = λ _. Unit {0};
    } };

    fn answer(&mut self, request: &[u8], reply: &mut Vec<u8>) -> Result<(), Memory> {
        if request[0] == 0xff || request.len() > 1_000 {
            return Err(Memory);
        }
        reply.clear();
        reply.push(0x86)?;
        reply.extend_from_slice(request)?;
        Ok(())
    }

    fn epoch(&self) -> u32 {
        self.epoch
    }
}

/// Holds one session before its request until another one has come to one.
#[derive(Drop)]
struct OneWaits {
    one: u32,
    other: u32,
    came: AtomicBool,
    held: AtomicBool,
}

impl OneWaits {
    fn new(one: u32, other: u32) -> OneWaits {
        OneWaits {
            one,
            other,
            came: AtomicBool::new(false),
            held: AtomicBool::new(false),
        }
    }
}

impl Gate for OneWaits {
    ghost was_told = { λ _ _ _ _ _. Unit {0} };

    fn pause<A>(&self, session: u32, request: u32, asker: &A) {
        let _ = request;
        let _ = asker;
        if session == self.other {
            self.came.store(true, Ordering::SeqCst);
        }
        if session == self.one {
            for _ in 0..10_000_000u32 {
                if self.came.load(Ordering::SeqCst) {
                    self.held.store(true, Ordering::SeqCst);
                    return;
                }
                thread::yield_now();
            }
        }
    }
}

/// A stream with these bytes to read.
fn stream(alloc: Global, bytes: &[u8]) -> Result<MemStream, Fail> {
    let bytes = Octets::copy(alloc, bytes)?;
    Ok(MemStream {
        source: MemSource::new(bytes, 3, Octets::copy(alloc, &[])?),
        sink: MemSink::new(alloc, Octets::copy(alloc, &[])?),
    })
}

/// A door that gives streams with these bytes.
fn door(alloc: Global, inputs: &[&[u8]]) -> Result<MemDoor, Fail>
    ensures { IfOk result (λ d. (d.gave ≡ []) × (d.closed ≡ false)) }
{
    let mut streams = Vec::new(alloc);
    for input in inputs {
        streams.push(stream(alloc, input)?)?;
    }
    Ok(MemDoor::new(alloc, streams, Octets::copy(alloc, &[])?))
}

/// A parrot that is shared by so many passes.
fn share(
    alloc: Global,
    passes: u32,
) -> Result<(Arc<Shared<Parrot>, Global>, Vec<Pass<Parrot>>), Fail>
    requires { (0 < passes) × (passes ≤ 65536) }
    ensures own { IfOk result (λ r. All (IsPassOf (arc_value r.0)) r.1.items) }
    ensures all { IfOk result (λ r. length r.1.items ≡ passes) }
{
    let Ok((shared, passes)) = Shared::new(alloc, Parrot { epoch: 3 }, passes) else {
        return Err(Fail::from("memory"));
    };
    match Arc::new(alloc, shared) {
        Ok(shared) => Ok((shared, passes)),
        Err(_) => Err(Fail::from("memory")),
    }
}

/// The streams came back, each as its session left it.
fn expect_all(rt: &impl Abort, door: &MemDoor) -> Result<(), Fail> {
    for number in 0..INPUTS.len() {
        let Some(back) = door.back(number) else {
            return Err(Fail::from("not taken back"));
        };
        assert_eq!(rt; back.ending, ENDS[number]);
        assert_eq!(rt; back.stream.sink.written(), WRITTEN[number]);
    }
    Ok(())
}

const INPUTS: [&[u8]; 3] = [
    &[0, 0, 0, 1, 7, 0, 0, 0, 2, 8, 9],
    &[0, 0, 0, 1, 5],
    &[0, 0, 0, 1, 0xff, 0, 0],
];

const ENDS: [SessionEnd; 3] = [SessionEnd::End, SessionEnd::End, SessionEnd::Bad { at: 7 }];

const WRITTEN: [&[u8]; 3] = [
    &[0, 0, 0, 2, 0x86, 7, 0, 0, 0, 3, 0x86, 8, 9],
    &[0, 0, 0, 2, 0x86, 5],
    &[0, 0, 0, 1, 0x8e],
];

/// Serves three streams by so many passes, while one session waits for another.
fn serve_three<R: Threads + Wait + Abort + Copy + Send + 'static>(
    rt: &R,
    alloc: Global,
    passes: u32,
    one: u32,
    other: u32,
) -> Result<(), Fail>
    requires { (0 < passes) × (passes ≤ 3) }
{
    let count = passes as usize;
    let mut door = door(alloc, &INPUTS)?;
    let (shared, passes) = share(alloc, passes)?;
    let gate = Arc::new(alloc, OneWaits::new(one, other))?;
    let mut spawner = Spawner::new(alloc);
    let end = serve(
        rt,
        alloc,
        &mut door,
        &shared,
        passes,
        &mut spawner,
        &gate,
        3,
    );
    assert_eq!(rt; end.served, 3);
    assert!(rt; !end.door_failed);
    assert_eq!(rt; end.alone, 0);
    assert_eq!(rt; end.passes.len(), count);
    assert_eq!(rt; spawner.most(), count);
    assert!(rt; gate.held.load(Ordering::SeqCst));
    expect_all(rt, &door)
}

#[test]
fn the_first_session_waits_for_the_second(rt: HostRuntime) -> Result<(), Fail> {
    serve_three(&rt, rt.alloc(), 2, 0, 1)
}

#[test]
fn a_session_that_stands_still_holds_up_no_other(rt: HostRuntime) -> Result<(), Fail> {
    serve_three(&rt, rt.alloc(), 2, 0, 2)
}

#[test]
fn each_session_runs_beside_each_other_one(rt: HostRuntime) -> Result<(), Fail> {
    for one in 0..3 {
        for other in 0..3 {
            if one != other {
                serve_three(&rt, rt.alloc(), 3, one, other)?;
            }
        }
    }
    Ok(())
}

#[test]
fn a_caller_serves_what_cannot_be_started(rt: HostRuntime) -> Result<(), Fail> {
    let alloc = rt.alloc();
    let mut door = door(alloc, &INPUTS)?;
    let (shared, passes) = share(alloc, 2)?;
    let gate = Arc::new(alloc, OpenGate)?;
    let mut spawner = Spawner::refusing(alloc);
    let end = serve(
        &rt,
        alloc,
        &mut door,
        &shared,
        passes,
        &mut spawner,
        &gate,
        9,
    );
    assert_eq!(rt; end.served, 3);
    assert_eq!(rt; end.alone, 3);
    assert_eq!(rt; spawner.refused(), 3);
    assert_eq!(rt; spawner.most(), 0);
    expect_all(&rt, &door)
}

#[test]
fn the_value_comes_back(rt: HostRuntime) -> Result<(), Fail> {
    let alloc = rt.alloc();
    let mut door = door(alloc, &INPUTS)?;
    let gate = Arc::new(alloc, OpenGate)?;
    let mut spawner = Spawner::refusing(alloc);
    let parrot = Parrot { epoch: 3 };
    let Some(parrot) = serve_and_close(&rt, alloc, &mut door, parrot, 2, &mut spawner, &gate, 9)
    else {
        return Err(Fail::from("no value"));
    };
    assert_eq!(rt; parrot.epoch, 3);
    expect_all(&rt, &door)
}
