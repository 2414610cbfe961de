//! Listening, serving, and the lines that say so.
ghost use Rattle.std.specs.Prelude.{◌≡◌, ◌<◌, [], All, length, IfOk, MatchResult};
ghost use Rattle.std.specs.Arc.{arc_value};
ghost use Rattle.std.specs.Io.KnownBytes.{Appends};
ghost use Rattle.ov_session.specs.Doors.{FailsOnce, IsUnused, OpensAt};
ghost use Rattle.ov_turn.specs.Passes.{IsPassOf};
ghost use Rattle.ov_serving.specs.Sessions.{serves_by_pass};
ghost use Rattle.ov_report.specs.Ends.{EndsIn, EndsOr, IsPutTo};
ghost use Rattle.ov_host.specs.Serving.{EndsServing, IsUntold, SaysDoor, Serves};
ghost use Rattle.ov_host.specs.Serving.{door_line, listening_line, served_line};

use ov_base::Memory;
use ov_io::{Fault, Sink};
use ov_peer::Answerer;
use ov_report::{WRITE_FAULT, put_last, put_memory};
use ov_serving::{Spawner, serve};
use ov_session::{Door, Gate};
use ov_turn::{Pass, Shared};
use std::alloc::Global;
use std::sync::{Arc, Wait};
use std::thread::Threads;

/// The status of a server whose door failed.
pub const DOOR_FAULT: u8 = 13;

// The line that says where a server listens.
fn line_on_address(alloc: Global, address: &[u8]) -> Result<Vec<u8>, Memory>
    ensures { IfOk result (λ line. line.items ≡ listening_line address.now) }
{
    let mut line = b"listening ".to_vec(alloc)?;
    line.extend_from_slice(address)?;
    line.push(b'\n')?;
    Ok(line)
}

// Puts the line that says how many sessions were served, or the one that says that memory was
// refused for it.
fn put_served<O: Sink>(alloc: Global, out: &mut O, served: u32) -> u8
    ensures ends { EndsOr (served_line served) 0
        (O.tells.written out.old) (O.tells.written out.new) result }
    ensures put { IsPutTo O.tells out.old out.new result }
{
    match format!(in alloc; "served {served}\n") {
        Ok(text) => put_last(out, text.as_bytes(), 0),
        Err(_) => put_memory(out),
    }
}

// Puts the line on a door that failed.
fn put_door<O: Sink>(out: &mut O) -> u8
    ensures ends { EndsIn door_line 13 (O.tells.written out.old) (O.tells.written out.new) result }
    ensures put { IsPutTo O.tells out.old out.new result }
{
    put_last(out, b"error door\n", DOOR_FAULT)
}

// Puts the last line behind this many sessions: how many there were, or that the door failed.
fn put_end<O: Sink>(alloc: Global, out: &mut O, served: u32, failed: bool) -> u8
    ensures ends { EndsServing failed served
        (O.tells.written out.old) (O.tells.written out.new) result }
    ensures put { IsPutTo O.tells out.old out.new result }
{
    if failed {
        put_door(out)
    } else {
        put_served(alloc, out, served)
    }
}

// Says where a server listens, or gives the status where it can't.
fn tell<O: Sink>(alloc: Global, out: &mut O, address: &[u8]) -> Result<(), u8>
    ensures told { MatchResult result
        (λ _. Appends (O.tells.written out.old) (O.tells.written out.new)
        (listening_line address.now))
        (IsUntold address.now (O.tells.written out.old) (O.tells.written out.new)) }
    ensures put { MatchResult result (λ _. IsPutTo O.tells out.old out.new 0)
        (IsPutTo O.tells out.old out.new) }
{
    match line_on_address(alloc, address) {
        Ok(line) => match out.put(&line) {
            Ok(()) => Ok(()),
            Err(Fault) => Err(WRITE_FAULT),
        },
        Err(Memory) => Err(put_memory(out)),
    }
}

// Has the door listen, and gives the address at which it does.
fn open<A: Door>(alloc: Global, door: &mut A) -> Result<Vec<u8>, Fault>
    ensures { MatchResult result
        (λ address. OpensAt (A.shows door.old) (A.shows door.new) address.items)
        (λ _. FailsOnce (A.shows door.old) (A.shows door.new)) }
{
    let mut address = Vec::new(alloc);
    match door.listen(&mut address) {
        Ok(()) => Ok(address),
        Err(Fault) => Err(Fault),
    }
}

/// Listens, says where, serves at most this many sessions by these passes, as many at once as there
/// are passes, and says how many there were: the status, and all passes.
pub(crate) fn serve_door<
    R: Threads + Wait + Copy + Send + 'static,
    A: Door,
    V: Answerer + Drop + Send + 'static,
    G: Gate + Drop + Send + Sync + 'static,
    O: Sink,
>(
    rt: &R,
    alloc: Global,
    door: &mut A,
    shared: &Arc<Shared<V>, Global>,
    passes: Vec<Pass<V>>,
    spawner: &mut Spawner<A::Stream, V, G>,
    gate: &Arc<G, Global>,
    sessions: u32,
    out: &mut O,
) -> (u8, Vec<Pass<V>>)
where
    A::Stream: Send + 'static,
    requires unused { IsUnused (A.shows door.old) }
    requires passes { 0 < length passes.items }
    requires own { All (IsPassOf (arc_value shared.now)) passes.items }
    requires spawner { spawner.old.started ≡ [] }
    ensures serves { Serves (serves_by_pass V.tells A.Stream.Source.tells A.Stream.Sink.tells)
        passes.items result.1.items (A.shows door.old) (A.shows door.new) spawner.old spawner.new
        sessions (O.tells.written out.old) (O.tells.written out.new) result.0 }
    ensures own { All (IsPassOf (arc_value shared.now)) result.1.items }
    ensures all { length result.1.items ≡ length passes.items }
    ensures door { SaysDoor (A.shows door.old).faults (A.shows door.new).faults result.0 }
    ensures put { IsPutTo O.tells out.old out.new result.0 }
{
    let address = match open(alloc, door) {
        Ok(address) => address,
        Err(Fault) => return (put_door(out), passes),
    };
    if let Err(status) = tell(alloc, out, &address) {
        return (status, passes);
    }
    let end = serve(rt, alloc, door, shared, passes, spawner, gate, sessions);
    let status = put_end(alloc, out, end.served, end.door_failed);
    (status, end.passes)
}
