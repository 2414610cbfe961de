//! Sessions, as many at once as there are passes.
ghost use Rattle.std.specs.Prelude.{◌≡◌, ◌<◌, ◌≤◌, ◌+◌, [], All, length, vec_capacity, IfErr, IfOk};
ghost use Rattle.std.specs.Arc.{arc_value};
ghost use Rattle.ov_session.specs.Doors.{IsOut, IsUnused, taken_back};
ghost use Rattle.ov_session.specs.Turns.{IsAt};
ghost use Rattle.ov_turn.specs.Passes.{IsPassOf};
ghost use Rattle.ov_serving.specs.AtOnce.{ServesAll, WentAtOnce};
ghost use Rattle.ov_serving.specs.Places.{AreOut, Begins, ComesBack, EndsOne, FreesOne};
ghost use Rattle.ov_serving.specs.Places.{HasServed, Settles, TakesNext, parts};
ghost use Rattle.ov_serving.specs.Sessions.{serves_by_pass};

use crate::session::{Ended, Session, run, serve_by_pass};
use crate::spawner::Spawner;
use crate::starting::{finish, start};
use ov_io::{Fault, Stream};
use ov_peer::Answerer;
use ov_session::{Dismiss, Door, Gate};
use ov_turn::{Pass, Shared};
use std::alloc::Global;
use std::sync::{Arc, Wait};
use std::thread::Threads;

/// What came of serving a door.
#[derive(Drop)]
pub struct ServeEnd<V: Answerer> {
    /// All passes, as the sessions left them.
    pub passes: Vec<Pass<V>>,
    /// How many streams the door gave.
    pub served: u32,
    /// Whether the door failed.
    pub door_failed: bool,
    /// How many sessions the caller ran itself, since they couldn't be started.
    pub alone: u32,
}

/// What all sessions have in common.
#[derive(Drop)]
struct Common<'a, V: Answerer, G> {
    alloc: Global,
    shared: &'a Arc<Shared<V>, Global>,
    gate: &'a Arc<G, Global>,
}

/// What the caller has: the passes that are free, and how many sessions it ran itself.
#[derive(Drop)]
struct Caller<V: Answerer> {
    free: Vec<Pass<V>>,
    alone: u32,
}

/// What came of a door's next stream.
enum Next {
    /// Its session was started, or was served here.
    Served,
    /// There are no more streams.
    Closed,
    /// The door failed.
    Failed,
}

/// The session of a stream. Where memory is refused its parts come back.
fn make<L, V: Answerer + Drop, G: Drop>(
    common: &Common<'_, V, G>,
    number: u32,
    stream: L,
    pass: Pass<V>,
) -> Result<Session<L, V, G>, (L, Pass<V>)>
    ensures made { IfOk result (λ s. (parts s ≡ (number, stream, pass))
        × (arc_value s.shared ≡ arc_value common.now.shared.now)) }
    ensures kept { IfErr result (λ r. r ≡ (stream, pass)) }
{
    let Ok(shared) = Arc::try_clone(common.shared) else {
        return Err((stream, pass));
    };
    let Ok(gate) = Arc::try_clone(common.gate) else {
        return Err((stream, pass));
    };
    Ok(Session {
        number,
        stream,
        shared,
        pass,
        gate,
    })
}

/// Starts the session of a stream. Where it can't be started it is served here, and what is left of
/// it is given.
fn begin<
    R: Threads + Wait + Copy + Send + 'static,
    L: Stream + Dismiss + Drop + Send + 'static,
    V: Answerer + Drop + Send + 'static,
    G: Gate + Drop + Send + Sync + 'static,
>(
    rt: &R,
    common: &Common<'_, V, G>,
    spawner: &mut Spawner<L, V, G>,
    number: u32,
    stream: L,
    pass: Pass<V>,
) -> Option<Ended<L, V>>
    requires own { IsPassOf (arc_value common.now.shared.now) pass }
    ensures { Begins (serves_by_pass V.tells L.Source.tells L.Sink.tells) number stream pass
        spawner.old spawner.new result }
{
    match make(common, number, stream, pass) {
        Ok(session) => match start(rt, spawner, session) {
            Ok(()) => None,
            Err(session) => Some(run(rt, common.alloc, session)),
        },
        Err((mut stream, mut pass)) => {
            spawner.refuse();
            let (shared, gate) = (&**common.shared, &**common.gate);
            let ending = serve_by_pass(
                rt,
                common.alloc,
                number,
                &mut stream,
                shared,
                &mut pass,
                gate,
            );
            Some(Ended {
                number,
                stream,
                pass,
                ending,
            })
        }
    }
}

/// Gives the door what is left of a session, and keeps its pass for others.
fn take_back<D: Door, V: Answerer>(
    door: &mut D,
    free: &mut Vec<Pass<V>>,
    ended: Ended<D::Stream, V>,
)
    requires out { IsOut (D.shows door.old) ended.number }
    requires room { length free.old.items < vec_capacity free.old }
    ensures back { ComesBack ended (D.shows door.old) (D.shows door.new) free.old.items
        free.new.items }
    ensures room { vec_capacity free.new ≡ vec_capacity free.old }
{
    let Ended {
        number,
        stream,
        pass,
        ending,
    } = ended;
    door.ended(number, stream, ending);
    free.push_reserved(pass);
}

/// Finishes one of the started sessions, the first that is over. Whether there was one.
fn finish_one<R: Threads + Wait, D: Door, V: Answerer + Drop, G: Gate + Drop>(
    rt: &R,
    door: &mut D,
    spawner: &mut Spawner<D::Stream, V, G>,
    free: &mut Vec<Pass<V>>,
) -> bool
    requires out { AreOut (D.shows door.old) spawner.old.started }
    requires room { length spawner.old.started + length free.old.items ≤ vec_capacity free.old }
    ensures ends { EndsOne (serves_by_pass V.tells D.Stream.Source.tells D.Stream.Sink.tells)
        spawner.old spawner.new (D.shows door.old) (D.shows door.new) free.old.items
        free.new.items result }
    ensures room { vec_capacity free.new ≡ vec_capacity free.old }
{
    match finish(rt, spawner) {
        Some(ended) => {
            take_back(door, free, ended);
            true
        }
        None => false,
    }
}

/// Finishes one of the started sessions where no pass is free.
fn free_one<R: Threads + Wait, D: Door, V: Answerer + Drop, G: Gate + Drop>(
    rt: &R,
    door: &mut D,
    spawner: &mut Spawner<D::Stream, V, G>,
    free: &mut Vec<Pass<V>>,
)
    requires out { AreOut (D.shows door.old) spawner.old.started }
    requires room { length spawner.old.started + length free.old.items ≤ vec_capacity free.old }
    ensures frees { FreesOne (serves_by_pass V.tells D.Stream.Source.tells D.Stream.Sink.tells)
        spawner.old spawner.new (D.shows door.old) (D.shows door.new) free.old.items
        free.new.items }
    ensures room { vec_capacity free.new ≡ vec_capacity free.old }
{
    if free.is_empty() {
        finish_one(rt, door, spawner, free);
    }
}

/// Starts the session of a stream, or serves it here and takes back what is left of it.
fn settle<
    R: Threads + Wait + Copy + Send + 'static,
    D: Door,
    V: Answerer + Drop + Send + 'static,
    G: Gate + Drop + Send + Sync + 'static,
>(
    rt: &R,
    common: &Common<'_, V, G>,
    door: &mut D,
    spawner: &mut Spawner<D::Stream, V, G>,
    caller: &mut Caller<V>,
    number: u32,
    stream: D::Stream,
    pass: Pass<V>,
)
where
    D::Stream: Send + 'static,
    requires own { IsPassOf (arc_value common.now.shared.now) pass }
    requires out { IsOut (D.shows door.old) number }
    requires room { length caller.old.free.items < vec_capacity caller.old.free }
    requires few { caller.old.alone < 4294967295 }
    ensures settles { Settles (serves_by_pass V.tells D.Stream.Source.tells D.Stream.Sink.tells)
        number stream pass spawner.old spawner.new (D.shows door.old) (D.shows door.new)
        caller.old.free.items caller.new.free.items caller.old.alone caller.new.alone }
    ensures room { vec_capacity caller.new.free ≡ vec_capacity caller.old.free }
{
    match begin(rt, common, spawner, number, stream, pass) {
        Some(ended) => {
            caller.alone += 1;
            take_back(door, &mut caller.free, ended);
        }
        None => {}
    }
}

/// Serves the door's next stream, by a pass that is free.
fn serve_next<
    R: Threads + Wait + Copy + Send + 'static,
    D: Door,
    V: Answerer + Drop + Send + 'static,
    G: Gate + Drop + Send + Sync + 'static,
>(
    rt: &R,
    common: &Common<'_, V, G>,
    door: &mut D,
    spawner: &mut Spawner<D::Stream, V, G>,
    caller: &mut Caller<V>,
    number: u32,
) -> Next
where
    D::Stream: Send + 'static,
    requires at { IsAt (D.shows door.old) number }
    requires own { All (IsPassOf (arc_value common.now.shared.now)) caller.old.free.items }
    requires some { 0 < length caller.old.free.items }
    requires few { caller.old.alone < 4294967295 }
    ensures takes { TakesNext (serves_by_pass V.tells D.Stream.Source.tells D.Stream.Sink.tells)
        number spawner.old spawner.new (D.shows door.old) (D.shows door.new) caller.old.free.items
        caller.new.free.items caller.old.alone caller.new.alone result }
    ensures room { vec_capacity caller.new.free ≡ vec_capacity caller.old.free }
{
    match door.accept() {
        Ok(Some(stream)) => {
            let Some(pass) = caller.free.pop() else {
                unreachable!()
            };
            settle(rt, common, door, spawner, caller, number, stream, pass);
            Next::Served
        }
        Ok(None) => Next::Closed,
        Err(Fault) => Next::Failed,
    }
}

/// Serves the streams of a door, at most so many: how many there were, and whether the door failed.
fn serve_streams<
    R: Threads + Wait + Copy + Send + 'static,
    D: Door,
    V: Answerer + Drop + Send + 'static,
    G: Gate + Drop + Send + Sync + 'static,
>(
    rt: &R,
    common: &Common<'_, V, G>,
    door: &mut D,
    spawner: &mut Spawner<D::Stream, V, G>,
    caller: &mut Caller<V>,
    sessions: u32,
) -> (u32, bool)
where
    D::Stream: Send + 'static,
    requires unused { IsUnused (D.shows door.old) }
    requires passes { 0 < length caller.old.free.items }
    requires own { All (IsPassOf (arc_value common.now.shared.now)) caller.old.free.items }
    requires none { (spawner.old.started ≡ []) × (caller.old.alone ≡ 0) }
    ensures served { HasServed (serves_by_pass V.tells D.Stream.Source.tells D.Stream.Sink.tells)
        (arc_value common.now.shared.now) caller.old.free.items caller.new.free.items (D.shows door.old)
        (D.shows door.new) spawner.old spawner.new sessions result.0 caller.new.alone result.1 }
    ensures room { vec_capacity caller.new.free ≡ vec_capacity caller.old.free }
{
    'streams: for number in 0..sessions {
        free_one(rt, door, spawner, &mut caller.free);
        match serve_next(rt, common, door, spawner, caller, number) {
            Next::Served => {}
            Next::Closed => return (number, false),
            Next::Failed => return (number, true),
        }
    }
    (sessions, false)
}

/// Serves the streams of a door, at most so many, each in a session of its own by one of the
/// passes, and as many at once as there are passes. A session that can't be started is run here.
pub fn serve<
    R: Threads + Wait + Copy + Send + 'static,
    D: Door,
    V: Answerer + Drop + Send + 'static,
    G: Gate + Drop + Send + Sync + 'static,
>(
    rt: &R,
    alloc: Global,
    door: &mut D,
    shared: &Arc<Shared<V>, Global>,
    passes: Vec<Pass<V>>,
    spawner: &mut Spawner<D::Stream, V, G>,
    gate: &Arc<G, Global>,
    sessions: u32,
) -> ServeEnd<V>
where
    D::Stream: Send + 'static,
    requires unused { IsUnused (D.shows door.old) }
    requires passes { 0 < length passes.items }
    requires own { All (IsPassOf (arc_value shared.now)) passes.items }
    requires spawner { spawner.old.started ≡ [] }
    ensures serves { ServesAll (serves_by_pass V.tells D.Stream.Source.tells D.Stream.Sink.tells)
        passes.items result.passes.items (D.shows door.old) (D.shows door.new) sessions
        result.served result.door_failed }
    ensures at_once { WentAtOnce spawner.old spawner.new (length passes.items) result.served
        result.alone }
    ensures own { All (IsPassOf (arc_value shared.now)) result.passes.items }
    ensures all { length result.passes.items ≡ length passes.items }
{
    let common = Common {
        alloc,
        shared,
        gate,
    };
    let mut caller = Caller {
        free: passes,
        alone: 0,
    };
    let (served, door_failed) = serve_streams(rt, &common, door, spawner, &mut caller, sessions);
    'ending: while finish_one(rt, door, spawner, &mut caller.free) {}
    ServeEnd {
        passes: caller.free,
        served,
        door_failed,
        alone: caller.alone,
    }
}
