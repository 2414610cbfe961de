//! A value that sessions share, and that comes back from them.
ghost use Rattle.std.specs.Prelude.{◌≡◌, ◌<◌, ◌≤◌, [], All, length, IfErr, IfOk};
ghost use Rattle.std.specs.Arc.{arc_value};
ghost use Rattle.ov_session.specs.Doors.{IsUnused};
ghost use Rattle.ov_turn.specs.Passes.{AreFirst, IsLeft, IsPassOf};
ghost use Rattle.ov_report.specs.Ends.{IsPutTo};
ghost use Rattle.ov_host.specs.Serving.{SaysDoor};
ghost use Rattle.ov_host.specs.Sharing.{ServesValue};

use crate::serving::serve_door;
use ov_io::Sink;
use ov_peer::Answerer;
use ov_report::put_memory;
use ov_serving::Spawner;
use ov_session::{Door, Gate};
use ov_turn::{Pass, Shared};
use std::alloc::Global;
use std::sync::{Arc, Wait};
use std::thread;
use std::thread::Threads;

/// A value that is shared, and all its passes.
#[derive(Drop)]
struct Sharing<V: Answerer> {
    shared: Arc<Shared<V>, Global>,
    passes: Vec<Pass<V>>,
}

/// Shares a value by so many passes. Where memory is refused the value comes back, which has
/// accepted nothing.
fn share<V: Answerer>(alloc: Global, value: V, passes: u32) -> Result<Sharing<V>, V>
    requires some { (0 < passes) × (passes ≤ 65536) }
    requires begins { V.tells.reached value [] value }
    ensures made { IfOk result (λ s. ((arc_value s.shared).start ≡ value)
        × ((arc_value s.shared).passes ≡ passes)) }
    ensures passes { IfOk result (λ s. (length s.passes.items ≡ passes)
        × AreFirst V.tells (arc_value s.shared) s.passes.items) }
    ensures back { IfErr result (λ left. V.tells.reached value [] left) }
{
    let (shared, passes) = match Shared::new(alloc, value, passes) {
        Ok(made) => made,
        Err(refused) => return Err(refused.answerer),
    };
    match Arc::new(alloc, shared) {
        Ok(shared) => Ok(Sharing { shared, passes }),
        Err(failed) => Err(failed.value.close(passes)),
    }
}

/// The value in it, once nobody else has it. A thread that ended may be about to let it go; that
/// is waited for.
fn only_owned<R: Wait, T>(rt: &R, mut shared: Arc<T, Global>) -> T
    ensures { result ≡ arc_value shared }
{
    for _ in rt.forever() {
        match Arc::try_unwrap(shared) {
            Ok(value) => return value,
            Err(again) => shared = again,
        }
        thread::yield_now();
    }
    unreachable!()
}

/// Shares the value by so many passes, serves the door by them, and takes the value back: the
/// status, and the value.
pub(crate) fn serve_value<
    R: Threads + Wait + Copy + Send + 'static,
    A: Door,
    V: Answerer + Drop + Send + 'static,
    G: Gate + Drop + Send + Sync + 'static,
    O: Sink,
>(
    rt: &R,
    alloc: Global,
    value: V,
    workers: u32,
    door: &mut A,
    spawner: &mut Spawner<A::Stream, V, G>,
    gate: G,
    sessions: u32,
    out: &mut O,
) -> (u8, V)
where
    A::Stream: Send + 'static,
    requires unused { IsUnused (A.shows door.old) }
    requires workers { (0 < workers) × (workers ≤ 65536) }
    requires begins { V.tells.reached value [] value }
    requires spawner { spawner.old.started ≡ [] }
    ensures serves { ServesValue V.tells A.Stream.Source.tells A.Stream.Sink.tells value result.1
        workers (A.shows door.old) (A.shows door.new) spawner.old spawner.new sessions
        (O.tells.written out.old) (O.tells.written out.new) result.0 }
    ensures door { SaysDoor (A.shows door.old).faults (A.shows door.new).faults result.0 }
    ensures put { IsPutTo O.tells out.old out.new result.0 }
{
    let Ok(gate) = Arc::new(alloc, gate) else {
        return (put_memory(out), value);
    };
    match share(alloc, value, workers) {
        Ok(Sharing { shared, passes }) => {
            let (status, passes) = serve_door(
                rt, alloc, door, &shared, passes, spawner, &gate, sessions, out,
            );
            (status, only_owned(rt, shared).close(passes))
        }
        Err(value) => (put_memory(out), value),
    }
}
