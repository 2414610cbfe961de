//! A value is shared, served at a door and taken back, as a server does it.
ghost use Rattle.std.specs.Prelude.{◌≡◌, ◌<◌, ◌≤◌, [], IfSome};
ghost use Rattle.ov_session.specs.Doors.{IsUnused};
ghost use Rattle.ov_serving_t.specs.Closing.{IsLeftBySessions};

use ov_peer::Answerer;
use ov_serving::{Spawner, serve, sessions_leave_values};
use ov_session::{Door, Gate};
use ov_turn::Shared;
use std::alloc::Global;
use std::sync::{Arc, Wait};
use std::thread::Threads;

/// Serves a door by so many passes, and gives the value back; None where memory was refused, or a
/// thread still has it.
pub(crate) fn serve_and_close<
    R: Threads + Wait + Copy + Send + 'static,
    D: Door,
    V: Answerer + Drop + Send + 'static,
    G: Gate + Drop + Send + Sync + 'static,
>(
    rt: &R,
    alloc: Global,
    door: &mut D,
    value: V,
    workers: u32,
    spawner: &mut Spawner<D::Stream, V, G>,
    gate: &Arc<G, Global>,
    sessions: u32,
) -> Option<V>
where
    D::Stream: Send + 'static,
    requires unused { IsUnused (D.shows door.old) }
    requires workers { (0 < workers) × (workers ≤ 65536) }
    requires spawner { spawner.old.started ≡ [] }
    ensures { IfSome result (λ left. IsLeftBySessions V.tells D.Stream.Source.tells
        D.Stream.Sink.tells value left) }
{
    let Ok((shared, passes)) = Shared::new(alloc, value, workers) else {
        return None;
    };
    let Ok(shared) = Arc::new(alloc, shared) else {
        return None;
    };
    let end = serve(rt, alloc, door, &shared, passes, spawner, gate, sessions);
    let Ok(shared) = Arc::try_unwrap(shared) else {
        return None;
    };
    let left = shared.close(end.passes);
    sessions_leave_values::<V, D::Stream>();
    Some(left)
}
