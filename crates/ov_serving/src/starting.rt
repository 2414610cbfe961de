//! Starting sessions and finishing them.
//!
//! These are functions and no methods of a trait: the kit proves a function that starts a thread
//! where its caller knows the types that the thread works with.
ghost use Rattle.std.specs.Prelude.{◌≡◌, ◌<◌, length, true, IfErr, IsErr, MatchResult, Ok, OnOk};
ghost use Rattle.ov_serving.specs.Sessions.{EndsAs, HasOwnPass, serves_by_pass};
ghost use Rattle.ov_serving.specs.Slots.{IsOutcomeOf, session_in};
ghost use Rattle.ov_serving.specs.Spawning.{Finishes, Starts};

use crate::session::{Ended, Session, run};
use crate::slot::{Done, Line, Of, Outcome, Slot, go};
use crate::spawner::Spawner;
use ov_base::Memory;
use ov_io::Stream;
use ov_peer::Answerer;
use ov_session::{Dismiss, Gate};
use std::alloc::Global;
use std::snapshot::Snapshot;
use std::sync::atomic::{AtomicBool, Ordering};
use std::sync::{Arc, Wait};
use std::thread;
use std::thread::{Parker, Threads};

/// The slot of a session that ended as it was started.
fn done<L: Stream, V: Answerer, G>(
    of: Snapshot<Session<L, V, G>>,
    ended: Ended<L, V>,
) -> Slot<L, V, G>
    requires { EndsAs (serves_by_pass V.tells L.Source.tells L.Sink.tells) of.value ended }
    ensures { session_in result ≡ of.value }
{
    Slot::Done(Done { of, ended })
}

/// The line of a session, by this bell or the first one.
fn line_by(
    alloc: Global,
    bell: &mut Option<Arc<Parker, Global>>,
) -> Result<Arc<Line, Global>, Memory> {
    let rung = match bell {
        Some(bell) => Arc::try_clone(bell)?,
        None => {
            let first = Arc::new(alloc, Parker::new())?;
            *bell = Some(Arc::try_clone(&first)?);
            first
        }
    };
    Ok(Arc::new(
        alloc,
        Line {
            back: AtomicBool::new(false),
            over: AtomicBool::new(false),
            bell: rung,
        },
    )?)
}

/// Starts a thread for the session. Where none can be made the session comes back.
fn begin<
    R: Threads + Wait + Copy + Send + 'static,
    L: Stream + Dismiss + Drop + Send + 'static,
    V: Answerer + Drop + Send + 'static,
    G: Gate + Drop + Send + Sync + 'static,
>(
    rt: &R,
    alloc: Global,
    line: Arc<Line, Global>,
    session: Session<L, V, G>,
) -> Result<Slot<L, V, G>, Session<L, V, G>>
    requires { HasOwnPass session }
    ensures { MatchResult result (λ slot. session_in slot ≡ session) (λ back. back ≡ session) }
{
    let Ok(told) = Arc::try_clone(&line) else {
        return Err(session);
    };
    let there = *rt;
    let of = Snapshot::of(&session);
    let promise = Of(Snapshot::of(&session));
    match thread::spawn_with(
        rt,
        promise,
        move || -> Outcome<L, V, G>
            requires { HasOwnPass session }
            ensures { IsOutcomeOf (serves_by_pass V.tells L.Source.tells L.Sink.tells) session result }
        { go(there, alloc, session, told) },
    ) {
        Ok(handle) => Ok(Slot::Running(handle, line)),
        Err(refused) => {
            // No thread runs the closure, so it is told to give the session back, and called here.
            line.back.store(true, Ordering::SeqCst);
            match (refused.value)() {
                Outcome::Back(session) => Err(session),
                Outcome::Over(ended) => Ok(done(of, ended)),
            }
        }
    }
}

/// Waits for the end of a slot's session.
fn end_of<R: Threads + Wait, L: Stream + Dismiss + Drop, V: Answerer + Drop, G: Gate + Drop>(
    rt: &R,
    alloc: Global,
    slot: Slot<L, V, G>,
) -> Ended<L, V>
    ensures { EndsAs (serves_by_pass V.tells L.Source.tells L.Sink.tells) (session_in slot) result }
{
    match slot {
        Slot::Running(handle, _) => match handle.join(rt) {
            Outcome::Over(ended) => ended,
            Outcome::Back(session) => run(rt, alloc, session),
        },
        Slot::Done(done) => done.ended,
    }
}

/// Starts a session in a thread of its own, unless the spawner refuses that, memory is refused, or
/// no thread can be made.
fn try_start<
    R: Threads + Wait + Copy + Send + 'static,
    L: Stream + Dismiss + Drop + Send + 'static,
    V: Answerer + Drop + Send + 'static,
    G: Gate + Drop + Send + Sync + 'static,
>(rt: &R, spawner: &mut Spawner<L, V, G>, session: Session<L, V, G>) -> Result<(), Session<L, V, G>>
    requires own { HasOwnPass session }
    ensures starts { OnOk result (Starts spawner.old session (Ok tt) spawner.new) }
    ensures back { IfErr result (λ back. (back ≡ session) × (spawner.new ≡ spawner.old)) }
    ensures refuses { spawner.old.refuses ≡ true → IsErr result }
{
    if spawner.refuses {
        return Err(session);
    }
    let Ok(line) = line_by(spawner.alloc, &mut spawner.bell) else {
        return Err(session);
    };
    if spawner.started.reserve(1).is_err() {
        return Err(session);
    }
    let slot = begin(rt, spawner.alloc, line, session)?;
    spawner.started.push_reserved(slot);
    spawner.most = spawner.most.max(spawner.started.len());
    Ok(())
}

/// Starts a session in a thread of its own, behind those that were started before. Where memory is
/// refused or no thread can be made it comes back, and the spawner counts that.
pub fn start<
    R: Threads + Wait + Copy + Send + 'static,
    L: Stream + Dismiss + Drop + Send + 'static,
    V: Answerer + Drop + Send + 'static,
    G: Gate + Drop + Send + Sync + 'static,
>(rt: &R, spawner: &mut Spawner<L, V, G>, session: Session<L, V, G>) -> Result<(), Session<L, V, G>>
    requires own { HasOwnPass session }
    ensures starts { Starts spawner.old session result spawner.new }
    ensures refuses { spawner.old.refuses ≡ true → IsErr result }
{
    match try_start(rt, spawner, session) {
        Ok(()) => Ok(()),
        Err(session) => {
            spawner.refuse();
            Err(session)
        }
    }
}

/// Waits until one of the started sessions is over: its place among them.
fn wait_for_one<R: Wait, L: Stream, V: Answerer, G>(rt: &R, spawner: &Spawner<L, V, G>) -> usize
    requires { 0 < length spawner.now.started }
    ensures { result < length spawner.now.started }
{
    for _ in rt.forever() {
        if let Some(place) = spawner.started.as_slice().iter().position(Slot::is_over) {
            return place;
        }
        if let Some(bell) = &spawner.bell {
            bell.park(rt);
        }
    }
    unreachable!()
}

/// Waits until one of the started sessions is over, and gives what is left of it; None exactly where
/// there is none.
pub fn finish<R: Threads + Wait, L: Stream + Dismiss + Drop, V: Answerer + Drop, G: Gate + Drop>(
    rt: &R,
    spawner: &mut Spawner<L, V, G>,
) -> Option<Ended<L, V>>
    ensures { Finishes (serves_by_pass V.tells L.Source.tells L.Sink.tells) spawner.old result
        spawner.new }
{
    if spawner.started.is_empty() {
        return None;
    }
    let place = wait_for_one(rt, spawner);
    let slot = spawner.started.remove(place);
    Some(end_of(rt, spawner.alloc, slot))
}
