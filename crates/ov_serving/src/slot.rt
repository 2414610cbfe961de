//! What a spawner keeps of a session, and what a thread does with it.
ghost use Rattle.ov_serving.specs.Sessions.{HasOwnPass, serves_by_pass};
ghost use Rattle.ov_serving.specs.Slots.{IsOutcomeOf};

use crate::session::{Ended, Session, run};
use ov_io::Stream;
use ov_peer::Answerer;
use ov_session::{Dismiss, Gate};
use std::alloc::Global;
use std::marker::Model;
use std::snapshot::Snapshot;
use std::sync::atomic::{AtomicBool, Ordering};
use std::sync::{Arc, Wait};
use std::thread::{Parker, Promise, PromisedHandle};

/// What a spawner and the thread of one session tell each other.
#[derive(Drop)]
pub struct Line {
    /// The session is to be given back, since no thread could be made.
    pub(crate) back: AtomicBool,
    /// The session is over.
    pub(crate) over: AtomicBool,
    /// Where the spawner sleeps until a session is over.
    pub(crate) bell: Arc<Parker, Global>,
}

/// What a thread may give for its session.
#[derive(Drop)]
pub enum Outcome<L, V: Answerer, G> {
    /// The session ended.
    Over(Ended<L, V>),
    /// The session as it was, where no thread could be made.
    Back(Session<L, V, G>),
}

/// The session of which a thread gives the outcome.
#[derive(Drop)]
pub struct Of<L, V: Answerer, G>(pub(crate) Snapshot<Session<L, V, G>>);

impl<L: Stream, V: Answerer, G> Promise<Outcome<L, V, G>> for Of<L, V, G> {
    ghost kept_by = { λ p outcome. IsOutcomeOf
        (serves_by_pass V.tells L.Source.tells L.Sink.tells) p.0.value outcome };
}

/// A session that ended as it was started.
#[derive(Drop)]
pub struct Done<L: Stream, V: Answerer, G> {
    pub(crate) of: Snapshot<Session<L, V, G>>,
    pub(crate) ended: Ended<L, V>,
}

impl<L: Stream, V: Answerer, G> Model for Done<L, V, G> {
    ghost use Rattle.ov_serving.specs.declared.session.Session.{Session};
    ghost use Rattle.ov_serving.specs.declared.session.Ended.{Ended};
    ghost use Rattle.ov_serving.specs.Sessions.{EndsAs, serves_by_pass};

    ghost Value = { Session L V G × Ended L V };

    ghost view = { λ d. (d.of.value, d.ended) };

    ghost invariant = { λ d. EndsAs (serves_by_pass V.tells L.Source.tells L.Sink.tells)
        d.of.value d.ended };
}

/// A session that was started.
#[derive(Drop)]
pub enum Slot<L: Stream, V: Answerer, G> {
    /// A thread serves it.
    Running(PromisedHandle<Outcome<L, V, G>, Of<L, V, G>>, Arc<Line, Global>),
    /// It ended at once.
    Done(Done<L, V, G>),
}

impl<L: Stream, V: Answerer, G> Slot<L, V, G> {
    /// Whether the session is over.
    pub(crate) fn is_over(&self) -> bool {
        match self {
            Slot::Running(_, line) => line.over.load(Ordering::SeqCst),
            Slot::Done(_) => true,
        }
    }
}

/// Serves the session, or gives it back where it is to.
pub(crate) fn go<R: Wait + Drop, L: Stream + Dismiss + Drop, V: Answerer + Drop, G: Gate + Drop>(
    rt: R,
    alloc: Global,
    session: Session<L, V, G>,
    line: Arc<Line, Global>,
) -> Outcome<L, V, G>
    requires { HasOwnPass session }
    ensures { IsOutcomeOf (serves_by_pass V.tells L.Source.tells L.Sink.tells) session result }
{
    if line.back.load(Ordering::SeqCst) {
        return Outcome::Back(session);
    }
    let ended = run(&rt, alloc, session);
    line.over.store(true, Ordering::SeqCst);
    line.bell.unpark();
    Outcome::Over(ended)
}
