//! One session, and what is left of it.
ghost use Rattle.std.specs.Arc.{arc_value};
ghost use Rattle.ov_turn.specs.Passes.{IsPassOf};
ghost use Rattle.ov_serving.specs.Sessions.{EndsAs, HasOwnPass, serves_by_pass};

use crate::SessionPass;
use ov_io::Stream;
use ov_peer::Answerer;
use ov_session::{Dismiss, Gate, SessionEnd, serve_one};
use ov_turn::{Pass, Shared};
use std::alloc::Global;
use std::sync::{Arc, Wait};

/// A stream to be served, and what its requests are asked by.
#[derive(Drop)]
pub struct Session<L, V: Answerer, G> {
    /// The number that its gate is told.
    pub number: u32,
    pub stream: L,
    pub shared: Arc<Shared<V>, Global>,
    pub pass: Pass<V>,
    pub gate: Arc<G, Global>,
}

/// What is left of a session.
#[derive(Drop)]
pub struct Ended<L, V: Answerer> {
    pub number: u32,
    pub stream: L,
    pub pass: Pass<V>,
    pub ending: SessionEnd,
}

/// Serves a stream by a pass.
pub(crate) fn serve_by_pass<R: Wait, L: Stream + Dismiss, V: Answerer, G: Gate>(
    rt: &R,
    alloc: Global,
    number: u32,
    stream: &mut L,
    shared: &Shared<V>,
    pass: &mut Pass<V>,
    gate: &G,
) -> SessionEnd
    requires own { IsPassOf shared.now pass.old }
    ensures serves { serves_by_pass V.tells L.Source.tells L.Sink.tells pass.old pass.new
        stream.old stream.new result }
{
    let mut asker = SessionPass { shared, pass };
    let end = serve_one(rt, alloc, number, stream, &mut asker, gate);
    stream.dismiss(number, end);
    end
}

/// Serves a session here.
pub(crate) fn run<R: Wait, L: Stream + Dismiss + Drop, V: Answerer + Drop, G: Gate + Drop>(
    rt: &R,
    alloc: Global,
    session: Session<L, V, G>,
) -> Ended<L, V>
    requires own { HasOwnPass session }
    ensures ends { EndsAs (serves_by_pass V.tells L.Source.tells L.Sink.tells) session result }
{
    let Session {
        number,
        mut stream,
        shared,
        mut pass,
        gate,
    } = session;
    let ending = serve_by_pass(rt, alloc, number, &mut stream, &shared, &mut pass, &*gate);
    Ended {
        number,
        stream,
        pass,
        ending,
    }
}
