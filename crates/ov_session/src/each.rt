//! Sessions, one after the other.
ghost use Rattle.std.specs.Prelude.{◌≡◌};
ghost use Rattle.ov_session.specs.Doors.{IsUnused};
ghost use Rattle.ov_session.specs.Serving.{ServesEach, serves_alone};
ghost use Rattle.ov_session.specs.Turns.{IsAt, ServesNext};

use crate::{Alone, Door, OpenGate, SessionEnd, serve_one};
use ov_io::{Fault, Stream};
use ov_peer::Answerer;
use std::alloc::Global;
use std::sync::Wait;

/// What came of a door's next stream.
enum Next {
    /// The stream was served.
    Served,
    /// There are no more streams.
    Closed,
    /// The door failed.
    Failed,
}

/// Serves one session by an answerer that nobody else asks meanwhile.
fn serve_alone<R: Wait, L: Stream, V: Answerer>(
    rt: &R,
    alloc: Global,
    session: u32,
    stream: &mut L,
    value: &mut V,
) -> SessionEnd
    ensures { serves_alone V.tells L.Source.tells L.Sink.tells value.old value.new
        stream.old stream.new result }
{
    let mut asker = Alone { value };
    serve_one(rt, alloc, session, stream, &mut asker, &OpenGate)
}

/// Serves the door's next stream, and gives it back.
fn serve_next<R: Wait, D: Door, V: Answerer>(
    rt: &R,
    alloc: Global,
    door: &mut D,
    value: &mut V,
    number: u32,
) -> Next
    requires { IsAt (D.shows door.old) number }
    ensures { ServesNext (serves_alone V.tells D.Stream.Source.tells D.Stream.Sink.tells)
        value.old value.new (D.shows door.old) (D.shows door.new) result }
{
    match door.accept() {
        Ok(Some(given)) => {
            let mut stream = given;
            let end = serve_alone(rt, alloc, number, &mut stream, value);
            door.ended(number, stream, end);
            Next::Served
        }
        Ok(None) => Next::Closed,
        Err(Fault) => Next::Failed,
    }
}

/// Serves the sessions of a door one after the other, at most this many: how many there were, and
/// whether the door failed.
pub fn serve_each<R: Wait, D: Door, V: Answerer>(
    rt: &R,
    alloc: Global,
    door: &mut D,
    value: &mut V,
    sessions: u32,
) -> (u32, bool)
    requires { IsUnused (D.shows door.old) }
    ensures { ServesEach (serves_alone V.tells D.Stream.Source.tells D.Stream.Sink.tells)
        value.old value.new (D.shows door.old) (D.shows door.new) sessions result.0 result.1 }
{
    for number in 0..sessions {
        match serve_next(rt, alloc, door, value, number) {
            Next::Served => {}
            Next::Closed => return (number, false),
            Next::Failed => return (number, true),
        }
    }
    (sessions, false)
}
