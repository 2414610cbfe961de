//! One session: frames that are answered in order.
ghost use Rattle.std.specs.Prelude.{◌≡◌, ◌≤◌, ℕ, [], false, IfOk, OnOk};
ghost use Rattle.std.specs.List.{AllByRecursion};
ghost use Rattle.ov_wire.specs.Frames.{IsFrame};
ghost use Rattle.ov_session.specs.Ends.{Serves};
ghost use Rattle.ov_session.specs.Gates.{ServesGated, gated};
ghost use Rattle.ov_session.specs.Links.{IsLater, IsSameLoan, Link, link};
ghost use Rattle.ov_session.specs.Steps.{AnswersFrame, AnswersFrames, Going, SessionGoesOn, IsEndOf, IsWriting, end_of, go_on};

use crate::piece::PIECE;
use crate::putting::put_frame;
use crate::{Asker, Gate, SessionEnd};
use ov_base::{Memory, Octets};
use ov_io::{Fault, Stream};
use ov_peer::AskFault;
use ov_wire::{Decoder, FeedFault, kinds};
use std::alloc::Global;
use std::sync::Wait;

/// The frame that says that there was no memory for an answer.
const NO_MEMORY: [u8; 1] = [kinds::NO_MEMORY];

/// What is told of a request before it is asked, and where it may wait.
#[derive(Drop)]
struct Desk<'a, R, G> {
    rt: &'a R,
    gate: &'a G,
    session: u32,
}

/// Why frames aren't answered to the last.
enum Stop {
    Link,
    Spent,
}

/// What a session keeps between two pieces. The list of frames is empty then, since a session that
/// waits shouldn't hold a frame, but it keeps its memory.
#[derive(Drop)]
struct Reading {
    decoder: Decoder,
    room: [u8; PIECE],
    frames: Vec<Octets>,
    reply: Vec<u8>,
    taken: u64,
    asked: u32,
}

impl Reading {
    fn new(alloc: Global) -> Result<Reading, Memory>
        ensures { IfOk result (λ r.
            (r.decoder ≡ record { start = 0; rest = []; bad = false }) × (r.taken ≡ 0)
            × (r.asked ≡ 0) × (r.frames.items ≡ [])) }
    {
        let decoder = Decoder::new(alloc)?;
        Ok(Reading {
            decoder,
            room: [0; PIECE],
            frames: Vec::new(alloc),
            reply: Vec::new(alloc),
            taken: 0,
            asked: 0,
        })
    }

    /// How the session ends where the input does.
    fn at_end(&self) -> SessionEnd
        ensures { IsEndOf self.now.decoder.rest self.now.taken result }
    {
        if self.decoder.pending() == 0 {
            SessionEnd::End
        } else {
            SessionEnd::Bad { at: self.taken }
        }
    }
}

/// Tells the gate of one frame, asks it and puts its answer.
fn answer_one<R: Wait, L: Stream, A: Asker, G: Gate>(
    desk: &Desk<'_, R, G>,
    stream: &mut L,
    asker: &mut A,
    frame: &[u8],
    reply: &mut Vec<u8>,
    asked: &mut u32,
) -> Result<(), Stop>
    requires frame { IsFrame frame.now }
    requires ready { A.tells.ready asker.old }
    ensures answers { AnswersFrame
        (gated A.tells (G.was_told desk.now.gate.now desk.now.session A))
        (asker.old, asked.old) (asker.new, asked.new)
        (link L.Source.tells L.Sink.tells stream.old) (link L.Source.tells L.Sink.tells stream.new)
        frame.now result }
    ensures half { IsWriting
        (link L.Source.tells L.Sink.tells stream.old)
        (link L.Source.tells L.Sink.tells stream.new) }
    ensures later { L.Sink.tells.faults stream.old ≤ L.Sink.tells.faults stream.new }
    ensures same { IsSameLoan L.Source.tells L.Sink.tells stream.old stream.new }
    ensures ready { A.tells.ready asker.new }
    ensures asker { A.tells.borrow asker.new ≡ A.tells.borrow asker.old }
{
    desk.gate.pause(desk.session, *asked, asker);
    let put = match asker.ask(desk.rt, frame, reply) {
        Ok(()) => put_frame(stream, reply),
        Err(AskFault::Memory) => put_frame(stream, &NO_MEMORY),
        Err(AskFault::Spent) => return Err(Stop::Spent),
    };
    *asked = asked.saturating_add(1);
    match put {
        Ok(()) => Ok(()),
        Err(Fault) => Err(Stop::Link),
    }
}

/// Answers these frames in order.
fn answer_each<R: Wait, L: Stream, A: Asker, G: Gate>(
    desk: &Desk<'_, R, G>,
    stream: &mut L,
    asker: &mut A,
    frames: &[Octets],
    reply: &mut Vec<u8>,
    asked: &mut u32,
) -> Result<(), Stop>
    requires frames { AllByRecursion IsFrame frames.now }
    requires ready { A.tells.ready asker.old }
    ensures answers { AnswersFrames
        (gated A.tells (G.was_told desk.now.gate.now desk.now.session A))
        (asker.old, asked.old) (asker.new, asked.new)
        (link L.Source.tells L.Sink.tells stream.old) (link L.Source.tells L.Sink.tells stream.new)
        frames.now result }
    ensures half { IsWriting
        (link L.Source.tells L.Sink.tells stream.old)
        (link L.Source.tells L.Sink.tells stream.new) }
    ensures later { L.Sink.tells.faults stream.old ≤ L.Sink.tells.faults stream.new }
    ensures same { IsSameLoan L.Source.tells L.Sink.tells stream.old stream.new }
    ensures ready { A.tells.ready asker.new }
    ensures asker { A.tells.borrow asker.new ≡ A.tells.borrow asker.old }
{
    for frame in frames {
        match answer_one(desk, stream, asker, frame.as_slice(), reply, asked) {
            Ok(()) => {}
            Err(stop) => return Err(stop),
        }
    }
    Ok(())
}

/// How a session ends that stops so.
fn end_of(stop: Stop) -> SessionEnd
    ensures { result ≡ end_of stop }
{
    match stop {
        Stop::Link => SessionEnd::LinkFault,
        Stop::Spent => SessionEnd::Spent,
    }
}

/// How a session ends by what a decoder answered.
fn go_on(fed: Result<(), FeedFault>) -> Result<(), SessionEnd>
    ensures { result ≡ go_on fed }
{
    match fed {
        Ok(()) => Ok(()),
        Err(FeedFault::BadFrame { at }) => Err(SessionEnd::Bad { at }),
        Err(FeedFault::Memory) => Err(SessionEnd::Memory),
    }
}

/// Takes one piece, and answers the frames that are whole then.
fn read_on<R: Wait, L: Stream, A: Asker, G: Gate>(
    desk: &Desk<'_, R, G>,
    stream: &mut L,
    asker: &mut A,
    reading: &mut Reading,
) -> Result<(), SessionEnd>
    requires ready { A.tells.ready asker.old }
    requires empty { reading.old.frames.items ≡ [] }
    ensures goes { (a : A × ℕ) (old : Link)
        → Going (gated A.tells (G.was_told desk.now.gate.now desk.now.session A))
        a (asker.old, reading.old.asked) old (link L.Source.tells L.Sink.tells stream.old)
        reading.old.decoder reading.old.taken
        → SessionGoesOn (gated A.tells (G.was_told desk.now.gate.now desk.now.session A))
        a (asker.new, reading.new.asked) old (link L.Source.tells L.Sink.tells stream.new)
        reading.new.decoder reading.new.taken result }
    ensures later { IsLater
        (link L.Source.tells L.Sink.tells stream.old)
        (link L.Source.tells L.Sink.tells stream.new) }
    ensures same { IsSameLoan L.Source.tells L.Sink.tells stream.old stream.new }
    ensures ready { A.tells.ready asker.new }
    ensures asker { A.tells.borrow asker.new ≡ A.tells.borrow asker.old }
    ensures empty { OnOk result (reading.new.frames.items ≡ []) }
{
    let count = match stream.take(&mut reading.room) {
        Ok(count) => count,
        Err(Fault) => return Err(SessionEnd::LinkFault),
    };
    if count == 0 {
        return Err(reading.at_end());
    }
    reading.taken = reading.taken.saturating_add(count as u64);
    let (piece, _) = reading.room.split_at(count);
    let fed = reading.decoder.feed(piece, &mut reading.frames);
    let (reply, asked) = (&mut reading.reply, &mut reading.asked);
    match answer_each(desk, stream, asker, &reading.frames, reply, asked) {
        Ok(()) => {
            reading.frames.clear();
            go_on(fed)
        }
        Err(stop) => Err(end_of(stop)),
    }
}

/// Serves a session: answers the frames of a stream in order, one answer each, until it ends.
/// The gate is told of each request before it is asked.
pub fn serve_one<R: Wait, L: Stream, A: Asker, G: Gate>(
    rt: &R,
    alloc: Global,
    session: u32,
    stream: &mut L,
    asker: &mut A,
    gate: &G,
) -> SessionEnd
    requires { A.tells.ready asker.old }
    ensures serves { Serves A.tells asker.old asker.new
        (link L.Source.tells L.Sink.tells stream.old)
        (link L.Source.tells L.Sink.tells stream.new) result }
    ensures told { ServesGated A.tells (G.was_told gate.now session A) asker.old asker.new
        (link L.Source.tells L.Sink.tells stream.old)
        (link L.Source.tells L.Sink.tells stream.new) result }
    ensures later { IsLater
        (link L.Source.tells L.Sink.tells stream.old)
        (link L.Source.tells L.Sink.tells stream.new) }
    ensures same { IsSameLoan L.Source.tells L.Sink.tells stream.old stream.new }
    ensures ready { A.tells.ready asker.new }
    ensures asker { A.tells.borrow asker.new ≡ A.tells.borrow asker.old }
{
    let mut reading = match Reading::new(alloc) {
        Ok(reading) => reading,
        Err(Memory) => return SessionEnd::Memory,
    };
    let desk = Desk { rt, gate, session };
    'pieces: for _ in rt.forever() {
        match read_on(&desk, stream, asker, &mut reading) {
            Ok(()) => {}
            Err(end) => return end,
        }
    }
    unreachable!()
}
