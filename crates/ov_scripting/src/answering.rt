//! The commands of a script, answered one after another.
ghost use Rattle.std.specs.Prelude.{◌≡◌, ◌≤◌, IfSome};
ghost use Rattle.ov_base.specs.Causes.{Rose};
ghost use Rattle.ov_script.specs.Lines.{reply_line};
ghost use Rattle.ov_script.specs.Place.{start, text_left};
ghost use Rattle.ov_scripting.specs.Answering.{Answers, AsksEnd, Halts, PutsOr};
ghost use Rattle.ov_scripting.specs.Endings.{EndsFor};
ghost use Rattle.ov_scripting.specs.Performing.{IsWritten};

use crate::ended::Ended;
use crate::performing::{epoch, perform};
use ov_acts::Stop;
use ov_io::{Sink, Source};
use ov_owner::Owner;
use ov_peer::Peer;
use ov_script::{Command, Next, Reply, Script, ScriptFault, line};
use std::alloc::Global;

/// Puts a reply line, for which `buffer` is used, or says what ended the script there.
fn put_reply<O: Sink>(reply: &Reply, buffer: &mut Vec<u8>, out: &mut O) -> Option<Ended>
    ensures put { PutsOr (reply_line reply.now) (O.tells.written out.old)
        (O.tells.written out.new) result }
    ensures cause { IfSome result
        (EndsFor ⊥ (Rose (O.tells.faults out.old) (O.tells.faults out.new)) ⊥ ⊥) }
    ensures later { O.tells.faults out.old ≤ O.tells.faults out.new }
{
    buffer.clear();
    match line(reply, buffer) {
        Ok(()) => match out.put(buffer) {
            Ok(()) => None,
            Err(_) => Some(Ended::Unwritten),
        },
        Err(_) => Some(Ended::Stopped(Stop::Memory)),
    }
}

/// Performs one command, and puts its reply line.
fn answer<O: Sink, P: Peer>(
    owner: &Owner,
    command: Command,
    buffer: &mut Vec<u8>,
    out: &mut O,
    peer: &mut P,
) -> Option<Ended>
    requires { IsWritten command }
    ensures answers { Answers P.tells owner.now command peer.old peer.new
        (O.tells.written out.old) (O.tells.written out.new) result }
    ensures cause { IfSome result
        (EndsFor ⊥ (Rose (O.tells.faults out.old) (O.tells.faults out.new))
        (Rose (P.tells.faults peer.old) (P.tells.faults peer.new)) ⊥) }
    ensures out_later { O.tells.faults out.old ≤ O.tells.faults out.new }
    ensures peer_later { P.tells.faults peer.old ≤ P.tells.faults peer.new }
{
    let alloc = *buffer.allocator();
    match perform(alloc, owner, command, peer) {
        Ok(reply) => put_reply(&reply, buffer, out),
        Err(stop) => Some(Ended::Stopped(stop)),
    }
}

/// How a script ends that was read to its end: the epoch is asked for.
fn end<P: Peer>(alloc: Global, owner: &Owner, peer: &mut P) -> Ended
    ensures asks { AsksEnd P.tells owner.now peer.old peer.new result }
    ensures cause { EndsFor ⊥ ⊥ (Rose (P.tells.faults peer.old) (P.tells.faults peer.new)) ⊥
        result }
    ensures later { P.tells.faults peer.old ≤ P.tells.faults peer.new }
{
    match epoch(alloc, owner, peer) {
        Ok(epoch) => Ended::Done(epoch),
        Err(stop) => Ended::Stopped(stop),
    }
}

/// Answers a script from its first line, and asks for the epoch at its end.
pub fn answer_all<S: Source + Drop, O: Sink, P: Peer>(
    alloc: Global,
    owner: &Owner,
    script: &mut Script<S>,
    out: &mut O,
    peer: &mut P,
) -> Ended
    requires start { script.old ≡ start script.old.source }
    ensures halts { Halts P.tells owner.now (text_left S.tells script.old) peer.old peer.new
        (O.tells.written out.old) (O.tells.written out.new) result }
    ensures cause { EndsFor
        (Rose (S.tells.faults script.old.source) (S.tells.faults script.new.source))
        (Rose (O.tells.faults out.old) (O.tells.faults out.new))
        (Rose (P.tells.faults peer.old) (P.tells.faults peer.new)) ⊥ result }
    ensures same { S.tells.borrow script.new.source ≡ S.tells.borrow script.old.source }
    ensures later { S.tells.faults script.old.source ≤ S.tells.faults script.new.source }
    ensures out_later { O.tells.faults out.old ≤ O.tells.faults out.new }
    ensures peer_later { P.tells.faults peer.old ≤ P.tells.faults peer.new }
{
    let mut buffer = Vec::new(alloc);
    'items: loop {
        match script.next() {
            Ok(Next::Command(command)) => match answer(owner, command, &mut buffer, out, peer) {
                None => {}
                Some(ended) => return ended,
            },
            Ok(Next::End) => return end(alloc, owner, peer),
            Ok(Next::BadLine { line }) => return Ended::BadLine(line),
            Ok(Next::Long) => return Ended::Long,
            Err(ScriptFault::Read) => return Ended::Stopped(Stop::Read),
            Err(ScriptFault::Memory) => return Ended::Stopped(Stop::Memory),
        }
    }
}
