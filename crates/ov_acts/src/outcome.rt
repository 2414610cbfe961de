//! The end of an act: what is put to standard output, and the exit status.
ghost use Rattle.std.specs.Prelude.{◌≡◌, ◌⊎◌, ◌≢◌, Err};
ghost use Rattle.ov_base.specs.Causes.{Rose};
ghost use Rattle.ov_script.specs.Lines.{reply_line};
ghost use Rattle.ov_script.specs.declared.reply.Reply.TheVariants.{Refused as RefusedReply};
ghost use Rattle.ov_acts.specs.Printing.{HasReason, Puts, PutsNone, PutsOutcome};
ghost use Rattle.ov_acts.specs.Status.{status_code};

use crate::status::Status;
use crate::stop::Stop;
use ov_base::{Memory, Octets, Refusal};
use ov_io::Sink;
use ov_script::{Reply, line};
use std::alloc::Global;

/// Puts the bytes, and gives the status where that succeeds.
fn put<O: Sink>(out: &mut O, bytes: &[u8], status: Status) -> u8
    ensures puts { Puts bytes.now (status_code status)
        (O.tells.written out.old) (O.tells.written out.new) result }
    ensures write { status ≢ Status.WriteFault → result ≡ 6
        → Rose (O.tells.faults out.old) (O.tells.faults out.new) }
{
    match out.put(bytes) {
        Ok(()) => status.code(),
        Err(_) => Status::WriteFault.code(),
    }
}

/// Puts the line on a refusal.
fn put_refusal<O: Sink>(alloc: Global, why: Refusal, out: &mut O) -> u8
    ensures puts { Puts (reply_line (RefusedReply why)) 3
        (O.tells.written out.old) (O.tells.written out.new) result
        ⊎ PutsNone 7 (O.tells.written out.old) (O.tells.written out.new) result }
    ensures write { result ≡ 6 → Rose (O.tells.faults out.old) (O.tells.faults out.new) }
{
    let mut bytes = Vec::new(alloc);
    match line(&Reply::Refused(why), &mut bytes) {
        Ok(()) => put(out, &bytes, Status::Refused),
        Err(Memory) => Status::OutOfMemory.code(),
    }
}

/// The end of an act that has no result.
fn stopped<O: Sink>(alloc: Global, stop: Stop, out: &mut O) -> u8
    ensures puts { PutsOutcome (Err stop)
        (O.tells.written out.old) (O.tells.written out.new) result }
    ensures write { result ≡ 6 → Rose (O.tells.faults out.old) (O.tells.faults out.new) }
    ensures reason { HasReason result (Err stop) }
{
    match stop {
        Stop::Refused(why) => put_refusal(alloc, why, out),
        other => other.status().code(),
    }
}

/// The end of an act.
pub fn finish<O: Sink>(alloc: Global, outcome: Result<Octets, Stop>, out: &mut O) -> u8
    ensures puts { PutsOutcome outcome (O.tells.written out.old) (O.tells.written out.new) result }
    ensures write { result ≡ 6 → Rose (O.tells.faults out.old) (O.tells.faults out.new) }
    ensures reason { HasReason result outcome }
{
    match outcome {
        Ok(bytes) => put(out, bytes.as_slice(), Status::Done),
        Err(stop) => stopped(alloc, stop, out),
    }
}
