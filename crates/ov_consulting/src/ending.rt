//! The end of a question: what is put to standard output, and the exit status.
ghost use Rattle.std.specs.Prelude.{◌≡◌, ◌⊎◌};
ghost use Rattle.ov_acts.specs.Printing.{Puts, PutsNone};
ghost use Rattle.ov_base.specs.Causes.{Rose};
ghost use Rattle.ov_script.specs.Lines.{reply_line};
ghost use Rattle.ov_script.specs.declared.reply.Reply.TheVariants.{Refused as RefusedReply};
ghost use Rattle.ov_consulting.specs.Printing.{PutsEnd, PutsStop};

use crate::stop::BookStop;
use ov_base::{Memory, Octets, Refusal};
use ov_io::Sink;
use ov_script::{Reply, line};
use std::alloc::Global;

/// Puts the bytes, and gives the status where that succeeds.
fn put<O: Sink>(bytes: &[u8], code: u8, out: &mut O) -> u8
    ensures puts { Puts bytes.now code (O.tells.written out.old) (O.tells.written out.new) result }
    ensures write { (result ≡ code)
        ⊎ ((result ≡ 6) × Rose (O.tells.faults out.old) (O.tells.faults out.new)) }
{
    match out.put(bytes) {
        Ok(()) => code,
        Err(_) => 6,
    }
}

/// Puts the line on a refusal.
fn put_refusal<O: Sink>(alloc: Global, why: Refusal, out: &mut O) -> u8
    ensures puts { Puts (reply_line (RefusedReply why)) 3
        (O.tells.written out.old) (O.tells.written out.new) result
        ⊎ PutsNone 7 (O.tells.written out.old) (O.tells.written out.new) result }
    ensures write { result ≡ 6 → Rose (O.tells.faults out.old) (O.tells.faults out.new) }
{
    let mut bytes = Vec::new(alloc);
    match line(&Reply::Refused(why), &mut bytes) {
        Ok(()) => put(&bytes, 3, out),
        Err(Memory) => 7,
    }
}

/// The end of a question that has no answer.
fn stopped<O: Sink>(alloc: Global, stop: BookStop, out: &mut O) -> u8
    ensures puts { PutsStop stop (O.tells.written out.old) (O.tells.written out.new) result }
    ensures write { result ≡ 6 → Rose (O.tells.faults out.old) (O.tells.faults out.new) }
{
    match stop {
        BookStop::Refused(why) => put_refusal(alloc, why, out),
        BookStop::Disk => put(b"error disk\n", 17, out),
        BookStop::NoBook => put(b"error book\n", 18, out),
        other => other.code(),
    }
}

/// Puts the bytes of an answer, or the line on why there is none, and gives the exit status.
pub fn finish<O: Sink>(alloc: Global, end: &Result<Octets, BookStop>, out: &mut O) -> u8
    ensures puts { PutsEnd end.now (O.tells.written out.old) (O.tells.written out.new) result }
    ensures write { result ≡ 6 → Rose (O.tells.faults out.old) (O.tells.faults out.new) }
{
    match end {
        Ok(bytes) => put(bytes.as_slice(), 0, out),
        Err(stop) => stopped(alloc, *stop, out),
    }
}
