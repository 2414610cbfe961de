//! The last line.
ghost use Rattle.std.specs.Prelude.{◌≡◌, ◌≤◌, IfOk};
ghost use Rattle.ov_base.specs.Causes.{Rose};
ghost use Rattle.ov_script.specs.Lines.{reply_line};
ghost use Rattle.ov_script.specs.declared.reply.Reply.TheVariants.{End as EndReply};
ghost use Rattle.ov_scripting.specs.Answering.{Finishes, PutsLine, bad_line};
ghost use Rattle.ov_scripting.specs.Endings.{WritesFor};

use crate::ended::Ended;
use ov_acts::Stop;
use ov_base::Memory;
use ov_io::Sink;
use ov_script::{Reply, line};
use std::alloc::Global;

/// The line on the end of a script.
fn end_line(alloc: Global, epoch: u32) -> Result<Vec<u8>, Memory>
    ensures { IfOk result (λ text. text.items ≡ reply_line (EndReply epoch)) }
{
    let mut text = Vec::new(alloc);
    line(&Reply::End(epoch), &mut text)?;
    Ok(text)
}

/// The line that names a bad line.
fn bad_line(alloc: Global, number: u64) -> Result<Vec<u8>, Memory>
    ensures { IfOk result (λ text. text.items ≡ bad_line number) }
{
    Ok(format!(in alloc; "error line {number}\n")?.into_bytes())
}

/// Puts a last line, and says how the script ended then.
fn put<O: Sink>(text: &[u8], ended: Ended, out: &mut O) -> Ended
    ensures puts { PutsLine text.now ended (O.tells.written out.old) (O.tells.written out.new)
        result }
    ensures cause { WritesFor (Rose (O.tells.faults out.old) (O.tells.faults out.new)) ended
        result }
    ensures later { O.tells.faults out.old ≤ O.tells.faults out.new }
{
    match out.put(text) {
        Ok(()) => ended,
        Err(_) => Ended::Unwritten,
    }
}

/// Puts the last line, where there is one, and says how the script ended.
pub fn finish<O: Sink>(alloc: Global, ended: Ended, out: &mut O) -> Ended
    ensures finishes { Finishes ended (O.tells.written out.old) (O.tells.written out.new) result }
    ensures cause { WritesFor (Rose (O.tells.faults out.old) (O.tells.faults out.new)) ended
        result }
    ensures later { O.tells.faults out.old ≤ O.tells.faults out.new }
{
    match ended {
        Ended::Done(epoch) => match end_line(alloc, epoch) {
            Ok(text) => put(&text, ended, out),
            Err(Memory) => Ended::Stopped(Stop::Memory),
        },
        Ended::BadLine(number) => match bad_line(alloc, number) {
            Ok(text) => put(&text, ended, out),
            Err(Memory) => Ended::Stopped(Stop::Memory),
        },
        Ended::Long => put(b"error long\n", ended, out),
        Ended::Unwritten | Ended::Stopped(_) => ended,
    }
}
