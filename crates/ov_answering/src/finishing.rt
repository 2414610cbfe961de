//! The last line of a run, and its status.
ghost use Rattle.std.specs.Prelude.{◌≡◌, ◌≢◌, ◌⊎◌, ◌≤◌, IfOk};
ghost use Rattle.ov_base.specs.Causes.{Rose};
ghost use Rattle.ov_report.specs.Ends.{EndsIn, EndsOr, IsPutTo};
ghost use Rattle.ov_report.specs.declared.last.TheConstants.{WRITE_FAULT};
ghost use Rattle.ov_script.specs.Lines.{reply_line};
ghost use Rattle.ov_script.specs.declared.reply.Reply.TheVariants.{End as EndReply};
ghost use Rattle.ov_answering.specs.Answering.{Finishes};
ghost use Rattle.ov_answering.specs.Faults.{tag_line};
ghost use Rattle.ov_answering.specs.Printing.{bad_line};
ghost use Rattle.ov_answering.specs.Status.{status_code};

use crate::answer::Stop;
use crate::status::Status;
use ov_base::Memory;
use ov_io::Sink;
use ov_machine::BadTag;
use ov_report::{push_values, put_memory};
use ov_script::{Reply, line};
use std::alloc::Global;

/// Puts the last line, and gives its status where that succeeds.
pub fn put_last<O: Sink>(out: &mut O, bytes: &[u8], status: Status) -> u8
    requires { status_code status ≢ WRITE_FAULT }
    ensures ends { EndsIn bytes.now (status_code status)
        (O.tells.written out.old) (O.tells.written out.new) result }
    ensures put { IsPutTo O.tells out.old out.new result }
{
    ov_report::put_last(out, bytes, status.code())
}

// Puts the end line, or the one that says that memory was refused for it.
fn put_end<O: Sink>(alloc: Global, out: &mut O, epoch: u32) -> u8
    ensures ends { EndsOr (reply_line (EndReply epoch)) 0
        (O.tells.written out.old) (O.tells.written out.new) result }
    ensures put { IsPutTo O.tells out.old out.new result }
{
    let mut bytes = Vec::new(alloc);
    match line(&Reply::End(epoch), &mut bytes) {
        Ok(()) => put_last(out, &bytes, Status::Done),
        Err(_) => put_memory(out),
    }
}

// Puts the line that names a bad line, or the one that says that memory was refused for it.
fn put_bad_line<O: Sink>(alloc: Global, out: &mut O, number: u64) -> u8
    ensures ends { EndsOr (bad_line number) 3
        (O.tells.written out.old) (O.tells.written out.new) result }
    ensures put { IsPutTo O.tells out.old out.new result }
{
    match format!(in alloc; "error line {number}\n") {
        Ok(text) => put_last(out, text.as_bytes(), Status::BadLine),
        Err(_) => put_memory(out),
    }
}

// The line on a file whose tag is wrong.
fn line_on_tag(alloc: Global, bad: &BadTag) -> Result<Vec<u8>, Memory>
    ensures { IfOk result (λ line. line.items ≡ tag_line bad.now) }
{
    let mut line = b"error tag ".to_vec(alloc)?;
    line.extend_from_slice(bad.file.as_bytes())?;
    push_values(alloc, &bad.stored, &bad.computed, &mut line)?;
    Ok(line)
}

// Puts the line on a file whose tag is wrong, or the one that says that memory was refused for it.
fn put_tag<O: Sink>(alloc: Global, out: &mut O, bad: &BadTag) -> u8
    ensures ends { EndsOr (tag_line bad.now) 12
        (O.tells.written out.old) (O.tells.written out.new) result }
    ensures put { IsPutTo O.tells out.old out.new result }
{
    match line_on_tag(alloc, bad) {
        Ok(bytes) => put_last(out, &bytes, Status::WrongTag),
        Err(_) => put_memory(out),
    }
}

/// Puts the last line, by why the answering stopped, and gives the status.
pub fn finish<O: Sink>(alloc: Global, stop: Stop, epoch: u32, out: &mut O) -> u8
    ensures finish { Finishes stop epoch
        (O.tells.written out.old) (O.tells.written out.new) result }
    ensures later { O.tells.faults out.old ≤ O.tells.faults out.new }
    ensures write { result ≡ 6 → ((stop ≡ Stop.Write) ⊎ (stop ≡ Stop.Trace))
        ⊎ Rose (O.tells.faults out.old) (O.tells.faults out.new) }
{
    match stop {
        Stop::End => put_end(alloc, out, epoch),
        Stop::BadLine(number) => put_bad_line(alloc, out, number),
        Stop::Long => put_last(out, b"error long\n", Status::Long),
        Stop::Read => put_last(out, b"error read\n", Status::ReadFault),
        Stop::Disk => put_last(out, b"error disk\n", Status::DiskFault),
        Stop::Write => Status::WriteFault.code(),
        Stop::Trace => Status::WriteFault.code(),
        Stop::Memory => put_memory(out),
        Stop::Tag(bad) => put_tag(alloc, out, &bad),
    }
}
