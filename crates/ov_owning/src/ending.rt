//! The end of a call: its line on standard output, and the exit status.
ghost use Rattle.std.specs.Prelude.{◌≡◌, ◌⊎◌, ◌∷◌, [], ◌++◌, IfOk, codes};
ghost use Rattle.std.specs.Fmt.{decimal};
ghost use Rattle.ov_script.specs.Lines.{reply_line as line_on};
ghost use Rattle.ov_script.specs.declared.reply.Reply.TheVariants.{Refused as RefusedReply};
ghost use Rattle.ov_base.specs.Causes.{Rose};
ghost use Rattle.ov_owning.specs.Printing.{PutsEnd, PutsLine, end_code, end_line};

use crate::stop::OwnStop;
use ov_base::{Memory, Refusal};
use ov_io::Sink;
use ov_script::{Reply, line};
use std::alloc::Global;

/// The line on a reply.
fn reply_line(alloc: Global, reply: &Reply) -> Result<Vec<u8>, Memory>
    ensures { IfOk result (λ text. text.items ≡ line_on reply.now) }
{
    let mut text = Vec::new(alloc);
    line(reply, &mut text)?;
    Ok(text)
}

/// The line on an update that the server refuses.
fn server_line(alloc: Global, why: Refusal) -> Result<Vec<u8>, Memory>
    ensures { IfOk result (λ text. text.items
        ≡ codes "server " ++ line_on (RefusedReply why)) }
{
    let mut text = b"server ".to_vec(alloc)?;
    line(&Reply::Refused(why), &mut text)?;
    Ok(text)
}

/// The line on a server at this epoch, by a book at that one.
fn differs_line(alloc: Global, told: u32, kept: u32) -> Result<Vec<u8>, Memory>
    ensures { IfOk result (λ text. text.items
        ≡ codes "differs " ++ decimal told ++ 32 ∷ decimal kept ++ 10 ∷ []) }
{
    Ok(format!(in alloc; "differs {told} {kept}\n")?.into_bytes())
}

/// The line of an end, or nothing where it has none.
fn line_of(alloc: Global, end: Result<u32, OwnStop>) -> Result<Vec<u8>, Memory>
    ensures { IfOk result (λ text. text.items ≡ end_line end) }
{
    match end {
        Ok(epoch) => reply_line(alloc, &Reply::Accepted(epoch)),
        Err(OwnStop::Refused(why)) => reply_line(alloc, &Reply::Refused(why)),
        Err(OwnStop::Pending { kept }) => {
            Ok(format!(in alloc; "pending {kept}\n")?.into_bytes())
        }
        Err(OwnStop::Differs { told, kept }) => differs_line(alloc, told, kept),
        Err(OwnStop::Disk) => Ok(b"error disk\n".to_vec(alloc)?),
        Err(OwnStop::NoBook) => Ok(b"error book\n".to_vec(alloc)?),
        Err(OwnStop::ServerRefused(why)) => server_line(alloc, why),
        Err(_) => Ok(Vec::new(alloc)),
    }
}

/// The exit status of an end.
fn code_of(end: Result<u32, OwnStop>) -> u8
    ensures { result ≡ end_code end }
{
    match end {
        Ok(_) => 0,
        Err(stop) => stop.code(),
    }
}

/// Puts a line, where there is one, and gives the status.
fn put_line<O: Sink>(text: &[u8], code: u8, out: &mut O) -> u8
    ensures puts { PutsLine text.now code (O.tells.written out.old) (O.tells.written out.new) result }
    ensures write { (result ≡ code)
        ⊎ ((result ≡ 6) × Rose (O.tells.faults out.old) (O.tells.faults out.new)) }
{
    if text.is_empty() {
        return code;
    }
    match out.put(text) {
        Ok(()) => code,
        Err(_) => 6,
    }
}

/// Puts the line of an end, where it has one, and gives the exit status.
pub fn finish<O: Sink>(alloc: Global, end: Result<u32, OwnStop>, out: &mut O) -> u8
    ensures puts { PutsEnd end (O.tells.written out.old) (O.tells.written out.new) result }
    ensures write { (result ≡ 6) → Rose (O.tells.faults out.old) (O.tells.faults out.new) }
{
    match line_of(alloc, end) {
        Ok(text) => put_line(&text, code_of(end), out),
        Err(Memory) => 7,
    }
}
