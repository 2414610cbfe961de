//! What is printed of a shorter store.
ghost use Rattle.std.specs.Prelude.{◌≡◌, ◌++◌, IfOk};
ghost use Rattle.ov_report.specs.Ends.{EndsOr, IsPutTo};
ghost use Rattle.ov_script.specs.Lines.{reply_line};
ghost use Rattle.ov_script.specs.declared.reply.Reply.TheVariants.{End as EndReply};
ghost use Rattle.ov_tidying.specs.Lines.{tidied_line};

use ov_answering::{Status, put_last};
use ov_base::Memory;
use ov_io::Sink;
use ov_report::put_memory;
use ov_script::{Reply, line};
use std::alloc::Global;

// The line on how many updates the old store has and the new one, and the end line.
fn tidied_text(alloc: Global, updates: u64, kept: usize, epoch: u32) -> Result<Vec<u8>, Memory>
    ensures { IfOk result (λ text. text.items
        ≡ tidied_line updates kept ++ reply_line (EndReply epoch)) }
{
    let head = format!(in alloc; "tidy {updates} {kept}\n")?;
    let mut text = head.as_bytes().to_vec(alloc)?;
    line(&Reply::End(epoch), &mut text)?;
    Ok(text)
}

/// Puts the line on how many updates the old store has and the new one, and the end line.
pub fn put_tidied<O: Sink>(alloc: Global, updates: u64, kept: usize, epoch: u32, out: &mut O) -> u8
    ensures ends { EndsOr (tidied_line updates kept ++ reply_line (EndReply epoch)) 0
        (O.tells.written out.old) (O.tells.written out.new) result }
    ensures put { IsPutTo O.tells out.old out.new result }
{
    match tidied_text(alloc, updates, kept, epoch) {
        Ok(text) => put_last(out, &text, Status::Done),
        Err(Memory) => put_memory(out),
    }
}
