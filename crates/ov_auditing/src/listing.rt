//! What an audit prints.
ghost use Rattle.std.specs.Prelude.{◌≡◌, ◌++◌, IfOk, OnOk};
ghost use Rattle.ov_audit.specs.Findings.{plain_cause, plain_finding, plain_findings};
ghost use Rattle.ov_auditing.specs.Lines.{cause_word, finding_line, finding_lines};
ghost use Rattle.ov_base.specs.declared.refusal.Refusal.TheVariants.{NoUser};
ghost use Rattle.ov_report.specs.Ends.{EndsOr, IsPutTo};
ghost use Rattle.ov_script.specs.Lines.{reply_line};
ghost use Rattle.ov_script.specs.declared.reply.Reply.TheVariants.{End as EndReply};
ghost use Rattle.ov_script.specs.declared.reply.Reply.TheVariants.{Refused as RefusedReply};

use ov_answering::{Status, put_last};
use ov_audit::{Cause, Finding, Findings};
use ov_base::{Memory, Refusal};
use ov_io::Sink;
use ov_report::put_memory;
use ov_script::{Reply, line};
use std::alloc::Global;

// The word of a cause.
fn word_of(cause: Cause) -> &'static str
    ensures { result.now ≡ cause_word (plain_cause cause) }
{
    match cause {
        Cause::Listed => "listed",
        Cause::Bare => "bare",
        Cause::Server => "server",
    }
}

// Appends the line of a finding.
fn push_line(alloc: Global, finding: &Finding, text: &mut Vec<u8>) -> Result<(), Memory>
    ensures { OnOk result (text.new.items
        ≡ text.old.items ++ finding_line (plain_finding finding.now)) }
{
    let (file, word, epoch) = (finding.file, word_of(finding.cause), finding.epoch);
    let head = format!(in alloc; "exposed {file} ")?;
    let tail = format!(in alloc; " {word} {epoch}\n")?;
    text.extend_from_slice(head.as_bytes())?;
    text.extend_from_slice(finding.name.as_bytes())?;
    text.extend_from_slice(tail.as_bytes())?;
    Ok(())
}

// Appends the lines of these findings.
fn push_lines(alloc: Global, findings: &[Finding], text: &mut Vec<u8>) -> Result<(), Memory>
    ensures { OnOk result (text.new.items
        ≡ text.old.items ++ finding_lines (plain_findings findings.now)) }
{
    for finding in findings {
        push_line(alloc, finding, text)?;
    }
    Ok(())
}

// The lines of the findings, and the end line.
fn found_text(alloc: Global, findings: &Findings, epoch: u32) -> Result<Vec<u8>, Memory>
    ensures { IfOk result (λ text. text.items
        ≡ finding_lines findings.now ++ reply_line (EndReply epoch)) }
{
    let mut text = Vec::new(alloc);
    push_lines(alloc, findings.as_slice(), &mut text)?;
    line(&Reply::End(epoch), &mut text)?;
    Ok(text)
}

// The line on a user who isn't there, and the end line.
fn no_user_text(alloc: Global, epoch: u32) -> Result<Vec<u8>, Memory>
    ensures { IfOk result (λ text. text.items
        ≡ reply_line (RefusedReply NoUser) ++ reply_line (EndReply epoch)) }
{
    let mut text = Vec::new(alloc);
    line(&Reply::Refused(Refusal::NoUser), &mut text)?;
    line(&Reply::End(epoch), &mut text)?;
    Ok(text)
}

/// Puts the lines of the findings and the end line.
pub fn put_findings<O: Sink>(alloc: Global, findings: &Findings, epoch: u32, out: &mut O) -> u8
    ensures ends { EndsOr (finding_lines findings.now ++ reply_line (EndReply epoch)) 0
        (O.tells.written out.old) (O.tells.written out.new) result }
    ensures put { IsPutTo O.tells out.old out.new result }
{
    match found_text(alloc, findings, epoch) {
        Ok(text) => put_last(out, &text, Status::Done),
        Err(Memory) => put_memory(out),
    }
}

/// Puts the line on a user who isn't there and the end line.
pub fn put_no_user<O: Sink>(alloc: Global, epoch: u32, out: &mut O) -> u8
    ensures ends { EndsOr (reply_line (RefusedReply NoUser) ++ reply_line (EndReply epoch)) 0
        (O.tells.written out.old) (O.tells.written out.new) result }
    ensures put { IsPutTo O.tells out.old out.new result }
{
    match no_user_text(alloc, epoch) {
        Ok(text) => put_last(out, &text, Status::Done),
        Err(Memory) => put_memory(out),
    }
}
