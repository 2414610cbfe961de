//! The seven lines of a load.
ghost use Rattle.std.specs.Prelude.{◌≡◌, ◌∷◌, ◌++◌, [], IfOk, OnOk, codes};
ghost use Rattle.std.specs.Fmt.{decimal};
ghost use Rattle.hex.specs.Hex.{encode_lower};
ghost use Rattle.ov_report.specs.Ends.{IsPutTo};
ghost use Rattle.ov_load.specs.Loading.{PutsSummary};
ghost use Rattle.ov_load.specs.Summary.{IsSummary, count_line, load_line, seven_lines};

use crate::load_words::Load;
use crate::tally::{Counts, Tally};
use ov_answering::{Status, put_last};
use ov_base::Memory;
use ov_io::Sink;
use ov_report::{put_memory, word_of};
use ov_script::{Reply, line};
use sha2::Digest;
use std::alloc::Global;

// The first line: what was asked for.
fn first_line(alloc: Global, load: &Load) -> Result<Vec<u8>, Memory>
    ensures { IfOk result (λ lines. lines.items ≡ load_line load.now) }
{
    let mode = word_of(load.mode);
    let number = load.number;
    let count = load.count;
    let text = format!(in alloc; "load {mode} {number} {count}\n")?;
    Ok(text.as_bytes().to_vec(alloc)?)
}

// Appends a line of a word and a number.
fn push_count(word: &str, count: u32, lines: &mut Vec<u8>) -> Result<(), Memory>
    ensures { OnOk result (lines.new.items ≡ lines.old.items ++ count_line word.now count) }
{
    let alloc = *lines.allocator();
    let text = format!(in alloc; "{word} {count}\n")?;
    Ok(lines.extend_from_slice(text.as_bytes())?)
}

// Appends the line of the hash.
fn push_hash(hash: &[u8; 32], lines: &mut Vec<u8>) -> Result<(), Memory>
    ensures { OnOk result (lines.new.items
        ≡ lines.old.items ++ codes "sha256 " ++ encode_lower hash.now ++ 10 ∷ []) }
{
    let text = hex::encode(*lines.allocator(), *hash)?;
    lines.extend_from_slice(b"sha256 ")?;
    lines.extend_from_slice(text.as_bytes())?;
    Ok(lines.push(b'\n')?)
}

// The lines of a load whose replies have these counts and this hash.
fn lines_of(
    alloc: Global,
    load: &Load,
    counts: Counts,
    epoch: u32,
    hash: &[u8; 32],
) -> Result<Vec<u8>, Memory>
    ensures { IfOk result (λ lines. lines.items ≡ seven_lines load.now counts epoch hash.now) }
{
    let mut lines = first_line(alloc, load)?;
    push_count("ok", counts.accepted, &mut lines)?;
    push_count("refused", counts.refused, &mut lines)?;
    push_count("bytes", counts.given, &mut lines)?;
    push_count("lists", counts.listed, &mut lines)?;
    push_count("epoch", epoch, &mut lines)?;
    push_hash(hash, &mut lines)?;
    Ok(lines)
}

/// The lines of a load whose replies were tallied, at the end of its commands. The end line is
/// hashed behind the reply lines.
pub fn summary_of(alloc: Global, load: &Load, tally: Tally, epoch: u32) -> Result<Vec<u8>, Memory>
    ensures { IfOk result (λ lines. IsSummary load.now tally epoch lines.items) }
{
    let Tally { counts, mut hasher } = tally;
    let mut end = Vec::new(alloc);
    line(&Reply::End(epoch), &mut end)?;
    hasher.update(end.as_slice());
    lines_of(alloc, load, counts, epoch, &hasher.finalize())
}

/// Puts the lines of a load whose replies were tallied, or the line that says that memory was
/// refused for them.
pub fn put_summary<O: Sink>(alloc: Global, load: &Load, tally: Tally, epoch: u32, out: &mut O) -> u8
    ensures ends { PutsSummary load.now tally epoch
        (O.tells.written out.old) (O.tells.written out.new) result }
    ensures put { IsPutTo O.tells out.old out.new result }
{
    match summary_of(alloc, load, tally, epoch) {
        Ok(lines) => put_last(out, &lines, Status::Done),
        Err(_) => put_memory(out),
    }
}
