//! The same call again and again, each time with another of its calls failing.
use crate::calling::{arguments_of, ran};
use crate::case::{Case, Fails, NEVER};
use crate::pieces::Pieces;
use crate::reading::says_disk_failed;
use crate::recorder::Recorder;
use crate::stops::{lines_over, tears};
use crate::texts::number_of;
use crate::tidying::{Side, wrong_tidies};
use ov_disk::MemDisk;
use std::alloc::Global;
use std::test::Fail;

// Whose call fails.
#[derive(Clone, Copy)]
enum Party {
    Disk,
    Lines,
    Frames,
}

// Which calls fail, one a run: those of this party, a write of the disk after `kept` bytes.
#[derive(Clone, Copy)]
struct Each {
    party: Party,
    count: u64,
    kept: u64,
}

fn party_of(word: &str) -> Result<Party, Fail> {
    match word {
        "disk" => Ok(Party::Disk),
        "lines" => Ok(Party::Lines),
        "frames" => Ok(Party::Frames),
        _ => Err(Fail::from("disk, lines or frames")),
    }
}

// Whether a run without commands ends at this epoch or at the next one over what is left.
fn is_left(
    alloc: Global,
    case: &Case,
    arguments: &[String],
    left: &mut MemDisk,
    least: u64,
) -> Result<bool, Fail> {
    let more = least.saturating_add(1);
    let these = format!(in alloc; "end epoch {least}\n")?;
    let next = format!(in alloc; "end epoch {more}\n")?;
    let text = lines_over(alloc, case, arguments, b"", left)?;
    Ok(text.as_str() == these.as_str() || text.as_str() == next.as_str())
}

// Whether it does so whichever way a stop now tears the disk.
fn are_left(
    alloc: Global,
    case: &Case,
    arguments: &[String],
    disk: &MemDisk,
    least: u64,
) -> Result<bool, Fail> {
    for (tear, _) in tears() {
        let mut left = disk.image(disk.calls(), *tear)?;
        let is_right = is_left(alloc, case, arguments, &mut left, least);
        drop(left);
        if !is_right? {
            return Ok(false);
        }
    }
    Ok(true)
}

// A run over a new disk, and its status.
fn ran_once(
    alloc: Global,
    case: &Case,
    arguments: &[String],
    lines: &mut Recorder,
    frames: &mut Recorder,
    disk: &mut MemDisk,
) -> u8 {
    let keys = Pieces::of(&case.inputs.keys, case.inputs.piece, 0, NEVER);
    let script = Pieces::of(&case.inputs.script, case.inputs.piece, 0, NEVER);
    ran(alloc, arguments, keys, script, lines, frames, disk)
}

// The status of a run whose call fails, and how many of its lines are no reply to an update: the
// disk's own line, the one that can't be put, or the end of a run in which no call fails.
fn end_of(party: Party, is_made: bool) -> (u8, u64) {
    match party {
        _ if !is_made => (0, 1),
        Party::Disk => (4, 1),
        Party::Lines => (6, 1),
        Party::Frames => (6, 0),
    }
}

// Whether these are the first lines of a whole run, or all of them where no call fails. Where the
// disk failed, its line is the last.
fn are_right(party: Party, is_made: bool, lines: &[u8], whole: &[u8]) -> bool {
    match party {
        _ if !is_made => lines == whole,
        Party::Disk => match lines.strip_suffix(b"error disk\n") {
            Some(first) => whole.starts_with(first),
            None => false,
        },
        Party::Lines | Party::Frames => whole.starts_with(lines),
    }
}

// Whether a run in which this call fails says so, and leaves the updates that it answered, or one
// more. The call after the last is one that the run doesn't make.
fn is_right(
    alloc: Global,
    case: &Case,
    arguments: &[String],
    each: &Each,
    call: u64,
    whole: &[u8],
) -> Result<bool, Fail> {
    let mut disk = MemDisk::new(alloc);
    let mut fails = Fails::none();
    match each.party {
        Party::Disk => disk.fail_part(call, each.kept)?,
        Party::Lines => fails.lines = call,
        Party::Frames => fails.frames = call,
    }
    let mut lines = Recorder::new(alloc, fails.lines);
    let mut frames = Recorder::new(alloc, fails.frames);
    let status = ran_once(alloc, case, arguments, &mut lines, &mut frames, &mut disk);
    let is_made = call < each.count;
    let (wanted, others) = end_of(each.party, is_made);
    let least = lines.puts().saturating_sub(others);
    let left = are_left(alloc, case, arguments, &disk, least);
    drop(disk);
    Ok(left? && status == wanted && are_right(each.party, is_made, lines.first(), whole))
}

// How many of the runs are wrong, one for each call that fails and one in which none does.
fn wrong_runs(alloc: Global, case: &Case, line: &str, each: &Each) -> Result<u64, Fail> {
    let arguments = arguments_of(alloc, line)?;
    let mut disk = MemDisk::new(alloc);
    let mut lines = Recorder::new(alloc, NEVER);
    let mut frames = Recorder::new(alloc, NEVER);
    let _ = ran_once(alloc, case, &arguments, &mut lines, &mut frames, &mut disk);
    drop(disk);
    let whole = lines.first();
    let mut wrong = 0u64;
    for call in 0..=each.count {
        if !is_right(alloc, case, &arguments, each, call, whole)? {
            wrong = wrong.saturating_add(1);
        }
    }
    Ok(wrong)
}

// How many audits of the case's disk don't say that it failed, where it did, or say so where the
// call that fails is one that they don't make.
fn wrong_audits(alloc: Global, case: &Case, line: &str, count: u64) -> Result<u64, Fail> {
    let mut wrong = 0u64;
    for call in 0..=count {
        if says_disk_failed(alloc, case, line, call)? != (call < count) {
            wrong = wrong.saturating_add(1);
        }
    }
    Ok(wrong)
}

// Of which disk the calls fail while a shorter store is made.
fn side_of(word: &str) -> Option<Side> {
    match word {
        "old" => Some(Side::Old),
        "new" => Some(Side::New),
        _ => None,
    }
}

/// Prints how many of these runs, audits, or shorter stores end otherwise than they should.
pub fn print_each(rt: &HostRuntime, case: &Case, rest: &str) -> Result<(), Fail> {
    let alloc = rt.alloc();
    let (party, rest_of) = rest.split_once(' ').ok_or("disk, lines or frames")?;
    let (count, rest_of) = rest_of.split_once(' ').ok_or("a number of calls")?;
    let (kept, line) = rest_of.split_once(' ').ok_or("a number of bytes")?;
    if let Some(side) = side_of(party) {
        let (count, gate) = (number_of(count)?, number_of(kept)?);
        let wrong = wrong_tidies(alloc, case, side, count, gate, line)?;
        println!(rt; "each {rest}: {wrong} are wrong")?;
        return Ok(());
    }
    let each = Each {
        party: party_of(party)?,
        count: number_of(count)?,
        kept: number_of(kept)?,
    };
    let wrong = if line.starts_with("audit") {
        wrong_audits(alloc, case, line, each.count)?
    } else {
        wrong_runs(alloc, case, line, &each)?
    };
    println!(rt; "each {rest}: {wrong} are wrong")?;
    Ok(())
}
