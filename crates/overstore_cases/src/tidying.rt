//! Shorter stores.
use crate::areas::synced;
use crate::calling::arguments_of;
use crate::case::{Case, KEYS, NEVER};
use crate::pieces::Pieces;
use crate::recorder::{Recorder, sum_of};
use crate::stops::{lines_over, tears};
use ov_disk::{Disk, MemDisk};
use ov_tidying::tidy;
use std::alloc::{AllocError, Global};
use std::test::Fail;

// Which of the two disks fails.
#[derive(Clone, Copy, PartialEq, Eq)]
pub enum Side {
    Old,
    New,
}

// Makes a shorter store, and gives the status.
fn tidied<D: Disk, E: Disk>(
    alloc: Global,
    arguments: &[String],
    keys: Pieces<'_>,
    lines: &mut Recorder,
    old: &mut D,
    new: &mut E,
) -> u8 {
    let mut keys = keys;
    tidy(alloc, arguments, &mut keys, lines, old, new)
}

/// Makes a shorter store of the case's disk on the other one, and prints the lines, the status, and
/// what it left of both.
pub fn print_tidied(rt: &HostRuntime, case: &mut Case, line: &str) -> Result<(), Fail> {
    let alloc = rt.alloc();
    println!(rt; "{line}")?;
    let mut lines = Recorder::new(alloc, case.fails.lines);
    let arguments = arguments_of(alloc, line)?;
    let keys = Pieces::of(&case.inputs.keys, case.inputs.piece, 0, case.fails.keys);
    let status = tidied(
        alloc,
        &arguments,
        keys,
        &mut lines,
        &mut case.disk,
        &mut case.other,
    );
    let text = lines.text(alloc)?;
    print!(rt; "{text}")?;
    let book = sum_of(alloc, case.disk.book())?;
    let blobs = sum_of(alloc, case.disk.blobs())?;
    println!(rt; "  status {status}, book {book}, blobs {blobs}")?;
    let book = sum_of(alloc, case.other.book())?;
    let blobs = sum_of(alloc, case.other.blobs())?;
    println!(rt; "  new book {book}, new blobs {blobs}")?;
    Ok(())
}

/// Puts the shorter store in the place of the other, so that the next calls are over it.
pub fn put_in_place(alloc: Global, case: &mut Case) -> Result<(), AllocError> {
    case.disk = synced(alloc, &case.other)?;
    case.other = MemDisk::new(alloc);
    Ok(())
}

// Whether a run without commands finds over what each tear leaves of the new disk no store, or some
// first updates. These may have a file that is gone only later: it has zeros under its own tag, and the
// run puts the line on it.
fn are_left(
    alloc: Global,
    case: &Case,
    arguments: &[String],
    disk: &MemDisk,
    wrong_tag: &str,
) -> Result<bool, Fail> {
    for (tear, _) in tears() {
        let mut left = disk.image(disk.calls(), *tear)?;
        let text = lines_over(alloc, case, arguments, b"", &mut left);
        drop(left);
        let text = text?;
        if !text.as_str().starts_with("end epoch ") && text.as_str() != wrong_tag {
            return Ok(false);
        }
    }
    Ok(true)
}

// Whether a shorter store in which this call of one disk fails says so, where it is made, leaves the
// old disk as it was, and of the new one some first updates.
fn is_right(
    alloc: Global,
    case: &Case,
    arguments: &[String],
    side: Side,
    call: u64,
    is_made: bool,
    wrong_tag: &str,
) -> Result<bool, Fail> {
    let mut old = synced(alloc, &case.disk)?;
    let mut new = MemDisk::new(alloc);
    match side {
        Side::Old => old.fail_at(call)?,
        Side::New => new.fail_at(call)?,
    }
    let mut lines = Recorder::new(alloc, NEVER);
    let words = arguments_of(alloc, "tidy")?;
    let keys = Pieces::of(KEYS, case.inputs.piece, 0, NEVER);
    let status = tidied(alloc, &words, keys, &mut lines, &mut old, &mut new);
    let same = old.book() == case.disk.book() && old.blobs() == case.disk.blobs();
    let left = are_left(alloc, case, arguments, &new, wrong_tag);
    drop(old);
    drop(new);
    let wanted = if is_made { 4 } else { 0 };
    let said = !is_made || lines.first() == b"error disk\n".as_slice();
    Ok(left? && same && said && status == wanted)
}

/// How many shorter stores are wrong, one for each of so many calls of this disk that fails, and one in
/// which none does. The record of a file that is gone at the end has its gate at this place of the new
/// Book; where there is none, the place is 0.
pub fn wrong_tidies(
    alloc: Global,
    case: &Case,
    side: Side,
    count: u64,
    gate: u64,
    line: &str,
) -> Result<u64, Fail> {
    let arguments = arguments_of(alloc, line)?;
    let wrong_tag = format!(in alloc; "error damaged book {gate}\n")?;
    let wrong_tag = wrong_tag.as_str();
    let mut wrong = 0u64;
    for call in 0..=count {
        let is_made = call < count;
        if !is_right(alloc, case, &arguments, side, call, is_made, wrong_tag)? {
            wrong = wrong.saturating_add(1);
        }
    }
    Ok(wrong)
}
