//! Calls that write nothing, over a disk that can't be written.
use crate::calling::called;
use crate::case::{Case, Fails, NEVER};
use crate::read_only::ReadOnly;
use crate::recorder::Recorder;
use crate::texts::{byte_of, number_of};
use std::alloc::Global;
use std::test::Fail;

// A disk with the areas of the case's disk, which counts the reads of this byte of Book.
fn disk_of<'a>(case: &'a Case, place: usize) -> ReadOnly<'a> {
    ReadOnly::of(case.disk.book(), case.disk.blobs(), place)
}

// The lines of a call over this disk, and then its status.
fn lines_over(
    alloc: Global,
    case: &Case,
    line: &str,
    disk: &mut ReadOnly<'_>,
) -> Result<String, Fail> {
    let mut lines = Recorder::new(alloc, NEVER);
    let mut frames = Recorder::new(alloc, NEVER);
    let status = called(
        alloc,
        &case.inputs,
        Fails::none(),
        line,
        &mut lines,
        &mut frames,
        disk,
    )?;
    let text = lines.text(alloc)?;
    Ok(format!(in alloc; "{text}  status {status}")?)
}

/// Prints what a call puts.
pub fn print_read(rt: &HostRuntime, case: &Case, line: &str) -> Result<(), Fail> {
    let mut disk = disk_of(case, 0);
    println!(rt; "read-only {line}")?;
    let text = lines_over(rt.alloc(), case, line, &mut disk)?;
    println!(rt; "{text}")?;
    Ok(())
}

/// Prints what a call puts, and how many calls it makes of each area.
pub fn print_counted(rt: &HostRuntime, case: &Case, line: &str) -> Result<(), Fail> {
    let mut disk = disk_of(case, 0);
    println!(rt; "counted {line}")?;
    let text = lines_over(rt.alloc(), case, line, &mut disk)?;
    let (book, blobs, syncs) = (disk.book_calls, disk.blobs_calls, disk.syncs);
    println!(rt; "{text}, calls of book {book}, of blobs {blobs}, syncs {syncs}")?;
    Ok(())
}

/// Prints what a call puts, and what it puts where the first or the last of its reads of a byte of
/// Book gives that with these bits changed.
pub fn print_flips(rt: &HostRuntime, case: &Case, rest: &str) -> Result<(), Fail> {
    let alloc = rt.alloc();
    let (which, rest_of) = rest.split_once(' ').ok_or("first or last")?;
    let (place, rest_of) = rest_of.split_once(' ').ok_or("a place")?;
    let (bits, line) = rest_of.split_once(' ').ok_or("bits")?;
    let (place, bits) = (number_of(place)? as usize, byte_of(bits)?);
    println!(rt; "flips {rest}")?;
    let mut same = disk_of(case, place);
    let text = lines_over(alloc, case, line, &mut same)?;
    println!(rt; "{text}")?;
    let mut other = disk_of(case, place);
    other.bits = bits;
    if which == "last" {
        other.earlier = same.reads.saturating_sub(1);
    }
    let text = lines_over(alloc, case, line, &mut other)?;
    println!(rt; "{text}")?;
    Ok(())
}

/// Whether a call says that the disk failed where its call of this number does.
pub fn says_disk_failed(alloc: Global, case: &Case, line: &str, call: u64) -> Result<bool, Fail> {
    let mut disk = disk_of(case, 0);
    disk.fails = call;
    let text = lines_over(alloc, case, line, &mut disk)?;
    Ok(text.as_str() == "error disk\n  status 4")
}
