//! What a stop leaves, and what comes of a call of the disk that fails.
use crate::case::Case;
use crate::disks::copy_of;
use crate::serving::{calls_of, served, told};
use crate::texts::number_of;
use ov_disk::{MemDisk, Tear};
use std::alloc::Global;
use std::test::Fail;

// What a stop makes of the writes that no sync followed, each with its name.
static TEARS: [(Tear, &str); 5] = [
    (Tear::Old, "nothing written"),
    (Tear::New, "all written"),
    (Tear::Fill(0), "bytes 0 written"),
    (Tear::Fill(1), "bytes 1 written"),
    (Tear::Fill(255), "bytes 255 written"),
];

// The ways in which a stop tears writes.
fn tears() -> &'static [(Tear, &'static str)] {
    &TEARS
}

// What the questions are answered over a disk.
fn answers(alloc: Global, case: &Case, disk: &mut MemDisk) -> Result<String, Fail> {
    let left = served(alloc, &case.keys, &case.questions, disk)?;
    told(alloc, &left, disk)
}

// What the questions are answered over what a stop after so many calls leaves.
fn answers_after(
    alloc: Global,
    case: &Case,
    disk: &MemDisk,
    call: u64,
    tear: Tear,
) -> Result<String, Fail> {
    let mut left = disk.image(call.min(disk.calls()), tear)?;
    let text = answers(alloc, case, &mut left);
    drop(left);
    text
}

// Prints the answers after each of the last calls, wherever they aren't those of one call earlier.
fn print_tear(
    rt: &HostRuntime,
    case: &Case,
    most: u64,
    tear: Tear,
    name: &str,
) -> Result<(), Fail> {
    let mut last = String::new(rt.alloc());
    for made in 0..=most {
        let behind = most.saturating_sub(made);
        let call = case.calls.saturating_sub(behind);
        let text = answers_after(rt.alloc(), case, &case.disk, call, tear)?;
        if text.as_str() != last.as_str() {
            print!(rt; "from {behind} calls before the end on, {name}:\n{text}")?;
            last = text;
        }
    }
    Ok(())
}

/// Prints how the questions are answered over what each tear leaves after each of the last calls.
pub fn print_stops(rt: &HostRuntime, case: &Case, most: &str) -> Result<(), Fail> {
    println!(rt; "stops {most}")?;
    let most = number_of(most)?;
    for (tear, name) in tears() {
        print_tear(rt, case, most, *tear, name)?;
    }
    Ok(())
}

// How many calls a copy of the disk had after the first frames.
fn calls_after(alloc: Global, case: &Case, many: usize) -> Result<u64, Fail> {
    let mut disk = copy_of(alloc, &case.disk)?;
    let frames = case.frames.get(..many).unwrap_or(&[]);
    let calls = calls_of(alloc, &case.keys, frames, &mut disk);
    drop(disk);
    calls
}

// Prints the answers over what each tear leaves now, and over the disk as it reads, wherever they
// aren't the last that were printed.
fn print_left(
    rt: &HostRuntime,
    case: &Case,
    disk: &mut MemDisk,
    last: &mut String,
) -> Result<(), Fail> {
    for (tear, name) in tears() {
        let text = answers_after(rt.alloc(), case, disk, disk.calls(), *tear)?;
        if text.as_str() != last.as_str() {
            print!(rt; "stopped, {name}:\n{text}")?;
            *last = text;
        }
    }
    let text = answers(rt.alloc(), case, disk)?;
    if text.as_str() != last.as_str() {
        print!(rt; "not stopped:\n{text}")?;
        *last = text;
    }
    Ok(())
}

// Prints what comes of the frames where this call of the disk fails, a write after so many bytes,
// and then what is left.
fn print_failing(
    rt: &HostRuntime,
    case: &Case,
    call: u64,
    kept: u64,
    last: &mut String,
) -> Result<(), Fail> {
    let mut disk = copy_of(rt.alloc(), &case.disk)?;
    disk.fail_part(call, kept)?;
    let left = served(rt.alloc(), &case.keys, &case.frames, &mut disk)?;
    let text = told(rt.alloc(), &left, &disk)?;
    print!(rt; "{text}")?;
    let printed = print_left(rt, case, &mut disk, last);
    drop(disk);
    printed
}

/// Prints what comes of the frames where each call of one of them fails.
pub fn print_faults(rt: &HostRuntime, case: &Case, rest: &str) -> Result<(), Fail> {
    let (frame, kept) = rest.split_once(' ').ok_or("a frame and a number of bytes")?;
    let frame = number_of(frame)? as usize;
    let kept = number_of(kept)?;
    let first = calls_after(rt.alloc(), case, frame)?;
    let behind = calls_after(rt.alloc(), case, frame.saturating_add(1))?;
    println!(rt; "faults {rest}")?;
    let mut last = String::new(rt.alloc());
    for call in first..behind {
        let number = call.saturating_sub(first);
        println!(rt; "call {number}:")?;
        print_failing(rt, case, call, kept, &mut last)?;
    }
    Ok(())
}
