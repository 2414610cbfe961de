//! The only calls of `run`, `audit` and `load`. Each is wrapped in a function without a clause, so
//! that what their contracts promise isn't carried through every caller.
use crate::case::{Case, Fails, Inputs};
use crate::pieces::Pieces;
use crate::recorder::{Recorder, sum_of};
use ov_auditing::audit;
use ov_disk::Disk;
use ov_load::load;
use ov_run::run;
use std::alloc::{AllocError, Global};
use std::test::Fail;

/// The arguments that a line has.
pub fn arguments_of(alloc: Global, line: &str) -> Result<Vec<String>, AllocError> {
    let mut arguments = Vec::new(alloc);
    for word in line.split(' ') {
        arguments.push(String::from_str(alloc, word)?)?;
    }
    Ok(arguments)
}

/// Runs a script over a disk, and gives the status.
pub fn ran<D: Disk>(
    alloc: Global,
    arguments: &[String],
    keys: Pieces<'_>,
    script: Pieces<'_>,
    lines: &mut Recorder,
    frames: &mut Recorder,
    disk: &mut D,
) -> u8 {
    let (mut keys, mut script) = (keys, script);
    run(
        alloc,
        arguments,
        &mut keys,
        &mut script,
        lines,
        frames,
        disk,
    )
}

// Audits a disk, and gives the status.
fn audited<D: Disk>(
    alloc: Global,
    arguments: &[String],
    keys: Pieces<'_>,
    lines: &mut Recorder,
    disk: &mut D,
) -> u8 {
    let mut keys = keys;
    audit(alloc, arguments, &mut keys, lines, disk)
}

// Loads a disk, and gives the status.
fn loaded<D: Disk>(
    alloc: Global,
    arguments: &[String],
    keys: Pieces<'_>,
    lines: &mut Recorder,
    frames: &mut Recorder,
    disk: &mut D,
) -> u8 {
    let mut keys = keys;
    load(alloc, arguments, &mut keys, lines, frames, disk)
}

/// Makes the call that a line names, over this disk, and gives the status.
pub fn called<D: Disk>(
    alloc: Global,
    inputs: &Inputs,
    fails: Fails,
    line: &str,
    lines: &mut Recorder,
    frames: &mut Recorder,
    disk: &mut D,
) -> Result<u8, AllocError> {
    let arguments = arguments_of(alloc, line)?;
    let keys = Pieces::of(&inputs.keys, inputs.piece, 0, fails.keys);
    if line.starts_with("audit") {
        return Ok(audited(alloc, &arguments, keys, lines, disk));
    }
    if line.starts_with("load") {
        return Ok(loaded(alloc, &arguments, keys, lines, frames, disk));
    }
    let script = Pieces::of(&inputs.script, inputs.piece, inputs.repeats, fails.script);
    Ok(ran(alloc, &arguments, keys, script, lines, frames, disk))
}

// Prints the status, and the frames and both areas by their length and hash.
fn print_end(rt: &HostRuntime, case: &Case, status: u8, frames: Recorder) -> Result<(), Fail> {
    let alloc = rt.alloc();
    let frames = frames.sum(alloc)?;
    let book = sum_of(alloc, case.disk.book())?;
    let blobs = sum_of(alloc, case.disk.blobs())?;
    println!(rt; "  status {status}, frames {frames}, book {book}, blobs {blobs}")?;
    Ok(())
}

/// Makes the call that a line names, and prints its lines, its status, and what it left.
pub fn print_call(rt: &HostRuntime, case: &mut Case, line: &str) -> Result<(), Fail> {
    let alloc = rt.alloc();
    println!(rt; "{line}")?;
    let fails = case.fails;
    let mut lines = Recorder::new(alloc, fails.lines);
    let mut frames = Recorder::new(alloc, fails.frames);
    let status = called(
        alloc,
        &case.inputs,
        fails,
        line,
        &mut lines,
        &mut frames,
        &mut case.disk,
    )?;
    let text = lines.text(alloc)?;
    print!(rt; "{text}")?;
    print_end(rt, case, status, frames)
}
