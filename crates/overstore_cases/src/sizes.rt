//! The same run with inputs in pieces of each size.
use crate::calling::{arguments_of, ran};
use crate::case::{Case, NEVER};
use crate::pieces::Pieces;
use crate::recorder::Recorder;
use crate::texts::number_of;
use ov_disk::MemDisk;
use std::alloc::Global;
use std::test::Fail;

// What a run puts over a new disk, in pieces of this size.
fn lines_in(alloc: Global, case: &Case, arguments: &[String], piece: u64) -> Result<String, Fail> {
    let mut disk = MemDisk::new(alloc);
    let mut lines = Recorder::new(alloc, NEVER);
    let mut frames = Recorder::new(alloc, NEVER);
    let piece = piece as usize;
    let keys = Pieces::of(&case.inputs.keys, piece, 0, NEVER);
    let script = Pieces::of(&case.inputs.script, piece, 0, NEVER);
    let _ = ran(
        alloc,
        arguments,
        keys,
        script,
        &mut lines,
        &mut frames,
        &mut disk,
    );
    drop(disk);
    lines.text(alloc)
}

/// Prints what a run puts in pieces of each size, wherever that isn't what it put in smaller ones.
pub fn print_sizes(rt: &HostRuntime, case: &Case, rest: &str) -> Result<(), Fail> {
    let alloc = rt.alloc();
    let (most, line) = rest.split_once(' ').ok_or("a number and arguments")?;
    let (most, arguments) = (number_of(most)?, arguments_of(alloc, line)?);
    let mut last = String::new(alloc);
    println!(rt; "sizes {rest}")?;
    for size in 1..=most {
        let text = lines_in(alloc, case, &arguments, size)?;
        if text.as_str() != last.as_str() {
            print!(rt; "in pieces of {size} bytes:\n{text}")?;
            last = text;
        }
    }
    Ok(())
}
