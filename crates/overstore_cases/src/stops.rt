//! What a stop leaves after each of the last calls of a disk.
use crate::calling::{arguments_of, ran};
use crate::case::{Case, NEVER};
use crate::pieces::Pieces;
use crate::recorder::Recorder;
use crate::texts::number_of;
use ov_disk::{MemDisk, Tear};
use std::alloc::Global;
use std::test::Fail;

// What a stop makes of the writes that no sync followed, each with its name.
static TEARS: [(Tear, &str); 5] = [
    (Tear::Old, "nothing written"),
    (Tear::New, "all written"),
    (Tear::Fill(0), "bytes 0 written"),
    (Tear::Fill(1), "bytes 1 written"),
    (Tear::Fill(255), "bytes 255 written"),
];

/// The ways in which a stop tears writes.
pub fn tears() -> &'static [(Tear, &'static str)] {
    &TEARS
}

/// What a run of a script puts over this disk.
pub fn lines_over(
    alloc: Global,
    case: &Case,
    arguments: &[String],
    script: &[u8],
    disk: &mut MemDisk,
) -> Result<String, Fail> {
    let mut lines = Recorder::new(alloc, NEVER);
    let mut frames = Recorder::new(alloc, NEVER);
    let keys = Pieces::of(&case.inputs.keys, case.inputs.piece, 0, NEVER);
    let script = Pieces::of(script, case.inputs.piece, 0, NEVER);
    let _ = ran(
        alloc,
        arguments,
        keys,
        script,
        &mut lines,
        &mut frames,
        disk,
    );
    lines.text(alloc)
}

// Whether both have the same bytes.
fn is_same(one: &MemDisk, other: &MemDisk) -> bool {
    one.book() == other.book() && one.blobs() == other.blobs()
}

// Prints how the script, which asks questions alone, is answered over what this tear leaves after
// each of the last calls, wherever that isn't the answer of one call earlier. Where the same bytes
// are left, the answer is the same.
fn print_tear(
    rt: &HostRuntime,
    case: &Case,
    arguments: &[String],
    most: u64,
    tear: Tear,
    name: &str,
) -> Result<(), Fail> {
    let alloc = rt.alloc();
    let mut last = String::new(alloc);
    let mut earlier = MemDisk::new(alloc);
    for made in 0..=most {
        let behind = most.saturating_sub(made);
        let call = case.disk.calls().saturating_sub(behind);
        let mut left = case.disk.image(call, tear)?;
        if made > 0 && is_same(&left, &earlier) {
            continue;
        }
        let text = lines_over(alloc, case, arguments, &case.inputs.script, &mut left)?;
        if text.as_str() != last.as_str() {
            print!(rt; "from {behind} calls before the end on, {name}:\n{text}")?;
            last = text;
        }
        earlier = left;
    }
    drop(earlier);
    Ok(())
}

/// Prints how the script is answered over what each tear leaves.
pub fn print_stops(rt: &HostRuntime, case: &Case, rest: &str) -> Result<(), Fail> {
    let (most, line) = rest.split_once(' ').ok_or("a number and arguments")?;
    let (most, arguments) = (number_of(most)?, arguments_of(rt.alloc(), line)?);
    println!(rt; "stops {rest}")?;
    for (tear, name) in tears() {
        print_tear(rt, case, &arguments, most, *tear, name)?;
    }
    Ok(())
}
