//! One line of a case.
use crate::areas::{print_area, synced, with_blobs, with_book};
use crate::calling::print_call;
use crate::case::{Case, Fails};
use crate::each::print_each;
use crate::inputs::set_inputs;
use crate::reading::{print_counted, print_flips, print_read};
use crate::sizes::print_sizes;
use crate::stops::print_stops;
use crate::tidying::{print_tidied, put_in_place};
use crate::watched::print_watched;
use ov_disk::MemDisk;
use std::alloc::Global;
use std::test::Fail;

// A call, after which the script is complete.
fn call(rt: &HostRuntime, case: &mut Case, line: &str) -> Result<(), Fail> {
    print_call(rt, case, line)?;
    case.is_asked = true;
    case.fails = Fails::none();
    Ok(())
}

// A run in each mode, over a new disk.
fn run_modes(rt: &HostRuntime, case: &mut Case) -> Result<(), Fail> {
    case.disk = MemDisk::new(rt.alloc());
    call(rt, case, "run full")?;
    case.disk = MemDisk::new(rt.alloc());
    call(rt, case, "run delta")
}

// A new case, in which sources give pieces as before.
fn begin(rt: &HostRuntime, case: &mut Case, title: &str) -> Result<(), Fail> {
    println!(rt; "{title}")?;
    let piece = case.inputs.piece;
    *case = Case::new(rt.alloc(), piece)?;
    Ok(())
}

// Does what a line says of the disk, and answers whether it is such a line.
fn set_disk(alloc: Global, case: &mut Case, word: &str, rest: &str) -> Result<bool, Fail> {
    if word == "new" {
        case.disk = MemDisk::new(alloc);
        return Ok(true);
    }
    if word == "in-place" {
        put_in_place(alloc, case)?;
        return Ok(true);
    }
    if let Some(how) = word.strip_prefix("other-book") {
        case.other = with_book(alloc, &case.other, how, rest)?;
        return Ok(true);
    }
    if word == "synced" {
        case.disk = synced(alloc, &case.disk)?;
        return Ok(true);
    }
    if let Some(how) = word.strip_prefix("book") {
        case.disk = with_book(alloc, &case.disk, how, rest)?;
        return Ok(true);
    }
    if let Some(how) = word.strip_prefix("blobs") {
        case.disk = with_blobs(alloc, &case.disk, how, rest)?;
        return Ok(true);
    }
    Ok(false)
}

// A line that prints something.
fn print(
    rt: &HostRuntime,
    case: &mut Case,
    line: &str,
    word: &str,
    rest: &str,
) -> Result<(), Fail> {
    match word {
        "book?" => print_area(rt, "book", case.disk.book()),
        "blobs?" => print_area(rt, "blobs", case.disk.blobs()),
        "modes" => run_modes(rt, case),
        "sizes" => print_sizes(rt, case, rest),
        "stops" => print_stops(rt, case, rest),
        "each" => print_each(rt, case, rest),
        "read-only" => print_read(rt, case, rest),
        "counted" => print_counted(rt, case, rest),
        "flips" => print_flips(rt, case, rest),
        "watched" => print_watched(rt, rest),
        "tidy" => print_tidied(rt, case, line),
        _ => call(rt, case, line),
    }
}

/// Does what a line says.
pub fn step(rt: &HostRuntime, case: &mut Case, line: &str) -> Result<(), Fail> {
    if line.is_empty() || line.starts_with("#") {
        return Ok(());
    }
    if line.starts_with("==") {
        return begin(rt, case, line);
    }
    let (word, rest) = line.split_once(' ').unwrap_or((line, ""));
    if word.ends_with("?") {
        return print(rt, case, line, word, rest);
    }
    if set_inputs(rt, case, word, rest)? || set_disk(rt.alloc(), case, word, rest)? {
        return Ok(());
    }
    print(rt, case, line, word, rest)
}
