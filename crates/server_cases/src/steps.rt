//! One line of a case.
use crate::case::{Case, Keys};
use crate::disks::{copy_of, print_book, print_changed, with_blobs, with_book};
use crate::faults::{print_faults, print_stops};
use crate::hosts::print_host;
use crate::serving::{calls_of, gates, served, told};
use crate::sessions::print_session;
use crate::settings::{print_raw, print_settings};
use crate::texts::{block_of, byte_of, bytes_of, number_of, small_of};
use ov_base::{Key, Mode};
use ov_disk::MemDisk;
use std::alloc::Global;
use std::sync::Wait;
use std::test::Fail;
use std::thread::Threads;

// The frames to which the next one is added. The first line after a call begins a new list.
fn frames<'a>(case: &'a mut Case) -> &'a mut Vec<String> {
    if case.is_asked {
        case.frames.truncate(0);
        case.is_asked = false;
    }
    &mut case.frames
}

// Adds frames for each number, in place of each `#` of the text. A ` / ` stands between two.
fn push_numbered(alloc: Global, frames: &mut Vec<String>, rest: &str) -> Result<(), Fail> {
    let (first, rest) = rest.split_once(' ').ok_or("a number")?;
    let (last, text) = rest.split_once(' ').ok_or("a number and words")?;
    for number in number_of(first)?..=number_of(last)? {
        let number = format!(in alloc; "{number}")?;
        for words in text.split(" / ") {
            frames.push(words.replace(alloc, "#", number.as_str())?)?;
        }
    }
    Ok(())
}

// The mode of this name.
fn mode_of(word: &str) -> Result<Mode, Fail> {
    match word {
        "full" => Ok(Mode::Full),
        "delta" => Ok(Mode::Delta),
        _ => Err(Fail::from("a mode was expected")),
    }
}

// How many calls a copy of the disk has for the frames alone.
fn calls_on_copy(alloc: Global, case: &Case) -> Result<u64, Fail> {
    let mut copy = copy_of(alloc, &case.disk)?;
    let calls = calls_of(alloc, &case.keys, &case.frames, &mut copy);
    drop(copy);
    calls
}

// Asks the frames, and prints what came of it.
fn serve(rt: &HostRuntime, case: &mut Case) -> Result<(), Fail> {
    let calls = calls_on_copy(rt.alloc(), case)?;
    case.calls = case.disk.calls().saturating_add(calls);
    let left = served(rt.alloc(), &case.keys, &case.frames, &mut case.disk)?;
    case.is_asked = true;
    let text = told(rt.alloc(), &left, &case.disk)?;
    print!(rt; "serve\n{text}")?;
    Ok(())
}

// Sets which call fails in the next session, reading of settings, or server.
fn set_fails(case: &mut Case, rest: &str) -> Result<(), Fail> {
    let (party, call) = rest.split_once(' ').ok_or("a party and a call")?;
    let call = byte_of(call)?;
    match party {
        "take" => case.failing_takes.push(call)?,
        "put" => case.failing_puts.push(call)?,
        "door" => case.failing_doors.push(call)?,
        "disk" => case.failing_disks.push(call)?,
        _ => return Err(Fail::from("take, put, door or disk")),
    }
    Ok(())
}

// Keeps a line of a settings file.
fn push_usual(alloc: Global, case: &mut Case, rest: &str) -> Result<(), Fail> {
    let (key, line) = rest.split_once(' ').ok_or("a key and a line")?;
    let (key, line) = (
        String::from_str(alloc, key)?,
        String::from_str(alloc, line)?,
    );
    case.lines.push((key, line))?;
    Ok(())
}

// Prints the first gates of the store on the disk.
fn print_gates(rt: &HostRuntime, case: &mut Case, count: &str) -> Result<(), Fail> {
    let count = number_of(count)?;
    let line = gates(rt.alloc(), &case.keys, count, &mut case.disk)?;
    println!(rt; "{line}")?;
    Ok(())
}

// A line with frames or questions, and whether it is one.
fn set_frames(alloc: Global, case: &mut Case, word: &str, rest: &str) -> Result<bool, Fail> {
    match word {
        ">" => {
            let words = String::from_str(alloc, rest)?;
            frames(case).push(words)?
        }
        "%" => push_numbered(alloc, frames(case), rest)?,
        "?" => case.questions.push(String::from_str(alloc, rest)?)?,
        _ => return Ok(false),
    }
    Ok(true)
}

// A line that sets with what a store is begun, and whether it is one.
fn set_store(alloc: Global, keys: &mut Keys, word: &str, rest: &str) -> Result<bool, Fail> {
    match word {
        "mode" => keys.mode = mode_of(rest)?,
        "surface" => keys.surface = Key {
            bytes: block_of(alloc, rest)?,
        },
        "check" => keys.base_check = block_of(alloc, rest)?,
        "owner" => keys.owner = Key {
            bytes: block_of(alloc, rest)?,
        },
        _ => return Ok(false),
    }
    Ok(true)
}

// A line that sets what is on the disk, and whether it is one.
fn set_disk(alloc: Global, disk: &mut MemDisk, word: &str, rest: &str) -> Result<bool, Fail> {
    match word {
        "new" => *disk = MemDisk::new(alloc),
        "synced" => *disk = copy_of(alloc, disk)?,
        "book" => *disk = with_book(alloc, disk, rest)?,
        "blobs" => *disk = with_blobs(alloc, disk, rest)?,
        _ => return Ok(false),
    }
    Ok(true)
}

// A line that sets something for later lines, and whether it is one.
fn set(alloc: Global, case: &mut Case, word: &str, rest: &str) -> Result<bool, Fail> {
    if set_frames(alloc, case, word, rest)?
        || set_store(alloc, &mut case.keys, word, rest)?
        || set_disk(alloc, &mut case.disk, word, rest)?
    {
        return Ok(true);
    }
    match word {
        "fails" => set_fails(case, rest)?,
        "usual" => push_usual(alloc, case, rest)?,
        "words" => case.words = small_of(rest)?,
        "padded" => case.padded = number_of(rest)? as usize,
        _ => return Ok(false),
    }
    Ok(true)
}

// A line that prints something.
fn print<R: Threads + Wait + Copy + Send + 'static>(
    rt: &HostRuntime,
    handle: &R,
    case: &mut Case,
    word: &str,
    rest: &str,
) -> Result<(), Fail> {
    match word {
        "serve" => serve(rt, case),
        "book?" => print_book(rt, case),
        "changed" => print_changed(rt, case, rest),
        "gates" => print_gates(rt, case, rest),
        "stops" => print_stops(rt, case, rest),
        "faults" => print_faults(rt, case, rest),
        "parrot" => print_session(rt, handle, case, rest, true),
        "talk" => print_session(rt, handle, case, rest, false),
        "settings" => print_settings(rt, case, rest),
        "raw" => print_raw(rt, case, &bytes_of(rt.alloc(), rest)?),
        "host" => print_host(rt, handle, case, rest),
        _ => Err(Fail::from("a line of a case was expected")),
    }
}

/// Does what a line says. The handle may wait and start threads.
pub fn step<R: Threads + Wait + Copy + Send + 'static>(
    rt: &HostRuntime,
    handle: &R,
    case: &mut Case,
    line: &str,
) -> Result<(), Fail> {
    if line.is_empty() || line.starts_with("#") {
        return Ok(());
    }
    if line.starts_with("==") {
        println!(rt; "{line}")?;
        *case = Case::new(rt.alloc());
        return Ok(());
    }
    let (word, rest) = line.split_once(' ').unwrap_or((line, ""));
    if set(rt.alloc(), case, word, rest)? {
        return Ok(());
    }
    print(rt, handle, case, word, rest)?;
    case.mend();
    Ok(())
}
