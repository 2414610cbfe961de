//! One line of a case.
use crate::case::Case;
use crate::frames::{tell_changes, tell_frame, tell_samples};
use crate::items::{tell_items, tell_long_items};
use crate::keys::tell_keys;
use crate::records::tell_record;
use crate::stored::{tell_front, tell_stored};
use crate::streams::{tell_piece, tell_pieces};
use crate::texts::{bytes_of, number_of, push_text, push_times};
use ov_base::Octets;
use std::alloc::{AllocError, Global};
use std::test::Fail;

// Appends a line to the script.
fn push_line(case: &mut Case, text: &str) -> Result<(), AllocError> {
    push_text(&mut case.script, text.as_bytes())?;
    case.script.push(b'\n')?;
    Ok(())
}

// Appends a text to the script so many times.
fn push_script(alloc: Global, case: &mut Case, rest: &str) -> Result<(), Fail> {
    let (count, text) = rest.split_once(' ').ok_or("a count, and a text")?;
    push_times(alloc, &mut case.script, number_of(count)?, text)
}

// A frame of a request, or of an answer to the one that was asked.
fn frame(rt: &HostRuntime, case: &mut Case, word: &str, digits: &str) -> Result<(), Fail> {
    case.frame = bytes_of(rt.alloc(), digits)?;
    case.is_answer = word == "answer";
    tell_frame(rt, case, word)
}

// The answers that were kept, read as such.
fn samples(rt: &HostRuntime, case: &mut Case) -> Result<(), Fail> {
    case.is_answer = true;
    tell_samples(rt, case)
}

// A new case.
fn begin(rt: &HostRuntime, case: &mut Case, title: &str) -> Result<(), Fail> {
    println!(rt; "{title}")?;
    *case = Case::new(rt.alloc())?;
    Ok(())
}

// Bytes for a new decoder, behind the size of its pieces.
fn pieces(rt: &HostRuntime, rest: &str) -> Result<(), Fail> {
    let (size, digits) = rest.split_once(' ').ok_or("a size, and digits")?;
    let bytes = bytes_of(rt.alloc(), digits)?;
    tell_pieces(rt, number_of(size)? as usize, &bytes)
}

// A stored record, behind its form and how many first blocks it has.
fn stored(rt: &HostRuntime, rest: &str) -> Result<(), Fail> {
    let (form, rest) = rest.split_once(' ').ok_or("a form, a count and digits")?;
    let (count, digits) = rest.split_once(' ').ok_or("a count, and digits")?;
    let bytes = bytes_of(rt.alloc(), digits)?;
    tell_stored(rt, form, number_of(count)?, &bytes)
}

// An update, or one at the front of a record, behind its form.
fn record(rt: &HostRuntime, word: &str, rest: &str) -> Result<(), Fail> {
    let (form, digits) = rest.split_once(' ').ok_or("a form, and digits")?;
    let bytes = bytes_of(rt.alloc(), digits)?;
    if word == "front" {
        return tell_front(rt, form, &bytes);
    }
    tell_record(rt, form, &bytes)
}

// A key file.
fn keys(rt: &HostRuntime, rest: &str) -> Result<(), Fail> {
    let mut text = Vec::new(rt.alloc());
    push_text(&mut text, rest.as_bytes())?;
    tell_keys(rt, &text)
}

// A line that keeps something for later lines.
fn keep(alloc: Global, case: &mut Case, word: &str, rest: &str) -> Result<bool, Fail> {
    match word {
        "to" => case.asked = bytes_of(alloc, rest)?,
        "sample" => case.samples.push(Octets::from_vec(bytes_of(alloc, rest)?))?,
        "|" => push_line(case, rest)?,
        ":" => push_text(&mut case.script, rest.as_bytes())?,
        "*" => push_script(alloc, case, rest)?,
        _ => return Ok(false),
    }
    Ok(true)
}

// A line that prints something.
fn tell(rt: &HostRuntime, case: &mut Case, word: &str, rest: &str) -> Result<(), Fail> {
    match word {
        "request" | "answer" => frame(rt, case, word, rest),
        "changes" => tell_changes(rt, case),
        "samples" => samples(rt, case),
        "feed" => {
            let piece = bytes_of(rt.alloc(), rest)?;
            tell_piece(rt, &mut case.decoder, &piece)
        }
        "feeds" => pieces(rt, rest),
        "record" | "front" => record(rt, word, rest),
        "stored" => stored(rt, rest),
        "items" => tell_items(rt, &case.script),
        "long" => tell_long_items(rt, &case.script),
        "keys" => keys(rt, rest),
        _ => Err(Fail::from("a line of a case was expected")),
    }
}

/// Does what a line says.
pub fn step(rt: &HostRuntime, case: &mut Case, line: &str) -> Result<(), Fail> {
    if line.is_empty() || line.starts_with("#") {
        return Ok(());
    }
    if line.starts_with("==") {
        return begin(rt, case, line);
    }
    let (word, rest) = line.split_once(' ').unwrap_or((line, ""));
    if keep(rt.alloc(), case, word, rest)? {
        return Ok(());
    }
    tell(rt, case, word, rest)
}
