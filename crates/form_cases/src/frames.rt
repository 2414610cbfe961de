//! Requests and answers: what is read and written again, or the place of the first wrong byte.
use crate::case::Case;
use crate::texts::{put_number, put_word};
use ov_wire::{Request, WireFault, read_answer, read_request, write_answer, write_request};
use std::alloc::Global;
use std::test::Fail;

// None where what was read is written again as it was.
fn same(read: &[u8], written: &[u8]) -> Result<Option<u32>, Fail> {
    if read == written {
        return Ok(None);
    }
    Err(Fail::from("a frame is written otherwise"))
}

// The place of the first wrong byte.
fn wrong(fault: WireFault) -> Result<Option<u32>, Fail> {
    match fault {
        WireFault::Bad { at } => Ok(Some(at)),
        WireFault::Memory => Err(Fail::from("no memory")),
    }
}

// The place of the first wrong byte of a request, if there is one.
fn place_in_request(alloc: Global, frame: &[u8]) -> Result<Option<u32>, Fail> {
    match read_request(alloc, frame) {
        Ok(request) => {
            let mut out = Vec::new(alloc);
            write_request(&request, &mut out)?;
            same(frame, &out)
        }
        Err(fault) => wrong(fault),
    }
}

// The place of the first wrong byte of an answer to a request, if there is one.
fn place_in_answer(alloc: Global, request: &Request, frame: &[u8]) -> Result<Option<u32>, Fail> {
    match read_answer(alloc, request, frame) {
        Ok(answer) => {
            let mut out = Vec::new(alloc);
            write_answer(&answer, &mut out)?;
            same(frame, &out)
        }
        Err(fault) => wrong(fault),
    }
}

// The place of the first wrong byte of a request, or of an answer to the one that was asked.
fn place_in(case: &Case, alloc: Global, frame: &[u8]) -> Result<Option<u32>, Fail> {
    if !case.is_answer {
        return place_in_request(alloc, frame);
    }
    match read_request(alloc, &case.asked) {
        Ok(request) => place_in_answer(alloc, &request, frame),
        Err(_) => Err(Fail::from("a request was expected")),
    }
}

// Appends the place, or a line where there is none.
fn put_place(line: &mut String, place: Option<u32>) -> Result<(), Fail> {
    match place {
        Some(place) => put_number(line, u64::from(place))?,
        None => put_word(line, "-")?,
    }
    Ok(())
}

/// Prints whether the last frame is good, or the place of its first wrong byte.
pub fn tell_frame(rt: &HostRuntime, case: &Case, word: &str) -> Result<(), Fail> {
    match place_in(case, rt.alloc(), &case.frame)? {
        Some(place) => println!(rt; "{word} wrong at {place}")?,
        None => println!(rt; "{word} good")?,
    }
    Ok(())
}

// The places of the last frame's first wrong byte where each byte is changed in this bit.
fn changed(alloc: Global, case: &Case, bit: u8) -> Result<String, Fail> {
    let mut line = String::new(alloc);
    for place in 0..case.frame.len() {
        let mut frame = case.frame.to_vec(alloc)?;
        if let Some(byte) = frame.get_mut(place) {
            *byte ^= bit;
        }
        put_place(&mut line, place_in(case, alloc, &frame)?)?;
    }
    Ok(line)
}

// The places of the last frame's first wrong byte where it is cut.
fn cut(alloc: Global, case: &Case) -> Result<String, Fail> {
    let mut line = String::new(alloc);
    for length in 0..case.frame.len() {
        let frame = case.frame.get(..length).unwrap_or(b"");
        put_place(&mut line, place_in(case, alloc, frame)?)?;
    }
    Ok(line)
}

/// Prints the places of the last frame's first wrong byte after each change.
pub fn tell_changes(rt: &HostRuntime, case: &Case) -> Result<(), Fail> {
    let low = changed(rt.alloc(), case, 1)?;
    println!(rt; "  low{low}")?;
    let high = changed(rt.alloc(), case, 0x80)?;
    println!(rt; "  high{high}")?;
    let cut = cut(rt.alloc(), case)?;
    println!(rt; "  cut{cut}")?;
    Ok(())
}

/// Prints the place of the first wrong byte of each sample, as an answer to the request.
pub fn tell_samples(rt: &HostRuntime, case: &Case) -> Result<(), Fail> {
    let mut line = String::new(rt.alloc());
    for sample in &case.samples {
        put_place(&mut line, place_in(case, rt.alloc(), sample.as_slice())?)?;
    }
    println!(rt; "samples{line}")?;
    Ok(())
}
