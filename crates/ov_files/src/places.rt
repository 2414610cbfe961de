//! The places of the three standard streams.

use std::fs::{File, OpenOptions};
use std::io;
use std::os::fd::AsRawFd;

/// What is opened in the place of a standard stream that is closed. It is there whichever folder the
/// program runs in, and holds nothing that could be lost.
pub const NOTHING: &str = "/dev/null";

// The place of standard input.
const INPUT: i32 = 0;

/// The places of standard streams that were closed, so that no other file ends up there.
#[derive(Drop)]
pub struct HeldPlaces {
    input: Option<File>,
    outputs: (File, File),
}

// A file in the place of standard input, where that is free. It can't be read, so that an input that
// is closed is no empty one.
fn held_input(rt: &HostRuntime) -> io::Result<Option<File>> {
    let file = OpenOptions::new().write(true).open(rt, NOTHING)?;
    if file.as_raw_fd() == INPUT {
        Ok(Some(file))
    } else {
        Ok(None)
    }
}

/// Takes the places of standard streams that are closed. What is there then can't be read in the
/// place of standard input, nor written in those of the outputs. Where these are open it takes two
/// places that nobody uses. A program that gets an error here may open no file, which might come to
/// be in such a place and be written over by what is printed.
pub fn hold_places(rt: &HostRuntime) -> io::Result<HeldPlaces> {
    let input = held_input(rt)?;
    let outputs = (File::open(rt, NOTHING)?, File::open(rt, NOTHING)?);
    Ok(HeldPlaces { input, outputs })
}
