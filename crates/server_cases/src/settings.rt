//! Settings files.
use crate::case::Case;
use crate::texts::shown;
use ov_base::{Mode, Octets};
use ov_io::{MemSource, Source};
use ov_settings::{Settings, read_settings};
use std::alloc::{AllocError, Global};
use std::str;
use std::test::Fail;

/// The longest piece in which a settings file comes.
const PIECE: usize = 1000;

// The text of a settings file with this line in place of the one with its key, or behind all.
fn text_with(alloc: Global, case: &Case, key: &str, line: &str) -> Result<Vec<u8>, AllocError> {
    let mut text = Vec::new(alloc);
    for (name, usual) in &case.lines {
        let line = if name.as_str() == key {
            line
        } else {
            usual.as_str()
        };
        text.extend_from_slice(line.replace(alloc, "\\n", "\n")?.as_bytes())?;
    }
    if key == "+" {
        text.extend_from_slice(line.replace(alloc, "\\n", "\n")?.as_bytes())?;
    }
    for _ in text.len()..case.padded {
        text.push(b'#')?;
    }
    Ok(text)
}

// What is read of any source, with so many words.
fn read_from<S: Source>(alloc: Global, words: u32, source: &mut S) -> Result<Settings, u8> {
    let mut all = Vec::new(alloc);
    for _ in 0..words {
        match String::from_str(alloc, "settings.toml") {
            Ok(word) => match all.push(word) {
                Ok(()) => {}
                Err(_) => return Err(7),
            },
            Err(_) => return Err(7),
        }
    }
    read_settings(alloc, &all, source)
}

// The values of settings.
fn values_of(alloc: Global, settings: &Settings) -> Result<String, Fail> {
    let address = str::from_utf8(settings.address.as_slice())?;
    let book = str::from_utf8(settings.book.as_slice())?;
    let blobs = str::from_utf8(settings.blobs.as_slice())?;
    let mode = match settings.mode {
        Mode::Full => "full",
        Mode::Delta => "delta",
    };
    let surface = shown(alloc, &settings.surface.bytes)?;
    let check = shown(alloc, &settings.base_check)?;
    let (sessions, workers) = (settings.sessions, settings.workers);
    Ok(format!(in alloc; "{address} {mode} {surface} {check} {book} {blobs} {sessions} {workers}")?)
}

// Prints the settings that are read of these bytes, or the status.
fn print_read(rt: &HostRuntime, case: &Case, bytes: &[u8]) -> Result<(), Fail> {
    let fails = Octets::copy(rt.alloc(), &case.failing_takes)?;
    let mut source = MemSource::new(Octets::copy(rt.alloc(), bytes)?, PIECE, fails);
    match read_from(rt.alloc(), case.words, &mut source) {
        Ok(settings) => {
            let values = values_of(rt.alloc(), &settings)?;
            println!(rt; "settings {values}")?;
        }
        Err(status) => println!(rt; "status {status}")?,
    }
    Ok(())
}

/// Prints the settings that are read of the usual lines with another one.
pub fn print_settings(rt: &HostRuntime, case: &Case, rest: &str) -> Result<(), Fail> {
    let (key, line) = rest.split_once(' ').unwrap_or((rest, ""));
    let text = text_with(rt.alloc(), case, key, line)?;
    print_read(rt, case, &text)
}

/// Prints the settings that are read of these bytes.
pub fn print_raw(rt: &HostRuntime, case: &Case, bytes: &[u8]) -> Result<(), Fail> {
    print_read(rt, case, bytes)
}
