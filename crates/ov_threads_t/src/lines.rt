//! The lines that a server puts, for another thread to read.
ghost use Rattle.std.specs.Prelude.{None, ⊤};

use ov_io::{Fault, Sink};
use std::alloc::Global;
use std::str;
use std::sync::{OnceLock, Wait};

/// The line that a server puts first, and the one behind it.
#[derive(Drop)]
pub struct Lines {
    first: OnceLock<Vec<u8>>,
    second: OnceLock<Vec<u8>>,
}

impl Lines {
    /// No line was put yet.
    pub fn new() -> Lines {
        Lines {
            first: OnceLock::new(),
            second: OnceLock::new(),
        }
    }

    /// The address in the first line, which is waited for.
    pub fn address<R: Wait>(&self, rt: &R) -> Option<&str> {
        let line = str::from_utf8(self.first.wait(rt).as_slice()).ok()?;
        line.strip_prefix("listening ")?.strip_suffix("\n")
    }

    /// The second line, if it was put.
    pub fn second(&self) -> Option<&[u8]> {
        match self.second.get() {
            Some(line) => Some(line.as_slice()),
            None => None,
        }
    }
}

/// Keeps the first two lines, each of which is put in one call.
#[derive(Drop)]
pub struct LineSink<'a> {
    alloc: Global,
    lines: &'a Lines,
    faults: u64,
}

impl<'a> LineSink<'a> {
    /// A sink that keeps them here.
    pub fn new(alloc: Global, lines: &'a Lines) -> LineSink<'a> {
        LineSink {
            alloc,
            lines,
            faults: 0,
        }
    }
}

/// Keeps a line. Whether there was room for it.
fn keep(alloc: Global, lines: &Lines, line: &[u8]) -> bool {
    let Ok(line) = line.to_vec(alloc) else {
        return false;
    };
    match lines.first.try_set(line) {
        Ok(_) => true,
        Err(line) => lines.second.try_set(line).is_ok(),
    }
}

impl Sink for LineSink<'_> {
    ghost tells = { record {
      written = λ _. None;
      faults = λ s. s.faults;
      borrow = λ _. 0;
      puts = λ _ _. ⊤;
    } };

    fn put(&mut self, bytes: &[u8]) -> Result<(), Fault> {
        if keep(self.alloc, self.lines, bytes) {
            Ok(())
        } else {
            self.faults = self.faults.saturating_add(1);
            Err(Fault)
        }
    }
}
