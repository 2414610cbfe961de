//! The last bytes of a script, by lines.
ghost use Rattle.std.specs.Prelude.{◌≡◌};

use ov_io::{Fault, Source};
use std::alloc::Global;

// As much as is kept at least, where so much was taken: two buffers of a script.
const KEPT: usize = 262_144;

/// A source that remembers the last bytes that were taken, how many lines ended before them, and
/// whether they begin inside a line, which isn't remembered then.
/// Where memory is refused for that it remembers none.
#[derive(Drop)]
pub struct Recent<S: Source> {
    source: S,
    before: Vec<u8>,
    now: Vec<u8>,
    lines: u64,
    cut: bool,
    ended: bool,
    lost: bool,
}

// How many lines end in these bytes.
fn lines_in(bytes: &[u8]) -> u64 {
    bytes.iter().filter(|byte| **byte == b'\n').count() as u64
}

impl<S: Source> Recent<S> {
    /// Listens to this source, of which nothing was taken yet.
    pub fn new(alloc: Global, source: S) -> Recent<S> {
        Recent {
            source,
            before: Vec::new(alloc),
            now: Vec::new(alloc),
            lines: 0,
            cut: false,
            ended: false,
            lost: false,
        }
    }

    // Remembers these bytes, and forgets what was kept before the last ones.
    fn remember(&mut self, bytes: &[u8])
        ensures { self.new.source ≡ self.old.source }
    {
        if self.now.len() >= KEPT {
            self.lines = self.lines.saturating_add(lines_in(&self.before));
            if let Some(last) = self.before.last() {
                self.cut = *last != b'\n';
            }
            std::mem::swap(&mut self.before, &mut self.now);
            self.now.clear();
        }
        if self.now.extend_from_slice(bytes).is_err() {
            self.lost = true;
        }
    }

    /// The bytes of line `number`, counted from 1, and whether its end is among them or the script
    /// ends there; none where it isn't remembered.
    pub fn line(&self, number: u64, into: &mut Vec<u8>) -> Option<bool> {
        let mut line = self.lines.saturating_add(1);
        if self.lost || self.cut && line == number {
            return None;
        }
        for byte in self.before.iter().chain(self.now.iter()) {
            if line == number {
                if *byte == b'\n' {
                    return Some(true);
                }
                into.push(*byte).ok()?;
            } else if *byte == b'\n' {
                line = line.saturating_add(1);
            }
        }
        if line == number { Some(false) } else { None }
    }

    /// Whether the script has ended.
    pub fn has_ended(&self) -> bool {
        self.ended
    }
}

impl<S: Source> Source for Recent<S> {
    ghost tells = { record {
      left = λ s. S.tells.left s.source;
      faults = λ s. S.tells.faults s.source;
      borrow = λ s. S.tells.borrow s.source;
      takes = λ a b. S.tells.takes a.source b.source;
    } };

    fn take(&mut self, buf: &mut [u8]) -> Result<usize, Fault> {
        let taken = self.source.take(buf);
        match taken {
            Ok(0) => self.ended = true,
            Ok(count) => {
                let (bytes, _) = buf.split_at(count);
                self.remember(bytes);
            }
            Err(_) => {}
        }
        taken
    }
}
