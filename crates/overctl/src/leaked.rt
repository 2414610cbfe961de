//! A server that shows the base master to everyone, as one does whose settings have it in place of
//! its check value.
ghost use Rattle.std.specs.Prelude.{◌≡◌};

use ov_io::{Fault, Sink, Source, Stream};
use ov_wire::kinds;
use std::fs;
use std::fs::File;
use std::io::Read;

// How many digits the line of a master has.
const DIGITS: usize = 64;

// Where a Welcome has the check value, behind its length field, its kind, a mode and an epoch.
const KIND_AT: usize = 4;

const START: usize = 10;

const END: usize = 42;

// The first bytes that came.
#[derive(Drop)]
struct Front {
    bytes: [u8; END],
    filled: usize,
}

impl Front {
    fn keep(&mut self, bytes: &[u8]) {
        for byte in bytes {
            if let Some(kept) = self.bytes.get_mut(self.filled) {
                *kept = *byte;
                self.filled = self.filled.saturating_add(1);
            }
        }
    }
}

/// The link in it, which remembers the check value that its server shows. It tells what the link
/// tells.
#[derive(Drop)]
pub struct WatchedLink<L> {
    pub link: L,
    front: Front,
}

impl<L> WatchedLink<L> {
    /// This link, over which nothing came yet.
    pub fn new(link: L) -> WatchedLink<L> {
        WatchedLink {
            link,
            front: Front {
                bytes: [0; END],
                filled: 0,
            },
        }
    }

    /// The check value that the server shows, where its first reply is a Welcome.
    pub fn shown(&self) -> Option<&[u8]> {
        let Front { bytes, filled } = &self.front;
        if *filled == END && bytes[KIND_AT] == kinds::WELCOME {
            bytes.get(START..END)
        } else {
            None
        }
    }
}

impl<L: Source> Source for WatchedLink<L> {
    ghost tells = { record {
      left = λ w. L.tells.left w.link;
      faults = λ w. L.tells.faults w.link;
      borrow = λ w. L.tells.borrow w.link;
      takes = λ a b. L.tells.takes a.link b.link;
    } };

    fn take(&mut self, buf: &mut [u8]) -> Result<usize, Fault> {
        let taken = self.link.take(buf);
        if let Ok(count) = taken {
            self.front.keep(buf.split_at(count).0);
        }
        taken
    }
}

impl<L: Sink> Sink for WatchedLink<L> {
    ghost tells = { record {
      written = λ w. L.tells.written w.link;
      faults = λ w. L.tells.faults w.link;
      borrow = λ w. L.tells.borrow w.link;
      puts = λ a b. L.tells.puts a.link b.link;
    } };

    fn put(&mut self, bytes: &[u8]) -> Result<(), Fault> {
        self.link.put(bytes)
    }
}

impl<L: Stream> Stream for WatchedLink<L> {
    ghost take_leaves = { λ old new took.
        let left = L.take_leaves old.link new.link took in
        record { bytes = left.bytes; faults = left.faults; borrow = left.borrow } };

    ghost put_leaves = { λ old new put.
        let left = L.put_leaves old.link new.link put in
        record { bytes = left.bytes; faults = left.faults; borrow = left.borrow } };
}

// The first line of a file of keys, where that is a regular file: whoever opens a pipe again may
// wait.
fn first_line(rt: &HostRuntime, path: &str) -> Option<[u8; DIGITS]> {
    if !fs::metadata(rt, path).ok()?.is_file() {
        return None;
    }
    let mut line = [0; DIGITS];
    let mut file = File::open(rt, path).ok()?;
    file.read_exact(&mut line).ok()?;
    Some(line)
}

/// Whether what a server shows for its check value is the base master of this key file.
pub fn is_base(rt: &HostRuntime, shown: &[u8], keys: &str) -> bool {
    match (hex::encode(rt.alloc(), shown), first_line(rt, keys)) {
        (Ok(digits), Some(line)) => line.eq_ignore_ascii_case(digits.as_bytes()),
        _ => false,
    }
}
