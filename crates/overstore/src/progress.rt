//! How far a script is, on standard error. A count that can't be written there is passed over.
use ov_io::{Fault, Sink};
use std::str;

// The count is shown at each multiple of this.
const STEP: u64 = 1_000;

// A line of standard error that is longer than any that is written over there, in blanks.
const BLANK: &str = "\r                                                  \r";

/// A sink that counts the replies that are put to it, and may show their count, or clear what else is
/// shown.
#[derive(Drop)]
pub struct Counted<S: Sink> {
    sink: S,
    rt: HostRuntime,
    shows: bool,
    clears: bool,
    replies: u64,
    bad_line: Option<u64>,
    misses_user: bool,
    failed: bool,
}

// How the refusal of somebody who isn't enrolled begins.
const NO_USER: &[u8] = b"refused 2 NoUser\n";

// The number in these bytes, where they are the line on a bad item.
fn bad_line_in(bytes: &[u8]) -> Option<u64> {
    let line = str::from_utf8(bytes).ok()?;
    line.strip_prefix("error line ")?
        .strip_suffix('\n')?
        .parse()
        .ok()
}

impl<S: Sink> Counted<S> {
    /// Counts what is put to this sink, and shows it or doesn't.
    pub fn new(sink: S, rt: HostRuntime, shows: bool) -> Counted<S> {
        Counted {
            sink,
            rt,
            shows,
            clears: false,
            replies: 0,
            bad_line: None,
            misses_user: false,
            failed: false,
        }
    }

    // Shows the count in place of the one before, where it is due.
    fn show(&self) {
        if self.shows && self.replies % STEP == 0 {
            let rt = self.rt;
            let replies = self.replies;
            let _ = eprint!(rt; "\roverstore: {replies} replies");
        }
    }

    /// From now on what standard error shows in its last line is cleared before each put.
    pub fn clear_first(&mut self) {
        self.clears = true;
    }

    // Clears that line.
    fn clear(&self) {
        if self.clears {
            let rt = self.rt;
            let _ = eprint!(rt; "{BLANK}");
        }
    }

    /// Whether a reply was put before the last line.
    pub fn answered(&self) -> bool {
        self.replies > 1
    }

    /// The line of a bad item, where the last line that was put names it.
    pub fn bad_line(&self) -> Option<u64> {
        self.bad_line
    }

    /// Whether what was put last begins with the refusal of somebody who isn't enrolled.
    pub fn misses_user(&self) -> bool {
        self.misses_user
    }

    /// Whether a put failed.
    pub fn failed(&self) -> bool {
        self.failed
    }

    /// Ends the line of the count, where one was shown.
    pub fn end(&self) {
        if self.shows && self.replies >= STEP {
            let rt = self.rt;
            let _ = eprintln!(rt; "");
        }
    }
}

impl<S: Sink> Sink for Counted<S> {
    ghost tells = { record {
      written = λ s. S.tells.written s.sink;
      faults = λ s. S.tells.faults s.sink;
      borrow = λ s. S.tells.borrow s.sink;
      puts = λ a b. S.tells.puts a.sink b.sink;
    } };

    fn put(&mut self, bytes: &[u8]) -> Result<(), Fault> {
        self.clear();
        let put = self.sink.put(bytes);
        if put.is_ok() {
            self.replies = self.replies.saturating_add(1);
            self.bad_line = bad_line_in(bytes);
            self.misses_user = bytes.starts_with(NO_USER);
            self.show();
        } else {
            self.failed = true;
        }
        put
    }
}
