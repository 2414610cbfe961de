//! Servers: frames, streams and settings as lines of data, and what comes of them over disks in memory.
//!
//! Each file of `data/` that `data/all` names is read line by line, and each line says one thing.
//!
//! | line | what it does |
//! |---|---|
//! | `# text` | nothing: a remark |
//! | `== title` | begins a case: a new disk, the usual keys in mode Delta, no frames, no faults |
//! | `mode name`, `surface digits`, `check digits` | the mode, the surface master and the check value with which a store is begun |
//! | `owner digits` | the base master by which records are looked at |
//! | `book words`, `blobs words` | appends bytes to an area |
//! | `new`, `synced` | a new disk, or one with the same bytes that had no call |
//! | `> words` | a frame that is asked |
//! | `% first last words / words` | so are these, for each number, in place of each `#` |
//! | `? words` | a frame that is asked over what is left |
//! | `serve` | begins a store on the disk, asks its server the frames, and prints the replies, what is known of the store then, and what is on the disk |
//! | `book?` | prints Book, and whether the store there is of the first form |
//! | `gates count` | prints the places of the first gates |
//! | `changed place byte length length` | changes a byte of Book, cuts both areas, and prints whether a store begins there |
//! | `stops count` | asks the questions over what a stop leaves after each of the last calls, with each tear |
//! | `faults frame count` | asks the frames where each call of one of them fails, a write after so many bytes, and the questions over what is left |
//! | `talk first last` | asks the frames in a session over a stream, in pieces of each size |
//! | `parrot first last words` | a session of these bytes with an answerer that gives each frame back |
//! | `usual key line` | a line of the settings file |
//! | `words count`, `padded length` | how many words name the settings file, and the length to which it is filled up |
//! | `settings key line` | reads the settings file with another line for the key, or with `+` behind all |
//! | `raw digits` | reads these bytes as a settings file |
//! | `host sessions streams` | has a server serve so many sessions, of a door that has so many streams |
//! | `fails party call` | this call of the next line's `take`, `put`, `door` or `disk` fails |
//!
//! A frame is a list of words: digits are bytes, `'text` is a text behind its length, `"text` a text,
//! `=number` a number of four bytes, `*count` so many bytes 0, `now` the store's epoch, and `tag` the
//! owner's tag of the update so far. Of many bytes their number and the first digits of their hash are
//! printed.
//!
//! No line of `stdout` was printed by this program: `tools/server_replies.py` makes it from the same
//! files, by a second implementation of the store.
#![tactic(auto)]

mod case;
mod disks;
mod faults;
mod hosts;
mod parrot;
mod serving;
mod sessions;
mod settings;
mod steps;
mod texts;
mod words;

use case::Case;
use std::sync::Wait;
use std::test::Fail;
use std::thread::Threads;
use std::{fs, str};

// Does what each line of a file says.
fn print_file<R: Threads + Wait + Copy + Send + 'static>(
    rt: &HostRuntime,
    handle: &R,
    name: &str,
) -> Result<(), Fail> {
    let bytes = fs::read(rt, name)?;
    let text = str::from_utf8(&bytes)?;
    let mut case = Case::new(rt.alloc());
    for line in text.split('\n') {
        steps::step(rt, handle, &mut case, line)?;
    }
    drop(case);
    Ok(())
}

fn main(rt: HostRuntime) -> Result<(), Fail> {
    let bytes = fs::read(&rt, "all")?;
    for name in str::from_utf8(&bytes)?.split('\n') {
        if !name.is_empty() {
            print_file(&rt, &rt, name)?;
        }
    }
    Ok(())
}
