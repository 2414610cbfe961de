//! Forms: frames, records, scripts and key files as lines of data, and what their readers make of
//! them.
//!
//! Each file of `data/` that `data/all` names is read line by line, and each line says one thing.
//!
//! | line | what it does |
//! |---|---|
//! | `# text` | nothing: a remark |
//! | `== title` | begins a case: no frames, no script, a new decoder |
//! | `request HEX` | reads the frame as a request |
//! | `to HEX` | the request to which the answers behind this line are |
//! | `answer HEX` | reads the frame as an answer |
//! | `changes` | reads the last frame with each byte changed in its lowest bit, in its highest bit, and cut anywhere |
//! | `sample HEX` | keeps an answer |
//! | `samples` | reads each answer that was kept |
//! | `feed HEX` | gives a piece to the decoder, and prints the frames that came |
//! | `feeds COUNT HEX` | gives the bytes to new decoders in pieces of so many, one after the other and at once |
//! | `record FORM HEX` | reads an update in the form 1 or 2 |
//! | `stored FORM COUNT HEX` | reads a stored record with so many first blocks |
//! | `front FORM HEX` | reads the update in front of a stored record |
//! | `\| text`, `: text` | appends a line to the script, and a text without a line's end |
//! | `* count text` | appends a text so many times |
//! | `items` | reads the script in pieces of 1, 7 and 4,096 bytes |
//! | `long items` | reads it in pieces of 4,096 bytes alone |
//! | `keys text` | reads a key file |
//!
//! In a text `\n`, `\r`, `\\` and `\x` with two digits are a byte each. What was read is written again,
//! and has to be the same bytes; of bytes that are none of these the place of the first wrong one is
//! printed. Of many bytes their number and the first digits of their hash are printed.
//!
//! No line of `stdout` was printed by this program: `tools/form_replies.py` makes it from the same
//! files, by a second implementation of the forms.
#![tactic(auto)]

mod case;
mod frames;
mod items;
mod keys;
mod records;
mod steps;
mod stored;
mod streams;
mod texts;
mod updates;

use case::Case;
use std::test::Fail;
use std::{fs, str};

// Answers each line of a file.
fn tell_file(rt: &HostRuntime, name: &str) -> Result<(), Fail> {
    let bytes = fs::read(rt, name)?;
    let text = str::from_utf8(&bytes)?;
    let mut case = Case::new(rt.alloc())?;
    for line in text.split('\n') {
        steps::step(rt, &mut case, line)?;
    }
    drop(case);
    Ok(())
}

fn main(rt: HostRuntime) -> Result<(), Fail> {
    let bytes = fs::read(&rt, "all")?;
    for name in str::from_utf8(&bytes)?.split('\n') {
        if !name.is_empty() {
            tell_file(&rt, name)?;
        }
    }
    Ok(())
}
