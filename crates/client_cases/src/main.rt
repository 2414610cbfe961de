//! Clients: replies as lines of data, and what an owner, a reader and their programs make of them.
//!
//! Each file of `data/` that `data/all` names is read line by line, and each line says one thing.
//!
//! | line | what it does |
//! |---|---|
//! | `# text` | nothing: a remark |
//! | `== title` | begins a case: the usual masters and key file, no replies, no faults |
//! | `base digits`, `surface digits` | the masters of the owner |
//! | `keys text` | the key file, or a reader's line of keys |
//! | `length count` | how many bytes the file at PATH has |
//! | `< words` | a reply of the peer |
//! | `* count words / words` | so are these, so many times |
//! | `fails party call` | this `ask`, read of the `keys`, or `take` or `put` of a file or stream fails, for the next line |
//! | `enrol user`, `create file text`, `grant user file`, `revoke user file`, `remove file`, `replace file text`, `list file`, `hello` | has the owner do so, and prints what came of it and all frames; a file is created for a and b |
//! | `read file`, `fetch file` | has the reader read a file, into a list of one byte or a new one |
//! | `line` | prints the reader's line of keys |
//! | `overctl words` | does the job that these words say, and prints its status and its lines |
//! | `listing epoch`, `listing users`, `listing files user` | prints what answers such a question |
//! | `link size words / words` | asks these requests of a peer behind a stream, which has the replies as they are, in pieces |
//!
//! The first reply behind a line that asks something begins a new list. Bytes are a list of words:
//! digits, `"text`, and `count*digits`. Of many bytes their number and the first digits of their hash
//! are printed.
//!
//! No line of `stdout` was printed by this program: `tools/client_replies.py` makes it from the same
//! files, by a second implementation of owner and reader.
#![tactic(auto)]

mod acts;
mod case;
mod links;
mod listings;
mod owners;
mod peers;
mod readers;
mod steps;
mod texts;

use case::Case;
use std::test::Fail;
use std::{fs, str};

// Does what each line of a file says.
fn print_file(rt: &HostRuntime, name: &str) -> Result<(), Fail> {
    let bytes = fs::read(rt, name)?;
    let text = str::from_utf8(&bytes)?;
    let mut case = Case::new(rt.alloc())?;
    for line in text.split('\n') {
        steps::step(rt, &mut case, line)?;
    }
    drop(case);
    Ok(())
}

fn main(rt: HostRuntime) -> Result<(), Fail> {
    let bytes = fs::read(&rt, "all")?;
    for name in str::from_utf8(&bytes)?.split('\n') {
        if !name.is_empty() {
            print_file(&rt, name)?;
        }
    }
    Ok(())
}
