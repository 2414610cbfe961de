//! Cases: small files of scripts, disks and faults, and what `run`, `audit`, `load` and `tidy` make
//! of them.
//!
//! Each file of `data/` that `data/all` names is read line by line, and each line says one thing.
//!
//! | line | what it does |
//! |---|---|
//! | `# text` | nothing: a remark |
//! | `== title` | begins a case: a new disk, the usual key file, no faults, no script |
//! | `\| text`, `: text` | appends a line to the script, and a text without a line's end |
//! | `@ count`, `* count byte` | appends so many bytes, from 1 up, or one byte so many times |
//! | `% first last text` | appends a line for each number, in place of each `#` of the text |
//! | `sets` | appends a creation for each set of the users `u0` to `u11` that isn't one user alone |
//! | `script file` | appends a file of `data/` |
//! | `pieces count` | sources give at most so many bytes a call, from here on |
//! | `repeats count` | the script comes so many more times |
//! | `keys text` | the key file |
//! | `fails party call` | this call of the `keys`, `script`, `lines` or `frames` fails, in the next run |
//! | `fails disk call kept` | so does this call of the disk, a write after so many bytes |
//! | `new`, `synced` | a new disk, or one with the same bytes that had no call |
//! | `book text`, `blobs text` | appends to an area |
//! | `book= place byte`, `blobs= ..` | changes a byte of an area |
//! | `book* count byte`, `blobs* ..` | appends one byte so many times |
//! | `book< length`, `blobs< ..` | cuts an area |
//! | `book?`, `blobs?` | prints how long an area is, and its last bytes |
//! | `run ..`, `audit ..`, `load ..` | makes this call, and prints its lines, its status, and what it left |
//! | `tidy` | makes a shorter store on another disk, and prints its lines, its status, and what it left of both |
//! | `other-book text` | appends to the Book of that disk, as `book text` does; so `other-book=`, .. |
//! | `in-place` | puts that disk in the place of the first |
//! | `modes` | the same as `run full` and `run delta`, each over a new disk |
//! | `sizes count run ..` | runs it over a new disk with inputs in pieces of each size |
//! | `stops count run ..` | runs it over what a stop leaves after each of the last calls, with each tear |
//! | `each party count kept run ..` | runs it over a new disk for each of so many calls of the `disk`, the `lines` or the `frames`, which fails |
//! | `each disk count 0 audit ..` | audits the disk for each of so many calls, which fails |
//! | `each old count place run ..`, `each new ..` | makes a shorter store for each of so many calls of one of its disks, which fails, and runs it over what each tear leaves of the new disk, where the record at this place of Book, if there is one, may have a wrong tag |
//! | `read-only audit ..`, `read-only load ..` | audits or loads a disk that can't be written |
//! | `counted run ..` | runs it over such a disk, and prints how many calls that had |
//! | `flips first place bits run ..` | runs it over such a disk, and once more where the first, or `last`, read of a byte of Book gives it with these bits changed |
//! | `watched broken-pipe`, `watched storage-full` | writes a line, which fails for this reason, and prints whether its reader is gone |
//!
//! In a text `\n`, `\r`, `\\` and `\x` with two digits stand for a byte each. The first line of a
//! script after a call begins a new one. Lines of more than 1,000 bytes, frames, and both areas are
//! printed as their length and the first digits of their SHA-256.
//!
//! No line of `stdout` was printed by this program: `tools/case_replies.py` makes it from the same
//! files, by a second implementation of the store.
#![tactic(auto)]

mod areas;
mod calling;
mod case;
mod each;
mod inputs;
mod pieces;
mod read_only;
mod reading;
mod recorder;
mod scripts;
mod sizes;
mod steps;
mod stops;
mod texts;
mod tidying;
mod watched;

use case::Case;
use std::test::Fail;
use std::{fs, str};

// Does what each line of a file says.
fn print_file(rt: &HostRuntime, name: &str) -> Result<(), Fail> {
    let bytes = fs::read(rt, name)?;
    let text = str::from_utf8(&bytes)?;
    let mut case = Case::new(rt.alloc(), 4096)?;
    for line in text.split('\n') {
        steps::step(rt, &mut case, line)?;
    }
    drop(case);
    Ok(())
}

fn main(rt: HostRuntime) -> Result<(), Fail> {
    let bytes = fs::read(&rt, "all")?;
    for name in str::from_utf8(&bytes)?.split('\n') {
        if !name.is_empty() {
            print_file(&rt, name)?;
        }
    }
    Ok(())
}
