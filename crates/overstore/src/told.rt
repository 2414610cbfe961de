//! What is wrong and what to do, on standard error. Where that can't be written the status has to
//! do.
use crate::End;
use crate::advice::{
    AFTER_BAD_LINE, KEEP_A_COPY, NO_PLACES, OLDER, Stage, TWO_STORES, advice_on, on_file, on_lack,
    what_lasts,
};
use crate::lacks::Lack;
use ov_answering::Status;
use ov_disk::Disk;
use ov_files::{FileFault, begins, fault_of, is_of_first_format, is_open_to_others};
use ov_store::is_to_be_carried_over;

/// The file of the two masters, in the folder where the program runs.
pub const KEY_FILE: &str = "keys.hex";

/// The store's two files, in the same folder.
pub const BOOK_FILE: &str = "store.book";

pub const BLOBS_FILE: &str = "store.blobs";

/// The files of a shorter store, which `tidy` makes in the same folder.
pub const NEW_BOOK_FILE: &str = "tidy.book";

pub const NEW_BLOBS_FILE: &str = "tidy.blobs";

/// The frames between the parties, of the last run.
pub const TRACE_FILE: &str = "trace.bin";

// Says what is wrong.
fn say(rt: &HostRuntime, error: &str) {
    let _ = eprintln!(rt; "overstore: error: {error}");
}

// Why this file of the store, or the trace, can't be used, where the system says so. It may be none of
// the other files that the program uses.
fn fault_beside(rt: &HostRuntime, path: &str) -> Option<FileFault> {
    match path {
        BOOK_FILE => fault_of(rt, path, &[KEY_FILE, BLOBS_FILE, TRACE_FILE]),
        BLOBS_FILE => fault_of(rt, path, &[KEY_FILE, BOOK_FILE, TRACE_FILE]),
        NEW_BOOK_FILE => fault_of(rt, path, &[KEY_FILE, BOOK_FILE, BLOBS_FILE, NEW_BLOBS_FILE]),
        NEW_BLOBS_FILE => fault_of(rt, path, &[KEY_FILE, BOOK_FILE, BLOBS_FILE, NEW_BOOK_FILE]),
        _ => fault_of(rt, path, &[KEY_FILE, BOOK_FILE, BLOBS_FILE]),
    }
}

// Says which of these files can't be used, and why, where the system says so of one.
fn say_of_files(rt: &HostRuntime, paths: &[&str], stage: Stage) -> bool {
    for path in paths {
        match fault_beside(rt, path) {
            Some(fault) => {
                let (why, lasts) = (on_file(fault), what_lasts(stage));
                let _ = eprintln!(rt; "overstore: error: {path}: {why}; {lasts}");
                return true;
            }
            None => {}
        }
    }
    false
}

// Says which file an end with this status is due to, where the system tells.
fn names_file(rt: &HostRuntime, status: Status, stage: Stage, replies_failed: bool) -> bool {
    match status {
        Status::DiskFault => {
            say_of_files(rt, &[BOOK_FILE, BLOBS_FILE], stage)
                || stage == Stage::Tidy && say_of_files(rt, &[NEW_BOOK_FILE, NEW_BLOBS_FILE], stage)
        }
        Status::WriteFault if stage != Stage::Telling && !replies_failed => {
            say_of_files(rt, &[TRACE_FILE], stage)
        }
        _ => false,
    }
}

/// Says what this line of a script lacks, which is bad.
pub fn explain_line(rt: &HostRuntime, number: u64, lack: Lack) {
    let why = on_lack(lack);
    let _ = eprintln!(rt; "overstore: error: line {number}: {why}; {AFTER_BAD_LINE}");
}

/// Says why a run ended with this status, and what to do.
pub fn explain(rt: &HostRuntime, end: &End, reader_is_gone: bool) {
    let (code, stage) = (end.code, end.stage);
    let Some(status) = Status::from_code(code) else {
        return;
    };
    if names_file(rt, status, stage, end.replies_failed) {
        return;
    }
    match advice_on(status, stage, reader_is_gone) {
        Some(said) => say(rt, said),
        None => {}
    }
}

/// Says that the places of standard streams can't be held.
pub fn no_places(rt: &HostRuntime) {
    say(rt, NO_PLACES);
}

/// Says so where others than their owner may read the masters.
pub fn open_keys(rt: &HostRuntime) {
    if is_open_to_others(rt, KEY_FILE) {
        let _ = eprintln!(rt;
            "overstore: warning: {KEY_FILE} can be read by others, and has both masters"
        );
        let _ = eprintln!(rt; "overstore: hint: keep it to yourself by `chmod 600 {KEY_FILE}`");
    }
}

/// Says so where the book, in which no store was begun before, has one now.
pub fn new_store(rt: &HostRuntime) {
    if !begins(rt, BOOK_FILE) {
        let _ = eprintln!(rt;
            "overstore: note: there was no store in this folder, so a new one was begun"
        );
        let _ = eprintln!(rt; "overstore: hint: {TWO_STORES}");
    }
}

/// Whether the store of this folder, which is on this disk, is of the first format and its next
/// update carries it over. Nothing is written.
pub fn is_older_store<D: Disk>(rt: &HostRuntime, disk: &mut D) -> bool {
    is_of_first_format(rt, BOOK_FILE) && matches!(is_to_be_carried_over(rt.alloc(), disk), Ok(true))
}

/// Says that it is.
pub fn older_store(rt: &HostRuntime) {
    let _ = eprintln!(rt; "overstore: note: {BOOK_FILE} {OLDER}");
    let _ = eprintln!(rt; "overstore: hint: {KEEP_A_COPY}");
}
