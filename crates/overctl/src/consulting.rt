//! Questions to the owner's book, over the real files. No server is asked.

use crate::book_files::BookFiles;
use crate::book_texts::{BookEnding, BookHint};
use crate::real::{fault_of, text_of, warn_of_mode};
use crate::usage::say;
use ov_base::Memory;
use ov_consulting::{BookJob, BookStop, consult};
use ov_io::{FileSource, StdSink};
use ov_retry::Retrying;

/// How a question to the book ended: why it has no answer, if so, and its status.
#[derive(Clone, Copy)]
struct Outcome {
    stop: Option<BookStop>,
    code: u8,
}

// Asks the book in the real files.
fn do_job(rt: &HostRuntime, job: &BookJob) -> Result<Outcome, Memory> {
    let alloc = rt.alloc();
    let mut keys = FileSource::new(*rt, text_of(&job.keys))?;
    let mut out = StdSink::new(Retrying::new(rt.stdout()));
    let path = text_of(&job.book);
    let book = format!(in alloc; "{path}.book")?;
    let blobs = format!(in alloc; "{path}.blobs")?;
    let disk = BookFiles::new(*rt, book.as_str(), blobs.as_str());
    let asked = consult(alloc, job, &mut keys, &mut out, disk);
    let stop = match &asked.end {
        Ok(_) => None,
        Err(stop) => Some(*stop),
    };
    Ok(Outcome {
        stop,
        code: asked.code,
    })
}

// Says what went wrong, and what to do.
fn explain(rt: &HostRuntime, job: &BookJob, outcome: Outcome) {
    let keys = text_of(&job.keys);
    let reason = match outcome.stop {
        Some(BookStop::Read) => fault_of(rt, keys),
        _ => None,
    };
    let ending = BookEnding {
        stop: outcome.stop,
        code: outcome.code,
        keys,
        book: text_of(&job.book),
        reason,
    };
    say(rt, &ending, &BookHint(&ending));
}

/// Asks the owner's book, says what went wrong, and gives the status.
pub fn run_book(rt: &HostRuntime, job: &BookJob) -> u8 {
    warn_of_mode(rt, text_of(&job.keys));
    let outcome = match do_job(rt, job) {
        Ok(outcome) => outcome,
        Err(Memory) => Outcome {
            stop: Some(BookStop::Memory),
            code: BookStop::Memory.code(),
        },
    };
    if outcome.code != 0 {
        explain(rt, job, outcome);
    }
    outcome.code
}
