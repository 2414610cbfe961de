//! The program `overstore`: a script comes in on standard input, and its reply lines go out.
//!
//! `overstore run full` and `overstore run delta` answer a script of commands, line by line, from
//! the store in the program's folder, under the masters of the key file there. The contract of
//! [`run`] says what it prints and sends for every script, and what a stop leaves; `main` makes the
//! real sources, sinks and disk, calls it, and ends with the status that it gives.
//! `overstore load` answers the commands of a stated workload in a script's place, by [`load`],
//! and prints their counts and one hash of their replies. `overstore audit` prints which files some
//! users could ever have read, by [`audit`], and changes nothing. `overstore tidy` writes a shorter
//! store beside the store, by [`tidy`], and leaves the store as it is.
//!
//! Owner, server and readers are parties of their own in one process. They ask each other by
//! frames, and each frame is put to the trace, the file `trace.bin`.
//!
//! | module | what it does |
//! |---|---|
//! | `progress` | the count of replies |
//! | `passes` | how far the making of a shorter store is |
//! | `frames` | the frames, the first of which comes once the store was opened |
//! | `recent`, `lacks` | the last lines of the script; what a bad one lacks |
//! | `told`, `missing` | what standard error is told beside it; which users of an audit aren't enrolled |
//! | `texts`, `advice` | what `--help` prints; how an end is explained |
#![tactic(auto)]

mod advice;
mod frames;
mod lacks;
mod missing;
mod passes;
mod progress;
mod recent;
mod texts;
mod told;

use advice::Stage;
use frames::Frames;
use lacks::{Lack, lack_of};
use missing::say_missing;
use ov_answering::Status;
use ov_auditing::audit;
use ov_base::Memory;
use ov_disk::{FileDisk, MemDisk};
use ov_files::{OwnFiles, begins, hold_places, words_of};
use ov_io::{FileSink, FileSource, Source, StdSink, StdSource};
use ov_load::load;
use ov_report::put_memory;
use ov_retry::Retrying;
use ov_run::{Tried, Watched, run};
use ov_tidying::tidy;
use passes::Passes;
use progress::Counted;
use recent::Recent;
use std::alloc::Global;
use std::fs::File;
use std::io::{ErrorKind, IsTerminal, Write};
use std::process::ExitCode;
use texts::{HELP, VERSION};
use told::{
    BLOBS_FILE, BOOK_FILE, KEY_FILE, NEW_BLOBS_FILE, NEW_BOOK_FILE, TRACE_FILE, explain,
    explain_line, is_older_store, new_store, no_places, open_keys,
};

// The word that a run without a count of replies begins with.
const QUIET: &str = "--quiet";

// Whether a word asks for help.
fn asks_help(word: &String) -> bool {
    matches!(word.as_str(), "--help" | "-h")
}

// What the words ask to be told, if they do: `--help` may stand behind the word of a mode too.
fn told_by(words: &[String]) -> Option<&'static str> {
    match words {
        [word] => match word.as_str() {
            "--help" | "-h" => Some(HELP),
            "--version" | "-V" => Some(VERSION),
            _ => None,
        },
        [mode, others @ ..] if !mode.starts_with('-') && others.iter().any(asks_help) => Some(HELP),
        _ => None,
    }
}

// Whether this is the first of the words.
fn is_first(word: &str, words: &[String]) -> bool {
    match words {
        [first, ..] => first.as_str() == word,
        [] => false,
    }
}

// Whether the words ask for a run without a count, and the words of the run, or all of them.
fn apart_from_quiet(words: &[String]) -> (bool, &[String]) {
    match words {
        [first, others @ ..] if first.as_str() == QUIET && is_first("run", others) => {
            (true, others)
        }
        _ => (false, words),
    }
}

// Where the program was that had put replies to these words, or none.
fn stage_by_words(words: &[String], answered: bool) -> Stage {
    if words.iter().any(|word| word.as_str() == QUIET) {
        Stage::Quiet
    } else if is_first("load", words) {
        Stage::Load
    } else if is_first("audit", words) {
        Stage::Audit
    } else if is_first("tidy", words) {
        Stage::Tidy
    } else if answered {
        Stage::Answered
    } else {
        Stage::Unanswered
    }
}

// Why a take of the key file failed.
fn stage_by_keys(rt: &HostRuntime) -> Stage {
    match File::open(rt, KEY_FILE) {
        Err(error) if error.kind() == ErrorKind::NotFound => Stage::NoKeys,
        _ => Stage::UnreadKeys,
    }
}

// A disk, and a sink, over files that the program writes.
type StoreDisk = FileDisk<OwnFiles<HostRuntime>>;

type TraceSink = FileSink<OwnFiles<HostRuntime>>;

// The files of the folder: the key file, the store's two, the trace, and the two of a shorter store.
#[derive(Drop)]
struct Files {
    keys: Tried<FileSource<HostRuntime>>,
    disk: StoreDisk,
    new: StoreDisk,
    trace: TraceSink,
}

// The files by their names. None is opened yet.
fn files_of(rt: HostRuntime) -> Result<Files, Memory> {
    let keys = Tried::new(FileSource::new(rt, KEY_FILE)?);
    let own = OwnFiles::beside(rt, KEY_FILE);
    let disk = FileDisk::new(own, BOOK_FILE, BLOBS_FILE)?;
    let new = FileDisk::new(own, NEW_BOOK_FILE, NEW_BLOBS_FILE)?;
    let trace = FileSink::new(own, TRACE_FILE)?;
    Ok(Files {
        keys,
        disk,
        new,
        trace,
    })
}

/// How the program ended: its status, where it was then, whether a reply couldn't be put, and which
/// line of the script was bad, by its number, and what it lacks, where that is known.
#[derive(Drop)]
pub struct End {
    pub code: u8,
    pub stage: Stage,
    pub replies_failed: bool,
    bad_line: Option<(u64, Lack)>,
}

// An end with this status in this place.
fn end_at(code: u8, stage: Stage) -> End {
    End {
        code,
        stage,
        replies_failed: false,
        bad_line: None,
    }
}

// What the line of this number lacks, if one was bad and is remembered.
fn bad_line_of<S: Source>(
    alloc: Global,
    script: &Recent<S>,
    number: Option<u64>,
) -> Option<(u64, Lack)> {
    let number = number?;
    let mut line = Vec::new(alloc);
    let has_end = script.line(number, &mut line)?;
    match lack_of(&line, has_end) {
        // More of the line may come, so that something else is wrong with it.
        Lack::End if !script.has_ended() => None,
        lack => Some((number, lack)),
    }
}

// Whether these words may ask for the store, and it is of an older format.
fn asks_for_older(rt: &HostRuntime, words: &[String], disk: &mut StoreDisk) -> bool {
    (is_first("run", words) || is_first("load", words)) && is_older_store(rt, disk)
}

// Calls `audit`. Where no store was begun it looks at an empty disk in memory, since the first call of
// one over files would make both.
fn audit_store<W: Write>(
    rt: &HostRuntime,
    words: &[String],
    keys: &mut Tried<FileSource<HostRuntime>>,
    out: &mut Counted<StdSink<&mut Watched<W>>>,
    disk: &mut StoreDisk,
) -> u8 {
    let alloc = rt.alloc();
    if begins(rt, BOOK_FILE) {
        return audit(alloc, words, keys, out, &mut MemDisk::new(alloc));
    }
    let code = audit(alloc, words, keys, out, disk);
    if out.misses_user() {
        say_missing(rt, words, disk);
    }
    code
}

// Calls `tidy`, and shows on a terminal how far it is. Where no store was begun it looks at an empty
// disk in memory too.
fn tidy_store<W: Write>(
    rt: &HostRuntime,
    words: &[String],
    keys: &mut Tried<FileSource<HostRuntime>>,
    out: &mut Counted<StdSink<&mut Watched<W>>>,
    disk: &mut StoreDisk,
    new: &mut StoreDisk,
) -> u8 {
    let alloc = rt.alloc();
    if begins(rt, BOOK_FILE) {
        return tidy(alloc, words, keys, out, &mut MemDisk::new(alloc), new);
    }
    let shows = rt.stderr().is_terminal();
    if shows {
        out.clear_first();
    }
    let mut disk = Passes::new(disk, *rt, shows);
    tidy(alloc, words, keys, out, &mut disk, new)
}

// Calls `load`, `audit`, `tidy` or, with all other words, `run`: the status, whether the key file
// couldn't be read, and which line of the script was bad.
fn answer<W: Write>(
    rt: &HostRuntime,
    words: &[String],
    files: Files,
    out: &mut Counted<StdSink<&mut Watched<W>>>,
) -> (u8, bool, Option<(u64, Lack)>) {
    let alloc = rt.alloc();
    let Files {
        mut keys,
        mut disk,
        mut new,
        trace,
    } = files;
    if is_first("tidy", words) {
        let code = tidy_store(rt, words, &mut keys, out, &mut disk, &mut new);
        return (code, keys.failed(), None);
    }
    if is_first("audit", words) {
        let code = audit_store(rt, words, &mut keys, out, &mut disk);
        return (code, keys.failed(), None);
    }
    let mut trace = Frames::new(trace, *rt, asks_for_older(rt, words, &mut disk));
    if is_first("load", words) {
        let code = load(alloc, words, &mut keys, out, &mut trace, &mut disk);
        return (code, keys.failed(), None);
    }
    let mut script = Recent::new(alloc, StdSource::new(Retrying::new(rt.stdin())));
    let code = run(
        alloc,
        words,
        &mut keys,
        &mut script,
        out,
        &mut trace,
        &mut disk,
    );
    (
        code,
        keys.failed(),
        bad_line_of(alloc, &script, out.bad_line()),
    )
}

// Answers these words over the files of the folder.
fn answer_over_files<W: Write>(
    rt: &HostRuntime,
    words: &[String],
    shows: bool,
    replies: &mut Watched<W>,
) -> End {
    let no_store_before = begins(rt, BOOK_FILE);
    let mut out = Counted::new(StdSink::new(replies), *rt, shows);
    let files = match files_of(*rt) {
        Ok(files) => files,
        Err(Memory) => return end_at(put_memory(&mut out), stage_by_words(words, false)),
    };
    let (code, keys_failed, bad_line) = answer(rt, words, files, &mut out);
    out.end();
    if no_store_before {
        new_store(rt);
    }
    let stage = if keys_failed {
        stage_by_keys(rt)
    } else {
        stage_by_words(words, out.answered())
    };
    End {
        code,
        stage,
        replies_failed: out.failed(),
        bad_line,
    }
}

// Answers `--help` and `--version`, and all other words over the files of the folder.
fn answer_words<W: Write>(rt: &HostRuntime, words: &[String], replies: &mut Watched<W>) -> End {
    match told_by(words) {
        Some(text) => match replies.write_all(text.as_bytes()) {
            Ok(()) => end_at(Status::Done.code(), Stage::Telling),
            Err(_) => end_at(Status::WriteFault.code(), Stage::Telling),
        },
        None => {
            open_keys(rt);
            let (quiet, words) = apart_from_quiet(words);
            let shows = !quiet && rt.stderr().is_terminal() && !rt.stdout().is_terminal();
            answer_over_files(rt, words, shows, replies)
        }
    }
}

fn main(rt: HostRuntime) -> ExitCode {
    let Ok(_held) = hold_places(&rt) else {
        no_places(&rt);
        return ExitCode::from(Status::WriteFault.code());
    };
    let mut replies = Watched::new(Retrying::new(rt.stdout()));
    let end = match words_of(&rt) {
        Ok(words) => answer_words(&rt, &words, &mut replies),
        Err(error) if error.kind() == ErrorKind::OutOfMemory => {
            let code = put_memory(&mut StdSink::new(&mut replies));
            end_at(code, Stage::Unanswered)
        }
        // A word that is no UTF-8 is no known word.
        Err(_) => answer_words(&rt, &[], &mut replies),
    };
    match end.bad_line {
        Some((number, lack)) => explain_line(&rt, number, lack),
        None => explain(&rt, &end, replies.reader_is_gone()),
    }
    ExitCode::from(end.code)
}
