//! The program `overstored`: a server of an over-encryption store over TCP.
//!
//! `overstored [--log] SETTINGS` reads its settings by [`read_settings`], and serves by [`host`], as
//! many sessions at once as the settings have workers, each in a thread of its own. Their contracts
//! say what it answers and with which status it ends; `main` makes the real files, the real door, the
//! sink and what starts the threads, and says on standard error what is wrong and what to do. A line
//! there is one print, and one write where it has at most 1,024 bytes, so that lines of sessions which
//! run at once don't mix.
//!
//! | module | what it does |
//! |---|---|
//! | `told` | says on standard error what is wrong |
//! | `disk`, `door` | a disk that says when a write failed, and a door that says how sessions end |
//! | `log`, `stream`, `heads` | what is logged, of the frames that pass over a stream |
//! | `texts` | all texts |
#![tactic(auto)]

ghost use Rattle.std.specs.Prelude.{◌≤◌, IfOk};

mod disk;
mod door;
mod heads;
mod log;
mod stream;
mod texts;
mod told;

use disk::SpokenDisk;
use door::{News, SpokenDoor};
use ov_base::Memory;
use ov_disk::{Disk, FileDisk};
use ov_files::{FileFault, OwnFiles, begins, fault_of, hold_places, is_of_first_format, words_of};
use ov_host::host;
use ov_io::{FileSource, Source, StdSink};
use ov_retry::Retrying;
use ov_serving::Spawner;
use ov_session::{OpenGate, SILENCE_SECONDS, TcpDoor};
use ov_settings::{Settings, read_settings};
use ov_store::is_to_be_carried_over;
use std::alloc::Global;
use std::io::ErrorKind;
use std::net::Net;
use std::process::ExitCode;
use std::str;
use std::sync::atomic::AtomicBool;
use std::sync::{Arc, Wait};
use std::thread::Threads;
use texts::{HELP, NO_MEMORY, NO_SETTINGS, VERSION};

// The exit statuses that `main` itself gives.
const USAGE: u8 = 2;

const WRITE_FAULT: u8 = 6;

const OUT_OF_MEMORY: u8 = 7;

// The word before the settings file that asks for a log.
const LOG: &str = "--log";

// What the word asks to be told, if it does.
fn told_by(word: &str) -> Option<&'static str> {
    match word {
        "--help" | "-h" => Some(HELP),
        "--version" | "-V" => Some(VERSION),
        _ => None,
    }
}

// Prints to standard output, and gives this status where that succeeds.
fn print(rt: &HostRuntime, text: &str, status: u8) -> u8 {
    match rt.print(text) {
        Ok(()) => status,
        Err(_) => {
            told::no_line(rt);
            WRITE_FAULT
        }
    }
}

// The status where memory is refused before there is a server.
fn out_of_memory(rt: &HostRuntime) -> u8 {
    told::no_memory(rt);
    OUT_OF_MEMORY
}

// The bytes of a text of the settings as a text.
fn text_of(bytes: &[u8]) -> &str {
    match str::from_utf8(bytes) {
        Ok(text) => text,
        Err(_) => "",
    }
}

// The store that a server by these settings begins, where it finds none.
fn begun_by(
    rt: &HostRuntime,
    settings: &Settings,
    book: &str,
    blobs: &str,
) -> Result<Option<News>, Memory> {
    let may_begin = matches!(fault_of(rt, blobs, &[]), None | Some(FileFault::NotMade));
    if !may_begin || !begins(rt, book) {
        return Ok(None);
    }
    let book = String::from_str(rt.alloc(), book)?;
    Ok(Some(News::Begun {
        book,
        mode: settings.mode,
    }))
}

// What the server says of the store before it listens, if anything. Nothing is written.
fn news_of<D: Disk>(
    rt: &HostRuntime,
    settings: &Settings,
    book: &str,
    blobs: &str,
    disk: &mut D,
) -> Result<Option<News>, Memory> {
    if !is_of_first_format(rt, book) {
        return begun_by(rt, settings, book, blobs);
    }
    match is_to_be_carried_over(rt.alloc(), disk) {
        Ok(true) => {
            let book = String::from_str(rt.alloc(), book)?;
            Ok(Some(News::Older { book }))
        }
        _ => Ok(None),
    }
}

// The disk over these files, none of which is the settings file at this path, which has a key. It
// knows by the flag whether the server listens.
fn disk_over(
    rt: &HostRuntime,
    path: &str,
    book: &str,
    blobs: &str,
    listens: Arc<AtomicBool, Global>,
) -> Result<SpokenDisk<FileDisk<OwnFiles<HostRuntime>>, HostRuntime>, Memory> {
    let disk = FileDisk::new(OwnFiles::beside(*rt, path), book, blobs)?;
    let name = String::from_str(rt.alloc(), book)?;
    Ok(SpokenDisk::new(disk, name, *rt, listens))
}

// A flag that isn't set yet, twice.
fn flags(alloc: Global) -> Result<(Arc<AtomicBool, Global>, Arc<AtomicBool, Global>), Memory> {
    let Ok(one) = Arc::new(alloc, AtomicBool::new(false)) else {
        return Err(Memory);
    };
    match Arc::try_clone(&one) {
        Ok(two) => Ok((one, two)),
        Err(_) => Err(Memory),
    }
}

// Serves by these settings, which are those of this file, or has no memory to begin. The net is the
// runtime with the leave to open sockets, to start threads and to wait, which it has in `main` alone.
fn try_serve<N: Net + Threads + Wait + AllocGlobal + Copy + Send + Drop + 'static>(
    net: &N,
    rt: &HostRuntime,
    path: &str,
    settings: &Settings,
    logs: bool,
) -> Result<u8, Memory>
where
    N::Stream: Send + 'static,
    requires { (1 ≤ settings.now.workers) × (settings.now.workers ≤ 65536) }
{
    let book = text_of(settings.book.as_slice());
    let blobs = text_of(settings.blobs.as_slice());
    let address = text_of(settings.address.as_slice());
    let (listens, known) = flags(rt.alloc())?;
    let mut disk = disk_over(rt, path, book, blobs, known)?;
    let door = TcpDoor::new(*net, address, SILENCE_SECONDS)?;
    let news = news_of(rt, settings, book, blobs, &mut disk)?;
    let mut door = SpokenDoor::new(door, *rt, listens, logs, news);
    let mut spawner = Spawner::new(rt.alloc());
    let mut out = StdSink::new(Retrying::new(rt.stdout()));
    let status = host(
        net,
        rt.alloc(),
        settings,
        disk,
        &mut door,
        &mut spawner,
        OpenGate,
        &mut out,
    )
    .status;
    told::end(rt, status, path, book, blobs);
    told::door(rt, status, address, door.has_listened(), door.door.reason());
    Ok(status)
}

// Serves by these settings, which are those of this file.
fn serve<N: Net + Threads + Wait + AllocGlobal + Copy + Send + Drop + 'static>(
    net: &N,
    rt: &HostRuntime,
    path: &str,
    settings: &Settings,
    logs: bool,
) -> u8
where
    N::Stream: Send + 'static,
    requires { (1 ≤ settings.now.workers) × (settings.now.workers ≤ 65536) }
{
    match try_serve(net, rt, path, settings, logs) {
        Ok(status) => status,
        Err(Memory) => print(rt, NO_MEMORY, out_of_memory(rt)),
    }
}

// The settings that the source has left, by words that are one word. Their workers are as many as a
// server may have.
fn settings_from<K: Source>(
    rt: &HostRuntime,
    words: &[String],
    source: &mut K,
) -> Result<Settings, u8>
    ensures { IfOk result (λ s. (1 ≤ s.workers) × (s.workers ≤ 65536)) }
{
    read_settings(rt.alloc(), words, source)
}

// Reads the settings in this file, which the words name where they are one word, and serves by
// them.
fn serve_by<N: Net + Threads + Wait + AllocGlobal + Copy + Send + Drop + 'static>(
    net: &N,
    rt: &HostRuntime,
    words: &[String],
    path: &str,
    logs: bool,
) -> u8
where
    N::Stream: Send + 'static,
{
    let Ok(mut source) = FileSource::new(*rt, path) else {
        return out_of_memory(rt);
    };
    match settings_from(rt, words, &mut source) {
        Ok(settings) => {
            told::open_settings(rt, path);
            told::other_keys(rt, path);
            serve(net, rt, path, &settings, logs)
        }
        Err(status) => {
            told::no_settings(rt, path, status);
            if status == USAGE {
                print(rt, NO_SETTINGS, status)
            } else {
                status
            }
        }
    }
}

// Does what the words ask for.
fn answer_words<N: Net + Threads + Wait + AllocGlobal + Copy + Send + Drop + 'static>(
    net: &N,
    rt: &HostRuntime,
    words: &[String],
) -> u8
where
    N::Stream: Send + 'static,
{
    match words {
        [word] if word.as_str() == LOG => serve_by(net, rt, &[], "", true),
        [word] => match told_by(word.as_str()) {
            Some(text) => print(rt, text, 0),
            None => serve_by(net, rt, words, word.as_str(), false),
        },
        [log, rest @ ..] if log.as_str() == LOG => match rest {
            [word] => serve_by(net, rt, rest, word.as_str(), true),
            _ => serve_by(net, rt, words, "", true),
        },
        _ => serve_by(net, rt, words, "", false),
    }
}

fn main(rt: HostRuntime) -> ExitCode {
    let Ok(_held) = hold_places(&rt) else {
        told::no_places(&rt);
        return ExitCode::from(WRITE_FAULT);
    };
    let status = match words_of(&rt) {
        Ok(words) => answer_words(&rt, &rt, &words),
        Err(error) if error.kind() == ErrorKind::OutOfMemory => out_of_memory(&rt),
        // A word that is no UTF-8 names no settings file.
        Err(_) => answer_words(&rt, &rt, &[]),
    };
    ExitCode::from(status)
}
