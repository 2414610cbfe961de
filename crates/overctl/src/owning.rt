//! Commands by the owner's book, over the real files and the real stream.

use crate::consent::{goes_on, loss_of_own};
use crate::options::Options;
use crate::own_texts::{OwnEnding, OwnHint};
use crate::patience::PatientNet;
use crate::real::{
    INPUT_NAME, STANDARD_INPUT, fault_of, link_fault, say_not_agreed, text_of, warn_of_mode,
};
use crate::texts::{FREE_SOME, OUT_OF_MEMORY};
use crate::usage::say;
use ov_base::Memory;
use ov_disk::FileDisk;
use ov_files::{FileFault, OwnFiles};
use ov_io::{FileSource, Source, StdSink, StdSource};
use ov_owning::{OwnAct, OwnJob, OwnStop, own};
use ov_retry::Retrying;
use ov_session::{NetPeer, TcpLink};
use std::io::ErrorKind;

/// How a command by the book ended: why it has no new epoch, if so, its status, and why the stream
/// failed where it did.
#[derive(Drop)]
struct Outcome {
    end: Result<u32, OwnStop>,
    code: u8,
    link: Option<ErrorKind>,
}

// What the texts need of a job's words, which the job takes along.
#[derive(Drop)]
struct Words {
    address: String,
    keys: String,
    book: String,
    path: String,
    stores: bool,
    timeout: Option<u32>,
}

fn words_of(rt: &HostRuntime, job: &OwnJob, options: &Options<'_>) -> Result<Words, Memory> {
    let alloc = rt.alloc();
    Ok(Words {
        address: String::from_str(alloc, text_of(&job.address))?,
        keys: String::from_str(alloc, text_of(&job.keys))?,
        book: String::from_str(alloc, text_of(&job.book))?,
        path: String::from_str(alloc, text_of(&job.path))?,
        stores: matches!(
            &job.act,
            OwnAct::Create { file: _, list: _ } | OwnAct::Replace { file: _ }
        ),
        timeout: options.timeout,
    })
}

// Does the job over the real stream and the book's files, with the bytes to be stored from this
// source.
fn do_with<B: Source>(
    rt: &HostRuntime,
    job: OwnJob,
    words: &Words,
    body: &mut B,
) -> Result<Outcome, Memory> {
    let alloc = rt.alloc();
    let mut keys = FileSource::new(*rt, words.keys.as_str())?;
    let mut out = StdSink::new(Retrying::new(rt.stdout()));
    let book = format!(in alloc; "{}.book", words.book)?;
    let blobs = format!(in alloc; "{}.blobs", words.book)?;
    let own_files = OwnFiles::beside(*rt, words.keys.as_str());
    let disk = FileDisk::new(own_files, book.as_str(), blobs.as_str())?;
    let net = PatientNet::new(*rt, words.timeout);
    let mut peer = NetPeer::new(TcpLink::new(net, words.address.as_str())?)?;
    let owned = own(alloc, job, &mut keys, body, &mut out, &mut peer, disk);
    Ok(Outcome {
        end: owned.end,
        code: owned.code,
        link: peer.link().reason(),
    })
}

// Does the job over the real files and the real stream.
fn do_job(rt: &HostRuntime, job: OwnJob, words: &Words) -> Result<Outcome, Memory> {
    match words.path.as_str() {
        STANDARD_INPUT => {
            let mut body = StdSource::new(Retrying::new(rt.stdin()));
            do_with(rt, job, words, &mut body)
        }
        path => {
            let mut body = FileSource::new(*rt, path)?;
            do_with(rt, job, words, &mut body)
        }
    }
}

// What a text calls the file that can't be read, and why it can't.
fn unread_of<'a>(rt: &HostRuntime, words: &'a Words) -> (&'a str, Option<ErrorKind>) {
    let path = words.path.as_str();
    match fault_of(rt, words.keys.as_str()) {
        None if words.stores && path == STANDARD_INPUT => (INPUT_NAME, None),
        None if words.stores => (path, fault_of(rt, path)),
        reason => (words.keys.as_str(), reason),
    }
}

// The ending of the file of the book that another process has, where one does.
fn in_use(rt: &HostRuntime, words: &Words) -> Option<&'static str> {
    for ending in [".book", ".blobs"] {
        let path = format!(in rt.alloc(); "{}{ending}", words.book).ok()?;
        if ov_files::fault_of(rt, path.as_str(), &[]) == Some(FileFault::InUse) {
            return Some(ending);
        }
    }
    None
}

// Says what went wrong, and what to do.
fn explain(rt: &HostRuntime, words: &Words, outcome: &Outcome) {
    let (path, reason) = match outcome.end {
        Err(OwnStop::Read) => unread_of(rt, words),
        _ => {
            let reason = link_fault(rt, words.address.as_str(), outcome.link);
            (words.path.as_str(), reason)
        }
    };
    let ending = OwnEnding {
        end: outcome.end,
        code: outcome.code,
        address: words.address.as_str(),
        keys: words.keys.as_str(),
        book: words.book.as_str(),
        path,
        reason,
        timeout: words.timeout,
        in_use: match outcome.end {
            Err(OwnStop::Disk) => in_use(rt, words),
            _ => None,
        },
    };
    say(rt, &ending, &OwnHint(&ending));
}

/// Does the job by the owner's book, says what went wrong, and gives the status.
pub fn run_own(rt: &HostRuntime, job: OwnJob, options: &Options<'_>) -> u8 {
    warn_of_mode(rt, text_of(&job.keys));
    if !goes_on(rt, loss_of_own(rt, &job), options.is_sure) {
        return say_not_agreed(rt);
    }
    let Ok(words) = words_of(rt, &job, options) else {
        say(rt, &OUT_OF_MEMORY, &FREE_SOME);
        return OwnStop::Memory.code();
    };
    let outcome = match do_job(rt, job, &words) {
        Ok(outcome) => outcome,
        Err(Memory) => Outcome {
            end: Err(OwnStop::Memory),
            code: OwnStop::Memory.code(),
            link: None,
        },
    };
    if outcome.code != 0 {
        explain(rt, &words, &outcome);
    }
    outcome.code
}
