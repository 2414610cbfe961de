//! The real files and the real stream.
ghost use Rattle.ov_acts.specs.Files.{HasListLimits};

use crate::ahead::AheadPeer;
use crate::asks::{Asks, asks_of, file_of, stores};
use crate::consent::{AGREE, NOT_AGREED, NOT_AGREED_STATUS, goes_on, loss_of};
use crate::ending::{Ending, Hint};
use crate::heard::Heard;
use crate::leaked::{WatchedLink, is_base};
use crate::options::Options;
use crate::patience::PatientNet;
use crate::question::{Asked, stop_of, user_of};
use crate::saving::run_saving;
use crate::unknown::say_unknown;
use crate::usage::say;
use ov_acts::{Act, Job, Status, Stop, act, finish};
use ov_base::{Memory, Octets, Refusal};
use ov_files::is_open_to_others;
use ov_io::{FileSource, Sink, Source, StdSink, StdSource};
use ov_listing::answer;
use ov_peer::FixedPeer;
use ov_retry::{Retrying, read_retrying};
use ov_session::{NetPeer, TcpLink};
use std::fs;
use std::fs::File;
use std::io::ErrorKind;
use std::net::ToSocketAddrs;

/// The path that stands for standard input.
pub const STANDARD_INPUT: &str = "-";

/// What texts call standard input.
pub const INPUT_NAME: &str = "standard input";

/// The text of a word.
pub fn text_of(word: &Octets) -> &str {
    std::str::from_utf8(word.as_slice()).unwrap_or("")
}

/// Says so where others may read a file of keys.
pub fn warn_of_mode(rt: &HostRuntime, path: &str) {
    if is_open_to_others(rt, path) {
        let _ = eprintln!(rt; "overctl: warning: {path} can be read by others");
        let _ = eprintln!(rt; "overctl: hint: keep it to yourself by `chmod 600 {path}`");
    }
}

// Why the first read of this file fails, if it does.
fn read_fault(rt: &HostRuntime, path: &str) -> Option<ErrorKind> {
    let mut one = [0; 1];
    match File::open(rt, path) {
        Ok(mut file) => match read_retrying(&mut file, &mut one) {
            Ok(_) => None,
            Err(error) => Some(error.kind()),
        },
        Err(error) => Some(error.kind()),
    }
}

/// Why this file can't be read, if so. A pipe isn't opened again, since that may wait.
pub fn fault_of(rt: &HostRuntime, path: &str) -> Option<ErrorKind> {
    match fs::metadata(rt, path) {
        Ok(about) => {
            if about.is_file() || about.is_dir() {
                read_fault(rt, path)
            } else {
                None
            }
        }
        Err(error) => Some(error.kind()),
    }
}

// Which file of a job can't be read, and why.
fn unread_of<'a>(rt: &HostRuntime, job: &'a Job) -> (&'a str, Option<ErrorKind>) {
    let (keys, path) = (text_of(&job.keys), text_of(&job.path));
    match fault_of(rt, keys) {
        None if stores(&job.act) && path == STANDARD_INPUT => (INPUT_NAME, None),
        None if stores(&job.act) => (path, fault_of(rt, path)),
        reason => (keys, reason),
    }
}

// What texts call the file that a job stores.
fn path_of(job: &Job) -> &str {
    match text_of(&job.path) {
        STANDARD_INPUT => INPUT_NAME,
        path => path,
    }
}

/// Why a stream failed. A host that isn't found has no kind of its own, so its name is looked up
/// again.
pub fn link_fault(rt: &HostRuntime, address: &str, reason: Option<ErrorKind>) -> Option<ErrorKind> {
    match reason {
        Some(ErrorKind::Uncategorized) => match address.to_socket_addrs(rt) {
            Ok(_addresses) => reason,
            Err(_) => Some(ErrorKind::NotFound),
        },
        _ => reason,
    }
}

/// What a job came to: its status, why the stream failed where it did, which refusal was put, and
/// whether the server shows the base master.
#[derive(Drop)]
pub struct Outcome {
    pub code: u8,
    pub link: Option<ErrorKind>,
    pub refusal: Option<Refusal>,
    pub leaked: bool,
}

// How a job ended.
fn ending_of<'a>(
    rt: &HostRuntime,
    job: &'a Job,
    options: &Options<'_>,
    status: Status,
    outcome: &Outcome,
) -> Ending<'a> {
    let address = text_of(&job.address);
    let (path, reason) = match status {
        Status::ReadFault => unread_of(rt, job),
        _ => (path_of(job), link_fault(rt, address, outcome.link)),
    };
    Ending {
        status,
        asks: asks_of(&job.act),
        address,
        keys: text_of(&job.keys),
        name: file_of(&job.act),
        path,
        reason,
        timeout: options.timeout,
        refusal: outcome.refusal,
        leaked: outcome.leaked,
    }
}

// Says on standard error what went wrong and what to do.
fn explain(rt: &HostRuntime, end: &Ending<'_>) {
    if end.status == Status::Done {
        return;
    }
    say(rt, end, &Hint(end));
}

// Whether what the server shows for its check value is the base master of the job.
fn shows_base(rt: &HostRuntime, shown: Option<&[u8]>, job: &Job) -> bool {
    match shown {
        Some(shown) => is_base(rt, shown, text_of(&job.keys)),
        None => false,
    }
}

// Whether the server refuses a job since a user who is named isn't enrolled.
fn lacks_user<O: Sink>(code: u8, out: &Heard<O>) -> bool {
    code == Status::Refused.code() && out.refusal() == Some(Refusal::NoUser)
}

// Does the job over the real stream, with the bytes to be stored from this source, and its result
// put to this sink.
fn do_with<B: Source, O: Sink>(
    rt: &HostRuntime,
    job: &Job,
    options: &Options<'_>,
    body: &mut B,
    out: &mut O,
) -> Result<Outcome, Memory>
    requires list { HasListLimits job.now.act }
{
    let alloc = rt.alloc();
    let mut keys = FileSource::new(*rt, text_of(&job.keys))?;
    let mut out = Heard::new(out);
    let (code, link, leaked) = if matches!(&job.act, Act::Check) {
        let mut peer = FixedPeer::new(Vec::new(alloc), Octets::new(alloc));
        let code = act(alloc, job, &mut keys, body, &mut out, &mut peer);
        (code, None, false)
    } else {
        let net = PatientNet::new(*rt, options.timeout);
        let link = TcpLink::new(net, text_of(&job.address))?;
        let mut peer = NetPeer::new(WatchedLink::new(link))?;
        let code = act(alloc, job, &mut keys, body, &mut out, &mut peer);
        if lacks_user(code, &out) {
            say_unknown(rt, &job.act, &mut peer);
        }
        let link = peer.link();
        let leaked = code == Status::OtherKeys.code() && shows_base(rt, link.shown(), job);
        (code, link.link.reason(), leaked)
    };
    Ok(Outcome {
        code,
        link,
        refusal: out.refusal(),
        leaked,
    })
}

/// Does the job over the real files and the real stream, with its result put to this sink.
pub fn do_job<O: Sink>(
    rt: &HostRuntime,
    job: &Job,
    options: &Options<'_>,
    out: &mut O,
) -> Result<Outcome, Memory>
    requires list { HasListLimits job.now.act }
{
    match text_of(&job.path) {
        STANDARD_INPUT => {
            let mut body = StdSource::new(Retrying::new(rt.stdin()));
            do_with(rt, job, options, &mut body, out)
        }
        path => do_with(rt, job, options, &mut FileSource::new(*rt, path)?, out),
    }
}

/// Where memory was refused to the program itself.
pub fn out_of_memory() -> Outcome {
    Outcome {
        code: Status::OutOfMemory.code(),
        link: None,
        refusal: None,
        leaked: false,
    }
}

/// Says what went wrong with a job that came to this, and gives the status.
pub fn end_job(rt: &HostRuntime, job: &Job, options: &Options<'_>, outcome: &Outcome) -> u8 {
    match Status::from_code(outcome.code) {
        Some(status) => explain(rt, &ending_of(rt, job, options, status, outcome)),
        None => {}
    }
    outcome.code
}

/// Says that the answer to a question wasn't yes, and gives the status.
pub fn say_not_agreed(rt: &HostRuntime) -> u8 {
    say(rt, &NOT_AGREED, &AGREE);
    NOT_AGREED_STATUS.code()
}

// Does the job, with its result on standard output.
fn run_putting(rt: &HostRuntime, job: &Job, options: &Options<'_>) -> u8
    requires list { HasListLimits job.now.act }
{
    let mut out = StdSink::new(Retrying::new(rt.stdout()));
    let outcome = match do_job(rt, job, options, &mut out) {
        Ok(outcome) => outcome,
        Err(Memory) => out_of_memory(),
    };
    end_job(rt, job, options, &outcome)
}

/// Does the job, says what went wrong, and gives the status.
pub fn run_job(rt: &HostRuntime, job: &Job, options: &Options<'_>) -> u8
    requires list { HasListLimits job.now.act }
{
    warn_of_mode(rt, text_of(&job.keys));
    if !goes_on(rt, loss_of(rt, job), options.is_sure) {
        return say_not_agreed(rt);
    }
    match options.output {
        None => run_putting(rt, job, options),
        Some(path) => run_saving(rt, job, options, path),
    }
}

// Asks over the real stream, and prints the answer.
fn do_ask(rt: &HostRuntime, asked: &Asked<'_>, options: &Options<'_>) -> Result<Outcome, Memory> {
    let alloc = rt.alloc();
    let mut out = Heard::new(StdSink::new(Retrying::new(rt.stdout())));
    let net = PatientNet::new(*rt, options.timeout);
    let mut peer = AheadPeer::new(alloc, TcpLink::new(net, asked.address)?)?;
    let found = match answer(alloc, &mut peer, &asked.question) {
        Ok(Some(text)) => Ok(text),
        Ok(None) => Err(Stop::Refused(Refusal::NoUser)),
        Err(fault) => Err(stop_of(fault)),
    };
    Ok(Outcome {
        code: finish(alloc, found, &mut out),
        link: peer.link().reason(),
        refusal: out.refusal(),
        leaked: false,
    })
}

/// Asks, says what went wrong, and gives the status.
pub fn run_ask(rt: &HostRuntime, asked: &Asked<'_>, options: &Options<'_>) -> u8 {
    let outcome = match do_ask(rt, asked, options) {
        Ok(outcome) => outcome,
        Err(Memory) => out_of_memory(),
    };
    match Status::from_code(outcome.code) {
        Some(status) => explain(
            rt,
            &Ending {
                status,
                asks: Asks::Names,
                address: asked.address,
                keys: "",
                name: user_of(&asked.question),
                path: "",
                reason: link_fault(rt, asked.address, outcome.link),
                timeout: options.timeout,
                refusal: outcome.refusal,
                leaked: false,
            },
        ),
        None => {}
    }
    outcome.code
}
