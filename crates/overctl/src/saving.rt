//! Jobs whose result is to be a file.
ghost use Rattle.ov_acts.specs.Files.{HasListLimits};

use crate::draft::{Draft, Unfit, unfit_of};
use crate::options::Options;
use crate::real::{Outcome, do_job, end_job, out_of_memory, text_of};
use crate::usage::say;
use ov_acts::{Act, Job, Status};
use ov_base::Memory;
use ov_io::{Fault, Sink, StdSink};
use ov_retry::Retrying;
use std::fmt;
use std::fmt::{Display, Formatter, Write};
use std::io::ErrorKind;

// That a file can't be written, and why.
#[derive(Clone, Copy)]
enum Unwritten<'a> {
    // No result can be put in its place.
    Unfit(&'a str, Unfit),
    // The system refused a call.
    Failed(&'a str, Option<ErrorKind>),
}

impl Display for Unwritten<'_> {
    fn fmt<W: Write>(&self, f: &mut Formatter<W>) -> fmt::Result {
        match self {
            Unwritten::Unfit(path, Unfit::NoFile) => {
                write!(f, "cannot write {path}: it is no regular file")
            }
            Unwritten::Unfit(path, Unfit::Keys) => {
                write!(f, "cannot write {path}: it has the keys of this command")
            }
            Unwritten::Failed(path, Some(ErrorKind::NotFound)) => {
                write!(f, "cannot write {path}: no such folder")
            }
            Unwritten::Failed(path, Some(reason)) => write!(f, "cannot write {path}: {reason}"),
            Unwritten::Failed(path, None) => write!(f, "cannot write {path}"),
        }
    }
}

// What to do where no result can be put in the place of a file.
const OTHER_PATH: &str = "take another path behind `-o`";

// What to do where a call failed.
const ROOM: &str = "see that you may write in its folder, and that there is room: it is as it was";

// Says that a file wasn't written, and gives the status.
fn say_unwritten(rt: &HostRuntime, unwritten: Unwritten<'_>) -> u8 {
    match unwritten {
        Unwritten::Unfit(_, _) => say(rt, &unwritten, &OTHER_PATH),
        Unwritten::Failed(_, _) => say(rt, &unwritten, &ROOM),
    }
    Status::WriteFault.code()
}

// Puts the line of a refusal, which the draft has, to standard output: the status then.
fn put_refusal(rt: &HostRuntime, draft: &Draft) -> u8 {
    let mut out = StdSink::new(Retrying::new(rt.stdout()));
    match out.put(draft.kept()) {
        Ok(()) => Status::Refused.code(),
        Err(Fault) => Status::WriteFault.code(),
    }
}

// Does the job, with its result put to a draft.
fn drafted(rt: &HostRuntime, job: &Job, options: &Options<'_>, draft: &mut Draft) -> Outcome
    requires list { HasListLimits job.now.act }
{
    match do_job(rt, job, options, draft) {
        Ok(outcome) => outcome,
        Err(Memory) => out_of_memory(),
    }
}

// Puts the result in the place of its file, and gives the status.
fn settle(rt: &HostRuntime, path: &str, draft: &mut Draft) -> u8 {
    match draft.settle() {
        Ok(()) => Status::Done.code(),
        Err(Fault) => say_unwritten(rt, Unwritten::Failed(path, draft.reason())),
    }
}

// Does the job, and puts its result in the place of the file, where it has one.
fn save(rt: &HostRuntime, job: &Job, options: &Options<'_>, path: &str, draft: &mut Draft) -> u8
    requires list { HasListLimits job.now.act }
{
    let mut outcome = drafted(rt, job, options, draft);
    match Status::from_code(outcome.code) {
        Some(Status::Done) => return settle(rt, path, draft),
        Some(Status::WriteFault) => {
            draft.discard();
            return say_unwritten(rt, Unwritten::Failed(path, draft.reason()));
        }
        Some(Status::Refused) => outcome.code = put_refusal(rt, draft),
        _ => {}
    }
    draft.discard();
    end_job(rt, job, options, &outcome)
}

/// Does the job with its result in a file: the file is there, or replaced, only at status 0, and as
/// a whole. A refusal is put to standard output. Gives the status.
pub fn run_saving(rt: &HostRuntime, job: &Job, options: &Options<'_>, path: &str) -> u8
    requires list { HasListLimits job.now.act }
{
    match unfit_of(rt, path, text_of(&job.keys)) {
        Some(unfit) => return say_unwritten(rt, Unwritten::Unfit(path, unfit)),
        None => {}
    }
    let is_private = matches!(&job.act, Act::Key { user: _ });
    match Draft::new(*rt, path, is_private) {
        Ok(draft) => {
            let mut draft = draft;
            save(rt, job, options, path, &mut draft)
        }
        Err(Memory) => end_job(rt, job, options, &out_of_memory()),
    }
}
