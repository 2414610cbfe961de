//! What is asked on a terminal before bytes are lost for good.

use crate::asks::text_of;
use crate::real::text_of as text_of_word;
use ov_acts::{Act, Job, Status};
use ov_owning::{OwnAct, OwnJob};
use std::fmt::{Display, Formatter, Write};
use std::io::{Input, IsTerminal};
use std::{fmt, fs};

/// What a command makes unreadable for good.
#[derive(Clone, Copy)]
pub enum Loss<'a> {
    /// A file of the store, which is removed.
    File {
        file: &'a str,
        address: &'a str,
    },
    /// The bytes of a file of the store, in whose place come those of an empty file at a path.
    Bytes {
        file: &'a str,
        address: &'a str,
        path: &'a str,
    },
}

impl Display for Loss<'_> {
    fn fmt<W: Write>(&self, f: &mut Formatter<W>) -> fmt::Result {
        match self {
            Loss::File { file, address } => {
                write!(
                    f,
                    "remove {file} from the store at {address} for all its readers?"
                )
            }
            Loss::Bytes {
                file,
                address,
                path,
            } => write!(
                f,
                "{path} is empty: replace {file} in the store at {address} by no bytes?"
            ),
        }
    }
}

// Whether there is a regular file at this path that has no bytes.
fn is_empty_file(rt: &HostRuntime, path: &str) -> bool {
    match fs::metadata(rt, path) {
        Ok(about) => about.is_file() && about.len() == 0,
        Err(_) => false,
    }
}

/// What the job makes unreadable for good, if anything.
pub fn loss_of<'a>(rt: &HostRuntime, job: &'a Job) -> Option<Loss<'a>> {
    let (address, path) = (text_of_word(&job.address), text_of_word(&job.path));
    match &job.act {
        Act::Remove { file } => Some(Loss::File {
            file: text_of(file),
            address,
        }),
        Act::Replace { file } if is_empty_file(rt, path) => Some(Loss::Bytes {
            file: text_of(file),
            address,
            path,
        }),
        _ => None,
    }
}

/// What the job by the owner's book makes unreadable for good, if anything.
pub fn loss_of_own<'a>(rt: &HostRuntime, job: &'a OwnJob) -> Option<Loss<'a>> {
    let (address, path) = (text_of_word(&job.address), text_of_word(&job.path));
    match &job.act {
        OwnAct::Remove { file } => Some(Loss::File {
            file: text_of(file),
            address,
        }),
        OwnAct::Replace { file } if is_empty_file(rt, path) => Some(Loss::Bytes {
            file: text_of(file),
            address,
            path,
        }),
        _ => None,
    }
}

// Whether the answer that is typed is a yes. The end of the input is none.
fn is_answered_yes(rt: &HostRuntime) -> bool {
    let mut line = String::new(rt.alloc());
    match rt.read_line(&mut line) {
        Ok(_) => matches!(line.as_str().trim(), "y" | "Y" | "yes" | "Yes" | "YES"),
        Err(_) => false,
    }
}

/// Whether a command with this loss goes on. It is asked on standard error, where that and standard
/// input are terminals.
pub fn goes_on(rt: &HostRuntime, loss: Option<Loss<'_>>, is_sure: bool) -> bool {
    let Some(loss) = loss else {
        return true;
    };
    if is_sure || !rt.stdin().is_terminal() || !rt.stderr().is_terminal() {
        return true;
    }
    let _ = eprint!(rt; "overctl: {loss} [y/N] ");
    is_answered_yes(rt)
}

/// What is wrong where the answer isn't a yes.
pub const NOT_AGREED: &str = "the answer isn't `y`, so nothing was sent";

/// What to do then.
pub const AGREE: &str = "answer `y`, or give `--yes`";

/// The status of a command that doesn't go on.
pub const NOT_AGREED_STATUS: Status = Status::Usage;
