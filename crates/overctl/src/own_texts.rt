//! What is said on standard error of how a command by the owner's book ended.

use crate::ending::say_late;
use crate::refusals::step_for;
use crate::texts::{UNWRITTEN, WRITABLE};
use ov_owning::OwnStop;
use std::fmt;
use std::fmt::{Display, Formatter, Write};
use std::io::ErrorKind;

/// How a command by the book ended, with what its words name, and the ending of the book's file that
/// another process has, where one does. Its text is what went wrong.
#[derive(Clone, Copy)]
pub struct OwnEnding<'a> {
    pub end: Result<u32, OwnStop>,
    pub code: u8,
    pub address: &'a str,
    pub keys: &'a str,
    pub book: &'a str,
    pub path: &'a str,
    pub reason: Option<ErrorKind>,
    pub timeout: Option<u32>,
    pub in_use: Option<&'a str>,
}

// What went wrong where the command has no new epoch.
fn say_stop<W: Write>(end: &OwnEnding<'_>, stop: OwnStop, f: &mut Formatter<W>) -> fmt::Result {
    let (address, keys, book, path) = (end.address, end.keys, end.book, end.path);
    match stop {
        OwnStop::Refused(why) => {
            let (number, word) = (why.number(), why.word());
            write!(f, "the book {book} refuses the command: {number} {word}")
        }
        OwnStop::ServerRefused(why) => {
            let (number, word) = (why.number(), why.word());
            write!(f, "{address} refuses what the book allows: {number} {word}")
        }
        OwnStop::Device => write!(f, "the disk of the store at {address} failed"),
        OwnStop::Read => match end.reason {
            Some(ErrorKind::NotFound) => write!(f, "cannot read {path}: no such file"),
            Some(reason) => write!(f, "cannot read {path}: {reason}"),
            None => write!(f, "cannot read {path}"),
        },
        OwnStop::Memory => write!(f, "out of memory, here or at {address}"),
        OwnStop::Link => match end.reason {
            Some(ErrorKind::WouldBlock) => say_late(address, end.timeout, f),
            Some(reason) => write!(f, "cannot reach {address}: {reason}"),
            None => write!(
                f,
                "no reply from {address}: what came is cut off, or no frame"
            ),
        },
        OwnStop::OtherKeys => write!(
            f,
            "the book {book} or the store at {address} has other masters than {keys}, or another mode"
        ),
        OwnStop::BadKeys => write!(f, "{keys} is no key file"),
        OwnStop::BadReply => write!(f, "what {address} replied is no answer to the request"),
        OwnStop::TooLong => write!(f, "{path} has more than 16777216 bytes"),
        OwnStop::Pending { kept } => {
            write!(
                f,
                "an earlier command is pending in the book {book}, at epoch {kept}"
            )
        }
        OwnStop::Differs { told, kept } => write!(
            f,
            "the store at {address} is at epoch {told}, and the book {book} at {kept}"
        ),
        OwnStop::Disk => match end.in_use {
            Some(ending) => write!(f, "{book}{ending} is in use by another process"),
            None => write!(f, "{book}.book or {book}.blobs cannot be used"),
        },
        OwnStop::NoBook => write!(f, "{book}.book is no book, or is damaged"),
    }
}

impl Display for OwnEnding<'_> {
    fn fmt<W: Write>(&self, f: &mut Formatter<W>) -> fmt::Result {
        match self.end {
            Err(stop) if self.code == stop.code() => say_stop(self, stop, f),
            _ => f.write_str(UNWRITTEN),
        }
    }
}

// What to do where the command may be pending, and may have been made.
const RESUME: &str = "then run it with `resume` in place of the command: it may be pending";

const ONE_HISTORY: &str = concat!(
    "the store has to have this book's updates and no others: see that the address is right, and that ",
    "neither the store nor the book is an older copy"
);

/// What to do about how a command by the book ended.
#[derive(Clone, Copy)]
pub struct OwnHint<'a>(pub &'a OwnEnding<'a>);

// What to do where the command has no new epoch.
fn say_step<W: Write>(end: &OwnEnding<'_>, stop: OwnStop, f: &mut Formatter<W>) -> fmt::Result {
    match stop {
        OwnStop::Refused(why) => f.write_str(step_for(why)),
        OwnStop::ServerRefused(_) | OwnStop::Differs { told: _, kept: _ } => {
            f.write_str(ONE_HISTORY)
        }
        OwnStop::Device => write!(f, "have the server started again, {RESUME}"),
        OwnStop::Read => f.write_str("see that it is a file that you may read"),
        OwnStop::Memory => write!(f, "free some, {RESUME}"),
        OwnStop::Link => write!(f, "start the server, or correct the address, {RESUME}"),
        OwnStop::OtherKeys => f.write_str(
            "take the key file and the mode that they were begun with",
        ),
        OwnStop::BadKeys => f.write_str("it has two different lines of 64 hexadecimal digits"),
        OwnStop::BadReply => write!(f, "see that overstored listens there, {RESUME}"),
        OwnStop::TooLong => f.write_str("store it as several files"),
        OwnStop::Pending { kept: _ } => {
            f.write_str("carry it out first: `resume` in place of the command")
        }
        OwnStop::Disk => write!(
            f,
            "see that there is room, that you may write both, that no other program has them, {RESUME}"
        ),
        OwnStop::NoBook => {
            let book = end.book;
            write!(
                f,
                "restore {book}.book and {book}.blobs from a copy, or take another path for a new book"
            )
        }
    }
}

impl Display for OwnHint<'_> {
    fn fmt<W: Write>(&self, f: &mut Formatter<W>) -> fmt::Result {
        let end = self.0;
        match end.end {
            Err(stop) if end.code == stop.code() => say_step(end, stop, f),
            Ok(_) => f.write_str("the command was done: standard output lacks its line"),
            Err(_) => f.write_str(WRITABLE),
        }
    }
}
