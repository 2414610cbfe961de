//! What is said on standard error of how a job ended: what went wrong, and what to do.

use crate::asks::Asks;
use crate::refusals::step_for;
use crate::script_texts;
use crate::texts::{OUT_OF_MEMORY, UNWRITTEN, WRITABLE};
use ov_acts::Status;
use ov_base::Refusal;
use std::fmt;
use std::fmt::{Display, Formatter, Write};
use std::io::ErrorKind;

/// How a job ended, with what its words name: `name` is a file's, or a user's where names are asked
/// for. Its text is what went wrong.
#[derive(Clone, Copy)]
pub struct Ending<'a> {
    pub status: Status,
    pub asks: Asks,
    pub address: &'a str,
    pub keys: &'a str,
    pub name: &'a str,
    pub path: &'a str,
    pub reason: Option<ErrorKind>,
    pub timeout: Option<u32>,
    pub refusal: Option<Refusal>,
    pub leaked: bool,
}

// Says that a file isn't read.
fn say_unread<W: Write>(end: &Ending<'_>, f: &mut Formatter<W>) -> fmt::Result {
    let path = end.path;
    match end.reason {
        Some(ErrorKind::NotFound) => write!(f, "cannot read {path}: no such file"),
        Some(reason) => write!(f, "cannot read {path}: {reason}"),
        None => write!(f, "cannot read {path}"),
    }
}

// Says that a server isn't reached, or doesn't reply.
fn say_unreached<W: Write>(end: &Ending<'_>, f: &mut Formatter<W>) -> fmt::Result {
    let address = end.address;
    match end.reason {
        Some(ErrorKind::InvalidInput) => write!(f, "{address} is no address"),
        Some(ErrorKind::NotFound) => write!(f, "cannot reach {address}: no such host"),
        Some(ErrorKind::WouldBlock) => say_late(address, end.timeout, f),
        Some(reason) => write!(f, "cannot reach {address}: {reason}"),
        None => write!(
            f,
            "no reply from {address}: what came is cut off, or no frame"
        ),
    }
}

/// Says that a server that was reached is waited for no longer.
pub fn say_late<W: Write>(
    address: &str,
    timeout: Option<u32>,
    f: &mut Formatter<W>,
) -> fmt::Result {
    match timeout {
        Some(seconds) => write!(f, "no reply from {address} for {seconds} s"),
        None => write!(f, "no reply from {address}"),
    }
}

// Says that a command is refused, and why.
fn say_refused<W: Write>(end: &Ending<'_>, f: &mut Formatter<W>) -> fmt::Result {
    let (address, name) = (end.address, end.name);
    match end.refusal {
        Some(_) if end.asks == Asks::Names => {
            write!(f, "the store at {address} has no user {name}")
        }
        Some(refusal) => {
            let (number, word) = (refusal.number(), refusal.word());
            write!(f, "{address} refuses the command: {number} {word}")
        }
        None => write!(f, "{address} refuses the command"),
    }
}

impl Display for Ending<'_> {
    fn fmt<W: Write>(&self, f: &mut Formatter<W>) -> fmt::Result {
        let (address, keys, name) = (self.address, self.keys, self.name);
        match self.status {
            Status::Done | Status::Usage => f.write_str("nothing is wrong"),
            Status::Refused => say_refused(self, f),
            Status::Device => write!(f, "the disk of the store at {address} failed"),
            Status::ReadFault => say_unread(self, f),
            Status::WriteFault => f.write_str(UNWRITTEN),
            Status::OutOfMemory if self.asks == Asks::Nothing => f.write_str(OUT_OF_MEMORY),
            Status::OutOfMemory => write!(f, "out of memory, here or at {address}"),
            Status::LinkFault => say_unreached(self, f),
            Status::OtherKeys if self.leaked => {
                write!(
                    f,
                    "{address} has the base master where its check value should be"
                )
            }
            Status::OtherKeys => write!(f, "the store at {address} has other masters than {keys}"),
            Status::BadKeys if self.asks == Asks::Bytes => write!(f, "{keys} is no user key line"),
            Status::BadKeys => write!(f, "{keys} is no key file"),
            Status::BadReply => write!(f, "what {address} replied is no answer to the request"),
            Status::Damaged => write!(
                f,
                "the bytes of {name} at {address} are damaged, or {keys} is of another store"
            ),
            Status::Unsettled => write!(f, "others changed the store at {address} in nine tries"),
            Status::TooLong => write!(f, "{} has more than 16777216 bytes", self.path),
        }
    }
}

// What to do where the store is of other masters.
const KEYS_OF_SETTINGS: &str = concat!(
    "take the key file of its settings: ",
    "`base_check` is its `overctl check`, `surface` its second line"
);

// What to do where the server shows the base master.
const LEAKED: &str = "the server shows it to everyone: make new keys and a new store";

/// What to do about how a job ended.
#[derive(Clone, Copy)]
pub struct Hint<'a>(pub &'a Ending<'a>);

// What to do where a file was sent and what came of it isn't known. Where it wasn't made its number
// and its pad go to the next file for its list, so that has to be the same file.
const FILE_IN_DOUBT: &str = concat!(
    "it may be done: look with `overctl list`; if it isn't, ",
    "create it, with the same bytes, before any other file for its list"
);

// What to do where a file may have been sent and wasn't made.
const FILE_FIRST: &str = "; then create this file, before any other for its list";

// What to do where new bytes were sent and what came of it isn't known. Where the file wasn't
// replaced the number and the pad of its replacement go to the next file for its list; where it
// was, the same bytes again are one replacement more.
const REPLACEMENT_IN_DOUBT: &str = concat!(
    "it may be done: repeat it, with the same bytes, ",
    "before you send any other file for its list"
);

// What to do where new bytes may have been sent and the file wasn't replaced.
const REPLACEMENT_FIRST: &str =
    "; then repeat this, with the same bytes, before you send any other file for its list";

const REMOVAL_IN_DOUBT: &str = concat!(
    "it may be done: look with `overctl files` before you repeat it, ",
    "since another file may have the name"
);

// What to do where a command was sent and what came of it isn't known.
fn doubt_of(asks: Asks) -> &'static str {
    match asks {
        Asks::User => "it may be done: repeat it, and `refused 1 Taken` says that it was",
        Asks::File => FILE_IN_DOUBT,
        Asks::Replacement => REPLACEMENT_IN_DOUBT,
        Asks::List => "it may be done: look with `overctl list` before you repeat it",
        Asks::Removal => REMOVAL_IN_DOUBT,
        Asks::Script => script_texts::IN_DOUBT,
        Asks::Answer | Asks::Names | Asks::Bytes => "the store is as it was: try again",
        Asks::Nothing => "try again",
    }
}

// What to do where a server isn't reached, or doesn't reply.
fn say_hint_of_link<W: Write>(end: &Ending<'_>, f: &mut Formatter<W>) -> fmt::Result {
    let doubt = doubt_of(end.asks);
    match end.reason {
        Some(ErrorKind::ConnectionRefused) => {
            f.write_str("start the server, or correct the address")
        }
        Some(ErrorKind::NotFound) => f.write_str("correct the address"),
        Some(ErrorKind::InvalidInput) => {
            f.write_str("an address is HOST:PORT, as 127.0.0.1:7400")
        }
        Some(ErrorKind::WouldBlock) => write!(
            f,
            "it may be busy, or another program may listen there; if it is overstored, {doubt}"
        ),
        Some(ErrorKind::ConnectionReset) | None => write!(
            f,
            "another program may listen there: check the port; if it is overstored, {doubt}"
        ),
        Some(_) => write!(
            f,
            "check the address and the network; if it was reached, {doubt}"
        ),
    }
}

// What to do where a reply is no answer.
fn say_hint_of_reply<W: Write>(end: &Ending<'_>, f: &mut Formatter<W>) -> fmt::Result {
    f.write_str("see that overstored listens there, with the `--version` of overctl")?;
    match end.asks {
        Asks::User | Asks::File | Asks::Replacement | Asks::List | Asks::Removal | Asks::Script =>
            write!(f, "; if it does, {}", doubt_of(end.asks)),
        Asks::Bytes => write!(f, ", and that {} is of its store", end.keys),
        Asks::Answer | Asks::Names | Asks::Nothing => Ok(()),
    }
}

// What to do where the server's disk failed.
fn say_hint_of_disk<W: Write>(asks: Asks, f: &mut Formatter<W>) -> fmt::Result {
    let doubt = doubt_of(asks);
    match asks {
        Asks::User | Asks::File | Asks::Replacement | Asks::List | Asks::Removal | Asks::Script =>
            write!(f, "have the server started again; {doubt}"),
        Asks::Answer | Asks::Names | Asks::Bytes | Asks::Nothing => f.write_str(doubt),
    }
}

// What to do where standard output isn't written.
fn hint_of_output(asks: Asks) -> &'static str {
    match asks {
        Asks::User | Asks::File | Asks::Replacement | Asks::List | Asks::Removal | Asks::Script =>
            doubt_of(asks),
        Asks::Answer | Asks::Names | Asks::Bytes | Asks::Nothing => WRITABLE,
    }
}

// What to do where a command is refused.
fn hint_of_refusal(refusal: Option<Refusal>) -> &'static str {
    match refusal {
        Some(refusal) => step_for(refusal),
        None => "standard output says why, and DIAGNOSTICS of overctl(1) what to do",
    }
}

impl Display for Hint<'_> {
    fn fmt<W: Write>(&self, f: &mut Formatter<W>) -> fmt::Result {
        let end = self.0;
        match end.status {
            Status::Done => f.write_str("nothing is to be done"),
            Status::Usage => f.write_str("see `overctl --help`"),
            Status::Refused if end.asks == Asks::Names => {
                write!(
                    f,
                    "correct the name: `overctl users {}` prints them",
                    end.address
                )
            }
            Status::Refused => f.write_str(hint_of_refusal(end.refusal)),
            Status::Device => say_hint_of_disk(end.asks, f),
            Status::ReadFault => f.write_str("see that it is a file that you may read"),
            Status::WriteFault => f.write_str(hint_of_output(end.asks)),
            Status::OutOfMemory => f.write_str(doubt_of(end.asks)),
            Status::LinkFault => say_hint_of_link(end, f),
            Status::OtherKeys if end.leaked => f.write_str(LEAKED),
            Status::OtherKeys if end.asks == Asks::File => {
                write!(f, "{KEYS_OF_SETTINGS}{FILE_FIRST}")
            }
            Status::OtherKeys if end.asks == Asks::Replacement => {
                write!(f, "{KEYS_OF_SETTINGS}{REPLACEMENT_FIRST}")
            }
            Status::OtherKeys => f.write_str(KEYS_OF_SETTINGS),
            Status::BadKeys if end.asks == Asks::Bytes => {
                f.write_str("the owner prints one with `overctl key`")
            }
            Status::BadKeys => f.write_str("it has two different lines of 64 hexadecimal digits"),
            Status::BadReply => say_hint_of_reply(end, f),
            Status::Damaged if end.asks == Asks::Script => f.write_str(script_texts::DAMAGED),
            Status::Damaged => {
                f.write_str(
                    "read again; if it stays so, ask the owner for a key line of this store",
                )
            }
            Status::Unsettled if end.asks == Asks::File => {
                f.write_str("try again, before you create any other file for its list")
            }
            Status::Unsettled if end.asks == Asks::Replacement => {
                f.write_str("try again, before you send any other file for its list")
            }
            Status::Unsettled if end.asks == Asks::Script => {
                f.write_str(script_texts::FROM_THERE)
            }
            Status::Unsettled => f.write_str("try again"),
            Status::TooLong => f.write_str("store it as several files"),
        }
    }
}
