//! A script of commands, over the real files and the real stream.

use crate::asks::Asks;
use crate::ending::{Ending, Hint};
use crate::help::Help;
use crate::leaked::{WatchedLink, is_base};
use crate::options::Options;
use crate::patience::PatientNet;
use crate::real::{INPUT_NAME, fault_of, link_fault, warn_of_mode};
use crate::script_texts::{BAD_LINE_HINT, BadItem, HELP, LONG, LONG_HINT, UNWRITTEN_HINT};
use crate::texts::{UNWRITTEN, WrongWords};
use crate::usage::{print_help, say, say_wrong};
use ov_acts::{Stop, has_option};
use ov_base::Memory;
use ov_io::{FileSource, StdSink, StdSource};
use ov_retry::Retrying;
use ov_scripting::{Ended, script};
use ov_session::{NetPeer, TcpLink};
use std::io::ErrorKind;

/// How a script ended, why the stream failed where it did, and whether the server shows the base
/// master.
#[derive(Clone, Copy)]
struct Outcome {
    ended: Ended,
    link: Option<ErrorKind>,
    leaked: bool,
}

// Whether what the server shows for its check value is the base master of this key file.
fn shows_base(rt: &HostRuntime, shown: Option<&[u8]>, keys: &str) -> bool {
    match shown {
        Some(shown) => is_base(rt, shown, keys),
        None => false,
    }
}

// Answers the script of standard input over the real stream.
fn answer(
    rt: &HostRuntime,
    address: &str,
    keys: &str,
    timeout: Option<u32>,
) -> Result<Outcome, Memory> {
    let mut masters = FileSource::new(*rt, keys)?;
    let mut input = StdSource::new(Retrying::new(rt.stdin()));
    let mut out = StdSink::new(Retrying::new(rt.stdout()));
    let link = TcpLink::new(PatientNet::new(*rt, timeout), address)?;
    let mut peer = NetPeer::new(WatchedLink::new(link))?;
    let ended = script(rt.alloc(), &mut masters, &mut input, &mut out, &mut peer);
    let link = peer.link();
    let leaked = ended == Ended::Stopped(Stop::OtherKeys) && shows_base(rt, link.shown(), keys);
    Ok(Outcome {
        ended,
        link: link.link.reason(),
        leaked,
    })
}

// What texts call the file that can't be read, and why it can't.
fn unread_of<'a>(rt: &HostRuntime, keys: &'a str) -> (&'a str, Option<ErrorKind>) {
    match fault_of(rt, keys) {
        None => (INPUT_NAME, None),
        reason => (keys, reason),
    }
}

// Says why the script stopped, and what to do.
fn say_stop(
    rt: &HostRuntime,
    address: &str,
    keys: &str,
    timeout: Option<u32>,
    outcome: Outcome,
    stop: Stop,
) {
    let (path, reason) = match stop {
        Stop::Read => unread_of(rt, keys),
        _ => ("", link_fault(rt, address, outcome.link)),
    };
    let ending = Ending {
        status: stop.status(),
        asks: Asks::Script,
        address,
        keys,
        name: "a file",
        path,
        reason,
        timeout,
        refusal: None,
        leaked: outcome.leaked,
    };
    say(rt, &ending, &Hint(&ending));
}

// Says on standard error how the script ended, and what to do.
fn explain(rt: &HostRuntime, address: &str, keys: &str, timeout: Option<u32>, outcome: Outcome) {
    match outcome.ended {
        Ended::Done(_) => {}
        Ended::BadLine(line) => say(rt, &BadItem(line), &BAD_LINE_HINT),
        Ended::Long => say(rt, &LONG, &LONG_HINT),
        Ended::Unwritten => say(rt, &UNWRITTEN, &UNWRITTEN_HINT),
        Ended::Stopped(stop) => say_stop(rt, address, keys, timeout, outcome, stop),
    }
}

// Answers the script, says what went wrong, and gives the status.
fn run(rt: &HostRuntime, address: &str, keys: &str, options: &Options<'_>) -> u8 {
    warn_of_mode(rt, keys);
    let outcome = match answer(rt, address, keys, options.timeout) {
        Ok(outcome) => outcome,
        Err(Memory) => Outcome {
            ended: Ended::Stopped(Stop::Memory),
            link: None,
            leaked: false,
        },
    };
    explain(rt, address, keys, options.timeout, outcome);
    outcome.ended.code()
}

/// Answers a script where these are its words, or gives the help that they ask for, or says what is
/// wrong with them. Gives the status.
pub fn run_script(rt: &HostRuntime, words: &[String], options: &Options<'_>) -> u8 {
    if words
        .iter()
        .any(|word| matches!(word.as_str(), "-h" | "--help"))
    {
        return print_help(rt, &Help::new(HELP, Some("script")));
    }
    match words {
        [_, address, keys] if !has_option(words) => {
            run(rt, address.as_str(), keys.as_str(), options)
        }
        [_] | [_, _] => say_wrong(rt, words, WrongWords::TooFew),
        _ => say_wrong(rt, words, WrongWords::Others),
    }
}
