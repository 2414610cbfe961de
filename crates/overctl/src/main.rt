//! The program `overctl`: an owner's and a reader's commands to a server over the network.
//!
//! [`read_job`] reads the words of the command line, and [`act`](ov_acts::act) does what they ask
//! for. Their contracts say what is asked in which order, what comes of it, and why each status
//! comes. Words that need no key are a question, and [`answer`](ov_listing::answer) gives the text
//! that is printed. `main` makes the real files and the real stream, calls them, and says on standard error
//! what went wrong and what to do.
//!
//! | module | what it does |
//! |---|---|
//! | `options` | the options among the words |
//! | `real` | the real files and the real stream |
//! | `patience` | what is said of a long wait, and when one ends |
//! | `draft`, `saving` | a result that is to be a file |
//! | `consent` | what is asked on a terminal before bytes are lost |
//! | `ending`, `asks`, `refusals` | what is said of how a job ended, by what its act asks for |
//! | `heard`, `unknown` | which refusal was put; which names of a list are no users' |
//! | `leaked` | whether a server shows the base master |
//! | `owning`, `own_texts` | commands by the owner's book, and what is said of how they ended |
//! | `consulting`, `book_files`, `book_texts` | questions to the owner's book, which ask no server |
//! | `scripting`, `script_texts` | a script of commands, and what is said of how it ended |
//! | `question` | questions that need no key |
//! | `ahead`, `spots` | a peer that sends the requests of a listing ahead |
//! | `usage`, `help`, `texts` | what is said of wrong words, and where help is asked for |
#![tactic(auto)]

mod ahead;
mod asks;
mod book_files;
mod book_texts;
mod consent;
mod consulting;
mod draft;
mod ending;
mod heard;
mod help;
mod leaked;
mod options;
mod own_texts;
mod owning;
mod patience;
mod question;
mod real;
mod refusals;
mod saving;
mod script_texts;
mod scripting;
mod spots;
mod texts;
mod unknown;
mod usage;

use consulting::run_book;
use options::{Options, Unparted, part};
use ov_acts::read_job;
use ov_consulting::read_book_job;
use ov_files::{hold_places, words_of};
use ov_owning::read_own_job;
use owning::run_own;
use real::run_job;
use scripting::run_script;
use std::io::ErrorKind;
use std::process::ExitCode;
use texts::WrongWords;
use usage::{ask_or_explain, say_no_places, say_out_of_memory, say_wrong, say_wrong_option};

/// Does what the words ask for, and gives the status.
fn answer_words(rt: &HostRuntime, words: &[String], options: &Options<'_>) -> u8 {
    if words.first().is_some_and(|word| word.as_str() == "own") {
        return answer_own(rt, words, options);
    }
    if words.first().is_some_and(|word| word.as_str() == "book") {
        return answer_book(rt, words, options);
    }
    if words.first().is_some_and(|word| word.as_str() == "script") {
        return run_script(rt, words, options);
    }
    match read_job(rt.alloc(), words) {
        Ok(job) => run_job(rt, &job, options),
        Err(7) => say_out_of_memory(rt),
        Err(_) => ask_or_explain(rt, words, options),
    }
}

/// Does what the words of `own` ask for, and gives the status.
fn answer_own(rt: &HostRuntime, words: &[String], options: &Options<'_>) -> u8 {
    match read_own_job(rt.alloc(), words) {
        Ok(job) => run_own(rt, job, options),
        Err(7) => say_out_of_memory(rt),
        Err(_) => ask_or_explain(rt, words, options),
    }
}

/// Takes the options out of the words, does what the others ask for, and gives the status.
fn answer_all(rt: &HostRuntime, words: &[String]) -> u8 {
    let parted = match part(rt.alloc(), words) {
        Ok(parted) => parted,
        Err(Unparted::Wrong(wrong)) => return say_wrong_option(rt, wrong),
        Err(Unparted::Memory) => return say_out_of_memory(rt),
    };
    let command = parted.words.first().map(|word| word.as_str());
    match command.and_then(|command| parted.options.foreign_to(command)) {
        Some(wrong) => say_wrong_option(rt, wrong),
        None => answer_words(rt, &parted.words, &parted.options),
    }
}

/// Asks the owner's book what the words of `book` ask for, and gives the status.
fn answer_book(rt: &HostRuntime, words: &[String], options: &Options<'_>) -> u8 {
    match read_book_job(rt.alloc(), words) {
        Ok(job) => run_book(rt, &job),
        Err(7) => say_out_of_memory(rt),
        Err(_) => ask_or_explain(rt, words, options),
    }
}

fn main(rt: HostRuntime) -> ExitCode {
    let Ok(_held) = hold_places(&rt) else {
        return ExitCode::from(say_no_places(&rt));
    };
    let code = match words_of(&rt) {
        Ok(words) => answer_all(&rt, &words),
        Err(error) if error.kind() == ErrorKind::OutOfMemory => say_out_of_memory(&rt),
        Err(_) => say_wrong(&rt, &[], WrongWords::NoText),
    };
    ExitCode::from(code)
}
